// Place: where a sector of even size goes, by the physical unit of each logical number; and a unit as a reclaim would leave it.
#![tactic(auto)]

ghost use Rattle.std.specs.Prelude.{◌≡◌, None, Some, cond, ◌&&◌, ◌||◌, ◌+◌, ◌-◌, ◌≤◌, ◌<◌, ltb, length};
ghost use Rattle.rules.specs.Unit;
ghost use Rattle.rules.specs.Unit.{stands, room_for, is_empty};
ghost use Rattle.rules.specs.Copy.{packed};
ghost use Rattle.rules.specs.Jobs;
ghost use Rattle.rules.specs.Jobs.{fitting, least, to_reclaim};
ghost use Rattle.rules.specs.declared.Rule.TheVariants.{Lowest};
ghost use Rattle.laws.specs.Units.{RightGeometry};
ghost use Rattle.unit.specs.Shapes.{array_of, kept_from, unkept, RoomIs, Read};
ghost use Rattle.place.specs.Homes.{WholeUnit, HomesTable, home_in, homes_at};
ghost use Rattle.place.specs.Search.{fit_in, told, told_at, once, as_fit, place_in};

use rules::{Geometry, Handle, Rule};
use unit::Room;

// Kept (1): both are places that were found, and neither is a refusal: as a Result the second one would read as an error.
// A handle in a unit that fits as it stands, or a unit that fits once it is reclaimed.
#[derive(Clone, Copy)]
pub enum Place {
    AsItStands(Handle),
    OnceReclaimed(usize),
}

// A unit in which a sector fits: its lowest vacant position, and its gap.
#[derive(Clone, Copy)]
struct Fit {
    at: Handle,
    gap: usize,
}

impl Fit {
    // Kept (5): one number's bound: a type for the size of a sector would be made at the one call of place_of and taken apart in each sum.
    // A unit whose lowest vacant position is given, or n where it has none below, if a sector of size e fits.
    fn new(number: usize, room: Room, vacant: usize, e: usize) -> Option<Fit>
        requires { (room.n ≤ 4096) × (e ≤ 65536) }
        ensures { result ≡ told number room vacant e }
    {
        let gap = room.gap();
        let fits = vacant < room.n && e <= gap || e + rules::DESCRIPTOR_BYTES <= gap;
        let at = Handle {
            unit: number,
            position: vacant,
        };
        fits.then_some(Fit { at, gap })
    }

    // Kept (5): as first_empty, and one number's bound: a type for these facts would be made at seek's one call and taken apart in Fit::new.
    // At a position of a unit, if that is an empty one or n and a sector of size e fits.
    fn at_position(unit: &[u8], room: Room, at: Handle, e: usize) -> Option<Fit>
        requires { (stands room.n ≤ length unit.now) × (length unit.now ≤ 4096) × (at.position ≤ room.n) × (e ≤ 65536) }
        ensures { result ≡ told_at at.unit room (array_of room.n unit.now) at.position e }
    {
        if at.position < room.n && !unit::descriptor(unit, at.position).is_empty() {
            return None;
        }
        Fit::new(at.unit, room, at.position, e)
    }

    // The one with the smaller gap, and on a tie the first.
    fn tighter(self, next: Fit) -> Fit
        ensures { result ≡ cond (ltb next.gap self.gap) next self }
    {
        if next.gap < self.gap { next } else { self }
    }

    // The one with the greater gap, and on a tie the first.
    fn wider(self, next: Fit) -> Fit
        ensures { result ≡ cond (ltb self.gap next.gap) next self }
    {
        if self.gap < next.gap { next } else { self }
    }
}

// Kept (5): the bounds are of the unit and how many positions are read: a type for both would be made in standing for this one call.
// The lowest empty one of the first n positions, else n.
#[tactic(auto, unfolding(rules::specs::Unit::stands))]
fn first_empty(unit: &[u8], n: usize) -> usize
    requires { (stands n ≤ length unit.now) × (length unit.now ≤ 4096) }
    ensures { result ≡ Jobs.vacant (array_of n unit.now) }
{
    (0..n)
        .find(|p| unit::descriptor(unit, *p).is_empty())
        .unwrap_or(n)
}

// Kept (5): as first_empty: a type for a unit and a number of its positions would be made at each of two calls, of two different rooms.
// The lowest of the first n positions that a reclaim would leave empty, else n.
#[tactic(auto, unfolding(rules::specs::Unit::stands))]
pub fn first_unkept(unit: &[u8], n: usize) -> usize
    requires { (stands n ≤ length unit.now) × (length unit.now ≤ 4096) }
    ensures { result ≡ unkept (array_of n unit.now) }
{
    (0..n)
        .find(|p| !unit::descriptor(unit, *p).is_kept())
        .unwrap_or(n)
}

// Kept (5): as first_empty: a type for a unit and a number of its positions would be made in reclaimed for this one call.
// The first n descriptors as a reclaim would leave them, to n and low.
#[tactic(auto, unfolding(rules::specs::Unit::stands, unit::specs::Shapes::array_of))]
fn kept_room(unit: &[u8], n: usize) -> Room
    requires { (stands n ≤ length unit.now) × (length unit.now ≤ 4096) }
    ensures { (result ≡ kept_from (array_of n unit.now) 0 (length unit.now) 0) × (result.n ≤ n) }
{
    let mut room = Room {
        n: 0,
        low: unit.len(),
    };
    for p in 0..n {
        let d = unit::descriptor(unit, p);
        if d.is_kept() {
            room = Room {
                n: p + 1,
                low: room.low.saturating_sub(d.size()),
            };
        }
    }
    room
}

// The room as a reclaim would leave it.
pub fn reclaimed(g: Geometry, unit: &[u8], r: Room) -> Room
    requires { Read g unit.now r }
    ensures { RoomIs result (room_for g (packed g.size (Unit.room_of g unit.now).array)) × (result.n ≤ r.n) }
{
    kept_room(unit, r.n)
}

// An image's homes: its bytes, and the physical unit of each logical number.
#[derive(Clone, Copy)]
struct HomeUnits<'a> {
    image: &'a [u8],
    g: Geometry,
    table: &'a [u8; 64],
    ghost right: { RightGeometry g image.now },
    ghost named: { HomesTable g table.now },
}

impl<'a> HomeUnits<'a> {
    // Kept (2, 5): Housing::home of home_table goes this way too, by homes that the judge holds; here they are a look's table. A bound's type would be made each turn.
    // The unit of a logical number.
    fn unit(&self, number: usize) -> &'a [u8]
        requires { number < self.now.g.units - 1 }
        ensures whole { WholeUnit self.now.g result.now }
        ensures same { result.now ≡ (home_in self.now.g self.now.image.now self.now.table.now number).unit.bytes }
    {
        let base = self.g.base(usize::from(self.table[number]));
        &self.image[base..base + self.g.size]
    }

    // Kept (5): two numbers' bounds: the chains give numbers below the homes' count, and a type for one would be made and taken apart at each turn.
    // The unit of a logical number, if a sector of size e fits.
    #[tactic(auto, unfolding(rules::specs::Unit::stands))]
    fn standing(&self, number: usize, e: usize) -> Option<Fit>
        requires { (number < self.now.g.units - 1) × (e ≤ 65536) }
        ensures { result ≡ fit_in e (home_in self.now.g self.now.image.now self.now.table.now number) }
    {
        let unit = self.unit(number);
        let room = unit::room_of(unit);
        Fit::new(number, room, first_empty(unit, room.n), e)
    }

    // Kept (5): two numbers' bounds: the chains give numbers below the homes' count, and a type for one would be made and taken apart at each turn.
    // The unit of a logical number, if a sector of size e fits once it is reclaimed.
    #[tactic(auto, unfolding(rules::specs::Unit::stands))]
    fn once_reclaimed(&self, number: usize, e: usize) -> Option<Fit>
        requires { (number < self.now.g.units - 1) × (e ≤ 65536) }
        ensures { result ≡ fit_in e (once self.now.g (home_in self.now.g self.now.image.now self.now.table.now number)) }
    {
        let unit = self.unit(number);
        let room = reclaimed(self.g, unit, unit::room_of(unit));
        Fit::new(number, room, first_unkept(unit, room.n), e)
    }

    // Kept (5): one number's bound: a type for the size of a sector would be made in place_of and taken apart in Fit::new.
    // The unit that fits and comes first by the rule: the one with the smallest gap, the lowest number on a tie; or the one with the lowest number.
    fn fitting(&self, rule: Rule, e: usize) -> Option<Fit>
        requires { e ≤ 65536 }
        ensures { result ≡ as_fit (least rule (fitting e (homes_at self.now.g self.now.image.now self.now.table.now (self.now.g.units - 1) 0))) }
    {
        match rule {
            Rule::Tightest => (0..self.g.units - 1)
                .filter_map(|number| self.standing(number, e))
                .reduce(Fit::tighter),
            Rule::Lowest => self.seek(e),
        }
    }

    // Kept (2, 5): a place is sought here, and a file's descriptors in index_seek. One number's bound is left, as in fitting.
    // The lowest unit that fits, at its lowest empty position or else n: the search is left as soon as it is known.
    fn seek(&self, e: usize) -> Option<Fit>
        requires { e ≤ 65536 }
        ensures { result ≡ as_fit (least Lowest (fitting e (homes_at self.now.g self.now.image.now self.now.table.now (self.now.g.units - 1) 0))) }
    {
        'search: {
            for number in 0..self.g.units - 1 {
                let unit = self.unit(number);
                let room = unit::room_of(unit);
                for position in 0..=room.n {
                    let at = Handle {
                        unit: number,
                        position,
                    };
                    if let Some(fit) = Fit::at_position(unit, room, at, e) {
                        break 'search Some(fit);
                    }
                }
            }
            None
        }
    }

    // Kept (5): one number's bound: a type for the size of a sector would be made in place_of and taken apart in Fit::new.
    // The unit to reclaim: of those that would then fit, the one with the greatest gap, the lowest number on a tie.
    fn to_reclaim(&self, e: usize) -> Option<Fit>
        requires { e ≤ 65536 }
        ensures { result ≡ as_fit (to_reclaim self.now.g e (homes_at self.now.g self.now.image.now self.now.table.now (self.now.g.units - 1) 0)) }
    {
        (0..self.g.units - 1)
            .filter_map(|number| self.once_reclaimed(number, e))
            .reduce(Fit::wider)
    }
}

// Kept (2, 5): copy's of this name packs one position. The struct for these facts is HomeUnits, which is made here; one number's bound is left.
// The unit that fits by the rule, else the one to reclaim, else none.
pub fn place_of(image: &[u8], g: Geometry, home: &[u8; 64], rule: Rule, e: usize) -> Option<Place>
    requires { RightGeometry g image.now × HomesTable g home.now × (e ≤ 65536) }
    ensures { result ≡ place_in g rule e (homes_at g image.now home.now (g.units - 1) 0) }
{
    let homes = HomeUnits {
        image,
        g,
        table: home,
    };
    match homes.fitting(rule, e) {
        Some(fit) => Some(Place::AsItStands(fit.at)),
        None => homes
            .to_reclaim(e)
            .map(|fit| Place::OnceReclaimed(fit.at.unit)),
    }
}
