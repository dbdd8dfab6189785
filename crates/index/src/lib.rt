// Where each file's descriptors stand, from one look at the homes of an image; and what is read at such a place.
// Kept (5) in this file: a struct of an image, its geometry and a place would be made for one call each; three of these functions need no geometry.
#![tactic(auto)]

ghost use Rattle.std.specs.Prelude.{◌≡◌, ◌+◌, ◌-◌, ◌%◌, ◌≤◌, ◌<◌, length};
ghost use Rattle.rules.specs.Lists.{first, filter};
ghost use Rattle.rules.specs.Unit.{is_mark, is_pending_file, is_current_file, file_of};
ghost use Rattle.rules.specs.Settled.{survey, select};
ghost use Rattle.rules.specs.Calls.{is_at};
ghost use Rattle.index.specs.Shapes.{place_of, Homed, Indexed, none_noted, note_one, once, descriptor_in, base_at, start_at, handle_at, current_in};
ghost use Rattle.index.specs.Kinds.{note_empty};

use places::Places;
use rules::{Descriptor, Geometry, Handle};
use walk::Visitor;

pub mod places; // places.rt: places in order
pub mod walk; // walk.rt: each descriptor shown to a visitor

// The places, offsets in the image, of what is current of each file, of all that is pending, and of the first descriptor of
// each other kind that a call changes.
#[derive(Clone, Drop)]
pub struct Index {
    pub current: [u16; 256],
    pub pending: Places,
    pub opened: u16,
    pub committed: u16,
    pub torn: u16,
    pub allocated: u16,
}

// The first of a kind is kept: a place that is noted stays.
#[tactic(auto, unfolding(crate::specs::Shapes::once))]
pub fn keep_first(noted: &mut u16, place: u16)
    ensures { noted.new ≡ once noted.old place }
{
    if *noted == unit::NO_PLACE {
        *noted = place;
    }
}

impl Visitor for Index {
    ghost met = { note_one };

    ghost skips = { λ a d x h. note_empty a d x h };

    // Kept (2): Visitor's one method, which each visitor has; each makes something else of a descriptor. That of counts shares only the name.
    #[tactic(auto, unfolding(crate::specs::Shapes::note_one, rules::specs::Opened::descriptors))]
    fn meet(&mut self, d: Descriptor, place: u16) {
        match (d.flags, d.tag) {
            (unit::PENDING, unit::TRANSACTION) => keep_first(&mut self.opened, place),
            (unit::PENDING, _) => self.pending.push(place),
            (unit::CURRENT, unit::TRANSACTION) => keep_first(&mut self.committed, place),
            (unit::CURRENT, _) => keep_first(&mut self.current[d.file()], place),
            (unit::ALLOCATED, _) => keep_first(&mut self.allocated, place),
            (unit::ERASED, unit::ERASED) => {}
            (unit::ERASED, _) => keep_first(&mut self.torn, place),
            _ => {}
        }
    }
}

impl Index {
    // An index of nothing.
    #[tactic(auto, unfolding(crate::specs::Shapes::none_noted))]
    pub fn new() -> Index
        ensures { result ≡ none_noted }
    {
        Index {
            current: [unit::NO_PLACE; 256],
            pending: Places::new(),
            opened: unit::NO_PLACE,
            committed: unit::NO_PLACE,
            torn: unit::NO_PLACE,
            allocated: unit::NO_PLACE,
        }
    }

    // Kept (5): its callers have the three from a look and their image: a struct that lends them with Homed would be made in each and taken apart in walk.
    // Where everything stands that a call reads or changes is noted.
    pub fn note_all(&mut self, image: &[u8], g: Geometry, home: [u8; 64])
        requires { Homed g image.now home × (length (select is_pending_file (survey g image.now)) ≤ 257) × (self.old ≡ none_noted) }
        ensures { Indexed g image.now self.new }
    {
        walk::walk(image, g, home, self);
    }
}

// The file of the descriptor at a place.
#[tactic(auto, using(laws::specs::Words::word_drop), unfolding(rules::specs::Opened::descriptors))]
pub fn file_at(image: &[u8], place: u16) -> usize
    requires { place + 8 ≤ length image.now }
    ensures { (result ≡ file_of (descriptor_in image.now place)) × (result < 256) }
{
    usize::from(flash::word(image, usize::from(place) + unit::TAG_AT) % 256)
}

// The content length of the descriptor at a place.
#[tactic(auto, using(laws::specs::Words::word_drop), unfolding(rules::specs::Opened::descriptors))]
pub fn len_at(image: &[u8], place: u16) -> usize
    requires { place + 8 ≤ length image.now }
    ensures { (result ≡ (descriptor_in image.now place).len) × (result < 65536) }
{
    usize::from(flash::word(image, usize::from(place) + unit::LENGTH_AT))
}

// The descriptor at a place is a delete mark.
#[tactic(auto, using(laws::specs::Words::word_drop), unfolding(rules::specs::Opened::descriptors))]
pub fn is_mark_at(image: &[u8], place: u16) -> bool
    requires { place + 8 ≤ length image.now }
    ensures { result ≡ is_mark (descriptor_in image.now place) }
{
    flash::word(image, usize::from(place) + unit::TAG_AT) / 256 == unit::MARK_BYTE
}

// Where the unit of a place begins.
#[tactic(auto, unfolding(crate::specs::Shapes::base_at))]
pub fn base_of(g: Geometry, place: u16) -> usize
    requires { 1 ≤ g.size }
    ensures { (result ≡ base_at g place) × (result ≤ place) }
{
    let at = usize::from(place);
    at - at % g.size
}

// Where the sector of the descriptor at a place starts.
#[tactic(auto, using(laws::specs::Words::word_drop), unfolding(rules::specs::Opened::descriptors, crate::specs::Shapes::start_at))]
pub fn start_at(image: &[u8], g: Geometry, place: u16) -> usize
    requires { (1 ≤ g.size) × (place + 8 ≤ length image.now) }
    ensures { result ≡ start_at g image.now place }
{
    let offset = flash::word(image, usize::from(place) + unit::OFFSET_AT);
    base_of(g, place) + usize::from(offset)
}

// The handle of the descriptor at a place.
#[tactic(auto, unfolding(crate::specs::Shapes::handle_at))]
pub fn handle_at(image: &[u8], g: Geometry, place: u16) -> Handle
    requires { (1 ≤ g.size) × (place + 8 ≤ length image.now) × (16 ≤ place - base_at g place) }
    ensures { result ≡ handle_at g image.now place }
{
    let base = base_of(g, place);
    Handle {
        unit: usize::from(flash::word(image, base)),
        position: (usize::from(place) - base - rules::HEADER_BYTES) / rules::DESCRIPTOR_BYTES,
    }
}

// Kept (5): the three bounds are of one unit's bytes and where they begin: a type would be made for place_at's one call.
// The place of the descriptor that a handle names in its unit, which begins at base, where it is current.
#[tactic(auto, unfolding(crate::specs::Shapes::current_in, rules::specs::Unit::stands))]
fn current_in(unit: &[u8], base: usize, at: Handle) -> u16
    requires { (16 ≤ length unit.now) × (length unit.now ≤ 4096) × (base + length unit.now ≤ 65536) }
    ensures { result ≡ current_in base at.position unit.now }
{
    let position = at.position;
    if position < unit::room_of(unit).n && unit::descriptor(unit, position).is_current_file() {
        at.place(base) as u16
    } else {
        unit::NO_PLACE
    }
}

// Kept (5): call_read asks once, by the homes of the judge's look: a struct with Homed would be made there and taken apart here.
// The place of the descriptor that a handle names, where it is current.
pub fn place_at(image: &[u8], g: Geometry, home: [u8; 64], at: Handle) -> u16
    requires { Homed g image.now home }
    ensures { result ≡ place_of (first (filter (is_at at.unit at.position) (select is_current_file (survey g image.now)))) }
{
    if !at.check(g) {
        return unit::NO_PLACE;
    }
    let n = usize::from(home[at.unit]);
    current_in(walk::unit_at(image, g, n), g.base(n), at)
}
