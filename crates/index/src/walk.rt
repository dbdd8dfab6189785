// The descriptors of an image's homes, one after the other, each shown to a visitor.
ghost use Rattle.std.specs.Prelude.{◌≡◌, true, ℕ, ◌+◌, ◌≤◌, ◌<◌, length};
ghost use Rattle.rules.specs.Flash.{is_geometry};
ghost use Rattle.rules.specs.Unit.{Descriptor, is_empty};
ghost use Rattle.rules.specs.Settled.{survey};
ghost use Rattle.home_table.specs.Bridge.{unit_at};
ghost use Rattle.index.specs.Lent.{Within};
ghost use Rattle.index.specs.Walk.{Homed, met_from, met_all, array_in};

use rules::{Descriptor, Geometry, Handle};

// Whoever is shown descriptors, each with the place where it stands.
pub trait Visitor {
    // What the descriptor at a place makes of the visitor.
    ghost met: { ℕ → Descriptor → Self → Self };

    // Kept (2): the method of the trait, which each visitor has; each makes something else of a descriptor. That of counts shares only the name.
    fn meet(&mut self, d: Descriptor, place: u16)
        ensures { self.new ≡ met place d self.old };

    // An empty one changes nothing, so that a walk may leave it out.
    ghost skips: { (place : ℕ) (d : Descriptor) (x : Self) → is_empty d ≡ true → met place d x ≡ x };
}

// Kept (2): home_table's Store::unit, for whoever has an image of a right geometry and no Store: it would be made for each home and taken apart here.
// The unit that stands n-th in the image.
pub fn unit_at(image: &[u8], g: Geometry, n: usize) -> &[u8]
    requires right { is_geometry g (length image.now) ≡ true }
    requires below { n < g.units }
    ensures unit { result.now ≡ unit_at g.size image.now n }
    ensures long { length result.now ≡ g.size }
    ensures within { Within g image.now n }
{
    let base = g.base(n);
    &image[base..base + g.size]
}

// The descriptors of a logical unit, which begins at base, read upward as far as the lowest sector, but for empty ones.
#[tactic(auto, unfolding(rules::specs::Unit::stands))]
fn walk_unit<V: Visitor>(unit: &[u8], base: usize, number: usize, visitor: &mut V)
    requires { (16 ≤ length unit.now) × (length unit.now ≤ 4096) × (base + length unit.now ≤ 65536) }
    ensures { visitor.new ≡ met_from V.met base 0 (array_in unit.now) visitor.old }
{
    let mut low = unit.len();
    let mut p = unit::used_from(unit, 0, low);
    // Kept (3): each descriptor may lower the end of the walk, and the next is read only below it: no range has that end.
    while rules::stands(p) + rules::DESCRIPTOR_BYTES <= low {
        let d = unit::descriptor(unit, p);
        let at = Handle {
            unit: number,
            position: p,
        };
        visitor.meet(d, at.place(base) as u16);
        low = d.lower(low);
        p = unit::used_from(unit, p + 1, low);
    }
}

// Kept (5): note_all, seek and the listing hand on what they are given; a struct with Homed would be made in each of them and taken apart here.
// The descriptors of all homes, by logical number and position.
pub fn walk<V: Visitor>(image: &[u8], g: Geometry, home: [u8; 64], visitor: &mut V)
    requires { Homed g image.now home }
    ensures { visitor.new ≡ met_all V.met (survey g image.now).entries visitor.old }
{
    for l in 0..g.units - 1 {
        let n = usize::from(home[l]);
        walk_unit(unit_at(image, g, n), g.base(n), l, visitor);
    }
}
