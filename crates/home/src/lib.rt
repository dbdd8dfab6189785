// A home: what its bytes must be.
// Kept (5) in this file: bounds of one unit's length; units are lent as plain slices, so a type would be made and taken apart at each call.
#![tactic(auto)]

ghost use Rattle.std.specs.Prelude.{◌≡◌, ◌&&◌, [], ◌≤◌, length};
ghost use Rattle.rules.specs.Lists.{all};
ghost use Rattle.rules.specs.Unit;
ghost use Rattle.rules.specs.Unit.{stands, is_listed, is_placed, apart, is_home};
ghost use Rattle.unit.specs.Shapes.{is_below, earlier, lowest_of, all_ok, array_of, Read};

use rules::{Descriptor, Geometry};
use unit::Room;

// Of a listed kind; a sector lies in the unit, from floor up.
#[tactic(auto, unfolding(rules::specs::Unit::is_placed))]
fn is_right(g: Geometry, floor: usize, d: Descriptor) -> bool
    ensures { result ≡ (is_listed d && is_placed g floor d) }
{
    d.is_listed() && (!d.has_sector() || d.lies(g, floor))
}

// The sectors of two descriptors have no byte in common.
#[tactic(auto, unfolding(rules::specs::Unit::apart, rules::specs::Unit::disjoint))]
fn are_apart(d: Descriptor, e: Descriptor) -> bool
    ensures { result ≡ apart d e }
{
    let from = usize::from(d.offset);
    let other = usize::from(e.offset);
    from + d.size() <= other
        || other + e.size() <= from
        || d.size() == 0
        || e.size() == 0
        || !d.has_sector()
        || !e.has_sector()
}

// A sector is apart from those of the first p descriptors, each in turn.
#[tactic(auto, unfolding(rules::specs::Unit::stands))]
fn is_clear(unit: &[u8], p: usize, d: Descriptor) -> bool
    requires { (stands p ≤ length unit.now) × (length unit.now ≤ 4096) }
    ensures { result ≡ all (apart d) (earlier p unit.now) }
{
    (0..p)
        .rev()
        .all(|q| are_apart(d, unit::descriptor(unit, q)))
}

// A sector ends at or below low, or there is nothing of it.
#[tactic(auto, unfolding(unit::specs::Shapes::is_below))]
fn is_below(d: Descriptor, low: usize) -> bool
    ensures { result ≡ is_below d low }
{
    !d.has_sector() || d.size() == 0 || usize::from(d.offset) + d.size() <= low
}

// A sector is apart from those of the first p descriptors, whose lowest offset is low: only one that reaches above it is held against each.
#[tactic(auto, using(unit::specs::Apart::below_clear))]
fn is_alone(unit: &[u8], p: usize, d: Descriptor, low: usize) -> bool
    requires { (stands p ≤ length unit.now) × (length unit.now ≤ 4096) × (low ≡ lowest_of (length unit.now) (earlier p unit.now)) }
    ensures { result ≡ all (apart d) (earlier p unit.now) }
{
    is_below(d, low) || is_clear(unit, p, d)
}

// Each descriptor is right, and no two sectors share a byte.
#[tactic(auto, using(unit::specs::LoopTurns::ok_end), unfolding(rules::specs::Unit::stands, unit::specs::Shapes::array_of, unit::specs::Shapes::earlier, unit::specs::Shapes::lowest_of))]
fn are_placed(g: Geometry, unit: &[u8], n: usize) -> bool
    requires { (stands n ≤ length unit.now) × (length unit.now ≤ 4096) }
    ensures { result ≡ all_ok g (stands n) [] (array_of n unit.now) }
{
    let floor = rules::stands(n);
    let mut low = unit.len();
    for p in 0..n {
        let d = unit::descriptor(unit, p);
        // Taken before the tests, it leaves the walk over the pairs a register more.
        let lowest = d.lower(low);
        if !(is_right(g, floor, d) && is_alone(unit, p, d, low)) {
            return false;
        }
        low = lowest;
    }
    true
}

// The gap is FF, every descriptor is of a listed kind, and sectors lie and do not overlap.
// Kept (2): home_table's shares only the name: it asks whether a unit stands among the homes, this one whether its bytes are a home's.
#[tactic(auto, using(unit::specs::BridgeFits::read_in, unit::specs::BridgeHome::home_all), unfolding(rules::specs::Unit::stands))]
pub fn is_home(g: Geometry, unit: &[u8], r: Room) -> bool
    requires { Read g unit.now r }
    ensures { result ≡ is_home g unit.now (Unit.room_of g unit.now) }
{
    let from = rules::stands(r.n);
    flash::is_erased(&unit[from..from + r.gap()]) && are_placed(g, unit, r.n)
}
