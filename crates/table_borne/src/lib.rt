// A table's length, and what an entry shows of the unit that is its home.
// Kept (5) in this file: a unit is lent as a part of the image; these bound its length and its start, and a type would be made at each call.
#![tactic(auto)]

ghost use Rattle.std.specs.Prelude.{◌≡◌, ◌≤◌, eqb, length, drop};
ghost use Rattle.rules.specs.Unit.{header_bytes, stands};
ghost use Rattle.table_borne.specs.Shapes.{bears_by, given_by, is_over, all_over, shown_in};

use rules::{Descriptor, Geometry, Given, Handle, TableEntry};

// A table has 256 entries, no fewer and no more.
pub fn is_whole(entries: usize) -> bool
    ensures { result ≡ eqb entries 256 }
{
    entries == rules::ENTRIES
}

// The descriptor bears out an entry of a file: current data of that file with that length, whose sector lies from floor up.
#[tactic(auto, unfolding(crate::specs::Shapes::bears_by, rules::specs::Unit::is_current))]
fn bears_out(g: Geometry, d: Descriptor, floor: usize, len: u16, file: usize) -> bool
    ensures { result ≡ bears_by g d floor len file }
{
    d.flags == unit::CURRENT && d.is_data() && d.file() == file && d.len == len && d.lies(g, floor)
}

// What is given of a descriptor of a unit that begins at base; the start of an empty content is 0.
#[tactic(auto, unfolding(crate::specs::Shapes::given_by))]
fn given_by(d: Descriptor, base: usize, at: Handle) -> Given
    requires { base ≤ 65536 }
    ensures { result ≡ given_by d base at }
{
    let len = usize::from(d.len);
    let start = if len == 0 {
        0
    } else {
        base + usize::from(d.offset)
    };
    Given {
        at,
        start,
        len,
        ..Given::NOTHING
    }
}

// The descriptor has no sector that begins below floor.
#[tactic(auto, unfolding(crate::specs::Shapes::is_over))]
fn is_over(d: Descriptor, floor: usize) -> bool
    ensures { result ≡ is_over d floor }
{
    floor <= usize::from(d.offset) || !d.has_sector()
}

// None of the first descriptors has one: so the array, read upward, comes to the next.
#[tactic(auto, unfolding(rules::specs::Unit::stands))]
fn all_over(unit: &[u8], many: usize, floor: usize) -> bool
    requires { (stands many ≤ length unit.now) × (length unit.now ≤ 4096) }
    ensures { result ≡ all_over many (drop header_bytes unit.now) floor }
{
    (0..many).all(|q| is_over(unit::descriptor(unit, q), floor))
}

// What an entry of a file shows of its home, which begins at base: its position is below n where no sector before it begins below floor.
#[tactic(auto, unfolding(crate::specs::Shapes::shown_in, rules::specs::Unit::stands))]
pub fn shown_in(g: Geometry, unit: &[u8], base: usize, x: TableEntry, file: usize) -> Option<Given>
    requires { (16 ≤ length unit.now) × (length unit.now ≤ 4096) × (base ≤ 65536) }
    ensures { result ≡ shown_in g base unit.now x file }
{
    let position = usize::from(x.position);
    let floor = rules::stands(position + 1);
    if unit.len() < floor {
        return None;
    }
    let d = unit::descriptor(unit, position);
    let borne = bears_out(g, d, floor, x.len, file) && all_over(unit, position, floor);
    let at = Handle {
        unit: usize::from(x.unit),
        position,
    };
    borne.then_some(given_by(d, base, at))
}
