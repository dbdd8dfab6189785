// A unit moved: its copy filled, the old home retired, the copy made live, the old home erased.
// Kept (5) in this file: a step lends one unit as a part of the image: so it takes the image, where units begin, a size or geometry, and the steps left.
#![tactic(auto)]

ghost use Rattle.std.specs.Prelude.{◌≡◌, true, ◌+◌, ◌%◌, ◌≤◌, ◌<◌, length, take, drop};
ghost use Rattle.rules.specs.Flash.{state, run, programs, words};
ghost use Rattle.rules.specs.Unit.{stands, header_bytes, size};
ghost use Rattle.rules.specs.Copy;
ghost use Rattle.rules.specs.Copy.{is_kept, packed, copies, is_copyable};
ghost use Rattle.rules.specs.Settled.{physical};
ghost use Rattle.rules.specs.Jobs.{emptied, move};
ghost use Rattle.laws.specs.Copies.{four, moved};
ghost use Rattle.unit.specs.Shapes.{array_of};
ghost use Rattle.step_move.specs.Copying.{TwoUnits, part, copied, Packs};

use rules::{Descriptor, Geometry, Run};

// The two units of a move, by where they begin.
#[derive(Clone, Copy)]
pub struct Way {
    pub from: usize,
    pub to: usize,
}

// Kept (2): it shares only the name: here words are programmed under an allowance, Text's puts bytes behind a text, an image's sets one byte.
// A descriptor, its sector at low, at a position of the unit at base.
fn put(
    image: &mut [u8],
    base: usize,
    size: usize,
    position: usize,
    d: Descriptor,
    low: usize,
    was: Run,
) -> Run
    requires { (base + size ≤ length image.old) × (size ≤ 4096) × (stands position + 8 ≤ size) × (low ≤ size) }
    ensures { state image.new result ≡ run (programs (base + stands position) (four (moved low d))) (state image.old was) }
{
    let at = rules::stands(position);
    let moved = Descriptor {
        offset: low as u16,
        ..d
    };
    flash::words_on(image, base, size, at, &unit::pack(moved.words()), was)
}

// So many bytes, an even number, from a source in the one unit to a target in the other, word by word.
fn carry(
    image: &mut [u8],
    size: usize,
    way: Way,
    source: usize,
    target: usize,
    len: usize,
    was: Run,
) -> Run
    requires { TwoUnits (length image.old) size way.from way.to × (source + len ≤ size) × (target + len ≤ size) × (len % 2 ≡ 0) }
    ensures { state image.new result ≡ run (programs (way.to + target) (words (take len (drop source (part image.old way.from size))))) (state image.old was) }
{
    let mut r = was;
    for i in (0..len).step_by(2) {
        let w = flash::word(image, way.from + (source + i));
        r = flash::program_on(image, way.to, size, target + i, w, r);
    }
    r
}

// A kept descriptor of the one unit and its sector in the other, the copy, the sector at low.
fn copy(
    image: &mut [u8],
    g: Geometry,
    way: Way,
    position: usize,
    d: Descriptor,
    low: usize,
    was: Run,
) -> Run
    requires { TwoUnits (length image.old) g.size way.from way.to × (g.size ≤ 4096) × (stands position + 8 ≤ g.size) × (is_kept d ≡ true) × (d.offset + size d ≤ g.size) × (low + size d ≤ g.size) }
    ensures { state image.new result ≡ run (copied (part image.old way.from g.size) way.to position d low) (state image.old was) }
{
    let source = usize::from(d.offset);
    let r = put(image, way.to, g.size, position, d, low, was);
    carry(image, g.size, way, source, low, d.size(), r)
}

// The first n descriptors of the one unit, ascending, the kept ones packed from the top down.
fn copy_all(image: &mut [u8], g: Geometry, way: Way, n: usize, was: Run) -> Run
    requires { TwoUnits (length image.old) g.size way.from way.to × (g.size ≤ 4096) × Packs g (part image.old way.from g.size) n 0 g.size }
    ensures { state image.new result ≡ run (copies way.to (part image.old way.from g.size) header_bytes (array_of n (part image.old way.from g.size)) (packed g.size (array_of n (part image.old way.from g.size)))) (state image.old was) }
{
    let mut r = was;
    let mut low = g.size;
    for p in 0..n {
        let d = unit::descriptor(&image[way.from..way.from + g.size], p);
        if d.is_kept() {
            low -= d.size();
            r = copy(image, g, way, p, d, low, r);
        }
    }
    r
}

// Kept (2): it shares only the name: here a copy gets what it holds; the others fill a read table, an image by its text, and one with FF.
// All that the copy holds of the old home before that is retired.
pub fn fill(image: &mut [u8], g: Geometry, way: Way, number: usize, was: Run) -> Run
    requires { TwoUnits (length image.old) g.size way.from way.to × (512 ≤ g.size) × (g.size ≤ 4096) × (number < 65536) × (is_copyable g (part image.old way.from g.size) ≡ true) }
    ensures { state image.new result ≡ run (Copy.fill g way.to number (part image.old way.from g.size)) (state image.old was) }
{
    let n = unit::room_of(&image[way.from..way.from + g.size]).n;
    let r = flash::program_on(image, way.to, g.size, unit::NUMBER_AT, number as u16, was);
    copy_all(image, g, way, n, r)
}

// The old home at from is erased.
pub fn empty(image: &mut [u8], g: Geometry, from: usize, was: Run) -> Run
    requires { from + g.size ≤ length image.old }
    ensures { state image.new result ≡ run (emptied g from) (state image.old was) }
{
    flash::erase_on(image, from, g.size, was)
}

// The one unit is moved to the other.
pub fn move_unit(image: &mut [u8], g: Geometry, way: Way, number: usize, was: Run) -> Run
    requires { TwoUnits (length image.old) g.size way.from way.to × (512 ≤ g.size) × (g.size ≤ 4096) × (number < 65536) × (is_copyable g (part image.old way.from g.size) ≡ true) }
    ensures { state image.new result ≡ run (move g number (physical way.from (part image.old way.from g.size)) (physical way.to (part image.old way.to g.size))) (state image.old was) }
{
    let a = fill(image, g, way, number, was);
    let b = flash::program_on(image, way.from, g.size, unit::STATE_AT, unit::RETIRED, a);
    let c = flash::program_on(image, way.to, g.size, unit::STATE_AT, unit::LIVE, b);
    empty(image, g, way.from, c)
}
