// The steps of a new descriptor, of flags that change, and of a format, on numbers that the call has found.
// Kept (5) in this file: a step lends one unit as a part of the image: so it takes the image, where the unit begins, its size, and the steps left.
#![tactic(auto)]

ghost use Rattle.std.specs.Prelude.{◌≡◌, ◌+◌, ◌-◌, ◌%◌, ◌≤◌, ◌<◌, [], ◌∷◌, ◌++◌, length, take, drop};
ghost use Rattle.rules.specs.Flash;
ghost use Rattle.rules.specs.Flash.{state, step, run};
ghost use Rattle.rules.specs.Unit.{stands, old};
ghost use Rattle.rules.specs.Settled.{physical};
ghost use Rattle.rules.specs.Jobs.{fill_in, erases, headers, format_job};
ghost use Rattle.rules.specs.Settled.{units_of};
ghost use Rattle.laws.specs.Units.{RightGeometry};
ghost use Rattle.step_new.specs.Places.{Spot, SpotIf, AllSpots, become_at, one_at};

use rules::{Geometry, Handle, Run};

// A new descriptor: its handle, where its sector is to lie in its unit, and its tag.
#[derive(Clone, Copy)]
pub struct Newcomer {
    pub at: Handle,
    pub offset: usize,
    pub tag: u16,
}

// A new descriptor and its sector, in the unit at base.
#[tactic(auto, unfolding(rules::specs::Unit::stands))]
pub fn fill_in(
    image: &mut [u8],
    base: usize,
    size: usize,
    new: Newcomer,
    content: &[u8],
    was: Run,
) -> Run
    requires { (base + size ≤ length image.old) × (size ≤ 4096) × (stands new.at.position + 8 ≤ size) × (new.offset + (length content.now + length content.now % 2) ≤ size) }
    ensures { state image.new result ≡ run (fill_in (base + stands new.at.position) base new.offset new.tag content.now) (state image.old was) }
{
    let descriptor = new.at.offset();
    let len = content.len() as u16;
    let low = new.offset as u16;
    let a = flash::program_on(image, base, size, descriptor + unit::TAG_AT, new.tag, was);
    let b = flash::program_on(image, base, size, descriptor + unit::LENGTH_AT, len, a);
    let c = flash::program_on(image, base, size, descriptor + unit::OFFSET_AT, low, b);
    let d = flash::program_on(image, base, size, descriptor, unit::ALLOCATED, c);
    let e = flash::words_on(image, base, size, new.offset, content, d);
    flash::program_on(image, base, size, descriptor, unit::PENDING, e)
}

// The descriptor at a place of the image gets other flags.
pub fn become_one(image: &mut [u8], place: usize, flags: u16, was: Run) -> Run
    requires { Spot (length image.old) place }
    ensures { state image.new result ≡ step (Flash.program place flags) (state image.old was) }
{
    let size = image.len();
    flash::program_on(image, 0, size, place, flags, was)
}

// So with the descriptor at a place that may be none.
pub fn become_if(image: &mut [u8], place: usize, flags: u16, was: Run) -> Run
    requires { SpotIf (length image.old) place }
    ensures { state image.new result ≡ run (become_at flags (one_at place)) (state image.old was) }
{
    if place == unit::NOWHERE {
        was
    } else {
        become_one(image, place, flags, was)
    }
}

// The descriptors at some places get other flags, in order.
pub fn become_all(image: &mut [u8], places: &[u16], flags: u16, was: Run) -> Run
    requires { AllSpots (length image.old) places.now }
    ensures { state image.new result ≡ run (become_at flags places.now) (state image.old was) }
{
    let mut r = was;
    for place in places {
        r = become_one(image, usize::from(*place), flags, r);
    }
    r
}

// A new descriptor, and then the file's earlier pending one, if any, becomes old.
pub fn store_in(
    image: &mut [u8],
    g: Geometry,
    base: usize,
    new: Newcomer,
    content: &[u8],
    earlier: usize,
    was: Run,
) -> Run
    requires { RightGeometry g image.old × (base + g.size ≤ length image.old) × (stands new.at.position + 8 ≤ g.size) × (new.offset + (length content.now + length content.now % 2) ≤ g.size) × SpotIf (length image.old) earlier }
    ensures { state image.new result ≡ run (fill_in (base + stands new.at.position) base new.offset new.tag content.now ++ become_at old (one_at earlier)) (state image.old was) }
{
    let r = fill_in(image, base, g.size, new, content, was);
    become_if(image, earlier, unit::OLD, r)
}

// The unit at base is erased unless it is wholly FF.
fn wipe(image: &mut [u8], g: Geometry, base: usize, was: Run) -> Run
    requires { base + g.size ≤ length image.old }
    ensures { state image.new result ≡ run (erases g (physical base (take g.size (drop base image.old)) ∷ [])) (state image.old was) }
{
    if flash::is_erased(&image[base..base + g.size]) {
        was
    } else {
        flash::erase_on(image, base, g.size, was)
    }
}

// Every unit not wholly FF is erased, ascending.
fn wipe_all(image: &mut [u8], g: Geometry, was: Run) -> Run
    requires { RightGeometry g image.old }
    ensures { state image.new result ≡ run (erases g (units_of g image.old)) (state image.old was) }
{
    let mut r = was;
    for u in 0..g.units {
        r = wipe(image, g, g.base(u), r);
    }
    r
}

// The logical number and FFFE, in the header of the unit at base.
fn label(image: &mut [u8], g: Geometry, base: usize, number: usize, was: Run) -> Run
    requires { (base + g.size ≤ length image.old) × (512 ≤ g.size) × (number < 65536) }
    ensures { state image.new result ≡ run (headers g 1 base number) (state image.old was) }
{
    let r = flash::program_on(image, base, g.size, unit::NUMBER_AT, number as u16, was);
    flash::program_on(image, base, g.size, unit::STATE_AT, unit::LIVE, r)
}

// The headers of units 0..U-2.
fn label_all(image: &mut [u8], g: Geometry, was: Run) -> Run
    requires { RightGeometry g image.old }
    ensures { state image.new result ≡ run (headers g (g.units - 1) 0 0) (state image.old was) }
{
    let mut r = was;
    for u in 0..g.units - 1 {
        r = label(image, g, g.base(u), u, r);
    }
    r
}

// Kept (2): the steps of a format. call_end's, of the same name, is document 01's call, which refuses a geometry first and answers.
// Every unit not wholly FF is erased; then units 0..U-2 get their headers.
pub fn format(image: &mut [u8], g: Geometry, was: Run) -> Run
    requires { RightGeometry g image.old }
    ensures { state image.new result ≡ run (format_job g image.old) (state image.old was) }
{
    let r = wipe_all(image, g, was);
    label_all(image, g, r)
}
