// The lines of a script about pass lists: each call made, and the line that answers it.
// Kept (5) in this file: the fact is the room for one line, a bound that differs by kind of line; a type would be made and taken apart at each call.
#![tactic(auto)]

ghost use Rattle.std.specs.Prelude.{◌≡◌, ◌+◌, ◌≤◌, ◌++◌, length};
ghost use Rattle.c_store.specs.Reports.{geometry};
ghost use Rattle.script_passes.specs.Answered.{given_line, staff_line, register_line, image_after, answer_to};

use pass_rules::{PassReport, RegisterReport, StaffReport};
use script::PassLine;
use text::Text;

// What giving a pass reports, and the hash of the image.
#[tactic(auto, using(script_answers::specs::Laws::decimal_long, std::proofs::lemmas::Grind::common_steps))]
fn put_given<const N: usize>(out: &mut Text<N>, r: PassReport, image: &[u8])
    requires { length out.old + 120 ≤ N }
    ensures text { out.new ≡ out.old ++ given_line r image.now }
    ensures short { length out.new ≤ length out.old + 120 }
{
    out.put_pair(b"number=", r.number as usize);
    out.put_pair(b" steps=", r.steps as usize);
    out.put_pair(b" pass=", r.pass);
    out.put_keyed(b" image=", script_answers::hash(image) as usize);
}

// What a look at the list reports.
#[tactic(auto, using(script_answers::specs::Laws::decimal_long, std::proofs::lemmas::Grind::common_steps))]
fn put_staff<const N: usize>(out: &mut Text<N>, r: StaffReport)
    requires { length out.old + 120 ≤ N }
    ensures text { out.new ≡ out.old ++ staff_line r }
    ensures short { length out.new ≤ length out.old + 120 }
{
    out.put_pair(b"number=", r.number as usize);
    out.put_pair(b" night=", r.night);
    out.put_pair(b" zone=", r.zone);
    out.put_keyed(b" people=", r.people);
}

// What a look at the register reports.
#[tactic(auto, using(script_answers::specs::Laws::decimal_long, std::proofs::lemmas::Grind::common_steps))]
fn put_register<const N: usize>(out: &mut Text<N>, r: RegisterReport)
    requires { length out.old + 120 ≤ N }
    ensures text { out.new ≡ out.old ++ register_line r }
    ensures short { length out.new ≤ length out.old + 120 }
{
    out.put_pair(b"number=", r.number as usize);
    out.put_keyed(b" count=", r.count);
}

// Kept (2, 5): shares its name with `play_pass` of script_play, which calls this; us_give, us_staff and us_register, C's calls, take these three.
// One line, on an image with its geometry numbers.
pub fn play_pass<const N: usize>(
    image: &mut [u8],
    size: u32,
    units: u32,
    out: &mut Text<N>,
    c: PassLine,
)
    requires { length out.old + 120 ≤ N }
    ensures image { image.new ≡ image_after (geometry size units) image.old c }
    ensures text { out.new ≡ out.old ++ answer_to (geometry size units) image.old c }
    ensures short { length out.new ≤ length out.old + 120 }
{
    match c {
        PassLine::Give {
            first,
            second,
            allowance,
        } => {
            let r = c_passes::us_give(image, size, units, first, second, allowance);
            put_given(out, r, image);
        }
        PassLine::Staff => put_staff(out, c_passes::us_staff(image, size, units)),
        PassLine::Register => put_register(out, c_passes::us_register(image, size, units)),
    }
}
