// The archive for C: the calls of `c_passes` under the names that C knows, with the same clauses.
// Kept (2, 5) in this file: us_give, us_staff and us_register have the names and parameters of include/undernshade_passes.h.
#![tactic(auto)]

ghost use Rattle.std.specs.Prelude.{◌≡◌};
ghost use Rattle.c_store.specs.Reports.{geometry};
ghost use Rattle.pass_rules.specs.Give as rules;
ghost use Rattle.c_passes.specs.Shapes.{GivesPass};

use pass_rules::{PassReport, RegisterReport, StaffReport};

// Gives a pass to two people.
#[unsafe(no_mangle)]
pub extern "C" fn us_give(
    image: &mut [u8],
    size: u32,
    units: u32,
    first: u32,
    second: u32,
    allowance: u32,
) -> PassReport
    ensures { GivesPass (geometry size units) first second allowance image.old result image.new }
{
    c_passes::us_give(image, size, units, first, second, allowance)
}

// Looks at the committed list.
#[unsafe(no_mangle)]
pub extern "C" fn us_staff(image: &[u8], size: u32, units: u32) -> StaffReport
    ensures { result ≡ rules.staff_report (rules.staff_look (geometry size units) image.now) }
{
    c_passes::us_staff(image, size, units)
}

// Looks at the committed register.
#[unsafe(no_mangle)]
pub extern "C" fn us_register(image: &[u8], size: u32, units: u32) -> RegisterReport
    ensures { result ≡ rules.register_report (rules.register_look (geometry size units) image.now) }
{
    c_passes::us_register(image, size, units)
}
