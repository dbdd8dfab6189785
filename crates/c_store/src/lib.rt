// The store for C: each call on geometry numbers and byte buffers. Nothing is kept between calls. Begin, write and delete place a sector in the
// unit that fits with the smallest gap; the three with `lowest` place it in the lowest unit that fits.
// Kept (2, 5) in this file: C's calls have these names and numbers, and each is exported by c_store_c, a static library: it takes a crate of its own.
#![tactic(auto)]

ghost use Rattle.std.specs.Prelude.{◌≡◌};
ghost use Rattle.rules.specs.Calls as calls;
ghost use Rattle.c_store.specs.Reports.{Reports, ShowsRead, geometry};

use c_report::Report;
use rules::{Geometry, Handle, Rule};

// Kept (2): c_hex has one with the same body, since its archive stands on no call of the store; script_play's takes a script's image.
// The geometry that two numbers name.
pub fn geometry_of(size: u32, units: u32) -> Geometry
    ensures { result ≡ geometry size units }
{
    Geometry {
        size: size as usize,
        units: units as usize,
    }
}

pub fn us_format(image: &mut [u8], size: u32, units: u32, allowance: u32) -> Report
    ensures { Reports (geometry size units) (calls.format allowance) image.old result image.new }
{
    let g = geometry_of(size, units);
    let a = call_end::format(image, g, allowance);
    c_report::reported(a)
}

pub fn us_mount(image: &mut [u8], size: u32, units: u32, allowance: u32) -> Report
    ensures { Reports (geometry size units) (calls.mount allowance) image.old result image.new }
{
    let g = geometry_of(size, units);
    let a = call_end::mount(image, g, allowance);
    c_report::reported(a)
}

pub fn us_begin(image: &mut [u8], size: u32, units: u32, allowance: u32) -> Report
    ensures { Reports (geometry size units) (calls.begin Rule.Tightest allowance) image.old result image.new }
{
    let g = geometry_of(size, units);
    let a = call_write::begin(image, g, Rule::Tightest, allowance);
    c_report::reported(a)
}

pub fn us_write(
    image: &mut [u8],
    size: u32,
    units: u32,
    file: u32,
    content: &[u8],
    allowance: u32,
) -> Report
    ensures { Reports (geometry size units) (calls.write Rule.Tightest file content.now allowance) image.old result image.new }
{
    let g = geometry_of(size, units);
    let a = call_write::write(image, g, Rule::Tightest, file as usize, content, allowance);
    c_report::reported(a)
}

pub fn us_delete(image: &mut [u8], size: u32, units: u32, file: u32, allowance: u32) -> Report
    ensures { Reports (geometry size units) (calls.delete Rule.Tightest file allowance) image.old result image.new }
{
    let g = geometry_of(size, units);
    let a = call_write::delete(image, g, Rule::Tightest, file as usize, allowance);
    c_report::reported(a)
}

pub fn us_begin_lowest(image: &mut [u8], size: u32, units: u32, allowance: u32) -> Report
    ensures { Reports (geometry size units) (calls.begin Rule.Lowest allowance) image.old result image.new }
{
    let g = geometry_of(size, units);
    let a = call_write::begin(image, g, Rule::Lowest, allowance);
    c_report::reported(a)
}

pub fn us_write_lowest(
    image: &mut [u8],
    size: u32,
    units: u32,
    file: u32,
    content: &[u8],
    allowance: u32,
) -> Report
    ensures { Reports (geometry size units) (calls.write Rule.Lowest file content.now allowance) image.old result image.new }
{
    let g = geometry_of(size, units);
    let a = call_write::write(image, g, Rule::Lowest, file as usize, content, allowance);
    c_report::reported(a)
}

pub fn us_delete_lowest(
    image: &mut [u8],
    size: u32,
    units: u32,
    file: u32,
    allowance: u32,
) -> Report
    ensures { Reports (geometry size units) (calls.delete Rule.Lowest file allowance) image.old result image.new }
{
    let g = geometry_of(size, units);
    let a = call_write::delete(image, g, Rule::Lowest, file as usize, allowance);
    c_report::reported(a)
}

pub fn us_commit(image: &mut [u8], size: u32, units: u32, allowance: u32) -> Report
    ensures { Reports (geometry size units) (calls.commit allowance) image.old result image.new }
{
    let g = geometry_of(size, units);
    let a = call_end::commit(image, g, allowance);
    c_report::reported(a)
}

pub fn us_abort(image: &mut [u8], size: u32, units: u32, allowance: u32) -> Report
    ensures { Reports (geometry size units) (calls.abort allowance) image.old result image.new }
{
    let g = geometry_of(size, units);
    let a = call_end::abort(image, g, allowance);
    c_report::reported(a)
}

pub fn us_read(image: &[u8], size: u32, units: u32, file: u32) -> Report
    ensures { ShowsRead (geometry size units) (calls.read file) image.now result }
{
    let g = geometry_of(size, units);
    let a = call_read::read(image, g, file as usize);
    c_report::reported(a)
}

pub fn us_read_open(image: &[u8], size: u32, units: u32, file: u32) -> Report
    ensures { ShowsRead (geometry size units) (calls.read_open file) image.now result }
{
    let g = geometry_of(size, units);
    let a = call_read::read_open(image, g, file as usize);
    c_report::reported(a)
}

pub fn us_read_at(image: &[u8], size: u32, units: u32, unit: usize, position: usize) -> Report
    ensures { ShowsRead (geometry size units) (calls.read_at unit position) image.now result }
{
    let g = geometry_of(size, units);
    let at = Handle {
        unit: unit,
        position: position,
    };
    let a = call_read::read_at(image, g, at);
    c_report::reported(a)
}
