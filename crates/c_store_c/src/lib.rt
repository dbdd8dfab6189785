// The archive for C: the calls of `c_store` under the names that C knows, with the same clauses.
// Kept (2, 5) in this file: C calls these names with these numbers; each hands them to the function of c_store of the same name, and does no more.
#![tactic(auto)]

ghost use Rattle.rules.specs.Calls as calls;
ghost use Rattle.c_store.specs.Reports.{Reports, ShowsRead, geometry};

use c_report::Report;
use rules::Rule;

#[unsafe(no_mangle)]
pub extern "C" fn us_format(image: &mut [u8], size: u32, units: u32, allowance: u32) -> Report
    ensures { Reports (geometry size units) (calls.format allowance) image.old result image.new }
{
    c_store::us_format(image, size, units, allowance)
}

#[unsafe(no_mangle)]
pub extern "C" fn us_mount(image: &mut [u8], size: u32, units: u32, allowance: u32) -> Report
    ensures { Reports (geometry size units) (calls.mount allowance) image.old result image.new }
{
    c_store::us_mount(image, size, units, allowance)
}

#[unsafe(no_mangle)]
pub extern "C" fn us_begin(image: &mut [u8], size: u32, units: u32, allowance: u32) -> Report
    ensures { Reports (geometry size units) (calls.begin Rule.Tightest allowance) image.old result image.new }
{
    c_store::us_begin(image, size, units, allowance)
}

#[unsafe(no_mangle)]
pub extern "C" fn us_write(
    image: &mut [u8],
    size: u32,
    units: u32,
    file: u32,
    content: &[u8],
    allowance: u32,
) -> Report
    ensures { Reports (geometry size units) (calls.write Rule.Tightest file content.now allowance) image.old result image.new }
{
    c_store::us_write(image, size, units, file, content, allowance)
}

#[unsafe(no_mangle)]
pub extern "C" fn us_delete(
    image: &mut [u8],
    size: u32,
    units: u32,
    file: u32,
    allowance: u32,
) -> Report
    ensures { Reports (geometry size units) (calls.delete Rule.Tightest file allowance) image.old result image.new }
{
    c_store::us_delete(image, size, units, file, allowance)
}

#[unsafe(no_mangle)]
pub extern "C" fn us_begin_lowest(image: &mut [u8], size: u32, units: u32, allowance: u32) -> Report
    ensures { Reports (geometry size units) (calls.begin Rule.Lowest allowance) image.old result image.new }
{
    c_store::us_begin_lowest(image, size, units, allowance)
}

#[unsafe(no_mangle)]
pub extern "C" fn us_write_lowest(
    image: &mut [u8],
    size: u32,
    units: u32,
    file: u32,
    content: &[u8],
    allowance: u32,
) -> Report
    ensures { Reports (geometry size units) (calls.write Rule.Lowest file content.now allowance) image.old result image.new }
{
    c_store::us_write_lowest(image, size, units, file, content, allowance)
}

#[unsafe(no_mangle)]
pub extern "C" fn us_delete_lowest(
    image: &mut [u8],
    size: u32,
    units: u32,
    file: u32,
    allowance: u32,
) -> Report
    ensures { Reports (geometry size units) (calls.delete Rule.Lowest file allowance) image.old result image.new }
{
    c_store::us_delete_lowest(image, size, units, file, allowance)
}

#[unsafe(no_mangle)]
pub extern "C" fn us_commit(image: &mut [u8], size: u32, units: u32, allowance: u32) -> Report
    ensures { Reports (geometry size units) (calls.commit allowance) image.old result image.new }
{
    c_store::us_commit(image, size, units, allowance)
}

#[unsafe(no_mangle)]
pub extern "C" fn us_abort(image: &mut [u8], size: u32, units: u32, allowance: u32) -> Report
    ensures { Reports (geometry size units) (calls.abort allowance) image.old result image.new }
{
    c_store::us_abort(image, size, units, allowance)
}

#[unsafe(no_mangle)]
pub extern "C" fn us_read(image: &[u8], size: u32, units: u32, file: u32) -> Report
    ensures { ShowsRead (geometry size units) (calls.read file) image.now result }
{
    c_store::us_read(image, size, units, file)
}

#[unsafe(no_mangle)]
pub extern "C" fn us_read_open(image: &[u8], size: u32, units: u32, file: u32) -> Report
    ensures { ShowsRead (geometry size units) (calls.read_open file) image.now result }
{
    c_store::us_read_open(image, size, units, file)
}

#[unsafe(no_mangle)]
pub extern "C" fn us_read_at(
    image: &[u8],
    size: u32,
    units: u32,
    unit: usize,
    position: usize,
) -> Report
    ensures { ShowsRead (geometry size units) (calls.read_at unit position) image.now result }
{
    c_store::us_read_at(image, size, units, unit, position)
}
