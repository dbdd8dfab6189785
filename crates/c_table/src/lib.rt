// The calls through a lent table, for C: thin functions over those of the crates table_* and c_report.
// Kept (5) in this file: C's calls take an image, a size and units; filled and changed have the three as C gave them, and c_store's calls want them so.
#![tactic(auto)]

ghost use Rattle.std.specs.Prelude.{◌≡◌, length, get_or, set};
ghost use Rattle.rules.specs.Calls as calls;
ghost use Rattle.c_store.specs.Reports.{geometry};
ghost use Rattle.c_table.specs.Blank.{blank, stopped};
ghost use Rattle.table_renew.specs.Fresh.{everywhere, cleared};
ghost use Rattle.c_table.specs.Through.{Through};
ghost use Rattle.table_entries.specs.Puts.{laid_in};
ghost use Rattle.table_entries.specs.Says.{change_call};
ghost use Rattle.table_renew.specs.Settles.{fill_call};
ghost use Rattle.c_table.specs.Shows.{ShowsThrough};
ghost use Rattle.c_table.specs.Renewing.{FillsTable};

use c_report::Report;
use rules::{Rule, TableEntry};
use table_entries::{Front, TableCall};
use table_renew::{FillCall, Laid};

// No table yet: the mark.
const MARK: TableEntry = TableEntry {
    state: rules::MARKED,
    unit: 0,
    position: 0,
    len: 0,
};

// The table's file is none.
const NO_FILE: TableEntry = TableEntry {
    state: rules::NO_FILE,
    unit: 0,
    position: 0,
    len: 0,
};

// An entry; outside the table the mark.
pub fn at(t: &[TableEntry], i: usize) -> TableEntry
    ensures { result ≡ get_or t.now i blank }
{
    t.get(i).copied().unwrap_or(MARK)
}

// An entry is laid; outside the table nothing is.
pub fn lay_at(t: &mut [TableEntry], i: usize, e: TableEntry)
    ensures { t.new ≡ set t.old i e }
{
    if i < t.len() {
        t[i] = e;
    }
}

// One entry is laid everywhere. Each place gets it twice, first as a draft with state and unit 0: so the compiler makes one write of these two
// fields, and then three of eight entries.
pub fn lay_each(t: &mut [TableEntry], e: TableEntry)
    ensures { t.new ≡ everywhere e t.old }
{
    let draft = TableEntry {
        state: 0,
        unit: 0,
        ..e
    };
    for i in 0..t.len() {
        t[i] = draft;
        t[i] = e;
    }
}

// Kept (2): only the name is shared; text's empties a text, this one lays `no file` in each entry, and only after a call that is done.
// A call that is DONE (0) begins to fill the table: no file anywhere.
pub fn clear(t: &mut [TableEntry], number: u32)
    ensures { t.new ≡ cleared number t.old }
{
    if number == 0 {
        lay_each(t, NO_FILE);
    }
}

// A stopped call (1) marks the table.
pub fn stop(t: &mut [TableEntry], number: u32)
    ensures { t.new ≡ stopped number t.old }
{
    if number == 1 {
        lay_at(t, 0, MARK);
    }
}

// What the places tell is laid into the table, one after the other.
pub fn lay_all(t: &mut [TableEntry], image: &[u8], size: u32, places: &[u16])
    ensures { t.new ≡ laid_in size image.now places.now (length places.now) t.old }
{
    for (i, place) in places.iter().enumerate() {
        let x = table_entries::put_of(image, size, i, *place);
        lay_at(t, x.at, x.entry);
    }
}

// A call that fills the table.
fn filled(
    image: &mut [u8],
    size: u32,
    units: u32,
    table: &mut [TableEntry],
    call: FillCall,
    allowance: u32,
) -> Report
    ensures { Through (geometry size units) (fill_call call allowance) image.old table.old result image.new table.new }
{
    let r = table_renew::refill(image, size, units, table.len(), call, allowance);
    let mut laid = Laid::new();
    table_renew::after(image, size, units, r, &mut laid);
    clear(table, r.number);
    lay_all(table, image, size, laid.places.as_slice());
    stop(table, r.number);
    r
}

// A call that leaves the table as it is or marks it. It is taken into its callers, as what it calls is.
#[inline(always)]
fn changed(
    image: &mut [u8],
    size: u32,
    units: u32,
    table: &mut [TableEntry],
    call: TableCall,
    allowance: u32,
) -> Report
    ensures { Through (geometry size units) (change_call call.entry allowance) image.old table.old result image.new table.new }
{
    let front = Front {
        entries: table.len(),
        first: at(table, 0),
    };
    let r = table_entries::change(image, size, units, front, call, allowance);
    stop(table, r.number);
    r
}

#[tactic(auto, unfolding(table_renew::specs::Settles::fill_call))]
#[unsafe(no_mangle)]
pub extern "C" fn us_table_format(
    image: &mut [u8],
    size: u32,
    units: u32,
    table: &mut [TableEntry],
    allowance: u32,
) -> Report
    ensures { Through (geometry size units) (calls.format allowance) image.old table.old result image.new table.new }
{
    filled(image, size, units, table, FillCall::Format, allowance)
}

#[tactic(auto, unfolding(table_renew::specs::Settles::fill_call))]
#[unsafe(no_mangle)]
pub extern "C" fn us_table_mount(
    image: &mut [u8],
    size: u32,
    units: u32,
    table: &mut [TableEntry],
    allowance: u32,
) -> Report
    ensures { Through (geometry size units) (calls.mount allowance) image.old table.old result image.new table.new }
{
    filled(image, size, units, table, FillCall::Mount, allowance)
}

#[tactic(auto, unfolding(table_entries::specs::Says::change_call))]
#[unsafe(no_mangle)]
pub extern "C" fn us_table_begin(
    image: &mut [u8],
    size: u32,
    units: u32,
    table: &mut [TableEntry],
    allowance: u32,
) -> Report
    ensures { Through (geometry size units) (calls.begin Rule.Tightest allowance) image.old table.old result image.new table.new }
{
    changed(image, size, units, table, TableCall::Begin, allowance)
}

#[tactic(auto, unfolding(table_entries::specs::Says::change_call))]
#[unsafe(no_mangle)]
pub extern "C" fn us_table_write(
    image: &mut [u8],
    size: u32,
    units: u32,
    table: &mut [TableEntry],
    file: u32,
    content: &[u8],
    allowance: u32,
) -> Report
    ensures { Through (geometry size units) (calls.write Rule.Tightest file content.now allowance) image.old table.old result image.new table.new }
{
    changed(
        image,
        size,
        units,
        table,
        TableCall::Write(file, content),
        allowance,
    )
}

#[tactic(auto, unfolding(table_entries::specs::Says::change_call))]
#[unsafe(no_mangle)]
pub extern "C" fn us_table_delete(
    image: &mut [u8],
    size: u32,
    units: u32,
    table: &mut [TableEntry],
    file: u32,
    allowance: u32,
) -> Report
    ensures { Through (geometry size units) (calls.delete Rule.Tightest file allowance) image.old table.old result image.new table.new }
{
    changed(
        image,
        size,
        units,
        table,
        TableCall::Delete(file),
        allowance,
    )
}

#[unsafe(no_mangle)]
pub extern "C" fn us_table_commit(
    image: &mut [u8],
    size: u32,
    units: u32,
    table: &mut [TableEntry],
    allowance: u32,
) -> Report
    ensures { Through (geometry size units) (calls.commit allowance) image.old table.old result image.new table.new }
{
    let first = at(table, 0);
    let mut laid = Laid::new();
    let r = table_renew::commit(image, size, units, table.len(), first, allowance, &mut laid);
    lay_all(table, image, size, laid.places.as_slice());
    stop(table, r.number);
    r
}

#[tactic(auto, unfolding(table_entries::specs::Says::change_call))]
#[unsafe(no_mangle)]
pub extern "C" fn us_table_abort(
    image: &mut [u8],
    size: u32,
    units: u32,
    table: &mut [TableEntry],
    allowance: u32,
) -> Report
    ensures { Through (geometry size units) (calls.abort allowance) image.old table.old result image.new table.new }
{
    changed(image, size, units, table, TableCall::Abort, allowance)
}

#[unsafe(no_mangle)]
pub extern "C" fn us_table_fill(
    image: &[u8],
    size: u32,
    units: u32,
    table: &mut [TableEntry],
) -> Report
    ensures { FillsTable (geometry size units) image.now table.old result table.new }
{
    let mut laid = Laid::new();
    let r = table_renew::fill(image, size, units, table.len(), &mut laid);
    clear(table, r.number);
    lay_all(table, image, size, laid.places.as_slice());
    r
}

#[unsafe(no_mangle)]
pub extern "C" fn us_table_read(
    image: &[u8],
    size: u32,
    units: u32,
    table: &[TableEntry],
    file: u32,
) -> Report
    ensures { ShowsThrough (geometry size units) file image.now table.now result }
{
    let first = at(table, 0);
    let entry = at(table, file as usize);
    table_read::read(image, size, units, table.len(), first, entry, file)
}
