// The entries of a table: what one says, what is laid into it from an image, and the calls that leave a table as it is or mark it.
// Kept (5) in this file: C's calls give an image, a size and units, and c_store's take them so; put_of alone calls entry_at, and has just tested its two facts.
#![tactic(auto)]

ghost use Rattle.std.specs.Prelude.{◌≡◌, ◌+◌, ◌/◌, ◌≤◌, length};
ghost use Rattle.rules.specs.Calls as calls;
ghost use Rattle.rules.specs.Table.{no_file};
ghost use Rattle.c_store.specs.Reports.{Reports, geometry};
ghost use Rattle.table_entries.specs.Says.{usable_by, MakesBy, change_call, stale_report, refusal};
ghost use Rattle.table_entries.specs.Puts.{entry_at, put_in, is_in, position_in};

use c_report::Report;
use rules::{Geometry, NotDone, TableEntry};

// The front of a table, all that a call looks at that leaves the table as it is or marks it: how many entries there are, and the first.
#[derive(Clone, Copy)]
pub struct Front {
    pub entries: usize,
    pub first: TableEntry,
}

// A call that leaves the table as it is or marks it.
#[derive(Clone, Copy)]
pub enum TableCall<'a> {
    Begin,
    Write(u32, &'a [u8]),
    Delete(u32),
    Abort,
}

// An entry, and the file that it is laid for.
#[derive(Clone, Copy)]
pub struct Put {
    pub at: usize,
    pub entry: TableEntry,
}

// No file.
#[tactic(auto, unfolding(rules::specs::Table::no_file))]
pub fn no_file() -> TableEntry
    ensures { result ≡ no_file }
{
    TableEntry {
        state: rules::NO_FILE,
        unit: 0,
        position: 0,
        len: 0,
    }
}

// A table is usable by what its first entry says: that there is a file, or none.
#[tactic(auto, unfolding(crate::specs::Says::usable_by, rules::specs::Table::says_none, rules::specs::Table::says_file))]
pub fn is_usable(first: TableEntry) -> bool
    ensures { result ≡ usable_by first }
{
    first.state == rules::NO_FILE || first.state == rules::A_FILE
}

// Kept (2): only the name is shared; hex_input and listing_text write the words of a refusal into a text, this makes the report that C gets.
// A refusal as C sees it.
#[tactic(auto, unfolding(crate::specs::Says::refusal))]
pub fn refused(reason: NotDone) -> Report
    ensures { result ≡ refusal reason }
{
    c_report::reported(Err(reason))
}

// 2, 3, 4, and else 12 STALE TABLE.
pub fn stale(image: &[u8], size: u32, units: u32) -> Report
    ensures { result ≡ stale_report (geometry size units) image.now }
{
    let g = c_store::geometry_of(size, units);
    match call_look::settled(image, g) {
        Ok(_) => refused(NotDone::StaleTable),
        Err(reason) => refused(reason),
    }
}

// Kept (2): only the name is shared; table_renew's formats or mounts, and promises that what is done is fresh; these calls have other parameters.
// The call without the table. It is taken into its callers: so each call for C takes the stack of the call that it is, and not of all four.
#[tactic(auto, unfolding(crate::specs::Says::change_call))]
#[inline(always)]
fn plain(image: &mut [u8], size: u32, units: u32, call: TableCall, allowance: u32) -> Report
    ensures { Reports (geometry size units) (change_call call.entry allowance) image.old result image.new }
{
    match call {
        TableCall::Begin => c_store::us_begin(image, size, units, allowance),
        TableCall::Write(file, content) => {
            c_store::us_write(image, size, units, file, content, allowance)
        }
        TableCall::Delete(file) => c_store::us_delete(image, size, units, file, allowance),
        TableCall::Abort => c_store::us_abort(image, size, units, allowance),
    }
}

// Kept (2): only the name is shared; script_state's changes the image of a session by a line of a script, this makes a call of the store.
// The call through a table, by its front.
#[inline(always)]
pub fn change(
    image: &mut [u8],
    size: u32,
    units: u32,
    front: Front,
    call: TableCall,
    allowance: u32,
) -> Report
    ensures { MakesBy (geometry size units) (change_call call.entry allowance) front.entries front.first image.old result image.new }
{
    if front.entries != rules::ENTRIES {
        return refused(NotDone::BadGeometry);
    }
    if !is_usable(front.first) {
        return stale(image, size, units);
    }
    plain(image, size, units, call, allowance)
}

// The position of the descriptor at a place, of a unit that begins at base.
#[tactic(auto, unfolding(crate::specs::Puts::position_in))]
fn position_of(place: u16, base: usize) -> u16
    ensures { result ≡ position_in place base }
{
    let within = usize::from(place).saturating_sub(base);
    (within.saturating_sub(rules::HEADER_BYTES) / rules::DESCRIPTOR_BYTES) as u16
}

// The entry of a descriptor that stands at a place.
fn entry_at(image: &[u8], g: Geometry, place: u16) -> TableEntry
    requires { (1 ≤ g.size) × (place + 8 ≤ length image.now) }
    ensures { result ≡ entry_at g.size image.now place }
{
    if index::is_mark_at(image, place) {
        return no_file();
    }
    let base = index::base_of(g, place);
    let number = flash::word(image, base);
    TableEntry {
        state: rules::A_FILE,
        unit: (number % 256) as u8,
        position: position_of(place, base),
        len: flash::word(image, usize::from(place) + unit::LENGTH_AT),
    }
}

// A descriptor can stand there.
#[tactic(auto, unfolding(crate::specs::Puts::is_in))]
fn is_in(image: &[u8], size: u32, place: u16) -> bool
    ensures { result ≡ is_in size image.now place }
{
    let end = usize::from(place) + rules::DESCRIPTOR_BYTES;
    place != unit::NO_PLACE && size != 0 && end <= image.len()
}

// What is laid for the i-th place: the entry of the descriptor there for its file, or no file for file i where it is none.
pub fn put_of(image: &[u8], size: u32, i: usize, place: u16) -> Put
    ensures { result ≡ put_in size image.now i place }
{
    if !is_in(image, size, place) {
        return Put {
            at: i,
            entry: no_file(),
        };
    }
    let g = c_store::geometry_of(size, 0);
    Put {
        at: index::file_at(image, place),
        entry: entry_at(image, g, place),
    }
}
