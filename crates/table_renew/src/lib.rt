// The calls that fill a table or mend it: format, mount, commit and fill, with the places of the descriptors whose entries are laid.
// Kept (5) in this file: C's calls give an image, a size and units; for image, geometry and homes a type would be made at the one call and taken apart in it.
#![tactic(auto)]

ghost use Rattle.std.specs.Prelude.{◌≡◌, []};
ghost use Rattle.rules.specs.Calls as calls;
ghost use Rattle.c_store.specs.Reports.{Reports, geometry};
ghost use Rattle.call_look.specs.Known.{Known};
ghost use Rattle.table_renew.specs.Settles.{Fresh, fill_call};
ghost use Rattle.table_renew.specs.Renews.{Renews, Refills, Fills, Mends, LaysIf, renewed};

use c_report::Report;
use home_table::Store;
use index::Index;
use index::places::Places;
use listing::list_all;
use rules::{Geometry, Given, Handle, NotDone, TableEntry};
use table_entries::is_usable;

mod listing; // listing.rt: what is current is laid

// A call that fills the table anew.
#[derive(Clone, Copy)]
pub enum FillCall {
    Format,
    Mount,
}

// The places, in order, of which what they tell is laid into the table. They are lent, and not handed back: each time they were copied
// on their way they took 528 bytes more of stack.
#[derive(Clone, Drop)]
pub struct Laid {
    pub places: Places,
}

impl Laid {
    // Nothing is laid.
    pub fn new() -> Laid
        ensures { result.places ≡ [] }
    {
        Laid {
            places: Places::new(),
        }
    }
}

// Kept (2): only the name is shared; table_entries' makes the calls that fill no table, this one formats or mounts, and promises that what is done is fresh.
// Format or mount, without the table.
fn plain(image: &mut [u8], size: u32, units: u32, call: FillCall, allowance: u32) -> Report
    ensures { Reports (geometry size units) (fill_call call allowance) image.old result image.new × (result.number ≡ 0 → Fresh (geometry size units) image.new) }
{
    match call {
        FillCall::Format => c_store::us_format(image, size, units, allowance),
        FillCall::Mount => c_store::us_mount(image, size, units, allowance),
    }
}

// Format or mount through a table of so many entries.
pub fn refill(
    image: &mut [u8],
    size: u32,
    units: u32,
    entries: usize,
    call: FillCall,
    allowance: u32,
) -> Report
    ensures { Refills (geometry size units) (fill_call call allowance) entries image.old result image.new }
{
    if entries != rules::ENTRIES {
        return table_entries::refused(NotDone::BadGeometry);
    }
    plain(image, size, units, call, allowance)
}

// Kept (2): only the name is shared; c_passes' adds up the steps of a pass and aborts it, this one lists places.
// After a format or a mount what is current of the files is laid where it is DONE, else nothing.
pub fn after(image: &[u8], size: u32, units: u32, report: Report, laid: &mut Laid)
    requires { report.number ≡ 0 → Fresh (geometry size units) image.now }
    ensures { LaysIf (geometry size units) image.now report (renewed report laid.new.places) }
{
    *laid = Laid::new();
    if report.number != 0 {
        return;
    }
    let g = c_store::geometry_of(size, units);
    let homes = home_table::homes_of(Store { image, g }).unwrap();
    list_all(image, g, homes.at, laid);
}

// The open transaction of a settled image is committed, and what was pending is laid; 7 NO TRANSACTION where there is none.
fn commit_settled(
    image: &mut [u8],
    g: Geometry,
    home: [u8; 64],
    allowance: u32,
    laid: &mut Laid,
) -> Report
    requires { Known g image.old home × (laid.old.places ≡ []) }
    ensures { Mends g allowance image.old (renewed result laid.new.places) image.new }
{
    let mut index = Index::new();
    index.note_all(image, g, home);
    let opened = usize::from(index.opened);
    if opened == unit::NOWHERE {
        return table_entries::refused(NotDone::NoTransaction);
    }
    let pending = index.pending.as_slice();
    let r = step_end::commit(image, &index.current, pending, opened, Some(allowance));
    let report = c_report::reported(call_answer::answer_of(r, allowance, Handle::ORIGIN));
    if report.number == 0 {
        laid.places = index.pending;
    }
    report
}

// Kept (2): what call_end does for a plain commit, with the places to be laid besides: one for both would list places for each plain commit too.
// Commit through a table of so many entries, by the first of them.
pub fn commit(
    image: &mut [u8],
    size: u32,
    units: u32,
    entries: usize,
    first: TableEntry,
    allowance: u32,
    laid: &mut Laid,
) -> Report
    ensures { Renews (geometry size units) (calls.commit allowance) entries first image.old (renewed result laid.new.places) image.new }
{
    *laid = Laid::new();
    if entries != rules::ENTRIES {
        return table_entries::refused(NotDone::BadGeometry);
    }
    if !is_usable(first) {
        return table_entries::stale(image, size, units);
    }
    let g = c_store::geometry_of(size, units);
    match call_look::settled(image, g) {
        Ok(look) => commit_settled(image, g, look.homes, allowance, laid),
        Err(reason) => table_entries::refused(reason),
    }
}

// Kept (2): only the name is shared; script_state's makes an image of FF, step_move's copies a home, hex_read's lays lines; this one lists places for a table.
// Fill of a table of so many entries.
pub fn fill(image: &[u8], size: u32, units: u32, entries: usize, laid: &mut Laid) -> Report
    ensures { Fills (geometry size units) entries image.now (renewed result laid.new.places) }
{
    *laid = Laid::new();
    if entries != rules::ENTRIES {
        return table_entries::refused(NotDone::BadGeometry);
    }
    let g = c_store::geometry_of(size, units);
    match call_look::settled(image, g) {
        Ok(look) => {
            list_all(image, g, look.homes, laid);
            c_report::reported(Ok(Given::NOTHING))
        }
        Err(reason) => table_entries::refused(reason),
    }
}
