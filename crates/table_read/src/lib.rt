// A read through a table: what an entry shows of the image, and what is answered where it shows nothing.
#![tactic(auto)]

ghost use Rattle.std.specs.Prelude.{◌≡◌, slice_get};
ghost use Rattle.c_store.specs.Reports.{geometry};
ghost use Rattle.home_table.specs.Who.{holders};
ghost use Rattle.table_read.specs.Shapes.{home_for, shown_at, said_by, judged_answer, read_answer};
ghost use Rattle.table_read.specs.Reads.{Reads};

use c_report::Report;
use home_table::Store;
use rules::{Answer, Geometry, Given, NotDone, Origin, TableEntry};
use table_entries::is_usable;
use unit::LAST_FILE;

// The first unit in a state that has a logical number.
fn first_in(store: Store, state: u16, l: usize) -> Option<usize>
    ensures { result ≡ slice_get (holders store.entry.g.size store.entry.image.now state l store.entry.g.units 0) 0 }
{
    (0..store.g.units).find(|u| store.state_of(*u) == state && store.number_of(*u) == l)
}

// The home of a logical number: the first live unit, else the first retired one.
fn home_for(store: Store, l: usize) -> Option<usize>
    ensures { result ≡ home_for store.entry.g.size store.entry.g.units store.entry.image.now l }
{
    match first_in(store, unit::LIVE, l) {
        None => first_in(store, unit::RETIRED, l),
        live => live,
    }
}

// Kept (2): only the name is shared; index_seek's chooses between two places, this goes from an entry to its home and to what stands there.
// What an entry of a file shows.
#[tactic(auto, using(crate::specs::Homes::home_below), unfolding(crate::specs::Shapes::shown_at, crate::specs::Shapes::shown_home, rules::specs::Table::says_file))]
fn shown_by(store: Store, entry: TableEntry, file: usize) -> Option<Given>
    ensures { result ≡ shown_at store.entry.g store.entry.image.now entry file }
{
    let l = usize::from(entry.unit);
    if entry.state != rules::A_FILE || store.numbers() <= l {
        return None;
    }
    let home = home_for(store, l)?;
    table_borne::shown_in(store.g, store.unit(home), store.g.base(home), entry, file)
}

// What a usable table has of a file, if there is such a file.
#[tactic(auto, unfolding(crate::specs::Shapes::said_by, rules::specs::Calls::is_bad_file, rules::specs::Table::mark))]
fn said_by(first: TableEntry, entry: TableEntry, file: usize) -> TableEntry
    ensures { result ≡ said_by first entry file }
{
    if is_usable(first) && file <= LAST_FILE {
        entry
    } else {
        TableEntry {
            state: rules::MARKED,
            unit: 0,
            position: 0,
            len: 0,
        }
    }
}

// Kept (5): home_table's Store is the pair of an image and a geometry that fit, and here it may be that they do not (`settled` tests it).
// Where the table gives no answer: 2, 3, 4, then 12 of an unusable table, 5, and 12 of an entry that the image contradicts.
fn judged(image: &[u8], g: Geometry, first: TableEntry, file: usize) -> Answer
    ensures { result ≡ judged_answer g image.now first file }
{
    call_look::settled(image, g)?;
    if is_usable(first) && LAST_FILE < file {
        return Err(NotDone::BadFile);
    }
    Err(NotDone::StaleTable)
}

// Kept (5): home_table's Store is the pair of an image and a geometry that fit; this function is the one that tests it, and makes it then.
// A read of a file through a table of so many entries, by the first of them and the file's.
#[tactic(auto, using(laws::specs::Units::right_geometry), unfolding(crate::specs::Shapes::read_answer, crate::specs::Shapes::shown_or, rules::specs::Table::says_none))]
fn read_answer(
    image: &[u8],
    g: Geometry,
    entries: usize,
    first: TableEntry,
    entry: TableEntry,
    file: usize,
) -> Answer
    ensures { result ≡ read_answer g image.now entries first entry file }
{
    if !table_borne::is_whole(entries) || !g.check(image.len()) {
        return Err(NotDone::BadGeometry);
    }
    let said = said_by(first, entry, file);
    if said.state == rules::NO_FILE {
        return Err(NotDone::Absent(Origin::NotSaid));
    }
    match shown_by(Store { image, g }, said, file) {
        Some(given) => Ok(given),
        None => judged(image, g, first, file),
    }
}

// Kept (2, 5): the others share only the name (call_read asks no table, hex_read and whole_input read a text); C's call gives these three.
// The same for C.
pub fn read(
    image: &[u8],
    size: u32,
    units: u32,
    entries: usize,
    first: TableEntry,
    entry: TableEntry,
    file: u32,
) -> Report
    ensures { Reads (geometry size units) image.now entries first entry file result }
{
    let g = c_store::geometry_of(size, units);
    c_report::reported(read_answer(image, g, entries, first, entry, file as usize))
}
