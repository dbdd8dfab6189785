// Pass lists and manual passes for C, over the store's calls for C.
// Kept (1) in this file: C's calls answer by these numbers, which include/undernshade.h and include/undernshade_passes.h say.
#![tactic(auto)]

mod giving; // giving.rt: the transaction

ghost use Rattle.std.specs.Prelude.{◌≡◌};
ghost use Rattle.c_store.specs.Reports.{geometry};
ghost use Rattle.pass_rules.specs.Give as rules;
ghost use Rattle.c_passes.specs.Shapes.{ShowsCount, GivesPass, ShowsList, ReadsFile, number_of, people_look};

use crate::giving::{Asked, Giving};
use pass_rules::{PassReport, RegisterReport, StaffReport};
use pass_text::Roster;

// The store's numbers that are told apart.
const DONE: u32 = 0;

const STOPPED: u32 = 1;

const NO_TRANSACTION: u32 = 7;

const ABSENT: u32 = 9;

// A register that is full.
const FULL: usize = 126;

// What is refused, by a number of pass lists or the store's own.
#[derive(Clone, Copy)]
enum PassRefusal {
    Open,
    NoList,
    BadList,
    NotOnList,
    SamePerson,
    BadRegister,
    RegisterFull,
    Store(u32),
}

impl PassRefusal {
    // Kept (2): shares only the name with number of text, which reads digits; that of c_report numbers other refusals.
    // 8 OPEN, 20 NO LIST, 21 BAD LIST, 22 NOT ON LIST, 23 SAME PERSON, 24 BAD REGISTER, 25 REGISTER FULL.
    fn number(self) -> u32
        ensures { result ≡ number_of self }
    {
        match self {
            PassRefusal::Open => 8,
            PassRefusal::NoList => 20,
            PassRefusal::BadList => 21,
            PassRefusal::NotOnList => 22,
            PassRefusal::SamePerson => 23,
            PassRefusal::BadRegister => 24,
            PassRefusal::RegisterFull => 25,
            PassRefusal::Store(number) => number,
        }
    }
}

// Where a file's content stands in the image.
#[derive(Clone, Copy)]
struct FileContent {
    start: usize,
    end: usize,
}

// The numbers of an image's geometry. It is without the image, which giving lends to the store's calls as mutable.
#[derive(Clone, Copy)]
pub struct Sizes {
    pub size: u32,
    pub units: u32,
}

impl Sizes {
    // Kept (2): the other four called read are of the levels below, or of other inputs; this one tells DONE and ABSENT of us_read apart.
    // Where a committed file's content stands, where the file is not absent.
    fn read(self, image: &[u8], file: u32) -> Result<Option<FileContent>, PassRefusal>
        ensures { ReadsFile (geometry self.size self.units) file image.now result }
    {
        let report = c_store::us_read(image, self.size, self.units, file);
        match report.number {
            DONE => Ok(Some(FileContent {
                start: report.start,
                end: report.start + report.len,
            })),
            ABSENT => Ok(None),
            number => Err(PassRefusal::Store(number)),
        }
    }

    // Kept (2): shares only the name with list of listing_text, which writes an image's listing; this one reads the list of people.
    // The committed list, and whether two people are on it.
    fn list(self, image: &[u8], first: u32, second: u32) -> Result<Roster, PassRefusal>
        ensures { ShowsList first second (rules.staff_look (geometry self.size self.units) image.now) result }
    {
        let Some(FileContent { start, end }) = self.read(image, 0)? else {
            return Err(PassRefusal::NoList);
        };
        let Some(roster) = pass_text::staff(&image[start..end], first as usize, second as usize)
        else {
            return Err(PassRefusal::BadList);
        };
        if roster.people == 0 {
            return Err(PassRefusal::NoList);
        }
        Ok(roster)
    }

    // Kept (2): shares only the name: count of counts tallies descriptors, count of hex_lines is a record's first byte; this one reads the register.
    // The committed register.
    fn count(self, image: &[u8]) -> Result<usize, PassRefusal>
        ensures { ShowsCount (rules.register_look (geometry self.size self.units) image.now) result }
    {
        match self.read(image, 1)? {
            Some(FileContent { start, end }) => {
                pass_text::register(&image[start..end]).ok_or(PassRefusal::BadRegister)
            }
            None => Ok(0),
        }
    }

    // Kept (2): shares only the name with people of pass_text, which reads the lines of a list; this one decides whether a pass is given.
    // What give decides of the list and the register.
    fn people(self, image: &[u8], first: u32, second: u32) -> Result<usize, PassRefusal>
        ensures { ShowsCount (people_look (geometry self.size self.units) image.now first second) result }
    {
        let roster = self.list(image, first, second)?;
        if !(roster.on.first && roster.on.second) {
            return Err(PassRefusal::NotOnList);
        }
        if first == second {
            return Err(PassRefusal::SamePerson);
        }
        let n = self.count(image)?;
        if n == FULL {
            return Err(PassRefusal::RegisterFull);
        }
        Ok(n)
    }

    // What give decides before it makes a step: the count at which the pass is given.
    fn look(self, image: &[u8], first: u32, second: u32) -> Result<usize, PassRefusal>
        ensures { ShowsCount (rules.give_look (geometry self.size self.units) image.now first second) result }
    {
        let report = c_store::us_read_open(image, self.size, self.units, 0);
        match report.number {
            NO_TRANSACTION => self.people(image, first, second),
            DONE | ABSENT => Err(PassRefusal::Open),
            number => Err(PassRefusal::Store(number)),
        }
    }
}

// Kept (2, 5): c_passes_c exports it with C's name and parameters, and no crate can stand on a static library: script_passes calls it here.
// Gives a pass to two people.
pub fn us_give(
    image: &mut [u8],
    size: u32,
    units: u32,
    first: u32,
    second: u32,
    allowance: u32,
) -> PassReport
    ensures { GivesPass (geometry size units) first second allowance image.old result image.new }
{
    let sizes = Sizes { size, units };
    let n = match sizes.look(image, first, second) {
        Ok(n) => n,
        Err(refusal) => {
            return PassReport {
                number: refusal.number(),
                steps: 0,
                pass: 0,
            };
        }
    };
    match Giving::give(image, sizes, allowance, Asked { n, first, second }) {
        Ok(steps) => PassReport {
            number: DONE,
            steps,
            pass: n,
        },
        Err(stop) => PassReport {
            number: stop.number,
            steps: stop.steps,
            pass: 0,
        },
    }
}

// Kept (2, 5): c_passes_c exports it with C's name and parameters, and no crate can stand on a static library: script_passes calls it here.
// Looks at the committed list.
pub fn us_staff(image: &[u8], size: u32, units: u32) -> StaffReport
    ensures { result ≡ rules.staff_report (rules.staff_look (geometry size units) image.now) }
{
    match (Sizes { size, units }).list(image, 0, 0) {
        Ok(roster) => StaffReport {
            number: DONE,
            night: roster.night,
            zone: roster.zone,
            people: roster.people,
        },
        Err(refusal) => StaffReport {
            number: refusal.number(),
            night: 0,
            zone: 0,
            people: 0,
        },
    }
}

// Kept (2, 5): c_passes_c exports it with C's name and parameters, and no crate can stand on a static library: script_passes calls it here.
// Looks at the committed register.
pub fn us_register(image: &[u8], size: u32, units: u32) -> RegisterReport
    ensures { result ≡ rules.register_report (rules.register_look (geometry size units) image.now) }
{
    match (Sizes { size, units }).count(image) {
        Ok(count) => RegisterReport {
            number: DONE,
            count,
        },
        Err(refusal) => RegisterReport {
            number: refusal.number(),
            count: 0,
        },
    }
}
