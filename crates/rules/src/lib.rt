// The vocabulary of document 01, as types; the definitions over it stand in specs/.
#![tactic(auto)]

ghost use Rattle.std.specs.Prelude.{◌≡◌, ◌+◌, ◌-◌, ◌*◌, ◌^◌, ◌≤◌, ◌<◌, ltb};
ghost use Rattle.rules.specs.Flash.{is_geometry};
ghost use Rattle.rules.specs.Unit;
ghost use Rattle.rules.specs.Unit.{stands};

mod descriptor;

pub use descriptor::{
    ALLOCATED, CURRENT, DATA, DATA_BYTE, Descriptor, ERASED, LONGEST, MARK, MARK_BYTE, OLD,
    PENDING, TRANSACTION, VOID,
};

// An erased byte.
pub const ERASED_BYTE: u8 = 0xFF;

// The bytes of a unit's header, and of a descriptor.
pub const HEADER_BYTES: usize = 16;

pub const DESCRIPTOR_BYTES: usize = 8;

// A table has so many entries, one for each file.
pub const ENTRIES: usize = 256;

// The state of a table's entry: the mark of a table that is not usable, no file, a file.
// Kept (1): C writes an entry's state, and may write any byte; an enum would have no value for 3 to 255.
pub const MARKED: u8 = 0;

// Kept (1): a byte that C writes, as MARKED is.
pub const NO_FILE: u8 = 1;

// Kept (1): a byte that C writes, as MARKED is.
pub const A_FILE: u8 = 2;

// Where a position's descriptor stands in its unit.
#[tactic(auto, unfolding(crate::specs::Unit::stands))]
pub fn stands(position: usize) -> usize
    requires { Unit.stands position < 2 ^ 64 }
    ensures { result ≡ Unit.stands position }
{
    HEADER_BYTES + DESCRIPTOR_BYTES * position
}

// A unit has `size` bytes, and there are `units` of them.
#[derive(Clone, Copy, PartialEq, Eq)]
pub struct Geometry {
    pub size: usize,
    pub units: usize,
}

impl Geometry {
    // The geometry is one of those allowed, and an image of so many bytes is of it.
    // Kept (2): a geometry, a handle and a hex text share only the name of this test: each is held against other bounds.
    #[tactic(auto, unfolding(crate::specs::Flash::is_geometry))]
    pub fn check(self, bytes: usize) -> bool
        ensures { result ≡ is_geometry self bytes }
    {
        matches!(self.size, 512 | 1024 | 2048 | 4096)
            && matches!(self.units, 3..=64)
            && self.units * self.size <= 65536
            && bytes == self.units * self.size
    }

    // Where the unit that stands n-th in the image begins.
    pub fn base(self, n: usize) -> usize
        requires { (self.size ≤ 4096) × (n ≤ 64) }
        ensures { result ≡ n * self.size }
    {
        n * self.size
    }
}

// A handle is a logical unit and a position.
#[derive(Clone, Copy, PartialEq, Eq)]
pub struct Handle {
    pub unit: usize,
    pub position: usize,
}

impl Handle {
    // Handle 0:0.
    pub const ORIGIN: Handle = Handle {
        unit: 0,
        position: 0,
    };

    // Its logical unit is not over U-2.
    // Kept (2): a geometry, a handle and a hex text share only the name of this test: each is held against other bounds.
    pub fn check(self, g: Geometry) -> bool
        requires { 1 ≤ g.units }
        ensures { result ≡ ltb self.unit (g.units - 1) }
    {
        self.unit < g.units - 1
    }

    // Where its descriptor stands in its unit.
    #[tactic(auto, unfolding(crate::specs::Unit::stands))]
    pub fn offset(self) -> usize
        requires { self.position < 65536 }
        ensures { result ≡ stands self.position }
    {
        stands(self.position)
    }

    // Where its descriptor stands in the image, of a unit that begins at base.
    // Kept (5): one number's bound: a type for it would be made and taken apart at each call.
    #[tactic(auto, unfolding(crate::specs::Unit::stands))]
    pub fn place(self, base: usize) -> usize
        requires { (self.position < 65536) × (base ≤ 65536) }
        ensures { result ≡ base + stands self.position }
    {
        base + stands(self.position)
    }
}

// A job on its way: so many steps of the allowance are left; None once it was cut.
pub type Run = Option<u32>;

// Which of the units that fit takes a new sector: the one with the smallest gap, or the one with the lowest number (the old rule).
#[derive(Clone, Copy, PartialEq, Eq)]
pub enum Rule {
    Tightest,
    Lowest,
}

// What an image is.
#[derive(Clone, Copy, PartialEq, Eq)]
pub enum Standing {
    Settled,
    Sound,
    Neither,
}

// Where an answer in the transaction view came from: not said, committed before, or the open transaction.
// Kept (1): a content was committed before, or is of the open transaction, or nothing is said of it: three words of the theorems on origins; none is a lack.
#[derive(Clone, Copy, PartialEq, Eq)]
pub enum Origin {
    NotSaid,
    Before,
    Opened,
}

// What a finished call gives: its steps, a handle, a file, where in the image the content stands, and where it came from.
#[derive(Clone, Copy, PartialEq, Eq)]
pub struct Given {
    pub steps: u32,
    pub at: Handle,
    pub file: usize,
    pub start: usize,
    pub len: usize,
    pub from: Origin,
}

impl Given {
    // No step, handle 0:0, file 0, an empty content, and not said where from.
    pub const NOTHING: Given = Given {
        steps: 0,
        at: Handle::ORIGIN,
        file: 0,
        start: 0,
        len: 0,
        from: Origin::NotSaid,
    };
}

// An entry of the table beside an image: its state (1 no file, 2 a file), a handle and a length.
#[repr(C)]
#[derive(Clone, Copy)]
pub struct TableEntry {
    pub state: u8,
    pub unit: u8,
    pub position: u16,
    pub len: u16,
}

// What a call answers that is not DONE, in the order of document 01's numbers 1 to 11, and 12 of a call through the table.
// Kept (1): each is a refusal of document 01 with its own number; NoRoom is one of them, and no nothing beside values.
#[derive(Clone, Copy, PartialEq, Eq)]
pub enum NotDone {
    Stopped(u32),
    BadGeometry,
    BadImage,
    Unsettled,
    BadFile,
    TooLong,
    NoTransaction,
    Open,
    Absent(Origin),
    NoRoom,
    BadHandle,
    StaleTable,
}

// What a call answers: what it gives where it is DONE, and else why it is not.
pub type Answer = Result<Given, NotDone>;
