// A unit: its descriptors, the array read upward, and the gap.
// Kept (5) in this file: bounds of one slice's length; flash, home and copy read plain slices, so a type would be made and taken apart at each call.
#![tactic(auto)]

ghost use Rattle.std.specs.Prelude.{◌≡◌, ◌+◌, ◌-◌, ◌≤◌, length, drop};
ghost use Rattle.rules.specs.Flash.{words};
ghost use Rattle.rules.specs.Unit.{stands, is_header};
ghost use Rattle.unit.specs.Shapes.{descriptor_at, used_from, room_of, bytes_of};

use rules::Descriptor;
pub use rules::{
    ALLOCATED, CURRENT, DATA, DATA_BYTE, ERASED, LONGEST, MARK, MARK_BYTE, OLD, PENDING,
    TRANSACTION, VOID,
};

// The state in a unit's header; while it is receiving, its word is erased.
pub const RECEIVING: u16 = ERASED;

pub const LIVE: u16 = 0xFFFE;

pub const RETIRED: u16 = 0xFFFC;

// Where a header has its unit's logical number, its state, and what else stands in it.
pub const NUMBER_AT: usize = 0;

pub const STATE_AT: usize = 2;

pub const REST_AT: usize = 4;

// Where a descriptor has its flags, its sector's offset, its content's length and its tag.
pub const FLAGS_AT: usize = 0;

pub const OFFSET_AT: usize = 2;

pub const LENGTH_AT: usize = 4;

pub const TAG_AT: usize = 6;

// No place of a descriptor, since none stands at the image's start: as it is noted, and as an offset.
// Kept (6): an index notes 517 places, two bytes each; Options would take twice that of the 2,048 bytes of stack of commit, abort and mount.
pub const NO_PLACE: u16 = 0;

// Kept (6): NO_PLACE as an offset: a step is given a place as an index notes it, and an Option would be made only to be asked once.
pub const NOWHERE: usize = 0;

// The last file.
pub const LAST_FILE: usize = 255;

// n and low of a unit's array.
#[derive(Clone, Copy)]
pub struct Room {
    pub n: usize,
    pub low: usize,
}

impl Room {
    // The bytes between the array and the lowest sector.
    #[tactic(auto, unfolding(rules::specs::Unit::stands))]
    pub fn gap(self) -> usize
        requires { self.n ≤ 4096 }
        ensures { result ≡ self.low - stands self.n }
    {
        self.low.saturating_sub(rules::stands(self.n))
    }
}

// Four words as eight bytes.
#[tactic(auto, using(crate::specs::Laws::bytes_four))]
pub fn pack(words: [u16; 4]) -> [u8; 8]
    ensures { result ≡ bytes_of words }
{
    let [flags, offset, len, tag] = words;
    let [a, b] = flags.to_le_bytes();
    let [c, d] = offset.to_le_bytes();
    let [e, f] = len.to_le_bytes();
    let [g, h] = tag.to_le_bytes();
    [a, b, c, d, e, f, g, h]
}

// Eight bytes as four words.
#[tactic(auto, using(crate::specs::Laws::words_eight))]
pub fn unpack(bytes: [u8; 8]) -> [u16; 4]
    ensures { result ≡ words bytes }
{
    let [a, b, c, d, e, f, g, h] = bytes;
    [
        u16::from_le_bytes([a, b]),
        u16::from_le_bytes([c, d]),
        u16::from_le_bytes([e, f]),
        u16::from_le_bytes([g, h]),
    ]
}

// A position's descriptor.
#[tactic(auto, using(crate::specs::Laws::eight_bytes), unfolding(rules::specs::Unit::stands))]
pub fn descriptor(unit: &[u8], position: usize) -> Descriptor
    requires { stands position + 8 ≤ length unit.now }
    ensures { result ≡ descriptor_at unit.now (stands position) }
{
    let at = rules::stands(position);
    Descriptor::from_words(unpack([
        unit[at],
        unit[at + 1],
        unit[at + 2],
        unit[at + 3],
        unit[at + 4],
        unit[at + 5],
        unit[at + 6],
        unit[at + 7],
    ]))
}

// The first position, from the given one on, that is not empty; or else the first whose descriptor would reach over low.
#[tactic(auto, unfolding(rules::specs::Unit::stands))]
pub fn used_from(unit: &[u8], first: usize, low: usize) -> usize
    requires { (stands first ≤ length unit.now) × (low ≤ length unit.now) × (length unit.now ≤ 4096) }
    ensures { result ≡ used_from (length unit.now - first) (drop (stands first) unit.now) first low }
{
    let mut p = first;
    // Kept (3): its end is an offset, which low is, and no position.
    while rules::stands(p) + rules::DESCRIPTOR_BYTES <= low {
        if !descriptor(unit, p).is_empty() {
            return p;
        }
        p += 1;
    }
    p
}

// The array read upward, to n and low: empty descriptors change neither.
#[tactic(auto, unfolding(rules::specs::Unit::stands))]
pub fn room_of(unit: &[u8]) -> Room
    requires { (16 ≤ length unit.now) × (length unit.now ≤ 4096) }
    ensures { (result ≡ room_of (length unit.now) unit.now) × (stands result.n ≤ length unit.now) × (result.low ≤ length unit.now) }
{
    let mut low = unit.len();
    let mut n: usize = 0;
    let mut p = used_from(unit, 0, low);
    // Kept (3): low, at which the array ends, is lowered by what the walk meets; so no range is known before.
    while rules::stands(p) + rules::DESCRIPTOR_BYTES <= low {
        low = descriptor(unit, p).lower(low);
        n = p + 1;
        p = used_from(unit, n, low);
    }
    Room { n, low }
}

// Bytes 4-15 are those of a settled home.
#[tactic(auto, unfolding(rules::specs::Unit::is_header))]
pub fn has_header(unit: &[u8]) -> bool
    requires { 16 ≤ length unit.now }
    ensures { result ≡ is_header unit.now }
{
    flash::is_erased(&unit[REST_AT..rules::HEADER_BYTES])
}
