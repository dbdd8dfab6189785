// A descriptor: the four words that say what a position of a unit has.
ghost use Rattle.std.specs.Prelude.{◌≡◌, [], ◌∷◌, ◌<◌};
ghost use Rattle.rules.specs.Unit;
ghost use Rattle.rules.specs.Copy;

use super::Geometry;

// A descriptor is four words: flags, offset in the unit, content length in bytes, tag.
#[derive(Clone, Copy, PartialEq, Eq)]
pub struct Descriptor {
    pub flags: u16,
    pub offset: u16,
    pub len: u16,
    pub tag: u16,
}

// An erased word.
pub const ERASED: u16 = 0xFFFF;

// A descriptor's flags, in the order in which they are programmed.
pub const ALLOCATED: u16 = 0xFFFE;

pub const PENDING: u16 = 0xFFFC;

pub const CURRENT: u16 = 0xFFF8;

pub const OLD: u16 = 0xFFF0;

pub const VOID: u16 = 0;

// A descriptor's tag: that of file 0's data, of file 0's delete mark, of a transaction.
pub const DATA: u16 = 0x1000;

pub const MARK: u16 = 0x2000;

pub const TRANSACTION: u16 = 0x3000;

// The upper byte of the tags of data and of delete marks; the lower one is the file.
pub const DATA_BYTE: u16 = 0x10;

pub const MARK_BYTE: u16 = 0x20;

// The most bytes that a content has.
pub const LONGEST: u16 = 256;

impl Descriptor {
    // The descriptor of four words.
    pub fn from_words(words: [u16; 4]) -> Descriptor
        ensures { words ≡ result.flags ∷ result.offset ∷ result.len ∷ result.tag ∷ [] }
    {
        let [flags, offset, len, tag] = words;
        Descriptor {
            flags,
            offset,
            len,
            tag,
        }
    }

    // Its four words.
    pub fn words(self) -> [u16; 4]
        ensures { result ≡ self.flags ∷ self.offset ∷ self.len ∷ self.tag ∷ [] }
    {
        [self.flags, self.offset, self.len, self.tag]
    }

    // All four words are erased: so is their AND, which takes one comparison.
    #[tactic(auto, using(std::proofs::lemmas::Nat::and_le_l, std::proofs::lemmas::Nat::and_le_r), unfolding(crate::specs::Unit::is_empty))]
    pub fn is_empty(self) -> bool
        ensures { result ≡ Unit.is_empty self }
    {
        self.flags & self.offset & self.len & self.tag == ERASED
    }

    // Its first step, the tag, was its last.
    #[tactic(auto, unfolding(crate::specs::Unit::is_torn))]
    pub fn is_torn(self) -> bool
        ensures { result ≡ Unit.is_torn self }
    {
        self.flags == ERASED && self.tag != ERASED
    }

    // Allocated, pending, current and old ones have a sector.
    #[tactic(auto, unfolding(crate::specs::Unit::has_sector, crate::specs::Unit::is_allocated, crate::specs::Unit::is_pending, crate::specs::Unit::is_current, crate::specs::Unit::is_old))]
    pub fn has_sector(self) -> bool
        ensures { result ≡ Unit.has_sector self }
    {
        matches!(self.flags, ALLOCATED | PENDING | CURRENT | OLD)
    }

    // Pending and current ones are copied by a reclaim.
    #[tactic(auto, unfolding(crate::specs::Copy::is_kept, crate::specs::Unit::is_pending, crate::specs::Unit::is_current))]
    pub fn is_kept(self) -> bool
        ensures { result ≡ Copy.is_kept self }
    {
        matches!(self.flags, PENDING | CURRENT)
    }

    // Data of at most 256 bytes, or a delete mark or transaction of none.
    #[tactic(auto, unfolding(crate::specs::Unit::is_tagged, crate::specs::Unit::is_data, crate::specs::Unit::is_mark, crate::specs::Unit::is_transaction, crate::specs::Unit::transaction_tag))]
    pub fn is_tagged(self) -> bool
        ensures { result ≡ Unit.is_tagged self }
    {
        match self.tag / 256 {
            DATA_BYTE => self.len <= LONGEST,
            MARK_BYTE => self.len == 0,
            _ => self.tag == TRANSACTION && self.len == 0,
        }
    }

    // All four words are erased, or its first step was its last, or it has a sector, or it is void.
    #[tactic(auto, unfolding(crate::specs::Unit::is_listed, crate::specs::Unit::is_void))]
    pub fn is_listed(self) -> bool
        ensures { result ≡ Unit.is_listed self }
    {
        self.has_sector() || self.is_empty() || self.is_torn() || self.flags == VOID
    }

    #[tactic(auto, unfolding(crate::specs::Unit::is_data))]
    pub fn is_data(self) -> bool
        ensures { result ≡ Unit.is_data self }
    {
        self.tag / 256 == DATA_BYTE
    }

    #[tactic(auto, unfolding(crate::specs::Unit::is_transaction, crate::specs::Unit::transaction_tag))]
    pub fn is_transaction(self) -> bool
        ensures { result ≡ Unit.is_transaction self }
    {
        self.tag == TRANSACTION
    }

    // Current, and no transaction.
    #[tactic(auto, unfolding(crate::specs::Unit::is_current_file, crate::specs::Unit::is_current))]
    pub fn is_current_file(self) -> bool
        ensures { result ≡ Unit.is_current_file self }
    {
        self.flags == CURRENT && !self.is_transaction()
    }

    // Its sector is even, from floor up to the unit's end, and its tag and its length are of those listed.
    #[tactic(auto, unfolding(crate::specs::Unit::lies))]
    pub fn lies(self, g: Geometry, floor: usize) -> bool
        ensures { result ≡ Unit.lies g floor self }
    {
        let offset = usize::from(self.offset);
        offset % 2 == 0 && floor <= offset && offset + self.size() <= g.size && self.is_tagged()
    }

    // What its sector occupies: its length rounded up to even.
    #[tactic(auto, unfolding(crate::specs::Unit::size))]
    pub fn size(self) -> usize
        ensures { (result ≡ Unit.size self) × (result < 65537) }
    {
        usize::from(self.len) + usize::from(self.len % 2)
    }

    // The lower of low and its sector's offset.
    #[tactic(auto, unfolding(crate::specs::Unit::lower))]
    pub fn lower(self, low: usize) -> usize
        ensures { result ≡ Unit.lower low self }
    {
        if self.has_sector() {
            low.min(usize::from(self.offset))
        } else {
            low
        }
    }

    // The file that its tag names.
    #[tactic(auto, unfolding(crate::specs::Unit::file_of))]
    pub fn file(self) -> usize
        ensures { (result ≡ Unit.file_of self) × (result < 256) }
    {
        usize::from(self.tag % 256)
    }
}
