// Is one unit the copy of another, complete or being made? Compared word by word, without building the copy.
#![tactic(auto)]

ghost use Rattle.std.specs.Prelude.{◌≡◌, ◌+◌, ◌*◌, ◌≤◌, length, drop};
ghost use Rattle.rules.specs.Unit.{stands};
ghost use Rattle.copy.specs.Stream.{holds, agree, movable, same_four, placed, copy_from, is_copy};
ghost use Rattle.copy.specs.Moving.{is_live, moves};

use rules::Descriptor;

// A unit, and another of its size that may be its copy: where whole, a complete one, else one that is being made.
// Kept (1): `whole` says which of two tests each word is put to; both units are there for both, so no variant would hold less.
#[derive(Clone, Copy)]
struct Copying<'a> {
    whole: bool,
    src: &'a [u8],
    dst: &'a [u8],
    ghost small: { length src.now ≤ 4096 },
    ghost same: { length dst.now ≡ length src.now },
}

impl Copying<'_> {
    // Does w stand where the copy has v: the same, or FFFF where not all need be there?
    #[tactic(auto, unfolding(crate::specs::Stream::holds))]
    fn has(&self, v: u16, w: u16) -> bool
        ensures { result ≡ holds self.now.whole v w }
    {
        w == v || !self.whole && w == unit::ERASED
    }

    // The same of each word of a descriptor.
    #[tactic(auto, unfolding(crate::specs::Stream::same_four))]
    fn has_descriptor(&self, d: Descriptor, e: Descriptor) -> bool
        ensures { result ≡ same_four self.now.whole d e }
    {
        self.has(d.flags, e.flags)
            && self.has(d.offset, e.offset)
            && self.has(d.len, e.len)
            && self.has(d.tag, e.tag)
    }

    // The same of k words, from a of the unit and from b of the copy.
    fn has_words(&self, k: usize, a: usize, b: usize) -> bool
        requires { (a + 2 * k ≤ length self.now.src.now) × (b + 2 * k ≤ length self.now.dst.now) }
        ensures { result ≡ agree self.now.whole k (drop a self.now.src.now) (drop b self.now.dst.now) }
    {
        (0..k).all(|i| {
            let v = flash::word(self.src, a + 2 * i);
            let w = flash::word(self.dst, b + 2 * i);
            self.has(v, w)
        })
    }

    // Can the sector be copied, below low and above floor?
    #[tactic(auto, unfolding(crate::specs::Stream::movable))]
    fn can_move(&self, floor: usize, low: usize, d: Descriptor) -> bool
        requires { floor ≤ 65536 }
        ensures { result ≡ movable d (length self.now.src.now) floor low }
    {
        d.len <= unit::LONGEST
            && d.offset % 2 == 0
            && usize::from(d.offset) + d.size() <= self.src.len()
            && floor + d.size() <= low
    }

    // One position, packed below low: the lowest offset then, if the copy stands.
    // Kept (2): place's shares only the name: it chooses a unit for a new sector, this one follows a copied sector.
    #[tactic(auto, using(crate::specs::Within::movable_inv), unfolding(crate::specs::Stream::placed, crate::specs::Stream::kept_there, laws::specs::Copies::moved))]
    fn place_of(&self, floor: usize, low: usize, d: Descriptor, e: Descriptor) -> Option<usize>
        requires { (low ≤ length self.now.src.now) × (floor ≤ length self.now.src.now) }
        ensures { result ≡ placed self.now.whole self.now.src.now self.now.dst.now floor low d e }
    {
        if !d.is_kept() {
            return e.is_empty().then_some(low);
        }
        if !self.can_move(floor, low, d) {
            return None;
        }
        let at = low - d.size();
        let packed = Descriptor {
            offset: at as u16,
            ..d
        };
        let there = self.has_descriptor(packed, e)
            && self.has_words(d.size() / 2, usize::from(d.offset), at);
        there.then_some(at)
    }

    // The n positions, then the gap.
    #[tactic(auto, using(crate::specs::LoopTurns::copy_turn, crate::specs::LoopTurns::copy_stop, crate::specs::LoopTurns::copy_end, crate::specs::Within::placed_low, crate::specs::Within::placed_above), unfolding(rules::specs::Unit::stands))]
    fn has_all(&self, n: usize) -> bool
        requires { stands n ≤ length self.now.src.now }
        ensures { result ≡ copy_from self.now.whole self.now.src.now self.now.dst.now (stands n) n 0 (length self.now.src.now) }
    {
        let floor = rules::stands(n);
        let mut low = self.src.len();
        for p in 0..n {
            let d = unit::descriptor(self.src, p);
            let e = unit::descriptor(self.dst, p);
            let Some(at) = self.place_of(floor, low, d, e) else {
                return false;
            };
            low = at;
        }
        flash::is_erased(&self.dst[floor..low])
    }
}

// Is dst the copy of src from byte 4 on: complete, or being made? Nothing is due in its header. In its callers it spares stack.
#[inline(always)]
#[tactic(auto, unfolding(crate::specs::Stream::is_copy, rules::specs::Unit::is_header))]
pub fn is_copy(whole: bool, src: &[u8], dst: &[u8]) -> bool
    requires { (length src.now ≤ 4096) × (length dst.now ≡ length src.now) × (16 ≤ length src.now) }
    ensures { result ≡ is_copy whole src.now dst.now }
{
    let copying = Copying { whole, src, dst };
    unit::has_header(dst) && copying.has_all(unit::room_of(src).n)
}

// The unit is a home in use.
#[tactic(auto, unfolding(crate::specs::Moving::is_live))]
pub fn is_live(unit: &[u8]) -> bool
    requires { 4 ≤ length unit.now }
    ensures { result ≡ is_live unit.now }
{
    flash::word(unit, unit::STATE_AT) == unit::LIVE
}

// Is r, the remaining unit, moving beside h, the home of its number, where so many homes are not live?
#[tactic(auto, unfolding(crate::specs::Moving::moves))]
pub fn is_move(others: usize, r: &[u8], h: &[u8]) -> bool
    requires { (16 ≤ length r.now) × (length r.now ≤ 4096) × (length h.now ≡ length r.now) }
    ensures { result ≡ moves others r.now h.now }
{
    match (flash::word(r, unit::STATE_AT), others) {
        (unit::RECEIVING, 0) => is_copy(false, h, r),
        (unit::RECEIVING, 1) => !is_live(h) && is_copy(true, h, r),
        (unit::RETIRED, 0) => is_copy(true, r, h),
        _ => false,
    }
}
