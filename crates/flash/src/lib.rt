// One word and one unit: read, program, erase; the steps of a job under an allowance.
// Kept (5) in this file: contracts tell the whole image, of which the unit at base is lent; a type of both would be taken apart and made anew at each word.
#![tactic(auto)]

ghost use Rattle.std.specs.Prelude.{◌≡◌, Some, ◌+◌, ◌%◌, ◌≤◌, ◌<◌, length, drop, replicate};
ghost use Rattle.rules.specs.Flash;
ghost use Rattle.rules.specs.Flash.{erased, apply, state, step, run, programs, words};
ghost use Rattle.flash.specs.Laws.{word_from};

use rules::{ERASED_BYTE, Run};

// The word at an offset.
#[tactic(auto, using(laws::specs::Words::word_bytes))]
pub fn word(s: &[u8], at: usize) -> u16
    requires { at + 2 ≤ length s.now }
    ensures { result ≡ Flash.word s.now at }
{
    u16::from_le_bytes([s[at], s[at + 1]])
}

// Every byte is FF: so is their AND. Most that are not erased tell by their first byte.
pub fn is_erased(s: &[u8]) -> bool
    ensures { result ≡ erased s.now }
{
    match s {
        [first, ..] if *first != ERASED_BYTE => false,
        _ => s.iter().fold(ERASED_BYTE, |all, byte| all & *byte) == ERASED_BYTE,
    }
}

// One word of a unit becomes the old one AND the given one.
pub fn program(unit: &mut [u8], at: usize, value: u16)
    requires { at + 2 ≤ length unit.old }
    ensures { unit.new ≡ apply (Flash.program at value) unit.old }
{
    let new = word(unit, at) & value;
    [unit[at], unit[at + 1]] = new.to_le_bytes();
}

// The unit at base is lent; the rest of the image is outside the call.
pub fn program_in(image: &mut [u8], base: usize, size: usize, at: usize, value: u16)
    requires { (base + size ≤ length image.old) × (at + 2 ≤ size) }
    ensures { image.new ≡ apply (Flash.program (base + at) value) image.old }
{
    program(&mut image[base..base + size], at, value);
}

// Every byte of a unit becomes FF.
pub fn erase(unit: &mut [u8])
    ensures { unit.new ≡ replicate (length unit.old) 255 }
{
    unit.fill(ERASED_BYTE);
}

// The unit at base is lent; the rest of the image is outside the call.
pub fn erase_in(image: &mut [u8], base: usize, size: usize)
    requires { base + size ≤ length image.old }
    ensures { image.new ≡ apply (Flash.erase base size) image.old }
{
    erase(&mut image[base..base + size]);
}

// One word of the unit at base, with `left` steps left: a word that holds its target is no step.
fn spend_word(image: &mut [u8], base: usize, size: usize, at: usize, value: u16, left: u32) -> Run
    requires { (base + size ≤ length image.old) × (at + 2 ≤ size) }
    ensures { state image.new result ≡ step (Flash.program (base + at) value) (state image.old (Some left)) }
{
    let old = word(image, base + at);
    if old & value == old {
        return Some(left);
    }
    let fewer = left.checked_sub(1)?;
    program_in(image, base, size, at, value);
    Some(fewer)
}

// One word of the unit at base, of a job that may be cut.
#[tactic(auto, unfolding(rules::specs::Flash::step))]
pub fn program_on(
    image: &mut [u8],
    base: usize,
    size: usize,
    at: usize,
    value: u16,
    was: Run,
) -> Run
    requires { (base + size ≤ length image.old) × (at + 2 ≤ size) }
    ensures { state image.new result ≡ step (Flash.program (base + at) value) (state image.old was) }
{
    spend_word(image, base, size, at, value, was?)
}

// The word of a content at i: the last byte of an odd one stands beside FF.
#[tactic(auto, using(crate::specs::Laws::word_pair, crate::specs::Laws::word_odd))]
pub fn word_of(content: &[u8], i: usize) -> u16
    requires { i < length content.now }
    ensures { result ≡ word_from (drop i content.now) }
{
    let next = content.get(i + 1).copied();
    u16::from_le_bytes([content[i], next.unwrap_or(ERASED_BYTE)])
}

// A content's words, ascending from offset at of the unit at base.
pub fn words_on(
    image: &mut [u8],
    base: usize,
    size: usize,
    at: usize,
    content: &[u8],
    was: Run,
) -> Run
    requires { (base + size ≤ length image.old) × (at + (length content.now + length content.now % 2) ≤ size) }
    ensures { state image.new result ≡ run (programs (base + at) (words content.now)) (state image.old was) }
{
    let mut r = was;
    for i in (0..content.len()).step_by(2) {
        r = program_on(image, base, size, at + i, word_of(content, i), r);
    }
    r
}

// The unit at base erased, of a job that may be cut.
#[tactic(auto, using(crate::specs::Laws::erase_made), unfolding(rules::specs::Flash::step, rules::specs::Flash::idle))]
pub fn erase_on(image: &mut [u8], base: usize, size: usize, was: Run) -> Run
    requires { base + size ≤ length image.old }
    ensures { state image.new result ≡ step (Flash.erase base size) (state image.old was) }
{
    let fewer = was?.checked_sub(1)?;
    erase_in(image, base, size);
    Some(fewer)
}
