// A text of a bounded length, put together from bytes, decimal numbers and lines of both; and lines read from an input.
#![tactic(auto)]

ghost use Rattle.std.specs.Prelude.{◌≡◌, ◌+◌, ◌<◌, ◌≤◌, [], ◌∷◌, ◌++◌, length, cond, false};
ghost use Rattle.std.proofs.Math.Option.{none, some};
ghost use Rattle.rules.specs.Text.{decimal, lf, behind, number_from, number_of, number_in};
ghost use Rattle.text.specs.Says.{Heads, Says};

use rules::Geometry;
use std::marker::Model;

// A text of at most N bytes.
#[derive(Drop)]
pub struct Text<const N: usize> {
    bytes: [u8; N],
    len: usize,
}

// Clauses see the bytes that were put.
impl<const N: usize> Model for Text<N> {
    ghost use Rattle.std.specs.Prelude.{◌≤◌, List, ℕ, take};

    ghost Value = { List ℕ };

    ghost view = { λ t. take t.len t.bytes };

    ghost invariant = { λ t. t.len ≤ N };
}

impl<const N: usize> Text<N> {
    pub fn new() -> Self
        ensures { result ≡ [] }
    {
        Text {
            bytes: [0; N],
            len: 0,
        }
    }

    // Kept (2): Places of index has one of [u16; 257]; a struct over both would hold an array of a type parameter, and calls would owe its size.
    // What was put.
    pub fn as_slice(&self) -> &[u8]
        ensures value { result.now ≡ self.now }
        ensures within { length result.now ≤ N }
    {
        &self.bytes[..self.len]
    }

    pub fn len(&self) -> usize
        ensures value { result ≡ length self.now }
        ensures within { result ≤ N }
    {
        self.len
    }

    // Kept (2): shares only the name with clear of c_table, which lays `no file` in each entry of a table; this one empties a text.
    pub fn clear(&mut self)
        ensures { self.new ≡ [] }
    {
        self.len = 0;
    }

    // Kept (2): push of index's Places passes over a place that has no room, which with_place says; here the caller proves that there is room.
    // One byte more.
    pub fn push(&mut self, byte: u8)
        requires { length self.old < N }
        ensures { self.new ≡ self.old ++ byte ∷ [] }
    {
        self.bytes[self.len] = byte;
        self.len += 1;
    }

    // Kept (2): shares only the name: put of step_move programs a descriptor, put of script_state sets one byte of an image.
    // The bytes of a text.
    pub fn put(&mut self, text: &[u8])
        requires { length self.old + length text.now ≤ N }
        ensures { self.new ≡ self.old ++ text.now }
    {
        // Kept (3): `copy_from_slice` was tried and proved; tools/module-check refuses the `ptrtoaddr` that it compiles to.
        for byte in text {
            self.push(*byte);
        }
    }

    // A number in decimal without leading zeros.
    pub fn put_decimal(&mut self, m: usize)
        requires { length self.old + length (decimal m) ≤ N }
        ensures { self.new ≡ self.old ++ decimal m }
    {
        let mut digits = [0u8; 20];
        let mut start = 19;
        let mut left = m;
        // Kept (3): how many digits come is known only once the number is divided to below 10, so no range says the turns.
        while 10 <= left {
            digits[start] = b'0' + (left % 10) as u8;
            start -= 1;
            left /= 10;
        }
        digits[start] = b'0' + left as u8;
        self.put(&digits[start..]);
    }

    // A key and a number.
    pub fn put_pair(&mut self, key: &[u8], m: usize)
        requires { length self.old + length (key.now ++ decimal m) ≤ N }
        ensures { self.new ≡ self.old ++ (key.now ++ decimal m) }
    {
        self.put(key);
        self.put_decimal(m);
    }

    // A key, a number, and the end of a line.
    pub fn put_keyed(&mut self, key: &[u8], m: usize)
        requires { length self.old + length (key.now ++ (decimal m ++ (lf ∷ []))) ≤ N }
        ensures { self.new ≡ self.old ++ (key.now ++ (decimal m ++ (lf ∷ []))) }
    {
        self.put_pair(key, m);
        self.push(b'\n');
    }
}

// Goes on behind the key, where the input begins with it.
#[tactic(auto, using(crate::specs::Says::behind_is))]
pub fn skip(input: &mut &[u8], key: &[u8]) -> bool
    ensures rest { behind key.now input.old.now ≡ cond result (some input.new.now) none }
    ensures same { result ≡ false → input.new ≡ input.old }
{
    match input.strip_prefix(key) {
        Some(rest) => {
            *input = rest;
            true
        }
        None => false,
    }
}

// The number whose digits the input begins with, up to 65,536; it goes on behind their line feed.
fn number_from(input: &mut &[u8]) -> Option<usize>
    ensures { Says (number_from 0 input.old.now) result input.new.now }
{
    let line = *input;
    let mut value: usize = 0;
    for (i, byte) in line.iter().enumerate() {
        match *byte {
            b'\n' => {
                *input = &line[i + 1..];
                return Some(value);
            }
            b'0'..=b'9' => value = 10 * value + usize::from(*byte - b'0'),
            _ => return None,
        }
        if 65536 < value {
            return None;
        }
    }
    None
}

// Kept (2): shares only the name: number of c_report and c_passes gives C's number of a refusal; this one reads digits.
// The number that the input begins with; it has no leading zeros, and is not 0.
#[tactic(auto, using(crate::specs::Says::of_digit, crate::specs::Says::of_other))]
pub fn number(input: &mut &[u8]) -> Option<usize>
    ensures { Says (number_of input.old.now) result input.new.now }
{
    match *input {
        [b'1'..=b'9', ..] => number_from(input),
        _ => None,
    }
}

// A line `key=` with a number.
pub fn line(input: &mut &[u8], key: &[u8]) -> Option<usize>
    ensures { Says (number_in (behind key.now input.old.now)) result input.new.now }
{
    if !skip(input, key) {
        return None;
    }
    number(input)
}

// The geometry that the two lines `unit=` and `units=` say.
pub fn header(input: &mut &[u8]) -> Option<Geometry>
    ensures { Heads input.old.now result input.new.now }
{
    let size = line(input, b"unit=")?;
    let units = line(input, b"units=")?;
    Some(Geometry { size, units })
}
