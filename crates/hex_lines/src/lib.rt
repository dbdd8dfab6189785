// Intel HEX: why a text is refused, the record that a line is, and the lines of a text.
#![tactic(auto)]

ghost use Rattle.std.specs.Prelude.{◌≡◌, true, ◌&&◌, ◌+◌, ◌*◌, ◌%◌, ◌<◌, [], ◌∷◌, length, get_or, IfSome, IsTrue, MatchOption, SomeIff, is_some};
ghost use Rattle.std.specs.Iterator.{YieldsFirstRef, item_count};
ghost use Rattle.hex_lines.specs.Faults.{number};
ghost use Rattle.hex_lines.specs.Records.{is_hex, record_bytes, count, address, is_formed, sum, record_of, lines_of};
ghost use Rattle.hex_lines.specs.Digits.{pair_of};

// Why a text is not read, or an image not written: each with the request's number.
#[derive(Clone, Copy, PartialEq, Eq)]
pub enum HexFault {
    BadGeometry = 2,
    BadLine = 30,
    BadChecksum = 31,
    BadType = 32,
    Outside = 33,
    NamedTwice = 34,
    NoEnd = 35,
}

impl From<HexFault> for u32 {
    ghost from_gives = { λ f n. n ≡ number f };

    // Kept (4): the one conversion of a fault to its number; Rattle, as Rust, derives no `From` out of an enum's discriminants.
    fn from(fault: HexFault) -> u32 {
        fault as u32
    }
}

// What a record says: that the text ends, or so many bytes from an address on.
// Kept (1): `End` is a record like the other, not the lack of one: `None` would say that there is no record, and a line without one is an `Err` here.
#[derive(Clone, Copy, PartialEq, Eq)]
pub enum Record {
    End,
    Data { address: usize, count: usize },
}

// The byte that two hex digits write.
#[tactic(auto, unfolding(crate::specs::Records::is_hex, crate::specs::Records::value, crate::specs::Digits::pair_of))]
fn byte_of(high: u8, low: u8) -> Option<u8>
    ensures { SomeIff result (IsTrue (is_hex high && is_hex low)) (pair_of high low) }
{
    let high = char::from(high).to_digit(16)?;
    let low = char::from(low).to_digit(16)?;
    Some((16 * high + low) as u8)
}

// A line that has a record's form: a colon, then hex digits, as many as the count asks for.
#[derive(Clone, Copy)]
pub struct RecordLine<'a> {
    line: &'a [u8],
    ghost formed: { is_formed line.now ≡ true },
}

impl<'a> RecordLine<'a> {
    #[tactic(auto, unfolding(crate::specs::Records::is_formed, crate::specs::Records::count))]
    pub fn new(line: &'a [u8]) -> Option<Self>
        ensures formed { is_some result ≡ is_formed line.now }
        ensures same { IfSome result (λ r. r.line.now ≡ line.now) }
    {
        let [b':', high, low, ..] = line else {
            return None;
        };
        let count = usize::from(byte_of(*high, *low)?);
        if line.len() != 11 + 2 * count || !line[1..].iter().all(u8::is_ascii_hexdigit) {
            return None;
        }
        Some(RecordLine { line })
    }

    // A byte of the record: the count, two of the address, the type, the data and the checksum.
    pub fn byte(&self, k: usize) -> u8
        requires { 2 * k + 2 < length self.now.line.now }
        ensures { result ≡ get_or (record_bytes self.now.line.now) k 0 }
    {
        byte_of(self.line[2 * k + 1], self.line[2 * k + 2]).unwrap()
    }

    // Kept (2): shares only the name with c_passes and counts: the number of a record's data bytes, a method of its line.
    #[tactic(auto, unfolding(crate::specs::Records::count))]
    fn count(&self) -> usize
        ensures { result ≡ count self.now.line.now }
    {
        usize::from(self.byte(0))
    }

    #[tactic(auto, unfolding(crate::specs::Records::address))]
    fn address(&self) -> usize
        ensures { result ≡ address self.now.line.now }
    {
        usize::from(u16::from_be_bytes([self.byte(1), self.byte(2)]))
    }

    // The sum of the record's bytes, modulo 256.
    fn sum(&self) -> u8
        ensures { result ≡ sum (record_bytes self.now.line.now) % 256 }
    {
        let mut sum: u8 = 0;
        for k in 0..self.line.len() / 2 {
            sum = sum.wrapping_add(self.byte(k));
        }
        sum
    }

    // What the record says, if its sum and its type are right.
    #[tactic(auto, unfolding(crate::specs::Records::record_of, crate::specs::Records::is_full_end, crate::specs::Records::is_summed, crate::specs::Records::kind))]
    pub fn record(&self) -> Result<Record, HexFault>
        ensures { result ≡ record_of self.now.line.now }
    {
        let count = self.count();
        let kind = self.byte(3);
        if kind == 1 && 0 < count {
            return Err(HexFault::BadLine);
        }
        if self.sum() != 0 {
            return Err(HexFault::BadChecksum);
        }
        let address = self.address();
        match kind {
            0 => Ok(Record::Data { address, count }),
            1 => Ok(Record::End),
            _ => Err(HexFault::BadType),
        }
    }
}

// What a line is.
// Kept (2): shares only the name with hex_write's `record_of`, which goes the other way: a row's bytes with its address and checksum.
#[tactic(auto, unfolding(crate::specs::Records::record_of))]
pub fn record_of(line: &[u8]) -> Result<Record, HexFault>
    ensures { result ≡ record_of line.now }
{
    RecordLine::new(line).ok_or(HexFault::BadLine)?.record()
}

// The first line of a text, and what stands behind its end.
fn split_line(text: &[u8]) -> Option<(&[u8], &[u8])>
    ensures { MatchOption result (lines_of text.now ≡ []) (λ p. lines_of text.now ≡ p.0.now ∷ lines_of p.1.now) }
{
    if text.is_empty() {
        return None;
    }
    let Some(n) = text.iter().position(|c| *c == b'\n') else {
        return Some((text, &text[text.len()..]));
    };
    let line = &text[..n];
    Some((line.strip_suffix(b"\r").unwrap_or(line), &text[n + 1..]))
}

// The lines of a text: each ends at a line feed, with or without a carriage return before it, or where the text does.
#[derive(Drop)]
pub struct Lines<'a>(pub &'a [u8]);

impl<'a> Iterator for Lines<'a> {
    type Item = &'a [u8];

    ghost next_gives = { YieldsFirstRef (λ s. lines_of s.0.now) };

    ghost remaining = { item_count (λ s. lines_of s.0.now) };

    fn next(&mut self) -> Option<&'a [u8]> {
        let (line, rest) = split_line(self.0)?;
        self.0 = rest;
        Some(line)
    }
}
