// The words of a line: a number, and a content.
ghost use Rattle.std.specs.Prelude.{◌≡◌, [], List, ℕ, ◌<◌, ◌≤◌, IfSome, length, option_copied, ⊤};
ghost use Rattle.script.specs.Words.{number_of, nibble_of, bytes_from, content_of};

use std::alloc::AllocError;
use std::marker::Model;

// A word of a line; a contract sees its bytes.
#[derive(Drop)]
pub struct Word<'a> {
    pub(crate) bytes: &'a [u8],
}

impl<'a> Model for Word<'a> {
    ghost Value = { List ℕ };

    ghost view = { λ w. w.bytes.now };
}

// The kit has no `Copy` for a type whose model does not give its fields back.
impl Clone for Word<'_> {
    ghost is_clone = { λ x y. y ≡ x };

    ghost is_infallible = { λ _. ⊤ };

    fn clone(&self) -> Result<Self, AllocError> {
        Ok(Word { bytes: self.bytes })
    }
}

// A number in decimal, from 0 to 4,294,967,295.
#[tactic(auto, using(crate::specs::WordLaws::numbers, std::proofs::lemmas::Bool::Decides::nat_tests), unfolding(rules::specs::Text::is_digit))]
pub(crate) fn number_of(word: &[u8]) -> Option<u32>
    ensures { result ≡ number_of word.now }
{
    if word.is_empty() {
        return None;
    }
    let mut m: u32 = 0;
    for c in word {
        if !c.is_ascii_digit() {
            return None;
        }
        m = m.checked_mul(10)?.checked_add(u32::from(*c - b'0'))?;
    }
    Some(m)
}

// A digit of lower-case hex.
#[tactic(auto, using(std::proofs::lemmas::Bool::Decides::nat_tests), unfolding(crate::specs::Words::nibble_of, rules::specs::Text::is_digit))]
fn nibble(c: u8) -> Option<u8>
    ensures value { result ≡ nibble_of c }
    ensures digit { IfSome result (λ d. d < 16) }
{
    match c {
        b'0'..=b'9' => Some(c - b'0'),
        b'a'..=b'f' => Some(c - b'a' + 10),
        _ => None,
    }
}

// Two digits for each byte.
#[tactic(auto, using(crate::specs::WordLaws::pairs))]
fn bytes<'b>(word: &[u8], buffer: &'b mut [u8; 1024]) -> Option<&'b [u8]>
    requires { length word.now ≤ 2048 }
    ensures { option_copied result ≡ bytes_from [] word.now }
{
    let mut n = 0;
    for pair in word.chunks(2) {
        let [high, low] = pair else {
            return None;
        };
        buffer[n] = 16 * nibble(*high)? + nibble(*low)?;
        n += 1;
    }
    Some(&buffer[..n])
}

impl Word<'_> {
    // Kept (2): shares only its name with `content` of call_read, which cuts an answer's part out of the image; this reads hex digits.
    // A content of at most 1,024 bytes in lower-case hex, `-` for none.
    #[tactic(auto, using(crate::specs::WordLaws::contents))]
    pub fn content<'b>(&self, buffer: &'b mut [u8; 1024]) -> Option<&'b [u8]>
        ensures { option_copied result ≡ content_of self.now }
    {
        match self.bytes {
            [] => None,
            b"-" => Some(&buffer[..0]),
            word if word.len() <= 2048 => bytes(word, buffer),
            _ => None,
        }
    }
}
