// The whole of an input, up to a bound.
#![tactic(auto)]

ghost use Rattle.std.specs.Prelude.{◌≡◌, ◌≤◌, IfOk, IfSome, length, take};

use std::io;
use std::io::Read;

// Kept (2): shares only the name: the other four called read look for a file in an image or read a HEX text; this one fills a buffer from an input.
// The first bytes of an input, as many as the buffer holds or as the input has. No more is read.
pub fn read<'a, R: Read>(input: &mut R, buffer: &'a mut [u8]) -> io::Result<&'a [u8]>
    ensures within { IfOk result (λ read. length read.now ≤ length buffer.old) }
    ensures bytes { IfOk result (λ read. IfSome (R.remaining input.old) (λ s. read.now ≡ take (length buffer.old) s)) }
{
    let mut at: usize = 0;
    // Kept (3): a turn goes on by as many bytes as the input gave; std's `read_to_end` does it only into a Vec, and the buffer is fixed memory.
    while at < buffer.len() {
        match input.read(&mut buffer[at..])? {
            0 => break,
            n => at += n,
        }
    }
    Ok(&buffer[..at])
}
