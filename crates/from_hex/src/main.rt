// Prints the image that a HEX text names.
#![tactic(auto)]

ghost use Rattle.std.specs.Prelude.{IfSome, OnOk};
ghost use Rattle.std.specs.Io.KnownBytes.{Appends};
ghost use Rattle.hex_input.specs.Programs.{from_hex};

use std::io;
use std::io::{Read, Write};

// Writes the image of a whole input. Its first 196,609 bytes print as the whole does (`from_cut`), so no more is read.
// Kept (2): to_hex has other lengths, and another function, definition and law; one of both would take the function and that law's premise.
fn print<R: Read + Drop, W: Write>(mut input: R, output: &mut W) -> io::Result<()>
    ensures { OnOk result (IfSome (R.remaining input) (λ s. Appends (W.contents output.old) (W.contents output.new) (from_hex s))) }
{
    let mut bytes = [0u8; 196609];
    let read = whole_input::read(&mut input, &mut bytes)?;
    let mut image = [0u8; 65560];
    let len = hex_input::from_hex(read, &mut image);
    output.write_all(&image[..len])
}

fn main(rt: HostRuntime) -> io::Result<()> {
    print(rt.stdin(), &mut rt.stdout())
}
