// Prints an image as a HEX text.
#![tactic(auto)]

ghost use Rattle.std.specs.Prelude.{IfSome, OnOk};
ghost use Rattle.std.specs.Io.KnownBytes.{Appends};
ghost use Rattle.hex_input.specs.Programs.{to_hex};

use std::io;
use std::io::{Read, Write};

// Writes the text of a whole input. Its first 65,556 bytes print as the whole does (`to_cut`), so no more is read.
// Kept (2): from_hex has other lengths, and another function, definition and law; one of both would take the function and that law's premise.
fn print<R: Read + Drop, W: Write>(mut input: R, output: &mut W) -> io::Result<()>
    ensures { OnOk result (IfSome (R.remaining input) (λ s. Appends (W.contents output.old) (W.contents output.new) (to_hex s))) }
{
    let mut bytes = [0u8; 65556];
    let read = whole_input::read(&mut input, &mut bytes)?;
    let mut text = [0u8; 180236];
    let len = hex_input::to_hex(read, &mut text);
    output.write_all(&text[..len])
}

fn main(rt: HostRuntime) -> io::Result<()> {
    print(rt.stdin(), &mut rt.stdout())
}
