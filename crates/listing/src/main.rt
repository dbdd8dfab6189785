// The listing program: reads standard input and writes its listing.
#![tactic(auto)]

ghost use Rattle.std.specs.Prelude.{IfSome, OnOk};
ghost use Rattle.std.specs.Io.KnownBytes.{Appends};
ghost use Rattle.rules.specs.Listing.{listing};

use listing_text::Listing;
use std::io;
use std::io::{Read, Write};

// Writes the listing of a whole input. Its first 65,556 bytes list as the whole does (`listing_cut`), so no more is read.
fn print<R: Read + Drop, W: Write>(mut input: R, output: &mut W) -> io::Result<()>
    ensures { OnOk result (IfSome (R.remaining input) (λ s. Appends (W.contents output.old) (W.contents output.new) (listing s))) }
{
    let mut bytes = [0u8; 65556];
    let read = whole_input::read(&mut input, &mut bytes)?;
    let mut listing = Listing::new();
    listing_text::text(read, &mut listing);
    output.write_all(listing.as_slice())
}

fn main(rt: HostRuntime) -> io::Result<()> {
    print(rt.stdin(), &mut rt.stdout())
}
