// Reading a HEX text into an image: all lines are checked first, with a mark for each address that is named, and then laid into the image.
#![tactic(auto)]

ghost use Rattle.std.specs.Prelude.{◌≡◌, ◌+◌, ◌≤◌, ◌<◌, length, MatchResult, IsOk, Err};
ghost use Rattle.std.proofs.lemmas.List.Edits.{sets};
ghost use Rattle.hex_lines.specs.Faults.{number_of};
ghost use Rattle.hex_lines.specs.Records.{count, data_of, lines_of};
ghost use Rattle.hex_lines.specs.Reads.{read_text, reads};
ghost use Rattle.hex_read.specs.Checks.{Naming};
ghost use Rattle.hex_read.specs.Fills.{IsInside, laid, OnTheWay, TextNames};

use hex_lines::{HexFault, Lines, Record, RecordLine};
use marks::Marks;
use rules::Geometry;

// A mark for each of 65,536 addresses.
type Named = Marks<8192>;

// Marks the n addresses from a on, unless one is beyond the image or marked already.
fn name(named: &mut Named, size: usize, a: usize, n: usize) -> Result<(), HexFault>
    requires { (size ≤ 65536) × (a < 65536) × (n < 256) }
    ensures { Naming size a n named.old named.new result }
{
    if 0 < n && size < a + n {
        return Err(HexFault::Outside);
    }
    for k in a..a + n {
        if named.mark(k) {
            return Err(HexFault::NamedTwice);
        }
    }
    Ok(())
}

// Checks the lines of a text, for an image of so many bytes.
// Kept (2): shares only the name with rules' `Geometry::check`, which looks at three numbers, not at a text.
fn check(text: &[u8], size: usize) -> Result<(), HexFault>
    requires { size ≤ 65536 }
    ensures { MatchResult result (λ _. IsOk (read_text text.now size)) (λ e. read_text text.now size ≡ Err e) }
{
    let mut named = Named::none();
    let mut lines = Lines(text);
    // Kept (3): the end record's arm takes the next line from the same `lines`, which a `for` over them would have borrowed.
    while let Some(line) = lines.next() {
        match hex_lines::record_of(line)? {
            Record::End => {
                if lines.next().is_some() {
                    return Err(HexFault::BadLine);
                }
                return Ok(());
            }
            Record::Data { address, count } => name(&mut named, size, address, count)?,
        }
    }
    Err(HexFault::NoEnd)
}

// Lays a record's bytes.
fn lay(line: &RecordLine, image: &mut [u8], a: usize, n: usize)
    requires counted { count line.now.line.now ≡ n }
    requires inside { 0 < n → a + n ≤ length image.old }
    ensures { image.new ≡ sets image.old a (data_of line.now.line.now) }
{
    for k in 0..n {
        image[a + k] = line.byte(4 + k);
    }
}

// Lays the bytes of a line, if it is a data record.
fn fill_line(line: &[u8], image: &mut [u8])
    requires { IsInside line.now (length image.old) }
    ensures { image.new ≡ laid line.now image.old }
{
    let Some(line) = RecordLine::new(line) else {
        return;
    };
    let Ok(Record::Data { address, count }) = line.record() else {
        return;
    };
    lay(&line, image, address, count);
}

// Lays the bytes of all lines.
// Kept (2): shares only the name: lays a text's bytes, where script_state makes an image of FF, step_move fills a copy, and table_renew a table.
fn fill(text: &[u8], image: &mut [u8])
    requires { OnTheWay text.now (length image.old) (lines_of text.now) image.old }
    ensures { TextNames text.now (length image.old) image.new }
{
    for line in Lines(text) {
        fill_line(line, image);
    }
}

// Kept (2): shares only the name with the other crates' `read`: from a text into an image, where they read a file, a table, a table's entry and an input.
// Reads a text into the image of a geometry: the bytes that the text names, all others FF. A refused text changes nothing.
pub fn read(text: &[u8], g: Geometry, image: &mut [u8]) -> Result<(), HexFault>
    ensures { (number_of result ≡ (reads g text.now image.old).number) × (image.new ≡ (reads g text.now image.old).image) }
{
    if !g.check(image.len()) {
        return Err(HexFault::BadGeometry);
    }
    check(text, image.len())?;
    image.fill(0xFF);
    fill(text, image);
    Ok(())
}
