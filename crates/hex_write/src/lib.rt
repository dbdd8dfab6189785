// Writing an image as a HEX text into a lent buffer.
#![tactic(auto)]

ghost use Rattle.std.specs.Prelude.{◌≡◌, ◌++◌, ◌*◌, ◌+◌, ◌≤◌, ◌<◌, length, drop};
ghost use Rattle.rules.specs.Flash.{erased};
ghost use Rattle.hex_lines.specs.Faults.{number_of, length_of};
ghost use Rattle.hex_lines.specs.Writes.{checksum, digit, row_line, writes};
ghost use Rattle.hex_write.specs.Rows.{lines_of_rows, record_of_row};

use hex_lines::HexFault;
use rules::Geometry;

// A hex digit, in upper case.
// Kept (2): script_answers' `digit` writes small letters; one for both would take the letter `a` or `A` at each call, and its clause the two glyphs.
fn digit(v: u8) -> u8
    requires { v < 16 }
    ensures { result ≡ digit v }
{
    if v < 10 { b'0' + v } else { b'A' - 10 + v }
}

// What makes the sum of the bytes and of itself 0 modulo 256.
fn checksum(bytes: &[u8]) -> u8
    ensures { result ≡ checksum bytes.now }
{
    bytes
        .iter()
        .fold(0u8, |sum, b| sum.wrapping_add(*b))
        .wrapping_neg()
}

// The bytes of a row's record: count, address, type 00, the row and the checksum.
// Kept (2): shares only the name with hex_lines' `record_of`, which goes the other way: from a line to what its record says.
fn record_of(a: u16, row: &[u8; 16]) -> [u8; 21]
    ensures { result ≡ record_of_row a row.now }
{
    let [high, low] = a.to_be_bytes();
    let mut record = [0; 21];
    record[..4].copy_from_slice(&[16, high, low, 0]);
    record[4..20].copy_from_slice(row);
    record[20] = checksum(&record[..20]);
    record
}

// Writes a row's line.
fn put_row(a: u16, row: &[u8; 16], line: &mut [u8])
    requires { length line.old ≡ 44 }
    ensures { line.new ≡ row_line a row.now }
{
    let record = record_of(a, row);
    line.fill(b'\n');
    line[0] = b':';
    for k in 0..21 {
        line[2 * k + 1] = digit(record[k] / 16);
        line[2 * k + 2] = digit(record[k] % 16);
    }
}

// The row is all FF.
fn is_blank(row: &[u8; 16]) -> bool
    ensures { result ≡ erased row.now }
{
    row.iter().all(|b| *b == 0xFF)
}

// Writes the lines of the rows that are not blank, and says how long they are.
fn put_rows(rows: &[[u8; 16]], text: &mut [u8]) -> usize
    requires count { length rows.now ≤ 4096 }
    requires room { 44 * length rows.now ≤ length text.old }
    ensures len { result ≡ length (lines_of_rows 0 rows.now) }
    ensures fits { result ≤ 44 * length rows.now }
    ensures text { text.new ≡ lines_of_rows 0 rows.now ++ drop result text.old }
{
    let mut at = 0;
    for (n, row) in rows.iter().enumerate() {
        if !is_blank(row) {
            put_row((16 * n) as u16, row, &mut text[at..at + 44]);
            at += 44;
        }
    }
    at
}

// Kept (2): shares only the name with call_write and c_passes: an image's text into a buffer, where those put a file's content into the image.
// Writes an image of a geometry as a text, and gives the text's length; a buffer shorter than the longest text is refused too.
pub fn write(image: &[u8], g: Geometry, text: &mut [u8]) -> Result<usize, HexFault>
    ensures { (number_of result ≡ (writes g image.now text.old).number) × (length_of result ≡ (writes g image.now text.old).length) × (text.new ≡ (writes g image.now text.old).buffer) }
{
    let (rows, _) = image.as_chunks::<16>();
    if !g.check(image.len()) || text.len() < 44 * rows.len() + 12 {
        return Err(HexFault::BadGeometry);
    }
    let at = put_rows(rows, text);
    text[at..at + 12].copy_from_slice(b":00000001FF\n");
    Ok(at + 12)
}
