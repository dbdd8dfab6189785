// The texts of the two programs: what each prints for a whole standard input, into a lent buffer.
#![tactic(auto)]

ghost use Rattle.std.specs.Prelude.{◌≡◌, ◌++◌, ◌≤◌, length};
ghost use Rattle.rules.specs.Listing.{keyed};
ghost use Rattle.hex_lines.specs.Faults.{number};
ghost use Rattle.hex_input.specs.Programs.{refusal, to_hex, from_hex};
ghost use Rattle.hex_input.specs.Texts.{Printed, Prints, Headed};

use hex_lines::HexFault;
use rules::Geometry;
use text::Text;

// A refusal's line.
// Kept (2): listing_text's writes a call's reason into its `Listing`, table_entries' makes a report; the one line that they share is `put_keyed`.
#[tactic(auto, using(text::specs::Put::decimal_short, crate::specs::Texts::number_short, std::proofs::lemmas::Grind::common_steps), unfolding(rules::specs::Text::text))]
fn refused(out: &mut [u8], fault: HexFault) -> usize
    requires { 20 ≤ length out.old }
    ensures { Printed (refusal (number fault)) out.new result }
{
    let mut line = Text::<20>::new();
    line.put_keyed(b"refused=", u32::from(fault) as usize);
    out[..line.len()].copy_from_slice(line.as_slice());
    line.len()
}

// The geometry that two header lines say, of an input of at most so many bytes; it goes on behind them.
fn headed(input: &mut &[u8], most: usize) -> Result<Geometry, HexFault>
    ensures { Headed most input.old.now result input.new.now }
{
    if most < input.len() {
        return Err(HexFault::BadGeometry);
    }
    text::header(input).ok_or(HexFault::BadGeometry)
}

// The text of an image behind two header lines.
fn text_of(input: &[u8], out: &mut [u8]) -> Result<usize, HexFault>
    requires { 180236 ≤ length out.old }
    ensures { Prints (to_hex input.now) out.new result }
{
    let mut rest = input;
    let g = headed(&mut rest, 65555)?;
    hex_write::write(rest, g, out)
}

// `to_hex`: two header lines, then the image.
// Kept (2, 6): `from_hex` has another length and inner function, which one of both would be handed; `Printed` promises of a lent array how much is text.
pub fn to_hex(input: &[u8], out: &mut [u8; 180236]) -> usize
    ensures { Printed (to_hex input.now) out.new result × (result ≤ 180236) }
{
    match text_of(input, out) {
        Ok(len) => len,
        Err(fault) => refused(out, fault),
    }
}

// The two header lines that say a geometry.
#[tactic(auto, using(text::specs::Put::decimal_short, std::proofs::lemmas::Grind::common_steps), unfolding(rules::specs::Text::text, rules::specs::Listing::keyed))]
fn header_of(g: Geometry) -> Text<24>
    requires { (g.size ≤ 65536) × (g.units ≤ 65536) }
    ensures { result ≡ keyed "unit=" g.size ++ keyed "units=" g.units }
{
    let mut header = Text::new();
    header.put_keyed(b"unit=", g.size);
    header.put_keyed(b"units=", g.units);
    header
}

// The image that a HEX text names behind two header lines, behind the two lines again.
fn image_of(input: &[u8], out: &mut [u8]) -> Result<usize, HexFault>
    requires { 65560 ≤ length out.old }
    ensures { Prints (from_hex input.now) out.new result }
{
    let mut rest = input;
    let g = headed(&mut rest, 196608)?;
    let n = g.units * g.size;
    if !g.check(n) {
        return Err(HexFault::BadGeometry);
    }
    let lines = header_of(g);
    let start = lines.len();
    let end = start + n;
    out[..start].copy_from_slice(lines.as_slice());
    hex_read::read(rest, g, &mut out[start..end])?;
    Ok(end)
}

// `from_hex`: two header lines, then the HEX text.
// Kept (2, 6): `to_hex` has another length and inner function, which one of both would be handed; `Printed` promises of a lent array how much is text.
pub fn from_hex(input: &[u8], out: &mut [u8; 65560]) -> usize
    ensures { Printed (from_hex input.now) out.new result × (result ≤ 65560) }
{
    match image_of(input, out) {
        Ok(len) => len,
        Err(fault) => refused(out, fault),
    }
}
