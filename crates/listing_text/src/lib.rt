// The text of the listing program, for which there is always room: `list` writes the listing of any image of any geometry,
// `text` that of a whole standard input, in place of what the lent text held.
#![tactic(auto)]

ghost use Rattle.std.specs.Prelude.{◌≡◌, ◌+◌, ◌≤◌, ◌<◌, [], ◌++◌, length, count_by};
ghost use Rattle.rules.specs.Settled.{survey};
ghost use Rattle.rules.specs.Listing.{refused_line, file_lines, settled_lines, listed, listing};
ghost use Rattle.call_look.specs.Known.{Known};
ghost use Rattle.listing_text.specs.Files.{is_place};
ghost use Rattle.listing_text.specs.Lines.{Near, Lined, line_of, line_at, head};
ghost use Rattle.listing_text.specs.Known.{Listable};

use index::Index;
use rules::{Geometry, Handle, NotDone};
use text::Text;

// A listing: 256 lines of at most 39 bytes, with 46 bytes before them, fit.
pub type Listing = Text<10240>;

// How many files have a current descriptor.
pub fn files(index: &Index) -> usize
    ensures count { result ≡ count_by is_place index.now.current }
    ensures all { length index.now.current ≡ 256 }
{
    index
        .current
        .iter()
        .filter(|place| **place != unit::NO_PLACE)
        .count()
}

// A file's number, length and handle.
#[tactic(auto, using(text::specs::Put::decimal_short, std::proofs::lemmas::Grind::common_steps))]
fn put_file(out: &mut Listing, file: usize, len: usize, handle: Handle)
    requires { (length out.old + 39 ≤ 10240) × (file < 256) × (len < 65536) × Near handle }
    ensures { out.new ≡ out.old ++ line_of file len handle }
{
    out.put_pair(b"file=", file);
    out.put_pair(b" length=", len);
    out.put_pair(b" at=", handle.unit);
    out.put_keyed(b":", handle.position);
}

// Kept (5): a struct of image, g and place would be made for each of the 256 files and taken apart at once, for index::len_at and handle_at.
// The line of a file whose current descriptor stands at a place.
fn put_line(image: &[u8], g: Geometry, out: &mut Listing, file: usize, place: u16)
    requires { (length out.old + 39 ≤ 10240) × (file < 256) × Lined g image.now place }
    ensures line { out.new ≡ out.old ++ line_at g image.now file place }
    ensures short { length out.new ≤ length out.old + 39 }
{
    if place != unit::NO_PLACE {
        let len = index::len_at(image, place);
        let handle = index::handle_at(image, g, place);
        put_file(out, file, len, handle);
    }
}

// The lines of all files, ascending.
fn put_files(image: &[u8], g: Geometry, index: &Index, out: &mut Listing)
    requires { (length out.old + 9984 ≤ 10240) × Listable g image.now index.now }
    ensures { out.new ≡ out.old ++ file_lines 256 0 (survey g image.now) }
{
    for (file, place) in index.current.iter().enumerate() {
        put_line(image, g, out, file, *place);
    }
}

// Kept (5): a bound for one field of one geometry; a type for it would be made from `Known` in list_settled, and taken apart here at once.
// The lines before the files.
#[tactic(auto, using(text::specs::Put::decimal_short, std::proofs::lemmas::Grind::common_steps))]
fn put_head(out: &mut Listing, g: Geometry, is_open: bool, files: usize)
    requires { (out.old ≡ []) × (g.size ≤ 4096) × (g.units ≤ 64) × (files ≤ 256) }
    ensures lines { out.new ≡ head g is_open files }
    ensures short { length out.new ≤ 46 }
{
    out.put_keyed(b"unit=", g.size);
    out.put_keyed(b"units=", g.units);
    out.put_keyed(b"open=", usize::from(is_open));
    out.put_keyed(b"files=", files);
}

// Kept (5): one caller, `list`, has `Known` from call_look::settled; a type for image, g and home would be made there and taken apart here at once.
// The lines of a settled image.
fn list_settled(image: &[u8], g: Geometry, home: [u8; 64], out: &mut Listing)
    requires { Known g image.now home }
    ensures { out.new ≡ settled_lines g (survey g image.now) }
{
    let mut index = Index::new();
    index.note_all(image, g, home);
    out.clear();
    put_head(out, g, index.opened != unit::NO_PLACE, files(&index));
    put_files(image, g, &index, out);
}

// Kept (2): hex_input's writes the number of a HexFault into a lent slice; what both share is the one call of put_keyed.
// A refusal's line.
#[tactic(auto, using(crate::specs::Lines::refused_long), unfolding(c_report::specs::Exported::exported, rules::specs::Listing::refused_line, rules::specs::Listing::keyed, rules::specs::Text::text))]
fn refused(out: &mut Listing, reason: NotDone)
    ensures { out.new ≡ refused_line reason }
{
    out.clear();
    let report = c_report::reported(Err(reason));
    out.put_keyed(b"refused=", report.number as usize);
}

// Kept (2): shares only the name with list of c_passes, which reads the list of people from file 0; this one writes the listing.
// The listing of any image of any geometry: its lines, or its refusal.
#[tactic(auto, using(crate::specs::Looks::listed_settled, crate::specs::Looks::listed_refused))]
pub fn list(image: &[u8], g: Geometry, out: &mut Listing)
    ensures { out.new ≡ listed g image.now }
{
    match call_look::settled(image, g) {
        Ok(look) => list_settled(image, g, look.homes, out),
        Err(reason) => refused(out, reason),
    }
}

// The listing of a whole standard input: two header lines, then the image.
pub fn text(input: &[u8], out: &mut Listing)
    ensures { out.new ≡ listing input.now }
{
    let mut rest = input;
    match text::header(&mut rest) {
        Some(geometry) => list(rest, geometry, out),
        None => refused(out, NotDone::BadGeometry),
    }
}
