// The calls that read: a file in the committed view, a file in the transaction view, a descriptor by its handle.
#![tactic(auto)]

ghost use Rattle.std.specs.Prelude.{◌≡◌, ◌+◌, ◌≤◌, length};
ghost use Rattle.rules.specs.Answers.{given, origin};
ghost use Rattle.rules.specs.Calls;
ghost use Rattle.rules.specs.Calls.{outcome};
ghost use Rattle.rules.specs.declared.Origin.TheVariants.{NotSaid};
ghost use Rattle.call_read.specs.Shapes.{CanStand, given_at, origin_at, by_file, by_handle, part_of, start_of};

use rules::{Answer, Geometry, Given, Handle, NotDone, Origin};
use unit::{LAST_FILE, NO_PLACE};

// Kept (5): an image, its geometry and a place, as index takes them: a struct of the three would be made in by_file and in by_handle for this call.
// Where the content of the descriptor at a place stands; the start of an empty content is 0.
#[tactic(auto, unfolding(crate::specs::Shapes::given_at, rules::specs::Answers::origin))]
fn given_at(image: &[u8], g: Geometry, place: u16) -> Given
    requires { (1 ≤ g.size) × (place + 8 ≤ length image.now) }
    ensures { result ≡ given_at g image.now origin 0 place NotSaid }
{
    let len = index::len_at(image, place);
    let start = if len == 0 {
        0
    } else {
        index::start_at(image, g, place)
    };
    Given {
        start,
        len,
        ..Given::NOTHING
    }
}

// Where an answer in the transaction view came from, by the place of what is pending of the file.
#[tactic(auto, unfolding(crate::specs::Shapes::origin_at))]
pub fn origin_of(pending: u16) -> Origin
    ensures { result ≡ origin_at pending }
{
    if pending == NO_PLACE {
        Origin::Before
    } else {
        Origin::Opened
    }
}

// Kept (5): an image, its geometry and a place, as index takes them: a struct of the three would be made in read and read_open for this call.
// A read by file gives the handle of the descriptor at the place; 9 ABSENT where there is none.
#[tactic(auto, unfolding(crate::specs::Shapes::by_file, crate::specs::Shapes::given_at))]
fn by_file(image: &[u8], g: Geometry, place: u16, from: Origin) -> Answer
    requires { CanStand g image.now place }
    ensures { result ≡ by_file g image.now place from }
{
    if place == NO_PLACE {
        return Err(NotDone::Absent(from));
    }
    Ok(Given {
        at: index::handle_at(image, g, place),
        from,
        ..given_at(image, g, place)
    })
}

// Kept (5): an image, its geometry and a place, as index takes them: a struct of the three would be made in read_at for this one call.
// A handle read gives the file of the descriptor at the place; 11 BAD HANDLE where there is none.
#[tactic(auto, unfolding(crate::specs::Shapes::by_handle, crate::specs::Shapes::given_at))]
fn by_handle(image: &[u8], g: Geometry, place: u16) -> Answer
    requires { CanStand g image.now place }
    ensures { result ≡ by_handle g image.now place }
{
    if place == NO_PLACE {
        return Err(NotDone::BadHandle);
    }
    Ok(Given {
        file: index::file_at(image, place),
        ..given_at(image, g, place)
    })
}

// Kept (2, 5): document 01's read of a file, on an image and a geometry. Others of this name read a table, a text, an input, and a pass list's file.
// The committed view of a file.
pub fn read(image: &[u8], g: Geometry, file: usize) -> Answer
    ensures { result ≡ (outcome g (Calls.read file) image.now).answer }
{
    let look = call_look::settled(image, g)?;
    if LAST_FILE < file {
        return Err(NotDone::BadFile);
    }
    let found = index_seek::seek(image, g, look.homes, file);
    by_file(image, g, found.current, Origin::NotSaid)
}

// Kept (5): document 01's read of a file in the transaction view, on an image and a geometry, which C names by two numbers.
// The transaction view of a file.
pub fn read_open(image: &[u8], g: Geometry, file: usize) -> Answer
    ensures { result ≡ (outcome g (Calls.read_open file) image.now).answer }
{
    let look = call_look::settled(image, g)?;
    if LAST_FILE < file {
        return Err(NotDone::BadFile);
    }
    let found = index_seek::seek(image, g, look.homes, file);
    if found.opened == NO_PLACE {
        return Err(NotDone::NoTransaction);
    }
    by_file(image, g, found.shown, origin_of(found.pending))
}

// What is current at a handle.
pub fn read_at(image: &[u8], g: Geometry, at: Handle) -> Answer
    ensures { result ≡ (outcome g (Calls.read_at at.unit at.position) image.now).answer }
{
    let look = call_look::settled(image, g)?;
    by_handle(image, g, index::place_at(image, g, look.homes, at))
}

// The bytes of an image from start on, or none where they do not lie in it. (`get` does not say where its bytes stand.)
#[tactic(auto, unfolding(crate::specs::Shapes::part_of, crate::specs::Shapes::start_of))]
fn part(image: &[u8], start: usize, len: usize) -> &[u8]
    ensures { (result.now ≡ part_of image.now start len) × (result.ref_ptr.0 ≡ image.entry.ref_ptr.0) × (result.ref_ptr.1 ≡ image.entry.ref_ptr.1 + start_of image.now start len) }
{
    if start <= image.len() && len <= image.len() - start {
        &image[start..][..len]
    } else {
        &image[..0]
    }
}

// Kept (2): it shares only the name: here part of an image, in script the bytes whose digits a word holds.
// The content that an answer gives, as that part of the image where the sector's bytes stand.
pub fn content(image: &[u8], answer: Answer) -> &[u8]
    ensures { (result.now ≡ part_of image.now (given answer).start (given answer).len) × (result.ref_ptr.0 ≡ image.entry.ref_ptr.0) × (result.ref_ptr.1 ≡ image.entry.ref_ptr.1 + start_of image.now (given answer).start (given answer).len) }
{
    match answer {
        Ok(given) => part(image, given.start, given.len),
        Err(_) => &image[..0],
    }
}
