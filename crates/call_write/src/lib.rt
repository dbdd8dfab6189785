// Begin, write and delete: each is a store.
// Kept (5) in this file: document 01: a call that changes takes an allowance, beside the image and the geometry that every call takes.
#![tactic(auto)]

ghost use Rattle.std.specs.Prelude.{◌≡◌, ◌+◌, ◌≤◌, ◌<◌};
ghost use Rattle.rules.specs.Calls;
ghost use Rattle.call_store.specs.Stores.{MeetsCall};

use call_store::{Order, store};
use rules::{Answer, Geometry, NotDone, Rule};
use unit::LAST_FILE;

// A content has at most 256 bytes.
const LONGEST_CONTENT: usize = 256;

// The tag of a file's descriptor of a kind.
fn tag_of(kind: u16, file: usize) -> u16
    requires { (kind ≤ 0x2000) × (file ≤ 255) }
    ensures { result ≡ kind + file }
{
    kind + file as u16
}

// Opens a transaction, placed by the rule. Each call is one function, within the one for C: its answer is copied once, which spares stack.
#[inline(always)]
pub fn begin(image: &mut [u8], g: Geometry, rule: Rule, allowance: u32) -> Answer
    ensures { MeetsCall g (Calls.begin rule allowance) image.old result image.new }
{
    let look = call_look::settled(image, g)?;
    if call_look::is_open(&look) {
        return Err(NotDone::Open);
    }
    let order = Order {
        earlier: unit::NOWHERE,
        allowance,
        tag: unit::TRANSACTION,
        rule,
    };
    store(image, g, &look.homes, look.remaining, order, &[])
}

// Kept (2): document 01's write. c_passes' writes one content of a giving by this call, hex_write's writes a text.
// Puts a content for a file into the open transaction, placed by the rule.
#[inline(always)]
pub fn write(
    image: &mut [u8],
    g: Geometry,
    rule: Rule,
    file: usize,
    content: &[u8],
    allowance: u32,
) -> Answer
    ensures { MeetsCall g (Calls.write rule file content.now allowance) image.old result image.new }
{
    let look = call_look::settled(image, g)?;
    if LAST_FILE < file {
        return Err(NotDone::BadFile);
    }
    if LONGEST_CONTENT < content.len() {
        return Err(NotDone::TooLong);
    }
    if !call_look::is_open(&look) {
        return Err(NotDone::NoTransaction);
    }
    let found = index_seek::seek(image, g, look.homes, file);
    let order = Order {
        earlier: usize::from(found.pending),
        allowance,
        tag: tag_of(unit::DATA, file),
        rule,
    };
    store(image, g, &look.homes, look.remaining, order, content)
}

// Puts a deletion of a file into the open transaction, placed by the rule.
#[inline(always)]
pub fn delete(image: &mut [u8], g: Geometry, rule: Rule, file: usize, allowance: u32) -> Answer
    ensures { MeetsCall g (Calls.delete rule file allowance) image.old result image.new }
{
    let look = call_look::settled(image, g)?;
    if LAST_FILE < file {
        return Err(NotDone::BadFile);
    }
    if !call_look::is_open(&look) {
        return Err(NotDone::NoTransaction);
    }
    let found = index_seek::seek(image, g, look.homes, file);
    if found.shown == unit::NO_PLACE {
        return Err(NotDone::Absent(call_read::origin_of(found.pending)));
    }
    let order = Order {
        earlier: usize::from(found.pending),
        allowance,
        tag: tag_of(unit::MARK, file),
        rule,
    };
    store(image, g, &look.homes, look.remaining, order, &[])
}
