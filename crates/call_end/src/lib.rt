// The calls that make a store, end a transaction, and mend an image: format, commit, abort, mount.
// Kept (2, 5) in this file: document 01's calls by their names, on an image, a geometry and an allowance; the others of these names are their steps.
#![tactic(auto)]

ghost use Rattle.std.specs.Prelude.{◌≡◌};
ghost use Rattle.rules.specs.Answers;
ghost use Rattle.rules.specs.Calls;
ghost use Rattle.rules.specs.Calls.{outcome};
ghost use Rattle.call_look.specs.Known.{Known};
ghost use Rattle.call_end.specs.Ends.{end_call};

use index::Index;
use rules::{Answer, Geometry, Handle, NotDone, Standing};

// What the open transaction comes to.
#[derive(Clone, Copy)]
enum Ending {
    Committed,
    Aborted,
}

// The image becomes an empty store.
pub fn format(image: &mut [u8], g: Geometry, allowance: u32) -> Answer
    ensures { (result ≡ (outcome g (Calls.format allowance) image.old).answer) × (image.new ≡ (outcome g (Calls.format allowance) image.old).image) }
{
    if !g.check(image.len()) {
        return Err(NotDone::BadGeometry);
    }
    let r = step_new::format(image, g, Some(allowance));
    call_answer::answer_of(r, allowance, Handle::ORIGIN)
}

// Kept (5): call_look::settled tells Known of the homes: a type would be made in commit and in abort and taken apart here.
// The open transaction of a settled image is committed or aborted; 7 NO TRANSACTION where there is none.
fn end_settled(
    image: &mut [u8],
    g: Geometry,
    home: [u8; 64],
    ending: Ending,
    allowance: u32,
) -> Answer
    requires { Known g image.old home }
    ensures { (result ≡ (outcome g (end_call ending allowance) image.old).answer) × (image.new ≡ (outcome g (end_call ending allowance) image.old).image) }
{
    let mut index = Index::new();
    index.note_all(image, g, home);
    let opened = usize::from(index.opened);
    if opened == unit::NOWHERE {
        return Err(NotDone::NoTransaction);
    }
    let pending = index.pending.as_slice();
    match ending {
        Ending::Committed => {
            let r = step_end::commit(image, &index.current, pending, opened, Some(allowance));
            call_answer::answer_of(r, allowance, Handle::ORIGIN)
        }
        Ending::Aborted => {
            let r = step_end::abort(image, pending, opened, Some(allowance));
            call_answer::answer_of(r, allowance, Handle::ORIGIN)
        }
    }
}

// The open transaction's files become what the committed view shows.
pub fn commit(image: &mut [u8], g: Geometry, allowance: u32) -> Answer
    ensures { (result ≡ (outcome g (Calls.commit allowance) image.old).answer) × (image.new ≡ (outcome g (Calls.commit allowance) image.old).image) }
{
    let look = call_look::settled(image, g)?;
    end_settled(image, g, look.homes, Ending::Committed, allowance)
}

// The open transaction and all that is pending becomes old.
pub fn abort(image: &mut [u8], g: Geometry, allowance: u32) -> Answer
    ensures { (result ≡ (outcome g (Calls.abort allowance) image.old).answer) × (image.new ≡ (outcome g (Calls.abort allowance) image.old).image) }
{
    let look = call_look::settled(image, g)?;
    end_settled(image, g, look.homes, Ending::Aborted, allowance)
}

// A moving unit, what is torn or allocated, and the transaction are brought to their end.
pub fn mount(image: &mut [u8], g: Geometry, allowance: u32) -> Answer
    ensures { (result ≡ (outcome g (Calls.mount allowance) image.old).answer) × (image.new ≡ (outcome g (Calls.mount allowance) image.old).image) }
{
    let Some(look) = judge::judge(image, g) else {
        return Err(NotDone::BadGeometry);
    };
    if let Standing::Neither = look.standing {
        return Err(NotDone::BadImage);
    }
    let r = step_mount::mend_all(image, g, &look, allowance);
    call_answer::answer_of(r, allowance, Handle::ORIGIN)
}
