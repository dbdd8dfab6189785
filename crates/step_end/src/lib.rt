// The ends of a transaction: commit, abort, and what mount does of either, by the places of its descriptors.
// Kept (5) in this file: the facts bound places by the length of the image lent beside them, which is changed: no type of places alone can hold them.
#![tactic(auto)]

ghost use Rattle.std.specs.Prelude.{◌≡◌, ◌++◌, ◌+◌, length};
ghost use Rattle.rules.specs.Flash.{state, run};
ghost use Rattle.rules.specs.Unit.{old};
ghost use Rattle.step_new.specs.Places.{Spot, SpotIf, AllSpots, become_at, one_at};
ghost use Rattle.step_end.specs.Turns.{Currents, new_flags, turn_at, turns_at, clean_up_at, commit_at, abort_at, mend_at, end_at, tidy_at};

use rules::Run;

// What a pending descriptor becomes: data current, a delete mark old.
fn new_flags(tag: u16) -> u16
    ensures { result ≡ new_flags tag }
{
    if tag / 256 == unit::DATA_BYTE {
        unit::CURRENT
    } else {
        unit::OLD
    }
}

// The descriptor at one place becomes old, then the one at another gets its flags; either may be no place.
fn replace(image: &mut [u8], earlier: usize, place: usize, flags: u16, was: Run) -> Run
    requires { SpotIf (length image.old) earlier × SpotIf (length image.old) place }
    ensures { state image.new result ≡ run (become_at old (one_at earlier) ++ become_at flags (one_at place)) (state image.old was) }
{
    let r = step_new::become_if(image, earlier, unit::OLD, was);
    step_new::become_if(image, place, flags, r)
}

// The file's current descriptor becomes old, then the pending one at place current or, a delete mark, old.
fn turn(image: &mut [u8], current: &[u16; 256], place: usize, was: Run) -> Run
    requires { Spot (length image.old) place × Currents (length image.old) current.now }
    ensures { state image.new result ≡ run (turn_at image.old current.now place) (state image.old was) }
{
    let tag = flash::word(image, place + unit::TAG_AT);
    let file = usize::from(tag % 256);
    let earlier = usize::from(current[file]);
    replace(image, earlier, place, new_flags(tag), was)
}

// So with the pending ones at some places, in order.
fn turns(image: &mut [u8], current: &[u16; 256], pending: &[u16], was: Run) -> Run
    requires { Currents (length image.old) current.now × AllSpots (length image.old) pending.now }
    ensures { state image.new result ≡ run (turns_at image.old current.now pending.now) (state image.old was) }
{
    let mut r = was;
    for place in pending {
        r = turn(image, current, usize::from(*place), r);
    }
    r
}

// What is left once the commit step is made: the pending ones in order, last the transaction, if there is one.
pub fn clean_up(
    image: &mut [u8],
    current: &[u16; 256],
    pending: &[u16],
    transaction: usize,
    was: Run,
) -> Run
    requires { Currents (length image.old) current.now × AllSpots (length image.old) pending.now × SpotIf (length image.old) transaction }
    ensures { state image.new result ≡ run (clean_up_at image.old current.now pending.now transaction) (state image.old was) }
{
    let r = turns(image, current, pending, was);
    step_new::become_if(image, transaction, unit::OLD, r)
}

// Kept (2): the steps of a commit. call_end's is document 01's call, table_renew's is that with a table, and c_passes' ends a giving of passes.
// The transaction becomes committed, which is the commit step; then what is left.
pub fn commit<'a>(
    image: &mut [u8],
    current: &'a [u16; 256],
    pending: &'a [u16],
    transaction: usize,
    was: Run,
) -> Run
    requires { Currents (length image.old) current.now × AllSpots (length image.old) pending.now × SpotIf (length image.old) transaction }
    ensures { state image.new result ≡ run (commit_at image.old current.now pending.now transaction) (state image.old was) }
{
    let r = step_new::become_if(image, transaction, unit::CURRENT, was);
    clean_up(image, current, pending, transaction, r)
}

// Kept (2): the steps of an abort. call_end's, of the same name, is document 01's call, which asks the judge first and answers.
// The transaction becomes old, then each pending one, in order.
pub fn abort(image: &mut [u8], pending: &[u16], transaction: usize, was: Run) -> Run
    requires { AllSpots (length image.old) pending.now × SpotIf (length image.old) transaction }
    ensures { state image.new result ≡ run (abort_at pending.now transaction) (state image.old was) }
{
    let r = step_new::become_if(image, transaction, unit::OLD, was);
    step_new::become_all(image, pending, unit::OLD, r)
}

// A torn descriptor becomes void, an allocated one old.
pub fn mend(image: &mut [u8], torn: usize, allocated: usize, was: Run) -> Run
    requires { SpotIf (length image.old) torn × SpotIf (length image.old) allocated }
    ensures { state image.new result ≡ run (mend_at torn allocated) (state image.old was) }
{
    let r = step_new::become_if(image, torn, unit::VOID, was);
    step_new::become_if(image, allocated, unit::OLD, r)
}

// A committed transaction is finished, or else the open one aborted with all that is pending.
pub fn end(
    image: &mut [u8],
    current: &[u16; 256],
    pending: &[u16],
    opened: usize,
    committed: usize,
    was: Run,
) -> Run
    requires { Currents (length image.old) current.now × AllSpots (length image.old) pending.now × SpotIf (length image.old) opened × SpotIf (length image.old) committed }
    ensures { state image.new result ≡ run (end_at image.old current.now pending.now opened committed) (state image.old was) }
{
    if committed == unit::NOWHERE {
        abort(image, pending, opened, was)
    } else {
        clean_up(image, current, pending, committed, was)
    }
}

// The places of what a mount mends and ends, NOWHERE where there is none.
#[derive(Clone, Copy)]
pub struct Unfinished {
    pub torn: usize,
    pub allocated: usize,
    pub opened: usize,
    pub committed: usize,
}

// What mount does once no unit is moving: it mends, then ends the transaction.
pub fn tidy<'a>(
    image: &mut [u8],
    current: &'a [u16; 256],
    pending: &'a [u16],
    at: Unfinished,
    was: Run,
) -> Run
    requires { Currents (length image.old) current.now × AllSpots (length image.old) pending.now × SpotIf (length image.old) at.torn × SpotIf (length image.old) at.allocated × SpotIf (length image.old) at.opened × SpotIf (length image.old) at.committed }
    ensures { state image.new result ≡ run (tidy_at image.old current.now pending.now at.torn at.allocated at.opened at.committed) (state image.old was) }
{
    let r = mend(image, at.torn, at.allocated, was);
    end(image, current, pending, at.opened, at.committed, r)
}
