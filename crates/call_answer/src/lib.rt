// What a call that makes steps answers at its end: DONE with the steps made and a handle, or STOPPED.
#![tactic(auto)]

ghost use Rattle.std.specs.Prelude.{◌≡◌};
ghost use Rattle.call_answer.specs.Ends.{AllowanceWithin, answer_of};

use rules::{Answer, Given, Handle, NotDone, Run};

// The answer of a job that has come to its end, or was cut, under an allowance.
#[tactic(auto, unfolding(crate::specs::Ends::answer_of))]
pub fn answer_of(was: Run, allowance: u32, at: Handle) -> Answer
    requires { AllowanceWithin allowance was }
    ensures { result ≡ answer_of at allowance was }
{
    let left = was.ok_or(NotDone::Stopped(allowance))?;
    Ok(Given {
        steps: allowance - left,
        at,
        ..Given::NOTHING
    })
}
