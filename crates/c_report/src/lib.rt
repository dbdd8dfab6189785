// An answer for C: a struct of numbers.
#![tactic(auto)]

ghost use Rattle.std.specs.Prelude.{◌≡◌};
ghost use Rattle.rules.specs.Answers.{number, given};
ghost use Rattle.c_report.specs.Exported.{exported};

use rules::{Answer, Given, NotDone};

// Kept (1): C reads this struct, and document 01 numbers the answers.
// Document 01's number, the steps made, a handle, a file, where in the image the content stands, and where it came from.
#[repr(C)]
#[derive(Clone, Copy)]
pub struct Report {
    pub number: u32,
    pub steps: u32,
    pub unit: usize,
    pub position: usize,
    pub file: usize,
    pub start: usize,
    pub len: usize,
    pub from: u32,
}

// Kept (2): it shares only the name: here document 01's number, in c_passes that of other refusals, in text one that is read.
// Document 01's number of an answer.
#[tactic(auto, unfolding(rules::specs::Answers::number))]
fn number(answer: Answer) -> u32
    ensures { result ≡ number answer }
{
    match answer {
        Ok(_) => 0,
        Err(NotDone::Stopped(_)) => 1,
        Err(NotDone::BadGeometry) => 2,
        Err(NotDone::BadImage) => 3,
        Err(NotDone::Unsettled) => 4,
        Err(NotDone::BadFile) => 5,
        Err(NotDone::TooLong) => 6,
        Err(NotDone::NoTransaction) => 7,
        Err(NotDone::Open) => 8,
        Err(NotDone::Absent(_)) => 9,
        Err(NotDone::NoRoom) => 10,
        Err(NotDone::BadHandle) => 11,
        Err(NotDone::StaleTable) => 12,
    }
}

// What an answer gives: a stop its steps, ABSENT where it came from, any other refusal nothing.
#[tactic(auto, unfolding(rules::specs::Answers::given, rules::specs::Answers::nothing, rules::specs::Answers::origin))]
fn given(answer: Answer) -> Given
    ensures { result ≡ given answer }
{
    match answer {
        Ok(given) => given,
        Err(NotDone::Stopped(steps)) => Given {
            steps,
            ..Given::NOTHING
        },
        Err(NotDone::Absent(from)) => Given {
            from,
            ..Given::NOTHING
        },
        Err(_) => Given::NOTHING,
    }
}

// What an answer gives, as document 01 has it.
#[tactic(auto, unfolding(crate::specs::Exported::exported, rules::specs::Answers::from_number))]
pub fn reported(answer: Answer) -> Report
    ensures { result ≡ exported answer }
{
    let given = given(answer);
    Report {
        number: number(answer),
        steps: given.steps,
        unit: given.at.unit,
        position: given.at.position,
        file: given.file,
        start: given.start,
        len: given.len,
        from: given.from as u32,
    }
}
