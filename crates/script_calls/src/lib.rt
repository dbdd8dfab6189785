// A script's call, made on an image.
#![tactic(auto)]

ghost use Rattle.script_calls.specs.Called.{call_of, CallAnswers};

use rules::{Answer, Geometry, Handle};
use script::CallLine;

// What a call on the image answers, unless its content is none.
#[tactic(auto, using(call_read::specs::Parts::read_image, laws::specs::Calls::reads, laws::specs::Calls::reads_open, laws::specs::Calls::reads_at), unfolding(crate::specs::Called::call_of, crate::specs::Called::CallAnswers))]
pub fn call(image: &mut [u8], g: Geometry, line: CallLine<'_>) -> Option<Answer>
    ensures { CallAnswers g image.old (call_of line.entry) result image.new }
{
    let answer = match line {
        CallLine::Format(k) => call_end::format(image, g, k),
        CallLine::Mount(k) => call_end::mount(image, g, k),
        CallLine::Begin { rule, allowance } => call_write::begin(image, g, rule, allowance),
        CallLine::Commit(k) => call_end::commit(image, g, k),
        CallLine::Abort(k) => call_end::abort(image, g, k),
        CallLine::Write {
            rule,
            file,
            content,
            allowance,
        } => {
            let mut buffer = [0; 1024];
            let content = content.content(&mut buffer)?;
            call_write::write(image, g, rule, file as usize, content, allowance)
        }
        CallLine::Delete {
            rule,
            file,
            allowance,
        } => call_write::delete(image, g, rule, file as usize, allowance),
        CallLine::Read(file) => call_read::read(image, g, file as usize),
        CallLine::ReadOpen(file) => call_read::read_open(image, g, file as usize),
        CallLine::ReadAt { unit, position } => {
            let at = Handle {
                unit: unit as usize,
                position: position as usize,
            };
            call_read::read_at(image, g, at)
        }
    };
    Some(answer)
}
