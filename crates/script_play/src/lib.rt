// One line of a script played: the image after it, and the line that answers it.
#![tactic(auto)]

ghost use Rattle.std.specs.Prelude.{◌≡◌, ◌++◌, ◌+◌, ◌≤◌, length};
ghost use Rattle.script_play.specs.Played.{played_as, played, geometry};

use script::{CallLine, Command, ImageChange, PassLine};
use script_state::Session;
use text::Text;

// A change, and `ok` or `error`.
#[tactic(auto, using(std::proofs::lemmas::Grind::common_steps), unfolding(crate::specs::Played::played_as, crate::specs::Played::played_change, script_looks::specs::Looked::said, rules::specs::Text::text))]
fn play_change<const N: usize>(session: &mut Session, c: ImageChange, out: &mut Text<N>)
    requires { length out.old + 10 ≤ N }
    ensures state { session.new ≡ (played_as session.old (Some (Command.Change c))).state }
    ensures text { out.new ≡ out.old ++ (played_as session.old (Some (Command.Change c))).answer }
    ensures short { length out.new ≤ length out.old + 10 }
{
    match session.change(c) {
        Ok(()) => out.put(b"ok\n"),
        Err(_) => out.put(b"error\n"),
    }
}

// A call, and its result line.
#[tactic(auto, using(std::proofs::lemmas::Grind::common_steps), unfolding(crate::specs::Played::played_as, crate::specs::Played::effect, crate::specs::Played::geometry, script_calls::specs::Called::CallAnswers, script_looks::specs::Looked::said, rules::specs::Text::text))]
fn play_call<const N: usize>(session: &mut Session, c: CallLine<'_>, out: &mut Text<N>)
    requires { length out.old + 131500 ≤ N }
    ensures state { session.new ≡ (played_as session.old (Some (Command.Call c.entry))).state }
    ensures text { out.new ≡ out.old ++ (played_as session.old (Some (Command.Call c.entry))).answer }
    ensures short { length out.new ≤ length out.old + 131500 }
{
    let g = session.now.geometry();
    let now = &mut session.now;
    let n = now.bytes;
    match script_calls::call(&mut now.buffer[..n], g, c) {
        None => out.put(b"error\n"),
        Some(a) => script_answers::put_result(out, a, &now.buffer[..n]),
    }
}

// Kept (2, 5): lends parts of the session to `play_pass` of script_passes; the room for one line is a number, which a type would only wrap for this call.
// A line about a pass list, and its answer.
#[tactic(auto, unfolding(crate::specs::Played::played_as, crate::specs::Played::geometry))]
fn play_pass<const N: usize>(session: &mut Session, c: PassLine, out: &mut Text<N>)
    requires { length out.old + 120 ≤ N }
    ensures state { session.new ≡ (played_as session.old (Some (Command.Pass c))).state }
    ensures text { out.new ≡ out.old ++ (played_as session.old (Some (Command.Pass c))).answer }
    ensures short { length out.new ≤ length out.old + 120 }
{
    let now = &mut session.now;
    let (size, units, n) = (now.size, now.units, now.bytes);
    script_passes::play_pass(&mut now.buffer[..n], size, units, out, c)
}

// A line without its line feed.
#[tactic(auto, using(std::proofs::lemmas::Grind::common_steps), unfolding(crate::specs::Played::played, crate::specs::Played::played_as, crate::specs::Played::geometry, script_looks::specs::Looked::said, rules::specs::Text::text))]
pub fn play<const N: usize>(session: &mut Session, line: &[u8], out: &mut Text<N>)
    requires { length out.old + 131500 ≤ N }
    ensures state { session.new ≡ (played session.old line.now).state }
    ensures text { out.new ≡ out.old ++ (played session.old line.now).answer }
    ensures short { length out.new ≤ length out.old + 131500 }
{
    let Some(command) = script::parse(line) else {
        return out.put(b"error\n");
    };
    let g = session.now.geometry();
    match command {
        Command::Change(c) => play_change(session, c, out),
        Command::Call(c) => play_call(session, c, out),
        Command::Judge => script_looks::play_judge(session.now.image(), g, out),
        Command::List => script_looks::play_list(session.now.image(), g, out),
        Command::Pass(c) => play_pass(session, c, out),
    }
}
