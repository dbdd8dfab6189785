// The command that a line is.
ghost use Rattle.std.specs.Prelude.{◌≡◌, [], ◌∷◌, MatchOption};
ghost use Rattle.script.specs.Words.{words};
ghost use Rattle.script.specs.Commands as commands;

use crate::word::{Word, number_of};
use rules::Rule;

// What changes the image or its geometry numbers, and is no call.
#[derive(Clone, Copy)]
pub enum ImageChange {
    New { size: u32, units: u32 },
    Size(u32),
    Put { offset: u32, byte: u32 },
    Keep,
    Back,
}

// A call with its rule, where it places a sector, and its numbers.
#[derive(Clone, Drop)]
pub enum CallLine<'a> {
    Format(u32),
    Mount(u32),
    Begin {
        rule: Rule,
        allowance: u32,
    },
    Commit(u32),
    Abort(u32),
    Write {
        rule: Rule,
        file: u32,
        content: Word<'a>,
        allowance: u32,
    },
    Delete {
        rule: Rule,
        file: u32,
        allowance: u32,
    },
    Read(u32),
    ReadOpen(u32),
    ReadAt {
        unit: u32,
        position: u32,
    },
}

// What is asked of a pass list: a pass for two people with an allowance, a look at the list, a look at the register.
#[derive(Clone, Copy)]
pub enum PassLine {
    Give {
        first: u32,
        second: u32,
        allowance: u32,
    },
    Staff,
    Register,
}

#[derive(Clone, Drop)]
pub enum Command<'a> {
    Change(ImageChange),
    Call(CallLine<'a>),
    Judge,
    List,
    Pass(PassLine),
}

// A word alone.
#[tactic(auto, unfolding(crate::specs::Commands::alone, crate::specs::Commands::named, rules::specs::Text::text))]
fn alone(verb: &[u8]) -> Option<Command<'static>>
    ensures { result ≡ commands.alone verb.now }
{
    let is = |name: &[u8]| verb == name;
    if is(b"keep") {
        Some(Command::Change(ImageChange::Keep))
    } else if is(b"back") {
        Some(Command::Change(ImageChange::Back))
    } else if is(b"judge") {
        Some(Command::Judge)
    } else if is(b"list") {
        Some(Command::List)
    } else if is(b"staff") {
        Some(Command::Pass(PassLine::Staff))
    } else if is(b"register") {
        Some(Command::Pass(PassLine::Register))
    } else {
        None
    }
}

// A word and a number.
#[tactic(auto, unfolding(crate::specs::Commands::with_one, crate::specs::Commands::named, rules::specs::Text::text))]
fn with_one(verb: &[u8], a: u32) -> Option<Command<'static>>
    ensures { result ≡ commands.with_one verb.now a }
{
    let is = |name: &[u8]| verb == name;
    let call = |c| Some(Command::Call(c));
    let begin = |rule| call(CallLine::Begin { rule, allowance: a });
    if is(b"size") {
        Some(Command::Change(ImageChange::Size(a)))
    } else if is(b"format") {
        call(CallLine::Format(a))
    } else if is(b"mount") {
        call(CallLine::Mount(a))
    } else if is(b"begin") {
        begin(Rule::Tightest)
    } else if is(b"commit") {
        call(CallLine::Commit(a))
    } else if is(b"abort") {
        call(CallLine::Abort(a))
    } else if is(b"read") {
        call(CallLine::Read(a))
    } else if is(b"readtx") {
        call(CallLine::ReadOpen(a))
    } else if is(b"begin-lowest") {
        begin(Rule::Lowest)
    } else {
        None
    }
}

// A word and two numbers.
#[tactic(auto, unfolding(crate::specs::Commands::with_two, crate::specs::Commands::named, rules::specs::Text::text))]
fn with_two(verb: &[u8], a: u32, b: u32) -> Option<Command<'static>>
    ensures { result ≡ commands.with_two verb.now a b }
{
    let is = |name: &[u8]| verb == name;
    let delete = |rule| {
        Some(Command::Call(CallLine::Delete {
            rule,
            file: a,
            allowance: b,
        }))
    };
    if is(b"new") {
        Some(Command::Change(ImageChange::New { size: a, units: b }))
    } else if is(b"put") {
        Some(Command::Change(ImageChange::Put { offset: a, byte: b }))
    } else if is(b"delete") {
        delete(Rule::Tightest)
    } else if is(b"readat") {
        Some(Command::Call(CallLine::ReadAt {
            unit: a,
            position: b,
        }))
    } else if is(b"delete-lowest") {
        delete(Rule::Lowest)
    } else {
        None
    }
}

// A word, a number, a word and a number.
#[tactic(auto, unfolding(crate::specs::Commands::with_three, crate::specs::Commands::given, crate::specs::Commands::with_content, crate::specs::Commands::named, rules::specs::Text::text))]
fn with_three<'a>(verb: &[u8], a: u32, word: &'a [u8], b: u32) -> Option<Command<'a>>
    ensures { result ≡ commands.with_three verb.now a word.now b }
{
    let is = |name: &[u8]| verb == name;
    let write = |rule| {
        Some(Command::Call(CallLine::Write {
            rule,
            file: a,
            content: Word { bytes: word },
            allowance: b,
        }))
    };
    if is(b"give") {
        let second = number_of(word)?;
        Some(Command::Pass(PassLine::Give {
            first: a,
            second,
            allowance: b,
        }))
    } else if is(b"write") {
        write(Rule::Tightest)
    } else if is(b"write-lowest") {
        write(Rule::Lowest)
    } else {
        None
    }
}

// The first word of a line and what stands behind its space, or none where the line is one word.
fn split_once(line: &[u8]) -> Option<(&[u8], &[u8])>
    ensures { MatchOption result (words line.now ≡ line.now ∷ []) (λ r. words line.now ≡ r.0.now ∷ words r.1.now) }
{
    let at = line.iter().position(|b| *b == b' ')?;
    Some((&line[..at], &line[at + 1..]))
}

// The command that a line is, without its line feed.
#[tactic(auto, using(crate::specs::CommandLaws::words_of), unfolding(crate::specs::Commands::command, crate::specs::Commands::command_of))]
pub fn parse(line: &[u8]) -> Option<Command<'_>>
    ensures { result ≡ commands.command line.now }
{
    let Some((verb, rest)) = split_once(line) else {
        return alone(line);
    };
    let Some((first, rest)) = split_once(rest) else {
        return with_one(verb, number_of(rest)?);
    };
    let a = number_of(first)?;
    let Some((second, third)) = split_once(rest) else {
        return with_two(verb, a, number_of(rest)?);
    };
    if split_once(third).is_some() {
        return None;
    }
    with_three(verb, a, second, number_of(third)?)
}
