// The three texts of pass lists: a list and a register read, a pass and a register written.
#![tactic(auto)]

ghost use Rattle.std.specs.Prelude.{◌≡◌, false, ◌≤◌, ◌<◌, ◌^◌};
ghost use Rattle.pass_rules.specs.Texts.{line_in, pass_text, people_in, register_in, register_text, staff_in};
ghost use Rattle.pass_text.specs.Shapes.{Tells, count_of, found_in, staff_of};

use text::Text;

// Kept (1): two answers of the same rank, one for each person; any of the four pairs comes, so it has no shape of an Option.
// Whether two people are on a list.
#[derive(Clone, Copy)]
pub struct BothOn {
    pub first: bool,
    pub second: bool,
}

// What a list says, with how many people it has, and whether two people are on it.
#[derive(Clone, Copy)]
pub struct Roster {
    pub night: usize,
    pub zone: usize,
    pub people: usize,
    pub on: BothOn,
}

// A line `key=` with a number up to a bound, 0 among them.
fn value(input: &mut &[u8], key: &[u8], bound: usize) -> Option<usize>
    requires { bound ≤ 65536 }
    ensures { Tells (line_in key.now bound input.old.now) result input.new.now }
{
    if !text::skip(input, key) {
        return None;
    }
    if text::skip(input, b"0\n") {
        return Some(0);
    }
    let value = text::number(input)?;
    (value <= bound).then_some(value)
}

// Kept (2): shares only the name with people of c_passes, which decides whether a pass is given; this one reads the lines of a list.
// So many `person=` lines, and no byte behind them.
fn people(lines: &[u8], count: usize, first: usize, second: usize) -> Option<BothOn>
    ensures { result ≡ found_in first second false false (people_in count 0 lines.now) }
{
    let mut on = BothOn {
        first: false,
        second: false,
    };
    let mut before = 0;
    let mut rest = lines;
    for _ in 0..count {
        let person = value(&mut rest, b"person=", 65535)?;
        if person <= before {
            return None;
        }
        on.first |= person == first;
        on.second |= person == second;
        before = person;
    }
    rest.is_empty().then_some(on)
}

// The list that a content is the text of, and whether two people are on it.
pub fn staff(content: &[u8], first: usize, second: usize) -> Option<Roster>
    ensures { result ≡ staff_of first second (staff_in content.now) }
{
    let mut rest = content;
    let night = value(&mut rest, b"night=", 999)?;
    let zone = value(&mut rest, b"zone=", 999)?;
    let count = value(&mut rest, b"people=", 16)?;
    let on = people(rest, count, first, second)?;
    Some(Roster {
        night,
        zone,
        people: count,
        on,
    })
}

// The count that a content is the text of.
pub fn register(content: &[u8]) -> Option<usize>
    ensures { result ≡ count_of (register_in content.now) }
{
    let mut rest = content;
    let count = value(&mut rest, b"count=", 126)?;
    rest.is_empty().then_some(count)
}

// The text of a pass.
#[tactic(auto, using(crate::specs::Puts::decimal_ten, std::proofs::lemmas::Grind::common_steps))]
pub fn pass_of(n: usize, first: usize, second: usize) -> Text<64>
    requires { (n < 10 ^ 10) × (first < 10 ^ 10) × (second < 10 ^ 10) }
    ensures { result ≡ pass_text n first second }
{
    let mut text = Text::new();
    text.put_keyed(b"pass=", n);
    text.put_keyed(b"first=", first);
    text.put_keyed(b"second=", second);
    text
}

// The text of a register.
#[tactic(auto, using(crate::specs::Puts::decimal_ten, std::proofs::lemmas::Grind::common_steps))]
pub fn register_of(n: usize) -> Text<64>
    requires { n < 10 ^ 10 }
    ensures { result ≡ register_text n }
{
    let mut text = Text::new();
    text.put_keyed(b"count=", n);
    text
}
