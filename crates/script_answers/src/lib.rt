// The line that a call is answered by.
#![tactic(auto)]

ghost use Rattle.std.specs.Prelude.{◌≡◌, ◌+◌, ◌*◌, ◌<◌, ◌≤◌, ◌++◌, length};
ghost use Rattle.script_answers.specs.Result.{hash_of, glyph_of, hex_of, content_text, first_text, second_text, third_text, fourth_text, result_line};

use c_report::Report;
use rules::Answer;
use text::Text;

// The hash of an image.
pub fn hash(image: &[u8]) -> u64
    ensures value { result ≡ hash_of image.now }
    ensures below { result < 4294967291 }
{
    let mut h: u64 = 0;
    for b in image {
        h = (h * 257 + u64::from(*b) + 1) % 4294967291;
    }
    h
}

// Kept (2): shares only its name with `digit` of hex_write: this gives `a` to `f`, as a script answers, that gives `A` to `F`, as Intel HEX is written.
// A hex digit, in lower case.
#[tactic(auto, unfolding(crate::specs::Result::glyph_of))]
fn digit(v: u8) -> u8
    requires { v < 16 }
    ensures { result ≡ glyph_of v }
{
    if v < 10 { b'0' + v } else { b'a' - 10 + v }
}

// Two digits for each byte.
fn put_hex<const N: usize>(out: &mut Text<N>, content: &[u8])
    requires { length out.old + 2 * length content.now ≤ N }
    ensures { out.new ≡ out.old ++ hex_of content.now }
{
    for b in content {
        out.push(digit(*b / 16));
        out.push(digit(*b % 16));
    }
}

// A content in lower-case hex, `-` where it is empty.
#[tactic(auto, using(crate::specs::Laws::content_none, crate::specs::Laws::content_some))]
fn put_content<const N: usize>(out: &mut Text<N>, content: &[u8])
    requires { length out.old + 2 * length content.now + 1 ≤ N }
    ensures { out.new ≡ out.old ++ content_text content.now }
{
    if content.is_empty() {
        out.push(b'-');
    } else {
        put_hex(out, content);
    }
}

// The number, the steps and the handle of an answer.
#[tactic(auto, using(crate::specs::Laws::decimal_long, std::proofs::lemmas::Grind::common_steps))]
fn put_first<const N: usize>(out: &mut Text<N>, r: Report)
    requires { length out.old + 100 ≤ N }
    ensures text { out.new ≡ out.old ++ first_text r }
    ensures short { length out.new ≤ length out.old + 100 }
{
    out.put_pair(b"number=", r.number as usize);
    out.put_pair(b" steps=", r.steps as usize);
    out.put_pair(b" at=", r.unit);
    out.put_pair(b":", r.position);
}

// Its file, and where the content stands.
#[tactic(auto, using(crate::specs::Laws::decimal_long, std::proofs::lemmas::Grind::common_steps))]
fn put_second<const N: usize>(out: &mut Text<N>, r: Report)
    requires { length out.old + 100 ≤ N }
    ensures text { out.new ≡ out.old ++ second_text r }
    ensures short { length out.new ≤ length out.old + 100 }
{
    out.put_pair(b" file=", r.file);
    out.put_pair(b" start=", r.start);
    out.put_pair(b" length=", r.len);
}

// The content, and the hash of the image.
fn put_third<const N: usize>(out: &mut Text<N>, a: Answer, image: &[u8])
    requires { length out.old + 2 * length image.now + 60 ≤ N }
    ensures text { out.new ≡ out.old ++ third_text a image.now }
    ensures short { length out.new ≤ length out.old + 2 * length image.now + 60 }
{
    out.put(b" content=");
    put_content(out, call_read::content(image, a));
    out.put_pair(b" image=", hash(image) as usize);
}

// Where it came from, and the line's end.
#[tactic(auto, using(crate::specs::Laws::decimal_long, std::proofs::lemmas::Grind::common_steps))]
fn put_fourth<const N: usize>(out: &mut Text<N>, r: Report)
    requires { length out.old + 40 ≤ N }
    ensures text { out.new ≡ out.old ++ fourth_text r }
    ensures short { length out.new ≤ length out.old + 40 }
{
    out.put_keyed(b" from=", r.from as usize);
}

// The whole line.
pub fn put_result<const N: usize>(out: &mut Text<N>, a: Answer, image: &[u8])
    requires { length out.old + 2 * length image.now + 300 ≤ N }
    ensures text { out.new ≡ out.old ++ result_line a image.now }
    ensures short { length out.new ≤ length out.old + 2 * length image.now + 300 }
{
    let r = c_report::reported(a);
    put_first(out, r);
    put_second(out, r);
    put_third(out, a, image);
    put_fourth(out, r);
}
