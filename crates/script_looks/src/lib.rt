// The lines of a script that only look at the image: what it is, and its listing.
#![tactic(auto)]

ghost use Rattle.std.specs.Prelude.{◌≡◌, ◌++◌, ◌+◌, ◌*◌, ◌≤◌, length};
ghost use Rattle.rules.specs.Listing.{listed};
ghost use Rattle.script_looks.specs.Looked.{verdict, joined};
ghost use Rattle.script_looks.specs.Laws.{between};

use listing_text::Listing;
use rules::{Geometry, Standing};
use text::Text;

// What the image is.
#[tactic(auto, using(std::proofs::lemmas::Grind::common_steps))]
pub fn play_judge<const N: usize>(image: &[u8], g: Geometry, out: &mut Text<N>)
    requires { length out.old + 20 ≤ N }
    ensures text { out.new ≡ out.old ++ verdict g image.now }
    ensures short { length out.new ≤ length out.old + 20 }
{
    let Some(look) = judge::judge(image, g) else {
        return out.put(b"bad-geometry\n");
    };
    match look.standing {
        Standing::Neither => out.put(b"bad-image\n"),
        Standing::Sound => out.put(b"unsettled\n"),
        Standing::Settled => out.put(b"settled\n"),
    }
}

// A byte behind which others follow: a line feed joins two lines.
#[tactic(auto, unfolding(crate::specs::Laws::between, rules::specs::Text::text))]
fn put_between<const N: usize>(out: &mut Text<N>, b: u8)
    requires { length out.old + 3 ≤ N }
    ensures { out.new ≡ out.old ++ between b }
{
    if b == b'\n' {
        out.put(b" | ");
    } else {
        out.push(b);
    }
}

// Lines joined by ` | `, with the last one's line feed.
#[tactic(auto, using(std::proofs::lemmas::Grind::common_steps))]
fn put_joined<const N: usize>(out: &mut Text<N>, lines: &[u8])
    requires { length out.old + 3 * length lines.now ≤ N }
    ensures text { out.new ≡ out.old ++ joined lines.now }
    ensures short { length out.new ≤ length out.old + 3 * length lines.now }
{
    let Some((last, front)) = lines.split_last() else {
        return;
    };
    for b in front {
        put_between(out, *b);
    }
    out.push(*last);
}

// The listing program's lines.
pub fn play_list<const N: usize>(image: &[u8], g: Geometry, out: &mut Text<N>)
    requires { length out.old + 30720 ≤ N }
    ensures text { out.new ≡ out.old ++ joined (listed g image.now) }
    ensures short { length out.new ≤ length out.old + 30720 }
{
    let mut listing = Listing::new();
    listing_text::list(image, g, &mut listing);
    put_joined(out, listing.as_slice());
}
