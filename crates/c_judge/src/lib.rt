// The judge for C: what every call answers first. And a plain loop over the bytes, to measure the judge by.
#![tactic(auto)]

ghost use Rattle.std.specs.Prelude.{◌≡◌};
ghost use Rattle.c_judge.specs.First.{number_for, first, sum};

use rules::{Geometry, Standing};

// What a standing is for C.
// Kept (4): C reads a number; a conversion of Standing's own would stand in rules, where only an answer has numbers.
#[tactic(auto, unfolding(rules::specs::Answers::number))]
fn number_for(s: Standing) -> u32
    ensures { result ≡ number_for s }
{
    match s {
        Standing::Settled => 0,
        Standing::Sound => 4,
        Standing::Neither => 3,
    }
}

// 2 BAD GEOMETRY, 3 BAD IMAGE, 4 UNSETTLED, or 0 where the image is settled.
// Kept (5): C calls it with these parameters.
#[tactic(auto, unfolding(rules::specs::Answers::number))]
#[unsafe(no_mangle)]
pub extern "C" fn us_first(image: &[u8], size: u32, units: u32) -> u32
    ensures { result ≡ first (record { size = size; units = units }) image.now }
{
    let g = Geometry {
        size: size as usize,
        units: units as usize,
    };
    match judge::judge(image, g) {
        None => 2,
        Some(look) => number_for(look.standing),
    }
}

// The sum of the bytes, modulo 2 to the 32nd.
#[unsafe(no_mangle)]
pub extern "C" fn us_sum(image: &[u8]) -> u32
    ensures { result ≡ sum 0 image.now }
{
    let mut total: u32 = 0;
    for byte in image {
        total = total.wrapping_add(u32::from(*byte));
    }
    total
}
