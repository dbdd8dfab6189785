// A mark, or none, for each of a number of places, in a bit each.
#![tactic(auto)]

ghost use Rattle.std.specs.Prelude.{◌≡◌, not, ◌*◌, ◌<◌, eqb, get_or, set, replicate};

use std::marker::Model;

// Marks for 8 * N places.
#[derive(Drop)]
pub struct Marks<const N: usize> {
    bytes: [u8; N],
}

// Clauses see a number for each place: 1 where it is marked, else 0.
impl<const N: usize> Model for Marks<N> {
    ghost use Rattle.std.specs.Prelude.{List, ℕ};
    ghost use Rattle.marks.specs.Bits.{bits_of};

    ghost Value = { List ℕ };

    ghost view = { λ m. bits_of m.bytes };
}

impl<const N: usize> Marks<N> {
    // No place is marked.
    pub fn none() -> Self
        ensures { result ≡ replicate (8 * N) 0 }
    {
        Marks { bytes: [0; N] }
    }

    // Marks a place, and says whether it was marked.
    pub fn mark(&mut self, place: usize) -> bool
        requires { place < 8 * N }
        ensures was { result ≡ not (eqb (get_or self.old place 0) 0) }
        ensures after { self.new ≡ set self.old place 1 }
    {
        let byte = &mut self.bytes[place / 8];
        let bit = 1u8 << (place % 8);
        let was = *byte & bit != 0;
        *byte |= bit;
        was
    }
}
