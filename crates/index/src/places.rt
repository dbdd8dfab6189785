// The places of descriptors, in order.
// Kept (2) in this file: Text has bytes, and asks for room before one is put; these are places, and of more than there is room for the first stay.
ghost use Rattle.std.specs.Prelude.{◌≡◌, ◌≤◌, [], take, length, ⊤};
ghost use Rattle.index.specs.Places.{with_place};

use std::alloc::AllocError;
use std::marker::Model;

// As many as a sound image has pending ones at most: one for each file, and one more.
pub const MOST: usize = 257;

// Places of descriptors in order, no more than there is room for.
#[derive(Drop)]
pub struct Places {
    at: [u16; MOST],
    count: usize,
}

// A clause sees the list of the places.
impl Model for Places {
    ghost use Rattle.std.specs.Prelude.{ℕ, List, ◌≤◌, take};

    ghost Value = { List ℕ };

    ghost view = { λ p. take p.count p.at };

    ghost invariant = { λ p. p.count ≤ 257 };
}

// The kit has no `Copy` for a type whose model does not give its fields back.
impl Clone for Places {
    ghost is_clone = { λ x y. y ≡ x };

    ghost is_infallible = { λ _. ⊤ };

    fn clone(&self) -> Result<Places, AllocError> {
        Ok(Places {
            at: self.at,
            count: self.count,
        })
    }
}

impl Places {
    pub fn new() -> Places
        ensures { result ≡ [] }
    {
        Places {
            at: [unit::NO_PLACE; MOST],
            count: 0,
        }
    }

    #[tactic(auto, unfolding(crate::specs::Places::with_place))]
    // A place more: of more than there is room for, the first.
    pub fn push(&mut self, place: u16)
        ensures { self.new ≡ with_place place self.old }
    {
        if self.count < MOST {
            self.at[self.count] = place;
            self.count += 1;
        }
    }

    pub fn as_slice(&self) -> &[u16]
        ensures places { result.now ≡ self.now }
        ensures few { length result.now ≤ 257 }
    {
        &self.at[..self.count]
    }
}
