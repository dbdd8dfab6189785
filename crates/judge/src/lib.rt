// Settled, sound or neither, of any image: and where its homes and its remaining unit stand and whether it has a transaction, from one look.
#![tactic(auto)]

ghost use Rattle.std.specs.Prelude.{◌≡◌, ◌≤◌, length};
ghost use Rattle.judge.specs.Judged.{Judged};
ghost use Rattle.judge.specs.Round.{remainder_by, transaction_by};

use counts::{Few, Tally};
use home_table::Store;
use rules::{Geometry, Standing};

mod round; // round.rt: what all homes hold
mod ruling; // ruling.rt: which standing it is

// What all homes hold: how many of them are not live, and the tally.
#[derive(Clone, Copy)]
pub struct HomesTally {
    pub retired: usize,
    pub tally: Tally,
}

// The remaining unit: wholly FF, a copy that is receiving, or an old home.
#[derive(Clone, Copy, PartialEq, Eq)]
pub enum Remainder {
    Spare,
    Receiving,
    Retired,
}

// A transaction.
#[derive(Clone, Copy, PartialEq, Eq)]
pub enum Transaction {
    Open,
    Committed,
}

// All that a call needs to know of an image of a right geometry, from one look.
#[derive(Clone, Copy)]
pub struct Look {
    pub standing: Standing,
    pub homes: [u8; 64],
    pub remaining: usize,
    pub state: Remainder,
    pub transaction: Option<Transaction>,
}

// What the remaining unit is.
fn remainder_of(blank: bool, r: &[u8]) -> Remainder
    requires { 4 ≤ length r.now }
    ensures { result ≡ remainder_by blank r.now }
{
    if blank {
        Remainder::Spare
    } else if flash::word(r, unit::STATE_AT) == unit::RECEIVING {
        Remainder::Receiving
    } else {
        Remainder::Retired
    }
}

impl HomesTally {
    // The transaction that the round met.
    fn transaction(self) -> Option<Transaction>
        ensures { result ≡ transaction_by self }
    {
        if self.tally.opened != Few::Zero {
            Some(Transaction::Open)
        } else if self.tally.committed != Few::Zero {
            Some(Transaction::Committed)
        } else {
            None
        }
    }
}

// Of an image that is not sound, nothing is shown.
const UNSEEN: Look = Look {
    standing: Standing::Neither,
    homes: [0; 64],
    remaining: 0,
    state: Remainder::Spare,
    transaction: None,
};

// The verdict on any image of any geometry, and what a settled or sound one shows; nothing where the geometry is wrong.
pub fn judge(image: &[u8], g: Geometry) -> Option<Look>
    ensures { Judged g image.now result }
{
    if !g.check(image.len()) {
        return None;
    }
    let homes = home_table::homes_of(Store { image, g });
    let Some(homes) = &homes else {
        return Some(UNSEEN);
    };
    let Some(held) = round::go_round(homes) else {
        return Some(UNSEEN);
    };
    let r = homes.rest();
    let blank = flash::is_erased(r);
    Some(Look {
        standing: ruling::standing_of(homes, blank, r, held),
        homes: homes.at,
        remaining: homes.remaining,
        state: remainder_of(blank, r),
        transaction: held.transaction(),
    })
}
