// What a call takes from the judge's look: the refusals 2, 3 and 4, or a settled image; and whether a transaction is open.
#![tactic(auto)]

ghost use Rattle.std.specs.Prelude.{◌≡◌};
ghost use Rattle.call_look.specs.Looks.{Settles, is_opened};

use judge::{Look, Transaction};
use rules::{Geometry, NotDone, Standing};

// What a settled image shows; else the refusals that stand before every call but format and mount.
pub fn settled(image: &[u8], g: Geometry) -> Result<Look, NotDone>
    ensures { Settles g image.now result }
{
    let Some(look) = judge::judge(image, g) else {
        return Err(NotDone::BadGeometry);
    };
    match look.standing {
        Standing::Neither => Err(NotDone::BadImage),
        Standing::Sound => Err(NotDone::Unsettled),
        Standing::Settled => Ok(look),
    }
}

// A transaction is open.
#[tactic(auto, unfolding(crate::specs::Looks::is_opened))]
pub fn is_open(look: &Look) -> bool
    ensures { result ≡ is_opened look.now.transaction }
{
    look.transaction == Some(Transaction::Open)
}
