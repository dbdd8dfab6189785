// Settled, sound or neither, once the homes are looked through.
ghost use Rattle.std.specs.Prelude.{◌≡◌, length};
ghost use Rattle.judge.specs.Round.{moving, judged};

use super::HomesTally;
use home_table::Housing;
use rules::Standing;

// The remaining unit r moves beside the home of its number.
fn is_moving(homes: &Housing, others: usize, r: &[u8]) -> bool
    requires { length r.now ≡ homes.now.store.g.size }
    ensures { result ≡ moving homes.now.store.g homes.now.store.image.now homes.now.at others r.now }
{
    let l = usize::from(flash::word(r, unit::NUMBER_AT));
    l < homes.store.numbers() && copy::is_move(others, r, homes.home(l))
}

pub fn standing_of(homes: &Housing, blank: bool, r: &[u8], held: HomesTally) -> Standing
    requires { length r.now ≡ homes.now.store.g.size }
    ensures { result ≡ judged homes.now.store.g homes.now.store.image.now homes.now.at blank r.now held }
{
    let still = held.retired == 0 && blank;
    let quiet = held.tally.is_quiet();
    if still && quiet {
        Standing::Settled
    } else if still && (held.tally.is_unfinished() || held.tally.is_committing())
        || quiet && is_moving(homes, held.retired, r)
    {
        Standing::Sound
    } else {
        Standing::Neither
    }
}
