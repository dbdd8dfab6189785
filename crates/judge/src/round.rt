// The round of the homes.
ghost use Rattle.std.specs.Prelude.{◌≡◌, ◌-◌};
ghost use Rattle.counts.specs.Tally.{nothing};
ghost use Rattle.judge.specs.Round.{round_from};

use super::HomesTally;
use counts::Counting;
use home_table::Housing;

// What all homes hold, where each is as it must be. In the judge itself it spares stack.
#[inline(always)]
pub fn go_round(homes: &Housing) -> Option<HomesTally>
    ensures { result ≡ round_from homes.now.store.g homes.now.store.image.now homes.now.at (homes.now.store.g.units - 1) 0 0 nothing }
{
    let mut counting = Counting::new();
    let mut retired = 0;
    for l in 0..homes.store.numbers() {
        let u = homes.home(l);
        if !unit::has_header(u) {
            return None;
        }
        let r = unit::room_of(u);
        if !home::is_home(homes.store.g, u, r) {
            return None;
        }
        if !copy::is_live(u) {
            retired += 1;
        }
        counting.count(u, r.n);
    }
    Some(HomesTally {
        retired,
        tally: counting.tally(),
    })
}
