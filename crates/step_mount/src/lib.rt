// The steps of a mount: a moving unit is finished, then what is left is tidied up.
// Kept (5) in this file: the image is lent for one step after the other and read between them: a struct that lends it would be taken apart at each.
#![tactic(auto)]

ghost use Rattle.std.specs.Prelude.{◌≡◌, Some, true, ℕ, length};
ghost use Rattle.rules.specs.Flash.{is_geometry, state, run};
ghost use Rattle.rules.specs.Settled.{survey};
ghost use Rattle.rules.specs.Sound.{standing};
ghost use Rattle.rules.specs.Jobs.{finish_move, tidy, mount_job};
ghost use Rattle.theory.specs.Images.Stand.{not_neither};
ghost use Rattle.step_mount.specs.Mendable.{Mendable};
ghost use Rattle.step_mount.specs.Moving.{Sighted};

use home_table::Store;
use index::Index;
use judge::{Look, Remainder};
use rules::{Geometry, Run};
use step_end::Unfinished;
use step_move::Way;

// What mount does of a sound image once no unit is moving: it mends, then ends the transaction.
fn tidy_up(image: &mut [u8], g: Geometry, home: [u8; 64], was: Run) -> Run
    requires { Mendable g image.old home }
    ensures { state image.new result ≡ run (tidy (survey g image.old)) (state image.old was) }
{
    let mut index = Index::new();
    index.note_all(image, g, home);
    let at = Unfinished {
        torn: usize::from(index.torn),
        allocated: usize::from(index.allocated),
        opened: usize::from(index.opened),
        committed: usize::from(index.committed),
    };
    step_end::tidy(image, &index.current, index.pending.as_slice(), at, was)
}

// A moving unit is finished from where it stands: it becomes the copy of its home, or is the old home and is erased.
fn finish_move(image: &mut [u8], g: Geometry, look: &Look, was: Run) -> Run
    requires { Sighted g image.old look.now }
    ensures { state image.new result ≡ run (finish_move g (survey g image.old)) (state image.old was) }
{
    let to = g.base(look.remaining);
    match look.state {
        Remainder::Spare => was,
        Remainder::Retired => step_move::empty(image, g, to, was),
        Remainder::Receiving => {
            let number = usize::from(flash::word(image, to));
            let from = g.base(usize::from(look.homes[number]));
            step_move::move_unit(image, g, Way { from, to }, number, was)
        }
    }
}

// What mount does once a moving unit is finished, by where the homes are then; a job that was cut does no more.
fn tidy_after(image: &mut [u8], g: Geometry, was: Run) -> Run
    requires { (is_geometry g (length image.old) ≡ true) × ((k : ℕ) → was ≡ Some k → not_neither (standing g (survey g image.old)) ≡ true) }
    ensures { state image.new result ≡ run (tidy (survey g image.old)) (state image.old was) }
{
    let left = was?;
    let homes = home_table::homes_of(Store { image, g }).unwrap();
    let at = homes.at;
    tidy_up(image, g, at, Some(left))
}

// All steps of a mount of a sound image.
pub fn mend_all(image: &mut [u8], g: Geometry, look: &Look, allowance: u32) -> Run
    requires { Sighted g image.old look.now }
    ensures { state image.new result ≡ run (mount_job g image.old (survey g image.old)) (state image.old (Some allowance)) }
{
    if let Remainder::Spare = look.state {
        return tidy_up(image, g, look.homes, Some(allowance));
    }
    let r = finish_move(image, g, look, Some(allowance));
    tidy_after(image, g, r)
}
