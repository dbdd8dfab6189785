// What one descriptor more adds to the tally.
ghost use Rattle.std.specs.Prelude.{◌≡◌, ◌≤◌, ◌<◌, length};
ghost use Rattle.rules.specs.Unit.{stands, file_of};
ghost use Rattle.unit.specs.Shapes.{array_of};
ghost use Rattle.counts.specs.Tally.{TallyNotes, class_of, noted, note_as, tallied, nothing, tally_of};

use super::{Class, Few, Tally};
use marks::Marks;
use rules::Descriptor;
use std::marker::Model;

// The tally so far, with a mark for each file that has a pending descriptor, and behind these one for each that has a current one.
#[derive(Drop)]
pub struct Counting {
    tally: Tally,
    marks: Marks<64>,
}

impl Model for Counting {
    ghost Value = { TallyNotes };

    ghost view = { λ n. noted n.tally n.marks };
}

// What a descriptor counts as, by its flags and its tag.
#[tactic(auto, unfolding(crate::specs::Tally::class_of, rules::specs::Unit::is_torn, rules::specs::Unit::is_allocated, rules::specs::Unit::is_pending, rules::specs::Unit::is_current, rules::specs::Unit::is_open, rules::specs::Unit::is_committed, rules::specs::Unit::is_pending_file, rules::specs::Unit::is_current_file))]
fn class_of(d: Descriptor) -> Class
    ensures { result ≡ class_of d }
{
    match d.flags {
        unit::ALLOCATED => Class::Unfinished,
        unit::PENDING if d.is_transaction() => Class::Open,
        unit::PENDING => Class::Pending,
        unit::CURRENT if d.is_transaction() => Class::Committed,
        unit::CURRENT if d.is_data() => Class::Current,
        unit::CURRENT => Class::Wrong,
        _ if d.is_torn() => Class::Unfinished,
        _ => Class::Idle,
    }
}

impl Counting {
    // Nothing is counted yet.
    #[tactic(auto, using(crate::specs::Marks::noted_none))]
    pub fn new() -> Counting
        ensures { result ≡ nothing }
    {
        Counting {
            tally: Tally {
                unfinished: Few::Zero,
                committed: Few::Zero,
                opened: Few::Zero,
                pending: Few::Zero,
                twice: Few::Zero,
                wrong: Few::Zero,
            },
            marks: Marks::none(),
        }
    }

    pub fn tally(&self) -> Tally
        ensures { result ≡ tally_of self.now }
    {
        self.tally
    }

    // One more of class k and file f, which is marked as one with a pending descriptor, or as one with a current.
    fn note(&mut self, k: Class, f: usize)
        requires { f < 256 }
        ensures { self.new ≡ note_as k f self.old }
    {
        let t = &mut self.tally;
        match k {
            Class::Idle => {}
            Class::Unfinished => t.unfinished = t.unfinished.one_more(),
            Class::Open => t.opened = t.opened.one_more(),
            Class::Committed => t.committed = t.committed.one_more(),
            Class::Pending => {
                t.pending = t.pending.one_more();
                if self.marks.mark(f) {
                    t.twice = t.twice.one_more();
                }
            }
            Class::Current => {
                if self.marks.mark(256 + f) {
                    t.wrong = t.wrong.one_more();
                }
            }
            Class::Wrong => t.wrong = t.wrong.one_more(),
        }
    }

    // One descriptor more.
    // Kept (2): no visitor of index, though named so: it takes no place, and counts one home while the judge goes its round.
    fn meet(&mut self, d: Descriptor)
        ensures { self.new ≡ note_as (class_of d) (file_of d) self.old }
    {
        self.note(class_of(d), d.file());
    }

    // The first n descriptors of a home.
    // Kept (2, 5): pass lists and hex lines count other things; bounds of one array in its unit, for which a type would be made and taken apart at each call.
    #[tactic(auto, using(crate::specs::LoopTurns::tallied_turn, crate::specs::LoopTurns::tallied_end), unfolding(rules::specs::Unit::stands, unit::specs::Shapes::array_of))]
    pub fn count(&mut self, unit: &[u8], n: usize)
        requires { (stands n ≤ length unit.now) × (length unit.now ≤ 4096) }
        ensures { self.new ≡ tallied (array_of n unit.now) self.old }
    {
        for p in 0..n {
            self.meet(unit::descriptor(unit, p));
        }
    }
}
