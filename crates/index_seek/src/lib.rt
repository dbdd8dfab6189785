// Where one file's descriptors stand, sought among those of all homes.
#![tactic(auto)]

ghost use Rattle.std.specs.Prelude.{◌≡◌, ◌+◌, ◌≤◌, length};
ghost use Rattle.index.specs.Shapes.{Homed, shown_by};
ghost use Rattle.index_seek.specs.Sought.{Seeks, seek_one};
ghost use Rattle.index_seek.specs.Seeking.{seek_empty};

use index::keep_first;
use index::walk::{Visitor, walk};
use rules::{Descriptor, Geometry};

// The places that the calls by file ask for: of the open transaction, of what is current and what is pending of the file, and of
// what the transaction view shows of it.
#[derive(Clone, Copy)]
pub struct Sought {
    pub opened: u16,
    pub current: u16,
    pub pending: u16,
    pub shown: u16,
}

// A file that is sought, and the places that are found of it so far, and of the open transaction.
#[derive(Drop)]
struct Seeker {
    file: usize,
    opened: u16,
    current: u16,
    pending: u16,
}

impl Visitor for Seeker {
    ghost met = { seek_one };

    ghost skips = { λ a d x h. seek_empty a d x h };

    // Kept (2): Visitor's one method, which each visitor has; each makes something else of a descriptor. That of counts shares only the name.
    #[tactic(auto, unfolding(crate::specs::Sought::seek_one, rules::specs::Opened::descriptors))]
    fn meet(&mut self, d: Descriptor, place: u16) {
        match (d.flags, d.tag) {
            (unit::PENDING, unit::TRANSACTION) => keep_first(&mut self.opened, place),
            (unit::CURRENT, unit::TRANSACTION) => {}
            (unit::PENDING, _) if d.file() == self.file => keep_first(&mut self.pending, place),
            (unit::CURRENT, _) if d.file() == self.file => keep_first(&mut self.current, place),
            _ => {}
        }
    }
}

// Kept (2): it shares only the name: here it goes by two places in the image, in table_read by an entry of the table.
// The place of what the transaction view shows of a file, by those of what is pending and of what is current of it.
#[tactic(auto, unfolding(index::specs::Shapes::shown_by))]
fn shown_by(image: &[u8], pending: u16, current: u16) -> u16
    requires { (pending ≡ 0 → ⊥) → pending + 8 ≤ length image.now }
    ensures { result ≡ shown_by image.now pending current }
{
    if pending == unit::NO_PLACE {
        current
    } else if index::is_mark_at(image, pending) {
        unit::NO_PLACE
    } else {
        pending
    }
}

// Kept (2, 5): a place for a sector is sought in place, a file's descriptors here, once for each call; a struct with Homed would be taken apart in walk.
// Where a file's descriptors stand.
pub fn seek(image: &[u8], g: Geometry, home: [u8; 64], file: usize) -> Sought
    requires { Homed g image.now home }
    ensures { Seeks g image.now file result }
{
    let mut found = Seeker {
        file,
        opened: unit::NO_PLACE,
        current: unit::NO_PLACE,
        pending: unit::NO_PLACE,
    };
    walk(image, g, home, &mut found);
    Sought {
        opened: found.opened,
        current: found.current,
        pending: found.pending,
        shown: shown_by(image, found.pending, found.current),
    }
}
