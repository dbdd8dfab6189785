// What is current of the files is laid, in one walk over the descriptors of the homes.
ghost use Rattle.std.specs.Prelude.{◌≡◌, []};
ghost use Rattle.call_look.specs.Known.{Known};
ghost use Rattle.table_renew.specs.Lists.{list_one, list_empty, CurrentListed};

use super::Laid;
use index::walk::{Visitor, walk};
use rules::{Descriptor, Geometry};

// The descriptor's place is laid where it is current of a file.
impl Visitor for Laid {
    ghost met = { list_one };

    ghost skips = { list_empty };

    // Kept (2): the trait's method; each visitor of index::walk makes something else of a descriptor, and counts' meet is no visitor's.
    #[tactic(auto, unfolding(crate::specs::Lists::list_one, rules::specs::Opened::descriptors))]
    fn meet(&mut self, d: Descriptor, place: u16) {
        if d.flags == unit::CURRENT && d.tag != unit::TRANSACTION {
            self.places.push(place);
        }
    }
}

// Kept (5): for image, geometry and homes, which Known ties, a type would be made at the one call and taken apart in it.
// What is current of the files of a settled image is laid.
pub fn list_all(image: &[u8], g: Geometry, home: [u8; 64], laid: &mut Laid)
    requires { Known g image.now home × (laid.old.places ≡ []) }
    ensures { CurrentListed g image.now laid.new.places }
{
    walk(image, g, home, laid);
}
