// An image of a right geometry, unit by unit.
ghost use Rattle.std.specs.Prelude.{◌≡◌, ◌-◌, ◌<◌, length};
ghost use Rattle.laws.specs.Units.{RightGeometry};
ghost use Rattle.home_table.specs.Units.{unit_at, logical_of, state_of};

use rules::Geometry;

// An image and its geometry.
#[derive(Clone, Copy)]
pub struct Store<'a> {
    pub image: &'a [u8],
    pub g: Geometry,
    pub ghost right: { RightGeometry g image.now },
}

impl<'a> Store<'a> {
    // How many logical numbers there are: one fewer than units.
    pub fn numbers(self) -> usize
        ensures { result ≡ self.entry.g.units - 1 }
    {
        self.g.units - 1
    }

    // The unit that stands n-th.
    // Kept (2, 5): by n in the image, place's by a logical number, Claim's a number alone; n's bound is one number's: a type would be made at each call.
    pub fn unit(self, n: usize) -> &'a [u8]
        requires { n < self.g.units }
        ensures { (result.now ≡ unit_at self.entry.g.size self.entry.image.now n) × (length result.now ≡ self.entry.g.size) }
    {
        let base = self.g.base(n);
        &self.image[base..base + self.g.size]
    }

    // The logical number in the header of the unit that stands n-th.
    // Kept (5): one number's bound: a type for it would be made and taken apart at each call.
    pub fn number_of(self, n: usize) -> usize
        requires { n < self.g.units }
        ensures { (result ≡ logical_of self.entry.g.size self.entry.image.now n) × (result < 65536) }
    {
        usize::from(flash::word(self.image, self.g.base(n) + unit::NUMBER_AT))
    }

    // The state there.
    // Kept (5): one number's bound: a type for it would be made and taken apart at each call.
    pub fn state_of(self, n: usize) -> u16
        requires { n < self.g.units }
        ensures { result ≡ state_of self.entry.g.size self.entry.image.now n }
    {
        flash::word(self.image, self.g.base(n) + unit::STATE_AT)
    }
}
