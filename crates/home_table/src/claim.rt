// Who claims a logical number.
ghost use Rattle.std.specs.Prelude.{◌≡◌, ℕ};
ghost use Rattle.home_table.specs.Places.{claim, either, unit_of};

use std::marker::Model;

// Nobody, one unit, or several.
// Kept (1): a byte, since an array of an enum takes 64 bytes more, twice, of each call's stack.
#[derive(Clone, Copy, PartialEq, Eq)]
pub struct Claim(u8);

impl Model for Claim {
    ghost Value = { ℕ };

    ghost view = { λ c. c.0 };

    ghost inverse = { λ n. record { 0 = n } };
}

impl Claim {
    pub const NOBODY: Claim = Claim(255);

    const SEVERAL: Claim = Claim(254);

    // With the claim of unit u: the first one stands, a second one spoils it.
    pub fn with(self, u: u8) -> Claim
        ensures { result ≡ claim self u }
    {
        if self == Claim::NOBODY {
            Claim(u)
        } else {
            Claim::SEVERAL
        }
    }

    // This one; where it is nobody's, the other.
    pub fn or(self, other: Claim) -> Claim
        ensures { result ≡ either self other }
    {
        if self == Claim::NOBODY { other } else { self }
    }

    // The unit, of so many, where exactly one claims the number.
    // Kept (2): shares only the name with Store's and place's: it gives the number of a unit, and they give a unit's bytes.
    pub fn unit(self, units: usize) -> Option<u8>
        ensures { result ≡ unit_of units self }
    {
        (usize::from(self.0) < units).then_some(self.0)
    }
}
