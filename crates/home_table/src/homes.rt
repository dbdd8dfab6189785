// The home of each logical number, and the unit left over.
ghost use Rattle.std.specs.Prelude.{◌≡◌, ℕ, ◌-◌, ◌≤◌, ◌<◌, true, false, get_or, length, MatchOption};
ghost use Rattle.home_table.specs.Units.{unit_at, logical_of};
ghost use Rattle.home_table.specs.Places;
ghost use Rattle.home_table.specs.Places.{is_at, left_from, places_of, housed};

use super::claim::Claim;
use super::store::Store;

// A unit for each logical number, and one that is nobody's home.
#[derive(Clone, Copy)]
pub struct Housing<'a> {
    pub store: Store<'a>,
    pub at: [u8; 64],
    pub remaining: usize,
    pub ghost inside: { (L : ℕ) → L < store.g.units - 1 → get_or at L 0 < store.g.units },
    pub ghost left: { remaining < store.g.units },
}

impl<'a> Housing<'a> {
    // The home of number l.
    pub fn home(&self, l: usize) -> &'a [u8]
        requires { l < self.now.store.g.units - 1 }
        ensures { (result.now ≡ unit_at self.now.store.g.size self.now.store.image.now (get_or self.now.at l 0)) × (length result.now ≡ self.now.store.g.size) }
    {
        self.store.unit(usize::from(self.at[l]))
    }

    // The unit that is left over.
    pub fn rest(&self) -> &'a [u8]
        ensures { (result.now ≡ unit_at self.now.store.g.size self.now.store.image.now self.now.remaining) × (length result.now ≡ self.now.store.g.size) }
    {
        self.store.unit(self.remaining)
    }
}

// Each unit in a state claims its logical number.
fn claim_all(store: Store, state: u16, claims: &mut [Claim; 64])
    ensures { claims.new ≡ Places.claims store.entry.g.size store.entry.image.now (store.entry.g.units - 1) state store.entry.g.units 0 claims.old }
{
    for u in 0..store.g.units {
        let l = store.number_of(u);
        if l < store.numbers() && store.state_of(u) == state {
            claims[l] = claims[l].with(u as u8);
        }
    }
}

// Unit u is the home of its number.
// Kept (2): that of home shares only the name: it tests a unit's bytes, this one whether a unit stands among the homes.
fn is_home(store: Store, at: &[u8; 64], u: usize) -> bool
    requires { u < store.g.units }
    ensures { result ≡ is_at (store.entry.g.units - 1) at.now (logical_of store.entry.g.size store.entry.image.now u) u }
{
    let l = store.number_of(u);
    l < store.numbers() && usize::from(at[l]) == u
}

// The first unit that is nobody's home.
fn remaining_of(store: Store, at: &[u8; 64]) -> usize
    ensures { (result ≡ left_from store.entry.g.size store.entry.image.now (store.entry.g.units - 1) at.now store.entry.g.units 0) × (result ≤ store.entry.g.units) }
{
    for u in 0..store.g.units {
        if !is_home(store, at, u) {
            return u;
        }
    }
    store.g.units
}

// The homes of an image, where each logical number has one.
pub fn homes_of<'a>(store: Store<'a>) -> Option<Housing<'a>>
    ensures { let places = places_of store.entry.g.size store.entry.g.units store.entry.image.now in
        let all = housed store.entry.g.units places (store.entry.g.units - 1) 0 in
        MatchOption result (all ≡ false)
        (λ h. (all ≡ true) × (h.store ≡ store.entry) × (h.at ≡ places)
        × (h.remaining ≡ left_from store.entry.g.size store.entry.image.now (store.entry.g.units - 1) places store.entry.g.units 0)) }
{
    let mut live = [Claim::NOBODY; 64];
    let mut retired = [Claim::NOBODY; 64];
    claim_all(store, unit::LIVE, &mut live);
    claim_all(store, unit::RETIRED, &mut retired);
    let mut at = [0; 64];
    for l in 0..store.numbers() {
        at[l] = live[l].or(retired[l]).unit(store.g.units)?;
    }
    let remaining = remaining_of(store, &at);
    Some(Housing {
        store,
        at,
        remaining,
    })
}
