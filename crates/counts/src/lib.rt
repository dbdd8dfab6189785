// What the conditions over all homes count, descriptor by descriptor.
#![tactic(auto)]

ghost use Rattle.std.specs.Prelude.{◌≡◌};
ghost use Rattle.counts.specs.Few.{one_more};
ghost use Rattle.counts.specs.Tally.{beside, single, quiet, is_first, is_second};

pub use noting::Counting;

mod noting; // noting.rt: one descriptor more

// How many there are, as far as a rule asks.
// Kept (1): Zero is a count, as One and Several are: the rules ask for each of the three, and it is no nothing beside values.
#[derive(Clone, Copy, PartialEq, Eq)]
pub enum Few {
    Zero,
    One,
    Several,
}

impl Few {
    pub fn one_more(self) -> Few
        ensures { result ≡ one_more self }
    {
        match self {
            Few::Zero => Few::One,
            Few::One | Few::Several => Few::Several,
        }
    }
}

// How many there are of each among the homes' descriptors.
#[derive(Clone, Copy)]
pub struct Tally {
    pub unfinished: Few,
    pub committed: Few,
    pub opened: Few,
    pub pending: Few,
    pub twice: Few,
    pub wrong: Few,
}

// What a descriptor counts as.
#[derive(Clone, Copy)]
pub enum Class {
    Idle,
    Unfinished,
    Open,
    Committed,
    Pending,
    Current,
    Wrong,
}

impl Tally {
    // Do pending ones stand beside an open transaction?
    fn is_beside(self) -> bool
        ensures { result ≡ beside self }
    {
        self.opened == Few::One || self.pending == Few::Zero
    }

    // A file has at most one pending descriptor, and at most one current, which is data.
    fn is_single(self) -> bool
        ensures { result ≡ single self }
    {
        self.twice == Few::Zero && self.wrong == Few::Zero
    }

    // Settled, as to the descriptors.
    pub fn is_quiet(self) -> bool
        ensures { result ≡ quiet self }
    {
        self.unfinished == Few::Zero
            && self.committed == Few::Zero
            && self.opened != Few::Several
            && self.is_beside()
            && self.is_single()
    }

    // The first group: one torn or allocated; or one file with two pending, or pending ones with no transaction, or both.
    pub fn is_unfinished(self) -> bool
        ensures { result ≡ is_first self }
    {
        self.committed == Few::Zero
            && self.opened != Few::Several
            && self.wrong == Few::Zero
            && match self.unfinished {
                Few::Zero => self.twice != Few::Several,
                Few::One => self.is_beside() && self.twice == Few::Zero,
                Few::Several => false,
            }
    }

    // The second: one committed, none open.
    pub fn is_committing(self) -> bool
        ensures { result ≡ is_second self }
    {
        self.unfinished == Few::Zero
            && self.committed == Few::One
            && self.opened == Few::Zero
            && self.is_single()
    }
}
