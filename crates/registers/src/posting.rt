// A posting, its numbers, and the search for one among records.
ghost use Rattle.std.specs.Prelude.{◌≡◌, ◌<◌, OnOk};
ghost use Rattle.refusals.specs.Checks.{in_order};
ghost use Rattle.registers.specs.Meaning.{is_posting, number_steps};

use crate::fault::RegisterFault;
use fields::{PERSONS, ROLES};
use refusals::must;
use search::Sought;

// Who is posted to which role at which branch.
#[derive(Clone, Copy, PartialEq, Eq)]
pub struct Posting {
    pub person: u8,
    pub role: u8,
    pub branch: u8,
}

impl Posting {
    // Checks that a register with so many branches has such a person, such a role and such a branch.
    pub fn check(self, branches: u8) -> Result<(), RegisterFault>
        ensures answer { result ≡ in_order (number_steps branches self.person self.role self.branch) }
        ensures passed { OnOk result ((self.person < 64) × (self.role < 16) × (self.branch < branches)) }
    {
        must(self.person < PERSONS, RegisterFault::NoPerson)?;
        must((self.role as usize) < ROLES, RegisterFault::NoRole)?;
        must(self.branch < branches, RegisterFault::NoBranch)
    }
}

// A posting is sought among records, of which a free one is `None`.
impl Sought<Option<Posting>> for Posting {
    ghost seeks = { λ p it. is_posting it p.person p.role p.branch };

    fn fits(&self, item: &Option<Posting>) -> bool {
        *item == Some(*self)
    }
}
