// A roll of records in lent memory.
ghost use Rattle.std.specs.Prelude.{◌≡◌, ℕ, ◌<◌, false, is_some, length, replicate, Some, None, IfSome, Ok, nat_le, nat_lt, slice_index};
ghost use Rattle.registers.specs.Meaning.{postings_at};
ghost use Rattle.refusals.specs.Checks.{all};
ghost use Rattle.std.proofs.Common.{rules, tests};
ghost use Rattle.roll.specs.Inside.{roll_inside};
ghost use Rattle.roll.specs.Roll.{IsRecord, KeptParts, roll_checked, roll_part, roll_posted, roll_share, roll_start, shares_before};

use crate::part::{free_in, is_other, roles_in};
use fields::PERSONS;
use refusals::must;
use registers::{Posting, Register, RegisterFault};
use search::first;

// The most postings that a branch may have.
const MOST: u16 = 1024;

// The records of all branches, and the share of each. The number of branches stands beside the shares, which may be more or fewer: `check`
// says whether they are as many, and a branch without one has no room.
#[derive(Drop)]
pub struct Roll<'p, 's> {
    records: &'p mut [Option<Posting>],
    shares: &'s [u16],
    branches: u8,
    // each branch's part has its own postings, none of them twice
    ghost kept: { KeptParts records.now shares.now branches },
}

// The share of a branch, or 0 of one that has none. The library's chain under the name of what it gives.
fn share_at(shares: &[u16], branch: u8) -> u16
    ensures { result ≡ slice_index shares.now branch }
{
    shares.get(branch as usize).copied().unwrap_or(0)
}

// The shares of the branches before one, together.
fn shares_before(shares: &[u16], branch: u8) -> usize
    ensures { result ≡ shares_before shares.now branch }
{
    shares
        .iter()
        .take(branch as usize)
        .map(|share| *share as usize)
        .sum()
}

// Tells whether no branch's share is over the most.
fn none_over(shares: &[u16], branches: u8) -> bool
    ensures { result ≡ all branches (λ b. nat_le (slice_index shares.now b) 1024) }
{
    shares
        .iter()
        .take(branches as usize)
        .all(|share| *share <= MOST)
}

impl<'p, 's> Roll<'p, 's> {
    // Checks the shares, and that the records are enough for them. This and `new` take the three fields that a roll is made of.
    pub fn check(
        records: &[Option<Posting>],
        shares: &[u16],
        branches: u8,
    ) -> Result<(), RegisterFault>
        ensures { result ≡ roll_checked (length records.now) shares.now branches }
    {
        must(
            shares.len() == branches as usize
                && 0 < share_at(shares, 0)
                && none_over(shares, branches)
                && shares_before(shares, branches) <= records.len(),
            RegisterFault::Unfit(records.len()),
        )
    }

    // Makes a roll in which nobody is posted; a part for which there are too few records is shorter.
    #[tactic(auto, using(crate::proofs::RollFacts::roll_cleared, crate::proofs::RollFacts::cleared_kept, crate::proofs::RollFacts::share_whole))]
    pub fn new(records: &'p mut [Option<Posting>], shares: &'s [u16], branches: u8) -> Roll<'p, 's>
        ensures records { result.records.now ≡ replicate (length records.old) None }
        ensures asked { (result.shares.now ≡ shares.now) × (result.branches ≡ branches) }
        ensures empty { (x y z : ℕ) → roll_posted result.records.now result.shares.now result.branches x y z ≡ false }
        ensures whole { roll_checked (length records.old) shares.now branches ≡ Ok tt → (b : ℕ) → b < branches → roll_share (length result.records.now) result.shares.now result.branches b ≡ slice_index shares.now b }
    {
        records.fill(None);
        Roll {
            records,
            shares,
            branches,
        }
    }

    // Where the part of a branch starts: behind the parts before it, or where the records end. They are in memory (`fits`), so that no sum of
    // places wraps.
    fn start(&self, branch: u8) -> usize
        ensures fits { length self.now.records.now < 18446744073709551616 }
        ensures place { result ≡ roll_start (length self.now.records.now) self.now.shares.now branch }
    {
        shares_before(self.shares, branch).min(self.records.len())
    }

    // How many records the part of a branch has.
    fn room(&self, branch: u8) -> u16
        ensures { result ≡ roll_share (length self.now.records.now) self.now.shares.now self.now.branches branch }
    {
        if branch >= self.branches {
            return 0;
        }
        let left = self.records.len() - self.start(branch);
        (share_at(self.shares, branch) as usize).min(left) as u16
    }

    // The part of a branch.
    fn part(&self, branch: u8) -> &[Option<Posting>]
        ensures { result.now ≡ roll_part self.now.records.now self.now.shares.now self.now.branches branch }
    {
        let start = self.start(branch);
        let end = start + self.room(branch) as usize;
        &self.records[start..end]
    }

    // The place of a posting among all records.
    fn place_of(&self, posting: Posting) -> Option<usize>
        ensures there { is_some result ≡ roll_posted self.now.records.now self.now.shares.now self.now.branches posting.person posting.role posting.branch }
        ensures place { IfSome result (λ at. IsRecord self.now.records.now self.now.shares.now self.now.branches posting.branch at (Some posting)) }
    {
        let i = first(self.part(posting.branch), &posting)?;
        Some(self.start(posting.branch) + i)
    }

    // The place of a free record of a branch; there is one while the branch has fewer postings than its share.
    #[tactic(auto, using(crate::proofs::RollFacts::roll_full, crate::proofs::RollFacts::roll_room, crate::proofs::RollFacts::share_within))]
    fn free_place(&self, branch: u8) -> Option<usize>
        ensures there { is_some result ≡ nat_lt (postings_at (roll_posted self.now.records.now self.now.shares.now self.now.branches) branch) (roll_share (length self.now.records.now) self.now.shares.now self.now.branches branch) }
        ensures place { IfSome result (λ at. IsRecord self.now.records.now self.now.shares.now self.now.branches branch at None) }
    {
        let i = free_in(self.part(branch))?;
        Some(self.start(branch) + i)
    }
}

impl<'p, 's> Register for Roll<'p, 's> {
    ghost posted = { λ r. roll_posted r.records.now r.shares.now r.branches };

    ghost branches = { λ r. r.branches };

    ghost share = { λ r. roll_share (length r.records.now) r.shares.now r.branches };

    fn branch_count(&self) -> u8 {
        self.branches
    }

    fn share_of(&self, branch: u8) -> Option<u16> {
        (branch < self.branches).then_some(self.room(branch))
    }

    #[tactic(auto, using(crate::proofs::PartFacts::own_role))]
    fn roles_of(&self, person: u8, branch: u8) -> u16 {
        roles_in(self.part(branch), person, branch)
    }

    // Counts in a `for` over the records, as others are to be counted (docs/DECISIONS.md, "Forms"). No two records of a part post the same
    // person to a role, so that each counts once.
    fn others(&self, posting: Posting) -> u8 {
        let mut count = 0;
        if posting.person < PERSONS {
            for record in self.part(posting.branch) {
                if is_other(*record, posting) {
                    count += 1;
                }
            }
        }
        count
    }

    #[tactic(auto, using(crate::proofs::RollFacts::roll_added, crate::proofs::RollFacts::added_kept, crate::proofs::RollFacts::inside))]
    fn put(&mut self, posting: Posting) -> Result<(), RegisterFault> {
        posting.check(self.branches)?;
        must(
            self.place_of(posting).is_none(),
            RegisterFault::Posted(posting.branch),
        )?;
        let at = self
            .free_place(posting.branch)
            .ok_or(RegisterFault::Full(posting.branch))?;
        self.records[at] = Some(posting);
        Ok(())
    }

    #[tactic(auto, using(crate::proofs::RollFacts::roll_removed, crate::proofs::RollFacts::removed_kept, crate::proofs::RollFacts::inside))]
    fn take(&mut self, posting: Posting) -> Result<(), RegisterFault> {
        posting.check(self.branches)?;
        let at = self
            .place_of(posting)
            .ok_or(RegisterFault::NotPosted(posting.branch))?;
        self.records[at] = None;
        Ok(())
    }

    #[tactic(auto, using(crate::proofs::RollFacts::roll_cleared, crate::proofs::RollFacts::cleared_kept))]
    fn clear(&mut self) {
        self.records.fill(None);
    }

    ghost inside = { λ r. roll_inside r.records.now r.shares.now r.branches r.kept };

    ghost shares = { Prim.search (rules, tests) };
}
