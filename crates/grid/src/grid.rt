// A grid of cells in lent memory.
ghost use Rattle.std.specs.Prelude.{◌≡◌, ℕ, ◌+◌, ◌*◌, ◌/◌, ◌<◌, min, false, not, ◌&&◌, length, take, drop, replicate, Ok, ◌==◌, slice_index};
ghost use Rattle.grid.specs.Grid.{grid_branches, grid_checked, grid_posted, grid_share};
ghost use Rattle.orders.specs.Masks.{has_bit};
ghost use Rattle.search.specs.Searches.{count_below};
ghost use Rattle.std.proofs.Common.{rules, tests};

use fields::PERSONS;
use orders::has_bit;
use refusals::must;
use registers::{Posting, Register, RegisterFault, with_bit, without_bit};

// The postings that a branch has room for: each of 64 persons in each of 16 roles.
const SHARE: u16 = 1024;

// A cell for each branch and person, with a bit for each role. The memory may be longer than the grid.
#[derive(Drop)]
pub struct Grid<'c> {
    cells: &'c mut [u16],
    branches: u8,
}

// Where the cell of a person at a branch stands.
fn place(person: u8, branch: u8) -> usize
    ensures { result ≡ branch * 64 + person }
{
    branch as usize * PERSONS as usize + person as usize
}

// How many of the branches have a whole row in so many items.
fn rows_of(items: usize, branches: u8) -> u8
    ensures { result ≡ min branches (items / 64) }
{
    (items / PERSONS as usize).min(branches as usize) as u8
}

// Tells whether the cell is of another person than the posting, and posts that person to the same role.
fn is_other(other: usize, cell: u16, posting: Posting) -> bool
    ensures { result ≡ (not (other == posting.person) && has_bit cell posting.role) }
{
    other != posting.person as usize && has_bit(cell, posting.role)
}

// How many others of a row are posted to the posting's role.
fn others_in(row: &[u16], posting: Posting) -> usize
    ensures { result ≡ count_below (length row.now) (λ x. not (x == posting.person) && has_bit (slice_index row.now x) posting.role) }
{
    row.iter()
        .enumerate()
        .filter(|(other, cell)| is_other(*other, **cell, posting))
        .count()
}

impl<'c> Grid<'c> {
    // Checks that the memory has a row of cells for each branch.
    pub fn check(cells: &[u16], branches: u8) -> Result<(), RegisterFault>
        ensures { result ≡ grid_checked (length cells.now) branches }
    {
        must(
            PERSONS as usize * branches as usize <= cells.len(),
            RegisterFault::Unfit(cells.len()),
        )
    }

    // Makes a grid in which nobody is posted; of branches for which the memory is too short, there are fewer.
    pub fn new(cells: &'c mut [u16], branches: u8) -> Grid<'c>
        ensures cells { result.cells.now ≡ replicate (length cells.old) 0 }
        ensures asked { result.branches ≡ branches }
        ensures empty { (x y z : ℕ) → grid_posted result.cells.now result.branches x y z ≡ false }
        ensures whole { grid_checked (length cells.old) branches ≡ Ok tt → grid_branches result.cells.now result.branches ≡ branches }
    {
        cells.fill(0);
        Grid { cells, branches }
    }

    // The cells of a branch that it has, one for each person.
    fn row(&self, branch: u8) -> &[u16]
        requires { branch < grid_branches self.now.cells.now self.now.branches }
        ensures { result.now ≡ take 64 (drop (branch * 64) self.now.cells.now) }
    {
        let start = place(0, branch);
        &self.cells[start..start + PERSONS as usize]
    }
}

impl<'c> Register for Grid<'c> {
    ghost posted = { λ g. grid_posted g.cells.now g.branches };

    ghost branches = { λ g. grid_branches g.cells.now g.branches };

    ghost share = { λ g. grid_share g.cells.now g.branches };

    fn branch_count(&self) -> u8 {
        rows_of(self.cells.len(), self.branches)
    }

    fn share_of(&self, branch: u8) -> Option<u16> {
        (branch < self.branch_count()).then_some(SHARE)
    }

    fn roles_of(&self, person: u8, branch: u8) -> u16 {
        if person < PERSONS && branch < self.branch_count() {
            self.cells[place(person, branch)]
        } else {
            0
        }
    }

    fn others(&self, posting: Posting) -> u8 {
        if posting.check(self.branch_count()).is_err() {
            return 0;
        }
        others_in(self.row(posting.branch), posting) as u8
    }

    #[tactic(auto, using(crate::proofs::GridFacts::grid_put))]
    fn put(&mut self, posting: Posting) -> Result<(), RegisterFault> {
        posting.check(self.branch_count())?;
        let at = place(posting.person, posting.branch);
        let cell = self.cells[at];
        must(
            !has_bit(cell, posting.role),
            RegisterFault::Posted(posting.branch),
        )?;
        self.cells[at] = with_bit(cell, posting.role);
        Ok(())
    }

    fn take(&mut self, posting: Posting) -> Result<(), RegisterFault> {
        posting.check(self.branch_count())?;
        let at = place(posting.person, posting.branch);
        let cell = self.cells[at];
        must(
            has_bit(cell, posting.role),
            RegisterFault::NotPosted(posting.branch),
        )?;
        self.cells[at] = without_bit(cell, posting.role);
        Ok(())
    }

    fn clear(&mut self) {
        self.cells.fill(0);
    }

    ghost inside = { Prim.search (rules, tests) };

    ghost shares = { Prim.search (rules, tests) };
}
