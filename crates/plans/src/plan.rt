// The plan: fixed arrays of records, each with its count.
ghost use Rattle.std.specs.Prelude.{◌≡◌, IfOk};
ghost use Rattle.refusals.specs.Checks.{verdict};
ghost use Rattle.orders.specs.Parents.{parents_checked};
ghost use Rattle.orders.specs.Rows.{rows_checked};
ghost use Rattle.plans.specs.Plan.{rows_of, parents_of, empty_plan};

use crate::branch::Branch;
use crate::line::Line;
use crate::piece::Piece;
use crate::role::Role;
use crate::set::Set;
use fields::{BRANCHES, LINES, PIECES, ROLES, SETS};
use orders::{Parents, ParentsFault, Rows, RowsFault};

// Each list is an array with its count beside it, as plans are to be (docs/DECISIONS.md, "Forms"): fixed memory, written as a whole.
#[derive(Default, Drop)]
pub struct Plan {
    pub branches: [Branch; BRANCHES],
    pub branch_count: u8,
    pub roles: [Role; ROLES],
    pub role_count: u8,
    pub principal: u8,
    pub grants: [Line; LINES],
    pub grant_count: u8,
    pub takes: [Line; LINES],
    pub take_count: u8,
    pub sets: [Set; SETS],
    pub set_count: u8,
    pub pieces: [Piece; PIECES],
    pub piece_count: u16,
}

impl Plan {
    // A plan that holds nothing: a place to read into.
    #[tactic(auto, unfolding(crate::specs::Plan::empty_plan))]
    pub fn empty() -> Plan
        ensures { result ≡ empty_plan }
    {
        Plan::default()
    }

    // The order of the branches, each under its parent.
    pub fn branch_order(&self) -> Result<Parents, ParentsFault>
        ensures answer { verdict result ≡ parents_checked (parents_of self.now.branches) self.now.branch_count }
        ensures holds { IfOk result (λ o. (o.parents ≡ parents_of self.now.branches) × (o.count ≡ self.now.branch_count)) }
    {
        Parents::new(parents_of(&self.branches), self.branch_count)
    }

    // The order of the roles, each with its row.
    pub fn role_order(&self) -> Result<Rows, RowsFault>
        ensures answer { verdict result ≡ rows_checked 16 (rows_of self.now.roles) self.now.role_count }
        ensures holds { IfOk result (λ o. (o.rows ≡ rows_of self.now.roles) × (o.count ≡ self.now.role_count)) }
    {
        Rows::new(rows_of(&self.roles), self.role_count)
    }
}

// The parent of each branch.
fn parents_of(branches: &[Branch; BRANCHES]) -> [u8; BRANCHES]
    ensures { result ≡ parents_of branches.now }
{
    branches.map(|branch| branch.parent)
}

// The row of each role, for the plan's order and for the reader's check.
pub(crate) fn rows_of(roles: &[Role; ROLES]) -> [u16; ROLES]
    ensures { result ≡ rows_of roles.now }
{
    roles.map(|role| role.row)
}
