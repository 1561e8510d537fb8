// A branch: the publisher, which is branch 0 and stands at the top, a centre or a class.
ghost use Rattle.std.specs.Prelude.{◌≡◌};
ghost use Rattle.std.proofs.Common.{rules};
ghost use Rattle.plans.specs.Branch.{may_be_parent, branch_checked, branch_at, no_branch};

use crate::layout::Layout;
use fields::{BRANCH_KINDS, FieldFault, Record, byte, check_below, field};

#[derive(Clone, Copy, Default)]
pub struct Branch {
    // the branch that it stands right under; for the top, itself
    pub parent: u8,
    pub kind: u8,
}

// Tells whether the branch of this number may name this parent.
fn may_be_parent(parent: u8, number: u16) -> bool
    ensures { result ≡ may_be_parent parent number }
{
    if number == 0 {
        parent == 0
    } else {
        (parent as u16) < number
    }
}

impl Record for Branch {
    type Scope = Layout;

    const WIDTH: u8 = 2;

    ghost WIDTH = { 2 };

    ghost checked = { branch_checked };

    ghost made = { branch_at };

    ghost empty = { no_branch };

    fn check(bytes: &[u8], _layout: Layout, at: u32, number: u16) -> Result<(), FieldFault> {
        let at = at as usize;
        field(bytes, at, 1, may_be_parent(byte(bytes, at), number))?;
        check_below(bytes, at + 1, BRANCH_KINDS.into())
    }

    fn read(bytes: &[u8], at: u32) -> Branch {
        let at = at as usize;
        Branch {
            parent: byte(bytes, at),
            kind: byte(bytes, at + 1),
        }
    }

    ghost blank = { Prim.search rules };
}
