// A role: the roles at or below it, the kinds of branches where it may stand, and how many may be posted to it.
ghost use Rattle.std.specs.Prelude.{◌≡◌};
ghost use Rattle.std.proofs.Common.{rules};
ghost use Rattle.plans.specs.Role.{may_stand, role_checked, role_at, no_role};

use crate::branch::Branch;
use crate::layout::Layout;
use fields::{FieldFault, PERSONS, Record, byte, field, two};
use orders::has_bit;

#[derive(Clone, Copy, Default)]
pub struct Role {
    // bit i: role i is at or below this one
    pub row: u16,
    // bit i: it may stand at branches of kind i
    pub kinds: u8,
    // at one branch, as many persons as this may be posted to it
    pub limit: u8,
}

impl Role {
    // Tells whether the role may stand at the branch.
    pub fn may_stand(self, branch: Branch) -> bool
        ensures { result ≡ may_stand self branch }
    {
        has_bit(self.kinds as u16, branch.kind)
    }
}

impl Record for Role {
    type Scope = Layout;

    const WIDTH: u8 = 4;

    ghost WIDTH = { 4 };

    ghost checked = { role_checked };

    ghost made = { role_at };

    ghost empty = { no_role };

    fn check(bytes: &[u8], _layout: Layout, at: u32, _number: u16) -> Result<(), FieldFault> {
        let at = at as usize;
        field(bytes, at, 2, true)?;
        field(bytes, at + 2, 1, true)?;
        let limit = byte(bytes, at + 3);
        field(bytes, at + 3, 1, (1..=PERSONS).contains(&limit))
    }

    fn read(bytes: &[u8], at: u32) -> Role {
        let at = at as usize;
        Role {
            row: two(bytes, at),
            kinds: byte(bytes, at + 2),
            limit: byte(bytes, at + 3),
        }
    }

    ghost blank = { Prim.search rules };
}
