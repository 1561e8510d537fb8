// A set of roles of which one person may have only so many at one branch.
ghost use Rattle.std.proofs.Common.{rules};
ghost use Rattle.plans.specs.Set.{set_checked, set_at, no_set};

use crate::layout::Layout;
use fields::{FieldFault, Record, byte, field, two};
use orders::names_members;

#[derive(Clone, Copy, Default)]
pub struct Set {
    // bit i: role i is in the set
    pub roles: u16,
    // as many of them as this are too many
    pub bound: u8,
}

impl Record for Set {
    type Scope = Layout;

    const WIDTH: u8 = 3;

    ghost WIDTH = { 3 };

    ghost checked = { set_checked };

    ghost made = { set_at };

    ghost empty = { no_set };

    fn check(bytes: &[u8], layout: Layout, at: u32, _number: u16) -> Result<(), FieldFault> {
        let at = at as usize;
        let roles = two(bytes, at);
        field(bytes, at, 2, names_members(roles, layout.roles.count))?;
        let bound = byte(bytes, at + 2);
        let allowed = (2..=roles.count_ones()).contains(&u32::from(bound));
        field(bytes, at + 2, 1, allowed)
    }

    fn read(bytes: &[u8], at: u32) -> Set {
        let at = at as usize;
        Set {
            roles: two(bytes, at),
            bound: byte(bytes, at + 2),
        }
    }

    ghost blank = { Prim.search rules };
}
