// A line of the grant list or of the take list: who governs whom, and what the person must hold and must not.
ghost use Rattle.std.specs.Prelude.{◌≡◌};
ghost use Rattle.std.specs.List.{list_any};
ghost use Rattle.std.proofs.Common.{rules};
ghost use Rattle.plans.specs.Line.{same_pair, line_checked, line_at, no_line};

use crate::layout::Layout;
use fields::{FieldFault, Record, byte, check_below, field, two};
use orders::names_members;

#[derive(Clone, Copy, Default)]
pub struct Line {
    pub governing: u8,
    pub governed: u8,
    // bit i: role i must be held
    pub needed: u16,
    // bit i: role i must not be held
    pub barred: u16,
}

impl Line {
    // Tells whether both lines have the same governing and the same governed role. No derived `==`, which would compare all four
    // fields; `(self.governing, self.governed) == (other.governing, other.governed)` is no plainer.
    pub fn same_pair(self, other: Line) -> bool
        ensures { result ≡ same_pair self other }
    {
        self.governing == other.governing && self.governed == other.governed
    }

    // Tells whether one of the lines has the same pair.
    pub(crate) fn repeats_pair_in(self, lines: &[Line]) -> bool
        ensures { result ≡ list_any (λ line. same_pair line self) lines.now }
    {
        lines.iter().any(|line| line.same_pair(self))
    }
}

impl Record for Line {
    type Scope = Layout;

    const WIDTH: u8 = 6;

    ghost WIDTH = { 6 };

    ghost checked = { line_checked };

    ghost made = { line_at };

    ghost empty = { no_line };

    fn check(bytes: &[u8], layout: Layout, at: u32, _number: u16) -> Result<(), FieldFault> {
        let at = at as usize;
        let roles = layout.roles.count;
        check_below(bytes, at, roles)?;
        check_below(bytes, at + 1, roles)?;
        field(bytes, at + 2, 2, names_members(two(bytes, at + 2), roles))?;
        field(bytes, at + 4, 2, names_members(two(bytes, at + 4), roles))
    }

    fn read(bytes: &[u8], at: u32) -> Line {
        let at = at as usize;
        Line {
            governing: byte(bytes, at),
            governed: byte(bytes, at + 1),
            needed: two(bytes, at + 2),
            barred: two(bytes, at + 4),
        }
    }

    ghost blank = { Prim.search rules };
}
