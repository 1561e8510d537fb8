// Where the lists of a plan stand in its bytes.
ghost use Rattle.std.specs.Prelude.{◌≡◌, ◌+◌, ◌*◌, ◌^◌, ◌<◌};
ghost use Rattle.plans.specs.Layout.{behind, list_at, layout_of};

use crate::branch::Branch;
use crate::line::Line;
use crate::role::Role;
use crate::set::Set;
use fields::{Record, byte, two};

// A list: the offset of its count, the offset of its first record, and the count.
#[derive(Clone, Copy)]
pub struct Span {
    pub at: u16,
    pub first: u16,
    pub count: u16,
}

// The lists of a plan and the offset of the principal role, by what the counts in the bytes say.
#[derive(Clone, Copy)]
pub struct Layout {
    pub branches: Span,
    pub roles: Span,
    pub principal: u16,
    pub grants: Span,
    pub takes: Span,
    pub sets: Span,
    pub pieces: Span,
}

impl Span {
    // The offset right behind the last record of the list.
    fn behind<T: Record>(self) -> u16
        requires { self.first + T.WIDTH * self.count < 2 ^ 16 }
        ensures { result ≡ behind self T.WIDTH }
    {
        self.first + u16::from(T::WIDTH) * self.count
    }
}

// The list at an offset, its count one byte.
fn list(bytes: &[u8], at: u16) -> Span
    requires { at < 65535 }
    ensures is { result ≡ list_at bytes.now at }
    ensures begins { result.first ≡ at + 1 }
    ensures small { result.count < 256 }
{
    Span {
        at,
        first: at + 1,
        count: byte(bytes, at as usize) as u16,
    }
}

// Finds the lists from the counts alone; whether they fit, and whether the counts are allowed, is for the checks to say.
pub(crate) fn lay_out(bytes: &[u8]) -> Layout
    ensures { result ≡ layout_of bytes.now }
{
    let branches = list(bytes, 3);
    let roles = list(bytes, branches.behind::<Branch>());
    let principal = roles.behind::<Role>();
    let grants = list(bytes, principal + 1);
    let takes = list(bytes, grants.behind::<Line>());
    let sets = list(bytes, takes.behind::<Line>());
    let at = sets.behind::<Set>();
    let pieces = Span {
        at,
        first: at + 2,
        count: two(bytes, at as usize),
    };
    Layout {
        branches,
        roles,
        principal,
        grants,
        takes,
        sets,
        pieces,
    }
}
