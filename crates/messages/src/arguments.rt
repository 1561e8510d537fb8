// The arguments of a call as they stand in bytes, behind the posts.
ghost use Rattle.std.specs.Prelude.{◌≡◌};
ghost use Rattle.messages.specs.Arguments.{arguments_checked, arguments_width, call_at};
ghost use Rattle.messages.specs.Calls.{kind_number};
ghost use Rattle.messages.specs.Numbers.{piece_checked};

use crate::call::Call;
use crate::kind::CallKind;
use fields::{
    BRANCHES, FieldFault, OPERATIONS, PERSONS, PIECE_KINDS, PIECES, ROLES, byte, check_below,
    field, two,
};

// How many bytes the arguments of a call of the kind have.
pub(crate) fn width(kind: CallKind) -> u8
    ensures { result ≡ arguments_width (kind_number kind) }
{
    match kind {
        CallKind::Decide
        | CallKind::Grant
        | CallKind::Take
        | CallKind::Throughout
        | CallKind::Permit
        | CallKind::Forbid => 3,
        CallKind::Enrol | CallKind::Strike => 2,
        CallKind::Open | CallKind::Close => 1,
        CallKind::Sit => 0,
    }
}

// A piece's number stands in the two bytes at the offset; `check_below` is for one byte.
fn check_piece(bytes: &[u8], at: usize) -> Result<(), FieldFault>
    ensures { result ≡ piece_checked bytes.now at }
{
    field(bytes, at, 2, (two(bytes, at) as usize) < PIECES)
}

// Checks the arguments of a call of the kind, from the offset on.
pub(crate) fn check_arguments(bytes: &[u8], kind: CallKind, at: u32) -> Result<(), FieldFault>
    ensures { result ≡ arguments_checked bytes.now (kind_number kind) at }
{
    let first = at as usize;
    match kind {
        CallKind::Decide => {
            check_below(bytes, first, OPERATIONS as u16)?;
            check_piece(bytes, first + 1)
        }
        CallKind::Grant | CallKind::Take | CallKind::Throughout => {
            check_below(bytes, first, PERSONS as u16)?;
            check_below(bytes, first + 1, ROLES as u16)?;
            check_below(bytes, first + 2, BRANCHES as u16)
        }
        CallKind::Enrol | CallKind::Strike => {
            check_below(bytes, first, PERSONS as u16)?;
            check_below(bytes, first + 1, BRANCHES as u16)
        }
        CallKind::Open | CallKind::Close => check_below(bytes, first, BRANCHES as u16),
        CallKind::Permit | CallKind::Forbid => {
            check_below(bytes, first, OPERATIONS as u16)?;
            check_below(bytes, first + 1, PIECE_KINDS as u16)?;
            check_below(bytes, first + 2, ROLES as u16)
        }
        CallKind::Sit => Ok(()),
    }
}

// The call of the kind, its arguments read from the offset on.
pub(crate) fn read_call(bytes: &[u8], kind: CallKind, at: u32) -> Call
    ensures { result ≡ call_at bytes.now (kind_number kind) at }
{
    let at = at as usize;
    let first = byte(bytes, at);
    let second = byte(bytes, at + 1);
    let third = byte(bytes, at + 2);
    match kind {
        CallKind::Decide => Call::Decide {
            operation: first,
            piece: two(bytes, at + 1),
        },
        CallKind::Grant => Call::Grant {
            person: first,
            role: second,
            branch: third,
        },
        CallKind::Take => Call::Take {
            person: first,
            role: second,
            branch: third,
        },
        CallKind::Throughout => Call::Throughout {
            person: first,
            role: second,
            branch: third,
        },
        CallKind::Enrol => Call::Enrol {
            person: first,
            branch: second,
        },
        CallKind::Strike => Call::Strike {
            person: first,
            branch: second,
        },
        CallKind::Open => Call::Open { branch: first },
        CallKind::Close => Call::Close { branch: first },
        CallKind::Permit => Call::Permit {
            operation: first,
            kind: second,
            role: third,
        },
        CallKind::Forbid => Call::Forbid {
            operation: first,
            kind: second,
            role: third,
        },
        CallKind::Sit => Call::Sit,
    }
}
