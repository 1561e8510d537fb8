// The fields of a plan or a message: where they stand in the bytes, and the checks that every one of them meets.
#![tactic(auto)]

mod bytes;
mod checks;
mod fault;
mod limits;
mod record;

pub use bytes::{byte, two};
pub use checks::{check_below, check_end, field, header};
pub use fault::FieldFault;
pub use limits::{
    BRANCH_KINDS, BRANCHES, LINES, OPERATIONS, PERSONS, PIECE_KINDS, PIECES, ROLES, SETS,
};
pub use record::{Record, check_list, offset, read_list};
