// Orders on numbered members: by each member's parent, and by a row of bits for each member.
#![tactic(auto)]

mod masks;
mod order;
mod parents;
mod rows;

pub use masks::{has_bit, names_members};
pub use order::Order;
pub use parents::{MOST_PARENTS, Parents, ParentsFault};
pub use rows::{MOST_ROWS, Rows, RowsFault};
