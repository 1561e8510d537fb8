// The plan: its records, the reader of plan files, and the two orders that a plan gives.
#![tactic(auto)]

mod branch;
mod fault;
mod layout;
mod line;
mod piece;
mod plan;
mod reader;
mod role;
mod set;

pub use branch::Branch;
pub use fault::PlanFault;
pub use layout::{Layout, Span};
pub use line::Line;
pub use piece::Piece;
pub use plan::Plan;
pub use reader::read;
pub use role::Role;
pub use set::Set;
