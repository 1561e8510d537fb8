// What a refusal tells, and how a row of checks gives its first refusal.
#![tactic(auto)]

mod check;
mod refusal;

pub use check::must;
pub use refusal::{Refusal, place};
