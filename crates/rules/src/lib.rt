// The rules: what each call is answered and what it changes, as definitions (specs/), and the promises about them.
#![tactic(auto)]

mod answer;
mod fault;
mod laws;
mod promises;

pub use answer::{Accepted, Answer, told};
pub use fault::EngineFault;
pub use laws::{kept_within_reach, told_as_marked};
pub use promises::{
    accepted_when_allowed, answered_for_its_reason, begins_founded, counted_throughout,
    decided_as_modelled, makes_its_change, refused_changes_nothing,
};
