// Registers: who is posted to which role at which branch, and how many postings a branch may have.
#![tactic(auto)]

mod bits;
mod fault;
mod posting;
mod register;

pub use bits::{with_bit, without_bit};
pub use fault::RegisterFault;
pub use posting::Posting;
pub use register::Register;
