// Drafts: a message is put together step by step, over lent memory that gets its bytes at the end.
#![tactic(auto)]

mod draft;
mod posts;

pub use draft::{Draft, Empty, Filled, Finished};
