// A register as a roll of records, of which each branch has a part as long as its share.
#![tactic(auto)]

mod part;
mod roll;

pub use roll::Roll;
