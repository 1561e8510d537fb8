// One search for every kind of record: the first of a lent slice that fits.
#![tactic(auto)]

mod records;

pub use records::{Sought, first};
