// A register as a grid of cells: a mask of roles for each branch and person.
#![tactic(auto)]

mod grid;

pub use grid::Grid;
