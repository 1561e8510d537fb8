// A draft. How far it has come is its type, so that a step out of turn is a compile error.
mod filled;
mod steps;

pub use filled::Filled;

// There is no post yet.
#[derive(Clone, Copy)]
pub struct Empty;

// The memory begins with a message of so many bytes.
#[derive(Clone, Copy)]
pub struct Finished {
    length: usize,
}

// A message of a person, as far as it has come, and the memory that it is written to.
pub struct Draft<'m, S> {
    memory: &'m mut [u8],
    person: u8,
    state: S,
}
