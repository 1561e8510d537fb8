// One line of text for each message: the call's word, three numbers and a newline.
#![tactic(auto)]

mod line;
mod word;

pub use line::{LINE, line_of_refusal, write};
pub use word::Word;
