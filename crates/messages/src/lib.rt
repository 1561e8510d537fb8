// Messages: what they say, how they are read from bytes, and how they are written.
#![tactic(auto)]

mod arguments;
mod call;
mod fault;
mod kind;
mod limits;
mod message;
mod post;
mod posts;
mod reader;
mod sitting;
mod writer;

pub use call::Call;
pub use fault::MessageFault;
pub use limits::{BODY, COUNT_AT, MESSAGE, PERSON_AT, POST, POSTS, POSTS_AT};
pub use message::{Message, blank};
pub use post::Post;
pub use reader::{check, read};
pub use sitting::Sitting;
pub use writer::write;
