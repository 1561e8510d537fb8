// The numbers of the message format.

// The most posts of a sitting.
pub const POSTS: usize = 4;

// The most bytes of a message's body, and of a whole message.
pub const BODY: u16 = 14;

pub const MESSAGE: usize = 17;

// The version of the format.
pub(crate) const VERSION: u8 = 1;

// The offsets of the fields that stand in every message.
pub(crate) const CALL_AT: usize = 3;

pub const PERSON_AT: usize = 4;

pub const COUNT_AT: usize = 5;

pub const POSTS_AT: u16 = 6;

// The bytes of a body before its posts, and of each post.
pub(crate) const LEAD: u8 = 3;

pub const POST: u8 = 2;
