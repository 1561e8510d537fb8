// Who sends a message, and under which posts.
ghost use Rattle.std.specs.Prelude.{◌<◌, ◌≤◌};
ghost use Rattle.messages.specs.Posts.{Apart};

use crate::limits::POSTS;
use crate::post::Post;

// A person with one to four posts, no two of them the same. The places stay an array: a message is copied as it stands, and is read into
// memory of fixed size, with the empty post behind the last.
#[derive(Clone, Copy)]
pub struct Sitting {
    pub person: u8,
    pub count: u8,
    pub posts: [Post; POSTS],
    ghost some: { 0 < count },
    ghost few: { count ≤ 4 },
    ghost apart: { Apart posts count },
}
