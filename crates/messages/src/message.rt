// A message as it was read.
ghost use Rattle.std.specs.Prelude.{◌≡◌, replicate};
ghost use Rattle.messages.specs.Posts.{no_post};
ghost use Rattle.messages.specs.declared.call.Call.TheVariants.{Sit};

use crate::call::Call;
use crate::limits::POSTS;
use crate::post::Post;
use crate::sitting::Sitting;

// A call, and who makes it.
#[derive(Clone, Copy)]
pub struct Message {
    pub sitting: Sitting,
    pub call: Call,
}

// A place to read a message into: person 0 sits under one post. No `Default`: where there are ghost
// fields none is derived, and by hand it would be this function.
pub fn blank() -> Message
    ensures person { result.sitting.person ≡ 0 }
    ensures count { result.sitting.count ≡ 1 }
    ensures posts { result.sitting.posts ≡ replicate 4 no_post }
    ensures call { result.call ≡ Sit }
{
    Message {
        sitting: Sitting {
            person: 0,
            count: 1,
            posts: [Post::default(); POSTS],
        },
        call: Call::Sit,
    }
}
