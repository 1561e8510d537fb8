// Posts beside each other.
ghost use Rattle.std.specs.Prelude.{◌≡◌, ◌≤◌, length};
ghost use Rattle.std.specs.List.{list_any};
ghost use Rattle.messages.specs.Apart.{apart_posts};
ghost use Rattle.messages.specs.Posts.{same_post};

use crate::fault::MessageFault;
use crate::post::Post;
use refusals::must;

impl Post {
    // Tells whether the post repeats one of those before it.
    fn repeats_one_of(self, before: &[Post]) -> bool
        ensures { result ≡ list_any (λ earlier. same_post earlier self) before.now }
    {
        before.contains(&self)
    }
}

// None of the posts repeats another.
#[tactic(auto, using(crate::proofs::Apart::looks_back))]
pub(crate) fn check_apart(posts: &[Post]) -> Result<(), MessageFault>
    requires { length posts.now ≤ 4 }
    ensures { result ≡ apart_posts posts.now }
{
    for (place, post) in posts.iter().enumerate() {
        must(
            !post.repeats_one_of(&posts[..place]),
            MessageFault::Twice(place as u8),
        )?;
    }
    Ok(())
}
