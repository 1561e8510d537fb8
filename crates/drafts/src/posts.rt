// The checks of a post that is added.
ghost use Rattle.std.specs.Prelude.{◌≡◌};
ghost use Rattle.drafts.specs.Posts.{add_result};

use fields::{BRANCHES, FieldFault, ROLES, offset};
use messages::{COUNT_AT, MessageFault, POSTS, POSTS_AT, Post};
use refusals::must;

// Says the first thing that keeps the post from being added behind those before it.
#[tactic(auto, using(messages::proofs::Apart::new_post_is))]
pub(crate) fn check_add(before: &[Post], post: Post) -> Result<(), MessageFault>
    ensures { result ≡ add_result before.now post }
{
    must(before.len() < POSTS, FieldFault::Value(COUNT_AT))?;
    let at = offset::<Post>(POSTS_AT, before.len() as u16) as usize;
    must((post.role as usize) < ROLES, FieldFault::Value(at))?;
    must((post.branch as usize) < BRANCHES, FieldFault::Value(at + 1))?;
    must(
        !before.contains(&post),
        MessageFault::Twice(before.len() as u8),
    )
}
