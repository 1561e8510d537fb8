// A post, and how it stands in bytes.
ghost use Rattle.std.proofs.Common.{rules};
ghost use Rattle.messages.specs.Posts.{no_post, post_at, post_checked};

use crate::limits::POST;
use fields::{BRANCHES, FieldFault, ROLES, Record, byte, check_below};

// A role at a branch.
#[derive(Clone, Copy, Default, PartialEq, Eq)]
pub struct Post {
    pub role: u8,
    pub branch: u8,
}

impl Record for Post {
    type Scope = ();

    // The bytes of a post.
    const WIDTH: u8 = POST;

    ghost WIDTH = { 2 };

    ghost checked = { λ bytes _ at _. post_checked bytes at };

    ghost made = { post_at };

    ghost empty = { no_post };

    ghost blank = { Prim.search rules };

    // The role and then the branch are checked.
    fn check(bytes: &[u8], _scope: (), at: u32, _number: u16) -> Result<(), FieldFault> {
        check_below(bytes, at as usize, ROLES as u16)?;
        check_below(bytes, at as usize + 1, BRANCHES as u16)
    }

    // The post that stands at the offset.
    fn read(bytes: &[u8], at: u32) -> Post {
        Post {
            role: byte(bytes, at as usize),
            branch: byte(bytes, at as usize + 1),
        }
    }
}
