// The posts of a draft, and the states that one more post may be added to.
ghost use Rattle.std.specs.Prelude.{◌≡◌, ◌+◌, ◌<◌, ◌≤◌, List, [], ◌∷◌, ◌++◌, length, take, Ok};
ghost use Rattle.messages.specs.Apart.{new_post};
ghost use Rattle.messages.specs.declared.post.Post.{Post as Posted};

use crate::draft::Empty;
use arrayvec::ArrayVec;
use messages::{Call, Message, POSTS, Post, Sitting};
use std::marker::Model;

// One to four posts, no two of them the same.
#[derive(Drop)]
pub struct Filled {
    posts: ArrayVec<Post, POSTS>,
}

impl Model for Filled {
    ghost use Rattle.std.specs.Prelude.{◌<◌, List, length};
    ghost use Rattle.messages.specs.Posts.{Apart};
    ghost use Rattle.messages.specs.declared.post.Post.{Post as Posted};

    ghost Value = { List Posted };

    ghost view = { λ filled. filled.posts.items };

    ghost invariant = { λ filled. (0 < length filled.posts.items) × Apart filled.posts.items (length filled.posts.items) };
}

impl Filled {
    // The sitting of the person under the posts.
    fn seat(&self, person: u8) -> Sitting
        ensures person { result.person ≡ person }
        ensures posts { take result.count result.posts ≡ self.now }
    {
        let mut posts = [Post::default(); POSTS];
        posts[..self.posts.len()].copy_from_slice(&self.posts);
        Sitting {
            person,
            count: self.posts.len() as u8,
            posts,
        }
    }

    // The message of the person, with the call.
    pub(crate) fn message(&self, person: u8, call: Call) -> Message
        ensures person { result.sitting.person ≡ person }
        ensures posts { take result.sitting.count result.sitting.posts ≡ self.now }
        ensures call { result.call ≡ call }
    {
        Message {
            sitting: self.seat(person),
            call,
        }
    }
}

// A state that a post may be added to. No other crate can name the trait: there are the two below.
pub trait TakesPosts: Drop {
    // the posts so far
    ghost posts: { Self → List Posted };

    // The posts so far.
    fn so_far(&self) -> &[Post]
        ensures { result.now ≡ posts self.now };

    // The same posts, and one more behind them.
    fn with(self, post: Post) -> Filled
        requires room { length (posts self) < 4 }
        requires new { new_post (posts self) post ≡ Ok tt }
        ensures { result ≡ posts self ++ post ∷ [] };
}

impl TakesPosts for Empty {
    ghost posts = { λ _. [] };

    fn so_far(&self) -> &[Post] {
        &[]
    }

    fn with(self, post: Post) -> Filled {
        let mut posts = ArrayVec::new();
        posts.push(post);
        Filled { posts }
    }
}

impl TakesPosts for Filled {
    ghost posts = { λ filled. filled };

    fn so_far(&self) -> &[Post] {
        &self.posts
    }

    #[tactic(auto, using(crate::proofs::Apart::apart_more))]
    fn with(mut self, post: Post) -> Filled {
        self.posts.push(post);
        self
    }
}
