//! Lists of messages that are sent.

ghost use Rattle.std.specs.Prelude.{◌≡◌, ◌++◌, ◌∷◌, [], IfOk, OnOk, OnErr};
ghost use Rattle.at_base.specs.declared.outs.Out.TheVariants as out;

use at_base::outs::{Out, OutList, Post};
use std::alloc::{AllocError, Global};
use std::marker::Model;

/// Messages that are sent, in order.
#[derive(Debug, Drop)]
pub struct PostList {
    items: Vec<Post>,
}

impl Model for PostList {
    ghost use Rattle.std.specs.Prelude.{List};
    ghost use Rattle.at_base.specs.declared.outs.Post.{Post};

    ghost Value = { List Post };

    ghost view = { λ s. s.items.items };
}

impl PostList {
    /// No messages.
    pub fn new(alloc: Global) -> PostList
        ensures { result ≡ [] }
    {
        PostList {
            items: Vec::new(alloc),
        }
    }

    /// One message.
    pub fn alone(alloc: Global, post: Post) -> Result<PostList, AllocError>
        ensures { IfOk result (λ posts. posts ≡ post ∷ []) }
    {
        let mut posts = PostList::new(alloc);
        posts.push(post)?;
        Ok(posts)
    }

    /// The list of a `Vec`, without a copy.
    pub fn from_vec(items: Vec<Post>) -> PostList
        ensures { result ≡ items.items }
    {
        PostList { items }
    }

    /// The `Vec` of the list, without a copy.
    pub fn into_vec(self) -> Vec<Post>
        ensures { result.items ≡ self }
    {
        self.items
    }

    /// The list as a slice.
    pub fn as_slice(&self) -> &[Post]
        ensures { result.now ≡ self.now }
    {
        self.items.as_slice()
    }

    /// Adds one at the end. After an error the list is as before.
    pub fn push(&mut self, post: Post) -> Result<(), AllocError>
        ensures ok { OnOk result (self.new ≡ self.old ++ post ∷ []) }
        ensures err { OnErr result (self.new ≡ self.old) }
    {
        self.items.push(post)?;
        Ok(())
    }
}

impl Clone for PostList {
    ghost is_clone = { λ items copy. copy ≡ items };

    fn clone(&self) -> Result<PostList, AllocError> {
        Ok(PostList {
            items: self.items.clone()?,
        })
    }
}
