//! What the steps of a node give.

ghost use Rattle.std.specs.Prelude.{◌≡◌, ◌++◌, ◌∷◌, [], None, OnOk, false, length};
ghost use Rattle.at_base.specs.declared.outs.Out.TheVariants as outs;
ghost use Rattle.world_laws.specs.Moves.{nothing};
ghost use Rattle.world_laws.specs.Walks.{with_fate, with_out};

use crate::luck::Luck;
use at_base::message::Message;
use at_base::outs::{Effects, Out, Post};
use std::alloc::{AllocError, Global};
use std::marker::Model;
use std::mem::replace;

/// What is left where a post was taken out.
fn no_post() -> Post {
    Post {
        own: None,
        to: None,
        id: None,
        relates: None,
        from: None,
        reply: None,
        message: Message::WorkDone,
    }
}

/// An answer on the connection.
#[derive(Debug)]
pub struct Answer {
    /// The HTTP status.
    pub status: u16,
    /// The envelope in it.
    pub reply: Option<Post>,
}

impl Drop for Answer {
    fn drop(self) {
        let Answer {
            status: _status,
            reply: _reply,
        } = self;
    }
}

/// Posts, in order.
#[derive(Debug, Drop)]
pub struct Posts {
    items: Vec<Post>,
}

impl Model for Posts {
    ghost use Rattle.std.specs.Prelude.{List};
    ghost use Rattle.at_base.specs.declared.outs.Post.{Post};

    ghost Value = { List Post };

    ghost view = { λ p. p.items.items };
}

impl Posts {
    /// No posts.
    pub fn new(alloc: Global) -> Posts
        ensures { result ≡ [] }
    {
        Posts {
            items: Vec::new(alloc),
        }
    }

    /// How many posts there are.
    pub fn len(&self) -> usize
        ensures { result ≡ length self.now }
    {
        self.items.len()
    }

    /// The `Vec` of the posts, without a copy.
    pub fn into_vec(self) -> Vec<Post>
        ensures { result.items ≡ self }
    {
        self.items
    }

    /// Adds one at the end.
    pub fn push(&mut self, post: Post) -> Result<(), AllocError>
        ensures { OnOk result (self.new ≡ self.old ++ post ∷ []) }
    {
        self.items.push(post)?;
        Ok(())
    }
}

/// What a step that counted gives.
#[derive(Debug)]
pub struct Taken {
    pub effects: Effects,
    /// The answer, whether its call was done or failed.
    pub answer: Option<Answer>,
    /// The posts that were sent.
    pub posts: Posts,
}

impl Drop for Taken {
    fn drop(self) {
        let Taken {
            effects: _effects,
            answer: _answer,
            posts: _posts,
        } = self;
    }
}

impl Taken {
    /// Its parts.
    pub fn into_parts(self) -> (Effects, Option<Answer>, Posts)
        ensures { result ≡ (self.effects, self.answer, self.posts) }
    {
        let Taken {
            effects,
            answer,
            posts,
        } = self;
        (effects, answer, posts)
    }

    /// Of a step with these effects nothing is sent yet.
    pub fn new(alloc: Global, effects: Effects) -> Taken
        ensures { result ≡ record { effects = effects; answer = None; posts = [] } }
    {
        Taken {
            effects,
            answer: None,
            posts: Posts::new(alloc),
        }
    }

    /// The answer, unless there is one.
    fn answer_with(&mut self, status: u16, reply: Option<Post>)
        ensures { self.new ≡ with_out (outs.Answer status reply) self.old }
    {
        if self.answer.is_none() {
            self.answer = Some(Answer { status, reply });
        }
    }

    /// One more is sent.
    pub fn add(&mut self, out: Out) -> Result<(), AllocError>
        ensures { OnOk result (self.new ≡ with_out out self.old) }
    {
        let mut out = out;
        match &mut out {
            Out::Post(post) => self.posts.push(replace(post, no_post())),
            Out::Answer { status, reply } => {
                self.answer_with(*status, reply.take());
                Ok(())
            }
        }
    }

    /// The call of one more fails.
    pub fn lose(&mut self, out: Out)
        ensures { self.new ≡ with_fate false out self.old }
    {
        let mut out = out;
        match &mut out {
            Out::Post(_) => {}
            Out::Answer { status, reply } => self.answer_with(*status, reply.take()),
        }
    }
}

/// What steps gave, in order.
#[derive(Debug, Drop)]
pub struct TakenList {
    items: Vec<Taken>,
}

impl Model for TakenList {
    ghost use Rattle.std.specs.Prelude.{List};
    ghost use Rattle.world_laws.specs.declared.step_outs.Taken.{Taken as Known};

    ghost Value = { List Known };

    ghost view = { λ l. l.items.items };
}

impl TakenList {
    /// No step.
    pub fn new(alloc: Global) -> TakenList
        ensures { result ≡ [] }
    {
        TakenList {
            items: Vec::new(alloc),
        }
    }

    /// The `Vec` of the list, without a copy.
    pub fn into_vec(self) -> Vec<Taken>
        ensures { result.items ≡ self }
    {
        self.items
    }

    /// Adds one at the end.
    pub fn push(&mut self, taken: Taken) -> Result<(), AllocError>
        ensures { OnOk result (self.new ≡ self.old ++ taken ∷ []) }
    {
        self.items.push(taken)?;
        Ok(())
    }
}

/// What an event gives at its node: what each step that counted gave, and then what going down lost; and what it left of its
/// luck.
#[derive(Debug)]
pub struct Moved {
    pub taken: TakenList,
    pub lost: Effects,
    pub left: Luck,
}

impl Drop for Moved {
    fn drop(self) {
        let Moved {
            taken: _taken,
            lost: _lost,
            left: _left,
        } = self;
    }
}

impl Moved {
    /// Its parts.
    pub fn into_parts(self) -> (TakenList, Effects, Luck)
        ensures { result ≡ (self.taken, self.lost, self.left) }
    {
        let Moved { taken, lost, left } = self;
        (taken, lost, left)
    }

    /// No step.
    pub fn nothing(alloc: Global) -> Moved
        ensures { result ≡ nothing }
    {
        Moved {
            taken: TakenList::new(alloc),
            lost: Effects::from_vec(Vec::new(alloc)),
            left: Luck::none(alloc),
        }
    }
}
