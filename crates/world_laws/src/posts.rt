//! What a world keeps of posts and effects, and what its steps give.

ghost use Rattle.std.specs.Prelude.{◌≡◌, ◌++◌, ◌∷◌, [], OnOk, option_copied};
ghost use Rattle.at_model.specs.World.{nth};

use crate::step_outs::Answer;
use at_base::outs::{Effect, Effects, Post};
use std::alloc::{AllocError, Global};
use std::marker::Model;

/// A message that was posted.
#[derive(Debug)]
pub struct Posted {
    /// The number of the node that posted it.
    pub sender: u8,
    /// The number of the node that its address names, or none.
    pub receiver: Option<u8>,
    pub content: Post,
}

impl Model for Posted {
    ghost use Rattle.at_model.specs.World.{Posted as Known};

    ghost Value = { Known };

    ghost view = { λ p. record { sender = p.sender; receiver = p.receiver; content = p.content } };
}

impl Drop for Posted {
    fn drop(self) {
        let Posted {
            sender: _sender,
            receiver: _receiver,
            content: _content,
        } = self;
    }
}

/// An effect on a node.
#[derive(Clone, Copy, Debug)]
pub struct NodeEffect {
    pub node: u8,
    pub what: Effect,
}

impl Model for NodeEffect {
    ghost use Rattle.at_model.specs.World.{Happened};

    ghost Value = { Happened };

    ghost view = { λ e. record { node = e.node; what = e.what } };

    ghost inverse = { λ h. record { node = h.node; what = h.what } };
}

/// What a step that counted gave.
#[derive(Debug)]
pub struct Counted {
    pub effects: Effects,
    /// The answer on the connection, whether its call was done or failed.
    pub answer: Option<Answer>,
    /// The number of the first message that it posted, if it posted one.
    pub first: usize,
    /// How many messages it posted, numbered from that one on.
    pub posts: usize,
}

impl Drop for Counted {
    fn drop(self) {
        let Counted {
            effects: _effects,
            answer: _answer,
            first: _first,
            posts: _posts,
        } = self;
    }
}

/// What the steps of an event gave, in order.
#[derive(Debug, Drop)]
pub struct Steps {
    items: Vec<Counted>,
}

impl Model for Steps {
    ghost use Rattle.std.specs.Prelude.{List};
    ghost use Rattle.world_laws.specs.declared.posts.Counted.{Counted as Known};

    ghost Value = { List Known };

    ghost view = { λ s. s.items.items };
}

impl Steps {
    /// No step.
    pub fn new(alloc: Global) -> Steps
        ensures { result ≡ [] }
    {
        Steps {
            items: Vec::new(alloc),
        }
    }

    /// The steps as a slice.
    pub fn as_slice(&self) -> &[Counted]
        ensures { result.now ≡ self.now }
    {
        self.items.as_slice()
    }

    /// Adds one at the end.
    pub fn push(&mut self, counted: Counted) -> Result<(), AllocError>
        ensures { OnOk result (self.new ≡ self.old ++ counted ∷ []) }
    {
        self.items.push(counted)?;
        Ok(())
    }
}

/// The message of this number, from 1.
pub fn posted_at(posted: &[Posted], number: u64) -> Option<&Posted>
    ensures { option_copied result ≡ nth number posted.now }
{
    if number == 0 {
        return None;
    }
    posted.get(number as usize - 1)
}
