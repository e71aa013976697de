//! What a step gives: an answer on the connection, posts, and effects.

ghost use Rattle.std.specs.Prelude.{◌≡◌, ◌++◌, ◌∷◌, [], OnOk, OnErr};
ghost use Rattle.std.specs.Cmp.Lexicographic.{pointwise, lists_per, lists_equiv};

use crate::epr::{Epr, Reply};
use crate::id::Id;
use crate::message::{Message, cloned_option};
use crate::notice::Kind;
use crate::target::Target;
use crate::text::Text;
use std::alloc::AllocError;
use std::marker::Model;

/// A message that is sent.
#[derive(Debug, PartialEq, Eq)]
pub struct Post {
    /// On a notification the seat, leaf, link, completion seat or activity that sends it; none on all else, and on an
    /// answer of a table's None column. It isn't written.
    pub own: Option<Target>,
    /// Where it goes; none on an answer on the connection.
    pub to: Option<Epr>,
    /// Its MessageID.
    pub id: Option<Text>,
    /// The MessageID that it answers.
    pub relates: Option<Text>,
    /// The sender's own endpoint, where the message names it.
    pub from: Option<Epr>,
    /// The reply endpoint that it names.
    pub reply: Option<Reply>,
    pub message: Message,
}

impl Drop for Post {
    fn drop(self) {
        let Post {
            own: _own,
            to: _to,
            id: _id,
            relates: _relates,
            from: _from,
            reply: _reply,
            message: _message,
        } = self;
    }
}

/// One thing that a step sends.
#[derive(Debug, PartialEq, Eq)]
pub enum Out {
    /// The answer on the connection: the HTTP status, and the envelope in it.
    Answer { status: u16, reply: Option<Post> },
    Post(Post),
}

impl Drop for Out {
    fn drop(self) {
        match self {
            Out::Answer {
                status: _status,
                reply: _reply,
            } => {}
            Out::Post(_held) => {}
        }
    }
}

/// How a transaction or leaf ended.
#[derive(Clone, Copy, Debug, PartialEq, Eq)]
pub enum Ending {
    Committed,
    Aborted,
    /// It was gone, before its vote or decision, when its node went down.
    Lost,
}

/// What an initiator is told of its activity.
#[derive(Clone, Copy, Debug, PartialEq, Eq)]
pub enum Told {
    Committed,
    Aborted,
    /// The coordinator knows of no such transaction.
    Unknown,
    /// The context or the registration was refused.
    Refused,
}

/// What happened for good.
#[derive(Clone, Copy, Debug, PartialEq, Eq)]
pub enum Effect {
    /// A root transaction ended.
    Root { id: Id, what: Ending },
    /// A subordinate transaction ended.
    Sub { id: Id, what: Ending },
    /// A leaf ended.
    Leaf { id: Id, kind: Kind, what: Ending },
    /// An activity ended.
    Told { id: Id, what: Told },
}

impl Clone for Post {
    ghost is_clone = { λ post copy. copy ≡ post };

    fn clone(&self) -> Result<Post, AllocError> {
        let to = cloned_option(&self.to)?;
        let id = cloned_option(&self.id)?;
        let relates = cloned_option(&self.relates)?;
        let from = cloned_option(&self.from)?;
        let reply = cloned_option(&self.reply)?;
        let message = self.message.clone()?;
        Ok(Post {
            own: self.own,
            to,
            id,
            relates,
            from,
            reply,
            message,
        })
    }
}

impl Clone for Out {
    ghost is_clone = { λ out copy. copy ≡ out };

    fn clone(&self) -> Result<Out, AllocError> {
        match self {
            Out::Answer { status, reply } => Ok(Out::Answer {
                status: *status,
                reply: cloned_option(reply)?,
            }),
            Out::Post(post) => Ok(Out::Post(post.clone()?)),
        }
    }
}

/// What a step sends, in order: at most one answer, then posts.
#[derive(Debug, Drop)]
pub struct OutList {
    items: Vec<Out>,
}

impl Model for OutList {
    ghost use Rattle.std.specs.Prelude.{List};
    ghost use Rattle.at_base.specs.declared.outs.Out.{Out};

    ghost Value = { List Out };

    ghost view = { λ s. s.items.items };
}

impl OutList {
    /// The list of a `Vec`, without a copy.
    pub fn from_vec(items: Vec<Out>) -> OutList
        ensures { result ≡ items.items }
    {
        OutList { items }
    }

    /// The `Vec` of the list, without a copy.
    pub fn into_vec(self) -> Vec<Out>
        ensures { result.items ≡ self }
    {
        self.items
    }

    /// The list as a slice.
    pub fn as_slice(&self) -> &[Out]
        ensures { result.now ≡ self.now }
    {
        self.items.as_slice()
    }

    /// Adds one at the end. After an error the list is as before.
    pub fn push(&mut self, out: Out) -> Result<(), AllocError>
        ensures ok { OnOk result (self.new ≡ self.old ++ out ∷ []) }
        ensures err { OnErr result (self.new ≡ self.old) }
    {
        self.items.push(out)?;
        Ok(())
    }
}

impl Clone for OutList {
    ghost is_clone = { λ items copy. copy ≡ items };

    fn clone(&self) -> Result<OutList, AllocError> {
        Ok(OutList {
            items: self.items.clone()?,
        })
    }
}

impl PartialEq for OutList {
    ghost use Rattle.at_base.specs.contracts.outs.OutPartialEq.TheImpl.Laws.{laws-law};

    ghost eq = { pointwise ⟦<Out as PartialEq>⟧.eq };

    ghost laws = { lists_per laws-law };

    fn eq(&self, other: &OutList) -> bool {
        self.items == other.items
    }
}

impl Eq for OutList {
    ghost use Rattle.at_base.specs.contracts.outs.OutEq.TheImpl.Laws.{laws-law};

    ghost laws = { lists_equiv laws-law };
}

/// What happened, in order.
#[derive(Debug, Drop)]
pub struct Effects {
    items: Vec<Effect>,
}

impl Model for Effects {
    ghost use Rattle.std.specs.Prelude.{List};
    ghost use Rattle.at_base.specs.declared.outs.Effect.{Effect};

    ghost Value = { List Effect };

    ghost view = { λ s. s.items.items };
}

impl Effects {
    /// The list of a `Vec`, without a copy.
    pub fn from_vec(items: Vec<Effect>) -> Effects
        ensures { result ≡ items.items }
    {
        Effects { items }
    }

    /// The `Vec` of the list, without a copy.
    pub fn into_vec(self) -> Vec<Effect>
        ensures { result.items ≡ self }
    {
        self.items
    }

    /// The list as a slice.
    pub fn as_slice(&self) -> &[Effect]
        ensures { result.now ≡ self.now }
    {
        self.items.as_slice()
    }

    /// Adds one at the end. After an error the list is as before.
    pub fn push(&mut self, effect: Effect) -> Result<(), AllocError>
        ensures ok { OnOk result (self.new ≡ self.old ++ effect ∷ []) }
        ensures err { OnErr result (self.new ≡ self.old) }
    {
        self.items.push(effect)?;
        Ok(())
    }
}

impl Clone for Effects {
    ghost is_clone = { λ items copy. copy ≡ items };

    fn clone(&self) -> Result<Effects, AllocError> {
        Ok(Effects {
            items: self.items.clone()?,
        })
    }
}

impl PartialEq for Effects {
    ghost use Rattle.at_base.specs.contracts.outs.EffectPartialEq.TheImpl.Laws.{laws-law};

    ghost eq = { pointwise ⟦<Effect as PartialEq>⟧.eq };

    ghost laws = { lists_per laws-law };

    fn eq(&self, other: &Effects) -> bool {
        self.items == other.items
    }
}

impl Eq for Effects {
    ghost use Rattle.at_base.specs.contracts.outs.EffectEq.TheImpl.Laws.{laws-law};

    ghost laws = { lists_equiv laws-law };
}

/// What a step gives.
#[derive(Debug, PartialEq, Eq, Drop)]
pub struct Outs {
    pub outs: OutList,
    pub effects: Effects,
}

impl Clone for Outs {
    ghost is_clone = { λ outs copy. copy ≡ outs };

    fn clone(&self) -> Result<Outs, AllocError> {
        let outs = self.outs.clone()?;
        let effects = self.effects.clone()?;
        Ok(Outs { outs, effects })
    }
}
