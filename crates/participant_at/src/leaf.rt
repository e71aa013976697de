//! A leaf.

ghost use Rattle.std.specs.Prelude.{◌≡◌};

use at_base::epr::Epr;
use at_base::id::Id;
use at_base::message::cloned_option;
use at_base::notice::{Kind, Vote};
use at_base::text::Text;
use at_tables::cells::State;
use std::alloc::AllocError;
use std::marker::Model;

/// A Work that is still to be answered.
#[derive(Debug)]
pub struct WorkRequest {
    /// Its MessageID.
    pub id: Option<Text>,
    /// Where its answer goes.
    pub reply: Epr,
    /// Where the leaf registers.
    pub registration: Epr,
}

impl Drop for WorkRequest {
    fn drop(self) {
        let WorkRequest {
            id: _id,
            reply: _reply,
            registration: _registration,
        } = self;
    }
}

impl Model for WorkRequest {
    ghost use Rattle.at_model.specs.Book.{WorkRequest as Asked};

    ghost Value = { Asked };

    ghost view = { λ r. record { id = r.id; reply = r.reply; registration = r.registration } };
}

impl Clone for WorkRequest {
    ghost is_clone = { λ request copy. copy ≡ request };

    fn clone(&self) -> Result<WorkRequest, AllocError> {
        let id = cloned_option(&self.id)?;
        let reply = self.reply.clone()?;
        let registration = self.registration.clone()?;
        Ok(WorkRequest {
            id,
            reply,
            registration,
        })
    }
}

/// A participant that does work of its own (WS-AtomicTransaction 1.2, section 3.3).
#[derive(Debug)]
pub struct Leaf {
    pub id: Id,
    pub kind: Kind,
    /// What it votes when it is asked.
    pub vote: Vote,
    /// At most 256 bytes.
    pub key: Text,
    /// At most 256 bytes.
    pub value: Text,
    pub state: State,
    /// The endpoint of its seat, once it is registered.
    pub coordinator: Option<Epr>,
    /// The Work that made it, until it is answered.
    pub request: Option<WorkRequest>,
    /// When it expires, in milliseconds.
    pub deadline: Option<u128>,
    /// When it last sent a message that is repeated, in milliseconds; none since it was recovered.
    pub sent: Option<u64>,
}

impl Drop for Leaf {
    fn drop(self) {
        let Leaf {
            id: _id,
            kind: _kind,
            vote: _vote,
            key: _key,
            value: _value,
            state: _state,
            coordinator: _coordinator,
            request: _request,
            deadline: _deadline,
            sent: _sent,
        } = self;
    }
}

impl Model for Leaf {
    ghost use Rattle.at_model.specs.Book.{Leaf as Known};

    ghost Value = { Known };

    ghost view = { λ l. record {
      id = l.id;
      kind = l.kind;
      vote = l.vote;
      key = l.key;
      value = l.value;
      state = l.state;
      coordinator = l.coordinator;
      request = l.request;
      deadline = l.deadline;
      sent = l.sent;
    } };
}

impl Clone for Leaf {
    ghost is_clone = { λ leaf copy. copy ≡ leaf };

    fn clone(&self) -> Result<Leaf, AllocError> {
        let key = self.key.clone()?;
        let value = self.value.clone()?;
        let coordinator = cloned_option(&self.coordinator)?;
        let request = cloned_option(&self.request)?;
        Ok(Leaf {
            id: self.id,
            kind: self.kind,
            vote: self.vote,
            key,
            value,
            state: self.state,
            coordinator,
            request,
            deadline: self.deadline,
            sent: self.sent,
        })
    }
}
