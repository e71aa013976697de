//! Messages and their bodies (WS-Coordination 1.2 sections 3 and 4, WS-AtomicTransaction 1.2 section 3).

ghost use Rattle.std.specs.Prelude.{◌≡◌, IfOk};

use crate::epr::Epr;
use crate::notice::{Kind, Notice, Vote};
use crate::text::Text;
use std::alloc::AllocError;

/// A coordination context (WS-Coordination 1.2, section 2).
#[derive(Debug, PartialEq, Eq)]
pub struct Context {
    /// The coordination context's Identifier, 1 to 2,048 bytes.
    pub identifier: Text,
    /// Milliseconds that it may last, or none.
    pub expires: Option<u32>,
    /// The coordination type, a URI.
    pub coordination: Text,
    /// Where participants register.
    pub registration: Epr,
}

impl Drop for Context {
    fn drop(self) {
        let Context {
            identifier: _identifier,
            expires: _expires,
            coordination: _coordination,
            registration: _registration,
        } = self;
    }
}

/// The body of CreateCoordinationContext (WS-Coordination 1.2, section 3.1).
#[derive(Debug, PartialEq, Eq)]
pub struct Create {
    /// Milliseconds that the context may last, or none.
    pub expires: Option<u32>,
    /// The context under which a subordinate is asked for, or none for a root.
    pub current: Option<Context>,
    /// The coordination type that is asked for, a URI.
    pub coordination: Text,
}

impl Drop for Create {
    fn drop(self) {
        let Create {
            expires: _expires,
            current: _current,
            coordination: _coordination,
        } = self;
    }
}

/// The body of Register (WS-Coordination 1.2, section 3.2).
#[derive(Debug, PartialEq, Eq)]
pub struct Register {
    /// The protocol identifier, a URI.
    pub protocol: Text,
    /// Where the participant takes the protocol's notifications.
    pub participant: Epr,
}

impl Drop for Register {
    fn drop(self) {
        let Register {
            protocol: _protocol,
            participant: _participant,
        } = self;
    }
}

/// The body of Work, by which an initiator asks a participant for a change under a context (this project's profile).
#[derive(Debug, PartialEq, Eq)]
pub struct Work {
    pub context: Context,
    /// At most 256 bytes.
    pub key: Text,
    /// At most 256 bytes.
    pub value: Text,
    /// The protocol that the participant registers for.
    pub kind: Kind,
    /// What the participant will vote.
    pub vote: Vote,
}

impl Drop for Work {
    fn drop(self) {
        let Work {
            context: _context,
            key: _key,
            value: _value,
            kind: _kind,
            vote: _vote,
        } = self;
    }
}

/// A message.
#[derive(Debug, PartialEq, Eq)]
pub enum Message {
    /// CreateCoordinationContext.
    Create(Create),
    /// CreateCoordinationContextResponse.
    CreateResponse(Context),
    Register(Register),
    /// RegisterResponse, with the coordinator's endpoint for the protocol.
    RegisterResponse(Epr),
    Notice(Notice),
    Work(Work),
    WorkDone,
    WorkRefused,
    /// A fault, by the local name of its code. It may be empty.
    Fault { name: Text },
}

impl Drop for Message {
    fn drop(self) {
        match self {
            Message::Create(_held) => {}
            Message::CreateResponse(_held) => {}
            Message::Register(_held) => {}
            Message::RegisterResponse(_held) => {}
            Message::Notice(_held) => {}
            Message::Work(_held) => {}
            Message::WorkDone => {}
            Message::WorkRefused => {}
            Message::Fault { name: _name } => {}
        }
    }
}

/// The copy of a value that may be absent.
pub fn cloned_option<T: Clone>(source: &Option<T>) -> Result<Option<T>, AllocError>
    requires { (value copy : T) → T.is_clone value copy → copy ≡ value }
    ensures { IfOk result (λ copy. copy ≡ source.now) }
{
    match source {
        None => Ok(None),
        Some(value) => Ok(Some(value.clone()?)),
    }
}

impl Clone for Context {
    ghost is_clone = { λ context copy. copy ≡ context };

    fn clone(&self) -> Result<Context, AllocError> {
        let identifier = self.identifier.clone()?;
        let coordination = self.coordination.clone()?;
        let registration = self.registration.clone()?;
        Ok(Context {
            identifier,
            expires: self.expires,
            coordination,
            registration,
        })
    }
}

impl Clone for Create {
    ghost is_clone = { λ create copy. copy ≡ create };

    fn clone(&self) -> Result<Create, AllocError> {
        let coordination = self.coordination.clone()?;
        let current = cloned_option(&self.current)?;
        Ok(Create {
            expires: self.expires,
            current,
            coordination,
        })
    }
}

impl Clone for Register {
    ghost is_clone = { λ register copy. copy ≡ register };

    fn clone(&self) -> Result<Register, AllocError> {
        let protocol = self.protocol.clone()?;
        let participant = self.participant.clone()?;
        Ok(Register {
            protocol,
            participant,
        })
    }
}

impl Clone for Work {
    ghost is_clone = { λ work copy. copy ≡ work };

    fn clone(&self) -> Result<Work, AllocError> {
        let key = self.key.clone()?;
        let value = self.value.clone()?;
        let context = self.context.clone()?;
        Ok(Work {
            context,
            key,
            value,
            kind: self.kind,
            vote: self.vote,
        })
    }
}

impl Clone for Message {
    ghost is_clone = { λ message copy. copy ≡ message };

    fn clone(&self) -> Result<Message, AllocError> {
        match self {
            Message::Create(create) => Ok(Message::Create(create.clone()?)),
            Message::CreateResponse(context) => Ok(Message::CreateResponse(context.clone()?)),
            Message::Register(register) => Ok(Message::Register(register.clone()?)),
            Message::RegisterResponse(coordinator) => Ok(Message::RegisterResponse(
                coordinator.clone()?,
            )),
            Message::Notice(notice) => Ok(Message::Notice(*notice)),
            Message::Work(work) => Ok(Message::Work(work.clone()?)),
            Message::WorkDone => Ok(Message::WorkDone),
            Message::WorkRefused => Ok(Message::WorkRefused),
            Message::Fault { name } => Ok(Message::Fault {
                name: name.clone()?,
            }),
        }
    }
}
