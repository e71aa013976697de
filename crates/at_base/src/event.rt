//! What a node's book steps on: arrivals, local requests and items that are due.

ghost use Rattle.std.specs.Prelude.{◌≡◌};

use crate::epr::{Epr, Reply};
use crate::id::Id;
use crate::message::{Message, cloned_option};
use crate::notice::{Kind, Vote};
use crate::target::Target;
use crate::text::Text;
use std::alloc::AllocError;

/// A request of the program that runs an initiator.
///
/// `coordinator` and `service` are base URLs of nodes, at most 1,024 bytes; `key` and `value` have at most 256 bytes.
#[derive(Debug, PartialEq, Eq)]
pub enum Local {
    /// Makes an activity: asks the coordinator for a context that lasts `ms` milliseconds, or any time where it is 0.
    Begin {
        coordinator: Text,
        ms: u32,
    },
    /// Asks another coordinator for a subordinate context under that of an activity.
    Interpose {
        activity: Id,
        coordinator: Text,
    },
    /// Asks a service for work under an activity's context.
    Work {
        activity: Id,
        service: Text,
        kind: Kind,
        vote: Vote,
        key: Text,
        value: Text,
    },
    /// Asks that an activity's transaction commits.
    Commit {
        activity: Id,
    },
    /// Asks that an activity's transaction rolls back.
    Rollback {
        activity: Id,
    },
}

impl Drop for Local {
    fn drop(self) {
        match self {
            Local::Begin {
                coordinator: _coordinator,
                ms: _ms,
            } => {}
            Local::Interpose {
                activity: _activity,
                coordinator: _coordinator,
            } => {}
            Local::Work {
                activity: _activity,
                service: _service,
                kind: _kind,
                vote: _vote,
                key: _key,
                value: _value,
            } => {}
            Local::Commit {
                activity: _activity,
            } => {}
            Local::Rollback {
                activity: _activity,
            } => {}
        }
    }
}

/// A message as it reaches the book.
#[derive(Debug, PartialEq, Eq)]
pub struct Arrived {
    pub target: Target,
    /// Its MessageID.
    pub id: Option<Text>,
    /// The MessageID that it answers.
    pub relates: Option<Text>,
    /// Its From, where that can be posted to.
    pub from: Option<Epr>,
    /// Where its reply goes.
    pub reply: Reply,
    /// Where a fault that it draws goes.
    pub fault: Reply,
    /// Of a Register: whether the participant's endpoint can be posted to.
    pub postable: bool,
    pub message: Message,
}

impl Drop for Arrived {
    fn drop(self) {
        let Arrived {
            target: _target,
            id: _id,
            relates: _relates,
            from: _from,
            reply: _reply,
            fault: _fault,
            postable: _postable,
            message: _message,
        } = self;
    }
}

/// A transaction, leaf or activity, by its id.
#[derive(Clone, Copy, Debug, PartialEq, Eq)]
pub enum Item {
    Transaction(Id),
    Leaf(Id),
    Activity(Id),
}

/// What a step is asked for.
#[derive(Debug, PartialEq, Eq)]
pub enum Event {
    Arrived(Arrived),
    Local(Local),
    /// An item that is due: it expired, its aborting ended, or it sends again.
    Due(Item),
    /// A tick: the time is noted, and accepted.
    Tick,
}

impl Drop for Event {
    fn drop(self) {
        match self {
            Event::Arrived(_held) => {}
            Event::Local(_held) => {}
            Event::Due(_held) => {}
            Event::Tick => {}
        }
    }
}

/// What a core is told beside the event.
#[derive(Debug, PartialEq, Eq)]
pub struct Moment {
    /// Milliseconds: the greater of the clock and the last time seen.
    pub now: u64,
    /// The id that the next item gets; none where the counter is spent.
    pub next: Option<Id>,
    /// The node's base address, at most 1,024 bytes, each in 33 to 126.
    pub base: Text,
}

impl Drop for Moment {
    fn drop(self) {
        let Moment {
            now: _now,
            next: _next,
            base: _base,
        } = self;
    }
}

impl Clone for Local {
    ghost is_clone = { λ local copy. copy ≡ local };

    fn clone(&self) -> Result<Local, AllocError> {
        match self {
            Local::Begin { coordinator, ms } => Ok(Local::Begin {
                coordinator: coordinator.clone()?,
                ms: *ms,
            }),
            Local::Interpose {
                activity,
                coordinator,
            } => {
                Ok(Local::Interpose {
                    activity: *activity,
                    coordinator: coordinator.clone()?,
                })
            }
            Local::Work {
                activity,
                service,
                kind,
                vote,
                key,
                value,
            } => {
                let service = service.clone()?;
                let key = key.clone()?;
                let value = value.clone()?;
                Ok(Local::Work {
                    activity: *activity,
                    service,
                    kind: *kind,
                    vote: *vote,
                    key,
                    value,
                })
            }
            Local::Commit { activity } => Ok(Local::Commit {
                activity: *activity,
            }),
            Local::Rollback { activity } => Ok(Local::Rollback {
                activity: *activity,
            }),
        }
    }
}

impl Clone for Arrived {
    ghost is_clone = { λ arrived copy. copy ≡ arrived };

    fn clone(&self) -> Result<Arrived, AllocError> {
        let id = cloned_option(&self.id)?;
        let relates = cloned_option(&self.relates)?;
        let from = cloned_option(&self.from)?;
        let reply = self.reply.clone()?;
        let fault = self.fault.clone()?;
        let message = self.message.clone()?;
        Ok(Arrived {
            target: self.target,
            id,
            relates,
            from,
            reply,
            fault,
            postable: self.postable,
            message,
        })
    }
}

impl Clone for Event {
    ghost is_clone = { λ event copy. copy ≡ event };

    fn clone(&self) -> Result<Event, AllocError> {
        match self {
            Event::Arrived(arrived) => Ok(Event::Arrived(arrived.clone()?)),
            Event::Local(local) => Ok(Event::Local(local.clone()?)),
            Event::Due(item) => Ok(Event::Due(*item)),
            Event::Tick => Ok(Event::Tick),
        }
    }
}

impl Clone for Moment {
    ghost is_clone = { λ moment copy. copy ≡ moment };

    fn clone(&self) -> Result<Moment, AllocError> {
        let base = self.base.clone()?;
        Ok(Moment {
            now: self.now,
            next: self.next,
            base,
        })
    }
}
