//! What a line was answered.

ghost use Rattle.std.specs.Prelude.{◌≡◌};
ghost use Rattle.serving.specs.Notes.{brings, is_refused, made_by};
ghost use Rattle.serving.specs.Requests.{ended_by};

use crate::service_end::{Ended, done_by};
use at_base::id::Id;
use node_at::local::Locally;
use node_at::turn::Turned;

/// What a line was answered.
#[derive(Clone, Copy, Debug, PartialEq, Eq)]
pub enum Answer {
    /// By a step.
    Local(Locally),
    /// It is on an activity whose own line was refused, or the commit of one of which a work was, and so it was refused itself.
    Stale,
    /// By a turn.
    Turn(Turned),
}

impl Answer {
    /// The id of the activity that was made.
    pub(crate) fn made(&self) -> Option<Id>
        ensures { result ≡ made_by self.now }
    {
        match self {
            Answer::Local(Locally::Done { id }) => Some(*id),
            _ => None,
        }
    }

    /// Whether a line was refused.
    pub(crate) fn is_refused(&self) -> bool
        ensures { result ≡ is_refused self.now }
    {
        match self {
            Answer::Local(Locally::Refused { .. }) | Answer::Stale => true,
            Answer::Local(_) | Answer::Turn(_) => false,
        }
    }

    /// Whether a turn took a message: it answered 202, and was no tick.
    pub(crate) fn brings(&self) -> bool
        ensures { result ≡ brings self.now }
    {
        match self {
            Answer::Turn(Turned::Served { status }) => *status == 202,
            Answer::Local(_) | Answer::Stale | Answer::Turn(_) => false,
        }
    }

    /// How serving ends behind that, where it does: whether until then no line was refused, and each activity that ended was
    /// committed.
    pub(crate) fn ended(&self, met: bool) -> Option<Ended>
        ensures { result ≡ ended_by met self.now }
    {
        match self {
            Answer::Local(local) => match local {
                Locally::Done { .. } | Locally::Refused { .. } => None,
                Locally::NoRoom => Some(Ended::NoMemory),
                Locally::Halted => Some(Ended::Halted),
            },
            Answer::Stale => None,
            Answer::Turn(turned) => match turned {
                Turned::Served { .. } | Turned::Ticked | Turned::NoRoom => None,
                Turned::Closed => Some(done_by(met)),
                Turned::Halted => Some(Ended::Halted),
                Turned::LinkDown => Some(Ended::ListenerFailed),
            },
        }
    }
}
