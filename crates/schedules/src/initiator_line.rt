//! The lines of the program that runs an initiator.

ghost use Rattle.std.specs.Prelude.{◌≡◌, ◌<◌, ◌^◌, ◌-◌};
ghost use Rattle.schedules.specs.InitiatorLines.{made_by};

use crate::line::Cause;
use at_base::notice::{Kind, Vote};
use at_base::text::Text;
use std::alloc::AllocError;
use std::marker::Model;

/// A line of an initiator. Activities are numbered from 1 by the lines that make one, `begin` and `interpose`. A URL is the
/// base of a node: an http URL of at most 1,024 bytes with the path `/`, without query and fragment.
#[derive(Debug, PartialEq, Eq)]
pub enum InitiatorLine {
    /// `begin URL MS`: begins an activity at the coordinator of a node, for so many milliseconds, or any time where it is 0.
    Begin {
        coordinator: Text,
        ms: u32,
    },
    /// `interpose ACTIVITY URL`: interposes the coordinator of a node in an activity.
    Interpose {
        activity: u32,
        coordinator: Text,
    },
    /// `work ACTIVITY URL d|v prepared|readonly|aborted KEY VALUE`: asks a node for work in an activity, by a participant of
    /// this kind that votes so. Key and value have at most 256 bytes.
    Work {
        activity: u32,
        service: Text,
        kind: Kind,
        vote: Vote,
        key: Text,
        value: Text,
    },
    /// `commit ACTIVITY`, or `commit ACTIVITY anyway`, whatever work in it was refused.
    Commit {
        activity: u32,
        anyway: bool,
    },
    /// `rollback ACTIVITY`
    Rollback {
        activity: u32,
    },
    /// `wait`: serves connections until one brings a message that the initiator takes.
    Wait,
}

impl Drop for InitiatorLine {
    fn drop(self) {
        match self {
            InitiatorLine::Begin {
                coordinator: _coordinator,
                ms: _ms,
            } => {}
            InitiatorLine::Interpose {
                activity: _activity,
                coordinator: _coordinator,
            } => {}
            InitiatorLine::Work {
                activity: _activity,
                service: _service,
                kind: _kind,
                vote: _vote,
                key: _key,
                value: _value,
            } => {}
            InitiatorLine::Commit {
                activity: _activity,
                anyway: _anyway,
            } => {}
            InitiatorLine::Rollback {
                activity: _activity,
            } => {}
            InitiatorLine::Wait => {}
        }
    }
}

impl InitiatorLine {
    /// How many activities there are behind the line, where there were so many before it.
    pub(crate) fn made(&self, made: u32) -> u32
        requires { made < 2 ^ 32 - 1 }
        ensures { result ≡ made_by made self.now }
    {
        match self {
            InitiatorLine::Begin { .. } => made + 1,
            InitiatorLine::Interpose { .. } => made + 1,
            InitiatorLine::Work { .. } => made,
            InitiatorLine::Commit { .. } => made,
            InitiatorLine::Rollback { .. } => made,
            InitiatorLine::Wait => made,
        }
    }
}

/// The lines of an initiator, in order.
#[derive(Debug, Drop)]
pub struct InitiatorLines {
    lines: Vec<InitiatorLine>,
}

impl Model for InitiatorLines {
    ghost use Rattle.std.specs.Prelude.{List};
    ghost use Rattle.schedules.specs.declared.initiator_line.InitiatorLine.{InitiatorLine};

    ghost Value = { List InitiatorLine };

    ghost view = { λ s. s.lines.items };
}

impl InitiatorLines {
    /// These lines, without a copy.
    pub fn from_vec(lines: Vec<InitiatorLine>) -> InitiatorLines
        ensures { result ≡ lines.items }
    {
        InitiatorLines { lines }
    }

    /// The lines as a slice.
    pub fn as_slice(&self) -> &[InitiatorLine]
        ensures { result.now ≡ self.now }
    {
        self.lines.as_slice()
    }
}

/// Why the words of a line were not read.
#[derive(Clone, Copy, Debug, PartialEq, Eq)]
pub(crate) enum WordFault {
    Wrong(Cause),
    OutOfMemory,
}

impl From<AllocError> for WordFault {
    ghost use Rattle.std.specs.Prelude.{◌≡◌};
    ghost use Rattle.schedules.specs.declared.initiator_line.WordFault.TheVariants.{OutOfMemory};

    ghost from_gives = { λ _ e. e ≡ OutOfMemory };

    fn from(_error: AllocError) -> WordFault {
        WordFault::OutOfMemory
    }
}
