//! The lines of a schedule.

ghost use Rattle.std.specs.Prelude.{◌≡◌};
ghost use Rattle.schedules.specs.Causes.{number_of_cause};

use at_base::id::Id;
use at_base::notice::{Kind, Vote};
use at_base::text::Text;
use std::alloc::AllocError;
use std::marker::Model;

/// A line of a schedule. Nodes are numbered from 1.
#[derive(Debug, PartialEq, Eq, Drop)]
pub enum Line {
    /// `nodes N`: how many nodes there are, 1 to 8. The first line, and no other.
    Nodes {
        count: u8,
    },
    /// `begin NODE COORDINATOR MS`: the node begins an activity at the coordinator, for so many milliseconds.
    Begin {
        node: u8,
        coordinator: u8,
        ms: u32,
    },
    /// `interpose NODE ACTIVITY COORDINATOR`: the node interposes the coordinator in an activity of its own.
    Interpose {
        node: u8,
        activity: Id,
        coordinator: u8,
    },
    /// `work NODE ACTIVITY SERVICE d|v prepared|readonly|aborted`: the node asks a service for work in its activity,
    /// by a participant of this kind that votes so.
    Work {
        node: u8,
        activity: Id,
        service: u8,
        kind: Kind,
        vote: Vote,
    },
    /// `commit NODE ACTIVITY`
    Commit {
        node: u8,
        activity: Id,
    },
    /// `rollback NODE ACTIVITY`
    Rollback {
        node: u8,
        activity: Id,
    },
    /// `deliver MESSAGE`: this message, numbered from 1, goes to its node, again if it did before. 1 to 1,000,000.
    Deliver {
        message: u32,
    },
    /// `flush MOST`: up to so many times, the lowest message never delivered is. 0 to 10,000.
    Flush {
        most: u16,
    },
    /// `tick NODE MS`: so many milliseconds pass at the node, and it does what is due.
    Tick {
        node: u8,
        ms: u32,
    },
    /// `crash NODE`: the node goes down at rest; what its journal doesn't hold is lost.
    Crash {
        node: u8,
    },
    /// `up NODE`: the node comes up again, in a new incarnation, from its journal.
    Up {
        node: u8,
    },
    /// `stop NODE CALL keep|drop|fill BYTE`: the node stops at this write, sync, answer or post from now, numbered from 1, and
    /// goes down. 1 to 1,000,000.
    Stop {
        node: u8,
        call: u32,
        leaves: Leaves,
    },
    /// `fail NODE CALL`: this write, sync, answer or post of the node from now fails. 1 to 1,000,000.
    Fail {
        node: u8,
        call: u32,
    },
    /// `inject NODE HEX`: a connection that brings these bytes comes to the node. Two hexadecimal digits each, in either case;
    /// there may be none.
    Inject {
        node: u8,
        digits: Text,
    },
}

/// What a stop leaves of the bytes that are pending on the disk, and of the call at which it comes.
#[derive(Clone, Copy, Debug, PartialEq, Eq)]
pub enum Leaves {
    /// The call is done, and all bytes land.
    Keep,
    /// The call isn't done, and none lands.
    Drop,
    /// The call isn't done, and each byte is this one.
    Fill { byte: u8 },
}

/// The lines of a schedule, in order.
#[derive(Debug, Drop)]
pub struct Schedule {
    lines: Vec<Line>,
}

impl Model for Schedule {
    ghost use Rattle.std.specs.Prelude.{List};
    ghost use Rattle.schedules.specs.declared.line.Line.{Line};

    ghost Value = { List Line };

    ghost view = { λ s. s.lines.items };
}

impl Schedule {
    /// The schedule of these lines, without a copy.
    pub fn from_vec(lines: Vec<Line>) -> Schedule
        ensures { result ≡ lines.items }
    {
        Schedule { lines }
    }

    /// The lines, without a copy.
    pub fn into_vec(self) -> Vec<Line>
        ensures { result.items ≡ self }
    {
        self.lines
    }

    /// The lines as a slice.
    pub fn as_slice(&self) -> &[Line]
        ensures { result.now ≡ self.now }
    {
        self.lines.as_slice()
    }
}

/// What is wrong with a line.
#[derive(Clone, Copy, Debug, PartialEq, Eq)]
pub enum Cause {
    /// The first word is none that a schedule knows.
    UnknownWord,
    /// Too few or too many words.
    WordCount,
    /// A number that is no decimal, has a sign or a leading zero, or is out of its bounds.
    Number,
    /// No id.
    Identifier,
    /// None of the words that may stand here.
    Keyword,
    /// No bytes in hexadecimal: an odd number of digits, or another character.
    Hexadecimal,
    /// `nodes` is missing on the first line, or stands on another.
    Nodes,
    /// There are over 10,000 lines.
    TooManyLines,
    /// A byte outside 32 to 126.
    Unprintable,
}

/// The first bad line, numbered from 1, and the first cause that holds of it.
#[derive(Clone, Copy, Debug, PartialEq, Eq)]
pub struct BadLine {
    pub line: u32,
    pub cause: Cause,
}

impl Cause {
    /// The number that is printed for it.
    pub fn number(self) -> u8
        ensures { result ≡ number_of_cause self }
    {
        match self {
            Cause::UnknownWord => 1,
            Cause::WordCount => 2,
            Cause::Number => 3,
            Cause::Identifier => 4,
            Cause::Keyword => 5,
            Cause::Hexadecimal => 6,
            Cause::Nodes => 7,
            Cause::TooManyLines => 8,
            Cause::Unprintable => 9,
        }
    }
}

/// Why a text is no schedule.
#[derive(Clone, Copy, Debug, PartialEq, Eq)]
pub enum ScheduleError {
    Bad(BadLine),
    OutOfMemory,
}

impl From<AllocError> for ScheduleError {
    ghost use Rattle.std.specs.Prelude.{◌≡◌};
    ghost use Rattle.schedules.specs.declared.line.ScheduleError.TheVariants.{OutOfMemory};

    ghost from_gives = { λ _ e. e ≡ OutOfMemory };

    fn from(_error: AllocError) -> ScheduleError {
        ScheduleError::OutOfMemory
    }
}
