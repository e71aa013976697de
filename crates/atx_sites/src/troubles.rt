//! What failed last, and why.

ghost use Rattle.std.specs.Prelude.{◌≡◌, None};
ghost use Rattle.std.specs.IoError.{error_kind, raw_os_error};

use std::fmt::{self, Display, Formatter, Write};
use std::io::{self, ErrorKind};

/// What a call of the system was made for. A file is 0 or 1: the journal, or the one whose name has `.1` behind that.
#[derive(Clone, Copy, Debug, PartialEq, Eq)]
pub enum Step {
    /// A file of the journal is opened, and made where it isn't there.
    Open(u8),
    /// It is found to be a regular file.
    Kind(u8),
    /// It is locked for this process alone.
    Lock(u8),
    /// What an earlier process left of it is made last.
    Settle(u8),
    /// The folder of the journal is made last.
    Folder,
    /// An address is listened at.
    Listen,
    /// Connections are accepted, and the clock is read meanwhile.
    Accept,
    /// The bytes of a file are counted.
    Size(u8),
    Read(u8),
    Write(u8),
    /// What was written into a file is made last.
    Sync(u8),
    /// One byte is written into a file, and made last.
    Gate(u8),
}

/// A step that failed, with the error that the system gave. An error without a number is the machine's own.
#[derive(Clone, Copy)]
pub struct Trouble {
    pub step: Step,
    pub fault: io::Error,
}

impl Trouble {
    pub(crate) fn new(step: Step, fault: io::Error) -> Trouble
        ensures { (result.step ≡ step) × (result.fault ≡ fault) }
    {
        Trouble { step, fault }
    }

    /// One that no call of the system gave.
    pub(crate) fn own(step: Step, kind: ErrorKind, words: &str) -> Trouble
        ensures { (result.step ≡ step) × (raw_os_error result.fault ≡ None) × (error_kind result.fault ≡ kind) }
    {
        Trouble {
            step,
            fault: io::Error::new(kind, words),
        }
    }
}

/// A trouble with the names that it befell, as one line of text without its end.
#[derive(Clone, Copy)]
pub struct Line<'a> {
    trouble: Trouble,
    journal: &'a str,
    listen: &'a str,
}

impl<'a> Line<'a> {
    /// Of a machine with this journal, which was to listen at this address.
    pub(crate) fn new(trouble: Trouble, journal: &'a str, listen: &'a str) -> Line<'a> {
        Line {
            trouble,
            journal,
            listen,
        }
    }
}

/// What didn't go well.
fn words(step: Step) -> &'static str {
    match step {
        Step::Open(_) => "can't be opened",
        Step::Kind(_) => "can't be a journal",
        Step::Lock(_) => "can't be locked, another process may have it",
        Step::Settle(_) => "can't be read anew from the disk",
        Step::Folder => "its folder can't be synced",
        Step::Listen => "can't be listened at",
        Step::Accept => "nobody can be accepted there",
        Step::Size(_) => "its bytes can't be counted",
        Step::Read(_) => "can't be read",
        Step::Write(_) => "can't be written",
        Step::Sync(_) => "can't be synced",
        Step::Gate(_) => "a record of it can't be ended",
    }
}

/// The file that it befell.
fn file_of(step: Step) -> u8 {
    match step {
        Step::Open(file)
        | Step::Kind(file)
        | Step::Lock(file)
        | Step::Settle(file)
        | Step::Size(file)
        | Step::Read(file)
        | Step::Write(file)
        | Step::Sync(file)
        | Step::Gate(file) => file,
        Step::Folder | Step::Listen | Step::Accept => 0,
    }
}

impl Display for Line<'_> {
    fn fmt<W: fmt::Write>(&self, f: &mut Formatter<W>) -> fmt::Result {
        let step = self.trouble.step;
        let name = match step {
            Step::Listen | Step::Accept => self.listen,
            _ => self.journal,
        };
        let ending = if file_of(step) == 0 { "" } else { ".1" };
        write!(f, "{name}{ending}: {}: {}", words(step), self.trouble.fault)
    }
}
