//! How serving ended.

ghost use Rattle.std.specs.Prelude.{◌≡◌};
ghost use Rattle.serving.specs.Requests.{done_by};
ghost use Rattle.serving.specs.Runs.{attach_ended, start_ended};

use node_at::fault::StartFault;
use site_model::site::AttachFailed;

/// How serving ended.
#[derive(Clone, Copy, Debug, PartialEq, Eq)]
pub enum Ended {
    /// All lines and turns were done, or no connection comes any more.
    Done,
    /// What was to be printed couldn't be.
    SinkFailed,
    /// The journal's files couldn't be opened, or a call of them failed before the node was up.
    DiskFailed,
    /// A record of the node may stand or not. The node did nothing more.
    Halted,
    /// The journal stands for no list of records.
    BadJournal,
    /// The files hold nothing of a journal: the live one has no body, and one is longer than those of a new journal.
    NoJournal,
    /// There is no listener, or it failed.
    ListenerFailed,
    /// Want of memory.
    NoMemory,
    /// There is no incarnation behind the journal's last.
    Spent,
    /// The journal has no room for the record of one more start.
    Full,
    /// As `Done`; but a line was refused, or an activity ended otherwise than committed.
    Unmet,
}

/// How it ends where all was done: whether no line was refused, and each activity that ended was committed.
pub(crate) fn done_by(met: bool) -> Ended
    ensures { result ≡ done_by met }
{
    if met { Ended::Done } else { Ended::Unmet }
}

/// How it ends where files or listener couldn't be opened.
pub(crate) fn attach_ended(why: AttachFailed) -> Ended
    ensures { result ≡ attach_ended why }
{
    match why {
        AttachFailed::Disk => Ended::DiskFailed,
        AttachFailed::Link => Ended::ListenerFailed,
    }
}

/// How it ends where the node couldn't start.
pub(crate) fn start_ended(fault: &StartFault) -> Ended
    ensures { result ≡ start_ended fault.now }
{
    match fault {
        StartFault::NoMemory => Ended::NoMemory,
        StartFault::Disk => Ended::DiskFailed,
        StartFault::Bad { .. } => Ended::BadJournal,
        StartFault::NoJournal => Ended::NoJournal,
        StartFault::Spent => Ended::Spent,
        StartFault::Full => Ended::Full,
    }
}
