//! Why a node wasn't started.

/// Why a node wasn't started.
#[derive(Debug, PartialEq, Eq, Drop)]
pub enum StartFault {
    NoMemory,
    /// A call of the disk failed.
    Disk,
    /// The files stand for no list of records: a file's number, and the place of a gate in it.
    Bad { file: u8, place: u64 },
    /// The files are no journal: the live one has no body, and one of them is longer than those of a new journal can be.
    NoJournal,
    /// There is no incarnation behind the last.
    Spent,
    /// The journal would pass its limit with the new Start.
    Full,
}
