//! What is to be served.

use node_at::role::Role;
use schedules::initiator_line::InitiatorLine;

/// What is to be served. The base that is given, or else `http://` and the address, has at most 1,024 bytes, each in 33 to 126.
#[derive(Clone, Copy, Debug)]
pub struct Service<'a> {
    pub role: Role,
    /// Where it listens.
    pub listen: &'a str,
    /// The base by which others reach it, where that isn't `http://` and the address.
    pub base: Option<&'a str>,
    /// The name of the journal's first file.
    pub journal: &'a str,
    /// The most bytes of a journal's file.
    pub limit: u32,
    /// What is done first, line after line.
    pub lines: &'a [InitiatorLine],
    /// How many connections are served behind the lines.
    pub turns: u64,
}
