//! What is asked of a replay.

/// What is asked of a replay, beside its report.
#[derive(Clone, Copy, Debug, PartialEq, Eq)]
pub struct Options {
    /// Whether the world is brought to rest behind the last line.
    pub settle: bool,
    /// Whether the bytes of each message stand behind its line.
    pub bytes: bool,
}
