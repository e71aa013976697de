//! Versions of a journal.

/// The version of a journal's file, which its first record says.
#[derive(Clone, Copy, Debug, PartialEq, Eq)]
pub enum Version {
    One,
    Two,
}
