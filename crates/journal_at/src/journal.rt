//! A journal.

ghost use Rattle.std.specs.Prelude.{◌≡◌, ◌≤◌, ◌<◌, ◌^◌, vec_capacity};

/// A journal whose files were read. `live` is the file that is appended to, `end` the place of its last gate, `generation` the
/// number in its mark. Where `unshut`, the other file's first gate is still to be shut before a compaction writes behind it.
/// Once `unsure`, a journal does nothing more. Its `room` takes any body with what stands around it.
#[derive(Drop)]
pub struct Journal {
    pub(crate) live: u8,
    pub(crate) end: u64,
    pub(crate) limit: u32,
    pub(crate) generation: u32,
    pub(crate) unshut: bool,
    pub(crate) unsure: bool,
    pub(crate) room: Vec<u8>,
    ghost two: { live ≤ 1 },
    ghost small: { end < 2 ^ 63 },
    ghost roomy: { 1060005 ≤ vec_capacity room },
}

impl Journal {
    /// The file that is appended to.
    pub fn live(&self) -> u8
        ensures { result ≡ self.now.live }
    {
        self.live
    }

    /// The place of that file's last gate.
    pub fn end(&self) -> u64
        ensures { result ≡ self.now.end }
    {
        self.end
    }

    /// The generation of that file.
    pub fn generation(&self) -> u32
        ensures { result ≡ self.now.generation }
    {
        self.generation
    }
}

/// What became of a body.
#[derive(Clone, Copy, Debug, PartialEq, Eq)]
pub enum Append {
    /// It stands, whatever a crash leaves.
    Done,
    /// It is certainly absent.
    Refused,
    /// It may stand or not, and the journal does nothing more.
    Unsure,
    /// It would pass the limit, and is certainly absent.
    Full,
}

/// What became of a compaction.
#[derive(Clone, Copy, Debug, PartialEq, Eq)]
pub enum Compact {
    /// The files stand for the bodies, whatever a crash leaves.
    Done,
    /// They stand for what stood before.
    Kept,
    /// They stand for either, and the journal does nothing more.
    Unsure,
    /// The text would pass the limit, and nothing was done.
    Full,
}
