//! Files that are read, and neither locked nor changed.

ghost use Rattle.std.specs.Prelude.{ℕ, Option, Some, ◌≡◌, ◌≤◌, IfOk, length};
ghost use Rattle.journal_cmd.specs.Folders.{Answers, FileCause, Held};

/// Why bytes of a file weren't read.
#[derive(Clone, Copy, Debug, PartialEq, Eq)]
pub enum FileFault {
    /// There is no file of this name.
    Missing,
    /// Opening or reading it failed. The count of faults rose.
    Failed,
}

/// Files that are read by their names, and neither locked nor changed.
///
/// `told` is what the file of each name holds, where it tells that; `faults` is the number of its failures.
pub trait Files {
    ghost told: { Self → Option Held };

    ghost faults: { Self → ℕ };

    /// Reads a file from a place on into the buffer, and says how many bytes. Zero into a nonempty buffer is the end of the
    /// file.
    fn read(&mut self, name: &str, at: u64, buf: &mut [u8]) -> Result<usize, FileFault>
        ensures bound { IfOk result (λ n. n ≤ length buf.new) }
        ensures same_length { length buf.new ≡ length buf.old }
        ensures is { (held : Held) → told self.old ≡ Some held → Answers result at buf.new (held name.now) }
        ensures kept { told self.new ≡ told self.old }
        ensures cause { FileCause result (faults self.old) (faults self.new) };
}
