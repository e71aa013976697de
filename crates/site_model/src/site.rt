//! A node's machine: its two files, its listener and connection, its posts and its clock, one object.

ghost use Rattle.std.specs.Prelude.{List, ◌≡◌, ◌≤◌, ◌<◌, length, take, drop, IfOk, Some};
ghost use Rattle.site_model.specs.Told.{Told, Made, Files, Is, file_of};
ghost use Rattle.site_model.specs.Told.Call.{Send, Post};
ghost use Rattle.site_model.specs.Calls.{Looked, Wrote, Synced, Raised, Gave, Attaches, Takes, Received, Closes, Reads};

use crate::source::Failed;

/// Why a machine wasn't attached.
#[derive(Clone, Copy, Debug, PartialEq, Eq)]
pub enum AttachFailed {
    /// The journal's files.
    Disk,
    /// The listener.
    Link,
}

/// What waiting for a connection gave.
#[derive(Clone, Copy, Debug, PartialEq, Eq)]
pub enum Taken {
    /// A connection is open.
    Opened,
    /// No connection comes any more.
    Closed,
}

/// A node's machine.
///
/// It may tell its files, what a crash might leave of them, its calls of disk and network so far with their outcomes, what a
/// crash might have left at each earlier one, the bytes that its connections bring, and its clock. Whoever tells nothing has
/// no crash images. After a successful sync a crash leaves of the file what a read gives. Between two syncs each written
/// range, and the part past the old end, may hold any bytes after a crash; other bytes stay. A failed write leaves its range
/// as if written, and reads may give any bytes of it; a failed sync settles nothing. A call that fails is among the calls as
/// failed, or, where it wasn't tried (for want of memory, or by a machine that has stopped), not at all.
///
/// A failure of a call has its cause in the count of its kind, which rose: `disk` for the files, `gate` for raising a
/// gate, `accept` for the listener, `receive` and `link` for the connection and the posts. `taken` and `closings` count
/// the connections that were opened and the times that none came. Counts never fall, and a `receive` that succeeds isn't
/// counted. `attached` are the names of each attach that succeeded, in order. `file` is 0 or 1.
pub trait Site {
    ghost told: { Self → Told };

    // What stands now is part of the past, and of the calls so far, or more, the past knows only what stands now.
    ghost counts_now: { (s : Self) (l : List Made) (c : Files) → (told s).calls ≡ Some l → (told s).images c → (told s).past l c };

    ghost only_now: { (s : Self) (l m : List Made) (c : Files) → (told s).calls ≡ Some m → length m ≤ length l → (told s).past l c → (l ≡ m) × (told s).images c };

    /// Opens the files of the journal of this name, and the listener at this address.
    fn attach(&mut self, journal: &str, listen: &str) -> Result<(), AttachFailed>
        ensures { Attaches journal.now listen.now result (told self.old) (told self.new) };

    /// The bytes of a file.
    fn size(&mut self, file: u8) -> Result<u64, Failed>
        ensures is { IfOk result (λ n. (f : Files) → Is (told self.old).files f → n ≡ length (file_of file f)) }
        ensures call { Looked result (told self.old) (told self.new) };

    /// Reads a file from a place on into the buffer, and says how many bytes.
    fn read(&mut self, file: u8, at: u64, buf: &mut [u8]) -> Result<usize, Failed>
        ensures bound { IfOk result (λ n. n ≤ length buf.new) }
        ensures same_length { length buf.new ≡ length buf.old }
        ensures is { IfOk result (λ n. (f : Files) → Is (told self.old).files f → take n buf.new ≡ take n (drop at (file_of file f))) }
        ensures end { IfOk result (λ n. (f : Files) → Is (told self.old).files f → n ≡ 0 → 0 < length buf.old → length (file_of file f) ≤ at) }
        ensures call { Looked result (told self.old) (told self.new) };

    /// Writes bytes into a file from a place on. A gap between the file's old end and the place reads as zeros.
    fn write_at(&mut self, file: u8, at: u64, bytes: &[u8]) -> Result<(), Failed>
        ensures { Wrote file at bytes.now result (told self.old) (told self.new) };

    /// Makes what was written last.
    fn sync(&mut self, file: u8) -> Result<(), Failed>
        ensures { Synced file result (told self.old) (told self.new) };

    /// Writes the byte 1 at a place, then syncs. These are two calls; the second is left out where the first failed.
    fn raise_gate(&mut self, file: u8, at: u64) -> Result<(), Failed>
        ensures { Raised file at result (told self.old) (told self.new) };

    /// Waits for a connection. One that is still open is closed.
    fn take(&mut self) -> Result<Taken, Failed>
        ensures { Takes result (told self.old) (told self.new) };

    /// Reads from the connection, and says how many bytes. Zero into a nonempty buffer ends the input.
    fn receive(&mut self, buf: &mut [u8]) -> Result<usize, Failed>
        ensures same_length { length buf.new ≡ length buf.old }
        ensures call { Received result buf.new (told self.old) (told self.new) };

    /// Sends bytes on the connection.
    fn send(&mut self, bytes: &[u8]) -> Result<(), Failed>
        ensures { Gave (Send bytes.now) result (told self.old) (told self.new) };

    /// Closes the connection. What it would still have brought is lost.
    fn close(&mut self)
        ensures { Closes (told self.old) (told self.new) };

    /// Posts bytes to a host.
    fn post(&mut self, host: &str, port: u16, bytes: &[u8]) -> Result<(), Failed>
        ensures { Gave (Post host.now port bytes.now) result (told self.old) (told self.new) };

    /// The clock, in milliseconds.
    fn now(&mut self) -> u64
        ensures { Reads result (told self.old) (told self.new) };
}
