//! The calls of the system.

use libc::types::pollfd;
use std::io;
use std::net::{HostAddrs, SocketAddr};
use std::os::fd::AsRawFd;
use std::time::Duration;

/// What the system says of a file.
#[derive(Clone, Copy, Debug, PartialEq, Eq)]
pub struct Stat {
    /// A regular file: no folder, device or pipe.
    pub is_file: bool,
    /// Its bytes.
    pub bytes: u64,
}

/// The calls of the system that a node's machine makes: each is one call, and nothing is decided in it.
///
/// It may tell its calls so far, each with its arguments and its answer. A file, a listener and a connection are known by
/// their numbers (`as_raw_fd`), and are closed where they are dropped.
pub trait System {
    ghost use Rattle.std.specs.Prelude.{◌≡◌, List, Option};
    ghost use Rattle.std.specs.Io.{ReadsAtMost, WritesAtMost};
    ghost use Rattle.std.specs.Net.ToAddrs.{host_addrs};
    ghost use Rattle.system_calls.specs.Calls.{Call, answer, came, given, then};
    ghost use Rattle.system_calls.specs.Calls.Call.{Open, OpenFolder, Duplicate, Examine, Lock, ReadAt, WriteAt, Sync, Forget, Listen, Accept, Resolve, Connect, Poll, Read, Write, ShutDown, Monotonic};

    type File: AsRawFd + Drop;

    type Listener: AsRawFd + Drop;

    type Stream: AsRawFd + Drop;

    ghost calls: { Self → Option (List Call) };

    /// Opens a file for reading and writing, and makes it where it isn't there.
    fn open(&mut self, name: &str) -> io::Result<Self::File>
        ensures { calls self.new ≡ then (Open name.now (answer Self.File.raw_fd result)) (calls self.old) };

    /// Opens a folder.
    fn open_folder(&mut self, name: &str) -> io::Result<Self::File>
        ensures { calls self.new ≡ then (OpenFolder name.now (answer Self.File.raw_fd result)) (calls self.old) };

    /// Gives an open file another number, above those of the standard streams.
    fn duplicate(&mut self, file: &Self::File) -> io::Result<Self::File>
        ensures { calls self.new ≡ then (Duplicate (Self.File.raw_fd file.now) (answer Self.File.raw_fd result)) (calls self.old) };

    /// What kind of file it is, and its bytes.
    fn examine(&mut self, file: &Self::File) -> io::Result<Stat>
        ensures { calls self.new ≡ then (Examine (Self.File.raw_fd file.now) result) (calls self.old) };

    /// Locks a file for this process alone. Where another has it, the call fails at once.
    fn lock(&mut self, file: &Self::File) -> io::Result<()>
        ensures { calls self.new ≡ then (Lock (Self.File.raw_fd file.now) result) (calls self.old) };

    /// Reads from a place on, and says how many bytes. Zero into a nonempty buffer is the end of the file.
    fn read_at(&mut self, file: &Self::File, buf: &mut [u8], at: u64) -> io::Result<usize>
        ensures bound { ReadsAtMost result buf.new }
        ensures calls { calls self.new ≡ then (ReadAt (Self.File.raw_fd file.now) at (given buf.new result)) (calls self.old) };

    /// Writes at a place, and says how many of the bytes.
    fn write_at(&mut self, file: &Self::File, bytes: &[u8], at: u64) -> io::Result<usize>
        ensures bound { WritesAtMost result bytes.now }
        ensures calls { calls self.new ≡ then (WriteAt (Self.File.raw_fd file.now) at bytes.now result) (calls self.old) };

    /// Makes last what was written, data and metadata; of a folder, which files it has.
    fn sync(&mut self, file: &Self::File) -> io::Result<()>
        ensures { calls self.new ≡ then (Sync (Self.File.raw_fd file.now) result) (calls self.old) };

    /// Drops what is held of a file in memory, so that it is read from the disk.
    fn forget(&mut self, file: &Self::File) -> io::Result<()>
        ensures { calls self.new ≡ then (Forget (Self.File.raw_fd file.now) result) (calls self.old) };

    /// Listens at an address. Accepting there never waits.
    fn listen(&mut self, address: &str) -> io::Result<Self::Listener>
        ensures { calls self.new ≡ then (Listen address.now (answer Self.Listener.raw_fd result)) (calls self.old) };

    /// Accepts a connection, with the address that it comes from, or fails as one that would wait. Reading and writing on it
    /// never wait.
    fn accept(&mut self, listener: &Self::Listener) -> io::Result<(Self::Stream, SocketAddr)>
        ensures { calls self.new ≡ then (Accept (Self.Listener.raw_fd listener.now) (answer (came Self.Stream.raw_fd) result)) (calls self.old) };

    /// The addresses of a host at a port. A host that isn't an address is looked up, without a limit of time.
    fn resolve(&mut self, host: &str, port: u16) -> io::Result<HostAddrs>
        ensures { calls self.new ≡ then (Resolve host.now port (answer host_addrs result)) (calls self.old) };

    /// Begins to connect to an address, and doesn't wait: once poll says that the connection can be written, the next write
    /// tells what became of it. Reading and writing on it never wait.
    fn connect(&mut self, address: &SocketAddr) -> io::Result<Self::Stream>
        ensures { calls self.new ≡ then (Connect address.now (answer Self.Stream.raw_fd result)) (calls self.old) };

    /// Waits so many milliseconds, without a limit where that is negative, until one of these numbers is as it is asked, and
    /// says of each what was found, and of how many. It passes over negative numbers.
    fn poll(&mut self, asks: &mut [pollfd], millis: i32) -> i32
        ensures { calls self.new ≡ then (Poll asks.old millis asks.new result) (calls self.old) };

    /// Reads what has come, and says how many bytes, or fails as one that would wait. Zero into a nonempty buffer is the end.
    fn read(&mut self, stream: &Self::Stream, buf: &mut [u8]) -> io::Result<usize>
        ensures bound { ReadsAtMost result buf.new }
        ensures calls { calls self.new ≡ then (Read (Self.Stream.raw_fd stream.now) (given buf.new result)) (calls self.old) };

    /// Hands bytes to the system, and says how many it took, or fails as one that would wait.
    fn write(&mut self, stream: &Self::Stream, bytes: &[u8]) -> io::Result<usize>
        ensures bound { WritesAtMost result bytes.now }
        ensures calls { calls self.new ≡ then (Write (Self.Stream.raw_fd stream.now) bytes.now result) (calls self.old) };

    /// Sends nothing more.
    fn shut_down(&mut self, stream: &Self::Stream) -> io::Result<()>
        ensures { calls self.new ≡ then (ShutDown (Self.Stream.raw_fd stream.now) result) (calls self.old) };

    /// The clock that never goes back: the time since some moment.
    fn monotonic(&mut self) -> io::Result<Duration>
        ensures { calls self.new ≡ then (Monotonic result) (calls self.old) };
}
