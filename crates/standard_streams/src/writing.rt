//! A sink over a writer that may be slow.

ghost use Rattle.std.specs.Prelude.{◌≡◌};
ghost use Rattle.std.specs.Io.{WritesAtMost};
ghost use Rattle.std.specs.Io.KnownBytes.{WriteAppends};

use libc::net::poll;
use libc::types::pollfd;
use site_model::sink::Sink;
use site_model::source::Failed;
use std::io::{self, ErrorKind, Write};
use std::os::fd::AsRawFd;

/// So many bytes a pipe takes at once where it takes any (PIPE_BUF of Linux).
const PIPE_BYTES: usize = 4096;

/// How often a write that was interrupted, or would have waited, is tried again.
const ATTEMPTS: u32 = 1000;

/// What poll is asked: whether a write wouldn't wait.
const WRITABLE: i16 = 4;

/// A sink over a writer. A write that is interrupted is tried again, and one that nobody takes is waited for, so many seconds
/// at most: then it failed.
#[derive(Drop)]
pub struct Writing<W: Write + AsRawFd> {
    inner: W,
    seconds: u32,
    faults: u64,
}

/// Whether a write wouldn't wait any more, within so many seconds.
fn is_taken(number: i32, seconds: u32) -> bool {
    for second in 0..=seconds {
        let mut asks = [pollfd {
            fd: number,
            events: WRITABLE,
            revents: 0,
        }];
        let millis = if second == 0 { 0 } else { 1000 };
        if poll(&mut asks, millis) > 0 {
            return true;
        }
    }
    false
}

/// Whether the same write may go well later.
fn passes(fault: &io::Error) -> bool {
    matches!(fault.kind(), ErrorKind::Interrupted | ErrorKind::WouldBlock)
}

/// One write, of no more than a pipe takes at once.
fn write_front<W: Write>(inner: &mut W, piece: &[u8]) -> io::Result<usize>
    ensures bound { WritesAtMost result piece.now }
    ensures bytes { WriteAppends (W.contents inner.old) (W.contents inner.new) result piece.now }
{
    inner.write(&piece[..piece.len().min(PIPE_BYTES)])
}

/// One write that was taken. A fault that passes is waited out.
#[tactic(auto, using(crate::proofs::Writes::kept, crate::proofs::Writes::kept_on, crate::proofs::Writes::appended))]
fn written<W: Write + AsRawFd>(inner: &mut W, seconds: u32, piece: &[u8]) -> Result<usize, Failed>
    ensures bound { WritesAtMost result piece.now }
    ensures bytes { WriteAppends (W.contents inner.old) (W.contents inner.new) result piece.now }
{
    for _ in 0..ATTEMPTS {
        if !is_taken(inner.as_raw_fd(), seconds) {
            return Err(Failed);
        }
        match write_front(inner, piece) {
            Ok(n) => return Ok(n),
            Err(fault) if passes(&fault) => {}
            Err(_) => return Err(Failed),
        }
    }
    Err(Failed)
}

impl<W: Write + AsRawFd> Writing<W> {
    /// A sink over this writer, which waits so many seconds for whoever takes what is written.
    pub fn new(inner: W, seconds: u32) -> Writing<W>
        ensures { result.inner ≡ inner }
    {
        Writing {
            inner,
            seconds,
            faults: 0,
        }
    }
}

impl<W: Write + AsRawFd> Sink for Writing<W> {
    ghost contents = { λ s. W.contents s.inner };

    ghost faults = { λ s. s.faults };

    fn write(&mut self, piece: &[u8]) -> Result<usize, Failed> {
        match written(&mut self.inner, self.seconds, piece) {
            Ok(0) => {
                self.faults = self.faults.saturating_add(1);
                Ok(0)
            }
            Ok(n) => Ok(n),
            Err(fault) => {
                self.faults = self.faults.saturating_add(1);
                Err(fault)
            }
        }
    }
}
