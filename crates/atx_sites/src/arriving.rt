//! One connection that is read aside.

ghost use Rattle.std.specs.Prelude.{◌≡◌, ◌≤◌, ◌<◌, ◌+◌, [], length};
ghost use Rattle.system_calls.specs.Calls.{Calls, Number};
ghost use Rattle.atx_sites.specs.Arrivals.{Grows, HasCome, Stays, is_coming, is_due, is_more, is_read, is_ready, is_silent};
ghost use Rattle.atx_sites.specs.Interim.{Hears, HearsAndSays, Says, interim};
ghost use Rattle.atx_sites.specs.LinkCalls.{Later};

use crate::deadlines::{has_passed, left};
use crate::framing::{Progress, Stage, come_to};
use crate::pages::page_of;
use crate::ticks::asks_tick;
use httparse::spans::HeaderSpan;
use libc::net::{POLLIN, POLLOUT};
use libc::types::pollfd;
use std::alloc::Global;
use std::io::{self, ErrorKind};
use std::net::SocketAddr;
use std::os::fd::AsRawFd;
use std::time::Duration;
use system_calls::system::System;

/// The most bytes that are read aside of one connection.
const MOST_BYTES: usize = 131_072;

/// The most bytes of one read.
const PIECE_BYTES: usize = 8192;

/// The interim line, and the empty line that ends it (RFC 9110, section 15.2.1).
pub(crate) fn interim() -> &'static [u8]
    ensures { result.now ≡ interim }
{
    b"HTTP/1.1 100 Continue\r\n\r\n"
}

/// Whether more may come on a connection.
#[derive(Clone, Copy, Debug, PartialEq, Eq)]
pub(crate) enum Rest {
    More,
    /// The peer sends nothing more.
    Ended,
    /// Reading failed.
    Failed,
}

/// A connection that is read aside, until its request is whole.
#[derive(Drop)]
pub(crate) struct Arriving<C> {
    pub(crate) stream: C,
    /// The address that it comes from.
    pub(crate) peer: SocketAddr,
    pub(crate) bytes: Vec<u8>,
    pub(crate) rest: Rest,
    /// The time at which it has been read for long enough.
    pub(crate) ends: Duration,
    pub(crate) progress: Progress,
    /// How many bytes of the interim line the system took.
    pub(crate) said: usize,
    /// Whether there was no memory for more when it was read last.
    pub(crate) lacks: bool,
}

/// What the system is asked of a descriptor: whether there is something to read. It passes over a negative one.
pub(crate) fn asked(fd: i32) -> pollfd {
    pollfd {
        fd,
        events: POLLIN,
        revents: 0,
    }
}

/// Whether more may come where a read failed so.
fn passes(kind: ErrorKind) -> bool {
    matches!(kind, ErrorKind::WouldBlock | ErrorKind::Interrupted)
}

impl<C> Arriving<C> {
    pub(crate) fn new(alloc: Global, stream: C, peer: SocketAddr, ends: Duration) -> Arriving<C>
        ensures stream { (result.stream ≡ stream) × (result.peer ≡ peer) }
        ensures bytes { result.bytes.items ≡ [] }
        ensures ends { result.ends ≡ ends }
    {
        Arriving {
            stream,
            peer,
            bytes: Vec::new(alloc),
            rest: Rest::More,
            ends,
            progress: Progress {
                stage: Stage::Head,
                waits: false,
            },
            said: 0,
            lacks: false,
        }
    }

    /// Whether more of it is to be read aside.
    pub(crate) fn is_coming(&self) -> bool
        ensures { result ≡ is_coming self.now }
    {
        is_more(self.rest) && !is_read(self.progress.stage) && self.bytes.len() < MOST_BYTES
    }

    /// Whether a web page sent it.
    pub(crate) fn is_foreign(&self) -> bool {
        self.progress.stage == Stage::Foreign
    }

    /// Whether it asks for a tick, and comes from another machine than the node's own.
    pub(crate) fn is_strange_tick(&self) -> bool {
        !self.peer.ip().to_canonical().is_loopback() && asks_tick(self.bytes.as_slice())
    }

    /// Whether its request is whole, and asks for a page.
    pub(crate) fn asks_page(&self) -> bool {
        self.progress.stage == Stage::Whole && page_of(self.bytes.as_slice()).is_some()
    }

    /// Whether its turn may come: its request is whole, it ended or failed, or its time is over.
    pub(crate) fn is_ready(&self, now: Duration) -> bool
        ensures { result ≡ is_ready now self.now }
    {
        !self.is_coming() || has_passed(self.ends, now)
    }

    /// Whether its time is over, and nothing came.
    pub(crate) fn is_silent(&self, now: Duration) -> bool
        ensures { result ≡ is_silent now self.now }
    {
        is_more(self.rest) && self.bytes.is_empty() && has_passed(self.ends, now)
    }

    /// Whether its client waits for the interim line, of which some isn't out.
    pub(crate) fn is_due(&self) -> bool
        ensures { result ≡ is_due self.now }
    {
        self.progress.waits && self.said < interim().len() && self.is_coming()
    }
}

fn is_more(rest: Rest) -> bool
    ensures { result ≡ is_more rest }
{
    matches!(rest, Rest::More)
}

/// Whether nothing more of a request is read aside at a stage.
fn is_read(stage: Stage) -> bool
    ensures { result ≡ is_read stage }
{
    matches!(stage, Stage::Whole | Stage::Foreign)
}

/// What the system is asked of a connection that is read aside: nothing, unless it is to be looked at, and where there was no
/// memory for what is there.
pub(crate) fn asked_of<C: AsRawFd>(arriving: &Arriving<C>, looks: bool) -> pollfd {
    let mut ask = asked(if looks && !arriving.lacks {
        arriving.stream.as_raw_fd()
    } else {
        -1
    });
    if arriving.is_due() {
        ask.events = POLLIN | POLLOUT;
    }
    ask
}

/// Reads once what has come, at most so many bytes and at most 8,192, and says how many. Where there is no memory for so many,
/// nothing is read: what has come stays with the system.
#[tactic(auto, using(crate::proofs::Comings::came_read, crate::proofs::Comings::came_by, crate::proofs::Comings::late_by, crate::proofs::Comings::grown, crate::proofs::Comings::no_more))]
fn read_once<S: System>(system: &mut S, arriving: &mut Arriving<S::Stream>, most: usize) -> usize
    ensures came { (listener : Number) → HasCome S.Stream.raw_fd listener (S.calls system.old) arriving.old → HasCome S.Stream.raw_fd listener (S.calls system.new) arriving.new }
    ensures grows { Grows arriving.old.bytes.items arriving.new.bytes.items }
    ensures later { Later (S.calls system.old) (S.calls system.new) }
    ensures most { length arriving.new.bytes.items ≤ length arriving.old.bytes.items + most }
    ensures hears { (first : Calls) → Hears (S.Stream.raw_fd arriving.old.stream) first (S.calls system.old) → Hears (S.Stream.raw_fd arriving.old.stream) first (S.calls system.new) }
    ensures stays { Stays arriving.old arriving.new × (arriving.new.said ≡ arriving.old.said) }
{
    let mut buf = [0u8; PIECE_BYTES];
    let piece = &mut buf[..most.min(PIECE_BYTES)];
    arriving.lacks = arriving.bytes.reserve(piece.len()).is_err();
    if arriving.lacks {
        return 0;
    }
    match system.read(&arriving.stream, piece) {
        Ok(0) => arriving.rest = Rest::Ended,
        Ok(n) => match arriving.bytes.extend_from_slice(&piece[..n]) {
            Ok(()) => return n,
            Err(_) => arriving.rest = Rest::Failed,
        },
        Err(fault) => {
            if !passes(fault.kind()) {
                arriving.rest = Rest::Failed;
            }
        }
    }
    0
}

/// Reads what has come, until its request is whole, and at most so many bytes more.
#[tactic(auto, using(crate::proofs::Comings::as_late, crate::proofs::Comings::later_still))]
pub(crate) fn read_aside<S: System>(
    system: &mut S,
    arriving: &mut Arriving<S::Stream>,
    places: &mut [HeaderSpan],
    more: usize,
)
    ensures came { (listener : Number) → HasCome S.Stream.raw_fd listener (S.calls system.old) arriving.old → HasCome S.Stream.raw_fd listener (S.calls system.new) arriving.new }
    ensures later { Later (S.calls system.old) (S.calls system.new) }
    ensures most { length arriving.new.bytes.items ≤ length arriving.old.bytes.items + more }
    ensures bound { length arriving.old.bytes.items ≤ 131_072 → length arriving.new.bytes.items ≤ 131_072 }
    ensures hears { Hears (S.Stream.raw_fd arriving.old.stream) (S.calls system.old) (S.calls system.new) }
    ensures stays { Stays arriving.old arriving.new × (arriving.new.said ≡ arriving.old.said) }
{
    let most = MOST_BYTES.min(arriving.bytes.len().saturating_add(more));
    'reads: for _ in 0..u16::MAX {
        let had = arriving.bytes.len();
        if !arriving.is_coming() || had >= most {
            return;
        }
        let n = read_once(system, arriving, most - had);
        arriving.progress = come_to(arriving.progress, arriving.bytes.as_slice(), places);
        if n < PIECE_BYTES {
            return;
        }
    }
}

/// Hands the system what it hasn't taken of the interim line, once. Where that fails, so did the connection.
fn say<S: System>(system: &mut S, arriving: &mut Arriving<S::Stream>)
    requires { arriving.old.said < length interim }
    ensures says { Says S.Stream.raw_fd arriving.old arriving.new (S.calls system.old) (S.calls system.new) }
    ensures same { (arriving.new.bytes ≡ arriving.old.bytes) × Stays arriving.old arriving.new }
{
    match system.write(&arriving.stream, &interim()[arriving.said..]) {
        Ok(0) => arriving.rest = Rest::Failed,
        Ok(n) => arriving.said += n,
        Err(fault) => {
            if !passes(fault.kind()) {
                arriving.rest = Rest::Failed;
            }
        }
    }
}

/// Reads aside what has come, at most so many bytes more, and then says the interim line where the client waits for that.
pub(crate) fn hear<S: System>(
    system: &mut S,
    arriving: &mut Arriving<S::Stream>,
    places: &mut [HeaderSpan],
    more: usize,
)
    ensures came { (listener : Number) → HasCome S.Stream.raw_fd listener (S.calls system.old) arriving.old → HasCome S.Stream.raw_fd listener (S.calls system.new) arriving.new }
    ensures later { Later (S.calls system.old) (S.calls system.new) }
    ensures most { length arriving.new.bytes.items ≤ length arriving.old.bytes.items + more }
    ensures bound { length arriving.old.bytes.items ≤ 131_072 → length arriving.new.bytes.items ≤ 131_072 }
    ensures stays { Stays arriving.old arriving.new }
    ensures calls { HearsAndSays S.Stream.raw_fd arriving.old arriving.new (S.calls system.old) (S.calls system.new) }
{
    read_aside(system, arriving, places, more);
    if arriving.is_due() {
        say(system, arriving);
    }
}

/// Reads on until more than so many bytes came, or the connection ended or failed. Its time may be over before that.
#[tactic(auto, using(crate::proofs::Comings::as_late, crate::proofs::Comings::late_by, crate::proofs::Comings::later_still, crate::proofs::Comings::still_came, crate::proofs::Comings::no_more, crate::proofs::Comings::grown_more))]
pub(crate) fn read_on<S: System>(
    system: &mut S,
    arriving: &mut Arriving<S::Stream>,
    had: usize,
) -> io::Result<()>
    ensures came { (listener : Number) → HasCome S.Stream.raw_fd listener (S.calls system.old) arriving.old → HasCome S.Stream.raw_fd listener (S.calls system.new) arriving.new }
    ensures grows { Grows arriving.old.bytes.items arriving.new.bytes.items }
    ensures later { Later (S.calls system.old) (S.calls system.new) }
{
    'reads: for _ in 0..u32::MAX {
        if arriving.bytes.len() > had || arriving.rest != Rest::More {
            return Ok(());
        }
        let millis = left(system, arriving.ends)?;
        let n = read_once(system, arriving, PIECE_BYTES);
        if arriving.lacks {
            return Err(ErrorKind::OutOfMemory.into());
        }
        if n == 0 && arriving.rest == Rest::More {
            let mut asks = [asked(arriving.stream.as_raw_fd())];
            system.poll(&mut asks, millis);
        }
    }
    Err(ErrorKind::TimedOut.into())
}
