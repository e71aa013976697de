//! The other ends of connections.

ghost use Rattle.std.specs.Io.{ReadsAtMost, WritesAtMost};

use std::alloc::{AllocError, Global};
use std::io;
use std::net::SocketAddr;
use std::time::Duration;

/// A call that would wait.
const EAGAIN: i32 = 11;
/// Nothing more can be sent.
const EPIPE: i32 = 32;
/// The connection is reset.
const ECONNRESET: i32 = 104;
/// The connection isn't one.
const ENOTCONN: i32 = 107;
/// Nobody listens there.
const ECONNREFUSED: i32 = 111;

/// How a connection begins, by the clock.
#[derive(Clone, Copy, Debug, PartialEq, Eq)]
pub enum Begin {
    /// It is there from then on.
    At(Duration),
    /// It is refused then.
    Refused(Duration),
    /// Nothing is heard of it.
    Never,
}

/// How a connection ends, by the clock.
#[derive(Clone, Copy, Debug, PartialEq, Eq)]
pub enum End {
    /// The peer sends nothing more from then on.
    Closed(Duration),
    /// It is reset then.
    Reset(Duration),
    /// It doesn't end.
    Never,
}

/// Bytes that come at a time.
#[derive(Drop)]
struct Piece {
    at: Duration,
    bytes: Vec<u8>,
}

/// The other end of a connection.
#[derive(Drop)]
pub struct Peer {
    pub(crate) address: SocketAddr,
    pub(crate) comes: bool,
    pub(crate) number: Option<i32>,
    begin: Begin,
    end: End,
    pieces: Vec<Piece>,
    next: usize,
    given: usize,
    gave: usize,
    room: usize,
    took: Vec<u8>,
    told: bool,
    shut: bool,
}

fn errno(code: i32) -> io::Error {
    io::Error::from_raw_os_error(code)
}

impl Peer {
    fn new(alloc: Global, address: SocketAddr, comes: bool, begin: Begin) -> Peer {
        Peer {
            address,
            comes,
            number: None,
            begin,
            end: End::Never,
            pieces: Vec::new(alloc),
            next: 0,
            given: 0,
            gave: 0,
            room: usize::MAX,
            took: Vec::new(alloc),
            told: false,
            shut: false,
        }
    }

    /// One that comes to the listener, from this address.
    pub fn coming(alloc: Global, address: SocketAddr, at: Duration) -> Peer {
        Peer::new(alloc, address, true, Begin::At(at))
    }

    /// One that is found at this address.
    pub fn found(alloc: Global, address: SocketAddr, begin: Begin) -> Peer {
        Peer::new(alloc, address, false, begin)
    }

    /// It sends these bytes too. Each piece is read by calls of its own.
    pub fn sends(&mut self, alloc: Global, at: Duration, bytes: &[u8]) -> Result<(), AllocError> {
        let mut kept = Vec::new(alloc);
        kept.extend_from_slice(bytes)?;
        self.pieces.push(Piece { at, bytes: kept })?;
        Ok(())
    }

    /// It ends so.
    pub fn ends(&mut self, end: End) {
        self.end = end;
    }

    /// It takes so many bytes in all, and then no more.
    pub fn takes(&mut self, room: usize) {
        self.room = room;
    }

    /// How many of its bytes were read.
    pub fn gave(&self) -> usize {
        self.gave
    }

    /// What was sent to it.
    pub fn took(&self) -> &[u8] {
        self.took.as_slice()
    }

    /// Whether it was told that nothing more is sent.
    pub fn is_shut(&self) -> bool {
        self.shut
    }

    /// Whether it has a connection, or had one.
    pub fn is_met(&self) -> bool {
        self.number.is_some()
    }

    /// Whether the connection is there.
    pub(crate) fn is_there(&self, now: Duration) -> bool {
        match self.begin {
            Begin::At(at) => at <= now,
            _ => false,
        }
    }

    fn is_refused(&self, now: Duration) -> bool {
        match self.begin {
            Begin::Refused(at) => at <= now,
            _ => false,
        }
    }

    fn is_reset(&self, now: Duration) -> bool {
        match self.end {
            End::Reset(at) => at <= now,
            _ => false,
        }
    }

    fn is_closed(&self, now: Duration) -> bool {
        match self.end {
            End::Closed(at) => at <= now,
            _ => false,
        }
    }

    fn has_come(&self, now: Duration) -> bool {
        match self.pieces.get(self.next) {
            Some(piece) => piece.at <= now,
            None => false,
        }
    }

    /// Whether a read wouldn't wait.
    pub(crate) fn can_read(&self, now: Duration) -> bool {
        let all = self.next >= self.pieces.len();
        self.is_refused(now)
            || self.is_reset(now)
            || self.is_there(now) && (self.has_come(now) || all && self.is_closed(now))
    }

    /// Whether a write wouldn't wait.
    pub(crate) fn can_write(&self, now: Duration) -> bool {
        self.has_failed(now) || self.is_there(now) && self.took.len() < self.room
    }

    /// Whether the connection failed.
    pub(crate) fn has_failed(&self, now: Duration) -> bool {
        self.is_refused(now) || self.is_reset(now)
    }

    /// The fault, once.
    fn failure(&mut self, now: Duration) -> io::Result<()> {
        if self.told || !self.has_failed(now) {
            return Ok(());
        }
        self.told = true;
        if self.is_refused(now) {
            Err(errno(ECONNREFUSED))
        } else {
            Err(errno(ECONNRESET))
        }
    }

    /// Gives at most so many bytes of what has come.
    pub(crate) fn read(&mut self, now: Duration, buf: &mut [u8], most: usize) -> io::Result<usize>
        ensures bound { ReadsAtMost result buf.new }
    {
        self.failure(now)?;
        if most == 0 || !self.can_read(now) {
            return Err(errno(EAGAIN));
        }
        let Some(piece) = self.pieces.get(self.next) else {
            return Ok(0);
        };
        let left = piece.bytes.as_slice().get(self.given..).unwrap_or(&[]);
        let n = buf.len().min(left.len()).min(most);
        buf[..n].copy_from_slice(&left[..n]);
        self.gave = self.gave.saturating_add(n);
        if n < left.len() {
            self.given = self.given.saturating_add(n);
        } else {
            self.next = self.next.saturating_add(1);
            self.given = 0;
        }
        Ok(n)
    }

    /// Takes at most so many of these bytes.
    pub(crate) fn write(&mut self, now: Duration, bytes: &[u8], most: usize) -> io::Result<usize>
        ensures bound { WritesAtMost result bytes.now }
    {
        self.failure(now)?;
        if self.shut || self.has_failed(now) {
            return Err(errno(EPIPE));
        }
        let room = self.room.saturating_sub(self.took.len());
        let n = bytes.len().min(room).min(most);
        if n == 0 || !self.is_there(now) {
            return Err(errno(EAGAIN));
        }
        self.took.extend_from_slice(&bytes[..n])?;
        Ok(n)
    }

    /// Nothing more is sent to it.
    pub(crate) fn shut_down(&mut self, now: Duration) -> io::Result<()> {
        if !self.is_there(now) || self.is_reset(now) {
            return Err(errno(ENOTCONN));
        }
        self.shut = true;
        Ok(())
    }

    /// When something happens next on it.
    pub(crate) fn next_time(&self, now: Duration) -> Option<Duration> {
        let begin = match self.begin {
            Begin::At(at) | Begin::Refused(at) => later(at, now),
            Begin::Never => None,
        };
        if !self.is_met() {
            return begin;
        }
        let end = match self.end {
            End::Closed(at) | End::Reset(at) => later(at, now),
            End::Never => None,
        };
        let piece = match self.pieces.get(self.next) {
            Some(piece) => later(piece.at, now),
            None => None,
        };
        earlier(begin, earlier(end, piece))
    }
}

fn later(at: Duration, now: Duration) -> Option<Duration> {
    if at > now { Some(at) } else { None }
}

/// The earlier of both.
pub(crate) fn earlier(one: Option<Duration>, other: Option<Duration>) -> Option<Duration> {
    match (one, other) {
        (Some(a), Some(b)) => Some(if b < a { b } else { a }),
        (Some(a), None) => Some(a),
        (None, b) => b,
    }
}
