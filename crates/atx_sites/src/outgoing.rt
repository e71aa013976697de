//! One connection with bytes that leave.

ghost use Rattle.std.specs.Prelude.{[], ◌≡◌, ◌≤◌, ◌<◌, ◌⊎◌, ◌+◌, ◌*◌, ℕ, List, false, length, nat_lt, true};
ghost use Rattle.std.specs.Duration.{as_nanos};
ghost use Rattle.std.specs.declared.net.SocketAddr.{SocketAddr};
ghost use Rattle.atx_sites.specs.Departures.{Begins, Goes, GoesInTime, HasFive, IfOut, StaysInTime, is_last, is_lost, is_over, rank};
ghost use Rattle.atx_sites.specs.Deadlines.{has_passed};

use crate::deadlines::has_passed;
use std::alloc::Global;
use std::io::ErrorKind;
use std::net::SocketAddr;
use std::time::Duration;
use system_calls::system::System;

/// The seconds in which one of a host's addresses must accept a connection.
const CONNECT_SECONDS: u64 = 5;

/// The seconds in which the system must take all bytes, from when the connection stands.
pub(crate) const SEND_SECONDS: u64 = 5;

/// The seconds for which what a peer answers to a post is read away.
const ANSWER_SECONDS: u64 = 5;

/// The seconds for which what a peer still sends behind an answer is read away.
const LINGER_SECONDS: u64 = 1;

/// The most reads at once of what is read away.
const READS: usize = 64;

/// How far a connection is that has bytes to send.
#[derive(Clone, Copy, Debug, PartialEq, Eq)]
pub enum Stage {
    /// No address has taken a byte yet.
    Connecting,
    /// The connection stands, and bytes are left.
    Sending,
    /// All bytes are out, and what the peer sends is read away.
    Ending,
    /// Nothing more is done: all bytes are out.
    Over,
    /// Nothing more is done: not all bytes are out.
    Lost,
}

/// One connection with bytes that leave, which never waits.
#[derive(Drop)]
pub struct Outgoing<C> {
    pub(crate) stream: C,
    pub(crate) bytes: Vec<u8>,
    /// How many of the bytes the system took.
    pub(crate) done: usize,
    pub(crate) stage: Stage,
    /// When it is given up.
    pub(crate) ends: Duration,
    /// Whether nothing more is sent behind its bytes.
    shuts: bool,
    /// The addresses of its host, of which those before `next` were tried.
    pub(crate) addresses: Vec<SocketAddr>,
    pub(crate) next: usize,
}

/// The time so many seconds from now.
fn in_seconds(now: Duration, seconds: u64) -> Duration
    ensures { as_nanos result ≤ as_nanos now + seconds * 1_000_000_000 }
{
    now.saturating_add(Duration::from_secs(seconds))
}

impl<C: Drop> Outgoing<C> {
    /// A post, on a connection that was begun to one of the addresses before `next`.
    pub(crate) fn post(
        stream: C,
        addresses: Vec<SocketAddr>,
        next: usize,
        bytes: Vec<u8>,
        now: Duration,
    ) -> Outgoing<C>
        ensures { (result.stream ≡ stream) × (result.addresses ≡ addresses) × (result.bytes ≡ bytes) × (result.done ≡ 0) × HasFive now result }
    {
        Outgoing {
            stream,
            bytes,
            done: 0,
            stage: Stage::Connecting,
            ends: in_seconds(now, CONNECT_SECONDS),
            shuts: false,
            addresses,
            next,
        }
    }

    /// What is left of an answer, of which the system took `done` bytes.
    pub(crate) fn answer(
        alloc: Global,
        stream: C,
        bytes: Vec<u8>,
        done: usize,
        now: Duration,
    ) -> Outgoing<C>
        ensures { (result.stream ≡ stream) × (result.bytes ≡ bytes) × (result.done ≡ done) × (result.addresses.items ≡ []) × HasFive now result }
    {
        Outgoing {
            stream,
            bytes,
            done,
            stage: Stage::Sending,
            ends: in_seconds(now, SEND_SECONDS),
            shuts: true,
            addresses: Vec::new(alloc),
            next: 0,
        }
    }

    /// Whether the system took all bytes.
    pub(crate) fn is_out(&self) -> bool
        ensures { IfOut result (length self.now.bytes.items) self.now.done }
    {
        is_taken(&self.bytes, self.done)
    }

    /// What it is when nothing more is to be done.
    fn closed(&self) -> Stage
        ensures { is_last result ≡ true }
    {
        if self.is_out() {
            Stage::Over
        } else {
            Stage::Lost
        }
    }

    /// Whether nothing more is to be done, and the connection can be closed.
    pub(crate) fn is_over(&self) -> bool
        ensures { result ≡ is_over self.now }
    {
        matches!(self.stage, Stage::Over | Stage::Lost)
    }

    pub(crate) fn is_lost(&self) -> bool
        ensures { result ≡ is_lost self.now }
    {
        matches!(self.stage, Stage::Lost)
    }

    /// Whether all bytes are out, and what the peer sends is read away.
    pub(crate) fn is_ending(&self) -> bool {
        matches!(self.stage, Stage::Ending)
    }
}

/// Whether its bytes are still to be sent.
fn is_sending(stage: Stage) -> bool
    ensures { result ≡ nat_lt (rank stage) 2 }
{
    matches!(stage, Stage::Connecting | Stage::Sending)
}

/// Whether so many are all bytes.
pub(crate) fn is_taken(bytes: &[u8], done: usize) -> bool
    ensures { IfOut result (length bytes.now) done }
{
    done >= bytes.len()
}

/// Begins to connect to the first of the addresses from `next` on for which the system does.
#[tactic(auto, using(crate::proofs::Leavings::untried, crate::proofs::Leavings::tried, crate::proofs::Leavings::begins))]
pub(crate) fn connect<S: System>(
    system: &mut S,
    addresses: &[SocketAddr],
    next: &mut usize,
) -> Option<S::Stream>
    ensures { Begins S.Stream.raw_fd addresses.now result (S.calls system.old) (S.calls system.new) }
{
    'tries: for _ in 0..addresses.len() {
        let at = *next;
        if at >= addresses.len() {
            return None;
        }
        let address = addresses[at];
        *next = at + 1;
        match system.connect(&address) {
            Ok(stream) => return Some(stream),
            Err(_) => {}
        }
    }
    None
}

/// Hands bytes to the system from `done` on, as many as it takes without waiting. Whether the connection still stands, or may.
#[tactic(auto, using(crate::proofs::Leavings::stays, crate::proofs::Leavings::goes_took, crate::proofs::Leavings::goes_failed))]
fn write<S: System>(system: &mut S, stream: &S::Stream, bytes: &[u8], done: &mut usize) -> bool
    ensures { (addresses : List SocketAddr) → Goes addresses bytes.now (S.Stream.raw_fd stream.now) done.old (S.calls system.old) (S.Stream.raw_fd stream.now) done.new (S.calls system.new) }
{
    'pieces: for _ in 0..u32::MAX {
        if *done >= bytes.len() {
            return true;
        }
        match system.write(stream, &bytes[*done..]) {
            Ok(0) => return false,
            Ok(n) => *done += n,
            Err(fault) if fault.kind() == ErrorKind::Interrupted => {}
            Err(fault) => return fault.kind() == ErrorKind::WouldBlock,
        }
    }
    true
}

/// Writes; where an address failed before it took a byte, the next one is tried. Whether the connection still stands, or may.
#[tactic(auto, using(crate::proofs::Leavings::stays, crate::proofs::Leavings::goes_then, crate::proofs::Leavings::goes_begun, crate::proofs::Leavings::goes_unreached))]
fn send<S: System>(
    system: &mut S,
    addresses: &[SocketAddr],
    next: &mut usize,
    stream: &mut S::Stream,
    bytes: &[u8],
    done: &mut usize,
) -> bool
    ensures { Goes addresses.now bytes.now (S.Stream.raw_fd stream.old) done.old (S.calls system.old) (S.Stream.raw_fd stream.new) done.new (S.calls system.new) }
{
    'addresses: for _ in 0..addresses.len() {
        if write(system, stream, bytes, done) {
            return true;
        }
        if *done > 0 {
            return false;
        }
        match connect(system, addresses, next) {
            Some(begun) => *stream = begun,
            None => return false,
        }
    }
    write(system, stream, bytes, done)
}

/// Reads away what has come. Whether more may come.
#[tactic(auto, using(crate::proofs::Leavings::stays, crate::proofs::Leavings::goes_read))]
fn read_away<S: System>(system: &mut S, stream: &S::Stream) -> bool
    ensures { (addresses : List SocketAddr) (bytes : List ℕ) (k : ℕ) → length bytes ≤ k → Goes addresses bytes (S.Stream.raw_fd stream.now) k (S.calls system.old) (S.Stream.raw_fd stream.now) k (S.calls system.new) }
{
    let mut buf = [0u8; 4096];
    'reads: for _ in 0..READS {
        match system.read(stream, &mut buf) {
            Ok(0) => return false,
            Ok(_) => {}
            Err(fault) if fault.kind() == ErrorKind::Interrupted => {}
            Err(fault) => return fault.kind() == ErrorKind::WouldBlock,
        }
    }
    true
}

/// How far a connection is whose bytes aren't all out, behind a few writes.
fn sending(before: Stage, done: usize, stands: bool) -> Stage {
    if !stands {
        Stage::Lost
    } else if done > 0 {
        Stage::Sending
    } else {
        before
    }
}

/// Behind the last byte: where it is an answer, nothing more is sent.
#[tactic(auto, using(crate::proofs::Leavings::stays, crate::proofs::Leavings::goes_shut))]
fn end<S: System>(system: &mut S, outgoing: &mut Outgoing<S::Stream>, now: Duration)
    ensures calls { length outgoing.old.bytes.items ≤ outgoing.old.done → Goes outgoing.old.addresses.items outgoing.old.bytes.items (S.Stream.raw_fd outgoing.old.stream) outgoing.old.done (S.calls system.old) (S.Stream.raw_fd outgoing.new.stream) outgoing.new.done (S.calls system.new) }
    ensures same { (outgoing.new.bytes ≡ outgoing.old.bytes) × (outgoing.new.addresses ≡ outgoing.old.addresses) }
    ensures time { (2 ≤ rank outgoing.new.stage) × HasFive now outgoing.new }
{
    outgoing.stage = Stage::Ending;
    if outgoing.shuts {
        outgoing.ends = in_seconds(now, LINGER_SECONDS);
        if system.shut_down(&outgoing.stream).is_err() {
            outgoing.stage = Stage::Over;
        }
    } else {
        outgoing.ends = in_seconds(now, ANSWER_SECONDS);
    }
}

/// Sends what can be sent now.
fn go_sending<S: System>(system: &mut S, outgoing: &mut Outgoing<S::Stream>, now: Duration)
    ensures calls { Goes outgoing.old.addresses.items outgoing.old.bytes.items (S.Stream.raw_fd outgoing.old.stream) outgoing.old.done (S.calls system.old) (S.Stream.raw_fd outgoing.new.stream) outgoing.new.done (S.calls system.new) }
    ensures same { (outgoing.new.bytes ≡ outgoing.old.bytes) × (outgoing.new.addresses ≡ outgoing.old.addresses) }
    ensures time { rank outgoing.old.stage < 2 → StaysInTime now outgoing.old outgoing.new }
{
    let stands = send(
        system,
        &outgoing.addresses,
        &mut outgoing.next,
        &mut outgoing.stream,
        &outgoing.bytes,
        &mut outgoing.done,
    );
    if outgoing.is_out() {
        end(system, outgoing, now);
        return;
    }
    let stage = sending(outgoing.stage, outgoing.done, stands);
    stand(outgoing, stage, now);
}

/// It came to a stage before its last byte: where the connection stands only now, its bytes have their time from now on.
fn stand<C>(outgoing: &mut Outgoing<C>, stage: Stage, now: Duration)
    ensures same { outgoing.new ≡ record outgoing.old { stage = stage; ends = outgoing.new.ends } }
    ensures time { StaysInTime now outgoing.old outgoing.new }
{
    match (outgoing.stage, stage) {
        (Stage::Connecting, Stage::Sending) => {
            outgoing.ends = in_seconds(now, SEND_SECONDS);
            outgoing.stage = Stage::Sending;
        }
        _ => outgoing.stage = stage,
    }
}

/// Reads away what can be read now.
fn go_ending<S: System>(system: &mut S, outgoing: &mut Outgoing<S::Stream>)
    ensures calls { Goes outgoing.old.addresses.items outgoing.old.bytes.items (S.Stream.raw_fd outgoing.old.stream) outgoing.old.done (S.calls system.old) (S.Stream.raw_fd outgoing.new.stream) outgoing.new.done (S.calls system.new) }
    ensures same { (outgoing.new.bytes ≡ outgoing.old.bytes) × (outgoing.new.addresses ≡ outgoing.old.addresses) }
    ensures time { (outgoing.new.ends ≡ outgoing.old.ends) × (rank outgoing.old.stage ≤ rank outgoing.new.stage) }
{
    if !outgoing.is_out() || !read_away(system, &outgoing.stream) {
        outgoing.stage = outgoing.closed();
    }
}

/// Sends or reads away what can be now.
fn go_on<S: System>(system: &mut S, outgoing: &mut Outgoing<S::Stream>, now: Duration)
    ensures calls { Goes outgoing.old.addresses.items outgoing.old.bytes.items (S.Stream.raw_fd outgoing.old.stream) outgoing.old.done (S.calls system.old) (S.Stream.raw_fd outgoing.new.stream) outgoing.new.done (S.calls system.new) }
    ensures same { (outgoing.new.bytes ≡ outgoing.old.bytes) × (outgoing.new.addresses ≡ outgoing.old.addresses) }
    ensures time { StaysInTime now outgoing.old outgoing.new }
{
    if is_sending(outgoing.stage) {
        go_sending(system, outgoing, now);
    }
    if outgoing.is_ending() {
        go_ending(system, outgoing);
    }
}

/// Gives it up where its time is over.
fn give_up<C: Drop>(outgoing: &mut Outgoing<C>, now: Duration)
    ensures same { outgoing.new ≡ record outgoing.old { stage = outgoing.new.stage } }
    ensures rank { rank outgoing.old.stage ≤ rank outgoing.new.stage }
    ensures late { is_over outgoing.new ≡ false → has_passed now outgoing.new.ends ≡ false }
    ensures early { has_passed now outgoing.old.ends ≡ false → outgoing.new ≡ outgoing.old }
{
    if has_passed(outgoing.ends, now) && !outgoing.is_over() {
        outgoing.stage = outgoing.closed();
    }
}

/// Does what can be done now without waiting.
pub(crate) fn go<S: System>(system: &mut S, outgoing: &mut Outgoing<S::Stream>, now: Duration)
    ensures calls { Goes outgoing.old.addresses.items outgoing.old.bytes.items (S.Stream.raw_fd outgoing.old.stream) outgoing.old.done (S.calls system.old) (S.Stream.raw_fd outgoing.new.stream) outgoing.new.done (S.calls system.new) }
    ensures same { (outgoing.new.bytes ≡ outgoing.old.bytes) × (outgoing.new.addresses ≡ outgoing.old.addresses) }
    ensures time { GoesInTime now outgoing.old outgoing.new }
{
    go_on(system, outgoing, now);
    give_up(outgoing, now);
}

/// Does what can be done now, where poll found something or its time is over.
#[tactic(auto, using(crate::proofs::Leavings::stays))]
pub(crate) fn go_where<S: System>(
    system: &mut S,
    outgoing: &mut Outgoing<S::Stream>,
    is_found: bool,
    now: Duration,
)
    ensures calls { Goes outgoing.old.addresses.items outgoing.old.bytes.items (S.Stream.raw_fd outgoing.old.stream) outgoing.old.done (S.calls system.old) (S.Stream.raw_fd outgoing.new.stream) outgoing.new.done (S.calls system.new) }
    ensures same { (outgoing.new.bytes ≡ outgoing.old.bytes) × (outgoing.new.addresses ≡ outgoing.old.addresses) }
    ensures time { GoesInTime now outgoing.old outgoing.new }
{
    if is_found || has_passed(outgoing.ends, now) {
        go(system, outgoing, now);
    }
}
