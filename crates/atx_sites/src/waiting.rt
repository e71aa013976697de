//! Connections that are read aside, each until its turn.

ghost use Rattle.std.specs.Prelude.{◌<◌, ◌≤◌, ◌-◌, [], true, false, List, ◌≡◌, All, IfErr, IfSome, filter, length, not, slice_index_or};
ghost use Rattle.std.specs.List.{sum_by};
ghost use Rattle.std.specs.declared.time.Duration.{Duration};
ghost use Rattle.system_calls.specs.Calls.{Calls, Number};
ghost use Rattle.atx_sites.specs.Arrivals.{Bounded, HasCome, HaveCome, IfCame, is_coming, is_ready, is_silent, size_of};
ghost use Rattle.atx_sites.specs.LinkCalls.{Came, Later, ReadsClock};
ghost use Rattle.atx_sites.specs.Waits.{Changes, HasTen};
ghost use Rattle.atx_sites.specs.declared.arriving.Arriving.{Arriving};
ghost use Rattle.atx_sites.specs.Failures.{Ends};
ghost use Rattle.atx_sites.specs.declared.troubles.Step.TheVariants as steps;

use crate::arriving::{self, Arriving, asked, asked_of};
use crate::deadlines::{earlier, ends_of, is_new};
use crate::framing::FIELDS;
use crate::looked::Looked;
use httparse::spans::{EMPTY_HEADER_SPAN, HeaderSpan};
use libc::types::pollfd;
use std::alloc::{AllocError, Global};
use std::io::{self, ErrorKind};
use std::net::SocketAddr;
use std::os::fd::AsRawFd;
use std::time::Duration;
use system_calls::system::System;

/// The most connections that are read aside.
pub(crate) const MOST: usize = 1024;

/// The most of them that come from one address of another machine: no peer alone keeps others away.
const MOST_OF_PEER: usize = MOST / 4;

/// The most bytes that are read aside of all connections.
const MOST_BYTES: usize = 67_108_864;

/// The seconds in which a whole request must come.
const REQUEST_SECONDS: u64 = 10;

/// The milliseconds for which accept isn't called again where the system lacked something, and nothing is read of a connection for
/// whose bytes there was no memory.
const PAUSE_MILLIS: u64 = 100;

/// Connections that are read aside, in the order in which they were accepted. A peer that is slow or silent waits there
/// alone.
#[derive(Drop)]
pub struct Waiting<C> {
    alloc: Global,
    arriving: Vec<Arriving<C>>,
    places: Vec<HeaderSpan>,
    pause: Option<Duration>,
    pub(crate) looked: Looked,
    /// Whether pages are shown: then who asks for one has no turn.
    pub(crate) shows: bool,
    /// Whether a tick is taken from any machine.
    pub(crate) hears_ticks: bool,
    /// How many web pages were refused.
    pub(crate) foreign: u64,
}

/// Whether accept failed as nobody has come, or by the fault of one connection, or of the network on its way.
fn is_passing(kind: ErrorKind) -> bool {
    matches!(
        kind,
        ErrorKind::WouldBlock
            | ErrorKind::ConnectionAborted
            | ErrorKind::ConnectionReset
            | ErrorKind::Interrupted
            | ErrorKind::TimedOut
            | ErrorKind::NetworkDown
            | ErrorKind::NetworkUnreachable
            | ErrorKind::HostUnreachable
    )
}

/// Whether accept failed by a want of the system that passes, or by a fault of the network that may stay for a while:
/// EPERM, ENOMEM, ENFILE, EMFILE, ENONET, EPROTO, EOPNOTSUPP, ENOBUFS, EHOSTDOWN.
fn is_wanting(fault: &io::Error) -> bool {
    matches!(
        fault.raw_os_error(),
        Some(1 | 12 | 23 | 24 | 64 | 71 | 95 | 105 | 112)
    )
}

/// When a pause is over that begins now.
fn pause_from(now: Duration) -> Duration {
    now.saturating_add(Duration::from_millis(PAUSE_MILLIS))
}

impl<C: AsRawFd + Drop> Waiting<C> {
    pub(crate) fn new(alloc: Global) -> Waiting<C>
        ensures { result.arriving.items ≡ [] }
    {
        Waiting {
            alloc,
            arriving: Vec::new(alloc),
            places: Vec::new(alloc),
            pause: None,
            looked: Looked::new(),
            shows: false,
            hears_ticks: false,
            foreign: 0,
        }
    }

    /// Closes all of them, and makes room for as many as there may be and for the fields of a head.
    pub(crate) fn begin(&mut self) -> Result<(), AllocError>
        ensures { self.new.arriving.items ≡ [] }
    {
        self.arriving.clear();
        self.pause = None;
        self.looked = Looked::new();
        self.arriving.reserve(MOST)?;
        self.places.resize(FIELDS, EMPTY_HEADER_SPAN)
    }

    pub(crate) fn alloc(&self) -> Global {
        self.alloc
    }

    /// Whether accepting pauses, and may go on.
    pub(crate) fn may_go_on(&self, now: Duration) -> bool {
        match self.pause {
            Some(until) => now >= until,
            None => false,
        }
    }

    /// When the next of them has been read for long enough, or the listener is asked again.
    pub(crate) fn earliest(&self) -> Option<Duration> {
        let mut earliest = self.pause;
        for arriving in self.arriving.iter() {
            earliest = earlier(earliest, Some(arriving.ends));
        }
        earliest
    }

    /// When a look ends at the latest: all are to be looked at again, or there is one for whose bytes there was no memory.
    pub(crate) fn again(&self, now: Duration) -> Option<Duration> {
        let again = self.looked.again(now);
        for arriving in self.arriving.iter() {
            if arriving.lacks {
                return earlier(again, Some(pause_from(now)));
            }
        }
        again
    }

    /// Adds what poll is to wait for: a new connection, unless accepting pauses, and something to read on each; where a time is
    /// given, only on those that were accepted since then.
    pub(crate) fn asks(
        &self,
        listener: i32,
        since: Option<Duration>,
        asks: &mut Vec<pollfd>,
    ) -> Result<(), AllocError> {
        asks.push(asked(if self.pause.is_none() { listener } else { -1 }))?;
        let from = ends_of(since, REQUEST_SECONDS);
        for arriving in self.arriving.iter() {
            asks.push(asked_of(arriving, is_new(arriving.ends, from)))?;
        }
        Ok(())
    }

    /// Whether a connection is refused instead of having a turn: a web page's, and a tick of another machine, unless such are taken.
    pub(crate) fn refuses(&self, arriving: &Arriving<C>) -> bool {
        arriving.is_foreign() || !self.hears_ticks && arriving.is_strange_tick()
    }

    /// How many web pages were refused, with one that is refused.
    pub(crate) fn foreign_with(&self, arriving: &Arriving<C>) -> u64 {
        if arriving.is_foreign() {
            self.foreign.saturating_add(1)
        } else {
            self.foreign
        }
    }

    /// Closes those whose time is over without a byte.
    fn close_silent(&mut self, now: Duration)
        ensures { self.new.arriving.items ≡ filter (λ a. not (is_silent now a)) self.old.arriving.items }
    {
        self.arriving.retain(|arriving| !arriving.is_silent(now));
    }

    /// Whether the turn of one may come.
    pub(crate) fn has_ready(&self, now: Duration) -> bool {
        place_of_ready(self.arriving.as_slice(), self.shows, false, now).is_some()
    }

    /// The first whose turn may come, or that asks for a page.
    #[tactic(auto, using(crate::proofs::Comings::have_removed, crate::proofs::Comings::has_taken))]
    pub(crate) fn ready(&mut self, now: Duration, pages: bool) -> Option<Arriving<C>>
        ensures came { (number : C → Number) (listener : Number) (calls : Calls) → HaveCome number listener calls self.old.arriving.items → HaveCome number listener calls self.new.arriving.items }
        ensures taken { (number : C → Number) (listener : Number) (calls : Calls) → HaveCome number listener calls self.old.arriving.items → IfSome result (HasCome number listener calls) }
        ensures bounded { Bounded self.old.arriving.items → Bounded self.new.arriving.items }
        ensures changes { (first : List (Arriving C)) (start calls : Calls) → ReadsClock now start calls → Changes first start self.old.arriving.items calls → Changes first start self.new.arriving.items calls }
        ensures ready { IfSome result (λ a. is_ready now a ≡ true) }
        ensures silent { All (λ a. is_silent now a ≡ false) self.new.arriving.items }
    {
        self.close_silent(now);
        match place_of_ready(self.arriving.as_slice(), self.shows, pages, now) {
            Some(place) => {
                self.looked.serve();
                Some(self.arriving.remove(place))
            }
            None => None,
        }
    }

    /// How many bytes more may be read aside of all.
    fn room(&self) -> usize
        ensures { result ≡ 67_108_864 - sum_by size_of self.now.arriving.items }
    {
        let mut bytes = 0usize;
        'places: for place in 0..self.arriving.len() {
            bytes = bytes.saturating_add(self.arriving[place].bytes.len());
        }
        MOST_BYTES.saturating_sub(bytes)
    }

    /// Whether as many come from this address as may: there is no such bound on the node's own machine.
    fn is_much(&self, peer: SocketAddr) -> bool {
        let from = peer.ip().to_canonical();
        if from.is_loopback() {
            return false;
        }
        let mut count = 0usize;
        for arriving in self.arriving.iter() {
            if arriving.peer.ip().to_canonical() == from {
                count = count.saturating_add(1);
            }
        }
        count >= MOST_OF_PEER
    }

    /// Makes room for one more: where too many wait, the oldest whose turn can't come yet is closed. Whether there is some.
    #[tactic(auto, using(crate::proofs::Comings::have_removed))]
    fn has_room(&mut self, now: Duration) -> bool
        ensures came { (number : C → Number) (listener : Number) (calls : Calls) → HaveCome number listener calls self.old.arriving.items → HaveCome number listener calls self.new.arriving.items }
        ensures bounded { Bounded self.old.arriving.items → Bounded self.new.arriving.items }
        ensures room { Bounded self.old.arriving.items → result ≡ true → length self.new.arriving.items < 1_024 }
        ensures changes { (first : List (Arriving C)) (start calls : Calls) → ReadsClock now start calls → Changes first start self.old.arriving.items calls → Changes first start self.new.arriving.items calls }
    {
        if self.arriving.len() < MOST {
            return true;
        }
        match place_of_coming(self.arriving.as_slice(), now) {
            Some(place) => {
                drop(self.arriving.remove(place));
                true
            }
            None => false,
        }
    }

    /// Keeps one more, where not too many come from its address, where there is room and memory for it, and where all have not too
    /// many bytes then.
    #[tactic(auto, using(crate::proofs::Comings::have_pushed))]
    fn keep(&mut self, arriving: Arriving<C>, now: Duration)
        ensures came { (number : C → Number) (listener : Number) (calls : Calls) → HaveCome number listener calls self.old.arriving.items → HasCome number listener calls arriving → HaveCome number listener calls self.new.arriving.items }
        ensures bounded { Bounded self.old.arriving.items → size_of arriving ≤ 131_072 → Bounded self.new.arriving.items }
        ensures changes { (first : List (Arriving C)) (start calls : Calls) → ReadsClock now start calls → HasTen now arriving → Changes first start self.old.arriving.items calls → Changes first start self.new.arriving.items calls }
    {
        if self.is_much(arriving.peer) {
            return;
        }
        if self.has_room(now) && arriving.bytes.len() <= self.room() {
            let _ = self.arriving.push(arriving);
        }
    }
}

/// The first whose turn may come, or that asks for a page where pages are shown. Such a one has no turn then.
fn place_of_ready<C>(
    arrivals: &[Arriving<C>],
    shows: bool,
    pages: bool,
    now: Duration,
) -> Option<usize>
    ensures { IfSome result (λ i. (i < length arrivals.now) × ((d : Arriving C) → is_ready now (slice_index_or arrivals.now i d) ≡ true)) }
{
    for i in 0..arrivals.len() {
        if arrivals[i].is_ready(now) && pages == (shows && arrivals[i].asks_page()) {
            return Some(i);
        }
    }
    None
}

/// The first whose turn can't come yet.
fn place_of_coming<C>(arrivals: &[Arriving<C>], now: Duration) -> Option<usize>
    ensures { IfSome result (λ i. (i < length arrivals.now) × ((d : Arriving C) → is_ready now (slice_index_or arrivals.now i d) ≡ false)) }
{
    for i in 0..arrivals.len() {
        if !arrivals[i].is_ready(now) {
            return Some(i);
        }
    }
    None
}

/// Reads aside what came on one of them. Where more of it is to come, and all have as many bytes as they may, it is closed.
/// Whether it is still there.
#[tactic(auto, using(crate::proofs::Comings::have_still, crate::proofs::Comings::have_set, crate::proofs::Comings::has_taken, crate::proofs::Comings::have_removed))]
fn read_at<S: System>(system: &mut S, waiting: &mut Waiting<S::Stream>, place: usize) -> bool
    requires { place < length waiting.old.arriving.items }
    ensures came { (listener : Number) → HaveCome S.Stream.raw_fd listener (S.calls system.old) waiting.old.arriving.items → HaveCome S.Stream.raw_fd listener (S.calls system.new) waiting.new.arriving.items }
    ensures later { Later (S.calls system.old) (S.calls system.new) }
    ensures bounded { Bounded waiting.old.arriving.items → Bounded waiting.new.arriving.items }
    ensures changes { (first : List (Arriving S.Stream)) (start : Calls) → Changes first start waiting.old.arriving.items (S.calls system.old) → Changes first start waiting.new.arriving.items (S.calls system.new) }
{
    let room = waiting.room();
    let arriving = &mut waiting.arriving[place];
    arriving::hear(system, arriving, waiting.places.as_mut_slice(), room);
    if waiting.room() > 0 || !waiting.arriving[place].is_coming() {
        return true;
    }
    drop(waiting.arriving.remove(place));
    false
}

/// Whether there is something to read on one, or there was, and no memory for it.
fn is_found<C>(ask: &pollfd, arriving: &Arriving<C>) -> bool {
    ask.revents != 0 || arriving.lacks
}

/// Reads aside what poll found on each of them.
#[tactic(auto, using(crate::proofs::Comings::as_late, crate::proofs::Comings::later_still))]
pub(crate) fn read_found<S: System>(
    system: &mut S,
    waiting: &mut Waiting<S::Stream>,
    found: &[pollfd],
)
    ensures came { (listener : Number) → HaveCome S.Stream.raw_fd listener (S.calls system.old) waiting.old.arriving.items → HaveCome S.Stream.raw_fd listener (S.calls system.new) waiting.new.arriving.items }
    ensures later { Later (S.calls system.old) (S.calls system.new) }
    ensures bounded { Bounded waiting.old.arriving.items → Bounded waiting.new.arriving.items }
    ensures changes { (first : List (Arriving S.Stream)) (start : Calls) → Changes first start waiting.old.arriving.items (S.calls system.old) → Changes first start waiting.new.arriving.items (S.calls system.new) }
{
    let mut place = 0;
    'found: for ask in found {
        if place >= waiting.arriving.len() {
            return;
        }
        if !is_found(ask, &waiting.arriving[place]) || read_at(system, waiting, place) {
            place += 1;
        }
    }
}

/// Accepts a connection, if one has come. Where the system lacks something, accepting pauses.
#[tactic(auto, using(crate::proofs::Comings::came_first, crate::proofs::Comings::late_by, crate::proofs::Tellings::ended_accept))]
fn accept_one<S: System>(
    system: &mut S,
    listener: &S::Listener,
    pause: &mut Option<Duration>,
    now: Duration,
) -> io::Result<Option<(S::Stream, SocketAddr)>>
    ensures came { IfCame S.Stream.raw_fd (S.Listener.raw_fd listener.now) (S.calls system.new) result }
    ensures later { Later (S.calls system.old) (S.calls system.new) }
    ensures fault { IfErr result (λ e. Ends (S.Listener.raw_fd listener.now) steps.Accept e (S.calls system.new)) }
{
    match system.accept(listener) {
        Ok(accepted) => Ok(Some(accepted)),
        Err(fault) if is_passing(fault.kind()) => Ok(None),
        Err(fault) if is_wanting(&fault) => {
            *pause = Some(pause_from(now));
            Ok(None)
        }
        Err(fault) => Err(fault),
    }
}

/// Reads aside what came on a connection that was accepted, and keeps it.
#[tactic(auto, using(crate::proofs::Comings::have_still))]
fn begin<S: System>(
    system: &mut S,
    waiting: &mut Waiting<S::Stream>,
    stream: S::Stream,
    peer: SocketAddr,
    now: Duration,
)
    ensures came { (listener : Number) → Came listener (S.Stream.raw_fd stream, peer) [] (S.calls system.old) → HaveCome S.Stream.raw_fd listener (S.calls system.old) waiting.old.arriving.items → HaveCome S.Stream.raw_fd listener (S.calls system.new) waiting.new.arriving.items }
    ensures later { Later (S.calls system.old) (S.calls system.new) }
    ensures bounded { Bounded waiting.old.arriving.items → Bounded waiting.new.arriving.items }
    ensures changes { (first : List (Arriving S.Stream)) (start : Calls) → ReadsClock now start (S.calls system.old) → Changes first start waiting.old.arriving.items (S.calls system.old) → Changes first start waiting.new.arriving.items (S.calls system.new) }
{
    let ends = now.saturating_add(Duration::from_secs(REQUEST_SECONDS));
    let mut arriving = Arriving::new(waiting.alloc, stream, peer, ends);
    let room = waiting.room();
    arriving::hear(system, &mut arriving, waiting.places.as_mut_slice(), room);
    waiting.keep(arriving, now);
}

/// Accepts the connections that have come, and reads aside what came on them.
#[tactic(auto, using(crate::proofs::Comings::as_late, crate::proofs::Comings::later_still, crate::proofs::Comings::have_still))]
pub(crate) fn accept_all<S: System>(
    system: &mut S,
    waiting: &mut Waiting<S::Stream>,
    listener: &S::Listener,
    now: Duration,
) -> io::Result<()>
    ensures came { HaveCome S.Stream.raw_fd (S.Listener.raw_fd listener.now) (S.calls system.old) waiting.old.arriving.items → HaveCome S.Stream.raw_fd (S.Listener.raw_fd listener.now) (S.calls system.new) waiting.new.arriving.items }
    ensures later { Later (S.calls system.old) (S.calls system.new) }
    ensures fault { IfErr result (λ e. Ends (S.Listener.raw_fd listener.now) steps.Accept e (S.calls system.new)) }
    ensures bounded { Bounded waiting.old.arriving.items → Bounded waiting.new.arriving.items }
    ensures changes { (first : List (Arriving S.Stream)) (start : Calls) → ReadsClock now start (S.calls system.old) → Changes first start waiting.old.arriving.items (S.calls system.old) → Changes first start waiting.new.arriving.items (S.calls system.new) }
{
    waiting.pause = None;
    'accepted: for _ in 0..MOST {
        match accept_one(system, listener, &mut waiting.pause, now) {
            Ok(Some((stream, peer))) => begin(system, waiting, stream, peer, now),
            Ok(None) => return Ok(()),
            Err(fault) => return Err(fault),
        }
    }
    Ok(())
}
