//! Connections with bytes that leave: posts, and answers that weren't wholly out.

ghost use Rattle.std.specs.Prelude.{[], ◌≡◌, ◌<◌, ◌≤◌, ◌+◌, ◌-◌, ◌^◌, Bool, List, Option, Result, IfSome, filter, is_err, length, min, not, true};
ghost use Rattle.std.specs.List.{sum_by};
ghost use Rattle.std.specs.declared.io.Error.{Error};
ghost use Rattle.std.specs.declared.net.SocketAddr.{SocketAddr};
ghost use Rattle.site_model.specs.Counts.{capped};
ghost use Rattle.atx_sites.specs.Departures.{Advances, Answers, HasRoom, HasShare, IfBegun, IsPart, Posts, PostsTo, Starts, Tests, WentAt, Within, host_of, is_lost, is_over, number_to, weight};
ghost use Rattle.atx_sites.specs.Disks.{Tallied};
ghost use Rattle.atx_sites.specs.LinkCalls.{HasRead};
ghost use Rattle.atx_sites.specs.Names.{AreAnswered};
ghost use Rattle.atx_sites.specs.declared.outgoing.Outgoing.{Outgoing};

use crate::deadlines::{ends_of, is_new};
use crate::outgoing::{self, Outgoing, SEND_SECONDS, is_taken};
use crate::resolved_names::{self, MOST_ADDRESSES, ResolvedNames};
use crate::spares::copied;
use libc::net::{POLLIN, POLLOUT};
use libc::types::pollfd;
use std::alloc::{AllocError, Global};
use std::io::{self, ErrorKind};
use std::net::SocketAddr;
use std::os::fd::AsRawFd;
use std::time::Duration;
use system_calls::system::System;

/// The most connections that leave.
pub(crate) const MOST: usize = 1024;

/// The most of them to one host, known by the first of its addresses.
const MOST_TO_ONE: usize = 64;

/// The most bytes of a post for which there is room where there is no memory.
const SPARE_BYTES: usize = 65_536;

/// The most bytes of all of them.
const MOST_BYTES: usize = 16 * 1024 * 1024;

/// Connections with bytes that leave, of which none is waited for.
///
/// Where one more would be too many, one whose bytes are all out, and of which only what its peer answers is read away, is
/// closed for it.
#[derive(Drop)]
pub struct Departures<C> {
    alloc: Global,
    pub(crate) leaving: Vec<Outgoing<C>>,
    names: ResolvedNames,
    /// How many answers and posts there were of which the system didn't take all bytes, and won't.
    pub(crate) lost: u64,
    /// Room for a post, and for a host's addresses, where there is no memory for others.
    spare: Vec<u8>,
    spare_addresses: Vec<SocketAddr>,
}

impl<C: AsRawFd + Drop> Departures<C> {
    /// Nothing leaves.
    pub(crate) fn new(alloc: Global) -> Departures<C>
        ensures { (result.leaving.items ≡ []) × (result.names.names.items ≡ []) }
    {
        Departures {
            alloc,
            leaving: Vec::new(alloc),
            names: ResolvedNames::new(alloc),
            lost: 0,
            spare: Vec::new(alloc),
            spare_addresses: Vec::new(alloc),
        }
    }

    /// Makes room for as many as may leave, and for a post where there is no memory.
    pub(crate) fn begin(&mut self) -> Result<(), AllocError>
        ensures { (self.new.leaving.items ≡ self.old.leaving.items) × (self.new.lost ≡ self.old.lost) × (self.new.names ≡ self.old.names) }
    {
        self.leaving.reserve(MOST)?;
        make_spare(&mut self.spare, &mut self.spare_addresses)
    }

    /// Whether nothing leaves.
    pub(crate) fn is_empty(&self) -> bool {
        self.leaving.is_empty()
    }

    /// When the next of them is given up.
    pub(crate) fn earliest(&self) -> Option<Duration> {
        let mut found: Option<Duration> = None;
        for outgoing in self.leaving.iter() {
            found = Some(sooner(found, outgoing.ends));
        }
        found
    }

    /// Adds what the system is to wait for; where a time is given, only of those that began since then.
    pub(crate) fn asks(
        &self,
        since: Option<Duration>,
        asks: &mut Vec<pollfd>,
    ) -> Result<(), AllocError> {
        let from = ends_of(since, SEND_SECONDS);
        for outgoing in self.leaving.iter() {
            asks.push(asked(outgoing, is_new(outgoing.ends, from)))?;
        }
        Ok(())
    }
}

/// Makes room for a post and for a host's addresses.
fn make_spare(bytes: &mut Vec<u8>, addresses: &mut Vec<SocketAddr>) -> Result<(), AllocError> {
    bytes.reserve(SPARE_BYTES)?;
    addresses.reserve(MOST_ADDRESSES)
}

fn sooner(found: Option<Duration>, ends: Duration) -> Duration {
    match found {
        Some(soonest) if soonest <= ends => soonest,
        _ => ends,
    }
}

/// What the system is asked of one; nothing, unless it is to be looked at.
fn asked<C: AsRawFd + Drop>(outgoing: &Outgoing<C>, looks: bool) -> pollfd {
    pollfd {
        fd: if looks {
            outgoing.stream.as_raw_fd()
        } else {
            -1
        },
        events: if outgoing.is_ending() {
            POLLIN
        } else {
            POLLOUT
        },
        revents: 0,
    }
}

/// One more.
pub(crate) fn count_one(lost: &mut u64)
    ensures { lost.new ≡ capped (lost.old + 1) }
{
    *lost = lost.saturating_add(1);
}

/// The bytes of all of them.
fn bytes_of<C: Drop>(leaving: &[Outgoing<C>]) -> usize
    ensures { result ≡ min (sum_by weight leaving.now) (2 ^ 64 - 1) }
{
    let mut sum: usize = 0;
    'places: for place in 0..leaving.len() {
        sum = sum.saturating_add(leaving[place].bytes.len());
    }
    sum
}

/// Whether it goes to that host.
fn goes_to<C: Drop>(outgoing: &Outgoing<C>, host: Option<SocketAddr>) -> bool
    ensures { host_of outgoing.now ≡ host → result ≡ true }
{
    outgoing.addresses.first().copied() == host
}

/// How many go to that host.
fn count_to<C: Drop>(leaving: &[Outgoing<C>], host: Option<SocketAddr>) -> usize
    ensures { (test : Option SocketAddr → Bool) → Tests host test → number_to test leaving.now ≤ result }
{
    let mut count: usize = 0;
    'places: for place in 0..leaving.len() {
        if goes_to(&leaving[place], host) {
            count += 1;
        }
    }
    count
}

/// The place of the oldest whose bytes are all out; of those to one host, where one is given.
fn oldest_ending<C: Drop>(leaving: &[Outgoing<C>], host: Option<SocketAddr>) -> Option<usize>
    ensures { IfSome result (λ i. i < length leaving.now) }
{
    for i in 0..leaving.len() {
        let outgoing = &leaving[i];
        if outgoing.is_ending() && (host.is_none() || goes_to(outgoing, host)) {
            return Some(i);
        }
    }
    None
}

/// Closes the oldest whose bytes are all out; of those to one host, where one is given. Whether there was one.
#[tactic(auto, using(crate::proofs::DepartureLists::one_less))]
fn close_ending<C: Drop>(leaving: &mut Vec<Outgoing<C>>, host: Option<SocketAddr>) -> bool
    ensures { (first : List (Outgoing C)) → IsPart first leaving.old.items → IsPart first leaving.new.items }
{
    match oldest_ending(leaving, host) {
        Some(at) => {
            leaving.remove(at);
            true
        }
        None => false,
    }
}

/// Makes room for one more, with so many bytes. Whether there is some, and memory for it.
fn has_room<C: Drop>(leaving: &mut Vec<Outgoing<C>>, bytes: usize) -> bool
    ensures part { (first : List (Outgoing C)) → IsPart first leaving.old.items → IsPart first leaving.new.items }
    ensures room { HasRoom result bytes leaving.new.items }
{
    'rooms: for _ in 0..=MOST {
        if leaving.len() < MOST && bytes_of(leaving).saturating_add(bytes) <= MOST_BYTES {
            return leaving.reserve(1).is_ok();
        }
        if !close_ending(leaving, None) {
            return false;
        }
    }
    false
}

/// Makes room for one more to a host. Whether there is some.
fn has_share<C: Drop>(leaving: &mut Vec<Outgoing<C>>, host: Option<SocketAddr>) -> bool
    ensures part { (first : List (Outgoing C)) → IsPart first leaving.old.items → IsPart first leaving.new.items }
    ensures room { HasShare host result leaving.new.items }
{
    if count_to(leaving, host) < MOST_TO_ONE {
        return true;
    }
    close_ending(leaving, host) && count_to(leaving, host) < MOST_TO_ONE
}

/// Makes room for one more to a host, with so many bytes. Whether there is some, and memory for it.
fn has_room_to<C: Drop>(
    leaving: &mut Vec<Outgoing<C>>,
    host: Option<SocketAddr>,
    bytes: usize,
) -> bool
    ensures part { (first : List (Outgoing C)) → IsPart first leaving.old.items → IsPart first leaving.new.items }
    ensures room { HasRoom result bytes leaving.new.items }
    ensures share { HasShare host result leaving.new.items }
{
    if !has_share(leaving, host) {
        return false;
    }
    has_room(leaving, bytes)
}

/// A post to one of these addresses, whose connection is begun.
fn begun<S: System>(
    system: &mut S,
    addresses: Vec<SocketAddr>,
    bytes: Vec<u8>,
    now: Duration,
) -> Option<Outgoing<S::Stream>>
    ensures { IfBegun S.Stream.raw_fd now addresses.items bytes.items result (S.calls system.old) (S.calls system.new) }
{
    let mut next = 0;
    match outgoing::connect(system, &addresses, &mut next) {
        Some(stream) => Some(Outgoing::post(stream, addresses, next, bytes, now)),
        None => None,
    }
}

/// What becomes of one that is closed: no failure where all its bytes are out.
fn if_out(is_out: bool, fault: ErrorKind) -> io::Result<()>
    ensures { is_err result ≡ not is_out }
{
    if is_out {
        return Ok(());
    }
    Err(fault.into())
}

/// Lets one more go on, and puts it behind the others unless nothing is left to do. It fails where that was lost.
fn start<S: System>(
    system: &mut S,
    leaving: &mut Vec<Outgoing<S::Stream>>,
    mut outgoing: Outgoing<S::Stream>,
    now: Duration,
) -> io::Result<()>
    ensures { Starts S.Stream.raw_fd now outgoing (S.calls system.old) result leaving.old.items leaving.new.items (S.calls system.new) }
{
    outgoing::go(system, &mut outgoing, now);
    let is_out = outgoing.is_out();
    if outgoing.is_over() {
        return if_out(is_out, ErrorKind::HostUnreachable);
    }
    if leaving.push(outgoing).is_err() {
        return if_out(is_out, ErrorKind::OutOfMemory);
    }
    Ok(())
}

/// Posts to the first of these addresses to which a connection can be begun.
fn post_to<S: System>(
    system: &mut S,
    leaving: &mut Vec<Outgoing<S::Stream>>,
    addresses: Vec<SocketAddr>,
    bytes: Vec<u8>,
    now: Duration,
) -> io::Result<()>
    ensures posts { HasRead now (S.calls system.old) → PostsTo S.Stream.raw_fd addresses.items bytes.items leaving.old.items (S.calls system.old) result leaving.new.items (S.calls system.new) }
    ensures within { Within leaving.old.items → Within leaving.new.items }
{
    if !has_room_to(leaving, addresses.first().copied(), bytes.len()) {
        return Err(ErrorKind::QuotaExceeded.into());
    }
    match begun(system, addresses, bytes, now) {
        Some(outgoing) => start(system, leaving, outgoing, now),
        None => Err(ErrorKind::HostUnreachable.into()),
    }
}

/// Posts bytes to a host.
fn begin_post<S: System>(
    system: &mut S,
    departures: &mut Departures<S::Stream>,
    host: &str,
    port: u16,
    bytes: &[u8],
) -> io::Result<()>
    ensures posts { Posts S.Stream.raw_fd departures.old.names.names.items host.now port bytes.now departures.old.leaving.items (S.calls system.old) result departures.new.leaving.items (S.calls system.new) }
    ensures same { departures.new.lost ≡ departures.old.lost }
    ensures within { Within departures.old.leaving.items → Within departures.new.leaving.items }
    ensures kept { AreAnswered (S.calls system.old) departures.old.names.names.items → AreAnswered (S.calls system.new) departures.new.names.names.items }
{
    let Ok(addresses) = resolved_names::addresses(
        system,
        &mut departures.names,
        &mut departures.spare_addresses,
        host,
        port,
    ) else {
        return Err(ErrorKind::HostUnreachable.into());
    };
    let Ok(now) = system.monotonic() else {
        return Err(ErrorKind::Other.into());
    };
    let Ok(bytes) = copied(departures.alloc, &mut departures.spare, bytes) else {
        return Err(ErrorKind::OutOfMemory.into());
    };
    post_to(system, &mut departures.leaving, addresses, bytes, now)
}

/// Posts bytes to a host, and waits for nobody but for a name to be looked up. After Ok the bytes are out or leave. After a
/// failure the peer may have a beginning of them, and one more is lost.
pub(crate) fn post<S: System>(
    system: &mut S,
    departures: &mut Departures<S::Stream>,
    host: &str,
    port: u16,
    bytes: &[u8],
) -> io::Result<()>
    ensures posts { Posts S.Stream.raw_fd departures.old.names.names.items host.now port bytes.now departures.old.leaving.items (S.calls system.old) result departures.new.leaving.items (S.calls system.new) }
    ensures lost { Tallied departures.old.lost departures.new.lost result }
    ensures within { Within departures.old.leaving.items → Within departures.new.leaving.items }
    ensures kept { AreAnswered (S.calls system.old) departures.old.names.names.items → AreAnswered (S.calls system.new) departures.new.names.names.items }
{
    let posted = begin_post(system, departures, host, port, bytes);
    if posted.is_err() {
        count_one(&mut departures.lost);
    }
    posted
}

/// Takes over a connection with its answer, of which the system took `done` bytes. It is closed behind the answer. Where there
/// is no room, it is closed at once, and that fails unless all bytes were taken.
fn hand_over<S: System>(
    system: &mut S,
    departures: &mut Departures<S::Stream>,
    stream: S::Stream,
    bytes: Vec<u8>,
    done: usize,
) -> io::Result<()>
    ensures answers { Answers S.Stream.raw_fd stream bytes done departures.old.leaving.items (S.calls system.old) result departures.new.leaving.items (S.calls system.new) }
    ensures same { (departures.new.lost ≡ departures.old.lost) × (departures.new.names ≡ departures.old.names) }
    ensures within { Within departures.old.leaving.items → Within departures.new.leaving.items }
{
    let is_out = is_taken(&bytes, done);
    let Ok(now) = system.monotonic() else {
        return if_out(is_out, ErrorKind::Other);
    };
    if !has_room(&mut departures.leaving, bytes.len()) {
        return if_out(is_out, ErrorKind::QuotaExceeded);
    }
    let outgoing = Outgoing::answer(departures.alloc, stream, bytes, done, now);
    start(system, &mut departures.leaving, outgoing, now)
}

/// Takes over a connection with its answer, of which the system took `done` bytes. It is closed behind the answer. Where it
/// can't be taken over, or fails at once, it is closed, and one more is lost unless all bytes were taken.
pub(crate) fn answer<S: System>(
    system: &mut S,
    departures: &mut Departures<S::Stream>,
    stream: S::Stream,
    bytes: Vec<u8>,
    done: usize,
)
    ensures answers { (result : Result (Unit {0}) Error) × Answers S.Stream.raw_fd stream bytes done departures.old.leaving.items (S.calls system.old) result departures.new.leaving.items (S.calls system.new)
        × Tallied departures.old.lost departures.new.lost result }
    ensures within { Within departures.old.leaving.items → Within departures.new.leaving.items }
    ensures names { departures.new.names ≡ departures.old.names }
{
    if hand_over(system, departures, stream, bytes, done).is_err() {
        count_one(&mut departures.lost);
    }
}

/// How many were lost.
fn count_lost<C: Drop>(leaving: &[Outgoing<C>]) -> u64
    ensures { result ≡ capped (length (filter is_lost leaving.now)) }
{
    let mut count: u64 = 0;
    'places: for place in 0..leaving.len() {
        if leaving[place].is_lost() {
            count = count.saturating_add(1);
        }
    }
    count
}

/// Closes those with nothing left to do.
fn close_over<C: Drop>(leaving: &mut Vec<Outgoing<C>>)
    ensures { leaving.new.items ≡ filter (λ o. not (is_over o)) leaving.old.items }
{
    leaving.retain(|outgoing| !outgoing.is_over());
}

/// Whether poll found one so at its place.
fn is_found(found: &[pollfd], place: usize) -> bool {
    match found.get(place) {
        Some(ask) => ask.revents != 0,
        None => false,
    }
}

/// Lets one go on, where it was found or its time is over.
fn go_at<S: System>(
    system: &mut S,
    leaving: &mut Vec<Outgoing<S::Stream>>,
    place: usize,
    is_found: bool,
    now: Duration,
)
    requires { place < length leaving.old.items }
    ensures { WentAt S.Stream.raw_fd now place leaving.old.items (S.calls system.old) leaving.new.items (S.calls system.new) }
{
    let outgoing = &mut leaving[place];
    outgoing::go_where(system, outgoing, is_found, now);
}

/// Lets each go on that was found at its place, or whose time is over.
#[tactic(auto, using(crate::proofs::DepartureLists::none_advance, crate::proofs::DepartureLists::all_advance))]
fn go_each<S: System>(
    system: &mut S,
    leaving: &mut Vec<Outgoing<S::Stream>>,
    found: &[pollfd],
    now: Duration,
)
    ensures { Advances S.Stream.raw_fd now (S.calls system.old) leaving.old.items leaving.new.items (S.calls system.new) }
{
    'places: for place in 0..leaving.len() {
        go_at(system, leaving, place, is_found(found, place), now);
    }
}

/// Lets each go on that was found at its place, as far as it can without waiting, gives up those whose time is over, and closes
/// those that are done. Room for a post where there is no memory is made again.
pub(crate) fn advance<S: System>(
    system: &mut S,
    departures: &mut Departures<S::Stream>,
    found: &[pollfd],
    now: Duration,
)
    ensures advances { (went : List (Outgoing S.Stream)) × Advances S.Stream.raw_fd now (S.calls system.old) departures.old.leaving.items went (S.calls system.new)
        × (departures.new.leaving.items ≡ filter (λ o. not (is_over o)) went)
        × (departures.new.lost ≡ capped (departures.old.lost + length (filter is_lost went))) }
    ensures within { Within departures.old.leaving.items → Within departures.new.leaving.items }
    ensures names { departures.new.names ≡ departures.old.names }
{
    let _ = make_spare(&mut departures.spare, &mut departures.spare_addresses);
    go_each(system, &mut departures.leaving, found, now);
    departures.lost = departures
        .lost
        .saturating_add(count_lost(&departures.leaving));
    close_over(&mut departures.leaving);
}
