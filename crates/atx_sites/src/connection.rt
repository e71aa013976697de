//! The listener of a node, the connections that are read aside, and the one that is served.

ghost use Rattle.std.specs.Prelude.{[], ◌≡◌, ◌≤◌, ◌<◌, ◌+◌, ◌++◌, ◌^◌, All, List, None, Some, IfErr, IfOk, IfSome, IsErr, OnErr, OnOk, drop, false, length, take, true};
ghost use Rattle.std.specs.Io.{ReadsAtMost, WritesAtMost};
ghost use Rattle.std.specs.declared.time.Duration.{Duration};
ghost use Rattle.system_calls.specs.Calls.{Calls, Number};
ghost use Rattle.atx_sites.specs.Arrivals.{Bounded, ConnectionCame, Gives, HasCome, HaveCome, IsPeer, Keeps, KeepsOn, ServedCame, is_ready, is_silent};
ghost use Rattle.atx_sites.specs.LinkCalls.{IfListens, Later, ReadsClock, Sends, number_at};
ghost use Rattle.atx_sites.specs.Departures.{IsOnTime, IsTimed, Within};
ghost use Rattle.atx_sites.specs.Interim.{begun_of};
ghost use Rattle.atx_sites.specs.Waits.{Changes, IfAllOnTime, IfInTime, IsInTime};
ghost use Rattle.atx_sites.specs.declared.arriving.Arriving.{Arriving};
ghost use Rattle.atx_sites.specs.declared.outgoing.Outgoing.{Outgoing};
ghost use Rattle.atx_sites.specs.Failures.{Ends};
ghost use Rattle.atx_sites.specs.Turns.{EndsBy, EndsTurn};
ghost use Rattle.atx_sites.specs.declared.troubles.Step.TheVariants as steps;

use crate::arriving::{Arriving, Rest, interim, read_on};
use crate::departures::{self, Departures};
use crate::looking::{advance, begun, is_over, wait_leaving, wait_once};
use crate::showing::Shown;
use crate::waiting::{self, Waiting};
use libc::types::pollfd;
use std::alloc::{AllocError, Global};
use std::io::{self, ErrorKind};
use std::net::SocketAddr;
use std::os::fd::AsRawFd;
use std::time::Duration;
use system_calls::system::System;

/// A connection that is served: what was read of it, how much of that was given, what of the answer the system hasn't taken,
/// and whether some of the answer was lost.
#[derive(Drop)]
pub struct Served<C> {
    arriving: Arriving<C>,
    given: usize,
    unsent: Vec<u8>,
    is_cut: bool,
}

/// A listener, the connections that are read aside, and the one that is served. Connections are served one after another.
#[derive(Drop)]
pub struct Connection<L, C> {
    alloc: Global,
    pub(crate) listener: Option<L>,
    pub(crate) served: Option<Served<C>>,
    pub(crate) waiting: Waiting<C>,
    /// What the system is to wait for; it keeps its room.
    pub(crate) asks: Vec<pollfd>,
    pub(crate) shown: Shown,
}

impl<L: Drop, C: AsRawFd + Drop> Connection<L, C> {
    pub(crate) fn new(alloc: Global) -> Connection<L, C>
        ensures shut { (result.listener ≡ None) × (result.served ≡ None) }
        ensures aside { result.waiting.arriving.items ≡ [] }
    {
        Connection {
            alloc,
            listener: None,
            served: None,
            waiting: Waiting::new(alloc),
            asks: Vec::new(alloc),
            shown: Shown::new(),
        }
    }
}

/// The address that the connection comes from which is served, if one is.
pub(crate) fn peer<L, C>(connection: &Connection<L, C>) -> Option<SocketAddr>
    ensures { IsPeer result connection.now.served }
{
    match &connection.served {
        Some(served) => Some(served.arriving.peer),
        None => None,
    }
}

/// What was read of the connection that is served.
pub(crate) fn request<L, C>(connection: &Connection<L, C>) -> &[u8] {
    match &connection.served {
        Some(served) => served.arriving.bytes.as_slice(),
        None => b"",
    }
}

/// The most that the system is to wait for at once: the listener, those that are read aside, and those that leave.
const MOST_ASKS: usize = 1 + waiting::MOST + departures::MOST;

/// Closes what is read aside, and makes room for as much as ever waits or leaves: none of these lists grows later.
pub(crate) fn begin<L, C: AsRawFd + Drop>(
    connection: &mut Connection<L, C>,
    departures: &mut Departures<C>,
) -> Result<(), AllocError>
    ensures aside { connection.new.waiting.arriving.items ≡ [] }
    ensures same { (connection.new.listener ≡ connection.old.listener) × (connection.new.served ≡ connection.old.served) }
    ensures leaving { (departures.new.leaving.items ≡ departures.old.leaving.items) × (departures.new.lost ≡ departures.old.lost) × (departures.new.names ≡ departures.old.names) }
{
    connection.shown = Shown::new();
    connection.waiting.begin()?;
    connection.asks.clear();
    connection.asks.reserve(MOST_ASKS)?;
    departures.begin()
}

/// Listens at an address, in place of the one before. What was open is closed.
#[tactic(auto, using(crate::proofs::Tellings::ended_listen, crate::proofs::Tellings::no_memory, crate::proofs::Comings::as_late))]
pub(crate) fn listen<S: System>(
    system: &mut S,
    connection: &mut Connection<S::Listener, S::Stream>,
    departures: &mut Departures<S::Stream>,
    address: &str,
) -> io::Result<()>
    ensures calls { IfListens address.now result (number_at S.Listener.raw_fd connection.new.listener) (S.calls system.old) (S.calls system.new) }
    ensures came { ConnectionCame S.Stream.raw_fd S.Listener.raw_fd (S.calls system.new) connection.new }
    ensures later { Later (S.calls system.old) (S.calls system.new) }
    ensures fault { IfErr result (λ e. Ends None steps.Listen e (S.calls system.new)) }
    ensures aside { connection.new.waiting.arriving.items ≡ [] }
    ensures leaving { (departures.new.leaving.items ≡ departures.old.leaving.items) × (departures.new.lost ≡ departures.old.lost) × (departures.new.names ≡ departures.old.names) }
{
    connection.listener = None;
    connection.served = None;
    let Ok(()) = begin(connection, departures) else {
        return Err(io::Error::new(ErrorKind::OutOfMemory, "there is no memory"));
    };
    match system.listen(address) {
        Ok(listener) => {
            connection.listener = Some(listener);
            Ok(())
        }
        Err(fault) => Err(fault),
    }
}

/// What who is refused is answered.
const FORBIDDEN: &[u8] =
    b"HTTP/1.1 403 Forbidden\r\nContent-Length: 0\r\nConnection: close\r\n\r\n";

/// Answers 403, and closes the connection behind that.
fn refuse<S: System>(
    system: &mut S,
    departures: &mut Departures<S::Stream>,
    alloc: Global,
    arriving: Arriving<S::Stream>,
)
    ensures later { Later (S.calls system.old) (S.calls system.new) }
    ensures within { Within departures.old.leaving.items → Within departures.new.leaving.items }
    ensures timed { All (IsTimed (S.calls system.old)) departures.old.leaving.items → All (IsTimed (S.calls system.new)) departures.new.leaving.items }
    ensures names { departures.new.names ≡ departures.old.names }
    ensures pace { (start : Calls) → Later start (S.calls system.old) → All (IsOnTime start (S.calls system.old)) departures.old.leaving.items → All (IsOnTime start (S.calls system.new)) departures.new.leaving.items }
{
    let Arriving { stream, .. } = arriving;
    if let Ok(bytes) = Vec::from_slice(alloc, FORBIDDEN) {
        departures::answer(system, departures, stream, bytes, 0);
    }
}

/// The first whose turn may come. One that is refused has none, and is answered.
#[tactic(auto, using(crate::proofs::Comings::as_late, crate::proofs::Comings::have_still))]
fn next<S: System>(
    system: &mut S,
    waiting: &mut Waiting<S::Stream>,
    departures: &mut Departures<S::Stream>,
    now: Duration,
) -> Option<Arriving<S::Stream>>
    ensures came { (listener : Number) → HaveCome S.Stream.raw_fd listener (S.calls system.old) waiting.old.arriving.items → HaveCome S.Stream.raw_fd listener (S.calls system.new) waiting.new.arriving.items }
    ensures taken { (listener : Number) → HaveCome S.Stream.raw_fd listener (S.calls system.old) waiting.old.arriving.items → IfSome result (HasCome S.Stream.raw_fd listener (S.calls system.new)) }
    ensures later { Later (S.calls system.old) (S.calls system.new) }
    ensures bounded { Bounded waiting.old.arriving.items → Bounded waiting.new.arriving.items }
    ensures within { Within departures.old.leaving.items → Within departures.new.leaving.items }
    ensures changes { (first : List (Arriving S.Stream)) (start : Calls) → ReadsClock now start (S.calls system.old) → Changes first start waiting.old.arriving.items (S.calls system.old) → Changes first start waiting.new.arriving.items (S.calls system.new) }
    ensures ready { IfSome result (λ a. is_ready now a ≡ true) }
    ensures silent { All (λ a. is_silent now a ≡ false) waiting.new.arriving.items }
    ensures timed { All (IsTimed (S.calls system.old)) departures.old.leaving.items → All (IsTimed (S.calls system.new)) departures.new.leaving.items }
    ensures names { departures.new.names ≡ departures.old.names }
    ensures pace { (start : Calls) → Later start (S.calls system.old) → All (IsOnTime start (S.calls system.old)) departures.old.leaving.items → All (IsOnTime start (S.calls system.new)) departures.new.leaving.items }
{
    let Some(ready) = waiting.ready(now, false) else {
        return None;
    };
    if !waiting.refuses(&ready) {
        return Some(ready);
    }
    waiting.foreign = waiting.foreign_with(&ready);
    refuse(system, departures, waiting.alloc(), ready);
    None
}

/// Waits for a connection whose turn may come, for so long where a time is given, and no longer than until then: none where nobody
/// came by then. Meanwhile what leaves goes on.
#[tactic(auto, using(crate::proofs::Comings::as_late, crate::proofs::Comings::later_still, crate::proofs::Comings::have_still))]
fn wait<S: System>(
    system: &mut S,
    waiting: &mut Waiting<S::Stream>,
    departures: &mut Departures<S::Stream>,
    listener: &S::Listener,
    asks: &mut Vec<pollfd>,
    every: Option<Duration>,
    until: Option<Duration>,
) -> io::Result<Option<Arriving<S::Stream>>>
    ensures came { HaveCome S.Stream.raw_fd (S.Listener.raw_fd listener.now) (S.calls system.old) waiting.old.arriving.items → HaveCome S.Stream.raw_fd (S.Listener.raw_fd listener.now) (S.calls system.new) waiting.new.arriving.items }
    ensures later { Later (S.calls system.old) (S.calls system.new) }
    ensures taken { HaveCome S.Stream.raw_fd (S.Listener.raw_fd listener.now) (S.calls system.old) waiting.old.arriving.items → IfOk result (λ taken. IfSome taken (HasCome S.Stream.raw_fd (S.Listener.raw_fd listener.now) (S.calls system.new))) }
    ensures fault { IfErr result (λ e. Ends (S.Listener.raw_fd listener.now) steps.Accept e (S.calls system.new)) }
    ensures bounded { Bounded waiting.old.arriving.items → Bounded waiting.new.arriving.items }
    ensures within { Within departures.old.leaving.items → Within departures.new.leaving.items }
    ensures changes { (first : List (Arriving S.Stream)) (start : Calls) → Changes first start waiting.old.arriving.items (S.calls system.old) → Changes first start waiting.new.arriving.items (S.calls system.new) }
    ensures in_time { IfOk result (λ taken. IfSome taken (λ a. IsInTime a waiting.new.arriving.items (S.calls system.old) (S.calls system.new))) }
    ensures timed { All (IsTimed (S.calls system.old)) departures.old.leaving.items → All (IsTimed (S.calls system.new)) departures.new.leaving.items }
    ensures names { departures.new.names ≡ departures.old.names }
    ensures pace { IfOk result (λ taken. IfSome taken (λ a. All (IsOnTime (S.calls system.old) (S.calls system.new)) departures.new.leaving.items)) }
{
    let mut until = until;
    'waits: for _ in 0..u64::MAX {
        let now = match advance(system, departures, asks) {
            Ok(now) => now,
            Err(fault) => return Err(fault),
        };
        until = begun(until, every, now);
        if let Err(fault) = wait_once(system, waiting, departures, listener, asks, now, until) {
            return Err(fault);
        }
        if let Some(ready) = next(system, waiting, departures, now) {
            return Ok(Some(ready));
        }
        if is_over(until, now) {
            return Ok(None);
        }
    }
    Ok(None)
}

/// What goes out before an answer: the rest of an interim line of which the system took a beginning.
fn rest_of_line(alloc: Global, said: usize) -> Result<Vec<u8>, AllocError>
    ensures { IfOk result (λ rest. rest.items ≡ begun_of said) }
{
    let line = interim();
    if said == 0 || said >= line.len() {
        return Ok(Vec::new(alloc));
    }
    Vec::from_slice(alloc, &line[said..])
}

/// One whose turn comes. Where there is no memory for the rest of its interim line, nothing more is sent on it.
fn begin_serving<C: Drop>(alloc: Global, arriving: Arriving<C>) -> Served<C>
    ensures same { (result.arriving ≡ arriving) × (result.given ≡ 0) }
    ensures line { result.is_cut ≡ false → result.unsent.items ≡ begun_of arriving.said }
{
    let rest = rest_of_line(alloc, arriving.said);
    let is_cut = rest.is_err();
    Served {
        arriving,
        given: 0,
        unsent: rest.unwrap_or(Vec::new(alloc)),
        is_cut,
    }
}

/// Waits for a connection whose turn may come: its whole request is there, it ended or failed, or its time is over. One that
/// is still open is closed. Where none comes for as long as `every` says, none is open behind it.
#[tactic(auto, using(crate::proofs::Tellings::unlistening))]
pub(crate) fn take<S: System>(
    system: &mut S,
    connection: &mut Connection<S::Listener, S::Stream>,
    departures: &mut Departures<S::Stream>,
    every: Option<Duration>,
) -> io::Result<()>
    ensures shut { connection.old.listener ≡ None → IsErr result }
    ensures came { ConnectionCame S.Stream.raw_fd S.Listener.raw_fd (S.calls system.old) connection.old → ConnectionCame S.Stream.raw_fd S.Listener.raw_fd (S.calls system.new) connection.new }
    ensures later { Later (S.calls system.old) (S.calls system.new) }
    ensures fault { IfErr result (λ e. Ends (number_at S.Listener.raw_fd connection.old.listener) steps.Accept e (S.calls system.new)) }
    ensures bounded { Bounded connection.old.waiting.arriving.items → Bounded connection.new.waiting.arriving.items }
    ensures within { Within departures.old.leaving.items → Within departures.new.leaving.items }
    ensures changes { Changes connection.old.waiting.arriving.items (S.calls system.old) connection.new.waiting.arriving.items (S.calls system.new) }
    ensures in_time { IfInTime result connection.new.served connection.new.waiting.arriving.items (S.calls system.old) (S.calls system.new) }
    ensures timed { All (IsTimed (S.calls system.old)) departures.old.leaving.items → All (IsTimed (S.calls system.new)) departures.new.leaving.items }
    ensures names { departures.new.names ≡ departures.old.names }
    ensures pace { IfAllOnTime result connection.new.served departures.new.leaving.items (S.calls system.old) (S.calls system.new) }
{
    close(system, connection, departures);
    let Some(listener) = &connection.listener else {
        return Err(io::Error::new(ErrorKind::NotConnected, "nothing listens"));
    };
    match wait(
        system,
        &mut connection.waiting,
        departures,
        listener,
        &mut connection.asks,
        every,
        connection.shown.end(),
    ) {
        Ok(Some(arriving)) => {
            connection.served = Some(begin_serving(connection.alloc, arriving));
            Ok(())
        }
        Ok(None) => Ok(()),
        Err(fault) => Err(fault),
    }
}

/// Gives bytes from a place on, as many as the buffer takes, and says how many.
fn give(bytes: &[u8], from: usize, buf: &mut [u8]) -> usize
    ensures bound { result ≤ length buf.new }
    ensures bytes { take result buf.new ≡ take result (drop from bytes.now) }
    ensures fits { from + result < 2 ^ 64 }
{
    if from >= bytes.len() {
        return 0;
    }
    let n = (bytes.len() - from).min(buf.len());
    buf[..n].copy_from_slice(&bytes[from..from + n]);
    n
}

/// Reads from a connection, and says how many bytes: first those that were read aside.
fn receive_of<S: System>(
    system: &mut S,
    served: &mut Served<S::Stream>,
    buf: &mut [u8],
) -> io::Result<usize>
    ensures bound { ReadsAtMost result buf.new }
    ensures gives { Gives buf.new result (Some served.old) (Some served.new) }
    ensures came { (listener : Number) → HasCome S.Stream.raw_fd listener (S.calls system.old) served.old.arriving → HasCome S.Stream.raw_fd listener (S.calls system.new) served.new.arriving }
    ensures later { Later (S.calls system.old) (S.calls system.new) }
{
    let given = served.given;
    if let Err(fault) = read_on(system, &mut served.arriving, given) {
        return Err(fault);
    }
    let n = give(served.arriving.bytes.as_slice(), given, buf);
    if n == 0 && served.arriving.rest == Rest::Failed {
        return Err(ErrorKind::ConnectionReset.into());
    }
    served.given = given + n;
    Ok(n)
}

/// Reads from the connection that is open, and says how many bytes.
#[tactic(auto, using(crate::proofs::Comings::as_late))]
pub(crate) fn receive<S: System>(
    system: &mut S,
    connection: &mut Connection<S::Listener, S::Stream>,
    buf: &mut [u8],
) -> io::Result<usize>
    ensures bound { ReadsAtMost result buf.new }
    ensures shut { connection.old.served ≡ None → IsErr result }
    ensures gives { Gives buf.new result connection.old.served connection.new.served }
    ensures came { (listener : Number) → ServedCame S.Stream.raw_fd listener (S.calls system.old) connection.old.served → ServedCame S.Stream.raw_fd listener (S.calls system.new) connection.new.served }
    ensures same { (connection.new.listener ≡ connection.old.listener) × (connection.new.waiting ≡ connection.old.waiting) }
    ensures later { Later (S.calls system.old) (S.calls system.new) }
{
    match &mut connection.served {
        Some(served) => receive_of(system, served, buf),
        None => Err(ErrorKind::NotConnected.into()),
    }
}

/// Hands bytes to the system until it takes no more, and says how many it took.
#[tactic(auto, using(crate::proofs::Sendings::unsent, crate::proofs::Sendings::sent_more, crate::proofs::Sendings::sent_none, crate::proofs::Sendings::some_sent, crate::proofs::FilePieces::within))]
fn write_some<S: System>(system: &mut S, stream: &S::Stream, bytes: &[u8]) -> io::Result<usize>
    ensures bound { WritesAtMost result bytes.now }
    ensures calls { Sends (S.Stream.raw_fd stream.now) bytes.now result (S.calls system.old) (S.calls system.new) }
{
    let mut done = 0;
    'pieces: for _ in 0..u32::MAX {
        if done >= bytes.len() {
            return Ok(done);
        }
        match system.write(stream, &bytes[done..]) {
            Ok(0) => return Err(ErrorKind::WriteZero.into()),
            Ok(n) => done += n,
            Err(fault) if fault.kind() == ErrorKind::Interrupted => {}
            Err(fault) if fault.kind() == ErrorKind::WouldBlock => return Ok(done),
            Err(fault) => return Err(fault),
        }
    }
    Ok(done)
}

/// Keeps bytes that are to go out.
fn keep<C>(served: &mut Served<C>, bytes: &[u8]) -> io::Result<()>
    ensures ok { OnOk result (served.new.unsent.items ≡ served.old.unsent.items ++ bytes.now) }
    ensures err { OnErr result (served.new.unsent.items ≡ served.old.unsent.items) }
    ensures same { served.new.arriving ≡ served.old.arriving }
{
    match served.unsent.extend_from_slice(bytes) {
        Ok(()) => Ok(()),
        Err(AllocError) => Err(ErrorKind::OutOfMemory.into()),
    }
}

/// Hands bytes to the system, where it took all before them, and keeps those that it doesn't take.
fn write_or_keep<S: System>(
    system: &mut S,
    served: &mut Served<S::Stream>,
    bytes: &[u8],
) -> io::Result<()>
    ensures kept { Keeps S.Stream.raw_fd bytes.now result served.old served.new (S.calls system.old) (S.calls system.new) }
{
    if !served.unsent.is_empty() {
        return keep(served, bytes);
    }
    match write_some(system, &served.arriving.stream, bytes) {
        Ok(done) => keep(served, &bytes[done..]),
        Err(fault) => Err(fault),
    }
}

/// Sends bytes on the connection that is open. What the system doesn't take at once is kept, and goes out behind the turn.
/// Behind a failure nothing more is sent.
pub(crate) fn send<S: System>(
    system: &mut S,
    connection: &mut Connection<S::Listener, S::Stream>,
    bytes: &[u8],
) -> io::Result<()>
    ensures shut { connection.old.served ≡ None → IsErr result }
    ensures kept { KeepsOn S.Stream.raw_fd bytes.now result connection.old.served connection.new.served (S.calls system.old) (S.calls system.new) }
    ensures same { (connection.new.listener ≡ connection.old.listener) × (connection.new.waiting ≡ connection.old.waiting) }
{
    let Some(served) = &mut connection.served else {
        return Err(ErrorKind::NotConnected.into());
    };
    if served.is_cut {
        return Err(ErrorKind::BrokenPipe.into());
    }
    let sent = write_or_keep(system, served, bytes);
    served.is_cut = sent.is_err();
    sent
}

/// Hands over a connection, whose answer goes out behind this call. Where some of that was lost, it is closed at once.
fn end<S: System>(system: &mut S, departures: &mut Departures<S::Stream>, served: Served<S::Stream>)
    ensures later { Later (S.calls system.old) (S.calls system.new) }
    ensures within { Within departures.old.leaving.items → Within departures.new.leaving.items }
    ensures timed { All (IsTimed (S.calls system.old)) departures.old.leaving.items → All (IsTimed (S.calls system.new)) departures.new.leaving.items }
    ensures names { departures.new.names ≡ departures.old.names }
    ensures answers { EndsBy served.is_cut S.Stream.raw_fd served departures.old.leaving.items departures.old.lost (S.calls system.old) departures.new.leaving.items departures.new.lost (S.calls system.new) }
{
    let Served {
        arriving,
        unsent,
        is_cut,
        ..
    } = served;
    if is_cut {
        departures::count_one(&mut departures.lost);
        return;
    }
    let Arriving { stream, .. } = arriving;
    departures::answer(system, departures, stream, unsent, 0);
}

/// Closes the connection that is open, if one is: what is left of the answer goes out behind this call.
pub(crate) fn close<S: System>(
    system: &mut S,
    connection: &mut Connection<S::Listener, S::Stream>,
    departures: &mut Departures<S::Stream>,
)
    ensures shut { connection.new.served ≡ None }
    ensures same { (connection.new.listener ≡ connection.old.listener) × (connection.new.waiting ≡ connection.old.waiting) }
    ensures later { Later (S.calls system.old) (S.calls system.new) }
    ensures within { Within departures.old.leaving.items → Within departures.new.leaving.items }
    ensures timed { All (IsTimed (S.calls system.old)) departures.old.leaving.items → All (IsTimed (S.calls system.new)) departures.new.leaving.items }
    ensures names { departures.new.names ≡ departures.old.names }
    ensures answers { EndsTurn S.Stream.raw_fd connection.old.served departures.old.leaving.items departures.old.lost (S.calls system.old) departures.new.leaving.items departures.new.lost (S.calls system.new) }
{
    if let Some(served) = connection.served.take() {
        end(system, departures, served);
    }
}

/// Lets go out what still leaves, each until its own time is over.
#[tactic(auto, using(crate::proofs::Comings::as_late, crate::proofs::Comings::later_still))]
pub(crate) fn leave<S: System>(
    system: &mut S,
    asks: &mut Vec<pollfd>,
    departures: &mut Departures<S::Stream>,
)
    ensures later { Later (S.calls system.old) (S.calls system.new) }
    ensures within { Within departures.old.leaving.items → Within departures.new.leaving.items }
    ensures timed { All (IsTimed (S.calls system.old)) departures.old.leaving.items → All (IsTimed (S.calls system.new)) departures.new.leaving.items }
    ensures names { departures.new.names ≡ departures.old.names }
{
    'waits: for _ in 0..u64::MAX {
        let Ok(now) = advance(system, departures, asks) else {
            return;
        };
        if departures.is_empty() {
            return;
        }
        wait_leaving(system, asks, departures, now);
    }
}
