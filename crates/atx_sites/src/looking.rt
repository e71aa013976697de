//! What the system is asked by poll, and what is done with what it found.

ghost use Rattle.std.specs.Prelude.{◌≡◌, All, List, IfErr, IfOk};
ghost use Rattle.system_calls.specs.Calls.{Calls, Number};
ghost use Rattle.atx_sites.specs.Arrivals.{Bounded, HaveCome};
ghost use Rattle.atx_sites.specs.LinkCalls.{Later, Looks, Pauses, Polls, ReadsClock};
ghost use Rattle.atx_sites.specs.Departures.{IsOnTime, IsTimed, Within};
ghost use Rattle.atx_sites.specs.Waits.{Changes};
ghost use Rattle.atx_sites.specs.declared.arriving.Arriving.{Arriving};
ghost use Rattle.atx_sites.specs.Failures.{Ends};
ghost use Rattle.atx_sites.specs.declared.troubles.Step.TheVariants as steps;

use crate::deadlines::{earlier, has_passed, millis_until};
use crate::departures::{self, Departures};
use crate::waiting::{Waiting, accept_all, read_found};
use libc::types::pollfd;
use std::alloc::AllocError;
use std::io;
use std::os::fd::AsRawFd;
use std::time::Duration;
use system_calls::system::System;

/// The milliseconds of a pause where the system, or this process, lacks something.
const PAUSE_MILLIS: i32 = 100;

/// Waits for so long, and for nothing.
fn pause<S: System>(system: &mut S)
    ensures { Pauses (S.calls system.old) (S.calls system.new) }
{
    system.poll(&mut [], PAUSE_MILLIS);
}

/// Waits for nothing, unless the turn of one may come.
#[tactic(auto, using(crate::proofs::Pausing::no_pause, crate::proofs::Pausing::pauses_later))]
fn pause_unless<S: System>(system: &mut S, is_ready: bool)
    ensures { Later (S.calls system.old) (S.calls system.new) }
{
    if !is_ready {
        pause(system);
    }
}

/// Polls. Whether that didn't fail.
fn polls<S: System>(system: &mut S, asks: &mut [pollfd], millis: i32) -> bool
    ensures { Polls asks.old millis asks.new result (S.calls system.old) (S.calls system.new) }
{
    system.poll(asks, millis) >= 0
}

/// Polls. What failed is tried again once, and where that fails too it pauses.
fn look<S: System>(system: &mut S, asks: &mut [pollfd], millis: i32)
    ensures { Looks asks.old millis asks.new (S.calls system.old) (S.calls system.new) }
{
    if polls(system, asks, millis) {
        return;
    }
    if !polls(system, asks, millis) {
        pause(system);
    }
}

/// What the system is to wait for: first of what leaves, then of the listener, and then of those that are read aside; where a
/// time is given, only of those that began since then. Says how many are before the listener.
fn asked_of<L: AsRawFd, C: AsRawFd + Drop>(
    listener: &L,
    waiting: &Waiting<C>,
    departures: &Departures<C>,
    since: Option<Duration>,
    asks: &mut Vec<pollfd>,
) -> Result<usize, AllocError> {
    asks.clear();
    departures.asks(since, asks)?;
    let leaving = asks.len();
    waiting.asks(listener.as_raw_fd(), since, asks)?;
    Ok(leaving)
}

/// Does what poll found: connections are accepted and read aside.
#[tactic(auto, using(crate::proofs::Comings::later_still))]
fn go_on<S: System>(
    system: &mut S,
    waiting: &mut Waiting<S::Stream>,
    listener: &S::Listener,
    found: &[pollfd],
    now: Duration,
) -> io::Result<()>
    ensures came { HaveCome S.Stream.raw_fd (S.Listener.raw_fd listener.now) (S.calls system.old) waiting.old.arriving.items → HaveCome S.Stream.raw_fd (S.Listener.raw_fd listener.now) (S.calls system.new) waiting.new.arriving.items }
    ensures later { Later (S.calls system.old) (S.calls system.new) }
    ensures fault { IfErr result (λ e. Ends (S.Listener.raw_fd listener.now) steps.Accept e (S.calls system.new)) }
    ensures bounded { Bounded waiting.old.arriving.items → Bounded waiting.new.arriving.items }
    ensures changes { (first : List (Arriving S.Stream)) (start : Calls) → ReadsClock now start (S.calls system.old) → Changes first start waiting.old.arriving.items (S.calls system.old) → Changes first start waiting.new.arriving.items (S.calls system.new) }
{
    let Some((first, others)) = found.split_first() else {
        return Ok(());
    };
    read_found(system, waiting, others);
    if first.revents != 0 || waiting.may_go_on(now) {
        return accept_all(system, waiting, listener, now);
    }
    Ok(())
}

/// When a poll ends that waits so long at most: now where the turn of one may come, and else where a time is over, or all are to be
/// looked at again.
fn end_of_look<C: AsRawFd + Drop>(
    waiting: &Waiting<C>,
    departures: &Departures<C>,
    is_ready: bool,
    now: Duration,
    until: Option<Duration>,
) -> Option<Duration> {
    if is_ready {
        return Some(now);
    }
    let until = earlier(until, waiting.again(now));
    earlier(until, earlier(waiting.earliest(), departures.earliest()))
}

/// Whether the turn of one comes before anything is looked at: it may come, and all were looked at a short time ago.
fn is_first(is_ready: bool, since: Option<Duration>) -> bool {
    is_ready && since.is_some()
}

/// Waits until something can be done, or a time is over, and does it. Where the turn of one may come, nothing is waited for. While
/// turns come, all are looked at once in 5 milliseconds, and between that only what began since then. What was found of each that
/// leaves is in `asks` then, at its place. Want of memory passes: it pauses then, unless the turn of one may come.
#[tactic(auto, using(crate::proofs::Comings::as_late, crate::proofs::Comings::late_by, crate::proofs::Comings::later_still, crate::proofs::Comings::have_still, crate::proofs::Tellings::ended_clock))]
pub(crate) fn wait_once<S: System>(
    system: &mut S,
    waiting: &mut Waiting<S::Stream>,
    departures: &Departures<S::Stream>,
    listener: &S::Listener,
    asks: &mut Vec<pollfd>,
    now: Duration,
    until: Option<Duration>,
) -> io::Result<()>
    ensures came { HaveCome S.Stream.raw_fd (S.Listener.raw_fd listener.now) (S.calls system.old) waiting.old.arriving.items → HaveCome S.Stream.raw_fd (S.Listener.raw_fd listener.now) (S.calls system.new) waiting.new.arriving.items }
    ensures later { Later (S.calls system.old) (S.calls system.new) }
    ensures fault { IfErr result (λ e. Ends (S.Listener.raw_fd listener.now) steps.Accept e (S.calls system.new)) }
    ensures bounded { Bounded waiting.old.arriving.items → Bounded waiting.new.arriving.items }
    ensures changes { (first : List (Arriving S.Stream)) (start : Calls) → Changes first start waiting.old.arriving.items (S.calls system.old) → Changes first start waiting.new.arriving.items (S.calls system.new) }
{
    let is_ready = waiting.has_ready(now);
    let since = waiting.looked.new_since(now);
    if is_first(is_ready, since) {
        asks.clear();
        return Ok(());
    }
    let Ok(leaving) = asked_of(listener, waiting, departures, since, asks) else {
        asks.clear();
        pause_unless(system, is_ready);
        return Ok(());
    };
    let until = end_of_look(waiting, departures, is_ready, now, until);
    look(system, asks.as_mut_slice(), millis_until(now, until));
    match system.monotonic() {
        Ok(later) => {
            waiting.looked.note(since, later);
            let found = &asks[leaving.min(asks.len())..];
            let done = go_on(system, waiting, listener, found, later);
            asks.truncate(leaving);
            done
        }
        Err(fault) => Err(fault),
    }
}

/// The time. What leaves goes on by it, where it was found at its place that it can, or its time is over.
pub(crate) fn advance<S: System>(
    system: &mut S,
    departures: &mut Departures<S::Stream>,
    found: &[pollfd],
) -> io::Result<Duration>
    ensures later { Later (S.calls system.old) (S.calls system.new) }
    ensures fault { (listener : Number) → IfErr result (λ e. Ends listener steps.Accept e (S.calls system.new)) }
    ensures within { Within departures.old.leaving.items → Within departures.new.leaving.items }
    ensures timed { All (IsTimed (S.calls system.old)) departures.old.leaving.items → All (IsTimed (S.calls system.new)) departures.new.leaving.items }
    ensures names { departures.new.names ≡ departures.old.names }
    ensures clock { IfOk result (λ now. ReadsClock now (S.calls system.old) (S.calls system.new)) }
    ensures pace { IfOk result (λ now. All (IsOnTime (S.calls system.old) (S.calls system.new)) departures.new.leaving.items) }
{
    match system.monotonic() {
        Ok(now) => {
            departures::advance(system, departures, found, now);
            Ok(now)
        }
        Err(fault) => Err(fault),
    }
}

/// When a wait is over that began now, unless it began before.
pub(crate) fn begun(
    until: Option<Duration>,
    every: Option<Duration>,
    now: Duration,
) -> Option<Duration> {
    match (until, every) {
        (None, Some(every)) => Some(now.saturating_add(every)),
        (until, _) => until,
    }
}

pub(crate) fn is_over(until: Option<Duration>, now: Duration) -> bool {
    match until {
        Some(until) => has_passed(until, now),
        None => false,
    }
}

/// Waits until something that leaves can go on, or the time of one is over. What was found of each is in `asks` then, at its place.
/// Want of memory passes.
pub(crate) fn wait_leaving<S: System>(
    system: &mut S,
    asks: &mut Vec<pollfd>,
    departures: &Departures<S::Stream>,
    now: Duration,
)
    ensures { Later (S.calls system.old) (S.calls system.new) }
{
    asks.clear();
    match departures.asks(None, asks) {
        Ok(()) => look(
            system,
            asks.as_mut_slice(),
            millis_until(now, departures.earliest()),
        ),
        Err(AllocError) => pause(system),
    }
}
