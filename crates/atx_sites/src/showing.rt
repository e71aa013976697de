//! Pages, which are shown while the turn of a connection is waited for.

ghost use Rattle.std.specs.Prelude.{◌≡◌, All, List};
ghost use Rattle.system_calls.specs.Calls.{Calls, Number};
ghost use Rattle.atx_sites.specs.Arrivals.{Bounded, ConnectionCame, HaveCome};
ghost use Rattle.atx_sites.specs.LinkCalls.{Later, ReadsClock};
ghost use Rattle.atx_sites.specs.Departures.{IsTimed, Within};
ghost use Rattle.atx_sites.specs.Waits.{Changes};
ghost use Rattle.atx_sites.specs.declared.arriving.Arriving.{Arriving};

use crate::connection::Connection;
use crate::departures::Departures;
use crate::looking::{advance, begun, is_over, wait_once};
use crate::pages::show_next;
use crate::waiting::Waiting;
use libc::types::pollfd;
use shown_pages::page::Counts;
use shown_pages::pages::Pages;
use std::time::Duration;
use system_calls::system::System;

/// Since when pages are shown, and when the wait for a turn is over in which they are.
#[derive(Clone, Copy)]
pub(crate) struct Shown {
    since: Option<Duration>,
    until: Option<Duration>,
}

impl Shown {
    pub(crate) fn new() -> Shown {
        Shown {
            since: None,
            until: None,
        }
    }

    /// Since when pages are shown: since now, where they weren't before.
    fn since(&mut self, now: Duration) -> Duration {
        let since = self.since.unwrap_or(now);
        self.since = Some(since);
        since
    }

    /// When a wait is over that began now, unless it began before.
    fn begun(&mut self, every: Option<Duration>, now: Duration) -> Option<Duration> {
        self.until = begun(self.until, every, now);
        self.until
    }

    /// When the wait is over, which goes on where a connection is taken.
    pub(crate) fn end(&mut self) -> Option<Duration> {
        self.until.take()
    }
}

/// A time in milliseconds.
fn millis_of(time: Duration) -> u64 {
    u64::try_from(time.as_millis()).unwrap_or(u64::MAX)
}

/// What a machine counted by then.
fn counted(base: &Counts, now: Duration, since: Duration, foreign: u64) -> Counts {
    let mut counts = *base;
    counts.clock = millis_of(now);
    counts.up = millis_of(now.saturating_sub(since));
    counts.foreign = foreign;
    counts
}

/// Shows its page to one that asks for it, and else waits until something can be done, and does it. Whether that goes on: the turn
/// of none may come yet, and the time isn't over.
#[tactic(auto, using(crate::proofs::Comings::later_still))]
fn show_or_wait<S: System, P: Pages>(
    system: &mut S,
    waiting: &mut Waiting<S::Stream>,
    departures: &mut Departures<S::Stream>,
    listener: &S::Listener,
    asks: &mut Vec<pollfd>,
    now: Duration,
    until: Option<Duration>,
    pages: &P,
    counts: &Counts,
) -> bool
    ensures came { HaveCome S.Stream.raw_fd (S.Listener.raw_fd listener.now) (S.calls system.old) waiting.old.arriving.items → HaveCome S.Stream.raw_fd (S.Listener.raw_fd listener.now) (S.calls system.new) waiting.new.arriving.items }
    ensures later { Later (S.calls system.old) (S.calls system.new) }
    ensures bounded { Bounded waiting.old.arriving.items → Bounded waiting.new.arriving.items }
    ensures within { Within departures.old.leaving.items → Within departures.new.leaving.items }
    ensures changes { (first : List (Arriving S.Stream)) (start : Calls) → ReadsClock now start (S.calls system.old) → Changes first start waiting.old.arriving.items (S.calls system.old) → Changes first start waiting.new.arriving.items (S.calls system.new) }
    ensures timed { All (IsTimed (S.calls system.old)) departures.old.leaving.items → All (IsTimed (S.calls system.new)) departures.new.leaving.items }
    ensures names { departures.new.names ≡ departures.old.names }
{
    if show_next(system, waiting, departures, now, pages, counts) {
        return true;
    }
    if waiting.has_ready(now) || is_over(until, now) {
        return false;
    }
    wait_once(system, waiting, departures, listener, asks, now, until).is_ok()
}

/// Waits until the turn of one may come, or until then, and shows pages meanwhile.
#[tactic(auto, using(crate::proofs::Comings::as_late, crate::proofs::Comings::later_still))]
fn show_until<S: System, P: Pages>(
    system: &mut S,
    waiting: &mut Waiting<S::Stream>,
    departures: &mut Departures<S::Stream>,
    listener: &S::Listener,
    asks: &mut Vec<pollfd>,
    shown: &mut Shown,
    every: Option<Duration>,
    base: &Counts,
    pages: &P,
)
    ensures came { HaveCome S.Stream.raw_fd (S.Listener.raw_fd listener.now) (S.calls system.old) waiting.old.arriving.items → HaveCome S.Stream.raw_fd (S.Listener.raw_fd listener.now) (S.calls system.new) waiting.new.arriving.items }
    ensures later { Later (S.calls system.old) (S.calls system.new) }
    ensures bounded { Bounded waiting.old.arriving.items → Bounded waiting.new.arriving.items }
    ensures within { Within departures.old.leaving.items → Within departures.new.leaving.items }
    ensures changes { (first : List (Arriving S.Stream)) (start : Calls) → Changes first start waiting.old.arriving.items (S.calls system.old) → Changes first start waiting.new.arriving.items (S.calls system.new) }
    ensures timed { All (IsTimed (S.calls system.old)) departures.old.leaving.items → All (IsTimed (S.calls system.new)) departures.new.leaving.items }
    ensures names { departures.new.names ≡ departures.old.names }
{
    'waits: for _ in 0..u64::MAX {
        let Ok(now) = advance(system, departures, asks) else {
            return;
        };
        let until = shown.begun(every, now);
        let counts = counted(base, now, shown.since(now), waiting.foreign);
        if !show_or_wait(
            system, waiting, departures, listener, asks, now, until, pages, &counts,
        ) {
            return;
        }
    }
}

/// Waits until the turn of one may come, or the time of a turn of its own, and shows pages meanwhile. What fails is left to who
/// takes a connection.
#[tactic(auto, using(crate::proofs::Comings::as_late))]
pub(crate) fn show<S: System, P: Pages>(
    system: &mut S,
    connection: &mut Connection<S::Listener, S::Stream>,
    departures: &mut Departures<S::Stream>,
    every: Option<Duration>,
    base: &Counts,
    pages: &P,
)
    ensures same { (connection.new.listener ≡ connection.old.listener) × (connection.new.served ≡ connection.old.served) }
    ensures came { ConnectionCame S.Stream.raw_fd S.Listener.raw_fd (S.calls system.old) connection.old → ConnectionCame S.Stream.raw_fd S.Listener.raw_fd (S.calls system.new) connection.new }
    ensures later { Later (S.calls system.old) (S.calls system.new) }
    ensures bounded { Bounded connection.old.waiting.arriving.items → Bounded connection.new.waiting.arriving.items }
    ensures within { Within departures.old.leaving.items → Within departures.new.leaving.items }
    ensures changes { Changes connection.old.waiting.arriving.items (S.calls system.old) connection.new.waiting.arriving.items (S.calls system.new) }
    ensures timed { All (IsTimed (S.calls system.old)) departures.old.leaving.items → All (IsTimed (S.calls system.new)) departures.new.leaving.items }
    ensures names { departures.new.names ≡ departures.old.names }
{
    let Some(listener) = &connection.listener else {
        return;
    };
    show_until(
        system,
        &mut connection.waiting,
        departures,
        listener,
        &mut connection.asks,
        &mut connection.shown,
        every,
        base,
        pages,
    );
}
