//! Times that a peer is given.

ghost use Rattle.std.specs.Prelude.{◌≡◌};
ghost use Rattle.atx_sites.specs.Deadlines.{has_passed};
ghost use Rattle.atx_sites.specs.LinkCalls.{Later};

use std::io::{self, ErrorKind};
use std::time::Duration;
use system_calls::system::System;

/// Whether a time is over.
pub(crate) fn has_passed(time: Duration, now: Duration) -> bool
    ensures { result ≡ has_passed now time }
{
    time.as_nanos() <= now.as_nanos()
}

/// The earlier of two times, where there are any.
pub(crate) fn earlier(one: Option<Duration>, other: Option<Duration>) -> Option<Duration> {
    match (one, other) {
        (Some(one), Some(other)) => Some(one.min(other)),
        (Some(one), None) => Some(one),
        (None, other) => other,
    }
}

/// Whether one is new whose time is over then: it is no earlier than another time, or there is none.
pub(crate) fn is_new(ends: Duration, from: Option<Duration>) -> bool {
    match from {
        Some(from) => ends >= from,
        None => true,
    }
}

/// When the time of one is over that began then, and has so many seconds.
pub(crate) fn ends_of(since: Option<Duration>, seconds: u64) -> Option<Duration> {
    match since {
        Some(since) => Some(since.saturating_add(Duration::from_secs(seconds))),
        None => None,
    }
}

/// The milliseconds for which a poll waits until a time, rounded up; without a limit where there is none.
pub(crate) fn millis_until(now: Duration, time: Option<Duration>) -> i32 {
    match time {
        Some(time) => {
            let nanos = time.saturating_sub(now).as_nanos();
            i32::try_from(nanos.div_ceil(1_000_000)).unwrap_or(i32::MAX)
        }
        None => -1,
    }
}

/// What is left of a time, in milliseconds. A time that is over is a failure.
#[tactic(auto, using(crate::proofs::Comings::late_by))]
pub(crate) fn left<S: System>(system: &mut S, ends: Duration) -> io::Result<i32>
    ensures { Later (S.calls system.old) (S.calls system.new) }
{
    let now = system.monotonic()?;
    if has_passed(ends, now) {
        return Err(ErrorKind::TimedOut.into());
    }
    Ok(millis_until(now, Some(ends)))
}
