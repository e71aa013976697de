//! Posts that nobody answers, and which go out less and less often.

ghost use Rattle.std.specs.Prelude.{◌≡◌, false};
ghost use Rattle.resend_delays.specs.Delays.{goes, kept, mark_of};
ghost use Rattle.atx_sites.specs.Resends.{IfHeld, IsMillis};

use resend_delays::delays::{Delays, mark_of};
use std::alloc::{AllocError, Global};
use std::time::Duration;
use system_calls::system::System;

/// The target of a request, behind the space in its first line.
fn target_of(bytes: &[u8]) -> &[u8] {
    let mut parts = bytes.split(|byte| *byte == b' ');
    match (parts.next(), parts.next()) {
        (Some(_), Some(target)) => target,
        _ => b"",
    }
}

/// The address to which bytes are posted, as an http URL.
fn address_of(alloc: Global, host: &str, port: u16, bytes: &[u8]) -> Result<Vec<u8>, AllocError> {
    let authority = if port == 80 {
        format!(in alloc; "http://{host}")?
    } else {
        format!(in alloc; "http://{host}:{port}")?
    };
    let mut address = Vec::from_slice(alloc, authority.as_bytes())?;
    address.extend_from_slice(target_of(bytes))?;
    Ok(address)
}

/// Whether bytes stand in others.
fn stand_in(bytes: &[u8], all: &[u8]) -> bool {
    for from in 0..all.len() {
        if all[from..].starts_with(bytes) {
            return true;
        }
    }
    false
}

/// Whether the address to which bytes are posted stands in a request. It may where there is no memory to look for it.
fn is_named(alloc: Global, request: &[u8], host: &str, port: u16, bytes: &[u8]) -> bool {
    match address_of(alloc, host, port, bytes) {
        Ok(address) => stand_in(address.as_slice(), request),
        Err(AllocError) => true,
    }
}

/// A time in milliseconds; the most that there are where it has more.
pub(crate) fn millis(time: Duration) -> u64
    ensures { IsMillis time result }
{
    match u64::try_from(time.as_millis()) {
        Ok(millis) => millis,
        Err(_) => u64::MAX,
    }
}

/// Whether the same went out too short a time ago.
fn is_early<S: System>(
    system: &mut S,
    delays: &mut Delays,
    host: &str,
    port: u16,
    bytes: &[u8],
) -> bool
    ensures { IfHeld result host.now port bytes.now delays.old (S.calls system.old) (S.calls system.new) }
{
    let Ok(time) = system.monotonic() else {
        return false;
    };
    !delays.pass(millis(time), mark_of(host, port, bytes))
}

/// Whether a post is held back: the same went out too short a time ago, and its address doesn't stand in the request that is
/// served. Whoever speaks is answered at once.
pub(crate) fn is_held<S: System>(
    system: &mut S,
    delays: &mut Delays,
    request: &[u8],
    host: &str,
    port: u16,
    bytes: &[u8],
) -> bool
    ensures { IfHeld result host.now port bytes.now delays.old (S.calls system.old) (S.calls system.new) }
{
    if !is_early(system, delays, host, port, bytes) {
        return false;
    }
    !is_named(delays.alloc(), request, host, port, bytes)
}
