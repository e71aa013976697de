//! Names of hosts that were looked up.

ghost use Rattle.std.specs.Prelude.{[], ◌≡◌, ◌<◌, ◌≤◌, ◌+◌, ◌++◌, ℕ, List, IfOk, IfSome, OnOk, length, slice_index_or, true};
ghost use Rattle.std.specs.Duration.{as_nanos};
ghost use Rattle.std.specs.Net.Grammar.{IsIpText};
ghost use Rattle.std.specs.Net.ToAddrs.{host_addrs};
ghost use Rattle.system_calls.specs.Calls.{Calls, then};
ghost use Rattle.system_calls.specs.Calls.Call.{Monotonic};
ghost use Rattle.atx_sites.specs.Departures.{IsBare, Looks};
ghost use Rattle.atx_sites.specs.Names.{AreAnswered, IsAnswered, IsFor, LookedUp, MayReach};
ghost use Rattle.atx_sites.specs.declared.resolved_names.Name.{Name};

use crate::spares::{copied, room_for};
use std::alloc::{AllocError, Global};
use std::io::{self, ErrorKind};
use std::net::{HostAddrs, IpAddr, SocketAddr};
use std::time::Duration;
use system_calls::system::System;

/// The seconds for which an answer is kept, also one that there is none.
const KEPT_SECONDS: u64 = 60;

/// The most names that are kept.
const MOST_NAMES: usize = 64;

/// The most addresses that a host is looked up to have.
pub(crate) const MOST_ADDRESSES: usize = 32;

/// A name that was looked up, and its addresses: none where that failed.
#[derive(Drop)]
struct Name {
    host: String,
    port: u16,
    addresses: Vec<SocketAddr>,
    ends: Duration,
}

impl Name {
    /// One that was answered at that time.
    fn new(host: String, port: u16, addresses: Vec<SocketAddr>, at: Duration) -> Name
        ensures { (result.host ≡ host) × (result.port ≡ port) × (result.addresses ≡ addresses) × (as_nanos result.ends ≤ as_nanos at + 60_000_000_000) }
    {
        Name {
            host,
            port,
            addresses,
            ends: at.saturating_add(Duration::from_secs(KEPT_SECONDS)),
        }
    }
}

/// Names that were looked up in the last 60 seconds, with their answers.
#[derive(Drop)]
pub struct ResolvedNames {
    alloc: Global,
    names: Vec<Name>,
}

impl ResolvedNames {
    pub(crate) fn new(alloc: Global) -> ResolvedNames
        ensures { result.names.items ≡ [] }
    {
        ResolvedNames {
            alloc,
            names: Vec::new(alloc),
        }
    }
}

/// A host without the brackets of an IPv6 address.
fn bare(host: &str) -> &str
    ensures { IsBare host.now result.now }
{
    match host.strip_prefix('[') {
        Some(inner) => inner.strip_suffix(']').unwrap_or(host),
        None => host,
    }
}

/// Whether a name is kept for that host and port, and its time isn't over.
fn is_for(name: &Name, host: &str, port: u16, now: Duration) -> bool
    ensures { result ≡ true → IsFor host.now port now name.now }
{
    name.port == port && name.ends.as_nanos() > now.as_nanos() && name.host.as_str() == host
}

/// Where a name is kept whose time isn't over.
fn place(names: &[Name], host: &str, port: u16, now: Duration) -> Option<usize>
    ensures { IfSome result (λ i. (i < length names.now) × ((d : Name) → IsFor host.now port now (slice_index_or names.now i d))) }
{
    for i in 0..names.len() {
        if is_for(&names[i], host, port, now) {
            return Some(i);
        }
    }
    None
}

/// Adds all of them, in order.
#[tactic(auto, using(crate::proofs::NamesKept::no_rest, crate::proofs::NamesKept::one_more))]
fn gather(mut addresses: HostAddrs, found: &mut Vec<SocketAddr>) -> Result<(), AllocError>
    ensures { OnOk result (found.new.items ≡ found.old.items ++ host_addrs addresses) }
{
    'addresses: for _ in 0..u32::MAX {
        match addresses.next() {
            Some(address) => found.push(address)?,
            None => return Ok(()),
        }
    }
    Err(AllocError)
}

/// Looks a host up. None is found where that fails.
#[tactic(auto, using(crate::proofs::DepartureLists::unlooked, crate::proofs::DepartureLists::looked_clock, crate::proofs::DepartureLists::looked_up))]
fn look_up<S: System>(
    system: &mut S,
    alloc: Global,
    spare: &mut Vec<SocketAddr>,
    host: &str,
    port: u16,
) -> Result<Vec<SocketAddr>, AllocError>
    ensures looks { (first : Calls) → Looks host.now port first (S.calls system.old) → Looks host.now port first (S.calls system.new) }
    ensures found { IfOk result (λ v. LookedUp host.now port v.items (S.calls system.old) (S.calls system.new)) }
{
    let mut found = room_for(alloc, spare, MOST_ADDRESSES);
    match system.resolve(host, port) {
        Ok(addresses) => match gather(addresses, &mut found) {
            Ok(()) => Ok(found),
            Err(AllocError) => Err(AllocError),
        },
        Err(_) => Ok(found),
    }
}

/// Drops the oldest where there are many.
#[tactic(auto, using(crate::proofs::NamesKept::kept_removed))]
fn make_room(names: &mut Vec<Name>)
    ensures { (calls : Calls) → AreAnswered calls names.old.items → AreAnswered calls names.new.items }
{
    if names.len() >= MOST_NAMES {
        names.remove(0);
    }
}

/// Keeps a name, in place of the oldest where there are many.
fn keep(names: &mut Vec<Name>, name: Name) -> Result<(), AllocError>
    ensures { (calls : Calls) → AreAnswered calls names.old.items → IsAnswered calls name → AreAnswered calls names.new.items }
{
    make_room(names);
    match names.push(name) {
        Ok(()) => Ok(()),
        Err(_) => Err(AllocError),
    }
}

/// The clock.
fn clock<S: System>(system: &mut S) -> io::Result<Duration>
    ensures looks { (host : List ℕ) (port : ℕ) (first : Calls) → Looks host port first (S.calls system.old) → Looks host port first (S.calls system.new) }
    ensures reads { S.calls system.new ≡ then (Monotonic result) (S.calls system.old) }
{
    system.monotonic()
}

/// Keeps what was answered at that time. Where there is no memory for it, it isn't kept.
fn keep_answer(
    names: &mut ResolvedNames,
    host: &str,
    port: u16,
    addresses: &[SocketAddr],
    at: Duration,
)
    ensures { (old mid new : Calls) → LookedUp host.now port addresses.now old mid → new ≡ then (Monotonic (Ok at)) mid → AreAnswered new names.old.names.items → AreAnswered new names.new.names.items }
{
    let Ok(addresses) = Vec::from_slice(names.alloc, addresses) else {
        return;
    };
    let Ok(host) = String::from_str(names.alloc, host) else {
        return;
    };
    let _ = keep(&mut names.names, Name::new(host, port, addresses, at));
}

/// Looks a host up, and keeps what was answered, where there is memory for that.
fn look_up_and_keep<S: System>(
    system: &mut S,
    names: &mut ResolvedNames,
    spare: &mut Vec<SocketAddr>,
    host: &str,
    port: u16,
) -> io::Result<Vec<SocketAddr>>
    ensures looks { (first : Calls) → Looks host.now port first (S.calls system.old) → Looks host.now port first (S.calls system.new) }
    ensures kept { AreAnswered (S.calls system.old) names.old.names.items → AreAnswered (S.calls system.new) names.new.names.items }
    ensures found { IfOk result (λ v. MayReach host.now port v.items (S.calls system.old) (S.calls system.new)) }
{
    let addresses = look_up(system, names.alloc, spare, host, port)?;
    let at = clock(system)?;
    keep_answer(names, host, port, addresses.as_slice(), at);
    Ok(addresses)
}

/// The addresses of a name, which is looked up where it isn't kept.
#[tactic(auto, using(crate::proofs::DepartureLists::unlooked, crate::proofs::DepartureLists::looked_clock, crate::proofs::DepartureLists::looked_up))]
fn addresses_of_name<S: System>(
    system: &mut S,
    names: &mut ResolvedNames,
    spare: &mut Vec<SocketAddr>,
    host: &str,
    port: u16,
) -> io::Result<Vec<SocketAddr>>
    ensures looks { (first : Calls) → Looks host.now port first (S.calls system.old) → Looks host.now port first (S.calls system.new) }
    ensures kept { AreAnswered (S.calls system.old) names.old.names.items → AreAnswered (S.calls system.new) names.new.names.items }
    ensures found { AreAnswered (S.calls system.old) names.old.names.items → IfOk result (λ v. MayReach host.now port v.items (S.calls system.old) (S.calls system.new)) }
{
    let now = match clock(system) {
        Ok(now) => now,
        Err(fault) => return Err(fault),
    };
    match place(&names.names, host, port, now) {
        Some(at) => Ok(copied(names.alloc, spare, names.names[at].addresses.as_slice())?),
        None => look_up_and_keep(system, names, spare, host, port),
    }
}

/// The address that is an IP address itself.
fn address_of(
    alloc: Global,
    spare: &mut Vec<SocketAddr>,
    ip: IpAddr,
    port: u16,
) -> io::Result<Vec<SocketAddr>>
    ensures { (host : List ℕ) (old new : Calls) → IsIpText host ip → IfOk result (λ v. MayReach host port v.items old new) }
{
    let mut found = room_for(alloc, spare, 1);
    found.push(SocketAddr::new(ip, port))?;
    Ok(found)
}

/// The addresses of a host at a port, or none.
fn addresses_of<S: System>(
    system: &mut S,
    names: &mut ResolvedNames,
    spare: &mut Vec<SocketAddr>,
    host: &str,
    port: u16,
) -> io::Result<Vec<SocketAddr>>
    ensures kept { AreAnswered (S.calls system.old) names.old.names.items → AreAnswered (S.calls system.new) names.new.names.items }
    ensures found { (bare : List ℕ) × IsBare host.now bare × Looks bare port (S.calls system.old) (S.calls system.new)
        × (AreAnswered (S.calls system.old) names.old.names.items → IfOk result (λ v. MayReach bare port v.items (S.calls system.old) (S.calls system.new))) }
{
    let host = bare(host);
    match host.parse::<IpAddr>() {
        Ok(ip) => address_of(names.alloc, spare, ip, port),
        Err(_) => addresses_of_name(system, names, spare, host, port),
    }
}

/// The addresses of a host at a port, in the order in which they are to be tried. A host that is an IP address, in brackets
/// or not, is its own; a name is looked up, without a limit of time, unless it was within the last 60 seconds, and there was memory to
/// keep what it was answered. Where there is no memory for the addresses, they have the spare room.
pub(crate) fn addresses<S: System>(
    system: &mut S,
    names: &mut ResolvedNames,
    spare: &mut Vec<SocketAddr>,
    host: &str,
    port: u16,
) -> io::Result<Vec<SocketAddr>>
    ensures kept { AreAnswered (S.calls system.old) names.old.names.items → AreAnswered (S.calls system.new) names.new.names.items }
    ensures found { (bare : List ℕ) × IsBare host.now bare × Looks bare port (S.calls system.old) (S.calls system.new)
        × (AreAnswered (S.calls system.old) names.old.names.items → IfOk result (λ v. MayReach bare port v.items (S.calls system.old) (S.calls system.new))) }
{
    let found = match addresses_of(system, names, spare, host, port) {
        Ok(found) => found,
        Err(fault) => return Err(fault),
    };
    if found.is_empty() {
        return Err(ErrorKind::HostUnreachable.into());
    }
    Ok(found)
}
