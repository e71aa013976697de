//! What machines of others may ask of a node's machine, and how much of it.

use crate::links::{FORBIDDEN, at, hears, sender_of};
use crate::posts::{ANSWER, address, world};
use atx_sites::node_site::NodeSite;
use site_model::site::Site;
use std::alloc::{AllocError, Global};
use std::net::{Ipv4Addr, Ipv6Addr, SocketAddr};
use std::test::Fail;
use system_memory::memory::MemorySystem;
use system_memory::peer::Peer;

/// The request behind which others come.
const LAST: &[u8] = b"POST /b HTTP/1.1\r\nContent-Length: 2\r\n\r\nhi";

/// What became of a request.
#[derive(Clone, Copy, Debug, PartialEq, Eq)]
enum Fate {
    /// It had a turn.
    Served,
    /// It was answered 403 without one.
    Refused,
    Neither,
}

/// What becomes of a request for this target from there.
fn became(
    alloc: Global,
    from: SocketAddr,
    target: &str,
    hears_ticks: bool,
) -> Result<Fate, AllocError> {
    let request = format!(in alloc; "POST {target} HTTP/1.1\r\nContent-Length: 0\r\n\r\n")?;
    let mut world = world(alloc);
    world.peer(sender_of(alloc, from, 0, 0, request.as_bytes())?)?;
    world.peer(sender_of(alloc, address(1), 10, 10, LAST)?)?;
    let mut system = MemorySystem::new(world);
    let mut site = NodeSite::new(alloc, &mut system);
    if hears_ticks {
        site.hear_ticks();
    }
    let attached = site.attach("d/j", "127.0.0.1:9").is_ok();
    let mut served = false;
    if attached && site.take().is_ok() {
        let mut buf = [0u8; 256];
        let count = site.receive(&mut buf).unwrap_or(0);
        served = &buf[..count.min(256)] == request.as_bytes();
    }
    site.close();
    site.leave();
    drop(site);
    let forbidden = match system.world().peers() {
        [first, _] => first.took() == FORBIDDEN,
        _ => false,
    };
    Ok(match (served, forbidden) {
        (true, false) => Fate::Served,
        (false, true) => Fate::Refused,
        _ => Fate::Neither,
    })
}

/// Each way in which a target may name the tick.
const TICKS: [&str; 7] = [
    "/tick",
    "/tick?now",
    "http://127.0.0.1:9/tick",
    "http://127.0.0.1:9/tick#x?y",
    "http://127.0.0.1:9/a/../tick",
    "http:\\\\127.0.0.1:9\\tick",
    "http://127.0.0.1:9/./tick?x=/a",
];

#[test]
fn a_tick_is_for_the_machine_itself(rt: HostRuntime) -> Result<(), Fail> {
    let alloc = rt.alloc();
    let stranger = address(1);
    let mapped = Ipv6Addr::new(0, 0, 0, 0, 0, 0xffff, 0x7f00, 1);
    let own = [
        SocketAddr::from((Ipv4Addr::new(127, 0, 0, 1), 80)),
        SocketAddr::from((Ipv4Addr::new(127, 9, 9, 9), 80)),
        SocketAddr::from((Ipv6Addr::new(0, 0, 0, 0, 0, 0, 0, 1), 80)),
        SocketAddr::from((mapped, 80)),
    ];
    for target in TICKS {
        let refused = became(alloc, stranger, target, false)?;
        assert!(rt; refused == Fate::Refused, "{target}: {refused:?}");
        let heard = became(alloc, stranger, target, true)?;
        assert!(rt; heard == Fate::Served, "{target}: {heard:?}");
        for from in own {
            let served = became(alloc, from, target, false)?;
            assert!(rt; served == Fate::Served, "{from} {target}: {served:?}");
        }
    }
    for target in ["/c/d/1-1/1", "/tick/1", "/ticks", "/activation?tick", "/"] {
        let served = became(alloc, stranger, target, false)?;
        assert!(rt; served == Fate::Served, "{target}: {served:?}");
    }
    Ok(())
}

/// Whether a request from there is served beside so many silent connections of a stranger.
fn is_served(
    alloc: Global,
    silent: SocketAddr,
    count: usize,
    from: SocketAddr,
) -> Result<bool, AllocError> {
    let mut world = world(alloc);
    for _ in 0..count {
        world.peer(Peer::coming(alloc, silent, at(0)))?;
    }
    world.peer(sender_of(alloc, from, 10, 10, LAST)?)?;
    let mut system = MemorySystem::new(world);
    let mut site = NodeSite::new(alloc, &mut system);
    let attached = site.attach("d/j", "127.0.0.1:9").is_ok();
    let served = attached && hears(&mut site, LAST) && site.send(ANSWER).is_ok();
    site.close();
    site.leave();
    Ok(served)
}

#[test]
fn a_peer_has_a_quarter_of_what_may_wait(rt: HostRuntime) -> Result<(), Fail> {
    let alloc = rt.alloc();
    let own = SocketAddr::from((Ipv4Addr::new(127, 0, 0, 1), 80));
    let rows = [
        (address(1), 255, address(1), true),
        (address(1), 256, address(1), false),
        (address(1), 256, address(2), true),
        (address(1), 300, address(2), true),
        (own, 300, own, true),
    ];
    for (silent, count, from, is_right) in rows {
        let served = is_served(alloc, silent, count, from)?;
        assert!(rt; served == is_right, "{silent} {count} {from}: {served}");
    }
    Ok(())
}
