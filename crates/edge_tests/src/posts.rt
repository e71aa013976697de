//! The posts of a machine, and its answers behind their turns: peers that are slow, silent, refuse or take little.

use atx_sites::node_site::NodeSite;
use site_model::site::{Site, Taken};
use std::alloc::{AllocError, Global};
use std::net::{Ipv4Addr, SocketAddr};
use std::test::Fail;
use std::time::Duration;
use system_memory::memory::MemorySystem;
use system_memory::peer::{Begin, End, Peer};
use system_memory::script::Name;
use system_memory::world::World;

pub(crate) const POST: &[u8] =
    b"POST /c HTTP/1.1\r\nHost: 10.0.0.9\r\nContent-Length: 3\r\n\r\nyes";

pub(crate) const ANSWER: &[u8] = b"HTTP/1.1 202 Accepted\r\nContent-Length: 0\r\n\r\n";

const REQUEST: &[u8] = b"POST /a HTTP/1.1\r\nContent-Length: 0\r\n\r\n";

/// An empty world.
pub(crate) fn world(alloc: Global) -> World {
    World::new(alloc)
}

/// When its clock begins.
pub(crate) fn start() -> Duration {
    Duration::from_secs(1000)
}

/// A host's address, at the port of posts.
pub(crate) fn address(host: u8) -> SocketAddr {
    SocketAddr::from((Ipv4Addr::new(10, 0, 0, host), 80))
}

/// The time so many milliseconds behind the start.
fn at(millis: u64) -> Duration {
    start().saturating_add(Duration::from_millis(millis))
}

/// A host with two addresses; how each begins and ends, and how many bytes it takes; what each got, how many posts were lost, and
/// when nothing leaves any more, in milliseconds.
#[derive(Clone, Copy)]
struct Row {
    words: &'static str,
    begins: [Begin; 2],
    end: End,
    room: usize,
    first: &'static [u8],
    second: &'static [u8],
    lost: u64,
    millis: u64,
}

/// The peers of a row.
fn hosts(alloc: Global, row: &Row) -> Result<World, AllocError> {
    let mut world = world(alloc);
    for (begin, host) in row.begins.iter().zip([1u8, 2]) {
        let mut peer = Peer::found(alloc, address(host), *begin);
        peer.ends(row.end);
        peer.takes(row.room);
        world.host("n2.example", address(host))?;
        world.peer(peer)?;
    }
    Ok(world)
}

/// Whether a row is as it says.
fn leaves(alloc: Global, row: &Row) -> Result<bool, AllocError> {
    let mut system = MemorySystem::new(hosts(alloc, row)?);
    let mut site = NodeSite::new(alloc, &mut system);
    let posted = site.post("n2.example", 80, POST).is_ok() && site.now() == 1_000_000;
    site.leave();
    let millis = site.now().saturating_sub(1_000_000);
    let lost = site.lost();
    drop(site);
    match system.world().peers() {
        [first, second] => Ok(
            posted
                && lost == row.lost
                && millis == row.millis
                && first.took() == row.first
                && second.took() == row.second,
        ),
        _ => Ok(false),
    }
}

#[test]
fn a_post_leaves_aside(rt: HostRuntime) -> Result<(), Fail> {
    let rows = [
        Row {
            words: "accepts at once",
            begins: [Begin::At(at(0)), Begin::Never],
            end: End::Closed(at(100)),
            room: 1000,
            first: POST,
            second: b"",
            lost: 0,
            millis: 100,
        },
        Row {
            words: "accepts later",
            begins: [Begin::At(at(4900)), Begin::Never],
            end: End::Closed(at(5000)),
            room: 1000,
            first: POST,
            second: b"",
            lost: 0,
            millis: 5000,
        },
        Row {
            words: "never accepts",
            begins: [Begin::Never, Begin::At(at(0))],
            end: End::Never,
            room: 1000,
            first: b"",
            second: b"",
            lost: 1,
            millis: 5000,
        },
        Row {
            words: "refuses at once, and the other accepts",
            begins: [Begin::Refused(at(0)), Begin::At(at(0))],
            end: End::Closed(at(100)),
            room: 1000,
            first: b"",
            second: POST,
            lost: 0,
            millis: 100,
        },
        Row {
            words: "refuses later, and the other accepts",
            begins: [Begin::Refused(at(2000)), Begin::At(at(0))],
            end: End::Closed(at(2300)),
            room: 1000,
            first: b"",
            second: POST,
            lost: 0,
            millis: 2300,
        },
        Row {
            words: "both refuse later",
            begins: [Begin::Refused(at(2000)), Begin::Refused(at(3000))],
            end: End::Never,
            room: 1000,
            first: b"",
            second: b"",
            lost: 1,
            millis: 3000,
        },
        Row {
            words: "accepts, and answers nothing",
            begins: [Begin::At(at(1000)), Begin::Never],
            end: End::Never,
            room: 1000,
            first: POST,
            second: b"",
            lost: 0,
            millis: 6000,
        },
        Row {
            words: "resets it in the middle",
            begins: [Begin::At(at(0)), Begin::At(at(0))],
            end: End::Reset(at(700)),
            room: 3,
            first: b"POS",
            second: b"",
            lost: 1,
            millis: 700,
        },
        Row {
            words: "takes three bytes",
            begins: [Begin::At(at(3000)), Begin::At(at(0))],
            end: End::Never,
            room: 3,
            first: b"POS",
            second: b"",
            lost: 1,
            millis: 8000,
        },
    ];
    for row in rows.iter() {
        let right = leaves(rt.alloc(), row)?;
        assert!(rt; right, "{}", row.words);
    }
    Ok(())
}

/// A peer that comes at a time, with a whole request, and that takes so many bytes.
fn caller(alloc: Global, millis: u64, room: usize) -> Result<Peer, AllocError> {
    let mut peer = caller_of(alloc, millis, REQUEST)?;
    peer.takes(room);
    Ok(peer)
}

/// A peer that sends this so many milliseconds behind the start of the clock.
fn caller_of(alloc: Global, millis: u64, request: &[u8]) -> Result<Peer, AllocError> {
    let mut peer = Peer::coming(alloc, address(7), at(millis));
    peer.sends(alloc, at(millis), request)?;
    Ok(peer)
}

/// A peer takes the beginning of its answer; the next has its turn at once, and the answer is given up 5 seconds behind its turn.
fn answers(alloc: Global) -> Result<bool, AllocError> {
    let mut world = world(alloc);
    world.peer(caller(alloc, 0, 9)?)?;
    world.peer(caller(alloc, 1, 1000)?)?;
    let mut system = MemorySystem::new(world);
    let mut site = NodeSite::new(alloc, &mut system);
    let attached = site.attach("d/j", "127.0.0.1:9").is_ok();
    let first = site.take() == Ok(Taken::Opened) && site.send(ANSWER).is_ok();
    site.close();
    let next = site.take() == Ok(Taken::Opened) && site.send(ANSWER).is_ok();
    site.close();
    let soon = site.now() == 1_000_001;
    site.leave();
    let over = site.now() == 1_005_000 && site.lost() == 1;
    drop(site);
    match system.world().peers() {
        [slow, other] => Ok(
            attached
                && first
                && next
                && soon
                && over
                && slow.took() == b"HTTP/1.1 ".as_slice()
                && other.took() == ANSWER,
        ),
        _ => Ok(false),
    }
}

#[test]
fn an_answer_delays_no_turn(rt: HostRuntime) -> Result<(), Fail> {
    let right = answers(rt.alloc())?;
    assert!(rt; right, "answers");
    Ok(())
}

/// A name is looked up once in 60 seconds, also where that fails; an address isn't.
fn looks_up(alloc: Global) -> Result<bool, AllocError> {
    let mut world = world(alloc);
    world.host("n2.example", address(2))?;
    for _ in 0..4 {
        world.peer(Peer::found(alloc, address(2), Begin::At(at(0))))?;
    }
    world.peer(caller(alloc, 59_999, 1000)?)?;
    world.peer(caller(alloc, 60_001, 1000)?)?;
    let mut system = MemorySystem::new(world);
    let mut site = NodeSite::new(alloc, &mut system);
    let attached = site.attach("d/j", "127.0.0.1:9").is_ok();
    let address = site.post("10.0.0.2", 80, POST).is_ok();
    let early = posts(&mut site, b"POST /1 HTTP/1.1\r\n\r\n");
    let before = site.take() == Ok(Taken::Opened) && posts(&mut site, b"POST /2 HTTP/1.1\r\n\r\n");
    let behind = site.take() == Ok(Taken::Opened) && posts(&mut site, b"POST /3 HTTP/1.1\r\n\r\n");
    drop(site);
    let times = system.world();
    Ok(attached && address && early && before && behind && times.count(Name::Resolve) == 4)
}

/// One name has an address and one has none.
fn posts<S: Site>(site: &mut S, bytes: &[u8]) -> bool {
    site.post("n2.example", 80, bytes).is_ok() && site.post("nobody.example", 80, bytes).is_err()
}

#[test]
fn a_name_is_looked_up_once_in_a_minute(rt: HostRuntime) -> Result<(), Fail> {
    let right = looks_up(rt.alloc())?;
    assert!(rt; right, "names");
    Ok(())
}

/// One post of many.
fn numbered(alloc: Global, number: u64) -> Result<String, AllocError> {
    format!(in alloc; "POST /{number} HTTP/1.1\r\n\r\n")
}

/// The most connections that leave to one host.
const MOST_TO_ONE: u64 = 64;

/// A host that never accepts keeps its share of those that leave, and no other waits for it.
fn crowds(alloc: Global) -> Result<bool, AllocError> {
    let mut world = world(alloc);
    for _ in 0..MOST_TO_ONE {
        world.peer(Peer::found(alloc, address(1), Begin::Never))?;
    }
    world.peer(Peer::found(alloc, address(2), Begin::At(at(0))))?;
    let mut system = MemorySystem::new(world);
    let mut site = NodeSite::new(alloc, &mut system);
    let mut all = true;
    for number in 0..MOST_TO_ONE {
        let post = numbered(alloc, number)?;
        all = site.post("10.0.0.1", 80, post.as_bytes()).is_ok() && all;
    }
    let full = site.post("10.0.0.1", 80, POST).is_err();
    let other = site.post("10.0.0.2", 80, POST).is_ok() && site.now() == 1_000_000;
    site.leave();
    let lost = site.lost() == MOST_TO_ONE + 1 && site.now() == 1_005_000;
    drop(site);
    let arrived = match system.world().peers().last() {
        Some(peer) => peer.took() == POST,
        None => false,
    };
    Ok(all && full && other && lost && arrived)
}

#[test]
fn a_host_has_its_share(rt: HostRuntime) -> Result<(), Fail> {
    let right = crowds(rt.alloc())?;
    assert!(rt; right, "crowds");
    Ok(())
}

/// As many hosts that never accept as take all connections that may leave, with those to each.
const HOSTS: u8 = 16;

/// A world with these hosts, and a peer that takes the beginning of its answer.
fn silent(alloc: Global) -> Result<World, AllocError> {
    let mut world = world(alloc);
    for host in 1..=HOSTS {
        for _ in 0..MOST_TO_ONE {
            world.peer(Peer::found(alloc, address(host), Begin::Never))?;
        }
    }
    world.peer(caller(alloc, 0, 9)?)?;
    Ok(world)
}

/// Where nothing more can leave, a post fails and an answer is cut, and each is counted once; so are all the others later.
fn losses(alloc: Global) -> Result<[u64; 4], AllocError> {
    let mut system = MemorySystem::new(silent(alloc)?);
    let mut site = NodeSite::new(alloc, &mut system);
    let _ = site.attach("d/j", "127.0.0.1:9");
    let _ = site.take();
    let _ = site.send(ANSWER);
    for host in 1..=HOSTS {
        let name = format!(in alloc; "10.0.0.{host}")?;
        for number in 0..MOST_TO_ONE {
            let post = numbered(alloc, number)?;
            let _ = site.post(name.as_str(), 80, post.as_bytes());
        }
    }
    let none = site.lost();
    let _ = site.post("10.0.0.99", 80, POST);
    let post = site.lost();
    site.close();
    let answer = site.lost();
    site.leave();
    Ok([none, post, answer, site.lost()])
}

#[test]
fn what_has_no_room_is_lost_once(rt: HostRuntime) -> Result<(), Fail> {
    let lost = losses(rt.alloc())?;
    assert!(rt; lost == [0, 1, 2, 1026], "{lost:?}");
    Ok(())
}

/// At so many seconds behind its first the same post goes out again, or is held back.
const AGAIN: &[(u64, bool)] = &[
    (0, true),
    (4, false),
    (5, true),
    (14, false),
    (15, true),
    (34, false),
    (35, true),
    (75, true),
    (134, false),
    (135, true),
    (195, true),
];

/// A request that names the address of the post, and one that doesn't.
const NAMES: &[u8] = b"POST /a HTTP/1.1\r\nContent-Length: 17\r\n\r\nhttp://10.0.0.9/c";

/// So many connections were begun to a peer while the same post was handed over at these moments.
fn repeats(alloc: Global, request: &[u8]) -> Result<usize, AllocError> {
    let mut world = world(alloc);
    for (seconds, _) in AGAIN {
        world.peer(caller_of(alloc, 1000 * *seconds, request)?)?;
    }
    for _ in AGAIN {
        world.peer(Peer::found(alloc, address(9), Begin::Refused(at(0))))?;
    }
    let mut system = MemorySystem::new(world);
    let mut site = NodeSite::new(alloc, &mut system);
    let _ = site.attach("d/j", "127.0.0.1:9");
    for _ in AGAIN {
        let _ = site.take();
        let _ = site.post("10.0.0.9", 80, POST);
    }
    drop(site);
    Ok(system.world().count(Name::Connect))
}

#[test]
fn the_same_goes_out_less_and_less_often(rt: HostRuntime) -> Result<(), Fail> {
    let unasked = repeats(rt.alloc(), REQUEST)?;
    let asked = repeats(rt.alloc(), NAMES)?;
    assert!(rt; unasked == 7 && asked == AGAIN.len(), "{unasked} {asked}");
    Ok(())
}
