//! The connections and the posts of a machine: calls that fail, move little or would wait, and peers that are slow.

use crate::posts::{ANSWER, POST, address, start, world};
use atx_sites::node_site::NodeSite;
use shown_pages::page::{Counts, Page};
use shown_pages::pages::Pages;
use shown_pages::showing::Showing;
use site_model::site::{Site, Taken};
use site_model::source::Failed;
use std::alloc::{AllocError, Global};
use std::net::SocketAddr;
use std::test::Fail;
use std::time::Duration;
use system_memory::memory::MemorySystem;
use system_memory::peer::{Begin, End, Peer};
use system_memory::script::{Act, Name, Rule};
use system_memory::world::World;

/// Errors of calls by their numbers.
const EINTR: i32 = 4;

const EBADF: i32 = 9;

const EAGAIN: i32 = 11;

const ENOBUFS: i32 = 105;

/// A whole request, and its parts.
const WHOLE: &[u8] = b"POST /a HTTP/1.1\r\nContent-Length: 5\r\n\r\nhello";

const FRONT: &[u8] = b"POST /a HTTP/1.1\r\nContent-";

const BACK: &[u8] = b"Length: 5\r\n\r\nhello";

/// Another.
const OTHER: &[u8] = b"POST /b HTTP/1.1\r\nContent-Length: 2\r\n\r\nhi";

/// Calls of this name, from the n-th on each `every`-th.
fn each(name: Name, n: usize, every: usize, act: Act) -> Rule {
    Rule {
        name: Some(name),
        n,
        every,
        act,
    }
}

/// The time so many milliseconds behind the start.
pub(crate) fn at(millis: u64) -> Duration {
    start().saturating_add(Duration::from_millis(millis))
}

/// A peer that comes from there, and sends these bytes at a time.
pub(crate) fn sender_of(
    alloc: Global,
    from: SocketAddr,
    comes: u64,
    sends: u64,
    bytes: &[u8],
) -> Result<Peer, AllocError> {
    let mut peer = Peer::coming(alloc, from, at(comes));
    peer.sends(alloc, at(sends), bytes)?;
    Ok(peer)
}

/// A peer that comes, and sends these bytes at a time.
fn sender(alloc: Global, comes: u64, sends: u64, bytes: &[u8]) -> Result<Peer, AllocError> {
    sender_of(alloc, address(1), comes, sends, bytes)
}

/// One of eight addresses.
fn one_of_eight(place: usize) -> SocketAddr {
    address((place % 8) as u8)
}

/// Takes the next connection. Whether all that it brings until these bytes are there are these.
pub(crate) fn hears<S: Site>(site: &mut S, bytes: &[u8]) -> bool {
    if site.take() != Ok(Taken::Opened) {
        return false;
    }
    let mut rest = bytes;
    let mut buf = [0u8; 64];
    for _ in 0..64 {
        if rest.is_empty() {
            return true;
        }
        let n = site.receive(&mut buf).unwrap_or(0);
        match rest.strip_prefix(&buf[..n.min(64)]) {
            Some(more) if n > 0 => rest = more,
            _ => return false,
        }
    }
    false
}

/// The first of two peers sends its request in two parts, and the second its at once; a third is posted to.
fn three(alloc: Global) -> Result<World, AllocError> {
    let mut world = world(alloc);
    let mut first = sender(alloc, 0, 0, FRONT)?;
    first.sends(alloc, at(30), BACK)?;
    world.peer(first)?;
    world.peer(sender(alloc, 10, 10, OTHER)?)?;
    world.peer(Peer::found(alloc, address(9), Begin::At(at(50))))?;
    Ok(world)
}

/// Serves both, and posts between.
fn serves(alloc: Global, system: &mut MemorySystem) -> bool {
    let mut site = NodeSite::new(alloc, system);
    let attached = site.attach("d/j", "127.0.0.1:9").is_ok();
    let second = hears(&mut site, OTHER) && site.send(b"HTTP/1.1 ").is_ok();
    let posted = site.post("10.0.0.9", 80, POST).is_ok();
    let answered = site.send(ANSWER).is_ok();
    site.close();
    let first = hears(&mut site, WHOLE) && site.send(ANSWER).is_ok();
    site.close();
    site.leave();
    attached && second && posted && answered && first && site.lost() == 0
}

/// Whether each has what was meant for it, whole and once.
fn arrives(alloc: Global, rules: &[Rule]) -> Result<bool, AllocError> {
    let mut world = three(alloc)?;
    for rule in rules.iter() {
        world.rule(*rule)?;
    }
    let mut system = MemorySystem::new(world);
    let served = serves(alloc, &mut system);
    match system.world().peers() {
        [first, second, third] => Ok(
            served
                && first.took() == ANSWER
                && second.took().strip_prefix(b"HTTP/1.1 ") == Some(ANSWER)
                && third.took() == POST
                && first.is_shut()
                && second.is_shut()
                && !third.is_shut(),
        ),
        _ => Ok(false),
    }
}

/// What befalls the first call of a name, and each so many calls behind it.
const BEFALLS: &[(Name, usize, Act)] = &[
    (Name::Write, 1, Act::AtMost(usize::MAX)),
    (Name::Write, 2, Act::Fail(EINTR)),
    (Name::Write, 3, Act::Fail(EAGAIN)),
    (Name::Read, 1, Act::AtMost(1)),
    (Name::Read, 3, Act::Fail(EINTR)),
    (Name::Read, 3, Act::Fail(EAGAIN)),
    (Name::Poll, 2, Act::Fail(EINTR)),
    (Name::Accept, 2, Act::Fail(EINTR)),
];

#[test]
fn answers_and_posts_arrive_whole_and_once(rt: HostRuntime) -> Result<(), Fail> {
    for (name, every, act) in BEFALLS {
        let rules = [
            each(*name, 1, *every, *act),
            each(Name::Write, 1, 1, Act::AtMost(1)),
        ];
        let alone = arrives(rt.alloc(), &rules[..1])?;
        let short = arrives(rt.alloc(), &rules)?;
        assert!(rt; alone && short, "{name:?} {every} {act:?}");
    }
    Ok(())
}

/// The head of a request whose body waits for an interim answer, and all of it.
const HEAD: &[u8] = b"POST /d HTTP/1.1\r\nExpect: 100-continue\r\nContent-Length: 2\r\n\r\n";

const ASKED: &[u8] = b"POST /d HTTP/1.1\r\nExpect: 100-continue\r\nContent-Length: 2\r\n\r\nok";

/// Peers of which one is silent, one stops in the middle, one is reset there, two are whole later, one ends without a byte, and
/// one waits for an interim answer.
fn slow(alloc: Global) -> Result<World, AllocError> {
    let mut world = world(alloc);
    world.peer(Peer::coming(alloc, address(1), at(0)))?;
    world.peer(sender(alloc, 0, 0, FRONT)?)?;
    let mut reset = sender(alloc, 0, 0, FRONT)?;
    reset.ends(End::Reset(at(3000)));
    world.peer(reset)?;
    world.peer(sender(alloc, 0, 1000, OTHER)?)?;
    world.peer(sender(alloc, 2000, 2000, WHOLE)?)?;
    let mut ended = Peer::coming(alloc, address(2), at(0));
    ended.ends(End::Closed(at(4000)));
    world.peer(ended)?;
    let mut waits = sender(alloc, 5000, 5000, HEAD)?;
    waits.sends(alloc, at(5500), b"ok")?;
    world.peer(waits)?;
    Ok(world)
}

/// Whether the next connection brings these bytes, at a time in milliseconds.
fn hears_at<S: Site>(site: &mut S, bytes: &[u8], millis: u64) -> bool {
    hears(site, bytes) && site.now() == millis.saturating_add(1_000_000)
}

/// Whether the connection brings nothing more than this, at a time in milliseconds.
fn ends_at<S: Site>(site: &mut S, end: Result<usize, Failed>, millis: u64) -> bool {
    site.receive(&mut [0u8; 9]) == end && site.now() == millis.saturating_add(1_000_000)
}

/// Each takes its turn when it can, and the silent one none.
fn turns(alloc: Global) -> Result<bool, AllocError> {
    let mut system = MemorySystem::new(slow(alloc)?);
    let mut site = NodeSite::new(alloc, &mut system);
    let attached = site.attach("d/j", "127.0.0.1:9").is_ok();
    let whole = hears_at(&mut site, OTHER, 1000) && hears_at(&mut site, WHOLE, 2000);
    let reset = hears_at(&mut site, FRONT, 3000) && ends_at(&mut site, Err(Failed), 3000);
    let ended = hears_at(&mut site, b"", 4000) && ends_at(&mut site, Ok(0), 4000);
    let waits = hears_at(&mut site, ASKED, 5500);
    let stopped = hears_at(&mut site, FRONT, 10_000) && ends_at(&mut site, Err(Failed), 10_000);
    let none = site.take().is_err();
    drop(site);
    let over = system.world().is_over();
    Ok(attached && whole && reset && ended && waits && stopped && none && over)
}

#[test]
fn nobody_is_waited_for(rt: HostRuntime) -> Result<(), Fail> {
    let right = turns(rt.alloc())?;
    assert!(rt; right, "turns");
    Ok(())
}

/// The interim line (RFC 9110, section 15.2.1).
const INTERIM: &[u8] = b"HTTP/1.1 100 Continue\r\n\r\n";

/// A client sends its head, and its body half a second later; another comes between, and is served first. Whether each was
/// served in its time, and the first had the line and then its answer.
fn goes_on(alloc: Global, rules: &[Rule]) -> Result<bool, AllocError> {
    let mut world = world(alloc);
    let mut waits = sender(alloc, 0, 0, HEAD)?;
    waits.sends(alloc, at(500), b"ok")?;
    world.peer(waits)?;
    world.peer(sender(alloc, 100, 100, OTHER)?)?;
    for rule in rules.iter() {
        world.rule(*rule)?;
    }
    let mut system = MemorySystem::new(world);
    let mut site = NodeSite::new(alloc, &mut system);
    let attached = site.attach("d/j", "127.0.0.1:9").is_ok();
    let other = hears_at(&mut site, OTHER, 100);
    let waits = hears_at(&mut site, ASKED, 500) && site.send(ANSWER).is_ok();
    site.leave();
    drop(site);
    match system.world().peers() {
        [first, second] => Ok(
            attached
                && other
                && waits
                && first.took().strip_prefix(INTERIM) == Some(ANSWER)
                && second.took() == b"".as_slice(),
        ),
        _ => Ok(false),
    }
}

/// What befalls the first writes, and each so many behind them.
const WRITES: &[(usize, Act)] = &[
    (1, Act::AtMost(usize::MAX)),
    (1, Act::AtMost(7)),
    (2, Act::Fail(EINTR)),
    (2, Act::Fail(EAGAIN)),
];

#[test]
fn a_client_that_waits_is_told_to_go_on(rt: HostRuntime) -> Result<(), Fail> {
    for (every, act) in WRITES {
        let right = goes_on(rt.alloc(), &[each(Name::Write, 1, *every, *act)])?;
        assert!(rt; right, "{every} {act:?}");
    }
    Ok(())
}

/// A request whose body is there with its head, one of HTTP/1.0, and one that is refused by its head.
const UNTOLD: &[&[u8]] = &[
    ASKED,
    b"POST /d HTTP/1.0\r\nExpect: 100-continue\r\nContent-Length: 2\r\n\r\nok",
    b"GET /d HTTP/1.1\r\nExpect: 100-continue\r\n\r\n",
];

/// Whether it is served at once, and nothing is said before its answer.
fn is_untold(alloc: Global, request: &[u8]) -> Result<bool, AllocError> {
    let mut world = world(alloc);
    world.peer(sender(alloc, 0, 0, request)?)?;
    let mut system = MemorySystem::new(world);
    let mut site = NodeSite::new(alloc, &mut system);
    let attached = site.attach("d/j", "127.0.0.1:9").is_ok();
    let served = hears_at(&mut site, request, 0) && site.send(ANSWER).is_ok();
    site.leave();
    drop(site);
    match system.world().peers() {
        [peer] => Ok(attached && served && peer.took() == ANSWER),
        _ => Ok(false),
    }
}

#[test]
fn nobody_else_is_told_to_go_on(rt: HostRuntime) -> Result<(), Fail> {
    for request in UNTOLD {
        let right = is_untold(rt.alloc(), request)?;
        assert!(rt; right, "untold");
    }
    Ok(())
}

/// A client that takes so many bytes of the line, and whose body never comes: its turn comes when its time is over, and what
/// is sent on it stands behind the whole line. What it took.
fn waits_on(alloc: Global, room: usize) -> Result<Option<usize>, AllocError> {
    let mut world = world(alloc);
    let mut waits = sender(alloc, 0, 0, HEAD)?;
    waits.takes(room);
    world.peer(waits)?;
    let mut system = MemorySystem::new(world);
    let mut site = NodeSite::new(alloc, &mut system);
    let attached = site.attach("d/j", "127.0.0.1:9").is_ok();
    let served = hears_at(&mut site, HEAD, 10_000) && ends_at(&mut site, Err(Failed), 10_000);
    let sent = site.send(ANSWER).is_ok();
    site.leave();
    drop(site);
    match system.world().peers() {
        [peer] if attached && served && sent => Ok(if INTERIM.starts_with(peer.took())
            || peer.took().starts_with(INTERIM)
        {
            Some(peer.took().len())
        } else {
            None
        }),
        _ => Ok(None),
    }
}

#[test]
fn a_line_that_was_begun_is_ended(rt: HostRuntime) -> Result<(), Fail> {
    let some = waits_on(rt.alloc(), 9)?;
    let all = waits_on(rt.alloc(), 1000)?;
    assert!(rt;
        some == Some(9) && all == Some(INTERIM.len() + ANSWER.len()),
        "{some:?} {all:?}"
    );
    Ok(())
}

/// An answer of which a write failed is cut there, and nothing more is sent on its connection.
fn cut(alloc: Global) -> Result<bool, AllocError> {
    let mut world = world(alloc);
    world.peer(sender(alloc, 0, 0, OTHER)?)?;
    world.rule(each(Name::Write, 5, 0, Act::Fail(ENOBUFS)))?;
    world.rule(each(Name::Write, 1, 1, Act::AtMost(1)))?;
    let mut system = MemorySystem::new(world);
    let mut site = NodeSite::new(alloc, &mut system);
    let attached = site.attach("d/j", "127.0.0.1:9").is_ok();
    let failed = hears(&mut site, OTHER) && site.send(ANSWER).is_err();
    let again = site.send(ANSWER).is_err();
    site.close();
    site.leave();
    drop(site);
    match system.world().peers() {
        [peer] => Ok(attached && failed && again && peer.took() == b"HTTP".as_slice()),
        _ => Ok(false),
    }
}

#[test]
fn a_cut_answer_stays_cut(rt: HostRuntime) -> Result<(), Fail> {
    let right = cut(rt.alloc())?;
    assert!(rt; right, "cut");
    Ok(())
}

/// What a listener's first call that fails so makes of the first turn: when it comes, in milliseconds, or that none does.
const ACCEPTS: &[(i32, Option<u64>)] = &[
    // the process or the system lacks something, or the network does
    (24, Some(100)),
    (23, Some(100)),
    (105, Some(100)),
    (12, Some(100)),
    (1, Some(100)),
    (71, Some(100)),
    (112, Some(100)),
    (64, Some(100)),
    (95, Some(100)),
    // one connection failed
    (103, Some(0)),
    (EINTR, Some(0)),
    // it is no listener
    (EBADF, None),
];

/// When the first turn comes, and how often was accepted till then.
fn first_turn(alloc: Global, code: i32) -> Result<(Option<u64>, usize), AllocError> {
    let mut world = world(alloc);
    world.peer(sender(alloc, 0, 0, OTHER)?)?;
    world.rule(each(Name::Accept, 1, 0, Act::Fail(code)))?;
    let mut system = MemorySystem::new(world);
    let mut site = NodeSite::new(alloc, &mut system);
    let attached = site.attach("d/j", "127.0.0.1:9").is_ok();
    let time = if attached && hears(&mut site, OTHER) {
        Some(site.now().saturating_sub(1_000_000))
    } else {
        None
    };
    drop(site);
    Ok((time, system.world().count(Name::Accept)))
}

#[test]
fn what_accept_lacks_is_waited_out(rt: HostRuntime) -> Result<(), Fail> {
    for (code, turn) in ACCEPTS {
        let (time, accepts) = first_turn(rt.alloc(), *code)?;
        assert!(rt; time == *turn && accepts <= 3, "error {code}");
    }
    Ok(())
}

/// When the first turn comes, in milliseconds, where the first polls fail.
fn polled(alloc: Global, fails: usize) -> Result<Option<u64>, AllocError> {
    let mut world = world(alloc);
    world.peer(sender(alloc, 0, 0, OTHER)?)?;
    for n in 1..=fails {
        world.rule(each(Name::Poll, n, 0, Act::Fail(EINTR)))?;
    }
    let mut system = MemorySystem::new(world);
    let mut site = NodeSite::new(alloc, &mut system);
    let attached = site.attach("d/j", "127.0.0.1:9").is_ok();
    Ok(if attached && hears(&mut site, OTHER) {
        Some(site.now().saturating_sub(1_000_000))
    } else {
        None
    })
}

#[test]
fn polls_that_fail_are_waited_out(rt: HostRuntime) -> Result<(), Fail> {
    for (fails, millis) in [(0, 0), (1, 0), (2, 100), (5, 100)] {
        let time = polled(rt.alloc(), fails)?;
        assert!(rt; time == Some(millis), "{fails} polls: {time:?}");
    }
    Ok(())
}

/// Peers whose requests come in time, while a turn takes long: the disk is slow.
fn busy(alloc: Global) -> Result<bool, AllocError> {
    let mut world = world(alloc);
    world.peer(sender(alloc, 0, 0, OTHER)?)?;
    world.peer(sender(alloc, 0, 0, OTHER)?)?;
    let mut first = sender(alloc, 0, 1000, FRONT)?;
    first.sends(alloc, at(1500), BACK)?;
    world.peer(first)?;
    world.rule(each(Name::Sync, 4, 1, Act::Lasts(6000)))?;
    let mut system = MemorySystem::new(world);
    let mut site = NodeSite::new(alloc, &mut system);
    let attached = site.attach("d/j", "127.0.0.1:9").is_ok();
    let one = hears(&mut site, OTHER) && site.sync(0).is_ok();
    let other = hears(&mut site, OTHER) && site.sync(0).is_ok();
    let late = hears(&mut site, WHOLE);
    Ok(attached && one && other && late)
}

#[test]
fn a_request_that_came_in_time_has_its_turn(rt: HostRuntime) -> Result<(), Fail> {
    let served = busy(rt.alloc())?;
    assert!(rt; served, "served");
    Ok(())
}

/// The most connections that are read aside.
const MOST: usize = 1024;

/// One connection more than are read aside: the oldest is closed, and those behind it are served.
fn crowded(alloc: Global) -> Result<bool, AllocError> {
    let mut world = world(alloc);
    world.peer(sender(alloc, 0, 1000, FRONT)?)?;
    world.peer(sender(alloc, 0, 2000, OTHER)?)?;
    for place in 1..MOST {
        world.peer(Peer::coming(alloc, one_of_eight(place), at(0)))?;
    }
    let mut system = MemorySystem::new(world);
    let mut site = NodeSite::new(alloc, &mut system);
    let attached = site.attach("d/j", "127.0.0.1:9").is_ok();
    let second = hears_at(&mut site, OTHER, 2000);
    let none = site.take().is_err();
    Ok(attached && second && none)
}

#[test]
fn the_oldest_makes_room(rt: HostRuntime) -> Result<(), Fail> {
    let right = crowded(rt.alloc())?;
    assert!(rt; right, "crowded");
    Ok(())
}

/// The most bytes that are read aside of all connections.
const MOST_BYTES: usize = 67_108_864;

/// The bytes that come of a request whose second chunk isn't whole.
const PART_BYTES: usize = 131_000;

/// The beginning of a request in chunks of 65,520 bytes.
fn part(alloc: Global) -> Result<Vec<u8>, AllocError> {
    let mut bytes = Vec::new(alloc);
    bytes.extend_from_slice(b"POST /a HTTP/1.1\r\nTransfer-Encoding: chunked\r\n\r\nfff0\r\n")?;
    let end = bytes.len().saturating_add(65_520);
    bytes.resize(end, b'a')?;
    bytes.extend_from_slice(b"\r\nfff0\r\n")?;
    bytes.resize(PART_BYTES, b'b')?;
    Ok(bytes)
}

/// One request more than there is room for the bytes of, none of them whole, and then a whole one.
fn heavy(alloc: Global) -> Result<World, AllocError> {
    let part = part(alloc)?;
    let mut world = world(alloc);
    for place in 0..=MOST_BYTES / PART_BYTES {
        let from = one_of_eight(place);
        world.peer(sender_of(alloc, from, 0, 0, part.as_slice())?)?;
    }
    world.peer(sender(alloc, 10, 10, OTHER)?)?;
    Ok(world)
}

/// How many bytes were read of all before the whole one, which is served at once: the one of which more is to come than there is
/// room for is closed.
fn weighed(alloc: Global) -> Result<Option<usize>, AllocError> {
    let mut system = MemorySystem::new(heavy(alloc)?);
    let mut site = NodeSite::new(alloc, &mut system);
    let attached = site.attach("d/j", "127.0.0.1:9").is_ok();
    let served = hears_at(&mut site, OTHER, 10);
    let late = site.take().is_ok() && site.now() == 1_010_000;
    drop(site);
    let mut bytes: usize = 0;
    for peer in system.world().peers() {
        bytes = bytes.saturating_add(peer.gave());
    }
    let is_right = attached && served && late;
    Ok(if is_right {
        bytes.checked_sub(OTHER.len())
    } else {
        None
    })
}

#[test]
fn what_is_read_aside_has_a_bound(rt: HostRuntime) -> Result<(), Fail> {
    let bytes = weighed(rt.alloc())?;
    assert!(rt; bytes == Some(MOST_BYTES), "{bytes:?}");
    Ok(())
}

/// What a browser sends for a page.
const PAGE: &[u8] =
    b"POST /a HTTP/1.1\r\nHost: 127.0.0.1:9\r\nORIGIN: http://evil.example\r\nContent-Length: 3\r\n\r\nyes";

pub(crate) const FORBIDDEN: &[u8] =
    b"HTTP/1.1 403 Forbidden\r\nContent-Length: 0\r\nConnection: close\r\n\r\n";

/// A page's request comes first; the next is served in its place, and the page is told that it may not.
fn turns_away(alloc: Global) -> Result<bool, AllocError> {
    let mut world = world(alloc);
    world.peer(sender(alloc, 0, 0, PAGE)?)?;
    world.peer(sender(alloc, 10, 10, WHOLE)?)?;
    let mut system = MemorySystem::new(world);
    let mut site = NodeSite::new(alloc, &mut system);
    let attached = site.attach("d/j", "127.0.0.1:9").is_ok();
    let served = hears(&mut site, WHOLE) && site.send(ANSWER).is_ok();
    site.close();
    site.leave();
    let lost = site.lost();
    drop(site);
    match system.world().peers() {
        [page, other] => Ok(
            attached && served && lost == 0 && page.took() == FORBIDDEN && other.took() == ANSWER,
        ),
        _ => Ok(false),
    }
}

#[test]
fn a_page_has_no_turn(rt: HostRuntime) -> Result<(), Fail> {
    let right = turns_away(rt.alloc())?;
    assert!(rt; right, "a page");
    Ok(())
}

/// Pages of the same text each.
struct Said;

impl Pages for Said {
    ghost use Rattle.std.specs.Prelude.{codes};

    ghost says = { λ said page counts. codes "up" };

    fn text(&self, alloc: Global, page: Page, counts: &Counts) -> Result<Vec<u8>, AllocError> {
        let _page = page;
        let _taken = counts.taken;
        Vec::from_slice(alloc, b"up")
    }
}

const GET: &[u8] = b"GET /status HTTP/1.1\r\nHost: 127.0.0.1:9\r\n\r\n";

const SHOWN: &[u8] =
    b"HTTP/1.1 200 OK\r\nContent-Type: application/json\r\nContent-Length: 2\r\nCache-Control: no-store\r\nConnection: close\r\n\r\nup";

/// One asks for a page before another's request comes, which is served; where no pages are shown, the first has its turn.
fn shows(alloc: Global, pages: bool) -> Result<bool, AllocError> {
    let mut world = world(alloc);
    world.peer(sender(alloc, 0, 0, GET)?)?;
    world.peer(sender(alloc, 10, 10, WHOLE)?)?;
    let mut system = MemorySystem::new(world);
    let mut site = NodeSite::new(alloc, &mut system);
    if pages {
        site.show_pages();
    }
    let attached = site.attach("d/j", "127.0.0.1:9").is_ok();
    site.show(&Said);
    let request = if pages { WHOLE } else { GET };
    let served = hears(&mut site, request) && site.send(ANSWER).is_ok();
    site.close();
    site.leave();
    drop(site);
    let [asks, other] = system.world().peers() else {
        return Ok(false);
    };
    let (first, second) = if pages {
        (SHOWN, ANSWER)
    } else {
        (ANSWER, b"".as_slice())
    };
    Ok(attached && served && asks.took() == first && other.took() == second)
}

#[test]
fn pages_are_shown_beside_the_turns(rt: HostRuntime) -> Result<(), Fail> {
    let with = shows(rt.alloc(), true)?;
    assert!(rt; with, "pages");
    let without = shows(rt.alloc(), false)?;
    assert!(rt; without, "no pages");
    Ok(())
}

/// Whether a machine tells whose connection it serves, and nobody's where it serves none, with its room taken so often beforehand.
fn tells_its_peer(alloc: Global, begins: usize) -> Result<bool, AllocError> {
    let mut world = world(alloc);
    world.peer(sender(alloc, 0, 0, WHOLE)?)?;
    let mut other = Peer::coming(alloc, address(2), at(10));
    other.sends(alloc, at(10), OTHER)?;
    world.peer(other)?;
    let mut system = MemorySystem::new(world);
    let mut site = NodeSite::new(alloc, &mut system);
    for _ in 0..begins {
        site.begin()?;
    }
    let nobody = site.peer().is_none();
    let attached = site.attach("d/j", "127.0.0.1:9").is_ok();
    let first = hears(&mut site, WHOLE) && site.peer() == Some(address(1));
    let second = hears(&mut site, OTHER) && site.peer() == Some(address(2));
    site.close();
    Ok(nobody && attached && first && second && site.peer().is_none())
}

#[test]
fn room_comes_first_and_peers_are_told(rt: HostRuntime) -> Result<(), Fail> {
    for begins in [0, 1, 2] {
        let told = tells_its_peer(rt.alloc(), begins)?;
        assert!(rt; told, "{begins}");
    }
    Ok(())
}
