//! Nodes that serve, over machines in memory.

use node_at::role::Role;
use schedules::initiator_reader::read_initiator_lines;
use serving::serve::serve;
use serving::service::Service;
use serving::service_end::Ended;
use shown_pages::showing::Showing;
use site_memory::machine::MemSite;
use site_model::memory::MemSink;
use site_model::site::Site;
use site_model::sure_site::SureSite;
use std::alloc::Global;
use std::test::Fail;

/// A request of nothing that is due.
const TICK: &[u8] = b"POST /tick HTTP/1.0\r\nContent-Length: 0\r\n\r\n";

/// A context that expires at once.
const CREATE: &[u8] =
    b"POST /activation HTTP/1.0\r\nContent-Length: 584\r\n\r\n<s:Envelope xmlns:s='http://schemas.xmlsoap.org/soap/envelope/' xmlns:a='http://www.w3.org/2005/08/addressing'><s:Header><a:Action>http://docs.oasis-open.org/ws-tx/wscoor/2006/06/CreateCoordinationContext</a:Action><a:MessageID>urn:m</a:MessageID><a:ReplyTo><a:Address>http://n1.example/i/1-1</a:Address></a:ReplyTo></s:Header><s:Body><c:CreateCoordinationContext xmlns:c='http://docs.oasis-open.org/ws-tx/wscoor/2006/06'><c:Expires>0</c:Expires><c:CoordinationType>http://docs.oasis-open.org/ws-tx/wsat/2006/06</c:CoordinationType></c:CreateCoordinationContext></s:Body></s:Envelope>";

/// What a node prints whose journal may have so many bytes, and how it ended.
fn served_within<H: Showing>(
    alloc: Global,
    role: Role,
    limit: u32,
    input: &[u8],
    turns: u64,
    site: &mut H,
) -> Option<(Ended, MemSink)> {
    if input.len() > 1000 {
        return None;
    }
    let lines = read_initiator_lines(alloc, input).ok()?;
    let service = Service {
        role,
        listen: "127.0.0.1:9001",
        base: None,
        journal: "j",
        limit,
        lines: lines.as_slice(),
        turns,
    };
    let mut sink = MemSink::new(alloc);
    let ended = serve(alloc, &service, &mut sink, site);
    Some((ended, sink))
}

/// What a node prints, and how it ended.
fn served<H: Showing>(
    alloc: Global,
    role: Role,
    input: &[u8],
    turns: u64,
    site: &mut H,
) -> Option<(Ended, MemSink)> {
    served_within(alloc, role, u32::MAX, input, turns, site)
}

/// Whether a node over this machine ends so and prints this.
fn serves<H: Showing>(
    alloc: Global,
    role: Role,
    input: &str,
    turns: u64,
    site: &mut H,
    ended: Ended,
    printed: &str,
) -> bool {
    match served(alloc, role, input.as_bytes(), turns, site) {
        Some((end, sink)) => end == ended && sink.as_slice() == printed.as_bytes(),
        None => false,
    }
}

/// A machine to which these connect.
fn visited(alloc: Global, visits: &[&[u8]]) -> Option<MemSite> {
    let mut site = MemSite::new(alloc);
    for bytes in visits {
        site.connect(bytes).ok()?;
    }
    Some(site)
}

/// The lines of an initiator, how many turns follow, how it ends, and what is printed. Nobody connects.
const LINES: &[(&str, u64, Ended, &str)] = &[
    ("", 0, Ended::Done, "up 1\n"),
    ("", 5, Ended::Done, "up 1\n"),
    ("wait\n", 0, Ended::Done, "up 1\n"),
    (
        "begin http://n2.example 0\ncommit 1\nwait\nrollback 1\n",
        0,
        Ended::Unmet,
        "up 1\nrefused state\n",
    ),
    (
        "begin http://n2.example 0\ninterpose 1 http://n2.example\nwork 2 http://n2.example d prepared k v\nrollback 2\n",
        0,
        Ended::Unmet,
        "up 1\nrefused state\nrefused state\nrefused state\n",
    ),
];

#[test]
fn lines_are_done(rt: HostRuntime) -> Result<(), Fail> {
    for (input, turns, ended, printed) in LINES {
        let mut site = MemSite::new(rt.alloc());
        let right = serves(
            rt.alloc(),
            Role::Initiator,
            input,
            *turns,
            &mut site,
            *ended,
            printed,
        );
        assert!(rt; right, "{input}");
    }
    Ok(())
}

/// Whether a coordinator whose context expires at once says so.
fn expires(alloc: Global) -> bool {
    match visited(alloc, &[TICK, CREATE]) {
        Some(mut site) => {
            serves(
                alloc,
                Role::Coordinator,
                "",
                3,
                &mut site,
                Ended::Done,
                "up 1\nroot 1-1 aborted\n",
            ) && site.answers().len() == 2
        }
        None => false,
    }
}

#[test]
fn effects_are_printed(rt: HostRuntime) -> Result<(), Fail> {
    let right = expires(rt.alloc());
    assert!(rt; right, "a root that expires");
    Ok(())
}

/// A file 0, a file 1, how serving ends, and what is printed.
const FILES: &[(&[u8], &[u8], Ended, &str)] = &[
    (
        b"\x01\x00\x00\x00\x05\x01\x00",
        b"",
        Ended::BadJournal,
        "bad journal at 0\n",
    ),
    (
        b"",
        b"\x01\x00\x00\x00\x05\x01\x00",
        Ended::BadJournal,
        "bad journal file 1 at 0\n",
    ),
    (b"notes of a day", b"", Ended::NoJournal, "no journal\n"),
    (b"", b"notes of a day", Ended::NoJournal, "no journal\n"),
    (
        b"\x01\x00\x00\x00\x05\x0b\x00\x00\x00\x00\x01\x00\x00\x00\x05\x01\xff\xff\xff\xff\x00",
        b"",
        Ended::Spent,
        "",
    ),
    (
        b"\x01\x00\x00\x00\x05\x0b\x00\x00\x00\x00\x01\x00\x00\x00\x05\x01\x00\x00\x00\x06\x00",
        b"",
        Ended::Done,
        "up 7\n",
    ),
];

/// How serving ends where a journal may have so many bytes: the mark and the start of a fresh one have ten each.
fn limited(alloc: Global, limit: u32) -> Option<Ended> {
    let mut site = MemSite::new(alloc);
    let (ended, _sink) = served_within(alloc, Role::Coordinator, limit, b"", 0, &mut site)?;
    Some(ended)
}

#[test]
fn a_journal_may_be_full(rt: HostRuntime) -> Result<(), Fail> {
    let within = limited(rt.alloc(), 21);
    let full = limited(rt.alloc(), 20);
    assert!(rt;
        within == Some(Ended::Done) && full == Some(Ended::Full),
        "{within:?} {full:?}"
    );
    Ok(())
}

/// A machine with these files.
fn holding(alloc: Global, first: &[u8], second: &[u8]) -> Option<MemSite> {
    let mut site = MemSite::new(alloc);
    site.write_at(0, 0, first).ok()?;
    site.sync(0).ok()?;
    site.write_at(1, 0, second).ok()?;
    site.sync(1).ok()?;
    Some(site)
}

fn comes_up(alloc: Global, first: &[u8], second: &[u8], ended: Ended, printed: &str) -> bool {
    match holding(alloc, first, second) {
        Some(mut site) => serves(alloc, Role::Participant, "", 0, &mut site, ended, printed),
        None => false,
    }
}

#[test]
fn journals_are_judged(rt: HostRuntime) -> Result<(), Fail> {
    for (first, second, ended, printed) in FILES {
        let right = comes_up(rt.alloc(), first, second, *ended, printed);
        assert!(rt; right, "{printed}");
    }
    Ok(())
}

/// Whether a start leaves a text as it is, and adds nothing to it.
fn leaves(alloc: Global, text: &[u8]) -> bool {
    let Some(mut site) = holding(alloc, text, b"") else {
        return false;
    };
    served(alloc, Role::Participant, b"", 0, &mut site).is_some()
        && site.file(0) == text
        && site.file(1).is_empty()
}

/// Of more than 11 bytes. One of 11 may be a new journal, and is written over.
#[test]
fn a_text_is_not_written_over(rt: HostRuntime) -> Result<(), Fail> {
    let long = leaves(rt.alloc(), b"twelve bytes");
    let short = leaves(rt.alloc(), b"just eleven");
    assert!(rt; long && !short, "{long} {short}");
    Ok(())
}

/// Whether a machine of this name for its journal and its address serves.
fn attaches(alloc: Global, journal: &[u8], listen: &[u8], ended: Ended, printed: &str) -> bool {
    let mut site = MemSite::new(alloc);
    if site.named(journal, listen).is_err() {
        return false;
    }
    serves(alloc, Role::Coordinator, "", 1, &mut site, ended, printed)
}

#[test]
fn files_and_listener_are_opened(rt: HostRuntime) -> Result<(), Fail> {
    let sure = serves(
        rt.alloc(),
        Role::Coordinator,
        "",
        5,
        &mut SureSite::new(),
        Ended::Done,
        "up 1\n",
    );
    let both = attaches(rt.alloc(), b"j", b"127.0.0.1:9001", Ended::Done, "up 1\n");
    let no_files = attaches(rt.alloc(), b"k", b"127.0.0.1:9001", Ended::DiskFailed, "");
    let no_listener = attaches(
        rt.alloc(),
        b"j",
        b"127.0.0.1:9002",
        Ended::ListenerFailed,
        "",
    );
    assert!(rt; sure && both && no_files && no_listener, "attach");
    Ok(())
}

/// How serving ends where the k-th call that writes, syncs, answers or posts fails.
fn failing(alloc: Global, k: u32) -> Option<Ended> {
    let mut site = visited(alloc, &[TICK])?;
    site.fail(k);
    let (ended, _sink) = served(alloc, Role::Coordinator, b"", 1, &mut site)?;
    Some(ended)
}

#[test]
fn failures_are_told_apart(rt: HostRuntime) -> Result<(), Fail> {
    let first = failing(rt.alloc(), 1);
    let last = failing(rt.alloc(), 13);
    let none = failing(rt.alloc(), 14);
    assert!(rt;
        first == Some(Ended::DiskFailed) && last == Some(Ended::Done) && none == Some(Ended::Done),
        "{first:?} {last:?} {none:?}"
    );
    Ok(())
}
