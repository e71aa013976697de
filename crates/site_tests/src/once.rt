//! Each call once, with ample memory.

use site_memory::machine::MemSite;
use site_model::memory::MemSink;
use site_model::sink::Sink;
use site_model::site::{AttachFailed, Site, Taken};
use site_model::source::Failed;
use site_model::sure_site::SureSite;
use std::alloc::{AllocError, Global};
use std::test::Fail;

/// A connection comes, is read, answered and closed, and then none comes.
fn serves(alloc: Global) -> Result<bool, AllocError> {
    let mut site = MemSite::new(alloc);
    site.connect(b"hello")?;
    let mut buf = [0u8; 4];
    let opened = site.take() == Ok(Taken::Opened);
    let first = site.receive(&mut buf) == Ok(4) && buf == *b"hell";
    let second = site.receive(&mut buf) == Ok(1) && buf == *b"oell";
    let end = site.receive(&mut buf) == Ok(0);
    let sent = site.send(b"yes").is_ok() && site.post("n2.example", 80, b"post").is_ok();
    site.close();
    let closed = site.take() == Ok(Taken::Closed);
    let counted = site.calls() == 2 && site.failed_sends() == 0;
    Ok(opened && first && second && end && sent && closed && counted && holds(&site))
}

/// What that sent is kept.
fn holds(site: &MemSite) -> bool {
    match (site.answers(), site.posts()) {
        ([answer], [post]) => answer.as_slice() == b"yes".as_slice()
            && post.host.as_slice() == b"n2.example".as_slice()
            && post.port == 80
            && post.bytes.as_slice() == b"post".as_slice(),
        _ => false,
    }
}

#[test]
fn a_connection_is_served(rt: HostRuntime) -> Result<(), Fail> {
    let served = serves(rt.alloc())?;
    assert!(rt; served, "served");
    Ok(())
}

/// It is attached by its names alone.
fn is_named(alloc: Global) -> Result<bool, AllocError> {
    let mut site = MemSite::new(alloc);
    let before = site.attach("x", "y").is_ok();
    site.named(b"j", b"127.0.0.1:9001")?;
    let right = site.attach("j", "127.0.0.1:9001").is_ok();
    let disk = site.attach("k", "127.0.0.1:9002") == Err(AttachFailed::Disk);
    let link = site.attach("j", "127.0.0.1:9002") == Err(AttachFailed::Link);
    site.fail_link(1);
    let armed = site.attach("j", "127.0.0.1:9001") == Err(AttachFailed::Link)
        && site.attach("j", "127.0.0.1:9001").is_ok();
    Ok(before && right && disk && link && armed)
}

#[test]
fn a_machine_has_its_names(rt: HostRuntime) -> Result<(), Fail> {
    let named = is_named(rt.alloc())?;
    assert!(rt; named, "named");
    Ok(())
}

/// Files are read back, sized, and the armed read fails alone.
fn reads(alloc: Global) -> bool {
    let mut site = MemSite::new(alloc);
    site.set_now(7);
    let clock = site.now() == 7;
    let wrote = site.write_at(1, 2, b"ab").is_ok();
    let size = site.size(1) == Ok(4) && site.size(0) == Ok(0);
    let mut buf = [9u8; 3];
    let read = site.read(1, 1, &mut buf) == Ok(3) && buf == *b"\x00ab";
    let end = site.read(1, 4, &mut buf) == Ok(0);
    site.fail_read(2);
    let armed = site.size(1) == Ok(4)
        && site.read(1, 0, &mut buf) == Err(Failed)
        && site.size(1) == Ok(4);
    clock && wrote && size && read && end && armed
}

#[test]
fn files_are_read_back(rt: HostRuntime) -> Result<(), Fail> {
    let right = reads(rt.alloc());
    assert!(rt; right, "read");
    Ok(())
}

/// A sink that is armed at its second write does as much at its first and third.
fn takes(alloc: Global, idles: bool) -> bool {
    let mut sink = MemSink::new(alloc);
    if idles {
        sink.idle(2);
    } else {
        sink.fail(2);
    }
    let first = sink.write(b"ab") == Ok(2);
    let second = sink.write(b"cd");
    let third = sink.write(b"ef") == Ok(2);
    first
        && third
        && sink.as_slice() == b"abef".as_slice()
        && if idles {
            second == Ok(0)
        } else {
            second == Err(Failed)
        }
}

#[test]
fn a_sink_does_as_it_is_armed(rt: HostRuntime) -> Result<(), Fail> {
    let idle = takes(rt.alloc(), true);
    let failed = takes(rt.alloc(), false);
    assert!(rt; idle && failed, "armed");
    Ok(())
}

/// The machine that never fails has nothing.
fn has_nothing() -> bool {
    let mut site = SureSite::new();
    let mut buf = [3u8; 2];
    let files = site.size(0) == Ok(0)
        && site.read(0, 0, &mut buf) == Ok(0)
        && site.write_at(0, 0, b"x").is_ok()
        && site.size(0) == Ok(0);
    let calls = site.attach("j", "l").is_ok()
        && site.sync(0).is_ok()
        && site.raise_gate(0, 0).is_ok()
        && site.send(b"x").is_ok()
        && site.post("h", 80, b"x").is_ok();
    files
        && calls
        && site.take() == Ok(Taken::Closed)
        && site.receive(&mut buf) == Ok(0)
        && site.now() == 0
}

#[test]
fn the_sure_machine_has_nothing(rt: HostRuntime) -> Result<(), Fail> {
    let nothing = has_nothing();
    assert!(rt; nothing, "nothing");
    Ok(())
}
