//! `tick` over a machine in memory.

use command_line::run::run;
use journal_cmd::memory_files::MemoryFiles;
use site_memory::machine::MemSite;
use site_model::memory::{MemSink, MemSource};
use std::alloc::{AllocError, Global};
use std::test::Fail;

const TICK: &[u8] =
    b"POST /tick HTTP/1.1\r\nHost: n2.example:9001\r\nContent-Length: 0\r\nConnection: close\r\n\r\n";

const NO_DESTINATION: &[u8] = b"error: invalid value for '--to <URL>'\n  \
[an http URL, with '/tick' behind it of at most 2048 bytes]\n\nFor more information, try '--help'.\n";

/// The status of a tick to a node at this URL, and what is said.
fn ticks(alloc: Global, site: &mut MemSite, url: &str) -> Result<(u8, Vec<u8>), AllocError> {
    let mut words = Vec::new(alloc);
    words.push(String::from_str(alloc, "tick")?)?;
    words.push(String::from_str(alloc, "--to")?)?;
    words.push(String::from_str(alloc, url)?)?;
    let mut source = MemSource::new(alloc, b"unread")?;
    let mut sink = MemSink::new(alloc);
    let mut errors = MemSink::new(alloc);
    let status = run(
        alloc,
        words.as_slice(),
        &mut source,
        &mut sink,
        &mut errors,
        &mut MemoryFiles::new(alloc),
        site,
    );
    let said = if status == 2 { errors } else { sink };
    Ok((status, Vec::from_slice(alloc, said.as_slice())?))
}

/// One post is sent, to the host and port of the URL; where that fails, none is, and the status says so.
fn posts(alloc: Global) -> Result<bool, AllocError> {
    let mut site = MemSite::new(alloc);
    let (done, nothing) = ticks(alloc, &mut site, "http://n2.example:9001")?;
    site.fail(1);
    let (failed, still_nothing) = ticks(alloc, &mut site, "http://n2.example:9001")?;
    let [posted] = site.posts() else {
        return Ok(false);
    };
    let is_right = posted.host.as_slice() == b"n2.example".as_slice()
        && posted.port == 9001
        && posted.bytes.as_slice() == TICK;
    Ok(done == 0 && failed == 8 && nothing.is_empty() && still_nothing.is_empty() && is_right)
}

#[test]
fn a_tick_is_posted(rt: HostRuntime) -> Result<(), Fail> {
    let posted = posts(rt.alloc())?;
    assert!(rt; posted);
    Ok(())
}

/// Bases at which nothing can be posted: another scheme, no URL, and one byte too much.
fn refuses(alloc: Global, url: &str) -> Result<bool, AllocError> {
    let mut site = MemSite::new(alloc);
    let (status, said) = ticks(alloc, &mut site, url)?;
    Ok(status == 2 && said.as_slice() == NO_DESTINATION && site.posts().is_empty())
}

fn refuses_all(alloc: Global) -> Result<bool, AllocError> {
    let mut long = String::from_str(alloc, "http://n2.example/")?;
    for _ in 0..2025 {
        long.push('a')?;
    }
    let mut site = MemSite::new(alloc);
    let (longest, _) = ticks(alloc, &mut site, long.as_str())?;
    long.push('a')?;
    Ok(
        longest == 0
            && refuses(alloc, long.as_str())?
            && refuses(alloc, "https://n2.example")?
            && refuses(alloc, "n2.example")?
            && refuses(alloc, "")?,
    )
}

#[test]
fn a_base_without_a_destination(rt: HostRuntime) -> Result<(), Fail> {
    let refused = refuses_all(rt.alloc())?;
    assert!(rt; refused);
    Ok(())
}
