//! The files of a node, byte by byte: begun, read, compacted, and moved from version 1 to version 2.

ghost use Rattle.std.specs.Prelude.{◌≡◌, IfOk};

use journal_at::body::Body;
use journal_at::journal::{Append, Compact, Journal};
use journal_at::load::{LoadFault, load};
use journal_at::version::Version;
use site_memory::machine::MemSite;
use site_model::site::Site;
use std::alloc::{AllocError, Global};
use std::test::Fail;

/// A coordinator's file of version 1, 72 bytes: Start 1, Decided 1-1 with one seat, Ended 1-1.
const DECIDED: &[u8] =
    b"\x01\x00\x00\x00\x05\x01\x00\x00\x00\x01\x01\x00\x00\x00\x2a\x06\x00\x00\x00\x01\x00\x00\x00\x01\x00\x01\x00\x01\x00\x19http://n3.example/p/d/1-1\x00\x00\x01\x00\x00\x00\x09\x08\x00\x00\x00\x01\x00\x00\x00\x01\x00";

const START_1: &[u8] = b"\x01\x00\x00\x00\x01";

const START_2: &[u8] = b"\x01\x00\x00\x00\x02";

const DONE: &[u8] = b"\x0a\x00\x00\x00\x01\x00\x00\x00\x01";

/// A body of these bytes.
fn body_of(alloc: Global, bytes: &[u8]) -> Result<Body, AllocError>
    ensures { IfOk result (λ b. b.bytes.items ≡ bytes.now) }
{
    let mut copy = Vec::new(alloc);
    copy.extend_from_slice(bytes)?;
    Ok(Body::from_vec(copy))
}

/// Whether a file of these bytes stands for that many records of version 1 which end there.
fn holds(alloc: Global, file: &[u8], count: usize, end: u64) -> bool {
    let mut site = MemSite::new(alloc);
    if site.write_at(0, 0, file).is_err() {
        return false;
    }
    match load(alloc, &mut site, 1000) {
        Ok((journal, records)) => {
            records.items().len() == count
                && records.version() == Version::One
                && journal.end() == end
        }
        Err(_) => false,
    }
}

/// Whether the file is refused at its first byte.
fn is_bad(alloc: Global, file: &[u8]) -> bool {
    let mut site = MemSite::new(alloc);
    if site.write_at(0, 0, file).is_err() {
        return false;
    }
    match load(alloc, &mut site, 1000) {
        Err(LoadFault::Bad { file, place }) => file == 0 && place == 0,
        _ => false,
    }
}

/// Whether Start 1 behind a file of one byte at most makes a file of version 1.
fn starts(alloc: Global, file: &[u8]) -> bool {
    let mut site = MemSite::new(alloc);
    if site.write_at(0, 0, file).is_err() {
        return false;
    }
    match load(alloc, &mut site, 11) {
        Ok((mut journal, _)) => {
            let start = journal.append(&mut site, START_1);
            start == Append::Done
                && site.file(0) == b"\x01\x00\x00\x00\x05\x01\x00\x00\x00\x01\x00".as_slice()
        }
        Err(_) => false,
    }
}

#[test]
fn a_file_of_version_1_is_read(rt: HostRuntime) -> Result<(), Fail> {
    let read = holds(rt.alloc(), DECIDED, 3, 71);
    let begun = starts(rt.alloc(), b"") && starts(rt.alloc(), b"\x01");
    let cut = is_bad(rt.alloc(), b"\x01\x00\x00\x00\x05\x01\x00");
    assert!(rt; read && begun && cut, "version 1");
    Ok(())
}

/// The journal of a machine whose file 0 is the coordinator's.
fn decided(alloc: Global, site: &mut MemSite) -> Option<Journal> {
    if site.write_at(0, 0, DECIDED).is_err() {
        return None;
    }
    match load(alloc, site, 1000) {
        Ok((journal, _)) => Some(journal),
        Err(_) => None,
    }
}

/// Compacts to Start 1 and the kept outcome 1-1.
fn kept(alloc: Global) -> bool {
    let mut site = MemSite::new(alloc);
    let Some(mut journal) = decided(alloc, &mut site) else {
        return false;
    };
    if journal.generation() > 1000 {
        return false;
    }
    let (Ok(start), Ok(done)) = (body_of(alloc, START_1), body_of(alloc, DONE)) else {
        return false;
    };
    let bodies = [start, done];
    let answer = journal.compact(alloc, &mut site, bodies.as_slice());
    answer == Ok(Compact::Done)
        && site.file(0) == DECIDED
        && site.file(1)
            == b"\x01\x00\x00\x00\x05\x0b\x00\x00\x00\x01\x01\x00\x00\x00\x05\x01\x00\x00\x00\x01\x01\x00\x00\x00\x09\x0a\x00\x00\x00\x01\x00\x00\x00\x01\x00".as_slice()
}

/// Compacts to Start 1 and appends Start 2.
fn moved(alloc: Global) -> bool {
    let mut site = MemSite::new(alloc);
    let Some(mut journal) = decided(alloc, &mut site) else {
        return false;
    };
    if journal.generation() > 1000 {
        return false;
    }
    let Ok(start) = body_of(alloc, START_1) else {
        return false;
    };
    let bodies = [start];
    let answer = journal.compact(alloc, &mut site, bodies.as_slice());
    let again = journal.append(&mut site, START_2);
    answer == Ok(Compact::Done)
        && again == Append::Done
        && site.file(0) == DECIDED
        && site.file(1)
            == b"\x01\x00\x00\x00\x05\x0b\x00\x00\x00\x01\x01\x00\x00\x00\x05\x01\x00\x00\x00\x01\x01\x00\x00\x00\x05\x01\x00\x00\x00\x02\x00".as_slice()
}

#[test]
fn a_file_of_version_1_becomes_one_of_version_2(rt: HostRuntime) -> Result<(), Fail> {
    let compacted = kept(rt.alloc());
    let started = moved(rt.alloc());
    assert!(rt; compacted && started, "version 2");
    Ok(())
}
