//! What a machine tells of the last call that failed.

use crate::files::{behind, each, failing, ruled};
use crate::posts::{address, start};
use atx_sites::node_site::NodeSite;
use site_model::site::Site;
use std::alloc::{AllocError, Global};
use std::test::Fail;
use system_memory::memory::MemorySystem;
use system_memory::peer::Peer;
use system_memory::script::{Act, Name};

/// A fault of the disk, and of the process.
const EIO: i32 = 5;

const EBADF: i32 = 9;

/// What is told behind all steps where the n-th call of the system fails.
const LINES: &[(usize, &str)] = &[
    (0, ""),
    (1, "d/j: can't be opened: Input/output error (os error 5)"),
    (
        2,
        "d/j: can't be a journal: Input/output error (os error 5)",
    ),
    (
        3,
        "d/j: can't be locked, another process may have it: Input/output error (os error 5)",
    ),
    (
        4,
        "d/j: can't be read anew from the disk: Input/output error (os error 5)",
    ),
    (
        5,
        "d/j: can't be read anew from the disk: Input/output error (os error 5)",
    ),
    (6, "d/j.1: can't be opened: Input/output error (os error 5)"),
    (
        8,
        "d/j.1: can't be locked, another process may have it: Input/output error (os error 5)",
    ),
    (
        11,
        "d/j: its folder can't be synced: Input/output error (os error 5)",
    ),
    (
        12,
        "d/j: its folder can't be synced: Input/output error (os error 5)",
    ),
    (
        13,
        "127.0.0.1:9: can't be listened at: Input/output error (os error 5)",
    ),
    (14, "d/j: can't be written: Input/output error (os error 5)"),
    (
        15,
        "d/j: a record of it can't be ended: a sync of it failed before",
    ),
    (
        16,
        "d/j: its bytes can't be counted: Input/output error (os error 5)",
    ),
    (17, "d/j: can't be read: Input/output error (os error 5)"),
    (
        18,
        "d/j: a record of it can't be ended: Input/output error (os error 5)",
    ),
    (
        20,
        "d/j.1: can't be written: Input/output error (os error 5)",
    ),
    (
        21,
        "d/j.1: can't be synced: Input/output error (os error 5)",
    ),
];

/// The line that a machine tells; none where nothing failed.
fn told(alloc: Global, site: &NodeSite<&mut MemorySystem>) -> Result<String, AllocError> {
    match site.trouble() {
        Some(trouble) => format!(in alloc; "{}", site.line(trouble)),
        None => Ok(String::new(alloc)),
    }
}

/// What is told where the n-th call fails.
fn line(alloc: Global, n: usize) -> Result<String, AllocError> {
    let mut system = MemorySystem::new(ruled(alloc, &[failing(n, EIO)])?);
    let mut site = NodeSite::new(alloc, &mut system);
    if site.attach("d/j", "127.0.0.1:9").is_ok() {
        behind(&mut site);
    }
    told(alloc, &site)
}

#[test]
fn the_last_failure_is_told(rt: HostRuntime) -> Result<(), Fail> {
    for (n, wanted) in LINES {
        let line = line(rt.alloc(), *n)?;
        assert!(rt; line.as_str() == *wanted, "call {n}: {line}");
    }
    Ok(())
}

/// What is told where nobody can be accepted.
fn unaccepted(alloc: Global) -> Result<String, AllocError> {
    let mut world = ruled(alloc, &[each(Name::Accept, 1, 0, Act::Fail(EBADF))])?;
    world.peer(Peer::coming(alloc, address(1), start()))?;
    let mut system = MemorySystem::new(world);
    let mut site = NodeSite::new(alloc, &mut system);
    if site.attach("d/j", "127.0.0.1:9").is_ok() {
        let _ = site.take();
    }
    told(alloc, &site)
}

#[test]
fn a_listener_that_failed_is_told(rt: HostRuntime) -> Result<(), Fail> {
    let line = unaccepted(rt.alloc())?;
    let wanted = "127.0.0.1:9: nobody can be accepted there: Bad file descriptor (os error 9)";
    assert!(rt; line.as_str() == wanted, "{line}");
    Ok(())
}
