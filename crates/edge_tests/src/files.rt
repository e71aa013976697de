//! The files of a machine, with a call of the system that fails, that moves little, or that was interrupted.

use atx_sites::file_site::FileSite;
use atx_sites::node_site::NodeSite;
use site_model::site::{AttachFailed, Site};
use std::alloc::{AllocError, Global};
use std::test::Fail;
use system_memory::memory::MemorySystem;
use system_memory::script::{Act, Name, Note, Rule};
use system_memory::world::World;

/// An interrupted call, a fault of the disk, and no room on it.
const EINTR: i32 = 4;

const EIO: i32 = 5;

const ENOSPC: i32 = 28;

/// What a machine is asked: to attach, then of the first file to write, sync, size, read and raise a gate, and of the second to
/// write and sync.
const STEPS: usize = 8;

/// How many calls open the files. A node listens behind them.
const OPENING: usize = 12;

/// Which steps succeed where the n-th call of the system fails, but for that with which a node listens.
const ROWS: &[(usize, &str)] = &[
    (0, "11111111"),
    // both files are opened, each looked at, locked, made last and read from the disk from now on, and their folder is made last
    (1, "00000000"),
    (2, "00000000"),
    (3, "00000000"),
    (4, "00000000"),
    (5, "00000000"),
    (6, "00000000"),
    (7, "00000000"),
    (8, "00000000"),
    (9, "00000000"),
    (10, "00000000"),
    (11, "00000000"),
    (12, "00000000"),
    // the write, the sync, behind which no sync of that file is believed, the size and the read
    (13, "10111111"),
    (14, "11011011"),
    (15, "11101111"),
    (16, "11110111"),
    // the write and the sync of the gate
    (17, "11111011"),
    (18, "11111011"),
    // the other file's
    (19, "11111101"),
    (20, "11111110"),
];

/// The calls where none fails, in order.
const CALLS: &[Name] = &[
    Name::Open,
    Name::Examine,
    Name::Lock,
    Name::Sync,
    Name::Forget,
    Name::Open,
    Name::Examine,
    Name::Lock,
    Name::Sync,
    Name::Forget,
    Name::OpenFolder,
    Name::Sync,
    Name::WriteAt,
    Name::Sync,
    Name::Examine,
    Name::ReadAt,
    Name::WriteAt,
    Name::Sync,
    Name::WriteAt,
    Name::Sync,
];

/// Which steps succeed.
fn steps<S: Site>(site: &mut S) -> [bool; STEPS] {
    let attached = site.attach("d/j", "127.0.0.1:9").is_ok();
    let [a, b, c, d, e, f, g] = behind(site);
    [attached, a, b, c, d, e, f, g]
}

/// Which of those behind attaching succeed.
pub(crate) fn behind<S: Site>(site: &mut S) -> [bool; 7] {
    let mut buf = [0u8; 9];
    [
        site.write_at(0, 0, b"\x00hello").is_ok(),
        site.sync(0).is_ok(),
        site.size(0).is_ok(),
        site.read(0, 0, &mut buf).is_ok(),
        site.raise_gate(0, 0).is_ok(),
        site.write_at(1, 2, b"z").is_ok(),
        site.sync(1).is_ok(),
    ]
}

/// Whether these steps succeeded, as a row says it.
fn is_row(done: &[bool; STEPS], row: &str) -> bool {
    let mut same = row.len() == STEPS;
    for (step, sign) in done.iter().zip(row.as_bytes().iter()) {
        if *step != (*sign == b'1') {
            same = false;
        }
    }
    same
}

/// Whether no file was synced once more behind a sync of it that failed.
fn believes_none(notes: &[Note]) -> bool {
    for (i, note) in notes.iter().enumerate() {
        if note.name != Name::Sync || note.done {
            continue;
        }
        for later in notes.iter().skip(i.saturating_add(1)) {
            if later.name == Name::Sync && later.number == note.number {
                return false;
            }
        }
    }
    true
}

/// The rules under which the n-th call of all fails.
pub(crate) fn failing(n: usize, code: i32) -> Rule {
    Rule {
        name: None,
        n,
        every: 0,
        act: Act::Fail(code),
    }
}

/// Calls of this name, from the n-th on each `every`-th.
pub(crate) fn each(name: Name, n: usize, every: usize, act: Act) -> Rule {
    Rule {
        name: Some(name),
        n,
        every,
        act,
    }
}

/// A world with these rules.
pub(crate) fn ruled(alloc: Global, rules: &[Rule]) -> Result<World, AllocError> {
    let mut world = World::new(alloc);
    for rule in rules.iter() {
        world.rule(*rule)?;
    }
    Ok(world)
}

/// A machine with no network in a world with these rules, driven through the steps.
fn driven(alloc: Global, rules: &[Rule]) -> Result<(MemorySystem, [bool; STEPS]), AllocError> {
    let mut system = MemorySystem::new(ruled(alloc, rules)?);
    let done = steps(&mut FileSite::new(&mut system));
    Ok((system, done))
}

/// A machine with a network.
fn node_driven(alloc: Global, rules: &[Rule]) -> Result<(MemorySystem, [bool; STEPS]), AllocError> {
    let mut system = MemorySystem::new(ruled(alloc, rules)?);
    let done = steps(&mut NodeSite::new(alloc, &mut system));
    Ok((system, done))
}

#[test]
fn a_call_that_fails_fails_alone(rt: HostRuntime) -> Result<(), Fail> {
    for (n, row) in ROWS {
        let (system, done) = driven(rt.alloc(), &[failing(*n, EIO)])?;
        let right = is_row(&done, row) && believes_none(system.world().notes());
        assert!(rt; right, "call {n}");
        let at = if *n > OPENING { n + 1 } else { *n };
        let (node, node_done) = node_driven(rt.alloc(), &[failing(at, EIO)])?;
        let node_right = is_row(&node_done, row) && believes_none(node.world().notes());
        assert!(rt; node_right, "call {at} of a node");
    }
    Ok(())
}

/// Why a node isn't attached where the n-th call fails.
fn attaches(alloc: Global, n: usize) -> Result<Result<(), AttachFailed>, AllocError> {
    let mut system = MemorySystem::new(ruled(alloc, &[failing(n, EIO)])?);
    let mut site = NodeSite::new(alloc, &mut system);
    Ok(site.attach("d/j", "127.0.0.1:9"))
}

#[test]
fn a_node_tells_the_disk_from_the_network(rt: HostRuntime) -> Result<(), Fail> {
    for n in 1..OPENING + 3 {
        let want = if n <= OPENING {
            Err(AttachFailed::Disk)
        } else if n == OPENING + 1 {
            Err(AttachFailed::Link)
        } else {
            Ok(())
        };
        let attached = attaches(rt.alloc(), n)?;
        assert!(rt; attached == want, "call {n}");
    }
    Ok(())
}

/// Whether the calls have these names.
fn are_named(notes: &[Note], names: &[Name]) -> bool {
    let mut same = notes.len() == names.len();
    for (note, name) in notes.iter().zip(names.iter()) {
        if note.name != *name {
            same = false;
        }
    }
    same
}

#[test]
fn files_are_locked_and_made_last_before_they_are_used(rt: HostRuntime) -> Result<(), Fail> {
    let (system, done) = driven(rt.alloc(), &[])?;
    let named = are_named(system.world().notes(), CALLS);
    assert!(rt; named && is_row(&done, "11111111"), "calls");
    Ok(())
}

/// What is left of both files under some rules, and which steps succeed.
#[derive(Clone, Copy)]
struct Left {
    rules: [Rule; 2],
    row: &'static str,
    first: &'static [u8],
    second: &'static [u8],
}

/// Whether that is left.
fn leaves(alloc: Global, left: &Left) -> Result<bool, AllocError> {
    let (system, done) = driven(alloc, &left.rules)?;
    let world = system.world();
    Ok(
        is_row(&done, left.row)
            && world.bytes_of("d/j") == Some(left.first)
            && world.bytes_of("d/j.1") == Some(left.second),
    )
}

#[test]
fn short_and_interrupted_calls_leave_whole_files(rt: HostRuntime) -> Result<(), Fail> {
    let rows = [
        Left {
            rules: [
                each(Name::WriteAt, 1, 1, Act::AtMost(1)),
                each(Name::ReadAt, 1, 2, Act::Fail(EINTR)),
            ],
            row: "11111111",
            first: b"\x01hello",
            second: b"\x00\x00z",
        },
        Left {
            rules: [
                each(Name::WriteAt, 1, 2, Act::Fail(EINTR)),
                each(Name::WriteAt, 1, 1, Act::AtMost(1)),
            ],
            row: "11111111",
            first: b"\x01hello",
            second: b"\x00\x00z",
        },
        // what was taken stays, and no more
        Left {
            rules: [
                each(Name::WriteAt, 4, 0, Act::Fail(ENOSPC)),
                each(Name::WriteAt, 1, 1, Act::AtMost(1)),
            ],
            row: "10111111",
            first: b"\x01he",
            second: b"\x00\x00z",
        },
        Left {
            rules: [
                each(Name::WriteAt, 3, 0, Act::AtMost(0)),
                each(Name::WriteAt, 1, 1, Act::AtMost(1)),
            ],
            row: "10111111",
            first: b"\x01h",
            second: b"\x00\x00z",
        },
    ];
    for left in rows.iter() {
        let holds = leaves(rt.alloc(), left)?;
        assert!(rt; holds, "{}", left.row);
    }
    Ok(())
}

/// A file with the number of a standard stream gets another; one that is no regular file isn't taken.
fn numbers(alloc: Global) -> Result<bool, AllocError> {
    let mut world = World::new(alloc);
    world.lower();
    let mut low = MemorySystem::new(world);
    let taken = is_row(&steps(&mut FileSite::new(&mut low)), "11111111");
    let mut above = true;
    for note in low.world().notes() {
        if note.name == Name::WriteAt && note.number <= Some(2) {
            above = false;
        }
    }
    let mut other = World::new(alloc);
    other.file("d/j.1", b"", false)?;
    let mut pipe = MemorySystem::new(other);
    let refused = is_row(&steps(&mut FileSite::new(&mut pipe)), "00000000");
    Ok(taken && above && low.world().count(Name::Duplicate) == 1 && refused)
}

#[test]
fn standard_streams_and_pipes_are_no_journal(rt: HostRuntime) -> Result<(), Fail> {
    let right = numbers(rt.alloc())?;
    assert!(rt; right, "numbers");
    Ok(())
}
