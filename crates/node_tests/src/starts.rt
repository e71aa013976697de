//! What a start leaves in the files, or why there is none.

use crate::nodes::{holding, started};
use node_at::fault::StartFault;
use site_memory::arm::Choice;
use site_memory::machine::MemSite;
use std::alloc::Global;
use std::test::Fail;

/// The first Start, behind the mark of version 2.
const FRESH: &[u8] =
    b"\x01\x00\x00\x00\x05\x0b\x00\x00\x00\x00\x01\x00\x00\x00\x05\x01\x00\x00\x00\x01\x00";

/// The second behind it.
const SECOND: &[u8] =
    b"\x01\x00\x00\x00\x05\x0b\x00\x00\x00\x00\x01\x00\x00\x00\x05\x01\x00\x00\x00\x01\x01\x00\x00\x00\x05\x01\x00\x00\x00\x02\x00";

/// A file of version 1, 72 bytes: Start 1, Decided 1-1 with one seat, Ended 1-1.
const OLD: &[u8] =
    b"\x01\x00\x00\x00\x05\x01\x00\x00\x00\x01\x01\x00\x00\x00\x2a\x06\x00\x00\x00\x01\x00\x00\x00\x01\x00\x01\x00\x01\x00\x19http://n3.example/p/d/1-1\x00\x00\x01\x00\x00\x00\x09\x08\x00\x00\x00\x01\x00\x00\x00\x01\x00";

/// What is left of it in version 2, with the next Start, and with one more.
const CARRIED: &[u8] =
    b"\x01\x00\x00\x00\x05\x0b\x00\x00\x00\x01\x01\x00\x00\x00\x05\x01\x00\x00\x00\x01\x01\x00\x00\x00\x05\x01\x00\x00\x00\x02\x00";

const CARRIED_TWICE: &[u8] =
    b"\x01\x00\x00\x00\x05\x0b\x00\x00\x00\x01\x01\x00\x00\x00\x05\x01\x00\x00\x00\x01\x01\x00\x00\x00\x05\x01\x00\x00\x00\x02\x01\x00\x00\x00\x05\x01\x00\x00\x00\x03\x00";

/// File 0 before a start, and file 0 and file 1 behind it.
const ROWS: &[(&[u8], &[u8], &[u8])] = &[
    (b"", FRESH, b""),
    (b"\x01", FRESH, b""),
    (b"\x00", FRESH, b""),
    (FRESH, SECOND, b""),
    // a mark alone
    (b"\x01\x00\x00\x00\x05\x0b\x00\x00\x00\x00\x00", FRESH, b""),
    (OLD, OLD, CARRIED),
];

fn leaves(alloc: Global, file: &[u8], first: &[u8], second: &[u8]) -> bool {
    let Some(mut site) = holding(alloc, file) else {
        return false;
    };
    match started(alloc, &mut site, 1000) {
        Ok(node) => { node.effects().is_empty() && site.file(0) == first && site.file(1) == second }
        Err(_) => false,
    }
}

#[test]
fn a_start_leaves_its_record(rt: HostRuntime) -> Result<(), Fail> {
    for (file, first, second) in ROWS {
        let right = leaves(rt.alloc(), file, first, second);
        assert!(rt; right, "file");
    }
    Ok(())
}

const TEXT: &[u8] = b"Dear diary,\nit rained all day.\n";

/// File 0, the limit, and what a start answers: 0 that it started, or else Disk 1, Bad 2, Spent 3, Full 4, NoJournal 5.
const FAULTS: &[(&[u8], u32, u8)] = &[
    (b"", 20, 4),
    (b"", 21, 0),
    (FRESH, 30, 4),
    (FRESH, 31, 0),
    (OLD, 30, 4),
    (OLD, 31, 0),
    // the last incarnation, in either version
    (
        b"\x01\x00\x00\x00\x05\x0b\x00\x00\x00\x00\x01\x00\x00\x00\x05\x01\xff\xff\xff\xff\x00",
        1000,
        3,
    ),
    (b"\x01\x00\x00\x00\x05\x01\xff\xff\xff\xff\x00", 1000, 3),
    (
        b"\x01\x00\x00\x00\x05\x0b\x00\x00\x00\x00\x01\x00\x00\x00\x05\x01\xff\xff\xff\xfe\x00",
        1000,
        0,
    ),
    // it is spent before it is full
    (b"\x01\x00\x00\x00\x05\x01\xff\xff\xff\xff\x00", 20, 3),
    // no list of bodies, and a body that is no record
    (b"\x01\x00\x00\x00\x05\x01\x00", 1000, 2),
    (b"\x01\x00\x00\x00\x01a\x00", 1000, 2),
    // a text, and files without a body that are as long as a new journal's may be, and longer
    (TEXT, 1000, 5),
    (b"a few words", 1000, 0),
    (b"a few words.", 1000, 5),
    (b"a few words.", 0, 5),
];

fn answers(alloc: Global, file: &[u8], limit: u32) -> u8 {
    let Some(mut site) = holding(alloc, file) else {
        return 9;
    };
    let answer = match started(alloc, &mut site, limit) {
        Ok(_) => 0,
        Err(StartFault::Disk) => 1,
        Err(StartFault::Bad { .. }) => 2,
        Err(StartFault::Spent) => 3,
        Err(StartFault::Full) => 4,
        Err(StartFault::NoJournal) => 5,
        Err(StartFault::NoMemory) => 9,
    };
    // a start that is refused writes nothing, but a shut gate into an empty file
    if answer > 0 && site.file(0) != file && !file.is_empty() {
        return 8;
    }
    if answer > 0 && !site.file(1).is_empty() {
        return 8;
    }
    answer
}

#[test]
fn each_fault_has_its_cause(rt: HostRuntime) -> Result<(), Fail> {
    for (file, limit, wanted) in FAULTS {
        let answer = answers(rt.alloc(), file, *limit);
        assert!(rt; answer == *wanted, "limit {limit}: {answer}");
    }
    Ok(())
}

/// File 0, and the gate of what is no record there.
const BAD: &[(&[u8], u64)] = &[
    (b"\x01\x00\x00\x00\x05\x01\x00", 0),
    (b"\x01\x00\x00\x00\x01a\x00", 0),
    (
        b"\x01\x00\x00\x00\x05\x0b\x00\x00\x00\x00\x01\x00\x00\x00\x05\x01\x00\x00\x00\x01\x01\x00\x00\x00\x01a\x00",
        20,
    ),
];

fn is_bad_at(alloc: Global, file: &[u8], gate: u64) -> bool {
    let Some(mut site) = holding(alloc, file) else {
        return false;
    };
    match started(alloc, &mut site, 1000) {
        Err(StartFault::Bad { file, place }) => file == 0 && place == gate,
        _ => false,
    }
}

#[test]
fn what_is_no_record_is_named_by_its_gate(rt: HostRuntime) -> Result<(), Fail> {
    for (file, gate) in BAD {
        let right = is_bad_at(rt.alloc(), file, *gate);
        assert!(rt; right, "gate {gate}");
    }
    Ok(())
}

const CHOICES: &[Choice] = &[Choice::Keep, Choice::Drop, Choice::Fill(0), Choice::Fill(1)];

/// Whether a start whose call is stopped or fails answers Disk, and one behind a crash leaves its Start alone, or behind that
/// of the other. A stop that keeps the last call stops behind it.
fn comes_up(alloc: Global, old: bool, k: u32, stops: bool, choice: Choice) -> bool {
    let file: &[u8] = if old { OLD } else { b"" };
    let Some(mut site) = holding(alloc, file) else {
        return false;
    };
    if stops {
        site.stop(k, choice);
    } else {
        site.fail(k);
    }
    let failed = matches!(started(alloc, &mut site, 1000), Err(StartFault::Disk));
    let late = stops && k == 12 && choice == Choice::Keep;
    site.crash(choice);
    if failed == late || started(alloc, &mut site, 1000).is_err() {
        return false;
    }
    if old {
        site.file(1).starts_with(CARRIED) || site.file(1).starts_with(CARRIED_TWICE)
    } else {
        site.file(0).starts_with(FRESH) || site.file(0).starts_with(SECOND)
    }
}

#[test]
fn a_node_comes_up_wherever_a_start_ended(rt: HostRuntime) -> Result<(), Fail> {
    for k in 1..13 {
        for choice in CHOICES {
            let stopped = comes_up(rt.alloc(), false, k, true, *choice);
            let failed = comes_up(rt.alloc(), false, k, false, *choice);
            assert!(rt; stopped && failed, "call {k}");
            let old_stopped = comes_up(rt.alloc(), true, k, true, *choice);
            let old_failed = comes_up(rt.alloc(), true, k, false, *choice);
            assert!(rt; old_stopped && old_failed, "call {k} of version 1");
        }
    }
    Ok(())
}
