//! What a crash leaves of two files, for a stop or a failure at each of a row of calls.

use site_memory::arm::Choice;
use site_memory::machine::MemSite;
use site_model::site::Site;
use std::alloc::Global;
use std::test::Fail;

/// The call that is armed, whether the machine stops there, what the crash leaves, and both files behind it. No call is 0.
const ROWS: &[(u32, bool, Choice, &[u8], &[u8])] = &[
    (0, false, Choice::Keep, b"\x01\x07\x07", b"\x09"),
    (0, false, Choice::Drop, b"\x01\x07\x07", b""),
    (0, false, Choice::Fill(5), b"\x01\x07\x07", b"\x05"),
    // each call stops the machine
    (1, true, Choice::Keep, b"\x00", b""),
    (1, true, Choice::Drop, b"", b""),
    (1, true, Choice::Fill(5), b"\x05", b""),
    (2, true, Choice::Keep, b"\x00", b""),
    (2, true, Choice::Drop, b"", b""),
    (2, true, Choice::Fill(5), b"\x05", b""),
    (3, true, Choice::Keep, b"\x00\x07\x07", b""),
    (3, true, Choice::Drop, b"\x00", b""),
    (3, true, Choice::Fill(5), b"\x00\x05\x05", b""),
    (4, true, Choice::Keep, b"\x00\x07\x07", b""),
    (4, true, Choice::Drop, b"\x00", b""),
    (4, true, Choice::Fill(5), b"\x00\x05\x05", b""),
    (5, true, Choice::Keep, b"\x01\x07\x07", b""),
    (5, true, Choice::Drop, b"\x00\x07\x07", b""),
    (5, true, Choice::Fill(5), b"\x05\x07\x07", b""),
    (6, true, Choice::Keep, b"\x01\x07\x07", b""),
    (6, true, Choice::Drop, b"\x00\x07\x07", b""),
    (6, true, Choice::Fill(5), b"\x05\x07\x07", b""),
    (7, true, Choice::Keep, b"\x01\x07\x07", b"\x09"),
    (7, true, Choice::Drop, b"\x01\x07\x07", b""),
    (7, true, Choice::Fill(5), b"\x01\x07\x07", b"\x05"),
    // one call fails, and those behind it are done
    (1, false, Choice::Keep, b"\x01\x07\x07", b"\x09"),
    (3, false, Choice::Keep, b"\x01", b"\x09"),
    (3, false, Choice::Drop, b"\x01", b""),
    (4, false, Choice::Drop, b"\x01\x07\x07", b""),
    (5, false, Choice::Keep, b"\x00\x07\x07", b"\x09"),
    (5, false, Choice::Fill(5), b"\x05\x07\x07", b"\x05"),
    (6, false, Choice::Keep, b"\x01\x07\x07", b"\x09"),
    (6, false, Choice::Drop, b"\x00\x07\x07", b""),
    (7, false, Choice::Keep, b"\x01\x07\x07", b""),
    (7, false, Choice::Fill(5), b"\x01\x07\x07", b"\x05"),
];

/// A gate, what stands behind it, the gate raised, and a byte of the other file: seven calls. How many failed.
fn calls(site: &mut MemSite) -> u32 {
    let answers = [
        site.write_at(0, 0, b"\x00"),
        site.sync(0),
        site.write_at(0, 1, b"\x07\x07"),
        site.sync(0),
        site.raise_gate(0, 0),
        site.write_at(1, 0, b"\x09"),
    ];
    let mut failed = 0;
    for answer in answers.as_slice() {
        if answer.is_err() && failed < 6 {
            failed += 1;
        }
    }
    failed
}

/// Whether these files are left.
fn leaves(alloc: Global, k: u32, stops: bool, choice: Choice, first: &[u8], second: &[u8]) -> bool {
    let mut site = MemSite::new(alloc);
    if stops {
        site.stop(k, choice);
    } else {
        site.fail(k);
    }
    let _failed = calls(&mut site);
    let stopped = site.stopped();
    site.crash(choice);
    stopped == stops
        && !site.stopped()
        && !site.wanted()
        && site.file(0) == first
        && site.file(1) == second
}

#[test]
fn a_crash_leaves_what_was_chosen(rt: HostRuntime) -> Result<(), Fail> {
    for (k, stops, choice, first, second) in ROWS {
        let left = leaves(rt.alloc(), *k, *stops, *choice, first, second);
        assert!(rt; left, "call {k}");
    }
    Ok(())
}
