//! What becomes of a body, for a failure at each call, at a limit, and behind a crash.

use crate::letter_journals::{letters, opened};
use journal_at::journal::Append;
use site_memory::arm::Choice;
use site_memory::machine::MemSite;
use std::alloc::Global;
use std::test::Fail;

/// The call that fails, and what an append answers.
const FAILURES: &[(u32, Append)] = &[
    (0, Append::Done),
    (1, Append::Refused),
    (2, Append::Refused),
    (3, Append::Unsure),
    (4, Append::Unsure),
    (5, Append::Done),
];

/// Whether an append answers that where that call fails, and whatever was unsure does nothing more.
fn answers(alloc: Global, k: u32, answer: Append) -> bool {
    let mut site = MemSite::new(alloc);
    let Some(mut journal) = opened(alloc, &mut site, 1000) else {
        return false;
    };
    site.fail(k);
    let first = journal.append(&mut site, b"a");
    let second = journal.append(&mut site, b"b");
    first == answer && (second == Append::Unsure) == (answer == Append::Unsure)
}

#[test]
fn each_failure_has_its_answer(rt: HostRuntime) -> Result<(), Fail> {
    for (k, answer) in FAILURES {
        let right = answers(rt.alloc(), *k, *answer);
        assert!(rt; right, "call {k}");
    }
    Ok(())
}

/// Whether a body of five bytes is taken at that limit, in a fresh file, or behind a mark of version 2.
fn takes(alloc: Global, limit: u32, marked: bool) -> bool {
    let mut site = MemSite::new(alloc);
    let Some(mut journal) = opened(alloc, &mut site, limit) else {
        return false;
    };
    if marked && journal.append(&mut site, b"\x0b\x00\x00\x00\x00") != Append::Done {
        return false;
    }
    journal.append(&mut site, b"\x01\x00\x00\x00\x01") == Append::Done
}

#[test]
fn a_limit_is_kept(rt: HostRuntime) -> Result<(), Fail> {
    let bare = !takes(rt.alloc(), 10, false) && takes(rt.alloc(), 11, false);
    let marked = !takes(rt.alloc(), 20, true) && takes(rt.alloc(), 21, true);
    assert!(rt; bare && marked, "limit");
    Ok(())
}

/// The call at which the machine stops while b is appended behind a, what the crash leaves, and the letters that are read.
const STOPS: &[(u32, Choice, u32)] = &[
    (0, Choice::Keep, 0x6162),
    (0, Choice::Drop, 0x6162),
    (0, Choice::Fill(0), 0x6162),
    (0, Choice::Fill(1), 0x6162),
    (1, Choice::Keep, 0x61),
    (1, Choice::Drop, 0x61),
    (1, Choice::Fill(0), 0x61),
    (1, Choice::Fill(1), 0x61),
    (2, Choice::Keep, 0x61),
    (2, Choice::Drop, 0x61),
    (2, Choice::Fill(0), 0x61),
    (2, Choice::Fill(1), 0x61),
    (3, Choice::Keep, 0x6162),
    (3, Choice::Drop, 0x61),
    (3, Choice::Fill(0), 0x61),
    (3, Choice::Fill(1), 0x6162),
    (4, Choice::Keep, 0x6162),
    (4, Choice::Drop, 0x61),
    (4, Choice::Fill(0), 0x61),
    (4, Choice::Fill(1), 0x6162),
];

/// What is read behind such a crash.
fn read_back(alloc: Global, k: u32, choice: Choice) -> u32 {
    let mut site = MemSite::new(alloc);
    let Some(mut journal) = opened(alloc, &mut site, 1000) else {
        return 2;
    };
    let _first = journal.append(&mut site, b"a");
    site.stop(k, choice);
    let _second = journal.append(&mut site, b"b");
    site.crash(choice);
    letters(alloc, &mut site)
}

#[test]
fn what_was_appended_is_read_back(rt: HostRuntime) -> Result<(), Fail> {
    for (k, choice, wanted) in STOPS {
        let read = read_back(rt.alloc(), *k, *choice);
        assert!(rt; read == *wanted, "call {k}");
    }
    Ok(())
}
