//! What a journal stands for while it is compacted, for a stop and a failure at each call.

ghost use Rattle.std.specs.Prelude.{◌≡◌, ◌∷◌, [], IfOk};

use crate::letter_journals::{letters, opened};
use journal_at::body::Body;
use journal_at::journal::{Append, Compact, Journal};
use site_memory::arm::Choice;
use site_memory::machine::MemSite;
use std::alloc::{AllocError, Global};
use std::test::Fail;

/// A journal of a and b.
fn of_two(alloc: Global, site: &mut MemSite) -> Option<Journal> {
    let Some(mut journal) = opened(alloc, site, 1000) else {
        return None;
    };
    let first = journal.append(site, b"a");
    let second = journal.append(site, b"b");
    if first == Append::Done && second == Append::Done {
        Some(journal)
    } else {
        None
    }
}

/// A body of one letter.
fn letter(alloc: Global, byte: u8) -> Result<Body, AllocError>
    ensures { IfOk result (λ b. b.bytes.items ≡ byte ∷ []) }
{
    let mut bytes = Vec::new(alloc);
    bytes.push(byte)?;
    Ok(Body::from_vec(bytes))
}

/// Compacts to c.
fn compacted(alloc: Global, site: &mut MemSite, journal: &mut Journal) -> Option<Compact> {
    if journal.generation() > 1000 {
        return None;
    }
    let Ok(body) = letter(alloc, b'c') else {
        return None;
    };
    let bodies = [body];
    match journal.compact(alloc, site, bodies.as_slice()) {
        Ok(answer) => Some(answer),
        Err(_) => None,
    }
}

/// The call, whether the machine stops there, what the crash leaves, and the letters that are read: ab or c.
const ROWS: &[(u32, bool, Choice, u32)] = &[
    (0, false, Choice::Drop, 0x63),
    (1, true, Choice::Keep, 0x6162),
    (1, true, Choice::Drop, 0x6162),
    (1, true, Choice::Fill(0), 0x6162),
    (1, true, Choice::Fill(1), 0x6162),
    (2, true, Choice::Keep, 0x6162),
    (2, true, Choice::Drop, 0x6162),
    (2, true, Choice::Fill(0), 0x6162),
    (2, true, Choice::Fill(1), 0x6162),
    (3, true, Choice::Keep, 0x6162),
    (3, true, Choice::Drop, 0x6162),
    (3, true, Choice::Fill(0), 0x6162),
    (3, true, Choice::Fill(1), 0x6162),
    (4, true, Choice::Keep, 0x6162),
    (4, true, Choice::Drop, 0x6162),
    (4, true, Choice::Fill(0), 0x6162),
    (4, true, Choice::Fill(1), 0x6162),
    (5, true, Choice::Keep, 0x63),
    (5, true, Choice::Drop, 0x6162),
    (5, true, Choice::Fill(0), 0x6162),
    (5, true, Choice::Fill(1), 0x63),
    (6, true, Choice::Keep, 0x63),
    (6, true, Choice::Drop, 0x6162),
    (6, true, Choice::Fill(0), 0x6162),
    (6, true, Choice::Fill(1), 0x63),
    (1, false, Choice::Keep, 0x6162),
    (1, false, Choice::Drop, 0x6162),
    (1, false, Choice::Fill(1), 0x6162),
    (2, false, Choice::Keep, 0x6162),
    (2, false, Choice::Fill(1), 0x6162),
    (3, false, Choice::Keep, 0x6162),
    (3, false, Choice::Fill(1), 0x6162),
    (4, false, Choice::Keep, 0x6162),
    (4, false, Choice::Drop, 0x6162),
    (4, false, Choice::Fill(1), 0x6162),
    (5, false, Choice::Keep, 0x6162),
    (5, false, Choice::Fill(1), 0x63),
    (6, false, Choice::Keep, 0x63),
    (6, false, Choice::Drop, 0x6162),
    (6, false, Choice::Fill(0), 0x6162),
    (6, false, Choice::Fill(1), 0x63),
];

/// What is read behind such a crash.
fn read_back(alloc: Global, k: u32, stops: bool, choice: Choice) -> u32 {
    let mut site = MemSite::new(alloc);
    let Some(mut journal) = of_two(alloc, &mut site) else {
        return 2;
    };
    if stops {
        site.stop(k, choice);
    } else {
        site.fail(k);
    }
    let _answer = compacted(alloc, &mut site, &mut journal);
    site.crash(choice);
    letters(alloc, &mut site)
}

#[test]
fn either_list_is_read_back(rt: HostRuntime) -> Result<(), Fail> {
    for (k, stops, choice, wanted) in ROWS {
        let read = read_back(rt.alloc(), *k, *stops, *choice);
        assert!(rt; read == *wanted, "call {k}");
    }
    Ok(())
}

/// The call that fails, and what a compaction answers.
const FAILURES: &[(u32, Compact)] = &[
    (0, Compact::Done),
    (1, Compact::Kept),
    (2, Compact::Kept),
    (3, Compact::Kept),
    (4, Compact::Kept),
    (5, Compact::Unsure),
    (6, Compact::Unsure),
    (7, Compact::Done),
];

fn answers(alloc: Global, k: u32) -> Option<Compact> {
    let mut site = MemSite::new(alloc);
    let Some(mut journal) = of_two(alloc, &mut site) else {
        return None;
    };
    site.fail(k);
    compacted(alloc, &mut site, &mut journal)
}

#[test]
fn each_failure_has_its_answer(rt: HostRuntime) -> Result<(), Fail> {
    for (k, answer) in FAILURES {
        let given = answers(rt.alloc(), *k);
        assert!(rt; given == Some(*answer), "call {k}");
    }
    Ok(())
}

/// The fourth call of a compaction fails, d is appended, and the next compaction stops at its first call. What is read?
fn appended_between(alloc: Global) -> u32 {
    let mut site = MemSite::new(alloc);
    let Some(mut journal) = of_two(alloc, &mut site) else {
        return 2;
    };
    site.fail(4);
    let _kept = compacted(alloc, &mut site, &mut journal);
    let _done = journal.append(&mut site, b"d");
    site.stop(1, Choice::Fill(1));
    let _stopped = compacted(alloc, &mut site, &mut journal);
    site.crash(Choice::Fill(1));
    letters(alloc, &mut site)
}

#[test]
fn an_append_between_two_compactions_stands(rt: HostRuntime) -> Result<(), Fail> {
    let read = appended_between(rt.alloc());
    assert!(rt; read == 0x616264, "read {read}");
    Ok(())
}

/// Two compactions and an append, then both files.
fn files_are(alloc: Global, first: &[u8], second: &[u8]) -> bool {
    let mut site = MemSite::new(alloc);
    let Some(mut journal) = of_two(alloc, &mut site) else {
        return false;
    };
    let once = compacted(alloc, &mut site, &mut journal);
    let between = journal.append(&mut site, b"d");
    let again = compacted(alloc, &mut site, &mut journal);
    once == Some(Compact::Done)
        && between == Append::Done
        && again == Some(Compact::Done)
        && site.file(0) == first
        && site.file(1) == second
}

#[test]
fn a_compaction_writes_a_mark(rt: HostRuntime) -> Result<(), Fail> {
    let right = files_are(
        rt.alloc(),
        b"\x01\x00\x00\x00\x05\x0b\x00\x00\x00\x02\x01\x00\x00\x00\x01c\x00",
        b"\x01\x00\x00\x00\x05\x0b\x00\x00\x00\x01\x01\x00\x00\x00\x01c\x01\x00\x00\x00\x01d\x00",
    );
    assert!(rt; right, "files");
    Ok(())
}
