//! A call that fails, or at which its node stops, all through a commit of two levels.

use crate::ends::at_rest;
use crate::script::{Script, played};
use replay_cmd::endings::push_ended;
use replay_cmd::lines::Lines;
use std::alloc::{AllocError, Global};
use std::test::Fail;

/// An initiator at node 1, its root at node 2, a subordinate of that at node 3, and a durable participant under it at
/// node 4.
const BEGUN: &str = "\
up 1
up 2
up 3
up 4
begin 1 2 0
flush
interpose 1 1-1 3
flush
work 1 1-2 4 d prepared
flush
";

/// The root, the subordinate and the participant.
const ITEMS: usize = 3;

/// What goes on behind the call: who stopped comes up, and all send again what wasn't answered.
const REST: &str = "\
flush
up 2
up 3
up 4
tick 2 5000
tick 3 5000
tick 4 5000
flush
tick 2 5000
tick 3 5000
tick 4 5000
flush
tick 2 5000
tick 3 5000
tick 4 5000
flush
tick 2 5000
tick 3 5000
tick 4 5000
flush
";

/// What becomes of a turn's first call, of its second, and so on: it fails; its node stops behind it; its node stops, and it
/// isn't done.
const FAULTS: &[&str] = &[
    "n", "y 1", "n 1", //
    "yn", "yy 2", "yn 2", //
    "yyn", "yyy 3", "yyn 3", //
    "yyyn", "yyyy 4", "yyyn 4", //
];

/// The turns of the commit: what comes before each, what it is, and how all end for each of its calls and faults: they
/// commit (`c`), or don't (`a`). A turn's calls are one for its record, if it has one, one for its answer, and one for each
/// of its posts.
const TURNS: &[(&str, &str, &str)] = &[
    // The initiator posts Commit, again and again, unless it went down.
    ("", "commit 1 1-1", "cca"),
    // The root answers, and posts Prepare to the subordinate's volatile link. Where it stops it is lost.
    ("commit 1 1-1\n", "deliver 15", "caacaa"),
    // The subordinate answers, and posts ReadOnly. It does so once: who asks again is told Aborted. Where it stops it is lost.
    ("commit 1 1-1\nflush 1\n", "deliver 16", "caaaaa"),
    // The root answers, and posts Prepare to the durable link.
    ("commit 1 1-1\nflush 2\n", "deliver 17", "caacaa"),
    // The subordinate answers, and posts Prepare to the participant.
    ("commit 1 1-1\nflush 3\n", "deliver 18", "caacaa"),
    // The participant records its vote, answers, and posts Prepared. Without the record it aborts.
    ("commit 1 1-1\nflush 4\n", "deliver 19", "acacccccc"),
    // The subordinate records its vote, answers, and posts Prepared.
    ("commit 1 1-1\nflush 5\n", "deliver 20", "acacccccc"),
    // The root records its decision, answers, and posts Commit and Committed.
    ("commit 1 1-1\nflush 6\n", "deliver 21", "acaccccccccc"),
    // The subordinate records the commit, answers, and posts Commit.
    ("commit 1 1-1\nflush 7\n", "deliver 22", "ccccccccc"),
    // The initiator answers.
    ("commit 1 1-1\nflush 8\n", "deliver 23", "ccc"),
    // The participant records the commit, answers, and posts Committed.
    ("commit 1 1-1\nflush 9\n", "deliver 24", "ccccccccc"),
    // The subordinate records its end, answers, and posts Committed.
    ("commit 1 1-1\nflush 10\n", "deliver 25", "ccccccccc"),
    // The root records its end, and answers.
    ("commit 1 1-1\nflush 11\n", "deliver 26", "cccccc"),
];

/// A turn, and a fault of it.
fn with_fault(alloc: Global, before: &str, turn: &str, fault: &str) -> Result<String, AllocError> {
    format!(in alloc; "{before}{turn} {fault}\n")
}

/// The world behind a turn with a fault.
fn faulted(alloc: Global, before: &str, turn: &str, fault: &str) -> Result<Script, AllocError> {
    let text = with_fault(alloc, before, turn, fault)?;
    let script = played(alloc, 4, BEGUN)?;
    script.go_on(alloc, text.as_str())
}

/// Whether all end so.
fn ends_so(
    alloc: Global,
    row: &(&str, &str, &str),
    fault: &str,
    letter: u8,
) -> Result<bool, AllocError> {
    let script = faulted(alloc, row.0, row.1, fault)?;
    let script = script.go_on(alloc, REST)?;
    let ends = at_rest(alloc, script)?;
    Ok(ends.are(ITEMS, letter))
}

/// How many faults of a turn end as they have to.
fn right_in(alloc: Global, row: &(&str, &str, &str)) -> Result<usize, AllocError> {
    let mut count = 0usize;
    for (fault, letter) in FAULTS.iter().zip(row.2.as_bytes()) {
        if ends_so(alloc, row, fault, *letter)? {
            count = count.saturating_add(1);
        }
    }
    Ok(count)
}

/// How many faults of the turns from the first place on, up to the last, end as they have to.
fn right_among(alloc: Global, first: usize, last: usize) -> Result<usize, AllocError> {
    let mut count = 0usize;
    for row in TURNS.iter().take(last).skip(first) {
        let right = right_in(alloc, row)?;
        count = count.saturating_add(right);
    }
    Ok(count)
}

#[test]
fn a_fault_before_the_votes(rt: HostRuntime) -> Result<(), Fail> {
    let right = right_among(rt.alloc(), 0, 5)?;
    assert!(rt; right == 27, "{right}");
    Ok(())
}

#[test]
fn a_fault_at_a_vote_or_the_decision(rt: HostRuntime) -> Result<(), Fail> {
    let right = right_among(rt.alloc(), 5, 8)?;
    assert!(rt; right == 30, "{right}");
    Ok(())
}

#[test]
fn a_fault_behind_the_decision(rt: HostRuntime) -> Result<(), Fail> {
    let right = right_among(rt.alloc(), 8, 13)?;
    assert!(rt; right == 36, "{right}");
    Ok(())
}

/// A turn's node stops behind its first call, its second, and so on.
const STOPS: &[&str] = &["y 1", "y 2", "y 3", "y 4", "y 5"];

/// How many nodes are up.
fn up(script: &Script) -> usize {
    let mut count = 0usize;
    for node in 1..5 {
        if script.world().incarnation(node).is_some() {
            count = count.saturating_add(1);
        }
    }
    count
}

/// How many of these stops a turn comes to.
fn calls_of(alloc: Global, row: &(&str, &str, &str)) -> Result<usize, AllocError> {
    let mut calls = 0usize;
    for stop in STOPS {
        let script = faulted(alloc, row.0, row.1, stop)?;
        if up(&script) == 3 {
            calls = calls.saturating_add(1);
        }
    }
    Ok(calls)
}

#[test]
fn no_call_is_left_out(rt: HostRuntime) -> Result<(), Fail> {
    for row in TURNS {
        let calls = calls_of(rt.alloc(), row)?;
        assert!(rt;
            row.2.len() == calls.saturating_mul(3),
            "{}: {calls}",
            row.1
        );
    }
    Ok(())
}

/// How many messages there are before a commit, and how many behind it where nothing fails.
fn messages(alloc: Global) -> Result<(usize, usize), AllocError> {
    let script = played(alloc, 4, BEGUN)?;
    let before = script.world().messages();
    let script = script.go_on(alloc, "commit 1 1-1\nflush\n")?;
    Ok((before, script.world().messages()))
}

#[test]
fn no_turn_is_left_out(rt: HostRuntime) -> Result<(), Fail> {
    let (before, behind) = messages(rt.alloc())?;
    assert!(rt; before == 14 && behind == 26);
    assert!(rt; TURNS.len() == 13);
    Ok(())
}

/// Two faults of the turn in which the root decides, and how the subordinate and the participant end, before the world comes
/// to rest.
const DECISIONS: &[(&str, &str)] = &[
    // The decision stands, and the root's node stops before it does anything else.
    ("y 1", "committed 2 aborted 0 lost 0\n"),
    // It stops, and the decision doesn't stand.
    ("n 1", "committed 0 aborted 2 lost 0\n"),
];

/// Whether the last line of its report ends so.
fn reports(alloc: Global, script: &Script, end: &str) -> Result<bool, AllocError> {
    let mut lines = Lines::new(alloc);
    push_ended(alloc, &mut lines, script.world())?;
    Ok(lines.as_slice().ends_with(end.as_bytes()))
}

/// Whether the two end so.
fn decides(alloc: Global, fault: &str, end: &str) -> Result<bool, AllocError> {
    let script = faulted(alloc, "commit 1 1-1\nflush 6\n", "deliver 21", fault)?;
    let script = script.go_on(alloc, REST)?;
    reports(alloc, &script, end)
}

#[test]
fn a_stop_at_the_decision(rt: HostRuntime) -> Result<(), Fail> {
    for (fault, end) in DECISIONS {
        let right = decides(rt.alloc(), fault, end)?;
        assert!(rt; right, "{fault}");
    }
    Ok(())
}
