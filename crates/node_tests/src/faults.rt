//! A failure and a stop at each write, sync, answer and post of a commit of two levels, between nodes that are served.

use crate::four::{Ends, Four, Line};
use crate::host::Fault;
use site_memory::arm::Choice;
use std::alloc::{AllocError, Global};
use std::test::Fail;

/// Node 1 has a root at node 2, a subordinate of that at node 3, and a durable participant under it at node 4. It asks for
/// the commit.
const BEGUN: &[Line] = &[
    Line::Begin,
    Line::Flush,
    Line::Interpose,
    Line::Flush,
    Line::Work,
    Line::Flush,
    Line::Commit,
];

const FLUSH: &[Line] = &[Line::Flush];

/// Who went down comes up.
const UP: &[Line] = &[Line::Up(2), Line::Up(3), Line::Up(4)];

/// What wasn't answered is sent again.
const ROUND: &[Line] = &[Line::Tick(2), Line::Tick(3), Line::Tick(4), Line::Flush];

/// The same at all nodes.
const SETTLING: &[Line] = &[
    Line::Tick(1),
    Line::Tick(2),
    Line::Tick(3),
    Line::Tick(4),
    Line::Flush,
];

/// Who never voted, and so waits for nobody's word, is lost.
const DOWN: &[Line] = &[Line::Down(3), Line::Down(4)];

/// Each node, and how many writes, syncs, answers and posts it makes while the commit goes undisturbed. A record takes four:
/// its body is written and synced, and then its gate.
///
/// Node 2 answers Commit, ReadOnly, Prepared and Committed, posts Prepare twice, Commit and Committed, and records its
/// decision and its end. Node 3 answers Prepare twice, Prepared, Commit and Committed, posts as often, and records its vote,
/// the commit and the end. Node 4 answers Prepare and Commit, posts as often, and records its vote and the commit.
const CALLS: &[(usize, u32)] = &[(2, 16), (3, 22), (4, 12)];

/// The commit with a fault at a node's k-th call.
fn disturbed(alloc: Global, node: usize, k: u32, fault: Fault) -> Result<Four, AllocError> {
    let mut four = Four::new(alloc)?;
    four.plays(alloc, BEGUN, 1)?;
    four.arm(node, k, fault);
    four.plays(alloc, FLUSH, 1)?;
    Ok(four)
}

/// Whether a node's k-th call comes, so that a stop there takes it down.
fn comes(alloc: Global, node: usize, k: u32) -> Result<bool, AllocError> {
    let four = disturbed(alloc, node, k, Fault::Stop(Choice::Keep))?;
    Ok(!four.is_up(node))
}

/// How many calls a node makes.
fn calls_of(alloc: Global, node: usize) -> Result<u32, AllocError> {
    for k in 0..99u32 {
        if !comes(alloc, node, k.saturating_add(1))? {
            return Ok(k);
        }
    }
    Ok(99)
}

#[test]
fn no_call_is_left_out(rt: HostRuntime) -> Result<(), Fail> {
    for (node, calls) in CALLS {
        let found = calls_of(rt.alloc(), *node)?;
        assert!(rt; found == *calls, "node {node}: {found}");
    }
    Ok(())
}

/// Where nothing fails: how many posts there are, and how all end.
fn undisturbed(alloc: Global) -> Result<(Option<usize>, Ends), AllocError> {
    let mut four = Four::new(alloc)?;
    four.plays(alloc, BEGUN, 1)?;
    four.plays(alloc, FLUSH, 1)?;
    Ok((four.posts(), four.ends()))
}

#[test]
fn undisturbed_all_commit(rt: HostRuntime) -> Result<(), Fail> {
    let (posts, ends) = undisturbed(rt.alloc())?;
    assert!(rt;
        posts == Some(26) && is_so(ends, (2, 0, 0)),
        "{posts:?} {ends:?}"
    );
    Ok(())
}

fn is_so(ends: Ends, counts: (usize, usize, usize)) -> bool {
    let (committed, aborted, lost) = counts;
    ends.committed == committed && ends.aborted == aborted && ends.lost == lost
}

/// The commit with a fault, and four rounds in which all is sent again.
fn played(alloc: Global, node: usize, k: u32, fault: Fault) -> Result<Four, AllocError> {
    let mut four = disturbed(alloc, node, k, fault)?;
    four.plays(alloc, UP, 1)?;
    four.plays(alloc, ROUND, 4)?;
    Ok(four)
}

/// Nobody commits, or else nobody aborts and nothing is lost.
fn is_whole(ends: Ends) -> bool {
    ends.committed == 0 || (ends.aborted == 0 && ends.lost == 0)
}

/// Whether all posts came, and no record waits for anything.
fn settles(alloc: Global, four: &mut Four) -> Result<bool, AllocError> {
    four.plays(alloc, UP, 1)?;
    four.plays(alloc, SETTLING, 8)?;
    Ok(four.posts().is_some() && four.is_settled(alloc))
}

/// How many ended.
fn all_of(ends: Ends) -> usize {
    ends.committed
        .saturating_add(ends.aborted)
        .saturating_add(ends.lost)
}

/// Whether the subordinate and the participant end once each, and alike.
fn both_end(alloc: Global, four: &mut Four) -> Result<bool, AllocError> {
    four.plays(alloc, DOWN, 1)?;
    let ends = four.ends();
    Ok(all_of(ends) == 2 && is_whole(ends))
}

/// Whether a play ends as it may, and settles.
fn is_right(alloc: Global, node: usize, k: u32, fault: Fault) -> Result<bool, AllocError> {
    let mut four = played(alloc, node, k, fault)?;
    let whole = is_whole(four.ends());
    let settled = settles(alloc, &mut four)?;
    let ended = both_end(alloc, &mut four)?;
    Ok(whole && settled && ended && four.is_right())
}

/// How many of a node's calls may meet the fault, and all ends as it may.
fn right_at(alloc: Global, node: usize, calls: u32, fault: Fault) -> Result<usize, AllocError> {
    let mut count = 0usize;
    for k in 0..calls {
        if is_right(alloc, node, k.saturating_add(1), fault)? {
            count = count.saturating_add(1);
        }
    }
    Ok(count)
}

/// The same of all 50 calls.
fn right_of(alloc: Global, fault: Fault) -> Result<usize, AllocError> {
    let mut all = 0usize;
    for (node, calls) in CALLS {
        let right = right_at(alloc, *node, *calls, fault)?;
        all = all.saturating_add(right);
    }
    Ok(all)
}

#[test]
fn no_failure_splits_a_commit(rt: HostRuntime) -> Result<(), Fail> {
    let right = right_of(rt.alloc(), Fault::Fail)?;
    assert!(rt; right == 50, "{right}");
    Ok(())
}

#[test]
fn no_stop_with_all_kept_splits_it(rt: HostRuntime) -> Result<(), Fail> {
    let right = right_of(rt.alloc(), Fault::Stop(Choice::Keep))?;
    assert!(rt; right == 50, "{right}");
    Ok(())
}

#[test]
fn no_stop_with_all_dropped_splits_it(rt: HostRuntime) -> Result<(), Fail> {
    let right = right_of(rt.alloc(), Fault::Stop(Choice::Drop))?;
    assert!(rt; right == 50, "{right}");
    Ok(())
}

#[test]
fn no_stop_that_leaves_zeros_splits_it(rt: HostRuntime) -> Result<(), Fail> {
    let right = right_of(rt.alloc(), Fault::Stop(Choice::Fill(0)))?;
    assert!(rt; right == 50, "{right}");
    Ok(())
}

#[test]
fn no_stop_that_leaves_ones_splits_it(rt: HostRuntime) -> Result<(), Fail> {
    let right = right_of(rt.alloc(), Fault::Stop(Choice::Fill(1)))?;
    assert!(rt; right == 50, "{right}");
    Ok(())
}

/// Two faults of the sync of the decision's gate, and how the subordinate and the participant end: committed, aborted, lost.
const DECISIONS: &[(Fault, (usize, usize, usize))] = &[
    // The gate stays as it reads, and the decision stands.
    (Fault::Fail, (2, 0, 0)),
    // The gate goes back, and nothing was decided.
    (Fault::Stop(Choice::Drop), (0, 2, 0)),
];

fn decides(alloc: Global, fault: Fault, counts: (usize, usize, usize)) -> Result<bool, AllocError> {
    let four = played(alloc, 2, 8, fault)?;
    Ok(is_so(four.ends(), counts))
}

#[test]
fn a_fault_at_the_decision(rt: HostRuntime) -> Result<(), Fail> {
    for (fault, counts) in DECISIONS {
        let right = decides(rt.alloc(), *fault, *counts)?;
        assert!(rt; right, "{fault:?}");
    }
    Ok(())
}
