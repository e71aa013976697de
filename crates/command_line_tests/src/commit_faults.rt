//! A failure and a stop at each device call of a commit of two levels, through the top call.

use crate::journals::agreed;
use crate::top_call::{printed, text_of};
use crate::worked_schedules::NESTED;
use std::alloc::{AllocError, Global};
use std::test::Fail;

/// Who went down comes up, and what wasn't answered is sent again.
const ENDED: &str = "\
flush 99\n\
up 2\n\
up 3\n\
up 4\n\
tick 2 5000\n\
tick 3 5000\n\
tick 4 5000\n\
flush 99\n\
tick 2 5000\n\
tick 3 5000\n\
tick 4 5000\n\
flush 99\n\
tick 2 5000\n\
tick 3 5000\n\
tick 4 5000\n\
flush 99\n\
tick 2 5000\n\
tick 3 5000\n\
tick 4 5000\n\
flush 99\n\
";

/// Each node, and how many device calls it makes while the commit goes undisturbed.
const CALLS: &[(u32, u32)] = &[(2, 16), (3, 22), (4, 12)];

/// Whether a node's call of this number comes while the commit goes on, so that a stop there takes the node down.
fn comes(alloc: Global, node: u32, call: u32) -> Result<bool, AllocError> {
    let script = format!(in alloc; "{NESTED}stop {node} {call} keep\nflush 99\n")?;
    let report = printed(alloc, "replay", script.as_bytes())?;
    Ok(text_of(report.as_slice()).contains(" stopped\n"))
}

#[test]
fn no_call_is_left_out(rt: HostRuntime) -> Result<(), Fail> {
    for (node, calls) in CALLS {
        let last = comes(rt.alloc(), *node, *calls)?;
        let next = comes(rt.alloc(), *node, calls.saturating_add(1))?;
        assert!(rt; last && !next, "{node}: {last} {next}");
    }
    Ok(())
}

/// How many ended, behind the name of the first in the last line.
fn counts_in(report: &str) -> &str {
    match report.rsplit_once(" committed ") {
        Some((_, counts)) => counts,
        None => "",
    }
}

fn script_of(alloc: Global, fault: &str) -> Result<String, AllocError> {
    let script = format!(in alloc; "{NESTED}{fault}\n{ENDED}")?;
    Ok(script)
}

/// How many subordinates and participants ended, of the commit with this line before it.
fn ends(alloc: Global, fault: &str) -> Result<String, AllocError> {
    let script = script_of(alloc, fault)?;
    let report = printed(alloc, "replay", script.as_bytes())?;
    String::from_str(alloc, counts_in(text_of(report.as_slice())))
}

/// Nobody committed, or nobody aborted and nothing was lost.
fn is_whole(counts: &str) -> bool {
    counts.starts_with("0 ") || counts.ends_with(" aborted 0 lost 0\n")
}

/// Whether the journals of its nodes agree.
fn is_agreed(alloc: Global, fault: &str) -> Result<bool, AllocError> {
    let script = script_of(alloc, fault)?;
    agreed(alloc, script.as_bytes())
}

/// How many of a node's calls may meet a fault so that the commit isn't split, and the journals agree; its words in front of the
/// node and the call, and behind them.
fn whole_at(
    alloc: Global,
    node: u32,
    calls: u32,
    word: &str,
    rest: &str,
) -> Result<u32, AllocError> {
    let mut whole = 0u32;
    for k in 0..calls {
        let call = k.saturating_add(1);
        let line = format!(in alloc; "{word} {node} {call}{rest}")?;
        let counts = ends(alloc, line.as_str())?;
        if is_whole(counts.as_str()) && is_agreed(alloc, line.as_str())? {
            whole = whole.saturating_add(1);
        }
    }
    Ok(whole)
}

/// The same of all 50 calls.
fn whole_of(alloc: Global, word: &str, rest: &str) -> Result<u32, AllocError> {
    let mut all = 0u32;
    for (node, calls) in CALLS {
        let whole = whole_at(alloc, *node, *calls, word, rest)?;
        all = all.saturating_add(whole);
    }
    Ok(all)
}

#[test]
fn no_failure_splits_a_commit(rt: HostRuntime) -> Result<(), Fail> {
    let whole = whole_of(rt.alloc(), "fail", "")?;
    assert!(rt; whole == 50, "{whole}");
    Ok(())
}

#[test]
fn no_stop_with_all_kept_splits_it(rt: HostRuntime) -> Result<(), Fail> {
    let whole = whole_of(rt.alloc(), "stop", " keep")?;
    assert!(rt; whole == 50, "{whole}");
    Ok(())
}

#[test]
fn no_stop_with_all_dropped_splits_it(rt: HostRuntime) -> Result<(), Fail> {
    let whole = whole_of(rt.alloc(), "stop", " drop")?;
    assert!(rt; whole == 50, "{whole}");
    Ok(())
}

#[test]
fn no_stop_that_leaves_zeros_splits_it(rt: HostRuntime) -> Result<(), Fail> {
    let whole = whole_of(rt.alloc(), "stop", " fill 0")?;
    assert!(rt; whole == 50, "{whole}");
    Ok(())
}

#[test]
fn no_stop_that_leaves_ones_splits_it(rt: HostRuntime) -> Result<(), Fail> {
    let whole = whole_of(rt.alloc(), "stop", " fill 1")?;
    assert!(rt; whole == 50, "{whole}");
    Ok(())
}

/// Two faults of the sync of the decision's gate, and one of a call that doesn't come, with how all end.
const ENDS: &[(&str, &str)] = &[
    ("fail 2 8", "2 aborted 0 lost 0\n"),
    ("stop 2 8 drop", "0 aborted 2 lost 0\n"),
    ("stop 2 999 drop", "2 aborted 0 lost 0\n"),
];

#[test]
fn a_fault_at_the_decision(rt: HostRuntime) -> Result<(), Fail> {
    for (fault, wanted) in ENDS {
        let counts = ends(rt.alloc(), fault)?;
        assert!(rt; counts.as_str() == *wanted, "{fault}: {}", counts.as_str());
    }
    Ok(())
}
