//! Connections that fail before their request is there.

use crate::commits::{BEGUN, COMMITS, COMMITTED, ENDED, ENDING, VOTED, leaves};
use crate::memory::{is_as_before, stands};
use crate::net::{Act, Net, Row};
use std::alloc::{AllocError, Global};
use std::test::Fail;

/// Whether a turn whose k-th receive fails answers 0 and leaves all as it was; None where it has no such receive, and then
/// its answer.
fn fails(alloc: Global, net: &mut Net, row: &Row, k: u32) -> Result<(u16, bool), AllocError> {
    let (act, node, ..) = row;
    let before = stands(alloc, net, *node)?;
    // the connection is taken before
    let _ = net.act(alloc, Act::FailLink(k.saturating_add(1)), *node)?;
    let given = net.act(alloc, *act, *node)?;
    let _ = net.act(alloc, Act::FailLink(0), *node)?;
    match net.peer(*node) {
        Some(peer) => {
            let nothing = before.is_unanswered(peer) && is_as_before(peer, &before);
            Ok((given, nothing))
        }
        None => Err(AllocError),
    }
}

/// Each receive of a row's turn fails, until it has no more and goes as it says. How many failed.
fn fails_each(alloc: Global, net: &mut Net, row: &Row) -> Result<Option<usize>, AllocError> {
    let mut failed = 0usize;
    for k in 1..999u32 {
        let (given, nothing) = fails(alloc, net, row, k)?;
        if given != 0 {
            let goes = given == row.2 && net.shows(row.1, row.3, row.4);
            return Ok(if goes { Some(failed) } else { None });
        }
        if !nothing {
            return Ok(None);
        }
        failed = failed.saturating_add(1);
    }
    Ok(None)
}

/// How many receives failed of a row, None where it doesn't go as it says. A request of a program has none.
fn goes(alloc: Global, net: &mut Net, row: &Row) -> Result<Option<usize>, AllocError> {
    match row.0 {
        Act::Post(..) => fails_each(alloc, net, row),
        act => {
            let given = net.act(alloc, act, row.1)?;
            Ok(if given == row.2 { Some(1) } else { None })
        }
    }
}

/// How many receives failed of these rows, None where one doesn't go as it says or has none.
fn play(alloc: Global, net: &mut Net, rows: &[Row]) -> Result<Option<usize>, AllocError> {
    let mut all = 0usize;
    for row in rows {
        match goes(alloc, net, row)? {
            Some(failed) if failed > 0 => all = all.saturating_add(failed),
            _ => return Ok(None),
        }
    }
    Ok(Some(all))
}

/// Connections of three nodes that give at most so many bytes at once.
fn slow(alloc: Global, most: usize) -> Result<Net, AllocError> {
    let mut net = Net::new(alloc)?;
    for node in 1..4 {
        let _ = net.act(alloc, Act::GiveAtMost(most), node)?;
    }
    Ok(net)
}

/// The same for a whole commit, if the journals are those of one that is undisturbed.
fn commits(alloc: Global, most: usize) -> Result<Option<usize>, AllocError> {
    let mut net = slow(alloc, most)?;
    let mut all = 0usize;
    for rows in [BEGUN, ENDING, VOTED, COMMITS] {
        match play(alloc, &mut net, rows)? {
            Some(failed) => all = all.saturating_add(failed),
            None => return Ok(None),
        }
    }
    Ok(if leaves(&net, ENDED, COMMITTED) {
        Some(all)
    } else {
        None
    })
}

/// How many bytes a connection gives at once, where 0 says that it gives all that there is room for, and how many receives
/// the fourteen requests of a commit take.
const RECEIVES: &[(usize, usize)] = &[(0, 19), (100, 128)];

/// A turn whose connection fails is served, without a status and without an answer, and the post that is carried once more
/// is taken as if it came for the first time.
#[test]
fn each_receive_fails(rt: HostRuntime) -> Result<(), Fail> {
    for (most, receives) in RECEIVES {
        let failed = commits(rt.alloc(), *most)?;
        assert!(rt; failed == Some(*receives), "{most}: {failed:?}");
    }
    Ok(())
}
