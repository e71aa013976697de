//! Calls for which there is no memory.
//!
//! No test refuses memory by itself: `rt try --test --fail-alloc N -- memory` has the N-th allocation fail. A call of a node
//! that says so is then made again, and the rest goes as ever; the test ends with an error where another than a node's call
//! had no memory.

use crate::commits::{BEGUN, COMMITS, COMMITTED, ENDED, ENDING, VOTED, leaves};
use crate::net::{Net, Row};
use crate::peer::Peer;
use std::alloc::{AllocError, Global};
use std::test::Fail;

const BUSY: &[u8] =
    b"HTTP/1.1 503 Service Unavailable\r\nContent-Length: 0\r\nConnection: close\r\n\r\n";

/// What a node has answered, posted and recorded.
#[derive(Drop)]
pub struct Before {
    answers: usize,
    posts: usize,
    file: Vec<u8>,
}

impl Before {
    /// Whether nothing was answered since.
    pub fn is_unanswered(&self, peer: &Peer) -> bool {
        peer.answers() == self.answers
    }

    /// Whether since then this was posted to this host and nothing else, and nothing was recorded.
    pub fn is_followed_by(&self, peer: &Peer, host: &str, post: &[u8]) -> bool {
        let next = self.posts.saturating_add(1);
        peer.posts() == next
            && peer.has_posted(next, host, post)
            && peer.holds(self.file.as_slice())
    }
}

pub fn stands(alloc: Global, net: &Net, node: usize) -> Result<Before, AllocError> {
    match net.peer(node) {
        Some(peer) => Ok(Before {
            answers: peer.answers(),
            posts: peer.posts(),
            file: Vec::from_slice(alloc, peer.file())?,
        }),
        None => Err(AllocError),
    }
}

/// Whether a turn answered that the node is busy, or a request of its program was refused, for want of memory.
fn is_busy(peer: &Peer, given: u16, before: &Before) -> bool {
    let next = before.answers.saturating_add(1);
    match given {
        3 => peer.answers() == next && peer.has_answered(next, BUSY),
        9 => peer.answers() == before.answers,
        _ => false,
    }
}

/// Whether nothing came of it.
pub fn is_as_before(peer: &Peer, before: &Before) -> bool {
    peer.effect() == "" && peer.posts() == before.posts && peer.holds(before.file.as_slice())
}

/// What a call left.
enum Trace {
    /// It wasn't refused for want of memory.
    Done,
    /// It was, and nothing came of it.
    AsBefore,
    /// It was, and something did.
    Something,
}

fn left(net: &Net, node: usize, given: u16, before: &Before) -> Trace {
    match net.peer(node) {
        Some(peer) => {
            if !is_busy(peer, given, before) {
                Trace::Done
            } else if is_as_before(peer, before) {
                Trace::AsBefore
            } else {
                Trace::Something
            }
        }
        None => Trace::Something,
    }
}

/// Whether a row goes as it says, after one more try where the node was busy.
fn goes(alloc: Global, net: &mut Net, row: &Row, busy: &mut bool) -> Result<bool, AllocError> {
    let (act, node, answer, effect, posts) = row;
    let before = stands(alloc, net, *node)?;
    let first = net.act(alloc, *act, *node)?;
    let given = match left(net, *node, first, &before) {
        Trace::Done => first,
        Trace::AsBefore => {
            *busy = true;
            net.act(alloc, *act, *node)?
        }
        Trace::Something => return Ok(false),
    };
    if given == *answer && net.shows(*node, effect, *posts) {
        return Ok(true);
    }
    if *busy { Ok(false) } else { Err(AllocError) }
}

/// Whether all rows go as they say.
fn play(alloc: Global, net: &mut Net, rows: &[Row], busy: &mut bool) -> Result<bool, AllocError> {
    for place in 0..rows.len() {
        if !goes(alloc, net, &rows[place], busy)? {
            return Ok(false);
        }
    }
    Ok(true)
}

/// Whether three nodes commit.
fn commits(alloc: Global) -> Result<bool, AllocError> {
    let mut net = Net::new(alloc)?;
    let mut busy = false;
    for rows in [BEGUN, ENDING, VOTED, COMMITS] {
        if !play(alloc, &mut net, rows, &mut busy)? {
            return Ok(false);
        }
    }
    Ok(leaves(&net, ENDED, COMMITTED))
}

#[test]
fn what_had_no_memory_is_done_when_it_is_asked_again(rt: HostRuntime) -> Result<(), Fail> {
    let right = commits(rt.alloc())?;
    assert!(rt; right, "a call without memory left something");
    Ok(())
}
