//! Journals that are written anew.

ghost use Rattle.std.specs.Prelude.{IfSome};
ghost use Rattle.node_at.specs.State.{IsNode, seen};

use crate::nodes::{holding, started};
use node_at::node::Node;
use node_at::shrink::Shrunk;
use node_at::turn::Turned;
use site_memory::machine::MemSite;
use std::alloc::Global;
use std::test::Fail;

/// A mark of version 2 and so many Starts of incarnation 1.
fn starts(alloc: Global, count: u32) -> Option<Vec<u8>> {
    let mut file = Vec::new(alloc);
    let mark = b"\x01\x00\x00\x00\x05\x0b\x00\x00\x00\x00";
    if file.extend_from_slice(mark).is_err() {
        return None;
    }
    for _ in 0..count {
        let record = b"\x01\x00\x00\x00\x05\x01\x00\x00\x00\x01";
        if file.extend_from_slice(record).is_err() {
            return None;
        }
    }
    if file.push(0).is_err() {
        return None;
    }
    Some(file)
}

/// A node whose journal has so many Starts before its own.
fn node_behind(alloc: Global, count: u32) -> Option<(Node, MemSite)>
    ensures { IfSome result (λ p. IsNode (seen p.0)) }
{
    let Some(file) = starts(alloc, count) else {
        return None;
    };
    let Some(mut site) = holding(alloc, file.as_slice()) else {
        return None;
    };
    match started(alloc, &mut site, 1_000_000) {
        Ok(node) => Some((node, site)),
        Err(_) => None,
    }
}

/// The journal that is left: its mark, of the next generation, and the last Start.
const LEFT: &[u8] =
    b"\x01\x00\x00\x00\x05\x0b\x00\x00\x00\x01\x01\x00\x00\x00\x05\x01\x00\x00\x00\x02\x00";

const TICK: &[u8] = b"POST /tick HTTP/1.0\r\nContent-Length: 0\r\n\r\n";

/// The turn of a tick.
fn tick(alloc: Global, node: &mut Node, site: &mut MemSite) -> Turned
    requires { IsNode (seen node.old) }
    ensures { IsNode (seen node.new) }
{
    if site.connect(TICK).is_err() {
        return Turned::NoRoom;
    }
    node.turn(alloc, site)
}

/// Whether the journal of so many Starts is shrunk to the last one, and then not again.
fn shrinks(alloc: Global, count: u32) -> bool {
    let Some((mut node, mut site)) = node_behind(alloc, count) else {
        return false;
    };
    let first = tick(alloc, &mut node, &mut site);
    let told = node.shrunk();
    let second = tick(alloc, &mut node, &mut site);
    let again = node.shrunk();
    first == Turned::Ticked
        && told == Shrunk::Done
        && second == Turned::Ticked
        && again == Shrunk::NotDue
        && site.file(1) == LEFT
}

/// Whether it isn't.
fn stays(alloc: Global, count: u32) -> bool {
    let Some((mut node, mut site)) = node_behind(alloc, count) else {
        return false;
    };
    let answer = tick(alloc, &mut node, &mut site);
    answer == Turned::Ticked && node.shrunk() == Shrunk::NotDue && site.file(1).is_empty()
}

#[test]
fn a_journal_is_shrunk_from_65536_bytes_on(rt: HostRuntime) -> Result<(), Fail> {
    let least = shrinks(rt.alloc(), 6552);
    let fewer = stays(rt.alloc(), 6551);
    assert!(rt; least && fewer, "bytes");
    Ok(())
}

/// What a call that fails leaves, of those behind the answer: a journal as before, which is shrunk later, or a node that has
/// halted.
fn fails(alloc: Global, k: u32) -> bool {
    let Some((mut node, mut site)) = node_behind(alloc, 6552) else {
        return false;
    };
    site.fail(k.saturating_add(1));
    let first = tick(alloc, &mut node, &mut site);
    let told = node.shrunk();
    let second = tick(alloc, &mut node, &mut site);
    let again = node.shrunk();
    if k < 5 {
        first == Turned::Ticked
            && told == Shrunk::Kept
            && second == Turned::Ticked
            && again == Shrunk::Done
    } else {
        first == Turned::Halted
            && told == Shrunk::NotDue
            && second == Turned::Halted
            && again == Shrunk::NotDue
    }
}

#[test]
fn a_call_that_fails_leaves_it_for_later_or_halts(rt: HostRuntime) -> Result<(), Fail> {
    for k in 1..7 {
        let right = fails(rt.alloc(), k);
        assert!(rt; right, "call {k}");
    }
    Ok(())
}
