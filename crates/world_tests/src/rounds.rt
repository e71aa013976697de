//! Worlds that come to rest.

use crate::ends::at_rest;
use crate::script::{Script, played};
use settlement::holdings::held_once_up;
use settlement::settle::settle;
use std::alloc::{AllocError, Global};
use std::test::Fail;
use world_laws::event::{Input, WorldEvent};
use world_laws::world::World;

/// A transaction at node 2, begun at node 3.
const BEGUN: &str = "\
up 1
up 2
up 3
begin 3 2 0
flush
";

/// Work at node 1 whose participant isn't registered, since its Register is lost.
const UNREGISTERED: &str = "\
work 3 1-1 1 d prepared
flush 1
lose
";

/// The commit is asked for, and that is lost too.
const UNASKED: &str = "\
commit 3 1-1
lose
";

/// So many participants, and in how many deliveries the first round ends them all.
///
/// The ticks post each Register, and Commit behind them. Each participant is delivered a RegisterResponse, Prepare and
/// Commit; the coordinator its Register, Prepared and Committed; and the initiator its WorkDone: seven messages for each of
/// them. Two more are the initiator's Commit, which comes when all are registered, and its answer.
const ROUNDS: &[(u8, usize)] = &[(0, 2), (1, 9), (2, 16), (63, 443)];

/// A transaction whose participants aren't registered.
fn unregistered(alloc: Global, leaves: u8) -> Result<Script, AllocError> {
    let mut script = played(alloc, 3, BEGUN)?;
    for _leaf in 0..leaves {
        script = script.go_on(alloc, UNREGISTERED)?;
    }
    script.go_on(alloc, UNASKED)
}

/// How many messages the first round delivers, and how many the later ones.
#[derive(Clone, Copy)]
struct Deliveries {
    first: usize,
    later: usize,
}

fn is_tick(event: &WorldEvent) -> bool {
    matches!(
        event,
        WorldEvent::Turn {
            input: Input::Tick(_),
            ..
        }
    )
}

/// The deliveries of rounds that have so many ticks each.
fn rounds_of(events: &[WorldEvent], nodes: usize) -> Deliveries {
    let mut ticks = 0usize;
    let mut counted = Deliveries { first: 0, later: 0 };
    for event in events {
        if is_tick(event) {
            ticks = ticks.saturating_add(1);
        } else if ticks <= nodes {
            counted.first = counted.first.saturating_add(1);
        } else {
            counted.later = counted.later.saturating_add(1);
        }
    }
    counted
}

/// How many messages are delivered while a world of nodes that are up comes to rest.
fn delivered(alloc: Global, world: &World) -> Result<Deliveries, AllocError> {
    let Ok(events) = settle(alloc, world) else {
        return Err(AllocError);
    };
    Ok(rounds_of(events.as_slice(), world.count() as usize))
}

/// Whether the first round delivers so many messages, behind which there are none to deliver, and all have committed.
fn delivers(alloc: Global, leaves: u8, first: usize) -> Result<bool, AllocError> {
    let script = unregistered(alloc, leaves)?;
    let counted = delivered(alloc, script.world())?;
    let ends = at_rest(alloc, script)?;
    let few = counted.first == first && counted.later == 0;
    Ok(few && ends.are(leaves as usize + 1, b'c'))
}

#[test]
fn one_round_registers_and_commits(rt: HostRuntime) -> Result<(), Fail> {
    for (leaves, first) in ROUNDS {
        let right = delivers(rt.alloc(), *leaves, *first)?;
        assert!(rt; right, "{leaves}");
    }
    Ok(())
}

/// Whether the activity, the completion seat and so many participants are what the nodes hold.
fn holds(alloc: Global, leaves: u8) -> Result<bool, AllocError> {
    let script = unregistered(alloc, leaves)?;
    let wanted = u128::from(leaves) + 2;
    let Ok(risen) = held_once_up(alloc, script.world()) else {
        return Err(AllocError);
    };
    Ok(risen == wanted && script.world().held() == wanted)
}

#[test]
fn nodes_hold_what_waits(rt: HostRuntime) -> Result<(), Fail> {
    for (leaves, _first) in ROUNDS {
        let right = holds(rt.alloc(), *leaves)?;
        assert!(rt; right, "{leaves}");
    }
    Ok(())
}

/// Eight subordinates, each under the one before it: the first at node 2, under a root at node 1, which has the eighth one
/// too. A durable participant at node 2 is under the eighth. Commit is asked for.
const RING: &str = "\
up 1
up 2
up 3
up 4
up 5
up 6
up 7
up 8
begin 1 1 0
flush
interpose 1 1-1 2
flush
interpose 1 1-3 3
flush
interpose 1 1-4 4
flush
interpose 1 1-5 5
flush
interpose 1 1-6 6
flush
interpose 1 1-7 7
flush
interpose 1 1-8 8
flush
interpose 1 1-9 1
flush
work 1 1-10 2 d prepared
flush
commit 1 1-1
";

/// Its root, its subordinates and its participant.
const ITEMS: usize = 10;

/// Who goes down: each node, and all of them.
const DOWN: &[&str] = &[
    "crash 1\n",
    "crash 2\n",
    "crash 3\n",
    "crash 4\n",
    "crash 5\n",
    "crash 6\n",
    "crash 7\n",
    "crash 8\n",
    "\
crash 1
crash 2
crash 3
crash 4
crash 5
crash 6
crash 7
crash 8
",
];

/// Whether the ring ends so where these go down behind so many deliveries: it commits (`c`), or doesn't (`a`).
fn closes(alloc: Global, moment: &str, down: &str, letter: u8) -> Result<bool, AllocError> {
    let script = played(alloc, 8, RING)?;
    let script = script.go_on(alloc, moment)?;
    let script = script.go_on(alloc, down)?;
    let ends = at_rest(alloc, script)?;
    Ok(ends.are(ITEMS, letter))
}

/// How many of those that go down, one after another, leave the ring to the end that it has to come to.
///
/// The Commit is delivered first, then Prepare eight times down the volatile links, and ReadOnly eight times back. Prepare
/// goes down the durable links and to the participant, and Prepared back. Then the root decides, tells the first subordinate
/// and the initiator, and Commit and Committed go the same way.
fn closed(alloc: Global, moment: &str, letters: &str) -> Result<usize, AllocError> {
    let mut count = 0usize;
    for (down, letter) in DOWN.iter().zip(letters.as_bytes()) {
        if closes(alloc, moment, down, *letter)? {
            count = count.saturating_add(1);
        }
    }
    Ok(count)
}

/// Nobody was asked to vote. Who goes down is lost.
#[test]
fn a_ring_that_has_not_voted(rt: HostRuntime) -> Result<(), Fail> {
    let right = closed(rt.alloc(), "", "aaaaaaaaa")?;
    assert!(rt; right == 9, "{right}");
    Ok(())
}

/// The participant at node 2 has voted, and the subordinates at nodes 1, 8, 7 and 6 have; those at nodes 5 to 2 and the root
/// haven't.
#[test]
fn a_ring_that_has_voted_in_part(rt: HostRuntime) -> Result<(), Fail> {
    let right = closed(rt.alloc(), "flush 30\n", "aaaaaccca")?;
    assert!(rt; right == 9, "{right}");
    Ok(())
}

/// All have voted, and the root at node 1 hasn't decided.
#[test]
fn a_ring_that_has_voted(rt: HostRuntime) -> Result<(), Fail> {
    let right = closed(rt.alloc(), "flush 34\n", "accccccca")?;
    assert!(rt; right == 9, "{right}");
    Ok(())
}

/// The root has decided, and nobody has heard of it.
#[test]
fn a_ring_that_has_decided(rt: HostRuntime) -> Result<(), Fail> {
    let right = closed(rt.alloc(), "flush 35\n", "ccccccccc")?;
    assert!(rt; right == 9, "{right}");
    Ok(())
}

/// The subordinates at nodes 2 to 5 have heard of it; those behind them and the participant haven't.
#[test]
fn a_ring_that_has_heard_in_part(rt: HostRuntime) -> Result<(), Fail> {
    let right = closed(rt.alloc(), "flush 40\n", "ccccccccc")?;
    assert!(rt; right == 9, "{right}");
    Ok(())
}
