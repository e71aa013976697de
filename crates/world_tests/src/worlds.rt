//! What a world shows of its nodes, after steps and after a run.

use crate::script::played;
use at_base::event::Local;
use at_base::id::Id;
use completion_at::requests::Refusal;
use std::alloc::{AllocError, Global};
use std::test::Fail;
use world_laws::event::{Fates, Input, WorldEvent};
use world_laws::laws::changes_by_moves;
use world_laws::world::{Stepped, World, run_world};

fn up(node: u8) -> WorldEvent {
    WorldEvent::Up {
        node,
        landed: true,
        stop: false,
    }
}

fn tick(alloc: Global, node: u8, ms: u32) -> WorldEvent {
    WorldEvent::Turn {
        node,
        input: Input::Tick(ms),
        fates: Fates::from_vec(Vec::new(alloc)),
        until: None,
    }
}

/// What a world of two nodes shows, of which one is up and its clock went on.
fn shown(alloc: Global) -> Result<bool, AllocError> {
    changes_by_moves();
    let world = World::new(alloc, 2)?;
    let Stepped {
        world,
        steps: _steps,
        lost: _lost,
        left: _left,
    } = world.step(alloc, up(1))?;
    let Stepped {
        world,
        steps,
        lost,
        left: _left,
    } = world.step(alloc, tick(alloc, 1, 5000))?;
    let unknown = Local::Commit {
        activity: Id::new(1, 1),
    };
    let nodes = world.count() == 2 && world.clock(1) == Some(5000) && world.clock(3).is_none();
    let books = world.incarnation(1) == Some(1) && world.incarnation(2).is_none();
    let refused = world.refuses(1, &unknown) == Some(Refusal::Stale);
    let empty = world.posted(1).is_none() && world.messages() == 0 && world.effects().is_empty();
    let none = world.all_posted().is_empty();
    let one = steps.as_slice().len() == 1 && world.events().len() == 2;
    let up = lost.as_slice().is_empty() && world.book(1).is_some() && world.book(2).is_none();
    Ok(nodes && books && refused && empty && none && one && up)
}

#[test]
fn lenders(rt: HostRuntime) -> Result<(), Fail> {
    let right = shown(rt.alloc())?;
    assert!(rt; right);
    Ok(())
}

/// What a run of the same events shows.
fn ran(alloc: Global) -> Result<bool, AllocError> {
    let events = [up(1), tick(alloc, 1, 5000)];
    let world = run_world(alloc, 2, &events)?;
    let nodes = world.count() == 2 && world.clock(1) == Some(5000);
    let books = world.incarnation(1) == Some(1) && world.incarnation(2).is_none();
    Ok(nodes && books && world.events().len() == 2)
}

#[test]
fn runs(rt: HostRuntime) -> Result<(), Fail> {
    let right = ran(rt.alloc())?;
    assert!(rt; right);
    Ok(())
}

/// One durable leaf under a transaction that waits for its commit.
const BEGUN: &str = "\
up 1
up 2
up 3
begin 1 2 60000
flush
work 1 1-1 3 d prepared
flush
";

/// What that gives.
const OPENING: &str = "\
msg 1 1>2 CreateCoordinationContext /activation
msg 2 2>1 CreateCoordinationContextResponse /i/1-1
msg 3 1>2 Register /registration/1-1
msg 4 2>1 RegisterResponse /i/1-1
msg 5 1>3 Work /work
msg 6 3>2 Register /registration/1-1
msg 7 2>3 RegisterResponse /p/d/1-1
msg 8 3>1 WorkDone /i/1-1
";

/// What happens then, and what that gives.
const ROWS: &[(&str, &str)] = &[
    // Nothing fails.
    (
        "\
commit 1 1-1
flush
",
        "\
msg 9 1>2 Commit /completion/1-1
msg 10 2>3 Prepare /p/d/1-1
msg 11 3>2 Prepared /c/d/1-1/1
root 2 1-1 committed
msg 12 2>3 Commit /p/d/1-1
msg 13 2>1 Committed /i/1-1
leaf 3 1-1 d committed
msg 14 3>2 Committed /c/d/1-1/1
told 1 1-1 committed
",
    ),
    // The leaf's node goes down before it is asked, and a new incarnation takes more work.
    (
        "\
crash 3
up 3
work 1 1-1 3 d prepared
flush
commit 1 1-1
flush
",
        "\
leaf 3 1-1 d lost
msg 9 1>3 Work /work
msg 10 3>2 Register /registration/1-1
msg 11 2>3 RegisterResponse /p/d/2-1
msg 12 3>1 WorkDone /i/1-1
msg 13 1>2 Commit /completion/1-1
msg 14 2>3 Prepare /p/d/1-1
msg 15 2>3 Prepare /p/d/2-1
msg 16 3>2 Aborted /c/d/1-1/1
msg 17 3>2 Prepared /c/d/1-1/2
root 2 1-1 aborted
msg 18 2>3 Rollback /p/d/2-1
msg 19 2>1 Aborted /i/1-1
msg 20 2>3 Rollback /p/d/2-1
leaf 3 2-1 d aborted
msg 21 3>2 Aborted /c/d/1-1/2
told 1 1-1 aborted
msg 22 3>2 Aborted /c/d/1-1/2
",
    ),
    // The leaf's node stops at the fate of its vote's record, which is absent.
    (
        "\
commit 1 1-1
deliver 9
deliver 10 n 1
up 3
tick 2 5000
flush
",
        "\
msg 9 1>2 Commit /completion/1-1
msg 10 2>3 Prepare /p/d/1-1
leaf 3 1-1 d lost
msg 11 2>3 Prepare /p/d/1-1
msg 12 3>2 Aborted /c/d/1-1/1
root 2 1-1 aborted
msg 13 2>1 Aborted /i/1-1
told 1 1-1 aborted
",
    ),
    // The record of the decision is refused.
    (
        "\
commit 1 1-1
deliver 9
deliver 10
deliver 11 n
flush
",
        "\
msg 9 1>2 Commit /completion/1-1
msg 10 2>3 Prepare /p/d/1-1
msg 11 3>2 Prepared /c/d/1-1/1
root 2 1-1 aborted
msg 12 2>3 Rollback /p/d/1-1
msg 13 2>1 Aborted /i/1-1
leaf 3 1-1 d aborted
msg 14 3>2 Aborted /c/d/1-1/1
told 1 1-1 aborted
",
    ),
    // The coordinator stops behind its decision's record, and sends nothing before it is up again.
    (
        "\
commit 1 1-1
deliver 9
deliver 10
deliver 11 y 1
up 2
tick 2 0
flush
tick 1 5000
flush
",
        "\
msg 9 1>2 Commit /completion/1-1
msg 10 2>3 Prepare /p/d/1-1
msg 11 3>2 Prepared /c/d/1-1/1
root 2 1-1 committed
msg 12 2>3 Commit /p/d/1-1
leaf 3 1-1 d committed
msg 13 3>2 Committed /c/d/1-1/1
msg 14 1>2 Commit /completion/1-1
msg 15 2>1 Committed /i/1-1
told 1 1-1 committed
",
    ),
    // A participant that has voted crashes, and the rounds that bring the world to rest end its doubt.
    (
        "\
commit 1 1-1
deliver 9
deliver 10
deliver 11
crash 3
settle
",
        "\
msg 9 1>2 Commit /completion/1-1
msg 10 2>3 Prepare /p/d/1-1
msg 11 3>2 Prepared /c/d/1-1/1
root 2 1-1 committed
msg 12 2>3 Commit /p/d/1-1
msg 13 2>1 Committed /i/1-1
msg 14 1>2 Commit /completion/1-1
msg 15 2>3 Commit /p/d/1-1
msg 16 3>2 Prepared /c/d/1-1/1
msg 17 2>1 Committed /i/1-1
leaf 3 1-1 d committed
msg 18 3>2 Committed /c/d/1-1/1
msg 19 2>3 Commit /p/d/1-1
told 1 1-1 committed
msg 20 3>2 Committed /c/d/1-1/1
",
    ),
    // A node that isn't let start stays down, a refused send isn't posted, and a coordinator that goes down undecided
    // loses its root.
    (
        "\
commit 1 1-1
crash 3
up 3 refused
up 3 stop
raw 3
deliver 9 yn
crash 2
",
        "\
msg 9 1>2 Commit /completion/1-1
leaf 3 1-1 d lost
root 2 1-1 lost
",
    ),
];

/// Whether each row gives what it has to, and the run of its events the same world.
fn plays(alloc: Global, row: &(&str, &str)) -> Result<bool, AllocError> {
    let script = played(alloc, 3, BEGUN)?;
    let script = script.go_on(alloc, row.0)?;
    let again = script.runs_again(alloc)?;
    Ok(again && script.gave(OPENING, row.1))
}

#[test]
fn what_fails(rt: HostRuntime) -> Result<(), Fail> {
    for row in ROWS {
        let right = plays(rt.alloc(), row)?;
        assert!(rt; right, "{}", row.0);
    }
    Ok(())
}

/// A leaf under three subordinates, one under the other; each node goes down behind its vote.
const CHAIN: &str = "\
up 1
up 2
up 3
up 4
up 5
up 6
begin 1 2 60000
flush
interpose 1 1-1 3
flush
interpose 1 1-2 4
flush
interpose 1 1-3 5
flush
work 1 1-4 6 d prepared
flush
commit 1 1-1
prepared 6
crash 6
up 6
tick 6 0
prepared 5
crash 5
up 5
tick 5 0
prepared 4
crash 4
up 4
tick 4 0
prepared 3
crash 3
up 3
tick 3 0
flush
";

/// Whether all of them commit.
fn commits(alloc: Global) -> Result<bool, AllocError> {
    let script = played(alloc, 6, CHAIN)?;
    let again = script.runs_again(alloc)?;
    Ok(again && script.committed() == 6 && script.ended() == 6)
}

/// A node alone, and one participant whose activity waits: how many events settle them.
const LONG: &[(u8, &str, usize)] = &[(1, "up 1\n", 8), (3, BEGUN, 24)];

fn settles(alloc: Global, row: &(u8, &str, usize)) -> Result<bool, AllocError> {
    let script = played(alloc, row.0, row.1)?;
    let before = script.happened();
    let settled = script.go_on(alloc, "settle\n")?;
    Ok(settled.happened() == before.saturating_add(row.2))
}

#[test]
fn rounds_are_few(rt: HostRuntime) -> Result<(), Fail> {
    for row in LONG {
        let right = settles(rt.alloc(), row)?;
        assert!(rt; right, "{}", row.1);
    }
    Ok(())
}

#[test]
fn a_chain(rt: HostRuntime) -> Result<(), Fail> {
    let right = commits(rt.alloc())?;
    assert!(rt; right);
    Ok(())
}
