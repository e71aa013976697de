//! Three nodes that post to one another: commits, participants in doubt, stops, and clocks that go back.

use crate::net::{Act, Net, Row};
use site_memory::arm::Choice;
use std::alloc::{AllocError, Global};
use std::test::Fail;

/// Node 1 has an activity at node 2, in which node 3 works.
pub const BEGUN: &[Row] = &[
    (Act::Begin, 1, 0, "", 1),
    // CreateCoordinationContext and its answer
    (Act::Post(1, 1), 2, 202, "", 1),
    (Act::Post(2, 1), 1, 202, "", 2),
    // Register for Completion and its answer
    (Act::Post(1, 2), 2, 202, "", 2),
    (Act::Post(2, 2), 1, 202, "", 2),
    (Act::Work, 1, 0, "", 3),
    // Work, Register and its answer, WorkDone
    (Act::Post(1, 3), 3, 202, "", 1),
    (Act::Post(3, 1), 2, 202, "", 3),
    (Act::Post(2, 3), 3, 202, "", 2),
    (Act::Post(3, 2), 1, 202, "", 3),
];

/// Node 2 is asked for the commit, and asks node 3 for its vote.
pub const ENDING: &[Row] = &[(Act::Commit, 1, 0, "", 4), (Act::Post(1, 4), 2, 202, "", 4)];

/// Which it gives.
pub const VOTED: &[Row] = &[(Act::Post(2, 4), 3, 202, "", 3)];

/// Prepared, Commit to the participant, Committed to the initiator, Committed of the participant.
pub const COMMITS: &[Row] = &[
    (Act::Post(3, 3), 2, 202, "root committed", 6),
    (Act::Post(2, 5), 3, 202, "leaf committed", 4),
    (Act::Post(2, 6), 1, 202, "told committed", 4),
    (Act::Post(3, 4), 2, 202, "", 6),
];

/// A transaction in which nobody works: its root decides at once, and the decision names no seat.
const ALONE: &[Row] = &[
    (Act::Begin, 1, 0, "", 1),
    (Act::Post(1, 1), 2, 202, "", 1),
    (Act::Post(2, 1), 1, 202, "", 2),
    (Act::Post(1, 2), 2, 202, "", 2),
    (Act::Post(2, 2), 1, 202, "", 2),
    (Act::Commit, 1, 0, "", 3),
    (Act::Post(1, 3), 2, 202, "root committed", 3),
    (Act::Post(2, 3), 1, 202, "told committed", 3),
];

/// The coordinator and the participant go down behind the vote, which is lost. The participant asks once it is up, and hears
/// that nothing was decided.
const ASKS: &[Row] = &[
    (Act::Again(Choice::Drop), 2, 0, "", 4),
    (Act::Again(Choice::Drop), 3, 0, "", 3),
    (Act::Tick(0), 3, 1, "", 4),
    (Act::Post(3, 4), 2, 202, "", 5),
    (Act::Post(2, 5), 3, 202, "leaf aborted", 5),
    (Act::Post(3, 5), 2, 202, "", 5),
];

/// The sync of the decision's gate fails: nothing is sent, and nothing more is done. Up again it finds the decision, and
/// carries it out. The initiator asks once more, and is told.
const HALTS: &[Row] = &[
    (Act::Fail(4), 2, 0, "", 4),
    (Act::Post(3, 3), 2, 4, "", 4),
    (Act::Begin, 2, 9, "", 4),
    (Act::Again(Choice::Keep), 2, 0, "", 4),
    (Act::Tick(0), 2, 1, "", 5),
    (Act::Post(2, 5), 3, 202, "leaf committed", 4),
    (Act::Post(3, 4), 2, 202, "", 5),
    (Act::Tick(5_000), 1, 1, "", 5),
    (Act::Post(1, 5), 2, 202, "", 6),
    (Act::Post(2, 6), 1, 202, "told committed", 5),
];

/// The same where the crash takes the gate: no decision was made. Both ask once more.
const FORGETS: &[Row] = &[
    (Act::Fail(4), 2, 0, "", 4),
    (Act::Post(3, 3), 2, 4, "", 4),
    (Act::Again(Choice::Drop), 2, 0, "", 4),
    (Act::Tick(0), 2, 1, "", 4),
    (Act::Tick(5_000), 3, 1, "", 4),
    (Act::Post(3, 4), 2, 202, "", 5),
    (Act::Post(2, 5), 3, 202, "leaf aborted", 5),
    (Act::Post(3, 5), 2, 202, "", 5),
    (Act::Tick(5_000), 1, 1, "", 5),
    (Act::Post(1, 5), 2, 202, "", 6),
    (Act::Post(2, 6), 1, 202, "told unknown", 5),
];

/// The first write of the decision's record fails: it certainly isn't there, and the transaction aborts.
const REFUSES: &[Row] = &[
    (Act::Fail(1), 2, 0, "", 4),
    (Act::Post(3, 3), 2, 202, "root aborted", 6),
    (Act::Post(2, 5), 3, 202, "leaf aborted", 4),
    (Act::Post(2, 6), 1, 202, "told aborted", 4),
    (Act::Post(3, 4), 2, 202, "", 6),
];

/// A transaction expires before its decision, and not behind it.
const EXPIRES: &[Row] = &[(Act::Tick(60_000), 2, 1, "root aborted", 6)];

const DECIDES: &[Row] = &[
    (Act::Post(3, 3), 2, 202, "root committed", 6),
    (Act::Tick(60_000), 2, 1, "", 7),
];

/// The clock of node 2 was at 100,000, and goes back.
const BACK: &[Row] = &[
    (Act::Tick(100_000), 2, 1, "", 0),
    (Act::Tick(0), 2, 1, "", 0),
];

/// What is due there is due by the last time seen: Prepare is sent again each 5,000 milliseconds, and the activity, which
/// began at 100,000, expires at 160,000. Then Rollback is sent again, and the transaction forgotten at 220,000.
const ON_TIME: &[Row] = &[
    (Act::Tick(104_999), 2, 1, "", 4),
    (Act::Tick(105_000), 2, 1, "", 5),
    (Act::Tick(0), 2, 1, "", 5),
    (Act::Tick(109_999), 2, 1, "", 5),
    (Act::Tick(110_000), 2, 1, "", 6),
    (Act::Tick(159_999), 2, 1, "", 7),
    (Act::Tick(160_000), 2, 1, "root aborted", 9),
    (Act::Tick(0), 2, 1, "", 9),
    (Act::Tick(164_999), 2, 1, "", 9),
    (Act::Tick(165_000), 2, 1, "", 10),
    (Act::Tick(219_999), 2, 1, "", 11),
    (Act::Tick(220_000), 2, 1, "", 11),
    (Act::Tick(300_000), 2, 1, "", 11),
];

/// What came due by a time that a request of the program saw is due, though the clock went back since; what was begun then
/// lasts from that time on. A Create isn't sent again.
const SEEN: &[Row] = &[
    (Act::Begin, 1, 0, "", 1),
    (Act::Clock(60_000), 1, 0, "", 1),
    (Act::Begin, 1, 0, "", 2),
    (Act::Tick(0), 1, 1, "told unknown", 2),
    (Act::Tick(119_999), 1, 1, "", 2),
    (Act::Tick(120_000), 1, 1, "told unknown", 2),
];

/// A mark of version 2, and the first Start.
const FRESH: &[u8] =
    b"\x01\x00\x00\x00\x05\x0b\x00\x00\x00\x00\x01\x00\x00\x00\x05\x01\x00\x00\x00\x01\x00";

/// Behind them a second Start.
const AGAIN: &[u8] =
    b"\x01\x00\x00\x00\x05\x0b\x00\x00\x00\x00\x01\x00\x00\x00\x05\x01\x00\x00\x00\x01\x01\x00\x00\x00\x05\x01\x00\x00\x00\x02\x00";

/// The same over what is left of a record whose gate was never raised: its last 36 bytes, and its closed gate.
const OVER: &[u8] =
    b"\x01\x00\x00\x00\x05\x0b\x00\x00\x00\x00\x01\x00\x00\x00\x05\x01\x00\x00\x00\x01\x01\x00\x00\x00\x05\x01\x00\x00\x00\x02\x00\x00\x00\x01\x00\x01\x00\x01\x00\x19http://n3.example/p/d/1-1\x00\x00\x00";

/// Behind the first Start a decision with no seat.
const DECIDED_ALONE: &[u8] =
    b"\x01\x00\x00\x00\x05\x0b\x00\x00\x00\x00\x01\x00\x00\x00\x05\x01\x00\x00\x00\x01\x01\x00\x00\x00\x0b\x06\x00\x00\x00\x01\x00\x00\x00\x01\x00\x00\x00";

/// Behind the first Start the decision with its one seat.
const DECIDED: &[u8] =
    b"\x01\x00\x00\x00\x05\x0b\x00\x00\x00\x00\x01\x00\x00\x00\x05\x01\x00\x00\x00\x01\x01\x00\x00\x00\x2a\x06\x00\x00\x00\x01\x00\x00\x00\x01\x00\x01\x00\x01\x00\x19http://n3.example/p/d/1-1\x00\x00\x00";

/// And its end.
pub const ENDED: &[u8] =
    b"\x01\x00\x00\x00\x05\x0b\x00\x00\x00\x00\x01\x00\x00\x00\x05\x01\x00\x00\x00\x01\x01\x00\x00\x00\x2a\x06\x00\x00\x00\x01\x00\x00\x00\x01\x00\x01\x00\x01\x00\x19http://n3.example/p/d/1-1\x00\x00\x01\x00\x00\x00\x09\x08\x00\x00\x00\x01\x00\x00\x00\x01\x00";

/// The same with a second Start behind the decision.
const CARRIED_OUT: &[u8] =
    b"\x01\x00\x00\x00\x05\x0b\x00\x00\x00\x00\x01\x00\x00\x00\x05\x01\x00\x00\x00\x01\x01\x00\x00\x00\x2a\x06\x00\x00\x00\x01\x00\x00\x00\x01\x00\x01\x00\x01\x00\x19http://n3.example/p/d/1-1\x00\x00\x01\x00\x00\x00\x05\x01\x00\x00\x00\x02\x01\x00\x00\x00\x09\x08\x00\x00\x00\x01\x00\x00\x00\x01\x00";

/// Behind the first Start the vote of the participant 1-1, with its coordinator, key and value.
const PREPARED: &[u8] =
    b"\x01\x00\x00\x00\x05\x0b\x00\x00\x00\x00\x01\x00\x00\x00\x05\x01\x00\x00\x00\x01\x01\x00\x00\x00\x2e\x02\x00\x00\x00\x01\x00\x00\x00\x01\x00\x1bhttp://n2.example/c/d/1-1/1\x00\x00\x00\x01k\x00\x01v\x00";

/// And its commit.
pub const COMMITTED: &[u8] =
    b"\x01\x00\x00\x00\x05\x0b\x00\x00\x00\x00\x01\x00\x00\x00\x05\x01\x00\x00\x00\x01\x01\x00\x00\x00\x2e\x02\x00\x00\x00\x01\x00\x00\x00\x01\x00\x1bhttp://n2.example/c/d/1-1/1\x00\x00\x00\x01k\x00\x01v\x01\x00\x00\x00\x09\x03\x00\x00\x00\x01\x00\x00\x00\x01\x00";

/// Its abort.
const ABORTED: &[u8] =
    b"\x01\x00\x00\x00\x05\x0b\x00\x00\x00\x00\x01\x00\x00\x00\x05\x01\x00\x00\x00\x01\x01\x00\x00\x00\x2e\x02\x00\x00\x00\x01\x00\x00\x00\x01\x00\x1bhttp://n2.example/c/d/1-1/1\x00\x00\x00\x01k\x00\x01v\x01\x00\x00\x00\x09\x04\x00\x00\x00\x01\x00\x00\x00\x01\x00";

/// Its abort behind a second Start.
const ASKED: &[u8] =
    b"\x01\x00\x00\x00\x05\x0b\x00\x00\x00\x00\x01\x00\x00\x00\x05\x01\x00\x00\x00\x01\x01\x00\x00\x00\x2e\x02\x00\x00\x00\x01\x00\x00\x00\x01\x00\x1bhttp://n2.example/c/d/1-1/1\x00\x00\x00\x01k\x00\x01v\x01\x00\x00\x00\x05\x01\x00\x00\x00\x02\x01\x00\x00\x00\x09\x04\x00\x00\x00\x01\x00\x00\x00\x01\x00";

/// What is played, its parts, and the journals of nodes 2 and 3 behind it. Node 1 records nothing.
const PLAYS: &[(&str, &[&[Row]], &[u8], &[u8])] = &[
    (
        "commits",
        &[BEGUN, ENDING, VOTED, COMMITS],
        ENDED,
        COMMITTED,
    ),
    ("commits alone", &[ALONE], DECIDED_ALONE, FRESH),
    ("asks", &[BEGUN, ENDING, VOTED, ASKS], AGAIN, ASKED),
    (
        "halts",
        &[BEGUN, ENDING, VOTED, HALTS],
        CARRIED_OUT,
        COMMITTED,
    ),
    ("forgets", &[BEGUN, ENDING, VOTED, FORGETS], OVER, ABORTED),
    ("refuses", &[BEGUN, ENDING, VOTED, REFUSES], FRESH, ABORTED),
    (
        "decides",
        &[BEGUN, ENDING, VOTED, DECIDES],
        DECIDED,
        PREPARED,
    ),
    ("expires", &[BEGUN, ENDING, EXPIRES], FRESH, FRESH),
    ("on time", &[BACK, BEGUN, ENDING, ON_TIME], FRESH, FRESH),
    ("seen", &[SEEN], FRESH, FRESH),
];

/// The part and the row of it that doesn't go as it says, from 0, or how many parts there are.
fn plays(alloc: Global, net: &mut Net, parts: &[&[Row]]) -> Result<(usize, usize), AllocError> {
    for part in 0..parts.len() {
        let rows = parts[part];
        let done = net.plays(alloc, rows)?;
        if done < rows.len() {
            return Ok((part, done));
        }
    }
    Ok((parts.len(), 0))
}

pub fn leaves(net: &Net, second: &[u8], third: &[u8]) -> bool {
    net.holds(1, FRESH) && net.holds(2, second) && net.holds(3, third)
}

/// The same, and whether the journals are these.
fn played(
    alloc: Global,
    parts: &[&[Row]],
    second: &[u8],
    third: &[u8],
) -> Result<(usize, usize, bool), AllocError> {
    let mut net = Net::new(alloc)?;
    let (part, row) = plays(alloc, &mut net, parts)?;
    Ok((part, row, leaves(&net, second, third)))
}

#[test]
fn nodes_play_their_parts(rt: HostRuntime) -> Result<(), Fail> {
    for (name, parts, second, third) in PLAYS {
        let (part, row, left) = played(rt.alloc(), parts, second, third)?;
        assert!(rt;
            part == parts.len() && left,
            "{name}: part {part}, row {row}, journals {left}"
        );
    }
    Ok(())
}
