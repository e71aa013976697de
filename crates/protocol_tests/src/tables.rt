//! Every cell of the four tables, written out by hand.

use at_base::notice::{Kind, Notice};
use at_tables::cells::{
    Cell, State, completion_cell, coordinator_cell, initiator_cell, participant_cell,
};
use std::alloc::{AllocError, Global};
use std::test::Fail;

const COORDINATOR: &str = "\
None, durable, Prepared: send Rollback -> None\n\
None, durable, ReadOnly: ignore -> None\n\
None, durable, Aborted: ignore -> None\n\
None, durable, Committed: ignore -> None\n\
None, volatile, Prepared: fault UnknownTransaction -> None\n\
None, volatile, ReadOnly: ignore -> None\n\
None, volatile, Aborted: ignore -> None\n\
None, volatile, Committed: ignore -> None\n\
Active, Prepared: fault InvalidState +abort -> Aborting\n\
Active, ReadOnly: leave -> None\n\
Active, Aborted: leave +abort -> None\n\
Active, Committed: fault InvalidState +abort -> Aborting\n\
Preparing, Prepared: vote -> Prepared\n\
Preparing, ReadOnly: leave -> None\n\
Preparing, Aborted: leave +abort -> None\n\
Preparing, Committed: fault InvalidState +abort -> Aborting\n\
Prepared, Prepared: ignore -> Prepared\n\
Prepared, ReadOnly: fault InvalidState -> Prepared\n\
Prepared, Aborted: fault InvalidState -> Prepared\n\
Prepared, Committed: fault InvalidState -> Prepared\n\
PreparedSuccess, Prepared: ignore -> PreparedSuccess\n\
PreparedSuccess, ReadOnly: fault InvalidState -> PreparedSuccess\n\
PreparedSuccess, Aborted: fault InvalidState -> PreparedSuccess\n\
PreparedSuccess, Committed: fault InvalidState -> PreparedSuccess\n\
Committing, Prepared: send Commit -> Committing\n\
Committing, ReadOnly: fault InvalidState -> Committing\n\
Committing, Aborted: fault InvalidState -> Committing\n\
Committing, Committed: leave -> None\n\
Aborting, Prepared: send Rollback -> Aborting\n\
Aborting, ReadOnly: leave -> None\n\
Aborting, Aborted: leave -> None\n\
Aborting, Committed: fault InvalidState -> Aborting\n\
";

const PARTICIPANT: &str = "\
None, Prepare: send Aborted -> None\n\
None, Commit: send Committed -> None\n\
None, Rollback: send Aborted -> None\n\
Registering, Prepare: ignore -> Registering\n\
Registering, Commit: fault InvalidState +abort -> None\n\
Registering, Rollback: abort send Aborted -> None\n\
Active, Prepare: gather -> Preparing\n\
Active, Commit: fault InvalidState +abort -> None\n\
Active, Rollback: abort send Aborted -> None\n\
Preparing, Prepare: ignore -> Preparing\n\
Preparing, Commit: fault InvalidState +abort -> None\n\
Preparing, Rollback: abort send Aborted -> None\n\
Prepared, Prepare: ignore -> Prepared\n\
Prepared, Commit: fault InvalidState -> Prepared\n\
Prepared, Rollback: record send Aborted -> None\n\
PreparedSuccess, Prepare: send Prepared -> PreparedSuccess\n\
PreparedSuccess, Commit: commit -> Committing\n\
PreparedSuccess, Rollback: record send Aborted -> None\n\
Committing, Prepare: ignore -> Committing\n\
Committing, Commit: ignore -> Committing\n\
Committing, Rollback: fault InvalidState -> Committing\n\
";

const COMPLETION: &str = "\
None, Commit: fault UnknownTransaction -> None\n\
None, Rollback: fault UnknownTransaction -> None\n\
Active, Commit: complete -> Completing\n\
Active, Rollback: abort send Aborted -> None\n\
Completing, Commit: ignore -> Completing\n\
Completing, Rollback: fault InvalidState -> Completing\n\
Done, Commit: send Committed -> Done\n\
Done, Rollback: fault InvalidState -> Done\n\
";

const INITIATOR: &str = "\
None, Committed: ignore -> None\n\
None, Aborted: ignore -> None\n\
Active, Committed: fault InvalidState -> Active\n\
Active, Aborted: told aborted -> None\n\
Completing, Committed: told committed -> None\n\
Completing, Aborted: told aborted -> None\n\
";

const STATES: &[State] = &[
    State::None,
    State::Registering,
    State::Active,
    State::Preparing,
    State::Prepared,
    State::PreparedSuccess,
    State::Committing,
    State::Aborting,
    State::Completing,
    State::Done,
];

const NOTICES: &[Notice] = &[
    Notice::Prepare,
    Notice::Commit,
    Notice::Rollback,
    Notice::Prepared,
    Notice::ReadOnly,
    Notice::Aborted,
    Notice::Committed,
];

/// What the table's line of this head has, empty where there is no such line.
fn line_of(table: &'static str, head: &str) -> &'static str {
    for line in table.lines() {
        if let Some(rest) = line.strip_prefix(head) {
            return rest;
        }
    }
    ""
}

/// A cell as a line has it, empty where there is none.
fn cell_text(alloc: Global, cell: Option<Cell>) -> Result<String, AllocError> {
    match cell {
        Some(cell) => format!(in alloc; "{} -> {}", cell.act.text(), cell.next.name()),
        None => Ok(String::new(alloc)),
    }
}

/// Whether a cell is the one that the table's line of this row and notice has; none where there is no such line.
fn stands(
    alloc: Global,
    table: &'static str,
    row: &str,
    notice: Notice,
    cell: Option<Cell>,
) -> Result<bool, AllocError> {
    let head = format!(in alloc; "{row}, {notice:?}: ")?;
    let text = cell_text(alloc, cell)?;
    Ok(text.as_str() == line_of(table, head.as_str()))
}

fn seat_row(kind: Kind, state: State) -> &'static str {
    match (state, kind) {
        (State::None, Kind::Durable) => "None, durable",
        (State::None, Kind::Volatile) => "None, volatile",
        _ => state.name(),
    }
}

fn seat_stands(
    alloc: Global,
    kind: Kind,
    state: State,
    notice: Notice,
) -> Result<bool, AllocError> {
    let cell = coordinator_cell(kind, state, notice);
    let coordinator = stands(alloc, COORDINATOR, seat_row(kind, state), notice, cell)?;
    let cell = participant_cell(kind, state, notice);
    let participant = stands(alloc, PARTICIPANT, state.name(), notice, cell)?;
    Ok(coordinator && participant)
}

fn root_stands(alloc: Global, state: State, notice: Notice) -> Result<bool, AllocError> {
    let cell = completion_cell(state, notice);
    let completion = stands(alloc, COMPLETION, state.name(), notice, cell)?;
    let cell = initiator_cell(state, notice);
    let initiator = stands(alloc, INITIATOR, state.name(), notice, cell)?;
    Ok(completion && initiator)
}

/// Whether the cells of a state and a notice are those of the four tables.
fn all_stand(alloc: Global, state: State, notice: Notice) -> Result<bool, AllocError> {
    let durable = seat_stands(alloc, Kind::Durable, state, notice)?;
    let volatile = seat_stands(alloc, Kind::Volatile, state, notice)?;
    let root = root_stands(alloc, state, notice)?;
    Ok(durable && volatile && root)
}

#[test]
fn every_cell(rt: HostRuntime) -> Result<(), Fail> {
    for state in STATES {
        for notice in NOTICES {
            let right = all_stand(rt.alloc(), *state, *notice)?;
            assert!(rt; right, "at {} and {notice:?}", state.name());
        }
    }
    Ok(())
}
