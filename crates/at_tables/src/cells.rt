//! The four tables, looked up.

ghost use Rattle.std.specs.Prelude.{◌≡◌};
ghost use Rattle.at_tables.specs.Tables.{coordinator_of, participant_of, completion_of, initiator_of};

use at_base::notice::{Kind, Notice};

/// A state of a seat, a participant, a completion seat or an activity.
///
/// Two are this project's additions: Registering, of a participant that has sent Register and waits for its answer, and
/// Done, of a completion seat whose transaction committed.
#[derive(Clone, Copy, Debug, PartialEq, Eq)]
pub enum State {
    None,
    Registering,
    Active,
    Preparing,
    Prepared,
    PreparedSuccess,
    Committing,
    Aborting,
    Completing,
    Done,
}

/// What a cell asks for beside the next state.
#[derive(Clone, Copy, Debug, PartialEq, Eq)]
pub enum Act {
    /// Nothing.
    Ignore,
    SendPrepared,
    SendCommit,
    SendRollback,
    SendCommitted,
    SendAborted,
    /// Posts the fault UnknownTransaction.
    FaultUnknownTransaction,
    /// Posts the fault InvalidState.
    FaultInvalidState,
    /// Posts the fault InvalidState and aborts the transaction or ends the leaf.
    FaultInvalidStateAndAbort,
    /// The participant leaves its seat.
    Leave,
    /// The participant leaves its seat, and the transaction aborts.
    LeaveAndAbort,
    /// Notes the vote Prepared.
    Vote,
    /// Asks a leaf's own vote, or the seats of a subordinate.
    Gather,
    /// Commits what was prepared.
    Commit,
    /// Aborts, and answers Aborted.
    AbortAndSendAborted,
    /// Records that what was prepared is rolled back, and answers Aborted.
    RecordAndSendAborted,
    /// Begins to complete the transaction.
    Complete,
    /// Tells the application that the transaction committed.
    TellCommitted,
    /// Tells the application that the transaction aborted.
    TellAborted,
}

/// A cell of a table.
#[derive(Clone, Copy, Debug, PartialEq, Eq)]
pub struct Cell {
    pub act: Act,
    pub next: State,
}

/// The cell of a coordinator's seat, at a participant's notification. None where the table has no such state or message.
pub fn coordinator_cell(kind: Kind, state: State, notice: Notice) -> Option<Cell>
    ensures { result ≡ coordinator_of kind state notice }
{
    let (act, next) = match (notice, state) {
        (Notice::Prepared, State::None) => match kind {
            Kind::Durable => (Act::SendRollback, State::None),
            Kind::Volatile => (Act::FaultUnknownTransaction, State::None),
        },
        (Notice::ReadOnly | Notice::Aborted | Notice::Committed, State::None) => (
            Act::Ignore,
            State::None,
        ),
        (Notice::Prepared, State::Active) => (Act::FaultInvalidStateAndAbort, State::Aborting),
        (Notice::Committed, State::Active | State::Preparing) => (
            Act::FaultInvalidStateAndAbort,
            State::Aborting,
        ),
        (Notice::Aborted, State::Active | State::Preparing) => (Act::LeaveAndAbort, State::None),
        (Notice::Prepared, State::Preparing) => (Act::Vote, State::Prepared),
        (Notice::Prepared, State::Prepared | State::PreparedSuccess) => (Act::Ignore, state),
        (Notice::Prepared, State::Committing) => (Act::SendCommit, State::Committing),
        (Notice::Prepared, State::Aborting) => (Act::SendRollback, State::Aborting),
        (Notice::ReadOnly, State::Active | State::Preparing | State::Aborting) => (
            Act::Leave,
            State::None,
        ),
        (Notice::Aborted, State::Aborting) => (Act::Leave, State::None),
        (Notice::Committed, State::Committing) => (Act::Leave, State::None),
        (
            Notice::ReadOnly | Notice::Aborted | Notice::Committed,
            State::Prepared | State::PreparedSuccess,
        ) => { (Act::FaultInvalidState, state) }
        (Notice::ReadOnly | Notice::Aborted, State::Committing) => (
            Act::FaultInvalidState,
            State::Committing,
        ),
        (Notice::Committed, State::Aborting) => (Act::FaultInvalidState, State::Aborting),
        _ => return None,
    };
    Some(Cell { act, next })
}

/// The cell of a participant, a leaf or a subordinate's link, at its coordinator's notification. None where the table
/// has no such state or message. Both kinds have the same cells.
pub fn participant_cell(kind: Kind, state: State, notice: Notice) -> Option<Cell>
    ensures { result ≡ participant_of kind state notice }
{
    let (act, next) = match (notice, state) {
        (Notice::Prepare | Notice::Rollback, State::None) => (Act::SendAborted, State::None),
        (Notice::Commit, State::None) => (Act::SendCommitted, State::None),
        (
            Notice::Prepare,
            State::Registering | State::Preparing | State::Prepared | State::Committing,
        ) => { (Act::Ignore, state) }
        (Notice::Prepare, State::Active) => (Act::Gather, State::Preparing),
        (Notice::Prepare, State::PreparedSuccess) => (Act::SendPrepared, State::PreparedSuccess),
        (Notice::Commit, State::Registering | State::Active | State::Preparing) => {
            (Act::FaultInvalidStateAndAbort, State::None)
        }
        (Notice::Commit, State::Prepared) => (Act::FaultInvalidState, State::Prepared),
        (Notice::Commit, State::PreparedSuccess) => (Act::Commit, State::Committing),
        (Notice::Commit, State::Committing) => (Act::Ignore, State::Committing),
        (Notice::Rollback, State::Registering | State::Active | State::Preparing) => {
            (Act::AbortAndSendAborted, State::None)
        }
        (Notice::Rollback, State::Prepared | State::PreparedSuccess) => (
            Act::RecordAndSendAborted,
            State::None,
        ),
        (Notice::Rollback, State::Committing) => (Act::FaultInvalidState, State::Committing),
        _ => return None,
    };
    Some(Cell { act, next })
}

/// The cell of the completion seat at the coordinator, at the initiator's notification. None where the table has no such
/// state or message.
pub fn completion_cell(state: State, notice: Notice) -> Option<Cell>
    ensures { result ≡ completion_of state notice }
{
    let (act, next) = match (notice, state) {
        (Notice::Commit | Notice::Rollback, State::None) => (
            Act::FaultUnknownTransaction,
            State::None,
        ),
        (Notice::Commit, State::Active) => (Act::Complete, State::Completing),
        (Notice::Commit, State::Completing) => (Act::Ignore, State::Completing),
        (Notice::Rollback, State::Active) => (Act::AbortAndSendAborted, State::None),
        (Notice::Rollback, State::Completing) => (Act::FaultInvalidState, State::Completing),
        (Notice::Commit, State::Done) => (Act::SendCommitted, State::Done),
        (Notice::Rollback, State::Done) => (Act::FaultInvalidState, State::Done),
        _ => return None,
    };
    Some(Cell { act, next })
}

/// The cell of an initiator's activity, at the coordinator's notification. None where the table has no such state or
/// message.
pub fn initiator_cell(state: State, notice: Notice) -> Option<Cell>
    ensures { result ≡ initiator_of state notice }
{
    let (act, next) = match (notice, state) {
        (Notice::Committed | Notice::Aborted, State::None) => (Act::Ignore, State::None),
        (Notice::Committed, State::Active) => (Act::FaultInvalidState, State::Active),
        (Notice::Committed, State::Completing) => (Act::TellCommitted, State::None),
        (Notice::Aborted, State::Active | State::Completing) => (Act::TellAborted, State::None),
        _ => return None,
    };
    Some(Cell { act, next })
}
