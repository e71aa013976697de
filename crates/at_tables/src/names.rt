//! The name of a state, and the text of an act.

ghost use Rattle.std.specs.Prelude.{◌≡◌, IfSome, Some};
ghost use Rattle.at_tables.specs.Texts.{state_name, act_text};

use crate::cells::{Act, State};

impl State {
    /// The name of the state.
    pub fn name(self) -> &'static str
        ensures { result.now ≡ state_name self }
    {
        match self {
            State::None => "None",
            State::Registering => "Registering",
            State::Active => "Active",
            State::Preparing => "Preparing",
            State::Prepared => "Prepared",
            State::PreparedSuccess => "PreparedSuccess",
            State::Committing => "Committing",
            State::Aborting => "Aborting",
            State::Completing => "Completing",
            State::Done => "Done",
        }
    }

    /// The state of that name. None exactly where no state has it.
    pub fn from_name(name: &str) -> Option<State>
        ensures named { IfSome result (λ state. name.now ≡ state_name state) }
        ensures every { (state : State) → name.now ≡ state_name state → result ≡ Some state }
    {
        match name {
            "None" => Some(State::None),
            "Registering" => Some(State::Registering),
            "Active" => Some(State::Active),
            "Preparing" => Some(State::Preparing),
            "Prepared" => Some(State::Prepared),
            "PreparedSuccess" => Some(State::PreparedSuccess),
            "Committing" => Some(State::Committing),
            "Aborting" => Some(State::Aborting),
            "Completing" => Some(State::Completing),
            "Done" => Some(State::Done),
            _ => None,
        }
    }
}

impl Act {
    /// The act as `cell` prints it.
    pub fn text(self) -> &'static str
        ensures { result.now ≡ act_text self }
    {
        match self {
            Act::Ignore => "ignore",
            Act::SendPrepared => "send Prepared",
            Act::SendCommit => "send Commit",
            Act::SendRollback => "send Rollback",
            Act::SendCommitted => "send Committed",
            Act::SendAborted => "send Aborted",
            Act::FaultUnknownTransaction => "fault UnknownTransaction",
            Act::FaultInvalidState => "fault InvalidState",
            Act::FaultInvalidStateAndAbort => "fault InvalidState +abort",
            Act::Leave => "leave",
            Act::LeaveAndAbort => "leave +abort",
            Act::Vote => "vote",
            Act::Gather => "gather",
            Act::Commit => "commit",
            Act::AbortAndSendAborted => "abort send Aborted",
            Act::RecordAndSendAborted => "record send Aborted",
            Act::Complete => "complete",
            Act::TellCommitted => "told committed",
            Act::TellAborted => "told aborted",
        }
    }
}
