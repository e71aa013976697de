//! Laws alone: what a cell of the tables says is next is the state of the item that the rules move
//! (WS-AtomicTransaction 1.2, section 10).

ghost use Rattle.cell_laws.specs.NextStates.{ActivitiesGoOn, CompletionsGoOn, LeavesGoOn, LinksGoOn, SeatsGoOn};

/// A leaf behind a message of its coordinator.
#[tactic(auto, using(crate::proofs::Leaves::leaves_go_on))]
pub fn leaves_go_by_cells()
    ensures { LeavesGoOn }
{}

/// An initiator's activity behind a message of the coordinator.
#[tactic(auto, using(crate::proofs::Activities::activities_go_on))]
pub fn activities_go_by_cells()
    ensures { ActivitiesGoOn }
{}

/// A coordinator's seat behind a message of its participant.
#[tactic(auto, using(crate::proofs::Seats::seats_go_on))]
pub fn seats_go_by_cells()
    ensures { SeatsGoOn }
{}

/// A completion seat behind a message of its initiator.
#[tactic(auto, using(crate::proofs::Completions::completions_go_on))]
pub fn completions_go_by_cells()
    ensures { CompletionsGoOn }
{}

/// A subordinate's link behind a message of its superior.
#[tactic(auto, using(crate::proofs::Links::links_go_on))]
pub fn links_go_by_cells()
    ensures { LinksGoOn }
{}
