//! Seats and participants.

ghost use Rattle.paired.specs.Partners.{PartnersArePaired};

/// In every run a seat's participant and the coordinator that a participant knows are endpoints of that seat and of that
/// participant, no participant has two seats of a kind, and who is undecided has neither committed nor voted.
#[tactic(auto, using(crate::proofs::Partners::partners_are_paired))]
pub fn partners_are_paired()
    ensures { PartnersArePaired }
{}
