//! What steps do and say, and whom items know.

ghost use Rattle.enlistments.specs.KnownCoordinators.{CoordinatorsAreKnown};
ghost use Rattle.enlistments.specs.Moves.{StepsMove};
ghost use Rattle.enlistments.specs.Senses.{StepsSense};
ghost use Rattle.enlistments.specs.NoticeOrigins.{StepsTell};

/// Each step of a book moves one of its items by a deed, makes one, takes a registration, answers a message that moves
/// nothing, or rests.
#[tactic(auto, using(crate::proofs::StepMoves::steps_move))]
pub fn steps_move()
    ensures { StepsMove }
{}

/// Each notification that a step posts, and each answer to a Register, is posted for one reason of a short list.
#[tactic(auto, using(crate::proofs::StepNotices::steps_tell))]
pub fn steps_tell()
    ensures { StepsTell }
{}

/// Votes and what is asked are posted by whom they concern: a Prepare, a Commit or a Rollback by a coordinator to one of its
/// seats, or by an initiator to its completion seat; a Prepared or a ReadOnly by a participant to its coordinator.
#[tactic(auto, using(crate::proofs::Senses::steps_sense))]
pub fn steps_sense()
    ensures { StepsSense }
{}

/// In every run items know whom they work with: an answer to a Register, the coordinators that a book and its records know,
/// and each vote, Prepare, Commit and Rollback lead to, or come from, a seat at which that participant, or that initiator,
/// was accepted.
#[tactic(auto, using(crate::proofs::KnownCoordinators::coordinators_are_known))]
pub fn coordinators_are_known()
    ensures { CoordinatorsAreKnown }
{}
