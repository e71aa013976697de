//! How transactions stand in their phases, and what each step owes.

ghost use Rattle.owed.specs.DurablePrepares.{AskingGoesOn};
ghost use Rattle.owed.specs.LinkRegistrations.{LinksJoin};
ghost use Rattle.owed.specs.Leaves.{StepsOweLeaves};
ghost use Rattle.owed.specs.Registers.{RegistersAreAnswered};
ghost use Rattle.owed.specs.Seats.{StepsOweSeats};
ghost use Rattle.owed.specs.Shape.{BooksAreShaped};
ghost use Rattle.owed.specs.Links.{StepsOweLinks};

/// In every run each transaction stands as its phase wants: its seats, whom it waits for, its links and its initiator.
#[tactic(auto, using(crate::proofs::Books::books_are_shaped))]
pub fn books_are_shaped()
    ensures { BooksAreShaped }
{}

/// Each step posts what it then owes the participants of its seats: Prepare to whom it asks, Commit to whom it has told to
/// commit, and the outcome to whoever is Prepared no more, also where no seat is known.
#[tactic(auto, using(crate::proofs::SeatSteps::steps_owe_seats))]
pub fn steps_owe_seats()
    ensures { StepsOweSeats }
{}

/// Each step leaves a subordinate's link busy with what it was asked, or answers its coordinator, or the From of a message
/// where no participant is known.
#[tactic(auto, using(crate::proofs::Strangers::steps_owe_links))]
pub fn steps_owe_links()
    ensures { StepsOweLinks }
{}

/// Each step answers for its leaves: a Prepare once the leaf has registered, a Commit behind its vote; and a leaf that
/// registers waits for the answer to its Register.
#[tactic(auto, using(crate::proofs::RegisterAnswers::steps_owe_leaves))]
pub fn steps_owe_leaves()
    ensures { StepsOweLeaves }
{}

/// Every Register with an endpoint to answer to is answered there.
#[tactic(auto, using(crate::proofs::RegisterAnswers::registers_are_answered))]
pub fn registers_are_answered()
    ensures { RegistersAreAnswered }
{}

/// A subordinate's link that registers goes on to, until its Register is answered.
#[tactic(auto, using(crate::proofs::LinkRegistrationBooks::links_join))]
pub fn links_join()
    ensures { LinksJoin }
{}

/// Whatever moves a transaction doesn't lead back behind the first Prepare to a durable participant, and a transaction that
/// posts one goes on from there.
#[tactic(auto, using(crate::proofs::DurablePrepareBooks::asking_goes_on))]
pub fn asking_goes_on()
    ensures { AskingGoesOn }
{}
