//! What leads to agreement.

ghost use Rattle.agreement.specs.ActivityDeeds.{ActivitiesDo, ActivityStates};
ghost use Rattle.agreement.specs.LeafRecords.{LeavesAreBacked};
ghost use Rattle.agreement.specs.Deeds.{DeedsMoveSeats, TransactionsDo};
ghost use Rattle.agreement.specs.StepDeeds.{StepsDo};
ghost use Rattle.agreement.specs.FinishedTransactions.{FinishesAll};
ghost use Rattle.agreement.specs.Journals.{JournalsLive};
ghost use Rattle.agreement.specs.LeafDeeds.{LeafStates, LeavesDo};
ghost use Rattle.agreement.specs.Lives.{LivesAgree};
ghost use Rattle.agreement.specs.Places.{AddressesLeadHome};
ghost use Rattle.agreement.specs.Recoveries.{RecoversEach};
ghost use Rattle.agreement.specs.Registers.{RegistersNameTheirSender};
ghost use Rattle.agreement.specs.SeatRegistrations.{SeatsAreRegistered};
ghost use Rattle.agreement.specs.Sorts.{SortsAgree};
ghost use Rattle.agreement.specs.TransactionSteps.{TransactionsStep};

/// In every run a transaction that aborts asks nobody any more, one that is decided has no initiator that may still ask, and
/// participants keep their numbers, in the book and in its records.
#[tactic(auto, using(crate::proofs::FinishedTransactions::finishes_all))]
pub fn finishes_all()
    ensures { FinishesAll }
{}

/// In every run a participant that does work of its own registers, works under a coordinator that it knows, or has voted
/// Prepared to it.
#[tactic(auto, using(crate::proofs::LeafStates::leaf_states))]
pub fn leaf_states()
    ensures { LeafStates }
{}

/// Whatever comes to a participant that does work of its own, and whenever it is due, its step is one of a few deeds, each
/// with its record, its effect, its messages and what is left of it.
#[tactic(auto, using(crate::proofs::LeafRules::leaves_do))]
pub fn leaves_do()
    ensures { LeavesDo }
{}

/// In every run an activity waits for its context, registers, runs or completes, and knows what it needs for that.
#[tactic(auto, using(crate::proofs::ActivityStates::activity_states))]
pub fn activity_states()
    ensures { ActivityStates }
{}

/// Whatever comes to an initiator's activity, whenever it is due, and whatever its program asks that isn't refused, it goes on
/// and posts one message at most, or is told how it ended.
#[tactic(auto, using(crate::proofs::ActivityRules::activities_do))]
pub fn activities_do()
    ensures { ActivitiesDo }
{}

/// A further record in a journal ends what is live of its id, as it says, and is live itself where it promises something.
#[tactic(auto, using(crate::proofs::Journals::journals_live))]
pub fn journals_live()
    ensures { JournalsLive }
{}

/// Recovery finds each transaction and each leaf that a live record promises, by its id, and no other.
#[tactic(auto, using(crate::proofs::Recoveries::recovers_each))]
pub fn recovers_each()
    ensures { RecoversEach }
{}

/// In every run the vote of a durable participant that waits for the outcome stands in its node's journal, and is live; and
/// each such vote has its participant, which waits.
#[tactic(auto, using(crate::proofs::LeafSafety::leaves_are_backed))]
pub fn leaves_are_backed()
    ensures { LeavesAreBacked }
{}

/// Whatever moves a transaction, where its record landed and where it didn't, does one deed of a short table: it stays
/// undecided or in its phase, aborts while it is undecided, votes or decides behind every answer, ends as its superior said
/// behind its vote, or is over.
#[tactic(auto, using(crate::proofs::TransactionEvents::transactions_do))]
pub fn transactions_do()
    ensures { TransactionsDo }
{}

/// Each step of a book does one such deed to one transaction, is undone since its record is absent, takes a registration,
/// makes a transaction, or leaves the transactions as they were.
#[tactic(auto, using(crate::proofs::StepDeeds::steps_do))]
pub fn steps_do()
    ensures { StepsDo }
{}

/// Behind each deed every seat is its participant's still, and its state has its reason: it was so, its participant said
/// so, or the deed committed or aborted.
#[tactic(auto, using(crate::proofs::Seats::deeds_move_seats))]
pub fn deeds_move_seats()
    ensures { DeedsMoveSeats }
{}

/// In every run a seat is the registration of one participant: no two registrations of a transaction have one number, an
/// undecided transaction has a seat for each, and its votes and decisions name such participants alone.
#[tactic(auto, using(crate::proofs::SeatRegistrations::seats_are_registered))]
pub fn seats_are_registered()
    ensures { SeatsAreRegistered }
{}

/// In every run each Register that was posted is one of an item of its sender: it names that item's own endpoint, as the
/// participant and for the answer, and asks for the protocol of a participant of its kind, or an initiator's.
#[tactic(auto, using(crate::proofs::Registers::registers_name_their_sender))]
pub fn registers_name_their_sender()
    ensures { RegistersNameTheirSender }
{}

/// Where an endpoint that a node writes leads anywhere, it leads to that node and to the target that it was written for: to no
/// other node, and to no other of the seven kinds of target, item or seat.
#[tactic(auto, using(crate::proofs::Places::addresses_lead_home))]
pub fn addresses_lead_home()
    ensures { AddressesLeadHome }
{}

/// In every run each id names an item of one sort: a root, a subordinate, a participant of one kind that does work of
/// its own, or an activity. What is in the books and in the records, what happened, who registers, and who was accepted, agrees
/// with it: an accepted participant is a subordinate, or does work of the kind of its seat, and an initiator is an activity.
#[tactic(auto, using(crate::proofs::Sorts::sorts_agree))]
pub fn sorts_agree()
    ensures { SortsAgree }
{}

/// Each step that moves a transaction is one of those deeds; or it is undone, where a subordinate's outcome or an end isn't
/// recorded, which is waited for as before.
#[tactic(auto, using(crate::proofs::TransactionSteps::transactions_step))]
pub fn transactions_step()
    ensures { TransactionsStep }
{}

/// In every run a node's book, or while it is down the book that its records stand for, its journal and what happened at it
/// agree: what is undecided has promised nothing and hasn't ended, what has promised has its promise recorded, what has
/// decided has its decision recorded and has ended so, and what is gone is over. Nothing ends twice.
#[tactic(auto, using(crate::proofs::Lives::lives_agree))]
pub fn lives_agree()
    ensures { LivesAgree }
{}
