//! Worked examples: whole runs of a world, with the messages and the effects that they give.

ghost use Rattle.model_laws.specs.Examples.{WaitsForAllMessages, PlainPathMessages, PlainPathEffects, NoParticipantMessages, NoParticipantEffects, VolatileFirstMessages, VolatileFirstEffects, ReadOnlyMessages, ReadOnlyEffects, OneAbortsMessages, OneAbortsEffects, LateRegisterMessages, LateRegisterEffects, RegisterTwiceMessages, RegisterTwiceEffects, NewIncarnationMessages, NewIncarnationEffects, PrepareAgainMessages, PrepareAgainEffects, StopBeforeVoteMessages, StopBeforeVoteEffects, StopBehindVoteMessages, StopBehindVoteEffects, DecisionRefusedMessages, DecisionRefusedEffects, HaltBehindDecisionMessages, HaltBehindDecisionEffects, ExpiryMessages, ExpiryEffects, NoExpiryBehindDecisionMessages, NoExpiryBehindDecisionEffects, EndStandsMessages, EndStandsEffects, RollbackOnVolatileLinkMessages, RollbackOnVolatileLinkEffects, InterpositionMessages, InterpositionEffects, SubordinateCrashesMessages, SubordinateCrashesEffects, RegisterTwiceSeats, PlainPathJournals, DecidesWithoutSeats, CommitsAgain, HalfToldSettles, StillRegisteringSettles};

/// The plain path: the participant votes Prepared, and both sides commit.
#[tactic(auto, using(crate::proofs::Examples::plain_path_messages, crate::proofs::Examples::plain_path_effects))]
pub fn plain_path()
    ensures messages { PlainPathMessages }
    ensures effects { PlainPathEffects }
{}

/// No participant: the root commits at once.
#[tactic(auto, using(crate::proofs::Examples::no_participant_messages, crate::proofs::Examples::no_participant_effects))]
pub fn no_participant()
    ensures messages { NoParticipantMessages }
    ensures effects { NoParticipantEffects }
{}

/// A volatile participant is asked before the durable one.
#[tactic(auto, using(crate::proofs::Examples::volatile_first_messages, crate::proofs::Examples::volatile_first_effects))]
pub fn volatile_first()
    ensures messages { VolatileFirstMessages }
    ensures effects { VolatileFirstEffects }
{}

/// The one participant votes ReadOnly: the root commits, and nobody is told to.
#[tactic(auto, using(crate::proofs::Examples::read_only_messages, crate::proofs::Examples::read_only_effects))]
pub fn read_only()
    ensures messages { ReadOnlyMessages }
    ensures effects { ReadOnlyEffects }
{}

/// One of two participants votes Aborted: the other is rolled back.
#[tactic(auto, using(crate::proofs::Examples::one_aborts_messages, crate::proofs::Examples::one_aborts_effects))]
pub fn one_aborts()
    ensures messages { OneAbortsMessages }
    ensures effects { OneAbortsEffects }
{}

/// A participant that registers while the durable ones are asked is refused.
#[tactic(auto, using(crate::proofs::Examples::late_register_messages, crate::proofs::Examples::late_register_effects))]
pub fn late_register()
    ensures messages { LateRegisterMessages }
    ensures effects { LateRegisterEffects }
{}

/// A Register that arrives twice is answered alike, and makes one seat.
#[tactic(auto, using(crate::proofs::Examples::register_twice_messages, crate::proofs::Examples::register_twice_effects))]
pub fn register_twice()
    ensures messages { RegisterTwiceMessages }
    ensures effects { RegisterTwiceEffects }
{}

/// A participant that crashed before its vote comes up in a new incarnation, and answers Aborted for its old one.
#[tactic(auto, using(crate::proofs::Examples::new_incarnation_messages, crate::proofs::Examples::new_incarnation_effects))]
pub fn new_incarnation()
    ensures messages { NewIncarnationMessages }
    ensures effects { NewIncarnationEffects }
{}

/// A Prepare that comes again after the outcome draws Aborted, which the coordinator answers with InvalidState.
#[tactic(auto, using(crate::proofs::Examples::prepare_again_messages, crate::proofs::Examples::prepare_again_effects))]
pub fn prepare_again()
    ensures messages { PrepareAgainMessages }
    ensures effects { PrepareAgainEffects }
{}

/// A stop before the vote stands: the participant is lost, and abort is presumed.
#[tactic(auto, using(crate::proofs::Examples::stop_before_vote_messages, crate::proofs::Examples::stop_before_vote_effects))]
pub fn stop_before_vote()
    ensures messages { StopBeforeVoteMessages }
    ensures effects { StopBeforeVoteEffects }
{}

/// A stop right behind the vote: the participant comes up prepared, and sends its vote.
#[tactic(auto, using(crate::proofs::Examples::stop_behind_vote_messages, crate::proofs::Examples::stop_behind_vote_effects))]
pub fn stop_behind_vote()
    ensures messages { StopBehindVoteMessages }
    ensures effects { StopBehindVoteEffects }
{}

/// The record of the decision is refused: the root aborts.
#[tactic(auto, using(crate::proofs::Examples::decision_refused_messages, crate::proofs::Examples::decision_refused_effects))]
pub fn decision_refused()
    ensures messages { DecisionRefusedMessages }
    ensures effects { DecisionRefusedEffects }
{}

/// A halt right behind the decision: it holds, the participant is told, and the initiator, which asks again, hears of it.
#[tactic(auto, using(crate::proofs::Examples::halt_behind_decision_messages, crate::proofs::Examples::halt_behind_decision_effects))]
pub fn halt_behind_decision()
    ensures messages { HaltBehindDecisionMessages }
    ensures effects { HaltBehindDecisionEffects }
{}

/// A root that expires before its decision aborts.
#[tactic(auto, using(crate::proofs::Examples::expiry_messages, crate::proofs::Examples::expiry_effects))]
pub fn expiry()
    ensures messages { ExpiryMessages }
    ensures effects { ExpiryEffects }
{}

/// A root that has decided does not expire: it sends Commit again.
#[tactic(auto, using(crate::proofs::Examples::no_expiry_behind_decision_messages, crate::proofs::Examples::no_expiry_behind_decision_effects))]
pub fn no_expiry_behind_decision()
    ensures messages { NoExpiryBehindDecisionMessages }
    ensures effects { NoExpiryBehindDecisionEffects }
{}

/// A root that ended and crashed comes up with nothing to do.
#[tactic(auto, using(crate::proofs::Examples::end_stands_messages, crate::proofs::Examples::end_stands_effects))]
pub fn end_stands()
    ensures messages { EndStandsMessages }
    ensures effects { EndStandsEffects }
{}

/// A Rollback on a volatile link that was not asked yet aborts the subordinate.
#[tactic(auto, using(crate::proofs::Examples::rollback_on_volatile_link_messages, crate::proofs::Examples::rollback_on_volatile_link_effects))]
pub fn rollback_on_volatile_link()
    ensures messages { RollbackOnVolatileLinkMessages }
    ensures effects { RollbackOnVolatileLinkEffects }
{}

/// A subordinate stands between: its participant is asked, told and answered for through it.
#[tactic(auto, using(crate::proofs::Examples::interposition_messages, crate::proofs::Examples::interposition_effects))]
pub fn interposition()
    ensures messages { InterpositionMessages }
    ensures effects { InterpositionEffects }
{}

/// The subordinate crashes behind its vote: it comes up prepared, and all goes on.
#[tactic(auto, using(crate::proofs::Examples::subordinate_crashes_messages, crate::proofs::Examples::subordinate_crashes_effects))]
pub fn subordinate_crashes()
    ensures messages { SubordinateCrashesMessages }
    ensures effects { SubordinateCrashesEffects }
{}

/// A Register that came twice made one seat.
#[tactic(auto, using(crate::proofs::Examples::register_twice_seats))]
pub fn register_twice_seats()
    ensures { RegisterTwiceSeats }
{}

/// What the two journals hold behind the plain path.
#[tactic(auto, using(crate::proofs::Examples::plain_path_journals))]
pub fn plain_path_journals()
    ensures { PlainPathJournals }
{}

/// Without a prepared durable participant the decision is recorded with no seats.
#[tactic(auto, using(crate::proofs::Examples::decides_without_seats))]
pub fn decides_without_seats()
    ensures { DecidesWithoutSeats }
{}

/// An initiator's Commit that comes again, when the transaction is over, is answered with Committed.
#[tactic(auto, using(crate::proofs::Examples::commits_again))]
pub fn commits_again()
    ensures { CommitsAgain }
{}

/// A decision that nobody was told of is carried out once the nodes are up again.
#[tactic(auto, using(crate::proofs::Examples::half_told_settles))]
pub fn half_told_settles()
    ensures { HalfToldSettles }
{}

/// A leaf that is still Registering ignores its first Prepare: the world is at rest after the second round of settling.
#[tactic(auto, using(crate::proofs::Examples::still_registering_settles))]
pub fn still_registering_settles()
    ensures { StillRegisteringSettles }
{}

/// A root waits for every durable participant: the one that hasn't answered is told again.
#[tactic(auto, using(crate::proofs::Examples::waits_for_all_messages))]
pub fn waits_for_all()
    ensures { WaitsForAllMessages }
{}
