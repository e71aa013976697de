//! Settling over every run.

ghost use Rattle.model_laws.specs.Settlement.{Settles};
ghost use Rattle.settled.specs.OwedLaws.{OwedIsKept, QuietWorldsRest, TicksAskForAll};

/// Behind a tick, long enough that all is quiet, a message is on its way for each vote, each commit and each outcome that a node's
/// seats and participants wait for, and for each that registers at a transaction of a node.
#[tactic(auto, using(crate::proofs::Settlement::ticks_ask_for_all))]
pub fn ticks_ask_for_all()
    ensures { TicksAskForAll }
{}

/// What is owed stays owed over each step that sends all that it posts: its message is on its way still, or its answer is, or
/// who was asked is busy with it.
#[tactic(auto, using(crate::proofs::Settlement::owed_is_kept))]
pub fn owed_is_kept()
    ensures { OwedIsKept }
{}

/// Where no message is on its way any more, nobody waits: going down from who waits for votes or commits, each participant
/// registered later than its coordinator, and going up from who waits for an outcome, each coordinator registered earlier.
#[tactic(auto, using(crate::proofs::Settlement::quiet_worlds_rest))]
pub fn quiet_worlds_rest()
    ensures { QuietWorldsRest }
{}

/// Settling: in every run of nodes with addresses of their own, whatever was lost, repeated, delayed, refused, stopped or crashed before, and
/// through any depth of subordinates, where no node has spent its incarnations a bounded list of events (every node up, then eight
/// rounds of a tick at each node and of deliveries) leaves no durable participant in doubt, no subordinate that has voted without
/// an outcome, and no decision that waits to be carried out.
#[tactic(auto, using(crate::proofs::Settlement::settles))]
pub fn settles()
    ensures { Settles }
{}
