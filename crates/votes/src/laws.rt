//! What votes and outcomes rest on.

ghost use Rattle.votes.specs.VotesAndOutcomes.{OutcomesAreBacked};
ghost use Rattle.votes.specs.DurableVotes.{VotesAreKept};

/// In every run a durable participant's vote Prepared stands in its node's journal, and who votes ReadOnly is gone without a
/// trace: its node made it and holds it no more, and it hasn't ended.
#[tactic(auto, using(crate::proofs::VotesAndOutcomes::votes_are_kept))]
pub fn votes_are_kept()
    ensures { VotesAreKept }
{}

/// In every run a transaction votes or decides behind every vote, names who is to be told, and keeps a seat for each over a
/// crash; a Commit goes to who has voted Prepared under a transaction that has committed, a Rollback to who has committed
/// already or is under one that has aborted; a durable participant says Committed once it has committed, aborts behind its
/// vote only where its transaction has aborted; and a transaction that is gone is over for each durable participant.
#[tactic(auto, using(crate::proofs::VotesAndOutcomes::outcomes_are_backed))]
pub fn outcomes_are_backed()
    ensures { OutcomesAreBacked }
{}
