//! What the tables promise in words (WS-AtomicTransaction 1.2, sections 3 and 10), as laws for the proofs above.

ghost use Rattle.at_tables.specs.Laws.{NoMessageCommits, VotesAtPreparing, CommittedEnds, DecisionStands, CommitAfterDecision, PresumesAbort, NothingBegins, PreparedAfterVote, CommitsWhenTold, StaysInDoubt, CommittedWhenDone, CommitIsFinal, ToldCommittedWhenAsked, CompletesOnce, OutcomeStays, FaultKeepsState};

/// No message alone brings a seat to Committing: only a decision does (section 3.3.3).
#[tactic(auto, using(crate::proofs::Entries::no_message_commits))]
pub fn no_message_commits()
    ensures { NoMessageCommits }
{}

/// A vote is noted only at Preparing, and only by the message Prepared.
#[tactic(auto, using(crate::proofs::Entries::votes_at_preparing))]
pub fn votes_at_preparing()
    ensures { VotesAtPreparing }
{}

/// Committed at Committing ends the seat (section 3.3.4).
#[tactic(auto, using(crate::proofs::Entries::committed_ends))]
pub fn committed_ends()
    ensures { CommittedEnds }
{}

/// No message undoes a decision to commit.
#[tactic(auto, using(crate::proofs::Entries::decision_stands))]
pub fn decision_stands()
    ensures { DecisionStands }
{}

/// Commit is sent only to a seat that is Committing.
#[tactic(auto, using(crate::proofs::Entries::commit_after_decision))]
pub fn commit_after_decision()
    ensures { CommitAfterDecision }
{}

/// A durable Prepared where nothing is known is answered with Rollback (section 3.3.4).
#[tactic(auto, using(crate::proofs::Entries::presumes_abort))]
pub fn presumes_abort()
    ensures { PresumesAbort }
{}

/// No message leaves the state None.
#[tactic(auto, using(crate::proofs::Entries::nothing_begins))]
pub fn nothing_begins()
    ensures { NothingBegins }
{}

/// A participant sends Prepared only at PreparedSuccess.
#[tactic(auto, using(crate::proofs::Entries::prepared_after_vote))]
pub fn prepared_after_vote()
    ensures { PreparedAfterVote }
{}

/// A participant commits only at PreparedSuccess, and only by Commit.
#[tactic(auto, using(crate::proofs::Entries::commits_when_told))]
pub fn commits_when_told()
    ensures { CommitsWhenTold }
{}

/// A participant in doubt leaves that state by Commit or Rollback alone.
#[tactic(auto, using(crate::proofs::Entries::stays_in_doubt))]
pub fn stays_in_doubt()
    ensures { StaysInDoubt }
{}

/// A participant answers Committed only to a Commit, where it holds nothing any more.
#[tactic(auto, using(crate::proofs::Entries::committed_when_done))]
pub fn committed_when_done()
    ensures { CommittedWhenDone }
{}

/// A participant that is Committing takes no Rollback.
#[tactic(auto, using(crate::proofs::Entries::commit_is_final))]
pub fn commit_is_final()
    ensures { CommitIsFinal }
{}

/// The application is told committed only by Committed, after it asked for the commit (section 3.2).
#[tactic(auto, using(crate::proofs::Entries::told_committed_when_asked))]
pub fn told_committed_when_asked()
    ensures { ToldCommittedWhenAsked }
{}

/// Completion begins only at Active, and only by Commit (section 3.2).
#[tactic(auto, using(crate::proofs::Entries::completes_once))]
pub fn completes_once()
    ensures { CompletesOnce }
{}

/// A kept outcome stays, and only it is answered with Committed.
#[tactic(auto, using(crate::proofs::Entries::outcome_stays))]
pub fn outcome_stays()
    ensures { OutcomeStays }
{}

/// InvalidState without an abort changes no state.
#[tactic(auto, using(crate::proofs::Entries::fault_keeps_state))]
pub fn fault_keeps_state()
    ensures { FaultKeepsState }
{}
