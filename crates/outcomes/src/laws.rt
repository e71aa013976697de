//! Agreement over every run.

ghost use Rattle.model_laws.specs.Agreement.{Agrees};
ghost use Rattle.outcomes.specs.Statuses.{RunsCommitAtomically};
ghost use Rattle.outcomes.specs.Examples.{StatusesAreSeen};
ghost use Rattle.outcomes.specs.Foundations.{OutcomesAreFounded};

/// In every run a root commits behind its recorded decision, a subordinate behind its recorded vote, and a participant under
/// a transaction that has committed; and what an initiator is told of the outcome is what its root did.
#[tactic(auto, using(crate::proofs::Agreement::outcomes_are_founded))]
pub fn outcomes_are_founded()
    ensures { OutcomesAreFounded }
{}

/// Agreement: in every run of nodes with addresses of their own, whatever is delivered, lost, repeated, reordered, stopped or crashed, and
/// through any depth of subordinates, no activity is split and nothing ends twice; a root's commit and a subordinate's vote stand
/// behind every answer; and an activity is told what its root did (WS-AtomicTransaction 1.2, section 1).
#[tactic(auto, using(crate::proofs::Agreement::agrees))]
pub fn agrees()
    ensures { Agrees }
{}

/// Each event of a run, seen at one root, is one step of a small machine of atomic commit, from what is seen of the run before it
/// to what is seen of the run behind it: a member votes; it commits where everybody is ready, the root by its decision and any
/// other behind its vote; it aborts where nobody has committed; nothing is undone, nobody drops out, and nobody joins once one has
/// committed. And the machine is consistent, by itself: wherever it goes, none that committed is beside one that aborted.
#[tactic(auto, using(crate::proofs::AtomicCommitRuns::runs_commit_atomically))]
pub fn runs_commit_atomically()
    ensures { RunsCommitAtomically }
{}

/// Statuses along worked runs: a root and its durable participant register, vote, decide and commit; the participant votes
/// ReadOnly; and both abort where another participant does.
#[tactic(auto, using(crate::proofs::Examples::statuses_are_seen))]
pub fn statuses_are_seen()
    ensures { StatusesAreSeen }
{}
