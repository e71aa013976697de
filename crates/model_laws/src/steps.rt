//! Single steps whose rules no law over whole worlds shows.

ghost use Rattle.model_laws.specs.Singles.{VolatileRollbackAnswers, AbortedAtPrepared, RelatesToIsCompared, OutcomeIsKept, CommitIsUndone};

/// A Rollback on the volatile link of a subordinate that has voted, or was told to commit, only answers Aborted.
pub fn volatile_rollback_answers()
    ensures { VolatileRollbackAnswers }
{}

/// An Aborted from a participant that has voted Prepared draws InvalidState, and doesn't abort.
pub fn aborted_at_prepared()
    ensures { AbortedAtPrepared }
{}

/// An answer or a fault that relates to another request, or to none, is ignored.
pub fn relates_to_is_compared()
    ensures { RelatesToIsCompared }
{}

/// A root's commit is kept for an initiator that asks again, also when it is over.
pub fn outcome_is_kept()
    ensures { OutcomeIsKept }
{}

/// Where the record of a subordinate's Commit is absent, the step is undone.
pub fn commit_is_undone()
    ensures { CommitIsUndone }
{}
