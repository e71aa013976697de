//! What the journals of every run say.

ghost use Rattle.recorded_runs.specs.JournalRecords.{RunsRecord};

/// In every run a vote's record names a seat of a node; what the record of an outcome says has happened, behind its vote; and votes go up:
/// who votes under one that votes does so before it.
#[tactic(auto, using(crate::proofs::Runs::runs_record))]
pub fn runs_record()
    ensures { RunsRecord }
{}
