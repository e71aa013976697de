//! Runs of a world.

ghost use Rattle.at_model.specs.Runs.{RunsGrow};

/// A run's next event is one step of the world that the run led to.
#[tactic(auto, using(crate::proofs::RunLaws::runs_grow))]
pub fn runs_grow()
    ensures { RunsGrow }
{}
