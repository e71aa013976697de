//! What a settled world has come to.

ghost use Rattle.settled_outcomes.specs.SettledOutcomes.{OutcomesAreSettled};
ghost use Rattle.settled_outcomes.specs.Examples.{ExamplesSettle};

/// In every world at rest, whatever was lost, repeated, delayed, stopped or crashed before, and through any depth of subordinates:
/// who has voted Prepared has committed or aborted; under a root that has committed each durable participant has committed or has
/// left by ReadOnly; and under one that hasn't, each that has voted has aborted (WS-AtomicTransaction 1.2, sections 1 and 3.3). An
/// undecided root has no participant that has voted, and is still in its node's book, or its participants have left. To such a
/// world each run comes by the events of `settle`, where no node has spent its incarnations.
#[tactic(auto, using(crate::proofs::SettledOutcomes::outcomes_are_settled))]
pub fn outcomes_are_settled()
    ensures { OutcomesAreSettled }
{}

/// Worked runs that end at rest: a participant commits, one votes ReadOnly, and both abort where another does.
#[tactic(auto, using(crate::proofs::Examples::examples_settle))]
pub fn examples_settle()
    ensures { ExamplesSettle }
{}
