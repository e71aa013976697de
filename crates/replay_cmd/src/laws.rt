//! What is known of the schedules that are read, and of the worlds of those that are made.

ghost use Rattle.replay_cmd.specs.Laws.{MadeWorldsAreSafe, ReadIsReplayable, ReadIsWithin};

use model_laws::rules::{enlists_under_one, examples_are_apart, makes_no_id_twice};
use outcomes::laws::agrees;

/// What is read as a schedule may be replayed.
#[tactic(auto, using(crate::proofs::ReplayableSchedules::read_is_replayable))]
pub fn what_is_read_is_replayable()
    ensures { ReadIsReplayable }
{}

/// What is read as a schedule names no other nodes than its own, no tick of it is longer than the longest, and the calls that it arms are numbered
/// from 1.
#[tactic(auto, using(crate::proofs::ReadLines::read_is_within))]
pub fn what_is_read_is_within()
    ensures { ReadIsWithin }
{}

/// In the world of the schedule of a seed no two participants of one transaction end differently, through any depth of interposition, and all
/// else holds of it that holds of every run (WS-AtomicTransaction 1.2, section 1).
#[tactic(auto, using(crate::proofs::MadeRuns::made_are_safe))]
pub fn made_worlds_are_safe()
    ensures { MadeWorldsAreSafe }
{
    examples_are_apart();
    agrees();
    enlists_under_one();
    makes_no_id_twice();
}
