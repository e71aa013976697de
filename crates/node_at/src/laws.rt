//! Laws of what a step sends.

ghost use Rattle.node_at.specs.PromiseLaws.{OutsMayLeave, PromisesStay};
ghost use Rattle.node_at.specs.Replies.{StepsReply};

use agreement::laws::{activity_states, finishes_all, leaf_states, recovers_each};
use enlistments::laws::{steps_move, steps_tell};
use model_laws::rules::{
    decides_behind_every_answer, ids_rise, makes_under_the_next_id, steps_touch_one,
};
use owed::laws::books_are_shaped;

/// A message is answered once on the connection, with 200, 202 or 500, and so is a tick; an item that is due answers nobody.
#[tactic(auto, using(crate::proofs::Replies::steps_reply))]
pub fn steps_reply()
    ensures { StepsReply }
{}

/// Every out of a step of a book whose promises are live may leave behind the step's record.
pub fn outs_may_leave()
    ensures { OutsMayLeave }
{
    steps_tell();
}

/// The promises of a book that are live stay so over each step, with what is kept behind its record; and those of a book that
/// is recovered are live.
#[tactic(auto, using(crate::proofs::RecoveredPromises::stay))]
pub fn promises_stay()
    ensures { PromisesStay }
{
    activity_states();
    books_are_shaped();
    decides_behind_every_answer();
    finishes_all();
    ids_rise();
    leaf_states();
    makes_under_the_next_id();
    recovers_each();
    steps_move();
    steps_touch_one();
}
