//! What `replay` prints of its input.

ghost use Rattle.std.specs.Prelude.{◌≡◌, IfErr, IfOk};
ghost use Rattle.envelope_cmd.specs.Output.{refused};
ghost use Rattle.net_plays.specs.Stops.{HasNoReport};
ghost use Rattle.net_plays.specs.Stops.Why.{HasMany, IsFull};
ghost use Rattle.net_plays.specs.declared.play_error.PlayError.TheVariants.{Full, TooManyEvents};
ghost use Rattle.replay_cmd.specs.Laws.{IsReplayable};
ghost use Rattle.replay_cmd.specs.ReportOf.{nodes_of};
ghost use Rattle.replay_cmd.specs.ScheduleLines.{AreWithin};
ghost use Rattle.schedules.specs.Schedules.{schedule_of};
ghost use Rattle.command_line.specs.Reports.{FindsNoRoom, FindsTooManyEvents, IsReplayed, Replays, bad_line};

use envelope_cmd::output::Printed;
use net_plays::play_error::PlayError;
use net_plays::replay::{Replayed, replay};
use replay_cmd::laws::{what_is_read_is_replayable, what_is_read_is_within};
use replay_cmd::options::Options;
use schedules::line::{BadLine, Schedule, ScheduleError};
use schedules::reader::read_schedule;
use std::alloc::{AllocError, Global};

#[tactic(auto, unfolding(crate::specs::Reports::bad_line))]
pub(crate) fn refusal(alloc: Global, bad: BadLine) -> Result<Printed, AllocError>
    ensures { IfOk result (λ printed. printed ≡ refused (bad_line bad)) }
{
    let line = format!(in alloc; "line {} cause {}\n", bad.line, bad.cause.number())?;
    Printed::refused(alloc, line.as_str())
}

#[tactic(auto, using(crate::proofs::Reports::replayed_so))]
fn report(alloc: Global, schedule: &Schedule, options: Options) -> Result<Printed, PlayError>
    requires replayable { IsReplayable schedule.now }
    requires within { AreWithin (nodes_of schedule.now) schedule.now }
    ensures report { IfOk result (IsReplayed options schedule.now) }
    ensures full { IfErr result (λ e. e ≡ Full → HasNoReport IsFull options.settle schedule.now) }
    ensures many { IfErr result (λ e. e ≡ TooManyEvents → HasNoReport HasMany options.settle schedule.now) }
{
    match replay(alloc, schedule, options) {
        Ok(replayed) => {
            let Replayed { lines, net: _net } = replayed;
            let printed = Printed::accepted(lines.into_vec());
            Ok(printed)
        }
        Err(e) => Err(e),
    }
}

/// The report of the schedule that the bytes are, with what is asked beside it, or the line of their first bad line. In the world of the report no two
/// participants of one transaction ended differently (WS-AtomicTransaction 1.2, section 1).
#[tactic(auto, using(crate::proofs::Reports::replays_so, crate::proofs::Reports::refuses_so, crate::proofs::Reports::finds_so, crate::proofs::Reports::finds_many_so))]
pub fn replayed(alloc: Global, input: &[u8], options: Options) -> Result<Printed, PlayError>
    ensures replays { IfOk result (Replays options (schedule_of input.now)) }
    ensures full { IfErr result (λ e. e ≡ Full → FindsNoRoom options (schedule_of input.now)) }
    ensures many { IfErr result (λ e. e ≡ TooManyEvents → FindsTooManyEvents options (schedule_of input.now)) }
{
    what_is_read_is_replayable();
    what_is_read_is_within();
    match read_schedule(alloc, input) {
        Ok(schedule) => match report(alloc, &schedule, options) {
            Ok(printed) => Ok(printed),
            Err(e) => Err(e),
        },
        Err(ScheduleError::Bad(bad)) => match refusal(alloc, bad) {
            Ok(printed) => Ok(printed),
            Err(_) => Err(PlayError::NoMemory),
        },
        Err(ScheduleError::OutOfMemory) => Err(PlayError::NoMemory),
    }
}
