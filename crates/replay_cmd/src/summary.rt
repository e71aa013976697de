//! How the schedule of a seed comes out, on a line.

ghost use Rattle.std.specs.Prelude.{◌≡◌, ◌≤◌, IfErr, IfOk};
ghost use Rattle.at_model.specs.Views.{request, tick_at, up};
ghost use Rattle.settlement.specs.declared.run_error.RunError.TheVariants.{TooManyEvents};
ghost use Rattle.replay_cmd.specs.Laws.{IsSafe};
ghost use Rattle.replay_cmd.specs.MadeCourses.{HasTooManyEvents, all_taken, course_made, happens, summary_of, taken, world_made};

use crate::asked_events::{asking, coming_up, turn};
use crate::course::Course;
use crate::laws::made_worlds_are_safe;
use crate::lines::Lines;
use crate::requests::{begin, interpose, work};
use at_base::event::Local;
use schedules::generator::make;
use schedules::line::Line;
use settlement::run_error::RunError;
use std::alloc::{AllocError, Global};
use world_laws::event::{Input, WorldEvent};

/// A node is asked by its own program.
fn ask(course: Course, alloc: Global, node: u8, local: Local) -> Result<Course, RunError>
    ensures course { IfOk result (λ c. c ≡ happens (request node local) course) }
    ensures many { IfErr result (λ e. e ≡ TooManyEvents → HasTooManyEvents (happens (request node local) course)) }
{
    course.happen(alloc, asking(alloc, node, local))
}

/// So many milliseconds go by at a node.
fn tick(course: Course, alloc: Global, node: u8, ms: u32) -> Result<Course, RunError>
    ensures course { IfOk result (λ c. c ≡ happens (tick_at node ms) course) }
    ensures many { IfErr result (λ e. e ≡ TooManyEvents → HasTooManyEvents (happens (tick_at node ms) course)) }
{
    course.happen(alloc, turn(alloc, node, Input::Tick(ms)))
}

/// A node comes up, where it is down.
fn come_up(course: Course, alloc: Global, node: u8) -> Result<Course, RunError>
    ensures course { IfOk result (λ c. c ≡ happens (up node) course) }
    ensures many { IfErr result (λ e. e ≡ TooManyEvents → HasTooManyEvents (happens (up node) course)) }
{
    course.happen(alloc, coming_up(node))
}

/// A line of the schedule of a seed: none of those arms a call or brings bytes.
fn take_line(course: Course, alloc: Global, line: &Line) -> Result<Course, RunError>
    ensures course { IfOk result (λ c. c ≡ taken line.now course) }
    ensures many { IfErr result (λ e. e ≡ TooManyEvents → HasTooManyEvents (taken line.now course)) }
{
    match line {
        Line::Begin {
            node,
            coordinator,
            ms,
        } => {
            let local = begin(alloc, *coordinator, *ms)?;
            ask(course, alloc, *node, local)
        }
        Line::Interpose {
            node,
            activity,
            coordinator,
        } => {
            let local = interpose(alloc, *activity, *coordinator)?;
            ask(course, alloc, *node, local)
        }
        Line::Work {
            node,
            activity,
            service,
            kind,
            vote,
        } => {
            let local = work(alloc, *activity, *service, *kind, *vote)?;
            ask(course, alloc, *node, local)
        }
        Line::Commit { node, activity } => ask(
            course,
            alloc,
            *node,
            Local::Commit {
                activity: *activity,
            },
        ),
        Line::Rollback { node, activity } => ask(
            course,
            alloc,
            *node,
            Local::Rollback {
                activity: *activity,
            },
        ),
        Line::Deliver { message } => course.deliver(alloc, *message as u64),
        Line::Flush { most } => course.flush(alloc, *most),
        Line::Tick { node, ms } => tick(course, alloc, *node, *ms),
        Line::Crash { node } => course.happen(alloc, WorldEvent::Crash { node: *node }),
        Line::Up { node } => come_up(course, alloc, *node),
        Line::Nodes { .. } | Line::Stop { .. } | Line::Fail { .. } | Line::Inject { .. } => {
            Ok(course)
        }
    }
}

/// Takes each line.
#[tactic(auto, using(crate::proofs::EventCounts::take_many))]
fn take_lines(course: Course, alloc: Global, lines: &[Line]) -> Result<Course, RunError>
    ensures course { IfOk result (λ c. c ≡ all_taken lines.now course) }
    ensures many { IfErr result (λ e. e ≡ TooManyEvents → HasTooManyEvents (all_taken lines.now course)) }
{
    let mut course = course;
    for line in lines {
        course = take_line(course, alloc, line)?;
    }
    Ok(course)
}

/// How the schedule of a seed comes out.
#[tactic(auto, using(crate::proofs::EventCounts::begun_many))]
fn ran(alloc: Global, seed: u64, steps: u16) -> Result<Course, RunError>
    requires { steps ≤ 9999 }
    ensures course { IfOk result (λ course. course ≡ course_made seed steps) }
    ensures many { IfErr result (λ e. e ≡ TooManyEvents → HasTooManyEvents (course_made seed steps)) }
{
    let schedule = make(alloc, seed, steps)?;
    let course = Course::begin(alloc, 4)?;
    take_lines(course, alloc, schedule.as_slice())
}

#[tactic(auto, using(crate::proofs::EventCounts::made_few))]
fn summed(alloc: Global, seed: u64, steps: u16) -> Result<Lines, AllocError>
    requires { steps ≤ 9999 }
    ensures { IfOk result (λ lines. lines ≡ summary_of seed steps) }
{
    match ran(alloc, seed, steps) {
        Ok(course) => course.summed(alloc, steps),
        Err(RunError::NoMemory) => Err(AllocError),
        Err(RunError::TooManyEvents) => unreachable!(),
    }
}

/// How the schedule of a seed, of at most 9,999 lines, comes out, on one line: how many messages there were, and how many
/// subordinates and durable participants ended in each way. What holds of every run holds of its world too (`safe`).
pub fn summary(alloc: Global, seed: u64, steps: u16) -> Result<Lines, AllocError>
    requires { steps ≤ 9999 }
    ensures text { IfOk result (λ lines. lines ≡ summary_of seed steps) }
    ensures safe { IsSafe 4 (world_made seed steps) }
{
    made_worlds_are_safe();
    summed(alloc, seed, steps)
}
