//! The schedule of a seed on its way.

ghost use Rattle.std.specs.Prelude.{◌≡◌, ◌≤◌, ◌-◌, [], IfErr, IfOk, length, map, option_map};
ghost use Rattle.at_model.specs.Views.{deliver_to};
ghost use Rattle.at_model.specs.World.{nth, opening, example_hosts};
ghost use Rattle.world_laws.specs.Events.{event_of};
ghost use Rattle.world_laws.specs.Runs.{world_of};
ghost use Rattle.settlement.specs.declared.run_error.RunError.TheVariants.{TooManyEvents};
ghost use Rattle.replay_cmd.specs.Deliveries.{lowest, yes_at};
ghost use Rattle.replay_cmd.specs.MadeCourses.{HasTooManyEvents, all_up, begun, delivers, flushes, goes_to, happens};
ghost use Rattle.replay_cmd.specs.ReportOf.{receiver_in, summed};

use crate::asked_events::{coming_up, turn};
use crate::deliveries::Delivered;
use crate::endings::push_summed;
use crate::lines::Lines;
use settlement::run_error::RunError;
use std::alloc::{AllocError, Global};
use std::marker::Model;
use world_laws::event::{Input, WorldEvent};
use world_laws::world::World;

/// A world takes no more events; the lines of a schedule give fewer.
const MOST: usize = 4_294_967_295;

/// How far the schedule of a seed has come.
pub(crate) struct Course {
    world: World,
    delivered: Delivered,
}

impl Drop for Course {
    fn drop(self) {
        let Course {
            world: _world,
            delivered: _delivered,
        } = self;
    }
}

impl Model for Course {
    ghost use Rattle.std.specs.Prelude.{map};
    ghost use Rattle.world_laws.specs.Events.{event_of};
    ghost use Rattle.world_laws.specs.Runs.{world_of};
    ghost use Rattle.replay_cmd.specs.MadeCourses.{Course as Known};

    ghost Value = { Known };

    ghost view = { λ c. record { world = world_of c.world; events = map event_of c.world.events; delivered = c.delivered } };
}

#[tactic(auto, using(crate::proofs::Loops::opened, crate::proofs::Loops::none_yet))]
fn opened(alloc: Global, count: u8) -> Result<World, AllocError>
    requires { (1 ≤ count) × (count ≤ 8) }
    ensures world { IfOk result (λ world. world_of world ≡ opening (example_hosts count)) }
    ensures events { IfOk result (λ world. map event_of world.events ≡ []) }
{
    let world = World::new(alloc, count)?;
    Ok(world)
}

impl Course {
    /// A world of so many nodes, each of which is down.
    fn opening(alloc: Global, count: u8) -> Result<Course, AllocError>
        requires { (1 ≤ count) × (count ≤ 8) }
        ensures { IfOk result (λ c. c ≡ record { world = opening (example_hosts count); events = []; delivered = [] }) }
    {
        Ok(Course {
            world: opened(alloc, count)?,
            delivered: Delivered::new(alloc),
        })
    }

    /// An event that a line asks for.
    #[tactic(auto, using(crate::proofs::Loops::one_more, crate::proofs::EventCounts::too_many))]
    pub(crate) fn happen(self, alloc: Global, event: WorldEvent) -> Result<Course, RunError>
        ensures course { IfOk result (λ c. c ≡ happens (event_of event) self) }
        ensures many { IfErr result (λ e. e ≡ TooManyEvents → HasTooManyEvents (happens (event_of event) self)) }
    {
        let Course { world, delivered } = self;
        if world.events().len() >= MOST {
            return Err(RunError::TooManyEvents);
        }
        let stepped = world.step(alloc, event)?;
        Ok(Course {
            world: stepped.world,
            delivered,
        })
    }

    /// So many nodes come up.
    #[tactic(auto, using(crate::proofs::Loops::up_more, crate::proofs::EventCounts::up_many))]
    fn all_up(self, alloc: Global, count: u8) -> Result<Course, RunError>
        ensures course { IfOk result (λ c. c ≡ all_up count 1 self) }
        ensures many { IfErr result (λ e. e ≡ TooManyEvents → HasTooManyEvents (all_up count 1 self)) }
    {
        let mut course = self;
        for place in 0..count {
            course = course.happen(alloc, coming_up(place + 1))?;
        }
        Ok(course)
    }

    /// A world of so many nodes, each of which comes up.
    pub(crate) fn begin(alloc: Global, count: u8) -> Result<Course, RunError>
        requires { (1 ≤ count) × (count ≤ 8) }
        ensures course { IfOk result (λ c. c ≡ begun count) }
        ensures many { IfErr result (λ e. e ≡ TooManyEvents → HasTooManyEvents (begun count)) }
    {
        let course = Course::opening(alloc, count)?;
        course.all_up(alloc, count)
    }

    fn deliver_to(self, alloc: Global, number: u64, node: u8) -> Result<Course, RunError>
        ensures course { IfOk result (λ c. c ≡ happens (deliver_to node number) self) }
        ensures many { IfErr result (λ e. e ≡ TooManyEvents → HasTooManyEvents (happens (deliver_to node number) self)) }
    {
        self.happen(alloc, turn(alloc, node, Input::Deliver(number)))
    }

    fn mark(self, number: u64) -> Result<Course, AllocError>
        ensures { IfOk result (λ c. c ≡ record self { delivered = yes_at (number - 1) self.delivered }) }
    {
        let mut course = self;
        course.delivered.mark(number.saturating_sub(1) as usize)?;
        Ok(course)
    }

    fn goes_to(self, alloc: Global, number: u64, receiver: Option<u8>) -> Result<Course, RunError>
        ensures course { IfOk result (λ c. c ≡ goes_to number receiver self) }
        ensures many { IfErr result (λ e. e ≡ TooManyEvents → HasTooManyEvents (goes_to number receiver self)) }
    {
        match receiver {
            Some(node) => self.deliver_to(alloc, number, node),
            None => Ok(self),
        }
    }

    /// The receiver of a message, where it is there.
    fn receiver(&self, number: u64) -> Option<Option<u8>>
        ensures { result ≡ option_map receiver_in (nth number self.now.world.posted) }
    {
        Some(self.world.posted(number)?.receiver)
    }

    /// A message goes to its node, whether it did before or not.
    pub(crate) fn deliver(self, alloc: Global, number: u64) -> Result<Course, RunError>
        ensures course { IfOk result (λ c. c ≡ delivers number self) }
        ensures many { IfErr result (λ e. e ≡ TooManyEvents → HasTooManyEvents (delivers number self)) }
    {
        match self.receiver(number) {
            Some(receiver) => {
                let marked = self.mark(number)?;
                marked.goes_to(alloc, number, receiver)
            }
            None => Ok(self),
        }
    }

    /// The lowest message that was never delivered.
    fn lowest(&mut self) -> Option<u64>
        ensures lowest { result ≡ lowest (length self.old.world.posted) 1 self.old.delivered }
        ensures kept { self.new ≡ self.old }
    {
        let count = self.world.all_posted().len();
        Some(self.delivered.lowest(count)? as u64)
    }

    /// Up to so many times, the lowest message that was never delivered goes to its node.
    #[tactic(auto, using(crate::proofs::Loops::flush_more, crate::proofs::Loops::flush_none, crate::proofs::EventCounts::flush_many))]
    pub(crate) fn flush(self, alloc: Global, most: u16) -> Result<Course, RunError>
        ensures course { IfOk result (λ c. c ≡ flushes most self) }
        ensures many { IfErr result (λ e. e ≡ TooManyEvents → HasTooManyEvents (flushes most self)) }
    {
        let mut course = self;
        for _time in 0..most {
            let Some(number) = course.lowest() else {
                return Ok(course);
            };
            course = course.deliver(alloc, number)?;
        }
        Ok(course)
    }

    /// How its world ended, on a line.
    pub(crate) fn summed(self, alloc: Global, steps: u16) -> Result<Lines, AllocError>
        ensures { IfOk result (λ lines. lines ≡ summed steps self.world) }
    {
        let mut lines = Lines::new(alloc);
        push_summed(alloc, &mut lines, steps, &self.world)?;
        Ok(lines)
    }
}
