//! An event that nodes did happens to the world that they mirror, and is printed.

ghost use Rattle.std.specs.Prelude.{◌≡◌, ◌≤◌, ◌<◌, ◌++◌, ◌∷◌, [], IfErr, IfOk, OnOk, length, map};
ghost use Rattle.asked_nets.specs.Behind.{events_by, world_behind};
ghost use Rattle.at_model.specs.World.{Crash, world_step};
ghost use Rattle.net_plays.specs.EventTexts.{event_lines, losses_by};
ghost use Rattle.settlement.specs.declared.run_error.RunError.TheVariants.{TooManyEvents};
ghost use Rattle.world_laws.specs.Events.{event_of};
ghost use Rattle.world_laws.specs.Moves.{losses_of, steps_of};
ghost use Rattle.world_laws.specs.Runs.{world_of};

use armed_calls::fault::Fault;
use replay_cmd::event_lines::{behind_of, push_before, push_event};
use replay_cmd::lines::Lines;
use settlement::run_error::RunError;
use std::alloc::Global;
use world_laws::event::WorldEvent;
use world_laws::world::{Stepped, World};

/// A world takes no more events.
const MOST: usize = 4_294_967_295;

#[tactic(auto, using(crate::proofs::Events::one_more))]
fn step(world: World, alloc: Global, event: WorldEvent) -> Result<Stepped, RunError>
    ensures count { IfOk result (λ s. s.world.count ≡ world.count) }
    ensures events { IfOk result (λ s. map event_of s.world.events ≡ map event_of world.events ++ event_of event ∷ []) }
    ensures world { IfOk result (λ s. world_of s.world ≡ world_step (world_of world) (event_of event)) }
    ensures steps { IfOk result (λ s. s.steps ≡ steps_of (world_of world) (event_of event)) }
    ensures lost { IfOk result (λ s. s.lost ≡ losses_of (world_of world) (event_of event)) }
    ensures many { IfErr result (λ e. e ≡ TooManyEvents → 4294967295 ≤ length world.events) }
{
    if world.events().len() >= MOST {
        return Err(RunError::TooManyEvents);
    }
    let stepped = world.step(alloc, event)?;
    Ok(stepped)
}

/// The node goes down behind the steps of an event.
fn go_down(stepped: Stepped, alloc: Global, node: u8) -> Result<Stepped, RunError>
    ensures count { IfOk result (λ s. s.world.count ≡ stepped.world.count) }
    ensures events { IfOk result (λ s. map event_of s.world.events ≡ map event_of stepped.world.events ++ Crash node ∷ []) }
    ensures world { IfOk result (λ s. world_of s.world ≡ world_step (world_of stepped.world) (Crash node)) }
    ensures steps { IfOk result (λ s. s.steps ≡ stepped.steps) }
    ensures lost { IfOk result (λ s. s.lost ≡ losses_of (world_of stepped.world) (Crash node)) }
    ensures many { IfErr result (λ e. e ≡ TooManyEvents → 4294967295 ≤ length stepped.world.events) }
{
    let Stepped {
        world,
        steps,
        lost: _lost,
        left,
    } = stepped;
    let Stepped {
        world,
        steps: _steps,
        lost,
        left: _left,
    } = step(world, alloc, WorldEvent::Crash { node })?;
    Ok(Stepped {
        world,
        steps,
        lost,
        left,
    })
}

/// An event happens, behind whose steps its node went down, or didn't.
#[tactic(auto, using(crate::proofs::Events::events_down, crate::proofs::Events::first_many, crate::proofs::Events::second_many))]
fn step_by(world: World, alloc: Global, event: WorldEvent, down: bool) -> Result<Stepped, RunError>
    ensures count { IfOk result (λ s. s.world.count ≡ world.count) }
    ensures events { IfOk result (λ s. map event_of s.world.events ≡ map event_of world.events ++ events_by down (event_of event)) }
    ensures world { IfOk result (λ s. world_of s.world ≡ world_behind down (world_of world) (event_of event)) }
    ensures steps { IfOk result (λ s. s.steps ≡ steps_of (world_of world) (event_of event)) }
    ensures lost { IfOk result (λ s. s.lost ≡ losses_by down (world_of world) (event_of event)) }
    ensures many { IfErr result (λ e. e ≡ TooManyEvents → 4294967295 < length (map event_of world.events ++ events_by down (event_of event))) }
{
    let node = event.node();
    let stepped = step(world, alloc, event)?;
    if down {
        go_down(stepped, alloc, node)
    } else {
        Ok(stepped)
    }
}

/// An event happens, and is printed. It may have met this fault; raw bytes draw this status.
#[tactic(auto, using(crate::proofs::EventTexts::happened))]
pub(crate) fn happen(
    alloc: Global,
    world: World,
    lines: &mut Lines,
    event: WorldEvent,
    down: bool,
    fault: Option<Fault>,
    drawn: u16,
) -> Result<World, RunError>
    ensures count { IfOk result (λ w. w.count ≡ world.count) }
    ensures events { IfOk result (λ w. map event_of w.events ≡ map event_of world.events ++ events_by down (event_of event)) }
    ensures world { IfOk result (λ w. world_of w ≡ world_behind down (world_of world) (event_of event)) }
    ensures text { OnOk result (lines.new ≡ lines.old ++ event_lines down fault drawn (world_of world) (event_of event)) }
    ensures many { IfErr result (λ e. e ≡ TooManyEvents → 4294967295 < length (map event_of world.events ++ events_by down (event_of event))) }
{
    let before = world.all_posted().len();
    let node = event.node();
    let behind = behind_of(&world, &event);
    push_before(alloc, lines, &world, &event)?;
    let stepped = step_by(world, alloc, event, down)?;
    push_event(alloc, lines, node, fault, drawn, behind, before, &stepped)?;
    Ok(stepped.world)
}
