//! The events that bring a world to rest.

ghost use Rattle.std.specs.List.{AllByRecursion};
ghost use Rattle.std.specs.Prelude.{◌≡◌, ◌≤◌, ◌+◌, IfErr, IfOk, length, map, true};
ghost use Rattle.at_model.specs.World.{run_on};
ghost use Rattle.model_laws.specs.Settlement.{MayStart, is_settled, settle, settle_bound};
ghost use Rattle.settlement.specs.Holdings.{held_up, most_events};
ghost use Rattle.settlement.specs.declared.run_error.RunError.TheVariants.{TooManyEvents};
ghost use Rattle.std.specs.Prelude.{◌<◌, ◌-◌, ◌^◌};
ghost use Rattle.world_laws.specs.Events.{event_of};
ghost use Rattle.world_laws.specs.Runs.{world_of};

use crate::run_error::RunError;
use crate::settling_world::settled;
use model_laws::rules::examples_are_apart;
use settled::laws::settles;
use settling::laws::drains;
use std::alloc::Global;
use world_laws::event::WorldEvent;
use world_laws::world::World;

/// The events that bring a world to rest: each node that is down comes up; and eight times each node lets 5,000 milliseconds go by,
/// and the messages that are posted from then on are delivered, the first one first, until none is left. It runs the world's events
/// once more to find them.
///
/// Behind them no durable participant is in doubt, no subordinate that has voted waits for an outcome, and no decision waits to be
/// carried out, where no node has spent its incarnations (`rests`). They are few (`few`): at most N + 8 (N + 128 (K + 1)) for N
/// nodes, which hold K seats, completion seats, links (two for each subordinate), leaves and activities once all are up. That there
/// are too many is answered only where the world would have more than 4,294,967,295 with them (`many`).
///
/// What they hold is what `World::held` counts then, and `held_once_up` says beforehand (`holdings`).
pub fn settle(alloc: Global, world: &World) -> Result<Vec<WorldEvent>, RunError>
    ensures is { IfOk result (λ events. map event_of events.items ≡ settle (world_of world.now)) }
    ensures many { IfErr result (λ e. e ≡ TooManyEvents → 4294967295 < length world.now.events + length (settle (world_of world.now))) }
    ensures few { length (settle (world_of world.now)) ≤ settle_bound (world_of world.now) }
    ensures held { held_up (world_of world.now) < 2 ^ 64 - 1
        → length (settle (world_of world.now))
        ≤ most_events (length (world_of world.now).nodes) (held_up (world_of world.now)) }
    ensures rests { AllByRecursion MayStart (world_of world.now).nodes → is_settled (run_on (world_of world.now) (settle (world_of world.now))) ≡ true }
{
    examples_are_apart();
    drains();
    settles();
    let _count = world.count();
    let events = settled(alloc, world)?;
    Ok(events)
}
