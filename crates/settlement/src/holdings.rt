//! How much a world holds that comes to rest.

ghost use Rattle.std.specs.Prelude.{◌≡◌, ◌≤◌, ◌<◌, ◌+◌, ◌-◌, ◌^◌, IfErr, IfOk, length};
ghost use Rattle.model_laws.specs.Settlement.{all_up, settle};
ghost use Rattle.settlement.specs.declared.run_error.RunError.TheVariants.{TooManyEvents};
ghost use Rattle.settlement.specs.Holdings.{held_up, most_events};
ghost use Rattle.world_laws.specs.Runs.{world_of};

use crate::run_error::RunError;
use crate::settling_world::held_up;
use settling::laws::drains;
use std::alloc::Global;
use world_laws::world::World;

/// How much the nodes of a world hold once all are up (`World::held`). It runs the world's events once more to find it.
///
/// The events that bring the world to rest are few by it (`few`): at most N + 8 (N + 128 (K + 1)) for N nodes that hold K.
#[tactic(auto, using(crate::proofs::EventCounts::few_counted))]
pub fn held_once_up(alloc: Global, world: &World) -> Result<u128, RunError>
    ensures held { IfOk result (λ held. held ≡ held_up (world_of world.now)) }
    ensures few { IfOk result
        (λ held. held < 2 ^ 64 - 1
        → length (settle (world_of world.now)) ≤ most_events (length (world_of world.now).nodes) held) }
    ensures many { IfErr result (λ e. e ≡ TooManyEvents → 4294967295 < length world.now.events + length (all_up (world_of world.now)).events) }
{
    drains();
    let held = held_up(alloc, world)?;
    Ok(held)
}
