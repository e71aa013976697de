//! The events that lines ask for.

ghost use Rattle.std.specs.Prelude.{◌≡◌, [], None};
ghost use Rattle.at_model.specs.Views.{up};
ghost use Rattle.at_model.specs.World.{Turn, Ask};
ghost use Rattle.world_laws.specs.Events.{event_of, input_of};

use at_base::event::Local;
use std::alloc::Global;
use world_laws::event::{Fates, Input, WorldEvent};

/// A node comes up, where it is down.
pub fn coming_up(node: u8) -> WorldEvent
    ensures { event_of result ≡ up node }
{
    WorldEvent::Up {
        node,
        landed: true,
        stop: false,
    }
}

/// A turn.
pub fn turn(alloc: Global, node: u8, input: Input) -> WorldEvent
    ensures { event_of result ≡ Turn node (input_of input) [] None }
{
    WorldEvent::Turn {
        node,
        input,
        fates: Fates::from_vec(Vec::new(alloc)),
        until: None,
    }
}

/// A request of a node's own program.
pub fn asking(alloc: Global, node: u8, local: Local) -> WorldEvent
    ensures { event_of result ≡ Ask node local [] None }
{
    WorldEvent::Ask {
        node,
        local,
        fates: Fates::from_vec(Vec::new(alloc)),
        until: None,
    }
}
