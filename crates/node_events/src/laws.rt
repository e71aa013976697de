//! Laws of what a call of a node does in a world.

ghost use Rattle.node_events.specs.AnsweredTurns.{TurnsAnswerSo};
ghost use Rattle.node_events.specs.CallEffects.{EffectsAgree};
ghost use Rattle.node_events.specs.NodeEvents.{HaltsAreEvents, RequestsAreEvents, StartsAreEvents, StopsAreEvents, TurnsAreEvents, UnbegunAreEvents};

use fated_walks::laws::walks_by_fates;
use world_laws::laws::changes_by_moves;

/// A turn of a node that went to its end is one event of the world, with the fates that its calls had.
pub fn turns_are_events()
    ensures { TurnsAreEvents }
{
    walks_by_fates();
    changes_by_moves();
}

/// So is what a stop leaves of it that comes at one of its calls.
pub fn stops_are_events()
    ensures { StopsAreEvents }
{
    walks_by_fates();
    changes_by_moves();
}

/// So is a turn at whose first record the node halts.
pub fn halts_are_events()
    ensures { HaltsAreEvents }
{
    walks_by_fates();
    changes_by_moves();
}

/// So is one at whose node the machine stops before its first step.
pub fn unbegun_are_events()
    ensures { UnbegunAreEvents }
{
    walks_by_fates();
    changes_by_moves();
}

/// The same of a request of the node's own program.
pub fn requests_are_events()
    ensures { RequestsAreEvents }
{
    walks_by_fates();
    changes_by_moves();
}

/// And of a node that starts, that fails to, or that ends.
pub fn starts_are_events()
    ensures { StartsAreEvents }
{
    changes_by_moves();
}

/// What a turn of a node that went to its end answered is the status that the world's steps of its event answer; to bytes that are refused, of
/// whose answer the world knows nothing, it is the status of their refusal.
pub fn turns_answer_so()
    ensures { TurnsAnswerSo }
{
    walks_by_fates();
    changes_by_moves();
}

/// The effects of a turn of a node that went to its end are, in order, those of its event in the world, whatever became of its calls. So it is
/// of a request that was done; one that is refused has none.
pub fn effects_agree()
    ensures { EffectsAgree }
{
    walks_by_fates();
    changes_by_moves();
}
