//! What an event changes in a world.

ghost use Rattle.world_laws.specs.Moves.{ChangesByMoves};

use interposition::book::loses_as_the_model;
use model_laws::rules::ids_rise;

/// An event changes a world by the moves of its node, and by nothing else.
pub fn changes_by_moves()
    ensures { ChangesByMoves }
{
    ids_rise();
    loses_as_the_model();
}
