//! What can be asked of a play can be asked of its nodes, and they mirror its world behind that.

ghost use Rattle.net_plays.specs.Behind.{AsksAreMet, PlaysGoOn};

use memory_net::laws::letters_are_short;
use model_laws::rules::{ids_rise, ids_stay_drawn, makes_no_id_twice, steps_keep_place};
use world_laws::laws::changes_by_moves;

/// What can be asked of a play can be asked of its nodes.
pub(crate) fn asks_are_met()
    ensures { AsksAreMet }
{
    letters_are_short();
}

/// Behind what happened its nodes mirror its world, no clock shows more than as many of the longest ticks as there were events, and no node came up more
/// often.
pub(crate) fn plays_go_on()
    ensures { PlaysGoOn }
{
    ids_rise();
    changes_by_moves();
    ids_stay_drawn();
    steps_keep_place();
    makes_no_id_twice();
}
