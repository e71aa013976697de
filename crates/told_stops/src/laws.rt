//! Laws of what a turn did in which its node went down.

ghost use Rattle.told_stops.specs.ToldStops.{HaltsTell, RequestsTell, StopsTell, UnbegunTell};

use fated_walks::laws::walks_by_fates;
use world_laws::laws::changes_by_moves;

/// Of a turn that is cut off at one of its calls the first steps counted, up to one, and what was in the book behind them is lost.
pub fn stops_tell()
    ensures { StopsTell }
{
    walks_by_fates();
    changes_by_moves();
}

/// Of one that halted at its first record that step counted, where the record stands, or none.
pub fn halts_tell()
    ensures { HaltsTell }
{
    walks_by_fates();
    changes_by_moves();
}

/// Of one that is cut off before its first step none did.
pub fn unbegun_tell()
    ensures { UnbegunTell }
{
    walks_by_fates();
    changes_by_moves();
}

/// The same of a request of the node's own program.
pub fn requests_tell()
    ensures { RequestsTell }
{
    walks_by_fates();
    changes_by_moves();
}
