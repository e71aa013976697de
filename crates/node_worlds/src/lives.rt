//! Laws of nodes on their machines, through all their calls and crashes.

ghost use Rattle.node_worlds.specs.Crashes.{CrashesAreMet};
ghost use Rattle.node_worlds.specs.Lives.{StepsArePrefixed};
ghost use Rattle.node_worlds.specs.Machines.{MachinesAgree, RunsOnMachines};

use crate::laws::{nets_agree, restarts_on_records};
use decision_log::fold::grows_by_one;
use decision_log::shrink::shrinks_the_same;
use record_bytes::read::are_apart;
use record_bytes::write::are_bodies;
use site_model::site::Site;

/// At each moment since a node's start, whatever a crash leaves, its journal, answers and posts are those of a prefix of its steps:
/// of what all its turns and requests did since then, one after the other, also where the last was cut off.
pub fn steps_are_prefixed<S: Site>()
    ensures { StepsArePrefixed S.told }
{
    are_bodies();
    grows_by_one();
}

/// Nodes on machines whose files they alone touch, whatever crashes come in or between their calls, are such a net: each start meets
/// files that stand for what its journal was told to hold.
pub fn runs_on_machines<S: Site>()
    ensures { RunsOnMachines S.told }
{
    are_bodies();
    grows_by_one();
    restarts_on_records::<S>();
    shrinks_the_same();
}

/// Whatever a crash leaves in a call of such a node, or between its calls, stands for what its journal was told by the steps that were
/// begun, in order, and what was sent is theirs: the net goes on behind it.
pub fn crashes_are_met<S: Site>()
    ensures { CrashesAreMet S.told }
{
    are_apart();
    are_bodies();
    grows_by_one();
    restarts_on_records::<S>();
    shrinks_the_same();
}

/// Agreement among nodes with addresses of their own on such machines, in the world that they show (WS-AtomicTransaction 1.2,
/// section 1).
pub fn machines_agree<S: Site>()
    ensures { MachinesAgree S.told }
{
    nets_agree::<S>();
    runs_on_machines::<S>();
}
