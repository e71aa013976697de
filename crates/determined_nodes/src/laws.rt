//! Two calls of nodes that are alike, on machines that are alike, do the same.

ghost use Rattle.determined_nodes.specs.AlikeHosts.{HostsStayAlike};
ghost use Rattle.determined_nodes.specs.FallsAreDetermined.{FallsAreDetermined};
ghost use Rattle.determined_nodes.specs.NetNodes.{NetNodes};
ghost use Rattle.determined_nodes.specs.OneReading.{EventsHaveOneReading};
ghost use Rattle.determined_nodes.specs.Outs.{LeaveOneWay};
ghost use Rattle.determined_nodes.specs.RequestsAreDetermined.{RequestsAreDetermined};
ghost use Rattle.determined_nodes.specs.StartsAreDetermined.{StartsAreDetermined};
ghost use Rattle.determined_nodes.specs.TurnsAreDetermined.{TurnsAreDetermined};

use carried_meanings::laws::{bytes_mean_one_thing, posts_dont_wait, posts_say, ticks_ask};
use decision_log::fold::grows_by_one;
use decision_log::shrink::shrinks_the_same;
use deliverables::laws::examples_are_node_bases;
use deliveries::laws::{calls_post, serve_as_nets};
use http_post::laws::bytes_wait_or_not;
use memory_net::laws::{hosts_tell_receivers, stays_closed};
use mirrored_nets::laws::starts_fail_for_want;
use node_at::laws::steps_reply;
use node_worlds::laws::restarts_on_records;
use node_worlds::lives::crashes_are_met;
use record_bytes::read::are_apart;
use record_bytes::write::are_bodies;
use site_memory::laws::{calls_fail_as_told, chosen_are_images, links_hold};
use site_memory::machine::MemSite;
use small_envelopes::laws::bare_are_in_limits;
use wire_posts::laws::what_is_posted_arrives;

/// Outs leave by one row of calls.
#[tactic(auto, using(crate::proofs::Leavings::leave_one_way))]
pub fn outs_leave_one_way()
    ensures { LeaveOneWay }
{
    what_is_posted_arrives();
}

/// What a connection brings to a node, and which call of its machine is to fail, determines what its turn answers, which calls it makes, and
/// what is behind it.
pub fn turns_are_determined()
    ensures { TurnsAreDetermined }
{
    what_is_posted_arrives();
    bytes_mean_one_thing();
    bytes_wait_or_not();
    links_hold();
    calls_fail_as_told();
    steps_reply();
    are_bodies();
}

/// So does a request of a node's program.
pub fn requests_are_determined()
    ensures { RequestsAreDetermined }
{
    what_is_posted_arrives();
    links_hold();
    calls_fail_as_told();
    are_bodies();
}

/// So do a machine's files determine a start on it.
pub fn starts_are_determined()
    ensures { StartsAreDetermined }
{
    are_apart();
    links_hold();
    calls_fail_as_told();
    starts_fail_for_want();
}

/// And so does a choice determine what a crash leaves of it.
#[tactic(auto, using(crate::proofs::FallsAreDetermined::falls_are_determined))]
pub fn falls_are_determined()
    ensures { FallsAreDetermined }
{}

/// So hosts that are alike stay so.
#[tactic(auto, using(crate::proofs::AlikeHosts::hosts_stay_alike))]
pub fn hosts_stay_alike()
    ensures { HostsStayAlike }
{
    falls_are_determined();
}

/// The calls of a turn, a request and a start are read in one way, so those of nodes that are alike are one event.
#[tactic(auto, using(crate::proofs::OneReading::events_have_one_reading))]
pub fn events_have_one_reading()
    ensures { EventsHaveOneReading }
{}

/// Nodes that are up in a net which mirrors a world are such as these laws speak of, and so are the files of one that has started before, and of a
/// new machine.
pub fn net_nodes_can_go()
    ensures { NetNodes }
{
    bytes_mean_one_thing();
    posts_say();
    posts_dont_wait();
    ticks_ask();
    examples_are_node_bases();
    calls_post::<MemSite>();
    serve_as_nets::<MemSite>();
    hosts_tell_receivers();
    stays_closed::<MemSite>();
    crashes_are_met::<MemSite>();
    chosen_are_images();
    bare_are_in_limits();
    bytes_wait_or_not();
    restarts_on_records::<MemSite>();
    are_bodies();
    grows_by_one();
    shrinks_the_same();
}
