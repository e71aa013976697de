//! Laws of what is delivered among nodes that serve.

ghost use Rattle.deliveries.specs.ByteNets.{ServeAsNets, ServersAgree};
ghost use Rattle.deliveries.specs.DeliverableNets.{NetsCanDeliver};
ghost use Rattle.deliveries.specs.Deliveries.{PostsBring};
ghost use Rattle.deliveries.specs.GrowingServers.{ServersGrow};
ghost use Rattle.deliveries.specs.Letters.{CallsPost};

use arrivals::laws::heads_are_bases;
use decision_log::shrink::shrinks_the_same;
use deliverables::laws::{
    long_posts_ask_nothing, nodes_own_is_deliverable, posts_can_be_read, recovery_passes_on,
    steps_pass_on, what_is_taken_is_decoded,
};
use endpoints::target::paths_name_targets;
use http_post::laws::{bytes_ask_one_thing, posts_are_read_back};
use interposition::book::walks_the_due;
use model_laws::rules::{incarnations_rise, recovers_the_compacted, steps_keep_place};
use node_worlds::laws::nets_keep;
use node_worlds::lives::{machines_agree, runs_on_machines};
use site_model::site::Site;

/// Whatever nodes do that serve and post to one another, over any machine: all that they hold, record and post can be delivered,
/// where their programs ask for nothing else.
pub fn nets_can_deliver<S: Site>()
    ensures { NetsCanDeliver S.told }
{
    nodes_own_is_deliverable();
    steps_pass_on();
    recovery_passes_on();
    paths_name_targets();
    steps_keep_place();
    walks_the_due();
    recovers_the_compacted();
    shrinks_the_same();
    incarnations_rise();
}

/// What the calls of a node post leaves its machine as the letters of what its steps sent, one by one and in order.
pub fn calls_post<S: Site>()
    ensures { CallsPost S.told }
{}

/// The bytes of a message that was posted to a node ask it for no other message than that.
pub fn posts_bring()
    ensures { PostsBring }
{
    posts_are_read_back();
    bytes_ask_one_thing();
    heads_are_bases();
    posts_can_be_read();
    long_posts_ask_nothing();
    what_is_taken_is_decoded();
}

/// Nodes on machines, over a network that brings to a node any bytes that were posted to it, any number of times and in any order, and
/// any other bytes that are no message, are nets as they are over a network of messages.
pub fn serve_as_nets<S: Site>()
    ensures { ServeAsNets S.told }
{
    nodes_own_is_deliverable();
    steps_pass_on();
    recovery_passes_on();
    paths_name_targets();
    steps_keep_place();
    walks_the_due();
    recovers_the_compacted();
    shrinks_the_same();
    incarnations_rise();
    posts_bring();
    runs_on_machines::<S>();
    nets_keep::<S>();
}

/// What was posted and accepted among such nodes, and what happened, only grows: each net that they came through shows an earlier moment
/// of the world that they show.
pub fn servers_grow<S: Site>()
    ensures { ServersGrow S.told }
{}

/// Agreement among such nodes in the world that they show, whatever is lost, repeated or reordered, and whatever their crashes leave: of no
/// transaction, by what their own steps accepted, do two participants end differently (WS-AtomicTransaction 1.2, section 1).
pub fn servers_agree<S: Site>()
    ensures { ServersAgree S.told }
{
    serve_as_nets::<S>();
    machines_agree::<S>();
}
