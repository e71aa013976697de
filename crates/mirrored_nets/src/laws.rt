//! Laws of nets that mirror worlds.

ghost use Rattle.mirrored_nets.specs.DueStarts.{DownCanBegin, StartsFailForWant};
ghost use Rattle.mirrored_nets.specs.Goings.{NetsMirror};
ghost use Rattle.mirrored_nets.specs.LeftStarts.{DownAreMarked, FailedStartsLeave, StartsLeave};

use addressed_posts::laws::posts_are_addressed;
use carried_meanings::laws::{bytes_mean_one_thing, posts_dont_wait, posts_say, ticks_ask};
use decision_log::fold::grows_by_one;
use decision_log::shrink::shrinks_the_same;
use deliverables::laws::{examples_are_node_bases, nodes_own_is_deliverable, steps_pass_on};
use deliveries::laws::{calls_post, serve_as_nets};
use endpoints::target::paths_name_targets;
use http_post::laws::bytes_wait_or_not;
use memory_net::laws::{are_no_messages, examples_ask_so, hosts_tell_receivers, stays_closed};
use model_laws::rules::{recovers_the_compacted, steps_keep_place};
use node_at::laws::steps_reply;
use node_events::laws::{
    effects_agree, halts_are_events, requests_are_events, starts_are_events, stops_are_events,
    turns_answer_so, turns_are_events, unbegun_are_events,
};
use node_worlds::laws::{nets_keep, restarts_on_records};
use node_worlds::lives::{crashes_are_met, runs_on_machines};
use record_bytes::read::are_apart;
use record_bytes::write::are_bodies;
use site_memory::laws::{calls_fail_as_told, chosen_are_images, links_hold};
use site_memory::machine::MemSite;
use small_envelopes::laws::bare_are_in_limits;
use torn_appends::laws::appends_torn;
use world_laws::laws::changes_by_moves;

/// The machine of a node that is down and has started before has files of version 2.
pub fn down_are_marked()
    ensures { DownAreMarked }
{
    examples_are_node_bases();
    serve_as_nets::<MemSite>();
    crashes_are_met::<MemSite>();
    are_apart();
}

/// The machine of a node that is down can begin, where it has incarnations left and its journal has room.
pub fn down_can_begin()
    ensures { DownCanBegin }
{
    examples_are_node_bases();
    serve_as_nets::<MemSite>();
    crashes_are_met::<MemSite>();
    are_apart();
}

/// Where a node can begin a start fails for want of memory or by the disk alone.
pub fn starts_fail_for_want()
    ensures { StartsFailForWant }
{
    are_apart();
}

/// What a crash behind some of the calls of a start leaves of such files.
pub fn starts_leave()
    ensures { StartsLeave }
{
    are_apart();
    are_bodies();
    chosen_are_images();
}

/// What one leaves at whose call it failed that was to fail.
pub fn failed_starts_leave()
    ensures { FailedStartsLeave }
{
    are_apart();
    are_bodies();
    chosen_are_images();
    calls_fail_as_told();
    links_hold();
}

/// Whatever events come to a world, and are done to hosts in memory, the hosts mirror it.
pub fn nets_mirror()
    ensures { NetsMirror }
{
    posts_are_addressed();
    bytes_mean_one_thing();
    posts_say();
    posts_dont_wait();
    ticks_ask();
    examples_are_node_bases();
    calls_post::<MemSite>();
    serve_as_nets::<MemSite>();
    are_no_messages();
    examples_ask_so();
    hosts_tell_receivers();
    stays_closed::<MemSite>();
    halts_are_events();
    requests_are_events();
    starts_are_events();
    turns_answer_so();
    effects_agree();
    stops_are_events();
    turns_are_events();
    unbegun_are_events();
    changes_by_moves();
    crashes_are_met::<MemSite>();
    chosen_are_images();
    bare_are_in_limits();
    appends_torn();
    bytes_wait_or_not();
    recovers_the_compacted();
    nets_keep::<MemSite>();
    runs_on_machines::<MemSite>();
    restarts_on_records::<MemSite>();
    are_apart();
    are_bodies();
    grows_by_one();
    shrinks_the_same();
    steps_keep_place();
    steps_pass_on();
    steps_reply();
    paths_name_targets();
    nodes_own_is_deliverable();
}
