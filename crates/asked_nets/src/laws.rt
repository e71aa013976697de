//! Laws of what is asked of nets that mirror worlds.

ghost use Rattle.asked_nets.specs.BegunFiles.{BegunAreMarked, TriedAreRead};
ghost use Rattle.asked_nets.specs.Happened.{AskedHappen};

use addressed_posts::laws::posts_are_addressed;
use carried_meanings::laws::{bytes_mean_one_thing, posts_dont_wait, posts_say, ticks_ask};
use decision_log::fold::grows_by_one;
use decision_log::shrink::shrinks_the_same;
use deliverables::laws::{examples_are_node_bases, nodes_own_is_deliverable, steps_pass_on};
use deliveries::laws::{calls_post, serve_as_nets};
use endpoints::target::paths_name_targets;
use http_post::laws::bytes_wait_or_not;
use memory_net::laws::{are_no_messages, examples_ask_so, hosts_tell_receivers, stays_closed};
use mirrored_nets::laws::{down_are_marked, failed_starts_leave, nets_mirror, starts_leave};
use model_laws::rules::steps_keep_place;
use node_at::laws::steps_reply;
use node_events::laws::{
    effects_agree, requests_are_events, starts_are_events, turns_answer_so, turns_are_events,
};
use node_worlds::laws::restarts_on_records;
use node_worlds::lives::crashes_are_met;
use reading_laws::laws::{asked_tell, readings_ask, turns_tell};
use record_bytes::read::are_apart;
use record_bytes::write::are_bodies;
use site_memory::laws::{calls_fail_as_told, chosen_are_images, links_hold};
use site_memory::machine::MemSite;
use small_envelopes::laws::bare_are_in_limits;

/// Whatever was done to the node of a net and is read as an event is that event of the world that the net mirrors.
pub fn asked_happen()
    ensures { AskedHappen }
{
    posts_are_addressed();
    bytes_mean_one_thing();
    posts_say();
    posts_dont_wait();
    ticks_ask();
    examples_are_node_bases();
    calls_post::<MemSite>();
    serve_as_nets::<MemSite>();
    are_no_messages();
    examples_ask_so();
    hosts_tell_receivers();
    stays_closed::<MemSite>();
    requests_are_events();
    starts_are_events();
    turns_answer_so();
    effects_agree();
    turns_are_events();
    crashes_are_met::<MemSite>();
    chosen_are_images();
    links_hold();
    bare_are_in_limits();
    bytes_wait_or_not();
    restarts_on_records::<MemSite>();
    are_bodies();
    grows_by_one();
    shrinks_the_same();
    steps_keep_place();
    steps_pass_on();
    steps_reply();
    paths_name_targets();
    nodes_own_is_deliverable();
    nets_mirror();
    readings_ask();
    turns_tell();
    asked_tell();
}

/// The machine of a node that is down and has a Start has files of version 2.
pub fn begun_are_marked()
    ensures { BegunAreMarked }
{
    are_apart();
    examples_are_node_bases();
    serve_as_nets::<MemSite>();
    crashes_are_met::<MemSite>();
    shrinks_the_same();
    down_are_marked();
}

/// The calls of a start that was done, or that the disk failed, are read on such a machine.
pub fn tried_are_read()
    ensures { TriedAreRead }
{
    calls_fail_as_told();
    links_hold();
    are_apart();
    chosen_are_images();
    starts_leave();
    failed_starts_leave();
}
