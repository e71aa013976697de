//! Laws of what the calls of one event say of it.

ghost use Rattle.reading_laws.specs.GoneRequests.{AskedTell};
ghost use Rattle.reading_laws.specs.GoneTurns.{TurnsTell};
ghost use Rattle.reading_laws.specs.ReadingsAsk.{ReadingsAsk};
ghost use Rattle.reading_laws.specs.RequestsAreRead.{RequestsAreRead};
ghost use Rattle.reading_laws.specs.StartsAreRead.{StartsAreRead};
ghost use Rattle.reading_laws.specs.TurnsAreRead.{TurnsAreRead};

use addressed_posts::laws::posts_are_addressed;
use carried_meanings::laws::{bytes_mean_one_thing, posts_dont_wait, posts_say, ticks_ask};
use decision_log::fold::grows_by_one;
use decision_log::shrink::shrinks_the_same;
use deliverables::laws::{examples_are_node_bases, nodes_own_is_deliverable, steps_pass_on};
use deliveries::laws::{calls_post, serve_as_nets};
use endpoints::target::paths_name_targets;
use http_post::laws::bytes_wait_or_not;
use memory_net::laws::{are_no_messages, examples_ask_so, hosts_tell_receivers, stays_closed};
use mirrored_nets::laws::{failed_starts_leave, starts_fail_for_want, starts_leave};
use model_laws::rules::steps_keep_place;
use node_at::laws::steps_reply;
use node_events::laws::{
    halts_are_events, requests_are_events, stops_are_events, turns_are_events, unbegun_are_events,
};
use node_worlds::laws::restarts_on_records;
use node_worlds::lives::crashes_are_met;
use record_bytes::read::are_apart;
use record_bytes::write::are_bodies;
use site_memory::laws::{calls_fail_as_told, chosen_are_images, links_hold};
use site_memory::machine::MemSite;
use small_envelopes::laws::bare_are_in_limits;
use told_stops::laws::{halts_tell, requests_tell, stops_tell, unbegun_tell};
use torn_appends::laws::appends_torn;
use world_laws::laws::changes_by_moves;

/// Whatever call of a turn is armed, the calls that it made are read.
pub fn turns_are_read()
    ensures { TurnsAreRead }
{
    posts_are_addressed();
    bytes_mean_one_thing();
    posts_say();
    posts_dont_wait();
    ticks_ask();
    examples_are_node_bases();
    calls_post::<MemSite>();
    serve_as_nets::<MemSite>();
    are_no_messages();
    hosts_tell_receivers();
    stays_closed::<MemSite>();
    turns_are_events();
    crashes_are_met::<MemSite>();
    chosen_are_images();
    bare_are_in_limits();
    bytes_wait_or_not();
    restarts_on_records::<MemSite>();
    are_bodies();
    grows_by_one();
    shrinks_the_same();
    steps_keep_place();
    steps_pass_on();
    steps_reply();
    paths_name_targets();
    nodes_own_is_deliverable();
    calls_fail_as_told();
    links_hold();
}

/// So are those of a request.
pub fn requests_are_read()
    ensures { RequestsAreRead }
{
    posts_are_addressed();
    bytes_mean_one_thing();
    posts_say();
    posts_dont_wait();
    ticks_ask();
    examples_are_node_bases();
    calls_post::<MemSite>();
    serve_as_nets::<MemSite>();
    are_no_messages();
    examples_ask_so();
    hosts_tell_receivers();
    stays_closed::<MemSite>();
    requests_are_events();
    turns_are_events();
    crashes_are_met::<MemSite>();
    chosen_are_images();
    bare_are_in_limits();
    bytes_wait_or_not();
    restarts_on_records::<MemSite>();
    are_bodies();
    grows_by_one();
    shrinks_the_same();
    steps_keep_place();
    steps_pass_on();
    steps_reply();
    paths_name_targets();
    nodes_own_is_deliverable();
    calls_fail_as_told();
    links_hold();
}

/// And those of a start of a node that has started before.
pub fn starts_are_read()
    ensures { StartsAreRead }
{
    are_apart();
    chosen_are_images();
    calls_fail_as_told();
    links_hold();
    starts_leave();
    failed_starts_leave();
    starts_fail_for_want();
}

/// What is read is what an event asks for with these fates and this stop.
pub fn readings_ask()
    ensures { ReadingsAsk }
{}

/// Of a turn in which its node went down the first steps are those of its event that counted, and no others.
pub fn turns_tell()
    ensures { TurnsTell }
{
    posts_are_addressed();
    bytes_mean_one_thing();
    posts_say();
    posts_dont_wait();
    ticks_ask();
    examples_are_node_bases();
    calls_post::<MemSite>();
    serve_as_nets::<MemSite>();
    are_no_messages();
    hosts_tell_receivers();
    stays_closed::<MemSite>();
    turns_are_events();
    crashes_are_met::<MemSite>();
    chosen_are_images();
    bare_are_in_limits();
    bytes_wait_or_not();
    restarts_on_records::<MemSite>();
    are_bodies();
    grows_by_one();
    shrinks_the_same();
    steps_keep_place();
    steps_pass_on();
    steps_reply();
    paths_name_targets();
    nodes_own_is_deliverable();
    appends_torn();
    stops_are_events();
    unbegun_are_events();
    halts_are_events();
    stops_tell();
    unbegun_tell();
    halts_tell();
}

/// So are those of a request.
pub fn asked_tell()
    ensures { AskedTell }
{
    posts_are_addressed();
    bytes_mean_one_thing();
    posts_say();
    posts_dont_wait();
    ticks_ask();
    examples_are_node_bases();
    calls_post::<MemSite>();
    serve_as_nets::<MemSite>();
    are_no_messages();
    examples_ask_so();
    hosts_tell_receivers();
    stays_closed::<MemSite>();
    turns_are_events();
    crashes_are_met::<MemSite>();
    chosen_are_images();
    bare_are_in_limits();
    bytes_wait_or_not();
    restarts_on_records::<MemSite>();
    are_bodies();
    grows_by_one();
    shrinks_the_same();
    steps_keep_place();
    steps_pass_on();
    steps_reply();
    paths_name_targets();
    nodes_own_is_deliverable();
    appends_torn();
    requests_are_events();
    changes_by_moves();
    requests_tell();
}
