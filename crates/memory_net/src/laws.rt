//! Laws of nets whose nodes know no endpoints but those of one another.

ghost use Rattle.memory_net.specs.Calls.{TurnsAreHeard};
ghost use Rattle.memory_net.specs.Closed.{ExamplesAskSo, HostsTellReceivers, StaysClosed};
ghost use Rattle.memory_net.specs.Goings.{GoOn};
ghost use Rattle.memory_net.specs.NoMessages.{AreNoMessages};
ghost use Rattle.memory_net.specs.ShortLetters.{LettersAreShort};

use decision_log::shrink::shrinks_the_same;
use deliverables::laws::{examples_are_node_bases, nodes_own_is_deliverable};
use deliveries::laws::{calls_post, posts_bring, serve_as_nets, servers_agree};
use endpoints::target::paths_name_targets;
use envelope_cmd::laws::bytes_say_one_thing;
use http_post::laws::bytes_ask_one_thing;
use interposition::book::walks_the_due;
use model_laws::rules::{
    examples_are_apart, incarnations_rise, recovers_the_compacted, steps_keep_place,
};
use node_worlds::laws::nets_keep;
use node_worlds::lives::{crashes_are_met, runs_on_machines};
use site_memory::laws::{chosen_are_images, links_hold};
use site_memory::machine::MemSite;
use site_model::site::Site;
use small_envelopes::laws::brief_are_short;

/// The host of a post says which node of the examples receives it.
pub fn hosts_tell_receivers()
    ensures { HostsTellReceivers }
{
    examples_are_apart();
    paths_name_targets();
}

/// A request that names nodes of the examples alone asks for what can be delivered, and for no other endpoints.
pub fn examples_ask_so()
    ensures { ExamplesAskSo }
{
    examples_are_node_bases();
    nodes_own_is_deliverable();
}

/// Among nodes of the examples whose programs ask for no other endpoints, none is ever held, recorded or posted to, and no text is long.
pub fn stays_closed<S: Site>()
    ensures { StaysClosed S.told }
{
    examples_are_node_bases();
    paths_name_targets();
    steps_keep_place();
    walks_the_due();
    recovers_the_compacted();
    shrinks_the_same();
    incarnations_rise();
    posts_bring();
    runs_on_machines::<S>();
    nets_keep::<S>();
    serve_as_nets::<S>();
}

/// No letter is longer than a node takes.
pub fn letters_are_short()
    ensures { LettersAreShort }
{
    examples_are_node_bases();
    paths_name_targets();
    stays_closed::<MemSite>();
    brief_are_short();
}

/// Bytes that are refused, or that ask for what is due, are no message.
pub fn are_no_messages()
    ensures { AreNoMessages }
{
    bytes_ask_one_thing();
    bytes_say_one_thing();
}

/// On a machine that was told which of its calls is to fail, and of no link, a connection that brings bytes is opened, and they are received.
pub fn turns_are_heard()
    ensures { TurnsAreHeard }
{
    links_hold();
}

/// Whatever is done to a net in memory, it is one of nodes that serve, whose messages are its letters; and so its nodes agree.
pub fn nets_go_on()
    ensures { GoOn }
{
    hosts_tell_receivers();
    examples_are_node_bases();
    stays_closed::<MemSite>();
    serve_as_nets::<MemSite>();
    crashes_are_met::<MemSite>();
    calls_post::<MemSite>();
    chosen_are_images();
    examples_ask_so();
    examples_are_apart();
    servers_agree::<MemSite>();
}
