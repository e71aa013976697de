//! Laws alone: bytes draw one thing of a node, and so a schedule has one report.

ghost use Rattle.report_laws.specs.Laws.{DrawOneThing, HaveOneReport};

use at_model::runs::runs_grow;
use determined_nodes::laws::{
    events_have_one_reading, falls_are_determined, hosts_stay_alike, net_nodes_can_go,
    requests_are_determined, starts_are_determined, turns_are_determined,
};
use envelope_cmd::laws::bytes_say_one_thing;
use http_post::laws::{bytes_ask_one_thing, bytes_wait_or_not};
use mirrored_nets::laws::{down_are_marked, nets_mirror};
use model_laws::rules::takes_nothing_back;
use record_bytes::read::are_apart;

/// What bytes draw is determined by them.
#[tactic(auto, using(crate::proofs::DrawnThings::draw_one))]
pub fn bytes_draw_one_thing()
    ensures { DrawOneThing }
{
    bytes_ask_one_thing();
    bytes_wait_or_not();
    bytes_say_one_thing();
}

/// Two reports of a schedule are the same, whatever calls are armed in it.
pub fn schedules_have_one_report()
    ensures { HaveOneReport }
{
    bytes_draw_one_thing();
    are_apart();
    turns_are_determined();
    requests_are_determined();
    starts_are_determined();
    falls_are_determined();
    hosts_stay_alike();
    events_have_one_reading();
    net_nodes_can_go();
    down_are_marked();
    takes_nothing_back();
    runs_grow();
    nets_mirror();
}
