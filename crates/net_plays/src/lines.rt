//! The lines of a schedule, taken one after another.

ghost use Rattle.std.specs.Prelude.{◌≡◌, Err, IfErr, IfOk};
ghost use Rattle.armed_calls.specs.declared.fault.Fault.TheVariants as faults;
ghost use Rattle.at_model.specs.Views.{request, tick_at, up};
ghost use Rattle.net_plays.specs.PlayedLines.{Brings, Comes, Takes, TakesAll};
ghost use Rattle.net_plays.specs.Plays.{HasBegun};
ghost use Rattle.net_plays.specs.Stops.{StopsComing, StopsIn, StopsInLines, StopsInjection};
ghost use Rattle.net_plays.specs.Stops.Why.{HasMany, IsFull};
ghost use Rattle.net_plays.specs.declared.play_error.PlayError.TheVariants.{Full, TooManyEvents};
ghost use Rattle.mirrored_nets.specs.ExampleRequests.{IsOfEight};
ghost use Rattle.replay_cmd.specs.ScheduleLines.{AreWithin, IsWithin};
ghost use Rattle.schedules.specs.LineTexts.{IsNode};
ghost use Rattle.schedules.specs.Values.{bytes_in};

use crate::play::Play;
use crate::play_error::PlayError;
use armed_calls::fault::{Armed, Fault};
use at_base::event::Local;
use raw_requests::{Drawn, draw};
use replay_cmd::asked_events::{asking, coming_up, turn};
use replay_cmd::requests::{begin, interpose, work};
use schedules::line::{Leaves, Line};
use schedules::values::bytes_in;
use std::alloc::Global;
use world_laws::event::{Input, WorldEvent};

/// A call at which a node stops.
fn stop(call: u32, leaves: Leaves) -> Armed
    ensures { result ≡ record { call = call; fault = faults.Stop leaves } }
{
    Armed {
        call,
        fault: Fault::Stop { leaves },
    }
}

/// A call that fails.
fn failure(call: u32) -> Armed
    ensures { result ≡ record { call = call; fault = faults.Fail } }
{
    Armed {
        call,
        fault: Fault::Fail,
    }
}

/// A node is asked by its own program.
#[tactic(auto, using(crate::proofs::AskedLines::ask_can))]
fn ask(play: Play, alloc: Global, node: u8, local: Local) -> Result<Play, PlayError>
    requires there { IsNode play.count node }
    requires eight { IsOfEight local }
    requires begun { HasBegun play }
    ensures done { IfOk result (Comes (request node local) play) }
    ensures full { IfErr result (λ e. e ≡ Full → StopsComing IsFull (request node local) play) }
    ensures many { IfErr result (λ e. e ≡ TooManyEvents → StopsComing HasMany (request node local) play) }
    ensures room { StopsComing IsFull (request node local) play → result ≡ Err Full }
{
    play.come(alloc, &asking(alloc, node, local))
}

/// So many milliseconds go by at a node.
#[tactic(auto, using(crate::proofs::AskedLines::tick_can))]
fn tick(play: Play, alloc: Global, node: u8, ms: u32) -> Result<Play, PlayError>
    requires there { IsNode play.count node }
    requires begun { HasBegun play }
    ensures done { IfOk result (Comes (tick_at node ms) play) }
    ensures full { IfErr result (λ e. e ≡ Full → StopsComing IsFull (tick_at node ms) play) }
    ensures many { IfErr result (λ e. e ≡ TooManyEvents → StopsComing HasMany (tick_at node ms) play) }
    ensures room { StopsComing IsFull (tick_at node ms) play → result ≡ Err Full }
{
    play.come(alloc, &turn(alloc, node, Input::Tick(ms)))
}

/// A node comes up, where it is down.
#[tactic(auto, using(crate::proofs::AskedLines::up_here))]
fn come_up(play: Play, alloc: Global, node: u8) -> Result<Play, PlayError>
    requires there { IsNode play.count node }
    requires begun { HasBegun play }
    ensures done { IfOk result (Comes (up node) play) }
    ensures full { IfErr result (λ e. e ≡ Full → StopsComing IsFull (up node) play) }
    ensures many { IfErr result (λ e. e ≡ TooManyEvents → StopsComing HasMany (up node) play) }
    ensures room { StopsComing IsFull (up node) play → result ≡ Err Full }
{
    play.come(alloc, &coming_up(node))
}

/// Bytes come to a node.
#[tactic(auto, using(crate::proofs::StoppedPlays::stops_injection, crate::proofs::AskedLines::raw_can, crate::proofs::AskedLines::begun_behind))]
fn bring(play: Play, alloc: Global, bytes: &[u8], node: u8) -> Result<Play, PlayError>
    requires there { IsNode play.count node }
    requires begun { HasBegun play }
    ensures done { IfOk result (Brings bytes.now node play) }
    ensures full { IfErr result (λ e. e ≡ Full → StopsInjection IsFull bytes.now node play) }
    ensures many { IfErr result (λ e. e ≡ TooManyEvents → StopsInjection HasMany bytes.now node play) }
{
    match draw(alloc, bytes)? {
        Drawn::Forged => Ok(play.forge(alloc, node)?),
        Drawn::Refused {
            status,
            waits: _waits,
        } => {
            let armed = play.armed_at(node);
            play.happen(alloc, armed, &turn(alloc, node, Input::Raw), bytes, status)
        }
    }
}

fn inject(play: Play, alloc: Global, digits: &str, node: u8) -> Result<Play, PlayError>
    requires there { IsNode play.count node }
    requires begun { HasBegun play }
    ensures done { IfOk result (Brings (bytes_in digits.now) node play) }
    ensures full { IfErr result (λ e. e ≡ Full → StopsInjection IsFull (bytes_in digits.now) node play) }
    ensures many { IfErr result (λ e. e ≡ TooManyEvents → StopsInjection HasMany (bytes_in digits.now) node play) }
{
    let bytes = bytes_in(alloc, digits)?;
    bring(play, alloc, bytes.as_slice(), node)
}

#[tactic(auto, using(crate::proofs::AskedLines::begin_names, crate::proofs::AskedLines::interpose_names, crate::proofs::AskedLines::work_names, crate::proofs::AskedLines::crash_can))]
fn take_line(play: Play, alloc: Global, line: &Line) -> Result<Play, PlayError>
    requires within { IsWithin play.count line.now }
    requires begun { HasBegun play }
    ensures done { IfOk result (Takes line.now play) }
    ensures full { IfErr result (λ e. e ≡ Full → StopsIn IsFull line.now play) }
    ensures many { IfErr result (λ e. e ≡ TooManyEvents → StopsIn HasMany line.now play) }
{
    match line {
        Line::Nodes { .. } => Ok(play),
        Line::Begin {
            node,
            coordinator,
            ms,
        } => {
            let local = begin(alloc, *coordinator, *ms)?;
            ask(play, alloc, *node, local)
        }
        Line::Interpose {
            node,
            activity,
            coordinator,
        } => {
            let local = interpose(alloc, *activity, *coordinator)?;
            ask(play, alloc, *node, local)
        }
        Line::Work {
            node,
            activity,
            service,
            kind,
            vote,
        } => {
            let local = work(alloc, *activity, *service, *kind, *vote)?;
            ask(play, alloc, *node, local)
        }
        Line::Commit { node, activity } => ask(
            play,
            alloc,
            *node,
            Local::Commit {
                activity: *activity,
            },
        ),
        Line::Rollback { node, activity } => ask(
            play,
            alloc,
            *node,
            Local::Rollback {
                activity: *activity,
            },
        ),
        Line::Deliver { message } => play.deliver(alloc, *message as u64),
        Line::Flush { most } => play.flush(alloc, *most),
        Line::Tick { node, ms } => tick(play, alloc, *node, *ms),
        Line::Crash { node } => play.come(alloc, &WorldEvent::Crash { node: *node }),
        Line::Up { node } => come_up(play, alloc, *node),
        Line::Stop { node, call, leaves } => Ok(play.arm(*node, stop(*call, *leaves))),
        Line::Fail { node, call } => Ok(play.arm(*node, failure(*call))),
        Line::Inject { node, digits } => inject(play, alloc, digits.as_str(), *node),
    }
}

/// Takes each line.
pub(crate) fn take_lines(play: Play, alloc: Global, lines: &[Line]) -> Result<Play, PlayError>
    requires within { AreWithin play.count lines.now }
    requires begun { HasBegun play }
    ensures done { IfOk result (TakesAll lines.now play) }
    ensures full { IfErr result (λ e. e ≡ Full → StopsInLines IsFull lines.now play) }
    ensures many { IfErr result (λ e. e ≡ TooManyEvents → StopsInLines HasMany lines.now play) }
{
    let mut play = play;
    for line in lines {
        play = take_line(play, alloc, line)?;
    }
    Ok(play)
}
