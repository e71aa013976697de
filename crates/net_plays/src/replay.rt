//! `replay`: the report of a schedule, of what nodes did.

ghost use Rattle.std.specs.Prelude.{◌≡◌, ◌++◌, ◌<◌, ◌^◌, IfErr, IfOk, length, map};
ghost use Rattle.memory_net.specs.Mails.{mail_of};
ghost use Rattle.net_plays.specs.MessageBytes.{shown};
ghost use Rattle.net_plays.specs.NetReports.{IsNetReport, IsPlayOf};
ghost use Rattle.net_plays.specs.Stops.{HasNoReport};
ghost use Rattle.net_plays.specs.Stops.Why.{HasMany, IsFull};
ghost use Rattle.net_plays.specs.declared.play_error.PlayError.TheVariants.{Full, TooManyEvents};
ghost use Rattle.replay_cmd.specs.Laws.{IsReplayable};
ghost use Rattle.replay_cmd.specs.ReportOf.{ended, nodes_of};
ghost use Rattle.replay_cmd.specs.ScheduleLines.{AreWithin};

use crate::lines::take_lines;
use crate::message_bytes::shown;
use crate::play::Play;
use crate::play_error::PlayError;
use asked_nets::net::Net;
use memory_net::laws::stays_closed;
use memory_net::letter::Letter;
use model_laws::rules::{enlists_under_one, examples_are_apart, makes_no_id_twice};
use outcomes::laws::agrees;
use printed_agreement::events_bring;
use replay_cmd::lines::Lines;
use replay_cmd::options::Options;
use schedules::line::{Line, Schedule};
use settled::laws::settles;
use site_memory::machine::MemSite;
use std::alloc::{AllocError, Global};
use world_laws::laws::changes_by_moves;

/// A report, and the nodes that it is of, as they are at its end.
#[derive(Drop)]
pub struct Replayed {
    pub lines: Lines,
    pub net: Net,
}

/// How many nodes the first line names.
fn nodes_of(lines: &[Line]) -> u8
    ensures { result ≡ nodes_of lines.now }
{
    match lines.first() {
        Some(Line::Nodes { count }) => *count,
        _ => 0,
    }
}

/// The play of a schedule.
#[tactic(auto, using(crate::proofs::ReportedPlays::is_play, crate::proofs::StoppedPlays::none_begun, crate::proofs::StoppedPlays::none_taken, crate::proofs::StoppedPlays::none_rested, crate::proofs::AskedLines::lines_within, crate::proofs::AskedLines::lines_begun))]
fn played(alloc: Global, schedule: &Schedule, settle: bool) -> Result<Play, PlayError>
    requires replayable { IsReplayable schedule.now }
    requires within { AreWithin (nodes_of schedule.now) schedule.now }
    ensures done { IfOk result (IsPlayOf settle schedule.now) }
    ensures full { IfErr result (λ e. e ≡ Full → HasNoReport IsFull settle schedule.now) }
    ensures many { IfErr result (λ e. e ≡ TooManyEvents → HasNoReport HasMany settle schedule.now) }
{
    let lines = schedule.as_slice();
    let play = Play::begin(alloc, nodes_of(lines))?;
    let last = take_lines(play, alloc, lines)?;
    let end = last.settle(alloc, settle)?;
    Ok(end)
}

/// There are fewer letters than memory has bytes.
#[tactic(auto, using(crate::proofs::ReportedPlays::few_mails))]
fn are_few(letters: &[Letter])
    ensures { length (map mail_of letters.now) < 2 ^ 64 }
{
    let _count = letters.len();
}

/// What is printed of a play, with the bytes of its letters where they are asked for, and its nodes.
fn print(alloc: Global, play: Play, bytes: bool) -> Result<Replayed, AllocError>
    ensures net { IfOk result (λ r. r.net ≡ play.net) }
    ensures lines { IfOk result (λ r. r.lines ≡ shown bytes (map mail_of play.net.letters) (play.text ++ ended play.world)) }
    ensures few { IfOk result (λ r. length (map mail_of play.net.letters) < 2 ^ 64) }
{
    let (net, report) = play.into_report(alloc)?;
    are_few(net.letters());
    let lines = shown(alloc, report, net.letters(), bytes)?;
    Ok(Replayed { lines, net })
}

/// The report of a schedule, and its nodes: each was started on a machine in memory, and did what the lines ask for, one after another; what is printed
/// is of the events that were read off its calls. The lines that begin with `root`, `sub`, `leaf` or `told` are, in order, those of what happened in the
/// world that the nodes mirror at the end; and as one reads it off the printed lines alone, no two of one transaction end differently
/// (WS-AtomicTransaction 1.2, section 1).
///
/// With `settle` the events that bring the world to rest are asked for behind the last line, and are reported as others are. With `bytes` the bytes by
/// which each message was posted stand behind its line, in hexadecimal.
pub fn replay(alloc: Global, schedule: &Schedule, options: Options) -> Result<Replayed, PlayError>
    requires replayable { IsReplayable schedule.now }
    requires within { AreWithin (nodes_of schedule.now) schedule.now }
    ensures report { IfOk result (λ r. IsNetReport options schedule.now r.lines r.net) }
    ensures full { IfErr result (λ e. e ≡ Full → HasNoReport IsFull options.settle schedule.now) }
    ensures many { IfErr result (λ e. e ≡ TooManyEvents → HasNoReport HasMany options.settle schedule.now) }
{
    changes_by_moves();
    stays_closed::<MemSite>();
    events_bring();
    examples_are_apart();
    agrees();
    enlists_under_one();
    makes_no_id_twice();
    settles();
    let play = played(alloc, schedule, options.settle)?;
    play.is_played();
    let replayed = print(alloc, play, options.bytes)?;
    Ok(replayed)
}
