//! A play on its way.

ghost use Rattle.std.specs.Prelude.{◌≡◌, ◌≤◌, ◌<◌, ◌+◌, ◌++◌, Err, IfErr, IfOk, Some, false, length, map, option_copied, option_map, true};
ghost use Rattle.at_model.specs.World.{nth};
ghost use Rattle.mirrored_nets.specs.Rooms.{HasRoomAt, IsFullAt};
ghost use Rattle.model_laws.specs.Settlement.{settle};
ghost use Rattle.net_plays.specs.Asks.{CanAsk};
ghost use Rattle.net_plays.specs.Behind.{IsArmedBehind};
ghost use Rattle.net_plays.specs.PlayedLines.{marked, printed, with_armed};
ghost use Rattle.net_plays.specs.Stops.{Stops};
ghost use Rattle.net_plays.specs.Stops.Why.{IsFull, HasMany};
ghost use Rattle.net_plays.specs.declared.play_error.PlayError.TheVariants.{Full, TooManyEvents};
ghost use Rattle.net_plays.specs.Plays.{Happens, IsOpening, IsPlayed, armed_behind, fault_of};
ghost use Rattle.replay_cmd.specs.Deliveries.{lowest};
ghost use Rattle.replay_cmd.specs.Lines.{forged_line, no_message_line};
ghost use Rattle.replay_cmd.specs.ReportOf.{armed_at, ended, receiver_in};
ghost use Rattle.world_laws.specs.Events.{event_of};

use crate::happenings::happen;
use crate::mirroring::{asks_are_met, plays_go_on};
use crate::play_error::PlayError;
use armed_calls::fault::{Armed, Fault};
use asked_nets::fault::Fault as Unmet;
use asked_nets::net::{Net, Taken};
use memory_net::host::Host;
use mirrored_nets::host::has_room;
use replay_cmd::arms::{Arms, still_armed};
use replay_cmd::deliveries::Delivered;
use replay_cmd::endings::push_ended;
use replay_cmd::lines::Lines;
use settlement::run_error::RunError;
use settlement::settle::settle;
use std::alloc::{AllocError, Global};
use std::marker::Model;
use world_laws::event::WorldEvent;
use world_laws::world::World;

/// How far a schedule that is played over nodes has come.
pub(crate) struct Play {
    net: Net,
    world: World,
    delivered: Delivered,
    armed: Arms,
    lines: Lines,
}

impl Drop for Play {
    fn drop(self) {
        let Play {
            net: _net,
            world: _world,
            delivered: _delivered,
            armed: _armed,
            lines: _lines,
        } = self;
    }
}

impl Model for Play {
    ghost use Rattle.std.specs.Prelude.{map};
    ghost use Rattle.net_plays.specs.Behind.{IsBehind};
    ghost use Rattle.net_plays.specs.Plays.{Play as Known};
    ghost use Rattle.world_laws.specs.Events.{event_of};
    ghost use Rattle.world_laws.specs.Runs.{world_of};

    ghost Value = { Known };

    ghost view = { λ p. record { count = p.world.count; net = p.net; world = world_of p.world; events = map event_of p.world.events; delivered = p.delivered; armed = p.armed; text = p.lines } };

    ghost invariant = { λ p. IsBehind p.world.count p.net (world_of p.world) (map event_of p.world.events) };
}

/// What is armed at a node behind what was asked for there, for which its machine made so many calls.
fn armed_behind(
    armed: Option<Armed>,
    was_up: bool,
    calls: usize,
    asked: &WorldEvent,
) -> Option<Armed>
    ensures { result ≡ armed_behind armed was_up calls (event_of asked.now) }
{
    let armed = armed?;
    match asked {
        WorldEvent::Crash { .. } => { if was_up { None } else { Some(armed) } }
        WorldEvent::Turn { .. } | WorldEvent::Ask { .. } | WorldEvent::Up { .. } => {
            still_armed(armed, (armed.call as usize).saturating_sub(calls) as u32)
        }
    }
}

fn fault_of(armed: Option<Armed>) -> Option<Fault>
    ensures { result ≡ option_map fault_of armed }
{
    Some(armed?.fault)
}

/// The host of a node.
fn host_of(hosts: &[Host], number: u8) -> Option<&Host>
    ensures { option_copied result ≡ nth number hosts.now }
{
    if number == 0 {
        return None;
    }
    hosts.get(number as usize - 1)
}

impl Play {
    /// So many nodes, each of which is down.
    pub(crate) fn opening(alloc: Global, count: u8) -> Result<Play, AllocError>
        requires { (1 ≤ count) × (count ≤ 8) }
        ensures { IfOk result (IsOpening count) }
    {
        Ok(Play {
            net: Net::opening(alloc, count)?,
            world: World::new(alloc, count)?,
            delivered: Delivered::new(alloc),
            armed: Arms::new(alloc)?,
            lines: Lines::new(alloc),
        })
    }

    /// Whether the journal of a node has room for another record.
    pub(crate) fn has_room(&self, node: u8) -> bool
        ensures room { result ≡ true → HasRoomAt node self.now.net.hosts }
        ensures full { result ≡ false → IsFullAt node self.now.net.hosts }
    {
        match host_of(self.net.hosts(), node) {
            Some(host) => has_room(host.site()),
            None => true,
        }
    }

    /// What is asked for is done by its node, of whose machine this call is armed. It brings these bytes where they are no message, and those draw
    /// this status.
    #[tactic(auto, using(crate::proofs::StoppedPlays::full_here, crate::proofs::StoppedPlays::room_here))]
    pub(crate) fn happen(
        self,
        alloc: Global,
        armed: Option<Armed>,
        asked: &WorldEvent,
        raw: &[u8],
        drawn: u16,
    ) -> Result<Play, PlayError>
        requires can { CanAsk self.count self.world (event_of asked.now) raw.now }
        requires behind { IsArmedBehind armed self.events }
        ensures done { IfOk result (Happens armed (event_of asked.now) raw.now drawn self) }
        ensures full { IfErr result (λ e. e ≡ Full → Stops IsFull armed (event_of asked.now) raw.now self) }
        ensures many { IfErr result (λ e. e ≡ TooManyEvents → Stops HasMany armed (event_of asked.now) raw.now self) }
        ensures room { Stops IsFull armed (event_of asked.now) raw.now self → result ≡ Err Full }
    {
        if !self.has_room(asked.node()) {
            return Err(PlayError::Full);
        }
        self.done(alloc, armed, asked, raw, drawn)
    }

    /// The same, without a look at the journal first.
    fn done(
        self,
        alloc: Global,
        armed: Option<Armed>,
        asked: &WorldEvent,
        raw: &[u8],
        drawn: u16,
    ) -> Result<Play, PlayError>
        requires can { CanAsk self.count self.world (event_of asked.now) raw.now }
        requires behind { IsArmedBehind armed self.events }
        ensures done { IfOk result (Happens armed (event_of asked.now) raw.now drawn self) }
        ensures full { IfErr result (λ e. e ≡ Full → Stops IsFull armed (event_of asked.now) raw.now self) }
        ensures many { IfErr result (λ e. e ≡ TooManyEvents → Stops HasMany armed (event_of asked.now) raw.now self) }
    {
        asks_are_met();
        plays_go_on();
        let Play {
            net,
            world,
            delivered,
            armed: mut arms,
            mut lines,
        } = self;
        let _count = world.count();
        let _events = world.events();
        let _asked = asked.ms();
        let node = asked.node();
        let was_up = world.incarnation(node).is_some();
        let Taken {
            net,
            event,
            down,
            calls,
        } = match net.take(alloc, asked, armed, raw) {
            Ok(taken) => taken,
            Err(Unmet::NoMemory) => return Err(PlayError::NoMemory),
            Err(Unmet::Full) => return Err(PlayError::Full),
            Err(Unmet::Apart) => unreachable!(),
        };
        let _happened = event.ms();
        arms.set(node, armed_behind(armed, was_up, calls, asked));
        let world = match happen(
            alloc,
            world,
            &mut lines,
            event,
            down,
            fault_of(armed),
            drawn,
        ) {
            Ok(world) => world,
            Err(RunError::NoMemory) => return Err(PlayError::NoMemory),
            Err(RunError::TooManyEvents) => return Err(PlayError::TooManyEvents),
        };
        Ok(Play {
            net,
            world,
            delivered,
            armed: arms,
            lines,
        })
    }

    /// The call that is armed at a node.
    pub(crate) fn armed_at(&self, node: u8) -> Option<Armed>
        ensures { result ≡ armed_at node self.now.armed }
    {
        self.armed.at(node)
    }

    /// Arms a call of a node in place of the one that is armed.
    pub(crate) fn arm(self, node: u8, armed: Armed) -> Play
        ensures { result ≡ with_armed node (Some armed) self }
    {
        let mut play = self;
        play.armed.set(node, Some(armed));
        play
    }

    /// Bytes that are a message, or ask for what is due, aren't handed to a node.
    pub(crate) fn forge(self, alloc: Global, node: u8) -> Result<Play, AllocError>
        ensures { IfOk result (λ p. p ≡ printed (forged_line node) self) }
    {
        let mut play = self;
        play.lines.push_forged(alloc, node)?;
        Ok(play)
    }

    /// There is no message of this number, or no node has its address.
    pub(crate) fn no_message(self, alloc: Global, number: u64) -> Result<Play, AllocError>
        ensures { IfOk result (λ p. p ≡ printed (no_message_line number) self) }
    {
        let mut play = self;
        play.lines.push_no_message(alloc, number)?;
        Ok(play)
    }

    /// The message of this number was delivered.
    pub(crate) fn mark(self, number: u64) -> Result<Play, AllocError>
        ensures { IfOk result (λ p. p ≡ marked number self) }
    {
        let mut play = self;
        play.delivered.mark(number.saturating_sub(1) as usize)?;
        Ok(play)
    }

    /// The receiver of a message, where it is there.
    pub(crate) fn receiver(&self, number: u64) -> Option<Option<u8>>
        ensures { result ≡ option_map receiver_in (nth number self.now.world.posted) }
    {
        Some(self.world.posted(number)?.receiver)
    }

    /// The lowest message that was never delivered.
    pub(crate) fn lowest(&mut self) -> Option<u64>
        ensures lowest { result ≡ lowest (length self.old.world.posted) 1 self.old.delivered }
        ensures kept { self.new ≡ self.old }
    {
        let count = self.world.all_posted().len();
        Some(self.delivered.lowest(count)? as u64)
    }

    /// The events that bring its world to rest.
    pub(crate) fn rest(&self, alloc: Global) -> Result<Vec<WorldEvent>, PlayError>
        ensures events { IfOk result (λ events. map event_of events.items ≡ settle self.now.world) }
        ensures many { IfErr result (λ e. e ≡ TooManyEvents → 4294967295 < length self.now.events + length (settle self.now.world)) }
        ensures few { IfErr result (λ e. e ≡ Full → ⊥) }
    {
        match settle(alloc, &self.world) {
            Ok(events) => Ok(events),
            Err(RunError::NoMemory) => Err(PlayError::NoMemory),
            Err(RunError::TooManyEvents) => Err(PlayError::TooManyEvents),
        }
    }

    /// Its world is that of the run of its events, and its nodes mirror it.
    pub(crate) fn is_played(&self)
        ensures { IsPlayed self.now }
    {
        let _lines = &self.lines;
    }

    /// The nodes at its end, and what was printed, with the last line.
    pub(crate) fn into_report(self, alloc: Global) -> Result<(Net, Lines), AllocError>
        ensures net { IfOk result (λ r. r.0 ≡ self.net) }
        ensures text { IfOk result (λ r. r.1 ≡ self.text ++ ended self.world) }
    {
        let Play {
            net,
            world,
            delivered: _delivered,
            armed: _armed,
            mut lines,
        } = self;
        push_ended(alloc, &mut lines, &world)?;
        Ok((net, lines))
    }
}
