//! A world that goes by lines of text.

use crate::words::{event_in, most, node, number, turn, word};
use at_base::message::Message;
use at_base::notice::Notice;
use at_base::outs::{Effect, Ending, Told};
use replay_cmd::lines::Lines;
use settlement::settle::settle;
use std::alloc::{AllocError, Global};
use world_laws::event::{Input, WorldEvent};
use world_laws::posts::Counted;
use world_laws::world::{Stepped, World, run_world};

/// A world takes no more events; a script has fewer.
const MOST: usize = 4_294_967_295;

/// A world, how many of its messages were delivered or passed over, and what its steps gave, a line each.
pub struct Script {
    world: World,
    carried: u64,
    lines: Lines,
}

impl Drop for Script {
    fn drop(self) {
        let Script {
            world: _world,
            carried: _carried,
            lines: _lines,
        } = self;
    }
}

fn push_effects(
    alloc: Global,
    lines: &mut Lines,
    node: u8,
    effects: &[Effect],
) -> Result<(), AllocError> {
    for effect in effects {
        lines.push_effect(alloc, node, effect)?;
    }
    Ok(())
}

/// Whether it says that an item committed, or that an initiator was told so.
pub fn is_commit(effect: &Effect) -> bool {
    match effect {
        Effect::Root { what, .. } | Effect::Sub { what, .. } | Effect::Leaf { what, .. } => {
            matches!(what, Ending::Committed)
        }
        Effect::Told { what, .. } => matches!(what, Told::Committed),
    }
}

fn is_prepared(message: &Message) -> bool {
    match message {
        Message::Notice(notice) => matches!(notice, Notice::Prepared),
        _ => false,
    }
}

/// Whether a node posted a Prepared.
fn has_voted(world: &World, node: u8) -> bool {
    for posted in world.all_posted() {
        if posted.sender == node && is_prepared(&posted.content.message) {
            return true;
        }
    }
    false
}

fn push_posts(
    alloc: Global,
    lines: &mut Lines,
    world: &World,
    counted: &Counted,
) -> Result<(), AllocError> {
    for place in 0..counted.posts {
        let number = counted.first.saturating_add(place);
        if let Some(posted) = world.posted(number as u64) {
            lines.push_message(alloc, number, posted)?;
        }
    }
    Ok(())
}

fn push_steps(
    alloc: Global,
    lines: &mut Lines,
    node: u8,
    world: &World,
    steps: &[Counted],
) -> Result<(), AllocError> {
    for counted in steps {
        push_effects(alloc, lines, node, counted.effects.as_slice())?;
        push_posts(alloc, lines, world, counted)?;
    }
    Ok(())
}

fn stepped(alloc: Global, world: World, event: WorldEvent) -> Result<Stepped, AllocError> {
    if world.events().len() >= MOST {
        return Err(AllocError);
    }
    world.step(alloc, event)
}

impl Script {
    fn happen(self, alloc: Global, event: WorldEvent) -> Result<Script, AllocError> {
        let Script {
            world,
            carried,
            mut lines,
        } = self;
        let node = event.node();
        let Stepped {
            world,
            steps,
            lost,
            left: _left,
        } = stepped(alloc, world, event)?;
        push_steps(alloc, &mut lines, node, &world, steps.as_slice())?;
        push_effects(alloc, &mut lines, node, lost.as_slice())?;
        Ok(Script {
            world,
            carried,
            lines,
        })
    }

    /// A message goes to its node, with the fates and the stop of a line.
    fn deliver(self, alloc: Global, message: u64, line: &str) -> Result<Script, AllocError> {
        let mut script = self;
        script.carried = script.carried.max(message);
        let receiver = match script.world.posted(message) {
            Some(posted) => posted.receiver.unwrap_or(0),
            None => 0,
        };
        let event = turn(alloc, receiver, Input::Deliver(message), line, 2)?;
        script.happen(alloc, event)
    }

    /// Each message goes to its node, the next one first, until there is none, or so many have gone.
    fn flush(self, alloc: Global, most: u64) -> Result<Script, AllocError> {
        let mut script = self;
        for _time in 0..most {
            if script.carried >= script.world.messages() as u64 {
                return Ok(script);
            }
            let next = script.carried.saturating_add(1);
            script = script.deliver(alloc, next, "")?;
        }
        Ok(script)
    }

    /// What wasn't delivered so far is lost.
    fn lose(self) -> Script {
        let mut script = self;
        script.carried = script.world.messages() as u64;
        script
    }

    /// Each message goes to its node, until this node votes.
    fn await_vote(self, alloc: Global, node: u8) -> Result<Script, AllocError> {
        let mut script = self;
        for _time in 0..99 {
            if has_voted(&script.world, node) {
                return Ok(script);
            }
            let next = script.carried.saturating_add(1);
            script = script.deliver(alloc, next, "")?;
        }
        Ok(script)
    }

    /// The world comes to rest.
    fn settle(self, alloc: Global) -> Result<Script, AllocError> {
        let mut script = self;
        let Ok(events) = settle(alloc, &script.world) else {
            return Err(AllocError);
        };
        for event in events {
            script = script.happen(alloc, event)?;
        }
        Ok(script)
    }

    fn take(self, alloc: Global, line: &str) -> Result<Script, AllocError> {
        match word(line, 0) {
            "settle" => self.settle(alloc),
            "flush" => self.flush(alloc, most(line)),
            "lose" => Ok(self.lose()),
            "prepared" => self.await_vote(alloc, node(line, 1)),
            "deliver" => self.deliver(alloc, number(line, 1), line),
            _ => {
                let event = event_in(alloc, line)?;
                self.happen(alloc, event)
            }
        }
    }
}

impl Script {
    /// The lines of a text happen.
    pub fn go_on(self, alloc: Global, text: &str) -> Result<Script, AllocError> {
        let mut script = self;
        for line in text.split('\n') {
            if !line.is_empty() {
                script = script.take(alloc, line)?;
            }
        }
        Ok(script)
    }
}

/// What a world of so many nodes comes to by the lines of a text.
pub fn played(alloc: Global, nodes: u8, text: &str) -> Result<Script, AllocError> {
    let script = Script {
        world: World::new(alloc, nodes.clamp(1, 8))?,
        carried: 0,
        lines: Lines::new(alloc),
    };
    script.go_on(alloc, text)
}

/// What happened to a world for good, and its messages, a line each.
fn shown(alloc: Global, world: &World) -> Result<Lines, AllocError> {
    let mut lines = Lines::new(alloc);
    for effect in world.effects() {
        lines.push_effect(alloc, effect.node, &effect.what)?;
    }
    let mut number = 0usize;
    for posted in world.all_posted() {
        number = number.saturating_add(1);
        lines.push_message(alloc, number, posted)?;
    }
    Ok(lines)
}

impl Script {
    /// Its world.
    pub fn world(&self) -> &World {
        &self.world
    }

    /// Whether its steps gave these lines, and then those.
    pub fn gave(&self, first: &str, then: &str) -> bool {
        match self.lines.as_slice().strip_prefix(first.as_bytes()) {
            Some(rest) => rest == then.as_bytes(),
            None => false,
        }
    }

    /// How many events happened.
    pub fn happened(&self) -> usize {
        self.world.events().len()
    }

    /// How many items ended, and how many activities were told of an end.
    pub fn ended(&self) -> usize {
        self.world.effects().len()
    }

    /// How many of them committed.
    pub fn committed(&self) -> usize {
        let mut count = 0usize;
        for effect in self.world.effects() {
            if is_commit(&effect.what) {
                count = count.saturating_add(1);
            }
        }
        count
    }

    /// Whether the run of its events is a world that shows the same.
    pub fn runs_again(&self, alloc: Global) -> Result<bool, AllocError> {
        let again = run_world(alloc, self.world.count(), self.world.events())?;
        let events = again.events().len() == self.world.events().len();
        let first = shown(alloc, &self.world)?;
        let second = shown(alloc, &again)?;
        Ok(events && first.as_slice() == second.as_slice())
    }
}
