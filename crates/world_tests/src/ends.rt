//! How a world ends that comes to rest.

use crate::script::{Script, is_commit};
use at_base::message::Message;
use at_base::notice::Notice;
use at_base::outs::{Effect, Ending, Told};
use std::alloc::{AllocError, Global};
use world_laws::posts::{NodeEffect, Posted};
use world_laws::world::World;

/// Each node ticks once more, and then goes down.
const LAST: &str = "\
tick 1 5000
tick 2 5000
tick 3 5000
tick 4 5000
tick 5 5000
tick 6 5000
tick 7 5000
tick 8 5000
crash 1
crash 2
crash 3
crash 4
crash 5
crash 6
crash 7
crash 8
";

/// What became of the items of a world: its roots, subordinates and leaves.
#[derive(Clone, Copy)]
pub struct Ends {
    /// How many messages nodes at rest post at a tick to ask for an outcome, or to have one carried out.
    waiting: usize,
    /// How many items ended. One that went down in doubt didn't.
    ended: usize,
    /// How often it was said that one committed.
    committed: usize,
    /// How often it was said that one didn't.
    undone: usize,
}

/// Whether it says that an item aborted or was lost, or that an initiator was told so.
fn is_undone(effect: &Effect) -> bool {
    match effect {
        Effect::Root { what, .. } | Effect::Sub { what, .. } | Effect::Leaf { what, .. } => {
            matches!(what, Ending::Aborted | Ending::Lost)
        }
        Effect::Told { what, .. } => matches!(what, Told::Aborted),
    }
}

fn is_told(effect: &Effect) -> bool {
    matches!(effect, Effect::Told { .. })
}

/// Whether who posts this waits: a vote that has no outcome yet, or a decision that isn't carried out.
fn is_waiting(message: &Message) -> bool {
    match message {
        Message::Notice(notice) => matches!(notice, Notice::Prepared | Notice::Commit),
        _ => false,
    }
}

/// How many of the messages behind so many are of those who wait.
fn waiting(posted: &[Posted], before: usize) -> usize {
    let mut count = 0usize;
    for place in before..posted.len() {
        let behind = &posted[place];
        if is_waiting(&behind.content.message) {
            count = count.saturating_add(1);
        }
    }
    count
}

impl Ends {
    fn add(&mut self, effect: &Effect) {
        if !is_told(effect) {
            self.ended = self.ended.saturating_add(1);
        }
        if is_commit(effect) {
            self.committed = self.committed.saturating_add(1);
        }
        if is_undone(effect) {
            self.undone = self.undone.saturating_add(1);
        }
    }

    /// What happened, with so many that wait.
    fn counted(waiting: usize, effects: &[NodeEffect]) -> Ends {
        let mut ends = Ends {
            waiting,
            ended: 0,
            committed: 0,
            undone: 0,
        };
        for effect in effects {
            ends.add(&effect.what);
        }
        ends
    }

    fn of(world: &World, before: usize) -> Ends {
        Ends::counted(waiting(world.all_posted(), before), world.effects())
    }

    /// Whether nobody waits, so many items ended, each once, and all alike: they committed (`c`), or none did (`a`).
    pub fn are(&self, items: usize, letter: u8) -> bool {
        let alike = match letter {
            b'c' => self.undone == 0,
            _ => self.committed == 0,
        };
        alike && self.waiting == 0 && self.ended == items
    }
}

/// What becomes of a world that comes to rest, and whose nodes then go down. Who hasn't voted is lost with its node; who has
/// voted isn't, so that what was still in doubt never ends.
pub fn at_rest(alloc: Global, script: Script) -> Result<Ends, AllocError> {
    let script = script.go_on(alloc, "settle\n")?;
    let before = script.world().messages();
    let script = script.go_on(alloc, LAST)?;
    Ok(Ends::of(script.world(), before))
}
