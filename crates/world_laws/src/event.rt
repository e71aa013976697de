//! What happens to a world.

ghost use Rattle.std.specs.Prelude.{◌≡◌, ◌≤◌, drop, length};
ghost use Rattle.at_model.specs.World.{fate, node_of};
ghost use Rattle.world_laws.specs.Fates.{behind_done};
ghost use Rattle.world_laws.specs.Events.{event_of, ms_of};

use at_base::event::Local;
use std::alloc::AllocError;
use std::marker::Model;

/// What a turn begins with.
#[derive(Clone, Copy, Debug)]
pub enum Input {
    /// This message is delivered, by its number from 1.
    Deliver(u64),
    /// So many milliseconds went by.
    Tick(u32),
    /// Bytes that are no message.
    Raw,
}

/// The fate at this place; one behind the last is yes.
#[tactic(auto, using(crate::proofs::Fates::fate_at, crate::proofs::Fates::fate_past))]
fn fate_at(fates: &[bool], place: usize) -> bool
    ensures { result ≡ fate (drop place fates.now) }
{
    match fates.get(place) {
        Some(fate) => *fate,
        None => true,
    }
}

/// For each call of a node's site, whether it succeeds; each call behind the last does.
#[derive(Debug, Drop)]
pub struct Fates {
    /// So many succeed before those of the list.
    done: u32,
    items: Vec<bool>,
}

impl Model for Fates {
    ghost use Rattle.std.specs.Prelude.{List, Bool};
    ghost use Rattle.world_laws.specs.Fates.{behind_done};

    ghost Value = { List Bool };

    ghost view = { λ f. behind_done f.done f.items.items };
}

impl Fates {
    /// The list of a `Vec`, without a copy.
    #[tactic(auto, using(crate::proofs::Fates::none_done))]
    pub fn from_vec(items: Vec<bool>) -> Fates
        ensures { result ≡ items.items }
    {
        Fates { done: 0, items }
    }

    /// So many calls that succeed, and then those of the `Vec`.
    pub fn behind(done: u32, items: Vec<bool>) -> Fates
        ensures { result ≡ behind_done done items.items }
    {
        Fates { done, items }
    }

    /// How many calls it has.
    #[tactic(auto, using(crate::proofs::Fates::length_behind))]
    pub fn len(&self) -> usize
        ensures { result ≡ length self.now }
    {
        self.done as usize + self.items.len()
    }

    /// Whether the call at this place succeeds; one behind the last does.
    #[tactic(auto, using(crate::proofs::Fates::fate_before, crate::proofs::Fates::fate_behind))]
    pub fn at(&self, place: usize) -> bool
        ensures { result ≡ fate (drop place self.now) }
    {
        if place < self.done as usize {
            return true;
        }
        fate_at(self.items.as_slice(), place - self.done as usize)
    }
}

impl Clone for Fates {
    ghost is_clone = { λ fates copy. copy ≡ fates };

    fn clone(&self) -> Result<Fates, AllocError> {
        Ok(Fates {
            done: self.done,
            items: self.items.clone()?,
        })
    }
}

/// One thing that happens. Nodes are numbered from 1.
#[derive(Debug)]
pub enum WorldEvent {
    /// A turn of a node, and behind how many fates it is stopped.
    Turn {
        node: u8,
        input: Input,
        fates: Fates,
        until: Option<u64>,
    },
    /// A request of a node's own program.
    Ask {
        node: u8,
        local: Local,
        fates: Fates,
        until: Option<u64>,
    },
    /// A node goes down.
    Crash {
        node: u8,
    },
    /// A node starts: its Start record lands or not, and it is stopped then or not.
    Up {
        node: u8,
        landed: bool,
        stop: bool,
    },
}

impl WorldEvent {
    /// The number of the node at which it happens.
    pub fn node(&self) -> u8
        ensures { result ≡ node_of (event_of self.now) }
    {
        match self {
            WorldEvent::Turn { node, .. }
            | WorldEvent::Ask { node, .. }
            | WorldEvent::Crash { node }
            | WorldEvent::Up { node, .. } => *node,
        }
    }
}

impl WorldEvent {
    /// How much time it lets go by at its node, in milliseconds.
    pub fn ms(&self) -> u32
        ensures value { result ≡ ms_of (event_of self.now) }
        ensures short { ms_of (event_of self.now) ≤ 4294967295 }
    {
        match self {
            WorldEvent::Turn {
                input: Input::Tick(ms),
                ..
            } => *ms,
            _ => 0,
        }
    }
}

impl Drop for WorldEvent {
    fn drop(self) {
        match self {
            WorldEvent::Turn {
                node: _node,
                input: _input,
                fates: _fates,
                until: _until,
            } => {}
            WorldEvent::Ask {
                node: _node,
                local: _local,
                fates: _fates,
                until: _until,
            } => {}
            WorldEvent::Crash { node: _node } => {}
            WorldEvent::Up {
                node: _node,
                landed: _landed,
                stop: _stop,
            } => {}
        }
    }
}

impl Clone for WorldEvent {
    ghost is_clone = { λ event copy. copy ≡ event };

    fn clone(&self) -> Result<WorldEvent, AllocError> {
        match self {
            WorldEvent::Turn {
                node,
                input,
                fates,
                until,
            } => {
                let fates = fates.clone()?;
                Ok(WorldEvent::Turn {
                    node: *node,
                    input: *input,
                    fates,
                    until: *until,
                })
            }
            WorldEvent::Ask {
                node,
                local,
                fates,
                until,
            } => {
                let fates = fates.clone()?;
                let local = local.clone()?;
                Ok(WorldEvent::Ask {
                    node: *node,
                    local,
                    fates,
                    until: *until,
                })
            }
            WorldEvent::Crash { node } => Ok(WorldEvent::Crash { node: *node }),
            WorldEvent::Up { node, landed, stop } => Ok(WorldEvent::Up {
                node: *node,
                landed: *landed,
                stop: *stop,
            }),
        }
    }
}
