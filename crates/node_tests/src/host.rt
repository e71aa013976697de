//! A node that serves, goes down and comes up, and what becomes of its subordinate or its durable participant, 1-1.

use crate::peer::Peer;
use at_base::notice::Kind;
use at_base::outs::{Effect, Ending};
use at_base::record::Record;
use decision_log::fold::fold;
use journal_at::records::Records;
use record_bytes::read::read_record;
use site_memory::arm::Choice;
use std::alloc::{AllocError, Global};

/// What becomes of a call.
#[derive(Clone, Copy, Debug)]
pub enum Fault {
    /// It fails.
    Fail,
    /// The machine stops at it, and leaves this.
    Stop(Choice),
}

/// What a journal says of an item.
#[derive(Clone, Copy)]
enum Standing {
    /// It has no record.
    Unknown,
    /// It voted, and has no outcome.
    InDoubt,
    Committed,
    Aborted,
}

/// A node on its machine.
pub struct Host {
    peer: Peer,
    base: &'static str,
    /// Whether a subordinate or a durable participant is made there.
    has_item: bool,
    is_up: bool,
    clock: u64,
    /// What its stop leaves.
    leaves: Choice,
    /// How many of its posts were gathered.
    gathered: usize,
    /// How its item ended.
    ending: Option<Ending>,
    /// Whether its item ended twice, it didn't come up, or a turn answered neither that it was done nor that it halted.
    is_wrong: bool,
}

impl Drop for Host {
    fn drop(self) {
        let Host {
            peer: _peer,
            base: _base,
            has_item: _has_item,
            is_up: _is_up,
            clock: _clock,
            leaves: _leaves,
            gathered: _gathered,
            ending: _ending,
            is_wrong: _is_wrong,
        } = self;
    }
}

/// How a subordinate or a durable participant ended.
fn ending_of(effect: &Effect) -> Option<Ending> {
    match effect {
        Effect::Sub { what, .. } => Some(*what),
        Effect::Leaf {
            kind: Kind::Durable,
            what,
            ..
        } => Some(*what),
        _ => None,
    }
}

/// What one more record says of an item. An end without a commit is that of an abort.
fn after(standing: Standing, entry: &Record) -> Standing {
    match entry {
        Record::LeafPrepared { .. } | Record::Voted { .. } => Standing::InDoubt,
        Record::LeafCommitted { .. } | Record::SubCommitted { .. } => Standing::Committed,
        Record::LeafAborted { .. } => Standing::Aborted,
        Record::Ended { .. } => match standing {
            Standing::InDoubt => Standing::Aborted,
            _ => standing,
        },
        _ => standing,
    }
}

fn standing_in(alloc: Global, records: &Records) -> Standing {
    let mut standing = Standing::Unknown;
    for placed in records.items() {
        if let Ok(entry) = read_record(alloc, records.version(), placed.body()) {
            standing = after(standing, &entry);
        }
    }
    standing
}

/// How an item ends of which a journal says this, and whose node goes down.
fn ending_in(standing: Standing) -> Option<Ending> {
    match standing {
        Standing::Unknown => Some(Ending::Lost),
        Standing::InDoubt => None,
        Standing::Committed => Some(Ending::Committed),
        Standing::Aborted => Some(Ending::Aborted),
    }
}

impl Host {
    /// A node that starts on an empty machine.
    pub fn new(alloc: Global, base: &'static str, has_item: bool) -> Result<Host, AllocError> {
        let peer = Peer::new(alloc, base)?;
        Ok(Host {
            peer,
            base,
            has_item,
            is_up: true,
            clock: 0,
            leaves: Choice::Keep,
            gathered: 0,
            ending: None,
            is_wrong: false,
        })
    }

    /// Its node on its machine.
    pub fn peer(&mut self) -> &mut Peer {
        &mut self.peer
    }

    pub fn is_up(&self) -> bool {
        self.is_up
    }

    pub fn is_wrong(&self) -> bool {
        self.is_wrong
    }

    /// How its subordinate or its durable participant ended.
    pub fn ending(&self) -> Option<Ending> {
        self.ending
    }

    /// What becomes of the k-th write, sync, answer or post from now.
    pub fn arm(&mut self, k: u32, fault: Fault) {
        match fault {
            Fault::Fail => self.peer.fail(k),
            Fault::Stop(choice) => {
                self.leaves = choice;
                self.peer.stop(k, choice);
            }
        }
    }

    /// The number of a post that wasn't gathered so far, from 1.
    pub fn gather(&mut self) -> Option<usize> {
        if self.gathered >= self.peer.posts() {
            return None;
        }
        self.gathered = self.gathered.saturating_add(1);
        Some(self.gathered)
    }

    fn end(&mut self, ending: Ending) {
        if self.ending.is_some() {
            self.is_wrong = true;
        }
        self.ending = Some(ending);
    }

    /// What a turn ended.
    fn see(&mut self) {
        for place in 0..self.peer.effects().len() {
            let ending = match self.peer.effects().get(place) {
                Some(effect) => ending_of(effect),
                None => None,
            };
            if let Some(ending) = ending {
                self.end(ending);
            }
        }
    }

    /// How an item ended that nobody has told of, by what its journal says once its node went down.
    fn find(&mut self, alloc: Global) {
        if !self.has_item || self.ending.is_some() {
            return;
        }
        match self.peer.records(alloc) {
            Some(records) => self.ending = ending_in(standing_in(alloc, &records)),
            None => self.is_wrong = true,
        }
    }

    /// Goes down, and leaves this. An item that has no record is lost.
    pub fn fall(&mut self, alloc: Global, choice: Choice) {
        self.peer.crash(choice);
        self.is_up = false;
        self.find(alloc);
    }

    /// What a turn came to. A node that halts goes down, and its files stay as they read.
    fn end_turn(&mut self, alloc: Global, given: u16) {
        self.see();
        if self.peer.has_stopped() {
            self.fall(alloc, self.leaves);
        } else if given == 4 {
            self.fall(alloc, Choice::Keep);
        } else if given != 202 && given != 1 {
            self.is_wrong = true;
        }
    }

    /// The turn of a connection that brings these bytes. To a node that is down they are lost.
    pub fn take(&mut self, alloc: Global, bytes: &[u8]) {
        if self.is_up {
            let given = self.peer.take(alloc, bytes);
            self.end_turn(alloc, given);
        }
    }

    /// 5,000 milliseconds later it is asked for what is due.
    pub fn tick(&mut self, alloc: Global) {
        if self.is_up {
            self.clock = self.clock.saturating_add(5_000);
            self.peer.set_now(self.clock);
            let given = self.peer.tick(alloc);
            self.end_turn(alloc, given);
        }
    }

    /// Comes up, unless it is.
    pub fn up(&mut self, alloc: Global) {
        if !self.is_up {
            self.is_up = self.peer.up(alloc, self.base);
            if !self.is_up {
                self.is_wrong = true;
            }
        }
    }

    /// Whether no record of its journal is live.
    pub fn is_settled(&mut self, alloc: Global) -> bool {
        match self.peer.records(alloc) {
            Some(records) => match fold(alloc, &records) {
                Ok(kept) => kept.live().is_empty(),
                Err(_) => false,
            },
            None => false,
        }
    }
}
