//! A node on its machine.

use crate::nodes::{number, up};
use at_base::event::Local;
use at_base::outs::{Effect, Ending, Told};
use journal_at::load::load;
use journal_at::records::Records;
use node_at::local::Locally;
use node_at::node::Node;
use node_at::role::Role;
use site_memory::arm::Choice;
use site_memory::bytes::Posted;
use site_memory::machine::MemSite;
use std::alloc::{AllocError, Global};
use std::marker::Model;

/// A node of all roles on its machine.
pub struct Peer {
    node: Node,
    site: MemSite,
}

impl Drop for Peer {
    fn drop(self) {
        let Peer {
            node: _node,
            site: _site,
        } = self;
    }
}

impl Model for Peer {
    ghost use Rattle.node_at.specs.State.{IsNode, State, seen};

    ghost Value = { State };

    ghost view = { λ p. seen p.node };

    ghost invariant = { λ p. IsNode (seen p.node) };
}

/// A request of what is due.
const TICK: &[u8] = b"POST /tick HTTP/1.0\r\nContent-Length: 0\r\n\r\n";

fn ended(what: Ending, committed: &'static str, aborted: &'static str) -> &'static str {
    match what {
        Ending::Committed => committed,
        Ending::Aborted => aborted,
        Ending::Lost => "lost",
    }
}

fn told(what: Told) -> &'static str {
    match what {
        Told::Committed => "told committed",
        Told::Aborted => "told aborted",
        Told::Unknown => "told unknown",
        Told::Refused => "told refused",
    }
}

fn named(effect: &Effect) -> &'static str {
    match effect {
        Effect::Root { what, .. } => ended(*what, "root committed", "root aborted"),
        Effect::Sub { what, .. } => ended(*what, "sub committed", "sub aborted"),
        Effect::Leaf { what, .. } => ended(*what, "leaf committed", "leaf aborted"),
        Effect::Told { what, .. } => told(*what),
    }
}

impl Peer {
    /// A node that starts on an empty machine.
    pub fn new(alloc: Global, base: &str) -> Result<Peer, AllocError> {
        let mut site = MemSite::new(alloc);
        match up(alloc, &mut site, base, Role::All) {
            Some(node) => Ok(Peer { node, site }),
            None => Err(AllocError),
        }
    }

    /// Its machine goes down, and leaves what was chosen.
    pub fn crash(&mut self, choice: Choice) {
        self.site.crash(choice);
    }

    /// Comes up on what a crash left. Says whether it does.
    pub fn up(&mut self, alloc: Global, base: &str) -> bool {
        match up(alloc, &mut self.site, base, Role::All) {
            Some(node) => {
                self.node = node;
                true
            }
            None => false,
        }
    }

    /// Goes down, and comes up again on what that leaves. Says whether it does.
    pub fn again(&mut self, alloc: Global, base: &str, choice: Choice) -> bool {
        self.crash(choice);
        self.up(alloc, base)
    }

    /// A request of its own program. Says whether it was done.
    pub fn ask(&mut self, alloc: Global, request: &Local) -> bool {
        match self.node.local(alloc, &mut self.site, request) {
            Locally::Done { .. } => true,
            _ => false,
        }
    }

    /// What the turn of a connection that brings these bytes answers, as `number` says it.
    pub fn take(&mut self, alloc: Global, bytes: &[u8]) -> u16 {
        if self.site.connect(bytes).is_err() {
            return 3;
        }
        number(self.node.turn(alloc, &mut self.site))
    }

    /// What a request of what is due answers.
    pub fn tick(&mut self, alloc: Global) -> u16 {
        self.take(alloc, TICK)
    }

    /// The clock is set.
    pub fn set_now(&mut self, now: u64) {
        self.site.set_now(now);
    }

    /// The k-th write, sync, answer or post from now fails.
    pub fn fail(&mut self, k: u32) {
        self.site.fail(k);
    }

    /// At the k-th of these it stops, and leaves what was chosen.
    pub fn stop(&mut self, k: u32, choice: Choice) {
        self.site.stop(k, choice);
    }

    /// Whether it has stopped.
    pub fn has_stopped(&self) -> bool {
        self.site.stopped()
    }

    /// The k-th call of its listener and its connections from now fails; none where k is 0.
    pub fn fail_link(&mut self, k: u32) {
        self.site.fail_link(k);
    }

    /// Its connections give at most so many bytes at once, or as many as there is room for where that is 0.
    pub fn give_at_most(&mut self, most: usize) {
        self.site.give_at_most(most);
    }

    /// What happened for good in the last call, in order.
    pub fn effects(&self) -> &[Effect] {
        self.node.effects()
    }

    /// What its journal holds.
    pub fn records(&mut self, alloc: Global) -> Option<Records> {
        match load(alloc, &mut self.site, 1_000_000) {
            Ok((_, records)) => Some(records),
            Err(_) => None,
        }
    }

    /// Its n-th post, from 1.
    pub fn sent(&self, n: usize) -> Option<&Posted> {
        self.site.posts().get(n.saturating_sub(1))
    }

    /// What happened for good in the last call.
    pub fn effect(&self) -> &'static str {
        match self.node.effects() {
            [] => "",
            [effect] => named(effect),
            _ => "several",
        }
    }

    /// What stands in file 0.
    pub fn file(&self) -> &[u8] {
        self.site.file(0)
    }

    /// Whether file 0 is this, and file 1 is empty.
    pub fn holds(&self, file: &[u8]) -> bool {
        self.site.file(0) == file && self.site.file(1).is_empty()
    }

    /// How many posts it has sent.
    pub fn posts(&self) -> usize {
        self.site.posts().len()
    }

    /// A copy of its n-th post, from 1, if that goes to this host.
    pub fn post(&self, alloc: Global, n: usize, host: &str) -> Result<Vec<u8>, AllocError> {
        match self.site.posts().get(n.saturating_sub(1)) {
            Some(post) => {
                if post.host.as_slice() == host.as_bytes() && post.port == 80 {
                    Vec::from_slice(alloc, post.bytes.as_slice())
                } else {
                    Err(AllocError)
                }
            }
            None => Err(AllocError),
        }
    }

    /// Whether the n-th post, from 1, is this to port 80 of this host.
    pub fn has_posted(&self, n: usize, host: &str, bytes: &[u8]) -> bool {
        match self.site.posts().get(n.saturating_sub(1)) {
            Some(post) => {
                post.host.as_slice() == host.as_bytes()
                    && post.port == 80
                    && post.bytes.as_slice() == bytes
            }
            None => false,
        }
    }

    /// How many answers it has sent, an interim line for one of them.
    pub fn answers(&self) -> usize {
        self.site.answers().len()
    }

    /// Whether its last answer holds this text.
    pub fn has_answered_with(&self, text: &str) -> bool {
        match self.site.answers().last() {
            Some(answer) => match str::from_utf8(answer.as_slice()) {
                Ok(answer) => answer.contains(text),
                Err(_) => false,
            },
            None => false,
        }
    }

    /// Whether the n-th answer, from 1, is this.
    pub fn has_answered(&self, n: usize, bytes: &[u8]) -> bool {
        match self.site.answers().get(n.saturating_sub(1)) {
            Some(answer) => answer.as_slice() == bytes,
            None => false,
        }
    }
}
