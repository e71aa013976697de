//! Three nodes whose posts are carried by hand.

use crate::peer::Peer;
use at_base::event::Local;
use at_base::id::Id;
use at_base::notice::{Kind, Vote};
use at_base::text::Text;
use site_memory::arm::Choice;
use std::alloc::{AllocError, Global};

/// What is done at a node.
#[derive(Clone, Copy)]
pub enum Act {
    /// Its program begins an activity at node 2, of 60,000 milliseconds.
    Begin,
    /// Its program has node 3 work in activity 1-1: a durable participant that votes to commit.
    Work,
    /// Its program asks that activity 1-1 commits.
    Commit,
    /// The connection of a node's n-th post, from 1, reaches it.
    Post(usize, usize),
    /// The clock is set.
    Clock(u64),
    /// The clock is set, and it is asked for what is due.
    Tick(u64),
    /// The k-th write, sync, answer or post from now fails.
    Fail(u32),
    /// The k-th call of its listener and its connections from now fails; none where k is 0.
    FailLink(u32),
    /// Its connections give at most so many bytes at once, or as many as there is room for where that is 0.
    GiveAtMost(usize),
    /// It goes down and comes up again.
    Again(Choice),
}

/// What is done, at which node, what that answers (0: done, else as `number` says it, or 9), what happens for good, and how
/// many posts the node has sent by then.
pub type Row = (Act, usize, u16, &'static str, usize);

/// Nodes 1, 2 and 3.
pub struct Net {
    peers: Vec<Peer>,
}

impl Drop for Net {
    fn drop(self) {
        let Net { peers: _peers } = self;
    }
}

fn base_of(node: usize) -> &'static str {
    match node {
        1 => "http://n1.example",
        2 => "http://n2.example",
        _ => "http://n3.example",
    }
}

fn host_of(node: usize) -> &'static str {
    match node {
        1 => "n1.example",
        2 => "n2.example",
        _ => "n3.example",
    }
}

fn begin(alloc: Global) -> Result<Local, AllocError> {
    let coordinator = Text::copied(alloc, "http://n2.example")?;
    Ok(Local::Begin {
        coordinator,
        ms: 60_000,
    })
}

fn work(alloc: Global) -> Result<Local, AllocError> {
    let service = Text::copied(alloc, "http://n3.example")?;
    let key = Text::copied(alloc, "k")?;
    let value = Text::copied(alloc, "v")?;
    Ok(Local::Work {
        activity: Id::new(1, 1),
        service,
        kind: Kind::Durable,
        vote: Vote::Prepared,
        key,
        value,
    })
}

fn request(alloc: Global, act: Act) -> Result<Local, AllocError> {
    match act {
        Act::Begin => begin(alloc),
        Act::Work => work(alloc),
        _ => Ok(Local::Commit {
            activity: Id::new(1, 1),
        }),
    }
}

/// 0 where it was done.
fn code(done: bool) -> u16 {
    if done { 0 } else { 9 }
}

/// What needs no bytes.
fn set(alloc: Global, peer: &mut Peer, base: &str, act: Act) -> u16 {
    match act {
        Act::Clock(now) => {
            peer.set_now(now);
            0
        }
        Act::Tick(now) => {
            peer.set_now(now);
            peer.tick(alloc)
        }
        Act::Fail(k) => {
            peer.fail(k);
            0
        }
        Act::FailLink(k) => {
            peer.fail_link(k);
            0
        }
        Act::GiveAtMost(most) => {
            peer.give_at_most(most);
            0
        }
        Act::Again(choice) => code(peer.again(alloc, base, choice)),
        _ => 9,
    }
}

fn new_peers(alloc: Global) -> Result<Vec<Peer>, AllocError> {
    let mut peers = Vec::new(alloc);
    for node in 1..4 {
        let peer = Peer::new(alloc, base_of(node))?;
        peers.push(peer)?;
    }
    Ok(peers)
}

impl Net {
    /// Three nodes, each for the first time.
    pub fn new(alloc: Global) -> Result<Net, AllocError> {
        let peers = new_peers(alloc)?;
        Ok(Net { peers })
    }

    fn post(
        &self,
        alloc: Global,
        sender: usize,
        n: usize,
        node: usize,
    ) -> Result<Vec<u8>, AllocError> {
        match self.peers.get(sender.saturating_sub(1)) {
            Some(peer) => peer.post(alloc, n, host_of(node)),
            None => Err(AllocError),
        }
    }

    /// What a node answers to a connection that brings these bytes, as `number` says it.
    pub fn take(&mut self, alloc: Global, node: usize, bytes: &[u8]) -> u16 {
        match self.peers.get_mut(node.saturating_sub(1)) {
            Some(peer) => peer.take(alloc, bytes),
            None => 9,
        }
    }

    fn carry(
        &mut self,
        alloc: Global,
        sender: usize,
        n: usize,
        node: usize,
    ) -> Result<u16, AllocError> {
        let bytes = self.post(alloc, sender, n, node)?;
        Ok(self.take(alloc, node, bytes.as_slice()))
    }

    fn ask(&mut self, alloc: Global, node: usize, request: &Local) -> u16 {
        match self.peers.get_mut(node.saturating_sub(1)) {
            Some(peer) => code(peer.ask(alloc, request)),
            None => 9,
        }
    }

    fn request(&mut self, alloc: Global, act: Act, node: usize) -> Result<u16, AllocError> {
        let request = request(alloc, act)?;
        Ok(self.ask(alloc, node, &request))
    }

    fn set(&mut self, alloc: Global, act: Act, node: usize) -> u16 {
        match self.peers.get_mut(node.saturating_sub(1)) {
            Some(peer) => set(alloc, peer, base_of(node), act),
            None => 9,
        }
    }

    /// What this answers: 0 where it was done, else as `number` says it, or 9.
    pub fn act(&mut self, alloc: Global, act: Act, node: usize) -> Result<u16, AllocError> {
        match act {
            Act::Post(sender, n) => self.carry(alloc, sender, n, node),
            Act::Begin | Act::Work | Act::Commit => self.request(alloc, act, node),
            _ => Ok(self.set(alloc, act, node)),
        }
    }

    /// A node on its machine.
    pub fn peer(&self, node: usize) -> Option<&Peer> {
        self.peers.get(node.saturating_sub(1))
    }

    /// What happened for good at a node in its last call, and how many posts it has sent.
    pub fn shows(&self, node: usize, effect: &str, posts: usize) -> bool {
        match self.peers.get(node.saturating_sub(1)) {
            Some(peer) => peer.effect() == effect && peer.posts() == posts,
            None => false,
        }
    }

    /// Whether a row goes as it says.
    fn goes(&mut self, alloc: Global, row: &Row) -> Result<bool, AllocError> {
        let (act, node, answer, effect, posts) = row;
        let given = self.act(alloc, *act, *node)?;
        Ok(given == *answer && self.shows(*node, effect, *posts))
    }

    /// The place of the first row that doesn't go as it says, or how many there are.
    pub fn plays(&mut self, alloc: Global, rows: &[Row]) -> Result<usize, AllocError> {
        for place in 0..rows.len() {
            if !self.goes(alloc, &rows[place])? {
                return Ok(place);
            }
        }
        Ok(rows.len())
    }

    /// Whether a node's journal is this.
    pub fn holds(&self, node: usize, file: &[u8]) -> bool {
        match self.peers.get(node.saturating_sub(1)) {
            Some(peer) => peer.holds(file),
            None => false,
        }
    }
}
