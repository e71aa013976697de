//! Four nodes whose posts are carried in the order in which they were sent, each once.

use crate::host::{Fault, Host};
use at_base::event::Local;
use at_base::id::Id;
use at_base::notice::{Kind, Vote};
use at_base::outs::Ending;
use at_base::text::Text;
use site_memory::arm::Choice;
use std::alloc::{AllocError, Global};

/// What is done.
#[derive(Clone, Copy)]
pub enum Line {
    /// The program of node 1 begins an activity at node 2, without an end.
    Begin,
    /// It has node 3 coordinate under node 2, for activity 1-2.
    Interpose,
    /// It has node 4 work in activity 1-2: a durable participant that votes to commit.
    Work,
    /// It asks that activity 1-1 commits.
    Commit,
    /// All posts are carried, up to 99.
    Flush,
    /// A node comes up, if it is down.
    Up(usize),
    /// A node goes down.
    Down(usize),
    /// A node is asked for what is due 5,000 milliseconds later, if it is up.
    Tick(usize),
}

/// How many subordinates and durable participants ended so.
#[derive(Clone, Copy, Debug, PartialEq, Eq)]
pub struct Ends {
    pub committed: usize,
    pub aborted: usize,
    pub lost: usize,
}

/// Nodes 1 to 4, and their posts in order: who sent each, and the how manyth of this node it is.
pub struct Four {
    hosts: Vec<Host>,
    posts: Vec<(usize, usize)>,
    carried: usize,
}

impl Drop for Four {
    fn drop(self) {
        let Four {
            hosts: _hosts,
            posts: _posts,
            carried: _carried,
        } = self;
    }
}

fn base_of(node: usize) -> &'static str {
    match node {
        1 => "http://n1.example",
        2 => "http://n2.example",
        3 => "http://n3.example",
        _ => "http://n4.example",
    }
}

fn host_of(node: usize) -> &'static str {
    match node {
        1 => "n1.example",
        2 => "n2.example",
        3 => "n3.example",
        _ => "n4.example",
    }
}

/// The node of this host, or 9.
fn node_of(host: &[u8]) -> usize {
    for node in 1..5 {
        if host == host_of(node).as_bytes() {
            return node;
        }
    }
    9
}

fn begin(alloc: Global) -> Result<Local, AllocError> {
    let coordinator = Text::copied(alloc, base_of(2))?;
    Ok(Local::Begin { coordinator, ms: 0 })
}

fn interpose(alloc: Global) -> Result<Local, AllocError> {
    let coordinator = Text::copied(alloc, base_of(3))?;
    Ok(Local::Interpose {
        activity: Id::new(1, 1),
        coordinator,
    })
}

fn work(alloc: Global) -> Result<Local, AllocError> {
    let service = Text::copied(alloc, base_of(4))?;
    let key = Text::copied(alloc, "k")?;
    let value = Text::copied(alloc, "v")?;
    Ok(Local::Work {
        activity: Id::new(1, 2),
        service,
        kind: Kind::Durable,
        vote: Vote::Prepared,
        key,
        value,
    })
}

fn request(alloc: Global, line: Line) -> Result<Local, AllocError> {
    match line {
        Line::Begin => begin(alloc),
        Line::Interpose => interpose(alloc),
        Line::Work => work(alloc),
        _ => Ok(Local::Commit {
            activity: Id::new(1, 1),
        }),
    }
}

fn new_hosts(alloc: Global) -> Result<Vec<Host>, AllocError> {
    let mut hosts = Vec::new(alloc);
    for node in 1..5 {
        let host = Host::new(alloc, base_of(node), node > 2)?;
        hosts.push(host)?;
    }
    Ok(hosts)
}

impl Four {
    /// Four nodes, each for the first time.
    pub fn new(alloc: Global) -> Result<Four, AllocError> {
        let hosts = new_hosts(alloc)?;
        Ok(Four {
            hosts,
            posts: Vec::new(alloc),
            carried: 0,
        })
    }

    /// What becomes of the k-th write, sync, answer or post of a node from now.
    pub fn arm(&mut self, node: usize, k: u32, fault: Fault) {
        if let Some(host) = self.hosts.get_mut(node.saturating_sub(1)) {
            host.arm(k, fault);
        }
    }

    pub fn is_up(&self, node: usize) -> bool {
        match self.hosts.get(node.saturating_sub(1)) {
            Some(host) => host.is_up(),
            None => false,
        }
    }

    /// Puts the posts that a node has sent since behind the others.
    fn gather(&mut self, node: usize) -> Result<(), AllocError> {
        let Some(host) = self.hosts.get_mut(node.saturating_sub(1)) else {
            return Ok(());
        };
        for _ in 0..u32::MAX {
            match host.gather() {
                Some(n) => self.posts.push((node, n))?,
                None => break,
            }
        }
        Ok(())
    }

    fn ask(&mut self, alloc: Global, request: &Local) -> Result<(), AllocError> {
        match self.hosts.get_mut(0) {
            Some(host) => {
                if host.peer().ask(alloc, request) {
                    self.gather(1)
                } else {
                    Err(AllocError)
                }
            }
            None => Err(AllocError),
        }
    }

    /// The node that a post goes to, and a copy of its bytes.
    fn copied(
        &mut self,
        alloc: Global,
        sender: usize,
        n: usize,
    ) -> Result<(usize, Vec<u8>), AllocError> {
        let Some(host) = self.hosts.get_mut(sender.saturating_sub(1)) else {
            return Err(AllocError);
        };
        match host.peer().sent(n) {
            Some(post) => {
                let bytes = Vec::from_slice(alloc, post.bytes.as_slice())?;
                Ok((node_of(post.host.as_slice()), bytes))
            }
            None => Err(AllocError),
        }
    }

    fn take(&mut self, alloc: Global, node: usize, bytes: &[u8]) -> Result<(), AllocError> {
        match self.hosts.get_mut(node.saturating_sub(1)) {
            Some(host) => {
                host.take(alloc, bytes);
                self.gather(node)
            }
            None => Err(AllocError),
        }
    }

    /// A post is carried to its node.
    fn carry(&mut self, alloc: Global, sender: usize, n: usize) -> Result<(), AllocError> {
        let (node, bytes) = self.copied(alloc, sender, n)?;
        self.take(alloc, node, bytes.as_slice())
    }

    fn flush(&mut self, alloc: Global) -> Result<(), AllocError> {
        for _time in 0..99 {
            match self.posts.get(self.carried) {
                Some((sender, n)) => {
                    let (sender, n) = (*sender, *n);
                    self.carried = self.carried.saturating_add(1);
                    self.carry(alloc, sender, n)?;
                }
                None => return Ok(()),
            }
        }
        Ok(())
    }

    fn up(&mut self, alloc: Global, node: usize) {
        if let Some(host) = self.hosts.get_mut(node.saturating_sub(1)) {
            host.up(alloc);
        }
    }

    fn down(&mut self, alloc: Global, node: usize) {
        if let Some(host) = self.hosts.get_mut(node.saturating_sub(1)) {
            host.fall(alloc, Choice::Drop);
        }
    }

    fn tick(&mut self, alloc: Global, node: usize) -> Result<(), AllocError> {
        match self.hosts.get_mut(node.saturating_sub(1)) {
            Some(host) => {
                host.tick(alloc);
                self.gather(node)
            }
            None => Err(AllocError),
        }
    }

    fn request(&mut self, alloc: Global, line: Line) -> Result<(), AllocError> {
        let request = request(alloc, line)?;
        self.ask(alloc, &request)
    }

    fn goes(&mut self, alloc: Global, line: Line) -> Result<(), AllocError> {
        match line {
            Line::Begin | Line::Interpose | Line::Work | Line::Commit => self.request(alloc, line),
            Line::Flush => self.flush(alloc),
            Line::Up(node) => {
                self.up(alloc, node);
                Ok(())
            }
            Line::Down(node) => {
                self.down(alloc, node);
                Ok(())
            }
            Line::Tick(node) => self.tick(alloc, node),
        }
    }

    /// These lines, so many times.
    pub fn plays(&mut self, alloc: Global, lines: &[Line], times: u32) -> Result<(), AllocError> {
        for _time in 0..times {
            for line in lines {
                self.goes(alloc, *line)?;
            }
        }
        Ok(())
    }

    /// How many posts there were, if all of them were carried.
    pub fn posts(&self) -> Option<usize> {
        if self.carried == self.posts.len() {
            Some(self.carried)
        } else {
            None
        }
    }

    /// How the subordinate and the durable participant ended so far.
    pub fn ends(&self) -> Ends {
        let mut ends = Ends {
            committed: 0,
            aborted: 0,
            lost: 0,
        };
        for host in &self.hosts {
            match host.ending() {
                Some(Ending::Committed) => ends.committed = ends.committed.saturating_add(1),
                Some(Ending::Aborted) => ends.aborted = ends.aborted.saturating_add(1),
                Some(Ending::Lost) => ends.lost = ends.lost.saturating_add(1),
                None => {}
            }
        }
        ends
    }

    /// Whether all went as it may.
    pub fn is_right(&self) -> bool {
        for host in &self.hosts {
            if host.is_wrong() {
                return false;
            }
        }
        true
    }

    /// Whether no record of any journal is live.
    pub fn is_settled(&mut self, alloc: Global) -> bool {
        for node in 0..4 {
            match self.hosts.get_mut(node) {
                Some(host) => {
                    if !host.is_settled(alloc) {
                        return false;
                    }
                }
                None => return false,
            }
        }
        true
    }
}
