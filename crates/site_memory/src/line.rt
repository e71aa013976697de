//! Connections.

ghost use Rattle.std.specs.Prelude.{◌≡◌, ◌≤◌, ◌++◌, ◌∷◌, [], length, OnOk, OnErr};
ghost use Rattle.site_model.specs.Calls.{OpensAs, GivesFirst, shut};
ghost use Rattle.site_memory.specs.Sites.{link_of};

use crate::bytes::Bytes;
use site_model::site::Taken;
use std::alloc::{AllocError, Global};
use std::collections::VecDeque;

/// The connection that is open, and those that wait.
#[derive(Drop)]
pub struct Line {
    pub(crate) coming: Vec<u8>,
    pub(crate) at: usize,
    /// The most bytes that are given at once, or 0 where as many as there is room for.
    pub(crate) most: usize,
    pub(crate) waiting: VecDeque<Bytes>,
}

impl Line {
    /// No connection.
    pub fn new(alloc: Global) -> Line
        ensures { link_of result ≡ record { open_bytes = []; waiting = [] } }
    {
        Line {
            coming: Vec::new(alloc),
            at: 0,
            most: 0,
            waiting: VecDeque::new(alloc),
        }
    }

    /// A connection more, behind the others.
    pub fn connect(&mut self, alloc: Global, bytes: &[u8]) -> Result<(), AllocError>
        ensures done { OnOk result (link_of self.new ≡ record (link_of self.old) { waiting = (link_of self.old).waiting ++ bytes.now ∷ [] }) }
        ensures failed { OnErr result (link_of self.new ≡ link_of self.old) }
    {
        let bytes = Bytes::from_slice(alloc, bytes)?;
        if self.waiting.push_back(bytes).is_err() {
            return Err(AllocError);
        }
        Ok(())
    }

    /// No connection is open or waits any more.
    pub fn hang_up(&mut self)
        ensures { link_of self.new ≡ record { open_bytes = []; waiting = [] } }
    {
        self.coming.clear();
        self.at = 0;
        self.waiting.clear();
    }

    /// Opens the next.
    pub fn next(&mut self) -> Taken
        ensures { OpensAs result (link_of self.old) (link_of self.new) }
    {
        self.at = 0;
        match self.waiting.pop_front() {
            Some(next) => {
                self.coming = next.bytes;
                Taken::Opened
            }
            None => {
                self.coming.clear();
                Taken::Closed
            }
        }
    }

    /// Gives of the open one.
    pub fn give(&mut self, buf: &mut [u8]) -> usize
        ensures same_length { length buf.new ≡ length buf.old }
        ensures bound { result ≤ length buf.new }
        ensures gives { GivesFirst result buf.new (link_of self.old) (link_of self.new) }
    {
        if self.at >= self.coming.len() {
            return 0;
        }
        let mut n = buf.len().min(self.coming.len() - self.at);
        if self.most > 0 {
            n = n.min(self.most);
        }
        buf[..n].copy_from_slice(&self.coming[self.at..self.at + n]);
        self.at += n;
        n
    }

    /// From now on it gives at most so many bytes at once.
    pub fn give_at_most(&mut self, most: usize)
        ensures { self.new ≡ record self.old { most = most } }
    {
        self.most = most;
    }

    /// The open one brings nothing more.
    pub fn shut(&mut self)
        ensures { link_of self.new ≡ shut (link_of self.old) }
    {
        self.coming.clear();
        self.at = 0;
    }
}
