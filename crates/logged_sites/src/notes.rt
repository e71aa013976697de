//! What is told of a machine's calls.

use crate::heads::{push_request, status_of};
use crate::log::Log;
use site_model::sink::Sink;
use std::alloc::{AllocError, Global};
use std::net::SocketAddr;
use std::time::Clock;

/// The most bytes of a request that are looked at: a head, and an envelope's headers.
const LOOKED_AT: usize = 16_384;

/// What is told of a machine's calls, where there is a log.
#[derive(Drop)]
pub(crate) struct Notes<K: Sink + Drop, C: Clock + Drop> {
    log: Option<Log<K, C>>,
    asked: Vec<u8>,
    /// There was no memory for more of the request.
    is_cut: bool,
    lost: u64,
    file: Option<u8>,
}

/// A line of a request, the status of its answer, and the address from which it came.
fn answered<K: Sink + Drop, C: Clock + Drop>(
    log: &Log<K, C>,
    asked: &[u8],
    status: &[u8],
    peer: Option<SocketAddr>,
) -> Result<String, AllocError> {
    let mut line = log.begun()?;
    for digit in status {
        line.push(char::from(*digit))?;
    }
    line.push(' ')?;
    push_request(&mut line, asked)?;
    if let Some(peer) = peer {
        let from = format!(in log.alloc(); " peer={peer}")?;
        line.push_str(from.as_str())?;
    }
    Ok(line)
}

/// A line of a post.
fn posted<K: Sink + Drop, C: Clock + Drop>(
    log: &Log<K, C>,
    host: &str,
    port: u16,
    bytes: &[u8],
    is_taken: bool,
) -> Result<String, AllocError> {
    let mut line = log.begun()?;
    let does = if is_taken { "posts" } else { "can't post" };
    let to = format!(in log.alloc(); "{does} to {host}:{port} ")?;
    line.push_str(to.as_str())?;
    push_request(&mut line, bytes)?;
    Ok(line)
}

/// A line of one fact.
fn fact_of<K: Sink + Drop, C: Clock + Drop>(
    log: &Log<K, C>,
    fact: &str,
    number: u64,
) -> Result<String, AllocError> {
    let mut line = log.begun()?;
    let told = format!(in log.alloc(); "{fact} {number}")?;
    line.push_str(told.as_str())?;
    Ok(line)
}

impl<K: Sink + Drop, C: Clock + Drop> Notes<K, C> {
    pub(crate) fn new(alloc: Global, log: Option<Log<K, C>>) -> Notes<K, C> {
        Notes {
            log,
            asked: Vec::new(alloc),
            is_cut: false,
            lost: 0,
            file: None,
        }
    }

    fn fact(&mut self, fact: &str, number: u64) {
        if let Some(log) = &mut self.log {
            let line = fact_of(log, fact, number);
            log.write(line);
        }
    }

    /// A call on a file, which failed or didn't.
    pub(crate) fn disk(&mut self, failed: bool, fact: &str, file: u8) {
        if failed {
            self.fact(fact, u64::from(file));
        }
    }

    /// A record was ended in a file: the journal goes on there, which was written anew if it was another before.
    pub(crate) fn goes_on(&mut self, file: u8) {
        match self.file {
            None => self.fact("the journal goes on in file", u64::from(file)),
            Some(before) => {
                if before != file {
                    self.fact("the journal was written anew in file", u64::from(file));
                }
            }
        }
        self.file = Some(file);
    }

    /// So many answers and posts were lost.
    pub(crate) fn losses(&mut self, lost: u64) {
        if lost != self.lost {
            self.lost = lost;
            self.fact("answers and posts lost so far:", lost);
        }
    }

    /// Another connection is waited for.
    pub(crate) fn wait(&mut self) {
        self.asked.clear();
        self.is_cut = false;
    }

    /// Bytes of a request came.
    pub(crate) fn hear(&mut self, bytes: &[u8]) {
        let room = LOOKED_AT.saturating_sub(self.asked.len());
        let count = room.min(bytes.len());
        if self.log.is_some() && !self.is_cut {
            self.is_cut = self.asked.extend_from_slice(&bytes[..count]).is_err();
        }
    }

    /// These bytes were sent back to that address.
    pub(crate) fn answer(&mut self, bytes: &[u8], peer: Option<SocketAddr>) {
        let Some(status) = status_of(bytes) else {
            return;
        };
        if let Some(log) = &mut self.log {
            let line = answered(log, self.asked.as_slice(), status, peer);
            log.write(line);
        }
    }

    /// These bytes were posted, or can't be.
    pub(crate) fn post(&mut self, host: &str, port: u16, bytes: &[u8], is_taken: bool) {
        if let Some(log) = &mut self.log {
            let line = posted(log, host, port, bytes, is_taken);
            log.write(line);
        }
    }
}
