//! The calls of a machine in memory.

ghost use Rattle.std.specs.Prelude.{◌≡◌, IfOk};
ghost use Rattle.site_model.specs.Told.Call.{Write, Sync, Send, Post};
ghost use Rattle.site_memory.specs.Entries.{call_of, mades, Notes};

use crate::arm::{Arm, Fate};
use std::alloc::{AllocError, Global};

/// A call of the disk or of the network.
#[derive(Debug)]
pub enum Deed {
    Write {
        file: u8,
        at: u64,
        bytes: Vec<u8>,
    },
    Sync {
        file: u8,
    },
    Send {
        bytes: Vec<u8>,
    },
    Post {
        host: Vec<u8>,
        port: u16,
        bytes: Vec<u8>,
    },
}

impl Drop for Deed {
    fn drop(self) {
        match self {
            Deed::Write {
                file: _,
                at: _,
                bytes: _bytes,
            } => {}
            Deed::Sync { file: _ } => {}
            Deed::Send { bytes: _bytes } => {}
            Deed::Post {
                host: _host,
                port: _,
                bytes: _bytes,
            } => {}
        }
    }
}

/// A call, and whether it was done.
#[derive(Debug, Drop)]
pub struct Entry {
    pub deed: Deed,
    pub done: bool,
}

/// What became of a call.
#[derive(Clone, Copy, Debug, PartialEq, Eq)]
pub enum Noted {
    Done,
    Failed,
    Not,
}

fn copied(alloc: Global, bytes: &[u8]) -> Result<Vec<u8>, AllocError>
    ensures { IfOk result (λ v. v.items ≡ bytes.now) }
{
    let mut copy = Vec::new(alloc);
    copy.extend_from_slice(bytes)?;
    Ok(copy)
}

impl Deed {
    pub fn write(alloc: Global, file: u8, at: u64, bytes: &[u8]) -> Result<Deed, AllocError>
        ensures { IfOk result (λ d. call_of d ≡ Write file at bytes.now) }
    {
        let bytes = copied(alloc, bytes)?;
        Ok(Deed::Write { file, at, bytes })
    }

    pub fn send(alloc: Global, bytes: &[u8]) -> Result<Deed, AllocError>
        ensures { IfOk result (λ d. call_of d ≡ Send bytes.now) }
    {
        let bytes = copied(alloc, bytes)?;
        Ok(Deed::Send { bytes })
    }

    pub fn post(alloc: Global, host: &[u8], port: u16, bytes: &[u8]) -> Result<Deed, AllocError>
        ensures { IfOk result (λ d. call_of d ≡ Post host.now port bytes.now) }
    {
        let host = copied(alloc, host)?;
        let bytes = copied(alloc, bytes)?;
        Ok(Deed::Post { host, port, bytes })
    }
}

/// Keeps a call as done or failed, as it is armed.
pub fn note(log: &mut Vec<Entry>, arm: &mut Arm, wanted: &mut bool, deed: Deed) -> Noted
    ensures { Notes (call_of deed) result arm.old arm.new wanted.old wanted.new (mades log.old.items) (mades log.new.items) }
{
    match arm.fate() {
        Fate::Refused => Noted::Not,
        Fate::Done => {
            if log.push(Entry { deed, done: true }).is_err() {
                *wanted = true;
                return Noted::Not;
            }
            *arm = arm.next();
            Noted::Done
        }
        Fate::Failed => {
            if log.push(Entry { deed, done: false }).is_err() {
                *wanted = true;
                return Noted::Not;
            }
            *arm = arm.next();
            Noted::Failed
        }
    }
}
