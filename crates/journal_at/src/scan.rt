//! What each file says by itself.

ghost use Rattle.std.specs.Prelude.{◌≡◌, ◌≤◌, IfOk, IfErr, vec_capacity};
ghost use Rattle.journal_at.specs.Format.{mark_of};
ghost use Rattle.journal_at.specs.Frames.{IsWhy, bodies_of};
ghost use Rattle.journal_at.specs.Scans.{IsGate, IsHead, IsOpened, IsPicked, IsScan, Judges, is_bare, mark_in, second_lives};

use crate::file_bodies::Bodies;
use crate::journal::Journal;
use crate::read::{BodiesFault, Placed, number, read_bodies};
use crate::records::Records;
use crate::version::Version;
use std::alloc::{AllocError, Global};

/// What a file's first body says, and how many bodies stand before its first record.
#[derive(Clone, Copy)]
pub struct Head {
    pub version: Version,
    pub generation: u32,
    pub start: usize,
}

/// What a body says of the file that it is the first of.
fn head_of_first(body: &[u8]) -> Head
    ensures { IsHead result (mark_of body.now) }
{
    match body {
        [tag, a, b, c, d] => {
            let generation = number(&[*a, *b, *c, *d]);
            if *tag == 11 {
                return Head {
                    version: Version::Two,
                    generation,
                    start: 1,
                };
            }
            if *tag == 9 && 0 < generation && generation < 4_294_967_295 {
                return Head {
                    version: Version::One,
                    generation,
                    start: 1,
                };
            }
            Head {
                version: Version::One,
                generation: 0,
                start: 0,
            }
        }
        _ => Head {
            version: Version::One,
            generation: 0,
            start: 0,
        },
    }
}

/// What a file's bodies say of it.
fn head_of_all(bodies: &[Placed]) -> Head
    ensures { IsHead result (mark_in (bodies_of bodies.now)) }
{
    match bodies.first() {
        Some(placed) => head_of_first(placed.body.as_slice()),
        None => Head {
            version: Version::One,
            generation: 0,
            start: 0,
        },
    }
}

/// Whether a file's first gate is open or not there.
fn is_unshut(bytes: &[u8]) -> bool
    ensures { IsGate result bytes.now }
{
    match bytes.split_first() {
        Some((gate, _)) => *gate == 1,
        None => true,
    }
}

/// The bodies of a file, what they say of it, whether its first gate is open or not there, whether it has at most one byte, and
/// whether it has more bytes than the first append of a new journal can have left.
#[derive(Drop)]
pub struct Scan {
    pub(crate) bodies: Bodies,
    pub(crate) head: Head,
    pub(crate) unshut: bool,
    pub(crate) bare: bool,
    pub(crate) large: bool,
}

/// All that a file says.
pub fn scan_file(alloc: Global, bytes: &[u8]) -> Result<Scan, BodiesFault>
    ensures ok { IfOk result (λ s. IsScan s bytes.now) }
    ensures why { IfErr result (λ e. IsWhy e bytes.now) }
{
    match read_bodies(alloc, bytes) {
        Ok(bodies) => {
            let head = head_of_all(bodies.items.as_slice());
            let unshut = is_unshut(bytes);
            Ok(Scan {
                bodies,
                head,
                unshut,
                bare: bytes.len() <= 1,
                large: bytes.len() > 11,
            })
        }
        Err(fault) => Err(fault),
    }
}

/// All that both files say.
#[derive(Drop)]
pub struct Both {
    pub(crate) first: Scan,
    pub(crate) second: Scan,
}

impl Both {
    /// Whether file 1 is live.
    pub(crate) fn second_lives(&self) -> bool
        ensures { result ≡ second_lives self.now }
    {
        self.first.head.generation < self.second.head.generation
    }

    /// Whether file 0 is live and has at most one byte.
    pub(crate) fn is_bare(&self) -> bool
        ensures { result ≡ is_bare self.now }
    {
        self.first.bare && !self.second_lives()
    }

    /// Whether the live file has no body, and a file is longer than those of a new journal.
    pub(crate) fn is_foreign(&self) -> bool
        ensures { Judges result self.now }
    {
        if self.second_lives() {
            return false;
        }
        if !self.first.bodies.items.is_empty() {
            return false;
        }
        if self.first.large {
            return true;
        }
        self.second.large
    }
}

/// A journal whose file says that, and the records of it.
fn opened(live: u8, limit: u32, room: Vec<u8>, unshut: bool, scan: Scan) -> (Journal, Records)
    requires roomy { 1060005 ≤ vec_capacity room }
    requires two { live ≤ 1 }
    ensures { IsOpened live limit unshut scan result.0 result.1 }
{
    let Scan {
        bodies,
        head,
        unshut: _unshut,
        bare: _bare,
        large: _large,
    } = scan;
    let Bodies { items, end } = bodies;
    let journal = Journal {
        live,
        end,
        limit,
        generation: head.generation,
        unshut,
        unsure: false,
        room,
    };
    let records = Records {
        version: head.version,
        start: head.start,
        items,
    };
    (journal, records)
}

/// The journal of the live file, and its records. Room for any append is made here.
pub fn pick(alloc: Global, limit: u32, both: Both) -> Result<(Journal, Records), AllocError>
    ensures { IfOk result (λ p. IsPicked (second_lives both) limit both p.0 p.1) }
{
    let room = Vec::with_capacity(alloc, 1_060_005)?;
    let second = both.second_lives();
    let Both {
        first,
        second: other,
    } = both;
    if second {
        let unshut = first.unshut;
        Ok(opened(1, limit, room, unshut, other))
    } else {
        let unshut = other.unshut;
        Ok(opened(0, limit, room, unshut, first))
    }
}
