//! The head of a request, read piece by piece.

ghost use Rattle.std.specs.Prelude.{◌≡◌, ◌<◌, ◌≤◌, IfErr, IfOk, IfSome, None, OnOk, drop, length};
ghost use Rattle.std.specs.Io.KnownBytes.{Consumes};
ghost use Rattle.httparse.specs.Grammar.{HasNoRequest};
ghost use Rattle.httparse.specs.Spans.{IsRequestOf, IsRequestWithin};
ghost use Rattle.site_model.specs.Counts.{Rose};
ghost use Rattle.http_post.specs.Causes.{UnlessFailed};
ghost use Rattle.http_post.specs.Connections.{HasCome, Leaves, left};
ghost use Rattle.http_post.specs.declared.head.HeadFault.TheVariants as faults;
ghost use Rattle.http_post.specs.declared.head.PieceFault.TheVariants as pieces;
ghost use Rattle.http_post.specs.PartialHeads.{HasNoHead, HoldsHead, IsPiece, IsRead};
ghost use Rattle.http_post.specs.ReadFaults.{IfNoHead};

use crate::connection::receive;
use crate::places::{Places, Step};
use crate::tail::{Tail, tail_behind};
use httparse::spans::RequestSpans;
use site_model::site::Site;
use site_model::source::Failed;
use std::alloc::{AllocError, Global};

/// The most bytes of a head.
const MOST_HEAD: usize = 8192;

/// The bytes that came, which begin with a head, and where its parts stand.
pub struct Head {
    pub bytes: Vec<u8>,
    pub places: Places,
    pub spans: RequestSpans,
}

impl Drop for Head {
    fn drop(self) {
        let Head {
            bytes: _bytes,
            places: _places,
            spans: _spans,
        } = self;
    }
}

impl Head {
    /// What came behind the head.
    pub fn rest(&self) -> &[u8]
        requires { IsRead self.now.bytes.items self.now.places self.now.spans }
        ensures { result.now ≡ drop self.now.spans.len self.now.bytes.items }
    {
        &self.bytes[self.spans.len..]
    }
}

/// Why no head was read.
#[derive(Debug, PartialEq, Eq, Drop)]
pub enum HeadFault {
    /// The first 8,192 bytes don't begin with one.
    NoHead,
    Failed,
    /// Bytes came, and there was no memory for them.
    NoMemory,
}

/// Why no piece was read.
#[derive(Debug, PartialEq, Eq, Drop)]
enum PieceFault {
    Failed,
    NoMemory,
}

/// Why no head was read where there is no memory to begin one: whether anything comes is looked at first.
#[tactic(auto, using(crate::proofs::Comings::came_by, crate::proofs::Comings::nothing_came))]
fn unread_head<S: Site>(site: &mut S) -> HeadFault
    ensures later { (S.told site.old).counts.receive ≤ (S.told site.new).counts.receive }
    ensures leaves { Leaves S.told site.old site.new }
    ensures failed { result ≡ faults.Failed → Rose ((S.told site.old).counts.receive) ((S.told site.new).counts.receive) }
    ensures refused { UnlessFailed result ((S.told site.new).counts.receive ≡ (S.told site.old).counts.receive) }
    ensures none { IfNoHead result (HasNoHead (left (S.told site.old))) }
    ensures came { result ≡ faults.NoMemory → HasCome (left (S.told site.old)) }
{
    let mut buf = [0u8; 1];
    let n = match receive(site, &mut buf) {
        Ok(n) => n,
        Err(Failed) => return HeadFault::Failed,
    };
    if n == 0 {
        return HeadFault::NoHead;
    }
    HeadFault::NoMemory
}

/// Adds what one read gives, at most to 8,192 bytes in all.
#[tactic(auto, using(crate::proofs::Comings::came_by))]
fn read_piece<S: Site>(site: &mut S, bytes: &mut Vec<u8>) -> Result<usize, PieceFault>
    requires { length bytes.old.items < 8192 }
    ensures piece { IfOk result (λ n. IsPiece (left (S.told site.old)) (left (S.told site.new)) bytes.old.items bytes.new.items n) }
    ensures later { (S.told site.old).counts.receive ≤ (S.told site.new).counts.receive }
    ensures leaves { Leaves S.told site.old site.new }
    ensures failed { IfErr result (λ e. e ≡ pieces.Failed → Rose ((S.told site.old).counts.receive) ((S.told site.new).counts.receive)) }
    ensures quiet { OnOk result ((S.told site.new).counts.receive ≡ (S.told site.old).counts.receive) }
    ensures lacking { IfErr result (λ e. e ≡ pieces.NoMemory → (S.told site.new).counts.receive ≡ (S.told site.old).counts.receive) }
    ensures came { IfErr result (λ e. e ≡ pieces.NoMemory → HasCome (left (S.told site.old))) }
{
    let mut buf = [0u8; 1024];
    let room = (MOST_HEAD - bytes.len()).min(1024);
    let n = match receive(site, &mut buf[..room]) {
        Ok(n) => n,
        Err(Failed) => return Err(PieceFault::Failed),
    };
    if n == 0 {
        return Ok(0);
    }
    match bytes.extend_from_slice(&buf[..n]) {
        Ok(()) => Ok(n),
        Err(AllocError) => Err(PieceFault::NoMemory),
    }
}

/// The head that the bytes begin with, of which no more are wanted.
#[tactic(auto, using(crate::proofs::PartialHeads::none_now))]
fn last_head(mut places: Places, bytes: Vec<u8>) -> Option<Head>
    requires { length bytes.items ≤ 8192 }
    ensures some { IfSome result (λ h. (h.bytes.items ≡ bytes.items) × (IsRequestOf h.bytes.items h.places h.spans × IsRequestWithin h.bytes.items h.places h.spans)) }
    ensures none { result ≡ None → HasNoRequest bytes.items }
{
    match places.try_head(bytes.as_slice()) {
        Step::Whole(spans) => Some(Head {
            bytes,
            places,
            spans,
        }),
        Step::More | Step::Never => None,
    }
}

/// The head that the connection begins with, and what came with it. The bytes are parsed again only where an empty line
/// ended, where they have doubled, and where no more are wanted: so a head that comes byte by byte is parsed a few times.
#[tactic(auto, using(crate::proofs::PartialHeads::nothing_yet, crate::proofs::PartialHeads::grown, crate::proofs::PartialHeads::not_shorter, crate::proofs::Comings::came_before))]
pub fn read_head<S: Site>(alloc: Global, site: &mut S) -> Result<Head, HeadFault>
    ensures head { IfOk result (λ h. HoldsHead (left (S.told site.old)) h.bytes.items h.places h.spans) }
    ensures read { IfOk result (λ h. IsRead h.bytes.items h.places h.spans) }
    ensures taken { IfOk result (λ h. Consumes (left (S.told site.old)) (left (S.told site.new)) h.bytes.items) }
    ensures later { (S.told site.old).counts.receive ≤ (S.told site.new).counts.receive }
    ensures leaves { Leaves S.told site.old site.new }
    ensures failed { IfErr result (λ e. e ≡ faults.Failed → Rose ((S.told site.old).counts.receive) ((S.told site.new).counts.receive)) }
    ensures quiet { OnOk result ((S.told site.new).counts.receive ≡ (S.told site.old).counts.receive) }
    ensures refused { IfErr result (λ e. UnlessFailed e ((S.told site.new).counts.receive ≡ (S.told site.old).counts.receive)) }
    ensures none { IfErr result (λ e. IfNoHead e (HasNoHead (left (S.told site.old)))) }
    ensures came { IfErr result (λ e. e ≡ faults.NoMemory → HasCome (left (S.told site.old))) }
{
    let Ok(mut places) = Places::new(alloc) else {
        return Err(unread_head(site));
    };
    let mut bytes = Vec::new(alloc);
    let mut tail = Tail::Blank;
    let mut parsed = 0;
    loop {
        let before = bytes.len();
        let n = match read_piece(site, &mut bytes) {
            Ok(n) => n,
            Err(PieceFault::NoMemory) => return Err(HeadFault::NoMemory),
            Err(PieceFault::Failed) => return Err(HeadFault::Failed),
        };
        if n == 0 || bytes.len() >= MOST_HEAD {
            return match last_head(places, bytes) {
                Some(head) => Ok(head),
                None => Err(HeadFault::NoHead),
            };
        }
        tail = tail_behind(tail, &bytes[before..]);
        if tail == Tail::Ended || bytes.len() / 2 >= parsed {
            match places.try_head(bytes.as_slice()) {
                Step::Whole(spans) => {
                    return Ok(Head {
                        bytes,
                        places,
                        spans,
                    });
                }
                Step::Never => return Err(HeadFault::NoHead),
                Step::More => parsed = bytes.len(),
            }
        }
    }
}
