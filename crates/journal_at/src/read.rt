//! Bodies that are read.

ghost use Rattle.std.specs.Prelude.{◌≡◌, ◌⊎◌, ◌++◌, ◌∷◌, [], length, None, IfOk, IfErr, OnOk, is_some};
ghost use Rattle.journal_at.specs.declared.read.BodiesFault.TheVariants.{NoMemory};
ghost use Rattle.journal_at.specs.Format.{FileOf, frames, mark_of};
ghost use Rattle.std.specs.Int.{from_be_bytes, to_be_bytes, w32};
ghost use Rattle.journal_at.specs.Frames.{ArePlaced, Says, IsMisplaced, IsWhy, bodies_of, body_of, listed_in};

use crate::file_bodies::Bodies;
use std::alloc::{AllocError, Global};

/// How the bytes of a file begin: with a gate that is shut, with a body and what stands behind it, or with neither.
pub enum Frame<'a> {
    End,
    Bad,
    Body(&'a [u8], &'a [u8]),
}

/// The number that four bytes spell.
pub(crate) fn number(front: &[u8]) -> u32
    requires { length front.now ≡ 4 }
    ensures read { result ≡ from_be_bytes w32 front.now }
    ensures spelled { to_be_bytes w32 result ≡ front.now }
{
    match <[u8; 4]>::try_from(front) {
        Ok(bytes) => u32::from_be_bytes(bytes),
        Err(_) => 0,
    }
}

/// Reads one body.
pub fn read_frame(bytes: &[u8]) -> Frame<'_>
    ensures { Says result bytes.now }
{
    let Some((gate, rest)) = bytes.split_first() else {
        return Frame::Bad;
    };
    if *gate != 1 {
        return Frame::End;
    }
    if rest.len() < 4 {
        return Frame::Bad;
    }
    let (front, back) = rest.split_at(4);
    let size = number(front) as usize;
    if size == 0 {
        return Frame::Bad;
    }
    if size > 1_060_000 {
        return Frame::Bad;
    }
    if back.len() <= size {
        return Frame::Bad;
    }
    let (body, after) = back.split_at(size);
    Frame::Body(body, after)
}

/// Why a file's bodies weren't read.
#[derive(Debug, PartialEq, Eq, Drop)]
pub enum BodiesFault {
    NoMemory,
    /// It stands for no list of bodies; the place of the gate.
    Bad(u64),
}

impl From<AllocError> for BodiesFault {
    ghost from_gives = { λ _ fault. fault ≡ NoMemory };

    fn from(_: AllocError) -> BodiesFault {
        BodiesFault::NoMemory
    }
}

/// A body, with the place of its gate.
#[derive(Debug, Drop)]
pub struct Placed {
    pub(crate) body: Vec<u8>,
    pub(crate) gate: u64,
}

impl Placed {
    /// The body.
    pub fn body(&self) -> &[u8]
        ensures { result.now ≡ body_of self.now }
    {
        self.body.as_slice()
    }

    /// The place of its gate.
    pub fn gate(&self) -> u64
        ensures { result ≡ self.now.gate }
    {
        self.gate
    }
}

fn copy_of(alloc: Global, body: &[u8], gate: u64) -> Result<Placed, AllocError>
    ensures { IfOk result (λ p. (p.body.items ≡ body.now) × (p.gate ≡ gate)) }
{
    let mut copy = Vec::new(alloc);
    copy.extend_from_slice(body)?;
    Ok(Placed { body: copy, gate })
}

/// Whether a body is a mark.
fn is_mark(body: &[u8]) -> bool
    ensures { result ≡ is_some (mark_of body.now) }
{
    match body {
        [tag, a, b, c, d] => {
            let generation = number(&[*a, *b, *c, *d]);
            *tag == 11 || (*tag == 9 && 0 < generation && generation < 4_294_967_295)
        }
        _ => false,
    }
}

/// One more at the end.
fn push_placed(bodies: &mut Vec<Placed>, next: Placed) -> Result<(), AllocError>
    ensures { OnOk result (bodies.new.items ≡ bodies.old.items ++ next ∷ []) }
{
    bodies.push(next)?;
    Ok(())
}

/// A body more, unless it is a mark behind others.
fn take_body(
    alloc: Global,
    bodies: &mut Vec<Placed>,
    body: &[u8],
    gate: u64,
) -> Result<(), BodiesFault>
    ensures done { OnOk result ((bodies_of bodies.new.items ≡ bodies_of bodies.old.items ++ body.now ∷ []) × ((bodies_of bodies.old.items ≡ []) ⊎ (mark_of body.now ≡ None))) }
    ensures placed { OnOk result (ArePlaced 0 bodies.old.items → gate ≡ length (frames (bodies_of bodies.old.items)) → ArePlaced 0 bodies.new.items) }
    ensures bad { IfErr result (λ e. IsMisplaced e gate (bodies_of bodies.old.items) body.now) }
{
    if !bodies.is_empty() && is_mark(body) {
        return Err(BodiesFault::Bad(gate));
    }
    let next = copy_of(alloc, body, gate)?;
    match push_placed(bodies, next) {
        Ok(()) => Ok(()),
        Err(_) => Err(BodiesFault::NoMemory),
    }
}

/// All bodies of a file.
pub fn read_bodies(alloc: Global, bytes: &[u8]) -> Result<Bodies, BodiesFault>
    ensures ok { IfOk result (λ v. FileOf bytes.now (listed_in v)) }
    ensures placed { IfOk result (λ v. ArePlaced 0 v.items.items) }
    ensures end { IfOk result (λ v. v.end ≡ length (frames (listed_in v))) }
    ensures why { IfErr result (λ e. IsWhy e bytes.now) }
{
    let mut bodies = Vec::new(alloc);
    if bytes.len() <= 1 {
        return Ok(Bodies {
            items: bodies,
            end: 0,
        });
    }
    let mut rest = bytes;
    loop {
        let gate = bytes.len().saturating_sub(rest.len()) as u64;
        match read_frame(rest) {
            Frame::End => return Ok(Bodies {
                items: bodies,
                end: gate,
            }),
            Frame::Bad => return Err(BodiesFault::Bad(gate)),
            Frame::Body(body, after) => {
                match take_body(alloc, &mut bodies, body, gate) {
                    Ok(()) => rest = after,
                    Err(fault) => return Err(fault),
                }
            }
        }
    }
}
