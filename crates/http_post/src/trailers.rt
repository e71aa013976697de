//! The trailers behind the last chunk (RFC 9112, section 7.1.2), which aren't looked at.

ghost use Rattle.std.specs.Prelude.{ℕ, List, ◌≡◌, ◌+◌, ◌≤◌, IfErr, OnOk, drop, true, false};
ghost use Rattle.http_post.specs.Connections.{Leaves, left};
ghost use Rattle.http_post.specs.Chunks.{cut_at_end, ends_trailers};
ghost use Rattle.http_post.specs.Lines.{IsAfter};
ghost use Rattle.http_post.specs.Causes.{HasLinkCause};
ghost use Rattle.http_post.specs.RawBytes.{IsFault, IsRaw, seen};

use crate::chunks::fill;
use crate::refusal::HttpRefusal;
use site_model::site::Site;

/// How far a trailer line came.
#[derive(Clone, Copy)]
pub enum Line {
    /// Nothing of it.
    Fresh,
    /// A carriage return alone.
    Returned,
    /// More than that.
    Filled,
}

/// How far the line is behind one byte more. None where that ends an empty line.
fn after(line: Line, byte: u8) -> Option<Line>
    ensures { IsAfter line byte result }
{
    match (line, byte) {
        (Line::Filled, b'\n') => Some(Line::Fresh),
        (_, b'\n') => None,
        (Line::Fresh, b'\r') => Some(Line::Returned),
        _ => Some(Line::Filled),
    }
}

/// Reads on to the end of the trailers, which begin at a place.
pub fn read_trailers<S: Site>(
    site: &mut S,
    bytes: &mut Vec<u8>,
    from: usize,
) -> Result<(), HttpRefusal>
    requires { from ≤ 131072 }
    ensures kept { OnOk result ((raw : List ℕ) → IsRaw (left (S.told site.old)) bytes.old.items raw → IsRaw (left (S.told site.new)) bytes.new.items raw) }
    ensures ended { OnOk result ((raw : List ℕ) → IsRaw (left (S.told site.old)) bytes.old.items raw → ends_trailers (drop from (seen raw)) ≡ true) }
    ensures fault { IfErr result (λ e. IsFault e (λ r. (raw : List ℕ) → IsRaw (left (S.told site.old)) bytes.old.items raw → (ends_trailers (drop from (seen raw)) ≡ false) × (r ≡ cut_at_end raw))) }
    ensures cause { HasLinkCause ((S.told site.old).counts.receive) ((S.told site.new).counts.receive) result }
    ensures leaves { Leaves S.told site.old site.new }
{
    let mut line = Line::Fresh;
    let mut at = from;
    loop {
        match fill(site, bytes, at + 1) {
            Ok(()) => {}
            Err(refusal) => return Err(refusal),
        }
        match after(line, bytes[at]) {
            Some(next) => line = next,
            None => return Ok(()),
        }
        at += 1;
    }
}
