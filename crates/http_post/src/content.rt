//! The data of a chunk, which end in CR LF (RFC 9112, section 7.1).

ghost use Rattle.std.specs.Prelude.{ℕ, List, ◌∷◌, ◌++◌, ◌≡◌, ◌+◌, ◌≤◌, IfErr, IfOk, OnOk, drop, length, min, take};
ghost use Rattle.http_post.specs.Connections.{Leaves, left};
ghost use Rattle.http_post.specs.Chunks.{cut_at_end};
ghost use Rattle.http_post.specs.Lines.{IsBadContent};
ghost use Rattle.http_post.specs.Causes.{HasLinkCause};
ghost use Rattle.http_post.specs.RawBytes.{EndsBefore, IsFault, IsRaw, seen};

use crate::chunks::fill;
use crate::refusal::HttpRefusal;
use site_model::site::Site;

/// The byte at a place, read on to it.
fn byte_on<S: Site>(site: &mut S, bytes: &mut Vec<u8>, place: usize) -> Result<u8, HttpRefusal>
    requires { place ≤ 262144 }
    ensures kept { OnOk result ((raw : List ℕ) → IsRaw (left (S.told site.old)) bytes.old.items raw → IsRaw (left (S.told site.new)) bytes.new.items raw) }
    ensures full { OnOk result (place + 1 ≤ min (length bytes.new.items) 131072) }
    ensures byte { IfOk result (λ b. (raw : List ℕ) → IsRaw (left (S.told site.old)) bytes.old.items raw → drop place (seen raw) ≡ b ∷ drop (place + 1) (seen raw)) }
    ensures fault { IfErr result (λ e. IsFault e (λ r. (raw : List ℕ) → IsRaw (left (S.told site.old)) bytes.old.items raw → EndsBefore (place + 1) raw r)) }
    ensures cause { HasLinkCause ((S.told site.old).counts.receive) ((S.told site.new).counts.receive) result }
    ensures leaves { Leaves S.told site.old site.new }
{
    match fill(site, bytes, place + 1) {
        Ok(()) => Ok(bytes[place]),
        Err(refusal) => Err(refusal),
    }
}

/// Reads on to the end of the data of a chunk, which begin at a place, and of the CR LF behind them.
pub fn read_content<S: Site>(
    site: &mut S,
    bytes: &mut Vec<u8>,
    from: usize,
    size: usize,
) -> Result<(), HttpRefusal>
    requires from { from ≤ min (length bytes.old.items) 131072 }
    requires size { size ≤ 65536 }
    ensures kept { OnOk result ((raw : List ℕ) → IsRaw (left (S.told site.old)) bytes.old.items raw → IsRaw (left (S.told site.new)) bytes.new.items raw) }
    ensures full { OnOk result (from + size + 2 ≤ min (length bytes.new.items) 131072) }
    ensures whole { OnOk result ((raw : List ℕ) → IsRaw (left (S.told site.old)) bytes.old.items raw → drop from (seen raw) ≡ take size (drop from (seen raw)) ++ 13 ∷ 10 ∷ drop (from + size + 2) (seen raw)) }
    ensures fault { IfErr result (λ e. IsFault e (λ r. (raw : List ℕ) → IsRaw (left (S.told site.old)) bytes.old.items raw → IsBadContent size (drop from (seen raw)) (cut_at_end raw) r)) }
    ensures cause { HasLinkCause ((S.told site.old).counts.receive) ((S.told site.new).counts.receive) result }
    ensures leaves { Leaves S.told site.old site.new }
{
    match fill(site, bytes, from + size) {
        Ok(()) => {}
        Err(refusal) => return Err(refusal),
    }
    match byte_on(site, bytes, from + size) {
        Ok(b'\r') => {}
        Ok(_) => return Err(HttpRefusal::BadRequest),
        Err(refusal) => return Err(refusal),
    }
    match byte_on(site, bytes, from + size + 1) {
        Ok(b'\n') => Ok(()),
        Ok(_) => Err(HttpRefusal::BadRequest),
        Err(refusal) => Err(refusal),
    }
}
