//! The raw bytes of a body, as they come.

ghost use Rattle.std.specs.Prelude.{ℕ, List, ◌≡◌, ◌++◌, ◌+◌, ◌<◌, ◌≤◌, IfErr, IfOk, OnErr, OnOk, length, min, take};
ghost use Rattle.http_post.specs.Connections.{Leaves, left};
ghost use Rattle.http_post.specs.Causes.{HasLinkCause};
ghost use Rattle.http_post.specs.RawBytes.{BreaksOff, IsFault, IsRaw};

use crate::connection::receive;
use crate::refusal::HttpRefusal;
use site_model::site::Site;
use site_model::source::Failed;
use std::alloc::AllocError;

/// The most bytes of a body in chunks, from behind the head through the empty line behind the trailers.
pub const MOST_RAW: usize = 131072;

#[tactic(auto, using(crate::proofs::RawBytes::raw_grows, crate::proofs::RawBytes::raw_ends))]
/// Adds what one read gives, at most so many bytes, and says how many.
pub fn read_on<S: Site>(
    site: &mut S,
    bytes: &mut Vec<u8>,
    most: usize,
) -> Result<usize, HttpRefusal>
    requires { 0 < most }
    ensures kept { OnOk result ((raw : List ℕ) → IsRaw (left (S.told site.old)) bytes.old.items raw → IsRaw (left (S.told site.new)) bytes.new.items raw) }
    ensures grown { IfOk result (λ n. length bytes.new.items ≡ length bytes.old.items + n) }
    ensures most { IfOk result (λ n. n ≤ most) }
    ensures end { IfOk result (λ n. n ≡ 0 → (raw : List ℕ) → IsRaw (left (S.told site.old)) bytes.old.items raw → raw ≡ bytes.old.items) }
    ensures fault { IfErr result (λ e. IsFault e (λ r. ⊥)) }
    ensures same { OnErr result (bytes.new.items ≡ bytes.old.items) }
    ensures cause { HasLinkCause ((S.told site.old).counts.receive) ((S.told site.new).counts.receive) result }
    ensures leaves { Leaves S.told site.old site.new }
    ensures front { (piece : List ℕ) × (bytes.new.items ≡ bytes.old.items ++ piece) }
{
    let mut buf = [0u8; 4096];
    let room = most.min(4096);
    let n = match receive(site, &mut buf[..room]) {
        Ok(n) => n,
        Err(Failed) => return Err(HttpRefusal::Link),
    };
    match bytes.extend_from_slice(&buf[..n]) {
        Ok(()) => Ok(n),
        Err(AllocError) => Err(HttpRefusal::NoMemory),
    }
}

/// Adds at least one byte that counts. A body breaks off where the connection ends or gives more than 131,072 bytes.
#[tactic(auto, using(crate::proofs::RawBytes::cut_full, crate::proofs::RawBytes::cut_short, crate::proofs::RawBytes::cut_long))]
pub fn more<S: Site>(site: &mut S, bytes: &mut Vec<u8>) -> Result<(), HttpRefusal>
    ensures kept { OnOk result ((raw : List ℕ) → IsRaw (left (S.told site.old)) bytes.old.items raw → IsRaw (left (S.told site.new)) bytes.new.items raw) }
    ensures grown { OnOk result (length bytes.old.items < length bytes.new.items) }
    ensures counts { OnOk result (length bytes.old.items < 131072) }
    ensures fault { IfErr result (λ e. IsFault e (λ r. (raw : List ℕ) → IsRaw (left (S.told site.old)) bytes.old.items raw → BreaksOff bytes.old.items raw r)) }
    ensures kept_at_cut { IfErr result (λ e. IsFault e (λ r. (raw : List ℕ) → IsRaw (left (S.told site.old)) bytes.old.items raw → IsRaw (left (S.told site.new)) bytes.new.items raw)) }
    ensures cause { HasLinkCause ((S.told site.old).counts.receive) ((S.told site.new).counts.receive) result }
    ensures leaves { Leaves S.told site.old site.new }
    ensures held { OnErr result (take 131072 bytes.new.items ≡ take 131072 bytes.old.items) }
{
    if bytes.len() > MOST_RAW {
        return Err(HttpRefusal::ContentTooLarge);
    }
    let counts = bytes.len() < MOST_RAW;
    let n = match read_on(site, bytes, 4096) {
        Ok(n) => n,
        Err(refusal) => return Err(refusal),
    };
    if n == 0 {
        return Err(HttpRefusal::BadRequest);
    }
    if !counts {
        return Err(HttpRefusal::ContentTooLarge);
    }
    Ok(())
}

/// How many of the bytes count.
pub fn counting(bytes: &[u8]) -> usize
    ensures { result ≡ min (length bytes.now) 131072 }
{
    bytes.len().min(MOST_RAW)
}

/// The bytes that count.
pub fn counted(bytes: &[u8]) -> &[u8]
    ensures { result.now ≡ take 131072 bytes.now }
{
    &bytes[..counting(bytes)]
}
