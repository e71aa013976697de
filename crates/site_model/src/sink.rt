//! Where bytes go.

ghost use Rattle.std.specs.Prelude.{ℕ, ◌≡◌, ◌<◌, ◌≤◌, length, Option, List, Ok, OnOk, take};
ghost use Rattle.std.specs.Io.{WritesAtMost};
ghost use Rattle.std.specs.Io.KnownBytes.{WriteAppends, Appends};
ghost use Rattle.site_model.specs.Counts.{HasCause, Rose};

use crate::source::Failed;

/// Where bytes go.
///
/// `contents` is what was written so far, where it tells that; `faults` is the number of its failures. A write that takes
/// nothing of a nonempty piece counts as one.
pub trait Sink {
    ghost contents: { Self → Option (List ℕ) };

    ghost faults: { Self → ℕ };

    /// Writes a beginning of the piece, and says how many bytes.
    fn write(&mut self, piece: &[u8]) -> Result<usize, Failed>
        ensures bound { WritesAtMost result piece.now }
        ensures bytes { WriteAppends (contents self.old) (contents self.new) result piece.now }
        ensures cause { HasCause (faults self.old) (faults self.new) result }
        ensures zero { result ≡ Ok 0 → 0 < length piece.now → Rose (faults self.old) (faults self.new) };
}

/// Writes all bytes. After a failure a beginning of them is written.
#[tactic(auto, using(crate::proofs::KnownBytes::nothing_written, crate::proofs::KnownBytes::written_more))]
pub fn write_all<K: Sink>(sink: &mut K, bytes: &[u8]) -> Result<(), Failed>
    ensures all { OnOk result (Appends (K.contents sink.old) (K.contents sink.new) bytes.now) }
    ensures part { (n : ℕ) × ((n ≤ length bytes.now) × Appends (K.contents sink.old) (K.contents sink.new) (take n bytes.now)) }
    ensures cause { HasCause (K.faults sink.old) (K.faults sink.new) result }
{
    let mut at = 0;
    while at < bytes.len() {
        let n = sink.write(&bytes[at..])?;
        if n == 0 {
            return Err(Failed);
        }
        at += n;
    }
    Ok(())
}
