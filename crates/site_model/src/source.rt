//! Where bytes come from.

ghost use Rattle.std.specs.Prelude.{ℕ, ◌≡◌, ◌≤◌, IfOk, IfErr, OnErr, Option, List};
ghost use Rattle.std.specs.Io.{ReadsAtMost};
ghost use Rattle.std.specs.Io.KnownBytes.{ReadConsumes};
ghost use Rattle.site_model.specs.Counts.{HasCause, RisesBy};
ghost use Rattle.site_model.specs.Source.{IsWhole, HasReadCause};
ghost use Rattle.site_model.specs.declared.source.ReadFault.TheVariants.{NoMemory};

use std::alloc::{AllocError, Global};

/// A call of the outside failed. The count of its kind rose.
#[derive(Clone, Copy, Debug, PartialEq, Eq)]
pub struct Failed;

/// The most bytes that are read of a source.
pub const SOURCE_BYTES: usize = 1_048_576;

/// Where bytes come from.
///
/// `left` is what it has left, where it tells that; `given` is the number of bytes that it gave so far, `faults` that
/// of its failures.
pub trait Source {
    ghost left: { Self → Option (List ℕ) };

    ghost given: { Self → ℕ };

    ghost faults: { Self → ℕ };

    /// Reads into the buffer, and says how many bytes. Zero into a nonempty buffer ends the input.
    fn read(&mut self, buf: &mut [u8]) -> Result<usize, Failed>
        ensures bound { ReadsAtMost result buf.new }
        ensures bytes { ReadConsumes (left self.old) (left self.new) result buf.new }
        ensures count { IfOk result (λ n. RisesBy n (given self.old) (given self.new)) }
        ensures none_given { OnErr result (given self.new ≡ given self.old) }
        ensures cause { HasCause (faults self.old) (faults self.new) result };
}

/// Why a source wasn't read to its end.
#[derive(Debug, PartialEq, Eq, Drop)]
pub enum ReadFault {
    NoMemory,
    Failed,
    /// It has more than 1,048,576 bytes.
    TooLong,
}

impl From<AllocError> for ReadFault {
    ghost from_gives = { λ _ fault. fault ≡ NoMemory };

    fn from(_: AllocError) -> ReadFault {
        ReadFault::NoMemory
    }
}

/// All bytes that a source has left, at most 1,048,576.
#[tactic(auto, using(crate::proofs::KnownBytes::nothing_yet, crate::proofs::KnownBytes::consumed_more, crate::proofs::KnownBytes::consumed_all, crate::proofs::KnownBytes::longer))]
pub fn read_all<S: Source>(alloc: Global, source: &mut S) -> Result<Vec<u8>, ReadFault>
    ensures whole { IfOk result (λ v. IsWhole (S.left source.old) (S.given source.old) (S.given source.new) v.items) }
    ensures cause { IfErr result (λ e. HasReadCause e (S.faults source.old) (S.faults source.new) (S.given source.old) (S.given source.new) (S.left source.old)) }
    ensures later { S.faults source.old ≤ S.faults source.new }
{
    let mut bytes = Vec::new(alloc);
    let mut buf = [0u8; 4096];
    loop {
        let n = match source.read(&mut buf) {
            Ok(n) => n,
            Err(Failed) => return Err(ReadFault::Failed),
        };
        if n == 0 {
            return Ok(bytes);
        }
        if n > SOURCE_BYTES - bytes.len() {
            return Err(ReadFault::TooLong);
        }
        bytes.extend_from_slice(&buf[..n])?;
    }
}
