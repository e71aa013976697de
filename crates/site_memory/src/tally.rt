//! What a machine counts.

ghost use Rattle.std.specs.Prelude.{◌≡◌, ◌+◌, ◌-◌, nat_eq, OnOk, OnErr};
ghost use Rattle.site_model.specs.Counts.{HasCause, capped, RisesBy};
ghost use Rattle.site_memory.specs.Answers.{Says};

use crate::entry::Noted;
use site_model::source::Failed;

/// Faults of each kind but for those of links, connections that were taken, and the times that none came.
#[derive(Clone, Copy, Debug, PartialEq, Eq)]
pub struct Tally {
    pub disk: u64,
    pub gate: u64,
    pub link: u64,
    pub taken: u64,
    pub closings: u64,
}

/// One more, as far as it can.
pub fn one_more(count: u64) -> u64
    ensures is { result ≡ capped (count + 1) }
    ensures rises { RisesBy 1 count result }
{
    count.saturating_add(1)
}

/// Answers a call, and counts it where it failed.
pub fn answer(count: &mut u64, noted: Noted) -> Result<(), Failed>
    ensures says { Says noted result }
    ensures cause { HasCause count.old count.new result }
    ensures ok { OnOk result (count.new ≡ count.old) }
    ensures counted { OnErr result (count.new ≡ capped (count.old + 1)) }
{
    match noted {
        Noted::Done => Ok(()),
        Noted::Failed => {
            *count = one_more(*count);
            Err(Failed)
        }
        Noted::Not => {
            *count = one_more(*count);
            Err(Failed)
        }
    }
}

/// The k-th call from now is the one that fails, from 1; none where k is 0.
pub fn falls(count: &mut u32) -> bool
    ensures falls { result ≡ nat_eq count.old 1 }
    ensures next { count.new ≡ count.old - 1 }
{
    let falls = *count == 1;
    *count = count.saturating_sub(1);
    falls
}
