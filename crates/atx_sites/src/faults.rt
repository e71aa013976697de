//! Counts of faults.

ghost use Rattle.std.specs.Prelude.{◌≡◌, IfOk, IsErr, Ok};
ghost use Rattle.site_model.specs.Counts.{HasCause};
ghost use Rattle.atx_sites.specs.Disks.{Tallied};
ghost use Rattle.atx_sites.specs.Failures.{Notes};

use crate::troubles::{Step, Trouble};
use site_model::source::Failed;
use std::io;

/// What a call of the system gave. Its failure is counted.
pub(crate) fn counted<T: Drop>(count: &mut u64, answer: io::Result<T>) -> Result<T, Failed>
    ensures cause { HasCause count.old count.new result }
    ensures exact { Tallied count.old count.new result }
    ensures ok { IfOk result (λ x. answer ≡ Ok x) }
    ensures as_was { (x : T) → answer ≡ Ok x → result ≡ Ok x }
{
    match answer {
        Ok(x) => Ok(x),
        Err(_) => {
            *count = count.saturating_add(1);
            Err(Failed)
        }
    }
}

/// What a call of the system gave for a step. Its failure is counted and noted.
pub(crate) fn noted<T: Drop>(
    count: &mut u64,
    trouble: &mut Option<Trouble>,
    step: Step,
    answer: io::Result<T>,
) -> Result<T, Failed>
    ensures cause { HasCause count.old count.new result }
    ensures exact { Tallied count.old count.new result }
    ensures ok { IfOk result (λ x. answer ≡ Ok x) }
    ensures as_was { (x : T) → answer ≡ Ok x → result ≡ Ok x }
    ensures noted { Notes step answer trouble.old trouble.new }
{
    if let Err(fault) = &answer {
        *trouble = Some(Trouble::new(step, *fault));
    }
    counted(count, answer)
}

/// What a call gives that the machine doesn't have: a failure, which is counted.
pub(crate) fn refused<T: Drop>(count: &mut u64) -> Result<T, Failed>
    ensures fails { IsErr result }
    ensures cause { HasCause count.old count.new result }
    ensures exact { Tallied count.old count.new result }
{
    *count = count.saturating_add(1);
    Err(Failed)
}
