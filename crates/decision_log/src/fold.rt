//! A journal that was read.

ghost use Rattle.std.specs.Prelude.{◌≡◌, ◌++◌, IfOk, OnOk};
ghost use Rattle.decision_log.specs.Folds.{Finishes, Folds, FoldsAll, TakesOne, decided_after, newly_decided, still_decided};
ghost use Rattle.decision_log.specs.KeptState.{known};
ghost use Rattle.decision_log.specs.KeptRecords.{GrowsByOne, IsKept, KeepsOn, after};
ghost use Rattle.decision_log.specs.declared.fold.FoldFault.TheVariants.{NoMemory};

use crate::further_record::ends_transaction;
use crate::kept::Kept;
use at_base::id::Id;
use at_base::record::Record;
use journal_at::read::Placed;
use journal_at::records::Records;
use journal_at::version::Version;
use outcomes_at::outcomes::Outcomes;
use record_bytes::cursor::ReadFault;
use record_bytes::read::read_record;
use std::alloc::{AllocError, Global};

/// Why records weren't taken over.
#[derive(Debug, PartialEq, Eq, Drop)]
pub enum FoldFault {
    NoMemory,
    /// A body is no record of its version; the place of its gate.
    Bad { place: u64 },
}

impl From<AllocError> for FoldFault {
    ghost from_gives = { λ _ fault. fault ≡ NoMemory };

    fn from(_: AllocError) -> FoldFault {
        FoldFault::NoMemory
    }
}

/// One record after the other is what all of them make of a Kept.
pub fn grows_by_one()
    ensures { GrowsByOne }
{}

/// A Kept that takes a record over stays one.
pub fn keeps_on()
    ensures { KeepsOn }
{}

/// What was read so far, and the decisions that are live, in the order of the journal.
#[derive(Drop)]
pub struct Folding {
    pub(crate) kept: Kept,
    pub(crate) decided: Vec<Id>,
}

fn drop_decided(decided: &mut Vec<Id>, entry: &Record)
    ensures { decided.new.items ≡ still_decided entry.now decided.old.items }
{
    decided.retain(|id| !ends_transaction(*id, entry));
}

/// Adds the id of a decision with seats.
fn add_decided(decided: &mut Vec<Id>, entry: &Record) -> Result<(), AllocError>
    ensures { OnOk result (decided.new.items ≡ decided.old.items ++ newly_decided entry.now) }
{
    match entry {
        Record::Decided { id, seats } => {
            if seats.as_slice().is_empty() {
                return Ok(());
            }
            decided.push(*id)?;
            Ok(())
        }
        _ => Ok(()),
    }
}

fn follow(decided: &mut Vec<Id>, entry: &Record) -> Result<(), AllocError>
    ensures { OnOk result (decided.new.items ≡ decided_after entry.now decided.old.items) }
{
    drop_decided(decided, entry);
    add_decided(decided, entry)
}

impl Folding {
    /// Takes over a body.
    fn take(&mut self, alloc: Global, version: Version, placed: &Placed) -> Result<(), FoldFault>
        ensures { TakesOne result version placed.now self.old self.new }
    {
        match read_record(alloc, version, placed.body()) {
            Ok(entry) => {
                follow(&mut self.decided, &entry)?;
                self.kept.take(entry)?;
                Ok(())
            }
            Err(ReadFault::NoMemory) => Err(FoldFault::NoMemory),
            Err(ReadFault::Misspelled) => Err(FoldFault::Bad {
                place: placed.gate(),
            }),
        }
    }
}

/// All bodies.
#[tactic(auto, using(crate::proofs::FoldedBodies::none_taken, crate::proofs::FoldedBodies::one_more_taken, crate::proofs::FoldedBodies::all_taken, crate::proofs::FoldedBodies::refused))]
fn fold_all(alloc: Global, version: Version, items: &[Placed]) -> Result<Folding, FoldFault>
    ensures { FoldsAll result version items.now }
{
    let kept = Kept::new(alloc)?;
    let mut folding = Folding {
        kept,
        decided: Vec::new(alloc),
    };
    for placed in items {
        match folding.take(alloc, version, placed) {
            Ok(()) => {}
            Err(fault) => return Err(fault),
        }
    }
    Ok(folding)
}

/// What is kept of all bodies.
fn finish(alloc: Global, version: Version, folding: Folding) -> Result<Kept, AllocError>
    ensures { IfOk result (λ k. Finishes version folding k) }
{
    let Folding { mut kept, decided } = folding;
    match version {
        Version::Two => Ok(kept),
        Version::One => {
            let done = Outcomes::newest_of(alloc, &decided)?;
            kept.done = done;
            Ok(kept)
        }
    }
}

/// What is kept of a journal that was read.
///
/// A body that is no record of the journal's version is refused.
#[tactic(auto, using(crate::proofs::FoldedBodies::finished, crate::proofs::FoldedBodies::bad, crate::proofs::Keepsakes::is_kept))]
pub fn fold(alloc: Global, records: &Records) -> Result<Kept, FoldFault>
    ensures folds { Folds result records.now }
    ensures kept { IfOk result (λ k. IsKept (known k)) }
{
    let version = records.version();
    let items = records.items();
    match fold_all(alloc, version, items) {
        Ok(folding) => match finish(alloc, version, folding) {
            Ok(kept) => Ok(kept),
            Err(_) => Err(FoldFault::NoMemory),
        },
        Err(fault) => Err(fault),
    }
}
