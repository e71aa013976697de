//! Records out of a journal's bodies.

ghost use Rattle.std.specs.Prelude.{◌≡◌, ◌++◌, ◌∷◌, [], IfOk, OnOk};
ghost use Rattle.decision_log.specs.Folds.{AreRecords};
ghost use Rattle.journal_at.specs.Scans.{records_in};
ghost use Rattle.record_bytes.specs.Versions.{IsRecord};

use at_base::record::Record;
use journal_at::records::Records;
use journal_at::version::Version;
use record_bytes::read::read_record;
use std::alloc::{AllocError, Global};

/// The record that a body is. It is one.
fn entry_of(alloc: Global, version: Version, body: &[u8]) -> Result<Record, AllocError>
    ensures { IfOk result (λ r. IsRecord version r body.now) }
{
    match read_record(alloc, version, body) {
        Ok(entry) => Ok(entry),
        Err(_) => Err(AllocError),
    }
}

fn push_entry(entries: &mut Vec<Record>, entry: Record) -> Result<(), AllocError>
    ensures { OnOk result (entries.new.items ≡ entries.old.items ++ entry ∷ []) }
{
    entries.push(entry)?;
    Ok(())
}

/// The records of a journal that was read, each body of which is one.
#[tactic(auto, using(crate::proofs::ReadEntries::all_read))]
pub(crate) fn entries_of(alloc: Global, records: &Records) -> Result<Vec<Record>, AllocError>
    ensures { IfOk result (λ v. AreRecords records.now.version v.items (records_in records.now)) }
{
    let mut entries = Vec::new(alloc);
    let version = records.version();
    let items = records.items();
    for placed in items {
        let entry = entry_of(alloc, version, placed.body())?;
        push_entry(&mut entries, entry)?;
    }
    Ok(entries)
}
