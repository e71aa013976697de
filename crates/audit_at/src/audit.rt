//! The audit of journals that were read.

ghost use Rattle.std.specs.Prelude.{List, ◌≡◌, ◌++◌, ◌∷◌, [], IfOk, OnOk};
ghost use Rattle.at_base.specs.declared.record.Record.{Record as Recorded};
ghost use Rattle.journal_at.specs.Frames.{bodies_of};
ghost use Rattle.decision_log.specs.Folds.{AreRecords};
ghost use Rattle.audit_at.specs.Audits.{AreLogsOf, IsLogOf};
ghost use Rattle.audit_at.specs.Superiors.{Log as Logged};
ghost use Rattle.audit_at.specs.Verdicts.{verdict_of};

use crate::log::Log;
use crate::verdict::Verdict;
use crate::verdicts::verdict_of;
use at_base::record::Record;
use at_base::text::Text;
use journal_at::read::Placed;
use journal_at::records::Records;
use journal_at::version::Version;
use record_bytes::cursor::ReadFault;
use record_bytes::read::{are_apart, read_record};
use std::alloc::{AllocError, Global};

fn push(entries: &mut Vec<Record>, entry: Record) -> Result<(), AllocError>
    ensures { OnOk result (entries.new.items ≡ entries.old.items ++ entry ∷ []) }
{
    entries.push(entry)?;
    Ok(())
}

/// The records that these bodies are.
#[tactic(auto, using(crate::proofs::Decodings::one_more, crate::proofs::Decodings::all_read, crate::proofs::Decodings::no_other))]
fn decode(alloc: Global, version: Version, items: &[Placed]) -> Result<Vec<Record>, AllocError>
    requires { (rs : List Recorded) × AreRecords version rs (bodies_of items.now) }
    ensures { IfOk result (λ entries. AreRecords version entries.items (bodies_of items.now)) }
{
    let mut entries = Vec::new(alloc);
    for placed in items {
        match read_record(alloc, version, placed.body()) {
            Ok(entry) => push(&mut entries, entry)?,
            Err(ReadFault::NoMemory) => return Err(AllocError),
            Err(ReadFault::Misspelled) => unreachable!(),
        }
    }
    Ok(entries)
}

/// The records of a journal that was read, under the base of its node.
fn log_of(alloc: Global, base: &Text, records: &Records) -> Result<Log, AllocError>
    requires { (log : Logged) × IsLogOf (base.now, records.now) log }
    ensures { IfOk result (λ log. IsLogOf (base.now, records.now) log) }
{
    let entries = decode(alloc, records.version(), records.items())?;
    Ok(Log::new(base.clone()?, entries))
}

fn push_log(logs: &mut Vec<Log>, log: Log) -> Result<(), AllocError>
    ensures { OnOk result (logs.new.items ≡ logs.old.items ++ log ∷ []) }
{
    logs.push(log)?;
    Ok(())
}

#[tactic(auto, using(crate::proofs::Decodings::may_go_on, crate::proofs::Decodings::one_log_more, crate::proofs::Decodings::all_logs))]
fn logs_of(alloc: Global, journals: &[(Text, Records)]) -> Result<Vec<Log>, AllocError>
    requires { (logs : List Logged) × AreLogsOf journals.now logs }
    ensures { IfOk result (λ logs. AreLogsOf journals.now logs.items) }
{
    let mut logs = Vec::new(alloc);
    for journal in journals {
        let log = log_of(alloc, &journal.0, &journal.1)?;
        push_log(&mut logs, log)?;
    }
    Ok(logs)
}

/// What the journals of several nodes, each under its node's base, say together.
///
/// Every body is a record of its journal's version. No base stands there twice, as of two that are equal the first alone would be asked
/// for superiors.
#[tactic(auto, using(crate::proofs::Decodings::only_verdict))]
pub fn audit(alloc: Global, journals: &[(Text, Records)]) -> Result<Verdict, AllocError>
    requires { (logs : List Logged) × AreLogsOf journals.now logs }
    ensures { IfOk result (λ verdict. (logs : List Logged) → AreLogsOf journals.now logs → verdict ≡ verdict_of logs) }
{
    are_apart();
    let logs = logs_of(alloc, journals)?;
    verdict_of(alloc, logs.as_slice())
}
