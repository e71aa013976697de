//! A record that is appended.

ghost use Rattle.std.specs.Prelude.{◌≡◌, ◌≤◌, Err, Some, true, IfOk, IfSome};
ghost use Rattle.at_base.specs.WellFormed.{IsWellFormed};
ghost use Rattle.decision_log.specs.AppendedRecords.{IsAppended, ending};
ghost use Rattle.decision_log.specs.Tokens.{token_of};
ghost use Rattle.decision_log.specs.declared.keep.KeepFault.TheVariants.{NoMemory};
ghost use Rattle.journal_at.specs.StandingBodies.{Counted};
ghost use Rattle.journal_at.specs.declared.version.Version.TheVariants.{Two};
ghost use Rattle.record_bytes.specs.Bytes.{bytes_of};
ghost use Rattle.record_bytes.specs.Versions.{IsRecord};

use crate::token::Durable;
use at_base::record::Record;
use journal_at::journal::{Append, Journal};
use record_bytes::write::{are_bodies, write_record};
use site_model::site::Site;
use std::alloc::Global;

/// Why a record wasn't kept.
#[derive(Debug, PartialEq, Eq, Drop)]
pub enum KeepFault {
    /// There was no memory, and nothing was done.
    NoMemory,
    /// It is certainly absent.
    Refused,
    /// It may stand or not, and the journal does nothing more.
    Unsure,
    /// It would pass the limit, and is certainly absent.
    Full,
}

/// A token where the record stands.
fn kept(entry: &Record, ended: Append) -> Result<Durable, KeepFault>
    requires { IsWellFormed entry.now }
    ensures token { IfOk result (λ d. d ≡ token_of entry.now) }
    ensures ended { ending result ≡ Some ended }
{
    match ended {
        Append::Done => Ok(Durable::of(entry)),
        Append::Refused => Err(KeepFault::Refused),
        Append::Unsure => Err(KeepFault::Unsure),
        Append::Full => Err(KeepFault::Full),
    }
}

/// Appends a body that is this record's.
fn append<S: Site>(journal: &mut Journal, site: &mut S, entry: &Record, body: &[u8]) -> Append
    requires { IsRecord Two entry.now body.now }
    ensures appended { IsAppended result entry.now body.now journal.old journal.new (S.told site.old) (S.told site.new) }
    ensures end { journal.old.end ≤ journal.new.end }
    ensures nothing { journal.old.unsure ≡ true → site.new ≡ site.old }
    ensures counted { Counted (S.told site.old) (S.told site.new) }
{
    are_bodies();
    journal.append(site, body)
}

/// Appends a record to a live file that has a body, and answers the token of exactly this record.
///
/// Memory is taken before the first call of the device, and where there is none, nothing is done. Nothing is done either once
/// the journal was unsure.
#[tactic(auto, using(crate::proofs::NextRecords::of_its_bytes))]
pub fn keep<S: Site>(
    alloc: Global,
    journal: &mut Journal,
    site: &mut S,
    entry: &Record,
) -> Result<Durable, KeepFault>
    requires { IsWellFormed entry.now }
    ensures token { IfOk result (λ d. d ≡ token_of entry.now) }
    ensures appended { IfSome (ending result) (λ a. IsAppended a entry.now (bytes_of entry.now) journal.old journal.new (S.told site.old) (S.told site.new)) }
    ensures end { journal.old.end ≤ journal.new.end }
    ensures nothing { journal.old.unsure ≡ true → site.new ≡ site.old }
    ensures memory { result ≡ Err NoMemory → (site.new ≡ site.old) × (journal.new ≡ journal.old) }
    ensures counted { Counted (S.told site.old) (S.told site.new) }
{
    match write_record(alloc, entry) {
        Ok(body) => {
            let ended = append(journal, site, entry, body.as_slice());
            kept(entry, ended)
        }
        Err(_) => Err(KeepFault::NoMemory),
    }
}
