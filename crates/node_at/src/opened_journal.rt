//! A journal that a node starts on.

ghost use Rattle.std.specs.Prelude.{List, ◌≡◌, ◌≤◌, ◌<◌, ◌+◌, ◌-◌, ◌++◌, ◌∷◌, [], Err, false, OnOk};
ghost use Rattle.at_base.specs.declared.record.Record.{Record};
ghost use Rattle.at_base.specs.declared.record.Record.TheVariants as records;
ghost use Rattle.at_model.specs.Recovery.{last_incarnation};
ghost use Rattle.decision_log.specs.KeptState.{known};
ghost use Rattle.decision_log.specs.KeptRecords.{IsKept, kept_of};
ghost use Rattle.journal_at.specs.declared.version.Version.TheVariants.{One, Two};
ghost use Rattle.record_bytes.specs.Bytes.{bytes_of};
ghost use Rattle.site_model.specs.Counts.{capped};
ghost use Rattle.node_at.specs.Sizes.{end_of, size_of};
ghost use Rattle.node_at.specs.Starts.{Begins, Carries, Gathers, load_fault, started, IsContinued, IsEnd, IsJournalBehind, IsNext, IsOpen, IsRenewed, OpensAs, anew_calls, append_calls, append_ended, carried, carrying, compact_ended, first_mark, keep_fault, IsLiveBehind};

use crate::fault::StartFault;
use crate::size::compacted_size;
use at_base::record::Record;
use decision_log::fold::{FoldFault, fold, grows_by_one};
use decision_log::keep::{KeepFault, keep};
use decision_log::kept::Kept;
use decision_log::shrink::{shrink, shrinks_the_same};
use journal_at::journal::{Append, Compact, Journal};
use journal_at::load::{LoadFault, load};
use journal_at::records::Records;
use journal_at::version::Version;
use record_bytes::write::are_bodies;
use site_model::site::Site;
use std::alloc::{AllocError, Global};

/// A journal that was read, and what is kept of its records.
#[derive(Drop)]
pub struct Opened {
    pub(crate) version: Version,
    pub(crate) journal: Journal,
    pub(crate) kept: Kept,
}

/// What an append means for a start.
fn append_ended(ended: Append) -> Result<(), StartFault>
    ensures { result ≡ append_ended ended }
{
    match ended {
        Append::Done => Ok(()),
        Append::Refused | Append::Unsure | Append::Full => Err(StartFault::Disk),
    }
}

/// What a compaction means for it.
fn compact_ended(ended: Compact) -> Result<(), StartFault>
    ensures { result ≡ compact_ended ended }
{
    match ended {
        Compact::Done => Ok(()),
        Compact::Kept | Compact::Unsure | Compact::Full => Err(StartFault::Disk),
    }
}

/// What a record that wasn't kept means for it.
fn keep_fault(fault: KeepFault) -> StartFault
    ensures { result ≡ keep_fault fault }
{
    match fault {
        KeepFault::NoMemory => StartFault::NoMemory,
        KeepFault::Refused | KeepFault::Unsure | KeepFault::Full => StartFault::Disk,
    }
}

/// Begins a file of version 2, where the live file is empty.
fn mark<S: Site>(journal: &mut Journal, site: &mut S) -> Result<(), StartFault>
    requires { journal.old.end ≡ 0 }
    ensures marks { (rs : List Record) → IsOpen One rs journal.old (S.told site.old) → size_of (carried One rs) ≤ journal.old.limit
        → Carries (append_calls journal.old.live journal.old.end first_mark) One rs (carried One rs) result journal.new (S.told site.old) (S.told site.new) }
    ensures live { journal.new.live ≡ journal.old.live }
    ensures limit { journal.new.limit ≡ journal.old.limit }
    ensures continued { IsContinued journal.old journal.new }
{
    let ended = journal.append(site, &[11, 0, 0, 0, 0]);
    append_ended(ended)
}

/// Writes the records anew, in version 2.
fn migrate<S: Site>(
    alloc: Global,
    journal: &mut Journal,
    site: &mut S,
    kept: &Kept,
) -> Result<(), StartFault>
    requires kept { IsKept (known kept.now) }
    requires generation { journal.old.generation < 4294967295 }
    requires begun { 1 ≤ journal.old.end }
    ensures migrates { (rs : List Record) → IsOpen One rs journal.old (S.told site.old) → known kept.now ≡ kept_of One rs → size_of (carried One rs) ≤ journal.old.limit
        → Carries (anew_calls journal.old (carried One rs)) One rs (carried One rs) result journal.new (S.told site.old) (S.told site.new) }
    ensures limit { journal.new.limit ≡ journal.old.limit }
    ensures renewed { journal.old.unsure ≡ false → 1 ≤ journal.old.end → OnOk result (IsRenewed journal.old journal.new) }
{
    are_bodies();
    match shrink(alloc, journal, site, kept) {
        Ok(ended) => compact_ended(ended),
        Err(_) => Err(StartFault::NoMemory),
    }
}

/// Brings the records into a file of version 2.
fn carry<S: Site>(
    alloc: Global,
    version: Version,
    journal: &mut Journal,
    site: &mut S,
    kept: &Kept,
) -> Result<(), StartFault>
    requires kept { IsKept (known kept.now) }
    requires generation { version ≡ One → journal.old.generation < 4294967295 }
    ensures carries { (rs : List Record) → IsOpen version rs journal.old (S.told site.old) → known kept.now ≡ kept_of version rs → size_of (carried version rs) ≤ journal.old.limit
        → Carries (carrying version rs journal.old) version rs (carried version rs) result journal.new (S.told site.old) (S.told site.new) }
    ensures live { OnOk result (IsLiveBehind version journal.old journal.new.live) }
    ensures limit { journal.new.limit ≡ journal.old.limit }
    ensures journal { journal.old.unsure ≡ false → OnOk result (IsJournalBehind version journal.old journal.new) }
{
    match version {
        Version::Two => Ok(()),
        Version::One => {
            if journal.end() == 0 {
                mark(journal, site)
            } else {
                migrate(alloc, journal, site, kept)
            }
        }
    }
}

/// Records the Start of this incarnation.
fn record_start<S: Site>(
    alloc: Global,
    journal: &mut Journal,
    site: &mut S,
    kept: &mut Kept,
    incarnation: u32,
) -> Result<(), StartFault>
    requires { 1 ≤ incarnation }
    ensures carries { (rs : List Record) → IsOpen Two rs journal.old (S.told site.old) → size_of rs + 10 ≤ journal.old.limit
        → Carries (append_calls journal.old.live (end_of rs) (bytes_of (records.Start incarnation))) Two rs (rs ++ records.Start incarnation ∷ []) result journal.new (S.told site.old) (S.told site.new) }
    ensures kept { (rs : List Record) → known kept.old ≡ kept_of Two rs → OnOk result (known kept.new ≡ kept_of Two (rs ++ records.Start incarnation ∷ [])) }
    ensures live { OnOk result (journal.new.live ≡ journal.old.live) }
    ensures limit { journal.new.limit ≡ journal.old.limit }
    ensures continued { OnOk result (IsContinued journal.old journal.new) }
{
    grows_by_one();
    let entry = Record::Start { incarnation };
    let plan = match kept.plan(&entry) {
        Ok(plan) => plan,
        Err(_) => return Err(StartFault::NoMemory),
    };
    match keep(alloc, journal, site, &entry) {
        Ok(token) => {
            kept.apply(plan, token);
            Ok(())
        }
        Err(fault) => Err(keep_fault(fault)),
    }
}

/// Why a journal wasn't read.
fn load_fault(fault: LoadFault) -> StartFault
    ensures { result ≡ load_fault fault }
{
    match fault {
        LoadFault::NoMemory => StartFault::NoMemory,
        LoadFault::Disk => StartFault::Disk,
        LoadFault::Bad { file, place } => StartFault::Bad { file, place },
        LoadFault::NoJournal => StartFault::NoJournal,
    }
}

/// Keeps what was read.
fn gather(alloc: Global, journal: Journal, found: Records) -> Result<Opened, StartFault>
    ensures { Gathers result journal found }
{
    match fold(alloc, &found) {
        Ok(kept) => Ok(Opened {
            version: found.version(),
            journal,
            kept,
        }),
        Err(FoldFault::NoMemory) => Err(StartFault::NoMemory),
        Err(FoldFault::Bad { place }) => Err(StartFault::Bad {
            file: journal.live(),
            place,
        }),
    }
}

/// Reads the journal and what is kept of its records.
pub fn open<S: Site>(alloc: Global, site: &mut S, limit: u32) -> Result<Opened, StartFault>
    ensures { OpensAs result limit (S.told site.old) (S.told site.new) }
{
    match load(alloc, site, limit) {
        Ok((journal, found)) => gather(alloc, journal, found),
        Err(fault) => Err(load_fault(fault)),
    }
}

impl Opened {
    /// The bytes of the text that the new Start goes into.
    fn size(&self) -> u64
        ensures { (rs : List Record) → known self.now.kept ≡ kept_of self.now.version rs → IsEnd self.now.version rs self.now.journal
            → result ≡ capped (size_of (carried self.now.version rs)) }
    {
        match self.version {
            Version::Two => self.journal.end() + 1,
            Version::One => compacted_size(&self.kept),
        }
    }

    /// The next incarnation, where there is one, and room for its Start.
    pub fn next(&self, limit: u32) -> Result<u32, StartFault>
        ensures { (rs : List Record) → known self.now.kept ≡ kept_of self.now.version rs → IsEnd self.now.version rs self.now.journal
            → IsNext result self.now.version rs limit }
    {
        let last = self.kept.start();
        if last == u32::MAX {
            return Err(StartFault::Spent);
        }
        if self.size().saturating_add(10) > limit as u64 {
            return Err(StartFault::Full);
        }
        Ok(last + 1)
    }

    /// Brings the records into version 2, and records the Start of this incarnation.
    pub fn begin<S: Site>(
        &mut self,
        alloc: Global,
        site: &mut S,
        incarnation: u32,
    ) -> Result<(), StartFault>
        requires kept { IsKept (known self.old.kept) }
        requires generation { self.old.version ≡ One → self.old.journal.generation < 4294967295 }
        requires incarnation { 1 ≤ incarnation }
        ensures { (rs : List Record) → IsOpen self.old.version rs self.old.journal (S.told site.old) → known self.old.kept ≡ kept_of self.old.version rs
            → incarnation ≡ last_incarnation rs + 1 → size_of (started self.old.version rs) ≤ self.old.journal.limit
            → Begins result rs self.old self.new (S.told site.old) (S.told site.new) }
    {
        shrinks_the_same();
        match carry(alloc, self.version, &mut self.journal, site, &self.kept) {
            Ok(()) => record_start(alloc, &mut self.journal, site, &mut self.kept, incarnation),
            Err(fault) => Err(fault),
        }
    }
}
