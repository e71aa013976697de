//! A journal that is read.

ghost use Rattle.std.specs.Prelude.{◌≡◌, IfOk};
ghost use Rattle.site_model.specs.Told.{Files, Is, file_of};
ghost use Rattle.journal_at.specs.Loads.{Quiet, LoadCause, LookCause, Loads, Settles, Surveys};
ghost use Rattle.journal_at.specs.Scans.{IsSeen};
ghost use Rattle.journal_at.specs.declared.load.LoadFault.TheVariants.{NoMemory, Disk};

use crate::append::stage;
use crate::journal::Journal;
use crate::read::BodiesFault;
use crate::records::Records;
use crate::scan::{Both, Scan, pick, scan_file};
use site_model::site::Site;
use site_model::source::Failed;
use std::alloc::{AllocError, Global};

/// Why a journal wasn't read.
#[derive(Debug, PartialEq, Eq, Drop)]
pub enum LoadFault {
    NoMemory,
    Disk,
    /// A file stands for no list of bodies; its number, and the place of the gate.
    Bad { file: u8, place: u64 },
    /// The live file has no body, and a file is longer than those of a new journal can be.
    NoJournal,
}

impl From<AllocError> for LoadFault {
    ghost from_gives = { λ _ fault. fault ≡ NoMemory };

    fn from(_: AllocError) -> LoadFault {
        LoadFault::NoMemory
    }
}

impl From<Failed> for LoadFault {
    ghost from_gives = { λ _ fault. fault ≡ Disk };

    fn from(_: Failed) -> LoadFault {
        LoadFault::Disk
    }
}

/// All bytes of a file.
fn fetch<S: Site>(alloc: Global, site: &mut S, file: u8) -> Result<Vec<u8>, LoadFault>
    ensures bytes { IfOk result (λ v. (f : Files) → Is (S.told site.old).files f → v.items ≡ file_of file f) }
    ensures quiet { Quiet (S.told site.old) (S.told site.new) }
    ensures cause { LookCause file result (S.told site.old) (S.told site.new) }
{
    let mut bytes = Vec::new(alloc);
    let mut buf = [0u8; 4096];
    let size = site.size(file)?;
    while (bytes.len() as u64) < size {
        let n = site.read(file, bytes.len() as u64, &mut buf)?;
        if n == 0 {
            return Ok(bytes);
        }
        bytes.extend_from_slice(&buf[..n])?;
    }
    Ok(bytes)
}

/// Syncs both files.
fn settle<S: Site>(site: &mut S) -> Result<(), Failed>
    ensures { Settles result (S.told site.old) (S.told site.new) }
{
    match site.sync(0) {
        Ok(()) => site.sync(1),
        Err(_) => Err(Failed),
    }
}

/// All that a file says.
fn look<S: Site>(alloc: Global, site: &mut S, file: u8) -> Result<Scan, LoadFault>
    ensures seen { IfOk result (λ s. IsSeen s file (S.told site.old)) }
    ensures quiet { Quiet (S.told site.old) (S.told site.new) }
    ensures cause { LookCause file result (S.told site.old) (S.told site.new) }
{
    let bytes = match fetch(alloc, site, file) {
        Ok(bytes) => bytes,
        Err(fault) => return Err(fault),
    };
    match scan_file(alloc, bytes.as_slice()) {
        Ok(scan) => Ok(scan),
        Err(BodiesFault::NoMemory) => Err(LoadFault::NoMemory),
        Err(BodiesFault::Bad(place)) => Err(LoadFault::Bad { file, place }),
    }
}

/// All that both files say, file 0 first.
fn look_both<S: Site>(alloc: Global, site: &mut S) -> Result<Both, LoadFault>
    ensures first { IfOk result (λ b. IsSeen b.first 0 (S.told site.old)) }
    ensures second { IfOk result (λ b. IsSeen b.second 1 (S.told site.old)) }
    ensures quiet { Quiet (S.told site.old) (S.told site.new) }
    ensures cause { LoadCause result (S.told site.old) (S.told site.new) }
{
    let first = match look(alloc, site, 0) {
        Ok(first) => first,
        Err(fault) => return Err(fault),
    };
    match look(alloc, site, 1) {
        Ok(second) => Ok(Both { first, second }),
        Err(fault) => Err(fault),
    }
}

/// Syncs both files, and reads them.
fn survey<S: Site>(alloc: Global, site: &mut S) -> Result<Both, LoadFault>
    ensures { Surveys result (S.told site.old) (S.told site.new) }
{
    match settle(site) {
        Ok(()) => look_both(alloc, site),
        Err(_) => Err(LoadFault::Disk),
    }
}

/// Reads a journal.
///
/// Both files are synced first. A pair whose live file has no body, and of which one file has more than 11 bytes, is no journal,
/// and nothing is written into it. Where file 0 is live and has at most one byte, a shut gate is written into it.
pub fn load<S: Site>(
    alloc: Global,
    site: &mut S,
    limit: u32,
) -> Result<(Journal, Records), LoadFault>
    ensures { Loads result limit (S.told site.old) (S.told site.new) }
{
    let both = match survey(alloc, site) {
        Ok(both) => both,
        Err(fault) => return Err(fault),
    };
    if both.is_foreign() {
        return Err(LoadFault::NoJournal);
    }
    let bare = both.is_bare();
    let (journal, records) = match pick(alloc, limit, both) {
        Ok(pair) => pair,
        Err(_) => return Err(LoadFault::NoMemory),
    };
    if !bare {
        return Ok((journal, records));
    }
    match stage(site, 0, 0, &[0]) {
        Ok(()) => Ok((journal, records)),
        Err(_) => Err(LoadFault::Disk),
    }
}
