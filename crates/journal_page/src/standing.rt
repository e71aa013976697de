//! Two files that are read as a journal.

ghost use Rattle.std.specs.Prelude.{◌≡◌, IfOk, OnOk, Some, option_map};
ghost use Rattle.site_model.specs.Told.{with_file, written};
ghost use Rattle.site_memory.specs.Sites.{told_of};
ghost use Rattle.journal_page.specs.Readings.{Keeps, Reads};

use decision_log::fold::{FoldFault, fold};
use decision_log::kept::Kept;
use journal_at::journal::Journal;
use journal_at::load::{LoadFault, load};
use journal_at::records::Records;
use site_memory::machine::MemSite;
use site_model::site::Site;
use std::alloc::{AllocError, Global};

/// A journal that was read: its generation, its records, and what is kept of them.
pub struct Standing {
    pub(crate) generation: u32,
    pub(crate) records: Records,
    pub(crate) kept: Kept,
}

impl Drop for Standing {
    fn drop(self) {
        let Standing {
            generation: _generation,
            records: _records,
            kept: _kept,
        } = self;
    }
}

/// Why files weren't read as a journal.
#[derive(Debug, PartialEq, Eq, Drop)]
pub enum Unread {
    NoMemory,
    /// They are none: the file's number, and the place of the gate, in bytes.
    Bad { file: u8, place: u64 },
    /// They hold nothing of one: the live file has no body, and one is longer than those of a new journal.
    NoJournal,
}

/// Writes a file of a machine that has none.
fn write(site: &mut MemSite, file: u8, bytes: &[u8]) -> Result<(), AllocError>
    ensures { OnOk result ((told_of site.new).files ≡ option_map (with_file file (written 0 bytes.now)) (told_of site.old).files) }
{
    match site.write_at(file, 0, bytes) {
        Ok(()) => Ok(()),
        Err(_) => Err(AllocError),
    }
}

/// A machine that has these two files.
#[tactic(auto, using(crate::proofs::ReadFiles::both_written))]
fn machine(alloc: Global, first: &[u8], second: &[u8]) -> Result<MemSite, AllocError>
    ensures { IfOk result (λ site. (told_of site).files ≡ Some (record { first = first.now; second = second.now })) }
{
    let mut site = MemSite::new(alloc);
    write(&mut site, 0, first)?;
    write(&mut site, 1, second)?;
    Ok(site)
}

/// Keeps what was read.
fn keep(alloc: Global, journal: &Journal, records: Records) -> Result<Standing, Unread>
    ensures { Keeps result journal.now records }
{
    match fold(alloc, &records) {
        Ok(kept) => Ok(Standing {
            generation: journal.generation(),
            records,
            kept,
        }),
        Err(FoldFault::NoMemory) => Err(Unread::NoMemory),
        Err(FoldFault::Bad { place }) => Err(Unread::Bad {
            file: journal.live(),
            place,
        }),
    }
}

/// Reads two files as a journal, as a start reads them.
///
/// They are copied to a machine in memory, and nothing else is touched.
#[tactic(auto, using(crate::proofs::ReadFiles::is_read, crate::proofs::ReadFiles::no_list, crate::proofs::ReadFiles::no_journal))]
pub(crate) fn read_files(alloc: Global, first: &[u8], second: &[u8]) -> Result<Standing, Unread>
    ensures { Reads result (record { first = first.now; second = second.now }) }
{
    let Ok(mut site) = machine(alloc, first, second) else {
        return Err(Unread::NoMemory);
    };
    match load(alloc, &mut site, u32::MAX) {
        Ok((journal, records)) => keep(alloc, &journal, records),
        Err(LoadFault::Bad { file, place }) => Err(Unread::Bad { file, place }),
        Err(LoadFault::NoJournal) => Err(Unread::NoJournal),
        Err(LoadFault::NoMemory | LoadFault::Disk) => Err(Unread::NoMemory),
    }
}
