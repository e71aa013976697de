//! Journals out of the bytes of their files.

ghost use Rattle.std.specs.Prelude.{◌≡◌, IfOk, OnOk, Some, option_map};
ghost use Rattle.site_model.specs.Told.{with_file, written};
ghost use Rattle.site_memory.specs.Sites.{told_of};
ghost use Rattle.audit_cmd.specs.JournalReports.{JournalOf, longer_file};

use decision_log::fold::{FoldFault, fold};
use journal_at::load::{LoadFault, load};
use journal_at::records::Records;
use site_memory::machine::MemSite;
use site_model::site::Site;
use std::alloc::{AllocError, Global};

/// Why files weren't read as a journal.
#[derive(Debug, PartialEq, Eq, Drop)]
pub enum JournalFault {
    NoMemory,
    /// A file stands for no list of bodies, or a body of the live one is no record: the file's number, and the place of the gate. Or they
    /// hold nothing of a journal: the first file that is longer than a new one's, at its begin.
    Bad { file: u8, place: u64 },
}

/// Writes a file of a machine that has none.
fn write(site: &mut MemSite, file: u8, bytes: &[u8]) -> Result<(), AllocError>
    ensures { OnOk result ((told_of site.new).files ≡ option_map (with_file file (written 0 bytes.now)) (told_of site.old).files) }
{
    match site.write_at(file, 0, bytes) {
        Ok(()) => Ok(()),
        Err(_) => Err(AllocError),
    }
}

/// A machine that has these two files.
#[tactic(auto, using(crate::proofs::FilesRead::both_written))]
fn machine(alloc: Global, first: &[u8], second: &[u8]) -> Result<MemSite, AllocError>
    ensures { IfOk result (λ site. (told_of site).files ≡ Some (record { first = first.now; second = second.now })) }
{
    let mut site = MemSite::new(alloc);
    write(&mut site, 0, first)?;
    write(&mut site, 1, second)?;
    Ok(site)
}

/// Which of two files that are no journal is longer than a new one's, the first such.
fn longer_file(first: &[u8]) -> u8
    ensures { result ≡ longer_file first.now }
{
    if first.len() > 11 { 0 } else { 1 }
}

/// The records that two files stand for.
#[tactic(auto, using(crate::proofs::FilesRead::stands, crate::proofs::FilesRead::no_record, crate::proofs::FilesRead::no_list, crate::proofs::FilesRead::no_journal))]
pub(crate) fn journal_of(
    alloc: Global,
    first: &[u8],
    second: &[u8],
) -> Result<Records, JournalFault>
    ensures { JournalOf result (record { first = first.now; second = second.now }) }
{
    let Ok(mut site) = machine(alloc, first, second) else {
        return Err(JournalFault::NoMemory);
    };
    match load(alloc, &mut site, u32::MAX) {
        Ok((journal, records)) => match fold(alloc, &records) {
            Ok(_kept) => Ok(records),
            Err(FoldFault::NoMemory) => Err(JournalFault::NoMemory),
            Err(FoldFault::Bad { place }) => Err(JournalFault::Bad {
                file: journal.live(),
                place,
            }),
        },
        Err(LoadFault::Bad { file, place }) => Err(JournalFault::Bad { file, place }),
        Err(LoadFault::NoJournal) => Err(JournalFault::Bad {
            file: longer_file(first),
            place: 0,
        }),
        Err(LoadFault::NoMemory | LoadFault::Disk) => Err(JournalFault::NoMemory),
    }
}
