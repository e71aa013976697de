//! The page of a journal.

ghost use Rattle.std.specs.Prelude.{◌≡◌, ◌++◌, IfOk, OnOk};
ghost use Rattle.decision_log.specs.KeptState.{known};
ghost use Rattle.journal_page.specs.Contents.{Contents, StandFor};
ghost use Rattle.journal_page.specs.Pages.{IsPageOf, bad_page, head_lines, lines_of, no_journal_page, version_number, whole_page};
ghost use Rattle.journal_page.specs.Wholes.{IsWholeOf};

use crate::entries::entries_of;
use crate::laws::one_page_is_printed;
use crate::open_lines::push_open_lines;
use crate::page::Page;
use crate::record_lines::push_records;
use crate::standing::{Standing, Unread, read_files};
use crate::words::push_number_line;
use at_base::record::Record;
use decision_log::kept::Kept;
use journal_at::version::Version;
use record_bytes::read::are_apart;
use std::alloc::{AllocError, Global};

fn version_number(version: Version) -> u32
    ensures { result ≡ version_number version }
{
    match version {
        Version::One => 1,
        Version::Two => 2,
    }
}

#[tactic(auto, unfolding(crate::specs::Pages::head_lines))]
fn push_head(
    alloc: Global,
    out: &mut Vec<u8>,
    version: Version,
    generation: u32,
    incarnation: u32,
) -> Result<(), AllocError>
    ensures { OnOk result (out.new.items ≡ out.old.items ++ head_lines version generation incarnation) }
{
    push_number_line(alloc, out, "version", version_number(version))?;
    push_number_line(alloc, out, "generation", generation)?;
    push_number_line(alloc, out, "incarnation", incarnation)
}

fn push_lines(
    alloc: Global,
    out: &mut Vec<u8>,
    version: Version,
    generation: u32,
    entries: &[Record],
    kept: &Kept,
) -> Result<(), AllocError>
    ensures { OnOk result (out.new.items ≡ out.old.items ++ lines_of version generation entries.now (known kept.now)) }
{
    push_head(alloc, out, version, generation, kept.start())?;
    push_records(alloc, out, entries)?;
    push_open_lines(alloc, out, kept.live())
}

fn lines_of(
    alloc: Global,
    version: Version,
    generation: u32,
    entries: &[Record],
    kept: &Kept,
) -> Result<Vec<u8>, AllocError>
    ensures { IfOk result (λ text. text.items ≡ lines_of version generation entries.now (known kept.now)) }
{
    let mut text = Vec::new(alloc);
    push_lines(alloc, &mut text, version, generation, entries, kept)?;
    Ok(text)
}

/// What is printed of a journal that was read.
fn whole(alloc: Global, read: &Standing) -> Result<Page, AllocError>
    ensures { IfOk result (IsWholeOf read.now) }
{
    let entries = entries_of(alloc, &read.records)?;
    let version = read.records.version();
    let text = lines_of(
        alloc,
        version,
        read.generation,
        entries.as_slice(),
        &read.kept,
    )?;
    Ok(Page::of(text, false))
}

/// What is printed of files that are no journal: the place of a gate, in bytes.
#[tactic(auto, unfolding(crate::specs::Pages::bad_line))]
fn refused(alloc: Global, file: u8, place: u64) -> Result<Page, AllocError>
    ensures { IfOk result (λ page. page ≡ bad_page file place) }
{
    let line = match file {
        0 => format!(in alloc; "bad journal at {place}\n")?,
        _ => format!(in alloc; "bad journal file 1 at {place}\n")?,
    };
    Ok(Page::of(line.into_bytes(), true))
}

/// What is printed of files that hold nothing of a journal.
#[tactic(auto, unfolding(crate::specs::Pages::no_journal_line))]
fn no_journal(alloc: Global) -> Result<Page, AllocError>
    ensures { IfOk result (λ page. page ≡ no_journal_page) }
{
    let line = format!(in alloc; "no journal\n")?;
    Ok(Page::of(line.into_bytes(), true))
}

#[tactic(auto, using(crate::proofs::ReadPages::is_whole, crate::proofs::ReadPages::is_refusal, crate::proofs::ReadPages::is_none))]
fn report(alloc: Global, first: &[u8], second: &[u8]) -> Result<Page, AllocError>
    ensures { IfOk result (IsPageOf (record { first = first.now; second = second.now })) }
{
    are_apart();
    match read_files(alloc, first, second) {
        Ok(read) => whole(alloc, &read),
        Err(Unread::NoMemory) => Err(AllocError),
        Err(Unread::Bad { file, place }) => refused(alloc, file, place),
        Err(Unread::NoJournal) => no_journal(alloc),
    }
}

/// What is printed of the two files of a journal: version, generation, last incarnation, each record, and what is open; or
/// the place where they are none, or that they hold nothing of one.
///
/// Each line ends in LF. An error is want of memory.
pub fn page(alloc: Global, first: &[u8], second: &[u8]) -> Result<Page, AllocError>
    ensures is { IfOk result (IsPageOf (record { first = first.now; second = second.now })) }
    ensures only { IfOk result (λ page. (c : Contents) → StandFor (record { first = first.now; second = second.now }) c → page ≡ whole_page c) }
{
    one_page_is_printed();
    let page = report(alloc, first, second)?;
    Ok(page)
}
