//! What an audit prints of its input.

ghost use Rattle.std.specs.Prelude.{◌≡◌, ◌++◌, ◌∷◌, [], Ok, IfOk, IfErr, OnOk, string_bytes};
ghost use Rattle.audit_cmd.specs.JournalReports.{Audits, IsAuditOf, bad_journal, bad_line, named_item, verdict_printed};
ghost use Rattle.audit_cmd.specs.Readings.{AreRead, IsWhy, unread_at};

use crate::audited::Audited;
use crate::journal_line::JournalLine;
use crate::journal_lines::read_journals;
use crate::journals::{JournalFault, journal_of};
use at_base::id::Id;
use at_base::text::Text;
use audit_at::audit::audit;
use audit_at::verdict::Verdict;
use journal_at::records::Records;
use schedules::line::{BadLine, ScheduleError};
use std::alloc::{AllocError, Global};

/// All was read, and no two outcomes under one top differ.
pub const AGREED: u8 = 0;

/// A line is bad.
pub const BAD_LINE: u8 = 3;

/// Files are no journal.
pub const BAD_JOURNAL: u8 = 7;

/// Outcomes under one top differ.
pub const SPLIT: u8 = 13;

/// The superiors of a transaction come back to it.
pub const CYCLE: u8 = 14;

fn printed(alloc: Global, text: &str, status: u8) -> Result<Audited, AllocError>
    ensures { IfOk result (λ audited. audited ≡ record { text = text.now; status = status }) }
{
    Ok(Audited::new(Vec::from_slice(alloc, text.as_bytes())?, status))
}

fn bad_line(alloc: Global, bad: &BadLine) -> Result<Audited, AllocError>
    ensures { IfOk result (λ audited. audited ≡ record { text = bad_line bad.now; status = 3 }) }
{
    let text = format!(in alloc; "line {} cause {}\n", bad.line, bad.cause.number())?;
    printed(alloc, text.as_str(), BAD_LINE)
}

fn bad_journal(alloc: Global, number: usize, file: u8, place: u64) -> Result<Audited, AllocError>
    ensures { IfOk result (λ audited. audited ≡ record { text = bad_journal number file place; status = 7 }) }
{
    let text = format!(in alloc; "bad journal {} file {} at {}\n", number, file, place)?;
    printed(alloc, text.as_str(), BAD_JOURNAL)
}

fn named_item(alloc: Global, word: &str, base: &Text, id: Id) -> Result<String, AllocError>
    ensures { IfOk result (λ text. string_bytes text ≡ named_item word.now base.now id) }
{
    let text = format!(in alloc; "{}{} {}\n", word, base, id)?;
    Ok(text)
}

fn verdict_printed(alloc: Global, verdict: &Verdict) -> Result<Audited, AllocError>
    ensures { IfOk result (λ audited. audited ≡ verdict_printed verdict.now) }
{
    match verdict {
        Verdict::Agreed { committed, aborted } => {
            let text = format!(in alloc; "agreed committed {} aborted {}\n", *committed, *aborted)?;
            printed(alloc, text.as_str(), AGREED)
        }
        Verdict::Split { base, id } => {
            let text = named_item(alloc, "split ", base, *id)?;
            printed(alloc, text.as_str(), SPLIT)
        }
        Verdict::Cycle { base, id } => {
            let text = named_item(alloc, "cycle ", base, *id)?;
            printed(alloc, text.as_str(), CYCLE)
        }
    }
}

/// Why lines weren't read as journals.
#[derive(Debug, Drop)]
pub enum Unread {
    NoMemory,
    /// The files of the line of this number are no journal.
    Bad { number: usize, file: u8, place: u64 },
}

/// Why the line of this number wasn't read.
fn why_unread(number: usize, fault: &JournalFault) -> Unread
    ensures { result ≡ unread_at number fault.now }
{
    match fault {
        JournalFault::NoMemory => Unread::NoMemory,
        JournalFault::Bad { file, place } => Unread::Bad {
            number,
            file: *file,
            place: *place,
        },
    }
}

fn push(
    journals: &mut Vec<(Text, Records)>,
    base: &Text,
    records: Records,
) -> Result<(), AllocError>
    ensures { OnOk result (journals.new.items ≡ journals.old.items ++ (base.now, records) ∷ []) }
{
    journals.push((base.clone()?, records))?;
    Ok(())
}

/// The journals of these lines, or the first whose files are none.
#[tactic(auto, using(crate::proofs::LinesRead::one_read, crate::proofs::LinesRead::all_read, crate::proofs::LinesRead::one_unread))]
fn read_all(alloc: Global, lines: &[JournalLine]) -> Result<Vec<(Text, Records)>, Unread>
    ensures ok { IfOk result (λ journals. AreRead lines.now journals.items) }
    ensures bad { IfErr result (λ e. IsWhy e lines.now) }
{
    let mut journals = Vec::new(alloc);
    let mut number = 1;
    for line in lines {
        match journal_of(alloc, line.first(), line.second()) {
            Ok(records) => {
                if push(&mut journals, line.base(), records).is_err() {
                    return Err(Unread::NoMemory);
                }
            }
            Err(fault) => return Err(why_unread(number, &fault)),
        }
        number += 1;
    }
    Ok(journals)
}

#[tactic(auto, using(crate::proofs::LinesRead::may_be_audited, crate::proofs::LinesRead::judged, crate::proofs::LinesRead::unread))]
fn audited(alloc: Global, lines: &[JournalLine]) -> Result<Audited, AllocError>
    ensures { IfOk result (Audits (Ok lines.now)) }
{
    match read_all(alloc, lines) {
        Ok(journals) => {
            let verdict = audit(alloc, journals.as_slice())?;
            let audited = verdict_printed(alloc, &verdict)?;
            Ok(audited)
        }
        Err(Unread::NoMemory) => Err(AllocError),
        Err(
            Unread::Bad {
                number,
                file,
                place,
            },
        ) => bad_journal(alloc, number, file, place),
    }
}

/// What an audit prints of the journals that a text says, a line each: what they say together; or the first bad line; or the first line
/// whose files are no journal.
pub fn report(alloc: Global, text: &[u8]) -> Result<Audited, AllocError>
    ensures { IfOk result (IsAuditOf text.now) }
{
    match read_journals(alloc, text) {
        Ok(lines) => audited(alloc, lines.as_slice()),
        Err(ScheduleError::Bad(bad)) => bad_line(alloc, &bad),
        Err(ScheduleError::OutOfMemory) => Err(AllocError),
    }
}
