//! The lines of a journal's records.

ghost use Rattle.std.specs.Prelude.{◌≡◌, ◌++◌, OnOk, codes};
ghost use Rattle.at_base.specs.declared.record.Record.TheVariants as records;
ghost use Rattle.journal_page.specs.RecordLines.{record_line, record_lines};
ghost use Rattle.journal_page.specs.Words.{item};

use crate::words::{push, push_endpoint_part, push_item, push_number_line, push_seats_part};
use at_base::epr::Epr;
use at_base::id::Id;
use at_base::record::{Record, Seats};
use at_base::text::Text;
use std::alloc::{AllocError, Global};

/// A line of what an item is or does alone.
fn push_named(alloc: Global, out: &mut Vec<u8>, word: &str, id: Id) -> Result<(), AllocError>
    ensures { OnOk result (out.new.items ≡ out.old.items ++ (item word.now id ++ codes "\n")) }
{
    push_item(alloc, out, word, id)?;
    push(out, "\n")
}

fn push_outcome(alloc: Global, out: &mut Vec<u8>, id: Id) -> Result<(), AllocError>
    ensures { OnOk result (out.new.items ≡ out.old.items ++ record_line (records.Done id)) }
{
    push_item(alloc, out, "outcome", id)?;
    push(out, " committed\n")
}

fn push_leaf(
    alloc: Global,
    out: &mut Vec<u8>,
    id: Id,
    coordinator: &Epr,
    key: &Text,
    value: &Text,
) -> Result<(), AllocError>
    ensures { OnOk result (out.new.items ≡ out.old.items ++ record_line (records.LeafPrepared id coordinator.now key.now value.now)) }
{
    push_item(alloc, out, "prepared", id)?;
    push_endpoint_part(out, "under", coordinator)?;
    push(out, "\n")
}

fn push_vote(
    alloc: Global,
    out: &mut Vec<u8>,
    id: Id,
    superior: &Epr,
    seats: &Seats,
) -> Result<(), AllocError>
    ensures { OnOk result (out.new.items ≡ out.old.items ++ record_line (records.Voted id superior.now seats.now)) }
{
    push_item(alloc, out, "voted", id)?;
    push_endpoint_part(out, "under", superior)?;
    push_seats_part(alloc, out, "seats", seats.as_slice())?;
    push(out, "\n")
}

fn push_decision(alloc: Global, out: &mut Vec<u8>, id: Id, seats: &Seats) -> Result<(), AllocError>
    ensures { OnOk result (out.new.items ≡ out.old.items ++ record_line (records.Decided id seats.now)) }
{
    push_item(alloc, out, "decided", id)?;
    push_seats_part(alloc, out, "seats", seats.as_slice())?;
    push(out, "\n")
}

fn push_record(alloc: Global, out: &mut Vec<u8>, entry: &Record) -> Result<(), AllocError>
    ensures { OnOk result (out.new.items ≡ out.old.items ++ record_line entry.now) }
{
    match entry {
        Record::Start { incarnation } => push_number_line(alloc, out, "start", *incarnation),
        Record::LeafPrepared {
            id,
            coordinator,
            key,
            value,
        } => push_leaf(alloc, out, *id, coordinator, key, value),
        Record::LeafCommitted { id } => push_named(alloc, out, "committed", *id),
        Record::LeafAborted { id } => push_named(alloc, out, "aborted", *id),
        Record::Voted {
            id,
            superior,
            seats,
        } => push_vote(alloc, out, *id, superior, seats),
        Record::Decided { id, seats } => push_decision(alloc, out, *id, seats),
        Record::SubCommitted { id } => push_named(alloc, out, "committing", *id),
        Record::Ended { id } => push_named(alloc, out, "ended", *id),
        Record::Done { id } => push_outcome(alloc, out, *id),
    }
}

/// Adds the lines of records to the end.
pub(crate) fn push_records(
    alloc: Global,
    out: &mut Vec<u8>,
    entries: &[Record],
) -> Result<(), AllocError>
    ensures { OnOk result (out.new.items ≡ out.old.items ++ record_lines entries.now) }
{
    for entry in entries {
        push_record(alloc, out, entry)?;
    }
    Ok(())
}
