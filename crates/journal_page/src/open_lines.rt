//! The lines of what is open.

ghost use Rattle.std.specs.Prelude.{◌≡◌, ◌++◌, OnOk};
ghost use Rattle.std.specs.List.{list_any};
ghost use Rattle.at_model.specs.Book.{is_id};
ghost use Rattle.at_model.specs.Recovery.{is_sub_committed};
ghost use Rattle.at_base.specs.declared.record.Record.TheVariants as records;
ghost use Rattle.journal_page.specs.OpenLines.{decision_line, doubt_line, each_open, open_line, open_lines};

use crate::words::{push, push_endpoint_part, push_item, push_seats_part};
use at_base::epr::Epr;
use at_base::id::Id;
use at_base::record::{Record, Seats};
use std::alloc::{AllocError, Global};

#[tactic(auto, unfolding(crate::specs::OpenLines::doubt_line))]
fn push_doubt(alloc: Global, out: &mut Vec<u8>, id: Id, asks: &Epr) -> Result<(), AllocError>
    ensures { OnOk result (out.new.items ≡ out.old.items ++ doubt_line id asks.now) }
{
    push_item(alloc, out, "in doubt", id)?;
    push_endpoint_part(out, "asks", asks)?;
    push(out, "\n")
}

#[tactic(auto, unfolding(crate::specs::OpenLines::decision_line))]
fn push_decision(alloc: Global, out: &mut Vec<u8>, id: Id, seats: &Seats) -> Result<(), AllocError>
    ensures { OnOk result (out.new.items ≡ out.old.items ++ decision_line id seats.now) }
{
    push_item(alloc, out, "decision", id)?;
    push_seats_part(alloc, out, "waits for", seats.as_slice())?;
    push(out, "\n")
}

fn is_same(one: Id, other: Id) -> bool
    ensures { result ≡ is_id one other }
{
    one.incarnation() == other.incarnation() && one.counter() == other.counter()
}

/// Whether a record says that the coordinator of this id was told to commit.
fn is_commit(id: Id, entry: &Record) -> bool
    ensures { result ≡ is_sub_committed id entry.now }
{
    match entry {
        Record::SubCommitted { id: other } => is_same(*other, id),
        _ => false,
    }
}

fn has_commit(entries: &[Record], id: Id) -> bool
    ensures { result ≡ list_any (is_sub_committed id) entries.now }
{
    for entry in entries {
        if is_commit(id, entry) {
            return true;
        }
    }
    false
}

fn push_vote(
    alloc: Global,
    out: &mut Vec<u8>,
    id: Id,
    superior: &Epr,
    seats: &Seats,
    rest: &[Record],
) -> Result<(), AllocError>
    ensures { OnOk result (out.new.items ≡ out.old.items ++ open_line (records.Voted id superior.now seats.now) rest.now) }
{
    if has_commit(rest, id) {
        push_decision(alloc, out, id, seats)
    } else {
        push_doubt(alloc, out, id, superior)
    }
}

/// The line of a live record, with those behind it.
fn push_open(
    alloc: Global,
    out: &mut Vec<u8>,
    entry: &Record,
    rest: &[Record],
) -> Result<(), AllocError>
    ensures { OnOk result (out.new.items ≡ out.old.items ++ open_line entry.now rest.now) }
{
    match entry {
        Record::LeafPrepared {
            id,
            coordinator,
            ..
        } => push_doubt(alloc, out, *id, coordinator),
        Record::Voted {
            id,
            superior,
            seats,
        } => push_vote(alloc, out, *id, superior, seats, rest),
        Record::Decided { id, seats } => push_decision(alloc, out, *id, seats),
        Record::Start { .. }
        | Record::LeafCommitted { .. }
        | Record::LeafAborted { .. }
        | Record::SubCommitted { .. }
        | Record::Ended { .. }
        | Record::Done { .. } => Ok(()),
    }
}

fn push_each_open(alloc: Global, out: &mut Vec<u8>, live: &[Record]) -> Result<(), AllocError>
    ensures { OnOk result (out.new.items ≡ out.old.items ++ each_open live.now) }
{
    for i in 0..live.len() {
        push_open(alloc, out, &live[i], &live[i + 1..])?;
    }
    Ok(())
}

/// Adds the lines of what live records leave open to the end.
pub(crate) fn push_open_lines(
    alloc: Global,
    out: &mut Vec<u8>,
    live: &[Record],
) -> Result<(), AllocError>
    ensures { OnOk result (out.new.items ≡ out.old.items ++ open_lines live.now) }
{
    if live.is_empty() {
        push(out, "nothing open\n")
    } else {
        push_each_open(alloc, out, live)
    }
}
