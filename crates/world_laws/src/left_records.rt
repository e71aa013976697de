//! What is left of the records of a node's journal where it starts.

ghost use Rattle.std.specs.Prelude.{◌≡◌, ◌≤◌, [], IfOk, OnOk, length};
ghost use Rattle.std.specs.List.{list_any};
ghost use Rattle.at_model.specs.Outcomes.{outcomes_after};
ghost use Rattle.at_model.specs.Recovery.{ends_leaf, ends_transaction, in_order, incarnation_of, insert_by, is_before, is_sub_committed, last_incarnation, live, no_seats, recover, with_commit};
ghost use Rattle.model_laws.specs.Compactions.{record_id};
ghost use Rattle.world_laws.specs.LeftRecords.{place_in, with_each, with_kept};

use at_base::id::Id;
use at_base::record::{Record, Seated};
use at_base::text::Text;
use by_id::list::is_same;
use interposition::book::Book;
use outcomes_at::outcomes::Outcomes;
use std::alloc::{AllocError, Global};

/// The incarnation of a Start, or of a record's id.
fn incarnation_of(entry: &Record) -> u32
    ensures last { result ≡ incarnation_of entry.now }
    ensures id { result ≡ (record_id entry.now).incarnation }
{
    match entry {
        Record::Start { incarnation } => *incarnation,
        Record::LeafPrepared { id, .. }
        | Record::LeafCommitted { id }
        | Record::LeafAborted { id }
        | Record::Voted { id, .. }
        | Record::Decided { id, .. }
        | Record::SubCommitted { id }
        | Record::Ended { id }
        | Record::Done { id } => id.incarnation(),
    }
}

/// The number of a record's id; a Start has none.
fn counter_of(entry: &Record) -> u32
    ensures { result ≡ (record_id entry.now).counter }
{
    match entry {
        Record::Start { incarnation: _ } => 0,
        Record::LeafPrepared { id, .. }
        | Record::LeafCommitted { id }
        | Record::LeafAborted { id }
        | Record::Voted { id, .. }
        | Record::Decided { id, .. }
        | Record::SubCommitted { id }
        | Record::Ended { id }
        | Record::Done { id } => id.counter(),
    }
}

/// The greatest incarnation, or 0.
pub fn last_incarnation(journal: &[Record]) -> u32
    ensures { result ≡ last_incarnation journal.now }
{
    let mut place = journal.len();
    let mut last = 0;
    while place > 0 {
        place -= 1;
        last = incarnation_of(&journal[place]).max(last);
    }
    last
}

/// Whether a record comes before another by its id.
fn is_before(a: &Record, b: &Record) -> bool
    ensures { result ≡ is_before (record_id a.now) (record_id b.now) }
{
    let same = incarnation_of(a) == incarnation_of(b);
    incarnation_of(a) < incarnation_of(b) || (same && counter_of(a) < counter_of(b))
}

/// Where a record goes among these.
fn place_in(left: &[Record], entry: &Record) -> usize
    ensures place { result ≡ place_in entry.now left.now }
    ensures inside { result ≤ length left.now }
{
    let mut place = 0;
    for other in left {
        if !is_before(other, entry) {
            return place;
        }
        place += 1;
    }
    place
}

/// Puts a record in its place.
#[tactic(auto, using(crate::proofs::InsertedRecords::inserted))]
fn insert(left: &mut Vec<Record>, entry: Record) -> Result<(), AllocError>
    ensures { OnOk result (left.new.items ≡ insert_by record_id entry left.old.items) }
{
    let place = place_in(left.as_slice(), &entry);
    left.insert(place, entry)?;
    Ok(())
}

/// Whether a record ends the leaf of this id, or promises it anew.
fn ends_leaf(id: Id, entry: &Record) -> bool
    ensures { result ≡ ends_leaf id entry.now }
{
    match entry {
        Record::LeafCommitted { id: other }
        | Record::LeafAborted { id: other }
        | Record::LeafPrepared { id: other, .. }
        | Record::Voted { id: other, .. }
        | Record::Decided { id: other, .. } => is_same(*other, id),
        Record::Start { .. }
        | Record::SubCommitted { .. }
        | Record::Ended { .. }
        | Record::Done { .. } => false,
    }
}

/// Whether a record ends the transaction of this id, or promises it anew.
fn ends_transaction(id: Id, entry: &Record) -> bool
    ensures { result ≡ ends_transaction id entry.now }
{
    match entry {
        Record::Ended { id: other }
        | Record::LeafPrepared { id: other, .. }
        | Record::Voted { id: other, .. }
        | Record::Decided { id: other, .. } => is_same(*other, id),
        Record::Start { .. }
        | Record::LeafCommitted { .. }
        | Record::LeafAborted { .. }
        | Record::SubCommitted { .. }
        | Record::Done { .. } => false,
    }
}

fn is_sub_committed(id: Id, entry: &Record) -> bool
    ensures { result ≡ is_sub_committed id entry.now }
{
    match entry {
        Record::SubCommitted { id: other } => is_same(*other, id),
        _ => false,
    }
}

fn is_leaf_ended(id: Id, rest: &[Record]) -> bool
    ensures { result ≡ list_any (ends_leaf id) rest.now }
{
    for entry in rest {
        if ends_leaf(id, entry) {
            return true;
        }
    }
    false
}

fn is_transaction_ended(id: Id, rest: &[Record]) -> bool
    ensures { result ≡ list_any (ends_transaction id) rest.now }
{
    for entry in rest {
        if ends_transaction(id, entry) {
            return true;
        }
    }
    false
}

fn has_committed(id: Id, rest: &[Record]) -> bool
    ensures { result ≡ list_any (is_sub_committed id) rest.now }
{
    for entry in rest {
        if is_sub_committed(id, entry) {
            return true;
        }
    }
    false
}

fn has_no_seats(seats: &[Seated]) -> bool
    ensures { result ≡ no_seats seats.now }
{
    seats.is_empty()
}

/// Adds the SubCommitted of a vote, where one stands behind it.
fn push_commit(left: &mut Vec<Record>, id: Id, rest: &[Record]) -> Result<(), AllocError>
    ensures { OnOk result (left.new.items ≡ with_each (with_commit id rest.now) left.old.items) }
{
    if has_committed(id, rest) {
        insert(left, Record::SubCommitted { id })?;
    }
    Ok(())
}

/// Adds a vote, and its SubCommitted.
fn push_vote(
    left: &mut Vec<Record>,
    entry: &Record,
    id: Id,
    rest: &[Record],
) -> Result<(), AllocError>
    ensures { OnOk result
        (left.new.items ≡ insert_by record_id entry.now (with_each (with_commit id rest.now) left.old.items)) }
{
    push_commit(left, id, rest)?;
    insert(left, entry.clone()?)
}

/// Adds what a record keeps alive, with the records behind it.
fn keep(left: &mut Vec<Record>, entry: &Record, rest: &[Record]) -> Result<(), AllocError>
    ensures { OnOk result (left.new.items ≡ with_kept entry.now rest.now left.old.items) }
{
    match entry {
        Record::LeafPrepared { id, .. } => {
            if is_leaf_ended(*id, rest) {
                return Ok(());
            }
            insert(left, entry.clone()?)
        }
        Record::Voted { id, .. } => {
            if is_transaction_ended(*id, rest) {
                return Ok(());
            }
            push_vote(left, entry, *id, rest)
        }
        Record::Decided { id, seats } => {
            if has_no_seats(seats.as_slice()) || is_transaction_ended(*id, rest) {
                return Ok(());
            }
            insert(left, entry.clone()?)
        }
        _ => Ok(()),
    }
}

/// The live records by rising id.
#[tactic(auto, using(crate::proofs::InsertedRecords::one_kept))]
fn live_of(alloc: Global, journal: &[Record]) -> Result<Vec<Record>, AllocError>
    ensures { IfOk result (λ left. left.items ≡ in_order record_id (live journal.now)) }
{
    let mut left = Vec::new(alloc);
    let mut place = journal.len();
    while place > 0 {
        place -= 1;
        keep(&mut left, &journal[place], &journal[place + 1..])?;
    }
    Ok(left)
}

/// The outcomes that records keep.
fn outcomes_of(alloc: Global, journal: &[Record]) -> Result<Outcomes, AllocError>
    ensures { IfOk result (λ outcomes. outcomes ≡ outcomes_after [] journal.now) }
{
    let mut outcomes = Outcomes::new(alloc)?;
    for entry in journal {
        outcomes.note(entry);
    }
    Ok(outcomes)
}

/// The book of a node with these records.
pub fn recovered(alloc: Global, base: &Text, journal: &[Record]) -> Result<Book, AllocError>
    requires { 1 ≤ last_incarnation journal.now }
    ensures { IfOk result (λ book. book ≡ recover base.now journal.now) }
{
    let live = live_of(alloc, journal)?;
    let outcomes = outcomes_of(alloc, journal)?;
    Book::recover(
        alloc,
        base,
        live.as_slice(),
        outcomes.as_slice(),
        last_incarnation(journal),
    )
}
