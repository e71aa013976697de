//! The bytes that records take in a journal. No sum goes past the greatest number of its type.

ghost use Rattle.std.specs.Prelude.{◌≡◌, ◌+◌, length, map};
ghost use Rattle.record_bytes.specs.Bytes.{bytes_of, endpoint_bytes, seat_bytes, seats_bytes, text_bytes};
ghost use Rattle.site_model.specs.Counts.{capped};
ghost use Rattle.at_base.specs.declared.record.Record.TheVariants as records;
ghost use Rattle.decision_log.specs.KeptState.{known};
ghost use Rattle.decision_log.specs.ShrunkJournals.{shrunk, start_of};
ghost use Rattle.node_at.specs.Sizes.{framed, framed_all, size_of};

use at_base::epr::Epr;
use at_base::id::Id;
use at_base::record::{Record, Seated, Seats};
use at_base::text::Text;
use decision_log::kept::Kept;

/// With a text and its length.
#[tactic(auto, using(crate::proofs::Sizes::text_long))]
fn with_text(size: u64, text: &Text) -> u64
    ensures { result ≡ capped (size + length (text_bytes text.now)) }
{
    size.saturating_add(2)
        .saturating_add(text.as_str().len() as u64)
}

/// With an endpoint.
#[tactic(auto, using(crate::proofs::Sizes::endpoint_long))]
fn with_endpoint(size: u64, endpoint: &Epr) -> u64
    ensures { result ≡ capped (size + length (endpoint_bytes endpoint.now)) }
{
    let size = with_text(size, &endpoint.address);
    with_text(size, &endpoint.params)
}

#[tactic(auto, using(crate::proofs::Sizes::seat_long))]
fn with_seat(size: u64, seated: &Seated) -> u64
    ensures { result ≡ capped (size + length (seat_bytes seated.now)) }
{
    let size = size.saturating_add(2);
    with_endpoint(size, &seated.endpoint)
}

#[tactic(auto, using(crate::proofs::Sizes::seats_long, crate::proofs::Sizes::more_seats, crate::proofs::Sizes::all_seats))]
fn with_seats(size: u64, seats: &Seats) -> u64
    ensures { result ≡ capped (size + length (seats_bytes seats.now)) }
{
    let mut size = size.saturating_add(2);
    let items = seats.as_slice();
    for seated in items {
        size = with_seat(size, seated);
    }
    size
}

/// With a leaf's fields.
fn with_leaf(size: u64, coordinator: &Epr, key: &Text, value: &Text) -> u64
    ensures { result ≡ capped (size + (length (endpoint_bytes coordinator.now) + (length (text_bytes key.now) + length (text_bytes value.now)))) }
{
    let size = with_endpoint(size, coordinator);
    let size = with_text(size, key);
    with_text(size, value)
}

/// With a record's bytes.
#[tactic(auto, using(crate::proofs::Sizes::start_long, crate::proofs::Sizes::leaf_long, crate::proofs::Sizes::vote_long, crate::proofs::Sizes::decision_long, crate::proofs::Sizes::named_long))]
fn with_bytes(size: u64, entry: &Record) -> u64
    ensures { result ≡ capped (size + length (bytes_of entry.now)) }
{
    match entry {
        Record::Start { .. } => size.saturating_add(5),
        Record::LeafPrepared {
            coordinator,
            key,
            value,
            ..
        } => with_leaf(size.saturating_add(9), coordinator, key, value),
        Record::Voted {
            superior,
            seats,
            ..
        } => with_seats(with_endpoint(size.saturating_add(9), superior), seats),
        Record::Decided { seats, .. } => with_seats(size.saturating_add(9), seats),
        Record::LeafCommitted { .. }
        | Record::LeafAborted { .. }
        | Record::SubCommitted { .. }
        | Record::Ended { .. }
        | Record::Done { .. } => size.saturating_add(9),
    }
}

/// With a record and what stands before it.
fn with_record(size: u64, entry: &Record) -> u64
    ensures { result ≡ capped (size + framed entry.now) }
{
    with_bytes(size.saturating_add(5), entry)
}

/// With records.
#[tactic(auto, using(crate::proofs::Sizes::more_records, crate::proofs::Sizes::all_records))]
pub fn with_records(size: u64, entries: &[Record]) -> u64
    ensures { result ≡ capped (size + framed_all entries.now) }
{
    let mut size = size;
    for entry in entries {
        size = with_record(size, entry);
    }
    size
}

/// With a Start, where there is one.
#[tactic(auto, using(crate::proofs::Sizes::no_start, crate::proofs::Sizes::a_start))]
fn with_start(size: u64, start: u32) -> u64
    ensures { result ≡ capped (size + framed_all (start_of start)) }
{
    if start == 0 {
        size
    } else {
        size.saturating_add(10)
    }
}

/// With outcomes.
#[tactic(auto, using(crate::proofs::Sizes::outcomes_long))]
fn with_outcomes(size: u64, ids: &[Id]) -> u64
    ensures { result ≡ capped (size + framed_all (map records.Done ids.now)) }
{
    size.saturating_add(14u64.saturating_mul(ids.len() as u64))
}

/// The bytes of a journal of version 2 that holds what is kept and nothing more.
pub fn compacted_size(kept: &Kept) -> u64
    ensures { result ≡ capped (size_of (shrunk (known kept.now))) }
{
    let size = with_start(11, kept.start());
    let size = with_records(size, kept.live());
    with_outcomes(size, kept.done())
}
