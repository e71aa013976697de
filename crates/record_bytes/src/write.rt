//! Records that are written.

ghost use Rattle.std.specs.Prelude.{◌≡◌, ◌<◌, ◌^◌, ◌++◌, ◌∷◌, IfOk, OnOk, length};
ghost use Rattle.std.specs.List.{All};
ghost use Rattle.std.specs.Int.{to_be_bytes, w16, w32};
ghost use Rattle.std.specs.Str.{IsUtf8};
ghost use Rattle.at_base.specs.WellFormed.{AreSeats, IsEndpoint, IsField, IsWellFormed};
ghost use Rattle.at_base.specs.declared.record.Record.TheVariants as records;
ghost use Rattle.journal_at.specs.declared.version.Version.TheVariants.{Two};
ghost use Rattle.record_bytes.specs.Bytes.{bytes_of, endpoint_bytes, id_bytes, seat_bytes, seats_bytes, text_bytes, each_seat};
ghost use Rattle.record_bytes.specs.Versions.{AreBodies, AreTypedSeats, IsRecord, IsTyped, IsTypedEndpoint, IsTypedSeat};

use at_base::epr::Epr;
use at_base::id::Id;
use at_base::record::{Record, Seated, Seats};
use at_base::text::Text;
use std::alloc::{AllocError, Global};

/// Each record is a body that a journal takes, and no mark.
pub fn are_bodies()
    ensures { AreBodies }
{}

fn put_short(out: &mut Vec<u8>, number: u16) -> Result<(), AllocError>
    ensures { OnOk result (out.new.items ≡ out.old.items ++ to_be_bytes w16 number) }
{
    out.extend_from_slice(&number.to_be_bytes())
}

fn put_word(out: &mut Vec<u8>, number: u32) -> Result<(), AllocError>
    ensures { OnOk result (out.new.items ≡ out.old.items ++ to_be_bytes w32 number) }
{
    out.extend_from_slice(&number.to_be_bytes())
}

fn put_id(out: &mut Vec<u8>, id: Id) -> Result<(), AllocError>
    ensures { OnOk result (out.new.items ≡ out.old.items ++ id_bytes id) }
{
    put_word(out, id.incarnation())?;
    put_word(out, id.counter())
}

fn put_text(out: &mut Vec<u8>, text: &Text) -> Result<(), AllocError>
    requires { length text.now < 2 ^ 16 }
    ensures done { OnOk result (out.new.items ≡ out.old.items ++ text_bytes text.now) }
    ensures utf8 { IsUtf8 text.now }
{
    let letters = text.as_str();
    put_short(out, letters.len() as u16)?;
    out.extend_from_slice(letters.as_bytes())
}

fn put_endpoint(out: &mut Vec<u8>, endpoint: &Epr) -> Result<(), AllocError>
    requires { IsEndpoint endpoint.now }
    ensures done { OnOk result (out.new.items ≡ out.old.items ++ endpoint_bytes endpoint.now) }
    ensures typed { OnOk result (IsTypedEndpoint endpoint.now) }
{
    put_text(out, &endpoint.address)?;
    put_text(out, &endpoint.params)
}

fn put_seat(out: &mut Vec<u8>, seated: &Seated) -> Result<(), AllocError>
    requires { IsEndpoint seated.now.endpoint }
    ensures done { OnOk result (out.new.items ≡ out.old.items ++ seat_bytes seated.now) }
    ensures typed { OnOk result (IsTypedSeat seated.now) }
{
    put_short(out, seated.number)?;
    put_endpoint(out, &seated.endpoint)
}

#[tactic(auto, using(crate::proofs::WrittenSeats::none_put, crate::proofs::WrittenSeats::more_put, crate::proofs::WrittenSeats::all_put, crate::proofs::WrittenSeats::all_typed, crate::proofs::WrittenSeats::endpoint_at))]
fn put_each(out: &mut Vec<u8>, seats: &[Seated]) -> Result<(), AllocError>
    requires { All (λ s. IsEndpoint s.endpoint) seats.now }
    ensures done { OnOk result (out.new.items ≡ out.old.items ++ each_seat seats.now) }
    ensures typed { OnOk result (AreTypedSeats seats.now) }
{
    for seated in seats {
        put_seat(out, seated)?;
    }
    Ok(())
}

fn put_seats(out: &mut Vec<u8>, seats: &Seats) -> Result<(), AllocError>
    requires { AreSeats seats.now }
    ensures done { OnOk result (out.new.items ≡ out.old.items ++ seats_bytes seats.now) }
    ensures typed { OnOk result (AreTypedSeats seats.now) }
{
    let items = seats.as_slice();
    put_short(out, items.len() as u16)?;
    put_each(out, items)
}

/// A tag and an id.
fn put_named(out: &mut Vec<u8>, tag: u8, id: Id) -> Result<(), AllocError>
    ensures { OnOk result (out.new.items ≡ out.old.items ++ (tag ∷ id_bytes id)) }
{
    out.push(tag)?;
    put_id(out, id)
}

fn put_start(out: &mut Vec<u8>, incarnation: u32) -> Result<(), AllocError>
    ensures done { OnOk result (out.new.items ≡ out.old.items ++ bytes_of (records.Start incarnation)) }
    ensures typed { OnOk result (incarnation < 2 ^ 32) }
{
    out.push(1)?;
    put_word(out, incarnation)
}

fn put_fields(out: &mut Vec<u8>, key: &Text, value: &Text) -> Result<(), AllocError>
    requires key { IsField key.now }
    requires value { IsField value.now }
    ensures done { OnOk result (out.new.items ≡ out.old.items ++ (text_bytes key.now ++ text_bytes value.now)) }
    ensures typed { OnOk result (IsUtf8 key.now × IsUtf8 value.now) }
{
    put_text(out, key)?;
    put_text(out, value)
}

fn put_leaf(
    out: &mut Vec<u8>,
    id: Id,
    coordinator: &Epr,
    key: &Text,
    value: &Text,
) -> Result<(), AllocError>
    requires coordinator { IsEndpoint coordinator.now }
    requires key { IsField key.now }
    requires value { IsField value.now }
    ensures done { OnOk result (out.new.items ≡ out.old.items ++ bytes_of (records.LeafPrepared id coordinator.now key.now value.now)) }
    ensures typed { OnOk result (IsTyped (records.LeafPrepared id coordinator.now key.now value.now)) }
{
    put_named(out, 2, id)?;
    put_endpoint(out, coordinator)?;
    put_fields(out, key, value)
}

fn put_vote(out: &mut Vec<u8>, id: Id, superior: &Epr, seats: &Seats) -> Result<(), AllocError>
    requires superior { IsEndpoint superior.now }
    requires seats { AreSeats seats.now }
    ensures done { OnOk result (out.new.items ≡ out.old.items ++ bytes_of (records.Voted id superior.now seats.now)) }
    ensures typed { OnOk result (IsTyped (records.Voted id superior.now seats.now)) }
{
    put_named(out, 5, id)?;
    put_endpoint(out, superior)?;
    put_seats(out, seats)
}

fn put_decision(out: &mut Vec<u8>, id: Id, seats: &Seats) -> Result<(), AllocError>
    requires { AreSeats seats.now }
    ensures done { OnOk result (out.new.items ≡ out.old.items ++ bytes_of (records.Decided id seats.now)) }
    ensures typed { OnOk result (IsTyped (records.Decided id seats.now)) }
{
    put_named(out, 6, id)?;
    put_seats(out, seats)
}

/// Adds the bytes of a record to the end.
fn put_record(out: &mut Vec<u8>, entry: &Record) -> Result<(), AllocError>
    requires { IsWellFormed entry.now }
    ensures done { OnOk result (out.new.items ≡ out.old.items ++ bytes_of entry.now) }
    ensures typed { OnOk result (IsTyped entry.now) }
{
    match entry {
        Record::Start { incarnation } => put_start(out, *incarnation),
        Record::LeafPrepared {
            id,
            coordinator,
            key,
            value,
        } => put_leaf(out, *id, coordinator, key, value),
        Record::LeafCommitted { id } => put_named(out, 3, *id),
        Record::LeafAborted { id } => put_named(out, 4, *id),
        Record::Voted {
            id,
            superior,
            seats,
        } => put_vote(out, *id, superior, seats),
        Record::Decided { id, seats } => put_decision(out, *id, seats),
        Record::SubCommitted { id } => put_named(out, 7, *id),
        Record::Ended { id } => put_named(out, 8, *id),
        Record::Done { id } => put_named(out, 10, *id),
    }
}

/// The body of a record, as a file of version 2 has it.
pub fn write_record(alloc: Global, entry: &Record) -> Result<Vec<u8>, AllocError>
    requires { IsWellFormed entry.now }
    ensures { IfOk result (λ body. IsRecord Two entry.now body.items) }
{
    let mut out = Vec::new(alloc);
    put_record(&mut out, entry)?;
    Ok(out)
}
