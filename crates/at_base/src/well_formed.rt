//! Which records a journal holds.

ghost use Rattle.std.specs.Prelude.{◌≡◌, ◌↔◌, IsTrue};
ghost use Rattle.at_base.specs.Chars.{is_xml_char, IsXmlText};
ghost use Rattle.at_base.specs.IdText.{IsId};
ghost use Rattle.at_base.specs.WellFormed.{IsEndpoint, IsField, Rises, AreSeats, IsWellFormed};

use crate::epr::Epr;
use crate::id::Id;
use crate::limits::{MOST_ENDPOINT, MOST_FIELD, MOST_SEATS};
use crate::record::{Record, Seated, Seats};
use crate::text::Text;

/// Whether a document may hold the character (XML 1.0, section 2.2).
pub fn is_xml_char(c: char) -> bool
    ensures { result ≡ is_xml_char c }
{
    matches!(c, '\t' | '\n' | '\r' | '\u{20}'..='\u{d7ff}' | '\u{e000}'..='\u{fffd}' | '\u{10000}'..='\u{10ffff}')
}

/// Whether a document may hold each character of the text.
pub fn is_xml_text(text: &Text) -> bool
    ensures { IsTrue result ↔ IsXmlText text.now }
{
    text.as_str().chars().all(|c| is_xml_char(c))
}

/// Whether a record may hold the endpoint: an address of at least one byte, and at most 2,048 bytes in all.
pub fn is_endpoint(endpoint: &Epr) -> bool
    ensures { IsTrue result ↔ IsEndpoint endpoint.now }
{
    let address = endpoint.address.as_str().len();
    let params = endpoint.params.as_str().len();
    address >= 1
        && address <= MOST_ENDPOINT
        && params <= MOST_ENDPOINT - address
        && is_xml_text(&endpoint.address)
        && is_xml_text(&endpoint.params)
}

/// Whether a record may hold the text as a key or a value: at most 256 bytes.
pub fn is_field(text: &Text) -> bool
    ensures { IsTrue result ↔ IsField text.now }
{
    text.as_str().len() <= MOST_FIELD && is_xml_text(text)
}

fn rises(seats: &[Seated]) -> bool
    ensures { IsTrue result ↔ Rises 0 seats.now }
{
    let mut last = 0;
    for seated in seats {
        if seated.number <= last {
            return false;
        }
        last = seated.number;
    }
    true
}

/// Whether a record may hold these participants: at most 512 of them, their numbers rising from 1.
pub fn are_seats(seats: &Seats) -> bool
    ensures { IsTrue result ↔ AreSeats seats.now }
{
    let items = seats.as_slice();
    items.len() <= MOST_SEATS
        && rises(items)
        && items.iter().all(|seated| is_endpoint(&seated.endpoint))
}

// Always so: both numbers of an id are at least 1 by its type.
fn is_id(id: Id) -> bool
    ensures { IsTrue result ↔ IsId id }
{
    id.incarnation() >= 1 && id.counter() >= 1
}

/// Whether a journal may hold the record.
pub fn is_well_formed(entry: &Record) -> bool
    ensures { IsTrue result ↔ IsWellFormed entry.now }
{
    match entry {
        Record::Start { incarnation } => *incarnation >= 1,
        Record::LeafPrepared {
            id,
            coordinator,
            key,
            value,
        } => is_id(*id) && is_endpoint(coordinator) && is_field(key) && is_field(value),
        Record::Voted {
            id,
            superior,
            seats,
        } => is_id(*id)
            && is_endpoint(superior)
            && !seats.as_slice().is_empty()
            && are_seats(seats),
        Record::Decided { id, seats } => is_id(*id) && are_seats(seats),
        Record::LeafCommitted { id }
        | Record::LeafAborted { id }
        | Record::SubCommitted { id }
        | Record::Ended { id }
        | Record::Done { id } => is_id(*id),
    }
}
