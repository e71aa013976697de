//! The words that a page is made of.

ghost use Rattle.std.specs.Prelude.{◌≡◌, ◌++◌, OnOk};
ghost use Rattle.xml_profile.specs.CanonicalText.{text_byte, value_byte};
ghost use Rattle.journal_page.specs.Words.{each_seat, endpoint_part, endpoint_word, item, number_line, seat_part, seats_part, some_seats, word_byte, word_text};

use at_base::epr::Epr;
use at_base::id::Id;
use at_base::record::Seated;
use std::alloc::{AllocError, Global};

pub(crate) fn push(out: &mut Vec<u8>, text: &str) -> Result<(), AllocError>
    ensures { OnOk result (out.new.items ≡ out.old.items ++ text.now) }
{
    out.extend_from_slice(text.as_bytes())
}

fn push_text_byte(out: &mut Vec<u8>, byte: u8) -> Result<(), AllocError>
    ensures { OnOk result (out.new.items ≡ out.old.items ++ text_byte byte) }
{
    match byte {
        b'&' => push(out, "&amp;"),
        b'<' => push(out, "&lt;"),
        b'>' => push(out, "&gt;"),
        b'\r' => push(out, "&#13;"),
        _ => out.extend_from_slice(&[byte]),
    }
}

fn push_value_byte(out: &mut Vec<u8>, byte: u8) -> Result<(), AllocError>
    ensures { OnOk result (out.new.items ≡ out.old.items ++ value_byte byte) }
{
    match byte {
        b'"' => push(out, "&quot;"),
        b'\t' => push(out, "&#9;"),
        b'\n' => push(out, "&#10;"),
        _ => push_text_byte(out, byte),
    }
}

fn push_word_byte(out: &mut Vec<u8>, byte: u8) -> Result<(), AllocError>
    ensures { OnOk result (out.new.items ≡ out.old.items ++ word_byte byte) }
{
    match byte {
        b' ' => push(out, "&#32;"),
        _ => push_value_byte(out, byte),
    }
}

fn push_word(out: &mut Vec<u8>, text: &str) -> Result<(), AllocError>
    ensures { OnOk result (out.new.items ≡ out.old.items ++ word_text text.now) }
{
    for byte in text.as_bytes() {
        push_word_byte(out, *byte)?;
    }
    Ok(())
}

#[tactic(auto, unfolding(crate::specs::Words::endpoint_word))]
fn push_endpoint(out: &mut Vec<u8>, endpoint: &Epr) -> Result<(), AllocError>
    ensures { OnOk result (out.new.items ≡ out.old.items ++ endpoint_word endpoint.now) }
{
    push_word(out, endpoint.address.as_str())
}

/// What an item is or does, and its id.
#[tactic(auto, unfolding(crate::specs::Words::item))]
pub(crate) fn push_item(
    alloc: Global,
    out: &mut Vec<u8>,
    word: &str,
    id: Id,
) -> Result<(), AllocError>
    ensures { OnOk result (out.new.items ≡ out.old.items ++ item word.now id) }
{
    push(out, word)?;
    push(out, " ")?;
    id.put(alloc, out)
}

/// An endpoint behind a word.
#[tactic(auto, unfolding(crate::specs::Words::endpoint_part))]
pub(crate) fn push_endpoint_part(
    out: &mut Vec<u8>,
    word: &str,
    endpoint: &Epr,
) -> Result<(), AllocError>
    ensures { OnOk result (out.new.items ≡ out.old.items ++ endpoint_part word.now endpoint.now) }
{
    push(out, " ")?;
    push(out, word)?;
    push(out, " ")?;
    push_endpoint(out, endpoint)
}

#[tactic(auto, unfolding(crate::specs::Words::seat_part))]
fn push_seat(alloc: Global, out: &mut Vec<u8>, seated: &Seated) -> Result<(), AllocError>
    ensures { OnOk result (out.new.items ≡ out.old.items ++ seat_part seated.now) }
{
    let number = format!(in alloc; " {} ", seated.number)?;
    push(out, number.as_str())?;
    push_endpoint(out, &seated.endpoint)
}

fn push_each_seat(alloc: Global, out: &mut Vec<u8>, seats: &[Seated]) -> Result<(), AllocError>
    ensures { OnOk result (out.new.items ≡ out.old.items ++ each_seat seats.now) }
{
    for seated in seats {
        push_seat(alloc, out, seated)?;
    }
    Ok(())
}

fn push_some_seats(alloc: Global, out: &mut Vec<u8>, seats: &[Seated]) -> Result<(), AllocError>
    ensures { OnOk result (out.new.items ≡ out.old.items ++ some_seats seats.now) }
{
    if seats.is_empty() {
        push(out, " none")
    } else {
        push_each_seat(alloc, out, seats)
    }
}

/// Seats behind a word.
#[tactic(auto, unfolding(crate::specs::Words::seats_part))]
pub(crate) fn push_seats_part(
    alloc: Global,
    out: &mut Vec<u8>,
    word: &str,
    seats: &[Seated],
) -> Result<(), AllocError>
    ensures { OnOk result (out.new.items ≡ out.old.items ++ seats_part word.now seats.now) }
{
    push(out, " ")?;
    push(out, word)?;
    push_some_seats(alloc, out, seats)
}

/// A number behind its name, on a line.
#[tactic(auto, unfolding(crate::specs::Words::number_line))]
pub(crate) fn push_number_line(
    alloc: Global,
    out: &mut Vec<u8>,
    name: &str,
    number: u32,
) -> Result<(), AllocError>
    ensures { OnOk result (out.new.items ≡ out.old.items ++ number_line name.now number) }
{
    let line = format!(in alloc; "{name} {number}\n")?;
    push(out, line.as_str())
}
