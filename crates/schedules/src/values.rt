//! What one word says: a number, an id, a kind or a vote.

ghost use Rattle.std.specs.Prelude.{ℕ, ◌≡◌, ◌<◌, ◌^◌, IfOk, IfSome, Some};
ghost use Rattle.schedules.specs.Values.{decimal_of, number_in, node_in, call_in, id_in, kind_in, vote_in, leaves_in, hex_in, bytes_in};

use crate::line::{Cause, Leaves};
use at_base::id::Id;
use at_base::notice::{Kind, Vote};
use at_base::text::Text;
use hex::FromHexError;
use std::alloc::{AllocError, Global};

/// The number that the word spells in decimal, without sign or leading zeros.
fn read_decimal(word: &str) -> Option<u64>
    ensures spelled { IfSome result (λ n. decimal_of word.now ≡ Some n) }
    ensures every { (n : ℕ) → n < 2 ^ 64 → decimal_of word.now ≡ Some n → result ≡ Some n }
{
    let first = *word.as_bytes().first()?;
    if first == b'+' {
        return None;
    }
    if first == b'0' && word.len() > 1 {
        return None;
    }
    word.parse().ok()
}

/// A number within these bounds.
pub fn read_long(word: &str, least: u64, most: u64) -> Result<u64, Cause>
    ensures { result ≡ number_in least most word.now }
{
    match read_decimal(word) {
        Some(number) if least <= number && number <= most => Ok(number),
        _ => Err(Cause::Number),
    }
}

/// A number within these bounds.
pub fn read_number(word: &str, least: u32, most: u32) -> Result<u32, Cause>
    ensures { result ≡ number_in least most word.now }
{
    let number = read_long(word, u64::from(least), u64::from(most))?;
    Ok(number as u32)
}

/// A number within these bounds.
pub fn read_small(word: &str, least: u16, most: u16) -> Result<u16, Cause>
    ensures { result ≡ number_in least most word.now }
{
    let number = read_number(word, u32::from(least), u32::from(most))?;
    Ok(number as u16)
}

/// A number of a node.
pub fn read_node(nodes: u8, word: &str) -> Result<u8, Cause>
    ensures { result ≡ node_in nodes word.now }
{
    let number = read_number(word, 1, u32::from(nodes))?;
    Ok(number as u8)
}

/// A number of a device call.
pub fn read_call(word: &str) -> Result<u32, Cause>
    ensures { result ≡ call_in word.now }
{
    read_number(word, 1, 1_000_000)
}

/// A byte.
pub fn read_byte(word: &str) -> Result<u8, Cause>
    ensures { result ≡ number_in 0 255 word.now }
{
    let number = read_number(word, 0, 255)?;
    Ok(number as u8)
}

pub fn read_id(word: &str) -> Result<Id, Cause>
    ensures { result ≡ id_in word.now }
{
    match Id::read(word.as_bytes()) {
        Some(id) => Ok(id),
        None => Err(Cause::Identifier),
    }
}

pub fn read_kind(word: &str) -> Result<Kind, Cause>
    ensures { result ≡ kind_in word.now }
{
    match Kind::lettered(word) {
        Some(kind) => Ok(kind),
        None => Err(Cause::Keyword),
    }
}

pub fn read_vote(word: &str) -> Result<Vote, Cause>
    ensures { result ≡ vote_in word.now }
{
    match Vote::named(word) {
        Some(vote) => Ok(vote),
        None => Err(Cause::Keyword),
    }
}

/// What a stop leaves, in one word.
pub fn read_leaves(word: &str) -> Result<Leaves, Cause>
    ensures { result ≡ leaves_in word.now }
{
    match word {
        "keep" => Ok(Leaves::Keep),
        "drop" => Ok(Leaves::Drop),
        _ => Err(Cause::Keyword),
    }
}

/// Bytes in hexadecimal.
pub fn read_hex(alloc: Global, word: &str) -> Result<Result<Text, Cause>, AllocError>
    ensures { IfOk result (λ r. r ≡ hex_in word.now) }
{
    match hex::decode(alloc, word) {
        Ok(_bytes) => Ok(Ok(Text::copied(alloc, word)?)),
        Err(FromHexError::OutOfMemory) => Err(AllocError),
        Err(_fault) => Ok(Err(Cause::Hexadecimal)),
    }
}

/// The bytes that a word says in hexadecimal; none where it says no bytes.
pub fn bytes_in(alloc: Global, word: &str) -> Result<Vec<u8>, AllocError>
    ensures { IfOk result (λ bytes. bytes.items ≡ bytes_in word.now) }
{
    match hex::decode(alloc, word) {
        Ok(bytes) => Ok(bytes),
        Err(FromHexError::OutOfMemory) => Err(AllocError),
        Err(_fault) => Ok(Vec::new(alloc)),
    }
}
