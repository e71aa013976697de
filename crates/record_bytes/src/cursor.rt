//! Bytes that are read field by field.

ghost use Rattle.std.specs.Prelude.{◌≡◌, ◌<◌, ◌^◌, length};
ghost use Rattle.std.specs.Int.{from_be_bytes, to_be_bytes, w16, w32};
ghost use Rattle.record_bytes.specs.declared.cursor.ReadFault.TheVariants.{NoMemory};
ghost use Rattle.record_bytes.specs.RecordReaders.{Reads, id_in, letters_in, short_in, text_in, word_in};

use at_base::id::Id;
use at_base::text::Text;
use std::alloc::{AllocError, Global};
use std::marker::Model;

/// Why bytes weren't read.
#[derive(Debug, PartialEq, Eq, Drop)]
pub enum ReadFault {
    NoMemory,
    /// They don't begin with what was asked for.
    Misspelled,
}

impl From<AllocError> for ReadFault {
    ghost from_gives = { λ _ fault. fault ≡ NoMemory };

    fn from(_: AllocError) -> ReadFault {
        ReadFault::NoMemory
    }
}

/// The bytes that are still to be read.
#[derive(Drop)]
pub struct Cursor<'a> {
    pub(crate) rest: &'a [u8],
}

impl<'a> Model for Cursor<'a> {
    ghost use Rattle.std.specs.Prelude.{ℕ, List};

    ghost Value = { List ℕ };

    ghost view = { λ c. c.rest.now };
}

/// The number that two bytes are.
fn short_of(front: &[u8]) -> u16
    requires { length front.now ≡ 2 }
    ensures read { result ≡ from_be_bytes w16 front.now }
    ensures spelled { to_be_bytes w16 result ≡ front.now }
    ensures fits { result < 2 ^ 16 }
{
    match <[u8; 2]>::try_from(front) {
        Ok(bytes) => u16::from_be_bytes(bytes),
        Err(_) => 0,
    }
}

/// The number that four bytes are.
fn word_of(front: &[u8]) -> u32
    requires { length front.now ≡ 4 }
    ensures read { result ≡ from_be_bytes w32 front.now }
    ensures spelled { to_be_bytes w32 result ≡ front.now }
    ensures fits { result < 2 ^ 32 }
{
    match <[u8; 4]>::try_from(front) {
        Ok(bytes) => u32::from_be_bytes(bytes),
        Err(_) => 0,
    }
}

impl<'a> Cursor<'a> {
    /// A number of two bytes.
    #[tactic(auto, using(crate::proofs::NumbersAndTexts::is_short, crate::proofs::NumbersAndTexts::no_short))]
    pub(crate) fn short(&mut self) -> Result<u16, ReadFault>
        ensures { Reads result self.new (short_in self.old) }
    {
        let Some((front, rest)) = self.rest.split_at_checked(2) else {
            return Err(ReadFault::Misspelled);
        };
        self.rest = rest;
        Ok(short_of(front))
    }

    /// A number of four bytes.
    #[tactic(auto, using(crate::proofs::NumbersAndTexts::is_word, crate::proofs::NumbersAndTexts::no_word))]
    pub(crate) fn word(&mut self) -> Result<u32, ReadFault>
        ensures { Reads result self.new (word_in self.old) }
    {
        let Some((front, rest)) = self.rest.split_at_checked(4) else {
            return Err(ReadFault::Misspelled);
        };
        self.rest = rest;
        Ok(word_of(front))
    }

    /// An id, both parts of which are at least 1.
    #[tactic(auto, using(crate::proofs::NumbersAndTexts::lacks), unfolding(crate::specs::RecordReaders::id_in))]
    pub(crate) fn id(&mut self) -> Result<Id, ReadFault>
        ensures { Reads result self.new (id_in self.old) }
    {
        let incarnation = self.word()?;
        let counter = self.word()?;
        if incarnation == 0 {
            return Err(ReadFault::Misspelled);
        }
        if counter == 0 {
            return Err(ReadFault::Misspelled);
        }
        Ok(Id::new(incarnation, counter))
    }

    /// So many bytes of text.
    #[tactic(auto, using(crate::proofs::NumbersAndTexts::is_text, crate::proofs::NumbersAndTexts::no_text, crate::proofs::NumbersAndTexts::not_long), unfolding(crate::specs::RecordReaders::letters_in))]
    fn letters(&mut self, alloc: Global, size: usize) -> Result<Text, ReadFault>
        ensures { Reads result self.new (letters_in size self.old) }
    {
        let Some((front, rest)) = self.rest.split_at_checked(size) else {
            return Err(ReadFault::Misspelled);
        };
        let Ok(text) = str::from_utf8(front) else {
            return Err(ReadFault::Misspelled);
        };
        self.rest = rest;
        let copy = Text::copied(alloc, text)?;
        Ok(copy)
    }

    /// A text behind its length.
    #[tactic(auto, using(crate::proofs::NumbersAndTexts::lacks), unfolding(crate::specs::RecordReaders::text_in))]
    pub(crate) fn text(&mut self, alloc: Global) -> Result<Text, ReadFault>
        ensures { Reads result self.new (text_in self.old) }
    {
        let size = self.short()?;
        self.letters(alloc, size as usize)
    }
}
