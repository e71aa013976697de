//! Ids of transactions, leaves and activities.

ghost use Rattle.std.specs.Prelude.{ℕ, ◌≡◌, ◌≤◌, ◌++◌, IfSome, Some, OnOk, OnErr};
ghost use Rattle.at_base.specs.IdText.{id_text, SpellsId, SpellsNumber};
ghost use Rattle.at_base.specs.Numbers.{Numbers};

use std::alloc::{AllocError, Global};
use std::fmt;
use std::marker::Model;

/// An id: the incarnation of the node that drew it, and the number of the draw, both at least 1.
///
/// A node draws its ids from one counter an incarnation, so no two of its ids are equal. Printed as `1-7`.
#[derive(Clone, Copy, PartialEq, Eq, PartialOrd, Ord, Debug)]
pub struct Id {
    incarnation: u32,
    counter: u32,
}

impl Model for Id {
    ghost use Rattle.std.specs.Prelude.{◌≤◌};
    ghost use Rattle.at_base.specs.Numbers.{Numbers};

    ghost Value = { Numbers };

    ghost view = { λ i. record { incarnation = i.incarnation; counter = i.counter } };

    ghost invariant = { λ i. (1 ≤ i.incarnation) × (1 ≤ i.counter) };

    ghost inverse = { λ n. record { incarnation = n.incarnation; counter = n.counter } };
}

impl Id {
    /// The id of these two numbers.
    pub fn new(incarnation: u32, counter: u32) -> Id
        requires incarnation { 1 ≤ incarnation }
        requires counter { 1 ≤ counter }
        ensures { result ≡ record { incarnation = incarnation; counter = counter } }
    {
        Id {
            incarnation,
            counter,
        }
    }

    /// The incarnation of the node that drew it.
    pub fn incarnation(self) -> u32
        ensures value { result ≡ self.incarnation }
        ensures least { 1 ≤ result }
    {
        self.incarnation
    }

    /// The number of the draw in that incarnation.
    pub fn counter(self) -> u32
        ensures value { result ≡ self.counter }
        ensures least { 1 ≤ result }
    {
        self.counter
    }

    /// The id that the bytes spell, as `1-7`: two decimals of 1 to 4,294,967,295 without sign or leading zeros, joined
    /// by `-`. None exactly where they spell no id.
    pub fn read(bytes: &[u8]) -> Option<Id>
        ensures spelled { IfSome result (SpellsId bytes.now) }
        ensures every { (id : Numbers) → SpellsId bytes.now id → result ≡ Some id }
    {
        let text = str::from_utf8(bytes).ok()?;
        let (incarnation, counter) = text.split_once('-')?;
        let incarnation = read_number(incarnation)?;
        let counter = read_number(counter)?;
        Some(Id::new(incarnation, counter))
    }

    /// Adds the text of the id, which `read` reads back, to the end. After an error `out` is as before.
    pub fn put(&self, alloc: Global, out: &mut Vec<u8>) -> Result<(), AllocError>
        ensures ok { OnOk result (out.new.items ≡ out.old.items ++ id_text self.now) }
        ensures err { OnErr result (out.new.items ≡ out.old.items) }
    {
        let text = self.to_string(alloc)?;
        out.extend_from_slice(text.as_bytes())
    }
}

impl fmt::Display for Id {
    ghost use Rattle.std.specs.Prelude.{Some};
    ghost use Rattle.at_base.specs.IdText.{id_text};

    ghost output = { λ id. Some (id_text id) };

    fn fmt<W: fmt::Write>(&self, f: &mut fmt::Formatter<W>) -> fmt::Result {
        write!(f, "{}-{}", self.incarnation, self.counter)
    }
}

/// The number that the text spells: a decimal of 1 to 4,294,967,295 without sign or leading zeros.
fn read_number(text: &str) -> Option<u32>
    ensures spelled { IfSome result (SpellsNumber text.now) }
    ensures every { (number : ℕ) → SpellsNumber text.now number → result ≡ Some number }
{
    let first = *text.as_bytes().first()?;
    if first == b'0' || first == b'+' {
        return None;
    }
    text.parse().ok()
}
