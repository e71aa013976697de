//! Lines of an audit.

ghost use Rattle.std.specs.Prelude.{◌≡◌};

use at_base::text::Text;
use std::marker::Model;

/// `journal BASE HEX0 HEX1`: the base of a node, and the two files of its journal.
#[derive(Drop)]
pub struct JournalLine {
    base: Text,
    first: Vec<u8>,
    second: Vec<u8>,
}

impl Model for JournalLine {
    ghost use Rattle.audit_cmd.specs.JournalLines.{JournalLine};

    ghost Value = { JournalLine };

    ghost view = { λ line. record { base = line.base; files = record { first = line.first.items; second = line.second.items } } };
}

impl JournalLine {
    /// These, without a copy.
    pub fn new(base: Text, first: Vec<u8>, second: Vec<u8>) -> JournalLine
        ensures { result ≡ record { base = base; files = record { first = first.items; second = second.items } } }
    {
        JournalLine {
            base,
            first,
            second,
        }
    }

    /// The base.
    pub fn base(&self) -> &Text
        ensures { result.now ≡ self.now.base }
    {
        &self.base
    }

    /// The bytes of file 0.
    pub fn first(&self) -> &[u8]
        ensures { result.now ≡ self.now.files.first }
    {
        self.first.as_slice()
    }

    /// The bytes of file 1.
    pub fn second(&self) -> &[u8]
        ensures { result.now ≡ self.now.files.second }
    {
        self.second.as_slice()
    }
}
