//! What a node recorded.

ghost use Rattle.std.specs.Prelude.{◌≡◌};

use at_base::record::Record;
use at_base::text::Text;
use std::marker::Model;

/// The base of a node, and the records of its journal.
#[derive(Drop)]
pub struct Log {
    base: Text,
    records: Vec<Record>,
}

impl Model for Log {
    ghost use Rattle.audit_at.specs.Superiors.{Log};

    ghost Value = { Log };

    ghost view = { λ log. record { base = log.base; records = log.records.items } };
}

impl Log {
    /// These, without a copy.
    pub fn new(base: Text, records: Vec<Record>) -> Log
        ensures { result ≡ record { base = base; records = records.items } }
    {
        Log { base, records }
    }

    /// The base.
    pub fn base(&self) -> &Text
        ensures { result.now ≡ self.now.base }
    {
        &self.base
    }

    /// The records.
    pub fn records(&self) -> &[Record]
        ensures { result.now ≡ self.now.records }
    {
        self.records.as_slice()
    }
}
