//! What an audit prints.

ghost use Rattle.std.specs.Prelude.{◌≡◌};

use std::marker::Model;

/// What is printed, and the status that it ends with.
#[derive(Debug, Drop)]
pub struct Audited {
    text: Vec<u8>,
    status: u8,
}

impl Model for Audited {
    ghost use Rattle.audit_cmd.specs.JournalReports.{Audited};

    ghost Value = { Audited };

    ghost view = { λ a. record { text = a.text.items; status = a.status } };
}

impl Audited {
    /// This text with this status.
    pub fn new(text: Vec<u8>, status: u8) -> Audited
        ensures { result ≡ record { text = text.items; status = status } }
    {
        Audited { text, status }
    }

    /// The text.
    pub fn as_slice(&self) -> &[u8]
        ensures { result.now ≡ self.now.text }
    {
        self.text.as_slice()
    }

    /// 0 where all outcomes agree, 3 at a bad line, 7 at files that are no journal, 13 where outcomes under one top differ, 14 where
    /// superiors come back to one.
    pub fn status(&self) -> u8
        ensures { result ≡ self.now.status }
    {
        self.status
    }
}
