//! What a command prints.

use std::alloc::{AllocError, Global};
use std::marker::Model;

/// What a command prints, and whether that is a refusal.
#[derive(Debug, Drop)]
pub struct Printed {
    text: Vec<u8>,
    is_refusal: bool,
}

impl Model for Printed {
    ghost use Rattle.envelope_cmd.specs.Output.{Output};

    ghost Value = { Output };

    ghost view = { λ p. record { text = p.text.items; is_refusal = p.is_refusal } };
}

impl Printed {
    ghost use Rattle.std.specs.Prelude.{◌≡◌, IfOk};
    ghost use Rattle.envelope_cmd.specs.Output.{accepted, refused};

    /// What is printed for an envelope that is taken.
    pub fn accepted(text: Vec<u8>) -> Printed
        ensures { result ≡ accepted text.items }
    {
        Printed {
            text,
            is_refusal: false,
        }
    }

    /// The line of a refusal.
    pub fn refused(alloc: Global, line: &str) -> Result<Printed, AllocError>
        ensures { IfOk result (λ printed. printed ≡ refused line.now) }
    {
        let text = Vec::from_slice(alloc, line.as_bytes())?;
        Ok(Printed {
            text,
            is_refusal: true,
        })
    }

    /// Its bytes.
    pub fn as_slice(&self) -> &[u8]
        ensures { result.now ≡ self.now.text }
    {
        self.text.as_slice()
    }

    /// Whether it is a refusal.
    pub fn is_refusal(&self) -> bool
        ensures { result ≡ self.now.is_refusal }
    {
        self.is_refusal
    }
}
