//! What is printed of a journal.

use std::marker::Model;

/// What is printed of a journal's files, and whether it says that they are none.
#[derive(Debug, Drop)]
pub struct Page {
    text: Vec<u8>,
    is_bad: bool,
}

impl Model for Page {
    ghost use Rattle.journal_page.specs.Pages.{Printed};

    ghost Value = { Printed };

    ghost view = { λ p. record { text = p.text.items; is_bad = p.is_bad } };
}

impl Page {
    ghost use Rattle.std.specs.Prelude.{◌≡◌};

    /// A page of these bytes.
    pub(crate) fn of(text: Vec<u8>, is_bad: bool) -> Page
        ensures { result ≡ record { text = text.items; is_bad = is_bad } }
    {
        Page { text, is_bad }
    }

    /// Its bytes: lines, each ended by LF.
    pub fn as_slice(&self) -> &[u8]
        ensures { result.now ≡ self.now.text }
    {
        self.text.as_slice()
    }

    /// Whether it says that the files are no journal.
    pub fn is_bad(&self) -> bool
        ensures { result ≡ self.now.is_bad }
    {
        self.is_bad
    }
}
