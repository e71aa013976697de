//! A node.

ghost use Rattle.std.specs.Prelude.{◌≡◌};
ghost use Rattle.decision_log.specs.KeptState.{known};
ghost use Rattle.node_at.specs.State.{seen};

use crate::role::Role;
use crate::shrink::Shrunk;
use at_base::outs::Effect;
use decision_log::kept::Kept;
use interposition::book::Book;
use journal_at::journal::Journal;

/// A node: its book, its journal, and what it keeps of the journal's records. `effects` are those of the call that runs or
/// of the last one, `shrunk` is what became of the journal at the end of the last turn. Once it has `halted` it does nothing
/// more.
pub struct Node {
    pub(crate) book: Book,
    pub(crate) kept: Kept,
    pub(crate) journal: Journal,
    pub(crate) effects: Vec<Effect>,
    pub(crate) halted: bool,
    pub(crate) role: Role,
    pub(crate) shrunk: Shrunk,
}

impl Drop for Node {
    fn drop(self) {
        let Node {
            book: _book,
            kept: _kept,
            journal: _journal,
            effects: _effects,
            halted: _halted,
            role: _role,
            shrunk: _shrunk,
        } = self;
    }
}

impl Node {
    /// What the node knows.
    pub fn book(&self) -> &Book
        ensures { result.now ≡ (seen self.now).book }
    {
        &self.book
    }

    /// What it keeps of its journal's records.
    pub fn kept(&self) -> &Kept
        ensures { known result.now ≡ (seen self.now).kept }
    {
        &self.kept
    }

    /// Where its journal stands.
    pub fn journal(&self) -> &Journal
        ensures { result.now ≡ (seen self.now).journal }
    {
        &self.journal
    }

    /// The incarnation that the node came up in.
    pub fn incarnation(&self) -> u32
        ensures { result ≡ (seen self.now).book.incarnation }
    {
        self.book.incarnation()
    }
}
