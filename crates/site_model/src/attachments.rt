//! The names by which a machine was attached, for contracts alone.

ghost use Rattle.std.specs.Prelude.{◌≡◌, ◌++◌, ◌∷◌, [], List};
ghost use Rattle.std.specs.Borrow.{ftrue};
ghost use Rattle.site_model.specs.Attachments.{Names};

use std::marker::Model;

/// The names that an attach was given.
#[derive(Clone, Copy)]
pub struct Given<'a> {
    /// The name of the journal's first file.
    pub journal: &'a str,
    /// Where it listens.
    pub listen: &'a str,
}

/// The names by which a machine was attached, in order. Contracts alone see them: it takes no memory, and its calls do nothing.
#[derive(Drop)]
pub struct Attachments {
    pub ghost names: { List Names },
}

// It owns nothing.
impl Model for Attachments {
    ghost also_owns = { λ _. ftrue };
}

impl Attachments {
    /// None so far.
    pub fn new() -> Attachments
        ensures { result.names ≡ [] }
    {
        Attachments {}
    }

    /// With those of one more.
    pub fn and(&self, _given: &Given<'_>) -> Attachments
        ensures { result.names ≡ self.now.names ++ record { journal = _given.now.journal.now; listen = _given.now.listen.now } ∷ [] }
    {
        Attachments {}
    }
}
