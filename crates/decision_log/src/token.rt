//! Tokens: what a record that stands in the journal gives leave to send.

ghost use Rattle.std.specs.Prelude.{◌≡◌};
ghost use Rattle.at_base.specs.WellFormed.{IsWellFormed};
ghost use Rattle.decision_log.specs.Tokens.{Token, token_of};

use at_base::id::Id;
use at_base::record::Record;
use std::marker::Model;

/// The kind of a record.
#[derive(Clone, Copy, Debug, PartialEq, Eq)]
pub enum What {
    Start,
    LeafPrepared,
    LeafCommitted,
    LeafAborted,
    Voted,
    Decided,
    SubCommitted,
    Ended,
    Done,
}

/// That a record of this id and kind stands in the journal, whatever a crash leaves.
///
/// It is made where a record was appended or was read, and nowhere else. A Start's id is its incarnation with counter 1.
#[derive(Debug, Drop)]
pub struct Durable {
    id: Id,
    what: What,
}

impl Model for Durable {
    ghost use Rattle.decision_log.specs.Tokens.{Token};

    ghost Value = { Token };

    ghost view = { λ d. record { id = d.id; what = d.what } };
}

impl Durable {
    /// The record's id.
    #[tactic(auto, using(crate::proofs::Order::in_order_left, crate::proofs::RecordFolds::grows_by_one))]
    pub fn id(&self) -> Id
        ensures { result ≡ self.now.id }
    {
        self.id
    }

    /// The record's kind.
    pub fn what(&self) -> What
        ensures { result ≡ self.now.what }
    {
        self.what
    }

    /// The token of a record.
    pub(crate) fn of(entry: &Record) -> Durable
        requires { IsWellFormed entry.now }
        ensures { result ≡ token_of entry.now }
    {
        match entry {
            Record::Start { incarnation } => Durable {
                id: Id::new(*incarnation, 1),
                what: What::Start,
            },
            Record::LeafPrepared { id, .. } => Durable {
                id: *id,
                what: What::LeafPrepared,
            },
            Record::LeafCommitted { id } => Durable {
                id: *id,
                what: What::LeafCommitted,
            },
            Record::LeafAborted { id } => Durable {
                id: *id,
                what: What::LeafAborted,
            },
            Record::Voted { id, .. } => Durable {
                id: *id,
                what: What::Voted,
            },
            Record::Decided { id, .. } => Durable {
                id: *id,
                what: What::Decided,
            },
            Record::SubCommitted { id } => Durable {
                id: *id,
                what: What::SubCommitted,
            },
            Record::Ended { id } => Durable {
                id: *id,
                what: What::Ended,
            },
            Record::Done { id } => Durable {
                id: *id,
                what: What::Done,
            },
        }
    }
}
