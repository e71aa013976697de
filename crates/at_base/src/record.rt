//! Journal records: what a node has promised, and what it has done.

ghost use Rattle.std.specs.Prelude.{◌≡◌, ◌++◌, ◌∷◌, [], OnOk, OnErr};
ghost use Rattle.std.specs.Cmp.Lexicographic.{pointwise, lists_per, lists_equiv};

use crate::epr::Epr;
use crate::id::Id;
use crate::text::Text;
use std::alloc::AllocError;
use std::marker::Model;

/// A durable seat that voted Prepared: its number, 1 to 65,535, and the participant's endpoint.
#[derive(Debug, PartialEq, Eq)]
pub struct Seated {
    pub number: u16,
    pub endpoint: Epr,
}

impl Drop for Seated {
    fn drop(self) {
        let Seated {
            number: _number,
            endpoint: _endpoint,
        } = self;
    }
}

impl Clone for Seated {
    ghost is_clone = { λ seated copy. copy ≡ seated };

    fn clone(&self) -> Result<Seated, AllocError> {
        let endpoint = self.endpoint.clone()?;
        Ok(Seated {
            number: self.number,
            endpoint,
        })
    }
}

/// Seats of one transaction, their numbers rising, at most 512 of them in a record.
#[derive(Debug, Drop)]
pub struct Seats {
    items: Vec<Seated>,
}

impl Model for Seats {
    ghost use Rattle.std.specs.Prelude.{List};
    ghost use Rattle.at_base.specs.declared.record.Seated.{Seated};

    ghost Value = { List Seated };

    ghost view = { λ s. s.items.items };
}

impl Seats {
    /// The list of a `Vec`, without a copy.
    pub fn from_vec(items: Vec<Seated>) -> Seats
        ensures { result ≡ items.items }
    {
        Seats { items }
    }

    /// The `Vec` of the list, without a copy.
    pub fn into_vec(self) -> Vec<Seated>
        ensures { result.items ≡ self }
    {
        self.items
    }

    /// The list as a slice.
    pub fn as_slice(&self) -> &[Seated]
        ensures { result.now ≡ self.now }
    {
        self.items.as_slice()
    }

    /// Adds one at the end. After an error the list is as before.
    pub fn push(&mut self, seated: Seated) -> Result<(), AllocError>
        ensures ok { OnOk result (self.new ≡ self.old ++ seated ∷ []) }
        ensures err { OnErr result (self.new ≡ self.old) }
    {
        self.items.push(seated)?;
        Ok(())
    }
}

impl Clone for Seats {
    ghost is_clone = { λ items copy. copy ≡ items };

    fn clone(&self) -> Result<Seats, AllocError> {
        Ok(Seats {
            items: self.items.clone()?,
        })
    }
}

impl PartialEq for Seats {
    ghost use Rattle.at_base.specs.contracts.record.SeatedPartialEq.TheImpl.Laws.{laws-law};

    ghost eq = { pointwise ⟦<Seated as PartialEq>⟧.eq };

    ghost laws = { lists_per laws-law };

    fn eq(&self, other: &Seats) -> bool {
        self.items == other.items
    }
}

impl Eq for Seats {
    ghost use Rattle.at_base.specs.contracts.record.SeatedEq.TheImpl.Laws.{laws-law};

    ghost laws = { lists_equiv laws-law };
}

/// A record of a node's journal.
#[derive(Debug, PartialEq, Eq)]
pub enum Record {
    /// A node started, in this incarnation, at least 1.
    Start {
        incarnation: u32,
    },
    /// A durable leaf is prepared: it waits for its coordinator's decision.
    LeafPrepared {
        id: Id,
        coordinator: Epr,
        key: Text,
        value: Text,
    },
    /// A prepared leaf was told to commit.
    LeafCommitted {
        id: Id,
    },
    /// A prepared leaf was told to roll back.
    LeafAborted {
        id: Id,
    },
    /// A subordinate voted Prepared to its superior, with these seats prepared.
    Voted {
        id: Id,
        superior: Epr,
        seats: Seats,
    },
    /// A root decided to commit, with these durable seats prepared, or none.
    Decided {
        id: Id,
        seats: Seats,
    },
    /// A subordinate was told to commit.
    SubCommitted {
        id: Id,
    },
    /// A transaction is over, and nobody waits for it.
    Ended {
        id: Id,
    },
    /// A root committed, and is over: what is kept of its Decided.
    Done {
        id: Id,
    },
}

impl Drop for Record {
    fn drop(self) {
        match self {
            Record::Start {
                incarnation: _incarnation,
            } => {}
            Record::LeafPrepared {
                id: _id,
                coordinator: _coordinator,
                key: _key,
                value: _value,
            } => {}
            Record::LeafCommitted { id: _id } => {}
            Record::LeafAborted { id: _id } => {}
            Record::Voted {
                id: _id,
                superior: _superior,
                seats: _seats,
            } => {}
            Record::Decided {
                id: _id,
                seats: _seats,
            } => {}
            Record::SubCommitted { id: _id } => {}
            Record::Ended { id: _id } => {}
            Record::Done { id: _id } => {}
        }
    }
}

impl Clone for Record {
    ghost is_clone = { λ entry copy. copy ≡ entry };

    fn clone(&self) -> Result<Record, AllocError> {
        match self {
            Record::Start { incarnation } => Ok(Record::Start {
                incarnation: *incarnation,
            }),
            Record::LeafPrepared {
                id,
                coordinator,
                key,
                value,
            } => {
                let coordinator = coordinator.clone()?;
                let key = key.clone()?;
                Ok(Record::LeafPrepared {
                    id: *id,
                    coordinator,
                    key,
                    value: value.clone()?,
                })
            }
            Record::LeafCommitted { id } => Ok(Record::LeafCommitted { id: *id }),
            Record::LeafAborted { id } => Ok(Record::LeafAborted { id: *id }),
            Record::Voted {
                id,
                superior,
                seats,
            } => {
                let superior = superior.clone()?;
                Ok(Record::Voted {
                    id: *id,
                    superior,
                    seats: seats.clone()?,
                })
            }
            Record::Decided { id, seats } => Ok(Record::Decided {
                id: *id,
                seats: seats.clone()?,
            }),
            Record::SubCommitted { id } => Ok(Record::SubCommitted { id: *id }),
            Record::Ended { id } => Ok(Record::Ended { id: *id }),
            Record::Done { id } => Ok(Record::Done { id: *id }),
        }
    }
}
