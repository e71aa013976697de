//! Questions of whose answers the steps are counted.

ghost use Rattle.std.specs.Prelude.{◌≡◌, ◌+◌, ◌<◌, ◌≤◌, option_copied, option_map};
ghost use Rattle.at_model.specs.Book.{find_by, transaction_id};
ghost use Rattle.at_model.specs.Seats.{answered};

use crate::transactions::Transactions;
use at_base::id::Id;
use at_base::notice::Kind;
use std::marker::Model;
use transaction_at::transaction::Transaction;

/// How many steps were taken, of `L` at most.
#[derive(Debug, Drop)]
pub struct Steps<const L: usize> {
    taken: usize,
}

impl<const L: usize> Model for Steps<L> {
    ghost use Rattle.std.specs.Prelude.{ℕ, ◌≤◌};

    ghost Value = { ℕ };

    ghost view = { λ s. s.taken };

    ghost invariant = { λ s. s.taken ≤ L };
}

impl<const L: usize> Steps<L> {
    /// None is taken yet.
    pub fn new() -> Steps<L>
        ensures { result ≡ 0 }
    {
        Steps { taken: 0 }
    }

    /// How many were taken.
    pub fn taken(&self) -> usize
        ensures value { result ≡ self.now }
        ensures within { result ≤ L }
    {
        self.taken
    }

    /// Takes one more.
    pub fn step(&mut self)
        requires { self.old < L }
        ensures { self.new ≡ self.old + 1 }
    {
        self.taken += 1;
    }
}

/// The transaction of this id.
fn looked_up<'a, const L: usize>(
    transactions: &'a Transactions,
    id: Id,
    steps: &mut Steps<L>,
) -> Option<&'a Transaction>
    requires { steps.old < L }
    ensures found { option_copied result ≡ find_by transaction_id id transactions.entry.now }
    ensures steps { steps.new ≡ steps.old + 1 }
{
    steps.step();
    transactions.find(id)
}

/// Whether each seat of the kind has voted or left: a comparison of how many haven't.
fn compared<const L: usize>(transaction: &Transaction, kind: Kind, steps: &mut Steps<L>) -> bool
    requires { steps.old < L }
    ensures answer { result ≡ answered kind transaction.now.seats }
    ensures steps { steps.new ≡ steps.old + 1 }
{
    steps.step();
    transaction.seats.answered(kind)
}

/// Whether each seat of the kind has voted or left, at the transaction of this id; none where that isn't known.
///
/// A step is a look-up among the transactions by an id, or a comparison of two numbers. Seats aren't gone over, so three
/// are enough for any number of them.
pub fn answered<const L: usize>(
    transactions: &Transactions,
    id: Id,
    kind: Kind,
    steps: &mut Steps<L>,
) -> Option<bool>
    requires { steps.old + 3 ≤ L }
    ensures answer { result
        ≡ option_map (λ t. answered kind t.seats) (find_by transaction_id id transactions.now) }
    ensures steps { steps.new ≤ steps.old + 3 }
{
    match looked_up(transactions, id, steps) {
        Some(transaction) => Some(compared(transaction, kind, steps)),
        None => None,
    }
}
