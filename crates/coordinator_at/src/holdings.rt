//! How much transactions hold that may wait for an answer.

ghost use Rattle.std.specs.Prelude.{◌≡◌, ◌-◌, ◌^◌, min};
ghost use Rattle.coordinator_at.specs.Holdings.{completions_held, links_held, transaction_held, transactions_held};

use by_id::place::Items;
use transaction_at::transaction::{Completion, Superior, Transaction};

fn completions_held(completion: &Option<Completion>) -> u64
    ensures { result ≡ completions_held completion.now }
{
    match completion {
        Some(_) => 1,
        None => 0,
    }
}

fn links_held(superior: &Option<Superior>) -> u64
    ensures { result ≡ links_held superior.now }
{
    match superior {
        Some(_) => 2,
        None => 0,
    }
}

/// Its seats, its completion seat and its links.
fn transaction_held(transaction: &Transaction) -> u64
    ensures { result ≡ min (transaction_held transaction.now) (2 ^ 64 - 1) }
{
    let seats = transaction.seats.as_slice().len() as u64;
    seats
        .saturating_add(completions_held(&transaction.completion))
        .saturating_add(links_held(&transaction.superior))
}

/// What these transactions hold.
pub fn all_held(transactions: Items<'_, Transaction>) -> u64
    ensures { result ≡ min (transactions_held transactions.entry) (2 ^ 64 - 1) }
{
    let mut held = 0u64;
    for transaction in transactions {
        held = held.saturating_add(transaction_held(transaction));
    }
    held
}
