//! Transactions that voted.

use crate::item::Item;

/// A transaction that voted, and the one that it voted to. None where the endpoint that the vote was for names no transaction.
#[derive(Debug, Drop)]
pub struct Subordinate {
    pub item: Item,
    pub superior: Option<Item>,
}
