//! Outcomes.

use crate::item::Item;

/// What ended, by the transaction at its top, and whether it committed. Else it aborted.
#[derive(Debug, Drop)]
pub struct Outcome {
    pub top: Item,
    pub committed: bool,
}
