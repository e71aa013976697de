//! Items of nodes.

use at_base::id::Id;
use at_base::text::Text;
use std::alloc::AllocError;

/// A transaction or a leaf: the base of its node, and its id there.
#[derive(Debug, PartialEq, Eq)]
pub struct Item {
    pub base: Text,
    pub id: Id,
}

impl Drop for Item {
    fn drop(self) {
        let Item {
            base: _base,
            id: _id,
        } = self;
    }
}

impl Clone for Item {
    ghost use Rattle.std.specs.Prelude.{◌≡◌};

    ghost is_clone = { λ item copy. copy ≡ item };

    fn clone(&self) -> Result<Item, AllocError> {
        Ok(Item {
            base: self.base.clone()?,
            id: self.id,
        })
    }
}
