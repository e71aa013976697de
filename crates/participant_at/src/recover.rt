//! Leaves that a node's records keep alive.

ghost use Rattle.std.specs.Prelude.{◌≡◌, ◌∷◌, ◌++◌, IfOk, OnOk, []};
ghost use Rattle.at_model.specs.Recovery.{leaves_of, recovered_leaf};

use crate::leaf::Leaf;
use crate::leaves::Leaves;
use at_base::epr::Epr;
use at_base::id::Id;
use at_base::notice::{Kind, Vote};
use at_base::record::Record;
use at_base::text::Text;
use at_posts::kept::{kept, kept_text};
use at_tables::cells::State;
use std::alloc::{AllocError, Global};

/// A durable leaf that is prepared.
fn recovered_leaf(
    alloc: Global,
    id: Id,
    coordinator: &Epr,
    key: &Text,
    value: &Text,
) -> Result<Leaf, AllocError>
    ensures { IfOk result (λ leaf. leaf ≡ recovered_leaf id coordinator.now key.now value.now) }
{
    let coordinator = kept(alloc, coordinator)?;
    let key = kept_text(alloc, key)?;
    let value = kept_text(alloc, value)?;
    Ok(Leaf {
        id,
        kind: Kind::Durable,
        vote: Vote::Prepared,
        key,
        value,
        state: State::PreparedSuccess,
        coordinator: Some(coordinator),
        request: None,
        deadline: None,
        sent: None,
    })
}

/// The leaf of a live record.
fn push_recovered(alloc: Global, leaves: &mut Vec<Leaf>, entry: &Record) -> Result<(), AllocError>
    ensures { OnOk result (leaves.new.items ≡ leaves.old.items ++ leaves_of (entry.now ∷ [])) }
{
    if let Record::LeafPrepared {
        id,
        coordinator,
        key,
        value,
    } = entry
    {
        let leaf = recovered_leaf(alloc, *id, coordinator, key, value)?;
        leaves.push(leaf)?;
    }
    Ok(())
}

impl Leaves {
    /// The leaves that live records promise, in their order.
    pub fn recover(alloc: Global, live: &[Record]) -> Result<Leaves, AllocError>
        ensures { IfOk result (λ leaves. leaves ≡ leaves_of live.now) }
    {
        let mut leaves = Vec::new(alloc);
        for entry in live {
            push_recovered(alloc, &mut leaves, entry)?;
        }
        Leaves::from_vec(leaves)
    }
}
