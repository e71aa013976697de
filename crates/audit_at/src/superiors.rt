//! The superiors of transactions that voted.

ghost use Rattle.std.specs.Prelude.{◌≡◌, ◌++◌, ◌∷◌, [], IfOk, OnOk};
ghost use Rattle.std.specs.Option.{option_map};
ghost use Rattle.audit_at.specs.Superiors.{comes_back, is_item, subordinate_at, subordinates, subordinates_in, superior_of, top_of};

use crate::item::Item;
use crate::log::Log;
use crate::named::named;
use crate::records::any_voted;
use crate::subordinate::Subordinate;
use at_base::id::Id;
use at_base::record::Record;
use at_base::text::Text;
use by_id::list::is_same;
use std::alloc::{AllocError, Global};

/// Whether two items are the same.
pub(crate) fn is_item(a: &Item, b: &Item) -> bool
    ensures { result ≡ is_item a.now b.now }
{
    a.base.as_str() == b.base.as_str() && is_same(a.id, b.id)
}

/// The superior of an item, where it voted for one that an address names.
fn superior_of<'a>(subs: &'a [Subordinate], item: &Item) -> Option<&'a Item>
    ensures { option_map (λ up. up.now) result ≡ superior_of subs.now item.now }
{
    for sub in subs {
        if is_item(&sub.item, item) {
            return sub.superior.as_ref();
        }
    }
    None
}

/// The item at the top of an item's superiors.
#[tactic(auto, using(crate::proofs::Ways::climbs, crate::proofs::Ways::stays))]
pub(crate) fn top_of<'a>(subs: &'a [Subordinate], item: &'a Item) -> &'a Item
    ensures { result.now ≡ top_of subs.now item.now }
{
    let mut at = item;
    let mut left = subs.len();
    while left > 0 {
        match superior_of(subs, at) {
            Some(up) => at = up,
            None => return at,
        }
        left -= 1;
    }
    at
}

/// Whether an item's superiors come back to it.
#[tactic(auto, using(crate::proofs::Ways::goes_on, crate::proofs::Ways::arrives, crate::proofs::Ways::ends))]
pub(crate) fn comes_back(subs: &[Subordinate], item: &Item) -> bool
    ensures { result ≡ comes_back subs.now item.now }
{
    let mut at = item;
    let mut left = subs.len();
    while left > 0 {
        let Some(up) = superior_of(subs, at) else {
            return false;
        };
        if is_item(up, item) {
            return true;
        }
        at = up;
        left -= 1;
    }
    false
}

fn push(
    subs: &mut Vec<Subordinate>,
    base: &Text,
    id: Id,
    superior: Option<Item>,
) -> Result<(), AllocError>
    ensures { OnOk result (subs.new.items ≡ subs.old.items ++ record { item = record { base = base.now; id = id }; superior = superior } ∷ []) }
{
    let item = Item {
        base: base.clone()?,
        id,
    };
    subs.push(Subordinate { item, superior })?;
    Ok(())
}

/// Adds the transaction that votes by this record, unless it votes again behind it.
fn add_one(
    alloc: Global,
    subs: &mut Vec<Subordinate>,
    base: &Text,
    entry: &Record,
    rest: &[Record],
) -> Result<(), AllocError>
    ensures { OnOk result (subs.new.items ≡ subs.old.items ++ subordinate_at base.now entry.now rest.now) }
{
    match entry {
        Record::Voted { id, superior, .. } => {
            if any_voted(rest, *id) {
                return Ok(());
            }
            let superior = named(alloc, superior.address.as_str())?;
            push(subs, base, *id, superior)
        }
        _ => Ok(()),
    }
}

/// Adds those that voted by these records.
#[tactic(auto, using(crate::proofs::Pushes::moved))]
fn add_all(
    alloc: Global,
    subs: &mut Vec<Subordinate>,
    base: &Text,
    entries: &[Record],
) -> Result<(), AllocError>
    ensures { OnOk result (subs.new.items ≡ subs.old.items ++ subordinates_in base.now entries.now) }
{
    let mut rest = entries;
    while let Some((entry, behind)) = rest.split_first() {
        add_one(alloc, subs, base, entry, behind)?;
        rest = behind;
    }
    Ok(())
}

/// All that voted.
#[tactic(auto, using(crate::proofs::Pushes::moved))]
pub(crate) fn subordinates(alloc: Global, logs: &[Log]) -> Result<Vec<Subordinate>, AllocError>
    ensures { IfOk result (λ subs. subs.items ≡ subordinates logs.now) }
{
    let mut subs = Vec::new(alloc);
    for log in logs {
        add_all(alloc, &mut subs, log.base(), log.records())?;
    }
    Ok(subs)
}
