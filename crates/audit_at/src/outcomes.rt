//! The outcomes that journals record.

ghost use Rattle.std.specs.Prelude.{◌≡◌, ◌++◌, ◌∷◌, [], IfOk, OnOk};
ghost use Rattle.audit_at.specs.Outcomes.{ended, leaf_outcomes, outcomes_at, outcomes_in, outcomes_under, root_outcomes, vote_outcomes};

use crate::item::Item;
use crate::log::Log;
use crate::named::named;
use crate::outcome::Outcome;
use crate::records::{
    any_ended, any_leaf_aborted, any_leaf_committed, any_leaf_prepared, any_root_committed,
    any_sub_committed, any_voted,
};
use crate::subordinate::Subordinate;
use crate::superiors::top_of;
use at_base::epr::Epr;
use at_base::id::Id;
use at_base::record::Record;
use at_base::text::Text;
use std::alloc::{AllocError, Global};

fn push(outcomes: &mut Vec<Outcome>, top: &Item, committed: bool) -> Result<(), AllocError>
    ensures { OnOk result (outcomes.new.items ≡ outcomes.old.items ++ record { top = top.now; committed = committed } ∷ []) }
{
    let top = top.clone()?;
    outcomes.push(Outcome { top, committed })?;
    Ok(())
}

/// Adds what ended so, under a top.
fn add_ended(
    outcomes: &mut Vec<Outcome>,
    top: &Item,
    committed: bool,
    aborted: bool,
) -> Result<(), AllocError>
    ensures { OnOk result (outcomes.new.items ≡ outcomes.old.items ++ ended top.now committed aborted) }
{
    if committed {
        push(outcomes, top, true)?;
    }
    if aborted {
        push(outcomes, top, false)?;
    }
    Ok(())
}

fn item_at(base: &Text, id: Id) -> Result<Item, AllocError>
    ensures { IfOk result (λ item. item ≡ record { base = base.now; id = id }) }
{
    Ok(Item {
        base: base.clone()?,
        id,
    })
}

/// Adds how a leaf ended, by what is recorded behind it.
fn add_leaf(
    alloc: Global,
    outcomes: &mut Vec<Outcome>,
    subs: &[Subordinate],
    leaf: &Item,
    coordinator: &Epr,
    rest: &[Record],
) -> Result<(), AllocError>
    ensures { OnOk result (outcomes.new.items ≡ outcomes.old.items ++ leaf_outcomes subs.now leaf.now coordinator.now rest.now) }
{
    if any_leaf_prepared(rest, leaf.id) {
        return Ok(());
    }
    let committed = any_leaf_committed(rest, leaf.id);
    let aborted = any_leaf_aborted(rest, leaf.id);
    match named(alloc, coordinator.address.as_str())? {
        Some(superior) => add_ended(outcomes, top_of(subs, &superior), committed, aborted),
        None => add_ended(outcomes, leaf, committed, aborted),
    }
}

/// Adds how a subordinate ended, by what is recorded behind its vote.
fn add_subordinate(
    outcomes: &mut Vec<Outcome>,
    subs: &[Subordinate],
    item: &Item,
    rest: &[Record],
) -> Result<(), AllocError>
    ensures { OnOk result (outcomes.new.items ≡ outcomes.old.items ++ vote_outcomes subs.now item.now rest.now) }
{
    if any_voted(rest, item.id) {
        return Ok(());
    }
    let committed = any_sub_committed(rest, item.id);
    let aborted = !committed && any_ended(rest, item.id);
    add_ended(outcomes, top_of(subs, item), committed, aborted)
}

/// Adds that a root committed, unless that is recorded again.
fn add_root(
    outcomes: &mut Vec<Outcome>,
    subs: &[Subordinate],
    item: &Item,
    rest: &[Record],
) -> Result<(), AllocError>
    ensures { OnOk result (outcomes.new.items ≡ outcomes.old.items ++ root_outcomes subs.now item.now rest.now) }
{
    if any_root_committed(rest, item.id) {
        return Ok(());
    }
    add_ended(outcomes, top_of(subs, item), true, false)
}

/// Adds what a record says with those behind it.
fn add_one(
    alloc: Global,
    outcomes: &mut Vec<Outcome>,
    subs: &[Subordinate],
    base: &Text,
    entry: &Record,
    rest: &[Record],
) -> Result<(), AllocError>
    ensures { OnOk result (outcomes.new.items ≡ outcomes.old.items ++ outcomes_at subs.now base.now entry.now rest.now) }
{
    match entry {
        Record::LeafPrepared {
            id,
            coordinator,
            ..
        } => {
            let leaf = item_at(base, *id)?;
            add_leaf(alloc, outcomes, subs, &leaf, coordinator, rest)
        }
        Record::Voted { id, .. } => {
            let item = item_at(base, *id)?;
            add_subordinate(outcomes, subs, &item, rest)
        }
        Record::Decided { id, .. } => {
            let item = item_at(base, *id)?;
            add_root(outcomes, subs, &item, rest)
        }
        Record::Done { id } => {
            let item = item_at(base, *id)?;
            add_root(outcomes, subs, &item, rest)
        }
        _ => Ok(()),
    }
}

/// Adds what these records say.
#[tactic(auto, using(crate::proofs::Pushes::moved))]
fn add_all(
    alloc: Global,
    outcomes: &mut Vec<Outcome>,
    subs: &[Subordinate],
    base: &Text,
    entries: &[Record],
) -> Result<(), AllocError>
    ensures { OnOk result (outcomes.new.items ≡ outcomes.old.items ++ outcomes_in subs.now base.now entries.now) }
{
    let mut rest = entries;
    while let Some((entry, behind)) = rest.split_first() {
        add_one(alloc, outcomes, subs, base, entry, behind)?;
        rest = behind;
    }
    Ok(())
}

/// Each item's outcomes, each once.
#[tactic(auto, using(crate::proofs::Pushes::moved))]
pub(crate) fn outcomes(
    alloc: Global,
    subs: &[Subordinate],
    logs: &[Log],
) -> Result<Vec<Outcome>, AllocError>
    ensures { IfOk result (λ all. all.items ≡ outcomes_under subs.now logs.now) }
{
    let mut outcomes = Vec::new(alloc);
    for log in logs {
        add_all(alloc, &mut outcomes, subs, log.base(), log.records())?;
    }
    Ok(outcomes)
}
