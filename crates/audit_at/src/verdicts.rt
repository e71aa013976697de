//! What journals say together.

ghost use Rattle.std.specs.Prelude.{◌≡◌, IfOk, length};
ghost use Rattle.std.specs.Option.{option_map};
ghost use Rattle.std.specs.Ordering.{nat_cmp, ordering_then};
ghost use Rattle.audit_at.specs.Verdicts.{AgreedIsWhole, aborted_tops, committed_tops, cycles, is_among, least, lesser, rank, split_or_agreed, splits, verdict_of};

use crate::item::Item;
use crate::log::Log;
use crate::outcome::Outcome;
use crate::outcomes::outcomes;
use crate::subordinate::Subordinate;
use crate::superiors::{comes_back, is_item, subordinates};
use crate::verdict::Verdict;
use at_base::id::Id;
use std::alloc::{AllocError, Global};
use std::cmp::Ordering;

/// How an id stands to another.
fn rank_ids(a: Id, b: Id) -> Ordering
    ensures { result ≡ ordering_then (nat_cmp a.incarnation b.incarnation) (nat_cmp a.counter b.counter) }
{
    match a.incarnation().cmp(&b.incarnation()) {
        Ordering::Equal => a.counter().cmp(&b.counter()),
        other => other,
    }
}

/// How an item stands to another: by the bytes of their bases, then by their ids.
fn rank(a: &Item, b: &Item) -> Ordering
    ensures { result ≡ rank a.now b.now }
{
    match a.base.as_str().cmp(b.base.as_str()) {
        Ordering::Equal => rank_ids(a.id, b.id),
        other => other,
    }
}

fn lesser<'a>(least: Option<&'a Item>, item: &'a Item) -> &'a Item
    ensures { result.now ≡ lesser (option_map (λ l. l.now) least.entry) item.now }
{
    match least {
        Some(least) => {
            if rank(item, least).is_lt() {
                item
            } else {
                least
            }
        }
        None => item,
    }
}

/// The least item whose superiors come back to it.
fn least_cycle(subs: &[Subordinate]) -> Option<&Item>
    ensures { option_map (λ l. l.now) result ≡ least (cycles subs.now) }
{
    let mut least = None;
    for sub in subs {
        if comes_back(subs, &sub.item) {
            least = Some(lesser(least, &sub.item));
        }
    }
    least
}

/// Whether an outcome under this top is aborted.
fn is_aborted(outcomes: &[Outcome], top: &Item) -> bool
    ensures { result ≡ is_among (aborted_tops outcomes.now) top.now }
{
    for outcome in outcomes {
        if !outcome.committed && is_item(&outcome.top, top) {
            return true;
        }
    }
    false
}

/// The least top under which one outcome is committed and another aborted.
fn least_split(outcomes: &[Outcome]) -> Option<&Item>
    ensures { option_map (λ l. l.now) result ≡ least (splits outcomes.now) }
{
    let mut least = None;
    for outcome in outcomes {
        if outcome.committed && is_aborted(outcomes, &outcome.top) {
            least = Some(lesser(least, &outcome.top));
        }
    }
    least
}

fn count_committed(outcomes: &[Outcome]) -> u64
    ensures { result ≡ length (committed_tops outcomes.now) }
{
    let mut count = 0;
    for outcome in outcomes {
        if outcome.committed {
            count += 1;
        }
    }
    count
}

fn count_aborted(outcomes: &[Outcome]) -> u64
    ensures { result ≡ length (aborted_tops outcomes.now) }
{
    let mut count = 0;
    for outcome in outcomes {
        if !outcome.committed {
            count += 1;
        }
    }
    count
}

fn split_or_agreed(outcomes: &[Outcome]) -> Result<Verdict, AllocError>
    ensures { IfOk result (λ verdict. verdict ≡ split_or_agreed outcomes.now (least (splits outcomes.now))) }
{
    match least_split(outcomes) {
        Some(top) => Ok(Verdict::Split {
            base: top.base.clone()?,
            id: top.id,
        }),
        None => Ok(Verdict::Agreed {
            committed: count_committed(outcomes),
            aborted: count_aborted(outcomes),
        }),
    }
}

/// What these say together: the least item whose superiors come back to it, else the least top under which outcomes differ, else
/// that they agree.
pub fn verdict_of(alloc: Global, logs: &[Log]) -> Result<Verdict, AllocError>
    ensures { IfOk result (λ verdict. verdict ≡ verdict_of logs.now) }
{
    let subs = subordinates(alloc, logs)?;
    if let Some(item) = least_cycle(subs.as_slice()) {
        return Ok(Verdict::Cycle {
            base: item.base.clone()?,
            id: item.id,
        });
    }
    let all = outcomes(alloc, subs.as_slice(), logs)?;
    split_or_agreed(all.as_slice())
}

/// Where outcomes agree, no two under one top differ.
pub fn agreed_is_whole()
    ensures { AgreedIsWhole }
{}
