//! What a node is and holds, as JSON (RFC 8259).

ghost use Rattle.std.specs.Prelude.{◌≡◌, IfOk, map, option_map};
ghost use Rattle.node_at.specs.State.{seen};
ghost use Rattle.serde_json.specs.View.{view};
ghost use Rattle.status_pages.specs.Json.{activity_data, address_of, counts_data, initiator_data, is_awaited, journal_data, leaf_data, link_data, node_data, participant_data, superior_data, time_since, time_until, transaction_data};

use crate::words::{phase_word, progress_word, role_word};
use at_base::epr::Epr;
use at_tables::cells::State;
use by_id::place::Items;
use completion_at::activity::Activity;
use node_at::node::Node;
use node_at::role::Role;
use participant_at::leaf::Leaf;
use serde_json::{Value, json};
use shown_pages::page::Counts;
use std::alloc::{AllocError, Global};
use transaction_at::transaction::{Completion, Enlistment, Link, Superior, Transaction};

/// How long it is until then.
fn until(now: u64, at: Option<u128>) -> Value
    ensures { view result ≡ time_until now at }
{
    match at {
        Some(at) => {
            let left = at.saturating_sub(u128::from(now));
            Value::from(u64::try_from(left).unwrap_or(u64::MAX))
        }
        None => Value::Null,
    }
}

/// How long ago it was.
fn since(now: u64, at: Option<u64>) -> Value
    ensures { view result ≡ time_since now at }
{
    match at {
        Some(at) => Value::from(now.saturating_sub(at)),
        None => Value::Null,
    }
}

fn address(alloc: Global, endpoint: &Option<Epr>) -> Result<Value, AllocError>
    ensures { IfOk result (λ v. view v ≡ address_of endpoint.now) }
{
    match endpoint {
        Some(endpoint) => json!(in alloc; (endpoint.address.as_str())),
        None => Ok(Value::Null),
    }
}

/// Whether a node waits for who is in this state.
pub(crate) fn is_awaited(state: State) -> bool
    ensures { result ≡ is_awaited state }
{
    match state {
        State::Preparing | State::Committing | State::Aborting => true,
        State::None
        | State::Registering
        | State::Active
        | State::Prepared
        | State::PreparedSuccess
        | State::Completing
        | State::Done => false,
    }
}

#[tactic(auto, unfolding(crate::specs::Json::participant_data))]
fn participant(alloc: Global, seat: &Enlistment) -> Result<Value, AllocError>
    ensures { IfOk result (λ v. view v ≡ participant_data seat.now) }
{
    json!(in alloc; {
        "address": (seat.participant.address.as_str()),
        "awaited": (is_awaited(seat.state)),
        "kind": (seat.kind.name()),
        "number": (seat.number),
        "state": (seat.state.name())
    })
}

#[tactic(auto, unfolding(crate::specs::Json::initiator_data))]
fn initiator(alloc: Global, completion: &Option<Completion>) -> Result<Value, AllocError>
    ensures { IfOk result (λ v. view v ≡ initiator_data completion.now) }
{
    match completion {
        Some(completion) => json!(in alloc; {
            "address": (completion.initiator.address.as_str()),
            "state": (completion.state.name())
        }),
        None => Ok(Value::Null),
    }
}

#[tactic(auto, unfolding(crate::specs::Json::link_data))]
fn link(alloc: Global, link: &Link) -> Result<Value, AllocError>
    ensures { IfOk result (λ v. view v ≡ link_data link.now) }
{
    let address = address(alloc, &link.coordinator)?;
    json!(in alloc; { "address": address, "state": (link.state.name()) })
}

/// Where a subordinate is registered.
#[tactic(auto, unfolding(crate::specs::Json::superior_data))]
fn superior(alloc: Global, superior: &Option<Superior>) -> Result<Value, AllocError>
    ensures { IfOk result (λ v. view v ≡ superior_data superior.now) }
{
    match superior {
        Some(superior) => {
            let durable = link(alloc, &superior.durable)?;
            let volatile = link(alloc, &superior.volatile)?;
            json!(in alloc; { "durable": durable, "volatile": volatile })
        }
        None => Ok(Value::Null),
    }
}

#[tactic(auto, using(crate::proofs::Values::grown))]
fn participants(alloc: Global, seats: &[Enlistment]) -> Result<Vec<Value>, AllocError>
    ensures { IfOk result (λ values. map view values.items ≡ map participant_data seats.now) }
{
    let mut values = Vec::new(alloc);
    for seat in seats {
        values.push(participant(alloc, seat)?)?;
    }
    Ok(values)
}

#[tactic(auto, unfolding(crate::specs::Json::transaction_data))]
fn transaction(alloc: Global, now: u64, transaction: &Transaction) -> Result<Value, AllocError>
    ensures { IfOk result (λ v. view v ≡ transaction_data now transaction.now) }
{
    let id = format!(in alloc; "{}", transaction.id)?;
    let initiator = initiator(alloc, &transaction.completion)?;
    let participants = participants(alloc, transaction.seats.as_slice())?;
    let superior = superior(alloc, &transaction.superior)?;
    json!(in alloc; {
        "aborted_ago": (since(now, transaction.aborted)),
        "expires_in": (until(now, transaction.deadline)),
        "id": id,
        "identifier": (transaction.identifier.as_str()),
        "initiator": initiator,
        "participants": (Value::Array(participants)),
        "sent_ago": (since(now, transaction.sent)),
        "state": (phase_word(transaction.phase)),
        "superior": superior
    })
}

#[tactic(auto, unfolding(crate::specs::Json::leaf_data))]
fn leaf(alloc: Global, now: u64, leaf: &Leaf) -> Result<Value, AllocError>
    ensures { IfOk result (λ v. view v ≡ leaf_data now leaf.now) }
{
    let id = format!(in alloc; "{}", leaf.id)?;
    let coordinator = address(alloc, &leaf.coordinator)?;
    json!(in alloc; {
        "coordinator": coordinator,
        "expires_in": (until(now, leaf.deadline)),
        "id": id,
        "kind": (leaf.kind.name()),
        "sent_ago": (since(now, leaf.sent)),
        "state": (leaf.state.name()),
        "vote": (leaf.vote.name())
    })
}

#[tactic(auto, unfolding(crate::specs::Json::activity_data))]
fn activity(alloc: Global, now: u64, activity: &Activity) -> Result<Value, AllocError>
    ensures { IfOk result (λ v. view v ≡ activity_data now activity.now) }
{
    let id = format!(in alloc; "{}", activity.id)?;
    let root = format!(in alloc; "{}", activity.root)?;
    let coordinator = address(alloc, &activity.coordinator)?;
    json!(in alloc; {
        "coordinator": coordinator,
        "expires_in": (until(now, activity.deadline)),
        "id": id,
        "root": root,
        "sent_ago": (since(now, activity.sent)),
        "state": (progress_word(activity.progress)),
        "works": (activity.works)
    })
}

#[tactic(auto, using(crate::proofs::Values::grown))]
fn transactions(
    alloc: Global,
    now: u64,
    items: Items<'_, Transaction>,
) -> Result<Vec<Value>, AllocError>
    ensures { IfOk result (λ values. map view values.items ≡ map (transaction_data now) items.entry) }
{
    let mut values = Vec::new(alloc);
    for item in items {
        values.push(transaction(alloc, now, item)?)?;
    }
    Ok(values)
}

#[tactic(auto, using(crate::proofs::Values::grown))]
fn leaves(alloc: Global, now: u64, items: Items<'_, Leaf>) -> Result<Vec<Value>, AllocError>
    ensures { IfOk result (λ values. map view values.items ≡ map (leaf_data now) items.entry) }
{
    let mut values = Vec::new(alloc);
    for item in items {
        values.push(leaf(alloc, now, item)?)?;
    }
    Ok(values)
}

#[tactic(auto, using(crate::proofs::Values::grown))]
fn activities(alloc: Global, now: u64, items: Items<'_, Activity>) -> Result<Vec<Value>, AllocError>
    ensures { IfOk result (λ values. map view values.items ≡ map (activity_data now) items.entry) }
{
    let mut values = Vec::new(alloc);
    for item in items {
        values.push(activity(alloc, now, item)?)?;
    }
    Ok(values)
}

#[tactic(auto, unfolding(crate::specs::Json::counts_data))]
fn counted(alloc: Global, counts: &Counts) -> Result<Value, AllocError>
    ensures { IfOk result (λ v. view v ≡ counts_data counts.now) }
{
    json!(in alloc; {
        "answers_and_posts_lost": (counts.lost),
        "connections": (counts.taken),
        "requests_of_web_pages": (counts.foreign),
        "unread": (counts.unread)
    })
}

#[tactic(auto, unfolding(crate::specs::Json::journal_data))]
fn journal(alloc: Global, node: &Node) -> Result<Value, AllocError>
    ensures { IfOk result (λ v. view v ≡ journal_data (seen node.now)) }
{
    json!(in alloc; {
        "bytes": (node.journal().end()),
        "generation": (node.journal().generation()),
        "records": (node.kept().live().len())
    })
}

/// What a node is and holds.
#[tactic(auto, unfolding(crate::specs::Json::node_data))]
pub(crate) fn status(
    alloc: Global,
    role: Role,
    node: &Node,
    counts: &Counts,
) -> Result<Value, AllocError>
    ensures { IfOk result (λ v. view v ≡ node_data role (seen node.now) counts.now) }
{
    let book = node.book();
    let now = counts.clock;
    let activities = activities(alloc, now, book.activities())?;
    let counts_of = counted(alloc, counts)?;
    let journal = journal(alloc, node)?;
    let leaves = leaves(alloc, now, book.leaves())?;
    let transactions = transactions(alloc, now, book.transactions())?;
    json!(in alloc; {
        "activities": (Value::Array(activities)),
        "base": (book.base().as_str()),
        "counts": counts_of,
        "incarnation": (node.incarnation()),
        "journal": journal,
        "leaves": (Value::Array(leaves)),
        "role": (role_word(role)),
        "transactions": (Value::Array(transactions)),
        "up": (counts.up)
    })
}
