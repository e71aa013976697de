//! One record more: what it ends goes, and what it promises stands behind the others.

ghost use Rattle.std.specs.Prelude.{◌≡◌, ◌≤◌, ◌<◌, not, filter, length, vec_capacity};
ghost use Rattle.std.specs.List.{list_any};
ghost use Rattle.at_model.specs.Recovery.{ends_leaf, ends_transaction, incarnation_of};
ghost use Rattle.decision_log.specs.KeptRecords.{frees, freed, is_commit_of, is_vote_of, stays};
ghost use Rattle.decision_log.specs.Tokens.{token_of};

use crate::kept::Kept;
use crate::token::{Durable, What};
use at_base::id::Id;
use at_base::record::Record;
use by_id::list::{is_before, is_same};
use outcomes_at::outcomes::Outcomes;
use std::alloc::{AllocError, Global};

/// Whether a record ends a prepared leaf of this id.
#[tactic(auto, using(crate::proofs::TestChains::or_none))]
fn ends_leaf(id: Id, entry: &Record) -> bool
    ensures { result ≡ ends_leaf id entry.now }
{
    match entry {
        Record::LeafCommitted { id: other }
        | Record::LeafAborted { id: other }
        | Record::LeafPrepared { id: other, .. }
        | Record::Voted { id: other, .. }
        | Record::Decided { id: other, .. } => is_same(*other, id),
        Record::Start { .. }
        | Record::SubCommitted { .. }
        | Record::Ended { .. }
        | Record::Done { .. } => false,
    }
}

/// Whether a record ends a vote or a decision of this id.
#[tactic(auto, using(crate::proofs::TestChains::or_none))]
pub(crate) fn ends_transaction(id: Id, entry: &Record) -> bool
    ensures { result ≡ ends_transaction id entry.now }
{
    match entry {
        Record::Ended { id: other }
        | Record::LeafPrepared { id: other, .. }
        | Record::Voted { id: other, .. }
        | Record::Decided { id: other, .. } => is_same(*other, id),
        Record::Start { .. }
        | Record::LeafCommitted { .. }
        | Record::LeafAborted { .. }
        | Record::SubCommitted { .. }
        | Record::Done { .. } => false,
    }
}

/// Whether a record ends the one that the token is of.
fn frees(entry: &Record, token: &Durable) -> bool
    ensures { result ≡ frees entry.now token.now }
{
    match token.what() {
        What::LeafPrepared => ends_leaf(token.id(), entry),
        What::Voted | What::Decided | What::SubCommitted => ends_transaction(token.id(), entry),
        What::Start | What::LeafCommitted | What::LeafAborted | What::Ended | What::Done => false,
    }
}

/// Whether a record ends another one.
fn ends(entry: &Record, other: &Record) -> bool
    ensures { result ≡ frees entry.now (token_of other.now) }
{
    match other {
        Record::LeafPrepared { id, .. } => ends_leaf(*id, entry),
        Record::Voted { id, .. } | Record::Decided { id, .. } | Record::SubCommitted { id } => {
            ends_transaction(*id, entry)
        }
        Record::Start { .. }
        | Record::LeafCommitted { .. }
        | Record::LeafAborted { .. }
        | Record::Ended { .. }
        | Record::Done { .. } => false,
    }
}

fn is_vote(token: &Durable, id: Id) -> bool
    ensures { result ≡ is_vote_of id token.now }
{
    match token.what() {
        What::Voted => is_same(token.id(), id),
        _ => false,
    }
}

fn is_commit(token: &Durable, id: Id) -> bool
    ensures { result ≡ is_commit_of id token.now }
{
    match token.what() {
        What::SubCommitted => is_same(token.id(), id),
        _ => false,
    }
}

fn has_vote(tokens: &[Durable], id: Id) -> bool
    ensures { result ≡ list_any (is_vote_of id) tokens.now }
{
    for token in tokens {
        if is_vote(token, id) {
            return true;
        }
    }
    false
}

fn has_commit(tokens: &[Durable], id: Id) -> bool
    ensures { result ≡ list_any (is_commit_of id) tokens.now }
{
    for token in tokens {
        if is_commit(token, id) {
            return true;
        }
    }
    false
}

/// Whether a record is live beside those of these tokens.
pub(crate) fn stays(entry: &Record, tokens: &[Durable]) -> bool
    ensures { result ≡ stays entry.now tokens.now }
{
    match entry {
        Record::LeafPrepared { .. } | Record::Voted { .. } => true,
        Record::Decided { seats, .. } => !seats.as_slice().is_empty(),
        Record::SubCommitted { id } => has_vote(tokens, *id) && !has_commit(tokens, *id),
        Record::Start { .. }
        | Record::LeafCommitted { .. }
        | Record::LeafAborted { .. }
        | Record::Ended { .. }
        | Record::Done { .. } => false,
    }
}

/// The incarnation of a Start or of a record's id.
pub(crate) fn incarnation_of(entry: &Record) -> u32
    ensures { result ≡ incarnation_of entry.now }
{
    match entry {
        Record::Start { incarnation } => *incarnation,
        Record::LeafPrepared { id, .. }
        | Record::LeafCommitted { id }
        | Record::LeafAborted { id }
        | Record::Voted { id, .. }
        | Record::Decided { id, .. }
        | Record::SubCommitted { id }
        | Record::Ended { id }
        | Record::Done { id } => id.incarnation(),
    }
}

pub(crate) fn free_records(live: &mut Vec<Record>, entry: &Record)
    ensures items { live.new.items ≡ freed entry.now live.old.items }
    ensures room { vec_capacity live.old ≤ vec_capacity live.new }
    ensures few { length live.new.items ≤ length live.old.items }
{
    live.retain(|other| !ends(entry, other));
}

pub(crate) fn free_tokens(tokens: &mut Vec<Durable>, entry: &Record)
    ensures items { tokens.new.items ≡ filter (λ t. not (frees entry.now t)) tokens.old.items }
    ensures room { vec_capacity tokens.old ≤ vec_capacity tokens.new }
    ensures few { length tokens.new.items ≤ length tokens.old.items }
{
    tokens.retain(|token| !frees(entry, token));
}
