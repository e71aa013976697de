//! What a record says of the item of an id.

ghost use Rattle.std.specs.Prelude.{◌≡◌};
ghost use Rattle.std.specs.List.{list_any};
ghost use Rattle.at_model.specs.Recovery.{is_ended, is_leaf_prepared, is_sub_committed, is_voted};
ghost use Rattle.audit_at.specs.Outcomes.{is_leaf_aborted, is_leaf_committed, is_root_committed};

use at_base::id::Id;
use at_base::record::Record;
use by_id::list::is_same;

fn is_leaf_prepared(id: Id, entry: &Record) -> bool
    ensures { result ≡ is_leaf_prepared id entry.now }
{
    match entry {
        Record::LeafPrepared { id: other, .. } => is_same(*other, id),
        _ => false,
    }
}

fn is_leaf_committed(id: Id, entry: &Record) -> bool
    ensures { result ≡ is_leaf_committed id entry.now }
{
    match entry {
        Record::LeafCommitted { id: other } => is_same(*other, id),
        _ => false,
    }
}

fn is_leaf_aborted(id: Id, entry: &Record) -> bool
    ensures { result ≡ is_leaf_aborted id entry.now }
{
    match entry {
        Record::LeafAborted { id: other } => is_same(*other, id),
        _ => false,
    }
}

fn is_voted(id: Id, entry: &Record) -> bool
    ensures { result ≡ is_voted id entry.now }
{
    match entry {
        Record::Voted { id: other, .. } => is_same(*other, id),
        _ => false,
    }
}

fn is_sub_committed(id: Id, entry: &Record) -> bool
    ensures { result ≡ is_sub_committed id entry.now }
{
    match entry {
        Record::SubCommitted { id: other } => is_same(*other, id),
        _ => false,
    }
}

fn is_ended(id: Id, entry: &Record) -> bool
    ensures { result ≡ is_ended id entry.now }
{
    match entry {
        Record::Ended { id: other } => is_same(*other, id),
        _ => false,
    }
}

fn is_root_committed(id: Id, entry: &Record) -> bool
    ensures { result ≡ is_root_committed id entry.now }
{
    match entry {
        Record::Decided { id: other, .. } => is_same(*other, id),
        Record::Done { id: other } => is_same(*other, id),
        _ => false,
    }
}

/// Whether the leaf is prepared in one of these.
pub(crate) fn any_leaf_prepared(entries: &[Record], id: Id) -> bool
    ensures { result ≡ list_any (is_leaf_prepared id) entries.now }
{
    entries.iter().any(|entry| is_leaf_prepared(id, entry))
}

/// Whether the leaf commits in one of these.
pub(crate) fn any_leaf_committed(entries: &[Record], id: Id) -> bool
    ensures { result ≡ list_any (is_leaf_committed id) entries.now }
{
    entries.iter().any(|entry| is_leaf_committed(id, entry))
}

/// Whether the leaf aborts in one of these.
pub(crate) fn any_leaf_aborted(entries: &[Record], id: Id) -> bool
    ensures { result ≡ list_any (is_leaf_aborted id) entries.now }
{
    entries.iter().any(|entry| is_leaf_aborted(id, entry))
}

/// Whether the transaction votes in one of these.
pub(crate) fn any_voted(entries: &[Record], id: Id) -> bool
    ensures { result ≡ list_any (is_voted id) entries.now }
{
    entries.iter().any(|entry| is_voted(id, entry))
}

/// Whether the subordinate commits in one of these.
pub(crate) fn any_sub_committed(entries: &[Record], id: Id) -> bool
    ensures { result ≡ list_any (is_sub_committed id) entries.now }
{
    entries.iter().any(|entry| is_sub_committed(id, entry))
}

/// Whether the transaction ends in one of these.
pub(crate) fn any_ended(entries: &[Record], id: Id) -> bool
    ensures { result ≡ list_any (is_ended id) entries.now }
{
    entries.iter().any(|entry| is_ended(id, entry))
}

/// Whether the root commits in one of these.
pub(crate) fn any_root_committed(entries: &[Record], id: Id) -> bool
    ensures { result ≡ list_any (is_root_committed id) entries.now }
{
    entries.iter().any(|entry| is_root_committed(id, entry))
}
