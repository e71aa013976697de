//! The outcomes that a node keeps: its last roots that committed, for initiators that ask again.

ghost use Rattle.std.specs.Prelude.{◌≡◌, ◌++◌, ◌∷◌, ◌≤◌, ◌-◌, [], IfOk, filter, length, not, vec_capacity};
ghost use Rattle.at_base.specs.declared.limits.TheConstants.{MOST_OUTCOMES};
ghost use Rattle.at_model.specs.Book.{is_id};
ghost use Rattle.at_model.specs.Outcomes.{is_kept, newest, put_last, with_outcome};

use at_base::id::Id;
use at_base::limits::MOST_OUTCOMES;
use at_base::record::Record;
use by_id::list::is_same;
use std::alloc::{AllocError, Global};
use std::marker::Model;

/// The ids of the last roots that committed, the newest last, with room for as many as are kept.
#[derive(Drop)]
pub struct Outcomes {
    ids: Vec<Id>,
}

impl Model for Outcomes {
    ghost use Rattle.std.specs.Prelude.{List, ◌≤◌, length};
    ghost use Rattle.std.specs.Vec.{vec_capacity};
    ghost use Rattle.at_base.specs.Numbers.{Numbers};
    ghost use Rattle.at_base.specs.declared.limits.TheConstants.{MOST_OUTCOMES};

    ghost Value = { List Numbers };

    ghost view = { λ o. o.ids.items };

    ghost invariant = { λ o. (MOST_OUTCOMES ≤ vec_capacity o.ids) × (length o.ids.items ≤ MOST_OUTCOMES) };
}

/// Whether the id is one of these.
fn has_id(ids: &[Id], id: Id) -> bool
    ensures { result ≡ is_kept id ids.now }
{
    for kept in ids {
        if is_same(*kept, id) {
            return true;
        }
    }
    false
}

/// Takes an id out.
fn take_out(ids: &mut Vec<Id>, id: Id)
    ensures items { ids.new.items ≡ filter (λ i. not (is_id i id)) ids.old.items }
    ensures room { vec_capacity ids.old ≤ vec_capacity ids.new }
    ensures few { length ids.new.items ≤ length ids.old.items }
{
    ids.retain(|kept| !is_same(*kept, id));
}

/// Puts an id behind the others; where they are as many as are kept, the first goes.
fn put_behind(ids: &mut Vec<Id>, id: Id)
    requires room { MOST_OUTCOMES ≤ vec_capacity ids.old }
    requires few { length ids.old.items ≤ MOST_OUTCOMES }
    ensures items { ids.new.items ≡ newest (ids.old.items ++ id ∷ []) }
    ensures room { MOST_OUTCOMES ≤ vec_capacity ids.new }
    ensures few { length ids.new.items ≤ MOST_OUTCOMES }
{
    if ids.len() >= MOST_OUTCOMES {
        ids.remove(0);
    }
    if ids.push(id).is_err() {}
}

impl Outcomes {
    /// None, and room for as many as are kept.
    pub fn new(alloc: Global) -> Result<Outcomes, AllocError>
        ensures { IfOk result (λ outcomes. outcomes ≡ []) }
    {
        Ok(Outcomes {
            ids: Vec::with_capacity(alloc, MOST_OUTCOMES)?,
        })
    }

    /// The newest of these, as many as are kept.
    pub fn newest_of(alloc: Global, ids: &[Id]) -> Result<Outcomes, AllocError>
        ensures { IfOk result (λ outcomes. outcomes ≡ newest ids.now) }
    {
        let mut kept = Vec::with_capacity(alloc, MOST_OUTCOMES)?;
        let (_, last) = ids.split_at(ids.len().saturating_sub(MOST_OUTCOMES));
        kept.extend_from_slice(last)?;
        Ok(Outcomes { ids: kept })
    }

    /// The ids, the newest last.
    pub fn as_slice(&self) -> &[Id]
        ensures { result.now ≡ self.now }
    {
        self.ids.as_slice()
    }

    /// Whether the root of this id committed, as far as it is kept.
    pub fn has(&self, id: Id) -> bool
        ensures { result ≡ is_kept id self.now }
    {
        has_id(self.ids.as_slice(), id)
    }

    /// The id stands last.
    fn put(&mut self, id: Id)
        ensures { self.new ≡ put_last id self.old }
    {
        take_out(&mut self.ids, id);
        put_behind(&mut self.ids, id);
    }

    /// Takes a record over that stands in the journal. It takes no memory.
    pub fn note(&mut self, entry: &Record)
        ensures { self.new ≡ with_outcome entry.now self.old }
    {
        match entry {
            Record::Decided { id, .. } | Record::Done { id } => self.put(*id),
            Record::Start { .. }
            | Record::LeafPrepared { .. }
            | Record::LeafCommitted { .. }
            | Record::LeafAborted { .. }
            | Record::Voted { .. }
            | Record::SubCommitted { .. }
            | Record::Ended { .. } => {}
        }
    }
}
