//! A Kept, and what it lends.

ghost use Rattle.std.specs.Prelude.{◌≡◌, ◌≤◌, ◌<◌, true, false, IfOk, OnOk, length, option_copied, vec_capacity};
ghost use Rattle.std.specs.List.{insert};
ghost use Rattle.at_base.specs.WellFormed.{IsWellFormed};
ghost use Rattle.decision_log.specs.KeptState.{HasRoom, IsFound, IsLent, known};
ghost use Rattle.decision_log.specs.KeptRecords.{after, freed, insert_last, live_after, tokens_of, unknown};
ghost use Rattle.decision_log.specs.Places.{place_last};
ghost use Rattle.decision_log.specs.Tokens.{about, token_of};

use crate::further_record::{free_records, free_tokens, incarnation_of, stays};
use crate::kept::Kept;
use crate::token::{Durable, What};
use at_base::id::Id;
use at_base::record::Record;
use by_id::list::{is_before, is_same};
use outcomes_at::outcomes::Outcomes;
use std::alloc::{AllocError, Global};

/// How many tokens stand before the first of a greater id.
fn place_of(tokens: &[Durable], id: Id) -> usize
    ensures { result ≡ place_last id tokens.now }
{
    let mut place = 0;
    for token in tokens {
        if is_before(id, token.id()) {
            return place;
        }
        place += 1;
    }
    place
}

fn insert_record(live: &mut Vec<Record>, place: usize, entry: Record)
    requires place { place ≤ length live.old.items }
    requires room { length live.old.items < vec_capacity live.old }
    ensures { live.new.items ≡ insert live.old.items place entry }
{
    if live.insert(place, entry).is_err() {}
}

fn insert_token(tokens: &mut Vec<Durable>, place: usize, token: Durable)
    requires place { place ≤ length tokens.old.items }
    requires room { length tokens.old.items < vec_capacity tokens.old }
    ensures { tokens.new.items ≡ insert tokens.old.items place token }
{
    if tokens.insert(place, token).is_err() {}
}

/// Whether a token is that of this id and kind.
#[tactic(auto, using(crate::proofs::TokenSearch::is_that, crate::proofs::TokenSearch::other_id, crate::proofs::TokenSearch::other_kind))]
pub(crate) fn is_of(token: &Durable, id: Id, what: What) -> bool
    ensures yes { result ≡ true → token.now ≡ record { id = id; what = what } }
    ensures no { result ≡ false → token.now ≡ record { id = id; what = what } → ⊥ }
{
    if !is_same(token.id(), id) {
        return false;
    }
    token.what() == what
}

/// The token of this id and kind.
#[tactic(auto, using(crate::proofs::TokenSearch::found, crate::proofs::TokenSearch::none_more, crate::proofs::TokenSearch::none_all))]
fn find(tokens: &[Durable], id: Id, what: What) -> Option<&Durable>
    ensures { IsFound (option_copied result) (record { id = id; what = what }) tokens.now }
{
    for token in tokens {
        if is_of(token, id, what) {
            return Some(token);
        }
    }
    None
}

/// Takes out what a record ends.
#[tactic(auto, using(crate::proofs::TokenPlaces::both_freed))]
fn free_both(live: &mut Vec<Record>, tokens: &mut Vec<Durable>, entry: &Record)
    requires same { tokens.old.items ≡ tokens_of live.old.items }
    requires live { length live.old.items < vec_capacity live.old }
    requires tokens { length tokens.old.items < vec_capacity tokens.old }
    ensures items { live.new.items ≡ freed entry.now live.old.items }
    ensures same { tokens.new.items ≡ tokens_of live.new.items }
    ensures live { length live.new.items < vec_capacity live.new }
    ensures tokens { length tokens.new.items < vec_capacity tokens.new }
{
    free_records(live, entry);
    free_tokens(tokens, entry);
}

/// Puts a record and its token behind those that aren't greater.
fn insert_both(live: &mut Vec<Record>, tokens: &mut Vec<Durable>, entry: Record, token: Durable)
    requires same { tokens.old.items ≡ tokens_of live.old.items }
    requires token { token ≡ token_of entry }
    requires live { length live.old.items < vec_capacity live.old }
    requires tokens { length tokens.old.items < vec_capacity tokens.old }
    ensures items { live.new.items ≡ insert_last about entry live.old.items }
    ensures same { tokens.new.items ≡ tokens_of live.new.items }
{
    let place = place_of(tokens, token.id());
    insert_record(live, place, entry);
    insert_token(tokens, place, token);
}

/// What a record makes of the live ones and of their tokens.
#[tactic(auto, using(crate::proofs::TokenPlaces::stepped, crate::proofs::TokenPlaces::passed))]
fn step(live: &mut Vec<Record>, tokens: &mut Vec<Durable>, entry: Record, token: Durable)
    requires same { tokens.old.items ≡ tokens_of live.old.items }
    requires token { token ≡ token_of entry }
    requires live { length live.old.items < vec_capacity live.old }
    requires tokens { length tokens.old.items < vec_capacity tokens.old }
    ensures items { live.new.items ≡ live_after entry live.old.items }
    ensures same { tokens.new.items ≡ tokens_of live.new.items }
{
    let stays = stays(&entry, tokens);
    free_both(live, tokens, &entry);
    if stays {
        insert_both(live, tokens, entry, token);
    }
}

/// A record that a Kept has room for.
#[derive(Debug, Drop)]
pub struct KeptPlan {
    entry: Record,
}

impl KeptPlan {
    /// The record.
    pub fn entry(&self) -> &Record
        ensures { result.now ≡ self.now.entry }
    {
        &self.entry
    }
}

impl Kept {
    /// What is kept before anything was recorded.
    pub(crate) fn new(alloc: Global) -> Result<Kept, AllocError>
        ensures { IfOk result (λ k. known k ≡ unknown) }
    {
        let done = Outcomes::new(alloc)?;
        Ok(Kept {
            live: Vec::new(alloc),
            tokens: Vec::new(alloc),
            start: 0,
            done,
        })
    }

    /// The live records by rising id, a SubCommitted behind its Voted.
    pub fn live(&self) -> &[Record]
        ensures { result.now ≡ (known self.now).live }
    {
        self.live.as_slice()
    }

    /// The greatest incarnation of a Start or of a record's id, or 0.
    pub fn start(&self) -> u32
        ensures { result ≡ (known self.now).start }
    {
        self.start
    }

    /// The last roots that committed, the newest last.
    pub fn done(&self) -> &[Id]
        ensures { result.now ≡ (known self.now).done }
    {
        self.done.as_slice()
    }

    /// The token of the live record of this id and kind; none exactly where no such record is live.
    pub fn token(&self, id: Id, what: What) -> Option<&Durable>
        ensures { IsLent (option_copied result) (record { id = id; what = what }) (known self.now).live }
    {
        find(self.tokens.as_slice(), id, what)
    }

    /// Takes over a record that was read.
    pub(crate) fn take(&mut self, entry: Record) -> Result<(), AllocError>
        requires { IsWellFormed entry }
        ensures { OnOk result (known self.new ≡ after entry (known self.old)) }
    {
        self.live.reserve(1)?;
        self.tokens.reserve(1)?;
        let token = Durable::of(&entry);
        self.start = incarnation_of(&entry).max(self.start);
        self.done.note(&entry);
        step(&mut self.live, &mut self.tokens, entry, token);
        Ok(())
    }

    /// Makes room for a record and changes nothing else.
    pub fn plan(&mut self, entry: &Record) -> Result<KeptPlan, AllocError>
        ensures planned { IfOk result (λ p. p.entry ≡ entry.now) }
        ensures room { OnOk result (HasRoom self.new) }
        ensures same { known self.new ≡ known self.old }
    {
        let entry = entry.clone()?;
        self.live.reserve(1)?;
        self.tokens.reserve(1)?;
        Ok(KeptPlan { entry })
    }

    /// Takes a record over that was appended. It takes no memory.
    ///
    /// The plan is of this Kept, which wasn't changed since, and the token is the record's.
    pub fn apply(&mut self, plan: KeptPlan, token: Durable)
        requires token { token ≡ token_of plan.entry }
        requires room { HasRoom self.old }
        ensures { known self.new ≡ after plan.entry (known self.old) }
    {
        let KeptPlan { entry } = plan;
        self.start = incarnation_of(&entry).max(self.start);
        self.done.note(&entry);
        step(&mut self.live, &mut self.tokens, entry, token);
    }
}
