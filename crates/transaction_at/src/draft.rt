//! A transaction on its way through a step: lent, with what is changed of it so far.

ghost use Rattle.std.specs.Prelude.{◌≡◌, ◌∷◌, [], IfOk, OnOk, Some};
ghost use Rattle.std.specs.List.{list_any};
ghost use Rattle.at_tables.specs.declared.cells.State.TheVariants as states;
ghost use Rattle.at_model.specs.Moves.{begin, become, effect, forgotten, posts, stays};
ghost use Rattle.at_model.specs.Seats.{all_left, answered, ending, in_phase, in_state, is_prepared_durable, prepared, seat_in, under};
ghost use Rattle.transaction_at.specs.Groups.{belongs};
ghost use Rattle.transaction_at.specs.Moves.{drafted, onto, seats_behind, turn_of};
ghost use Rattle.transaction_at.specs.PhaseNames.{phase_of};

use crate::links::ending_of;
use crate::moves::{Changed, Move, SeatMove};
use crate::seats::{Group, PREPARED_DURABLE, has_any, prepared};
use crate::transaction::{Completion, Phase, Superior, Transaction};
use at_base::id::Id;
use at_base::notice::Kind;
use at_base::outs::{Effect, Effects, Ending};
use at_base::record::Seats;
use at_posts::list::PostList;
use at_tables::cells::State;
use by_id::fates::{Fate, Turn};
use std::alloc::{AllocError, Global};
use std::marker::Model;

/// A transaction on its way through a step: lent as it was found, with what is changed of it so far; what it posts, and
/// what happened, in order. No seat is copied.
#[derive(Debug)]
pub struct Draft<'a> {
    pub(crate) lent: &'a Transaction,
    pub(crate) item: Changed,
    pub(crate) posts: PostList,
    pub(crate) effects: Effects,
}

impl<'a> Drop for Draft<'a> {
    fn drop(self) {
        let Draft {
            lent: _lent,
            item: _item,
            posts: _posts,
            effects: _effects,
        } = self;
    }
}

impl<'a> Model for Draft<'a> {
    ghost use Rattle.transaction_at.specs.Moves.{Drafting, changed};

    ghost Value = { Drafting };

    ghost view = { λ d. record {
      lent = d.lent.now;
      course = record { item = changed d.item d.lent.now; posts = d.posts; effects = d.effects };
    } };
}

impl<'a> Draft<'a> {
    /// The transaction at the begin of a step.
    pub fn begin(alloc: Global, lent: &'a Transaction) -> Result<Draft<'a>, AllocError>
        ensures { IfOk result (λ draft. draft ≡ drafted lent.entry.now (begin lent.entry.now)) }
    {
        let item = Changed::none(alloc, lent)?;
        Ok(Draft {
            lent,
            item,
            posts: PostList::new(alloc),
            effects: Effects::from_vec(Vec::new(alloc)),
        })
    }

    /// The transaction at the begin of a step that posts this.
    pub(crate) fn posting(
        alloc: Global,
        lent: &'a Transaction,
        list: PostList,
    ) -> Result<Draft<'a>, AllocError>
        ensures { IfOk result (λ draft. draft ≡ drafted lent.entry.now (posts list (begin lent.entry.now))) }
    {
        let item = Changed::none(alloc, lent)?;
        Ok(Draft {
            lent,
            item,
            posts: list,
            effects: Effects::from_vec(Vec::new(alloc)),
        })
    }

    /// The transaction at the begin of a step, with the seat of this number in this state.
    pub(crate) fn seat_in(
        alloc: Global,
        lent: &'a Transaction,
        number: u16,
        state: State,
    ) -> Result<Draft<'a>, AllocError>
        ensures { IfOk result
            (λ draft. draft ≡ drafted lent.entry.now (begin (seat_in number state lent.entry.now))) }
    {
        let mut draft = Draft::begin(alloc, lent)?;
        draft.move_seats(SeatMove::One { number, state })?;
        Ok(draft)
    }

    /// The transaction at the begin of a step, under this superior.
    pub(crate) fn under(
        alloc: Global,
        lent: &'a Transaction,
        superior: Superior,
    ) -> Result<Draft<'a>, AllocError>
        ensures { IfOk result
            (λ draft. draft ≡ drafted lent.entry.now (begin (under superior lent.entry.now))) }
    {
        let mut draft = Draft::begin(alloc, lent)?;
        draft.set_superior(superior);
        Ok(draft)
    }

    /// The transaction's id.
    pub(crate) fn id(&self) -> Id
        ensures { result ≡ self.now.course.item.id }
    {
        let lent = self.lent;
        lent.id
    }

    /// It is under this superior from now on.
    pub(crate) fn set_superior(&mut self, superior: Superior)
        ensures { self.new ≡ onto (λ m. become (under superior m.item) m) self.old }
    {
        self.item.superior = Some(superior);
    }

    /// It is in this phase from now on.
    pub(crate) fn set_phase(&mut self, phase: Phase)
        ensures { self.new ≡ onto (λ m. become (in_phase (phase_of phase) m.item) m) self.old }
    {
        self.item.phase = phase;
    }

    /// It has this completion seat from now on.
    pub(crate) fn set_completion(&mut self, completion: Completion)
        ensures { self.new ≡ onto (λ m. become (record m.item { completion = Some completion }) m) self.old }
    {
        self.item.completion = Some(completion);
    }

    /// Moves seats.
    #[tactic(auto, using(crate::proofs::Drafts::moved_behind))]
    pub(crate) fn move_seats(&mut self, by: SeatMove) -> Result<(), AllocError>
        ensures { OnOk result
            (self.new
            ≡ onto (λ m. become (record m.item { seats = seats_behind (by ∷ []) m.item.seats }) m) self.old) }
    {
        self.item.seats.push(by)?;
        Ok(())
    }

    /// One more thing happened.
    pub(crate) fn effect(&mut self, happened: Effect) -> Result<(), AllocError>
        ensures { OnOk result (self.new ≡ onto (effect happened) self.old) }
    {
        self.effects.push(happened)
    }

    /// How the transaction ended.
    pub(crate) fn ending(&self, what: Ending) -> Effect
        ensures { result ≡ ending self.now.course.item what }
    {
        ending_of(self.id(), &self.item.superior, what)
    }

    /// Whether a seat of the group is there.
    pub(crate) fn has_any(&self, group: Group) -> bool
        ensures { result ≡ list_any (belongs group) self.now.course.item.seats }
    {
        let lent = self.lent;
        has_any(lent.seats.as_slice(), self.item.seats.as_slice(), group)
    }

    /// Whether each seat of the kind has voted or left.
    pub(crate) fn answered(&self, kind: Kind) -> bool
        ensures { result ≡ answered kind self.now.course.item.seats }
    {
        !self.has_any(Group::Unanswered(kind))
    }

    /// Whether every durable seat has left.
    pub(crate) fn all_left(&self) -> bool
        ensures { result ≡ all_left self.now.course.item.seats }
    {
        !self.has_any(Group::DurableStaying)
    }

    /// Whether a seat is Aborting.
    pub(crate) fn is_aborting(&self) -> bool
        ensures { result ≡ list_any (in_state states.Aborting) self.now.course.item.seats }
    {
        self.has_any(Group::In(State::Aborting))
    }

    /// Whether a durable seat voted Prepared.
    pub(crate) fn has_prepared(&self) -> bool
        ensures { result ≡ list_any is_prepared_durable self.now.course.item.seats }
    {
        self.has_any(PREPARED_DURABLE)
    }

    /// The durable seats that voted Prepared, as a record has them.
    pub(crate) fn prepared(&self, alloc: Global) -> Result<Seats, AllocError>
        ensures { IfOk result (λ seats. seats ≡ prepared self.now.course.item.seats) }
    {
        let lent = self.lent;
        prepared(alloc, lent.seats.as_slice(), self.item.seats.as_slice())
    }

    /// The transaction stays as it stands.
    pub(crate) fn stays(self) -> Turn<Transaction, Move>
        ensures { turn_of (Some self.entry.lent) result ≡ stays self.entry.course }
    {
        let Draft {
            lent: _lent,
            item,
            posts,
            effects,
        } = self;
        Turn {
            fate: Fate::Move(Move::Changed(item)),
            posts,
            effects,
        }
    }

    /// The transaction is forgotten.
    pub(crate) fn forgotten(self) -> Turn<Transaction, Move>
        ensures { turn_of (Some self.entry.lent) result ≡ forgotten self.entry.course }
    {
        let Draft {
            lent: _lent,
            item: _item,
            posts,
            effects,
        } = self;
        Turn {
            fate: Fate::Forget,
            posts,
            effects,
        }
    }

    /// A copy, for the other of two branches.
    pub(crate) fn branch(&self) -> Result<Draft<'a>, AllocError>
        ensures { IfOk result (λ copy. copy ≡ self.now) }
    {
        let posts = self.posts.clone()?;
        let effects = self.effects.clone()?;
        let item = self.item.copied()?;
        Ok(Draft {
            lent: self.lent,
            item,
            posts,
            effects,
        })
    }
}
