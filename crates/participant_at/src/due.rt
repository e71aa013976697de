//! What a leaf does by itself: it expires, and it sends again (WS-Coordination 1.2, section 2.1; this project's profile).

ghost use Rattle.std.specs.Prelude.{◌≡◌, ◌&&◌, ◌||◌, IfOk, Some, None};
ghost use Rattle.at_base.specs.declared.event.Moment.{Moment};
ghost use Rattle.at_model.specs.Due.{has_come, is_quiet, is_some_post, leaf_again, leaf_due, leaf_expires, leaf_reached, leaf_register_again};
ghost use Rattle.at_model.specs.Moves.{begin, posts, stays};
ghost use Rattle.at_model.specs.Step.{is_reached};
ghost use Rattle.at_tables.specs.Names.{is_state};
ghost use Rattle.at_tables.specs.declared.cells.State.TheVariants as states;
ghost use Rattle.by_id.specs.Unmoved.{meant, turn_of};

use crate::leaf::Leaf;
use crate::posts::{leaf_register, says};
use crate::rules::{aborts, is_registering, refuses, sent_now};
use at_base::event::Moment;
use at_base::id::Id;
use at_base::notice::Notice;
use at_posts::list::PostList;
use at_tables::cells::State;
use by_id::fates::{Choice, Fate, Turn};
use by_id::list::Identified;
use by_id::times::{has_come, is_quiet};
use std::alloc::{AllocError, Global};

/// Whether a leaf may still expire.
pub fn may_expire(state: State) -> bool
    ensures { result ≡ (is_state state states.Registering || is_state state states.Active) }
{
    match state {
        State::Registering | State::Active => true,
        State::None
        | State::Preparing
        | State::Prepared
        | State::PreparedSuccess
        | State::Committing
        | State::Aborting
        | State::Completing
        | State::Done => false,
    }
}

/// Whether a leaf has expired.
fn is_expired(moment: &Moment, leaf: &Leaf) -> bool
    ensures { result
        ≡ ((is_state leaf.now.state states.Registering || is_state leaf.now.state states.Active)
        && has_come moment.entry.now.now leaf.now.deadline) }
{
    may_expire(leaf.state) && has_come(moment.now, leaf.deadline)
}

/// Whether a leaf waits for an answer to what it can send again.
fn waits(leaf: &Leaf) -> bool
    ensures { (m : Moment) → result ≡ is_some_post (leaf_again m leaf.now) }
{
    match leaf.state {
        State::Registering => leaf.request.is_some(),
        State::PreparedSuccess => leaf.coordinator.is_some(),
        State::None
        | State::Active
        | State::Preparing
        | State::Prepared
        | State::Committing
        | State::Aborting
        | State::Completing
        | State::Done => false,
    }
}

/// Whether a leaf has waited long enough to send again.
fn is_unanswered(moment: &Moment, leaf: &Leaf) -> bool
    ensures { result
        ≡ (is_quiet moment.entry.now.now leaf.now.sent && is_some_post (leaf_again moment.entry.now leaf.now)) }
{
    is_quiet(moment.now, leaf.sent) && waits(leaf)
}

/// Whether a leaf is due.
pub fn is_due(moment: &Moment, leaf: &Leaf) -> bool
    ensures { result ≡ is_reached (leaf_due moment.entry.now leaf.now) }
{
    is_expired(moment, leaf) || is_unanswered(moment, leaf)
}

impl Identified for Leaf {
    ghost use Rattle.at_model.specs.Book.{leaf_id};
    ghost use Rattle.at_model.specs.Due.{leaf_due};
    ghost use Rattle.at_model.specs.Step.{is_reached};
    ghost use Rattle.by_id.specs.Unmoved.{unmoved};

    type Move = ();

    ghost id_of = { leaf_id };

    ghost is_due_at = { λ m l. is_reached (leaf_due m l) };

    ghost moved = { unmoved };

    fn id(&self) -> Id {
        self.id
    }

    fn is_due(&self, moment: &Moment) -> bool {
        is_due(moment, self)
    }

    fn make(&mut self, by: ()) {
        let _nothing = by;
    }
}

/// A leaf that expires ends as aborted: one in Registering refuses its Work, an Active one says Aborted.
fn expires(alloc: Global, moment: &Moment, leaf: &Leaf) -> Result<Turn<Leaf, ()>, AllocError>
    ensures { IfOk result (λ turn. turn_of (Some leaf.now) turn ≡ leaf_expires moment.entry.now leaf.now) }
{
    if is_registering(leaf.state) {
        refuses(alloc, leaf)
    } else {
        aborts(alloc, moment, &None, leaf)
    }
}

/// The Register that waits for its answer.
fn register_again(alloc: Global, moment: &Moment, leaf: &Leaf) -> Result<PostList, AllocError>
    ensures { IfOk result
        (λ posts. posts ≡ leaf_register_again moment.entry.now leaf.now leaf.now.request) }
{
    match &leaf.request {
        Some(request) => {
            let register = leaf_register(alloc, moment, leaf, &request.registration)?;
            PostList::alone(alloc, register)
        }
        None => Ok(PostList::new(alloc)),
    }
}

/// What a leaf sends again: its Register, or its vote Prepared.
fn again(alloc: Global, moment: &Moment, leaf: &Leaf) -> Result<PostList, AllocError>
    ensures { IfOk result (λ posts. posts ≡ leaf_again moment.entry.now leaf.now) }
{
    match leaf.state {
        State::Registering => register_again(alloc, moment, leaf),
        State::PreparedSuccess => says(alloc, moment, &None, leaf, Notice::Prepared),
        State::None
        | State::Active
        | State::Preparing
        | State::Prepared
        | State::Committing
        | State::Aborting
        | State::Completing
        | State::Done => Ok(PostList::new(alloc)),
    }
}

/// The leaf sends again.
fn sends_again(alloc: Global, moment: &Moment, leaf: &Leaf) -> Result<Turn<Leaf, ()>, AllocError>
    ensures { IfOk result
        (λ turn. turn_of (Some leaf.now) turn
        ≡ stays
        (posts (leaf_again moment.entry.now leaf.now)
        (begin (record leaf.now { sent = Some moment.entry.now.now })))) }
{
    let posts = again(alloc, moment, leaf)?;
    let next = sent_now(moment, leaf)?;
    Ok(Turn::silent(alloc, Fate::Put(next), posts))
}

/// A leaf that is asked whether it is due.
#[tactic(auto, unfolding(at_model::specs::Due::leaf_reached))]
pub fn on_due(alloc: Global, moment: &Moment, leaf: &Leaf) -> Result<Choice<Leaf, ()>, AllocError>
    ensures { IfOk result
        (λ choice. meant (Some leaf.now) choice
        ≡ leaf_reached moment.entry.now leaf.now (leaf_due moment.entry.now leaf.now)) }
{
    if is_expired(moment, leaf) {
        return Ok(Choice::Goes(expires(alloc, moment, leaf)?));
    }
    if is_unanswered(moment, leaf) {
        return Ok(Choice::Goes(sends_again(alloc, moment, leaf)?));
    }
    Ok(Choice::ignored(alloc))
}
