//! The links of a subordinate and the initiator of a root: small changes, and what is sent to them.

ghost use Rattle.std.specs.Prelude.{◌≡◌, ◌++◌, OnOk, Some, option_copied};
ghost use Rattle.at_base.specs.declared.target.Target.TheVariants as targets;
ghost use Rattle.at_tables.specs.declared.cells.State.TheVariants as states;
ghost use Rattle.at_model.specs.Moves.{posts, become};
ghost use Rattle.at_model.specs.Posts.{notice_post, to_each};
ghost use Rattle.at_model.specs.Phases.{upwards};
ghost use Rattle.at_model.specs.Seats.{link_of, link_in, set_link, ending, ending_of, initiator_posts, completion_in};
ghost use Rattle.transaction_at.specs.Moves.{onto};

use crate::draft::Draft;
use crate::seats::is_state;
use crate::transaction::{Completion, Link, Superior, Transaction};
use at_base::epr::Epr;
use at_base::event::Moment;
use at_base::id::Id;
use at_base::notice::{Kind, Notice};
use at_base::outs::{Effect, Ending};
use at_base::target::Target;
use at_posts::list::PostList;
use at_posts::posts::notice_post;
use at_tables::cells::State;
use std::alloc::{AllocError, Global};

impl Superior {
    /// The link of the kind.
    pub fn link(&self, kind: Kind) -> &Link
        ensures { result.now ≡ link_of kind self.now }
    {
        match kind {
            Kind::Volatile => &self.volatile,
            Kind::Durable => &self.durable,
        }
    }

    /// The link of the kind is in this state from now on.
    pub fn move_link(&mut self, kind: Kind, state: State)
        ensures { self.new ≡ link_in kind state self.old }
    {
        match kind {
            Kind::Volatile => self.volatile.state = state,
            Kind::Durable => self.durable.state = state,
        }
    }

    /// The link of the kind is Active, with its superior's seat at this endpoint.
    pub fn register_link(&mut self, kind: Kind, coordinator: Epr)
        ensures { self.new ≡ set_link kind (record { state = states.Active; coordinator = Some coordinator }) self.old }
    {
        let link = Link {
            state: State::Active,
            coordinator: Some(coordinator),
        };
        match kind {
            Kind::Volatile => self.volatile = link,
            Kind::Durable => self.durable = link,
        }
    }
}

/// How a transaction of this id, under this superior, ended.
pub(crate) fn ending_of(id: Id, superior: &Option<Superior>, what: Ending) -> Effect
    ensures { result ≡ ending_of superior.now id what }
{
    match superior {
        None => Effect::Root { id, what },
        Some(_) => Effect::Sub { id, what },
    }
}

/// How a transaction ended.
pub fn ending(transaction: &Transaction, what: Ending) -> Effect
    ensures { result ≡ ending transaction.now what }
{
    ending_of(transaction.id, &transaction.superior, what)
}

/// Adds a notification of a link to this endpoint, where there is one.
pub fn push_from_link(
    alloc: Global,
    posts: &mut PostList,
    moment: &Moment,
    id: Id,
    kind: Kind,
    notice: Notice,
    to: Option<&Epr>,
) -> Result<(), AllocError>
    ensures { OnOk result
        (posts.new
        ≡ posts.old
        ++ to_each (option_copied to.entry)
        (λ epr. notice_post moment.entry.now.base (targets.Participant id kind) epr notice)) }
{
    let own = Target::Participant { id, kind };
    match to {
        Some(to) => posts.push(notice_post(alloc, &moment.base, &own, to, notice)?),
        None => Ok(()),
    }
}

/// Adds a notification to the superior, on a link that knows its endpoint.
pub fn push_upwards(
    alloc: Global,
    posts: &mut PostList,
    moment: &Moment,
    id: Id,
    kind: Kind,
    notice: Notice,
    link: &Link,
) -> Result<(), AllocError>
    ensures { OnOk result (posts.new ≡ posts.old ++ upwards moment.entry.now.base id kind notice link.now) }
{
    push_from_link(
        alloc,
        posts,
        moment,
        id,
        kind,
        notice,
        link.coordinator.as_ref(),
    )
}

/// Adds a notification to the initiator, whose seat isn't None.
fn push_to_initiator(
    alloc: Global,
    posts: &mut PostList,
    moment: &Moment,
    id: Id,
    notice: Notice,
    completion: &Option<Completion>,
) -> Result<(), AllocError>
    ensures { OnOk result
        (posts.new ≡ posts.old ++ initiator_posts moment.entry.now.base id notice completion.now) }
{
    let Some(completion) = completion else {
        return Ok(());
    };
    if is_state(completion.state, State::None) {
        return Ok(());
    }
    let own = Target::Completion(id);
    posts.push(notice_post(alloc, &moment.base, &own, &completion.initiator, notice)?)
}

/// The initiator's seat is in this state from now on.
fn complete(completion: &mut Option<Completion>, state: State)
    ensures { completion.new ≡ completion_in state completion.old }
{
    if let Some(completion) = completion {
        completion.state = state;
    }
}

/// The initiator is told the outcome, and its seat is in this state from now on.
pub fn tell_initiator(
    alloc: Global,
    moment: &Moment,
    draft: &mut Draft<'_>,
    notice: Notice,
    state: State,
) -> Result<(), AllocError>
    ensures { OnOk result
        (draft.new
        ≡ onto (λ m. posts (initiator_posts moment.entry.now.base m.item.id notice m.item.completion)
        (become (record m.item { completion = completion_in state m.item.completion }) m)) draft.old) }
{
    let id = draft.id();
    push_to_initiator(
        alloc,
        &mut draft.posts,
        moment,
        id,
        notice,
        &draft.item.completion,
    )?;
    complete(&mut draft.item.completion, state);
    Ok(())
}
