//! Abort (WS-AtomicTransaction 1.2, sections 3.2, 3.3.3 and 3.3.4).

ghost use Rattle.std.specs.Prelude.{◌≡◌, ◌++◌, IfOk, OnOk, Some, option_copied};
ghost use Rattle.at_model.specs.Book.{Phase as Stage};
ghost use Rattle.at_base.specs.declared.outs.Ending.TheVariants as endings;
ghost use Rattle.at_model.specs.Moves.{become, posts, effect};
ghost use Rattle.at_model.specs.Posts.{stored_or};
ghost use Rattle.at_model.specs.Seats.{ending};
ghost use Rattle.at_model.specs.Abort.{abort, from_of, is_silent, link_aborted, links_aborted, until_rolled_back, without_links};
ghost use Rattle.transaction_at.specs.Moves.{onto, turn_of};
ghost use Rattle.transaction_at.specs.Reasons.{reason_of};

use crate::draft::Draft;
use crate::links::{push_from_link, tell_initiator};
use crate::moves::Move;
use crate::seats::{Group, is_state, send_each};
use crate::transaction::{Link, Phase, Superior, Transaction};
use at_base::epr::Epr;
use at_base::event::Moment;
use at_base::id::Id;
use at_base::notice::{Kind, Notice, is_kind};
use at_base::outs::Ending;
use at_posts::list::PostList;
use at_tables::cells::State;
use by_id::fates::Turn;
use std::alloc::{AllocError, Global};

/// Why a transaction aborts.
#[derive(Debug)]
pub enum Reason {
    /// On its own.
    Alone,
    /// By a Rollback that came on a link, with its From.
    Asked { kind: Kind, from: Option<Epr> },
    /// Behind an InvalidState that a link drew.
    Faulted(Kind),
}

impl Drop for Reason {
    fn drop(self) {
        match self {
            Reason::Alone => {}
            Reason::Asked {
                kind: _kind,
                from: _from,
            } => {}
            Reason::Faulted(_kind) => {}
        }
    }
}

impl Reason {
    /// The From of the message on this link that is answered.
    fn from_of(&self, kind: Kind) -> Option<&Epr>
        ensures { option_copied result ≡ from_of (reason_of self.now) kind }
    {
        match self {
            Reason::Asked { kind: on, from } => {
                if is_kind(*on, kind) {
                    from.as_ref()
                } else {
                    None
                }
            }
            Reason::Alone | Reason::Faulted(_) => None,
        }
    }

    /// Whether nothing more is said on this link.
    fn is_silent(&self, kind: Kind) -> bool
        ensures { result ≡ is_silent (reason_of self.now) kind }
    {
        match self {
            Reason::Faulted(on) => is_kind(*on, kind),
            Reason::Alone | Reason::Asked { .. } => false,
        }
    }
}

/// Adds the Aborted of one link: a link that is None says nothing, nor one that just drew InvalidState. A link in
/// Registering knows no endpoint, and answers a Rollback that came on it.
fn push_link_aborted(
    alloc: Global,
    posts: &mut PostList,
    moment: &Moment,
    id: Id,
    reason: &Reason,
    kind: Kind,
    link: &Link,
) -> Result<(), AllocError>
    ensures { OnOk result
        (posts.new ≡ posts.old ++ link_aborted moment.entry.now.base id (reason_of reason.now) kind link.now) }
{
    if is_state(link.state, State::None) || reason.is_silent(kind) {
        return Ok(());
    }
    let to = known_or(link, reason.from_of(kind));
    push_from_link(alloc, posts, moment, id, kind, Notice::Aborted, to)
}

/// The endpoint of a link, or this one while there is none.
fn known_or<'a>(link: &'a Link, from: Option<&'a Epr>) -> Option<&'a Epr>
    ensures { option_copied result ≡ stored_or link.entry.now.coordinator (option_copied from.entry) }
{
    match &link.coordinator {
        Some(stored) => Some(stored),
        None => from,
    }
}

/// Adds the Aborted of both links, the volatile one first.
fn push_links_aborted(
    alloc: Global,
    posts: &mut PostList,
    moment: &Moment,
    id: Id,
    reason: &Reason,
    superior: &Option<Superior>,
) -> Result<(), AllocError>
    ensures { OnOk result
        (posts.new ≡ posts.old ++ links_aborted moment.entry.now.base id (reason_of reason.now) superior.now) }
{
    let Some(superior) = superior else {
        return Ok(());
    };
    push_link_aborted(
        alloc,
        posts,
        moment,
        id,
        reason,
        Kind::Volatile,
        &superior.volatile,
    )?;
    push_link_aborted(
        alloc,
        posts,
        moment,
        id,
        reason,
        Kind::Durable,
        &superior.durable,
    )
}

/// The links of a transaction that is over.
fn end_links(superior: &mut Option<Superior>)
    ensures { superior.new ≡ without_links superior.old }
{
    if let Some(superior) = superior {
        superior.volatile.state = State::None;
        superior.durable.state = State::None;
    }
}

/// The transaction is Aborting from now on.
fn aborting(moment: &Moment, draft: &mut Draft<'_>)
    ensures { draft.new ≡ onto (λ m. become (record m.item {
      superior = without_links m.item.superior;
      phase = Stage.Aborting;
      aborted = Some moment.entry.now.now;
    }) m) draft.old }
{
    end_links(&mut draft.item.superior);
    draft.item.phase = Phase::Aborting;
    draft.item.aborted = Some(moment.now);
}

/// Forgotten when no seat is Aborting.
pub(crate) fn until_rolled_back(draft: Draft<'_>) -> Turn<Transaction, Move>
    ensures { turn_of (Some draft.entry.lent) result ≡ until_rolled_back draft.entry.course }
{
    if draft.is_aborting() {
        draft.stays()
    } else {
        draft.forgotten()
    }
}

/// What is said to the links, before the seats are told.
fn abort_links(
    alloc: Global,
    moment: &Moment,
    reason: &Reason,
    draft: &mut Draft<'_>,
) -> Result<(), AllocError>
    ensures { OnOk result
        (draft.new
        ≡ onto (λ m. posts (links_aborted moment.entry.now.base m.item.id (reason_of reason.now) m.item.superior)
        (effect (ending m.item endings.Aborted) m)) draft.old) }
{
    let what = draft.ending(Ending::Aborted);
    draft.effect(what)?;
    let id = draft.id();
    push_links_aborted(
        alloc,
        &mut draft.posts,
        moment,
        id,
        reason,
        &draft.item.superior,
    )
}

/// All that an abort does while the transaction stands: every link says Aborted, every open seat is told Rollback and is
/// Aborting, the initiator is told Aborted.
#[tactic(auto, unfolding(at_model::specs::Abort::abort))]
fn abort_all(
    alloc: Global,
    moment: &Moment,
    reason: &Reason,
    draft: &mut Draft<'_>,
) -> Result<(), AllocError>
    ensures lent { OnOk result (draft.new.lent ≡ draft.old.lent) }
    ensures told { OnOk result
        (until_rolled_back draft.new.course ≡ abort moment.entry.now (reason_of reason.now) draft.old.course) }
{
    abort_links(alloc, moment, reason, draft)?;
    aborting(moment, draft);
    send_each(
        alloc,
        moment,
        draft,
        Notice::Rollback,
        State::Aborting,
        Group::Open,
    )?;
    tell_initiator(alloc, moment, draft, Notice::Aborted, State::None)
}

/// Aborts. Nothing is recorded, since abort is presumed.
pub fn abort(
    alloc: Global,
    moment: &Moment,
    reason: &Reason,
    mut draft: Draft<'_>,
) -> Result<Turn<Transaction, Move>, AllocError>
    ensures { IfOk result
        (λ turn. turn_of (Some draft.entry.lent) turn
        ≡ abort moment.entry.now (reason_of reason.now) draft.entry.course) }
{
    abort_all(alloc, moment, reason, &mut draft)?;
    Ok(until_rolled_back(draft))
}
