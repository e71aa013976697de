//! The seats of a transaction: tests, and small changes.

ghost use Rattle.std.specs.Prelude.{◌≡◌, ◌++◌, ◌∷◌, ◌||◌, [], IfOk, OnOk, Some};
ghost use Rattle.std.specs.List.{list_any};
ghost use Rattle.at_tables.specs.Names.{state_place, is_state};
ghost use Rattle.at_tables.specs.declared.cells.State.TheVariants as states;
ghost use Rattle.at_model.specs.Book.{Transaction as Known};
ghost use Rattle.at_model.specs.Moves.{Goes, become, begin, posts, stays};
ghost use Rattle.at_model.specs.Posts.{notice_post};
ghost use Rattle.at_model.specs.Seats.{prepared, seated, seat_target, notices_to, sent_to, send_each, moved};
ghost use Rattle.transaction_at.specs.Groups.{belongs, stands};
ghost use Rattle.transaction_at.specs.Moves.{meant, onto, seat_behind, seats_behind};
ghost use Rattle.transaction_at.specs.declared.seats.Group.TheVariants as groups;

use crate::draft::Draft;
use crate::due::unanswered_seat;
use crate::moves::{Move, SeatMove, state_behind};
use crate::transaction::{Enlistment, Transaction};
use at_base::event::Moment;
use at_base::id::Id;
use at_base::notice::{Kind, Notice, is_kind};
use at_base::outs::Post;
use at_base::record::{Seated, Seats};
use at_base::target::{Seat, Target};
use at_posts::list::PostList;
use at_posts::posts::notice_post;
use at_tables::cells::State;
use by_id::fates::{Choice, Fate, Turn};
use std::alloc::{AllocError, Global};

/// Seats that are told or moved together.
#[derive(Clone, Copy, Debug, PartialEq, Eq)]
pub enum Group {
    /// Active, Preparing or Prepared: what an abort rolls back.
    Open,
    /// In this state.
    In(State),
    /// Of this kind, in this state.
    Of { kind: Kind, state: State },
    /// Of this kind, and Active or Preparing: neither voted nor left.
    Unanswered(Kind),
    /// Durable, and not left.
    DurableStaying,
    /// Asked, and not yet answered.
    Asked,
}

/// The place of a state in the order of the states.
fn place(state: State) -> u8
    ensures { result ≡ state_place state }
{
    match state {
        State::None => 0,
        State::Registering => 1,
        State::Active => 2,
        State::Preparing => 3,
        State::Prepared => 4,
        State::PreparedSuccess => 5,
        State::Committing => 6,
        State::Aborting => 7,
        State::Completing => 8,
        State::Done => 9,
    }
}

/// Whether two states are the same.
pub fn is_state(state: State, other: State) -> bool
    ensures { result ≡ is_state state other }
{
    place(state) == place(other)
}

/// Whether an abort rolls back a seat in this state.
fn is_open(state: State) -> bool
    ensures { result
        ≡ (is_state state states.Active || is_state state states.Preparing || is_state state states.Prepared) }
{
    is_state(state, State::Active)
        || is_state(state, State::Preparing)
        || is_state(state, State::Prepared)
}

/// Whether two kinds and two states are the same.
fn is_of(kind: Kind, state: State, other: Kind, same: State) -> bool
    ensures { result ≡ stands (groups.Of other same) kind state }
{
    is_kind(kind, other) && is_state(state, same)
}

/// Whether a seat of this kind, in this state, is in the group.
pub fn stands(kind: Kind, state: State, group: Group) -> bool
    ensures { result ≡ stands group kind state }
{
    match group {
        Group::Open => is_open(state),
        Group::In(other) => is_state(state, other),
        Group::Of {
            kind: other,
            state: same,
        } => is_of(kind, state, other, same),
        Group::Unanswered(other) => {
            is_of(kind, state, other, State::Active) || is_of(kind, state, other, State::Preparing)
        }
        Group::DurableStaying => is_kind(kind, Kind::Durable) && !is_state(state, State::None),
        Group::Asked => unanswered_seat(state).is_some(),
    }
}

/// Whether a seat is in the group.
#[tactic(auto, using(crate::proofs::SeatCounts::stands_so))]
pub fn belongs(seat: &Enlistment, group: Group) -> bool
    ensures { result ≡ belongs group seat.now }
{
    stands(seat.kind, seat.state, group)
}

/// Whether a seat is in the group behind these moves.
#[tactic(auto, using(crate::proofs::SeatCounts::stands_so))]
fn belongs_behind(seat: &Enlistment, moves: &[SeatMove], group: Group) -> bool
    ensures { result ≡ belongs group (seat_behind moves.now seat.now) }
{
    stands(seat.kind, state_behind(seat, moves), group)
}

/// Whether a seat of the group is among these, behind these moves.
pub(crate) fn has_any(seats: &[Enlistment], moves: &[SeatMove], group: Group) -> bool
    ensures { result ≡ list_any (belongs group) (seats_behind moves.now seats.now) }
{
    for seat in seats {
        if belongs_behind(seat, moves, group) {
            return true;
        }
    }
    false
}

/// The durable seats that voted Prepared.
pub(crate) const PREPARED_DURABLE: Group = Group::Of {
    kind: Kind::Durable,
    state: State::Prepared,
};

/// A seat as a record has it.
fn seated(seat: &Enlistment) -> Result<Seated, AllocError>
    ensures { IfOk result (λ copy. copy ≡ seated seat.now) }
{
    Ok(Seated {
        number: seat.number,
        endpoint: seat.participant.clone()?,
    })
}

/// The durable seats that voted Prepared by these moves, as a record has them.
pub(crate) fn prepared(
    alloc: Global,
    seats: &[Enlistment],
    moves: &[SeatMove],
) -> Result<Seats, AllocError>
    ensures { IfOk result (λ list. list ≡ prepared (seats_behind moves.now seats.now)) }
{
    let mut list = Seats::from_vec(Vec::new(alloc));
    for seat in seats {
        push_prepared(&mut list, seat, moves)?;
    }
    Ok(list)
}

/// Adds the seat, where it is durable and voted Prepared by these moves.
#[tactic(auto, using(crate::proofs::Drafts::seated_behind))]
fn push_prepared(list: &mut Seats, seat: &Enlistment, moves: &[SeatMove]) -> Result<(), AllocError>
    ensures { OnOk result (list.new ≡ list.old ++ prepared (seat_behind moves.now seat.now ∷ [])) }
{
    if belongs_behind(seat, moves, PREPARED_DURABLE) {
        list.push(seated(seat)?)?;
    }
    Ok(())
}

/// What a seat's endpoint names.
pub fn seat_target(id: Id, seat: &Enlistment) -> Target
    ensures { result ≡ seat_target id seat.now }
{
    Target::Coordinator {
        id,
        seat: Seat {
            number: seat.number,
            kind: seat.kind,
        },
    }
}

/// A notification of a seat to its participant.
pub fn seat_notice(
    alloc: Global,
    moment: &Moment,
    id: Id,
    seat: &Enlistment,
    notice: Notice,
) -> Result<Post, AllocError>
    ensures { IfOk result
        (λ post. post
        ≡ notice_post moment.entry.now.base (seat_target id seat.now) seat.now.participant notice) }
{
    let own = seat_target(id, seat);
    notice_post(alloc, &moment.base, &own, &seat.participant, notice)
}

/// Adds a notification to the seat, where it is in the group behind these moves.
#[tactic(auto, using(crate::proofs::Drafts::told_behind))]
fn push_notice(
    alloc: Global,
    posts: &mut PostList,
    moment: &Moment,
    id: Id,
    notice: Notice,
    seat: &Enlistment,
    moves: &[SeatMove],
    group: Group,
) -> Result<(), AllocError>
    ensures { OnOk result
        (posts.new
        ≡ posts.old
        ++ notices_to moment.entry.now.base id notice (seat_behind moves.now seat.now ∷ []) (belongs group)) }
{
    if belongs_behind(seat, moves, group) {
        posts.push(seat_notice(alloc, moment, id, seat, notice)?)?;
    }
    Ok(())
}

/// Adds a notification to each seat of the group behind these moves, in order.
fn push_notices(
    alloc: Global,
    posts: &mut PostList,
    moment: &Moment,
    id: Id,
    notice: Notice,
    seats: &[Enlistment],
    moves: &[SeatMove],
    group: Group,
) -> Result<(), AllocError>
    ensures { OnOk result
        (posts.new
        ≡ posts.old
        ++ notices_to moment.entry.now.base id notice (seats_behind moves.now seats.now) (belongs group)) }
{
    for seat in seats {
        push_notice(alloc, posts, moment, id, notice, seat, moves, group)?;
    }
    Ok(())
}

/// The notifications of a draft to each seat of the group, in order.
fn push_all(
    alloc: Global,
    moment: &Moment,
    draft: &mut Draft<'_>,
    notice: Notice,
    group: Group,
) -> Result<(), AllocError>
    ensures { OnOk result
        (draft.new
        ≡ onto (λ m. posts (notices_to moment.entry.now.base m.item.id notice m.item.seats (belongs group)) m) draft.old) }
{
    let lent = draft.lent;
    push_notices(
        alloc,
        &mut draft.posts,
        moment,
        lent.id,
        notice,
        lent.seats.as_slice(),
        draft.item.seats.as_slice(),
        group,
    )
}

/// When a draft's transaction last sent: now, where it sends to a seat of the group.
fn sent_to(moment: &Moment, draft: &Draft<'_>, group: Group) -> Option<u64>
    ensures { result
        ≡ sent_to moment.entry.now.now draft.now.course.item.sent draft.now.course.item.seats (belongs group) }
{
    if draft.has_any(group) {
        Some(moment.now)
    } else {
        draft.item.sent
    }
}

/// Moves the seats of the group into this state; the transaction sends to them now.
fn move_sent(
    moment: &Moment,
    draft: &mut Draft<'_>,
    group: Group,
    state: State,
) -> Result<(), AllocError>
    ensures { OnOk result
        (draft.new
        ≡ onto (λ m. become (record m.item {
          seats = moved (belongs group) state m.item.seats;
          sent = sent_to moment.entry.now.now m.item.sent m.item.seats (belongs group);
        }) m) draft.old) }
{
    let sent = sent_to(moment, draft, group);
    draft.move_seats(SeatMove::Each { group, state })?;
    draft.item.sent = sent;
    Ok(())
}

/// Each seat of the group goes into this state and is sent the notification.
pub(crate) fn send_each(
    alloc: Global,
    moment: &Moment,
    draft: &mut Draft<'_>,
    notice: Notice,
    state: State,
    group: Group,
) -> Result<(), AllocError>
    ensures { OnOk result
        (draft.new ≡ onto (send_each moment.entry.now notice state (belongs group)) draft.old) }
{
    push_all(alloc, moment, draft, notice, group)?;
    move_sent(moment, draft, group, state)
}

/// This is posted, and the transaction stays as it is.
pub fn only_posts(alloc: Global, list: PostList) -> Choice<Transaction, Move>
    ensures { (transaction : Known) → meant (Some transaction) result
        ≡ Goes (stays (posts list (begin transaction))) }
{
    Choice::Goes(Turn::silent(alloc, Fate::Keep, list))
}
