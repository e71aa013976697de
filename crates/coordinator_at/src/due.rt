//! What a transaction does by itself: it expires, it is forgotten, and it sends again (WS-Coordination 1.2, section 2.1;
//! this project's profile).

ghost use Rattle.std.specs.Prelude.{◌≡◌, ◌++◌, IfOk, OnOk, Some};
ghost use Rattle.at_model.specs.Abort.{abort, Alone};
ghost use Rattle.at_model.specs.Book.{Transaction as Known};
ghost use Rattle.at_model.specs.Due.{seat_again, seats_again, unanswered_seat, register_again_at, link_again, links_again, transaction_again, transaction_due, transaction_reached};
ghost use Rattle.at_model.specs.Moves.{begin, forgotten, posts, stays};
ghost use Rattle.at_model.specs.Seats.{sent_now};
ghost use Rattle.transaction_at.specs.Causes.{reached_of};
ghost use Rattle.transaction_at.specs.Moves.{meant, turn_of};

use at_base::event::Moment;
use at_base::id::Id;
use at_base::notice::{Kind, Notice};
use at_base::target::Target;
use at_posts::list::PostList;
use at_posts::posts::register_post;
use at_tables::cells::State;
use by_id::fates::{Choice, Fate, Turn};
use endpoints::uris::protocol_of;
use std::alloc::{AllocError, Global};
use transaction_at::abort::{Reason, abort};
use transaction_at::draft::Draft;
use transaction_at::due::{Cause, cause_of, unanswered_seat};
use transaction_at::links::push_upwards;
use transaction_at::moves::Move;
use transaction_at::seats::seat_notice;
use transaction_at::transaction::{Enlistment, Link, Request, Superior, Transaction};

/// What a seat was asked, once more, where it hasn't answered.
fn push_seat_again(
    alloc: Global,
    posts: &mut PostList,
    moment: &Moment,
    id: Id,
    seat: &Enlistment,
) -> Result<(), AllocError>
    ensures { OnOk result
        (posts.new
        ≡ posts.old ++ seat_again moment.entry.now.base id seat.now (unanswered_seat seat.now.state)) }
{
    match unanswered_seat(seat.state) {
        Some(notice) => posts.push(seat_notice(alloc, moment, id, seat, notice)?),
        None => Ok(()),
    }
}

/// The same for each seat, in order.
fn push_seats_again(
    alloc: Global,
    posts: &mut PostList,
    moment: &Moment,
    id: Id,
    seats: &[Enlistment],
) -> Result<(), AllocError>
    ensures { OnOk result (posts.new ≡ posts.old ++ seats_again moment.entry.now.base id seats.now) }
{
    for seat in seats {
        push_seat_again(alloc, posts, moment, id, seat)?;
    }
    Ok(())
}

/// A link's Register, once more.
fn push_register_again(
    alloc: Global,
    posts: &mut PostList,
    moment: &Moment,
    id: Id,
    kind: Kind,
    request: &Option<Request>,
) -> Result<(), AllocError>
    ensures { OnOk result
        (posts.new ≡ posts.old ++ register_again_at moment.entry.now.base id kind request.now) }
{
    let Some(request) = request else {
        return Ok(());
    };
    let own = Target::Participant { id, kind };
    posts.push(register_post(
        alloc,
        &moment.base,
        &own,
        protocol_of(kind),
        &request.registration,
    )?)
}

/// What a link waits for an answer to.
fn push_link_again(
    alloc: Global,
    posts: &mut PostList,
    moment: &Moment,
    id: Id,
    kind: Kind,
    request: &Option<Request>,
    link: &Link,
) -> Result<(), AllocError>
    ensures { OnOk result
        (posts.new ≡ posts.old ++ link_again moment.entry.now.base id kind request.now link.now) }
{
    match link.state {
        State::Registering => push_register_again(alloc, posts, moment, id, kind, request),
        State::PreparedSuccess => push_upwards(
            alloc,
            posts,
            moment,
            id,
            kind,
            Notice::Prepared,
            link,
        ),
        State::None
        | State::Active
        | State::Preparing
        | State::Prepared
        | State::Committing
        | State::Aborting
        | State::Completing
        | State::Done => Ok(()),
    }
}

/// The same for both links of a subordinate, the volatile one first.
fn push_links_again(
    alloc: Global,
    posts: &mut PostList,
    moment: &Moment,
    id: Id,
    superior: &Option<Superior>,
) -> Result<(), AllocError>
    ensures { OnOk result (posts.new ≡ posts.old ++ links_again moment.entry.now.base id superior.now) }
{
    let Some(superior) = superior else {
        return Ok(());
    };
    let request = &superior.request;
    let volatile = &superior.volatile;
    push_link_again(alloc, posts, moment, id, Kind::Volatile, request, volatile)?;
    push_link_again(
        alloc,
        posts,
        moment,
        id,
        Kind::Durable,
        request,
        &superior.durable,
    )
}

/// All that a transaction sends again: the links first, then the seats.
fn push_again(
    alloc: Global,
    posts: &mut PostList,
    moment: &Moment,
    transaction: &Transaction,
) -> Result<(), AllocError>
    ensures { OnOk result
        (posts.new ≡ posts.old ++ transaction_again moment.entry.now.base transaction.now) }
{
    let seats = transaction.seats.as_slice();
    push_links_again(alloc, posts, moment, transaction.id, &transaction.superior)?;
    push_seats_again(alloc, posts, moment, transaction.id, seats)
}

/// The transaction sends again.
fn sends_again(
    alloc: Global,
    moment: &Moment,
    transaction: &Transaction,
) -> Result<Turn<Transaction, Move>, AllocError>
    ensures { IfOk result
        (λ turn. turn_of (Some transaction.now) turn
        ≡ stays
        (posts (transaction_again moment.entry.now.base transaction.now)
        (begin (sent_now moment.entry.now transaction.now)))) }
{
    let mut posts = PostList::new(alloc);
    push_again(alloc, &mut posts, moment, transaction)?;
    Ok(Turn::silent(alloc, Fate::Move(Move::Sent(moment.now)), posts))
}

/// The transaction expires: it aborts.
fn expires(
    alloc: Global,
    moment: &Moment,
    transaction: &Transaction,
) -> Result<Turn<Transaction, Move>, AllocError>
    ensures { IfOk result
        (λ turn. turn_of (Some transaction.now) turn ≡ abort moment.entry.now Alone (begin transaction.now)) }
{
    let draft = Draft::begin(alloc, transaction)?;
    abort(alloc, moment, &Reason::Alone, draft)
}

/// The transaction is forgotten.
fn forgotten(alloc: Global) -> Turn<Transaction, Move>
    ensures { (t : Known) → turn_of (Some t) result ≡ forgotten (begin t) }
{
    Turn::silent(alloc, Fate::Forget, PostList::new(alloc))
}

/// What a transaction does for this cause.
#[tactic(auto, unfolding(at_model::specs::Due::transaction_reached))]
fn reaches(
    alloc: Global,
    moment: &Moment,
    transaction: &Transaction,
    cause: Cause,
) -> Result<Choice<Transaction, Move>, AllocError>
    ensures { IfOk result
        (λ choice. meant (Some transaction.now) choice
        ≡ transaction_reached moment.entry.now transaction.now (reached_of cause)) }
{
    match cause {
        Cause::Expired => Ok(Choice::Goes(expires(alloc, moment, transaction)?)),
        Cause::Over => Ok(Choice::Goes(forgotten(alloc))),
        Cause::Unanswered => Ok(Choice::Goes(sends_again(alloc, moment, transaction)?)),
        Cause::Nothing => Ok(Choice::ignored(alloc)),
    }
}

/// A transaction that is asked whether it is due.
pub fn on_due(
    alloc: Global,
    moment: &Moment,
    transaction: &Transaction,
) -> Result<Choice<Transaction, Move>, AllocError>
    ensures { IfOk result
        (λ choice. meant (Some transaction.now) choice
        ≡ transaction_reached moment.entry.now transaction.now
        (transaction_due moment.entry.now transaction.now)) }
{
    reaches(alloc, moment, transaction, cause_of(moment, transaction))
}
