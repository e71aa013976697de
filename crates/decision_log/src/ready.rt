//! What may be sent.

ghost use Rattle.std.specs.Prelude.{◌≡◌, true, false};
ghost use Rattle.decision_log.specs.KeptState.{known};
ghost use Rattle.decision_log.specs.OutConditions.{IsLeaveOf, IsTold, Matches, completion_leave, if_durable, leave_of, notice_leave, own_leave, participant_leave, seat_leave, stranger_leave};
ghost use Rattle.decision_log.specs.declared.ready.Leave.TheVariants.{Echo, Free, Record};

use crate::kept::Kept;
use crate::kept_plan::is_of;
use crate::token::{Durable, What};
use at_base::id::Id;
use at_base::message::Message;
use at_base::notice::{Kind, Notice};
use at_base::outs::Out;
use at_base::target::Target;
use std::marker::Model;

/// What lets an out leave.
#[derive(Clone, Copy, Debug, PartialEq, Eq)]
pub enum Leave {
    /// Nothing need stand in the journal.
    Free,
    /// It is an answer from where nothing is known.
    Echo,
    /// A record of this id and of one of these kinds.
    Record { id: Id, one: What, other: What },
    /// It never leaves.
    Never,
}

fn if_durable(kind: Kind, leave: Leave) -> Leave
    ensures { result ≡ if_durable kind leave }
{
    match kind {
        Kind::Durable => leave,
        Kind::Volatile => Leave::Free,
    }
}

fn seat_leave(id: Id, kind: Kind, notice: Notice) -> Leave
    ensures { result ≡ seat_leave id kind notice }
{
    match notice {
        Notice::Commit => if_durable(
            kind,
            Leave::Record {
                id,
                one: What::Decided,
                other: What::SubCommitted,
            },
        ),
        _ => Leave::Free,
    }
}

fn completion_leave(id: Id, notice: Notice) -> Leave
    ensures { result ≡ completion_leave id notice }
{
    match notice {
        Notice::Committed => Leave::Record {
            id,
            one: What::Decided,
            other: What::Decided,
        },
        _ => Leave::Free,
    }
}

fn participant_leave(id: Id, kind: Kind, notice: Notice) -> Leave
    ensures { result ≡ participant_leave id kind notice }
{
    match notice {
        Notice::Prepared => if_durable(
            kind,
            Leave::Record {
                id,
                one: What::LeafPrepared,
                other: What::Voted,
            },
        ),
        Notice::Committed => if_durable(
            kind,
            Leave::Record {
                id,
                one: What::LeafCommitted,
                other: What::Ended,
            },
        ),
        _ => Leave::Free,
    }
}

fn stranger_leave(notice: Notice) -> Leave
    ensures { result ≡ stranger_leave notice }
{
    match notice {
        Notice::Rollback | Notice::Aborted | Notice::Committed => Leave::Echo,
        Notice::Prepare | Notice::Commit | Notice::Prepared | Notice::ReadOnly => Leave::Never,
    }
}

fn own_leave(own: Target, notice: Notice) -> Leave
    ensures { result ≡ own_leave own notice }
{
    match own {
        Target::Coordinator { id, seat } => seat_leave(id, seat.kind, notice),
        Target::Completion(id) => completion_leave(id, notice),
        Target::Participant { id, kind } => participant_leave(id, kind, notice),
        Target::Activation | Target::Registration(_) | Target::Initiator(_) | Target::Work => {
            Leave::Free
        }
    }
}

fn notice_leave(own: Option<Target>, notice: Notice) -> Leave
    ensures { result ≡ notice_leave own notice }
{
    match own {
        Some(target) => own_leave(target, notice),
        None => stranger_leave(notice),
    }
}

/// What lets the out leave.
pub fn leave_of(out: &Out) -> Leave
    ensures { result ≡ leave_of out.now }
{
    match out {
        Out::Post(post) => match &post.message {
            Message::Notice(notice) => notice_leave(post.own, *notice),
            _ => Leave::Free,
        },
        Out::Answer { .. } => Leave::Free,
    }
}

/// Whether the token is of a record that lets the out leave.
#[tactic(auto, using(crate::proofs::TokenKinds::of_one, crate::proofs::TokenKinds::of_other, crate::proofs::TokenKinds::of_neither))]
fn lets(id: Id, one: What, other: What, token: &Durable) -> bool
    ensures yes { result ≡ true → IsLeaveOf (Record id one other) token.now }
    ensures no { result ≡ false → IsLeaveOf (Record id one other) token.now → ⊥ }
{
    if is_of(token, id, one) {
        return true;
    }
    is_of(token, id, other)
}

/// Whether the token is of the record that the out waits for.
pub fn matches_token(out: &Out, token: &Durable) -> bool
    ensures yes { result ≡ true → Matches out.now token.now }
    ensures no { result ≡ false → Matches out.now token.now → ⊥ }
{
    match leave_of(out) {
        Leave::Record { id, one, other } => lets(id, one, other, token),
        Leave::Free | Leave::Echo | Leave::Never => false,
    }
}

/// Whether a root's initiator is told that it committed, and the outcome is kept.
pub fn is_told(out: &Out, kept: &Kept) -> bool
    ensures yes { result ≡ true → IsTold out.now (known kept.now).done }
    ensures no { result ≡ false → IsTold out.now (known kept.now).done → ⊥ }
{
    match out {
        Out::Post(post) => match (&post.own, &post.message) {
            (Some(Target::Completion(id)), Message::Notice(Notice::Committed)) => kept
                .done
                .has(*id),
            _ => false,
        },
        Out::Answer { .. } => false,
    }
}

/// An out that may be sent.
#[derive(Debug, Drop)]
pub struct Ready {
    out: Out,
}

impl Model for Ready {
    ghost use Rattle.at_base.specs.declared.outs.Out.{Out};

    ghost Value = { Out };

    ghost view = { λ r. r.out };
}

impl Ready {
    /// What waits for a record that stands.
    pub fn guarded(out: Out, token: &Durable) -> Ready
        requires { Matches out token.now }
        ensures { result ≡ out }
    {
        Ready { out }
    }

    /// What waits for no record.
    pub fn free(out: Out) -> Ready
        requires { leave_of out ≡ Free }
        ensures { result ≡ out }
    {
        Ready { out }
    }

    /// An answer from where nothing is known.
    pub fn echo(out: Out) -> Ready
        requires { leave_of out ≡ Echo }
        ensures { result ≡ out }
    {
        Ready { out }
    }

    /// What a root's initiator is told whose outcome is kept.
    pub fn told(out: Out, kept: &Kept) -> Ready
        requires { IsTold out (known kept.now).done }
        ensures { result ≡ out }
    {
        Ready { out }
    }

    /// The out, which is sent once.
    pub fn into_out(self) -> Out
        ensures { result ≡ self }
    {
        self.out
    }
}
