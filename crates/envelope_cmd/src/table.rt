//! The cell that a message meets, and what the cell posts.

ghost use Rattle.std.specs.Prelude.{◌≡◌, IfOk, Some};
ghost use Rattle.at_model.specs.Posts.{fault_post, from_on};
ghost use Rattle.envelope_cmd.specs.Cells.{cell_at, fault_of, meets, notice_of, notification, posted, sent};
ghost use Rattle.envelope_cmd.specs.Cells.{no_row_line};

use addressing::post_to::post_to;
use at_base::epr::{Epr, Reply};
use at_base::fault::Fault;
use at_base::message::{Message, cloned_option};
use at_base::notice::Notice;
use at_base::outs::Post;
use at_base::target::Target;
use at_base::text::Text;
use at_tables::cells::{
    Act, Cell, State, completion_cell, coordinator_cell, initiator_cell, participant_cell,
};
use std::alloc::{AllocError, Global};
use wire_msgs::decode::Arrival;

/// Why a message meets no cell: the first that holds.
#[derive(Clone, Copy, Debug, PartialEq, Eq)]
pub enum NoRow {
    /// It is no notification.
    NoCell,
    /// The table hasn't this state.
    NoState,
}

impl NoRow {
    /// The line of the refusal.
    pub fn line(self) -> &'static str
        ensures { result.now ≡ no_row_line self }
    {
        match self {
            NoRow::NoCell => "refused 14 NoCell\n",
            NoRow::NoState => "refused 15 NoState\n",
        }
    }
}

/// The cell of a state that a message for this target meets.
pub fn meets(target: &Target, state: State, message: &Message) -> Result<Cell, NoRow>
    ensures { result ≡ meets target.now state message.now }
{
    match message {
        Message::Notice(notice) => cell_at(target, state, *notice).ok_or(NoRow::NoState),
        _ => Err(NoRow::NoCell),
    }
}

fn cell_at(target: &Target, state: State, notice: Notice) -> Option<Cell>
    ensures { result ≡ cell_at target.now state notice }
{
    match target {
        Target::Coordinator { seat, .. } => coordinator_cell(seat.kind, state, notice),
        Target::Participant { kind, .. } => participant_cell(*kind, state, notice),
        Target::Completion(_) => completion_cell(state, notice),
        Target::Initiator(_) => initiator_cell(state, notice),
        Target::Activation | Target::Registration(_) | Target::Work => None,
    }
}

/// What an act posts to the sender of a message: a message of the table, or a fault. None where the message names no
/// sender or no destination, or where the sender can't be posted to.
pub fn posted(alloc: Global, arrival: &Arrival, act: Act) -> Result<Option<Post>, AllocError>
    ensures { IfOk result (λ post. post ≡ posted arrival.now act) }
{
    let (Some(from), Some(to)) = (&arrival.from, &arrival.to) else {
        return Ok(None);
    };
    if post_to(alloc, from)?.is_none() {
        return Ok(None);
    }
    let own = Epr {
        address: to.clone()?,
        params: Text::copied(alloc, "")?,
    };
    sent(alloc, act, from, &own, &arrival.id)
}

fn sent(
    alloc: Global,
    act: Act,
    to: &Epr,
    own: &Epr,
    id: &Option<Text>,
) -> Result<Option<Post>, AllocError>
    ensures { IfOk result (λ post. post ≡ sent (notice_of act) (fault_of act) to.now own.now id.now) }
{
    match (notice_of(act), fault_of(act)) {
        (Some(notice), _) => Ok(Some(notification(to, own, notice)?)),
        (None, Some(drawn)) => Ok(Some(fault(alloc, to, id, drawn)?)),
        (None, None) => Ok(None),
    }
}

/// The notification that an act sends, if any.
fn notice_of(act: Act) -> Option<Notice>
    ensures { result ≡ notice_of act }
{
    match act {
        Act::SendPrepared => Some(Notice::Prepared),
        Act::SendCommit => Some(Notice::Commit),
        Act::SendRollback => Some(Notice::Rollback),
        Act::SendCommitted => Some(Notice::Committed),
        Act::SendAborted | Act::AbortAndSendAborted | Act::RecordAndSendAborted => {
            Some(Notice::Aborted)
        }
        _ => None,
    }
}

/// The fault that an act posts, if any.
fn fault_of(act: Act) -> Option<Fault>
    ensures { result ≡ fault_of act }
{
    match act {
        Act::FaultUnknownTransaction => Some(Fault::UnknownTransaction),
        Act::FaultInvalidState | Act::FaultInvalidStateAndAbort => Some(Fault::InvalidState),
        _ => None,
    }
}

fn notification(to: &Epr, own: &Epr, notice: Notice) -> Result<Post, AllocError>
    ensures { IfOk result (λ post. post ≡ notification to.now own.now notice) }
{
    let to = to.clone()?;
    let from = from_on(notice, own)?;
    Ok(Post {
        own: None,
        to: Some(to),
        id: None,
        relates: None,
        from,
        reply: Some(Reply::Nobody),
        message: Message::Notice(notice),
    })
}

/// The From of a notification: it stands on those that may draw an answer where nothing is known.
fn from_on(notice: Notice, own: &Epr) -> Result<Option<Epr>, AllocError>
    ensures { IfOk result (λ from. from ≡ from_on notice own.now) }
{
    match notice {
        Notice::Prepare | Notice::Commit | Notice::Rollback | Notice::Prepared => {
            Ok(Some(own.clone()?))
        }
        Notice::ReadOnly | Notice::Aborted | Notice::Committed => Ok(None),
    }
}

fn fault(alloc: Global, to: &Epr, id: &Option<Text>, drawn: Fault) -> Result<Post, AllocError>
    ensures { IfOk result (λ post. post ≡ fault_post (Some to.now) id.now drawn) }
{
    let to = to.clone()?;
    let relates = cloned_option(id)?;
    let name = Text::copied(alloc, drawn.name())?;
    Ok(Post {
        own: None,
        to: Some(to),
        id: None,
        relates,
        from: None,
        reply: None,
        message: Message::Fault { name },
    })
}
