//! How a message at what isn't known is answered: its state is None (WS-AtomicTransaction 1.2, section 3.3.4).

ghost use Rattle.std.specs.Prelude.{◌≡◌, ◌++◌, IfOk, OnOk, map};
ghost use Rattle.at_base.specs.declared.outs.Out.TheVariants as out;
ghost use Rattle.at_model.specs.Posts.{accepted};
ghost use Rattle.at_model.specs.Step.{outcome_act, outcome_cell, stranger_act, stranger_cell};
ghost use Rattle.interposition.specs.Strangers.{answered, cell_of_none, committed, nothing, stranger};

use crate::plan::Part;
use at_base::epr::Epr;
use at_base::event::{Arrived, Moment};
use at_base::fault::Fault;
use at_base::message::Message;
use at_base::notice::Notice;
use at_base::outs::{Effects, Out, OutList, Outs};
use at_base::target::Target;
use at_posts::answers::accepted;
use at_posts::posts::{notice_post, push_fault, push_stranger};
use at_tables::cells::{
    Act, Cell, State, completion_cell, coordinator_cell, initiator_cell, participant_cell,
};
use std::alloc::{AllocError, Global};

/// No item moves, and this is sent.
pub fn answered(alloc: Global, outs: OutList) -> Part
    ensures { result ≡ answered outs }
{
    Part::Still {
        noted: true,
        outs: Outs {
            outs,
            effects: Effects::from_vec(Vec::new(alloc)),
        },
    }
}

/// Nothing happens, and the time isn't noted.
pub fn nothing(alloc: Global) -> Part
    ensures { result ≡ nothing }
{
    Part::Still {
        noted: false,
        outs: Outs {
            outs: OutList::from_vec(Vec::new(alloc)),
            effects: Effects::from_vec(Vec::new(alloc)),
        },
    }
}

/// A message that does nothing is accepted.
pub fn ignored(alloc: Global) -> Result<Part, AllocError>
    ensures { IfOk result (λ part. part ≡ answered accepted) }
{
    let outs = accepted(alloc)?;
    Ok(answered(alloc, outs))
}

/// The cell of what isn't known.
fn cell_of_none(target: Target, notice: Notice) -> Option<Cell>
    ensures { result ≡ cell_of_none target notice }
{
    match target {
        Target::Activation | Target::Registration(_) | Target::Work => None,
        Target::Completion(_) => completion_cell(State::None, notice),
        Target::Coordinator { seat, .. } => coordinator_cell(seat.kind, State::None, notice),
        Target::Participant { kind, .. } => participant_cell(kind, State::None, notice),
        Target::Initiator(_) => initiator_cell(State::None, notice),
    }
}

fn push_act_to(
    alloc: Global,
    outs: &mut OutList,
    moment: &Moment,
    arrived: &Arrived,
    to: &Epr,
    act: Act,
) -> Result<(), AllocError>
    ensures { OnOk result
        (outs.new
        ≡ outs.old
        ++ map out.Post (stranger_act moment.entry.now.base arrived.now.target (Some to.now) arrived.now.id act)) }
{
    let base = &moment.base;
    let own = &arrived.target;
    match act {
        Act::SendRollback => push_stranger(alloc, outs, base, own, to, Notice::Rollback),
        Act::SendCommitted => push_stranger(alloc, outs, base, own, to, Notice::Committed),
        Act::SendAborted => push_stranger(alloc, outs, base, own, to, Notice::Aborted),
        Act::FaultUnknownTransaction => push_fault(
            alloc,
            outs,
            to,
            &arrived.id,
            Fault::UnknownTransaction,
        ),
        _ => Ok(()),
    }
}

fn push_act(
    alloc: Global,
    outs: &mut OutList,
    moment: &Moment,
    arrived: &Arrived,
    act: Act,
) -> Result<(), AllocError>
    ensures { OnOk result
        (outs.new
        ≡ outs.old
        ++ map out.Post (stranger_act moment.entry.now.base arrived.now.target arrived.now.from arrived.now.id act)) }
{
    match &arrived.from {
        Some(to) => push_act_to(alloc, outs, moment, arrived, to, act),
        None => Ok(()),
    }
}

fn push_cell(
    alloc: Global,
    outs: &mut OutList,
    moment: &Moment,
    arrived: &Arrived,
    cell: Option<Cell>,
) -> Result<(), AllocError>
    ensures { OnOk result
        (outs.new
        ≡ outs.old
        ++ map out.Post (stranger_cell moment.entry.now.base arrived.now.target arrived.now.from arrived.now.id cell)) }
{
    match cell {
        Some(cell) => push_act(alloc, outs, moment, arrived, cell.act),
        None => Ok(()),
    }
}

/// A message at what isn't known.
pub fn stranger(alloc: Global, moment: &Moment, arrived: &Arrived) -> Result<Part, AllocError>
    ensures { IfOk result
        (λ part. part ≡ stranger moment.entry.now arrived.now arrived.now.target arrived.now.message) }
{
    match &arrived.message {
        Message::Notice(notice) => {
            let mut outs = accepted(alloc)?;
            let cell = cell_of_none(arrived.target, *notice);
            push_cell(alloc, &mut outs, moment, arrived, cell)?;
            Ok(answered(alloc, outs))
        }
        _ => ignored(alloc),
    }
}

fn push_outcome_to(
    alloc: Global,
    outs: &mut OutList,
    moment: &Moment,
    arrived: &Arrived,
    to: &Epr,
    act: Act,
) -> Result<(), AllocError>
    ensures { OnOk result
        (outs.new
        ≡ outs.old
        ++ map out.Post (outcome_act moment.entry.now.base arrived.now.target (Some to.now) arrived.now.id act)) }
{
    match act {
        Act::SendCommitted => {
            let post = notice_post(alloc, &moment.base, &arrived.target, to, Notice::Committed)?;
            outs.push(Out::Post(post))
        }
        Act::FaultInvalidState => push_fault(alloc, outs, to, &arrived.id, Fault::InvalidState),
        _ => Ok(()),
    }
}

fn push_outcome(
    alloc: Global,
    outs: &mut OutList,
    moment: &Moment,
    arrived: &Arrived,
    cell: Option<Cell>,
) -> Result<(), AllocError>
    ensures { OnOk result
        (outs.new
        ≡ outs.old
        ++ map out.Post (outcome_cell moment.entry.now.base arrived.now.target arrived.now.from arrived.now.id cell)) }
{
    let Some(cell) = cell else {
        return Ok(());
    };
    match &arrived.from {
        Some(to) => push_outcome_to(alloc, outs, moment, arrived, to, cell.act),
        None => Ok(()),
    }
}

/// A message at the completion seat of a root that committed, where the seat isn't there any more.
pub fn committed(alloc: Global, moment: &Moment, arrived: &Arrived) -> Result<Part, AllocError>
    ensures { IfOk result
        (λ part. part ≡ committed moment.entry.now arrived.now arrived.now.target arrived.now.message) }
{
    match &arrived.message {
        Message::Notice(notice) => {
            let mut outs = accepted(alloc)?;
            let cell = completion_cell(State::Done, *notice);
            push_outcome(alloc, &mut outs, moment, arrived, cell)?;
            Ok(answered(alloc, outs))
        }
        _ => ignored(alloc),
    }
}
