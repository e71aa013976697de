//! Work: a new leaf (WS-Coordination 1.2, section 4.1; this project's profile).

ghost use Rattle.std.specs.Prelude.{◌≡◌, ◌++◌, ◌∷◌, IfOk, [], Some, None};
ghost use Rattle.at_base.specs.declared.outs.Out.TheVariants as outcome;
ghost use Rattle.at_model.specs.Posts.{accepted};
ghost use Rattle.at_model.specs.Leaves.{new_leaf, leaf_register, refuse_work, employ, work_for, on_work};
ghost use Rattle.participant_at.specs.LeafPlans.{employed};

use crate::leaf::{Leaf, WorkRequest};
use crate::posts::{Answer, leaf_register, replied};
use at_base::epr::{Epr, Reply};
use at_base::event::{Arrived, Moment};
use at_base::id::Id;
use at_base::limits::MOST_ITEMS;
use at_base::message::Work;
use at_base::outs::{Out, OutList};
use at_posts::answers::accepted;
use at_posts::kept::{kept, kept_option, kept_text};
use at_tables::cells::State;
use by_id::plan::Plan;
use by_id::times::deadline_of;
use std::alloc::{AllocError, Global};

/// The Work that a new leaf is to answer.
fn request_of(
    alloc: Global,
    arrived: &Arrived,
    reply: &Epr,
    registration: &Epr,
) -> Result<WorkRequest, AllocError>
    ensures { IfOk result
        (λ request. request
        ≡ record { id = arrived.now.id; reply = reply.now; registration = registration.now }) }
{
    let id = kept_option(alloc, &arrived.id)?;
    let reply = kept(alloc, reply)?;
    let registration = kept(alloc, registration)?;
    Ok(WorkRequest {
        id,
        reply,
        registration,
    })
}

/// A new leaf.
fn new_leaf(
    alloc: Global,
    moment: &Moment,
    id: Id,
    arrived: &Arrived,
    reply: &Epr,
    work: &Work,
) -> Result<Leaf, AllocError>
    ensures { IfOk result (λ leaf. leaf ≡ new_leaf moment.entry.now id arrived.now reply.now work.now) }
{
    let key = kept_text(alloc, &work.key)?;
    let value = kept_text(alloc, &work.value)?;
    let request = request_of(alloc, arrived, reply, &work.context.registration)?;
    Ok(Leaf {
        id,
        kind: work.kind,
        vote: work.vote,
        key,
        value,
        state: State::Registering,
        coordinator: None,
        request: Some(request),
        deadline: deadline_of(moment.now, work.context.expires),
        sent: Some(moment.now),
    })
}

/// The Work is refused.
fn refuse(alloc: Global, arrived: &Arrived) -> Result<Plan<Leaf, ()>, AllocError>
    ensures { IfOk result (λ plan. plan ≡ employed (refuse_work arrived.now)) }
{
    let outs = replied(alloc, &arrived.reply, &arrived.id, Answer::Refused)?;
    Ok(Plan::still(alloc, outs))
}

/// The answer of the Work that made a leaf, and the leaf's Register under the context that it was given.
fn first_outs(
    alloc: Global,
    moment: &Moment,
    leaf: &Leaf,
    registration: &Epr,
) -> Result<OutList, AllocError>
    ensures { IfOk result
        (λ outs. outs
        ≡ accepted ++ outcome.Post (leaf_register moment.entry.now leaf.now registration.now) ∷ []) }
{
    let register = leaf_register(alloc, moment, leaf, registration)?;
    let mut outs = accepted(alloc)?;
    outs.push(Out::Post(register))?;
    Ok(outs)
}

/// A new leaf, which registers.
fn employ(
    alloc: Global,
    moment: &Moment,
    id: Id,
    arrived: &Arrived,
    reply: &Epr,
    work: &Work,
) -> Result<Plan<Leaf, ()>, AllocError>
    ensures { IfOk result
        (λ plan. plan
        ≡ employed
        (employ moment.entry.now arrived.now (new_leaf moment.entry.now id arrived.now reply.now work.now)
        work.now.context.registration)) }
{
    let leaf = new_leaf(alloc, moment, id, arrived, reply, work)?;
    let outs = first_outs(alloc, moment, &leaf, &work.context.registration)?;
    Ok(Plan::making(alloc, leaf, outs))
}

/// Work whose answer has an endpoint makes a leaf.
fn employ_for(
    alloc: Global,
    moment: &Moment,
    id: Id,
    arrived: &Arrived,
    work: &Work,
) -> Result<Plan<Leaf, ()>, AllocError>
    ensures { IfOk result
        (λ plan. plan ≡ employed (work_for moment.entry.now id arrived.now work.now arrived.now.reply)) }
{
    match &arrived.reply {
        Reply::At(reply) => employ(alloc, moment, id, arrived, reply, work),
        Reply::Anonymous | Reply::Nobody => refuse(alloc, arrived),
    }
}

/// Work where so many leaves live.
#[tactic(auto, unfolding(at_model::specs::Leaves::on_work))]
pub fn on_work(
    alloc: Global,
    moment: &Moment,
    live: usize,
    arrived: &Arrived,
    work: &Work,
) -> Result<Plan<Leaf, ()>, AllocError>
    ensures { IfOk result
        (λ plan. plan
        ≡ employed (on_work moment.entry.now live arrived.now work.now moment.entry.now.next)) }
{
    match moment.next {
        Some(id) if live < MOST_ITEMS => employ_for(alloc, moment, id, arrived, work),
        _ => refuse(alloc, arrived),
    }
}
