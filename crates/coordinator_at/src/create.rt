//! CreateCoordinationContext: new transactions, roots and subordinates (WS-Coordination 1.2, section 3.1).

ghost use Rattle.std.specs.Prelude.{◌≡◌, ◌++◌, ◌∷◌, ◌&&◌, IfOk, OnOk, [], nat_lt, bytes_eq};
ghost use Rattle.at_base.specs.declared.limits.TheConstants.{MOST_ITEMS};
ghost use Rattle.at_base.specs.declared.fault.Fault.TheVariants.{CannotCreateContext};
ghost use Rattle.at_base.specs.declared.message.Message.TheVariants as messages;
ghost use Rattle.at_base.specs.declared.outs.Out.TheVariants as outcome;
ghost use Rattle.endpoints.specs.Addresses.{atomic};
ghost use Rattle.at_model.specs.Arrivals.{context_of};
ghost use Rattle.at_model.specs.Create.{identifier_of, new_root, expires_under, new_link, new_subordinate, link_register, subordinate_posts, refuse_create, create_root, create_under, create_in, on_create};
ghost use Rattle.at_model.specs.Posts.{accepted, replied};
ghost use Rattle.by_id.specs.Plans.{making};
ghost use Rattle.coordinator_at.specs.TransactionPlans.{created};

use at_base::epr::{Epr, Reply};
use at_base::event::{Arrived, Moment};
use at_base::fault::Fault;
use at_base::id::Id;
use at_base::limits::MOST_ITEMS;
use at_base::message::{Context, Create, Message};
use at_base::notice::Kind;
use at_base::outs::OutList;
use at_base::target::Target;
use at_base::text::Text;
use at_posts::answers::{accepted, faulted, replied};
use at_posts::kept::{kept, kept_option, kept_reply, kept_text};
use at_posts::posts::push_register;
use at_tables::cells::State;
use by_id::plan::Plan;
use by_id::times::deadline_of;
use endpoints::uris::{atomic, protocol_of};
use std::alloc::{AllocError, Global};
use transaction_at::answer::context_of;
use transaction_at::moves::Move;
use transaction_at::transaction::{Link, Phase, Request, Seats, Superior, Transaction};

/// The Identifier of a root, which copies share.
pub fn identifier_of(alloc: Global, base: &Text, id: Id) -> Result<Text, AllocError>
    ensures { IfOk result (λ identifier. identifier ≡ identifier_of base.now id) }
{
    Text::from_string(format!(in alloc; "{}/t/{}", base, id)?).into_shared(alloc)
}

/// A transaction of the node's own.
fn new_root(
    alloc: Global,
    moment: &Moment,
    id: Id,
    create: &Create,
) -> Result<Transaction, AllocError>
    ensures { IfOk result (λ transaction. transaction ≡ new_root moment.entry.now id create.now) }
{
    let identifier = identifier_of(alloc, &moment.base, id)?;
    Ok(Transaction {
        id,
        identifier,
        superior: None,
        phase: Phase::Active,
        deadline: deadline_of(moment.now, create.expires),
        sent: None,
        aborted: None,
        seats: Seats::new(alloc),
        completion: None,
    })
}

/// The fault CannotCreateContext.
fn refuse_create(alloc: Global, arrived: &Arrived) -> Result<Plan<Transaction, Move>, AllocError>
    ensures { IfOk result (λ plan. plan ≡ created (refuse_create arrived.now)) }
{
    let outs = faulted(
        alloc,
        &arrived.fault,
        &arrived.id,
        Fault::CannotCreateContext,
    )?;
    Ok(Plan::still(alloc, outs))
}

/// The answer of a CreateCoordinationContext that made a root.
fn context_reply(
    alloc: Global,
    moment: &Moment,
    arrived: &Arrived,
    transaction: &Transaction,
    expires: Option<u32>,
) -> Result<OutList, AllocError>
    ensures { IfOk result
        (λ outs. outs
        ≡ replied arrived.now.reply arrived.now.id
        (messages.CreateResponse (context_of moment.entry.now.base transaction.now expires))) }
{
    let context = context_of(alloc, &moment.base, transaction, expires)?;
    replied(
        alloc,
        &arrived.reply,
        &arrived.id,
        Message::CreateResponse(context),
    )
}

/// A root, which is answered at once.
fn create_root(
    alloc: Global,
    moment: &Moment,
    id: Id,
    arrived: &Arrived,
    create: &Create,
) -> Result<Plan<Transaction, Move>, AllocError>
    ensures { IfOk result
        (λ plan. plan ≡ created (create_root moment.entry.now id arrived.now create.now)) }
{
    let transaction = new_root(alloc, moment, id, create)?;
    let outs = context_reply(alloc, moment, arrived, &transaction, create.expires)?;
    Ok(Plan::making(alloc, transaction, outs))
}

/// Its own Expires, or else its superior's.
fn expires_under(create: &Create, current: &Context) -> Option<u32>
    ensures { result ≡ expires_under create.now current.now }
{
    match create.expires {
        Some(ms) => Some(ms),
        None => current.expires,
    }
}

/// A link whose Register waits for its answer.
fn new_link() -> Link
    ensures { result ≡ new_link }
{
    Link {
        state: State::Registering,
        coordinator: None,
    }
}

/// The CreateCoordinationContext that a subordinate is to answer.
fn request_of(
    alloc: Global,
    arrived: &Arrived,
    reply: &Epr,
    create: &Create,
    current: &Context,
) -> Result<Request, AllocError>
    ensures { IfOk result
        (λ request. request
        ≡ record {
          id = arrived.now.id;
          reply = reply.now;
          fault = arrived.now.fault;
          expires = expires_under create.now current.now;
          registration = current.now.registration;
        }) }
{
    let id = kept_option(alloc, &arrived.id)?;
    let reply = kept(alloc, reply)?;
    let fault = kept_reply(alloc, &arrived.fault)?;
    let registration = kept(alloc, &current.registration)?;
    Ok(Request {
        id,
        reply,
        fault,
        expires: expires_under(create, current),
        registration,
    })
}

/// A transaction under the one of CurrentContext, whose Identifier it keeps.
fn new_subordinate(
    alloc: Global,
    moment: &Moment,
    id: Id,
    arrived: &Arrived,
    reply: &Epr,
    create: &Create,
    current: &Context,
) -> Result<Transaction, AllocError>
    ensures { IfOk result
        (λ transaction. transaction
        ≡ new_subordinate moment.entry.now id arrived.now reply.now create.now current.now) }
{
    let identifier = kept_text(alloc, &current.identifier)?;
    let request = request_of(alloc, arrived, reply, create, current)?;
    Ok(Transaction {
        id,
        identifier,
        superior: Some(Superior {
            volatile: new_link(),
            durable: new_link(),
            request: Some(request),
        }),
        phase: Phase::Registering,
        deadline: deadline_of(moment.now, expires_under(create, current)),
        sent: Some(moment.now),
        aborted: None,
        seats: Seats::new(alloc),
        completion: None,
    })
}

/// A subordinate's Register for a link.
fn push_link_register(
    alloc: Global,
    outs: &mut OutList,
    moment: &Moment,
    id: Id,
    kind: Kind,
    to: &Epr,
) -> Result<(), AllocError>
    ensures { OnOk result
        (outs.new ≡ outs.old ++ outcome.Post (link_register moment.entry.now.base id kind to.now) ∷ []) }
{
    let own = Target::Participant { id, kind };
    push_register(alloc, outs, &moment.base, &own, protocol_of(kind), to)
}

/// The answer of a subordinate's CreateCoordinationContext for now, and its two Registers.
fn subordinate_outs(
    alloc: Global,
    moment: &Moment,
    id: Id,
    current: &Context,
) -> Result<OutList, AllocError>
    ensures { IfOk result (λ outs. outs ≡ accepted ++ subordinate_posts moment.entry.now id current.now) }
{
    let mut outs = accepted(alloc)?;
    let to = &current.registration;
    push_link_register(alloc, &mut outs, moment, id, Kind::Volatile, to)?;
    push_link_register(alloc, &mut outs, moment, id, Kind::Durable, to)?;
    Ok(outs)
}

/// A subordinate, which registers.
fn create_subordinate(
    alloc: Global,
    moment: &Moment,
    id: Id,
    arrived: &Arrived,
    reply: &Epr,
    create: &Create,
    current: &Context,
) -> Result<Plan<Transaction, Move>, AllocError>
    ensures { IfOk result
        (λ plan. plan
        ≡ making (new_subordinate moment.entry.now id arrived.now reply.now create.now current.now)
        (accepted ++ subordinate_posts moment.entry.now id current.now)) }
{
    let transaction = new_subordinate(alloc, moment, id, arrived, reply, create, current)?;
    let outs = subordinate_outs(alloc, moment, id, current)?;
    Ok(Plan::making(alloc, transaction, outs))
}

/// A subordinate answers only once it is registered, so its request needs an endpoint to answer to.
#[tactic(auto, unfolding(at_model::specs::Create::create_under))]
fn create_under(
    alloc: Global,
    moment: &Moment,
    id: Id,
    arrived: &Arrived,
    create: &Create,
    current: &Context,
) -> Result<Plan<Transaction, Move>, AllocError>
    ensures { IfOk result
        (λ plan. plan
        ≡ created
        (create_under moment.entry.now id arrived.now create.now current.now arrived.now.reply)) }
{
    match &arrived.reply {
        Reply::At(reply) => create_subordinate(alloc, moment, id, arrived, reply, create, current),
        Reply::Anonymous | Reply::Nobody => refuse_create(alloc, arrived),
    }
}

/// A root, or a subordinate of the transaction of CurrentContext.
#[tactic(auto, unfolding(at_model::specs::Create::create_in))]
fn create_in(
    alloc: Global,
    moment: &Moment,
    id: Id,
    arrived: &Arrived,
    create: &Create,
) -> Result<Plan<Transaction, Move>, AllocError>
    ensures { IfOk result
        (λ plan. plan
        ≡ created (create_in moment.entry.now id arrived.now create.now create.now.current)) }
{
    match &create.current {
        Some(current) => create_under(alloc, moment, id, arrived, create, current),
        None => create_root(alloc, moment, id, arrived, create),
    }
}

/// Whether the coordination type is atomic transactions.
fn is_atomic(create: &Create) -> bool
    ensures { result ≡ bytes_eq create.now.coordination atomic }
{
    create.coordination.as_str() == atomic()
}

/// Whether a transaction is made: of the coordination type of atomic transactions, and with fewer than 1,024 alive.
fn may_create(create: &Create, live: usize) -> bool
    ensures { result ≡ (bytes_eq create.now.coordination atomic && nat_lt live MOST_ITEMS) }
{
    is_atomic(create) && live < MOST_ITEMS
}

/// CreateCoordinationContext where so many transactions live.
#[tactic(auto, unfolding(at_model::specs::Create::on_create))]
pub fn on_create(
    alloc: Global,
    moment: &Moment,
    live: usize,
    arrived: &Arrived,
    create: &Create,
) -> Result<Plan<Transaction, Move>, AllocError>
    ensures { IfOk result
        (λ plan. plan
        ≡ created (on_create moment.entry.now live arrived.now create.now moment.entry.now.next)) }
{
    let Some(id) = moment.next else {
        return refuse_create(alloc, arrived);
    };
    if may_create(create, live) {
        create_in(alloc, moment, id, arrived, create)
    } else {
        refuse_create(alloc, arrived)
    }
}
