//! Register: which participants a transaction accepts, and what it answers (WS-Coordination 1.2, section 3.2).

ghost use Rattle.std.specs.Prelude.{◌≡◌, ◌<◌, ◌++◌, if◌then◌else◌, IfOk, OnOk, Some, None, length, nat_lt, option_copied, option_map, is_none};
ghost use Rattle.at_base.specs.declared.fault.Fault.TheVariants.{CannotRegisterParticipant, InvalidParameters, InvalidProtocol};
ghost use Rattle.at_base.specs.declared.limits.TheConstants.{MOST_SEATS};
ghost use Rattle.at_model.specs.Book.{is_epr};
ghost use Rattle.at_model.specs.Register.{protocol_named, seat_endpoint, completion_endpoint, seat_for, accepts, may_complete, may_register, registered_reply, is_late, new_seat, late_prepare, with_seat, accept_seat, accept, refuse_register, register_new, register_again, held_seat, on_register, register_unknown};
ghost use Rattle.at_tables.specs.declared.cells.State.TheVariants as states;
ghost use Rattle.at_model.specs.Book.{Transaction as Known};
ghost use Rattle.coordinator_at.specs.Registrations.{registered, registration_of};
ghost use Rattle.transaction_at.specs.Moves.{moved};
ghost use Rattle.transaction_at.specs.PhaseNames.{phase_of};

use at_base::epr::Epr;
use at_base::event::{Arrived, Moment};
use at_base::fault::Fault;
use at_base::id::Id;
use at_base::limits::MOST_SEATS;
use at_base::message::{Message, Register};
use at_base::notice::{Kind, Notice};
use at_base::outs::{Effects, OutList, Outs};
use at_base::target::Target;
use at_base::text::Text;
use at_posts::answers::{faulted, replied};
use at_posts::kept::kept;
use at_posts::posts::push_notice;
use at_tables::cells::State;
use by_id::list::Alteration;
use by_id::plan::{Branch, Plan};
use endpoints::addresses::endpoint_of;
use endpoints::uris::{completion_protocol, protocol_of};
use std::alloc::{AllocError, Global};
use transaction_at::moves::Move;
use transaction_at::seats::seat_target;
use transaction_at::transaction::{Completion, Enlistment, Phase, Transaction};

/// What a Register asks for: a seat of a kind, or none for Completion (WS-AtomicTransaction 1.2, section 3).
pub type Protocol = Option<Kind>;

/// What a Register does: a move of the transaction, or none, and what is sent.
#[derive(Debug)]
pub struct Registered {
    pub change: Option<Move>,
    pub outs: OutList,
}

impl Drop for Registered {
    fn drop(self) {
        let Registered {
            change: _change,
            outs: _outs,
        } = self;
    }
}

impl Registered {
    /// The plan of it, at the transaction of this id.
    pub fn into_plan(self, alloc: Global, id: Id) -> Plan<Transaction, Move>
        ensures { result ≡ registered id self }
    {
        let Registered { change, outs } = self;
        let change = match change {
            Some(by) => Alteration::Move { id, by },
            None => Alteration::Keep,
        };
        Plan::Plain(Branch {
            change,
            outs: Outs {
                outs,
                effects: Effects::from_vec(Vec::new(alloc)),
            },
        })
    }
}

/// The protocol of an identifier, or none where it is unknown.
fn protocol_named(name: &Text) -> Option<Protocol>
    ensures { result ≡ protocol_named name.now }
{
    if name.as_str() == protocol_of(Kind::Volatile) {
        Some(Some(Kind::Volatile))
    } else if name.as_str() == protocol_of(Kind::Durable) {
        Some(Some(Kind::Durable))
    } else if name.as_str() == completion_protocol() {
        Some(None)
    } else {
        None
    }
}

/// Whether two endpoints are the same.
fn is_same(a: &Epr, b: &Epr) -> bool
    ensures { result ≡ is_epr a.now b.now }
{
    a.address.as_str() == b.address.as_str() && a.params.as_str() == b.params.as_str()
}

/// The endpoint of the coordinator for a seat.
fn seat_endpoint(alloc: Global, base: &Text, id: Id, seat: &Enlistment) -> Result<Epr, AllocError>
    ensures { IfOk result (λ epr. epr ≡ seat_endpoint base.now id seat.now) }
{
    endpoint_of(alloc, base, &seat_target(id, seat))
}

/// The endpoint of the coordinator for the completion seat.
fn completion_endpoint(alloc: Global, base: &Text, id: Id) -> Result<Epr, AllocError>
    ensures { IfOk result (λ epr. epr ≡ completion_endpoint base.now id) }
{
    endpoint_of(alloc, base, &Target::Completion(id))
}

/// The coordinator's endpoint of the completion seat, where an endpoint has it.
fn completion_for(
    alloc: Global,
    moment: &Moment,
    transaction: &Transaction,
    participant: &Epr,
) -> Result<Option<Epr>, AllocError>
    ensures { IfOk result
        (λ held. held
        ≡ seat_for moment.entry.now.base transaction.now.id participant.now None transaction.now.seats
        transaction.now.completion) }
{
    match &transaction.completion {
        Some(completion) if is_same(&completion.initiator, participant) => Ok(Some(
            completion_endpoint(alloc, &moment.base, transaction.id)?,
        )),
        _ => Ok(None),
    }
}

/// The coordinator's endpoint of a seat that was found.
fn found_endpoint(
    alloc: Global,
    moment: &Moment,
    id: Id,
    found: Option<&Enlistment>,
) -> Result<Option<Epr>, AllocError>
    ensures { IfOk result
        (λ held. held ≡ option_map (seat_endpoint moment.entry.now.base id) (option_copied found.entry)) }
{
    match found {
        Some(seat) => Ok(Some(seat_endpoint(alloc, &moment.base, id, seat)?)),
        None => Ok(None),
    }
}

/// The coordinator's endpoint of the seat that an endpoint has for a protocol, also where it has left.
fn seat_for(
    alloc: Global,
    moment: &Moment,
    transaction: &Transaction,
    participant: &Epr,
    protocol: Protocol,
) -> Result<Option<Epr>, AllocError>
    ensures { IfOk result
        (λ held. held
        ≡ seat_for moment.entry.now.base transaction.now.id participant.now protocol transaction.now.seats
        transaction.now.completion) }
{
    match protocol {
        Some(kind) => {
            let found = transaction.seats.seat_of(kind, participant);
            found_endpoint(alloc, moment, transaction.id, found)
        }
        None => completion_for(alloc, moment, transaction, participant),
    }
}

/// Whether a new participant is accepted in this phase: until the durable ones are asked.
fn accepts(phase: Phase) -> bool
    ensures { result ≡ accepts (phase_of phase) }
{
    match phase {
        Phase::Active | Phase::Volatile => true,
        Phase::Registering | Phase::Durable | Phase::Voted | Phase::Committing | Phase::Aborting =>
            false,
    }
}

/// Whether Completion is for this transaction: a root that has no initiator yet (WS-AtomicTransaction 1.2, section
/// 3.2).
fn may_complete(transaction: &Transaction, protocol: Protocol) -> bool
    ensures { result ≡ may_complete transaction.now protocol }
{
    match protocol {
        Some(_) => true,
        None => transaction.superior.is_none() && transaction.completion.is_none(),
    }
}

/// Whether a seat is left.
fn has_room(transaction: &Transaction) -> bool
    ensures { result ≡ nat_lt (length transaction.now.seats) MOST_SEATS }
{
    transaction.seats.as_slice().len() < MOST_SEATS
}

/// Whether a transaction takes a new participant, or an initiator.
fn may_register(transaction: &Transaction, protocol: Protocol) -> bool
    ensures { result ≡ may_register transaction.now protocol }
{
    accepts(transaction.phase) && has_room(transaction) && may_complete(transaction, protocol)
}

/// Whether a participant registers while the volatile ones are asked, and is one of them.
fn is_late(phase: Phase, kind: Kind) -> bool
    ensures { result ≡ is_late (phase_of phase) kind }
{
    match (phase, kind) {
        (Phase::Volatile, Kind::Volatile) => true,
        _ => false,
    }
}

/// The state of a new seat.
fn first_state(phase: Phase, kind: Kind) -> State
    ensures { result ≡ (if is_late (phase_of phase) kind then states.Preparing else states.Active) }
{
    if is_late(phase, kind) {
        State::Preparing
    } else {
        State::Active
    }
}

/// The seat of a new participant.
fn new_seat(
    alloc: Global,
    transaction: &Transaction,
    participant: &Epr,
    kind: Kind,
) -> Result<Enlistment, AllocError>
    requires { length transaction.now.seats < MOST_SEATS }
    ensures { IfOk result (λ seat. seat ≡ new_seat transaction.now participant.now kind) }
{
    let participant = kept(alloc, participant)?;
    Ok(Enlistment {
        number: transaction.seats.as_slice().len() as u16 + 1,
        kind,
        participant,
        state: first_state(transaction.phase, kind),
    })
}

/// Room for one seat more, and the move that adds this one.
#[tactic(auto, using(crate::proofs::Registrations::enlists))]
fn enlisting(
    alloc: Global,
    moment: &Moment,
    transaction: &Transaction,
    seat: Enlistment,
) -> Result<Move, AllocError>
    ensures { IfOk result (λ by. moved by transaction.now ≡ with_seat moment.entry.now transaction.now seat) }
{
    let room = transaction.seats.room(alloc)?;
    let sent = if is_late(transaction.phase, seat.kind) {
        Some(moment.now)
    } else {
        None
    };
    Ok(Move::Enlisted { seat, sent, room })
}

/// The answer of a Register, with the coordinator's endpoint.
fn registered_reply(
    alloc: Global,
    arrived: &Arrived,
    coordinator: Epr,
) -> Result<OutList, AllocError>
    ensures { IfOk result (λ outs. outs ≡ registered_reply arrived.now coordinator) }
{
    replied(
        alloc,
        &arrived.reply,
        &arrived.id,
        Message::RegisterResponse(coordinator),
    )
}

/// Prepare to a participant that registered late.
fn push_late(
    alloc: Global,
    outs: &mut OutList,
    moment: &Moment,
    transaction: &Transaction,
    seat: &Enlistment,
) -> Result<(), AllocError>
    ensures { OnOk result
        (outs.new
        ≡ outs.old
        ++ late_prepare moment.entry.now transaction.now.id (is_late transaction.now.phase seat.now.kind) seat.now) }
{
    if is_late(transaction.phase, seat.kind) {
        let own = seat_target(transaction.id, seat);
        push_notice(
            alloc,
            outs,
            &moment.base,
            &own,
            &seat.participant,
            Notice::Prepare,
        )?;
    }
    Ok(())
}

/// Accepts a participant in this seat.
fn accept_seat(
    alloc: Global,
    moment: &Moment,
    arrived: &Arrived,
    transaction: &Transaction,
    seat: Enlistment,
) -> Result<Registered, AllocError>
    ensures { IfOk result
        (λ given. registration_of transaction.now given
        ≡ accept_seat moment.entry.now arrived.now transaction.now seat) }
{
    let coordinator = seat_endpoint(alloc, &moment.base, transaction.id, &seat)?;
    let mut outs = registered_reply(alloc, arrived, coordinator)?;
    push_late(alloc, &mut outs, moment, transaction, &seat)?;
    let by = enlisting(alloc, moment, transaction, seat)?;
    Ok(Registered {
        change: Some(by),
        outs,
    })
}

/// Accepts an initiator.
#[tactic(auto, unfolding(at_model::specs::Register::accept))]
fn accept_initiator(
    alloc: Global,
    moment: &Moment,
    arrived: &Arrived,
    transaction: &Transaction,
    initiator: &Epr,
) -> Result<Registered, AllocError>
    ensures { IfOk result
        (λ given. registration_of transaction.now given
        ≡ accept moment.entry.now arrived.now transaction.now initiator.now None) }
{
    let coordinator = completion_endpoint(alloc, &moment.base, transaction.id)?;
    let outs = registered_reply(alloc, arrived, coordinator)?;
    let initiator = kept(alloc, initiator)?;
    let completion = Completion {
        initiator,
        state: State::Active,
    };
    Ok(Registered {
        change: Some(Move::Initiator(completion)),
        outs,
    })
}

/// Accepts a participant, or an initiator.
#[tactic(auto, unfolding(at_model::specs::Register::accept))]
fn accept(
    alloc: Global,
    moment: &Moment,
    arrived: &Arrived,
    transaction: &Transaction,
    participant: &Epr,
    protocol: Protocol,
) -> Result<Registered, AllocError>
    requires { length transaction.now.seats < MOST_SEATS }
    ensures { IfOk result
        (λ given. registration_of transaction.now given
        ≡ accept moment.entry.now arrived.now transaction.now participant.now protocol) }
{
    match protocol {
        Some(kind) => {
            let seat = new_seat(alloc, transaction, participant, kind)?;
            accept_seat(alloc, moment, arrived, transaction, seat)
        }
        None => accept_initiator(alloc, moment, arrived, transaction, participant),
    }
}

/// A Register is refused with this fault, and changes nothing.
fn refuse_register(alloc: Global, arrived: &Arrived, fault: Fault) -> Result<Registered, AllocError>
    ensures { (t : Known) → IfOk result
        (λ given. registration_of t given ≡ refuse_register arrived.now t fault) }
{
    let outs = faulted(alloc, &arrived.fault, &arrived.id, fault)?;
    Ok(Registered { change: None, outs })
}

/// A Register that isn't repeated.
#[tactic(auto, unfolding(at_model::specs::Register::register_new))]
fn register_new(
    alloc: Global,
    moment: &Moment,
    arrived: &Arrived,
    register: &Register,
    transaction: &Transaction,
    protocol: Option<Protocol>,
) -> Result<Registered, AllocError>
    ensures { IfOk result
        (λ given. registration_of transaction.now given
        ≡ register_new moment.entry.now arrived.now register.now transaction.now protocol) }
{
    let Some(protocol) = protocol else {
        return refuse_register(alloc, arrived, Fault::InvalidProtocol);
    };
    if !arrived.postable {
        return refuse_register(alloc, arrived, Fault::InvalidParameters);
    }
    if may_register(transaction, protocol) {
        accept(
            alloc,
            moment,
            arrived,
            transaction,
            &register.participant,
            protocol,
        )
    } else {
        refuse_register(alloc, arrived, Fault::CannotRegisterParticipant)
    }
}

/// A repeated Register gets the same answer in every phase, and changes nothing.
fn register_again(
    alloc: Global,
    arrived: &Arrived,
    coordinator: Epr,
) -> Result<Registered, AllocError>
    ensures { (t : Known) → IfOk result
        (λ given. registration_of t given
        ≡ record { transaction = t; outs = registered_reply arrived.now coordinator }) }
{
    let outs = registered_reply(alloc, arrived, coordinator)?;
    Ok(Registered { change: None, outs })
}

/// The coordinator's endpoint of the seat that the sender of a Register has already.
fn held_seat(
    alloc: Global,
    moment: &Moment,
    register: &Register,
    transaction: &Transaction,
    protocol: Option<Protocol>,
) -> Result<Option<Epr>, AllocError>
    ensures { IfOk result
        (λ held. held ≡ held_seat moment.entry.now register.now transaction.now protocol) }
{
    match protocol {
        Some(protocol) => seat_for(alloc, moment, transaction, &register.participant, protocol),
        None => Ok(None),
    }
}

/// Register at a transaction: it accepts the participant or the initiator, answers a repeated one as before, or refuses
/// it by a fault.
#[tactic(auto, unfolding(at_model::specs::Register::on_register, at_model::specs::Register::register_again))]
pub fn on_register(
    alloc: Global,
    moment: &Moment,
    arrived: &Arrived,
    register: &Register,
    transaction: &Transaction,
) -> Result<Registered, AllocError>
    ensures { IfOk result
        (λ given. registration_of transaction.now given
        ≡ on_register moment.entry.now arrived.now register.now transaction.now) }
{
    let protocol = protocol_named(&register.protocol);
    match held_seat(alloc, moment, register, transaction, protocol)? {
        Some(coordinator) => register_again(alloc, arrived, coordinator),
        None => register_new(alloc, moment, arrived, register, transaction, protocol),
    }
}

/// The fault that a Register draws where no such transaction is known.
fn refusal_of(arrived: &Arrived, protocol: Option<Protocol>) -> Fault
    ensures { result
        ≡ if is_none protocol then InvalidProtocol
        else if arrived.now.postable then CannotRegisterParticipant else InvalidParameters }
{
    match protocol {
        None => Fault::InvalidProtocol,
        Some(_) => {
            if arrived.postable {
                Fault::CannotRegisterParticipant
            } else {
                Fault::InvalidParameters
            }
        }
    }
}

/// Register where no such transaction is known: a fault.
#[tactic(auto, unfolding(at_model::specs::Register::register_unknown))]
pub fn register_unknown(
    alloc: Global,
    arrived: &Arrived,
    register: &Register,
) -> Result<OutList, AllocError>
    ensures { IfOk result
        (λ outs. outs
        ≡ register_unknown arrived.now register.now (protocol_named register.now.protocol)) }
{
    let fault = refusal_of(arrived, protocol_named(&register.protocol));
    faulted(alloc, &arrived.fault, &arrived.id, fault)
}
