//! What a Register, a CreateCoordinationContext and the passing of time do to transactions, written out by hand.

use crate::shared::{
    are_sent, epr, follows, moment_at, one, part, planned, stands, transaction_of,
};
use at_base::epr::Reply;
use at_base::event::{Arrived, Event, Item, Moment};
use at_base::id::Id;
use at_base::message::{Context, Create, Message, Register};
use at_base::notice::Kind;
use at_base::outs::{Effects, OutList, Outs};
use at_base::target::Target;
use at_base::text::Text;
use coordinator_at::counted::{Steps, answered};
use coordinator_at::register::register_unknown;
use coordinator_at::transactions::Transactions;
use std::alloc::{AllocError, Global};
use std::test::Fail;
use transaction_at::transaction::{Completion, Enlistment};

/// A transaction, the protocol of a Register, its participant, and whether that can be posted to; then what is sent; then
/// the number of seats, and the state of the last one and of the completion seat.
const REGISTERS: &str = "\
root Active - - Durable new yes|202 http://n1/c/d/1-1/1@reply|1 Active -\n\
root Active 511xActive - Volatile new yes|202 http://n1/c/v/1-1/512@reply|512 Active -\n\
root Active 512xActive - Volatile new yes|202 CannotRegisterParticipant@fault|512 Active -\n\
root Active 512xActive - Durable p512 yes|202 http://n1/c/d/1-1/512@reply|512 Active -\n\
root Active D:Active - Volatile p1 yes|202 http://n1/c/v/1-1/2@reply|2 Active -\n\
root Volatile D:Active - Durable new yes|202 http://n1/c/d/1-1/2@reply|2 Active -\n\
root Volatile D:Active - Volatile new yes|202 http://n1/c/v/1-1/2@reply Prepare@new|2 Preparing -\n\
root Durable D:Active - Durable new yes|202 CannotRegisterParticipant@fault|1 Active -\n\
root Durable D:Active - Volatile new yes|202 CannotRegisterParticipant@fault|1 Active -\n\
Registering/Registering Registering - - Durable new yes|202 CannotRegisterParticipant@fault|0 - -\n\
None/PreparedSuccess Voted D:Active - Durable new yes|202 CannotRegisterParticipant@fault|1 Active -\n\
root Committing D:Active - Durable new yes|202 CannotRegisterParticipant@fault|1 Active -\n\
root Aborting D:Active - Durable new yes|202 CannotRegisterParticipant@fault|1 Active -\n\
Registering/Registering Registering D:Active - Durable p1 yes|202 http://n1/c/d/1-1/1@reply|1 Active -\n\
root Active D:Active - Durable p1 yes|202 http://n1/c/d/1-1/1@reply|1 Active -\n\
root Volatile D:Active - Durable p1 yes|202 http://n1/c/d/1-1/1@reply|1 Active -\n\
root Durable D:Active - Durable p1 yes|202 http://n1/c/d/1-1/1@reply|1 Active -\n\
None/PreparedSuccess Voted D:Active - Durable p1 yes|202 http://n1/c/d/1-1/1@reply|1 Active -\n\
root Committing D:Active - Durable p1 yes|202 http://n1/c/d/1-1/1@reply|1 Active -\n\
root Aborting D:Active - Durable p1 yes|202 http://n1/c/d/1-1/1@reply|1 Active -\n\
root Active D:Active - Durable p1 no|202 http://n1/c/d/1-1/1@reply|1 Active -\n\
root Active D:Active - Durable new no|202 InvalidParameters@fault|1 Active -\n\
root Active D:Active - Unknown new yes|202 InvalidProtocol@fault|1 Active -\n\
root Active D:Active - Unknown new no|202 InvalidProtocol@fault|1 Active -\n\
root Active - - Completion new yes|202 http://n1/completion/1-1@reply|0 - Active\n\
root Active 511xActive - Completion new yes|202 http://n1/completion/1-1@reply|511 Active Active\n\
root Active 512xActive - Completion new yes|202 CannotRegisterParticipant@fault|512 Active -\n\
root Active 512xActive Completing Completion initiator yes|202 http://n1/completion/1-1@reply|512 Active Completing\n\
root Active - Completing Completion initiator yes|202 http://n1/completion/1-1@reply|0 - Completing\n\
root Committing - Completing Completion initiator yes|202 http://n1/completion/1-1@reply|0 - Completing\n\
root Active - Completing Completion new yes|202 CannotRegisterParticipant@fault|0 - Completing\n\
Active/Active Active - - Completion new yes|202 CannotRegisterParticipant@fault|0 - -\n\
root Durable - - Completion new yes|202 CannotRegisterParticipant@fault|0 - -\n\
";

/// A transaction, and when it is asked; then what is left of it, and what is sent and happened.
const TIMES: &str = "\
root Active D:Active - 199999|Active Active\n\
root Active D:Active - 200000|Aborting* Aborting Rollback@p1 RootAborted\n\
Registering/Registering Registering D:Active - 200000|Aborting* /None/None Aborting Rollback@p1 CannotCreateContext@faults SubAborted\n\
root Volatile D:Preparing - 200000|Aborting* Aborting Rollback@p1 RootAborted\n\
root Durable D:Prepared - 200000|Aborting* Aborting Rollback@p1 RootAborted\n\
root Durable D:None - 200000|gone RootAborted\n\
root Active D:None Completing 200000|gone Aborted@initiator RootAborted\n\
None/PreparedSuccess Voted D:Prepared - 200000|Voted* /None/PreparedSuccess Prepared Prepared@durable\n\
root Committing D:Committing - 200000|Committing* Committing Commit@p1\n\
root Committing D:Committing - 104999|Committing Committing\n\
root Committing D:Committing - 105000|Committing* Committing Commit@p1\n\
root Committing D:None - 105000|Committing None\n\
root Durable D:Preparing - 105000|Durable* Preparing Prepare@p1\n\
root Durable D:Prepared - 105000|Durable Prepared\n\
None/PreparedSuccess Voted D:Committing - 105000|Voted* /None/PreparedSuccess Committing Prepared@durable Commit@p1\n\
Registering/Registering Registering D:Preparing - 105000|Registering* /Registering/Registering Preparing Register@registration Register@registration Prepare@p1\n\
root Aborting D:Aborting - 209999|Aborting* Aborting Rollback@p1\n\
root Aborting D:Aborting - 210000|gone\n\
";

fn arrived(
    alloc: Global,
    target: Target,
    postable: bool,
    message: Message,
) -> Result<Event, AllocError> {
    let reply = epr(alloc, "reply")?;
    let fault = epr(alloc, "fault")?;
    Ok(Event::Arrived(Arrived {
        target,
        id: None,
        relates: None,
        from: None,
        reply: Reply::At(reply),
        fault: Reply::At(fault),
        postable,
        message,
    }))
}

fn protocol_of(name: &str) -> &'static str {
    match name {
        "Volatile" => "http://docs.oasis-open.org/ws-tx/wsat/2006/06/Volatile2PC",
        "Durable" => "http://docs.oasis-open.org/ws-tx/wsat/2006/06/Durable2PC",
        "Completion" => "http://docs.oasis-open.org/ws-tx/wsat/2006/06/Completion",
        _ => "http://docs.oasis-open.org/ws-tx/wsat/2006/06/",
    }
}

fn register_of(alloc: Global, protocol: &str, participant: &str) -> Result<Message, AllocError> {
    let protocol = Text::copied(alloc, protocol_of(protocol))?;
    let participant = epr(alloc, participant)?;
    Ok(Message::Register(Register {
        protocol,
        participant,
    }))
}

/// A Register at the transaction 1-1.
fn register(
    alloc: Global,
    protocol: &str,
    participant: &str,
    postable: bool,
) -> Result<Event, AllocError> {
    let register = register_of(alloc, protocol, participant)?;
    arrived(
        alloc,
        Target::Registration(Id::new(1, 1)),
        postable,
        register,
    )
}

fn completion_name(completion: &Option<Completion>) -> &'static str {
    match completion {
        Some(completion) => completion.state.name(),
        None => "-",
    }
}

fn last_name(seats: &[Enlistment]) -> &'static str {
    match seats.last() {
        Some(seat) => seat.state.name(),
        None => "-",
    }
}

/// Whether the one transaction has so many seats, and its last one and its completion seat these states.
fn has_seats(transactions: &Transactions, words: &str) -> bool {
    let Some(transaction) = transactions.find(Id::new(1, 1)) else {
        return false;
    };
    let seats = transaction.seats.as_slice();
    part(words, ' ', 0).parse() == Ok(seats.len())
        && last_name(seats) == part(words, ' ', 1)
        && completion_name(&transaction.completion) == part(words, ' ', 2)
}

/// What is sent and happened at a step.
fn step(
    alloc: Global,
    transactions: &mut Transactions,
    event: &Event,
    moment: &Moment,
) -> Result<Outs, AllocError> {
    match planned(alloc, transactions, event, moment)? {
        Some(plan) => Ok(transactions.apply(plan, true)),
        None => Ok(Outs {
            outs: OutList::from_vec(Vec::new(alloc)),
            effects: Effects::from_vec(Vec::new(alloc)),
        }),
    }
}

/// Whether this is sent at a step, and the seats are these then.
fn registers(
    alloc: Global,
    transactions: &mut Transactions,
    event: &Event,
    moment: &Moment,
    row: &str,
) -> Result<bool, AllocError> {
    let outs = step(alloc, transactions, event, moment)?;
    Ok(follows(&outs, part(row, '|', 1), 0) && has_seats(transactions, part(row, '|', 2)))
}

/// The Register of a row.
fn register_in(alloc: Global, words: &str) -> Result<Event, AllocError> {
    let postable = part(words, ' ', 6) == "yes";
    register(alloc, part(words, ' ', 4), part(words, ' ', 5), postable)
}

/// Whether a row's Register gives what the row says.
fn registered(alloc: Global, row: &str) -> Result<bool, AllocError> {
    let words = part(row, '|', 0);
    let moment = moment_at(alloc, "http://n1", 100001, None)?;
    let event = register_in(alloc, words)?;
    let mut transactions = one(alloc, words)?;
    registers(alloc, &mut transactions, &event, &moment, row)
}

#[test]
fn each_register(rt: HostRuntime) -> Result<(), Fail> {
    for row in REGISTERS.lines() {
        let right = registered(rt.alloc(), row)?;
        assert!(rt; right, "at {row}");
    }
    Ok(())
}

/// Whether a row's transaction does what the row says when it is asked.
fn asked(alloc: Global, row: &str) -> Result<bool, AllocError> {
    let words = part(row, '|', 0);
    let now: u64 = part(words, ' ', 4).parse().unwrap_or(0);
    let moment = moment_at(alloc, "http://n1", now, None)?;
    let mut transactions = one(alloc, words)?;
    let due = Event::Due(Item::Transaction(Id::new(1, 1)));
    let outs = step(alloc, &mut transactions, &due, &moment)?;
    Ok(stands(&transactions, &outs, now, part(row, '|', 1)))
}

#[test]
fn each_time(rt: HostRuntime) -> Result<(), Fail> {
    for row in TIMES.lines() {
        let right = asked(rt.alloc(), row)?;
        assert!(rt; right, "at {row}");
    }
    Ok(())
}

/// So many roots.
fn roots(alloc: Global, count: u32) -> Result<Transactions, AllocError> {
    let mut items = Vec::new(alloc);
    for place in 0..count.min(2000) {
        let root = transaction_of(alloc, Id::new(1, place + 1), "root Active - -")?;
        items.push(root)?;
    }
    Transactions::from_vec(items)
}

fn superior_context(alloc: Global) -> Result<Context, AllocError> {
    let identifier = Text::copied(alloc, "urn:superior")?;
    let coordination = Text::copied(alloc, ATOMIC)?;
    let registration = epr(alloc, "registration")?;
    Ok(Context {
        identifier,
        expires: Some(60000),
        coordination,
        registration,
    })
}

fn current(alloc: Global, part: &str) -> Result<Option<Context>, AllocError> {
    match part {
        "sub" => Ok(Some(superior_context(alloc)?)),
        _ => Ok(None),
    }
}

/// A CreateCoordinationContext of this coordination type, for a root or a subordinate.
fn create(alloc: Global, coordination: &str, part: &str) -> Result<Event, AllocError> {
    let coordination = Text::copied(alloc, coordination)?;
    let current = current(alloc, part)?;
    let create = Create {
        expires: None,
        current,
        coordination,
    };
    arrived(alloc, Target::Activation, false, Message::Create(create))
}

const ATOMIC: &str = "http://docs.oasis-open.org/ws-tx/wsat/2006/06";

const OTHER: &str = "http://docs.oasis-open.org/ws-tx/wsba/2006/06/AtomicOutcome";

/// How many live, whether an id is left, the coordination type and the part of a CreateCoordinationContext; and how many
/// live then, and what is sent.
const CREATES: &[(u32, bool, &str, &str, usize, &str)] = &[
    (
        1023,
        true,
        ATOMIC,
        "root",
        1024,
        "202 http://n1/t/2-1@reply",
    ),
    (
        0,
        true,
        ATOMIC,
        "sub",
        1,
        "202 Register@registration Register@registration",
    ),
    (
        1024,
        true,
        ATOMIC,
        "root",
        1024,
        "202 CannotCreateContext@fault",
    ),
    (0, false, ATOMIC, "root", 0, "202 CannotCreateContext@fault"),
    (0, true, OTHER, "root", 0, "202 CannotCreateContext@fault"),
];

fn creates(alloc: Global, row: &(u32, bool, &str, &str, usize, &str)) -> Result<bool, AllocError> {
    let next = if row.1 { Some(Id::new(2, 1)) } else { None };
    let moment = moment_at(alloc, "http://n1", 7, next)?;
    let event = create(alloc, row.2, row.3)?;
    let mut transactions = roots(alloc, row.0)?;
    let outs = step(alloc, &mut transactions, &event, &moment)?;
    Ok(transactions.len() == row.4 && follows(&outs, row.5, 0))
}

#[test]
fn creates_where_there_is_room(rt: HostRuntime) -> Result<(), Fail> {
    for row in CREATES {
        let right = creates(rt.alloc(), row)?;
        assert!(rt; right, "at {}", row.5);
    }
    Ok(())
}

/// The protocol of a Register, whether its participant can be posted to, and what it is answered where no transaction is
/// known.
const UNKNOWN: &[(&str, bool, &str)] = &[
    ("Durable", true, "202 CannotRegisterParticipant@fault"),
    ("Durable", false, "202 InvalidParameters@fault"),
    ("Unknown", false, "202 InvalidProtocol@fault"),
];

fn answer(alloc: Global, event: &Event) -> Result<OutList, AllocError> {
    if let Event::Arrived(arrived) = event {
        if let Message::Register(register) = &arrived.message {
            return register_unknown(alloc, arrived, register);
        }
    }
    Ok(OutList::from_vec(Vec::new(alloc)))
}

fn unknown(
    alloc: Global,
    protocol: &str,
    postable: bool,
    wanted: &str,
) -> Result<bool, AllocError> {
    let event = register(alloc, protocol, "new", postable)?;
    let outs = answer(alloc, &event)?;
    Ok(are_sent(outs.as_slice(), wanted, 0) && outs.as_slice().len() == 2)
}

#[test]
fn unknown_transactions(rt: HostRuntime) -> Result<(), Fail> {
    for (protocol, postable, wanted) in UNKNOWN {
        let right = unknown(rt.alloc(), protocol, *postable, wanted)?;
        assert!(rt; right, "at {wanted}");
    }
    Ok(())
}

/// A transaction; whether it is the one that is asked for, and the kind; whether all seats of that kind have answered, and
/// the steps that this takes.
const ANSWERED: &[(&str, bool, Kind, Option<bool>, usize)] = &[
    ("root Durable - -", true, Kind::Durable, Some(true), 2),
    (
        "root Durable D:Active -",
        true,
        Kind::Durable,
        Some(false),
        2,
    ),
    (
        "root Durable D:Active -",
        true,
        Kind::Volatile,
        Some(true),
        2,
    ),
    (
        "root Durable 512xPreparing -",
        true,
        Kind::Durable,
        Some(false),
        2,
    ),
    (
        "root Durable 512xPrepared -",
        true,
        Kind::Durable,
        Some(true),
        2,
    ),
    ("root Durable 8xNone -", true, Kind::Durable, Some(true), 2),
    ("root Durable D:Active -", false, Kind::Durable, None, 1),
];

/// The transaction 1-1, or one that isn't known.
fn asked_id(is_known: bool) -> Id {
    if is_known {
        Id::new(1, 1)
    } else {
        Id::new(1, 2)
    }
}

fn answers(
    alloc: Global,
    row: &(&str, bool, Kind, Option<bool>, usize),
) -> Result<bool, AllocError> {
    let transactions = one(alloc, row.0)?;
    let mut steps: Steps<3> = Steps::new();
    let found = answered(&transactions, asked_id(row.1), row.2, &mut steps);
    Ok(found == row.3 && steps.taken() == row.4)
}

#[test]
fn answered_transactions(rt: HostRuntime) -> Result<(), Fail> {
    for row in ANSWERED {
        let right = answers(rt.alloc(), row)?;
        assert!(rt; right, "at {}", row.0);
    }
    Ok(())
}
