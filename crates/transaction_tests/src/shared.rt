//! What the tests of transactions share: what they are made of, and whether a step left and gave what a row says.
//!
//! A transaction is four words: `root`, or the states of its volatile and its durable link; its phase; its seats, as
//! `V:Active,D:None`, or so many of one state, as `511xActive`; and the state of its completion seat. A `-` stands for none.

use at_base::epr::{Epr, Reply};
use at_base::event::{Arrived, Event, Item, Moment};
use at_base::id::Id;
use at_base::message::Message;
use at_base::notice::Kind;
use at_base::outs::{Effect, Ending, Out, Outs, Post};
use at_base::target::Target;
use at_base::text::Text;
use at_tables::cells::State;
use by_id::plan::Plan;
use coordinator_at::transactions::{Transactions, at_link};
use std::alloc::{AllocError, Global};
use transaction_at::moves::Move;
use transaction_at::transaction::{
    Completion, Enlistment, Link, Phase, Request, Seats, Superior, Transaction,
};

/// The part of a text at this place, empty where there is none.
pub fn part(text: &str, separator: char, place: usize) -> &str {
    text.split(separator).nth(place).unwrap_or("")
}

pub fn epr(alloc: Global, address: &str) -> Result<Epr, AllocError> {
    let address = Text::copied(alloc, address)?;
    let params = Text::from_string(String::new(alloc));
    Ok(Epr { address, params })
}

pub fn moment_at(
    alloc: Global,
    base: &str,
    now: u64,
    next: Option<Id>,
) -> Result<Moment, AllocError> {
    let base = Text::copied(alloc, base)?;
    Ok(Moment { now, next, base })
}

fn phase_of(name: &str) -> Phase {
    match name {
        "Registering" => Phase::Registering,
        "Volatile" => Phase::Volatile,
        "Durable" => Phase::Durable,
        "Voted" => Phase::Voted,
        "Committing" => Phase::Committing,
        "Aborting" => Phase::Aborting,
        _ => Phase::Active,
    }
}

fn phase_name(phase: Phase) -> &'static str {
    match phase {
        Phase::Registering => "Registering",
        Phase::Active => "Active",
        Phase::Volatile => "Volatile",
        Phase::Durable => "Durable",
        Phase::Voted => "Voted",
        Phase::Committing => "Committing",
        Phase::Aborting => "Aborting",
    }
}

fn state_of(name: &str) -> State {
    State::from_name(name).unwrap_or(State::None)
}

pub fn kind_of(letter: &str) -> Kind {
    match letter {
        "V" | "v" => Kind::Volatile,
        _ => Kind::Durable,
    }
}

fn enlistment(
    alloc: Global,
    number: u16,
    kind: Kind,
    state: State,
) -> Result<Enlistment, AllocError> {
    let address = format!(in alloc; "p{number}")?;
    let participant = epr(alloc, address.as_str())?;
    Ok(Enlistment {
        number,
        kind,
        participant,
        state,
    })
}

/// A seat, as `D:Active`.
fn seat_of(alloc: Global, number: u16, words: &str) -> Result<Enlistment, AllocError> {
    let kind = kind_of(part(words, ':', 0));
    enlistment(alloc, number, kind, state_of(part(words, ':', 1)))
}

fn listed(alloc: Global, words: &str) -> Result<Seats, AllocError> {
    let mut seats = Seats::new(alloc);
    let mut number: u16 = 0;
    for seat in words.split(',') {
        number = number.saturating_add(1);
        seats.push(alloc, seat_of(alloc, number, seat)?)?;
    }
    Ok(seats)
}

/// So many durable seats in one state.
fn repeated(alloc: Global, count: u16, state: State) -> Result<Seats, AllocError> {
    let mut seats = Seats::new(alloc);
    for place in 0..count.min(512) {
        seats.push(alloc, enlistment(alloc, place + 1, Kind::Durable, state)?)?;
    }
    Ok(seats)
}

fn seats_of(alloc: Global, words: &str) -> Result<Seats, AllocError> {
    if words == "-" {
        return Ok(Seats::new(alloc));
    }
    match words.split_once('x') {
        Some((count, state)) => repeated(alloc, count.parse().unwrap_or(0), state_of(state)),
        None => listed(alloc, words),
    }
}

/// A link of this state: one in Registering waits for its answer.
fn link_of(alloc: Global, state: &str, address: &str) -> Result<Link, AllocError> {
    let coordinator = if state == "Registering" {
        None
    } else {
        Some(epr(alloc, address)?)
    };
    Ok(Link {
        state: state_of(state),
        coordinator,
    })
}

fn request(alloc: Global) -> Result<Request, AllocError> {
    let reply = epr(alloc, "asker")?;
    let fault = epr(alloc, "faults")?;
    let registration = epr(alloc, "registration")?;
    Ok(Request {
        id: None,
        reply,
        fault: Reply::At(fault),
        expires: None,
        registration,
    })
}

/// The request of a transaction that is Registering, which waits, too.
fn request_in(alloc: Global, phase: Phase) -> Result<Option<Request>, AllocError> {
    match phase {
        Phase::Registering => Ok(Some(request(alloc)?)),
        _ => Ok(None),
    }
}

fn superior_of(alloc: Global, words: &str, phase: Phase) -> Result<Superior, AllocError> {
    let volatile = link_of(alloc, part(words, '/', 0), "volatile")?;
    let durable = link_of(alloc, part(words, '/', 1), "durable")?;
    let request = request_in(alloc, phase)?;
    Ok(Superior {
        volatile,
        durable,
        request,
    })
}

/// A root without seats in this phase, which sent at 100000, aborted at 150000 and expires at 200000.
fn bare(alloc: Global, id: Id, phase: Phase) -> Result<Transaction, AllocError> {
    let identifier = Text::copied(alloc, "urn:t")?;
    Ok(Transaction {
        id,
        identifier,
        superior: None,
        phase,
        deadline: Some(200000),
        sent: Some(100000),
        aborted: Some(150000),
        seats: Seats::new(alloc),
        completion: None,
    })
}

fn put_superior(
    alloc: Global,
    transaction: &mut Transaction,
    words: &str,
) -> Result<(), AllocError> {
    if words != "root" {
        transaction.superior = Some(superior_of(alloc, words, transaction.phase)?);
    }
    Ok(())
}

fn put_completion(
    alloc: Global,
    transaction: &mut Transaction,
    state: &str,
) -> Result<(), AllocError> {
    if state != "-" {
        let initiator = epr(alloc, "initiator")?;
        transaction.completion = Some(Completion {
            initiator,
            state: state_of(state),
        });
    }
    Ok(())
}

fn put_seats(alloc: Global, transaction: &mut Transaction, words: &str) -> Result<(), AllocError> {
    transaction.seats = seats_of(alloc, words)?;
    Ok(())
}

/// The transaction of four words.
pub fn transaction_of(alloc: Global, id: Id, words: &str) -> Result<Transaction, AllocError> {
    let mut transaction = bare(alloc, id, phase_of(part(words, ' ', 1)))?;
    put_superior(alloc, &mut transaction, part(words, ' ', 0))?;
    put_seats(alloc, &mut transaction, part(words, ' ', 2))?;
    put_completion(alloc, &mut transaction, part(words, ' ', 3))?;
    Ok(transaction)
}

/// A node's one transaction, 1-1.
pub fn one(alloc: Global, words: &str) -> Result<Transactions, AllocError> {
    let transaction = transaction_of(alloc, Id::new(1, 1), words)?;
    let mut items = Vec::new(alloc);
    items.push(transaction)?;
    Transactions::from_vec(items)
}

/// What a message says.
fn said_in(message: &Message) -> &str {
    match message {
        Message::Notice(notice) => notice.name(),
        Message::Fault { name } => name.as_str(),
        Message::Register(_) => "Register",
        Message::RegisterResponse(coordinator) => coordinator.address.as_str(),
        Message::CreateResponse(context) => context.identifier.as_str(),
        _ => "another",
    }
}

/// What stands between what a post says and where it goes.
fn mark_of(post: &Post) -> char {
    match (&post.message, post.own) {
        (Message::Notice(_), None) => '~',
        _ => '@',
    }
}

fn goes_to(post: &Post, address: &str) -> bool {
    match &post.to {
        Some(epr) => epr.address.as_str() == address,
        None => false,
    }
}

fn is_post(post: &Post, word: &str) -> bool {
    let mark = mark_of(post);
    said_in(&post.message) == part(word, mark, 0) && goes_to(post, part(word, mark, 1))
}

fn is_out(out: &Out, word: &str) -> bool {
    match out {
        Out::Answer {
            status,
            reply: None,
        } => *status == 202 && word == "202",
        Out::Answer { .. } => false,
        Out::Post(post) => is_post(post, word),
    }
}

/// Whether the words from this place on begin with what is sent.
pub fn are_sent(outs: &[Out], words: &str, first: usize) -> bool {
    let mut place = first;
    for out in outs {
        if !is_out(out, part(words, ' ', place)) {
            return false;
        }
        place = place.saturating_add(1);
    }
    true
}

fn ending_name(what: Ending) -> &'static str {
    match what {
        Ending::Committed => "Committed",
        Ending::Aborted => "Aborted",
        Ending::Lost => "Lost",
    }
}

fn is_effect(effect: &Effect, word: &str) -> bool {
    match effect {
        Effect::Root { what, .. } => word.strip_prefix("Root") == Some(ending_name(*what)),
        Effect::Sub { what, .. } => word.strip_prefix("Sub") == Some(ending_name(*what)),
        _ => false,
    }
}

/// Whether the words from this place on are what happened.
fn have_happened(effects: &[Effect], words: &str, first: usize) -> bool {
    let mut place = first;
    for effect in effects {
        if !is_effect(effect, part(words, ' ', place)) {
            return false;
        }
        place = place.saturating_add(1);
    }
    words.split(' ').count() == place
}

/// Whether a step gave what the words from this place on say: its answer, what is posted and where, and what happened. A
/// tilde stands before where a notification goes that is posted by none that waits.
pub fn follows(outs: &Outs, words: &str, first: usize) -> bool {
    let sent = outs.outs.as_slice();
    let then = first.saturating_add(sent.len());
    are_sent(sent, words, first) && have_happened(outs.effects.as_slice(), words, then)
}

/// Whether a transaction is in a phase, and sent at this time where a star stands behind it, and not else.
fn is_in(transaction: &Transaction, now: u64, word: &str) -> bool {
    let sent = transaction.sent == Some(now);
    phase_name(transaction.phase) == part(word, '*', 0) && sent == word.ends_with("*")
}

/// The states of links, as `/None/Active`.
fn are_links(superior: &Superior, word: &str) -> bool {
    superior.volatile.state.name() == part(word, '/', 1)
        && superior.durable.state.name() == part(word, '/', 2)
}

/// The states of seats, and of the completion seat, as `=Done`.
fn are_seats(transaction: &Transaction, words: &str, first: usize) -> bool {
    let mut place = first;
    for seat in transaction.seats.as_slice() {
        if seat.state.name() != part(words, ' ', place) {
            return false;
        }
        place = place.saturating_add(1);
    }
    match &transaction.completion {
        Some(completion) => completion.state.name() == part(part(words, ' ', place), '=', 1),
        None => true,
    }
}

fn is_left(transaction: &Transaction, now: u64, words: &str) -> bool {
    let seated = match &transaction.superior {
        Some(superior) => {
            are_links(superior, part(words, ' ', 1)) && are_seats(transaction, words, 2)
        }
        None => are_seats(transaction, words, 1),
    };
    seated && is_in(transaction, now, part(words, ' ', 0))
}

/// How many words say what is left of a transaction.
fn words_for(transaction: &Transaction) -> usize {
    let links: usize = if transaction.superior.is_some() { 1 } else { 0 };
    let last: usize = if transaction.completion.is_some() {
        1
    } else {
        0
    };
    let seats = transaction.seats.as_slice().len();
    seats
        .saturating_add(links)
        .saturating_add(last)
        .saturating_add(1)
}

/// Whether a step left the one transaction as the first words say, its phase with a star where it sent, its links, its seats
/// and its completion seat, or none of it (`gone`), and gave what the others say.
pub fn stands(transactions: &Transactions, outs: &Outs, now: u64, words: &str) -> bool {
    match transactions.find(Id::new(1, 1)) {
        Some(transaction) => {
            is_left(transaction, now, words) && follows(outs, words, words_for(transaction))
        }
        None => part(words, ' ', 0) == "gone" && follows(outs, words, 1),
    }
}

/// What an event does to the transactions; none where it is none for them.
pub fn planned(
    alloc: Global,
    transactions: &Transactions,
    event: &Event,
    moment: &Moment,
) -> Result<Option<Plan<Transaction, Move>>, AllocError> {
    match event {
        Event::Arrived(arrived) => arrived_at(alloc, transactions, moment, arrived),
        Event::Due(Item::Transaction(id)) => transactions.due(alloc, moment, *id),
        _ => Ok(None),
    }
}

/// A message for the activation service.
fn created(
    alloc: Global,
    transactions: &Transactions,
    moment: &Moment,
    arrived: &Arrived,
) -> Result<Option<Plan<Transaction, Move>>, AllocError> {
    match &arrived.message {
        Message::Create(create) => {
            let plan = transactions.at_activation(alloc, moment, arrived, create)?;
            Ok(Some(plan))
        }
        _ => Ok(None),
    }
}

/// A message for the registration service of the transaction of this id.
fn registered(
    alloc: Global,
    transactions: &Transactions,
    moment: &Moment,
    arrived: &Arrived,
    id: Id,
) -> Result<Option<Plan<Transaction, Move>>, AllocError> {
    match &arrived.message {
        Message::Register(register) => {
            transactions.at_registration(alloc, moment, arrived, register, id)
        }
        _ => Ok(None),
    }
}

/// A message at a link of the transaction of this id.
fn linked(
    alloc: Global,
    transactions: &Transactions,
    moment: &Moment,
    arrived: &Arrived,
    id: Id,
    kind: Kind,
) -> Result<Option<Plan<Transaction, Move>>, AllocError> {
    match transactions.find(id) {
        Some(transaction) => at_link(alloc, moment, arrived, kind, transaction),
        None => Ok(None),
    }
}

fn arrived_at(
    alloc: Global,
    transactions: &Transactions,
    moment: &Moment,
    arrived: &Arrived,
) -> Result<Option<Plan<Transaction, Move>>, AllocError> {
    match arrived.target {
        Target::Activation => created(alloc, transactions, moment, arrived),
        Target::Registration(id) => registered(alloc, transactions, moment, arrived, id),
        Target::Completion(id) => transactions.at_completion(alloc, moment, arrived, id),
        Target::Coordinator { id, seat } => transactions.at_seat(alloc, moment, arrived, id, seat),
        Target::Participant { id, kind } => linked(alloc, transactions, moment, arrived, id, kind),
        Target::Initiator(_) | Target::Work => Ok(None),
    }
}
