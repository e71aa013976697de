//! What a log says of a message, a record and an effect.

use crate::words::place_of;
use at_base::id::Id;
use at_base::message::Message;
use at_base::notice::Notice;
use at_base::outs::{Effect, Ending, Post, Told};
use at_base::record::{Record, Seats};
use completion_at::requests::Refusal;
use std::alloc::{AllocError, Global};

fn message_name(message: &Message) -> &str {
    match message {
        Message::Create(_) => "CreateCoordinationContext",
        Message::CreateResponse(_) => "CreateCoordinationContextResponse",
        Message::Register(_) => "Register",
        Message::RegisterResponse(_) => "RegisterResponse",
        Message::Notice(notice) => notice.name(),
        Message::Work(_) => "Work",
        Message::WorkDone => "WorkDone",
        Message::WorkRefused => "WorkRefused",
        Message::Fault { name } => name.as_str(),
    }
}

/// The number of the node that a message goes to, and the path there.
pub fn receiver(post: &Post) -> (&str, &str) {
    match &post.to {
        Some(to) => place_of(to.address.as_str()),
        None => ("", ""),
    }
}

/// The line of the message of this number from this node.
pub fn post_line(
    alloc: Global,
    number: usize,
    sender: usize,
    post: &Post,
) -> Result<String, AllocError> {
    let name = message_name(&post.message);
    let (node, path) = receiver(post);
    format!(in alloc; "msg {number} {sender}>{node} {name} {path}")
}

fn push_seats(alloc: Global, line: &mut String, seats: &Seats) -> Result<(), AllocError> {
    for seat in seats.as_slice() {
        let text = format!(in alloc; " {} {}", seat.number, seat.endpoint.address)?;
        line.push_str(text.as_str())?;
    }
    Ok(())
}

fn decided_line(alloc: Global, id: Id, seats: &Seats) -> Result<String, AllocError> {
    let mut line = format!(in alloc; "Decided {id}")?;
    push_seats(alloc, &mut line, seats)?;
    Ok(line)
}

fn voted_line(alloc: Global, id: Id, superior: &str, seats: &Seats) -> Result<String, AllocError> {
    let mut line = format!(in alloc; "Voted {id} {superior}")?;
    push_seats(alloc, &mut line, seats)?;
    Ok(line)
}

/// A record: its name, its id, its coordinator or superior, and its seats.
pub fn record_line(alloc: Global, entry: &Record) -> Result<String, AllocError> {
    match entry {
        Record::Start { incarnation } => format!(in alloc; "Start {incarnation}"),
        Record::LeafPrepared {
            id,
            coordinator,
            ..
        } => format!(in alloc; "LeafPrepared {id} {}", coordinator.address),
        Record::LeafCommitted { id } => format!(in alloc; "LeafCommitted {id}"),
        Record::LeafAborted { id } => format!(in alloc; "LeafAborted {id}"),
        Record::Voted {
            id,
            superior,
            seats,
        } => voted_line(alloc, *id, superior.address.as_str(), seats),
        Record::Decided { id, seats } => decided_line(alloc, *id, seats),
        Record::SubCommitted { id } => format!(in alloc; "SubCommitted {id}"),
        Record::Ended { id } => format!(in alloc; "Ended {id}"),
        Record::Done { id } => format!(in alloc; "Done {id}"),
    }
}

fn ending_name(ending: Ending) -> &'static str {
    match ending {
        Ending::Committed => "committed",
        Ending::Aborted => "aborted",
        Ending::Lost => "lost",
    }
}

fn told_name(told: Told) -> &'static str {
    match told {
        Told::Committed => "committed",
        Told::Aborted => "aborted",
        Told::Unknown => "unknown",
        Told::Refused => "refused",
    }
}

/// The line of an effect at this node.
pub fn effect_line(alloc: Global, node: usize, effect: &Effect) -> Result<String, AllocError> {
    match effect {
        Effect::Root { id, what } => {
            format!(in alloc; "root {node} {id} {}", ending_name(*what))
        }
        Effect::Sub { id, what } => format!(in alloc; "sub {node} {id} {}", ending_name(*what)),
        Effect::Leaf { id, kind, what } => {
            format!(in alloc; "leaf {node} {id} {} {}", kind.letter(), ending_name(*what))
        }
        Effect::Told { id, what } => format!(in alloc; "told {node} {id} {}", told_name(*what)),
    }
}

/// Why a request is refused.
pub fn refusal_name(refusal: Refusal) -> &'static str {
    match refusal {
        Refusal::Stale => "stale",
        Refusal::Full => "full",
        Refusal::Spent => "spent",
    }
}
