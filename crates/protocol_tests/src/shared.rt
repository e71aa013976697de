//! What the tests of leaves, activities and posts share: what they are made of, and whether a step gave what a row says.

use at_base::epr::{Epr, Reply};
use at_base::event::{Arrived, Event, Moment};
use at_base::id::Id;
use at_base::message::{Context, Message};
use at_base::notice::Notice;
use at_base::outs::{Effect, Ending, Out, Outs, Told};
use at_base::target::Target;
use at_base::text::Text;
use std::alloc::{AllocError, Global};

pub fn epr(alloc: Global, address: &str) -> Result<Epr, AllocError> {
    let address = Text::copied(alloc, address)?;
    let params = Text::from_string(String::new(alloc));
    Ok(Epr { address, params })
}

pub fn moment_at(
    alloc: Global,
    base: &str,
    now: u64,
    next: Option<Id>,
) -> Result<Moment, AllocError> {
    let base = Text::copied(alloc, base)?;
    Ok(Moment { now, next, base })
}

pub fn context(alloc: Global) -> Result<Context, AllocError> {
    let identifier = Text::copied(alloc, "http://n2.example/t/1-1")?;
    let coordination = Text::copied(alloc, "http://docs.oasis-open.org/ws-tx/wsat/2006/06")?;
    let registration = epr(alloc, "registration")?;
    Ok(Context {
        identifier,
        expires: Some(60000),
        coordination,
        registration,
    })
}

pub fn reply_named(alloc: Global, name: &str) -> Result<Reply, AllocError> {
    match name {
        "nobody" => Ok(Reply::Nobody),
        "anonymous" => Ok(Reply::Anonymous),
        _ => Ok(Reply::At(epr(alloc, name)?)),
    }
}

fn notice_of(name: &str) -> Option<Notice> {
    match name {
        "Prepare" => Some(Notice::Prepare),
        "Commit" => Some(Notice::Commit),
        "Rollback" => Some(Notice::Rollback),
        "Committed" => Some(Notice::Committed),
        "Aborted" => Some(Notice::Aborted),
        _ => None,
    }
}

fn fault_of(name: &str) -> &'static str {
    match name {
        "Unknown" => "UnknownTransaction",
        "Refused" => "CannotRegisterParticipant",
        _ => "InvalidParameters",
    }
}

fn message_of(alloc: Global, name: &str) -> Result<Message, AllocError> {
    if let Some(notice) = notice_of(name) {
        return Ok(Message::Notice(notice));
    }
    match name {
        "Context" | "StrayContext" => Ok(Message::CreateResponse(context(alloc)?)),
        "Registered" | "StrayRegistered" => Ok(Message::RegisterResponse(epr(alloc, "seat")?)),
        _ => Ok(Message::Fault {
            name: Text::copied(alloc, fault_of(name))?,
        }),
    }
}

fn related(alloc: Global, id: &str) -> Result<Option<Text>, AllocError> {
    if id.is_empty() {
        return Ok(None);
    }
    Ok(Some(Text::copied(alloc, id)?))
}

fn coming(target: Target, relates: Option<Text>, from: Epr, message: Message) -> Event {
    Event::Arrived(Arrived {
        target,
        id: None,
        relates,
        from: Some(from),
        reply: Reply::Nobody,
        fault: Reply::Nobody,
        postable: false,
        message,
    })
}

/// The message of a name for this target, which answers this MessageID, none where that is empty.
pub fn arrived(
    alloc: Global,
    target: Target,
    relates: &str,
    name: &str,
) -> Result<Event, AllocError> {
    let relates = related(alloc, relates)?;
    let from = epr(alloc, "from")?;
    let message = message_of(alloc, name)?;
    Ok(coming(target, relates, from, message))
}

/// The part of a text at this place, empty where there is none.
pub fn part(text: &str, separator: char, place: usize) -> &str {
    text.split(separator).nth(place).unwrap_or("")
}

/// When the event of a name comes.
pub fn time_of(name: &str) -> u64 {
    match name {
        "Early" => 104999,
        "Quiet" => 105000,
        "Late" => 200000,
        _ => 150000,
    }
}

pub fn address_in(epr: &Option<Epr>) -> &str {
    match epr {
        Some(epr) => epr.address.as_str(),
        None => "-",
    }
}

pub fn message_name(message: &Message) -> &str {
    match message {
        Message::Notice(notice) => notice.name(),
        Message::Fault { name } => name.as_str(),
        Message::Register(_) => "Register",
        Message::Create(_) => "Create",
        Message::Work(_) => "Work",
        Message::WorkDone => "WorkDone",
        Message::WorkRefused => "WorkRefused",
        _ => "another",
    }
}

pub fn status_word(status: u16) -> &'static str {
    match status {
        200 => "200",
        202 => "202",
        500 => "500",
        _ => "another",
    }
}

/// Whether a word is an answer's HTTP status, or what is posted and where, as `Prepared@coordinator`.
fn is_out(out: &Out, word: &str) -> bool {
    match out {
        Out::Answer { status, .. } => status_word(*status) == word,
        Out::Post(post) => {
            message_name(&post.message) == part(word, '@', 0)
                && address_in(&post.to) == part(word, '@', 1)
        }
    }
}

fn are_outs(outs: &[Out], words: &str, first: usize) -> bool {
    let mut place = first;
    for out in outs {
        if !is_out(out, part(words, ' ', place)) {
            return false;
        }
        place = place.saturating_add(1);
    }
    true
}

/// What is told, or how a leaf ended.
fn effect_word(effect: &Effect) -> &'static str {
    match effect {
        Effect::Told { what, .. } => match what {
            Told::Committed => "Committed",
            Told::Aborted => "Aborted",
            Told::Unknown => "Unknown",
            Told::Refused => "Refused",
        },
        Effect::Leaf { what, .. } => match what {
            Ending::Committed => "Committed",
            Ending::Aborted => "Aborted",
            Ending::Lost => "Lost",
        },
        _ => "another",
    }
}

fn are_effects(effects: &[Effect], words: &str, first: usize) -> bool {
    let mut place = first;
    for effect in effects {
        if effect_word(effect) != part(words, ' ', place) {
            return false;
        }
        place = place.saturating_add(1);
    }
    true
}

/// Whether a step gave what the words behind the first one say and no more, but for so many at the end: the HTTP status,
/// what is posted and where, and what is told or how a leaf ended.
pub fn follows(outs: &Outs, words: &str, others: usize) -> bool {
    let sent = outs.outs.as_slice();
    let happened = outs.effects.as_slice();
    let first = sent.len().saturating_add(1);
    let count = first.saturating_add(happened.len()).saturating_add(others);
    are_outs(sent, words, 1)
        && are_effects(happened, words, first)
        && words.split(' ').count() == count
}
