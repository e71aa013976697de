//! What the words of a script name.

use at_base::event::Local;
use at_base::id::Id;
use at_base::notice::{Kind, Vote};
use at_base::target::{Seat, Target};
use at_base::text::Text;
use std::alloc::{AllocError, Global};

/// The word at this place of a line, the first one at 0.
pub fn word(line: &str, place: usize) -> &str {
    line.split(' ').nth(place).unwrap_or("")
}

/// The number at this place of a line.
pub fn number(line: &str, place: usize) -> usize {
    word(line, place).parse().unwrap_or(0)
}

/// The milliseconds at this place of a line.
pub fn span(line: &str, place: usize) -> u32 {
    word(line, place).parse().unwrap_or(0)
}

fn id_in(text: &str) -> Id {
    match Id::read(text.as_bytes()) {
        Some(id) => id,
        None => Id::new(9, 9),
    }
}

fn kind_in(text: &str) -> Kind {
    match text {
        "v" => Kind::Volatile,
        _ => Kind::Durable,
    }
}

fn vote_in(text: &str) -> Vote {
    match text {
        "prepared" => Vote::Prepared,
        "readonly" => Vote::ReadOnly,
        _ => Vote::Aborted,
    }
}

fn part(path: &str, place: usize) -> &str {
    path.split('/').nth(place).unwrap_or("")
}

fn seat_in(path: &str) -> Target {
    Target::Coordinator {
        id: id_in(part(path, 3)),
        seat: Seat {
            number: part(path, 4).parse().unwrap_or(0),
            kind: kind_in(part(path, 2)),
        },
    }
}

/// What a path names.
pub fn target_in(path: &str) -> Target {
    match part(path, 1) {
        "activation" => Target::Activation,
        "registration" => Target::Registration(id_in(part(path, 2))),
        "completion" => Target::Completion(id_in(part(path, 2))),
        "c" => seat_in(path),
        "p" => Target::Participant {
            id: id_in(part(path, 3)),
            kind: kind_in(part(path, 2)),
        },
        "i" => Target::Initiator(id_in(part(path, 2))),
        _ => Target::Work,
    }
}

/// The base of a node.
pub fn base_of(alloc: Global, node: &str) -> Result<Text, AllocError> {
    let base = format!(in alloc; "http://n{node}.example")?;
    Ok(Text::from_string(base))
}

/// The number of the node whose base the address begins with, and the path behind it.
pub fn place_of(address: &str) -> (&str, &str) {
    match address.strip_prefix("http://n") {
        Some(rest) => match rest.split_once(".example") {
            Some(place) => place,
            None => ("", ""),
        },
        None => ("", ""),
    }
}

fn begin_in(alloc: Global, line: &str) -> Result<Local, AllocError> {
    let coordinator = base_of(alloc, word(line, 2))?;
    Ok(Local::Begin {
        coordinator,
        ms: span(line, 3),
    })
}

fn interpose_in(alloc: Global, line: &str) -> Result<Local, AllocError> {
    let coordinator = base_of(alloc, word(line, 3))?;
    Ok(Local::Interpose {
        activity: id_in(word(line, 2)),
        coordinator,
    })
}

fn work_in(alloc: Global, line: &str) -> Result<Local, AllocError> {
    let service = base_of(alloc, word(line, 3))?;
    let key = Text::copied(alloc, "key")?;
    let value = Text::copied(alloc, "value")?;
    Ok(Local::Work {
        activity: id_in(word(line, 2)),
        service,
        kind: kind_in(word(line, 4)),
        vote: vote_in(word(line, 5)),
        key,
        value,
    })
}

/// The request of a line: `begin NODE COORDINATOR MS`, `interpose NODE ACTIVITY COORDINATOR`,
/// `work NODE ACTIVITY SERVICE KIND VOTE`, `commit NODE ACTIVITY` or `rollback NODE ACTIVITY`.
pub fn local_in(alloc: Global, line: &str) -> Result<Local, AllocError> {
    match word(line, 0) {
        "begin" => begin_in(alloc, line),
        "interpose" => interpose_in(alloc, line),
        "work" => work_in(alloc, line),
        "commit" => Ok(Local::Commit {
            activity: id_in(word(line, 2)),
        }),
        _ => Ok(Local::Rollback {
            activity: id_in(word(line, 2)),
        }),
    }
}
