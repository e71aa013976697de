//! Events by the words of a line.

use at_base::event::Local;
use at_base::id::Id;
use at_base::notice::{Kind, Vote};
use at_base::text::Text;
use std::alloc::{AllocError, Global};
use world_laws::event::{Fates, Input, WorldEvent};

/// The word at this place of a line, the first one at 0.
pub fn word(line: &str, place: usize) -> &str {
    line.split(' ').nth(place).unwrap_or("")
}

/// The number of a node at this place of a line.
pub fn node(line: &str, place: usize) -> u8 {
    word(line, place).parse().unwrap_or(0)
}

/// The number at this place of a line.
pub fn number(line: &str, place: usize) -> u64 {
    word(line, place).parse().unwrap_or(0)
}

/// How many messages a line delivers at most: its own number, or more than there are.
pub fn most(line: &str) -> u64 {
    word(line, 1).parse().unwrap_or(99)
}

fn span(line: &str, place: usize) -> u32 {
    word(line, place).parse().unwrap_or(0)
}

fn id_in(text: &str) -> Id {
    match Id::read(text.as_bytes()) {
        Some(id) => id,
        None => Id::new(9, 9),
    }
}

fn kind_in(text: &str) -> Kind {
    match text {
        "v" => Kind::Volatile,
        _ => Kind::Durable,
    }
}

fn vote_in(text: &str) -> Vote {
    match text {
        "prepared" => Vote::Prepared,
        "readonly" => Vote::ReadOnly,
        _ => Vote::Aborted,
    }
}

fn base_of(alloc: Global, node: &str) -> Result<Text, AllocError> {
    let base = format!(in alloc; "http://n{node}.example")?;
    Ok(Text::from_string(base))
}

fn begin_in(alloc: Global, line: &str) -> Result<Local, AllocError> {
    let coordinator = base_of(alloc, word(line, 2))?;
    Ok(Local::Begin {
        coordinator,
        ms: span(line, 3),
    })
}

fn interpose_in(alloc: Global, line: &str) -> Result<Local, AllocError> {
    let coordinator = base_of(alloc, word(line, 3))?;
    Ok(Local::Interpose {
        activity: id_in(word(line, 2)),
        coordinator,
    })
}

fn work_in(alloc: Global, line: &str) -> Result<Local, AllocError> {
    let service = base_of(alloc, word(line, 3))?;
    let key = Text::copied(alloc, "key")?;
    let value = Text::copied(alloc, "value")?;
    Ok(Local::Work {
        activity: id_in(word(line, 2)),
        service,
        kind: kind_in(word(line, 4)),
        vote: vote_in(word(line, 5)),
        key,
        value,
    })
}

/// `begin NODE COORDINATOR MS`, `interpose NODE ACTIVITY COORDINATOR`, `work NODE ACTIVITY SERVICE KIND VOTE`,
/// `commit NODE ACTIVITY`; behind a commit its fates and its stop may stand.
fn local_in(alloc: Global, line: &str) -> Result<Local, AllocError> {
    match word(line, 0) {
        "begin" => begin_in(alloc, line),
        "interpose" => interpose_in(alloc, line),
        "work" => work_in(alloc, line),
        _ => Ok(Local::Commit {
            activity: id_in(word(line, 2)),
        }),
    }
}

/// The fates of a word: `y` and `n`, one for each.
fn fates_in(alloc: Global, text: &str) -> Result<Fates, AllocError> {
    let mut fates = Vec::new(alloc);
    for letter in text.as_bytes() {
        fates.push(*letter == b'y')?;
    }
    Ok(Fates::from_vec(fates))
}

/// The stop of a word: behind how many fates.
fn until_in(line: &str, place: usize) -> Option<u64> {
    word(line, place).parse().ok()
}

/// A turn of a node with this input, and with the fates and the stop that stand at this place of a line.
pub fn turn(
    alloc: Global,
    node: u8,
    input: Input,
    line: &str,
    place: usize,
) -> Result<WorldEvent, AllocError> {
    let fates = fates_in(alloc, word(line, place))?;
    let until = until_in(line, place.saturating_add(1));
    Ok(WorldEvent::Turn {
        node,
        input,
        fates,
        until,
    })
}

/// Where the fates of a request stand.
fn behind(request: &str) -> usize {
    match request {
        "commit" => 3,
        _ => 6,
    }
}

fn asked(alloc: Global, line: &str) -> Result<WorldEvent, AllocError> {
    let place = behind(word(line, 0));
    let fates = fates_in(alloc, word(line, place))?;
    let local = local_in(alloc, line)?;
    Ok(WorldEvent::Ask {
        node: node(line, 1),
        local,
        fates,
        until: until_in(line, place.saturating_add(1)),
    })
}

fn up(line: &str) -> WorldEvent {
    WorldEvent::Up {
        node: node(line, 1),
        landed: word(line, 2) != "refused",
        stop: word(line, 2) == "stop",
    }
}

/// The event of a line that is no delivery.
pub fn event_in(alloc: Global, line: &str) -> Result<WorldEvent, AllocError> {
    match word(line, 0) {
        "up" => Ok(up(line)),
        "crash" => Ok(WorldEvent::Crash {
            node: node(line, 1),
        }),
        "raw" => turn(alloc, node(line, 1), Input::Raw, line, 2),
        "tick" => turn(alloc, node(line, 1), Input::Tick(span(line, 2)), line, 3),
        _ => asked(alloc, line),
    }
}
