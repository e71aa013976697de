//! Schedules that are read, each cause of a bad line, the order of the causes, and each bound at its number and past it.

use at_base::id::Id;
use at_base::notice::{Kind, Vote};
use at_base::text::Text;
use schedules::line::{Leaves, Line, ScheduleError};
use schedules::reader::read_schedule;
use std::alloc::{AllocError, Global};
use std::test::Fail;

/// A line of each word, each number at a bound, the last line without its line feed.
const EACH: &[u8] =
    b"nodes 8\nbegin 1 8 4294967295\ninterpose 8 1-1 1\nwork 1 4294967295-1 8 d prepared\nwork 2 1-2 3 v readonly\nwork 3 1-3 1 v aborted\ncommit 1 1-1\nrollback 8 2-10\ndeliver 1\ndeliver 1000000\nflush 0\nflush 10000\ntick 8 0\ntick 1 4294967295\ncrash 8\nup 1\nstop 1 1 keep\nstop 8 1000000 drop\nstop 1 2 fill 0\nstop 1 2 fill 255\ninject 8 00fFaB\ninject 1 \nfail 8 1000000";

/// Texts with their first bad line and its cause; line 0 where there is none.
const ROWS: &[(&[u8], u32, u8)] = &[
    (b"nodes 1", 0, 0),
    (b"nodes 1\n", 0, 0),
    (b"nodes 8\nflush 0\n", 0, 0),
    // each cause
    (b"nodes 1\nflush 1\nfoo", 3, 1),
    (b"nodes 1\nup 1\nfoo", 3, 1),
    (b"nodes 1\nup", 2, 2),
    (b"nodes 1\ncrash 1 1", 2, 2),
    (b"nodes 1\nflush", 2, 2),
    (b"nodes 1\nflush x", 2, 3),
    (b"nodes 1\ncommit 1 1-0", 2, 4),
    (b"nodes 1\nwork 1 1-1 1 x prepared", 2, 5),
    (b"nodes 1\nwork 1 1-1 1 d x", 2, 5),
    (b"nodes 1\nstop 1 1", 2, 2),
    (b"nodes 1\nstop 1 1 fill", 2, 2),
    (b"nodes 1\nstop 1 1 keep 3", 2, 2),
    (b"nodes 1\nstop 1 1 drop 3", 2, 2),
    (b"nodes 1\nstop 1 1 fill 1 1", 2, 2),
    (b"nodes 1\nfail 1", 2, 2),
    (b"nodes 1\nfail 1 1 1", 2, 2),
    (b"nodes 1\nstop 1 1 foo", 2, 5),
    (b"nodes 1\nstop 1 1 foo 3", 2, 5),
    (b"nodes 1\nstop 1 1 foo x", 2, 5),
    (b"nodes 1\ninject 1", 2, 2),
    (b"nodes 1\ninject 1 00 00", 2, 2),
    (b"nodes 1\ninject 1 0", 2, 6),
    (b"nodes 1\ninject 1 0g", 2, 6),
    (b"nodes 1\ninject 2 0g", 2, 3),
    (b"nodes 1\ninject 1 ", 0, 0),
    (b"nodes 1\ninject 1 09aFAf", 0, 0),
    (b"", 1, 7),
    (b"flush 1", 1, 7),
    (b"nodes 1\nflush 1\nnodes 1", 3, 7),
    (b"nodes 1\nflush\t1", 2, 9),
    // the order of the causes on one line
    (b"flush \x7f", 1, 9),
    (b"nodes 1\nnodes \xff", 2, 9),
    (b"nodes 1\nfoo \x1f", 2, 9),
    (b"nodes 1\nnodes", 2, 7),
    (b"nodes 1\nnodes foo bar", 2, 7),
    (b"foo bar", 1, 7),
    (b"nodes 1\nfoo bar", 2, 1),
    (b"nodes 1\nwork 9 1-0 9 x", 2, 2),
    (b"nodes 3\nwork 1 1-0 4 x y", 2, 3),
    (b"nodes 3\nwork 1 1-0 3 x y", 2, 4),
    (b"nodes 3\ninterpose 1 1-0 4", 2, 3),
    (b"nodes 1\nstop 2 1 fill", 2, 2),
    (b"nodes 1\nstop 2 1 keep 3", 2, 2),
    (b"nodes 1\nstop 1 0 foo", 2, 3),
    (b"nodes 1\nstop 2 1 foo 3", 2, 3),
    // the first bad line goes before a later one
    (b"nodes 1\nflush 01\nflush \x80\n", 2, 3),
    // bounds
    (b"nodes 0", 1, 3),
    (b"nodes 9", 1, 3),
    (b"nodes", 1, 2),
    (b"nodes 1 1", 1, 2),
    (b"nodes 2\ntick 0 1", 2, 3),
    (b"nodes 2\ntick 3 1", 2, 3),
    (b"nodes 2\ncrash 0", 2, 3),
    (b"nodes 2\nup 3", 2, 3),
    (b"nodes 2\nbegin 1 3 0", 2, 3),
    (b"nodes 2\ntick 1 4294967296", 2, 3),
    (b"nodes 1\ndeliver 0", 2, 3),
    (b"nodes 1\ndeliver 1000001", 2, 3),
    (b"nodes 1\nflush 10001", 2, 3),
    (
        b"nodes 1\nflush 340282366920938463463374607431768211457",
        2,
        3,
    ),
    (b"nodes 1\nstop 2 1 keep", 2, 3),
    (b"nodes 1\nstop 1 0 keep", 2, 3),
    (b"nodes 1\nstop 1 1000001 keep", 2, 3),
    (b"nodes 1\nstop 1 1 fill 256", 2, 3),
    (b"nodes 1\nfail 0 1", 2, 3),
    (b"nodes 1\nfail 1 0", 2, 3),
    (b"nodes 1\nfail 1 1000001", 2, 3),
    (b"nodes 1\ncommit 1 1-4294967296", 2, 4),
    (b"nodes 1\nflush 1~", 2, 3),
    // numbers and ids in other forms
    (b"nodes 01", 1, 3),
    (b"nodes 1\nflush 00", 2, 3),
    (b"nodes 1\nflush +1", 2, 3),
    (b"nodes 1\nflush -1", 2, 3),
    (b"nodes 1\nflush ", 2, 3),
    (b"nodes 1\ncommit 1 1", 2, 4),
    (b"nodes 1\ncommit 1 1-01", 2, 4),
    // spaces and empty lines
    (b" nodes 1", 1, 7),
    (b"nodes  1", 1, 2),
    (b"nodes 1 ", 1, 2),
    (b"nodes 1\n\nflush 1", 2, 1),
    (b"nodes 1\n\n", 2, 1),
    (b"\nnodes 1", 1, 7),
    (b"nodes 1\r\n", 1, 9),
    (b"nodes 1\nFlush 1", 2, 1),
];

/// The first bad line of a text and its cause, and line 0 where there is none.
fn judged(alloc: Global, text: &[u8]) -> Result<(u32, u8), AllocError> {
    match read_schedule(alloc, text) {
        Ok(_) => Ok((0, 0)),
        Err(ScheduleError::Bad(bad)) => Ok((bad.line, bad.cause.number())),
        Err(ScheduleError::OutOfMemory) => Err(AllocError),
    }
}

#[test]
fn each_text_has_its_first_bad_line(rt: HostRuntime) -> Result<(), Fail> {
    for (text, line, cause) in ROWS {
        let found = judged(rt.alloc(), text)?;
        assert!(rt; found == (*line, *cause), "line {line} cause {cause}");
    }
    Ok(())
}

/// A first line, and so many more.
fn many(alloc: Global, more: u32) -> Result<Vec<u8>, AllocError> {
    let mut text = Vec::new(alloc);
    text.extend_from_slice(b"nodes 1")?;
    for _ in 0..more {
        text.extend_from_slice(b"\nflush 0")?;
    }
    Ok(text)
}

/// What is found of 10,000 lines with and without the last line feed, of one more line, and of one more line that has a
/// byte that isn't printable.
fn found_of_many(alloc: Global) -> Result<bool, AllocError> {
    let mut text = many(alloc, 9_999)?;
    let whole = judged(alloc, text.as_slice())?;
    text.extend_from_slice(b"\n")?;
    let ended = judged(alloc, text.as_slice())?;
    text.extend_from_slice(b"nodes")?;
    let over = judged(alloc, text.as_slice())?;
    text.extend_from_slice(b"\x00")?;
    let unprintable = judged(alloc, text.as_slice())?;
    Ok(whole == (0, 0) && ended == (0, 0) && over == (10_001, 8) && unprintable == (10_001, 9))
}

#[test]
fn ten_thousand_lines_are_taken(rt: HostRuntime) -> Result<(), Fail> {
    let found = found_of_many(rt.alloc())?;
    assert!(rt; found);
    Ok(())
}

fn stop(node: u8, call: u32, leaves: Leaves) -> Line {
    Line::Stop { node, call, leaves }
}

fn each_line(alloc: Global) -> Result<Vec<Line>, AllocError> {
    let mut lines = Vec::new(alloc);
    lines.push(Line::Nodes { count: 8 })?;
    lines.push(Line::Begin {
        node: 1,
        coordinator: 8,
        ms: 4_294_967_295,
    })?;
    lines.push(Line::Interpose {
        node: 8,
        activity: Id::new(1, 1),
        coordinator: 1,
    })?;
    lines.push(Line::Work {
        node: 1,
        activity: Id::new(4_294_967_295, 1),
        service: 8,
        kind: Kind::Durable,
        vote: Vote::Prepared,
    })?;
    lines.push(Line::Work {
        node: 2,
        activity: Id::new(1, 2),
        service: 3,
        kind: Kind::Volatile,
        vote: Vote::ReadOnly,
    })?;
    lines.push(Line::Work {
        node: 3,
        activity: Id::new(1, 3),
        service: 1,
        kind: Kind::Volatile,
        vote: Vote::Aborted,
    })?;
    lines.push(Line::Commit {
        node: 1,
        activity: Id::new(1, 1),
    })?;
    lines.push(Line::Rollback {
        node: 8,
        activity: Id::new(2, 10),
    })?;
    lines.push(Line::Deliver { message: 1 })?;
    lines.push(Line::Deliver { message: 1_000_000 })?;
    lines.push(Line::Flush { most: 0 })?;
    lines.push(Line::Flush { most: 10_000 })?;
    lines.push(Line::Tick { node: 8, ms: 0 })?;
    lines.push(Line::Tick {
        node: 1,
        ms: 4_294_967_295,
    })?;
    lines.push(Line::Crash { node: 8 })?;
    lines.push(Line::Up { node: 1 })?;
    lines.push(stop(1, 1, Leaves::Keep))?;
    lines.push(stop(8, 1_000_000, Leaves::Drop))?;
    lines.push(stop(1, 2, Leaves::Fill { byte: 0 }))?;
    lines.push(stop(1, 2, Leaves::Fill { byte: 255 }))?;
    lines.push(Line::Inject {
        node: 8,
        digits: Text::copied(alloc, "00fFaB")?,
    })?;
    lines.push(Line::Inject {
        node: 1,
        digits: Text::copied(alloc, "")?,
    })?;
    lines.push(Line::Fail {
        node: 8,
        call: 1_000_000,
    })?;
    Ok(lines)
}

fn reads_each(alloc: Global) -> Result<bool, AllocError> {
    let lines = each_line(alloc)?;
    match read_schedule(alloc, EACH) {
        Ok(schedule) => Ok(schedule.as_slice() == lines.as_slice()),
        Err(_) => Ok(false),
    }
}

#[test]
fn each_word_is_read(rt: HostRuntime) -> Result<(), Fail> {
    let read = reads_each(rt.alloc())?;
    assert!(rt; read);
    Ok(())
}
