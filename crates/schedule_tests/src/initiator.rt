//! Lines of an initiator that are read, each cause of a bad line, the order of the causes, and each bound at its number and
//! past it.

use at_base::notice::{Kind, Vote};
use at_base::text::Text;
use schedules::initiator_line::InitiatorLine;
use schedules::initiator_reader::read_initiator_lines;
use schedules::line::ScheduleError;
use std::alloc::{AllocError, Global};
use std::test::Fail;

/// Texts with their first bad line and its cause; line 0 where there is none.
const ROWS: &[(&[u8], u32, u8)] = &[
    (b"", 0, 0),
    (b"wait", 0, 0),
    (b"wait\n", 0, 0),
    (
        b"begin http://127.0.0.1:9001 60000\nwork 1 http://127.0.0.1:9003/ d prepared k v\ncommit 1\nwait\n",
        0,
        0,
    ),
    (b"begin http://h 0\ninterpose 1 http://i\nrollback 2", 0, 0),
    // each cause
    (b"wait\nfoo", 2, 1),
    (b"wait\n\nwait", 2, 1),
    (b"wait 1", 1, 2),
    (b"begin http://h", 1, 2),
    (b"commit 1", 1, 3),
    (b"commit 1 anyway", 1, 3),
    (b"begin http://h 0\ncommit 1 now", 2, 5),
    (b"begin http://h 0\ncommit 1 anyway ", 2, 2),
    (b"begin http://h 0\ncommit 1 anyway\n", 0, 0),
    (b"begin ftp://h 0", 1, 5),
    (b"wait\t", 1, 9),
    (b"wait\r\n", 1, 9),
    // the order of the causes on one line
    (b"foo \x7f", 1, 9),
    (b"foo bar", 1, 1),
    (b"work 1 ftp://h x y", 1, 2),
    (b"work 1 ftp://h x y k v", 1, 3),
    (b"begin ftp://h 00", 1, 3),
    // the first bad line goes before a later one
    (b"commit 0\nfoo\n", 1, 3),
    // activities are numbered by begin and interpose alone
    (
        b"begin http://h 0\nwait\nwork 1 http://h v aborted k v\ncommit 2",
        4,
        3,
    ),
    (b"begin http://h 0\ninterpose 2 http://h", 2, 3),
    (b"begin http://h 0\nbegin http://h 0\ncommit 2", 0, 0),
    (b"begin http://h 0\ncommit 0", 2, 3),
    (b"begin http://h 0\ncommit 01", 2, 3),
    (b"begin http://h 4294967295", 0, 0),
    (b"begin http://h 4294967296", 1, 3),
    (b"begin http://h -1", 1, 3),
    // base URLs
    (b"begin http://h/ 0", 0, 0),
    (b"begin HTTP://H:80 0", 0, 0),
    (b"begin http://[::1]:9001 0", 0, 0),
    (b"begin https://h 0", 1, 5),
    (b"begin http://h/a 0", 1, 5),
    (b"begin http://h/a/.. 0", 0, 0),
    (b"begin http://h? 0", 1, 5),
    (b"begin http://h/?q 0", 1, 5),
    (b"begin http://h# 0", 1, 5),
    (b"begin h 0", 1, 5),
    (b"begin  0", 1, 5),
    (b"begin http:// 0", 1, 5),
    // keywords
    (b"begin http://h 0\nwork 1 http://h x prepared k v", 2, 5),
    (b"begin http://h 0\nwork 1 http://h d x k v", 2, 5),
    (b"begin http://h 0\nwork 1 http://h/a d prepared k v", 2, 5),
    // an empty key and an empty value
    (b"begin http://h 0\nwork 1 http://h d readonly  ", 0, 0),
    (b"begin http://h 0\nwork 1 http://h d readonly ", 2, 2),
];

/// The first bad line of a text and its cause, and line 0 where there is none.
fn judged(alloc: Global, text: &[u8]) -> Result<(u32, u8), AllocError> {
    if text.len() > 1_048_576 {
        return Ok((0, 0));
    }
    match read_initiator_lines(alloc, text) {
        Ok(_) => Ok((0, 0)),
        Err(ScheduleError::Bad(bad)) => Ok((bad.line, bad.cause.number())),
        Err(ScheduleError::OutOfMemory) => Err(AllocError),
    }
}

#[test]
fn each_text_has_its_first_bad_line(rt: HostRuntime) -> Result<(), Fail> {
    for (text, line, cause) in ROWS {
        let found = judged(rt.alloc(), text)?;
        assert!(rt; found == (*line, *cause), "line {line} cause {cause}");
    }
    Ok(())
}

/// A line with a word of so many letters in one of its places: a URL, a key or a value.
fn with_long(alloc: Global, place: u8, count: usize) -> Result<(u32, u8), AllocError> {
    let mut word = String::new(alloc);
    for _ in 0..count {
        word.push('a')?;
    }
    let line = match place {
        0 => format!(in alloc; "begin http://{word} 0")?,
        1 => format!(in alloc; "begin http://h 0\nwork 1 http://h d prepared {word} v")?,
        _ => format!(in alloc; "begin http://h 0\nwork 1 http://h d prepared k {word}")?,
    };
    judged(alloc, line.as_bytes())
}

fn bounds(alloc: Global) -> Result<bool, AllocError> {
    Ok(
        with_long(alloc, 0, 1017)? == (0, 0)
            && with_long(alloc, 0, 1018)? == (1, 5)
            && with_long(alloc, 1, 256)? == (0, 0)
            && with_long(alloc, 1, 257)? == (2, 5)
            && with_long(alloc, 2, 256)? == (0, 0)
            && with_long(alloc, 2, 257)? == (2, 5),
    )
}

#[test]
fn texts_have_their_bounds(rt: HostRuntime) -> Result<(), Fail> {
    let kept = bounds(rt.alloc())?;
    assert!(rt; kept);
    Ok(())
}

const EACH: &[u8] =
    b"begin http://a 60000\ninterpose 1 http://b/\nwork 2 http://c v aborted key value\ncommit 1\nrollback 2\nwait";

fn each_line(alloc: Global) -> Result<Vec<InitiatorLine>, AllocError> {
    let mut lines = Vec::new(alloc);
    lines.push(InitiatorLine::Begin {
        coordinator: Text::copied(alloc, "http://a")?,
        ms: 60_000,
    })?;
    lines.push(InitiatorLine::Interpose {
        activity: 1,
        coordinator: Text::copied(alloc, "http://b/")?,
    })?;
    lines.push(InitiatorLine::Work {
        activity: 2,
        service: Text::copied(alloc, "http://c")?,
        kind: Kind::Volatile,
        vote: Vote::Aborted,
        key: Text::copied(alloc, "key")?,
        value: Text::copied(alloc, "value")?,
    })?;
    lines.push(InitiatorLine::Commit {
        activity: 1,
        anyway: false,
    })?;
    lines.push(InitiatorLine::Rollback { activity: 2 })?;
    lines.push(InitiatorLine::Wait)?;
    Ok(lines)
}

fn reads_each(alloc: Global) -> Result<bool, AllocError> {
    let lines = each_line(alloc)?;
    match read_initiator_lines(alloc, EACH) {
        Ok(read) => Ok(read.as_slice() == lines.as_slice()),
        Err(_) => Ok(false),
    }
}

#[test]
fn each_word_is_read(rt: HostRuntime) -> Result<(), Fail> {
    let read = reads_each(rt.alloc())?;
    assert!(rt; read);
    Ok(())
}
