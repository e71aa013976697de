//! Sources and sinks that fail, and the limits of a source.

use crate::commands::notice;
use crate::reports::PLAIN;
use crate::top_call::{prints, words_of};
use command_line::run::run;
use journal_cmd::memory_files::MemoryFiles;
use site_model::memory::{MemSink, MemSource};
use site_model::sink::Sink;
use site_model::source::Failed;
use site_model::sure_site::SureSite;
use std::alloc::{AllocError, Global};
use std::test::Fail;

/// A sink with room for so many bytes.
#[derive(Drop)]
struct ShortSink {
    bytes: Vec<u8>,
    room: usize,
    faults: u64,
}

impl Sink for ShortSink {
    ghost use Rattle.std.specs.Prelude.{Some};

    ghost contents = { λ s. Some s.bytes.items };

    ghost faults = { λ s. s.faults };

    fn write(&mut self, piece: &[u8]) -> Result<usize, Failed> {
        let n = piece.len().min(self.room);
        if n == 0 || self.bytes.extend_from_slice(&piece[..n]).is_err() {
            self.faults = self.faults.saturating_add(1);
            return Err(Failed);
        }
        self.room -= n;
        Ok(n)
    }
}

/// The status where a sink has room for so many bytes of what a cell prints, and whether it has these.
fn cut_off(alloc: Global, room: usize, left: &[u8]) -> Result<(u8, bool), AllocError> {
    let words = words_of(alloc, "cell --state None")?;
    let input = notice(
        alloc,
        "/c/d/1-1/1",
        "http://n3.example/p/d/1-1",
        "Prepared",
        "",
    )?;
    let mut source = MemSource::new(alloc, input.as_bytes())?;
    let mut sink = ShortSink {
        bytes: Vec::new(alloc),
        room,
        faults: 0,
    };
    let mut errors = MemSink::new(alloc);
    let status = run(
        alloc,
        words.as_slice(),
        &mut source,
        &mut sink,
        &mut errors,
        &mut MemoryFiles::new(alloc),
        &mut SureSite::new(),
    );
    Ok((status, sink.bytes.as_slice() == left))
}

#[test]
fn a_sink_that_stops_in_a_line(rt: HostRuntime) -> Result<(), Fail> {
    let found = cut_off(rt.alloc(), 8, b"send Rol")?;
    assert!(rt; found == (5, true));
    Ok(())
}

/// A command, the read at which its source fails, the writes at which its sink fails and idles, and the status.
const FAULTS: &[(&str, u32, u32, u32, u8)] = &[
    ("replay", 0, 0, 0, 0),
    ("replay", 1, 0, 0, 4),
    ("replay", 2, 0, 0, 4),
    ("replay", 0, 1, 0, 5),
    ("replay", 0, 0, 1, 5),
    ("make --seed 7 --steps 0", 1, 0, 0, 0),
    ("make --seed 7 --steps 0", 0, 1, 0, 5),
    ("check", 0, 0, 0, 3),
    ("check", 2, 0, 0, 4),
    ("check", 0, 1, 0, 5),
    ("journal j", 1, 1, 0, 6),
    ("journal --hex http://n1.example j", 1, 1, 0, 6),
    ("journal --hex http://n1.example/ j", 1, 1, 0, 2),
    ("journal", 1, 1, 0, 2),
    ("cell --state None", 1, 0, 0, 4),
    ("cell --state None", 0, 0, 1, 5),
    ("--help", 1, 0, 0, 0),
    ("--help", 0, 1, 0, 5),
    ("help", 1, 0, 0, 2),
    ("help", 0, 0, 1, 2),
];

/// The status of a command over the plain schedule, with these faults, where the errors can't be told.
fn faulty(
    rt: HostRuntime,
    line: &str,
    source_fails: u32,
    sink_fails: u32,
    sink_idles: u32,
) -> Result<u8, Fail> {
    let words = words_of(rt.alloc(), line)?;
    let mut source = MemSource::new(rt.alloc(), PLAIN.as_bytes())?;
    source.fail(source_fails);
    let mut sink = MemSink::new(rt.alloc());
    sink.fail(sink_fails);
    sink.idle(sink_idles);
    let mut errors = MemSink::new(rt.alloc());
    errors.fail(1);
    Ok(run(
        rt.alloc(),
        words.as_slice(),
        &mut source,
        &mut sink,
        &mut errors,
        &mut MemoryFiles::new(rt.alloc()),
        &mut SureSite::new(),
    ))
}

#[test]
fn faults(rt: HostRuntime) -> Result<(), Fail> {
    for (line, source_fails, sink_fails, sink_idles, status) in FAULTS {
        let ended = faulty(rt, line, *source_fails, *sink_fails, *sink_idles)?;
        assert!(rt; ended == *status);
    }
    Ok(())
}

/// What is printed of an input of so many spaces.
fn prints_of_spaces(rt: HostRuntime, count: usize, printed: &str) -> Result<(u8, bool), Fail> {
    let input = vec![in rt.alloc(); b' '; count]?;
    prints(rt, "check", input.as_slice(), printed)
}

/// How many spaces, the status, and what is printed.
const SPACES: &[(usize, u8, &str)] = &[
    (65_536, 3, "refused 3 NotSpelled\n"),
    (65_537, 3, "refused 1 TooLong\n"),
    (1_048_576, 3, "refused 1 TooLong\n"),
    (1_048_577, 10, ""),
];

#[test]
fn limits_of_the_source(rt: HostRuntime) -> Result<(), Fail> {
    for (count, status, printed) in SPACES {
        let found = prints_of_spaces(rt, *count, printed)?;
        assert!(rt; found == (*status, true), "{count}");
    }
    Ok(())
}
