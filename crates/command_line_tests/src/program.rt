//! The program, but for its handles: what it ends with, by the words of the process.

use crate::top_call::words_of;
use command_line::run::run;
use entry_point::program::with_words;
use journal_cmd::memory_files::MemoryFiles;
use site_model::memory::{MemSink, MemSource};
use site_model::sure_site::SureSite;
use std::alloc::{AllocError, Global};
use std::env::Args;
use std::io;
use std::io::ErrorKind;
use std::process::ExitCode;
use std::test::Fail;

/// Whether the process ends with this status, without an input.
fn ends_with(alloc: Global, words: io::Result<Args>, status: u8) -> Result<bool, AllocError> {
    let mut source = MemSource::new(alloc, b"")?;
    let mut sink = MemSink::new(alloc);
    let mut errors = MemSink::new(alloc);
    let mut site = SureSite::new();
    let ended = with_words(
        alloc,
        words,
        &mut source,
        &mut sink,
        &mut errors,
        &mut MemoryFiles::new(alloc),
        &mut site,
        run,
    );
    Ok(ended == ExitCode::from(status))
}

/// All words of a process, and its status.
const LINES: &[(&str, u8)] = &[
    ("atx --version", 0),
    ("--version atx", 2),
    ("atx check --path /p/d/1-1", 3),
    ("atx /p/d/1-1 --path check", 2),
    ("atx", 2),
];

#[test]
fn words_of_a_process(rt: HostRuntime) -> Result<(), Fail> {
    for (line, status) in LINES {
        let words = words_of(rt.alloc(), line)?;
        let ended = ends_with(rt.alloc(), Ok(words.into_iter()), *status)?;
        assert!(rt; ended);
    }
    Ok(())
}

#[test]
fn no_words(rt: HostRuntime) -> Result<(), Fail> {
    let none = Vec::new(rt.alloc()).into_iter();
    let nameless = ends_with(rt.alloc(), Ok(none), 2)?;
    let unread = io::Error::from(ErrorKind::InvalidData);
    let illegible = ends_with(rt.alloc(), Err(unread), 2)?;
    let unheld = io::Error::from(ErrorKind::OutOfMemory);
    let spent = ends_with(rt.alloc(), Err(unheld), 9)?;
    assert!(rt; nameless && illegible && spent);
    Ok(())
}
