//! The top call over sources and sinks in memory.

use command_line::run::run;
use entry_point::help::heard;
use journal_cmd::memory_files::MemoryFiles;
use site_model::memory::{MemSink, MemSource};
use site_model::sure_site::SureSite;
use std::alloc::{AllocError, Global};
use std::test::Fail;

/// The words of a command line.
pub fn words_of(alloc: Global, line: &str) -> Result<Vec<String>, AllocError> {
    let mut words = Vec::new(alloc);
    for word in line.split(' ') {
        words.push(String::from_str(alloc, word)?)?;
    }
    Ok(words)
}

/// Whether this was printed; where the words are no job, it was told the errors, and nothing was printed.
pub fn are_said(status: u8, sink: &MemSink, errors: &MemSink, said: &str) -> bool {
    if status == 2 {
        sink.as_slice().is_empty() && errors.as_slice() == said.as_bytes()
    } else {
        errors.as_slice().is_empty() && sink.as_slice() == said.as_bytes()
    }
}

/// The status of a command over this input, and whether what it says is this.
pub fn prints(
    rt: HostRuntime,
    line: &str,
    input: &[u8],
    printed: &str,
) -> Result<(u8, bool), Fail> {
    let words = heard(rt.alloc(), words_of(rt.alloc(), line)?)?;
    let mut source = MemSource::new(rt.alloc(), input)?;
    let mut sink = MemSink::new(rt.alloc());
    let mut errors = MemSink::new(rt.alloc());
    let status = run(
        rt.alloc(),
        words.as_slice(),
        &mut source,
        &mut sink,
        &mut errors,
        &mut MemoryFiles::new(rt.alloc()),
        &mut SureSite::new(),
    );
    Ok((status, are_said(status, &sink, &errors, printed)))
}

/// What a command prints of this input, where its status is 0; else nothing.
pub fn printed(alloc: Global, line: &str, input: &[u8]) -> Result<Vec<u8>, AllocError> {
    let words = words_of(alloc, line)?;
    let mut source = MemSource::new(alloc, input)?;
    let mut sink = MemSink::new(alloc);
    let mut errors = MemSink::new(alloc);
    let status = run(
        alloc,
        words.as_slice(),
        &mut source,
        &mut sink,
        &mut errors,
        &mut MemoryFiles::new(alloc),
        &mut SureSite::new(),
    );
    if status != 0 {
        return Ok(Vec::new(alloc));
    }
    Vec::from_slice(alloc, sink.as_slice())
}

/// The text of what was printed.
pub fn text_of(printed: &[u8]) -> &str {
    match str::from_utf8(printed) {
        Ok(text) => text,
        Err(_) => "",
    }
}
