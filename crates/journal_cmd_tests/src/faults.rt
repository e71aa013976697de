//! Files that aren't there, reads and writes that fail, and the line for an audit.

use journal_cmd::base::is_journal_base;
use journal_cmd::journal::{journal, journal_line};
use journal_cmd::memory_files::MemoryFiles;
use site_model::memory::MemSink;
use std::alloc::{AllocError, Global};
use std::test::Fail;

/// The files that are there, the read and the write that fail, from 1, the status, and what is printed.
type Row = (&'static [&'static str], u32, u32, u8, &'static str);

const ROWS: &[Row] = &[
    (
        &["j", "j.1"],
        0,
        0,
        0,
        "version 1\ngeneration 0\nincarnation 0\nnothing open\n",
    ),
    (
        &["j"],
        0,
        0,
        0,
        "version 1\ngeneration 0\nincarnation 0\nnothing open\n",
    ),
    (&["j.1"], 0, 0, 6, ""),
    (&[], 0, 0, 6, ""),
    (&["j", "j.1"], 1, 0, 6, ""),
    (&["j", "j.1"], 2, 0, 6, ""),
    (&["j", "j.1"], 0, 1, 5, ""),
];

fn files_of(alloc: Global, names: &[&str]) -> Result<MemoryFiles, AllocError> {
    let mut files = MemoryFiles::new(alloc);
    for name in names {
        files.put(alloc, name, b"")?;
    }
    Ok(files)
}

fn ends(alloc: Global, row: &Row) -> bool {
    let (names, read, written, status, text) = *row;
    let Ok(mut files) = files_of(alloc, names) else {
        return false;
    };
    let mut sink = MemSink::new(alloc);
    files.fail(read);
    sink.fail(written);
    let ended = journal(alloc, "j", &mut files, &mut sink);
    ended == status && sink.as_slice() == text.as_bytes()
}

#[test]
fn each_fault_has_its_status(rt: HostRuntime) -> Result<(), Fail> {
    for row in ROWS {
        let right = ends(rt.alloc(), row);
        assert!(rt; right, "{}", row.4);
    }
    Ok(())
}

/// Whether the line of a first file of three bytes, beside one that isn't there, is that.
fn is_line(alloc: Global, text: &str) -> bool {
    let mut files = MemoryFiles::new(alloc);
    if files.put(alloc, "j", b"\x00\xff\x0a").is_err() {
        return false;
    }
    let mut sink = MemSink::new(alloc);
    let ended = journal_line(alloc, "http://n1.example", "j", &mut files, &mut sink);
    ended == 0 && sink.as_slice() == text.as_bytes()
}

#[test]
fn the_line_for_an_audit_has_both_files(rt: HostRuntime) -> Result<(), Fail> {
    let right = is_line(rt.alloc(), "journal http://n1.example 00ff0a -\n");
    assert!(rt; right, "line");
    Ok(())
}

/// Words, and whether an audit takes them as bases.
const BASES: &[(&str, bool)] = &[
    ("http://n1.example", true),
    ("http://127.0.0.1:9001", true),
    ("http://n1.example/", false),
    ("http://n1.example/a", false),
    ("https://n1.example", false),
    ("", false),
];

#[test]
fn a_base_has_no_slash_at_its_end(rt: HostRuntime) -> Result<(), Fail> {
    for (word, wanted) in BASES {
        let found = is_journal_base(rt.alloc(), word);
        assert!(rt; found == Ok(*wanted), "{word}");
    }
    Ok(())
}
