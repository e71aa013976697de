//! Pages of files whose bytes are written here.

use journal_cmd::journal::journal;
use journal_cmd::memory_files::MemoryFiles;
use site_model::memory::MemSink;
use std::alloc::{AllocError, Global};
use std::test::Fail;

/// The first file, the second, the status and what is printed.
type Row = (&'static [u8], &'static [u8], u8, &'static str);

const PAGES: &[Row] = &[
    // no bytes, one byte, and a gate that is shut
    (
        b"",
        b"",
        0,
        "version 1\ngeneration 0\nincarnation 0\nnothing open\n",
    ),
    (
        b"\x01",
        b"",
        0,
        "version 1\ngeneration 0\nincarnation 0\nnothing open\n",
    ),
    (
        b"\x00\x07\x08",
        b"",
        0,
        "version 1\ngeneration 0\nincarnation 0\nnothing open\n",
    ),
    // a mark before its gate is raised
    (
        b"\x00\x00\x00\x00\x05\x0b\x00\x00\x00\x00\x00",
        b"",
        0,
        "version 1\ngeneration 0\nincarnation 0\nnothing open\n",
    ),
    // version 1 without a mark: Start 3, LeafPrepared 3-1 under a
    (
        b"\x01\x00\x00\x00\x05\x01\x00\x00\x00\x03\
\x01\x00\x00\x00\x12\x02\x00\x00\x00\x03\x00\x00\x00\x01\x00\x01a\x00\x00\x00\x00\x00\x00\x00",
        b"",
        0,
        "version 1\ngeneration 0\nincarnation 3\nstart 3\nprepared 3-1 under a\nin doubt 3-1 asks a\n",
    ),
    // the second file lives: version 2, generation 1, Start 1 and Decided 1-2 without seats
    (
        b"\x00",
        b"\x01\x00\x00\x00\x05\x0b\x00\x00\x00\x01\
\x01\x00\x00\x00\x05\x01\x00\x00\x00\x01\
\x01\x00\x00\x00\x0b\x06\x00\x00\x00\x01\x00\x00\x00\x02\x00\x00\x00",
        0,
        "version 2\ngeneration 1\nincarnation 1\nstart 1\ndecided 1-2 seats none\nnothing open\n",
    ),
    // each record: Decided 1-2 with seat 3, Voted 1-4 under a space, SubCommitted 1-4, Ended 1-2, Done 1-2, LeafCommitted 1-5,
    // LeafAborted 1-6
    (
        b"\x01\x00\x00\x00\x05\x0b\x00\x00\x00\x00\
\x01\x00\x00\x00\x12\x06\x00\x00\x00\x01\x00\x00\x00\x02\x00\x01\x00\x03\x00\x01b\x00\x00\
\x01\x00\x00\x00\x1a\x05\x00\x00\x00\x01\x00\x00\x00\x04\x00\x03a b\x00\x00\x00\x01\x00\x07\x00\x02<&\x00\x00\
\x01\x00\x00\x00\x09\x07\x00\x00\x00\x01\x00\x00\x00\x04\
\x01\x00\x00\x00\x09\x08\x00\x00\x00\x01\x00\x00\x00\x02\
\x01\x00\x00\x00\x09\x0a\x00\x00\x00\x01\x00\x00\x00\x02\
\x01\x00\x00\x00\x09\x03\x00\x00\x00\x01\x00\x00\x00\x05\
\x01\x00\x00\x00\x09\x04\x00\x00\x00\x01\x00\x00\x00\x06\x00",
        b"",
        0,
        "version 2\ngeneration 0\nincarnation 1\ndecided 1-2 seats 3 b\nvoted 1-4 under a&#32;b seats 7 &lt;&amp;\ncommitting 1-4\nended 1-2\n\
outcome 1-2 committed\ncommitted 1-5\naborted 1-6\ndecision 1-4 waits for 7 &lt;&amp;\n",
    ),
];

const REFUSALS: &[Row] = &[
    // no gate behind the body, in the first file and in the second
    (
        b"\x01\x00\x00\x00\x05\x01\x00\x00\x00\x03",
        b"",
        7,
        "bad journal at 0\n",
    ),
    (
        b"\x01\x00\x00\x00\x05\x01\x00\x00\x00\x03\x00",
        b"\x01\x00\x00\x00\x05\x01\x00\x00\x00\x03\x01",
        7,
        "bad journal file 1 at 10\n",
    ),
    // a mark behind a record
    (
        b"\x01\x00\x00\x00\x05\x01\x00\x00\x00\x03\x01\x00\x00\x00\x05\x0b\x00\x00\x00\x01\x00",
        b"",
        7,
        "bad journal at 10\n",
    ),
    // a body of the live file that is no record, and one that version 1 doesn't have
    (
        b"\x01\x00\x00\x00\x05\x0b\x00\x00\x00\x01\x01\x00\x00\x00\x01\x63\x00",
        b"",
        7,
        "bad journal at 10\n",
    ),
    (
        b"\x01\x00\x00\x00\x09\x0a\x00\x00\x00\x01\x00\x00\x00\x02\x00",
        b"",
        7,
        "bad journal at 0\n",
    ),
    // a text of more than 11 bytes, as the first file and as the second
    (b"notes of a day", b"", 7, "no journal\n"),
    (b"", b"notes of a day", 7, "no journal\n"),
    // the same in the file that isn't live
    (
        b"\x01\x00\x00\x00\x01\x63\x00",
        b"\x01\x00\x00\x00\x05\x0b\x00\x00\x00\x01\x00",
        0,
        "version 2\ngeneration 1\nincarnation 0\nnothing open\n",
    ),
];

fn files_of(alloc: Global, first: &[u8], second: &[u8]) -> Result<MemoryFiles, AllocError> {
    let mut files = MemoryFiles::new(alloc);
    files.put(alloc, "j", first)?;
    files.put(alloc, "j.1", second)?;
    Ok(files)
}

/// Whether the files are printed so.
fn prints(alloc: Global, row: &Row) -> bool {
    let (first, second, status, text) = *row;
    let Ok(mut files) = files_of(alloc, first, second) else {
        return false;
    };
    let mut sink = MemSink::new(alloc);
    let ended = journal(alloc, "j", &mut files, &mut sink);
    ended == status && sink.as_slice() == text.as_bytes()
}

/// The first of these rows that isn't printed so.
fn wrong(alloc: Global, rows: &[Row]) -> usize {
    for (place, row) in rows.iter().enumerate() {
        if !prints(alloc, row) {
            return place;
        }
    }
    rows.len()
}

#[test]
fn what_files_stand_for_is_printed(rt: HostRuntime) -> Result<(), Fail> {
    let place = wrong(rt.alloc(), PAGES);
    assert_eq!(rt; place, PAGES.len());
    Ok(())
}

#[test]
fn the_place_of_what_is_bad_is_printed(rt: HostRuntime) -> Result<(), Fail> {
    let place = wrong(rt.alloc(), REFUSALS);
    assert_eq!(rt; place, REFUSALS.len());
    Ok(())
}
