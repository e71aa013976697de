//! What two files stand for.

use crate::letter_journals::spelled;
use journal_at::load::{LoadFault, load};
use journal_at::version::Version;
use site_memory::machine::MemSite;
use site_model::site::Site;
use std::alloc::Global;
use std::test::Fail;

/// What loading says: the letters of the live file, whether it is file 1, and whether it is of version 2; or where it is bad; or
/// that the files are no journal, and neither was changed.
#[derive(Clone, Copy, Debug, PartialEq, Eq)]
pub enum Said {
    Letters(u32, bool, bool),
    Bad(u8, u64),
    NoJournal,
    Other,
}

/// Two files, and what loading says.
const ROWS: &[(&[u8], &[u8], Said)] = &[
    (b"", b"", Said::Letters(0, false, false)),
    (b"\x01", b"", Said::Letters(0, false, false)),
    (b"\x00\x01", b"\x07", Said::Letters(0, false, false)),
    (
        b"\x01\x00\x00\x00\x01a\x00",
        b"",
        Said::Letters(0x61, false, false),
    ),
    (
        b"\x01\x00\x00\x00\x01a\x02\x01",
        b"",
        Said::Letters(0x61, false, false),
    ),
    // no gate behind, no size, cut off
    (b"\x01\x00\x00\x00\x01a", b"", Said::Bad(0, 0)),
    (b"\x01\x00\x00\x00\x00\x00", b"", Said::Bad(0, 0)),
    (b"\x01\x00\x00\x00\x01a\x01\x00\x00", b"", Said::Bad(0, 6)),
    (
        b"\x01\x00\x00\x00\x01a\x01\x00\x10\x2c\xa1aa",
        b"",
        Said::Bad(0, 6),
    ),
    // a mark behind another body
    (
        b"\x01\x00\x00\x00\x01a\x01\x00\x00\x00\x05\x0b\x00\x00\x00\x00\x00",
        b"",
        Said::Bad(0, 6),
    ),
    // file 0 is judged first
    (b"\x01\x00", b"\x01\x00\x00", Said::Bad(0, 0)),
    (b"\x00", b"\x01\x00\x00\x00\x01a\x01", Said::Bad(1, 6)),
    // the greater generation, and file 0 where both are the same
    (
        b"\x01\x00\x00\x00\x05\x0b\x00\x00\x00\x02\x01\x00\x00\x00\x01a\x00",
        b"\x01\x00\x00\x00\x05\x0b\x00\x00\x00\x03\x00",
        Said::Letters(0, true, true),
    ),
    (
        b"\x01\x00\x00\x00\x05\x0b\x00\x00\x00\x02\x01\x00\x00\x00\x01a\x00",
        b"\x01\x00\x00\x00\x05\x0b\x00\x00\x00\x02\x00",
        Said::Letters(0x61, false, true),
    ),
    // version 1, with a generation and without
    (
        b"\x01\x00\x00\x00\x01a\x00",
        b"\x01\x00\x00\x00\x05\x09\x00\x00\x00\x01\x01\x00\x00\x00\x01b\x00",
        Said::Letters(0x62, true, false),
    ),
    (
        b"\x01\x00\x00\x00\x01a\x00",
        b"\x01\x00\x00\x00\x05\x09\x00\x00\x00\x00\x00",
        Said::Letters(0x61, false, false),
    ),
    // a text in either file, where the live one has no body, and beside one that has
    (TEXT, b"", Said::NoJournal),
    (b"", TEXT, Said::NoJournal),
    (TEXT, TEXT, Said::NoJournal),
    (
        TEXT,
        b"\x01\x00\x00\x00\x05\x0b\x00\x00\x00\x01\x01\x00\x00\x00\x01a\x00",
        Said::Letters(0x61, true, true),
    ),
    (
        b"\x01\x00\x00\x00\x01a\x00",
        TEXT,
        Said::Letters(0x61, false, false),
    ),
    // as long as a new journal may be, and longer
    (b"a few words", b"", Said::Letters(0, false, false)),
    (b"a few words.", b"", Said::NoJournal),
    (ELEVEN, ELEVEN, Said::Letters(0, false, false)),
    (TWELVE, b"", Said::NoJournal),
    (b"", TWELVE, Said::NoJournal),
    // a body in file 1, which isn't live
    (b"", b"\x01\x00\x00\x00\x07letters\x00", Said::NoJournal),
];

const TEXT: &[u8] = b"Dear diary,\nit rained all day.\n";

const ELEVEN: &[u8] = b"\x00\x00\x00\x00\x00\x00\x00\x00\x00\x00\x00";

const TWELVE: &[u8] = b"\x00\x00\x00\x00\x00\x00\x00\x00\x00\x00\x00\x00";

/// What loading says of these files.
fn loaded(alloc: Global, first: &[u8], second: &[u8]) -> Said {
    let mut site = MemSite::new(alloc);
    if site.write_at(0, 0, first).is_err() || site.write_at(1, 0, second).is_err() {
        return Said::Other;
    }
    match load(alloc, &mut site, 1000) {
        Ok((journal, records)) => Said::Letters(
            spelled(&records),
            journal.live() == 1,
            records.version() == Version::Two,
        ),
        Err(LoadFault::Bad { file, place }) => Said::Bad(file, place),
        Err(LoadFault::NoJournal) if site.file(0) == first && site.file(1) == second => {
            Said::NoJournal
        }
        Err(_) => Said::Other,
    }
}

#[test]
fn files_stand_for_their_records(rt: HostRuntime) -> Result<(), Fail> {
    for (first, second, wanted) in ROWS {
        let says = loaded(rt.alloc(), first, second);
        assert!(rt; says == *wanted, "files");
    }
    Ok(())
}

/// A mark behind a gate that is still shut: all that the first append of a new journal lays.
const LAID: &[u8] = b"\x00\x00\x00\x00\x05\x0b\x00\x00\x00\x00\x00";

/// Whether so much of it, cut at any byte, is a journal without bodies.
fn is_new_wherever_cut(alloc: Global) -> bool {
    let mut bytes = Vec::new(alloc);
    for byte in LAID {
        if loaded(alloc, bytes.as_slice(), b"") != Said::Letters(0, false, false) {
            return false;
        }
        if bytes.push(*byte).is_err() {
            return false;
        }
    }
    loaded(alloc, bytes.as_slice(), b"") == Said::Letters(0, false, false)
}

#[test]
fn a_new_journal_that_is_cut_is_new(rt: HostRuntime) -> Result<(), Fail> {
    let right = is_new_wherever_cut(rt.alloc());
    assert!(rt; right, "cut");
    Ok(())
}

/// Both files behind loading and one append, which a machine without any bytes takes.
fn begins(alloc: Global) -> bool {
    let mut site = MemSite::new(alloc);
    match load(alloc, &mut site, 1000) {
        Ok((mut journal, _)) => {
            let shut = site.file(0) == b"\x00".as_slice();
            let mark = journal.append(&mut site, b"\x0b\x00\x00\x00\x00");
            let start = journal.append(&mut site, b"\x01\x00\x00\x00\x01");
            let _answers = (mark, start);
            shut && site.file(1).is_empty()
                && site.file(0)
                    == b"\x01\x00\x00\x00\x05\x0b\x00\x00\x00\x00\x01\x00\x00\x00\x05\x01\x00\x00\x00\x01\x00".as_slice()
        }
        Err(_) => false,
    }
}

#[test]
fn an_empty_machine_begins_in_file_0(rt: HostRuntime) -> Result<(), Fail> {
    let right = begins(rt.alloc());
    assert!(rt; right, "begins");
    Ok(())
}
