//! Worked journals: what is printed of them, each cause of a bad line, the order of the causes, and files that are no journal.

use audit_cmd::audit::audit;
use site_model::memory::{MemSink, MemSource};
use std::alloc::{AllocError, Global};
use std::test::Fail;

/// An input, the status that it ends with, and what is printed.
const ROWS: &[(&[u8], u8, &[u8])] = &[
    // a node that only started
    (
        b"journal http://n2.example 0100000005010000000100 -\n",
        0,
        b"agreed committed 0 aborted 0\n",
    ),
    // a root that committed
    (
        b"journal http://n2.example 01000000050100000001010000002a060000000100000001000100010019687474703a2f2f6e332e6578616d706c652f702f642f312d310000010000000908000000010000000100 -\n",
        0,
        b"agreed committed 1 aborted 0\n",
    ),
    // its leaf aborted
    (
        b"journal http://n2.example 01000000050100000001010000002a060000000100000001000100010019687474703a2f2f6e332e6578616d706c652f702f642f312d310000010000000908000000010000000100 -\njournal http://n3.example 010000002e020000000100000001001b687474703a2f2f6e322e6578616d706c652f632f642f312d312f31000000016b000176010000000904000000010000000100 -\n",
        13,
        b"split http://n2.example 1-1\n",
    ),
    // its leaf committed
    (
        b"journal http://n2.example 01000000050100000001010000002a060000000100000001000100010019687474703a2f2f6e332e6578616d706c652f702f642f312d310000010000000908000000010000000100 -\njournal http://n3.example 010000002e020000000100000001001b687474703a2f2f6e322e6578616d706c652f632f642f312d312f31000000016b000176010000000903000000010000000100 -\n",
        0,
        b"agreed committed 2 aborted 0\n",
    ),
    // two that voted to each other
    (
        b"journal http://a.example 0100000030050000000100000001001a687474703a2f2f622e6578616d706c652f632f642f312d312f31000000010001000161000000 -\njournal http://b.example 0100000030050000000100000001001a687474703a2f2f612e6578616d706c652f632f642f312d312f31000000010001000161000000 -\n",
        14,
        b"cycle http://a.example 1-1\n",
    ),
    // in the other order
    (
        b"journal http://b.example 0100000030050000000100000001001a687474703a2f2f612e6578616d706c652f632f642f312d312f31000000010001000161000000 -\njournal http://a.example 0100000030050000000100000001001a687474703a2f2f622e6578616d706c652f632f642f312d312f31000000010001000161000000 -\n",
        14,
        b"cycle http://a.example 1-1\n",
    ),
    // no line
    (b"", 3, b"line 1 cause 7\n"),
    // one below another that voted to itself
    (
        b"journal http://a.example 0100000030050000000100000001001a687474703a2f2f622e6578616d706c652f632f642f312d312f31000000010001000161000000 -\njournal http://b.example 0100000030050000000100000001001a687474703a2f2f622e6578616d706c652f632f642f312d312f31000000010001000161000000 -\n",
        14,
        b"cycle http://b.example 1-1\n",
    ),
    // through a subordinate
    (
        b"journal http://n2.example 01000000050100000001010000002a060000000100000001000100010019687474703a2f2f6e332e6578616d706c652f702f642f312d310000010000000908000000010000000100 -\njournal http://n3.example 0100000031050000000100000001001b687474703a2f2f6e322e6578616d706c652f632f642f312d312f3200000001000100016100000100000009070000000100000001010000000908000000010000000100 -\njournal http://n4.example 010000002e020000000100000001001b687474703a2f2f6e332e6578616d706c652f632f642f312d312f31000000016b000176010000000903000000010000000100 -\n",
        0,
        b"agreed committed 3 aborted 0\n",
    ),
    // under a root whose journal is not given
    (
        b"journal http://n3.example 0100000031050000000100000001001b687474703a2f2f6e322e6578616d706c652f632f642f312d312f3200000001000100016100000100000009070000000100000001010000000908000000010000000100 -\njournal http://n4.example 010000002e020000000100000001001b687474703a2f2f6e332e6578616d706c652f632f642f312d312f31000000016b000176010000000904000000010000000100 -\n",
        13,
        b"split http://n2.example 1-1\n",
    ),
    // a subordinate that aborted
    (
        b"journal http://n3.example 0100000031050000000100000001001b687474703a2f2f6e322e6578616d706c652f632f642f312d312f320000000100010001610000010000000908000000010000000100 -\n",
        0,
        b"agreed committed 0 aborted 1\n",
    ),
    // what stands before a vote ends nothing
    (
        b"journal http://n3.example 01000000090700000001000000010100000031050000000100000001001b687474703a2f2f6e322e6578616d706c652f632f642f312d312f32000000010001000161000000 -\n",
        0,
        b"agreed committed 0 aborted 0\n",
    ),
    // no durable seat
    (
        b"journal http://n3.example 010000002e020000000100000001001b687474703a2f2f6e322e6578616d706c652f632f762f312d312f31000000016b000176010000000904000000010000000100 -\n",
        0,
        b"agreed committed 0 aborted 1\n",
    ),
    // a leaf of a foreign coordinator, its own top
    (
        b"journal http://n3.example 010000001d020000000100000002000a687474703a2f2f682f78000000016b0001760100000009040000000100000002010000000903000000010000000200 -\n",
        13,
        b"split http://n3.example 1-2\n",
    ),
    // the last of several counts
    (
        b"journal http://n3.example 010000002e020000000100000001001b687474703a2f2f6e322e6578616d706c652f632f642f312d312f31000000016b0001760100000009030000000100000001010000002e020000000100000001001b687474703a2f2f6e322e6578616d706c652f632f642f312d322f31000000016b00017600 -\n",
        0,
        b"agreed committed 0 aborted 0\n",
    ),
    // an outcome counts once
    (
        b"journal http://n2.example 01000000050b00000000010000000b060000000100000001000001000000090a000000010000000100 -\n",
        0,
        b"agreed committed 1 aborted 0\n",
    ),
    // the file of the greater generation is live
    (
        b"journal http://n2.example 0100000005010000000100 01000000050b0000000101000000090a000000010000000101000000090a000000010000000200\n",
        0,
        b"agreed committed 2 aborted 0\n",
    ),
    // empty files
    (
        b"journal http://n2.example - -\n",
        0,
        b"agreed committed 0 aborted 0\n",
    ),
    // the lesser of two
    (
        b"journal http://n3.example 010000002f02000000010000000a001c687474703a2f2f6e322e6578616d706c652f632f642f312d31302f31000000016b000176010000000903000000010000000a010000002e020000000100000009001b687474703a2f2f6e322e6578616d706c652f632f642f312d392f31000000016b000176010000000903000000010000000900 -\njournal http://n4.example 010000002f02000000010000000a001c687474703a2f2f6e322e6578616d706c652f632f642f312d31302f31000000016b000176010000000904000000010000000a010000002e020000000100000009001b687474703a2f2f6e322e6578616d706c652f632f642f312d392f31000000016b000176010000000904000000010000000900 -\n",
        13,
        b"split http://n2.example 1-9\n",
    ),
    // a body that is cut short
    (
        b"journal http://n2.example 01000000050100 -\n",
        7,
        b"bad journal 1 file 0 at 0\n",
    ),
    // of the second line
    (
        b"journal http://n2.example 0100000005010000000100 -\njournal http://n3.example 0100000005010000000100 01000000050100\n",
        7,
        b"bad journal 2 file 1 at 0\n",
    ),
    // a body that is no record
    (
        b"journal http://n2.example 0100000005010000000101000000016300 -\n",
        7,
        b"bad journal 1 file 0 at 10\n",
    ),
    // a text of more than 11 bytes
    (
        b"journal http://n2.example 6e6f746573206f66206120646179 -\n",
        7,
        b"bad journal 1 file 0 at 0\n",
    ),
    (
        b"journal http://n2.example 00 6e6f746573206f66206120646179\n",
        7,
        b"bad journal 1 file 1 at 0\n",
    ),
    // and one of 11, which a new journal may have
    (
        b"journal http://n2.example 00000000050b0000000000 -\n",
        0,
        b"agreed committed 0 aborted 0\n",
    ),
    // but in a file that is not live
    (
        b"journal http://n2.example 0100000005010000000100 0100000005010000000101000000016300\n",
        0,
        b"agreed committed 0 aborted 0\n",
    ),
    // each cause
    (
        b"journal http://n2.example - -\nfoo\n",
        3,
        b"line 2 cause 1\n",
    ),
    (b"\n", 3, b"line 1 cause 1\n"),
    (b"journal http://h -\n", 3, b"line 1 cause 2\n"),
    (b"journal ftp://h - -\n", 3, b"line 1 cause 5\n"),
    (b"journal http://h/ - -\n", 3, b"line 1 cause 5\n"),
    (b"journal http://h 0 -\n", 3, b"line 1 cause 6\n"),
    (b"journal http://h - 0g\n", 3, b"line 1 cause 6\n"),
    (
        b"journal http://h - -\njournal http://h - -",
        3,
        b"line 2 cause 7\n",
    ),
    (
        b"journal http://h0 - -\njournal http://h1 - -\njournal http://h2 - -\njournal http://h3 - -\njournal http://h4 - -\njournal http://h5 - -\njournal http://h6 - -\njournal http://h7 - -\n",
        0,
        b"agreed committed 0 aborted 0\n",
    ),
    (
        b"journal http://h0 - -\njournal http://h1 - -\njournal http://h2 - -\njournal http://h3 - -\njournal http://h4 - -\njournal http://h5 - -\njournal http://h6 - -\njournal http://h7 - -\njournal http://h8 - -\n",
        3,
        b"line 9 cause 8\n",
    ),
    (b"journal http://h - -\t\n", 3, b"line 1 cause 9\n"),
    // the order of the causes on one line
    (b"foo \x7f", 3, b"line 1 cause 9\n"),
    (
        b"journal http://h0 - -\njournal http://h1 - -\njournal http://h2 - -\njournal http://h3 - -\njournal http://h4 - -\njournal http://h5 - -\njournal http://h6 - -\njournal http://h7 - -\nfoo",
        3,
        b"line 9 cause 8\n",
    ),
    (b"foo bar", 3, b"line 1 cause 1\n"),
    (b"journal ftp://h", 3, b"line 1 cause 2\n"),
    (b"journal ftp://h 0 0", 3, b"line 1 cause 5\n"),
    (
        b"journal http://h - -\njournal http://h 0 -",
        3,
        b"line 2 cause 6\n",
    ),
    // a bad line goes before a bad journal
    (b"journal http://h 01 -\nfoo", 3, b"line 2 cause 1\n"),
];

fn is_printed(alloc: Global, input: &[u8], status: u8, text: &[u8]) -> Result<bool, AllocError> {
    let mut source = MemSource::new(alloc, input)?;
    let mut sink = MemSink::new(alloc);
    let ended = audit(alloc, &mut source, &mut sink);
    Ok(ended == status && sink.as_slice() == text)
}

#[test]
fn each_input_has_its_report(rt: HostRuntime) -> Result<(), Fail> {
    for (number, (input, status, text)) in ROWS.iter().enumerate() {
        let is_printed = is_printed(rt.alloc(), input, *status, text)?;
        assert!(rt; is_printed, "row {number}");
    }
    Ok(())
}

/// The status where this call of the source fails, and this one of the sink; and how many bytes were written.
fn disturbed(alloc: Global, reading: u32, writing: u32) -> Result<(u8, usize), AllocError> {
    let mut source = MemSource::new(alloc, b"journal http://n2.example - -\n")?;
    source.fail(reading);
    let mut sink = MemSink::new(alloc);
    sink.fail(writing);
    let status = audit(alloc, &mut source, &mut sink);
    Ok((status, sink.as_slice().len()))
}

#[test]
fn faults_of_source_and_sink_are_told(rt: HostRuntime) -> Result<(), Fail> {
    let unread = disturbed(rt.alloc(), 1, 0)?;
    assert!(rt; unread == (4, 0));
    let torn = disturbed(rt.alloc(), 2, 0)?;
    assert!(rt; torn == (4, 0));
    let unwritten = disturbed(rt.alloc(), 0, 1)?;
    assert!(rt; unwritten == (5, 0));
    Ok(())
}
