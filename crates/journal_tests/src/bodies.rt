//! Which bodies are records, in each version and at each bound.

use at_base::record::Record;
use journal_at::version::Version;
use record_bytes::read::read_record;
use record_bytes::write::write_record;
use std::alloc::Global;
use std::test::Fail;

/// What a body is in version 1, and in version 2.
const ROWS: &[(&[u8], bool, bool)] = &[
    // Start: an incarnation of four bytes, at least 1
    (b"\x01\x00\x00\x00\x01", true, true),
    (b"\x01\xff\xff\xff\xff", true, true),
    (b"\x01\x00\x00\x00\x00", false, false),
    (b"\x01\x00\x00\x00", false, false),
    (b"\x01\x00\x00\x00\x01\x00", false, false),
    // LeafPrepared 1-2 under http://a/ with params p, key k and value v
    (
        b"\x02\x00\x00\x00\x01\x00\x00\x00\x02\x00\x09http://a/\x00\x01p\x00\x01k\x00\x01v",
        true,
        true,
    ),
    (
        b"\x02\x00\x00\x00\x01\x00\x00\x00\x02\x00\x01a\x00\x00\x00\x00\x00\x00",
        true,
        true,
    ),
    // without an address
    (
        b"\x02\x00\x00\x00\x01\x00\x00\x00\x02\x00\x00\x00\x00\x00\x00\x00\x00",
        false,
        false,
    ),
    // a key that is no UTF-8, and one with a character that no document holds
    (
        b"\x02\x00\x00\x00\x01\x00\x00\x00\x02\x00\x01a\x00\x00\x00\x01\xff\x00\x00",
        false,
        false,
    ),
    (
        b"\x02\x00\x00\x00\x01\x00\x00\x00\x02\x00\x01a\x00\x00\x00\x01\x1b\x00\x00",
        false,
        false,
    ),
    // cut off in its value
    (
        b"\x02\x00\x00\x00\x01\x00\x00\x00\x02\x00\x01a\x00\x00\x00\x00\x00\x02v",
        false,
        false,
    ),
    // an id alone, both parts of which are at least 1
    (b"\x03\x00\x00\x00\x01\x00\x00\x00\x02", true, true),
    (b"\x03\xff\xff\xff\xff\xff\xff\xff\xff", true, true),
    (b"\x03\x00\x00\x00\x00\x00\x00\x00\x02", false, false),
    (b"\x03\x00\x00\x00\x01\x00\x00\x00\x00", false, false),
    (b"\x03\x00\x00\x00\x01\x00\x00\x00", false, false),
    (b"\x03\x00\x00\x00\x01\x00\x00\x00\x02\x00", false, false),
    (b"\x04\x00\x00\x00\x01\x00\x00\x00\x02", true, true),
    (b"\x07\x00\x00\x00\x01\x00\x00\x00\x02", true, true),
    (b"\x08\x00\x00\x00\x01\x00\x00\x00\x02", true, true),
    (b"\x0a\x00\x00\x00\x01\x00\x00\x00\x02", false, true),
    // Voted 1-2 under a, with seats 3 and 4
    (
        b"\x05\x00\x00\x00\x01\x00\x00\x00\x02\x00\x01a\x00\x00\x00\x02\x00\x03\x00\x01b\x00\x00\x00\x04\x00\x01c\x00\x00",
        true,
        true,
    ),
    // without seats, and with seats whose numbers don't rise from 1
    (
        b"\x05\x00\x00\x00\x01\x00\x00\x00\x02\x00\x01a\x00\x00\x00\x00",
        false,
        false,
    ),
    (
        b"\x05\x00\x00\x00\x01\x00\x00\x00\x02\x00\x01a\x00\x00\x00\x02\x00\x04\x00\x01b\x00\x00\x00\x04\x00\x01c\x00\x00",
        false,
        false,
    ),
    (
        b"\x05\x00\x00\x00\x01\x00\x00\x00\x02\x00\x01a\x00\x00\x00\x01\x00\x00\x00\x01b\x00\x00",
        false,
        false,
    ),
    // Decided 1-2 with seat 65,535, with none, and with fewer than it says
    (
        b"\x06\x00\x00\x00\x01\x00\x00\x00\x02\x00\x01\xff\xff\x00\x01b\x00\x00",
        true,
        true,
    ),
    (b"\x06\x00\x00\x00\x01\x00\x00\x00\x02\x00\x00", false, true),
    (
        b"\x06\x00\x00\x00\x01\x00\x00\x00\x02\x00\x02\x00\x01\x00\x01b\x00\x00",
        false,
        false,
    ),
    // no record of either
    (b"", false, false),
    (b"\x00\x00\x00\x00\x01\x00\x00\x00\x02", false, false),
    (b"\x09\x00\x00\x00\x01", false, false),
    (b"\x0b\x00\x00\x00\x01", false, false),
    (b"\x0c\x00\x00\x00\x01\x00\x00\x00\x02", false, false),
];

/// Whether the record's body is these bytes.
fn writes(alloc: Global, entry: &Record, body: &[u8]) -> bool {
    if !at_base::well_formed::is_well_formed(entry) {
        return false;
    }
    match write_record(alloc, entry) {
        Ok(bytes) => bytes.as_slice() == body,
        Err(_) => false,
    }
}

/// Whether the body is a record, which is then written as it was read.
fn reads(alloc: Global, version: Version, body: &[u8]) -> bool {
    match read_record(alloc, version, body) {
        Ok(entry) => writes(alloc, &entry, body),
        Err(_) => false,
    }
}

#[test]
fn bodies_are_exactly_the_records(rt: HostRuntime) -> Result<(), Fail> {
    for (body, one, two) in ROWS {
        let first = reads(rt.alloc(), Version::One, body);
        let second = reads(rt.alloc(), Version::Two, body);
        assert!(rt; first == *one && second == *two, "body");
    }
    Ok(())
}

/// Adds a number of two bytes.
fn put(out: &mut Vec<u8>, number: u16) -> bool {
    out.extend_from_slice(&number.to_be_bytes()).is_ok()
}

/// A Decided 1-2 with so many seats, numbered from 1, each at an address of so many bytes.
fn decided(alloc: Global, count: u16, size: u16) -> Option<Vec<u8>> {
    let mut out = Vec::new(alloc);
    let begun = out
        .extend_from_slice(b"\x06\x00\x00\x00\x01\x00\x00\x00\x02")
        .is_ok();
    if !begun || !put(&mut out, count) {
        return None;
    }
    for number in 0..count {
        if !put(&mut out, number.wrapping_add(1)) || !put(&mut out, size) {
            return None;
        }
        for _ in 0..size {
            if out.push(b'a').is_err() {
                return None;
            }
        }
        if !put(&mut out, 0) {
            return None;
        }
    }
    Some(out)
}

/// How many seats, of how long an address, and whether that is a record of version 1, and of version 2.
const SIZES: &[(u16, u16, bool, bool)] = &[
    (64, 1, true, true),
    (65, 1, false, true),
    (512, 1, false, true),
    (513, 1, false, false),
    (1, 2048, true, true),
    (1, 2049, false, false),
];

fn sized(alloc: Global, version: Version, count: u16, size: u16) -> bool {
    match decided(alloc, count, size) {
        Some(body) => reads(alloc, version, body.as_slice()),
        None => false,
    }
}

#[test]
fn seats_and_endpoints_have_bounds(rt: HostRuntime) -> Result<(), Fail> {
    for (count, size, one, two) in SIZES {
        let first = sized(rt.alloc(), Version::One, *count, *size);
        let second = sized(rt.alloc(), Version::Two, *count, *size);
        assert!(rt; first == *one && second == *two, "{count} seats");
    }
    Ok(())
}

/// A LeafPrepared 1-2 under a, whose key has so many bytes.
fn keyed(alloc: Global, size: u16) -> Option<Vec<u8>> {
    let mut out = Vec::new(alloc);
    let begun = out
        .extend_from_slice(b"\x02\x00\x00\x00\x01\x00\x00\x00\x02\x00\x01a\x00\x00")
        .is_ok();
    if !begun || !put(&mut out, size) {
        return None;
    }
    for _ in 0..size {
        if out.push(b'k').is_err() {
            return None;
        }
    }
    if put(&mut out, 0) { Some(out) } else { None }
}

fn key_fits(alloc: Global, size: u16) -> bool {
    match keyed(alloc, size) {
        Some(body) => reads(alloc, Version::Two, body.as_slice()),
        None => false,
    }
}

#[test]
fn keys_have_a_bound(rt: HostRuntime) -> Result<(), Fail> {
    let most = key_fits(rt.alloc(), 256);
    let more = key_fits(rt.alloc(), 257);
    assert!(rt; most && !more, "keys");
    Ok(())
}
