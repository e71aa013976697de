use at_base::epr::Epr;
use at_base::id::Id;
use at_base::message_id::message_id;
use at_base::record::{Record, Seated, Seats};
use at_base::text::Text;
use at_base::well_formed::is_well_formed;
use std::alloc::{AllocError, Global};
use std::test::Fail;

/// Names, and the identifiers of messages that Python's uuid.uuid5(uuid.NAMESPACE_URL, name) gives.
const MESSAGE_IDS: &[(&str, &str)] = &[
    ("", "urn:uuid:1b4db7eb-4057-5ddf-91e0-36dec72071f5"),
    (
        "http://n1.example/i/1-1#create",
        "urn:uuid:f3ce039b-8bc3-5b00-94b2-fe179860606f",
    ),
    (
        "http://n1.example/i/1-1#work-1",
        "urn:uuid:979edfd3-ad30-5c3d-991d-b0aff7640695",
    ),
    (
        "http://n3.example/p/d/1-1#register",
        "urn:uuid:b62e7280-0c3c-5e24-8cfd-269197d5ce42",
    ),
];

fn has_message_id(alloc: Global, name: &str, id: &str) -> Result<bool, AllocError> {
    let found = message_id(alloc, name.as_bytes())?;
    Ok(found.as_str() == id)
}

#[test]
fn message_ids(rt: HostRuntime) -> Result<(), Fail> {
    for (name, id) in MESSAGE_IDS {
        let same = has_message_id(rt.alloc(), name, id)?;
        assert!(rt; same, "at {name}");
    }
    Ok(())
}

fn shared(alloc: Global) -> Result<Text, AllocError> {
    Text::copied(alloc, "ab")?.into_shared(alloc)
}

/// Whether a copy of the text that is made longer says ab and c.
fn is_made_longer(text: &Text) -> Result<bool, AllocError> {
    let mut copy = text.clone()?;
    copy.push_str("c")?;
    Ok(copy.as_str() == "abc")
}

/// A shared text, a copy of it that is made longer, and the text behind that.
fn shared_texts(alloc: Global) -> Result<bool, AllocError> {
    let text = shared(alloc)?;
    let longer = is_made_longer(&text)?;
    let same = text.as_str() == "ab";
    let again = text.into_shared(alloc)?;
    Ok(longer && same && again.as_str() == "ab")
}

#[test]
fn texts_that_share(rt: HostRuntime) -> Result<(), Fail> {
    let holds = shared_texts(rt.alloc())?;
    assert!(rt; holds);
    Ok(())
}

const IDS: &[&str] = &["1-1", "1-4294967295", "4294967295-1", "10-20"];

const NO_IDS: &[&str] = &[
    "",
    "-",
    "1",
    "1-",
    "-1",
    "0-1",
    "1-0",
    "01-1",
    "1-01",
    "+1-1",
    "1-+1",
    "1-1-1",
    "1--1",
    " 1-1",
    "1-1 ",
    "1_1",
    "4294967296-1",
    "1-4294967296",
    "1-99999999999999999999",
    "a-1",
    "1-\u{661}",
];

/// Whether the id is put behind an x as this text.
fn is_put(alloc: Global, id: Id, text: &str) -> Result<bool, AllocError> {
    let mut out = Vec::new(alloc);
    out.push(b'x')?;
    id.put(alloc, &mut out)?;
    Ok(out.as_slice().get(1..) == Some(text.as_bytes()))
}

/// Whether the text is that of an id, which is put as it was.
fn is_id(alloc: Global, text: &str) -> Result<bool, AllocError> {
    match Id::read(text.as_bytes()) {
        Some(id) => is_put(alloc, id, text),
        None => Ok(false),
    }
}

#[test]
fn ids_at_their_bounds(rt: HostRuntime) -> Result<(), Fail> {
    for text in IDS {
        let good = is_id(rt.alloc(), text)?;
        assert!(rt; good, "at {text}");
    }
    Ok(())
}

#[test]
fn texts_of_no_id(rt: HostRuntime) -> Result<(), Fail> {
    for text in NO_IDS {
        let absent = Id::read(text.as_bytes()).is_none();
        assert!(rt; absent, "at {text}");
    }
    let absent = Id::read(&[0x31, 0x2d, 0xff]).is_none();
    assert!(rt; absent);
    Ok(())
}

fn repeated(alloc: Global, letter: &str, count: usize) -> Result<Text, AllocError> {
    Ok(Text::from_string(letter.repeat(alloc, count)?))
}

fn endpoint(alloc: Global, address: usize, params: usize) -> Result<Epr, AllocError> {
    let address = repeated(alloc, "a", address)?;
    let params = repeated(alloc, "p", params)?;
    Ok(Epr { address, params })
}

fn seats(alloc: Global, numbers: &[u16]) -> Result<Seats, AllocError> {
    let mut seats = Vec::new(alloc);
    for number in numbers {
        seats.push(Seated {
            number: *number,
            endpoint: endpoint(alloc, 1, 0)?,
        })?;
    }
    Ok(Seats::from_vec(seats))
}

fn decided(alloc: Global, numbers: &[u16]) -> Result<Record, AllocError> {
    Ok(Record::Decided {
        id: Id::new(1, 1),
        seats: seats(alloc, numbers)?,
    })
}

fn voted(alloc: Global, numbers: &[u16]) -> Result<Record, AllocError> {
    let superior = endpoint(alloc, 1, 0)?;
    Ok(Record::Voted {
        id: Id::new(1, 1),
        superior,
        seats: seats(alloc, numbers)?,
    })
}

/// Whether a record may have what a row says.
fn may_have(alloc: Global, row: &(usize, usize, &str, usize, bool)) -> Result<bool, AllocError> {
    let key = Text::copied(alloc, row.2)?;
    let value = repeated(alloc, "v", row.3)?;
    let coordinator = endpoint(alloc, row.0, row.1)?;
    let entry = Record::LeafPrepared {
        id: Id::new(1, 1),
        coordinator,
        key,
        value,
    };
    Ok(is_well_formed(&entry))
}

fn has_seats(alloc: Global, numbers: &[u16]) -> Result<bool, AllocError> {
    let entry = decided(alloc, numbers)?;
    Ok(is_well_formed(&entry))
}

fn has_voted(alloc: Global, numbers: &[u16]) -> Result<bool, AllocError> {
    let entry = voted(alloc, numbers)?;
    Ok(is_well_formed(&entry))
}

#[test]
fn starts_at_their_bounds(rt: HostRuntime) -> Result<(), Fail> {
    let first = is_well_formed(&Record::Start { incarnation: 1 });
    let none = is_well_formed(&Record::Start { incarnation: 0 });
    assert!(rt; first && !none);
    Ok(())
}

/// Lengths of an address and of reference parameters, a key, and the length of a value; and whether a record may have them.
const FIELDS: &[(usize, usize, &str, usize, bool)] = &[
    (1, 0, "key", 256, true),
    (1, 2047, "key", 256, true),
    (2048, 0, "key", 256, true),
    (0, 1, "key", 256, false),
    (1, 2048, "key", 256, false),
    (
        1,
        0,
        "\u{9}\u{a}\u{d} \u{d7ff}\u{e000}\u{fffd}\u{10000}\u{10ffff}",
        0,
        true,
    ),
    (1, 0, "\u{b}", 0, false),
    (1, 0, "\u{0}", 0, false),
    (1, 0, "\u{fffe}", 0, false),
    (1, 0, "\u{ffff}", 0, false),
    (1, 0, "key", 257, false),
];

#[test]
fn fields_at_their_bounds(rt: HostRuntime) -> Result<(), Fail> {
    for row in FIELDS {
        let found = may_have(rt.alloc(), row)?;
        assert!(rt; found == row.4, "at {} and {}", row.0, row.1);
    }
    Ok(())
}

fn numbered(alloc: Global, first: u16, count: u16) -> Result<Vec<u16>, AllocError> {
    let mut numbers = Vec::new(alloc);
    for place in 0..count {
        numbers.push(first.saturating_add(place))?;
    }
    Ok(numbers)
}

fn has_run(alloc: Global, first: u16, count: u16) -> Result<bool, AllocError> {
    let numbers = numbered(alloc, first, count)?;
    has_seats(alloc, numbers.as_slice())
}

/// The first number and how many there are, and whether a decision may have them.
const RUNS: &[(u16, u16, bool)] = &[
    (1, 512, true),
    (512, 2, true),
    (1, 513, false),
    (1, 0, true),
];

/// Numbers that no record has.
const DISORDERED: &[[u16; 2]] = &[[0, 1], [1, 1], [2, 1]];

#[test]
fn seats_at_their_bounds(rt: HostRuntime) -> Result<(), Fail> {
    for (first, count, good) in RUNS {
        let found = has_run(rt.alloc(), *first, *count)?;
        assert!(rt; found == *good, "at {first} and {count}");
    }
    Ok(())
}

#[test]
fn seats_in_disorder(rt: HostRuntime) -> Result<(), Fail> {
    for numbers in DISORDERED {
        let found = has_seats(rt.alloc(), numbers.as_slice())?;
        assert!(rt; !found);
    }
    Ok(())
}

#[test]
fn a_vote_has_seats(rt: HostRuntime) -> Result<(), Fail> {
    let with = has_voted(rt.alloc(), &[1])?;
    let without = has_voted(rt.alloc(), &[])?;
    assert!(rt; with && !without);
    Ok(())
}
