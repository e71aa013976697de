//! What a message does at a seat, a link and a completion seat, written out by hand.

use crate::shared::{epr, kind_of, moment_at, one, part, planned, stands};
use at_base::epr::{Epr, Reply};
use at_base::event::{Arrived, Event, Moment};
use at_base::id::Id;
use at_base::message::Message;
use at_base::notice::{Kind, Notice};
use at_base::record::{Record, Seats};
use at_base::target::{Seat, Target};
use at_base::text::Text;
use coordinator_at::transactions::Transactions;
use std::alloc::{AllocError, Global};
use std::test::Fail;

/// A transaction; where a message comes, a seat's number, v, d or c; and the message. Then the record; and what is left and
/// follows where it stands, and where it is absent.
const AT_SEATS: &str = "\
root Durable D:None,D:Preparing Completing 1 Prepared|-|Durable None Preparing =Completing 202 Rollback~p1\n\
root Durable D:None,D:Preparing Completing 1 ReadOnly|-|Durable None Preparing =Completing 202\n\
root Durable D:None,D:Preparing Completing 1 Aborted|-|Durable None Preparing =Completing 202\n\
root Durable D:None,D:Preparing Completing 1 Committed|-|Durable None Preparing =Completing 202\n\
root Durable V:None,D:Preparing Completing 1 Prepared|-|Durable None Preparing =Completing 202 UnknownTransaction@p1\n\
root Durable V:None,D:Preparing Completing 1 ReadOnly|-|Durable None Preparing =Completing 202\n\
root Durable V:None,D:Preparing Completing 1 Aborted|-|Durable None Preparing =Completing 202\n\
root Durable V:None,D:Preparing Completing 1 Committed|-|Durable None Preparing =Completing 202\n\
root Active D:Active,D:Active Active 1 Prepared|-|Aborting* Aborting Aborting =None 202 InvalidState@p1 Rollback@p1 Rollback@p2 Aborted@initiator RootAborted\n\
root Active D:Active,D:Active Active 1 ReadOnly|-|Active None Active =Active 202\n\
root Active D:Active,D:Active Active 1 Aborted|-|Aborting* None Aborting =None 202 Rollback@p2 Aborted@initiator RootAborted\n\
root Active D:Active,D:Active Active 1 Committed|-|Aborting* Aborting Aborting =None 202 InvalidState@p1 Rollback@p1 Rollback@p2 Aborted@initiator RootAborted\n\
root Active V:Active,D:Active - 1 Prepared|-|Aborting* Aborting Aborting 202 InvalidState@p1 Rollback@p1 Rollback@p2 RootAborted\n\
root Active V:Active,D:Active Active 1 ReadOnly|-|Active None Active =Active 202\n\
root Active V:Active,D:Active Active 1 Aborted|-|Aborting* None Aborting =None 202 Rollback@p2 Aborted@initiator RootAborted\n\
root Active V:Active,D:Active Active 1 Prepare|-|Active Active Active =Active 202\n\
root Durable D:Preparing,D:Preparing Completing 1 Prepared|-|Durable Prepared Preparing =Completing 202\n\
root Durable D:Preparing,D:Prepared Completing 1 Prepared|Decided 1 2|Committing* Committing Committing =Done 202 Commit@p1 Commit@p2 Committed@initiator RootCommitted|Aborting* Aborting Aborting =None 202 Rollback@p1 Rollback@p2 Aborted@initiator RootAborted\n\
root Durable V:Prepared,D:Prepared,D:Preparing Completing 3 ReadOnly|Decided 2|Committing* Committing Committing None =Done 202 Commit@p1 Commit@p2 Committed@initiator RootCommitted|Aborting* Aborting Aborting None =None 202 Rollback@p1 Rollback@p2 Aborted@initiator RootAborted\n\
root Durable D:Preparing,D:None Completing 1 ReadOnly|Decided|gone 202 Committed@initiator RootCommitted|gone 202 Aborted@initiator RootAborted\n\
root Durable V:Prepared,D:Preparing Completing 2 ReadOnly|Decided|gone 202 Commit@p1 Committed@initiator RootCommitted|Aborting* Aborting None =None 202 Rollback@p1 Aborted@initiator RootAborted\n\
root Durable D:Preparing,D:Prepared Completing 1 Aborted|-|Aborting* None Aborting =None 202 Rollback@p2 Aborted@initiator RootAborted\n\
root Durable D:Preparing Completing 1 Aborted|-|gone 202 Aborted@initiator RootAborted\n\
root Durable D:Preparing,D:Prepared Completing 1 Committed|-|Aborting* Aborting Aborting =None 202 InvalidState@p1 Rollback@p1 Rollback@p2 Aborted@initiator RootAborted\n\
root Volatile V:Preparing,V:Preparing,D:Active Completing 1 Prepared|-|Volatile Prepared Preparing Active =Completing 202\n\
root Volatile V:Preparing,V:Preparing Completing 1 ReadOnly|-|Volatile None Preparing =Completing 202\n\
root Volatile V:Preparing,D:Active,D:None Completing 1 Prepared|-|Durable* Prepared Preparing None =Completing 202 Prepare@p2\n\
root Volatile V:Preparing,V:Prepared Completing 1 ReadOnly|Decided|gone 202 Commit@p2 Committed@initiator RootCommitted|Aborting* None Aborting =None 202 Rollback@p2 Aborted@initiator RootAborted\n\
root Volatile V:Preparing,D:Active Completing 2 ReadOnly|-|Volatile Preparing None =Completing 202\n\
root Volatile V:Preparing,D:Active Completing 1 Aborted|-|Aborting* None Aborting =None 202 Rollback@p2 Aborted@initiator RootAborted\n\
root Durable D:Prepared,D:Preparing Completing 1 Prepared|-|Durable Prepared Preparing =Completing 202\n\
root Durable D:Prepared,D:Preparing Completing 1 ReadOnly|-|Durable Prepared Preparing =Completing 202 InvalidState@p1\n\
root Durable D:Prepared,D:Preparing Completing 1 Aborted|-|Durable Prepared Preparing =Completing 202 InvalidState@p1\n\
root Durable D:Prepared,D:Preparing Completing 1 Committed|-|Durable Prepared Preparing =Completing 202 InvalidState@p1\n\
root Durable V:Prepared,D:Preparing Completing 1 Aborted|-|Durable Prepared Preparing =Completing 202 InvalidState@p1\n\
root Committing D:Committing,D:Committing Done 1 Prepared|-|Committing* Committing Committing =Done 202 Commit@p1\n\
root Committing D:Committing,D:Committing Done 1 ReadOnly|-|Committing Committing Committing =Done 202 InvalidState@p1\n\
root Committing D:Committing,D:Committing Done 1 Aborted|-|Committing Committing Committing =Done 202 InvalidState@p1\n\
root Committing D:Committing,D:Committing Done 1 Committed|-|Committing None Committing =Done 202\n\
root Committing V:Committing,D:Committing Done 1 Committed|-|Committing None Committing =Done 202\n\
root Committing V:Committing,D:Committing Done 2 Committed|Ended|gone 202|Committing Committing Committing =Done 202\n\
None/Committing Committing D:Committing,D:None - 1 Committed|Ended|gone 202 Committed@durable|Committing /None/Committing Committing None 202\n\
root Aborting D:Aborting,D:Aborting None 1 Prepared|-|Aborting* Aborting Aborting =None 202 Rollback@p1\n\
root Aborting D:Aborting,D:Aborting None 1 ReadOnly|-|Aborting None Aborting =None 202\n\
root Aborting D:Aborting,D:Aborting None 1 Aborted|-|Aborting None Aborting =None 202\n\
root Aborting D:Aborting,D:Aborting None 1 Committed|-|Aborting Aborting Aborting =None 202 InvalidState@p1\n\
root Aborting V:Aborting,D:None None 1 Aborted|-|gone 202\n\
root Aborting V:Aborting,D:Aborting None 1 ReadOnly|-|Aborting None Aborting =None 202\n\
root Aborting D:Aborting None 1 Unknown|-|Aborting Aborting =None 202\n\
Preparing/Active Volatile V:Preparing,D:Active - 1 Prepared|-|Active /None/Active Prepared Active 202 ReadOnly@volatile\n\
None/Preparing Volatile V:Preparing,D:Active - 1 ReadOnly|-|Durable* /None/Preparing None Preparing 202 Prepare@p2\n\
None/Preparing Durable D:Preparing - 1 Prepared|Voted 1|Voted* /None/PreparedSuccess Prepared 202 Prepared@durable|Aborting* /None/None Aborting 202 Aborted@durable Rollback@p1 SubAborted\n\
None/Preparing Durable D:Preparing,V:Prepared - 1 ReadOnly|-|gone 202 ReadOnly@durable\n\
None/Preparing Durable D:Preparing,D:Prepared - 1 Aborted|-|Aborting* /None/None None Aborting 202 Aborted@durable Rollback@p2 SubAborted\n\
";

/// Likewise at a completion seat.
const AT_COMPLETION: &str = "\
root Aborting D:Aborting None c Commit|-|Aborting Aborting =None 202 UnknownTransaction@initiator\n\
root Aborting D:Aborting None c Rollback|-|Aborting Aborting =None 202 UnknownTransaction@initiator\n\
root Active V:Active,D:Active Active c Commit|-|Volatile* Preparing Active =Completing 202 Prepare@p1\n\
root Active D:Active,V:None,D:None Active c Commit|-|Durable* Preparing None None =Completing 202 Prepare@p1\n\
root Active - Active c Commit|Decided|gone 202 Committed@initiator RootCommitted|gone 202 Aborted@initiator RootAborted\n\
root Active D:Active,V:Active Active c Rollback|-|Aborting* Aborting Aborting =None 202 Rollback@p1 Rollback@p2 Aborted@initiator RootAborted\n\
root Active - Active c Rollback|-|gone 202 Aborted@initiator RootAborted\n\
root Durable D:Preparing Completing c Commit|-|Durable Preparing =Completing 202\n\
root Durable D:Preparing Completing c Rollback|-|Durable Preparing =Completing 202 InvalidState@initiator\n\
root Durable D:Preparing Completing c Prepared|-|Durable Preparing =Completing 202\n\
root Durable D:Preparing Completing c Unknown|-|Durable Preparing =Completing 202\n\
root Committing D:Committing Done c Commit|-|Committing Committing =Done 202 Committed@from\n\
root Committing D:Committing Done c Rollback|-|Committing Committing =Done 202 InvalidState@initiator\n\
root Committing D:Committing Done c Committed|-|Committing Committing =Done 202\n\
";

/// Likewise at a link. One in Registering waits for its answer, and the transaction's own request does, too.
const AT_LINKS: &str = "\
None/Active Active D:Active - v Prepare|-|Active /None/Active Active 202 Aborted~volatile\n\
None/Active Active D:Active - v Commit|-|Active /None/Active Active 202 Committed~volatile\n\
None/Active Active D:Active - v Rollback|-|Active /None/Active Active 202 Aborted~volatile\n\
None/None Aborting D:Aborting - d Prepare|-|Aborting /None/None Aborting 202 Aborted~durable\n\
None/None Aborting D:Aborting - d Commit|-|Aborting /None/None Aborting 202 Committed~durable\n\
None/None Aborting D:Aborting - d Rollback|-|Aborting /None/None Aborting 202 Aborted~durable\n\
Registering/Active Registering - - v Prepare|-|Registering /Registering/Active 202\n\
Registering/Active Registering - - v Commit|-|gone 202 InvalidState@from Aborted@durable CannotCreateContext@faults SubAborted\n\
Registering/Active Registering - - v Rollback|-|gone 202 Aborted@from Aborted@durable CannotCreateContext@faults SubAborted\n\
Registering/Active Registering D:Active - v Rollback|-|Aborting* /None/None Aborting 202 Aborted@from Aborted@durable Rollback@p1 CannotCreateContext@faults SubAborted\n\
Registering/Active Registering - - v Registered|-|Active /Active/Active 202 urn:t@asker\n\
Registering/Active Registering - - v Unrelated|-|Registering /Registering/Active 202\n\
Registering/Active Registering - - v Refused|-|gone 202 Aborted@durable CannotCreateContext@faults SubAborted\n\
Registering/Active Registering - - v Unknown|-|Registering /Registering/Active 202\n\
Registering/Active Registering - - v Committed|-|Registering /Registering/Active 202\n\
Registering/Registering Registering - - v Registered|-|Registering /Active/Registering 202\n\
Registering/Registering Registering - - d Rollback|-|gone 202 Aborted@from CannotCreateContext@faults SubAborted\n\
Active/Registering Registering - - d Registered|-|Active /Active/Active 202 urn:t@asker\n\
Active/Registering Registering - - d Prepare|-|Registering /Active/Registering 202\n\
Active/Registering Registering - - d Rollback|-|gone 202 Aborted@volatile Aborted@from CannotCreateContext@faults SubAborted\n\
Active/Registering Registering - - d Refused|-|gone 202 Aborted@volatile CannotCreateContext@faults SubAborted\n\
Active/Active Active V:Active,D:Active - v Prepare|-|Volatile* /Preparing/Active Preparing Active 202 Prepare@p1\n\
Active/Active Active D:Active - v Prepare|-|Active /None/Active Active 202 ReadOnly@volatile\n\
Active/Active Active V:Active,D:Active - d Prepare|-|Volatile* /None/Preparing Preparing Active 202 Prepare@p1\n\
Active/Active Active D:Active - d Prepare|-|Durable* /None/Preparing Preparing 202 Prepare@p1\n\
Active/Active Active - - d Prepare|-|gone 202 ReadOnly@durable\n\
Active/Active Active D:Active - v Commit|-|Aborting* /None/None Aborting 202 InvalidState@volatile Aborted@durable Rollback@p1 SubAborted\n\
Active/Active Active D:Active - d Commit|-|Aborting* /None/None Aborting 202 InvalidState@durable Aborted@volatile Rollback@p1 SubAborted\n\
Active/Active Active D:Active - v Rollback|-|Aborting* /None/None Aborting 202 Aborted@volatile Aborted@durable Rollback@p1 SubAborted\n\
Active/Active Active D:Active - d Rollback|-|Aborting* /None/None Aborting 202 Aborted@volatile Aborted@durable Rollback@p1 SubAborted\n\
Active/Active Active D:Active - v Registered|-|Active /Active/Active Active 202\n\
Active/Active Active D:Active - v Refused|-|Active /Active/Active Active 202\n\
Preparing/Active Volatile V:Preparing - v Prepare|-|Volatile /Preparing/Active Preparing 202\n\
Preparing/Active Volatile V:Preparing - v Commit|-|Aborting* /None/None Aborting 202 InvalidState@volatile Aborted@durable Rollback@p1 SubAborted\n\
Preparing/Active Volatile V:Preparing - v Rollback|-|Aborting* /None/None Aborting 202 Aborted@volatile Aborted@durable Rollback@p1 SubAborted\n\
None/Preparing Durable D:Preparing,D:Prepared - d Prepare|-|Durable /None/Preparing Preparing Prepared 202\n\
None/Preparing Durable D:Preparing,D:Prepared - d Commit|-|Aborting* /None/None Aborting Aborting 202 InvalidState@durable Rollback@p1 Rollback@p2 SubAborted\n\
None/Preparing Durable D:Preparing,D:Prepared - d Rollback|-|Aborting* /None/None Aborting Aborting 202 Aborted@durable Rollback@p1 Rollback@p2 SubAborted\n\
None/PreparedSuccess Voted V:Prepared,D:Prepared - d Prepare|-|Voted* /None/PreparedSuccess Prepared Prepared 202 Prepared@durable\n\
None/PreparedSuccess Voted V:Prepared,D:Prepared - d Commit|SubCommitted|Committing* /None/Committing Committing Committing 202 Commit@p1 Commit@p2 SubCommitted|Voted /None/PreparedSuccess Prepared Prepared 202\n\
None/PreparedSuccess Voted V:Prepared,D:Prepared - d Rollback|Ended|Aborting* /None/None Aborting Aborting 202 Aborted@durable Rollback@p1 Rollback@p2 SubAborted|Voted /None/PreparedSuccess Prepared Prepared 202\n\
None/PreparedSuccess Voted V:Prepared,D:Prepared - v Rollback|-|Voted /None/PreparedSuccess Prepared Prepared 202 Aborted~volatile\n\
None/Committing Committing D:Committing - d Prepare|-|Committing /None/Committing Committing 202\n\
None/Committing Committing D:Committing - d Commit|-|Committing /None/Committing Committing 202\n\
None/Committing Committing D:Committing - d Rollback|-|Committing /None/Committing Committing 202 InvalidState@durable\n\
";

fn notice_of(name: &str) -> Option<Notice> {
    match name {
        "Prepare" => Some(Notice::Prepare),
        "Commit" => Some(Notice::Commit),
        "Rollback" => Some(Notice::Rollback),
        "Prepared" => Some(Notice::Prepared),
        "ReadOnly" => Some(Notice::ReadOnly),
        "Aborted" => Some(Notice::Aborted),
        "Committed" => Some(Notice::Committed),
        _ => None,
    }
}

fn other_of(alloc: Global, name: &str) -> Result<Message, AllocError> {
    match name {
        "Registered" | "Unrelated" => Ok(Message::RegisterResponse(epr(alloc, "seat")?)),
        _ => Ok(Message::Fault {
            name: Text::copied(alloc, "CannotRegisterParticipant")?,
        }),
    }
}

fn message_of(alloc: Global, name: &str) -> Result<Message, AllocError> {
    match notice_of(name) {
        Some(notice) => Ok(Message::Notice(notice)),
        None => other_of(alloc, name),
    }
}

const VOLATILE: &str = "urn:uuid:88847cb1-d636-53bd-b513-0f250ca49453";

const DURABLE: &str = "urn:uuid:b62e7280-0c3c-5e24-8cfd-269197d5ce42";

/// The MessageID of a link's Register, by Python's uuid.uuid5(uuid.NAMESPACE_URL, name); another, or none.
fn related(at: &str, name: &str) -> &'static str {
    match (name, at) {
        ("Registered" | "Refused", "v") | ("Unrelated", "d") => VOLATILE,
        ("Registered" | "Refused" | "Unrelated", _) => DURABLE,
        _ => "",
    }
}

fn relates_of(alloc: Global, id: &str) -> Result<Option<Text>, AllocError> {
    if id.is_empty() {
        return Ok(None);
    }
    Ok(Some(Text::copied(alloc, id)?))
}

/// The kind of the seat of this number.
fn seat_kind(seats: &str, number: u16) -> Kind {
    let place = usize::from(number.saturating_sub(1));
    kind_of(part(part(seats, ',', place), ':', 0))
}

fn seat_at(number: u16, seats: &str) -> Target {
    Target::Coordinator {
        id: Id::new(1, 1),
        seat: Seat {
            number,
            kind: seat_kind(seats, number),
        },
    }
}

fn target_of(at: &str, seats: &str) -> Target {
    let id = Id::new(1, 1);
    match at {
        "v" | "d" => Target::Participant {
            id,
            kind: kind_of(at),
        },
        "c" => Target::Completion(id),
        number => seat_at(number.parse().unwrap_or(0), seats),
    }
}

fn coming(target: Target, relates: Option<Text>, from: Epr, message: Message) -> Event {
    Event::Arrived(Arrived {
        target,
        id: None,
        relates,
        from: Some(from),
        reply: Reply::Nobody,
        fault: Reply::Nobody,
        postable: false,
        message,
    })
}

/// The message of a row.
fn event_of(alloc: Global, words: &str) -> Result<Event, AllocError> {
    let at = part(words, ' ', 4);
    let name = part(words, ' ', 5);
    let relates = relates_of(alloc, related(at, name))?;
    let from = epr(alloc, "from")?;
    let message = message_of(alloc, name)?;
    Ok(coming(target_of(at, part(words, ' ', 2)), relates, from, message))
}

/// Whether these are a record's seats, behind its name.
fn are_numbers(seats: &Seats, words: &str) -> bool {
    let mut place = 1usize;
    for seat in seats.as_slice() {
        if part(words, ' ', place).parse() != Ok(seat.number) {
            return false;
        }
        place = place.saturating_add(1);
    }
    words.split(' ').count() == place
}

fn is_record(entry: Option<&Record>, words: &str) -> bool {
    match entry {
        Some(Record::Decided { seats, .. }) => {
            part(words, ' ', 0) == "Decided" && are_numbers(seats, words)
        }
        Some(Record::Voted { seats, .. }) => {
            part(words, ' ', 0) == "Voted" && are_numbers(seats, words)
        }
        Some(Record::SubCommitted { .. }) => words == "SubCommitted",
        Some(Record::Ended { .. }) => words == "Ended",
        Some(_) => false,
        None => words == "-",
    }
}

/// Whether a step has the record of a row, and leaves and gives what the row says for this fate of it.
fn moves(
    alloc: Global,
    transactions: &mut Transactions,
    event: &Event,
    moment: &Moment,
    landed: bool,
    row: &str,
) -> Result<bool, AllocError> {
    let Some(plan) = planned(alloc, transactions, event, moment)? else {
        return Ok(false);
    };
    let recorded = is_record(plan.entry(), part(row, '|', 1));
    let outs = transactions.apply(plan, landed);
    let wanted = part(row, '|', if landed { 2 } else { 3 });
    Ok(recorded && stands(transactions, &outs, moment.now, wanted))
}

fn goes(alloc: Global, row: &str, landed: bool) -> Result<bool, AllocError> {
    let words = part(row, '|', 0);
    let moment = moment_at(alloc, "http://n3.example", 150000, None)?;
    let event = event_of(alloc, words)?;
    let mut transactions = one(alloc, words)?;
    moves(alloc, &mut transactions, &event, &moment, landed, row)
}

/// Whether a row stands.
fn is_right(alloc: Global, row: &str) -> Result<bool, AllocError> {
    let landed = goes(alloc, row, true)?;
    if part(row, '|', 1) == "-" {
        return Ok(landed);
    }
    let absent = goes(alloc, row, false)?;
    Ok(landed && absent)
}

/// The first row that doesn't stand, empty where each does.
fn wrong_row(alloc: Global, table: &'static str) -> Result<&'static str, AllocError> {
    for row in table.lines() {
        let right = is_right(alloc, row)?;
        if !right {
            return Ok(row);
        }
    }
    Ok("")
}

#[test]
fn each_cell_at_a_seat(rt: HostRuntime) -> Result<(), Fail> {
    let wrong = wrong_row(rt.alloc(), AT_SEATS)?;
    assert!(rt; wrong.is_empty(), "at {wrong}");
    Ok(())
}

#[test]
fn each_cell_at_a_completion_seat(rt: HostRuntime) -> Result<(), Fail> {
    let wrong = wrong_row(rt.alloc(), AT_COMPLETION)?;
    assert!(rt; wrong.is_empty(), "at {wrong}");
    Ok(())
}

#[test]
fn each_cell_at_a_link(rt: HostRuntime) -> Result<(), Fail> {
    let wrong = wrong_row(rt.alloc(), AT_LINKS)?;
    assert!(rt; wrong.is_empty(), "at {wrong}");
    Ok(())
}
