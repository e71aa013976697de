//! What a leaf does at each message that can reach it, and by itself, written out by hand.

use crate::shared::{arrived, context, epr, follows, moment_at, part, reply_named, time_of};
use at_base::epr::Reply;
use at_base::event::{Arrived, Event, Item, Moment};
use at_base::id::Id;
use at_base::message::{Message, Work};
use at_base::notice::{Kind, Vote};
use at_base::record::Record;
use at_base::target::Target;
use at_base::text::Text;
use at_tables::cells::State;
use by_id::plan::Plan;
use participant_at::leaf::{Leaf, WorkRequest};
use participant_at::leaves::Leaves;
use std::alloc::{AllocError, Global};
use std::test::Fail;

/// The kind, the vote and the state of a leaf, what comes, the record; and what follows where the record landed, and
/// where it didn't: the state, the HTTP status, what is posted and where, and how the leaf ended.
///
/// Registered before, a leaf knows its coordinator; else an answer goes to the message's From.
const STEPS: &str = "\
Durable Prepared Registering Prepare|-|Registering 202|Registering 202\n\
Durable Prepared Registering Commit|-|gone 202 InvalidState@from Aborted|gone 202 InvalidState@from Aborted\n\
Durable Prepared Registering Rollback|-|gone 202 Aborted@from Aborted|gone 202 Aborted@from Aborted\n\
Durable Prepared Registering Committed|-|Registering 202|Registering 202\n\
Durable Prepared Registering Registered|-|Active 202 WorkDone@asker|Active 202 WorkDone@asker\n\
Durable Prepared Registering StrayRegistered|-|Registering 202|Registering 202\n\
Durable Prepared Registering Refused|-|gone 202 WorkRefused@asker Aborted|gone 202 WorkRefused@asker Aborted\n\
Durable Prepared Registering Unknown|-|Registering 202|Registering 202\n\
Durable Prepared Registering Early|-|Registering|Registering\n\
Durable Prepared Registering Quiet|-|Registering Register@registration|Registering Register@registration\n\
Durable Prepared Registering Late|-|gone WorkRefused@asker Aborted|gone WorkRefused@asker Aborted\n\
Durable Prepared Active Prepare|LeafPrepared|PreparedSuccess 202 Prepared@coordinator|gone 202 Aborted@coordinator Aborted\n\
Durable ReadOnly Active Prepare|-|gone 202 ReadOnly@coordinator|gone 202 ReadOnly@coordinator\n\
Durable Aborted Active Prepare|-|gone 202 Aborted@coordinator Aborted|gone 202 Aborted@coordinator Aborted\n\
Durable Prepared Active Commit|-|gone 202 InvalidState@coordinator Aborted|gone 202 InvalidState@coordinator Aborted\n\
Durable Prepared Active Rollback|-|gone 202 Aborted@coordinator Aborted|gone 202 Aborted@coordinator Aborted\n\
Durable Prepared Active Registered|-|Active 202|Active 202\n\
Durable Prepared Active Refused|-|Active 202|Active 202\n\
Durable Prepared Active Unknown|-|Active 202|Active 202\n\
Durable Prepared Active Quiet|-|Active|Active\n\
Durable Prepared Active Late|-|gone Aborted@coordinator Aborted|gone Aborted@coordinator Aborted\n\
Durable Prepared PreparedSuccess Prepare|-|PreparedSuccess 202 Prepared@coordinator|PreparedSuccess 202 Prepared@coordinator\n\
Durable Prepared PreparedSuccess Commit|LeafCommitted|gone 202 Committed@coordinator Committed|PreparedSuccess 202\n\
Durable Prepared PreparedSuccess Rollback|LeafAborted|gone 202 Aborted@coordinator Aborted|PreparedSuccess 202\n\
Durable Prepared PreparedSuccess Unknown|-|PreparedSuccess 202|PreparedSuccess 202\n\
Durable Prepared PreparedSuccess Early|-|PreparedSuccess|PreparedSuccess\n\
Durable Prepared PreparedSuccess Late|-|PreparedSuccess Prepared@coordinator|PreparedSuccess Prepared@coordinator\n\
Volatile Prepared Registering Prepare|-|Registering 202|Registering 202\n\
Volatile Prepared Registering Commit|-|gone 202 InvalidState@from Aborted|gone 202 InvalidState@from Aborted\n\
Volatile Prepared Registering Rollback|-|gone 202 Aborted@from Aborted|gone 202 Aborted@from Aborted\n\
Volatile Prepared Registering Registered|-|Active 202 WorkDone@asker|Active 202 WorkDone@asker\n\
Volatile Prepared Registering Refused|-|gone 202 WorkRefused@asker Aborted|gone 202 WorkRefused@asker Aborted\n\
Volatile Prepared Registering Unknown|-|gone 202|gone 202\n\
Volatile Prepared Active Prepare|-|PreparedSuccess 202 Prepared@coordinator|PreparedSuccess 202 Prepared@coordinator\n\
Volatile ReadOnly Active Prepare|-|gone 202 ReadOnly@coordinator|gone 202 ReadOnly@coordinator\n\
Volatile Aborted Active Prepare|-|gone 202 Aborted@coordinator Aborted|gone 202 Aborted@coordinator Aborted\n\
Volatile Prepared Active Commit|-|gone 202 InvalidState@coordinator Aborted|gone 202 InvalidState@coordinator Aborted\n\
Volatile Prepared Active Rollback|-|gone 202 Aborted@coordinator Aborted|gone 202 Aborted@coordinator Aborted\n\
Volatile Prepared Active Unknown|-|gone 202|gone 202\n\
Volatile Prepared PreparedSuccess Prepare|-|PreparedSuccess 202 Prepared@coordinator|PreparedSuccess 202 Prepared@coordinator\n\
Volatile Prepared PreparedSuccess Commit|-|gone 202 Committed@coordinator Committed|gone 202 Committed@coordinator Committed\n\
Volatile Prepared PreparedSuccess Rollback|-|gone 202 Aborted@coordinator Aborted|gone 202 Aborted@coordinator Aborted\n\
Volatile Prepared PreparedSuccess Unknown|-|gone 202|gone 202\n\
";

const BASE: &str = "http://n3.example";

fn kind_of(name: &str) -> Kind {
    match name {
        "Volatile" => Kind::Volatile,
        _ => Kind::Durable,
    }
}

fn vote_of(name: &str) -> Vote {
    match name {
        "ReadOnly" => Vote::ReadOnly,
        "Aborted" => Vote::Aborted,
        _ => Vote::Prepared,
    }
}

fn request(alloc: Global) -> Result<WorkRequest, AllocError> {
    let id = Text::copied(alloc, "work")?;
    let reply = epr(alloc, "asker")?;
    let registration = epr(alloc, "registration")?;
    Ok(WorkRequest {
        id: Some(id),
        reply,
        registration,
    })
}

/// A leaf that sent at 100000 and expires at 200000.
fn leaf_in(
    alloc: Global,
    id: Id,
    kind: Kind,
    vote: Vote,
    state: State,
) -> Result<Leaf, AllocError> {
    let waits = state == State::Registering;
    let key = Text::copied(alloc, "key")?;
    let value = Text::copied(alloc, "value")?;
    let coordinator = if waits {
        None
    } else {
        Some(epr(alloc, "coordinator")?)
    };
    let request = if waits { Some(request(alloc)?) } else { None };
    Ok(Leaf {
        id,
        kind,
        vote,
        key,
        value,
        state,
        coordinator,
        request,
        deadline: Some(200000),
        sent: Some(100000),
    })
}

/// The MessageID that a message answers, none where it is empty: that of the leaf's Register, by Python's
/// uuid.uuid5(uuid.NAMESPACE_URL, name), or another.
fn relates_of(kind: Kind, name: &str) -> &'static str {
    match name {
        "Registered" | "Refused" => match kind {
            Kind::Volatile => "urn:uuid:88847cb1-d636-53bd-b513-0f250ca49453",
            Kind::Durable => "urn:uuid:b62e7280-0c3c-5e24-8cfd-269197d5ce42",
        },
        "StrayRegistered" => "urn:uuid:88847cb1-d636-53bd-b513-0f250ca49454",
        _ => "",
    }
}

/// The event of a name.
fn event_of(alloc: Global, kind: Kind, name: &str) -> Result<Event, AllocError> {
    let id = Id::new(1, 1);
    match name {
        "Early" | "Quiet" | "Late" => Ok(Event::Due(Item::Leaf(id))),
        _ => arrived(
            alloc,
            Target::Participant { id, kind },
            relates_of(kind, name),
            name,
        ),
    }
}

fn record_name(entry: Option<&Record>) -> &'static str {
    match entry {
        Some(Record::LeafPrepared { .. }) => "LeafPrepared",
        Some(Record::LeafCommitted { .. }) => "LeafCommitted",
        Some(Record::LeafAborted { .. }) => "LeafAborted",
        Some(_) => "other",
        None => "-",
    }
}

fn state_name(leaves: &Leaves) -> &'static str {
    match leaves.find(Id::new(1, 1)) {
        Some(leaf) => leaf.state.name(),
        None => "gone",
    }
}

/// What an event does to the leaves; none where it is none for them.
fn planned(
    alloc: Global,
    leaves: &Leaves,
    event: &Event,
    moment: &Moment,
) -> Result<Option<Plan<Leaf, ()>>, AllocError> {
    match event {
        Event::Arrived(arrived) => match (arrived.target, &arrived.message) {
            (Target::Work, Message::Work(work)) => {
                let plan = leaves.at_work(alloc, moment, arrived, work)?;
                Ok(Some(plan))
            }
            (Target::Participant { id, kind }, _) => leaves.at_leaf(
                alloc, moment, arrived, id, kind,
            ),
            _ => Ok(None),
        },
        Event::Due(Item::Leaf(id)) => leaves.due(alloc, moment, *id),
        _ => Ok(None),
    }
}

/// Whether a step has the record of a row, and for this fate of it the leaf comes to the state that the row has, and what
/// the row has follows.
fn moves(
    alloc: Global,
    leaves: &mut Leaves,
    event: &Event,
    moment: &Moment,
    landed: bool,
    row: &str,
) -> Result<bool, AllocError> {
    let Some(plan) = planned(alloc, leaves, event, moment)? else {
        return Ok(false);
    };
    let recorded = record_name(plan.entry()) == part(row, '|', 1);
    let outs = leaves.apply(plan, landed);
    let wanted = part(row, '|', if landed { 2 } else { 3 });
    Ok(recorded && state_name(leaves) == part(wanted, ' ', 0) && follows(&outs, wanted, 0))
}

/// One leaf of this kind and vote, in this state.
fn leaves_in(alloc: Global, kind: Kind, vote: Vote, state: &str) -> Result<Leaves, AllocError> {
    let state = State::from_name(state).unwrap_or(State::None);
    let leaf = leaf_in(alloc, Id::new(1, 1), kind, vote, state)?;
    let mut items = Vec::new(alloc);
    items.push(leaf)?;
    Leaves::from_vec(items)
}

/// Whether a step does what its row says for this fate of its record.
fn goes(alloc: Global, row: &str, landed: bool) -> Result<bool, AllocError> {
    let words = part(row, '|', 0);
    let kind = kind_of(part(words, ' ', 0));
    let vote = vote_of(part(words, ' ', 1));
    let name = part(words, ' ', 3);
    let moment = moment_at(alloc, BASE, time_of(name), None)?;
    let event = event_of(alloc, kind, name)?;
    let mut leaves = leaves_in(alloc, kind, vote, part(words, ' ', 2))?;
    moves(alloc, &mut leaves, &event, &moment, landed, row)
}

/// Whether a step does what its row says.
fn stands(alloc: Global, row: &str) -> Result<bool, AllocError> {
    let landed = goes(alloc, row, true)?;
    let absent = goes(alloc, row, false)?;
    Ok(landed && absent)
}

#[test]
fn each_cell(rt: HostRuntime) -> Result<(), Fail> {
    for row in STEPS.lines() {
        let right = stands(rt.alloc(), row)?;
        assert!(rt; right, "at {row}");
    }
    Ok(())
}

fn work(alloc: Global) -> Result<Work, AllocError> {
    let key = Text::copied(alloc, "key")?;
    let value = Text::copied(alloc, "value")?;
    let context = context(alloc)?;
    Ok(Work {
        context,
        key,
        value,
        kind: Kind::Durable,
        vote: Vote::Prepared,
    })
}

/// A Work whose answer goes there.
fn asked(alloc: Global, reply: &str) -> Result<Event, AllocError> {
    let id = Text::copied(alloc, "work")?;
    let reply = reply_named(alloc, reply)?;
    let work = work(alloc)?;
    Ok(Event::Arrived(Arrived {
        target: Target::Work,
        id: Some(id),
        relates: None,
        from: None,
        reply,
        fault: Reply::Anonymous,
        postable: false,
        message: Message::Work(work),
    }))
}

/// The leaf that a Work at 7 made, which expires at 60007.
fn is_made(leaves: &Leaves) -> bool {
    match leaves.find(Id::new(1, 2)) {
        Some(leaf) => {
            leaf.kind == Kind::Durable
                && leaf.state == State::Registering
                && leaf.deadline == Some(60007)
                && leaf.sent == Some(7)
        }
        None => false,
    }
}

/// So many leaves, which are prepared.
fn many(alloc: Global, count: u32) -> Result<Leaves, AllocError> {
    let mut items = Vec::new(alloc);
    for number in 1..=count {
        let id = Id::new(1, number);
        let leaf = leaf_in(
            alloc,
            id,
            Kind::Durable,
            Vote::Prepared,
            State::PreparedSuccess,
        )?;
        items.push(leaf)?;
    }
    Leaves::from_vec(items)
}

/// Whether this is answered at a step.
fn answers(
    alloc: Global,
    leaves: &mut Leaves,
    event: &Event,
    moment: &Moment,
    wanted: &str,
) -> Result<bool, AllocError> {
    let Some(plan) = planned(alloc, leaves, event, moment)? else {
        return Ok(false);
    };
    let outs = leaves.apply(plan, true);
    Ok(follows(&outs, wanted, 0))
}

/// How many leaves live, the number of the next id, none where it is 0, and where the answer of a Work goes; and how
/// many live then, whether the leaf 1-2 is the Work's, and what is answered.
const WORKS: &[(u32, u32, &str, usize, bool, &str)] = &[
    (0, 2, "asker", 1, true, "- 202 Register@registration"),
    (0, 2, "anonymous", 0, false, "- 200"),
    (
        1023,
        1100,
        "asker",
        1024,
        false,
        "- 202 Register@registration",
    ),
    (1024, 1100, "asker", 1024, false, "- 202 WorkRefused@asker"),
    (0, 0, "asker", 0, false, "- 202 WorkRefused@asker"),
];

fn next_of(number: u32) -> Option<Id> {
    if number == 0 {
        return None;
    }
    Some(Id::new(1, number))
}

/// Whether a Work at 7 is answered as its row says.
fn works(alloc: Global, row: &(u32, u32, &str, usize, bool, &str)) -> Result<bool, AllocError> {
    let moment = moment_at(alloc, BASE, 7, next_of(row.1))?;
    let event = asked(alloc, row.2)?;
    let mut leaves = many(alloc, row.0)?;
    let right = answers(alloc, &mut leaves, &event, &moment, row.5)?;
    Ok(right && leaves.len() == row.3 && is_made(&leaves) == row.4)
}

#[test]
fn work_makes_a_leaf_where_there_is_room(rt: HostRuntime) -> Result<(), Fail> {
    for row in WORKS {
        let right = works(rt.alloc(), row)?;
        assert!(rt; right, "at {}", row.5);
    }
    Ok(())
}

/// Whether the one leaf is due at this time, behind this id or at all.
fn is_next(alloc: Global, now: u64, after: Option<Id>) -> Result<bool, AllocError> {
    let moment = moment_at(alloc, BASE, now, None)?;
    let leaves = many(alloc, 1)?;
    Ok(leaves.next_due(after, &moment) == Some(Id::new(1, 1)))
}

#[test]
fn due_leaves(rt: HostRuntime) -> Result<(), Fail> {
    let early = is_next(rt.alloc(), 104999, None)?;
    let late = is_next(rt.alloc(), 105000, None)?;
    let behind = is_next(rt.alloc(), 105000, Some(Id::new(1, 1)))?;
    assert!(rt; !early && late && !behind);
    Ok(())
}
