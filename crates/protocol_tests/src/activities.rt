//! What an activity does at each message and request that can reach it, and by itself, written out by hand.

use crate::shared::{arrived, context, epr, follows, moment_at, part, time_of};
use at_base::event::{Event, Item, Local, Moment};
use at_base::id::Id;
use at_base::notice::{Kind, Notice, Vote};
use at_base::outs::{Effects, Out, OutList, Outs};
use at_base::target::Target;
use at_base::text::Text;
use by_id::plan::Plan;
use completion_at::activities::Activities;
use completion_at::activity::{Activity, Progress};
use completion_at::requests::Refusal;
use std::alloc::{AllocError, Global};
use std::test::Fail;

/// Whether the activity was begun, how far it has come, and what comes; and what follows: how far each activity has
/// come, the HTTP status, what is posted and where, what is told, and why a request is refused.
///
/// Before it is Active it knows no coordinator; else a fault goes there, and not to the message's From.
const STEPS: &str = "\
begun Creating Context|Registering 202 Register@registration\n\
begun Creating StrayContext|Creating 202\n\
begun Creating Registered|Creating 202\n\
begun Creating CreateRefused|gone 202 Refused\n\
begun Creating RegisterRefused|Creating 202\n\
begun Creating Unknown|Creating 202\n\
begun Creating Committed|Creating 202\n\
begun Creating Aborted|Creating 202\n\
begun Creating Prepare|Creating 202\n\
begun Creating Quiet|Creating\n\
begun Creating Late|gone Unknown\n\
begun Creating AskInterpose|Creating Stale\n\
begun Creating AskWork|Creating Stale\n\
begun Creating AskCommit|Creating Stale\n\
begun Creating AskRollback|Creating Stale\n\
begun Creating AskBegin|Creating+Creating Create@http://n2.example/activation\n\
begun Registering Context|Registering 202\n\
begun Registering Registered|Active 202\n\
begun Registering StrayRegistered|Registering 202\n\
begun Registering CreateRefused|Registering 202\n\
begun Registering RegisterRefused|gone 202 Refused\n\
begun Registering Unknown|Registering 202\n\
begun Registering Committed|Registering 202\n\
begun Registering Aborted|Registering 202\n\
begun Registering Early|Registering\n\
begun Registering Quiet|Registering Register@registration\n\
begun Registering Late|gone Unknown\n\
begun Registering AskCommit|Registering Stale\n\
begun Active Context|Active 202\n\
begun Active Registered|Active 202\n\
begun Active RegisterRefused|Active 202\n\
begun Active Unknown|Active 202\n\
begun Active Committed|Active 202 InvalidState@coordinator\n\
begun Active Aborted|gone 202 Aborted\n\
begun Active Prepare|Active 202\n\
begun Active Quiet|Active\n\
begun Active Late|Active\n\
begun Active AskBegin|Active+Creating Create@http://n2.example/activation\n\
begun Active AskInterpose|Active+Creating Create@http://n2.example/activation\n\
begun Active AskWork|Active Work@http://n3.example/work\n\
begun Active AskCommit|CompletingCommit Commit@coordinator\n\
begun Active AskRollback|CompletingRollback Rollback@coordinator\n\
begun CompletingCommit Context|CompletingCommit 202\n\
begun CompletingCommit Registered|CompletingCommit 202\n\
begun CompletingCommit RegisterRefused|CompletingCommit 202\n\
begun CompletingCommit Unknown|gone 202 Unknown\n\
begun CompletingCommit Committed|gone 202 Committed\n\
begun CompletingCommit Aborted|gone 202 Aborted\n\
begun CompletingCommit Prepare|CompletingCommit 202\n\
begun CompletingCommit Early|CompletingCommit\n\
begun CompletingCommit Quiet|CompletingCommit Commit@coordinator\n\
begun CompletingCommit Late|CompletingCommit Commit@coordinator\n\
begun CompletingCommit AskCommit|CompletingCommit Stale\n\
begun CompletingCommit AskWork|CompletingCommit Stale\n\
begun CompletingRollback Unknown|gone 202 Unknown\n\
begun CompletingRollback Committed|gone 202 Committed\n\
begun CompletingRollback Aborted|gone 202 Aborted\n\
begun CompletingRollback Quiet|CompletingRollback Rollback@coordinator\n\
interposed Creating Context|Active 202\n\
interposed Creating CreateRefused|gone 202 Refused\n\
interposed Creating Late|Creating\n\
interposed Active Aborted|gone 202 Aborted\n\
interposed Active AskInterpose|Active+Creating Create@http://n2.example/activation\n\
interposed Active AskWork|Active Work@http://n3.example/work\n\
interposed Active AskCommit|Active Stale\n\
interposed Active AskRollback|Active Stale\n\
";

const BASE: &str = "http://n1.example";

fn progress_of(name: &str) -> Progress {
    match name {
        "Creating" => Progress::Creating,
        "Registering" => Progress::Registering,
        "CompletingCommit" => Progress::Completing(Notice::Commit),
        "CompletingRollback" => Progress::Completing(Notice::Rollback),
        _ => Progress::Active,
    }
}

fn name_of(progress: Progress) -> &'static str {
    match progress {
        Progress::Creating => "Creating",
        Progress::Registering => "Registering",
        Progress::Active => "Active",
        Progress::Completing(Notice::Commit) => "CompletingCommit",
        Progress::Completing(_) => "CompletingRollback",
    }
}

fn has_context(progress: Progress) -> bool {
    match progress {
        Progress::Creating => false,
        _ => true,
    }
}

fn has_coordinator(progress: Progress) -> bool {
    match progress {
        Progress::Creating | Progress::Registering => false,
        _ => true,
    }
}

/// An activity that sent at 100000 and expires at 200000.
fn activity_in(
    alloc: Global,
    id: Id,
    root: Id,
    progress: Progress,
    works: u32,
) -> Result<Activity, AllocError> {
    let coordinator = if has_coordinator(progress) {
        Some(epr(alloc, "coordinator")?)
    } else {
        None
    };
    let context = if has_context(progress) {
        Some(context(alloc)?)
    } else {
        None
    };
    Ok(Activity {
        id,
        root,
        progress,
        context,
        coordinator,
        works,
        deadline: Some(200000),
        sent: Some(100000),
    })
}

/// The MessageID that a message answers: that of the activity's Create or Register, by Python's
/// uuid.uuid5(uuid.NAMESPACE_URL, name), or another.
fn relates_of(name: &str) -> &'static str {
    match name {
        "Context" | "CreateRefused" => "urn:uuid:f3ce039b-8bc3-5b00-94b2-fe179860606f",
        "Registered" | "RegisterRefused" => "urn:uuid:d3cad3de-7b68-5608-bcff-3d54cf61b6c9",
        _ => "urn:uuid:f3ce039b-8bc3-5b00-94b2-fe1798606070",
    }
}

fn work(alloc: Global) -> Result<Event, AllocError> {
    let service = Text::copied(alloc, "http://n3.example/")?;
    let key = Text::copied(alloc, "key")?;
    let value = Text::copied(alloc, "value")?;
    Ok(Event::Local(Local::Work {
        activity: Id::new(1, 1),
        service,
        kind: Kind::Durable,
        vote: Vote::Prepared,
        key,
        value,
    }))
}

fn request(alloc: Global, name: &str) -> Result<Event, AllocError> {
    let activity = Id::new(1, 1);
    match name {
        "AskBegin" => Ok(Event::Local(Local::Begin {
            coordinator: Text::copied(alloc, "http://n2.example")?,
            ms: 0,
        })),
        "AskInterpose" => Ok(Event::Local(Local::Interpose {
            activity,
            coordinator: Text::copied(alloc, "http://n2.example/")?,
        })),
        "AskCommit" => Ok(Event::Local(Local::Commit { activity })),
        "AskRollback" => Ok(Event::Local(Local::Rollback { activity })),
        _ => work(alloc),
    }
}

/// The event of a name.
fn event_of(alloc: Global, name: &str) -> Result<Event, AllocError> {
    if name.starts_with("Ask") {
        return request(alloc, name);
    }
    match name {
        "Early" | "Quiet" | "Late" => Ok(Event::Due(Item::Activity(Id::new(1, 1)))),
        _ => arrived(
            alloc,
            Target::Initiator(Id::new(1, 1)),
            relates_of(name),
            name,
        ),
    }
}

/// Whether activities have come so far, as `Active+Creating`; `gone` where there is none.
fn have_come(activities: &Activities, words: &str) -> bool {
    let mut place = 0usize;
    for activity in activities.iter() {
        if name_of(activity.progress) != part(words, '+', place) {
            return false;
        }
        place = place.saturating_add(1);
    }
    match place {
        0 => words == "gone",
        _ => words.split('+').count() == place,
    }
}

fn refusal_name(refusal: Option<Refusal>) -> &'static str {
    match refusal {
        Some(Refusal::Stale) => "Stale",
        Some(Refusal::Full) => "Full",
        Some(Refusal::Spent) => "Spent",
        None => "",
    }
}

/// Why an event is refused, where it is a request.
fn refusal_of(activities: &Activities, event: &Event, moment: &Moment) -> &'static str {
    match event {
        Event::Local(local) => refusal_name(activities.refuses(moment.next, local)),
        _ => "",
    }
}

/// What an event does to the activities; none where it is none for them, or refused.
fn planned(
    alloc: Global,
    activities: &Activities,
    event: &Event,
    moment: &Moment,
) -> Result<Option<Plan<Activity, ()>>, AllocError> {
    match event {
        Event::Arrived(arrived) => match arrived.target {
            Target::Initiator(id) => activities.at_activity(alloc, moment, arrived, id),
            _ => Ok(None),
        },
        Event::Local(local) => activities.asked(alloc, moment, local),
        Event::Due(Item::Activity(id)) => activities.due(alloc, moment, *id),
        _ => Ok(None),
    }
}

/// What follows an event.
fn outs_of(
    alloc: Global,
    activities: &mut Activities,
    event: &Event,
    moment: &Moment,
) -> Result<Outs, AllocError> {
    match planned(alloc, activities, event, moment)? {
        Some(plan) => Ok(activities.apply(plan, true)),
        None => Ok(Outs {
            outs: OutList::from_vec(Vec::new(alloc)),
            effects: Effects::from_vec(Vec::new(alloc)),
        }),
    }
}

/// Whether an event is refused as the last word says, or what the words say follows it, but for the first one.
fn does(
    alloc: Global,
    activities: &mut Activities,
    event: &Event,
    moment: &Moment,
    words: &str,
) -> Result<bool, AllocError> {
    let refusal = refusal_of(activities, event, moment);
    let outs = outs_of(alloc, activities, event, moment)?;
    if refusal.is_empty() {
        return Ok(follows(&outs, words, 0));
    }
    Ok(follows(&outs, words, 1) && words.ends_with(refusal))
}

/// Activities of these numbers and roots that have come so far and sent so many Works.
fn rooted(
    alloc: Global,
    roots: &[(u32, u32)],
    progress: Progress,
    works: u32,
) -> Result<Activities, AllocError> {
    let mut items = Vec::new(alloc);
    for (number, root) in roots {
        let id = Id::new(1, (*number).max(1));
        let root = Id::new(1, (*root).max(1));
        let activity = activity_in(alloc, id, root, progress, works)?;
        items.push(activity)?;
    }
    Activities::from_vec(items)
}

/// Whether activities come so far by an event, and this follows it.
fn moves(
    alloc: Global,
    activities: &mut Activities,
    event: &Event,
    moment: &Moment,
    wanted: &str,
) -> Result<bool, AllocError> {
    let right = does(alloc, activities, event, moment, wanted)?;
    Ok(right && have_come(activities, part(wanted, ' ', 0)))
}

/// Whether a step does what its row says.
fn stands(alloc: Global, row: &str) -> Result<bool, AllocError> {
    let words = part(row, '|', 0);
    let wanted = part(row, '|', 1);
    let root = if words.starts_with("begun") { 1 } else { 7 };
    let progress = progress_of(part(words, ' ', 1));
    let name = part(words, ' ', 2);
    let moment = moment_at(alloc, BASE, time_of(name), Some(Id::new(1, 2)))?;
    let event = event_of(alloc, name)?;
    let mut activities = rooted(alloc, &[(1, root)], progress, 0)?;
    moves(alloc, &mut activities, &event, &moment, wanted)
}

#[test]
fn each_cell(rt: HostRuntime) -> Result<(), Fail> {
    for row in STEPS.lines() {
        let right = stands(rt.alloc(), row)?;
        assert!(rt; right, "at {row}");
    }
    Ok(())
}

/// So many activities.
fn many(alloc: Global, count: u32) -> Result<Activities, AllocError> {
    let mut items = Vec::new(alloc);
    for number in 1..=count {
        let id = Id::new(1, number);
        let activity = activity_in(alloc, id, id, Progress::Active, 0)?;
        items.push(activity)?;
    }
    Activities::from_vec(items)
}

fn works_of(activities: &Activities) -> u32 {
    match activities.find(Id::new(1, 1)) {
        Some(activity) => activity.works,
        None => 0,
    }
}

/// How many live, whether an id is left, and what Begin gives: how many live then, and what follows.
const BEGINS: &[(u32, bool, usize, &str)] = &[
    (255, true, 256, "- Create@http://n2.example/activation"),
    (256, true, 256, "- Full"),
    (256, false, 256, "- Full"),
    (1, false, 1, "- Spent"),
];

fn begins(
    alloc: Global,
    count: u32,
    left: bool,
    live: usize,
    wanted: &str,
) -> Result<bool, AllocError> {
    let next = if left { Some(Id::new(1, 300)) } else { None };
    let moment = moment_at(alloc, BASE, 7, next)?;
    let event = event_of(alloc, "AskBegin")?;
    let mut activities = many(alloc, count)?;
    let right = does(alloc, &mut activities, &event, &moment, wanted)?;
    Ok(right && activities.len() == live)
}

#[test]
fn room_and_ids(rt: HostRuntime) -> Result<(), Fail> {
    for (count, left, live, line) in BEGINS {
        let right = begins(rt.alloc(), *count, *left, *live, line)?;
        assert!(rt; right, "at {count} {left}");
    }
    Ok(())
}

/// How many Works an activity sent, and what one more gives: how many it sent then, and what follows.
const WORKS: &[(u32, u32, &str)] = &[
    (4294967294, 4294967295, "- Work@http://n3.example/work"),
    (4294967295, 4294967295, "- Spent"),
];

fn works(alloc: Global, count: u32, then: u32, wanted: &str) -> Result<bool, AllocError> {
    let moment = moment_at(alloc, BASE, 7, None)?;
    let event = work(alloc)?;
    let mut activities = rooted(alloc, &[(1, 1)], Progress::Active, count)?;
    let right = does(alloc, &mut activities, &event, &moment, wanted)?;
    Ok(right && works_of(&activities) == then)
}

#[test]
fn the_last_work(rt: HostRuntime) -> Result<(), Fail> {
    for (count, then, line) in WORKS {
        let right = works(rt.alloc(), *count, *then, line)?;
        assert!(rt; right, "at {count}");
    }
    Ok(())
}

/// The MessageID of the post, by Python's uuid.uuid5(uuid.NAMESPACE_URL, name).
fn is_named(outs: &Outs, name: &str) -> bool {
    match outs.outs.as_slice().first() {
        Some(Out::Post(post)) => match &post.id {
            Some(id) => id.as_str() == name,
            None => false,
        },
        _ => false,
    }
}

/// Whether the first Work has this MessageID.
fn first_work_is(alloc: Global, name: &str) -> Result<bool, AllocError> {
    let moment = moment_at(alloc, BASE, 7, None)?;
    let event = work(alloc)?;
    let mut activities = rooted(alloc, &[(1, 1)], Progress::Active, 0)?;
    let outs = outs_of(alloc, &mut activities, &event, &moment)?;
    Ok(is_named(&outs, name))
}

#[test]
fn the_first_work_is_1(rt: HostRuntime) -> Result<(), Fail> {
    let right = first_work_is(rt.alloc(), "urn:uuid:979edfd3-ad30-5c3d-991d-b0aff7640695")?;
    assert!(rt; right);
    Ok(())
}

/// Whether of three activities, the second of which stands under the first, the third alone is left behind an outcome
/// of the first.
fn leaves_the_third(alloc: Global) -> Result<bool, AllocError> {
    let moment = moment_at(alloc, BASE, 7, None)?;
    let event = event_of(alloc, "Committed")?;
    let progress = Progress::Completing(Notice::Commit);
    let mut activities = rooted(alloc, &[(1, 1), (2, 1), (3, 3)], progress, 0)?;
    let _outs = outs_of(alloc, &mut activities, &event, &moment)?;
    Ok(activities.len() == 1 && activities.find(Id::new(1, 3)).is_some())
}

#[test]
fn what_is_under_it_goes_too(rt: HostRuntime) -> Result<(), Fail> {
    let right = leaves_the_third(rt.alloc())?;
    assert!(rt; right);
    Ok(())
}

/// Whether the one activity is due at this time, behind this id or at all.
fn is_next(alloc: Global, now: u64, after: Option<Id>) -> Result<bool, AllocError> {
    let moment = moment_at(alloc, BASE, now, None)?;
    let progress = Progress::Completing(Notice::Commit);
    let activities = rooted(alloc, &[(1, 1)], progress, 0)?;
    Ok(activities.next_due(after, &moment) == Some(Id::new(1, 1)))
}

#[test]
fn due_activities(rt: HostRuntime) -> Result<(), Fail> {
    let early = is_next(rt.alloc(), 104999, None)?;
    let late = is_next(rt.alloc(), 105000, None)?;
    let behind = is_next(rt.alloc(), 105000, Some(Id::new(1, 1)))?;
    assert!(rt; !early && late && !behind);
    Ok(())
}
