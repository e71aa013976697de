//! `coordinator`, `participant` and `initiator`.

ghost use Rattle.std.specs.List.{list_any};
ghost use Rattle.std.specs.Prelude.{◌≡◌, ◌+◌, ◌<◌, ◌≤◌, ◌∷◌, [], IfSome, IsTrue, length, nat_eq, true, false};
ghost use Rattle.site_model.specs.Counts.{capped, Rose};
ghost use Rattle.command_line.specs.Servings.{HasServed, Initiates, Refuses, initiates, role_of, status_by};
ghost use Rattle.command_line.specs.Views.{meant_role, meant_serving};

use crate::job::{Role, Serving};
use crate::replay::refusal;
use crate::run::{DONE, NO_MEMORY, SINK_FAILED, SOURCE_FAILED, TOO_LONG, print};
use node_at::role::Role as Served;
use schedules::initiator_line::InitiatorLine;
use schedules::initiator_reader::read_initiator_lines;
use schedules::line::{BadLine, ScheduleError};
use serving::serve::serve;
use serving::service::Service;
use serving::service_end::Ended;
use shown_pages::showing::Showing;
use site_model::sink::Sink;
use site_model::source::{ReadFault, Source, read_all};
use std::alloc::Global;

/// The disk failed: before the node was up, or a record of it may stand or not.
pub const DISK_FAILED: u8 = 6;

/// The journal stands for no list of records, or the files are no journal.
pub const BAD_JOURNAL: u8 = 7;

/// There is no listener, or it failed.
pub const LISTENER_FAILED: u8 = 8;

/// The journal's incarnations are spent.
pub const SPENT: u8 = 11;

/// The journal has no room for one more start.
pub const FULL: u8 = 12;

/// All was done; but a line was refused, or an activity ended otherwise than committed.
pub const UNMET: u8 = 13;

/// The status that serving ends with.
fn status_by(ended: Ended) -> u8
    ensures is { result ≡ status_by ended }
    ensures statuses { IsTrue (list_any (nat_eq result) (0 ∷ 5 ∷ 6 ∷ 7 ∷ 8 ∷ 9 ∷ 11 ∷ 12 ∷ 13 ∷ [])) }
{
    match ended {
        Ended::Done => DONE,
        Ended::SinkFailed => SINK_FAILED,
        Ended::DiskFailed => DISK_FAILED,
        Ended::Halted => DISK_FAILED,
        Ended::BadJournal => BAD_JOURNAL,
        Ended::NoJournal => BAD_JOURNAL,
        Ended::ListenerFailed => LISTENER_FAILED,
        Ended::NoMemory => NO_MEMORY,
        Ended::Spent => SPENT,
        Ended::Full => FULL,
        Ended::Unmet => UNMET,
    }
}

fn role_of(role: Role) -> Served
    ensures { result ≡ role_of (meant_role role) }
{
    match role {
        Role::Coordinator => Served::Coordinator,
        Role::Participant => Served::Participant,
        Role::Initiator => Served::Initiator,
    }
}

/// Serves these lines and so many turns, and gives the status.
#[tactic(auto, using(crate::proofs::Servings::sink_failed))]
pub(crate) fn attend<K: Sink, H: Showing>(
    alloc: Global,
    serving: &Serving<'_>,
    lines: &[InitiatorLine],
    sink: &mut K,
    site: &mut H,
) -> u8
    ensures served { HasServed H.told (meant_serving serving.now) lines.now result (K.contents sink.old) (K.contents sink.new) site.old site.new }
    ensures cause { result ≡ 5 → Rose (K.faults sink.old) (K.faults sink.new) }
    ensures statuses { IsTrue (list_any (nat_eq result) (0 ∷ 5 ∷ 6 ∷ 7 ∷ 8 ∷ 9 ∷ 11 ∷ 12 ∷ 13 ∷ [])) }
{
    let service = Service {
        role: role_of(serving.role),
        listen: serving.listen,
        base: serving.base,
        journal: serving.journal,
        limit: u32::MAX,
        lines,
        turns: serving.turns,
    };
    let ended = serve(alloc, &service, sink, site);
    status_by(ended)
}

/// Says which line is bad, and gives the status.
#[tactic(auto, using(crate::proofs::Servings::refuses))]
fn refuse<K: Sink>(alloc: Global, bad: BadLine, sink: &mut K) -> u8
    ensures refuses { Refuses bad result (K.contents sink.old) (K.contents sink.new) }
    ensures cause { result ≡ 5 → Rose (K.faults sink.old) (K.faults sink.new) }
    ensures statuses { IsTrue (list_any (nat_eq result) (3 ∷ 5 ∷ 9 ∷ [])) }
{
    match refusal(alloc, bad) {
        Ok(printed) => print(sink, &printed),
        Err(_) => NO_MEMORY,
    }
}

/// Reads the lines of an initiator, all of them, and serves them.
#[tactic(auto, using(crate::proofs::Servings::initiated, crate::proofs::Servings::refused, crate::proofs::Servings::unread))]
pub(crate) fn initiate<S: Source, K: Sink, H: Showing>(
    alloc: Global,
    serving: &Serving<'_>,
    source: &mut S,
    sink: &mut K,
    site: &mut H,
) -> u8
    ensures initiates { Initiates H.told (meant_serving serving.now) (S.left source.old) result (K.contents sink.old) (K.contents sink.new) site.old site.new }
    ensures source_failed { result ≡ 4 → Rose (S.faults source.old) (S.faults source.new) }
    ensures sink_failed { result ≡ 5 → Rose (K.faults sink.old) (K.faults sink.new) }
    ensures too_long { result ≡ 10 → capped (S.given source.old + 1048577) ≤ S.given source.new }
    ensures not_longer { S.given source.old + 1048576 < S.given source.new → result ≡ 10 }
    ensures longer { result ≡ 10 → IfSome (S.left source.old) (λ input. 1048576 < length input) }
    ensures statuses { IsTrue (list_any (nat_eq result) (0 ∷ 3 ∷ 4 ∷ 5 ∷ 6 ∷ 7 ∷ 8 ∷ 9 ∷ 10 ∷ 11 ∷ 12 ∷ 13 ∷ [])) }
{
    let bytes = match read_all(alloc, source) {
        Ok(bytes) => bytes,
        Err(ReadFault::NoMemory) => return NO_MEMORY,
        Err(ReadFault::Failed) => return SOURCE_FAILED,
        Err(ReadFault::TooLong) => return TOO_LONG,
    };
    match read_initiator_lines(alloc, bytes.as_slice()) {
        Ok(lines) => attend(alloc, serving, lines.as_slice(), sink, site),
        Err(ScheduleError::Bad(bad)) => refuse(alloc, bad, sink),
        Err(ScheduleError::OutOfMemory) => NO_MEMORY,
    }
}

/// Serves a node, and gives the status.
pub(crate) fn serve_node<S: Source, K: Sink, H: Showing>(
    alloc: Global,
    serving: &Serving<'_>,
    source: &mut S,
    sink: &mut K,
    site: &mut H,
) -> u8
    ensures served { initiates (meant_serving serving.now) ≡ false → HasServed H.told (meant_serving serving.now) [] result (K.contents sink.old) (K.contents sink.new) site.old site.new }
    ensures initiated { initiates (meant_serving serving.now) ≡ true → Initiates H.told (meant_serving serving.now) (S.left source.old) result (K.contents sink.old) (K.contents sink.new) site.old site.new }
    ensures unread { initiates (meant_serving serving.now) ≡ false → source.new ≡ source.old }
    ensures source_failed { result ≡ 4 → Rose (S.faults source.old) (S.faults source.new) }
    ensures sink_failed { result ≡ 5 → Rose (K.faults sink.old) (K.faults sink.new) }
    ensures too_long { result ≡ 10 → capped (S.given source.old + 1048577) ≤ S.given source.new }
    ensures not_longer { S.given source.old + 1048576 < S.given source.new → result ≡ 10 }
    ensures longer { result ≡ 10 → IfSome (S.left source.old) (λ input. 1048576 < length input) }
    ensures statuses { IsTrue (list_any (nat_eq result) (0 ∷ 3 ∷ 4 ∷ 5 ∷ 6 ∷ 7 ∷ 8 ∷ 9 ∷ 10 ∷ 11 ∷ 12 ∷ 13 ∷ [])) }
{
    match serving.role {
        Role::Initiator => initiate(alloc, serving, source, sink, site),
        Role::Coordinator | Role::Participant => attend(alloc, serving, &[], sink, site),
    }
}
