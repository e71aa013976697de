//! The top call.

ghost use Rattle.std.specs.Prelude.{ℕ, List, true, false, ◌≡◌, ◌≢◌, ◌+◌, ◌<◌, ◌≤◌, ◌⊎◌, IsTrue, IfErr, IfOk, IfSome, Some, nat_eq, map, string_bytes, length, take, ◌∷◌, []};
ghost use Rattle.std.specs.List.{list_any};
ghost use Rattle.std.specs.Io.KnownBytes.{Appends};
ghost use Rattle.site_model.specs.Counts.{capped, RisesBy, Rose};
ghost use Rattle.addressing.specs.declared.post_to.PostTo.{PostTo};
ghost use Rattle.clap.specs.Faults.{fault_of};
ghost use Rattle.clap.specs.Simple.{subcommand_of};
ghost use Rattle.command_line.specs.Commands.{whole};
ghost use Rattle.command_line.specs.Jobs.{Filter as Filtering, IsAudit, IsFaulty, IsFilter, IsInitiator, IsJob, IsJobOf, IsQuestion, IsServing, IsShow, Serving as Served, is_replay};
ghost use Rattle.command_line.specs.Reports.{HasNoRoomFor, HasTooManyEventsFor, IsCut, IsDone, IsReport, Reports, status_of};
ghost use Rattle.command_line.specs.Audits.{HasAudited};
ghost use Rattle.command_line.specs.Journals.{HasShown, HasShownLine};
ghost use Rattle.command_line.specs.Jobs.Job.{Filters, Make, Serve, Show, ShowLine, Tick};
ghost use Rattle.command_line.specs.Servings.{HasServed, Initiates, initiates};
ghost use Rattle.command_line.specs.Summaries.{IsSummed, IsSummedInPart};
ghost use Rattle.net_plays.specs.declared.play_error.PlayError.TheVariants.{Full, NoMemory, TooManyEvents};
ghost use Rattle.command_line.specs.Ticks.{FailedToTick, HasTicked};
ghost use Rattle.command_line.specs.Views.{meant_filter, no_base, no_destination, no_journal_base, no_numbers, no_serving, statuses_of, told, unknown_state, unread_text, Leaves};

use crate::job::{Filter, Job, NoJob, job_of};
use crate::make::make;
use crate::node::{FULL, serve_node};
use crate::replay::replayed;
use crate::tick::tick;
use audit_cmd::audit::audit;
use envelope_cmd::cell::cell;
use envelope_cmd::check::check;
use envelope_cmd::output::Printed;
use journal_cmd::files::Files;
use journal_cmd::journal::{journal, journal_line};
use net_plays::play_error::PlayError;
use shown_pages::showing::Showing;
use site_model::sink::{Sink, write_all};
use site_model::source::{ReadFault, Source, read_all};
use std::alloc::{AllocError, Global};

/// The job ended: all input was read and all output written. Or the help or the version was printed.
pub const DONE: u8 = 0;

/// The words are no job.
pub const NO_JOB: u8 = 2;

/// The input was refused; the refusal was printed.
pub const REFUSED: u8 = 3;

/// The source failed.
pub const SOURCE_FAILED: u8 = 4;

/// The sink failed.
pub const SINK_FAILED: u8 = 5;

/// The post failed.
pub const LINK_FAILED: u8 = 8;

/// Want of memory.
pub const NO_MEMORY: u8 = 9;

/// The source has more than 1,048,576 bytes.
pub const TOO_LONG: u8 = 10;

/// The world of a replay would have more than 4,294,967,295 events.
pub const TOO_MANY_EVENTS: u8 = 14;

/// What a filter prints of its input.
fn report(alloc: Global, filter: &Filter<'_>, input: &[u8]) -> Result<Printed, PlayError>
    ensures sound { IfOk result (Reports (meant_filter filter.now) input.now) }
    ensures memory { IfErr result (λ e. (e ≡ NoMemory) ⊎ (is_replay (meant_filter filter.now) ≡ true)) }
    ensures full { IfErr result (λ e. e ≡ Full → HasNoRoomFor (meant_filter filter.now) input.now) }
    ensures many { IfErr result (λ e. e ≡ TooManyEvents → HasTooManyEventsFor (meant_filter filter.now) input.now) }
{
    match filter {
        Filter::Cell(state) => match cell(alloc, input, *state) {
            Ok(printed) => Ok(printed),
            Err(_) => Err(PlayError::NoMemory),
        },
        Filter::Check(path) => match check(alloc, input, path) {
            Ok(printed) => Ok(printed),
            Err(_) => Err(PlayError::NoMemory),
        },
        Filter::Replay(options) => replayed(alloc, input, *options),
    }
}

/// Writes what was made in memory, and gives the status.
pub(crate) fn print<K: Sink>(sink: &mut K, printed: &Printed) -> u8
    ensures statuses { IsTrue (list_any (nat_eq result) (status_of printed.now ∷ 5 ∷ [])) }
    ensures cause { result ≡ 5 → Rose (K.faults sink.old) (K.faults sink.new) }
    ensures all { result ≡ status_of printed.now → Appends (K.contents sink.old) (K.contents sink.new) printed.now.text }
    ensures part { (n : ℕ) × ((n ≤ length printed.now.text) × Appends (K.contents sink.old) (K.contents sink.new) (take n printed.now.text)) }
{
    match write_all(sink, printed.as_slice()) {
        Ok(()) => { if printed.is_refusal() { REFUSED } else { DONE } }
        Err(_) => SINK_FAILED,
    }
}

/// Answers what the words ask, and gives the status.
fn answer<K: Sink>(sink: &mut K, text: &str) -> u8
    ensures statuses { IsTrue (list_any (nat_eq result) (0 ∷ 5 ∷ [])) }
    ensures cause { result ≡ 5 → Rose (K.faults sink.old) (K.faults sink.new) }
    ensures all { result ≢ 5 → Appends (K.contents sink.old) (K.contents sink.new) text.now }
    ensures part { (n : ℕ) × ((n ≤ length text.now) × Appends (K.contents sink.old) (K.contents sink.new) (take n text.now)) }
{
    match write_all(sink, text.as_bytes()) {
        Ok(()) => DONE,
        Err(_) => SINK_FAILED,
    }
}

/// Says among the errors why the words are no job, as far as these take it, and gives the status.
fn complain<E: Sink>(errors: &mut E, text: &str) -> u8
    ensures status { result ≡ 2 }
    ensures all { ¬ (Rose (E.faults errors.old) (E.faults errors.new)) → Appends (E.contents errors.old) (E.contents errors.new) text.now }
    ensures part { (n : ℕ) × ((n ≤ length text.now) × Appends (E.contents errors.old) (E.contents errors.new) (take n text.now)) }
{
    match write_all(errors, text.as_bytes()) {
        Ok(()) => NO_JOB,
        Err(_) => NO_JOB,
    }
}

/// What is said of a state of another name.
fn unknown_state() -> &'static str
    ensures { result.now ≡ unknown_state }
{
    "error: invalid value for '--state <STATE>'\n  \
[possible values: None, Registering, Active, Preparing, Prepared, PreparedSuccess, Committing, Aborting, Completing, Done]\n\n\
For more information, try '--help'.\n"
}

/// What is said of a base at which nothing can be posted.
fn no_destination() -> &'static str
    ensures { result.now ≡ no_destination }
{
    "error: invalid value for '--to <URL>'\n  \
[an http URL, with '/tick' behind it of at most 2048 bytes]\n\n\
For more information, try '--help'.\n"
}

/// What is said of numbers of which no schedule is made.
fn no_numbers() -> &'static str
    ensures { result.now ≡ no_numbers }
{
    "error: invalid value for '--seed <SEED>' or '--steps <N>'\n  \
[SEED: 0 to 18446744073709551615; N: 0 to 9999]\n\n\
For more information, try '--help'.\n"
}

/// What is said of the base of a node whose journal is audited.
fn no_journal_base() -> &'static str
    ensures { result.now ≡ no_journal_base }
{
    "error: invalid value for '--hex <BASE>'\n  \
[an http URL of at most 1024 bytes, without a slash at its end, behind which a path may stand]\n\n\
For more information, try '--help'.\n"
}

/// What is said of an address, a base or a number of a node that serves.
fn no_serving() -> &'static str
    ensures { result.now ≡ no_serving }
{
    "error: invalid value for '--listen <ADDR>', '--base <URL>' or '--turns <N>'\n  \
[ADDR: HOST:PORT of at most 1000 bytes, as http URLs are normalized, PORT 1 to 65535; URL: http:// and such an ADDR, not 0.0.0.0 or [::]; N: 0 to 4294967295]\n\n\
For more information, try '--help'.\n"
}

/// What is said of a node that would listen at every address of its machine, and has no base.
fn no_base() -> &'static str
    ensures { result.now ≡ no_base }
{
    "error: '--listen <ADDR>' is every address of this machine, at which no other node reaches it\n  \
[say by '--base <URL>' how others reach it, as http://h.example:9001]\n\n\
For more information, try '--help'.\n"
}

/// Answers a question, or says why the words are no job, and gives the status.
fn tell<K: Sink, E: Sink>(sink: &mut K, errors: &mut E, reason: &NoJob) -> u8
    ensures statuses { IsTrue (list_any (nat_eq result) (statuses_of reason.now)) }
    ensures cause { result ≡ 5 → Rose (K.faults sink.old) (K.faults sink.new) }
    ensures said { (said : List ℕ) × Appends (K.contents sink.old) (K.contents sink.new) said }
    ensures answered { result ≡ 0 → Appends (K.contents sink.old) (K.contents sink.new) (told reason.now) }
    ensures complained { result ≡ 2 → ¬ (Rose (E.faults errors.old) (E.faults errors.new)) → Appends (E.contents errors.old) (E.contents errors.new) (told reason.now) }
    ensures part { result ≡ 2 → (n : ℕ) × ((n ≤ length (told reason.now)) × Appends (E.contents errors.old) (E.contents errors.new) (take n (told reason.now))) }
    ensures kept { result ≡ 2 → sink.new ≡ sink.old }
    ensures apart { result ≢ 2 → errors.new ≡ errors.old }
    ensures silent { Leaves reason.now (Appends (K.contents sink.old) (K.contents sink.new) []) }
{
    match reason {
        NoJob::NoMemory => NO_MEMORY,
        NoJob::Question(text) => answer(sink, text.as_str()),
        NoJob::Refused(text) => complain(errors, text.as_str()),
        NoJob::UnknownState => complain(errors, unknown_state()),
        NoJob::NoDestination => complain(errors, no_destination()),
        NoJob::NoNumbers => complain(errors, no_numbers()),
        NoJob::NoJournalBase => complain(errors, no_journal_base()),
        NoJob::NoServing => complain(errors, no_serving()),
        NoJob::NoBase => complain(errors, no_base()),
    }
}

/// Reads the source, and prints what the filter makes of it.
fn filter<S: Source, K: Sink>(
    alloc: Global,
    filter: &Filter<'_>,
    source: &mut S,
    sink: &mut K,
) -> u8
    ensures statuses { IsTrue (list_any (nat_eq result) (0 ∷ 3 ∷ 4 ∷ 5 ∷ 9 ∷ 10 ∷ 12 ∷ 14 ∷ [])) }
    ensures gave_up { IsTrue (list_any (nat_eq result) (12 ∷ 14 ∷ [])) → is_replay (meant_filter filter.now) ≡ true }
    ensures source_failed { result ≡ 4 → Rose (S.faults source.old) (S.faults source.new) }
    ensures sink_failed { result ≡ 5 → Rose (K.faults sink.old) (K.faults sink.new) }
    ensures too_long { result ≡ 10 → capped (S.given source.old + 1048577) ≤ S.given source.new }
    ensures not_longer { S.given source.old + 1048576 < S.given source.new → result ≡ 10 }
    ensures longer { result ≡ 10 → IfSome (S.left source.old) (λ input. 1048576 < length input) }
    ensures whole { IsTrue (list_any (nat_eq result) (0 ∷ 3 ∷ 5 ∷ [])) → IfSome (S.left source.old) (λ input. RisesBy (length input) (S.given source.old) (S.given source.new)) }
    ensures quiet { IsTrue (list_any (nat_eq result) (4 ∷ 9 ∷ 10 ∷ 12 ∷ 14 ∷ [])) → Appends (K.contents sink.old) (K.contents sink.new) [] }
    ensures ended { IsTrue (list_any (nat_eq result) (0 ∷ 3 ∷ [])) → IfSome (S.left source.old) (λ input. IsDone (meant_filter filter.now) input (K.contents sink.old) (K.contents sink.new) result) }
    ensures cut { result ≡ 5 → IfSome (S.left source.old) (λ input. IsCut (meant_filter filter.now) input (K.contents sink.old) (K.contents sink.new)) }
    ensures full { result ≡ 12 → IfSome (S.left source.old) (HasNoRoomFor (meant_filter filter.now)) }
    ensures many { result ≡ 14 → IfSome (S.left source.old) (HasTooManyEventsFor (meant_filter filter.now)) }
    ensures report { (input : List ℕ) → S.left source.old ≡ Some input → length input ≤ 1048576 → ¬ (Rose (S.faults source.old) (S.faults source.new)) → ¬ (Rose (K.faults sink.old) (K.faults sink.new)) → IsReport (meant_filter filter.now) input (K.contents sink.old) (K.contents sink.new) result }
{
    let bytes = match read_all(alloc, source) {
        Ok(bytes) => bytes,
        Err(ReadFault::NoMemory) => return NO_MEMORY,
        Err(ReadFault::Failed) => return SOURCE_FAILED,
        Err(ReadFault::TooLong) => return TOO_LONG,
    };
    match report(alloc, filter, bytes.as_slice()) {
        Ok(printed) => print(sink, &printed),
        Err(PlayError::NoMemory) => NO_MEMORY,
        Err(PlayError::Full) => FULL,
        Err(PlayError::TooManyEvents) => TOO_MANY_EVENTS,
    }
}

/// Does the job that the words name, and gives the status that the process ends with. The words stand after the
/// program's name; clap reads them.
///
/// `cell --state S` reads one envelope from the source, and prints the cell of state S that it meets and the envelope
/// that the cell posts. `check [--path P]` prints what the envelope says, line by line. `replay` reads a schedule, and
/// prints its report; `replay --settle` brings its world to rest behind the last line. `audit` reads the journals of several nodes, and
/// prints whether the outcomes that they record agree. `journal [--hex BASE] FILE` reads the files of a node's journal, and prints
/// what they stand for, or their line for an audit. `make --seed S --steps N` reads
/// nothing, and prints how the schedule of a seed comes out. All that these print is made in memory before the first write.
/// `tick --to U` posts to U`/tick`, and reads and prints nothing. `--help` and `--version` are answered without a look at
/// the source. Of words that clap refuses, and of a value that doesn't read, the errors are told why, and nothing is printed.
/// `coordinator`, `participant` and `initiator` serve a node (`serving`), the last after it has read its lines from the source.
/// But for these and for `tick` the site stays as it is.
#[tactic(auto, using(crate::proofs::Words::unknown_said, crate::proofs::Summaries::few_steps, crate::proofs::Servings::unread_by))]
pub fn run<S: Source, K: Sink, E: Sink, F: Files, H: Showing>(
    alloc: Global,
    words: &[String],
    source: &mut S,
    sink: &mut K,
    errors: &mut E,
    files: &mut F,
    site: &mut H,
) -> u8
    ensures statuses { IsTrue (list_any (nat_eq result) (0 ∷ 2 ∷ 3 ∷ 4 ∷ 5 ∷ 6 ∷ 7 ∷ 8 ∷ 9 ∷ 10 ∷ 11 ∷ 12 ∷ 13 ∷ 14 ∷ [])) }
    ensures words { result ≡ 2 → IsFaulty (map string_bytes words.now) }
    ensures faulty { IsFaulty (map string_bytes words.now) → IsTrue (list_any (nat_eq result) (2 ∷ 9 ∷ [])) }
    ensures question { IsQuestion (map string_bytes words.now) → IsTrue (list_any (nat_eq result) (0 ∷ 5 ∷ 9 ∷ [])) }
    ensures filtered { IsFilter (map string_bytes words.now) → IsTrue (list_any (nat_eq result) (0 ∷ 3 ∷ 4 ∷ 5 ∷ 9 ∷ 10 ∷ 12 ∷ 14 ∷ [])) }
    ensures gave_up { (filter : Filtering) → IsJobOf (map string_bytes words.now) (Filters filter) → IsTrue (list_any (nat_eq result) (12 ∷ 14 ∷ [])) → is_replay filter ≡ true }
    ensures unread { ¬ (IsFilter (map string_bytes words.now)) → ¬ (IsAudit (map string_bytes words.now)) → ¬ (IsInitiator (map string_bytes words.now)) → source.new ≡ source.old }
    ensures said { ¬ (IsJob (map string_bytes words.now)) → (said : List ℕ) × Appends (K.contents sink.old) (K.contents sink.new) said }
    ensures kept { result ≡ 2 → sink.new ≡ sink.old }
    ensures apart { result ≢ 2 → errors.new ≡ errors.old }
    ensures complained { result ≡ 2 → (said : List ℕ) × Appends (E.contents errors.old) (E.contents errors.new) said }
    ensures unknown { result ≡ 2 → fault_of whole (map string_bytes words.now) ≡ [] → ¬ (Rose (E.faults errors.old) (E.faults errors.new)) → Appends (E.contents errors.old) (E.contents errors.new) (unread_text (subcommand_of whole (map string_bytes words.now))) }
    ensures untouched { ((to : PostTo) → ¬ (IsJobOf (map string_bytes words.now) (Tick to))) → ¬ (IsServing (map string_bytes words.now)) → site.new ≡ site.old }
    ensures unopened { ¬ (IsShow (map string_bytes words.now)) → files.new ≡ files.old }
    ensures shown { (file : List ℕ) → IsJobOf (map string_bytes words.now) (Show file) → HasShown (F.told files.old) (F.faults files.old) (F.faults files.new) file (K.contents sink.old) (K.contents sink.new) result }
    ensures shown_line { (base file : List ℕ) → IsJobOf (map string_bytes words.now) (ShowLine base file) → HasShownLine (F.told files.old) (F.faults files.old) (F.faults files.new) base file (K.contents sink.old) (K.contents sink.new) result }
    ensures audited { IsAudit (map string_bytes words.now) → HasAudited (S.left source.old) (S.given source.old) (S.given source.new) (K.contents sink.old) (K.contents sink.new) result }
    ensures making { (seed steps : ℕ) → IsJobOf (map string_bytes words.now) (Make seed steps) → IsTrue (list_any (nat_eq result) (0 ∷ 5 ∷ 9 ∷ [])) }
    ensures summed { (seed steps : ℕ) → IsJobOf (map string_bytes words.now) (Make seed steps) → result ≡ 0 → IsSummed seed steps (K.contents sink.old) (K.contents sink.new) }
    ensures summed_in_part { (seed steps : ℕ) → IsJobOf (map string_bytes words.now) (Make seed steps) → result ≡ 5 → IsSummedInPart seed steps (K.contents sink.old) (K.contents sink.new) }
    ensures asked { (to : PostTo) → IsJobOf (map string_bytes words.now) (Tick to) → IsTrue (list_any (nat_eq result) (0 ∷ 8 ∷ 9 ∷ [])) }
    ensures silent { (to : PostTo) → IsJobOf (map string_bytes words.now) (Tick to) → Appends (K.contents sink.old) (K.contents sink.new) [] }
    ensures ticked { (to : PostTo) → IsJobOf (map string_bytes words.now) (Tick to) → result ≡ 0 → HasTicked to (H.told site.old) (H.told site.new) }
    ensures not_ticked { (to : PostTo) → IsJobOf (map string_bytes words.now) (Tick to) → result ≡ 8 → FailedToTick to (H.told site.old) (H.told site.new) }
    ensures link_failed { (to : PostTo) → IsJobOf (map string_bytes words.now) (Tick to) → result ≡ 8 → Rose (H.told site.old).counts.link (H.told site.new).counts.link }
    ensures idle { ¬ (IsServing (map string_bytes words.now)) → result ≡ 9 → site.new ≡ site.old }
    ensures served { (serving : Served) → IsJobOf (map string_bytes words.now) (Serve serving) → initiates serving ≡ false → HasServed H.told serving [] result (K.contents sink.old) (K.contents sink.new) site.old site.new }
    ensures initiated { (serving : Served) → IsJobOf (map string_bytes words.now) (Serve serving) → initiates serving ≡ true → Initiates H.told serving (S.left source.old) result (K.contents sink.old) (K.contents sink.new) site.old site.new }
    ensures source_failed { result ≡ 4 → Rose (S.faults source.old) (S.faults source.new) }
    ensures sink_failed { result ≡ 5 → Rose (K.faults sink.old) (K.faults sink.new) }
    ensures too_long { result ≡ 10 → capped (S.given source.old + 1048577) ≤ S.given source.new }
    ensures not_longer { S.given source.old + 1048576 < S.given source.new → result ≡ 10 }
    ensures longer { result ≡ 10 → IfSome (S.left source.old) (λ input. 1048576 < length input) }
    ensures whole { IsFilter (map string_bytes words.now) → IsTrue (list_any (nat_eq result) (0 ∷ 3 ∷ 5 ∷ [])) → IfSome (S.left source.old) (λ input. RisesBy (length input) (S.given source.old) (S.given source.new)) }
    ensures quiet { ¬ (IsServing (map string_bytes words.now)) → ¬ (IsAudit (map string_bytes words.now)) → IsTrue (list_any (nat_eq result) (4 ∷ 8 ∷ 9 ∷ 10 ∷ 12 ∷ 14 ∷ [])) → Appends (K.contents sink.old) (K.contents sink.new) [] }
    ensures ended { (filter : Filtering) → IsJobOf (map string_bytes words.now) (Filters filter) → IsTrue (list_any (nat_eq result) (0 ∷ 3 ∷ [])) → IfSome (S.left source.old) (λ input. IsDone filter input (K.contents sink.old) (K.contents sink.new) result) }
    ensures cut { (filter : Filtering) → IsJobOf (map string_bytes words.now) (Filters filter) → result ≡ 5 → IfSome (S.left source.old) (λ input. IsCut filter input (K.contents sink.old) (K.contents sink.new)) }
    ensures full { (filter : Filtering) → IsJobOf (map string_bytes words.now) (Filters filter) → result ≡ 12 → IfSome (S.left source.old) (HasNoRoomFor filter) }
    ensures many { (filter : Filtering) → IsJobOf (map string_bytes words.now) (Filters filter) → result ≡ 14 → IfSome (S.left source.old) (HasTooManyEventsFor filter) }
    ensures report { (filter : Filtering) → (input : List ℕ) → IsJobOf (map string_bytes words.now) (Filters filter) → S.left source.old ≡ Some input → length input ≤ 1048576 → ¬ (Rose (S.faults source.old) (S.faults source.new)) → ¬ (Rose (K.faults sink.old) (K.faults sink.new)) → IsReport filter input (K.contents sink.old) (K.contents sink.new) result }
{
    match job_of(alloc, words) {
        Ok(Job::Filter(chosen)) => filter(alloc, &chosen, source, sink),
        Ok(Job::Audit) => audit(alloc, source, sink),
        Ok(Job::Show(name)) => journal(alloc, name, files, sink),
        Ok(Job::ShowLine { base, file }) => journal_line(alloc, base, file, files, sink),
        Ok(Job::Make { seed, steps }) => make(alloc, seed, steps, sink),
        Ok(Job::Tick(to)) => tick(alloc, &to, site),
        Ok(Job::Serve(serving)) => serve_node(alloc, &serving, source, sink, site),
        Err(reason) => tell(sink, errors, &reason),
    }
}
