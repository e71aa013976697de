//! The job that the words name.

ghost use Rattle.std.specs.List.{list_all};
ghost use Rattle.std.specs.Prelude.{ℕ, ◌≡◌, ◌≢◌, ◌++◌, [], All, Bool, IfOk, IfErr, IfSome, IsSomeAnd, IsTrue, Some, ◌&&◌, codes, decimal, map, option_map, string_bytes, unwrap_or};
ghost use Rattle.addressing.specs.PostAddresses.{postable};
ghost use Rattle.addressing.specs.declared.post_to.PostTo.{PostTo as MeantTo};
ghost use Rattle.clap.specs.Faults.{fault_of};
ghost use Rattle.clap.specs.Kinds.{HasKind};
ghost use Rattle.clap.specs.Simple.{subcommand_of, subcommand_rows_of};
ghost use Rattle.clap.specs.Walk.{first_of, rows_of};
ghost use Rattle.clap.specs.Matches.{found_of};
ghost use Rattle.clap.specs.Values.{kind_of};
ghost use Rattle.command_line.specs.Commands.{whole};
ghost use Rattle.command_line.specs.Jobs.{Filter as MeantFilter, HasBase, IsJobOf, IsNoDelimiter, Job as Meant, Means, MeansFilter, MeansMade, MeansServing, MeansTurns, Role as MeantRole, Serving as MeantServing, flag_text, is_address, is_authority, is_base, is_reached, is_visible, is_wildcard, role_name, tick_to};
ghost use Rattle.command_line.specs.Views.{Says, SaysServing, SaysUnread, Tells, is_unreached, meant, meant_filter, meant_role, meant_serving};
ghost use Rattle.url.specs.Host.{host_text};
ghost use Rattle.url.specs.Parts.{IsValid, nonempty_host};

use crate::commands::whole;
use addressing::post_to::{PostTo, post_to};
use arrivals::laws::heads_are_bases;
use at_base::epr::Epr;
use at_base::limits::MOST_ENDPOINT;
use at_base::text::Text;
use at_tables::cells::State;
use clap::error::ErrorKind;
use clap::{ArgMatches, Error};
use journal_cmd::base::is_journal_base;
use replay_cmd::options::Options;
use schedules::values::{read_long, read_number, read_small};
use std::alloc::{AllocError, Global};
use url::{ParseError, Url};

/// What reads its input to the end, and prints what it makes of it.
#[derive(Clone, Copy, Debug, PartialEq, Eq)]
pub enum Filter<'a> {
    /// `cell --state S`.
    Cell(State),
    /// `check --path P`, or `check`, whose path is `/`.
    Check(&'a str),
    /// `replay`, with what is asked beside its report.
    Replay(Options),
}

/// What a node that serves is.
#[derive(Clone, Copy, Debug, PartialEq, Eq)]
pub enum Role {
    Coordinator,
    Participant,
    Initiator,
}

/// A node that serves: `ROLE --listen ADDR [--base URL] --journal F [--turns N] [--log] [--status]
/// [--tick-from-anywhere]`. The last three are its machine's.
#[derive(Clone, Copy, Debug, PartialEq, Eq)]
pub struct Serving<'a> {
    pub role: Role,
    /// The host and the port where it listens.
    pub listen: &'a str,
    /// The node's base, by which others reach it; `http://` and the address where none is given.
    pub base: Option<&'a str>,
    /// The name of the journal's first file.
    pub journal: &'a str,
    /// How many connections it serves: 2^64 - 1, no end of them, where that isn't said.
    pub turns: u64,
}

/// What is to be done.
#[derive(Debug, PartialEq, Eq, Drop)]
pub enum Job<'a> {
    Filter(Filter<'a>),
    /// `audit`.
    Audit,
    /// `journal FILE`.
    Show(&'a str),
    /// `journal --hex BASE FILE`.
    ShowLine { base: &'a str, file: &'a str },
    /// `make --seed S --steps N`.
    Make { seed: u64, steps: u16 },
    /// `tick --to U`.
    Tick(PostTo),
    /// `coordinator`, `participant` or `initiator`.
    Serve(Serving<'a>),
}

/// Why the words gave no job.
#[derive(Debug, Drop)]
pub enum NoJob {
    NoMemory,
    /// They ask for the help or the version. The text answers.
    Question(String),
    /// clap refuses them. The text says why.
    Refused(String),
    /// There is no state of that name.
    UnknownState,
    /// Nothing can be posted there.
    NoDestination,
    /// No schedule is made of these numbers.
    NoNumbers,
    /// No node has that base.
    NoJournalBase,
    /// No node listens there, is reached there, or serves so many connections.
    NoServing,
    /// It would listen at every address of its machine, and nothing says how others reach it.
    NoBase,
}

/// The most lines that are made of a seed.
const MOST_STEPS: u16 = 9_999;

/// The most bytes of the address at which a node listens (this profile).
const LISTEN_BYTES: usize = 1000;

fn parsed<'a>(alloc: Global, words: &'a [String]) -> Result<ArgMatches<'a>, Error>
    ensures found { IfOk result (λ m. (fault_of whole (map string_bytes words.entry.now) ≡ []) × (subcommand_rows_of m ≡ subcommand_of whole (map string_bytes words.entry.now))) }
    ensures refused { IfErr result (HasKind (fault_of whole (map string_bytes words.entry.now))) }
{
    whole(alloc)?.try_get_matches_from(words)
}

#[tactic(auto, using(crate::proofs::Rows::text_rows))]
fn text_at<'a>(found: &ArgMatches<'a>, id: &str) -> Option<&'a str>
    ensures { option_map (λ s. s.now) result ≡ first_of id.now (rows_of (found_of found.now)) }
{
    found.get_str(id)
}

/// Whether a flag was given.
fn flag_at(found: &ArgMatches<'_>, id: &str) -> Option<bool>
    ensures found { IfSome result (λ given. first_of id.now (rows_of (found_of found.now)) ≡ Some (flag_text given)) }
    ensures every { (given : Bool) → first_of id.now (rows_of (found_of found.now)) ≡ Some (flag_text given) → result ≡ Some given }
{
    match text_at(found, id)? {
        "true" => Some(true),
        "false" => Some(false),
        _ => None,
    }
}

/// The filter that the matches of a command are. None exactly where they are none.
fn read_filter<'a>(name: &str, found: &ArgMatches<'a>) -> Option<Filter<'a>>
    ensures found { IfSome result (λ filter. MeansFilter name.now (rows_of (found_of found.now)) (meant_filter filter)) }
    ensures every { (filter : MeantFilter) → MeansFilter name.now (rows_of (found_of found.now)) filter → option_map meant_filter result ≡ Some filter }
{
    match name {
        "cell" => Some(Filter::Cell(State::from_name(text_at(found, "state")?)?)),
        "check" => Some(Filter::Check(text_at(found, "path")?)),
        "replay" => Some(Filter::Replay(Options {
            settle: flag_at(found, "settle")?,
            bytes: flag_at(found, "bytes")?,
        })),
        _ => None,
    }
}

/// Where a node at this base is asked for what is due.
fn tick_to(alloc: Global, url: &str) -> Result<Option<PostTo>, AllocError>
    ensures { IfOk result (λ to. to ≡ tick_to url.now) }
{
    let mut address = Text::copied(alloc, url)?;
    address.push_str("/tick")?;
    if address.as_str().len() > MOST_ENDPOINT {
        return Ok(None);
    }
    let params = Text::from_string(String::new(alloc));
    post_to(alloc, &Epr { address, params })
}

/// The destination that the matches of `tick` name.
fn read_tick(alloc: Global, found: &ArgMatches<'_>) -> Result<Option<PostTo>, AllocError>
    ensures found { IfOk result (λ to. IfSome to (λ to. IsSomeAnd (first_of (codes "to") (rows_of (found_of found.now))) (λ url. tick_to url ≡ Some to))) }
    ensures every { IfOk result (λ found_to. (to : MeantTo) → IsSomeAnd (first_of (codes "to") (rows_of (found_of found.now))) (λ url. tick_to url ≡ Some to) → found_to ≡ Some to) }
{
    match text_at(found, "to") {
        Some(url) => tick_to(alloc, url),
        None => Ok(None),
    }
}

/// The seed and the number of lines that the matches of `make` name.
fn read_make(found: &ArgMatches<'_>) -> Option<(u64, u16)>
    ensures found { IfSome result (λ made. MeansMade (rows_of (found_of found.now)) made.0 made.1) }
    ensures every { (seed steps : ℕ) → MeansMade (rows_of (found_of found.now)) seed steps → result ≡ Some (seed, steps) }
{
    let Ok(seed) = read_long(text_at(found, "seed")?, 0, u64::MAX) else {
        return None;
    };
    let Ok(steps) = read_small(text_at(found, "steps")?, 0, MOST_STEPS) else {
        return None;
    };
    Some((seed, steps))
}

/// Whether all bytes are in 33 to 126.
fn are_visible(word: &str) -> bool
    ensures { result ≡ list_all is_visible word.now }
{
    for byte in word.as_bytes() {
        if *byte < 33 || *byte > 126 {
            return false;
        }
    }
    true
}

/// The host and the port of an http URL.
fn authority(alloc: Global, url: &Url) -> Result<String, AllocError>
    ensures { IfOk result (λ text. string_bytes text ≡ unwrap_or (option_map host_text (nonempty_host url.now)) [] ++ codes ":" ++ decimal (unwrap_or url.now.port 80)) }
{
    let text = format!(in alloc;
        "{}:{}",
        url.host_str().unwrap_or(""),
        url.port().unwrap_or(80)
    )?;
    Ok(text)
}

/// Whether the address is the host and the port of an http URL, and the port isn't 0.
fn is_authority(alloc: Global, listen: &str, url: &Url) -> Result<bool, AllocError>
    ensures is { IfOk result (λ is. is ≡ is_authority listen.now (postable url.now)) }
    ensures valid { IsValid url.now }
{
    if url.scheme() != "http" || url.port() == Some(0) {
        return Ok(false);
    }
    let own = authority(alloc, url)?;
    Ok(own.as_str() == listen)
}

/// Whether a node may listen there. It has a base then, and no part of a URL but host and port.
#[tactic(auto, using(crate::proofs::Addresses::undelimited))]
pub fn is_address(alloc: Global, listen: &str) -> Result<bool, AllocError>
    ensures is { IfOk result (λ is. is ≡ is_address listen.now) }
    ensures undelimited { IfOk result (λ is. IsTrue is → All IsNoDelimiter listen.now) }
    ensures based { IfOk result (λ is. IsTrue is → HasBase listen.now) }
{
    if listen.len() > LISTEN_BYTES || !are_visible(listen) {
        return Ok(false);
    }
    heads_are_bases();
    let mut base = String::from_str(alloc, "http://")?;
    base.push_str(listen)?;
    match Url::parse(alloc, base.as_str()) {
        Ok(url) => is_authority(alloc, listen, &url),
        Err(ParseError::OutOfMemory | ParseError::Overflow) => Err(AllocError),
        Err(_) => Ok(false),
    }
}

fn role_of(name: &str) -> Option<Role>
    ensures found { IfSome result (λ role. name.now ≡ role_name (meant_role role)) }
    ensures every { (role : MeantRole) → name.now ≡ role_name role → option_map meant_role result ≡ Some role }
{
    match name {
        "coordinator" => Some(Role::Coordinator),
        "participant" => Some(Role::Participant),
        "initiator" => Some(Role::Initiator),
        _ => None,
    }
}

/// Whether that is every address of a machine.
fn is_wildcard(listen: &str) -> bool
    ensures { result ≡ is_wildcard listen.now }
{
    listen.strip_prefix("0.0.0.0:").is_some() || listen.strip_prefix("[::]:").is_some()
}

/// Whether others reach a node there.
fn is_base(alloc: Global, base: &str) -> Result<bool, AllocError>
    ensures { IfOk result (λ is. is ≡ is_base base.now) }
{
    match base.strip_prefix("http://") {
        Some(address) => {
            if is_wildcard(address) {
                return Ok(false);
            }
            is_address(alloc, address)
        }
        None => Ok(false),
    }
}

/// Whether others reach a node that listens there, under the base that is given or else there.
fn is_reached(alloc: Global, listen: &str, base: Option<&str>) -> Result<bool, AllocError>
    ensures { IfOk result (λ is. is ≡ is_reached listen.now (option_map (λ b. b.now) base.entry)) }
{
    match base {
        Some(base) => is_base(alloc, base),
        None => Ok(!is_wildcard(listen)),
    }
}

/// Whether a node may listen at this address, and others reach it there or under this base.
fn may_serve(alloc: Global, listen: &str, base: Option<&str>) -> Result<bool, AllocError>
    ensures { IfOk result (λ may. may ≡ (is_address listen.now && is_reached listen.now (option_map (λ b. b.now) base.entry))) }
{
    if !is_address(alloc, listen)? {
        return Ok(false);
    }
    is_reached(alloc, listen, base)
}

/// How many connections the matches of a command that serves name.
fn read_turns(found: &ArgMatches<'_>) -> Option<u64>
    ensures found { IfSome result (λ turns. MeansTurns (first_of (codes "turns") (rows_of (found_of found.now))) turns) }
    ensures every { (turns : ℕ) → MeansTurns (first_of (codes "turns") (rows_of (found_of found.now))) turns → result ≡ Some turns }
{
    let Some(word) = text_at(found, "turns") else {
        return Some(u64::MAX);
    };
    match read_number(word, 0, u32::MAX) {
        Ok(turns) => Some(u64::from(turns)),
        Err(_) => None,
    }
}

/// The node that the matches of a command are. None exactly where they are none.
fn read_serving<'a>(
    alloc: Global,
    name: &str,
    found: &ArgMatches<'a>,
) -> Result<Option<Serving<'a>>, AllocError>
    ensures found { IfOk result (λ serving. IfSome serving (λ s. MeansServing name.now (rows_of (found_of found.now)) (meant_serving s))) }
    ensures every { IfOk result (λ found_serving. (s : MeantServing) → MeansServing name.now (rows_of (found_of found.now)) s → option_map meant_serving found_serving ≡ Some s) }
{
    let Some(role) = role_of(name) else {
        return Ok(None);
    };
    let Some(listen) = text_at(found, "listen") else {
        return Ok(None);
    };
    let Some(journal) = text_at(found, "journal") else {
        return Ok(None);
    };
    let Some(turns) = read_turns(found) else {
        return Ok(None);
    };
    let base = text_at(found, "base");
    if !may_serve(alloc, listen, base)? {
        return Ok(None);
    }
    Ok(Some(Serving {
        role,
        listen,
        base,
        journal,
        turns,
    }))
}

/// What is shown of a journal. None where there is no file, or the base is none.
fn read_show<'a>(alloc: Global, found: &ArgMatches<'a>) -> Result<Option<Job<'a>>, AllocError>
    ensures found { IfOk result (λ job. IfSome job (λ job. Means (codes "journal") (rows_of (found_of found.now)) (meant job))) }
    ensures every { IfOk result (λ found_job. (job : Meant) → Means (codes "journal") (rows_of (found_of found.now)) job → option_map meant found_job ≡ Some job) }
{
    let Some(file) = text_at(found, "file") else {
        return Ok(None);
    };
    let Some(base) = text_at(found, "hex") else {
        return Ok(Some(Job::Show(file)));
    };
    if !is_journal_base(alloc, base)? {
        return Ok(None);
    }
    Ok(Some(Job::ShowLine { base, file }))
}

/// A filter, or a node that serves.
fn read_longer<'a>(
    alloc: Global,
    name: &str,
    found: &ArgMatches<'a>,
) -> Result<Option<Job<'a>>, AllocError>
    requires { (name.now ≢ codes "tick") × (name.now ≢ codes "make") × (name.now ≢ codes "audit") × (name.now ≢ codes "journal") }
    ensures found { IfOk result (λ job. IfSome job (λ job. Means name.now (rows_of (found_of found.now)) (meant job))) }
    ensures every { IfOk result (λ found_job. (job : Meant) → Means name.now (rows_of (found_of found.now)) job → option_map meant found_job ≡ Some job) }
{
    if let Some(filter) = read_filter(name, found) {
        return Ok(Some(Job::Filter(filter)));
    }
    match read_serving(alloc, name, found)? {
        Some(serving) => Ok(Some(Job::Serve(serving))),
        None => Ok(None),
    }
}

/// The job that the matches of a command are. None exactly where they are none.
fn read_job<'a>(
    alloc: Global,
    name: &str,
    found: &ArgMatches<'a>,
) -> Result<Option<Job<'a>>, AllocError>
    ensures found { IfOk result (λ job. IfSome job (λ job. Means name.now (rows_of (found_of found.now)) (meant job))) }
    ensures every { IfOk result (λ found_job. (job : Meant) → Means name.now (rows_of (found_of found.now)) job → option_map meant found_job ≡ Some job) }
{
    match name {
        "tick" => match read_tick(alloc, found)? {
            Some(to) => Ok(Some(Job::Tick(to))),
            None => Ok(None),
        },
        "make" => match read_make(found) {
            Some((seed, steps)) => Ok(Some(Job::Make { seed, steps })),
            None => Ok(None),
        },
        "audit" => Ok(Some(Job::Audit)),
        "journal" => read_show(alloc, found),
        _ => read_longer(alloc, name, found),
    }
}

/// Whether a node would listen at every address of its machine, and no base is given.
fn is_unreached(listen: Option<&str>, base: Option<&str>) -> bool
    ensures { result ≡ is_unreached (option_map (λ l. l.now) listen.entry) (option_map (λ b. b.now) base.entry) }
{
    match listen {
        Some(listen) => base.is_none() && is_wildcard(listen),
        None => false,
    }
}

/// What is said where the value of an option of a command that serves doesn't read.
fn unread_serving(found: &ArgMatches<'_>) -> NoJob
    ensures { SaysServing (rows_of (found_of found.now)) result }
{
    if is_unreached(text_at(found, "listen"), text_at(found, "base")) {
        NoJob::NoBase
    } else {
        NoJob::NoServing
    }
}

/// What is said where the value of this command's option doesn't read.
fn unread(name: &str, found: &ArgMatches<'_>) -> NoJob
    ensures { SaysUnread name.now (rows_of (found_of found.now)) result }
{
    match name {
        "tick" => NoJob::NoDestination,
        "make" => NoJob::NoNumbers,
        "journal" => NoJob::NoJournalBase,
        "cell" => NoJob::UnknownState,
        _ => unread_serving(found),
    }
}

/// What clap's error says of the words.
fn told(alloc: Global, error: &Error) -> NoJob
    ensures { Says (kind_of error.now) result }
{
    let kind = error.kind();
    if kind == ErrorKind::OutOfMemory {
        return NoJob::NoMemory;
    }
    let text = match format!(in alloc; "{error}") {
        Ok(text) => text,
        Err(_) => return NoJob::NoMemory,
    };
    match kind {
        ErrorKind::DisplayHelp | ErrorKind::DisplayVersion => NoJob::Question(text),
        _ => NoJob::Refused(text),
    }
}

/// The job that the words name, or why they name none.
#[tactic(auto, using(crate::proofs::Words::told_of, crate::proofs::Words::unread, crate::proofs::Words::none_found))]
pub fn job_of<'a>(alloc: Global, words: &'a [String]) -> Result<Job<'a>, NoJob>
    ensures found { IfOk result (λ job. IsJobOf (map string_bytes words.entry.now) (meant job)) }
    ensures every { (job : Meant) → IsJobOf (map string_bytes words.entry.now) job → IfOk result (λ found. meant found ≡ job) }
    ensures none { IfErr result (Tells (map string_bytes words.entry.now)) }
{
    let matches = match parsed(alloc, words) {
        Ok(matches) => matches,
        Err(error) => return Err(told(alloc, &error)),
    };
    let Some((name, found)) = matches.subcommand() else {
        return Err(NoJob::UnknownState);
    };
    match read_job(alloc, name, found) {
        Ok(Some(job)) => Ok(job),
        Ok(None) => Err(unread(name, found)),
        Err(_) => Err(NoJob::NoMemory),
    }
}
