//! atx: atomic transactions between web services (WS-Coordination 1.2, WS-AtomicTransaction 1.2).
#![tactic(auto)]

use atx_sites::node_site::NodeSite;
use command_line::run::run;
use entry_point::program::with_words;
use logged_sites::log::Log;
use logged_sites::logged_site::LoggedSite;
use real_files::real_files::RealFiles;
use real_system::real_system::RealSystem;
use site_model::sink::{Sink, write_all};
use standard_streams::reading::Reading;
use standard_streams::writing::Writing;
use std::alloc::Global;
use std::env::{self, Args};
use std::io;
use std::process::ExitCode;
use system_calls::system::System;

/// How long a node waits for a connection until it does by itself what is due.
const TIMER_MILLIS: u64 = 1000;

/// For so many seconds whoever takes what is printed may take nothing.
const PATIENCE_SECONDS: u32 = 60;

/// The commands that serve or post.
const MACHINE_COMMANDS: [&str; 4] = ["coordinator", "participant", "initiator", "tick"];

/// What of the words is the machine's own.
#[derive(Clone, Copy)]
struct Options {
    /// A command serves or posts: then the machine wants its room.
    wants_machine: bool,
    /// Turns are counted: then it has no timer.
    counts_turns: bool,
    logs: bool,
    shows: bool,
    hears_ticks: bool,
}

/// Whether a word is this option, alone or with its value behind `=`.
fn is_option(word: &str, option: &str) -> bool {
    match word.strip_prefix(option) {
        Some(behind) => behind.is_empty() || behind.starts_with('='),
        None => false,
    }
}

/// The options among the words.
fn read_options(words: io::Result<Args>) -> io::Result<Options> {
    let mut options = Options {
        wants_machine: false,
        counts_turns: false,
        logs: false,
        shows: false,
        hears_ticks: false,
    };
    for word in words? {
        options.wants_machine = options.wants_machine || MACHINE_COMMANDS.contains(&word.as_str());
        options.counts_turns = options.counts_turns || is_option(word.as_str(), "--turns");
        options.logs = options.logs || is_option(word.as_str(), "--log");
        options.shows = options.shows || is_option(word.as_str(), "--status");
        options.hears_ticks = options.hears_ticks
            || is_option(word.as_str(), "--tick-from-anywhere");
    }
    Ok(options)
}

/// Standard output failed.
const SINK_FAILED: u8 = 5;

/// The disk failed, or the listener did.
const MACHINE_FAILED: [u8; 2] = [6, 8];

/// Want of memory.
const NO_MEMORY: u8 = 9;

/// Tells standard error why the program ends so, where no result says it.
fn tell<S: System + Drop, E: Sink>(
    alloc: Global,
    status: ExitCode,
    machine: &NodeSite<S>,
    errors: &mut E,
) {
    if status == ExitCode::from(SINK_FAILED) {
        let _ = write_all(errors, b"atx: standard output can't be written\n");
    }
    if let Some(trouble) = machine.trouble() {
        if MACHINE_FAILED
            .iter()
            .any(|failed| status == ExitCode::from(*failed))
        {
            if let Ok(line) = format!(in alloc; "atx: {}\n", machine.line(trouble)) {
                let _ = write_all(errors, line.as_bytes());
            }
        }
    }
}

/// The machine has its room before all else where a command wants it, a timer of its own unless turns are counted, and a log, pages
/// and ticks of other machines where they are asked for.
fn main(rt: HostRuntime) -> ExitCode {
    let mut machine = NodeSite::new(rt.alloc(), RealSystem::new(&rt));
    let mut log = None;
    let words = match read_options(env::args(&rt)) {
        Ok(options) => {
            if options.wants_machine && machine.begin().is_err() {
                return ExitCode::from(NO_MEMORY);
            }
            if !options.counts_turns {
                machine.keep_time(TIMER_MILLIS);
            }
            if options.shows {
                machine.show_pages();
            }
            if options.hears_ticks {
                machine.hear_ticks();
            }
            if options.logs {
                log = Some(Log::new(rt.alloc(), Writing::new(rt.stderr(), 0), &rt));
            }
            env::args(&rt)
        }
        Err(fault) => Err(fault),
    };
    let mut site = LoggedSite::new(rt.alloc(), machine, log);
    let mut errors = Writing::new(rt.stderr(), 0);
    let status = with_words(
        rt.alloc(),
        words,
        &mut Reading::new(rt.stdin()),
        &mut Writing::new(rt.stdout(), PATIENCE_SECONDS),
        &mut errors,
        &mut RealFiles::new(&rt),
        &mut site,
        run,
    );
    site.leave();
    tell(rt.alloc(), status, site.site(), &mut errors);
    status
}
