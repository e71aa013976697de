//! The command line, for clap to read.

ghost use Rattle.std.specs.Prelude.{◌≡◌, false, IfOk, codes};
ghost use Rattle.clap.specs.Walk.{rule_of};
ghost use Rattle.command_line.specs.Commands.{IsCommand, valued, wanted, flag, audit, auditing, cell, check, replay, journal, make, coordinating, filters, participating, posting, printing, serving, showing, silent, standing, tick, top, whole};

use clap::{Arg, ArgAction, Command};
use std::alloc::{AllocError, Global};

/// An option `--NAME` that takes one value.
fn valued<'a>(alloc: Global, name: &'a str, value: &'a str) -> Arg<'a>
    ensures rule { rule_of result ≡ valued name.entry.now }
    ensures local { result.global ≡ false }
{
    Arg::new(alloc, name)
        .long(name)
        .value_name(value)
        .action(ArgAction::Set)
}

/// A flag `--NAME`.
fn flag<'a>(alloc: Global, name: &'a str) -> Arg<'a>
    ensures rule { rule_of result ≡ flag name.entry.now }
    ensures local { result.global ≡ false }
{
    Arg::new(alloc, name).long(name).action(ArgAction::SetTrue)
}

/// The word FILE, which stands by itself.
fn file<'a>(alloc: Global) -> Arg<'a>
    ensures rule { rule_of result ≡ standing (codes "file") }
    ensures local { result.global ≡ false }
{
    Arg::new(alloc, "file")
        .index(1)
        .value_name("FILE")
        .action(ArgAction::Set)
        .required(true)
        .help("The journal's first file; the second has .1 behind this name")
}

/// `cell --state S`.
fn cell<'a>(alloc: Global) -> Result<Command<'a>, AllocError>
    ensures { IfOk result (IsCommand cell) }
{
    let state = valued(alloc, "state", "STATE").required(true).help(
        "None, Registering, Active, Preparing, Prepared, PreparedSuccess, Committing, Aborting, Completing or Done",
    );
    Command::new(alloc, "cell")
        .about("Print the cell that an envelope meets in a state, and the envelope that it posts")
        .arg(state)
}

/// `check [--path P]`.
fn check<'a>(alloc: Global) -> Result<Command<'a>, AllocError>
    ensures { IfOk result (IsCommand check) }
{
    let path = valued(alloc, "path", "PATH")
        .default_value("/")
        .help("The path of the request that brought the envelope");
    Command::new(alloc, "check")
        .about("Print what an envelope says, line by line")
        .arg(path)
}

/// `replay [--settle] [--bytes]`.
fn replay<'a>(alloc: Global) -> Result<Command<'a>, AllocError>
    ensures { IfOk result (IsCommand replay) }
{
    let settle = flag(alloc, "settle").help("Bring the world to rest behind the last line");
    let bytes = flag(alloc, "bytes").help("Print the bytes of each message behind its line");
    Command::new(alloc, "replay")
        .about("Print what the lines of a schedule bring about, line by line")
        .arg(settle)?
        .arg(bytes)
}

/// `audit`.
fn audit<'a>(alloc: Global) -> Result<Command<'a>, AllocError>
    ensures { IfOk result (IsCommand audit) }
{
    Ok(Command::new(alloc, "audit").about(
        "Print whether the outcomes that nodes' journals record agree, whatever the transactions",
    ))
}

/// `journal [--hex BASE] FILE`.
fn shown<'a>(alloc: Global) -> Result<Command<'a>, AllocError>
    ensures { IfOk result (IsCommand journal) }
{
    let hex = valued(alloc, "hex", "BASE").help(
        "Print the line of this journal for an audit, of a node with this base",
    );
    Command::new(alloc, "journal")
        .about("Print what a node's journal stands for, which is left as it is")
        .arg(hex)?
        .arg(file(alloc))
}

/// `make --seed S --steps N`.
fn make<'a>(alloc: Global) -> Result<Command<'a>, AllocError>
    ensures { IfOk result (IsCommand make) }
{
    let seed = valued(alloc, "seed", "SEED")
        .required(true)
        .help("Any number below 2^64");
    let steps = valued(alloc, "steps", "N")
        .required(true)
        .help("How many lines are made, 0 to 9999");
    Command::new(alloc, "make")
        .about("Print how a schedule that is made of a seed comes out")
        .arg(seed)?
        .arg(steps)
}

/// `tick --to U`.
fn tick<'a>(alloc: Global) -> Result<Command<'a>, AllocError>
    ensures { IfOk result (IsCommand tick) }
{
    let to = valued(alloc, "to", "URL")
        .required(true)
        .help("The base URL of the node, without a slash at its end");
    Command::new(alloc, "tick")
        .about("Ask a node to do what is due")
        .arg(to)
}

/// The program, without its commands. The words begin behind its name.
fn top<'a>(alloc: Global) -> Result<Command<'a>, AllocError>
    ensures { IfOk result (IsCommand top) }
{
    Command::new(alloc, "atx")
        .about("Atomic transactions between web services (WS-AtomicTransaction 1.2)")
        .version("0.1.0 (proved by rattle-kit-13f logic dac8208d650f15bf)")
        .no_binary_name(true)
        .disable_help_subcommand(true)
        .subcommand_required(true)
        .bin_name("atx")
}

/// The program with the commands that read their input.
fn filters<'a>(alloc: Global) -> Result<Command<'a>, AllocError>
    ensures { IfOk result (IsCommand filters) }
{
    let command = top(alloc)?.subcommand(cell(alloc)?)?;
    let command = command.subcommand(check(alloc)?)?;
    command.subcommand(replay(alloc)?)
}

/// With the one that reads journals.
fn auditing<'a>(alloc: Global) -> Result<Command<'a>, AllocError>
    ensures { IfOk result (IsCommand auditing) }
{
    filters(alloc)?.subcommand(audit(alloc)?)
}

/// With the one that shows a journal.
fn showing<'a>(alloc: Global) -> Result<Command<'a>, AllocError>
    ensures { IfOk result (IsCommand showing) }
{
    auditing(alloc)?.subcommand(shown(alloc)?)
}

/// With the one that makes its schedule itself.
fn printing<'a>(alloc: Global) -> Result<Command<'a>, AllocError>
    ensures { IfOk result (IsCommand printing) }
{
    showing(alloc)?.subcommand(make(alloc)?)
}

/// `--listen ADDR`.
fn listen<'a>(alloc: Global) -> Arg<'a>
    ensures rule { rule_of result ≡ wanted (codes "listen") }
    ensures local { result.global ≡ false }
{
    valued(alloc, "listen", "ADDR")
        .required(true)
        .help("The address at which it listens, as 127.0.0.1:9001")
}

/// `--journal F`.
fn journal<'a>(alloc: Global) -> Arg<'a>
    ensures rule { rule_of result ≡ wanted (codes "journal") }
    ensures local { result.global ≡ false }
{
    valued(alloc, "journal", "F").required(true).help(
        "The journal's first file; the second has .1 behind this name",
    )
}

/// `--base URL`.
fn base<'a>(alloc: Global) -> Arg<'a>
    ensures rule { rule_of result ≡ valued (codes "base") }
    ensures local { result.global ≡ false }
{
    valued(alloc, "base", "URL").help(
        "How other nodes reach this one, as http://h.example:9001, where that isn't http:// and ADDR",
    )
}

/// `--turns N`.
fn turns<'a>(alloc: Global) -> Arg<'a>
    ensures rule { rule_of result ≡ valued (codes "turns") }
    ensures local { result.global ≡ false }
{
    valued(alloc, "turns", "N").help("How many connections are served; without it no end of them")
}

/// `--log`.
fn log<'a>(alloc: Global) -> Arg<'a>
    ensures rule { rule_of result ≡ flag (codes "log") }
    ensures local { result.global ≡ false }
{
    flag(alloc, "log").help("Write a line to standard error of each request, answer and post")
}

/// `--status`.
fn status<'a>(alloc: Global) -> Arg<'a>
    ensures rule { rule_of result ≡ flag (codes "status") }
    ensures local { result.global ≡ false }
{
    flag(alloc, "status").help("Show what the node is and holds at /, /status and /healthz")
}

/// `--tick-from-anywhere`.
fn tick_from_anywhere<'a>(alloc: Global) -> Arg<'a>
    ensures rule { rule_of result ≡ flag (codes "tick-from-anywhere") }
    ensures local { result.global ≡ false }
{
    flag(alloc, "tick-from-anywhere").help("Take a tick from any machine, not from this one alone")
}

/// `NAME --listen ADDR [--base URL] --journal F [--turns N]`.
fn silent<'a>(alloc: Global, name: &'a str, about: &'a str) -> Result<Command<'a>, AllocError>
    ensures { IfOk result (IsCommand (silent name.entry.now)) }
{
    Command::new(alloc, name)
        .about(about)
        .arg(listen(alloc))?
        .arg(base(alloc))?
        .arg(journal(alloc))?
        .arg(turns(alloc))
}

/// With `--log`, `--status` and `--tick-from-anywhere`.
fn serving<'a>(alloc: Global, name: &'a str, about: &'a str) -> Result<Command<'a>, AllocError>
    ensures { IfOk result (IsCommand (serving name.entry.now)) }
{
    silent(alloc, name, about)?
        .arg(log(alloc))?
        .arg(status(alloc))?
        .arg(tick_from_anywhere(alloc))
}

/// `coordinator ..`.
fn coordinator<'a>(alloc: Global) -> Result<Command<'a>, AllocError>
    ensures { IfOk result (IsCommand (serving (codes "coordinator"))) }
{
    serving(alloc, "coordinator", "Serve as a coordinator")
}

/// `participant ..`.
fn participant<'a>(alloc: Global) -> Result<Command<'a>, AllocError>
    ensures { IfOk result (IsCommand (serving (codes "participant"))) }
{
    serving(alloc, "participant", "Serve as a participant")
}

/// `initiator ..`.
fn initiator<'a>(alloc: Global) -> Result<Command<'a>, AllocError>
    ensures { IfOk result (IsCommand (serving (codes "initiator"))) }
{
    let about = "Do the lines of the input as an initiator, and serve";
    serving(alloc, "initiator", about)
}

/// With the command that posts.
fn posting<'a>(alloc: Global) -> Result<Command<'a>, AllocError>
    ensures { IfOk result (IsCommand posting) }
{
    printing(alloc)?.subcommand(tick(alloc)?)
}

/// With a node that coordinates.
fn coordinating<'a>(alloc: Global) -> Result<Command<'a>, AllocError>
    ensures { IfOk result (IsCommand coordinating) }
{
    posting(alloc)?.subcommand(coordinator(alloc)?)
}

/// With a node that takes part.
fn participating<'a>(alloc: Global) -> Result<Command<'a>, AllocError>
    ensures { IfOk result (IsCommand participating) }
{
    coordinating(alloc)?.subcommand(participant(alloc)?)
}

/// All commands.
pub fn whole<'a>(alloc: Global) -> Result<Command<'a>, AllocError>
    ensures { IfOk result (IsCommand whole) }
{
    participating(alloc)?.subcommand(initiator(alloc)?)
}
