//! Schedules of many nodes and of many lines, through the top call.

use crate::top_call::{printed, text_of};
use std::alloc::{AllocError, Global};
use std::test::Fail;

/// A chain of three subordinates.
const CHAIN: &str = "\
nodes 6\n\
begin 1 2 0\n\
flush 99\n\
interpose 1 1-1 3\n\
flush 99\n\
interpose 1 1-2 4\n\
flush 99\n\
interpose 1 1-3 5\n\
flush 99\n\
";

/// What is asked of it, and the last lines that are printed: it commits, aborts, and rolls back.
const CHAINS: &[(&str, &str)] = &[
    (
        "work 1 1-4 6 d prepared\nflush 99\ncommit 1 1-1\nflush 99\n",
        "deliver 50 2 202\nend messages 50 committed 4 aborted 0 lost 0\n",
    ),
    (
        "work 1 1-4 6 d aborted\nflush 99\ncommit 1 1-1\nflush 99\n",
        "\
deliver 42 1 202\n\
told 1 1-1 aborted\n\
end messages 42 committed 0 aborted 4 lost 0\n\
",
    ),
    (
        "work 1 1-4 6 d prepared\nflush 99\nrollback 1 1-1\nflush 99\n",
        "\
deliver 44 4 202\n\
deliver 45 5 202\n\
end messages 45 committed 0 aborted 4 lost 0\n\
",
    ),
];

fn ends_so(alloc: Global, more: &str, last: &str) -> Result<bool, AllocError> {
    let schedule = format!(in alloc; "{CHAIN}{more}")?;
    let report = printed(alloc, "replay", schedule.as_bytes())?;
    Ok(text_of(report.as_slice()).ends_with(last))
}

#[test]
fn chains_of_subordinates(rt: HostRuntime) -> Result<(), Fail> {
    for (more, last) in CHAINS {
        let right = ends_so(rt.alloc(), more, last)?;
        assert!(rt; right, "{more}");
    }
    Ok(())
}

/// A transaction of node 1 that is to commit, whose activity has this number, with so many durable participants at node 2, where
/// its root is too; and behind that these lines.
fn transaction(
    alloc: Global,
    number: u32,
    participants: u32,
    behind: &str,
) -> Result<String, AllocError> {
    let mut lines = String::from_str(alloc, "begin 1 2 60000\nflush 999\n")?;
    let work = format!(in alloc; "work 1 1-{number} 2 d prepared\n")?;
    for _ in 0..participants {
        lines.push_str(work.as_str())?;
    }
    let end = format!(in alloc; "flush 999\ncommit 1 1-{number}\n{behind}")?;
    lines.push_str(end.as_str())?;
    Ok(lines)
}

/// So many of them, one after another.
fn transactions(alloc: Global, count: u32, participants: u32) -> Result<String, AllocError> {
    let mut schedule = String::from_str(alloc, "nodes 2\n")?;
    for number in 0..count {
        let lines = transaction(alloc, number.saturating_add(1), participants, "flush 999\n")?;
        schedule.push_str(lines.as_str())?;
    }
    Ok(schedule)
}

/// Whether the report of so many transactions ends so.
fn ends_with(alloc: Global, count: u32, participants: u32, last: &str) -> Result<bool, AllocError> {
    let schedule = transactions(alloc, count, participants)?;
    let report = printed(alloc, "replay", schedule.as_bytes())?;
    Ok(text_of(report.as_slice()).ends_with(last))
}

// The journal of node 2 passes 65,536 bytes, so the node beside writes it anew.
#[test]
fn a_journal_is_written_anew(rt: HostRuntime) -> Result<(), Fail> {
    let last = "end messages 5698 committed 704 aborted 0 lost 0\n";
    let right = ends_with(rt.alloc(), 11, 64, last)?;
    assert!(rt; right);
    Ok(())
}

/// Faults at the calls by which the journal of node 2 is written anew, in the commit of the eleventh transaction, at whose 18th vote it passes
/// 65,536 bytes. The node stops at the first, by which the transaction is lost; the first five fail, one in each turn, and the last of these halts it;
/// it stops at the second to the sixth; and the sixth fails, behind which the new journal stands, so that the call that is armed then comes in the
/// next turn alone. The turn of a vote has six calls before them, one behind a start 20, and the others two.
const REWRITINGS: &str = "\
flush 18\n\
stop 2 7 drop\nflush 1\nup 2\n\
fail 2 21\nflush 1\n\
fail 2 4\nflush 1\n\
fail 2 4\nflush 1\n\
fail 2 5\nflush 1\n\
fail 2 6\nflush 1\nup 2\n\
stop 2 21 keep\nflush 1\nup 2\n\
stop 2 22 drop\nflush 1\nup 2\n\
stop 2 23 fill 1\nflush 1\nup 2\n\
stop 2 24 drop\nflush 1\nup 2\n\
stop 2 25 fill 0\nflush 1\nup 2\n\
fail 2 25\nflush 1\nup 2\n\
stop 2 21 keep\nflush 2\n\
";

/// Lines of its report.
const REWRITTEN: &[&str] = &[
    "\ndeliver 5459 2 stopped\n",
    "\ndeliver 5460 2 202\n",
    "\ndeliver 5461 2 202\n",
    "\ndeliver 5462 2 202\n",
    "\ndeliver 5463 2 202\n",
    "\ndeliver 5464 2 halted\n",
    "\ndeliver 5465 2 stopped\n",
    "\ndeliver 5466 2 stopped\n",
    "\ndeliver 5467 2 stopped\n",
    "\ndeliver 5468 2 stopped\n",
    "\ndeliver 5469 2 stopped\n",
    "\ndeliver 5470 2 halted\n",
    "\ndeliver 5471 2 202\n",
    "\ndeliver 5472 2 stopped\n",
];

fn rewritings(alloc: Global) -> Result<Vec<u8>, AllocError> {
    let mut schedule = transactions(alloc, 10, 64)?;
    let last = transaction(alloc, 11, 64, REWRITINGS)?;
    schedule.push_str(last.as_str())?;
    printed(alloc, "replay", schedule.as_bytes())
}

fn has_line(report: &[u8], line: &str) -> bool {
    text_of(report).contains(line)
}

#[test]
fn faults_of_a_journal_that_is_written_anew(rt: HostRuntime) -> Result<(), Fail> {
    let report = rewritings(rt.alloc())?;
    for line in REWRITTEN {
        let there = has_line(report.as_slice(), line);
        assert!(rt; there, "{line}");
    }
    Ok(())
}

/// What draws the lines of a schedule.
struct Draws {
    state: u64,
}

impl Drop for Draws {
    fn drop(self) {
        let Draws { state: _state } = self;
    }
}

impl Draws {
    fn draw(&mut self) -> u32 {
        self.state = self
            .state
            .wrapping_mul(6_364_136_223_846_793_005)
            .wrapping_add(1_442_695_040_888_963_407);
        (self.state >> 33) as u32
    }

    /// One of the first eight activities.
    fn activity(&mut self) -> u32 {
        (self.draw() % 8).saturating_add(1)
    }

    /// One of the nodes 2 to 4.
    fn node(&mut self) -> u32 {
        (self.draw() % 3).saturating_add(2)
    }

    /// One of the first 64 messages.
    fn message(&mut self) -> u32 {
        (self.draw() % 64).saturating_add(1)
    }

    /// A line: what stands before its number, the number, and what stands behind it.
    fn line(&mut self) -> (&'static str, u32, &'static str) {
        match self.draw() % 16 {
            0 | 1 => ("begin 1 2 ", 60_000, "\n"),
            2 => ("interpose 1 1-", self.activity(), " 3\n"),
            3 => ("work 1 1-", self.activity(), " 4 d prepared\n"),
            4 => ("work 1 1-", self.activity(), " 4 v prepared\n"),
            5 => ("commit 1 1-", self.activity(), "\n"),
            11 => ("deliver ", self.message(), "\n"),
            12 => ("tick ", self.node(), " 5000\n"),
            13 => ("crash ", self.node(), "\n"),
            14 => ("up ", self.node(), "\n"),
            15 => ("rollback 1 1-", self.activity(), "\n"),
            _ => ("flush ", 8, "\n"),
        }
    }
}

/// The schedule that `make` makes of a seed.
fn made(alloc: Global, seed: u64, steps: u32) -> Result<String, AllocError> {
    let mut draws = Draws { state: seed };
    let mut schedule = String::from_str(alloc, "nodes 4\n")?;
    for _ in 0..steps {
        let (before, number, behind) = draws.line();
        let line = format!(in alloc; "{before}{number}{behind}")?;
        schedule.push_str(line.as_str())?;
    }
    Ok(schedule)
}

/// Seeds, how many lines are made of each, and the last line of their replay, which says what `make` says.
const MADE: &[(u64, u32, &str)] = &[
    (1, 1, "end messages 0 committed 0 aborted 0 lost 0\n"),
    (7, 9_999, "end messages 1026 committed 0 aborted 7 lost 7\n"),
];

fn comes_out(alloc: Global, seed: u64, steps: u32, last: &str) -> Result<bool, AllocError> {
    let schedule = made(alloc, seed, steps)?;
    let report = printed(alloc, "replay", schedule.as_bytes())?;
    Ok(text_of(report.as_slice()).ends_with(last))
}

#[test]
fn what_is_made_is_replayed(rt: HostRuntime) -> Result<(), Fail> {
    for (seed, steps, last) in MADE {
        let right = comes_out(rt.alloc(), *seed, *steps, last)?;
        assert!(rt; right, "{seed}");
    }
    Ok(())
}
