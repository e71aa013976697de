//! Schedules that are made from a seed.

ghost use Rattle.std.specs.Prelude.{◌≡◌, ◌≤◌, ◌++◌, ◌∷◌, [], IfOk, OnOk};
ghost use Rattle.schedules.specs.Generator.{activity, asking, a_work, chosen, disturbing, drawn, made, message, next, next_line, other_node};
ghost use Rattle.schedules.specs.LineTexts.{IsSchedule};

use crate::line::{Line, Schedule};
use at_base::id::Id;
use at_base::notice::{Kind, Vote};
use std::alloc::{AllocError, Global};

const MULTIPLIER: u128 = 6_364_136_223_846_793_005;

const INCREMENT: u128 = 1_442_695_040_888_963_407;

const STATES: u128 = 18_446_744_073_709_551_616;

/// The state behind a draw.
fn next(state: u64) -> u64
    ensures { result ≡ next state }
{
    ((MULTIPLIER * state as u128 + INCREMENT) % STATES) as u64
}

/// What a state draws: its upper 31 bits.
fn drawn(state: u64) -> u32
    ensures { result ≡ drawn state }
{
    (state >> 33) as u32
}

/// A generator of lines.
#[derive(Drop)]
struct Generator {
    state: u64,
}

impl Generator {
    fn draw(&mut self) -> u32
        ensures is { result ≡ drawn (next self.old.state) }
        ensures state { self.new.state ≡ next self.old.state }
    {
        self.state = next(self.state);
        drawn(self.state)
    }

    /// One of the first eight activities of an incarnation.
    fn activity(&mut self) -> Id
        ensures is { result ≡ activity (drawn (next self.old.state)) }
        ensures state { self.new.state ≡ next self.old.state }
    {
        let draw = self.draw();
        Id::new(1, 1 + draw % 8)
    }

    /// One of the nodes 2 to 4.
    fn other_node(&mut self) -> u8
        ensures is { result ≡ other_node (drawn (next self.old.state)) }
        ensures state { self.new.state ≡ next self.old.state }
    {
        let draw = self.draw();
        2 + (draw % 3) as u8
    }

    /// One of the first 64 messages.
    fn message(&mut self) -> u32
        ensures is { result ≡ message (drawn (next self.old.state)) }
        ensures state { self.new.state ≡ next self.old.state }
    {
        let draw = self.draw();
        1 + draw % 64
    }

    fn work(&mut self, kind: Kind) -> Line
        ensures is { result ≡ a_work kind (drawn (next self.old.state)) }
        ensures state { self.new.state ≡ next self.old.state }
    {
        Line::Work {
            node: 1,
            activity: self.activity(),
            service: 4,
            kind,
            vote: Vote::Prepared,
        }
    }

    /// A line of an initiator.
    fn asking(&mut self, choice: u32) -> Line
        ensures is { result ≡ (asking choice self.old.state).line }
        ensures state { self.new.state ≡ (asking choice self.old.state).state }
    {
        match choice {
            0 | 1 => Line::Begin {
                node: 1,
                coordinator: 2,
                ms: 60_000,
            },
            2 => Line::Interpose {
                node: 1,
                activity: self.activity(),
                coordinator: 3,
            },
            3 => self.work(Kind::Durable),
            4 => self.work(Kind::Volatile),
            _ => Line::Commit {
                node: 1,
                activity: self.activity(),
            },
        }
    }

    /// A delivery, time that goes by, a crash, a start, a rollback.
    fn disturbing(&mut self, choice: u32) -> Line
        ensures is { result ≡ (disturbing choice self.old.state).line }
        ensures state { self.new.state ≡ (disturbing choice self.old.state).state }
    {
        match choice {
            11 => Line::Deliver {
                message: self.message(),
            },
            12 => Line::Tick {
                node: self.other_node(),
                ms: 5_000,
            },
            13 => Line::Crash {
                node: self.other_node(),
            },
            14 => Line::Up {
                node: self.other_node(),
            },
            _ => Line::Rollback {
                node: 1,
                activity: self.activity(),
            },
        }
    }

    fn chosen(&mut self, choice: u32) -> Line
        ensures is { result ≡ (chosen choice self.old.state).line }
        ensures state { self.new.state ≡ (chosen choice self.old.state).state }
    {
        if choice < 6 {
            return self.asking(choice);
        }
        if choice < 11 {
            return Line::Flush { most: 8 };
        }
        self.disturbing(choice)
    }

    fn line(&mut self) -> Line
        ensures is { result ≡ (next_line self.old.state).line }
        ensures state { self.new.state ≡ (next_line self.old.state).state }
    {
        let choice = self.draw() % 16;
        self.chosen(choice)
    }
}

fn keep(lines: &mut Vec<Line>, line: Line) -> Result<(), AllocError>
    ensures { OnOk result (lines.new.items ≡ lines.old.items ++ line ∷ []) }
{
    lines.push(line)?;
    Ok(())
}

fn lines_of(alloc: Global, seed: u64, steps: u16) -> Result<Schedule, AllocError>
    ensures { IfOk result (λ schedule. schedule ≡ made seed steps) }
{
    let mut lines = Vec::new(alloc);
    keep(&mut lines, Line::Nodes { count: 4 })?;
    let mut generator = Generator { state: seed };
    for _step in 0..steps {
        let line = generator.line();
        keep(&mut lines, line)?;
    }
    Ok(Schedule::from_vec(lines))
}

/// The schedule of a seed: four nodes, and so many lines, at most 9,999. Of 16 choices that are drawn, two begin an activity, one
/// interposes, two ask for work, one commits, five deliver, and one each delivers a given message, lets time go by, crashes a node,
/// starts one, and rolls back.
#[tactic(auto, using(crate::proofs::GeneratedSchedules::is_schedule))]
pub fn make(alloc: Global, seed: u64, steps: u16) -> Result<Schedule, AllocError>
    requires { steps ≤ 9999 }
    ensures made { IfOk result (λ schedule. schedule ≡ made seed steps) }
    ensures bounds { IfOk result IsSchedule }
{
    let schedule = lines_of(alloc, seed, steps)?;
    Ok(schedule)
}
