//! The lines of an event's steps: of each its effects, and then its posts.

ghost use Rattle.std.specs.Prelude.{◌≡◌, ◌≤◌, ◌<◌, ◌+◌, ◌^◌, ◌++◌, OnOk, length};
ghost use Rattle.replay_cmd.specs.ReportOf.{cut_by, effect_lines, message_lines, outcome_of, own_count, start_cut_by, started_by, step_lines};
ghost use Rattle.fated_walks.specs.Statuses.{status_in, status_of};

use crate::lines::{Lines, Outcome, Started};
use armed_calls::fault::Fault;
use at_base::outs::Effect;
use std::alloc::{AllocError, Global};
use world_laws::posts::{Counted, Posted};
use world_laws::step_outs::Answer;

/// The HTTP status of an answer; 0 where there is none.
fn status_of(answer: &Option<Answer>) -> u16
    ensures { result ≡ status_of answer.now }
{
    match answer {
        Some(answer) => answer.status,
        None => 0,
    }
}

/// The HTTP status that a turn of these steps answers.
pub fn status_in(steps: &[Counted]) -> u16
    ensures { result ≡ status_in steps.now }
{
    match steps.first() {
        Some(first) => status_of(&first.answer),
        None => 0,
    }
}

/// How a turn ended that a fault took down.
fn cut_by(fault: Option<Fault>) -> Outcome
    ensures { result ≡ cut_by fault }
{
    match fault {
        None => Outcome::Down,
        Some(Fault::Fail) => Outcome::Halted,
        Some(Fault::Stop { .. }) => Outcome::Stopped,
    }
}

/// How a turn that answers this status came out at a node that was up in this incarnation before, and is in that one behind it.
pub fn outcome_of(fault: Option<Fault>, was: Option<u32>, is: Option<u32>, status: u16) -> Outcome
    ensures { result ≡ outcome_of fault was is status }
{
    match (was, is) {
        (None, _) => Outcome::Down,
        (Some(_), None) => cut_by(fault),
        (Some(_), Some(_)) => Outcome::Answered { status },
    }
}

/// How a start ended at which a fault came.
fn start_cut_by(fault: Option<Fault>) -> Started
    ensures { result ≡ start_cut_by fault }
{
    match fault {
        None | Some(Fault::Fail) => Started::Failed,
        Some(Fault::Stop { .. }) => Started::Stopped,
    }
}

/// How a start came out, at which a fault came or none, of a node that is up in this incarnation behind it.
pub fn started_by(fault: Option<Fault>, cut: bool, is: Option<u32>) -> Started
    ensures { result ≡ started_by fault cut is }
{
    if cut {
        return start_cut_by(fault);
    }
    match is {
        Some(incarnation) => Started::Up { incarnation },
        None => Started::Failed,
    }
}

/// How many of these messages a step posted.
fn own_count(counted: &Counted, messages: &[Posted]) -> usize
    ensures own { result ≡ own_count counted.now messages.now }
    ensures most { result ≤ length messages.now }
{
    counted.posts.min(messages.len())
}

/// Adds the lines of effects on a node.
pub fn push_effects(
    alloc: Global,
    lines: &mut Lines,
    node: u8,
    effects: &[Effect],
) -> Result<(), AllocError>
    ensures { OnOk result (lines.new ≡ lines.old ++ effect_lines node effects.now) }
{
    for effect in effects {
        lines.push_effect(alloc, node, effect)?;
    }
    Ok(())
}

fn push_messages(
    alloc: Global,
    lines: &mut Lines,
    number: usize,
    messages: &[Posted],
) -> Result<(), AllocError>
    requires { number + length messages.now < 2 ^ 64 }
    ensures { OnOk result (lines.new ≡ lines.old ++ message_lines number messages.now) }
{
    for place in 0..messages.len() {
        lines.push_message(alloc, number + place, &messages[place])?;
    }
    Ok(())
}

fn push_step(
    alloc: Global,
    lines: &mut Lines,
    node: u8,
    number: usize,
    messages: &[Posted],
    effects: &[Effect],
) -> Result<(), AllocError>
    requires { number + length messages.now < 2 ^ 64 }
    ensures { OnOk result
        (lines.new ≡ lines.old ++ (effect_lines node effects.now ++ message_lines number messages.now)) }
{
    push_effects(alloc, lines, node, effects)?;
    push_messages(alloc, lines, number, messages)
}

/// Adds the lines of the steps of a node, whose posts are these messages, numbered from this one on.
pub fn push_steps(
    alloc: Global,
    lines: &mut Lines,
    node: u8,
    number: usize,
    messages: &[Posted],
    steps: &[Counted],
) -> Result<(), AllocError>
    requires { number + length messages.now < 2 ^ 64 }
    ensures { OnOk result (lines.new ≡ lines.old ++ step_lines node number messages.now steps.now) }
{
    let mut next = number;
    let mut rest = messages;
    for counted in steps {
        let count = own_count(counted, rest);
        let (own, others) = rest.split_at(count);
        push_step(alloc, lines, node, next, own, counted.effects.as_slice())?;
        next += count;
        rest = others;
    }
    Ok(())
}
