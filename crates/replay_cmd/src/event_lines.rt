//! What is printed of an event.

ghost use Rattle.std.specs.Prelude.{◌≡◌, ◌<◌, ◌+◌, ◌^◌, ◌++◌, OnOk, drop};
ghost use Rattle.replay_cmd.specs.ReportOf.{behind_of, effect_lines, line_before, line_behind, request_result, start_result, step_lines};
ghost use Rattle.world_laws.specs.Events.{event_of};
ghost use Rattle.world_laws.specs.Runs.{book_at, world_of};

use crate::lines::{Lines, Started};
use crate::steps::{outcome_of, push_effects, push_steps, started_by, status_in};
use armed_calls::fault::Fault;
use at_base::event::Local;
use at_base::outs::Effects;
use effect_words::refusal_word;
use std::alloc::{AllocError, Global};
use world_laws::event::{Input, WorldEvent};
use world_laws::posts::Steps;
use world_laws::world::{Stepped, World};

/// Adds the lines of an event's steps, before which the world had so many messages, and of what going down lost.
fn push_behind(
    alloc: Global,
    lines: &mut Lines,
    node: u8,
    before: usize,
    world: &World,
    steps: &Steps,
    lost: &Effects,
) -> Result<(), AllocError>
    requires { before < 2 ^ 63 }
    ensures { OnOk result
        (lines.new ≡ lines.old ++ (step_lines node (before + 1) (drop before (world_of world.now).posted) steps.now ++ effect_lines node lost.now)) }
{
    let messages = match world.all_posted().get(before..) {
        Some(messages) => messages,
        None => &[],
    };
    push_steps(alloc, lines, node, before + 1, messages, steps.as_slice())?;
    push_effects(alloc, lines, node, lost.as_slice())
}

/// What became of a node that was to come up.
fn push_start(
    alloc: Global,
    lines: &mut Lines,
    node: u8,
    started: Started,
    before: Option<u32>,
) -> Result<(), AllocError>
    ensures { OnOk result (lines.new ≡ lines.old ++ start_result started node before) }
{
    match before {
        Some(_) => lines.push_up_already(alloc, node),
        None => lines.push_up(alloc, node, started),
    }
}

/// Why a node doesn't take a request, on a line.
fn push_refusal(
    alloc: Global,
    lines: &mut Lines,
    world: &World,
    node: u8,
    local: &Local,
) -> Result<(), AllocError>
    ensures { OnOk result (lines.new ≡ lines.old ++ request_result local.now (book_at (world_of world.now) node)) }
{
    if world.incarnation(node).is_none() {
        return lines.push_refused(alloc, "down");
    }
    match world.refuses(node, local) {
        Some(refusal) => lines.push_refused(alloc, refusal_word(refusal)),
        None => Ok(()),
    }
}

/// What the world shows of an event's result before it happens.
pub fn push_before(
    alloc: Global,
    lines: &mut Lines,
    world: &World,
    event: &WorldEvent,
) -> Result<(), AllocError>
    ensures { OnOk result (lines.new ≡ lines.old ++ line_before (event_of event.now) (world_of world.now)) }
{
    match event {
        WorldEvent::Ask { node, local, .. } => push_refusal(alloc, lines, world, *node, local),
        WorldEvent::Crash { node } => lines.push_down(alloc, *node, world.incarnation(*node)),
        WorldEvent::Turn { .. } | WorldEvent::Up { .. } => Ok(()),
    }
}

/// What of an event's result is seen once it has happened.
#[derive(Clone, Copy, Debug)]
pub enum Behind {
    /// The node came up; it was up in this incarnation before, or down. Whether a fault came in it.
    Up { was: Option<u32>, cut: bool },
    /// The time that a node's clock shows, and how its turn came out.
    Tick { was: Option<u32> },
    /// How the turn of this message came out.
    Deliver { number: u64, was: Option<u32> },
    /// How the turn of raw bytes came out.
    Inject { was: Option<u32> },
    /// Nothing.
    Nothing,
}

/// What of an event's result is seen once it has happened.
pub fn behind_of(world: &World, event: &WorldEvent) -> Behind
    ensures { result ≡ behind_of (world_of world.now) (event_of event.now) }
{
    match event {
        WorldEvent::Up { node, stop, .. } => Behind::Up {
            was: world.incarnation(*node),
            cut: *stop,
        },
        WorldEvent::Turn {
            node,
            input: Input::Tick(_),
            ..
        } => Behind::Tick {
            was: world.incarnation(*node),
        },
        WorldEvent::Turn {
            node,
            input: Input::Deliver(number),
            ..
        } => Behind::Deliver {
            number: *number,
            was: world.incarnation(*node),
        },
        WorldEvent::Turn {
            node,
            input: Input::Raw,
            ..
        } => Behind::Inject {
            was: world.incarnation(*node),
        },
        WorldEvent::Ask { .. } | WorldEvent::Crash { .. } => Behind::Nothing,
    }
}

/// What the world shows of an event's result behind it.
fn push_result(
    alloc: Global,
    lines: &mut Lines,
    node: u8,
    fault: Option<Fault>,
    drawn: u16,
    behind: Behind,
    world: &World,
    steps: &Steps,
) -> Result<(), AllocError>
    ensures { OnOk result (lines.new ≡ lines.old ++ line_behind fault drawn node behind (world_of world.now) steps.now) }
{
    let is = world.incarnation(node);
    let status = status_in(steps.as_slice());
    match behind {
        Behind::Up { was, cut } => {
            push_start(alloc, lines, node, started_by(fault, cut, is), was)
        }
        Behind::Tick { was } => {
            let clock = world.clock(node).unwrap_or(0);
            lines.push_tick(alloc, node, clock, outcome_of(fault, was, is, status))
        }
        Behind::Deliver { number, was } => {
            lines.push_deliver(alloc, number, node, outcome_of(fault, was, is, status))
        }
        Behind::Inject { was } => {
            lines.push_inject(alloc, node, outcome_of(fault, was, is, drawn))
        }
        Behind::Nothing => Ok(()),
    }
}

/// Adds what is printed of an event, from behind what the world showed before it.
pub fn push_event(
    alloc: Global,
    lines: &mut Lines,
    node: u8,
    fault: Option<Fault>,
    drawn: u16,
    behind: Behind,
    before: usize,
    stepped: &Stepped,
) -> Result<(), AllocError>
    requires { before < 2 ^ 63 }
    ensures { OnOk result
        (lines.new ≡ lines.old ++ (line_behind fault drawn node behind (world_of stepped.now.world) stepped.now.steps
        ++ (step_lines node (before + 1) (drop before (world_of stepped.now.world).posted) stepped.now.steps ++ effect_lines node stepped.now.lost))) }
{
    push_result(
        alloc,
        lines,
        node,
        fault,
        drawn,
        behind,
        &stepped.world,
        &stepped.steps,
    )?;
    push_behind(
        alloc,
        lines,
        node,
        before,
        &stepped.world,
        &stepped.steps,
        &stepped.lost,
    )
}
