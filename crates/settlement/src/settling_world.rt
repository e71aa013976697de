//! A world on its way to rest.

ghost use Rattle.std.specs.Prelude.{ℕ, ◌≡◌, ◌≤◌, ◌<◌, ◌+◌, ◌++◌, ◌∷◌, [], IfErr, IfOk, IfSome, OnOk, Some, None, length, map, drop};
ghost use Rattle.at_base.specs.declared.limits.TheConstants.{RESEND_AFTER};
ghost use Rattle.at_model.specs.World.{Deliver, Tick, Turn, Up, world_step};
ghost use Rattle.model_laws.specs.Settlement.{Settling as Moving, all_also, all_up, also, first_received, settle_rounds, ticks, up_if, ups};
ghost use Rattle.settlement.specs.Holdings.{held_up};
ghost use Rattle.settlement.specs.declared.run_error.RunError.TheVariants.{TooManyEvents};
ghost use Rattle.settling.specs.Drains.{Delivers, IsDrained};
ghost use Rattle.world_laws.specs.Events.{event_of, input_of};
ghost use Rattle.world_laws.specs.Runs.{book_at, world_of};

use crate::run_error::RunError;
use at_base::limits::RESEND_AFTER;
use std::alloc::{AllocError, Global};
use std::marker::Model;
use world_laws::event::{Fates, Input, WorldEvent};
use world_laws::posts::Posted;
use world_laws::world::{Stepped, World, run_world};

/// A world takes no more events.
const MOST: usize = 4_294_967_295;

/// How often each node ticks.
const ROUNDS: u8 = 8;

/// A world, the events that brought it so far, and how many it had before.
#[derive(Drop)]
pub struct Settling {
    past: usize,
    world: World,
    events: Vec<WorldEvent>,
}

impl Model for Settling {
    ghost use Rattle.std.specs.Prelude.{map, length, ◌+◌, ◌≡◌};
    ghost use Rattle.settlement.specs.Ways.{Way};
    ghost use Rattle.world_laws.specs.Events.{event_of};
    ghost use Rattle.world_laws.specs.Runs.{world_of};

    ghost Value = { Way };

    ghost view = { λ s. record { past = s.past; settling = record { world = world_of s.world; events = map event_of s.events.items } } };

    ghost invariant = { λ s. s.past + length s.events.items ≡ length s.world.events };
}

fn turn(alloc: Global, node: u8, input: Input) -> WorldEvent
    ensures { event_of result ≡ Turn node (input_of input) [] None }
{
    WorldEvent::Turn {
        node,
        input,
        fates: Fates::from_vec(Vec::new(alloc)),
        until: None,
    }
}

fn tick(alloc: Global, node: u8) -> WorldEvent
    ensures { event_of result ≡ Turn node (Tick RESEND_AFTER) [] None }
{
    turn(alloc, node, Input::Tick(RESEND_AFTER))
}

fn deliver(alloc: Global, number: u64, node: u8) -> WorldEvent
    ensures { event_of result ≡ Turn node (Deliver number) [] None }
{
    turn(alloc, node, Input::Deliver(number))
}

#[tactic(auto, using(crate::proofs::Events::one_behind))]
fn keep(events: &mut Vec<WorldEvent>, event: WorldEvent) -> Result<(), AllocError>
    ensures kept { OnOk result (map event_of events.new.items ≡ map event_of events.old.items ++ event_of event ∷ []) }
    ensures longer { OnOk result (length events.new.items ≡ length events.old.items + 1) }
{
    events.push(event)?;
    Ok(())
}

/// Up, where the node is down.
#[tactic(auto, using(crate::proofs::Events::none_behind))]
fn keep_up(events: &mut Vec<WorldEvent>, world: &World, node: u8) -> Result<(), AllocError>
    ensures { OnOk result (map event_of events.new.items ≡ map event_of events.old.items ++ up_if node (book_at (world_of world.now) node)) }
{
    match world.book(node) {
        Some(_) => Ok(()),
        None => keep(
            events,
            WorldEvent::Up {
                node,
                landed: true,
                stop: false,
            },
        ),
    }
}

/// Up for each node that is down.
fn ups(alloc: Global, world: &World) -> Result<Vec<WorldEvent>, AllocError>
    ensures { IfOk result (λ events. map event_of events.items ≡ ups 1 (world_of world.now).nodes) }
{
    let mut events = Vec::new(alloc);
    for place in 0..world.count() {
        keep_up(&mut events, world, place + 1)?;
    }
    Ok(events)
}

/// A tick of each node.
fn ticks(alloc: Global, world: &World) -> Result<Vec<WorldEvent>, AllocError>
    ensures { IfOk result (λ events. map event_of events.items ≡ ticks 1 (world_of world.now).nodes) }
{
    let mut events = Vec::new(alloc);
    for place in 0..world.count() {
        keep(&mut events, tick(alloc, place + 1))?;
    }
    Ok(events)
}

/// The number of the first message behind so many that has a receiver, and its receiver.
fn next_in(posted: &[Posted], passed: usize) -> Option<(u64, u8)>
    ensures next { result ≡ first_received (passed + 1) (drop passed posted.now) }
    ensures behind { IfSome result (λ p. (passed < p.0) × (p.0 ≤ length posted.now)) }
{
    for place in passed..posted.len() {
        let message = &posted[place];
        if let Some(node) = message.receiver {
            return Some((place as u64 + 1, node));
        }
    }
    None
}

#[tactic(auto, using(crate::proofs::Events::one_longer))]
fn stepped(world: World, alloc: Global, event: WorldEvent) -> Result<World, RunError>
    ensures world { IfOk result (λ w. world_of w ≡ world_step (world_of world) (event_of event)) }
    ensures count { IfOk result (λ w. w.count ≡ world.count) }
    ensures longer { IfOk result (λ w. length w.events ≡ length world.events + 1) }
    ensures few { IfOk result (λ w. length world.events < 4294967295) }
    ensures many { IfErr result (λ e. e ≡ TooManyEvents → 4294967295 ≤ length world.events) }
{
    if world.events().len() >= MOST {
        return Err(RunError::TooManyEvents);
    }
    let Stepped {
        world,
        steps: _steps,
        lost: _lost,
        left: _left,
    } = world.step(alloc, event)?;
    Ok(world)
}

impl Settling {
    /// The world on its own, from its events.
    fn begin(alloc: Global, world: &World) -> Result<Settling, AllocError>
        ensures { IfOk result (λ s. s ≡ record { past = length world.now.events; settling = record { world = world_of world.now; events = [] } }) }
    {
        Ok(Settling {
            past: world.events().len(),
            world: run_world(alloc, world.count(), world.events())?,
            events: Vec::new(alloc),
        })
    }

    #[tactic(auto, using(crate::proofs::Events::all_counted, crate::proofs::Events::one_way))]
    fn also(self, alloc: Global, event: WorldEvent) -> Result<Settling, RunError>
        ensures is { IfOk result (λ s. s ≡ record { past = self.past; settling = also (event_of event) self.settling }) }
        ensures few { IfOk result (λ s. length self.settling.events < 4294967295) }
        ensures many { IfErr result (λ e. e ≡ TooManyEvents → 4294967295 ≤ self.past + length self.settling.events) }
    {
        let Settling {
            past,
            world,
            mut events,
        } = self;
        let copy = event.clone()?;
        let world = stepped(world, alloc, event)?;
        keep(&mut events, copy)?;
        Ok(Settling {
            past,
            world,
            events,
        })
    }

    fn all_also(self, alloc: Global, all: &[WorldEvent]) -> Result<Settling, RunError>
        ensures is { IfOk result (λ s. s ≡ record { past = self.past; settling = all_also (map event_of all.now) self.settling }) }
        ensures many { IfErr result (λ e. e ≡ TooManyEvents → 4294967295 < self.past + length (all_also (map event_of all.now) self.settling).events) }
    {
        let mut settling = self;
        for event in all {
            settling = settling.also(alloc, event.clone()?)?;
        }
        Ok(settling)
    }

    /// Each node that is down comes up.
    fn all_up(self, alloc: Global) -> Result<Settling, RunError>
        ensures is { IfOk result (λ s. s ≡ record { past = self.past; settling = all_also (ups 1 self.settling.world.nodes) self.settling }) }
        ensures many { IfErr result (λ e. e ≡ TooManyEvents → 4294967295 < self.past + length (all_also (ups 1 self.settling.world.nodes) self.settling).events) }
    {
        let events = ups(alloc, &self.world)?;
        self.all_also(alloc, events.as_slice())
    }

    fn next(&self, passed: usize) -> Option<(u64, u8)>
        ensures { result ≡ first_received (passed + 1) (drop passed self.now.settling.world.posted) }
    {
        next_in(self.world.all_posted(), passed)
    }

    /// Messages are delivered, behind so many that are passed by, until none is left that has a receiver.
    fn deliver_all(self, alloc: Global, passed: usize) -> Result<Settling, RunError>
        ensures is { IfOk result (λ s. Delivers s.settling passed self.settling) }
        ensures past { IfOk result (λ s. s.past ≡ self.past) }
        ensures many { (last : Moving) → Delivers last passed self.settling → IfErr result (λ e. e ≡ TooManyEvents → 4294967295 < self.past + length last.events) }
    {
        let mut settling = self;
        let mut behind = passed;
        loop {
            match settling.next(behind) {
                Some((number, node)) => {
                    settling = settling.also(alloc, deliver(alloc, number, node))?;
                    behind = number as usize;
                }
                None => return Ok(settling),
            }
        }
    }

    /// Each node ticks, and what they post is delivered, and what is posted then.
    fn round(self, alloc: Global) -> Result<Settling, RunError>
        ensures is { IfOk result (λ s. Delivers s.settling (length self.settling.world.posted) (all_also (ticks 1 self.settling.world.nodes) self.settling)) }
        ensures past { IfOk result (λ s. s.past ≡ self.past) }
        ensures many { (last : Moving) → Delivers last (length self.settling.world.posted) (all_also (ticks 1 self.settling.world.nodes) self.settling) → IfErr result (λ e. e ≡ TooManyEvents → 4294967295 < self.past + length last.events) }
    {
        let passed = self.world.messages();
        let events = ticks(alloc, &self.world)?;
        let ticked = self.all_also(alloc, events.as_slice())?;
        ticked.deliver_all(alloc, passed)
    }

    /// Eight rounds.
    #[tactic(auto, using(crate::proofs::Rounds::no_round, crate::proofs::Rounds::round_more))]
    fn rounds(self, alloc: Global) -> Result<Settling, RunError>
        ensures is { (most : ℕ) → ((n : ℕ) → n < 8 → IsDrained most (settle_rounds n most self.settling)) → IfOk result (λ s. s.settling ≡ settle_rounds 8 most self.settling) }
        ensures many { (most : ℕ) → ((n : ℕ) → n < 8 → IsDrained most (settle_rounds n most self.settling)) → IfErr result (λ e. e ≡ TooManyEvents → 4294967295 < self.past + length (settle_rounds 8 most self.settling).events) }
    {
        let mut settling = self;
        for _round in 0..ROUNDS {
            settling = settling.round(alloc)?;
        }
        Ok(settling)
    }
}

/// The events behind which all are up and eight rounds have drained.
pub fn settled(alloc: Global, world: &World) -> Result<Vec<WorldEvent>, RunError>
    ensures is { (most : ℕ) → ((n : ℕ) → n < 8 → IsDrained most (settle_rounds n most (all_up (world_of world.now)))) → IfOk result (λ events. map event_of events.items ≡ (settle_rounds 8 most (all_up (world_of world.now))).events) }
    ensures many { (most : ℕ) → ((n : ℕ) → n < 8 → IsDrained most (settle_rounds n most (all_up (world_of world.now)))) → IfErr result (λ e. e ≡ TooManyEvents → 4294967295 < length world.now.events + length (settle_rounds 8 most (all_up (world_of world.now))).events) }
{
    let begun = Settling::begin(alloc, world)?;
    let risen = begun.all_up(alloc)?;
    let settled = risen.rounds(alloc)?;
    Ok(settled.events)
}

/// What the nodes hold once all are up.
pub fn held_up(alloc: Global, world: &World) -> Result<u128, RunError>
    ensures held { IfOk result (λ held. held ≡ held_up (world_of world.now)) }
    ensures many { IfErr result (λ e. e ≡ TooManyEvents → 4294967295 < length world.now.events + length (all_up (world_of world.now)).events) }
{
    let begun = Settling::begin(alloc, world)?;
    let risen = begun.all_up(alloc)?;
    Ok(risen.world.held())
}
