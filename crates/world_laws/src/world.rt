//! A world of nodes, and its runs.

ghost use Rattle.std.specs.List.{AllByRecursion};
ghost use Rattle.std.specs.Prelude.{ℕ, ◌≡◌, ◌<◌, ◌≤◌, ◌++◌, ◌∷◌, [], IfOk, map, length, option_map, option_copied};
ghost use Rattle.model_laws.specs.Agreement.{Agrees, HasOneSuperior, IsAgreed, IsBehindAnswers, IsToldTruly};
ghost use Rattle.model_laws.specs.DrawnIds.{AreApart};
ghost use Rattle.model_laws.specs.Registrations.{EnlistsUnderOne};
ghost use Rattle.model_laws.specs.MadeIds.{MakesNoIdTwice, made_on};
ghost use Rattle.model_laws.specs.ReachedWorlds.{ExamplesAreApart};
ghost use Rattle.model_laws.specs.Settlement.{IsSettling, MayStart, Settles};
ghost use Rattle.at_model.specs.World.{nth, opening, run_of, world_step, example_hosts};
ghost use Rattle.completion_at.specs.Names.{refusal_of};
ghost use Rattle.std.specs.Prelude.{◌-◌, ◌^◌};
ghost use Rattle.model_laws.specs.Settlement.{waiting};
ghost use Rattle.world_laws.specs.Events.{event_of};
ghost use Rattle.world_laws.specs.Firsts.{first_records};
ghost use Rattle.world_laws.specs.Holdings.{NodeHoldsFew, world_held};
ghost use Rattle.world_laws.specs.Moves.{left_of, losses_of, steps_of};
ghost use Rattle.world_laws.specs.Runs.{book_at, clock_at, incarnation_at, journal_at, refused_at, world_of};

use crate::event::WorldEvent;
use crate::laws::changes_by_moves;
use crate::luck::Luck;
use crate::posts::{NodeEffect, Posted, Steps};
use crate::scene::{Happening, Scene};
use at_base::event::Local;
use at_base::outs::Effects;
use at_base::record::Record;
use completion_at::requests::Refusal;
use interposition::book::Book;
use model_laws::rules::{enlists_under_one, examples_are_apart, ids_rise, makes_no_id_twice};
use outcomes::laws::agrees;
use settled::laws::settles;
use std::alloc::{AllocError, Global};
use std::marker::Model;

/// Several nodes, the messages between them, and what happened to them.
pub struct World {
    count: u8,
    scene: Scene,
    events: Vec<WorldEvent>,
}

impl Drop for World {
    fn drop(self) {
        let World {
            count: _count,
            scene: _scene,
            events: _events,
        } = self;
    }
}

impl Model for World {
    ghost use Rattle.world_laws.specs.Runs.{Run, IsRun};

    ghost Value = { Run };

    ghost view = { λ w. record { count = w.count; events = w.events.items } };

    ghost invariant = { λ w. IsRun w.count w.scene w.events.items };
}

/// A world behind an event, and what the event gave.
#[derive(Drop)]
pub struct Stepped {
    pub world: World,
    /// What each step that counted gave, in order.
    pub steps: Steps,
    /// And then what going down lost.
    pub lost: Effects,
    /// What the event left of its fates, and how many of them stand before its stop.
    pub left: Luck,
}

impl World {
    /// The opening world of 1 to 8 nodes: each is down, with an empty journal, and its clock shows 0.
    pub fn new(alloc: Global, nodes: u8) -> Result<World, AllocError>
        requires { (1 ≤ nodes) × (nodes ≤ 8) }
        ensures { IfOk result (λ world. world ≡ record { count = nodes; events = [] }) }
    {
        Ok(World {
            count: nodes,
            scene: Scene::new(alloc, nodes)?,
            events: Vec::new(alloc),
        })
    }

    /// The world behind an event, and what the event gave.
    pub fn step(self, alloc: Global, event: WorldEvent) -> Result<Stepped, AllocError>
        requires { length self.events < 4294967295 }
        ensures run { IfOk result
            (λ s. s.world ≡ record { count = self.count; events = self.events ++ event ∷ [] }) }
        ensures world { IfOk result (λ s. world_of s.world ≡ world_step (world_of self) (event_of event)) }
        ensures steps { IfOk result (λ s. s.steps ≡ steps_of (world_of self) (event_of event)) }
        ensures lost { IfOk result (λ s. s.lost ≡ losses_of (world_of self) (event_of event)) }
        ensures left { IfOk result (λ s. s.left ≡ left_of (world_of self) (event_of event)) }
    {
        ids_rise();
        changes_by_moves();
        let World {
            count,
            mut scene,
            mut events,
        } = self;
        let _ms = event.ms();
        let Happening { steps, lost, left } = scene.step(alloc, &event)?;
        events.push(event)?;
        Ok(Stepped {
            world: World {
                count,
                scene,
                events,
            },
            steps,
            lost,
            left,
        })
    }

    /// Whether the first step of an event has a record; none where it takes no step.
    pub fn records(&self, alloc: Global, event: &WorldEvent) -> Result<Option<bool>, AllocError>
        requires { length self.now.events < 4294967295 }
        ensures { IfOk result (λ r. r ≡ first_records (world_of self.now) (event_of event.now)) }
    {
        self.scene.records(alloc, event)
    }

    /// How many nodes there are.
    pub fn count(&self) -> u8
        ensures value { result ≡ self.now.count }
        ensures nodes { (1 ≤ result) × (result ≤ 8) }
    {
        self.count
    }

    /// What happened to the world, in order.
    pub fn events(&self) -> &[WorldEvent]
        ensures value { result.now ≡ self.now.events }
        ensures few { length result.now ≤ 4294967295 }
    {
        self.events.as_slice()
    }

    /// How many messages were posted.
    pub fn messages(&self) -> usize
        ensures { result ≡ length (world_of self.now).posted }
    {
        self.scene.messages()
    }

    /// The messages that were posted, in order.
    pub fn all_posted(&self) -> &[Posted]
        ensures { result.now ≡ (world_of self.now).posted }
    {
        self.scene.all_posted()
    }

    /// The message of this number, from 1.
    pub fn posted(&self, number: u64) -> Option<&Posted>
        ensures { option_copied result ≡ nth number (world_of self.now).posted }
    {
        self.scene.posted(number)
    }

    /// The effects on the nodes, in order.
    pub fn effects(&self) -> &[NodeEffect]
        ensures { result.now ≡ (world_of self.now).happened }
    {
        self.scene.effects()
    }

    /// The clock of a node, in milliseconds.
    pub fn clock(&self, node: u8) -> Option<u64>
        ensures { result ≡ clock_at (world_of self.now) node }
    {
        Some(self.scene.node(node)?.clock())
    }

    /// The book of a node that is up.
    pub fn book(&self, node: u8) -> Option<&Book>
        ensures { option_copied result ≡ book_at (world_of self.now) node }
    {
        self.scene.node(node)?.book()
    }

    /// The records of a node's journal, in order; none where there is no such node.
    pub fn journal(&self, node: u8) -> &[Record]
        ensures { result.now ≡ journal_at (world_of self.now) node }
    {
        match self.scene.node(node) {
            Some(found) => found.journal(),
            None => &[],
        }
    }

    /// The incarnation of a node that is up.
    pub fn incarnation(&self, node: u8) -> Option<u32>
        ensures { result ≡ incarnation_at (world_of self.now) node }
    {
        self.scene.node(node)?.incarnation()
    }

    /// How many seats, completion seats, links (two of each subordinate), leaves and activities the nodes that are up hold:
    /// the sum of what their books hold (`Book::held`).
    ///
    /// It is all that waits in the world, where it is below the greatest number of 64 bits (`small`), or where each book holds
    /// few (`few`). It takes no memory.
    #[tactic(auto, using(crate::proofs::HoldingLaws::counts_all, crate::proofs::HoldingLaws::counts_few))]
    pub fn held(&self) -> u128
        ensures sum { result ≡ world_held (world_of self.now) }
        ensures small { result < 2 ^ 64 - 1 → result ≡ waiting (world_of self.now) }
        ensures few { AllByRecursion NodeHoldsFew (world_of self.now).nodes → result ≡ waiting (world_of self.now) }
    {
        self.scene.held()
    }

    /// Why a node that is up refuses a request: the first cause that holds.
    pub fn refuses(&self, node: u8, local: &Local) -> Option<Refusal>
        ensures { option_map refusal_of result ≡ refused_at (world_of self.now) node local.now }
    {
        self.scene.node(node)?.refuses(local)
    }
}

fn ran(alloc: Global, nodes: u8, events: &[WorldEvent]) -> Result<World, AllocError>
    requires nodes { (1 ≤ nodes) × (nodes ≤ 8) }
    requires few { length events.now ≤ 4294967295 }
    ensures run { IfOk result (λ world. world ≡ record { count = nodes; events = events.now }) }
    ensures world { IfOk result (λ world. world_of world ≡ run_of (example_hosts nodes) (map event_of events.now)) }
{
    let mut world = World::new(alloc, nodes)?;
    for event in events {
        let Stepped {
            world: next,
            steps: _steps,
            lost: _lost,
            left: _left,
        } = world.step(alloc, event.clone()?)?;
        world = next;
    }
    Ok(world)
}

/// What holds in every run: no node makes an id twice, all registrations of one item are with one transaction, the nodes' addresses are
/// apart, agreement, and settling.
fn laws()
    ensures ids { MakesNoIdTwice }
    ensures superior { EnlistsUnderOne }
    ensures apart { ExamplesAreApart }
    ensures agreement { Agrees }
    ensures settling { Settles }
{
    makes_no_id_twice();
    enlists_under_one();
    examples_are_apart();
    agrees();
    settles();
}

/// The world of a run of events, whatever fails in it: calls of a site, a node that stops in the middle of a turn or goes
/// down, a record that doesn't land, a message that is delivered late, again or never.
///
/// In it no two participants of one transaction ended differently, through any depth of interposition, and nothing ended twice
/// (`agreed`); a root committed, and a subordinate voted, only where everybody that it ever accepted had answered (`behind`);
/// an activity was told what its root did (`told`); all registrations of one item were accepted by one transaction
/// (`superior`); and no node made an id twice (`ids`; WS-AtomicTransaction 1.2, sections 1 and 3).
pub fn run_world(alloc: Global, nodes: u8, events: &[WorldEvent]) -> Result<World, AllocError>
    requires nodes { (1 ≤ nodes) × (nodes ≤ 8) }
    requires few { length events.now ≤ 4294967295 }
    ensures run { IfOk result (λ world. world ≡ record { count = nodes; events = events.now }) }
    ensures world { IfOk result (λ world. world_of world ≡ run_of (example_hosts nodes) (map event_of events.now)) }
    ensures ids { (n : ℕ) → AreApart (made_on n (opening (example_hosts nodes)) (map event_of events.now)) }
    ensures superior { IfOk result (λ world. HasOneSuperior (world_of world)) }
    ensures agreed { IfOk result (λ world. IsAgreed (world_of world)) }
    ensures behind { IfOk result (λ world. IsBehindAnswers (world_of world)) }
    ensures told { IfOk result (λ world. IsToldTruly (world_of world)) }
    ensures settles { IfOk result (λ world. AllByRecursion MayStart (world_of world).nodes → IsSettling (world_of world)) }
{
    laws();
    let world = ran(alloc, nodes, events)?;
    Ok(world)
}
