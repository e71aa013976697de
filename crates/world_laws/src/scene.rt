//! The nodes of a world, the messages that they posted, and what happened to them.

ghost use Rattle.std.specs.Prelude.{◌≡◌, ◌≤◌, ◌<◌, IfOk, OnOk, Some, length, option_and_then, option_copied, slice_get, slice_set};
ghost use Rattle.at_model.specs.World.{Node as Known, new_nodes, node_of, nth, opening, example_hosts, example_base};
ghost use Rattle.std.specs.Prelude.{sum_by};
ghost use Rattle.world_laws.specs.Events.{event_of};
ghost use Rattle.world_laws.specs.Firsts.{node_records};
ghost use Rattle.world_laws.specs.Holdings.{node_held};
ghost use Rattle.world_laws.specs.Runs.{AreReady, IsReady};
ghost use Rattle.world_laws.specs.Moves.{after, counted_in, move_of, moved_by, moved_in, nodes_by, numbered, seen, steps_in, with_all, with_lost, with_nodes, with_taken};

use crate::event::WorldEvent;
use crate::holdings::all_held;
use crate::luck::Luck;
use crate::node::Node;
use crate::posts::{Counted, NodeEffect, Posted, Steps, posted_at};
use crate::step_outs::{Moved, Taken, TakenList};
use crate::step_posts::{push_effects, push_posts};
use at_base::outs::Effects;
use std::alloc::{AllocError, Global};
use std::marker::Model;

/// A world, but for its events.
pub struct Scene {
    nodes: Vec<Node>,
    posted: Vec<Posted>,
    happened: Vec<NodeEffect>,
}

impl Drop for Scene {
    fn drop(self) {
        let Scene {
            nodes: _nodes,
            posted: _posted,
            happened: _happened,
        } = self;
    }
}

impl Model for Scene {
    ghost use Rattle.world_laws.specs.Moves.{Scene as Seen};

    ghost Value = { Seen };

    ghost view = { λ s. record {
      nodes = s.nodes.items;
      posted = s.posted.items;
      happened = s.happened.items;
    } };
}

fn new_nodes(alloc: Global, count: u8) -> Result<Vec<Node>, AllocError>
    ensures { IfOk result (λ nodes. nodes.items ≡ new_nodes example_base count 1) }
{
    let mut nodes = Vec::new(alloc);
    let mut number = 0;
    while number < count {
        number += 1;
        let node = Node::new(alloc, number)?;
        nodes.push(node)?;
    }
    Ok(nodes)
}

/// What an event makes of the node at this place, and what its steps gave.
fn happen_in(
    alloc: Global,
    nodes: &mut Vec<Node>,
    place: usize,
    event: &WorldEvent,
    posted: &[Posted],
) -> Result<Moved, AllocError>
    requires place { place < length nodes.old.items }
    requires ready { (x : Known) → slice_get nodes.old.items place ≡ Some x → IsReady x }
    ensures nodes { (x : Known) → slice_get nodes.old.items place ≡ Some x
        → OnOk result (nodes.new.items ≡ slice_set nodes.old.items place (move_of (event_of event.now) posted.now x).node) }
    ensures moved { (x : Known) → slice_get nodes.old.items place ≡ Some x
        → IfOk result (λ m. m ≡ (move_of (event_of event.now) posted.now x).moved) }
{
    nodes[place].happen(alloc, event, posted)
}

/// What an event makes of the node of this number, where there is one, and what its steps gave.
fn happen_at(
    alloc: Global,
    nodes: &mut Vec<Node>,
    number: u8,
    event: &WorldEvent,
    posted: &[Posted],
) -> Result<Moved, AllocError>
    requires number { number ≡ node_of (event_of event.now) }
    requires ready { AreReady nodes.old.items }
    ensures nodes { OnOk result
        (nodes.new.items ≡ nodes_by (event_of event.now) posted.now nodes.old.items (nth number nodes.old.items)) }
    ensures moved { IfOk result
        (λ m. m ≡ moved_by (event_of event.now) posted.now (nth number nodes.old.items)) }
{
    if number == 0 || nodes.as_slice().len() < number as usize {
        return Ok(Moved::nothing(alloc));
    }
    happen_in(alloc, nodes, number as usize - 1, event, posted)
}

/// Whether the first step of an event at the node at this place has a record.
fn records_in(
    alloc: Global,
    nodes: &[Node],
    place: usize,
    event: &WorldEvent,
    posted: &[Posted],
) -> Result<Option<bool>, AllocError>
    requires place { place < length nodes.now }
    requires ready { (x : Known) → slice_get nodes.now place ≡ Some x → IsReady x }
    ensures { (x : Known) → slice_get nodes.now place ≡ Some x
        → IfOk result (λ r. r ≡ node_records (event_of event.now) posted.now x) }
{
    nodes[place].records(alloc, event, posted)
}

/// Whether the first step of an event at the node of this number has a record; none where there is no such node.
fn records_at(
    alloc: Global,
    nodes: &[Node],
    number: u8,
    event: &WorldEvent,
    posted: &[Posted],
) -> Result<Option<bool>, AllocError>
    requires { AreReady nodes.now }
    ensures { IfOk result
        (λ r. r ≡ option_and_then (node_records (event_of event.now) posted.now) (nth number nodes.now)) }
{
    if number == 0 || nodes.len() < number as usize {
        return Ok(None);
    }
    records_in(alloc, nodes, number as usize - 1, event, posted)
}

/// What an event gave.
#[derive(Debug, Drop)]
pub struct Happening {
    /// What each step that counted gave.
    pub steps: Steps,
    /// What going down lost.
    pub lost: Effects,
    /// What the event left of its luck.
    pub left: Luck,
}

impl Scene {
    /// The opening world of so many nodes.
    pub fn new(alloc: Global, count: u8) -> Result<Scene, AllocError>
        ensures { IfOk result (λ scene. scene ≡ seen (opening (example_hosts count))) }
    {
        Ok(Scene {
            nodes: new_nodes(alloc, count)?,
            posted: Vec::new(alloc),
            happened: Vec::new(alloc),
        })
    }

    /// The node of this number, from 1.
    pub fn node(&self, number: u8) -> Option<&Node>
        ensures { option_copied result ≡ nth number self.now.nodes }
    {
        if number == 0 {
            return None;
        }
        self.nodes.get(number as usize - 1)
    }

    /// The message of this number, from 1.
    pub fn posted(&self, number: u64) -> Option<&Posted>
        ensures { option_copied result ≡ nth number self.now.posted }
    {
        posted_at(self.posted.as_slice(), number)
    }

    /// The messages that were posted, in order.
    pub fn all_posted(&self) -> &[Posted]
        ensures { result.now ≡ self.now.posted }
    {
        self.posted.as_slice()
    }

    /// How many messages were posted.
    pub fn messages(&self) -> usize
        ensures { result ≡ length self.now.posted }
    {
        self.posted.len()
    }

    /// The effects on the nodes, in order.
    pub fn effects(&self) -> &[NodeEffect]
        ensures { result.now ≡ self.now.happened }
    {
        self.happened.as_slice()
    }

    /// What an event makes of the nodes, and what its steps gave.
    fn happen(&mut self, alloc: Global, event: &WorldEvent) -> Result<Moved, AllocError>
        requires { AreReady self.old.nodes }
        ensures scene { OnOk result (self.new ≡ with_nodes self.old (event_of event.now)) }
        ensures moved { IfOk result
            (λ m. m ≡ moved_by (event_of event.now) self.old.posted (nth (node_of (event_of event.now)) self.old.nodes)) }
    {
        happen_at(
            alloc,
            &mut self.nodes,
            event.node(),
            event,
            self.posted.as_slice(),
        )
    }

    /// Keeps what a step gave: its posts move into the world.
    fn keep(&mut self, number: u8, taken: Taken) -> Result<Counted, AllocError>
        requires { length self.old.nodes ≤ 8 }
        ensures scene { OnOk result (self.new ≡ with_taken number taken self.old) }
        ensures counted { IfOk result (λ c. c ≡ counted_in (length self.old.posted) taken) }
    {
        let first = self.posted.len() + 1;
        let (effects, answer, posts) = taken.into_parts();
        let count = posts.len();
        push_effects(&mut self.happened, number, effects.as_slice())?;
        push_posts(self.nodes.as_slice(), &mut self.posted, number, posts)?;
        Ok(Counted {
            effects,
            answer,
            first,
            posts: count,
        })
    }

    /// Keeps what steps gave.
    fn keep_all(&mut self, alloc: Global, number: u8, taken: TakenList) -> Result<Steps, AllocError>
        requires { length self.old.nodes ≤ 8 }
        ensures scene { OnOk result (self.new ≡ with_all number taken self.old) }
        ensures steps { IfOk result (λ steps. steps ≡ numbered (length self.old.posted) taken) }
    {
        let mut steps = Steps::new(alloc);
        for one in taken.into_vec() {
            let counted = self.keep(number, one)?;
            steps.push(counted)?;
        }
        Ok(steps)
    }

    /// Keeps what going down lost.
    fn keep_lost(&mut self, number: u8, lost: &Effects) -> Result<(), AllocError>
        ensures { OnOk result (self.new ≡ with_lost number lost.now self.old) }
    {
        push_effects(&mut self.happened, number, lost.as_slice())
    }

    /// What the books of its nodes hold.
    pub fn held(&self) -> u128
        ensures { result ≡ sum_by node_held self.now.nodes }
    {
        all_held(self.nodes.as_slice())
    }

    /// Whether the first step of an event has a record; none where it takes no step.
    pub fn records(&self, alloc: Global, event: &WorldEvent) -> Result<Option<bool>, AllocError>
        requires { AreReady self.now.nodes }
        ensures { IfOk result
            (λ r. r ≡ option_and_then (node_records (event_of event.now) self.now.posted) (nth (node_of (event_of event.now)) self.now.nodes)) }
    {
        records_at(
            alloc,
            self.nodes.as_slice(),
            event.node(),
            event,
            self.posted.as_slice(),
        )
    }

    /// What an event makes of it, and what the event gave.
    pub fn step(&mut self, alloc: Global, event: &WorldEvent) -> Result<Happening, AllocError>
        requires ready { AreReady self.old.nodes }
        requires few { length self.old.nodes ≤ 8 }
        ensures scene { OnOk result (self.new ≡ after self.old (event_of event.now)) }
        ensures steps { IfOk result (λ h. h.steps ≡ steps_in self.old (event_of event.now)) }
        ensures lost { IfOk result (λ h. h.lost ≡ (moved_in self.old (event_of event.now)).lost) }
        ensures left { IfOk result (λ h. h.left ≡ (moved_in self.old (event_of event.now)).left) }
    {
        let (taken, lost, left) = self.happen(alloc, event)?.into_parts();
        let steps = self.keep_all(alloc, event.node(), taken)?;
        self.keep_lost(event.node(), &lost)?;
        Ok(Happening { steps, lost, left })
    }
}
