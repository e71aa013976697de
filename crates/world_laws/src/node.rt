//! A node of a world: its book where it is up, the records of its journal, and its clock.

ghost use Rattle.std.specs.Prelude.{List, ◌≡◌, ◌≤◌, [], IfOk, OnOk, None, map, option_map, option_copied, option_and_then};
ghost use Rattle.at_base.specs.declared.event.Event.TheVariants as events;
ghost use Rattle.at_model.specs.Step.{plan, refuses};
ghost use Rattle.at_model.specs.World.{answer_plan, arrival_plan, new_node, started, up_after, example_base};
ghost use Rattle.completion_at.specs.Names.{refusal_of};
ghost use Rattle.world_laws.specs.Events.{event_of, input_of};
ghost use Rattle.world_laws.specs.Firsts.{delivery_plan, has_record, input_plan, node_records};
ghost use Rattle.world_laws.specs.Moves.{arrival_move, crash_move, delivery_move, ended, input_move, move_of, raw_move, request_move, start_move, tick_move};
ghost use Rattle.world_laws.specs.Runs.{IsReady, incarnation_of};
ghost use Rattle.world_laws.specs.Walks.{begin};

use crate::arrivals::decoded;
use crate::event::{Input, WorldEvent};
use crate::left_records::{last_incarnation, recovered};
use crate::luck::Luck;
use crate::posts::{Posted, posted_at};
use crate::step_outs::{Moved, TakenList};
use crate::walk::Walk;
use at_base::event::{Arrived, Event, Local};
use at_base::outs::Effects;
use at_base::record::Record;
use at_base::text::Text;
use completion_at::requests::Refusal;
use interposition::book::Book;
use std::alloc::{AllocError, Global};
use std::marker::Model;
use std::mem::replace;

/// Whether the step of an event has a record.
#[tactic(auto, using(crate::proofs::ModelSteps::has_so))]
fn has_record(alloc: Global, book: &Book, event: &Event, now: u64) -> Result<bool, AllocError>
    ensures { IfOk result (λ r. r ≡ has_record (plan book.now event.now now)) }
{
    let plan = book.plan(alloc, event, now)?;
    Ok(plan.entry().is_some())
}

/// A node.
pub struct Node {
    base: Text,
    book: Option<Book>,
    journal: Vec<Record>,
    clock: u64,
}

impl Drop for Node {
    fn drop(self) {
        let Node {
            base: _base,
            book: _book,
            journal: _journal,
            clock: _clock,
        } = self;
    }
}

impl Model for Node {
    ghost use Rattle.at_model.specs.World.{Node as Known};

    ghost Value = { Known };

    ghost view = { λ x. record { base = x.base; book = x.book; journal = x.journal.items; clock = x.clock } };
}

impl Node {
    /// The node of this number in an opening world: it is down, with an empty journal, and its clock shows 0.
    pub fn new(alloc: Global, number: u8) -> Result<Node, AllocError>
        ensures { IfOk result (λ x. x ≡ new_node (example_base number)) }
    {
        let base = format!(in alloc; "http://n{}.example", number)?;
        let base = Text::from_string(base).into_shared(alloc)?;
        Ok(Node {
            base,
            book: None,
            journal: Vec::new(alloc),
            clock: 0,
        })
    }

    /// Its base.
    pub fn base(&self) -> &Text
        ensures { result.now ≡ self.now.base }
    {
        &self.base
    }

    /// Its clock, in milliseconds.
    pub fn clock(&self) -> u64
        ensures { result ≡ self.now.clock }
    {
        self.clock
    }

    /// The records of its journal, in order.
    pub fn journal(&self) -> &[Record]
        ensures { result.now ≡ self.now.journal }
    {
        self.journal.as_slice()
    }

    /// Its book, where it is up.
    pub fn book(&self) -> Option<&Book>
        ensures { option_copied result ≡ self.now.book }
    {
        self.book.as_ref()
    }

    /// The incarnation of its book, where it is up.
    pub fn incarnation(&self) -> Option<u32>
        ensures { result ≡ option_map incarnation_of self.now.book }
    {
        Some(self.book.as_ref()?.incarnation())
    }

    /// Why it refuses a request, where it is up: the first cause that holds.
    pub fn refuses(&self, local: &Local) -> Option<Refusal>
        ensures { option_map refusal_of result ≡ option_and_then (λ b. refuses b local.now) self.now.book }
    {
        self.book.as_ref()?.refuses(local)
    }

    /// The way through an event begins: the journal goes along with the book.
    fn set_out(&mut self, alloc: Global, book: Book, luck: Luck) -> Walk
        ensures walk { result ≡ begin book self.old.journal luck }
        ensures node { self.new ≡ record self.old { journal = [] } }
    {
        let journal = replace(&mut self.journal, Vec::new(alloc));
        Walk::new(alloc, book, journal, luck)
    }

    /// The way is over: at the stop the node goes down.
    fn settle(&mut self, alloc: Global, walk: Walk) -> Result<Moved, AllocError>
        ensures node { OnOk result (self.new ≡ (ended self.old walk).node) }
        ensures moved { IfOk result (λ m. m ≡ (ended self.old walk).moved) }
    {
        let Walk {
            book,
            journal,
            luck,
            taken,
        } = walk;
        self.journal = journal;
        if luck.is_over() {
            let lost = book.lost(alloc)?;
            self.book = None;
            return Ok(Moved {
                taken,
                lost,
                left: luck,
            });
        }
        self.book = Some(book);
        Ok(Moved {
            taken,
            lost: Effects::from_vec(Vec::new(alloc)),
            left: luck,
        })
    }

    /// A message as its target takes it.
    fn arrive(
        &mut self,
        alloc: Global,
        arrived: Option<Arrived>,
        luck: Luck,
    ) -> Result<Moved, AllocError>
        requires { IsReady self.old }
        ensures node { OnOk result (self.new ≡ (arrival_move arrived luck self.old self.old.book).node) }
        ensures moved { IfOk result (λ m. m ≡ (arrival_move arrived luck self.old self.old.book).moved) }
    {
        match self.book.take() {
            None => Ok(Moved::nothing(alloc)),
            Some(book) => {
                let mut walk = self.set_out(alloc, book, luck);
                walk.arrive(alloc, arrived, self.clock)?;
                self.settle(alloc, walk)
            }
        }
    }

    /// A message that was posted, or none, at the node of this number.
    fn deliver(
        &mut self,
        alloc: Global,
        number: u8,
        found: Option<&Posted>,
        luck: Luck,
    ) -> Result<Moved, AllocError>
        requires { IsReady self.old }
        ensures node { OnOk result
            (self.new ≡ (delivery_move number (option_copied found.entry) luck self.old self.old.book).node) }
        ensures moved { IfOk result
            (λ m. m ≡ (delivery_move number (option_copied found.entry) luck self.old self.old.book).moved) }
    {
        match found {
            Some(posted) if posted.receiver == Some(number) => {
                let arrived = decoded(&self.base, &posted.content)?;
                self.arrive(alloc, arrived, luck)
            }
            _ => Ok(Moved::nothing(alloc)),
        }
    }

    /// Time goes by.
    fn tick(&mut self, alloc: Global, ms: u32, luck: Luck) -> Result<Moved, AllocError>
        requires { IsReady self.old }
        ensures node { OnOk result (self.new ≡ (tick_move ms luck self.old self.old.book).node) }
        ensures moved { IfOk result (λ m. m ≡ (tick_move ms luck self.old self.old.book).moved) }
    {
        match self.book.take() {
            None => Ok(Moved::nothing(alloc)),
            Some(book) => {
                self.clock += ms as u64;
                let mut walk = self.set_out(alloc, book, luck);
                walk.tick(alloc, self.clock)?;
                self.settle(alloc, walk)
            }
        }
    }

    /// Bytes arrive that are no message.
    fn raw(&mut self, alloc: Global, luck: Luck) -> Result<Moved, AllocError>
        requires { IsReady self.old }
        ensures node { OnOk result (self.new ≡ (raw_move luck self.old self.old.book).node) }
        ensures moved { IfOk result (λ m. m ≡ (raw_move luck self.old self.old.book).moved) }
    {
        match self.book.take() {
            None => Ok(Moved::nothing(alloc)),
            Some(book) => {
                let mut walk = self.set_out(alloc, book, luck);
                walk.raw(alloc, self.clock)?;
                self.settle(alloc, walk)
            }
        }
    }

    /// A request of its own program.
    fn ask(&mut self, alloc: Global, local: &Local, luck: Luck) -> Result<Moved, AllocError>
        ensures node { OnOk result (self.new ≡ (request_move local.now luck self.old self.old.book).node) }
        ensures moved { IfOk result (λ m. m ≡ (request_move local.now luck self.old self.old.book).moved) }
    {
        let event = Event::Local(local.clone()?);
        match self.book.take() {
            None => Ok(Moved::nothing(alloc)),
            Some(book) => {
                let mut walk = self.set_out(alloc, book, luck);
                walk.step(alloc, &event, self.clock)?;
                self.settle(alloc, walk)
            }
        }
    }

    /// It goes down.
    fn crash(&mut self, alloc: Global) -> Result<Moved, AllocError>
        ensures node { OnOk result (self.new ≡ (crash_move self.old self.old.book).node) }
        ensures moved { IfOk result (λ m. m ≡ (crash_move self.old self.old.book).moved) }
    {
        match self.book.take() {
            None => Ok(Moved::nothing(alloc)),
            Some(book) => {
                let lost = book.lost(alloc)?;
                Ok(Moved {
                    taken: TakenList::new(alloc),
                    lost,
                    left: Luck::none(alloc),
                })
            }
        }
    }

    /// Its Start record stands in its journal; where no stop comes, it is up.
    #[tactic(auto, using(crate::proofs::Incarnations::started_some))]
    fn begin(&mut self, alloc: Global, incarnation: u32, stop: bool) -> Result<(), AllocError>
        requires { 1 ≤ incarnation }
        ensures { OnOk result (self.new ≡ up_after (started incarnation self.old) stop) }
    {
        self.journal.push(Record::Start { incarnation })?;
        self.book = if stop {
            None
        } else {
            Some(recovered(alloc, &self.base, self.journal.as_slice())?)
        };
        Ok(())
    }

    /// It starts, where it is down.
    fn start(&mut self, alloc: Global, landed: bool, stop: bool) -> Result<(), AllocError>
        ensures { OnOk result (self.new ≡ (start_move landed stop self.old self.old.book).node) }
    {
        if self.book.is_some() || !landed {
            return Ok(());
        }
        let last = last_incarnation(self.journal.as_slice());
        if last == u32::MAX {
            return Ok(());
        }
        self.begin(alloc, last + 1, stop)
    }

    /// A turn at it, with this input.
    fn turn(
        &mut self,
        alloc: Global,
        number: u8,
        input: Input,
        luck: Luck,
        posted: &[Posted],
    ) -> Result<Moved, AllocError>
        requires { IsReady self.old }
        ensures node { OnOk result
            (self.new ≡ (input_move number (input_of input) luck posted.now self.old self.old.book).node) }
        ensures moved { IfOk result
            (λ m. m ≡ (input_move number (input_of input) luck posted.now self.old self.old.book).moved) }
    {
        match input {
            Input::Deliver(wanted) => self.deliver(alloc, number, posted_at(posted, wanted), luck),
            Input::Tick(ms) => self.tick(alloc, ms, luck),
            Input::Raw => self.raw(alloc, luck),
        }
    }

    /// What an event makes of it, and what its steps gave.
    pub fn happen(
        &mut self,
        alloc: Global,
        event: &WorldEvent,
        posted: &[Posted],
    ) -> Result<Moved, AllocError>
        requires { IsReady self.old }
        ensures node { OnOk result (self.new ≡ (move_of (event_of event.now) posted.now self.old).node) }
        ensures moved { IfOk result (λ m. m ≡ (move_of (event_of event.now) posted.now self.old).moved) }
    {
        match event {
            WorldEvent::Turn {
                node,
                input,
                fates,
                until,
            } => {
                let luck = Luck::new(fates, *until)?;
                self.turn(alloc, *node, *input, luck, posted)
            }
            WorldEvent::Ask {
                node: _node,
                local,
                fates,
                until,
            } => {
                let luck = Luck::new(fates, *until)?;
                self.ask(alloc, local, luck)
            }
            WorldEvent::Crash { .. } => self.crash(alloc),
            WorldEvent::Up {
                node: _node,
                landed,
                stop,
            } => {
                self.start(alloc, *landed, *stop)?;
                Ok(Moved::nothing(alloc))
            }
        }
    }

    /// Whether the step of an event has a record, where it is up.
    fn event_records(
        &self,
        alloc: Global,
        event: &Event,
        now: u64,
    ) -> Result<Option<bool>, AllocError>
        ensures { IfOk result
            (λ r. r ≡ option_map has_record (option_map (λ b. plan b event.now now) self.now.book)) }
    {
        match &self.book {
            None => Ok(None),
            Some(book) => Ok(Some(has_record(alloc, book, event, now)?)),
        }
    }

    /// What changes nothing but for this answer has no record.
    fn no_record(&self, _status: u16) -> Option<bool>
        ensures { result ≡ option_map has_record (option_map (λ b. answer_plan b _status) self.now.book) }
    {
        match self.book {
            None => None,
            Some(_) => Some(false),
        }
    }

    fn arrival_records(
        &self,
        alloc: Global,
        arrived: Option<Arrived>,
    ) -> Result<Option<bool>, AllocError>
        ensures { IfOk result
            (λ r. r ≡ option_map has_record (option_map (λ b. arrival_plan b self.now.clock arrived) self.now.book)) }
    {
        let now = self.clock;
        match arrived {
            None => Ok(self.no_record(500)),
            Some(arrived) => self.event_records(alloc, &Event::Arrived(arrived), now),
        }
    }

    fn delivery_records(
        &self,
        alloc: Global,
        number: u8,
        found: Option<&Posted>,
    ) -> Result<Option<bool>, AllocError>
        ensures { IfOk result
            (λ r. r ≡ option_map has_record (delivery_plan number (option_copied found.entry) self.now self.now.book)) }
    {
        match found {
            Some(posted) if posted.receiver == Some(number) => {
                let arrived = decoded(&self.base, &posted.content)?;
                self.arrival_records(alloc, arrived)
            }
            _ => Ok(None),
        }
    }

    /// Whether the first step of a turn has a record.
    fn turn_records(
        &self,
        alloc: Global,
        number: u8,
        input: Input,
        posted: &[Posted],
    ) -> Result<Option<bool>, AllocError>
        requires { IsReady self.now }
        ensures { IfOk result
            (λ r. r ≡ option_map has_record (input_plan number (input_of input) posted.now self.now self.now.book)) }
    {
        match input {
            Input::Deliver(wanted) => {
                self.delivery_records(alloc, number, posted_at(posted, wanted))
            }
            Input::Tick(ms) => {
                let now = self.clock + ms as u64;
                self.event_records(alloc, &Event::Tick, now)
            }
            Input::Raw => Ok(self.no_record(400)),
        }
    }

    fn request_records(&self, alloc: Global, local: &Local) -> Result<Option<bool>, AllocError>
        ensures { IfOk result
            (λ r. r ≡ option_map has_record (option_map (λ b. plan b (events.Local local.now) self.now.clock) self.now.book)) }
    {
        let now = self.clock;
        let event = Event::Local(local.clone()?);
        self.event_records(alloc, &event, now)
    }

    /// Whether the first step of an event has a record; none where it takes no step.
    pub fn records(
        &self,
        alloc: Global,
        event: &WorldEvent,
        posted: &[Posted],
    ) -> Result<Option<bool>, AllocError>
        requires { IsReady self.now }
        ensures { IfOk result (λ r. r ≡ node_records (event_of event.now) posted.now self.now) }
    {
        match event {
            WorldEvent::Turn { node, input, .. } => {
                self.turn_records(alloc, *node, *input, posted)
            }
            WorldEvent::Ask { local, .. } => self.request_records(alloc, local),
            WorldEvent::Crash { .. } | WorldEvent::Up { .. } => Ok(None),
        }
    }
}
