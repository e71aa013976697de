//! A node on its way through an event: each step behind its record, as far as its fates and its stop let it come.

ghost use Rattle.std.specs.Prelude.{◌≡◌, ◌∷◌, [], IfOk, OnOk, None, true, false, option_copied, if◌then◌else◌};
ghost use Rattle.at_base.specs.declared.event.Event.TheVariants as events;
ghost use Rattle.at_base.specs.declared.outs.Out.TheVariants as given_outs;
ghost use Rattle.at_model.specs.Step.{plan, step};
ghost use Rattle.at_model.specs.World.{answer_plan, arrival_plan};
ghost use Rattle.interposition.specs.PlanResults.{recorded as entry_in};
ghost use Rattle.interposition.specs.Due.{due_outcome};
ghost use Rattle.model_laws.specs.Order.{IsInOrder, IsRising};
ghost use Rattle.world_laws.specs.Walks.{asked, begin, branch, counted, done_by, given, is_over, recorded, sending_at, sends, sent_each, sent_one, stepped, turned};

use crate::luck::Luck;
use crate::step_outs::{Taken, TakenList};
use at_base::event::{Arrived, Event, Item};
use at_base::outs::{Effects, Out, OutList, Outs};
use at_base::record::Record;
use interposition::book::{Book, finds_the_due, walks_the_due};
use interposition::plan::Plan;
use model_laws::rules::ids_rise;
use std::alloc::{AllocError, Global};
use std::marker::Model;

/// A node on its way.
#[derive(Drop)]
pub struct Walk {
    pub book: Book,
    pub journal: Vec<Record>,
    pub luck: Luck,
    pub taken: TakenList,
}

impl Model for Walk {
    ghost use Rattle.world_laws.specs.Walks.{Walk as Known};

    ghost Value = { Known };

    ghost view = { λ w. record { book = w.book; journal = w.journal.items; luck = w.luck; taken = w.taken } };
}

/// The answer to what changes nothing.
fn answered(alloc: Global, status: u16) -> Result<Outs, AllocError>
    ensures { IfOk result (λ outs. outs ≡ record { outs = given_outs.Answer status None ∷ []; effects = [] }) }
{
    let mut outs = OutList::from_vec(Vec::new(alloc));
    outs.push(Out::Answer {
        status,
        reply: None,
    })?;
    Ok(Outs {
        outs,
        effects: Effects::from_vec(Vec::new(alloc)),
    })
}

/// Sends an out, if its fate is yes and the stop hasn't come.
fn send_one(luck: &mut Luck, taken: &mut Taken, out: Out) -> Result<(), AllocError>
    ensures { OnOk result
        (sending_at luck.new taken.new ≡ sent_one out (sending_at luck.old taken.old)) }
{
    if luck.is_over() {
        return Ok(());
    }
    if luck.next() {
        return taken.add(out);
    }
    taken.lose(out);
    Ok(())
}

/// Sends each out.
fn send_each(luck: &mut Luck, taken: &mut Taken, outs: OutList) -> Result<(), AllocError>
    ensures { OnOk result
        (sending_at luck.new taken.new ≡ sent_each outs (sending_at luck.old taken.old)) }
{
    for out in outs.into_vec() {
        send_one(luck, taken, out)?;
    }
    Ok(())
}

impl Walk {
    /// The way begins.
    pub fn new(alloc: Global, book: Book, journal: Vec<Record>, luck: Luck) -> Walk
        ensures { result ≡ begin book journal.items luck }
    {
        Walk {
            book,
            journal,
            luck,
            taken: TakenList::new(alloc),
        }
    }

    /// A step that counts is sent.
    #[tactic(auto, unfolding(crate::specs::Walks::sends))]
    fn count(&mut self, alloc: Global, outs: Outs) -> Result<(), AllocError>
        ensures { OnOk result (self.new ≡ given self.old.book outs self.old) }
    {
        let Outs { outs, effects } = outs;
        let mut taken = Taken::new(alloc, effects);
        send_each(&mut self.luck, &mut taken, outs)?;
        self.taken.push(taken)
    }

    /// The record of a step lands, if its fate is yes. Whether the step counts as one whose record stands; none where it
    /// doesn't count.
    fn record(&mut self, entry: Option<&Record>) -> Result<Option<bool>, AllocError>
        ensures walk { OnOk result (self.new ≡ recorded (option_copied entry.entry) self.old) }
        ensures branch { IfOk result (λ b. b ≡ branch (option_copied entry.entry) self.old.luck) }
    {
        let Some(entry) = entry else {
            return Ok(Some(true));
        };
        if self.luck.next() {
            self.journal.push(entry.clone()?)?;
            return Ok(Some(true));
        }
        if self.luck.is_over() {
            Ok(None)
        } else {
            Ok(Some(false))
        }
    }

    /// Does what was planned, as far as the fate of its record lets it count.
    fn finish(&mut self, alloc: Global, plan: Plan) -> Result<(), AllocError>
        ensures { OnOk result
            (self.new ≡ done_by (branch (entry_in plan) self.old.luck) plan (recorded (entry_in plan) self.old)) }
    {
        match self.record(plan.entry()) {
            Ok(Some(landed)) => {
                let outs = self.book.apply(plan, landed);
                self.count(alloc, outs)
            }
            Ok(None) => Ok(()),
            Err(error) => Err(error),
        }
    }

    /// Whether the stop has come.
    fn is_over(&self) -> bool
        ensures { result ≡ is_over self.now.luck }
    {
        self.luck.is_over()
    }

    /// A step of what the book plans.
    #[tactic(auto, using(crate::proofs::ModelSteps::took_none))]
    fn go(&mut self, alloc: Global, event: &Event, now: u64) -> Result<(), AllocError>
        ensures { OnOk result (self.new ≡ stepped (plan self.old.book event.now now) self.old) }
    {
        if self.is_over() {
            return Ok(());
        }
        let plan = self.book.plan(alloc, event, now)?;
        self.finish(alloc, plan)
    }

    /// A step; behind the stop there is none.
    #[tactic(auto, using(crate::proofs::ModelSteps::took_order))]
    pub fn step(&mut self, alloc: Global, event: &Event, now: u64) -> Result<(), AllocError>
        ensures step { OnOk result (self.new ≡ stepped (plan self.old.book event.now now) self.old) }
        ensures order { IsInOrder self.old.book → OnOk result (IsInOrder self.new.book) }
    {
        ids_rise();
        self.go(alloc, event, now)
    }

    /// A step that changes nothing, but for this answer.
    fn answer(&mut self, alloc: Global, status: u16) -> Result<(), AllocError>
        ensures step { OnOk result (self.new ≡ stepped (answer_plan self.old.book status) self.old) }
        ensures book { OnOk result (self.new.book ≡ self.old.book) }
    {
        if self.luck.is_over() {
            return Ok(());
        }
        let outs = answered(alloc, status)?;
        self.count(alloc, outs)
    }

    /// Does what an event plans that has no record.
    fn go_unrecorded(&mut self, alloc: Global, event: &Event, now: u64) -> Result<(), AllocError>
        ensures { OnOk result (self.new ≡ counted (step self.old.book event.now now true) self.old) }
    {
        let plan = self.book.plan(alloc, event, now)?;
        let outs = self.book.apply(plan, true);
        self.count(alloc, outs)
    }

    /// The step of an item that is due: it has no record.
    fn take_item(&mut self, alloc: Global, item: &Item, now: u64) -> Result<(), AllocError>
        ensures { OnOk result (self.new ≡ counted (due_outcome self.old.book now item.now) self.old) }
    {
        let event = Event::Due(*item);
        self.go_unrecorded(alloc, &event, now)
    }

    /// A step for each item that is due, when its place comes.
    #[tactic(auto, using(crate::proofs::DueItems::begins, crate::proofs::DueItems::goes_on, crate::proofs::DueItems::asks_fewer, crate::proofs::DueItems::over_ends, crate::proofs::DueItems::none_ends))]
    fn ask_due(&mut self, alloc: Global, now: u64) -> Result<(), AllocError>
        requires { IsRising self.old.book }
        ensures { OnOk result (self.new ≡ asked now self.old) }
    {
        finds_the_due();
        walks_the_due();
        let mut after = None;
        while let Some(item) = self.book.next_due(after, now) {
            if self.luck.is_over() {
                return Ok(());
            }
            self.take_item(alloc, &item, now)?;
            after = Some(item);
        }
        Ok(())
    }

    /// The turn of a tick.
    pub fn tick(&mut self, alloc: Global, now: u64) -> Result<(), AllocError>
        requires { IsInOrder self.old.book }
        ensures { OnOk result (self.new ≡ turned now (plan self.old.book events.Tick now) self.old) }
    {
        self.step(alloc, &Event::Tick, now)?;
        self.ask_due(alloc, now)
    }

    /// The turn of bytes that are no message.
    pub fn raw(&mut self, alloc: Global, now: u64) -> Result<(), AllocError>
        requires { IsInOrder self.old.book }
        ensures { OnOk result (self.new ≡ turned now (answer_plan self.old.book 400) self.old) }
    {
        self.answer(alloc, 400)?;
        self.ask_due(alloc, now)
    }

    /// The step of a message as its target takes it.
    fn take_arrival(
        &mut self,
        alloc: Global,
        arrived: Option<Arrived>,
        now: u64,
    ) -> Result<(), AllocError>
        ensures step { OnOk result (self.new ≡ stepped (arrival_plan self.old.book now arrived) self.old) }
        ensures order { IsInOrder self.old.book → OnOk result (IsInOrder self.new.book) }
    {
        match arrived {
            None => self.answer(alloc, 500),
            Some(arrived) => self.step(alloc, &Event::Arrived(arrived), now),
        }
    }

    /// The turn of a message as its target takes it.
    pub fn arrive(
        &mut self,
        alloc: Global,
        arrived: Option<Arrived>,
        now: u64,
    ) -> Result<(), AllocError>
        requires { IsInOrder self.old.book }
        ensures { OnOk result (self.new ≡ turned now (arrival_plan self.old.book now arrived) self.old) }
    {
        self.take_arrival(alloc, arrived, now)?;
        self.ask_due(alloc, now)
    }
}
