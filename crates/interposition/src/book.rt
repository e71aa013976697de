//! A node's book: planned first, and then done.

ghost use Rattle.std.specs.Prelude.{ℕ, List, ◌≡◌, ◌≤◌, ◌++◌, ◌-◌, ◌^◌, IfOk, OnOk, Option, Some, min, option_copied, option_map};
ghost use Rattle.at_base.specs.declared.record.Record.{Record};
ghost use Rattle.at_base.specs.declared.target.Target.TheVariants as targets;
ghost use Rattle.at_model.specs.Book.{next_id};
ghost use Rattle.at_model.specs.Recovery.{recover};
ghost use Rattle.at_model.specs.Step.{activation_plan, activity_at, activity_due_plan, arrived_plan, completion_plan, coordinator_plan, due_plan, has_committed, initiator_plan, is_committing, is_decided_root, leaf_at, leaf_due_plan, leaf_or_stranger_plan, link_plan, local_plan, moment_of, participant_plan, plan, refuses, registration_plan, seatless_plan, transaction_at, transaction_due_plan, work_plan};
ghost use Rattle.by_id.specs.Plans.{branch_of};
ghost use Rattle.by_id.specs.Wholes.{drawn};
ghost use Rattle.completion_at.specs.ActivityPlans.{with_activities};
ghost use Rattle.completion_at.specs.Names.{refusal_of};
ghost use Rattle.coordinator_at.specs.TransactionPlans.{transactions_lost, with_transactions};
ghost use Rattle.participant_at.specs.LeafPlans.{leaves_lost, with_leaves};
ghost use Rattle.interposition.specs.PlanResults.{done, gone, kept, noted, outcomes_by, sent, whole};
ghost use Rattle.interposition.specs.Due.{FindsTheDue, WalksTheDue, next_item, next_transaction, next_leaf, next_activity};
ghost use Rattle.interposition.specs.Holdings.{HoldsFew, held};
ghost use Rattle.interposition.specs.Recoveries.{RecoversAsTheModel, StandFor, recovered};
ghost use Rattle.transaction_at.specs.PhaseNames.{phase_of};
ghost use Rattle.interposition.specs.ModelSteps.{IsStep, KeepsBounds, LosesAsTheModel};

use crate::plan::{Part, Plan};
use crate::strangers::{answered, committed, ignored, nothing, stranger};
use at_base::event::{Arrived, Event, Item, Local, Moment};
use at_base::id::Id;
use at_base::message::Message;
use at_base::notice::Kind;
use at_base::outs::{Effects, Outs};
use at_base::record::Record;
use at_base::target::{Seat, Target};
use at_base::text::Text;
use by_id::place::Items;
use by_id::plan;
use completion_at::activities::{Activities, refuses_as_the_model};
use completion_at::activity::Activity;
use completion_at::requests::Refusal;
use coordinator_at::register::register_unknown;
use coordinator_at::transactions::{Transactions, at_link};
use model_laws::rules::{ids_rise, records_are_well_formed, recovers_the_compacted};
use outcomes_at::outcomes::Outcomes;
use participant_at::leaf::Leaf;
use participant_at::leaves::Leaves;
use std::alloc::{AllocError, Global};
use std::marker::Model;
use transaction_at::moves::Move;
use transaction_at::transaction::{Phase, Transaction};

/// What a book loses where its node goes down is what the model says that the node loses.
#[tactic(auto, using(crate::proofs::Losses::loses_as_the_model))]
pub fn loses_as_the_model()
    ensures { LosesAsTheModel }
{}

/// The records that a book within its bounds plans are well-formed, and it stays within them.
pub fn keeps_bounds()
    ensures { KeepsBounds }
{
    records_are_well_formed();
}

/// The item that is asked next is the first that is due of those that come behind.
#[tactic(auto, using(crate::proofs::DueItems::finds_the_due))]
pub fn finds_the_due()
    ensures { FindsTheDue }
{}

/// Asking the items that a book holds at the beginning, each when its place comes, is finding the next one that is due in
/// the book as it then is, again and again.
pub fn walks_the_due()
    ensures { WalksTheDue }
{
    ids_rise();
}

/// What is left of records makes the same book as they do.
fn recovers_as_the_model()
    ensures { RecoversAsTheModel }
{
    recovers_the_compacted();
}

fn append(effects: &mut Effects, more: Effects) -> Result<(), AllocError>
    ensures { OnOk result (effects.new ≡ effects.old ++ more) }
{
    for effect in more.into_vec() {
        effects.push(effect)?;
    }
    Ok(())
}

/// Whether a transaction is a root that committed.
fn is_decided_root(found: Option<&Transaction>) -> bool
    ensures { result ≡ is_decided_root (option_copied found.entry) }
{
    match found {
        Some(transaction) => transaction.superior.is_none() && is_committing(transaction.phase),
        None => false,
    }
}

fn is_committing(phase: Phase) -> bool
    ensures { result ≡ is_committing (phase_of phase) }
{
    match phase {
        Phase::Committing => true,
        Phase::Registering
        | Phase::Active
        | Phase::Volatile
        | Phase::Durable
        | Phase::Voted
        | Phase::Aborting => false,
    }
}

/// What a node knows: its transactions, leaves and activities, and how many ids it drew.
pub struct Book {
    /// The base, whose copies share its bytes, and room for the moment at which the lists are asked what is due.
    moment: Moment,
    incarnation: u32,
    counter: u32,
    seen: u64,
    outcomes: Outcomes,
    transactions: Transactions,
    leaves: Leaves,
    activities: Activities,
}

impl Drop for Book {
    fn drop(self) {
        let Book {
            moment: _moment,
            incarnation: _incarnation,
            counter: _counter,
            seen: _seen,
            outcomes: _outcomes,
            transactions: _transactions,
            leaves: _leaves,
            activities: _activities,
        } = self;
    }
}

impl Model for Book {
    ghost use Rattle.std.specs.Prelude.{◌≤◌};
    ghost use Rattle.at_model.specs.Book.{Book as Known};

    ghost Value = { Known };

    ghost view = { λ b. record {
      base = b.moment.base;
      incarnation = b.incarnation;
      counter = b.counter;
      seen = b.seen;
      outcomes = b.outcomes;
      transactions = b.transactions;
      leaves = b.leaves;
      activities = b.activities;
    } };

    ghost invariant = { λ b. 1 ≤ b.incarnation };
}

impl Book {
    /// The book of what live records promise, by rising id, with these outcomes.
    fn made(
        alloc: Global,
        base: &Text,
        live: &[Record],
        done: &[Id],
        incarnation: u32,
    ) -> Result<Book, AllocError>
        requires { 1 ≤ incarnation }
        ensures { IfOk result (λ book. book ≡ recovered base.now live.now done.now incarnation) }
    {
        let base = base.clone()?.into_shared(alloc)?;
        let outcomes = Outcomes::newest_of(alloc, done)?;
        let transactions = Transactions::recover(alloc, &base, live)?;
        let leaves = Leaves::recover(alloc, live)?;
        let activities = Activities::new(alloc)?;
        Ok(Book {
            moment: Moment {
                now: 0,
                next: None,
                base,
            },
            incarnation,
            counter: 0,
            seen: 0,
            outcomes,
            transactions,
            leaves,
            activities,
        })
    }

    /// The book of a node that starts in this incarnation: what live records, by rising id, promise, and the outcomes that
    /// are kept, the newest last. Where the node starts for the first time there are none.
    ///
    /// The base has at most 1,024 bytes, each in 33 to 126.
    pub fn recover(
        alloc: Global,
        base: &Text,
        live: &[Record],
        done: &[Id],
        incarnation: u32,
    ) -> Result<Book, AllocError>
        requires incarnation { 1 ≤ incarnation }
        ensures { (records : List Record) → StandFor records live.now done.now incarnation
            → IfOk result (λ book. book ≡ recover base.now records) }
    {
        recovers_as_the_model();
        Book::made(alloc, base, live, done, incarnation)
    }

    /// The base of the node.
    pub fn base(&self) -> &Text
        ensures { result.now ≡ self.now.base }
    {
        &self.moment.base
    }

    /// The transactions, in the order of making.
    pub fn transactions(&self) -> Items<'_, Transaction>
        ensures { result ≡ self.now.transactions }
    {
        self.transactions.iter()
    }

    /// The leaves, in the order of making.
    pub fn leaves(&self) -> Items<'_, Leaf>
        ensures { result ≡ self.now.leaves }
    {
        self.leaves.iter()
    }

    /// The activities, in the order of making.
    pub fn activities(&self) -> Items<'_, Activity>
        ensures { result ≡ self.now.activities }
    {
        self.activities.iter()
    }

    /// The id that the next item gets; none where the counter is spent.
    pub fn next_id(&self) -> Option<Id>
        ensures { result ≡ next_id self.now }
    {
        if self.counter < u32::MAX {
            Some(Id::new(self.incarnation, self.counter + 1))
        } else {
            None
        }
    }

    /// A message for the activation service.
    #[tactic(auto, unfolding(at_model::specs::Step::activation_plan))]
    fn at_activation(
        &self,
        alloc: Global,
        moment: &Moment,
        arrived: &Arrived,
    ) -> Result<Part, AllocError>
        ensures { (now : ℕ) → moment.entry.now ≡ moment_of self.now now
            → IfOk result (λ part. whole self.now now part ≡ activation_plan self.now now arrived.now arrived.now.message) }
    {
        match &arrived.message {
            Message::Create(create) => Ok(Part::Transactions(
                self.transactions
                    .at_activation(alloc, moment, arrived, create)?,
            )),
            _ => ignored(alloc),
        }
    }

    /// A message for the registration service of a transaction.
    #[tactic(auto, unfolding(at_model::specs::Step::registration_plan))]
    fn at_registration(
        &self,
        alloc: Global,
        moment: &Moment,
        arrived: &Arrived,
        id: Id,
    ) -> Result<Part, AllocError>
        ensures { (now : ℕ) → moment.entry.now ≡ moment_of self.now now
            → IfOk result (λ part. whole self.now now part ≡ registration_plan self.now now arrived.now arrived.now.message (transaction_at self.now id)) }
    {
        let Message::Register(register) = &arrived.message else {
            return ignored(alloc);
        };
        match self
            .transactions
            .at_registration(alloc, moment, arrived, register, id)?
        {
            Some(plan) => Ok(Part::Transactions(plan)),
            None => Ok(answered(alloc, register_unknown(alloc, arrived, register)?)),
        }
    }

    /// Whether the root of this id committed: it waits for its seats, or its outcome is kept.
    fn has_committed(&self, id: Id) -> bool
        ensures { result ≡ has_committed self.now id }
    {
        is_decided_root(self.transactions.find(id)) || self.outcomes.has(id)
    }

    /// A message at a completion seat that isn't there.
    #[tactic(auto, using(crate::proofs::UnknownItems::outcome, crate::proofs::UnknownItems::at_completion))]
    fn seatless(
        &self,
        alloc: Global,
        moment: &Moment,
        arrived: &Arrived,
        id: Id,
    ) -> Result<Part, AllocError>
        requires { arrived.now.target ≡ targets.Completion id }
        ensures { (now : ℕ) → moment.entry.now ≡ moment_of self.now now
            → IfOk result (λ part. whole self.now now part ≡ seatless_plan self.now now arrived.now (has_committed self.now id)) }
    {
        if self.has_committed(id) {
            committed(alloc, moment, arrived)
        } else {
            stranger(alloc, moment, arrived)
        }
    }

    fn at_completion(
        &self,
        alloc: Global,
        moment: &Moment,
        arrived: &Arrived,
        id: Id,
    ) -> Result<Part, AllocError>
        requires { arrived.now.target ≡ targets.Completion id }
        ensures { (now : ℕ) → moment.entry.now ≡ moment_of self.now now
            → IfOk result (λ part. whole self.now now part ≡ completion_plan self.now now arrived.now (has_committed self.now id) (transaction_at self.now id)) }
    {
        match self.transactions.at_completion(alloc, moment, arrived, id)? {
            Some(plan) => Ok(Part::Transactions(plan)),
            None => self.seatless(alloc, moment, arrived, id),
        }
    }

    #[tactic(auto, using(crate::proofs::UnknownItems::at_seat))]
    fn at_coordinator(
        &self,
        alloc: Global,
        moment: &Moment,
        arrived: &Arrived,
        id: Id,
        seat: Seat,
    ) -> Result<Part, AllocError>
        requires { arrived.now.target ≡ targets.Coordinator id seat }
        ensures { (now : ℕ) → moment.entry.now ≡ moment_of self.now now
            → IfOk result (λ part. whole self.now now part ≡ coordinator_plan self.now now arrived.now seat.number seat.kind (transaction_at self.now id)) }
    {
        match self.transactions.at_seat(alloc, moment, arrived, id, seat)? {
            Some(plan) => Ok(Part::Transactions(plan)),
            None => stranger(alloc, moment, arrived),
        }
    }

    /// A message at a leaf, where no transaction has its id.
    #[tactic(auto, using(crate::proofs::UnknownItems::at_participant))]
    fn at_leaf(
        &self,
        alloc: Global,
        moment: &Moment,
        arrived: &Arrived,
        id: Id,
        kind: Kind,
    ) -> Result<Part, AllocError>
        requires { arrived.now.target ≡ targets.Participant id kind }
        ensures { (now : ℕ) → moment.entry.now ≡ moment_of self.now now
            → IfOk result (λ part. whole self.now now part ≡ leaf_or_stranger_plan self.now now arrived.now kind (leaf_at self.now id)) }
    {
        match self.leaves.at_leaf(alloc, moment, arrived, id, kind)? {
            Some(plan) => Ok(Part::Leaves(plan)),
            None => stranger(alloc, moment, arrived),
        }
    }

    #[tactic(auto, using(crate::proofs::UnknownItems::at_activity))]
    fn at_activity(
        &self,
        alloc: Global,
        moment: &Moment,
        arrived: &Arrived,
        id: Id,
    ) -> Result<Part, AllocError>
        requires { arrived.now.target ≡ targets.Initiator id }
        ensures { (now : ℕ) → moment.entry.now ≡ moment_of self.now now
            → IfOk result (λ part. whole self.now now part ≡ initiator_plan self.now now arrived.now (activity_at self.now id)) }
    {
        match self.activities.at_activity(alloc, moment, arrived, id)? {
            Some(plan) => Ok(Part::Activities(plan)),
            None => stranger(alloc, moment, arrived),
        }
    }

    #[tactic(auto, unfolding(at_model::specs::Step::work_plan))]
    fn at_work(&self, alloc: Global, moment: &Moment, arrived: &Arrived) -> Result<Part, AllocError>
        ensures { (now : ℕ) → moment.entry.now ≡ moment_of self.now now
            → IfOk result (λ part. whole self.now now part ≡ work_plan self.now now arrived.now arrived.now.message) }
    {
        match &arrived.message {
            Message::Work(work) => Ok(Part::Leaves(
                self.leaves.at_work(alloc, moment, arrived, work)?,
            )),
            _ => ignored(alloc),
        }
    }

    /// A message at the link of this subordinate.
    #[tactic(auto, using(crate::proofs::UnknownItems::at_participant))]
    fn at_link(
        &self,
        alloc: Global,
        moment: &Moment,
        arrived: &Arrived,
        id: Id,
        kind: Kind,
        transaction: &Transaction,
    ) -> Result<Part, AllocError>
        requires { arrived.now.target ≡ targets.Participant id kind }
        ensures { (now : ℕ) → moment.entry.now ≡ moment_of self.now now → transaction_at self.now id ≡ Some transaction.now
            → IfOk result (λ part. whole self.now now part ≡ link_plan self.now now arrived.now kind transaction.now transaction.now.superior) }
    {
        match at_link(alloc, moment, arrived, kind, transaction)? {
            Some(plan) => Ok(Part::Transactions(plan)),
            None => stranger(alloc, moment, arrived),
        }
    }

    /// A message at a subordinate's link, or else at a leaf.
    #[tactic(auto, using(crate::proofs::UnknownItems::at_a_link, crate::proofs::UnknownItems::at_a_leaf))]
    fn at_participant(
        &self,
        alloc: Global,
        moment: &Moment,
        arrived: &Arrived,
        id: Id,
        kind: Kind,
    ) -> Result<Part, AllocError>
        requires { arrived.now.target ≡ targets.Participant id kind }
        ensures { (now : ℕ) → moment.entry.now ≡ moment_of self.now now
            → IfOk result (λ part. whole self.now now part ≡ participant_plan self.now now arrived.now kind (transaction_at self.now id) (leaf_at self.now id)) }
    {
        match self.transactions.find(id) {
            Some(transaction) => {
                let part = self.at_link(alloc, moment, arrived, id, kind, transaction)?;
                Ok(part)
            }
            None => {
                let part = self.at_leaf(alloc, moment, arrived, id, kind)?;
                Ok(part)
            }
        }
    }

    /// A message, by its target.
    #[tactic(auto, unfolding(at_model::specs::Step::arrived_plan))]
    fn arrived(&self, alloc: Global, moment: &Moment, arrived: &Arrived) -> Result<Part, AllocError>
        ensures { (now : ℕ) → moment.entry.now ≡ moment_of self.now now
            → IfOk result (λ part. whole self.now now part ≡ arrived_plan self.now now arrived.now arrived.now.target) }
    {
        match arrived.target {
            Target::Activation => self.at_activation(alloc, moment, arrived),
            Target::Registration(id) => self.at_registration(alloc, moment, arrived, id),
            Target::Completion(id) => self.at_completion(alloc, moment, arrived, id),
            Target::Coordinator { id, seat } => {
                self.at_coordinator(alloc, moment, arrived, id, seat)
            }
            Target::Participant { id, kind } => {
                self.at_participant(alloc, moment, arrived, id, kind)
            }
            Target::Initiator(id) => self.at_activity(alloc, moment, arrived, id),
            Target::Work => self.at_work(alloc, moment, arrived),
        }
    }

    /// A request of the node's own program.
    fn asked(&self, alloc: Global, moment: &Moment, local: &Local) -> Result<Part, AllocError>
        ensures { (now : ℕ) → moment.entry.now ≡ moment_of self.now now
            → IfOk result (λ part. whole self.now now part ≡ local_plan self.now now local.now (refuses self.now local.now)) }
    {
        match self.activities.asked(alloc, moment, local)? {
            Some(plan) => Ok(Part::Activities(plan)),
            None => Ok(nothing(alloc)),
        }
    }

    fn due_transaction(&self, alloc: Global, moment: &Moment, id: Id) -> Result<Part, AllocError>
        ensures { (now : ℕ) → moment.entry.now ≡ moment_of self.now now
            → IfOk result (λ part. whole self.now now part ≡ transaction_due_plan self.now now (transaction_at self.now id)) }
    {
        match self.transactions.due(alloc, moment, id)? {
            Some(plan) => Ok(Part::Transactions(plan)),
            None => Ok(nothing(alloc)),
        }
    }

    fn due_leaf(&self, alloc: Global, moment: &Moment, id: Id) -> Result<Part, AllocError>
        ensures { (now : ℕ) → moment.entry.now ≡ moment_of self.now now
            → IfOk result (λ part. whole self.now now part ≡ leaf_due_plan self.now now (leaf_at self.now id)) }
    {
        match self.leaves.due(alloc, moment, id)? {
            Some(plan) => Ok(Part::Leaves(plan)),
            None => Ok(nothing(alloc)),
        }
    }

    fn due_activity(&self, alloc: Global, moment: &Moment, id: Id) -> Result<Part, AllocError>
        ensures { (now : ℕ) → moment.entry.now ≡ moment_of self.now now
            → IfOk result (λ part. whole self.now now part ≡ activity_due_plan self.now now (activity_at self.now id)) }
    {
        match self.activities.due(alloc, moment, id)? {
            Some(plan) => Ok(Part::Activities(plan)),
            None => Ok(nothing(alloc)),
        }
    }

    /// An item that is due.
    #[tactic(auto, unfolding(at_model::specs::Step::due_plan))]
    fn due(&self, alloc: Global, moment: &Moment, item: Item) -> Result<Part, AllocError>
        ensures { (now : ℕ) → moment.entry.now ≡ moment_of self.now now
            → IfOk result (λ part. whole self.now now part ≡ due_plan self.now now item) }
    {
        match item {
            Item::Transaction(id) => self.due_transaction(alloc, moment, id),
            Item::Leaf(id) => self.due_leaf(alloc, moment, id),
            Item::Activity(id) => self.due_activity(alloc, moment, id),
        }
    }

    fn part(&self, alloc: Global, event: &Event, moment: &Moment) -> Result<Part, AllocError>
        ensures { (now : ℕ) → moment.entry.now ≡ moment_of self.now now
            → IfOk result (λ part. whole self.now now part ≡ plan self.now event.now now) }
    {
        match event {
            Event::Arrived(arrived) => self.arrived(alloc, moment, arrived),
            Event::Local(local) => self.asked(alloc, moment, local),
            Event::Due(item) => self.due(alloc, moment, *item),
            Event::Tick => ignored(alloc),
        }
    }

    /// What an event does to the book at this time, in milliseconds. It takes the memory that doing it needs, and changes
    /// nothing.
    #[tactic(auto, using(crate::proofs::ModelSteps::steps_so))]
    pub fn plan(&self, alloc: Global, event: &Event, now: u64) -> Result<Plan, AllocError>
        ensures { IfOk result (λ plan. IsStep plan self.now event.now now) }
    {
        let moment = Moment {
            now: now.max(self.seen),
            next: self.next_id(),
            base: self.moment.base.clone()?,
        };
        let part = self.part(alloc, event, &moment)?;
        Ok(Plan { now, part })
    }

    /// Time is the greater of the clock and the last time seen.
    fn note(&mut self, holds: bool, now: u64)
        ensures { self.new ≡ noted holds now self.old }
    {
        if holds {
            self.seen = now.max(self.seen);
        }
    }

    /// An item that is made draws an id.
    fn draw(&mut self, holds: bool)
        ensures { self.new ≡ drawn holds self.old }
    {
        if holds && self.counter < u32::MAX {
            self.counter += 1;
        }
    }

    /// A record that stands may be an outcome.
    fn keep<T: Drop, M: Drop>(&mut self, plan: &plan::Plan<T, M>, landed: bool)
        ensures { self.new ≡ kept (outcomes_by plan.entry.now landed self.old.outcomes) self.old }
    {
        match plan {
            plan::Plan::Recorded { entry, .. } if landed => self.outcomes.note(entry),
            _ => {}
        }
    }

    /// What a plan of a list does beside the list.
    fn go<T: Drop, M: Drop>(&mut self, plan: &plan::Plan<T, M>, now: u64, landed: bool)
        ensures { self.new ≡ gone plan.entry.now now landed self.old }
    {
        self.note(plan.notes_time(landed), now);
        self.draw(plan.draws(landed));
        self.keep(plan, landed);
    }

    fn apply_transactions(
        &mut self,
        plan: plan::Plan<Transaction, Move>,
        now: u64,
        landed: bool,
    ) -> Outs
        ensures book { self.new ≡ with_transactions (branch_of plan landed).change (gone plan now landed self.old) }
        ensures outs { result ≡ (branch_of plan landed).outs }
    {
        self.go(&plan, now, landed);
        self.transactions.apply(plan, landed)
    }

    fn apply_leaves(&mut self, plan: plan::Plan<Leaf, ()>, now: u64, landed: bool) -> Outs
        ensures book { self.new ≡ with_leaves (branch_of plan landed).change (gone plan now landed self.old) }
        ensures outs { result ≡ (branch_of plan landed).outs }
    {
        self.go(&plan, now, landed);
        self.leaves.apply(plan, landed)
    }

    fn apply_activities(&mut self, plan: plan::Plan<Activity, ()>, now: u64, landed: bool) -> Outs
        ensures book { self.new ≡ with_activities (branch_of plan landed).change (gone plan now landed self.old) }
        ensures outs { result ≡ (branch_of plan landed).outs }
    {
        self.go(&plan, now, landed);
        self.activities.apply(plan, landed)
    }

    /// Does what was planned, where its record landed, and where it didn't. It takes no memory, and cannot fail.
    #[tactic(auto, using(crate::proofs::ModelSteps::still_done, crate::proofs::ModelSteps::transactions_done, crate::proofs::ModelSteps::leaves_done, crate::proofs::ModelSteps::activities_done))]
    pub fn apply(&mut self, plan: Plan, landed: bool) -> Outs
        ensures book { self.new ≡ done plan landed self.old }
        ensures outs { result ≡ sent plan landed }
    {
        let (now, part) = plan.into_parts();
        match part {
            Part::Still { noted, outs } => {
                self.note(noted, now);
                outs
            }
            Part::Transactions(plan) => self.apply_transactions(plan, now, landed),
            Part::Leaves(plan) => self.apply_leaves(plan, now, landed),
            Part::Activities(plan) => self.apply_activities(plan, now, landed),
        }
    }

    /// Why a local request is refused: the first cause that holds.
    pub fn refuses(&self, local: &Local) -> Option<Refusal>
        ensures { option_map refusal_of result ≡ refuses self.now local.now }
    {
        refuses_as_the_model();
        self.activities.refuses(self.next_id(), local)
    }

    /// The incarnation in which it began.
    pub fn incarnation(&self) -> u32
        ensures { result ≡ self.now.incarnation }
    {
        self.incarnation
    }

    /// How many seats, completion seats, links (two of each subordinate), leaves and activities it holds, and the greatest
    /// number where there are more. There are no more where each list has at most 4,294,967,295 items and each transaction
    /// at most 512 seats (`exact`). A node makes no item of a list in which 1,024 live, and accepts nobody where 512 have a
    /// seat. It takes no memory.
    pub fn held(&self) -> u64
        ensures value { result ≡ min (held self.now) (2 ^ 64 - 1) }
        ensures exact { HoldsFew self.now → result ≡ held self.now }
    {
        let transactions = self.transactions.held();
        let leaves = self.leaves.held();
        let activities = self.activities.held();
        transactions
            .saturating_add(leaves)
            .saturating_add(activities)
    }

    fn next_activity(&self, moment: &Moment, after: Option<Id>) -> Option<Item>
        ensures { (now : ℕ) → moment.entry.now ≡ moment_of self.now now → result ≡ next_activity self.now now after }
    {
        Some(Item::Activity(self.activities.next_due(after, moment)?))
    }

    fn next_leaf(&self, moment: &Moment, after: Option<Id>) -> Option<Item>
        ensures { (now : ℕ) → moment.entry.now ≡ moment_of self.now now → result ≡ next_leaf self.now now after }
    {
        match self.leaves.next_due(after, moment) {
            Some(id) => Some(Item::Leaf(id)),
            None => self.next_activity(moment, None),
        }
    }

    fn next_transaction(&self, moment: &Moment, after: Option<Id>) -> Option<Item>
        ensures { (now : ℕ) → moment.entry.now ≡ moment_of self.now now → result ≡ next_transaction self.now now after }
    {
        match self.transactions.next_due(after, moment) {
            Some(id) => Some(Item::Transaction(id)),
            None => self.next_leaf(moment, None),
        }
    }

    fn due_behind(&self, moment: &Moment, after: &Option<Item>) -> Option<Item>
        ensures { (now : ℕ) → moment.entry.now ≡ moment_of self.now now → result ≡ next_item self.now now after.now }
    {
        match after {
            None => self.next_transaction(moment, None),
            Some(Item::Transaction(id)) => self.next_transaction(moment, Some(*id)),
            Some(Item::Leaf(id)) => self.next_leaf(moment, Some(*id)),
            Some(Item::Activity(id)) => self.next_activity(moment, Some(*id)),
        }
    }

    /// The first item that is due behind this one, or the first at all: transactions, then leaves, then activities,
    /// each in the order of making.
    pub fn next_due(&mut self, after: Option<Item>, now: u64) -> Option<Item>
        ensures due { result ≡ next_item self.old now after }
        ensures kept { self.new ≡ self.old }
    {
        self.moment.now = now.max(self.seen);
        self.moment.next = self.next_id();
        self.due_behind(&self.moment, &after)
    }

    /// What going down loses: roots, then subordinates, then leaves, before their vote or decision.
    pub fn lost(&self, alloc: Global) -> Result<Effects, AllocError>
        ensures { IfOk result
            (λ effects. effects ≡ transactions_lost self.now.transactions ++ leaves_lost self.now.leaves) }
    {
        let mut effects = self.transactions.lost(alloc)?;
        let leaves = self.leaves.lost(alloc)?;
        append(&mut effects, leaves)?;
        Ok(effects)
    }
}
