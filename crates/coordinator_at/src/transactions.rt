//! The live transactions of a node: planned first, and then done.

ghost use Rattle.std.specs.Prelude.{ℕ, Bool, ◌≡◌, ◌∷◌, ◌++◌, ◌-◌, ◌^◌, IfOk, OnOk, [], Some, length, min, option_copied};
ghost use Rattle.at_base.specs.Numbers.{Numbers};
ghost use Rattle.at_base.specs.declared.message.Message.TheVariants as messages;
ghost use Rattle.at_model.specs.Book.{Book, find_by, transaction_id};
ghost use Rattle.at_model.specs.Due.{transaction_due};
ghost use Rattle.at_model.specs.Register.{protocol_named, register_unknown};
ghost use Rattle.at_model.specs.Step.{activation_plan, at_time, completion_plan, coordinator_plan, is_reached, link_plan, moment_of, plain, registration_plan, seatless_plan, still, stranger_plan, transaction_at, transaction_due_plan, transaction_plan};
ghost use Rattle.at_tables.specs.Tables.{coordinator_of, participant_of};
ghost use Rattle.at_tables.specs.declared.cells.State.TheVariants as states;
ghost use Rattle.by_id.specs.Lists.{altered, next_due};
ghost use Rattle.by_id.specs.Plans.{branch_of};
ghost use Rattle.by_id.specs.Wholes.{whole_or};
ghost use Rattle.coordinator_at.specs.Holdings.{transactions_held};
ghost use Rattle.coordinator_at.specs.TransactionPlans.{Holds, roots_lost, subordinates_lost, transactions_lost, whole, with_transactions};
ghost use Rattle.transaction_at.specs.Moves.{meant, moved};

use crate::create::on_create;
use crate::due::on_due;
use crate::holdings::all_held;
use crate::register::on_register;
use at_base::event::{Arrived, Moment};
use at_base::id::Id;
use at_base::message::{Create, Register};
use at_base::notice::Kind;
use at_base::outs::{Effects, Ending, OutList, Outs};
use at_base::target::Seat;
use at_posts::answers::accepted;
use by_id::fates::Choice;
use by_id::list::ById;
use by_id::place::Items;
use by_id::plan::{Branch, Plan};
use std::alloc::{AllocError, Global};
use std::marker::Model;
use transaction_at::answer::with_answer;
use transaction_at::at_completion::on_completion;
use transaction_at::at_link::on_link;
use transaction_at::at_seat::on_seat;
use transaction_at::due::may_expire;
use transaction_at::links::ending;
use transaction_at::moves::Move;
use transaction_at::transaction::Transaction;

/// The live transactions of a node, in the order of making.
#[derive(Drop)]
pub struct Transactions {
    live: ById<Transaction>,
}

impl Model for Transactions {
    ghost use Rattle.std.specs.Prelude.{List};
    ghost use Rattle.at_model.specs.Book.{Transaction as Known};

    ghost Value = { List Known };

    ghost view = { λ s. s.live };
}

/// What is chosen for a transaction that stands in the book, with the answer that its CreateCoordinationContext still
/// waits for.
fn moved(
    alloc: Global,
    moment: &Moment,
    answer: OutList,
    transaction: &Transaction,
    choice: Choice<Transaction, Move>,
) -> Result<Plan<Transaction, Move>, AllocError>
    ensures { (b : Book) (now : ℕ) (id : Numbers)
        → moment.entry.now ≡ moment_of b now → transaction_at b id ≡ Some transaction.now
        → IfOk result
        (λ plan. whole b now plan
        ≡ transaction_plan b now answer transaction.now (meant (Some transaction.now) choice)) }
{
    let choice = with_answer(alloc, moment, transaction, choice)?;
    choice.into_plan(alloc, answer, transaction.id)
}

/// What the superior's message does at a link of this transaction, which stands in the book; none where it has no
/// superior.
#[tactic(auto, using(crate::proofs::TransactionPlans::links, crate::proofs::TransactionPlans::links_none))]
pub fn at_link(
    alloc: Global,
    moment: &Moment,
    arrived: &Arrived,
    kind: Kind,
    transaction: &Transaction,
) -> Result<Option<Plan<Transaction, Move>>, AllocError>
    ensures { (b : Book) (now : ℕ) (id : Numbers)
        → moment.entry.now ≡ moment_of b now → transaction_at b id ≡ Some transaction.now
        → IfOk result
        (λ plan. whole_or with_transactions b now
        (stranger_plan b now arrived.now (participant_of kind states.None) arrived.now.message) plan
        ≡ link_plan b now arrived.now kind transaction.now transaction.now.superior) }
{
    let Some(superior) = &transaction.superior else {
        return Ok(None);
    };
    let choice = on_link(alloc, moment, arrived, kind, transaction, superior)?;
    let plan = moved(alloc, moment, accepted(alloc)?, transaction, choice)?;
    Ok(Some(plan))
}

/// The end of a root that going down loses.
fn push_lost_root(effects: &mut Effects, transaction: &Transaction) -> Result<(), AllocError>
    ensures { OnOk result (effects.new ≡ effects.old ++ roots_lost (transaction.now ∷ [])) }
{
    if transaction.superior.is_none() && may_expire(transaction.phase) {
        effects.push(ending(transaction, Ending::Lost))?;
    }
    Ok(())
}

/// The end of a subordinate that going down loses.
fn push_lost_subordinate(effects: &mut Effects, transaction: &Transaction) -> Result<(), AllocError>
    ensures { OnOk result (effects.new ≡ effects.old ++ subordinates_lost (transaction.now ∷ [])) }
{
    if transaction.superior.is_some() && may_expire(transaction.phase) {
        effects.push(ending(transaction, Ending::Lost))?;
    }
    Ok(())
}

/// The ends of the roots that going down loses.
fn push_lost_roots(effects: &mut Effects, live: Items<'_, Transaction>) -> Result<(), AllocError>
    ensures { OnOk result (effects.new ≡ effects.old ++ roots_lost live.entry) }
{
    for transaction in live {
        push_lost_root(effects, transaction)?;
    }
    Ok(())
}

/// The ends of the subordinates that going down loses.
fn push_lost_subordinates(
    effects: &mut Effects,
    live: Items<'_, Transaction>,
) -> Result<(), AllocError>
    ensures { OnOk result (effects.new ≡ effects.old ++ subordinates_lost live.entry) }
{
    for transaction in live {
        push_lost_subordinate(effects, transaction)?;
    }
    Ok(())
}

impl Transactions {
    /// The transactions of a recovered node.
    pub fn from_vec(items: Vec<Transaction>) -> Result<Transactions, AllocError>
        ensures { IfOk result (λ transactions. transactions ≡ items.items) }
    {
        Ok(Transactions {
            live: ById::from_vec(items)?,
        })
    }

    /// The transactions, in the order of making.
    pub fn iter(&self) -> Items<'_, Transaction>
        ensures { result ≡ self.now }
    {
        self.live.iter()
    }

    /// How many transactions live.
    pub fn len(&self) -> usize
        ensures { result ≡ length self.now }
    {
        self.live.len()
    }

    /// How many seats, completion seats and links (two of each subordinate) they hold, and the greatest number where there are
    /// more. It takes no memory.
    pub fn held(&self) -> u64
        ensures { result ≡ min (transactions_held self.now) (2 ^ 64 - 1) }
    {
        all_held(self.live.iter())
    }

    /// The transaction of this id.
    pub fn find(&self, id: Id) -> Option<&Transaction>
        ensures { option_copied result ≡ find_by transaction_id id self.now }
    {
        self.live.find(id)
    }

    /// The id of the first transaction that is due, behind this one or at all.
    pub fn next_due(&self, after: Option<Id>, moment: &Moment) -> Option<Id>
        ensures { result
            ≡ next_due transaction_id (λ t. is_reached (transaction_due moment.entry.now t)) after self.now }
    {
        self.live.next_due(after, moment)
    }

    /// What a CreateCoordinationContext does: one transaction more, or it is refused.
    #[tactic(auto, using(crate::proofs::TransactionPlans::creates))]
    pub fn at_activation(
        &self,
        alloc: Global,
        moment: &Moment,
        arrived: &Arrived,
        create: &Create,
    ) -> Result<Plan<Transaction, Move>, AllocError>
        ensures { (b : Book) (now : ℕ) → Holds b now self.now moment.entry.now
            → IfOk result
            (λ plan. whole b now plan ≡ activation_plan b now arrived.now (messages.Create create.now)) }
    {
        on_create(alloc, moment, self.live.len(), arrived, create)
    }

    /// What a Register does at the transaction of this id; none where there is no such transaction.
    #[tactic(auto, using(crate::proofs::TransactionPlans::registers, crate::proofs::TransactionPlans::registers_none))]
    pub fn at_registration(
        &self,
        alloc: Global,
        moment: &Moment,
        arrived: &Arrived,
        register: &Register,
        id: Id,
    ) -> Result<Option<Plan<Transaction, Move>>, AllocError>
        ensures { (b : Book) (now : ℕ) → Holds b now self.now moment.entry.now
            → IfOk result
            (λ plan. whole_or with_transactions b now
            (plain
            (still (at_time now b)
            (register_unknown arrived.now register.now (protocol_named register.now.protocol)))) plan
            ≡ registration_plan b now arrived.now (messages.Register register.now) (transaction_at b id)) }
    {
        let Some(transaction) = self.live.find(id) else {
            return Ok(None);
        };
        let given = on_register(alloc, moment, arrived, register, transaction)?;
        Ok(Some(given.into_plan(alloc, transaction.id)))
    }

    /// What a message does at the completion seat of the transaction of this id; none where there is no such
    /// transaction, or it has no initiator.
    #[tactic(auto, using(crate::proofs::TransactionPlans::completes, crate::proofs::TransactionPlans::completes_none, crate::proofs::TransactionPlans::completes_seatless))]
    pub fn at_completion(
        &self,
        alloc: Global,
        moment: &Moment,
        arrived: &Arrived,
        id: Id,
    ) -> Result<Option<Plan<Transaction, Move>>, AllocError>
        ensures { (b : Book) (now : ℕ) (done : Bool) → Holds b now self.now moment.entry.now
            → IfOk result
            (λ plan. whole_or with_transactions b now (seatless_plan b now arrived.now done) plan
            ≡ completion_plan b now arrived.now done (transaction_at b id)) }
    {
        let Some(transaction) = self.live.find(id) else {
            return Ok(None);
        };
        let Some(completion) = &transaction.completion else {
            return Ok(None);
        };
        let choice = on_completion(alloc, moment, arrived, transaction, completion)?;
        let plan = moved(alloc, moment, accepted(alloc)?, transaction, choice)?;
        Ok(Some(plan))
    }

    /// What a participant's message does at this seat of the transaction of this id; none where there is no such
    /// transaction, or no such seat.
    #[tactic(auto, using(crate::proofs::TransactionPlans::seats, crate::proofs::TransactionPlans::seats_none, crate::proofs::TransactionPlans::seats_seatless))]
    pub fn at_seat(
        &self,
        alloc: Global,
        moment: &Moment,
        arrived: &Arrived,
        id: Id,
        seat: Seat,
    ) -> Result<Option<Plan<Transaction, Move>>, AllocError>
        ensures { (b : Book) (now : ℕ) → Holds b now self.now moment.entry.now
            → IfOk result
            (λ plan. whole_or with_transactions b now
            (stranger_plan b now arrived.now (coordinator_of seat.kind states.None) arrived.now.message) plan
            ≡ coordinator_plan b now arrived.now seat.number seat.kind (transaction_at b id)) }
    {
        let Some(transaction) = self.live.find(id) else {
            return Ok(None);
        };
        let Some(enlistment) = transaction.seats.seat(seat.number, seat.kind) else {
            return Ok(None);
        };
        let choice = on_seat(alloc, moment, arrived, transaction, enlistment)?;
        let plan = moved(alloc, moment, accepted(alloc)?, transaction, choice)?;
        Ok(Some(plan))
    }

    /// What the transaction of this id does by itself, where there is one.
    #[tactic(auto, using(crate::proofs::TransactionPlans::asks, crate::proofs::TransactionPlans::asks_none))]
    pub fn due(
        &self,
        alloc: Global,
        moment: &Moment,
        id: Id,
    ) -> Result<Option<Plan<Transaction, Move>>, AllocError>
        ensures { (b : Book) (now : ℕ) → Holds b now self.now moment.entry.now
            → IfOk result
            (λ plan. whole_or with_transactions b now (plain (still b [])) plan
            ≡ transaction_due_plan b now (transaction_at b id)) }
    {
        let Some(transaction) = self.live.find(id) else {
            return Ok(None);
        };
        let choice = on_due(alloc, moment, transaction)?;
        let plan = moved(
            alloc,
            moment,
            OutList::from_vec(Vec::new(alloc)),
            transaction,
            choice,
        )?;
        Ok(Some(plan))
    }

    /// Does what was planned, where its record landed, and where it didn't. It takes no memory, and cannot fail.
    pub fn apply(&mut self, plan: Plan<Transaction, Move>, landed: bool) -> Outs
        ensures list { self.new ≡ altered transaction_id moved (branch_of plan landed).change self.old }
        ensures outs { result ≡ (branch_of plan landed).outs }
    {
        let Branch { change, outs } = plan.into_branch(landed);
        self.live.alter(change);
        outs
    }

    /// What going down loses: the undecided roots, and then the subordinates that haven't voted, each with its end.
    pub fn lost(&self, alloc: Global) -> Result<Effects, AllocError>
        ensures { IfOk result (λ effects. effects ≡ transactions_lost self.now) }
    {
        let mut effects = Effects::from_vec(Vec::new(alloc));
        push_lost_roots(&mut effects, self.live.iter())?;
        push_lost_subordinates(&mut effects, self.live.iter())?;
        Ok(effects)
    }
}
