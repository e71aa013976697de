//! The live leaves of a node: planned first, and then done.

ghost use Rattle.std.specs.Prelude.{ℕ, ◌≡◌, ◌∷◌, IfOk, OnOk, [], ◌++◌, length, option_copied};
ghost use Rattle.at_base.specs.declared.message.Message.TheVariants as messages;
ghost use Rattle.at_model.specs.Book.{Book, find_by, leaf_id};
ghost use Rattle.at_model.specs.Due.{leaf_due};
ghost use Rattle.at_model.specs.Step.{is_reached, leaf_at, leaf_due_plan, leaf_or_stranger_plan, plain, still, stranger_plan, work_plan};
ghost use Rattle.at_tables.specs.Tables.{participant_of};
ghost use Rattle.at_tables.specs.declared.cells.State.TheVariants as states;
ghost use Rattle.by_id.specs.Lists.{altered, next_due};
ghost use Rattle.by_id.specs.Plans.{branch_of};
ghost use Rattle.by_id.specs.Unmoved.{unmoved};
ghost use Rattle.by_id.specs.Wholes.{whole_or};
ghost use Rattle.participant_at.specs.LeafPlans.{Holds, leaves_lost, whole, with_leaves};

use crate::due::{may_expire, on_due};
use crate::leaf::Leaf;
use crate::rules::{ending, on_leaf};
use crate::work::on_work;
use at_base::event::{Arrived, Moment};
use at_base::id::Id;
use at_base::message::Work;
use at_base::notice::{Kind, is_kind};
use at_base::outs::{Effects, Ending, OutList, Outs};
use at_posts::answers::accepted;
use by_id::list::ById;
use by_id::place::Items;
use by_id::plan::{Branch, Plan};
use std::alloc::{AllocError, Global};
use std::marker::Model;

/// The live leaves of a node, in the order of making.
#[derive(Drop)]
pub struct Leaves {
    live: ById<Leaf>,
}

impl Model for Leaves {
    ghost use Rattle.std.specs.Prelude.{List};
    ghost use Rattle.at_model.specs.Book.{Leaf as Known};

    ghost Value = { List Known };

    ghost view = { λ s. s.live };
}

/// The end of a leaf that going down loses.
fn push_lost(effects: &mut Effects, leaf: &Leaf) -> Result<(), AllocError>
    ensures { OnOk result (effects.new ≡ effects.old ++ leaves_lost (leaf.now ∷ [])) }
{
    if may_expire(leaf.state) {
        effects.push(ending(leaf, Ending::Lost))?;
    }
    Ok(())
}

impl Leaves {
    /// No leaves, and room for as many as may live.
    pub fn new(alloc: Global) -> Result<Leaves, AllocError>
        ensures { IfOk result (λ leaves. leaves ≡ []) }
    {
        Ok(Leaves {
            live: ById::new(alloc)?,
        })
    }

    /// The leaves of a recovered node.
    pub fn from_vec(items: Vec<Leaf>) -> Result<Leaves, AllocError>
        ensures { IfOk result (λ leaves. leaves ≡ items.items) }
    {
        Ok(Leaves {
            live: ById::from_vec(items)?,
        })
    }

    /// The leaves, in the order of making.
    pub fn iter(&self) -> Items<'_, Leaf>
        ensures { result ≡ self.now }
    {
        self.live.iter()
    }

    /// How many leaves live.
    pub fn len(&self) -> usize
        ensures { result ≡ length self.now }
    {
        self.live.len()
    }

    /// How many leaves they hold. It takes no memory.
    pub fn held(&self) -> u64
        ensures { result ≡ length self.now }
    {
        self.live.len() as u64
    }

    /// The leaf of this id.
    pub fn find(&self, id: Id) -> Option<&Leaf>
        ensures { option_copied result ≡ find_by leaf_id id self.now }
    {
        self.live.find(id)
    }

    /// The id of the first leaf that is due, behind this one or at all.
    pub fn next_due(&self, after: Option<Id>, moment: &Moment) -> Option<Id>
        ensures { result ≡ next_due leaf_id (λ l. is_reached (leaf_due moment.entry.now l)) after self.now }
    {
        self.live.next_due(after, moment)
    }

    /// What a Work does: one leaf more, or the Work is refused.
    #[tactic(auto, using(crate::proofs::LeafPlans::employs))]
    pub fn at_work(
        &self,
        alloc: Global,
        moment: &Moment,
        arrived: &Arrived,
        work: &Work,
    ) -> Result<Plan<Leaf, ()>, AllocError>
        ensures { (b : Book) (now : ℕ) → Holds b now self.now moment.entry.now
            → IfOk result (λ plan. whole b now plan ≡ work_plan b now arrived.now (messages.Work work.now)) }
    {
        on_work(alloc, moment, self.live.len(), arrived, work)
    }

    /// What a message does at the leaf of this id, where that has this kind; none where there is no such leaf.
    #[tactic(auto, using(crate::proofs::LeafPlans::at_kind, crate::proofs::LeafPlans::at_other, crate::proofs::LeafPlans::at_none))]
    pub fn at_leaf(
        &self,
        alloc: Global,
        moment: &Moment,
        arrived: &Arrived,
        id: Id,
        kind: Kind,
    ) -> Result<Option<Plan<Leaf, ()>>, AllocError>
        ensures { (b : Book) (now : ℕ) → Holds b now self.now moment.entry.now
            → IfOk result (λ plan. whole_or with_leaves b now (stranger_plan b now arrived.now (participant_of kind states.None) arrived.now.message) plan
            ≡ leaf_or_stranger_plan b now arrived.now kind (leaf_at b id)) }
    {
        let Some(leaf) = self.live.find(id) else {
            return Ok(None);
        };
        if !is_kind(leaf.kind, kind) {
            return Ok(None);
        }
        let choice = on_leaf(alloc, moment, arrived, leaf)?;
        let plan = choice.into_plan(alloc, accepted(alloc)?, leaf.id)?;
        Ok(Some(plan))
    }

    /// What the leaf of this id does by itself, where there is one.
    #[tactic(auto, using(crate::proofs::LeafPlans::asks, crate::proofs::LeafPlans::asks_none))]
    pub fn due(
        &self,
        alloc: Global,
        moment: &Moment,
        id: Id,
    ) -> Result<Option<Plan<Leaf, ()>>, AllocError>
        ensures { (b : Book) (now : ℕ) → Holds b now self.now moment.entry.now
            → IfOk result (λ plan. whole_or with_leaves b now (plain (still b [])) plan ≡ leaf_due_plan b now (leaf_at b id)) }
    {
        let Some(leaf) = self.live.find(id) else {
            return Ok(None);
        };
        let choice = on_due(alloc, moment, leaf)?;
        let plan = choice.into_plan(alloc, OutList::from_vec(Vec::new(alloc)), leaf.id)?;
        Ok(Some(plan))
    }

    /// Does what was planned, where its record landed, and where it didn't. It takes no memory, and cannot fail.
    pub fn apply(&mut self, plan: Plan<Leaf, ()>, landed: bool) -> Outs
        ensures list { self.new ≡ altered leaf_id unmoved (branch_of plan landed).change self.old }
        ensures outs { result ≡ (branch_of plan landed).outs }
    {
        let Branch { change, outs } = plan.into_branch(landed);
        self.live.alter(change);
        outs
    }
    /// What going down loses: the leaves that haven't voted, each with its end.
    pub fn lost(&self, alloc: Global) -> Result<Effects, AllocError>
        ensures { IfOk result (λ effects. effects ≡ leaves_lost self.now) }
    {
        let mut effects = Effects::from_vec(Vec::new(alloc));
        for leaf in self.live.iter() {
            push_lost(&mut effects, leaf)?;
        }
        Ok(effects)
    }
}
