//! The live activities of a node: planned first, and then done.

ghost use Rattle.std.specs.Prelude.{ℕ, ◌≡◌, IfOk, [], None, if◌then◌else◌, nat_lt, length, option_copied, option_map, filter, not};
ghost use Rattle.at_base.specs.declared.limits.TheConstants.{MOST_ACTIVITIES};
ghost use Rattle.at_model.specs.Activities.{on_ask, on_complete};
ghost use Rattle.at_model.specs.Book.{Book, find_by, activity_id, next_id};
ghost use Rattle.at_model.specs.Due.{activity_due};
ghost use Rattle.at_model.specs.Step.{activity_at, activity_due_plan, asking_plan, begin_plan, initiator_plan, interpose_plan, is_reached, is_under, local_plan, moment_of, no_room, only_begun, plain, put_activities, refuses, refuses_named, still, stranger_plan, works_left};
ghost use Rattle.at_tables.specs.Tables.{initiator_of};
ghost use Rattle.at_tables.specs.declared.cells.State.TheVariants as states;
ghost use Rattle.by_id.specs.Lists.{next_due};
ghost use Rattle.by_id.specs.Plans.{branch_of, chosen};
ghost use Rattle.by_id.specs.Wholes.{whole_or};
ghost use Rattle.by_id.specs.declared.fates.Choice.TheVariants as choices;
ghost use Rattle.completion_at.specs.Names.{refusal_of};
ghost use Rattle.completion_at.specs.ActivityPlans.{Holds, RefusesAsTheModel, refused_at, settled, unless, with_activities};

use crate::activity::Activity;
use crate::due::on_due;
use crate::requests::{
    Refusal, has_works_left, is_active, no_room, on_ask, on_begin, on_complete, on_interpose,
    only_begun, refuses_named, works_left,
};
use crate::rules::{is_begun, on_activity};
use at_base::event::{Arrived, Local, Moment};
use at_base::id::Id;
use at_base::limits::MOST_ACTIVITIES;
use at_base::notice::{Kind, Notice, Vote};
use at_base::outs::{OutList, Outs};
use at_base::text::Text;
use at_posts::answers::accepted;
use by_id::fates::{Choice, Turn};
use by_id::list::{Alteration, ById, is_same};
use by_id::place::Items;
use by_id::plan::{Branch, Plan};
use std::alloc::{AllocError, Global};
use std::marker::Model;

/// A request is refused as the model refuses it.
#[tactic(auto, using(crate::proofs::RequestPlans::refuses_as_the_model))]
pub fn refuses_as_the_model()
    ensures { RefusesAsTheModel }
{}

/// The live activities of a node, in the order of making.
#[derive(Drop)]
pub struct Activities {
    live: ById<Activity>,
}

impl Model for Activities {
    ghost use Rattle.std.specs.Prelude.{List};
    ghost use Rattle.at_model.specs.Book.{Activity as Known};

    ghost Value = { List Known };

    ghost view = { λ s. s.live };
}

/// The plan of what a request does to the activity that it names.
fn going(
    alloc: Global,
    turn: Turn<Activity, ()>,
    activity: &Activity,
) -> Result<Plan<Activity, ()>, AllocError>
    ensures { IfOk result (λ plan. plan ≡ chosen [] activity.now.id (choices.Goes turn)) }
{
    Choice::Goes(turn).into_plan(alloc, OutList::from_vec(Vec::new(alloc)), activity.id)
}

/// Whether an activity is the one of this id, or was interposed under it.
fn is_under(id: Id, activity: &Activity) -> bool
    ensures { result ≡ is_under id activity.now }
{
    is_same(activity.root, id)
}

/// Drops all activities that are under this one.
fn drop_under(live: &mut ById<Activity>, id: Id)
    ensures { live.new ≡ filter (λ a. not (is_under id a)) live.old }
{
    live.retain(|activity| !is_under(id, activity));
}

impl Activities {
    /// No activities, and room for as many as may live.
    pub fn new(alloc: Global) -> Result<Activities, AllocError>
        ensures { IfOk result (λ activities. activities ≡ []) }
    {
        Ok(Activities {
            live: ById::new(alloc)?,
        })
    }

    /// These activities, with room for as many as may live.
    pub fn from_vec(items: Vec<Activity>) -> Result<Activities, AllocError>
        ensures { IfOk result (λ activities. activities ≡ items.items) }
    {
        Ok(Activities {
            live: ById::from_vec(items)?,
        })
    }

    /// The activities, in the order of making.
    pub fn iter(&self) -> Items<'_, Activity>
        ensures { result ≡ self.now }
    {
        self.live.iter()
    }

    /// How many activities live.
    pub fn len(&self) -> usize
        ensures { result ≡ length self.now }
    {
        self.live.len()
    }

    /// How many activities they hold. It takes no memory.
    pub fn held(&self) -> u64
        ensures { result ≡ length self.now }
    {
        self.live.len() as u64
    }

    /// The activity of this id.
    pub fn find(&self, id: Id) -> Option<&Activity>
        ensures { option_copied result ≡ find_by activity_id id self.now }
    {
        self.live.find(id)
    }

    /// The id of the first activity that is due, behind this one or at all.
    pub fn next_due(&self, after: Option<Id>, moment: &Moment) -> Option<Id>
        ensures { result
            ≡ next_due activity_id (λ a. is_reached (activity_due moment.entry.now a)) after self.now }
    {
        self.live.next_due(after, moment)
    }

    /// Why a request is refused, where the next item gets this id: the first cause that holds.
    pub fn refuses(&self, next: Option<Id>, local: &Local) -> Option<Refusal>
        ensures { option_map refusal_of result ≡ refused_at next self.now local.now }
    {
        match local {
            Local::Begin { .. } => no_room(self.live.len(), next),
            Local::Interpose { activity, .. } => refuses_named(
                self.live.find(*activity),
                no_room(self.live.len(), next),
            ),
            Local::Work { activity, .. } => {
                let found = self.live.find(*activity);
                refuses_named(found, works_left(found))
            }
            Local::Commit { activity } | Local::Rollback { activity } => {
                let found = self.live.find(*activity);
                refuses_named(found, only_begun(found))
            }
        }
    }

    /// The id of one activity more, where there is room for it.
    fn next_id(&self, moment: &Moment) -> Option<Id>
        ensures { result
            ≡ if nat_lt (length self.now) MOST_ACTIVITIES then moment.entry.now.next else None }
    {
        if self.live.len() < MOST_ACTIVITIES {
            moment.next
        } else {
            None
        }
    }

    /// Begin: one activity more, where there is room for it.
    fn begin(
        &self,
        alloc: Global,
        moment: &Moment,
        coordinator: &Text,
        ms: u32,
    ) -> Result<Option<Plan<Activity, ()>>, AllocError>
        ensures { (b : Book) (now : ℕ) → Holds b now self.now moment.entry.now
            → IfOk result (λ plan. whole_or with_activities b now (plain (still b [])) plan
            ≡ unless b (no_room b (next_id b)) (begin_plan b now coordinator.now ms (next_id b))) }
    {
        let Some(id) = self.next_id(moment) else {
            return Ok(None);
        };
        let plan = on_begin(alloc, moment, id, coordinator, ms)?;
        Ok(Some(plan))
    }

    /// Interpose: one activity more under the root of this one, where that takes it and there is room.
    fn interpose(
        &self,
        alloc: Global,
        moment: &Moment,
        activity: Id,
        coordinator: &Text,
    ) -> Result<Option<Plan<Activity, ()>>, AllocError>
        ensures { (b : Book) (now : ℕ) → Holds b now self.now moment.entry.now
            → IfOk result (λ plan. whole_or with_activities b now (plain (still b [])) plan
            ≡ unless b (refuses_named (activity_at b activity) (no_room b (next_id b)))
            (interpose_plan b now coordinator.now (next_id b) (activity_at b activity))) }
    {
        let Some(above) = self.live.find(activity) else {
            return Ok(None);
        };
        if !is_active(above.progress) {
            return Ok(None);
        }
        let Some(id) = self.next_id(moment) else {
            return Ok(None);
        };
        let plan = on_interpose(alloc, moment, id, coordinator, above)?;
        Ok(Some(plan))
    }

    /// Work: asks a service for work under the activity's context, where it takes that and can count it.
    fn ask(
        &self,
        alloc: Global,
        moment: &Moment,
        activity: Id,
        url: &Text,
        kind: Kind,
        vote: Vote,
        key: &Text,
        value: &Text,
    ) -> Result<Option<Plan<Activity, ()>>, AllocError>
        ensures { (b : Book) (now : ℕ) → Holds b now self.now moment.entry.now
            → IfOk result (λ plan. whole_or with_activities b now (plain (still b [])) plan
            ≡ unless b (refuses_named (activity_at b activity) (works_left (activity_at b activity)))
            (asking_plan b now (λ a. on_ask (moment_of b now) url.now kind vote key.now value.now a a.context) (activity_at b activity))) }
    {
        match self.live.find(activity) {
            Some(found) if is_active(found.progress) && has_works_left(found) => {
                let turn = on_ask(alloc, moment, url, kind, vote, key, value, found)?;
                let plan = going(alloc, turn, found)?;
                Ok(Some(plan))
            }
            _ => Ok(None),
        }
    }

    /// Commit or Rollback: asks the completion seat for that outcome, where the activity was begun and takes it.
    #[tactic(auto, using(crate::proofs::RequestPlans::completes))]
    fn complete(
        &self,
        alloc: Global,
        moment: &Moment,
        activity: Id,
        notice: Notice,
    ) -> Result<Option<Plan<Activity, ()>>, AllocError>
        ensures { (b : Book) (now : ℕ) → Holds b now self.now moment.entry.now
            → IfOk result (λ plan. whole_or with_activities b now (plain (still b [])) plan
            ≡ unless b (refuses_named (activity_at b activity) (only_begun (activity_at b activity)))
            (asking_plan b now (on_complete (moment_of b now) notice) (activity_at b activity))) }
    {
        match self.live.find(activity) {
            Some(found) if is_active(found.progress) && is_begun(found) => {
                let turn = on_complete(alloc, moment, notice, found)?;
                let plan = going(alloc, turn, found)?;
                Ok(Some(plan))
            }
            _ => Ok(None),
        }
    }

    /// What a request does; none where it is refused.
    #[tactic(auto, using(crate::proofs::RequestPlans::requests), unfolding(at_model::specs::Step::request_plan))]
    pub fn asked(
        &self,
        alloc: Global,
        moment: &Moment,
        local: &Local,
    ) -> Result<Option<Plan<Activity, ()>>, AllocError>
        ensures { (b : Book) (now : ℕ) → Holds b now self.now moment.entry.now
            → IfOk result (λ plan. whole_or with_activities b now (plain (still b [])) plan ≡ local_plan b now local.now (refuses b local.now)) }
    {
        match local {
            Local::Begin { coordinator, ms } => self.begin(alloc, moment, coordinator, *ms),
            Local::Interpose {
                activity,
                coordinator,
            } => self.interpose(alloc, moment, *activity, coordinator),
            Local::Work {
                activity,
                service,
                kind,
                vote,
                key,
                value,
            } => self.ask(alloc, moment, *activity, service, *kind, *vote, key, value),
            Local::Commit { activity } => self.complete(alloc, moment, *activity, Notice::Commit),
            Local::Rollback { activity } => self.complete(
                alloc,
                moment,
                *activity,
                Notice::Rollback,
            ),
        }
    }

    /// What a message does at the activity of this id; none where there is no such activity.
    #[tactic(auto, using(crate::proofs::ActivityPlans::at_found, crate::proofs::ActivityPlans::at_none))]
    pub fn at_activity(
        &self,
        alloc: Global,
        moment: &Moment,
        arrived: &Arrived,
        id: Id,
    ) -> Result<Option<Plan<Activity, ()>>, AllocError>
        ensures { (b : Book) (now : ℕ) → Holds b now self.now moment.entry.now
            → IfOk result (λ plan. whole_or with_activities b now (stranger_plan b now arrived.now (initiator_of states.None) arrived.now.message) plan
            ≡ initiator_plan b now arrived.now (activity_at b id)) }
    {
        let Some(activity) = self.live.find(id) else {
            return Ok(None);
        };
        let choice = on_activity(alloc, moment, arrived, activity)?;
        let plan = choice.into_plan(alloc, accepted(alloc)?, activity.id)?;
        Ok(Some(plan))
    }

    /// What the activity of this id does by itself, where there is one.
    #[tactic(auto, using(crate::proofs::ActivityPlans::due, crate::proofs::ActivityPlans::due_none))]
    pub fn due(
        &self,
        alloc: Global,
        moment: &Moment,
        id: Id,
    ) -> Result<Option<Plan<Activity, ()>>, AllocError>
        ensures { (b : Book) (now : ℕ) → Holds b now self.now moment.entry.now
            → IfOk result (λ plan. whole_or with_activities b now (plain (still b [])) plan ≡ activity_due_plan b now (activity_at b id)) }
    {
        let Some(activity) = self.live.find(id) else {
            return Ok(None);
        };
        let choice = on_due(alloc, moment, activity)?;
        let plan = choice.into_plan(alloc, OutList::from_vec(Vec::new(alloc)), activity.id)?;
        Ok(Some(plan))
    }

    /// Drops the activity of this id, and all that are under it.
    fn drop_with(&mut self, id: Id)
        ensures { self.new ≡ put_activities id None self.old }
    {
        self.live.put(id, None);
        drop_under(&mut self.live, id);
    }

    /// Takes over what becomes of the list.
    fn settle(&mut self, change: Alteration<Activity, ()>)
        ensures { self.new ≡ settled change self.old }
    {
        match change {
            Alteration::Keep => {}
            Alteration::Put { id, item } => match item {
                Some(activity) => self.live.put(id, Some(activity)),
                None => self.drop_with(id),
            },
            Alteration::Move { .. } => {}
            Alteration::Add(activity) => self.live.add(activity),
        }
    }

    /// Does what was planned, where its record landed, and where it didn't. It takes no memory, and cannot fail.
    pub fn apply(&mut self, plan: Plan<Activity, ()>, landed: bool) -> Outs
        ensures list { self.new ≡ settled (branch_of plan landed).change self.old }
        ensures outs { result ≡ (branch_of plan landed).outs }
    {
        let Branch { change, outs } = plan.into_branch(landed);
        self.settle(change);
        outs
    }
}
