//! One step.

ghost use Rattle.std.specs.Prelude.{◌≡◌, ◌≤◌, ◌+◌, ◌++◌, Bool, true, false, IfOk, OnOk, length, vec_capacity, Some, None, option_copied};
ghost use Rattle.at_base.specs.WellFormed.{IsWellFormed};
ghost use Rattle.decision_log.specs.KeptState.{HasRoom, known};
ghost use Rattle.decision_log.specs.Tokens.{token_of};
ghost use Rattle.interposition.specs.PlanResults.{done, recorded, sent};
ghost use Rattle.interposition.specs.ModelSteps.{IsStep};
ghost use Rattle.model_laws.specs.BookBounds.{IsSound, IsSoundEvent};
ghost use Rattle.node_at.specs.StepMemory.{AreTexts, HasRoomFor};
ghost use Rattle.node_at.specs.Promises.{PromisesStand};
ghost use Rattle.node_at.specs.Sends.{AllMayLeave, Sends, given};
ghost use Rattle.node_at.specs.State.{seen};
ghost use Rattle.node_at.specs.Steps.{Acts, Keeping, Steps, status_in};
ghost use Rattle.node_at.specs.declared.step.Stepped.TheVariants.{NoRoom};

use crate::laws::outs_may_leave;
use crate::node::Node;
use crate::send::send_all;
use crate::text::{Encoded, encode_outs};
use at_base::event::Event;
use at_base::outs::{Effect, Effects, Out, Outs};
use decision_log::keep::{KeepFault, keep};
use decision_log::kept::Kept;
use decision_log::kept_plan::KeptPlan;
use decision_log::token::Durable;
use interposition::book::keeps_bounds;
use interposition::plan::Plan;
use site_model::site::Site;
use std::alloc::{AllocError, Global};

/// What became of a step.
#[derive(Clone, Copy, Debug, PartialEq, Eq)]
pub enum Stepped {
    /// It was done, or undone where its record was refused. The status is that of its answer, 0 where it has none.
    Done { status: u16 },
    /// There was no memory, and nothing was done.
    NoRoom,
    /// Its record may stand or not, and the node does nothing more.
    Halted,
}

/// What leaves in each branch of a plan, and the room for its record.
#[derive(Drop)]
pub enum Texts {
    Plain {
        outs: Vec<Encoded>,
    },
    Recorded {
        entry: KeptPlan,
        landed: Vec<Encoded>,
        absent: Vec<Encoded>,
    },
}

/// A step for which all memory was taken.
#[derive(Drop)]
pub struct Prepared {
    plan: Plan,
    texts: Texts,
}

/// The status of the first answer, 0 where there is none.
fn status_in(outs: &[Out]) -> u16
    ensures { result ≡ status_in outs.now }
{
    for out in outs {
        if let Out::Answer { status, .. } = out {
            return *status;
        }
    }
    0
}

/// Makes room for the effects of either branch.
fn make_room(effects: &mut Vec<Effect>, landed: &Outs, absent: &Outs) -> Result<(), AllocError>
    ensures items { effects.new.items ≡ effects.old.items }
    ensures landed { OnOk result (length effects.new.items + length landed.now.effects ≤ vec_capacity effects.new) }
    ensures absent { OnOk result (length effects.new.items + length absent.now.effects ≤ vec_capacity effects.new) }
{
    let most = landed
        .effects
        .as_slice()
        .len()
        .max(absent.effects.as_slice().len());
    effects.reserve(most)
}

/// Adds effects, for which there is room.
fn add(effects: &mut Vec<Effect>, more: &Effects)
    requires { length effects.old.items + length more.now ≤ vec_capacity effects.old }
    ensures { effects.new.items ≡ effects.old.items ++ more.now }
{
    if effects.extend_from_slice(more.as_slice()).is_err() {}
}

/// The bytes of what leaves in each branch, and room for the record.
fn encode_both(alloc: Global, plan: &Plan, kept: &mut Kept) -> Result<Texts, AllocError>
    ensures texts { IfOk result (AreTexts plan.entry.now) }
    ensures room { IfOk result (λ t. HasRoomFor t kept.new) }
    ensures same { known kept.new ≡ known kept.old }
{
    let landed = encode_outs(alloc, plan.outs(true).outs.as_slice())?;
    match plan.entry() {
        Some(entry) => {
            let absent = encode_outs(alloc, plan.outs(false).outs.as_slice())?;
            let entry = kept.plan(entry)?;
            Ok(Texts::Recorded {
                entry,
                landed,
                absent,
            })
        }
        None => Ok(Texts::Plain { outs: landed }),
    }
}

impl Node {
    /// Plans a step, and takes all its memory.
    fn prepare(&mut self, alloc: Global, event: &Event, now: u64) -> Result<Prepared, AllocError>
        ensures plan { IfOk result (λ p. IsStep p.plan self.old.book event.now now) }
        ensures texts { IfOk result (λ p. AreTexts p.plan p.texts) }
        ensures room { IfOk result (λ p. HasRoomFor p.texts self.new.kept) }
        ensures effects { IfOk result (λ p. (landed : Bool) → length self.new.effects.items + length (sent p.plan landed).effects ≤ vec_capacity self.new.effects) }
        ensures same { seen self.new ≡ seen self.old }
        ensures kept { known self.new.kept ≡ known self.old.kept }
        ensures end { self.new.journal.end ≡ self.old.journal.end }
        ensures role { self.new.role ≡ self.old.role }
        ensures shrunk { self.new.shrunk ≡ self.old.shrunk }
    {
        let plan = self.book.plan(alloc, event, now)?;
        make_room(&mut self.effects, plan.outs(true), plan.outs(false))?;
        let texts = encode_both(alloc, &plan, &mut self.kept)?;
        Ok(Prepared { plan, texts })
    }

    /// Does what was planned, then answers, then posts.
    fn finish<S: Site>(
        &mut self,
        site: &mut S,
        plan: Plan,
        landed: bool,
        all: Vec<Encoded>,
        fresh: Option<&Durable>,
    ) -> u16
        requires effects { length self.old.effects.items + length (sent plan landed).effects ≤ vec_capacity self.old.effects }
        requires leave { AllMayLeave (given (option_copied fresh) (known self.old.kept)) (known self.old.kept).done all.items }
        ensures seen { seen self.new ≡ record (seen self.old) { book = done plan landed self.old.book; effects = self.old.effects.items ++ (sent plan landed).effects } }
        ensures kept { self.new.kept ≡ self.old.kept }
        ensures end { self.new.journal.end ≡ self.old.journal.end }
        ensures role { self.new.role ≡ self.old.role }
        ensures shrunk { self.new.shrunk ≡ self.old.shrunk }
        ensures status { result ≡ status_in (sent plan landed).outs }
        ensures sends { Sends (given (option_copied fresh.entry) (known self.old.kept)) (known self.old.kept).done all.items (S.told site.old) (S.told site.new) }
    {
        let outs = self.book.apply(plan, landed);
        add(&mut self.effects, &outs.effects);
        send_all(site, all, fresh, &self.kept);
        status_in(outs.outs.as_slice())
    }

    /// Appends the record, and does what was planned by what became of it.
    #[tactic(auto, using(crate::proofs::StepRecords::stopped, crate::proofs::StepRecords::keeping_both, crate::proofs::StepRecords::keeping_counted, crate::proofs::AllowedOuts::given_as))]
    fn recorded<S: Site>(
        &mut self,
        alloc: Global,
        site: &mut S,
        plan: Plan,
        entry: KeptPlan,
        landed: Vec<Encoded>,
        absent: Vec<Encoded>,
    ) -> Stepped
        requires formed { IsWellFormed entry.entry }
        requires room { HasRoom self.old.kept }
        requires effects { (landed : Bool) → length self.old.effects.items + length (sent plan landed).effects ≤ vec_capacity self.old.effects }
        requires landed { AllMayLeave (given (Some (token_of entry.entry)) (known self.old.kept)) (known self.old.kept).done landed.items }
        requires absent { AllMayLeave (given None (known self.old.kept)) (known self.old.kept).done absent.items }
        requires runs { self.old.halted ≡ false }
        requires sure { self.old.journal.unsure ≡ false }
        requires begun { 1 ≤ self.old.journal.end }
        ensures acts { Acts result plan entry.entry landed.items absent.items (seen self.old) (seen self.new) (S.told site.old) (S.told site.new) }
        ensures nothing { result ≡ NoRoom → site.new ≡ site.old }
        ensures end { self.old.journal.end ≤ self.new.journal.end }
        ensures role { self.new.role ≡ self.old.role }
        ensures shrunk { self.new.shrunk ≡ self.old.shrunk }
        ensures counted { Keeping (S.told site.old) (S.told site.new) }
    {
        match keep(alloc, &mut self.journal, site, entry.entry()) {
            Ok(token) => {
                let status = self.finish(site, plan, true, landed, Some(&token));
                self.kept.apply(entry, token);
                Stepped::Done { status }
            }
            Err(KeepFault::Refused) => {
                let status = self.finish(site, plan, false, absent, None);
                Stepped::Done { status }
            }
            Err(KeepFault::Full) => {
                let status = self.finish(site, plan, false, absent, None);
                Stepped::Done { status }
            }
            Err(KeepFault::NoMemory) => Stepped::NoRoom,
            Err(KeepFault::Unsure) => {
                self.halted = true;
                Stepped::Halted
            }
        }
    }

    /// One step: its record, if it has one, then its answer and its posts.
    ///
    /// All memory is taken before the first call of the disk.
    #[tactic(auto, using(crate::proofs::ModelSteps::plain_exit, crate::proofs::ModelSteps::recorded_steps, crate::proofs::ModelSteps::formed))]
    pub(crate) fn step<S: Site>(
        &mut self,
        alloc: Global,
        site: &mut S,
        event: &Event,
        now: u64,
    ) -> Stepped
        requires sound { IsSound self.old.book }
        requires event { IsSoundEvent event.now }
        requires promises { PromisesStand self.old.book (known self.old.kept) }
        requires runs { self.old.halted ≡ false }
        requires sure { self.old.journal.unsure ≡ false }
        requires begun { 1 ≤ self.old.journal.end }
        ensures steps { Steps result (seen self.old) (seen self.new) event.now now (S.told site.old) (S.told site.new) }
        ensures sound { IsSound self.new.book }
        ensures nothing { result ≡ NoRoom → site.new ≡ site.old }
        ensures end { self.old.journal.end ≤ self.new.journal.end }
        ensures role { self.new.role ≡ self.old.role }
        ensures shrunk { self.new.shrunk ≡ self.old.shrunk }
        ensures counted { Keeping (S.told site.old) (S.told site.new) }
    {
        keeps_bounds();
        outs_may_leave();
        match self.prepare(alloc, event, now) {
            Ok(Prepared { plan, texts }) => match texts {
                Texts::Plain { outs } => {
                    let status = self.finish(site, plan, true, outs, None);
                    Stepped::Done { status }
                }
                Texts::Recorded {
                    entry,
                    landed,
                    absent,
                } => self.recorded(alloc, site, plan, entry, landed, absent),
            },
            Err(_) => Stepped::NoRoom,
        }
    }
}
