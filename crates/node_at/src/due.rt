//! The steps of the items that are due.

ghost use Rattle.std.specs.Prelude.{◌≡◌, false};
ghost use Rattle.node_at.specs.Dues.{DueRun, IsDueStep};
ghost use Rattle.node_at.specs.State.{IsNode, seen};

use crate::laws::promises_stay;
use crate::node::Node;
use crate::step::Stepped;
use at_base::event::{Event, Item};
use decision_log::fold::keeps_on;
use interposition::book::{finds_the_due, walks_the_due};
use model_laws::rules::records_are_well_formed;
use site_model::site::Site;
use std::alloc::Global;

/// How far the items that are due were asked.
#[derive(Clone, Copy, Debug, PartialEq, Eq)]
pub enum DueEnd {
    /// All of them.
    All,
    /// There was no memory for the next one. Whether one came before it.
    NoRoom { came: bool },
}

impl Node {
    /// The step of an item that is due. It has no record, so a node never halts in it. Nothing is done where there is no memory.
    #[tactic(auto, using(crate::proofs::DueItems::due_done, crate::proofs::DueItems::due_not, crate::proofs::DueItems::due_never, crate::proofs::DueItems::node_after))]
    fn due_step<S: Site>(&mut self, alloc: Global, site: &mut S, item: &Item, now: u64) -> bool
        requires node { IsNode (seen self.old) }
        requires runs { self.old.halted ≡ false }
        ensures step { IsDueStep result now item.now (seen self.old) (seen self.new) (S.told site.old) (S.told site.new) }
        ensures node { IsNode (seen self.new) }
        ensures runs { self.new.halted ≡ false }
        ensures received { (S.told site.new).counts.receive ≡ (S.told site.old).counts.receive }
        ensures role { self.new.role ≡ self.old.role }
        ensures nothing { result ≡ false → site.new ≡ site.old }
    {
        keeps_on();
        promises_stay();
        records_are_well_formed();
        walks_the_due();
        match self.step(alloc, site, &Event::Due(*item), now) {
            Stepped::Done { .. } => true,
            Stepped::NoRoom | Stepped::Halted => false,
        }
    }

    /// One step for each item that is due, each asked when its place comes.
    #[tactic(auto, using(crate::proofs::DueItems::far_begin, crate::proofs::DueItems::far_more, crate::proofs::DueItems::far_all, crate::proofs::DueItems::far_cut))]
    pub(crate) fn due<S: Site>(&mut self, alloc: Global, site: &mut S, now: u64) -> DueEnd
        requires node { IsNode (seen self.old) }
        requires runs { self.old.halted ≡ false }
        ensures run { DueRun result now (seen self.old) (seen self.new) (S.told site.old) (S.told site.new) }
        ensures node { IsNode (seen self.new) }
        ensures runs { self.new.halted ≡ false }
        ensures received { (S.told site.new).counts.receive ≡ (S.told site.old).counts.receive }
        ensures role { self.new.role ≡ self.old.role }
    {
        finds_the_due();
        walks_the_due();
        let mut after = None;
        let mut came = false;
        while let Some(item) = self.book.next_due(after, now) {
            if !self.due_step(alloc, site, &item, now) {
                return DueEnd::NoRoom { came };
            }
            after = Some(item);
            came = true;
        }
        DueEnd::All
    }
}
