//! Requests of the program that runs a node.

ghost use Rattle.std.specs.Prelude.{◌≡◌, [], Some, None, IfOk, IfSome, false, true};
ghost use Rattle.at_base.specs.declared.event.Event.TheVariants as events;
ghost use Rattle.at_base.specs.declared.event.Local.{Local};
ghost use Rattle.at_model.specs.Step.{refuses};
ghost use Rattle.node_at.specs.Locals.{Asked, answered_id, named_by};
ghost use Rattle.node_at.specs.State.{IsNode, seen};
ghost use Rattle.node_at.specs.Steps.{Keeping};
ghost use Rattle.completion_at.specs.declared.requests.Refusal.{Refusal};
ghost use Rattle.node_at.specs.declared.local.Locally.TheVariants.{Refused};

use crate::laws::promises_stay;
use crate::node::Node;
use crate::step::Stepped;
use at_base::event::{Event, Local};
use at_base::id::Id;
use at_base::outs::Effect;
use completion_at::requests::Refusal;
use decision_log::fold::keeps_on;
use model_laws::rules::records_are_well_formed;
use site_model::site::Site;
use std::alloc::{AllocError, Global};

/// What became of a request.
#[derive(Clone, Copy, Debug, PartialEq, Eq)]
pub enum Locally {
    /// Its step was done. The id of the activity that it made, or else of the one that it names.
    Done { id: Id },
    /// It does nothing as things stand.
    Refused { why: Refusal },
    /// There was no memory, and nothing was done.
    NoRoom,
    /// The node does nothing more.
    Halted,
}

/// The activity that a request names, where it doesn't make one.
fn named_by(request: &Local) -> Option<Id>
    ensures { result ≡ named_by request.now }
{
    match request {
        Local::Begin { .. } | Local::Interpose { .. } => None,
        Local::Work { activity, .. } | Local::Commit { activity } | Local::Rollback { activity } =>
            Some(*activity),
    }
}

impl Node {
    /// The id that a request is answered with that isn't refused: that of the activity that it names, or makes.
    #[tactic(auto, using(crate::proofs::LocalRequests::named_id, crate::proofs::LocalRequests::next_is))]
    fn id_of(&self, named: Option<Id>) -> Option<Id>
        ensures { (l : Local) → named ≡ named_by l → result ≡ answered_id self.now.book l }
    {
        match named {
            Some(id) => Some(id),
            None => self.book.next_id(),
        }
    }

    /// One step for a request that isn't refused.
    fn ask<S: Site>(&mut self, alloc: Global, site: &mut S, request: Local) -> Locally
        requires node { IsNode (seen self.old) }
        requires runs { self.old.halted ≡ false }
        requires taken { refuses self.old.book request ≡ None }
        requires effects { (seen self.old).effects ≡ [] }
        ensures asked { Asked result (seen self.old) (seen self.new) request (S.told site.old) (S.told site.new) }
        ensures node { IsNode (seen self.new) }
        ensures role { self.new.role ≡ self.old.role }
        ensures shrunk { self.new.shrunk ≡ self.old.shrunk }
        ensures counted { Keeping (S.told site.old) (S.told site.new) }
    {
        keeps_on();
        promises_stay();
        records_are_well_formed();
        let now = site.now();
        let named = named_by(&request);
        let event = Event::Local(request);
        let Some(id) = self.id_of(named) else {
            return Locally::NoRoom;
        };
        match self.step(alloc, site, &event, now) {
            Stepped::Done { .. } => Locally::Done { id },
            Stepped::NoRoom => Locally::NoRoom,
            Stepped::Halted => Locally::Halted,
        }
    }

    /// A request of the program that runs the node: one step, unless it is refused.
    pub fn local<S: Site>(&mut self, alloc: Global, site: &mut S, request: &Local) -> Locally
        requires node { IsNode (seen self.old) }
        ensures asked { Asked result (seen self.old) (seen self.new) request.now (S.told site.old) (S.told site.new) }
        ensures node { IsNode (seen self.new) }
        ensures role { self.new.role ≡ self.old.role }
        ensures shrunk { self.new.shrunk ≡ self.old.shrunk }
        ensures nothing { (why : Refusal) → result ≡ Refused why → site.new ≡ site.old }
        ensures halted { self.old.halted ≡ true → site.new ≡ site.old }
        ensures counted { Keeping (S.told site.old) (S.told site.new) }
    {
        self.effects.clear();
        if self.halted {
            return Locally::Halted;
        }
        match self.book.refuses(request) {
            Some(why) => Locally::Refused { why },
            None => match request.clone() {
                Ok(copy) => self.ask(alloc, site, copy),
                Err(_) => Locally::NoRoom,
            },
        }
    }

    /// The effects of the last call, in order.
    pub fn effects(&self) -> &[Effect]
        ensures { result.now ≡ (seen self.now).effects }
    {
        self.effects.as_slice()
    }
}
