//! A node's turn: one connection.

ghost use Rattle.std.specs.Prelude.{◌≡◌, [], IsTrue, false, true, option_map};
ghost use Rattle.http_post.specs.OutBytes.{has_reason};
ghost use Rattle.model_laws.specs.BookBounds.{IsSoundEvent};
ghost use Rattle.site_model.specs.Counts.{Rose};
ghost use Rattle.node_at.specs.ConnectionRequests.{meaning_of};
ghost use Rattle.node_at.specs.Meanings.{IsFit, open_input};
ghost use Rattle.node_at.specs.Meanings.Meaning.{Lost, Refused, Steps};
ghost use Rattle.journal_at.specs.StandingBodies.{Counted};
ghost use Rattle.node_at.specs.Endings.{Ends, TakesTurn};
ghost use Rattle.node_at.specs.State.{IsNode, seen};
ghost use Rattle.node_at.specs.Turns.{IsAnswer, Serves, Turns, Works, turned_by};
ghost use Rattle.node_at.specs.declared.turn.Turned.TheVariants.{Halted, Served};

use crate::connection_request::{Asked, read};
use crate::due::DueEnd;
use crate::laws::{promises_stay, steps_reply};
use crate::node::Node;
use crate::shrink::Shrunk;
use crate::step::Stepped;
use at_base::event::Event;
use decision_log::fold::keeps_on;
use model_laws::rules::records_are_well_formed;
use site_model::site::{Site, Taken};
use site_model::source::Failed;
use std::alloc::Global;

/// What a turn came to.
#[derive(Clone, Copy, Debug, PartialEq, Eq)]
pub enum Turned {
    /// The request was answered with this status, and what was due was done. The status is 0 exactly where a receive failed,
    /// so that no request was there.
    Served { status: u16 },
    /// The request asked for what was due, and that was done. It was answered 202.
    Ticked,
    /// No connection comes any more.
    Closed,
    /// There was no memory for a step. The steps before it were done; where none was, the answer was 503.
    NoRoom,
    /// A record may stand or not: the node does nothing more.
    Halted,
    /// The listener failed.
    LinkDown,
}

/// What the turn of an event answers.
fn turned_by(event: &Event, status: u16) -> Turned
    ensures { result ≡ turned_by event.now status }
{
    match event {
        Event::Tick => Turned::Ticked,
        Event::Arrived(_) | Event::Local(_) | Event::Due(_) => Turned::Served { status },
    }
}

impl Node {
    /// The turn of a request that is refused.
    #[tactic(auto, using(crate::proofs::Turns::refused_whole, crate::proofs::Turns::refused_cut, crate::proofs::Turns::cut_first))]
    fn run_refused<S: Site>(
        &mut self,
        alloc: Global,
        site: &mut S,
        status: u16,
        text: &Option<Vec<u8>>,
        now: u64,
    ) -> Turned
        requires status { IsTrue (has_reason status) }
        requires node { IsNode (seen self.old) }
        requires runs { self.old.halted ≡ false }
        ensures works { Works result [] (Refused status (option_map (λ bytes. bytes.items) text.now)) now (seen self.old) (seen self.new) (S.told site.old) (S.told site.new) }
        ensures received { (S.told site.new).counts.receive ≡ (S.told site.old).counts.receive }
        ensures node { IsNode (seen self.new) }
        ensures role { self.new.role ≡ self.old.role }
    {
        if !self.refuse(alloc, site, status, text) {
            self.busy(site);
            return Turned::NoRoom;
        }
        match self.due(alloc, site, now) {
            DueEnd::All => Turned::Served { status },
            DueEnd::NoRoom { .. } => Turned::NoRoom,
        }
    }

    /// The turn of an event.
    #[tactic(auto, using(crate::proofs::Turns::event_whole, crate::proofs::Turns::event_cut, crate::proofs::Turns::event_halted, crate::proofs::Turns::cut_first, crate::proofs::DueItems::node_after))]
    fn run_event<S: Site>(&mut self, alloc: Global, site: &mut S, event: &Event, now: u64) -> Turned
        requires event { IsSoundEvent event.now }
        requires node { IsNode (seen self.old) }
        requires runs { self.old.halted ≡ false }
        ensures works { Works result [] (Steps event.now) now (seen self.old) (seen self.new) (S.told site.old) (S.told site.new) }
        ensures received { (S.told site.new).counts.receive ≡ (S.told site.old).counts.receive }
        ensures node { IsNode (seen self.new) }
        ensures role { self.new.role ≡ self.old.role }
    {
        keeps_on();
        promises_stay();
        records_are_well_formed();
        match self.step(alloc, site, event, now) {
            Stepped::Done { status } => match self.due(alloc, site, now) {
                DueEnd::All => turned_by(event, status),
                DueEnd::NoRoom { .. } => Turned::NoRoom,
            },
            Stepped::NoRoom => {
                self.busy(site);
                Turned::NoRoom
            }
            Stepped::Halted => Turned::Halted,
        }
    }

    /// The turn of a connection that failed: what is due is done.
    #[tactic(auto, using(crate::proofs::Turns::lost_whole, crate::proofs::Turns::lost_cut, crate::proofs::Turns::lost_busy))]
    fn run_lost<S: Site>(&mut self, alloc: Global, site: &mut S, now: u64) -> Turned
        requires node { IsNode (seen self.old) }
        requires runs { self.old.halted ≡ false }
        ensures works { Works result [] Lost now (seen self.old) (seen self.new) (S.told site.old) (S.told site.new) }
        ensures received { (S.told site.new).counts.receive ≡ (S.told site.old).counts.receive }
        ensures node { IsNode (seen self.new) }
        ensures role { self.new.role ≡ self.old.role }
    {
        match self.due(alloc, site, now) {
            DueEnd::All => Turned::Served { status: 0 },
            DueEnd::NoRoom { came } => {
                if !came {
                    self.busy(site);
                }
                Turned::NoRoom
            }
        }
    }

    /// The turn of a connection that asks this, at a time in milliseconds.
    #[tactic(auto, using(crate::proofs::Turns::cut_first))]
    fn run<S: Site>(&mut self, alloc: Global, site: &mut S, asked: &Asked, now: u64) -> Turned
        requires fit { IsFit (meaning_of asked.now) }
        requires node { IsNode (seen self.old) }
        requires runs { self.old.halted ≡ false }
        ensures works { Works result [] (meaning_of asked.now) now (seen self.old) (seen self.new) (S.told site.old) (S.told site.new) }
        ensures received { (S.told site.new).counts.receive ≡ (S.told site.old).counts.receive }
        ensures node { IsNode (seen self.new) }
        ensures role { self.new.role ≡ self.old.role }
    {
        match asked {
            Asked::Refused { status, text } => self.run_refused(alloc, site, *status, text, now),
            Asked::Steps(event) => self.run_event(alloc, site, event, now),
            Asked::Lost => self.run_lost(alloc, site, now),
            Asked::Unread => {
                self.busy(site);
                Turned::NoRoom
            }
        }
    }

    /// The turn of the connection that is open. The clock is asked once, when the request is read.
    #[tactic(auto, using(crate::proofs::Turns::serves_so))]
    fn serve<S: Site>(&mut self, alloc: Global, site: &mut S) -> Turned
        requires node { IsNode (seen self.old) }
        requires runs { self.old.halted ≡ false }
        ensures serves { Serves result self.old.role (open_input (S.told site.old).link) (seen self.old) (seen self.new) (S.told site.old) (S.told site.new) }
        ensures node { IsNode (seen self.new) }
        ensures role { self.new.role ≡ self.old.role }
    {
        let asked = read(alloc, site, self.role);
        let now = site.now();
        let turned = self.run(alloc, site, &asked, now);
        site.close();
        turned
    }

    /// Opens a connection, and serves it.
    #[tactic(auto, using(crate::proofs::Turns::turns_opened, crate::proofs::Turns::turns_closed, crate::proofs::Turns::turns_down, crate::proofs::Turns::turns_halted))]
    fn take_turn<S: Site>(&mut self, alloc: Global, site: &mut S) -> Turned
        requires { IsNode (seen self.old) }
        ensures turns { Turns result self.old.role (seen self.old) (seen self.new) (S.told site.old) (S.told site.new) }
        ensures halted { self.old.halted ≡ true → (result ≡ Halted) × (site.new ≡ site.old) }
        ensures node { IsNode (seen self.new) }
        ensures role { self.new.role ≡ self.old.role }
    {
        self.effects.clear();
        if self.halted {
            return Turned::Halted;
        }
        match site.take() {
            Ok(Taken::Opened) => self.serve(alloc, site),
            Ok(Taken::Closed) => Turned::Closed,
            Err(Failed) => Turned::LinkDown,
        }
    }

    /// Where all steps were done, writes the journal anew, if that is due.
    #[tactic(auto, using(crate::proofs::StepRecords::counted_none))]
    fn end_turn<S: Site>(&mut self, alloc: Global, site: &mut S, turned: Turned) -> Turned
        requires { IsNode (seen self.old) }
        ensures ends { Ends S.told turned result self.new.shrunk (seen self.old) (seen self.new) site.old site.new }
        ensures counted { Counted (S.told site.old) (S.told site.new) }
        ensures node { IsNode (seen self.new) }
        ensures role { self.new.role ≡ self.old.role }
    {
        match turned {
            Turned::Served { .. } | Turned::Ticked => {
                let _ = self.shrink_if_due(alloc, site);
                if self.halted { Turned::Halted } else { turned }
            }
            Turned::Closed | Turned::NoRoom | Turned::Halted | Turned::LinkDown => {
                self.shrunk = Shrunk::NotDue;
                turned
            }
        }
    }

    /// Takes one connection: reads its request, does the step of it, answers and posts, and then does one step for each item
    /// that is due, at the time of one look at the clock. At its end the journal is written anew, if that is due.
    #[tactic(auto, using(crate::proofs::TurnAnswers::turn_lost, crate::proofs::TurnAnswers::turn_received))]
    pub fn turn<S: Site>(&mut self, alloc: Global, site: &mut S) -> Turned
        requires { IsNode (seen self.old) }
        ensures turn { TakesTurn S.told result self.old.role self.new.shrunk (seen self.old) (seen self.new) site.old site.new }
        ensures unanswered { result ≡ Served 0 → Rose (S.told site.old).counts.receive (S.told site.new).counts.receive }
        ensures answered { IsAnswer result → (S.told site.new).counts.receive ≡ (S.told site.old).counts.receive }
        ensures halted { self.old.halted ≡ true → (result ≡ Halted) × (site.new ≡ site.old) }
        ensures node { IsNode (seen self.new) }
        ensures role { self.new.role ≡ self.old.role }
    {
        steps_reply();
        let turned = self.take_turn(alloc, site);
        self.end_turn(alloc, site, turned)
    }
}
