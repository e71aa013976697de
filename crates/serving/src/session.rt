//! A node that is up, line after line.

ghost use Rattle.std.specs.List.{list_all};
ghost use Rattle.std.specs.Prelude.{◌≡◌, ◌++◌, ◌∷◌, ◌==◌, ◌≤◌, ◌<◌, ◌+◌, ◌-◌, ◌^◌, ◌&&◌, [], true, Some, None, IfOk, MatchOption, OnOk, if◌then◌else◌, length, option_map, vec_capacity};
ghost use Rattle.node_at.specs.State.{IsNode, seen};
ghost use Rattle.site_model.specs.Counts.{Rose};
ghost use Rattle.serving.specs.Notes.{adds, is_met, lacking, lacks, made_by, meets, noted, waited_behind};
ghost use Rattle.serving.specs.Requests.{item_request, printed};
ghost use Rattle.serving.specs.Runs.{Attends, Does, Prints, all_items};
ghost use Rattle.serving.specs.Sessions.{Finishes, HasRoom, Takes, notes_of};
ghost use Rattle.serving.specs.declared.service_end.Ended.TheVariants.{SinkFailed};

use crate::answer::Answer;
use crate::lines::{Unprinted, print};
use crate::request::{Request, line_request};
use crate::service_end::{Ended, done_by};
use at_base::id::Id;
use at_base::outs::{Effect, Told};
use node_at::node::Node;
use node_at::role::Role;
use schedules::initiator_line::InitiatorLine;
use shown_pages::showing::Showing;
use site_model::sink::Sink;
use status_pages::view::View;
use std::alloc::{AllocError, Global};

/// A node that is up, and what is noted of its lines.
#[derive(Drop)]
pub struct Session {
    pub node: Node,
    /// Its role, as its pages show it.
    pub role: Role,
    /// Of each line that makes an activity its id, unless it was refused.
    pub made: Vec<Option<Id>>,
    /// The activities of which a work was refused, by their numbers, from 1 on.
    pub unmet: Vec<u32>,
    /// Whether no line was refused, and each activity that ended was committed.
    pub met: bool,
    /// How many connections the `wait` that isn't through has served.
    pub waited: u64,
    /// Room for the line that is printed.
    pub line: String,
}

/// What an item asks: a line, or a turn where there is none.
fn item_request(
    alloc: Global,
    made: &[Option<Id>],
    unmet: &[u32],
    item: Option<&InitiatorLine>,
) -> Result<Request, AllocError>
    ensures { IfOk result (λ request. request ≡ item_request made.now unmet.now (option_map (λ l. l.now) item.entry)) }
{
    match item {
        Some(line) => line_request(alloc, made, unmet, line),
        None => Ok(Request::Wait),
    }
}

/// How many connections a `wait` has served that isn't through.
fn waited_behind(waited: u64, item: Option<&InitiatorLine>, answer: &Answer) -> u64
    requires { waited < 2 ^ 64 - 1 }
    ensures { result ≡ waited_behind waited (option_map (λ l. l.now) item.entry) answer.now }
{
    match item {
        Some(InitiatorLine::Wait) => {
            if answer.brings() || waited + 1 == u64::MAX {
                0
            } else {
                waited + 1
            }
        }
        Some(_) => 0,
        None => 0,
    }
}

/// Whether each activity that ended was committed.
fn are_met(effects: &[Effect]) -> bool
    ensures { result ≡ list_all is_met effects.now }
{
    for effect in effects {
        if !is_met(effect) {
            return false;
        }
    }
    true
}

/// Whether an activity that ended was committed.
fn is_met(effect: &Effect) -> bool
    ensures { result ≡ is_met effect.now }
{
    match effect {
        Effect::Told { what, .. } => match what {
            Told::Committed => true,
            Told::Aborted | Told::Unknown | Told::Refused => false,
        },
        Effect::Root { .. } | Effect::Sub { .. } | Effect::Leaf { .. } => true,
    }
}

/// The first line, and those behind it.
fn first(lines: &[InitiatorLine]) -> Option<(&InitiatorLine, &[InitiatorLine])>
    ensures { MatchOption result (lines.now ≡ []) (λ p. lines.now ≡ p.0.now ∷ p.1.now) }
{
    match lines.split_first() {
        Some((line, behind)) => Some((line, behind)),
        None => None,
    }
}

/// The lines that are left: all of them, where the first, a `wait`, has served connections and isn't through.
fn left<'a>(
    waited: u64,
    rest: &'a [InitiatorLine],
    behind: &'a [InitiatorLine],
) -> &'a [InitiatorLine]
    ensures { result.now ≡ (if waited == 0 then behind.now else rest.now) }
{
    if waited == 0 { behind } else { rest }
}

/// Makes room for what an item adds to what is noted.
fn make_room(
    made: &mut Vec<Option<Id>>,
    unmet: &mut Vec<u32>,
    item: Option<&InitiatorLine>,
) -> Result<(), AllocError>
    ensures same { (made.new.items ≡ made.old.items) × (unmet.new.items ≡ unmet.old.items) }
    ensures room { OnOk result (HasRoom (option_map (λ l. l.now) item.entry) made.new.items (vec_capacity made.new) unmet.new.items (vec_capacity unmet.new)) }
{
    match item {
        Some(InitiatorLine::Begin { .. } | InitiatorLine::Interpose { .. }) => made.reserve(1),
        Some(InitiatorLine::Work { .. }) => unmet.reserve(1),
        Some(_) => Ok(()),
        None => Ok(()),
    }
}

impl Session {
    /// Does what a line asks. Before a turn the machine shows the node's pages to who asks for them.
    #[tactic(auto, using(crate::proofs::Sessions::asks, crate::proofs::Sessions::turns))]
    fn answer<H: Showing>(&mut self, alloc: Global, request: &Request, site: &mut H) -> Answer
        requires { IsNode (seen self.old.node) }
        ensures does { Does H.told self.old.node.role request.now result (seen self.old.node) (seen self.new.node) site.old site.new }
        ensures node { IsNode (seen self.new.node) }
        ensures role { self.new.node.role ≡ self.old.node.role }
        ensures notes { notes_of self.new ≡ notes_of self.old }
        ensures room { (vec_capacity self.new.made ≡ vec_capacity self.old.made) × (vec_capacity self.new.unmet ≡ vec_capacity self.old.unmet) }
    {
        match request {
            Request::Local(local) => Answer::Local(self.node.local(alloc, site, local)),
            Request::Stale => Answer::Stale,
            Request::Wait => {
                let node = &self.node;
                let role = self.role;
                site.show(&View { role, node });
                Answer::Turn(self.node.turn(alloc, site))
            }
        }
    }

    /// Keeps of which activity a work was refused, where it was. There is room for it.
    fn lack(&mut self, activity: u32, answer: &Answer)
        requires { length self.old.unmet.items + 1 ≤ vec_capacity self.old.unmet }
        ensures unmet { self.new.unmet.items ≡ self.old.unmet.items ++ lacking activity answer.now }
        ensures node { (seen self.new.node ≡ seen self.old.node) × (self.new.node.role ≡ self.old.node.role) }
        ensures others { (self.new.made.items ≡ self.old.made.items) × (self.new.met ≡ self.old.met) × (self.new.waited ≡ self.old.waited) }
    {
        if answer.is_refused() && self.unmet.push(activity).is_err() {}
    }

    /// Keeps what was made. There is room for it.
    fn make(&mut self, answer: &Answer)
        requires { length self.old.made.items + 1 ≤ vec_capacity self.old.made }
        ensures made { self.new.made.items ≡ self.old.made.items ++ made_by answer.now ∷ [] }
        ensures node { (seen self.new.node ≡ seen self.old.node) × (self.new.node.role ≡ self.old.node.role) }
        ensures others { (self.new.unmet.items ≡ self.old.unmet.items) × (self.new.met ≡ self.old.met) × (self.new.waited ≡ self.old.waited) }
    {
        if self.made.push(answer.made()).is_err() {}
    }

    /// Keeps what was made, and what was refused. There is room for it.
    fn keep(&mut self, item: Option<&InitiatorLine>, answer: &Answer)
        requires { HasRoom (option_map (λ l. l.now) item) self.old.made.items (vec_capacity self.old.made) self.old.unmet.items (vec_capacity self.old.unmet) }
        ensures kept { (self.new.made.items ≡ self.old.made.items ++ adds (option_map (λ l. l.now) item.entry) answer.now) × (self.new.unmet.items ≡ self.old.unmet.items ++ lacks (option_map (λ l. l.now) item.entry) answer.now) }
        ensures node { (seen self.new.node ≡ seen self.old.node) × (self.new.node.role ≡ self.old.node.role) }
        ensures others { (self.new.met ≡ self.old.met) × (self.new.waited ≡ self.old.waited) }
    {
        match item {
            Some(InitiatorLine::Begin { .. } | InitiatorLine::Interpose { .. }) => self.make(
                answer,
            ),
            Some(InitiatorLine::Work { activity, .. }) => self.lack(*activity, answer),
            Some(_) => {}
            None => {}
        }
    }

    /// Notes whether what was asked for came to pass, and how long a `wait` has waited.
    fn mark(&mut self, item: Option<&InitiatorLine>, answer: &Answer)
        requires { self.old.waited < 2 ^ 64 - 1 }
        ensures met { self.new.met ≡ (self.old.met && meets answer.now (seen self.old.node).effects) }
        ensures waited { self.new.waited ≡ waited_behind self.old.waited (option_map (λ l. l.now) item.entry) answer.now }
        ensures node { (seen self.new.node ≡ seen self.old.node) × (self.new.node.role ≡ self.old.node.role) }
        ensures others { (self.new.made.items ≡ self.old.made.items) × (self.new.unmet.items ≡ self.old.unmet.items) }
        ensures room { (vec_capacity self.new.made ≡ vec_capacity self.old.made) × (vec_capacity self.new.unmet ≡ vec_capacity self.old.unmet) }
    {
        self.waited = waited_behind(self.waited, item, answer);
        self.met = self.met && !answer.is_refused() && are_met(self.node.effects());
    }

    /// Prints what an answer brought about, and says how serving ends behind it, where it does.
    #[tactic(auto, using(crate::proofs::Sessions::finished, crate::proofs::Sessions::unprinted))]
    fn finish<K: Sink>(
        &mut self,
        item: Option<&InitiatorLine>,
        answer: &Answer,
        sink: &mut K,
    ) -> Option<Ended>
        requires waited { self.old.waited < 2 ^ 64 - 1 }
        requires room { HasRoom (option_map (λ l. l.now) item) self.old.made.items (vec_capacity self.old.made) self.old.unmet.items (vec_capacity self.old.unmet) }
        ensures finishes { Finishes result (noted (notes_of self.old) (option_map (λ l. l.now) item.entry) answer.now (seen self.old.node).effects).met answer.now (printed answer.now (seen self.old.node).effects) (K.contents sink.old) (K.contents sink.new) }
        ensures noted { result ≡ None → notes_of self.new ≡ noted (notes_of self.old) (option_map (λ l. l.now) item.entry) answer.now (seen self.old.node).effects }
        ensures node { (seen self.new.node ≡ seen self.old.node) × (self.new.node.role ≡ self.old.node.role) }
        ensures cause { result ≡ Some SinkFailed → Rose (K.faults sink.old) (K.faults sink.new) }
        ensures later { K.faults sink.old ≤ K.faults sink.new }
    {
        match print(&mut self.line, answer, self.node.effects(), sink) {
            Ok(()) => {}
            Err(Unprinted::NoMemory) => return Some(Ended::NoMemory),
            Err(Unprinted::SinkFailed) => return Some(Ended::SinkFailed),
        }
        self.mark(item, answer);
        self.keep(item, answer);
        answer.ended(self.met)
    }

    /// Does a line, or a turn where there is none, and prints what it brought about. Says how serving ends behind it, where it
    /// does. A `wait` is one turn, and perhaps not through behind it.
    #[tactic(auto, using(crate::proofs::Sessions::takes, crate::proofs::Sessions::idles, crate::proofs::Sessions::room_kept))]
    fn take<K: Sink, H: Showing>(
        &mut self,
        alloc: Global,
        item: Option<&InitiatorLine>,
        sink: &mut K,
        site: &mut H,
    ) -> Option<Ended>
        requires node { IsNode (seen self.old.node) }
        requires waited { self.old.waited < 2 ^ 64 - 1 }
        ensures takes { Takes H.told self.old.node.role (option_map (λ l. l.now) item.entry) result (notes_of self.old) (notes_of self.new) (seen self.old.node) (seen self.new.node) site.old site.new (K.contents sink.old) (K.contents sink.new) }
        ensures node { IsNode (seen self.new.node) }
        ensures role { self.new.node.role ≡ self.old.node.role }
        ensures cause { result ≡ Some SinkFailed → Rose (K.faults sink.old) (K.faults sink.new) }
        ensures later { K.faults sink.old ≤ K.faults sink.new }
    {
        let request = match item_request(alloc, self.made.as_slice(), self.unmet.as_slice(), item) {
            Ok(request) => request,
            Err(_) => return Some(Ended::NoMemory),
        };
        if make_room(&mut self.made, &mut self.unmet, item).is_err() {
            return Some(Ended::NoMemory);
        }
        let answer = self.answer(alloc, &request, site);
        self.finish(item, &answer, sink)
    }

    /// Does line after line, and then so many turns, and prints what each brings about.
    pub fn attend<K: Sink, H: Showing>(
        &mut self,
        alloc: Global,
        lines: &[InitiatorLine],
        turns: u64,
        sink: &mut K,
        site: &mut H,
    ) -> Ended
        requires node { IsNode (seen self.old.node) }
        requires first { (self.old.made.items ≡ []) × (self.old.unmet.items ≡ []) × (self.old.met ≡ true) × (self.old.waited ≡ 0) }
        ensures attends { Prints (Attends H.told self.old.node.role (all_items lines.now turns) (seen self.old.node) site.old site.new) result (K.contents sink.old) (K.contents sink.new) }
        ensures cause { result ≡ SinkFailed → Rose (K.faults sink.old) (K.faults sink.new) }
        ensures later { K.faults sink.old ≤ K.faults sink.new }
    {
        let mut rest = lines;
        while let Some((line, behind)) = first(rest) {
            match self.take(alloc, Some(line), sink, site) {
                Some(ended) => return ended,
                None => {}
            }
            rest = left(self.waited, rest, behind);
        }
        for _ in 0..turns {
            match self.take(alloc, None, sink, site) {
                Some(ended) => return ended,
                None => {}
            }
        }
        done_by(self.met)
    }
}
