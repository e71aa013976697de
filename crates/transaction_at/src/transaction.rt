//! A transaction: its phase, its participants' seats, its initiator, and what makes it a subordinate.

ghost use Rattle.std.specs.Prelude.{ℕ, List, ◌≡◌, ◌≤◌, ◌<◌, ◌+◌, ◌++◌, ◌∷◌, [], ◌&&◌, IfOk, OnOk, OnErr, find, if◌then◌else◌, length, option_copied, true};
ghost use Rattle.std.specs.List.{list_any};
ghost use Rattle.std.specs.Vec.{vec_capacity};
ghost use Rattle.at_base.specs.Names.{is_kind};
ghost use Rattle.at_base.specs.Numbers.{Numbers};
ghost use Rattle.at_model.specs.Book.{is_epr};
ghost use Rattle.at_tables.specs.declared.cells.State.TheVariants as states;
ghost use Rattle.at_model.specs.Due.{is_some_post, seats_again};
ghost use Rattle.at_model.specs.Seats.{all_left, answered, in_state, moved};
ghost use Rattle.at_model.specs.Step.{find_seat};
ghost use Rattle.transaction_at.specs.Counts.{counted};
ghost use Rattle.transaction_at.specs.Groups.{belongs};
ghost use Rattle.transaction_at.specs.Numbers.{is_numbered};
ghost use Rattle.transaction_at.specs.Rooms.{has_room, room_of};

use crate::counts::{Counts, counted};
use crate::holders::{note, seat_of};
use crate::numbers::{counts_after, is_next, seat, set_state};
use crate::room::{Room, room_of};
use crate::seats::{Group, belongs};
use at_base::epr::{Epr, Reply};
use at_base::id::Id;
use at_base::message::cloned_option;
use at_base::notice::Kind;
use at_base::text::Text;
use at_tables::cells::State;
use std::alloc::{AllocError, Global};
use std::marker::Model;

/// A participant that a transaction accepted, and its seat (WS-Coordination 1.2, section 3.2).
#[derive(Debug)]
pub struct Enlistment {
    /// 1 to 512, in the order of registration.
    pub number: u16,
    /// The protocol that it registered for.
    pub kind: Kind,
    /// The participant's endpoint.
    pub participant: Epr,
    /// The state of its seat.
    pub state: State,
}

impl Drop for Enlistment {
    fn drop(self) {
        let Enlistment {
            number: _number,
            kind: _kind,
            participant: _participant,
            state: _state,
        } = self;
    }
}

impl Model for Enlistment {
    ghost use Rattle.at_model.specs.Book.{Enlistment as Known};

    ghost Value = { Known };

    ghost view = { λ s. record {
      number = s.number;
      kind = s.kind;
      participant = s.participant;
      state = s.state;
    } };
}

impl Clone for Enlistment {
    ghost is_clone = { λ seat copy. copy ≡ seat };

    fn clone(&self) -> Result<Enlistment, AllocError> {
        let participant = self.participant.clone()?;
        Ok(Enlistment {
            number: self.number,
            kind: self.kind,
            participant,
            state: self.state,
        })
    }
}

/// The seats of one transaction, in the order of registration, at most 512.
///
/// A message at one seat costs a halving, and what all seats are asked is counted. There is room for some more, which is
/// taken while a Register is planned.
#[derive(Debug, Drop)]
pub struct Seats {
    items: Vec<Enlistment>,
    counts: Counts,
    /// Whether their numbers rise, as they do in every node.
    rising: bool,
    /// Their places, in the order of kinds and endpoints.
    index: Vec<usize>,
}

impl Model for Seats {
    ghost use Rattle.std.specs.Prelude.{List, ◌≡◌, ◌≤◌, length, true};
    ghost use Rattle.std.specs.Vec.{vec_capacity};
    ghost use Rattle.at_model.specs.Book.{Enlistment as Known};
    ghost use Rattle.transaction_at.specs.Counts.{counted};
    ghost use Rattle.transaction_at.specs.Holders.{IsIndex};
    ghost use Rattle.transaction_at.specs.Numbers.{IsRising};
    ghost use Rattle.transaction_at.specs.Rooms.{room_of};

    ghost Value = { List Known };

    ghost view = { λ s. s.items.items };

    ghost invariant = { λ s.
        (s.counts ≡ counted s.items.items)
        × (s.rising ≡ true → IsRising s.items.items)
        × (room_of (length s.items.items) ≤ vec_capacity s.items)
        × IsIndex s.index.items s.items.items
        × (length s.index.items ≤ length s.items.items)
        × (room_of (length s.items.items) ≤ vec_capacity s.index) };
}

/// Moves each seat of the group into this state.
fn move_each(seats: &mut Vec<Enlistment>, group: Group, state: State)
    ensures items { seats.new.items ≡ moved (belongs group) state seats.old.items }
    ensures room { vec_capacity seats.new ≡ vec_capacity seats.old }
{
    for seat in seats.iter_mut() {
        if belongs(seat, group) {
            seat.state = state;
        }
    }
}

/// Sees to it that there is room for one seat more, and for its place; whether there is.
#[tactic(auto, using(crate::proofs::Rooms::room_kept, crate::proofs::Rooms::room_enough))]
fn make_room(seats: &mut Vec<Enlistment>, index: &mut Vec<usize>, room: Room) -> bool
    requires seats { room_of (length seats.old.items) ≤ vec_capacity seats.old }
    requires index { room_of (length seats.old.items) ≤ vec_capacity index.old }
    requires few { length index.old.items ≤ length seats.old.items }
    ensures answer { result ≡ has_room room seats.old.items }
    ensures items { seats.new.items ≡ seats.old.items }
    ensures places { index.new.items ≡ index.old.items }
    ensures room { room_of (length seats.old.items) ≤ vec_capacity seats.new }
    ensures index_room { room_of (length seats.old.items) ≤ vec_capacity index.new }
    ensures more { result ≡ true
        → (length seats.old.items < vec_capacity seats.new)
        × (room_of (length seats.old.items + 1) ≤ vec_capacity seats.new)
        × (length index.old.items < vec_capacity index.new)
        × (room_of (length seats.old.items + 1) ≤ vec_capacity index.new) }
{
    let count = seats.len();
    if count < room_of(count) {
        return true;
    }
    if room_of(count + 1) <= room.len() {
        room.hold(seats, index);
        return true;
    }
    false
}

impl Seats {
    /// No seats.
    #[tactic(auto, using(crate::proofs::SeatHolders::index_none))]
    pub fn new(alloc: Global) -> Seats
        ensures { result ≡ [] }
    {
        Seats {
            items: Vec::new(alloc),
            counts: Counts::none(),
            rising: true,
            index: Vec::new(alloc),
        }
    }

    /// The `Vec` of the list, without a copy.
    pub fn into_vec(self) -> Vec<Enlistment>
        ensures { result.items ≡ self }
    {
        self.items
    }

    /// The list as a slice.
    pub fn as_slice(&self) -> &[Enlistment]
        ensures { result.now ≡ self.now }
    {
        self.items.as_slice()
    }

    /// Whether each seat of the kind has voted or left: one comparison, whatever the number of seats.
    #[tactic(auto, using(crate::proofs::SeatCounts::none_unanswered))]
    pub fn answered(&self, kind: Kind) -> bool
        ensures { result ≡ answered kind self.now }
    {
        self.counts.unanswered(kind) == 0
    }

    /// Whether a seat was asked and hasn't answered.
    #[tactic(auto, using(crate::proofs::SeatCounts::none_asked))]
    pub fn is_awaited(&self) -> bool
        ensures { (base : List ℕ) (id : Numbers) → result ≡ is_some_post (seats_again base id self.now) }
    {
        self.counts.asked != 0
    }

    /// How the seats count once that of this number is in this state.
    fn counts_after(&self, number: u16, state: State) -> Counts
        ensures { result ≡ counted (moved (is_numbered number) state self.now) }
    {
        counts_after(
            self.items.as_slice(),
            self.counts,
            self.rising,
            number,
            state,
        )
    }

    /// Whether each seat of the kind has voted or left, once that of this number is in this state.
    #[tactic(auto, using(crate::proofs::SeatCounts::none_unanswered))]
    pub fn answered_after(&self, number: u16, state: State, kind: Kind) -> bool
        ensures { result ≡ answered kind (moved (is_numbered number) state self.now) }
    {
        self.counts_after(number, state).unanswered(kind) == 0
    }

    /// Whether every durable seat has left, once that of this number is in this state.
    #[tactic(auto, using(crate::proofs::SeatCounts::none_staying))]
    pub fn all_left_after(&self, number: u16, state: State) -> bool
        ensures { result ≡ all_left (moved (is_numbered number) state self.now) }
    {
        self.counts_after(number, state).staying == 0
    }

    /// Whether a seat is Aborting, once that of this number is in this state.
    #[tactic(auto, using(crate::proofs::SeatCounts::none_aborting))]
    pub fn is_aborting_after(&self, number: u16, state: State) -> bool
        ensures { result ≡ list_any (in_state states.Aborting) (moved (is_numbered number) state self.now) }
    {
        self.counts_after(number, state).aborting != 0
    }

    /// The seat of this number and kind, or the first of them.
    pub fn seat(&self, number: u16, kind: Kind) -> Option<&Enlistment>
        ensures { option_copied result ≡ find_seat number kind self.now }
    {
        seat(self.items.as_slice(), self.rising, number, kind)
    }

    /// The seat that this endpoint has for this kind, or the first of them.
    pub fn seat_of(&self, kind: Kind, participant: &Epr) -> Option<&Enlistment>
        ensures { option_copied result
            ≡ find (λ s. is_kind s.kind kind && is_epr s.participant participant.now) self.now }
    {
        seat_of(
            self.index.as_slice(),
            self.items.as_slice(),
            kind,
            participant,
        )
    }

    /// Room for one seat more, as far as there isn't any here.
    #[tactic(auto, using(crate::proofs::Rooms::room_brought))]
    pub fn room(&self, alloc: Global) -> Result<Room, AllocError>
        ensures { IfOk result (λ room. has_room room self.now ≡ true) }
    {
        let count = self.items.len();
        let needed = if count < room_of(count) {
            0
        } else {
            room_of(count + 1)
        };
        Room::new(alloc, needed)
    }

    /// Adds one at the end, where there is room here or there; whether there is. It takes no memory.
    #[tactic(auto, using(crate::proofs::SeatCounts::small))]
    pub fn enlist(&mut self, seat: Enlistment, room: Room) -> bool
        ensures answer { result ≡ has_room room self.old }
        ensures list { self.new ≡ (if has_room room self.old then self.old ++ seat ∷ [] else self.old) }
    {
        if !make_room(&mut self.items, &mut self.index, room) {
            return false;
        }
        self.counts = self.counts.with(seat.kind, seat.state);
        self.rising = self.rising && is_next(self.items.as_slice(), &seat);
        note(
            &mut self.index,
            self.items.as_slice(),
            seat.kind,
            &seat.participant,
        );
        self.items.push_reserved(seat);
        true
    }

    /// Adds one at the end. After an error the list is as before.
    pub fn push(&mut self, alloc: Global, seat: Enlistment) -> Result<(), AllocError>
        ensures ok { OnOk result (self.new ≡ self.old ++ seat ∷ []) }
        ensures err { OnErr result (self.new ≡ self.old) }
    {
        let room = self.room(alloc)?;
        let _ = self.enlist(seat, room);
        Ok(())
    }

    /// Moves each seat of this number into this state, which in every node is one.
    pub fn set_state(&mut self, number: u16, state: State)
        ensures { self.new ≡ moved (is_numbered number) state self.old }
    {
        self.counts = self.counts_after(number, state);
        set_state(&mut self.items, self.rising, number, state);
    }

    /// Moves each seat of the group into this state.
    pub fn move_each(&mut self, group: Group, state: State)
        ensures { self.new ≡ moved (belongs group) state self.old }
    {
        move_each(&mut self.items, group, state);
        self.counts = counted(self.items.as_slice());
    }
}

/// A copy of a list of seats, with its room.
fn copied(items: &Vec<Enlistment>) -> Result<Vec<Enlistment>, AllocError>
    ensures { IfOk result
        (λ copy. (copy.items ≡ items.now.items) × (room_of (length items.now.items) ≤ vec_capacity copy)) }
{
    let mut copy = Vec::with_capacity(*items.allocator(), room_of(items.len()))?;
    for seat in items {
        copy.push(seat.clone()?)?;
    }
    Ok(copy)
}

/// A copy of the places of seats, of which there are so many, with its room.
fn copied_index(index: &Vec<usize>, count: usize) -> Result<Vec<usize>, AllocError>
    ensures { IfOk result (λ copy. (copy.items ≡ index.now.items) × (room_of count ≤ vec_capacity copy)) }
{
    let mut copy = Vec::with_capacity(*index.allocator(), room_of(count))?;
    copy.extend_from_slice(index.as_slice())?;
    Ok(copy)
}

impl Clone for Seats {
    ghost is_clone = { λ items copy. copy ≡ items };

    fn clone(&self) -> Result<Seats, AllocError> {
        let items = copied(&self.items)?;
        let index = copied_index(&self.index, self.items.len())?;
        Ok(Seats {
            items,
            counts: self.counts,
            rising: self.rising,
            index,
        })
    }
}

/// The initiator that registered for Completion (WS-AtomicTransaction 1.2, section 3.2).
#[derive(Debug)]
pub struct Completion {
    /// The initiator's endpoint.
    pub initiator: Epr,
    /// The state of its seat.
    pub state: State,
}

impl Drop for Completion {
    fn drop(self) {
        let Completion {
            initiator: _initiator,
            state: _state,
        } = self;
    }
}

impl Model for Completion {
    ghost use Rattle.at_model.specs.Book.{Completion as Known};

    ghost Value = { Known };

    ghost view = { λ c. record { initiator = c.initiator; state = c.state } };
}

impl Clone for Completion {
    ghost is_clone = { λ completion copy. copy ≡ completion };

    fn clone(&self) -> Result<Completion, AllocError> {
        let initiator = self.initiator.clone()?;
        Ok(Completion {
            initiator,
            state: self.state,
        })
    }
}

/// One of a subordinate's two registrations at its superior.
#[derive(Debug)]
pub struct Link {
    pub state: State,
    /// The endpoint of the superior's seat for it, once that is known.
    pub coordinator: Option<Epr>,
}

impl Drop for Link {
    fn drop(self) {
        let Link {
            state: _state,
            coordinator: _coordinator,
        } = self;
    }
}

impl Model for Link {
    ghost use Rattle.at_model.specs.Book.{Link as Known};

    ghost Value = { Known };

    ghost view = { λ l. record { state = l.state; coordinator = l.coordinator } };
}

impl Clone for Link {
    ghost is_clone = { λ link copy. copy ≡ link };

    fn clone(&self) -> Result<Link, AllocError> {
        let coordinator = cloned_option(&self.coordinator)?;
        Ok(Link {
            state: self.state,
            coordinator,
        })
    }
}

/// A subordinate's CreateCoordinationContext that is still to be answered (WS-Coordination 1.2, section 3.1).
#[derive(Debug)]
pub struct Request {
    /// Its MessageID.
    pub id: Option<Text>,
    /// Where its reply goes.
    pub reply: Epr,
    /// Where its fault goes.
    pub fault: Reply,
    /// The Expires of the answer, in milliseconds.
    pub expires: Option<u32>,
    /// Where the subordinate registers.
    pub registration: Epr,
}

impl Drop for Request {
    fn drop(self) {
        let Request {
            id: _id,
            reply: _reply,
            fault: _fault,
            expires: _expires,
            registration: _registration,
        } = self;
    }
}

impl Model for Request {
    ghost use Rattle.at_model.specs.Book.{Request as Known};

    ghost Value = { Known };

    ghost view = { λ r. record {
      id = r.id;
      reply = r.reply;
      fault = r.fault;
      expires = r.expires;
      registration = r.registration;
    } };
}

impl Clone for Request {
    ghost is_clone = { λ request copy. copy ≡ request };

    fn clone(&self) -> Result<Request, AllocError> {
        let id = cloned_option(&self.id)?;
        let reply = self.reply.clone()?;
        let fault = self.fault.clone()?;
        let registration = self.registration.clone()?;
        Ok(Request {
            id,
            reply,
            fault,
            expires: self.expires,
            registration,
        })
    }
}

/// What makes a transaction a subordinate: its links to its superior.
#[derive(Debug)]
pub struct Superior {
    /// Its registration for Volatile Two-Phase Commit.
    pub volatile: Link,
    /// Its registration for Durable Two-Phase Commit.
    pub durable: Link,
    /// The CreateCoordinationContext that made it, until it is answered.
    pub request: Option<Request>,
}

impl Drop for Superior {
    fn drop(self) {
        let Superior {
            volatile: _volatile,
            durable: _durable,
            request: _request,
        } = self;
    }
}

impl Model for Superior {
    ghost use Rattle.at_model.specs.Book.{Superior as Known};

    ghost Value = { Known };

    ghost view = { λ s. record { volatile = s.volatile; durable = s.durable; request = s.request } };
}

impl Clone for Superior {
    ghost is_clone = { λ superior copy. copy ≡ superior };

    fn clone(&self) -> Result<Superior, AllocError> {
        let volatile = self.volatile.clone()?;
        let durable = self.durable.clone()?;
        let request = cloned_option(&self.request)?;
        Ok(Superior {
            volatile,
            durable,
            request,
        })
    }
}

/// Where a transaction stands (WS-AtomicTransaction 1.2, section 3.3).
#[derive(Clone, Copy, Debug, PartialEq, Eq)]
pub enum Phase {
    /// A subordinate that waits for the answer of a Register.
    Registering,
    /// It takes participants.
    Active,
    /// Its volatile participants prepare.
    Volatile,
    /// Its durable participants prepare.
    Durable,
    /// A subordinate that voted Prepared and waits for its superior.
    Voted,
    Committing,
    Aborting,
}

/// A transaction that this node coordinates (WS-AtomicTransaction 1.2, section 3).
#[derive(Debug)]
pub struct Transaction {
    pub id: Id,
    /// The Identifier of its coordination context.
    pub identifier: Text,
    /// None of a root.
    pub superior: Option<Superior>,
    pub phase: Phase,
    /// When it expires, in milliseconds.
    pub deadline: Option<u128>,
    /// When it last sent a message that is repeated, in milliseconds; none since it was recovered.
    pub sent: Option<u64>,
    /// When it aborted, in milliseconds.
    pub aborted: Option<u64>,
    pub seats: Seats,
    /// None before an initiator registered for Completion.
    pub completion: Option<Completion>,
}

impl Drop for Transaction {
    fn drop(self) {
        let Transaction {
            id: _id,
            identifier: _identifier,
            superior: _superior,
            phase: _phase,
            deadline: _deadline,
            sent: _sent,
            aborted: _aborted,
            seats: _seats,
            completion: _completion,
        } = self;
    }
}

impl Model for Transaction {
    ghost use Rattle.at_model.specs.Book.{Transaction as Known};
    ghost use Rattle.transaction_at.specs.PhaseNames.{phase_of};

    ghost Value = { Known };

    ghost view = { λ t. record {
      id = t.id;
      identifier = t.identifier;
      superior = t.superior;
      phase = phase_of t.phase;
      deadline = t.deadline;
      sent = t.sent;
      aborted = t.aborted;
      seats = t.seats;
      completion = t.completion;
    } };
}

impl Clone for Transaction {
    ghost is_clone = { λ transaction copy. copy ≡ transaction };

    fn clone(&self) -> Result<Transaction, AllocError> {
        let identifier = self.identifier.clone()?;
        let superior = cloned_option(&self.superior)?;
        let seats = self.seats.clone()?;
        let completion = cloned_option(&self.completion)?;
        Ok(Transaction {
            id: self.id,
            identifier,
            superior,
            phase: self.phase,
            deadline: self.deadline,
            sent: self.sent,
            aborted: self.aborted,
            seats,
            completion,
        })
    }
}
