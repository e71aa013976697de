//! Small changes of a transaction, that are made where it stands.

ghost use Rattle.std.specs.Prelude.{◌≡◌, IfOk, map};
ghost use Rattle.at_model.specs.Book.{Transaction as Known};
ghost use Rattle.transaction_at.specs.Moves.{changed, enlisted, move_seat, moved, seat_behind, seats_behind};

use crate::room::Room;
use crate::seats::{Group, stands};
use crate::transaction::{Completion, Enlistment, Phase, Seats, Superior, Transaction};
use at_base::message::cloned_option;
use at_tables::cells::State;
use std::alloc::{AllocError, Global};

/// What becomes of seats.
#[derive(Clone, Copy, Debug, PartialEq, Eq)]
pub enum SeatMove {
    /// The seat of this number goes into this state.
    One { number: u16, state: State },
    /// Each seat of the group goes into this state.
    Each { group: Group, state: State },
}

impl SeatMove {
    /// The state that a seat goes into, where it is in this one.
    #[tactic(auto, using(crate::proofs::SeatCounts::stands_so))]
    fn state(self, seat: &Enlistment, state: State) -> State
        ensures { record seat.now { state = result } ≡ move_seat self (record seat.now { state = state }) }
    {
        match self {
            SeatMove::One {
                number,
                state: next,
            } => { if seat.number == number { next } else { state } }
            SeatMove::Each { group, state: next } => {
                if stands(seat.kind, state, group) {
                    next
                } else {
                    state
                }
            }
        }
    }

    /// Makes the move.
    fn make(self, seats: &mut Seats)
        ensures { seats.new ≡ map (move_seat self) seats.old }
    {
        match self {
            SeatMove::One { number, state } => seats.set_state(number, state),
            SeatMove::Each { group, state } => seats.move_each(group, state),
        }
    }
}

/// The state of a seat behind these moves.
pub(crate) fn state_behind(seat: &Enlistment, moves: &[SeatMove]) -> State
    ensures { record seat.now { state = result } ≡ seat_behind moves.now seat.now }
{
    let mut state = seat.state;
    for by in moves {
        state = by.state(seat, state);
    }
    state
}

/// Makes these moves, the first of them first.
fn make_each(seats: &mut Seats, moves: &[SeatMove])
    ensures { seats.new ≡ seats_behind moves.now seats.old }
{
    for by in moves {
        by.make(seats);
    }
}

/// What a step changes of a transaction. What isn't here stays as it is.
#[derive(Debug)]
pub struct Changed {
    pub superior: Option<Superior>,
    pub phase: Phase,
    pub sent: Option<u64>,
    pub aborted: Option<u64>,
    /// What becomes of the seats, the first move first.
    pub seats: Vec<SeatMove>,
    pub completion: Option<Completion>,
}

impl Drop for Changed {
    fn drop(self) {
        let Changed {
            superior: _superior,
            phase: _phase,
            sent: _sent,
            aborted: _aborted,
            seats: _seats,
            completion: _completion,
        } = self;
    }
}

/// A copy of these moves.
fn copied(moves: &Vec<SeatMove>) -> Result<Vec<SeatMove>, AllocError>
    ensures { IfOk result (λ copy. copy.items ≡ moves.now.items) }
{
    let mut copy = Vec::with_capacity(*moves.allocator(), moves.len())?;
    copy.extend_from_slice(moves.as_slice())?;
    Ok(copy)
}

impl Changed {
    /// Nothing is changed.
    #[tactic(auto, using(crate::proofs::Drafts::unchanged))]
    pub(crate) fn none(alloc: Global, transaction: &Transaction) -> Result<Changed, AllocError>
        ensures { IfOk result (λ changes. changed changes transaction.now ≡ transaction.now) }
    {
        let superior = cloned_option(&transaction.superior)?;
        let completion = cloned_option(&transaction.completion)?;
        Ok(Changed {
            superior,
            phase: transaction.phase,
            sent: transaction.sent,
            aborted: transaction.aborted,
            seats: Vec::new(alloc),
            completion,
        })
    }

    /// The same once more.
    pub(crate) fn copied(&self) -> Result<Changed, AllocError>
        ensures { (transaction : Known) → IfOk result
            (λ copy. changed copy transaction ≡ changed self.now transaction) }
    {
        let superior = cloned_option(&self.superior)?;
        let completion = cloned_option(&self.completion)?;
        let seats = copied(&self.seats)?;
        Ok(Changed {
            superior,
            phase: self.phase,
            sent: self.sent,
            aborted: self.aborted,
            seats,
            completion,
        })
    }

    /// Changes the transaction. It takes no memory.
    fn make(self, transaction: &mut Transaction)
        ensures { transaction.new ≡ changed self transaction.old }
    {
        let Changed {
            superior,
            phase,
            sent,
            aborted,
            seats,
            completion,
        } = self;
        make_each(&mut transaction.seats, seats.as_slice());
        transaction.superior = superior;
        transaction.phase = phase;
        transaction.sent = sent;
        transaction.aborted = aborted;
        transaction.completion = completion;
    }
}

/// A small change of a transaction. To make it takes no memory.
#[derive(Debug)]
pub enum Move {
    /// The seat of this number goes into this state.
    Seat {
        number: u16,
        state: State,
    },
    /// It has sent, at this moment.
    Sent(u64),
    /// It has one seat more, and has sent, where a moment is given. Nothing happens where there is no room for the seat.
    Enlisted {
        seat: Enlistment,
        sent: Option<u64>,
        room: Room,
    },
    /// It has an initiator.
    Initiator(Completion),
    /// More of it changes.
    Changed(Changed),
}

impl Drop for Move {
    fn drop(self) {
        match self {
            Move::Seat {
                number: _number,
                state: _state,
            } => {}
            Move::Sent(_sent) => {}
            Move::Enlisted {
                seat: _seat,
                sent: _sent,
                room: _room,
            } => {}
            Move::Initiator(_completion) => {}
            Move::Changed(_changes) => {}
        }
    }
}

/// One seat more, where there is room for it.
fn enlist(transaction: &mut Transaction, seat: Enlistment, sent: Option<u64>, room: Room)
    ensures { transaction.new ≡ enlisted seat sent room transaction.old }
{
    if transaction.seats.enlist(seat, room) && sent.is_some() {
        transaction.sent = sent;
    }
}

impl Move {
    /// Makes the move. It takes no memory, and cannot fail.
    pub fn make(self, transaction: &mut Transaction)
        ensures { transaction.new ≡ moved self transaction.old }
    {
        match self {
            Move::Seat { number, state } => transaction.seats.set_state(number, state),
            Move::Sent(now) => transaction.sent = Some(now),
            Move::Enlisted { seat, sent, room } => enlist(transaction, seat, sent, room),
            Move::Initiator(completion) => transaction.completion = Some(completion),
            Move::Changed(changes) => changes.make(transaction),
        }
    }
}
