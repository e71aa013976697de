//! Where the seat of a number stands: where numbers rise, which they do in every node, it is found by halving.

ghost use Rattle.std.specs.Prelude.{◌≡◌, ◌≤◌, ◌<◌, ◌++◌, ◌∷◌, [], if◌then◌else◌, length, nat_lt, option_copied, true, false};
ghost use Rattle.std.specs.List.Sorted.{IsPartitionPoint};
ghost use Rattle.std.specs.Vec.{vec_capacity};
ghost use Rattle.at_model.specs.Seats.{moved};
ghost use Rattle.at_model.specs.Step.{find_seat};
ghost use Rattle.transaction_at.specs.Counts.{counted};
ghost use Rattle.transaction_at.specs.Numbers.{IsRising, is_numbered, place_of, state_at};

use crate::counts::Counts;
use crate::transaction::Enlistment;
use at_base::notice::{Kind, is_kind};
use at_tables::cells::State;

/// Whether this seat's number is greater than the last one of these.
#[tactic(auto, using(crate::proofs::SeatNumbers::rising_pushed))]
pub fn is_next(seats: &[Enlistment], seat: &Enlistment) -> bool
    ensures { result ≡ true → IsRising seats.now → IsRising (seats.now ++ seat.now ∷ []) }
{
    match seats.last() {
        Some(last) => last.number < seat.number,
        None => true,
    }
}

/// The place of the first seat whose number isn't less than this one, or the length where there is none, by halving.
fn first_from(seats: &[Enlistment], number: u16) -> usize
    requires { IsRising seats.now }
    ensures bound { result ≤ length seats.now }
    ensures place { IsPartitionPoint (λ s. nat_lt s.number number ≡ true) (λ s. nat_lt s.number number ≡ false) seats.now result }
{
    seats.partition_point(
        |seat: &Enlistment| -> bool
            ensures { result ≡ nat_lt seat.now.number number }
        { seat.number < number },
    )
}

/// The place of the seat of this number, or the length where there is none, by halving.
fn place(seats: &[Enlistment], number: u16) -> usize
    requires { IsRising seats.now }
    ensures { result ≡ place_of number seats.now }
{
    let place = first_from(seats, number);
    if place == seats.len() {
        return place;
    }
    let seat = &seats[place];
    if seat.number == number {
        place
    } else {
        seats.len()
    }
}

/// The seat of this number and kind, or the first of them, by a walk.
fn walk_to(seats: &[Enlistment], number: u16, kind: Kind) -> Option<&Enlistment>
    ensures { option_copied result ≡ find_seat number kind seats.entry.now }
{
    for seat in seats {
        if seat.number == number && is_kind(seat.kind, kind) {
            return Some(seat);
        }
    }
    None
}

/// The seat of this number and kind, by halving.
#[tactic(auto, using(crate::proofs::SeatNumbers::seat_at, crate::proofs::SeatNumbers::seat_none, crate::proofs::SeatNumbers::seat_other))]
fn halve_to(seats: &[Enlistment], number: u16, kind: Kind) -> Option<&Enlistment>
    requires { IsRising seats.now }
    ensures { option_copied result ≡ find_seat number kind seats.entry.now }
{
    let place = place(seats, number);
    if place >= seats.len() {
        return None;
    }
    let seat = &seats[place];
    if is_kind(seat.kind, kind) {
        Some(seat)
    } else {
        None
    }
}

/// The seat of this number and kind, or the first of them.
pub fn seat(seats: &[Enlistment], rising: bool, number: u16, kind: Kind) -> Option<&Enlistment>
    requires { rising ≡ true → IsRising seats.now }
    ensures { option_copied result ≡ find_seat number kind seats.entry.now }
{
    if rising {
        halve_to(seats, number, kind)
    } else {
        walk_to(seats, number, kind)
    }
}

/// The seat at this place goes into this state.
fn put_state(seats: &mut Vec<Enlistment>, place: usize, state: State)
    requires { place < length seats.old.items }
    ensures items { seats.new.items ≡ state_at place state seats.old.items }
    ensures room { vec_capacity seats.new ≡ vec_capacity seats.old }
{
    let seat = &mut seats[place];
    seat.state = state;
}

/// Each seat of this number goes into this state, by a walk.
fn walk_state(seats: &mut Vec<Enlistment>, number: u16, state: State)
    ensures items { seats.new.items ≡ moved (is_numbered number) state seats.old.items }
    ensures room { vec_capacity seats.new ≡ vec_capacity seats.old }
{
    for seat in seats.iter_mut() {
        if seat.number == number {
            seat.state = state;
        }
    }
}

/// The seat of this number goes into this state, by halving.
#[tactic(auto, using(crate::proofs::SeatNumbers::moved_at, crate::proofs::SeatNumbers::moved_past))]
fn halve_state(seats: &mut Vec<Enlistment>, number: u16, state: State)
    requires { IsRising seats.old.items }
    ensures items { seats.new.items ≡ moved (is_numbered number) state seats.old.items }
    ensures room { vec_capacity seats.new ≡ vec_capacity seats.old }
{
    let place = place(seats.as_slice(), number);
    if place < seats.len() {
        put_state(seats, place, state);
    }
}

/// Each seat of this number goes into this state.
pub fn set_state(seats: &mut Vec<Enlistment>, rising: bool, number: u16, state: State)
    requires { rising ≡ true → IsRising seats.old.items }
    ensures items { seats.new.items ≡ moved (is_numbered number) state seats.old.items }
    ensures room { vec_capacity seats.new ≡ vec_capacity seats.old }
{
    if rising {
        halve_state(seats, number, state);
    } else {
        walk_state(seats, number, state);
    }
}

/// The state of a seat, once those of this number are in this state.
fn state_after(seat: &Enlistment, number: u16, state: State) -> State
    ensures { result ≡ (if is_numbered number seat.now then state else seat.now.state) }
{
    if seat.number == number {
        state
    } else {
        seat.state
    }
}

/// How the seats count once those of this number are in this state, by a walk.
#[tactic(auto, using(crate::proofs::SeatCounts::moved_more, crate::proofs::SeatCounts::small_taken_moved))]
fn walk_counts(seats: &[Enlistment], number: u16, state: State) -> Counts
    ensures { result ≡ counted (moved (is_numbered number) state seats.now) }
{
    let mut counts = Counts::none();
    for seat in seats {
        counts = counts.with(seat.kind, state_after(seat, number, state));
    }
    counts
}

/// How the seats count once that of this number is in this state, by halving.
#[tactic(auto, using(crate::proofs::SeatCounts::small, crate::proofs::SeatNumbers::counted_at, crate::proofs::SeatNumbers::moved_past))]
fn halve_counts(seats: &[Enlistment], counts: Counts, number: u16, state: State) -> Counts
    requires counts { counts ≡ counted seats.now }
    requires rising { IsRising seats.now }
    ensures { result ≡ counted (moved (is_numbered number) state seats.now) }
{
    let place = place(seats, number);
    if place < seats.len() {
        let seat = &seats[place];
        counts.moved(seat.kind, seat.state, state)
    } else {
        counts
    }
}

/// How the seats count once those of this number are in this state.
pub fn counts_after(
    seats: &[Enlistment],
    counts: Counts,
    rising: bool,
    number: u16,
    state: State,
) -> Counts
    requires counts { counts ≡ counted seats.now }
    requires rising { rising ≡ true → IsRising seats.now }
    ensures { result ≡ counted (moved (is_numbered number) state seats.now) }
{
    if rising {
        halve_counts(seats, counts, number, state)
    } else {
        walk_counts(seats, number, state)
    }
}
