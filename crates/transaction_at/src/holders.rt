//! Where the seat of an endpoint stands, for a kind: its place is found by halving among places in the order of kinds and
//! endpoints.

ghost use Rattle.std.specs.Prelude.{◌≡◌, ◌≤◌, ◌<◌, ◌+◌, ◌++◌, ◌∷◌, [], ◌&&◌, length, find, slice_get, option_copied, true, false};
ghost use Rattle.std.specs.Cmp.Lexicographic.{slice_cmp};
ghost use Rattle.std.specs.Ordering.{nat_cmp, ordering_then};
ghost use Rattle.std.specs.List.Sorted.{IsPartitionPoint};
ghost use Rattle.std.specs.Vec.{vec_capacity};
ghost use Rattle.at_base.specs.Names.{is_kind, kind_place};
ghost use Rattle.at_model.specs.Book.{is_epr};
ghost use Rattle.transaction_at.specs.Filed.{IsFiled, below, passes, ties};
ghost use Rattle.transaction_at.specs.Holders.{Holder, IsIndex, holder_of, holders, rank};

use crate::transaction::Enlistment;
use at_base::epr::Epr;
use at_base::notice::Kind;
use std::cmp::Ordering;

/// The place of a kind in the order of the kinds.
fn place(kind: Kind) -> u8
    ensures { result ≡ kind_place kind }
{
    match kind {
        Kind::Volatile => 0,
        Kind::Durable => 1,
    }
}

/// How an endpoint stands to another.
fn rank_endpoints(a: &Epr, b: &Epr) -> Ordering
    ensures { result
        ≡ ordering_then (slice_cmp nat_cmp a.now.address b.now.address) (slice_cmp nat_cmp a.now.params b.now.params) }
{
    match a.address.as_str().cmp(b.address.as_str()) {
        Ordering::Equal => a.params.as_str().cmp(b.params.as_str()),
        other => other,
    }
}

/// How a seat stands to this kind and this endpoint.
fn rank(seat: &Enlistment, kind: Kind, participant: &Epr) -> Ordering
    ensures { result ≡ rank (holder_of seat.now) (record { kind = kind; participant = participant.now }) }
{
    match place(seat.kind).cmp(&place(kind)) {
        Ordering::Equal => rank_endpoints(&seat.participant, participant),
        other => other,
    }
}

/// Whether the seat at this place comes before this kind and this endpoint.
#[tactic(auto, using(crate::proofs::SeatHolders::holder_at))]
fn precedes(seats: &[Enlistment], place: usize, kind: Kind, participant: &Epr) -> bool
    ensures { result ≡ below rank (record { kind = kind; participant = participant.now }) (holders seats.now) place }
{
    match seats.get(place) {
        Some(seat) => rank(seat, kind, participant).is_lt(),
        None => false,
    }
}

/// Whether the seat at this place has this kind and this endpoint.
#[tactic(auto, using(crate::proofs::SeatHolders::holder_at))]
fn is_held(seats: &[Enlistment], place: usize, kind: Kind, participant: &Epr) -> bool
    ensures { result ≡ ties rank (record { kind = kind; participant = participant.now }) (holders seats.now) place }
{
    match seats.get(place) {
        Some(seat) => rank(seat, kind, participant).is_eq(),
        None => false,
    }
}

/// Where the place of this kind and this endpoint stands among the places, or would stand, by halving.
fn first_from(index: &[usize], seats: &[Enlistment], kind: Kind, participant: &Epr) -> usize
    requires { IsIndex index.now seats.now }
    ensures bound { result ≤ length index.now }
    ensures place { IsPartitionPoint (λ i. below rank (record { kind = kind; participant = participant.now }) (holders seats.now) i ≡ true) (λ i. below rank (record { kind = kind; participant = participant.now }) (holders seats.now) i ≡ false) index.now result }
{
    index.partition_point(
        |place: &usize| -> bool
            ensures { result ≡ below rank (record { kind = kind; participant = participant.entry.now }) (holders seats.entry.now) place.now }
        { precedes(seats, *place, kind, participant) },
    )
}

/// The seat at this place.
fn seat_at(seats: &[Enlistment], place: usize) -> Option<&Enlistment>
    ensures { option_copied result ≡ slice_get seats.now place }
{
    seats.get(place)
}

/// The seat that this endpoint has for this kind, or the first of them.
pub fn seat_of<'a>(
    index: &[usize],
    seats: &'a [Enlistment],
    kind: Kind,
    participant: &Epr,
) -> Option<&'a Enlistment>
    requires { IsIndex index.now seats.now }
    ensures { option_copied result ≡ find (λ s. is_kind s.kind kind && is_epr s.participant participant.now) seats.now }
{
    let at = first_from(index, seats, kind, participant);
    if at >= index.len() {
        return None;
    }
    let place = index[at];
    if is_held(seats, place, kind, participant) {
        seat_at(seats, place)
    } else {
        None
    }
}

/// Whether the place that stands here among the places is that of a seat of this kind and this endpoint.
fn is_noted(index: &[usize], seats: &[Enlistment], at: usize, kind: Kind, participant: &Epr) -> bool
    ensures { result
        ≡ passes (ties rank (record { kind = kind; participant = participant.now }) (holders seats.now)) (slice_get index.now at) }
{
    match index.get(at) {
        Some(place) => is_held(seats, *place, kind, participant),
        None => false,
    }
}

/// Notes that the seat behind these has this kind and this endpoint, where none of them has. It takes no memory.
pub fn note(index: &mut Vec<usize>, seats: &[Enlistment], kind: Kind, participant: &Epr)
    requires index { IsIndex index.old.items seats.now }
    requires room { length index.old.items < vec_capacity index.old }
    ensures index { IsFiled rank index.new.items (holders seats.now ++ record { kind = kind; participant = participant.now } ∷ []) }
    ensures length { length index.new.items ≤ length index.old.items + 1 }
    ensures room { vec_capacity index.old ≤ vec_capacity index.new }
{
    let at = first_from(index.as_slice(), seats, kind, participant);
    if is_noted(index.as_slice(), seats, at, kind, participant) {
        return;
    }
    let Ok(()) = index.insert(at, seats.len()) else {
        unreachable!()
    };
}
