//! Room for the seats of a transaction, which is taken while a Register is planned.

ghost use Rattle.std.specs.Prelude.{◌≡◌, ◌≤◌, [], IfOk, length};
ghost use Rattle.std.specs.Vec.{vec_capacity};
ghost use Rattle.transaction_at.specs.Rooms.{room_of};

use crate::transaction::Enlistment;
use at_base::limits::MOST_SEATS;
use std::alloc::{AllocError, Global};
use std::marker::Model;

/// How many seats the first room of a transaction is for.
pub const FEW_SEATS: usize = 8;

/// How many seats a list of this length has room for, at the least.
pub fn room_of(count: usize) -> usize
    ensures { result ≡ room_of count }
{
    if count == 0 {
        0
    } else if count <= FEW_SEATS {
        FEW_SEATS
    } else if count <= MOST_SEATS {
        MOST_SEATS
    } else {
        count
    }
}

/// Moves items to where there is more room for them.
fn move_into<T: Drop>(wide: Vec<T>, items: &mut Vec<T>)
    requires empty { wide.items ≡ [] }
    requires room { length items.old.items ≤ vec_capacity wide }
    ensures items { items.new.items ≡ items.old.items }
    ensures room { vec_capacity wide ≤ vec_capacity items.new }
{
    let mut wide = wide;
    let Ok(()) = wide.append(items) else {
        unreachable!()
    };
    *items = wide;
}

/// Room for this many seats and their places, and none in it.
#[derive(Debug, Drop)]
pub struct Room {
    seats: Vec<Enlistment>,
    index: Vec<usize>,
}

impl Model for Room {
    ghost use Rattle.std.specs.Prelude.{ℕ, ◌≡◌, ◌≤◌, []};
    ghost use Rattle.std.specs.Vec.{vec_capacity};

    ghost Value = { ℕ };

    ghost view = { λ r. vec_capacity r.seats };

    ghost invariant = { λ r. (r.seats.items ≡ []) × (r.index.items ≡ []) × (vec_capacity r.seats ≤ vec_capacity r.index) };
}

impl Room {
    /// Room for this many.
    pub fn new(alloc: Global, count: usize) -> Result<Room, AllocError>
        ensures { IfOk result (λ room. room ≡ count) }
    {
        let seats = Vec::with_capacity(alloc, count)?;
        let index = Vec::with_capacity(alloc, count)?;
        Ok(Room { seats, index })
    }

    /// For how many.
    pub fn len(&self) -> usize
        ensures { result ≡ self.now }
    {
        self.seats.capacity()
    }

    /// Moves seats and their places here.
    pub fn hold(self, seats: &mut Vec<Enlistment>, index: &mut Vec<usize>)
        requires seats { length seats.old.items ≤ self }
        requires index { length index.old.items ≤ self }
        ensures seats { seats.new.items ≡ seats.old.items }
        ensures index { index.new.items ≡ index.old.items }
        ensures seats_room { self ≤ vec_capacity seats.new }
        ensures index_room { self ≤ vec_capacity index.new }
    {
        let Room {
            seats: wide,
            index: wider,
        } = self;
        move_into(wide, seats);
        move_into(wider, index);
    }
}
