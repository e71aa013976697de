//! The ids of a list's places, filed so that the place of each is found at once.

ghost use Rattle.std.specs.Prelude.{◌≡◌, ◌++◌, ◌∷◌, IfOk, [], map, true};
ghost use Rattle.std.specs.List.{position};
ghost use Rattle.at_model.specs.Book.{is_id};
ghost use Rattle.by_id.specs.Places.{id_at};

use crate::list::Identified;
use crate::place::Place;
use at_base::id::Id;
use at_base::limits::MOST_ITEMS;
use indexmap::IndexSet;
use std::alloc::{AllocError, Global};
use std::marker::Model;

/// The ids of places, in their order, none of them twice. A node draws its ids itself, so no peer chooses what is hashed.
#[derive(Drop)]
pub(crate) struct Ids {
    /// Their incarnations and counters.
    numbers: IndexSet<(u32, u32)>,
}

impl Model for Ids {
    ghost use Rattle.std.specs.Prelude.{List, map};
    ghost use Rattle.at_base.specs.Numbers.{Numbers};
    ghost use Rattle.by_id.specs.Places.{id_of_pair};

    ghost Value = { List Numbers };

    ghost view = { λ s. map id_of_pair s.numbers.keys };
}

impl Ids {
    /// None, and room for those of `2 * MOST_ITEMS` places.
    pub(crate) fn new(alloc: Global) -> Result<Ids, AllocError>
        ensures { IfOk result (λ ids. ids ≡ []) }
    {
        Ok(Ids {
            numbers: IndexSet::with_capacity(alloc, 2 * MOST_ITEMS)?,
        })
    }

    /// Files an id behind the others, and says whether it did: not where it is filed already, or there is no room.
    pub(crate) fn file(&mut self, id: Id) -> bool
        ensures { result ≡ true → self.new ≡ self.old ++ id ∷ [] }
    {
        match self.numbers.insert((id.incarnation(), id.counter())) {
            Ok(added) => added,
            Err(_) => false,
        }
    }

    /// Files the ids of these places and no others, and says whether it did: not where one comes twice, or there is no
    /// room.
    pub(crate) fn file_all<T: Identified>(&mut self, places: &[Place<T>]) -> bool
        ensures { result ≡ true → self.new ≡ map (id_at T.id_of) places.now }
    {
        self.numbers.clear();
        for place in places {
            if !self.file(place.id()) {
                return false;
            }
        }
        true
    }

    /// The place of an id.
    pub(crate) fn place_of(&self, id: Id) -> Option<usize>
        ensures { result ≡ position (λ other. is_id other id) self.now }
    {
        self.numbers.get_index_of(&(id.incarnation(), id.counter()))
    }
}
