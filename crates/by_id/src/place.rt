//! The places of a list, of which some hold an item no more.

ghost use Rattle.std.specs.Prelude.{◌≡◌, option_copied};
ghost use Rattle.at_base.specs.Numbers.{Numbers};
ghost use Rattle.by_id.specs.Places.{due_at, held, holds, id_at, is_live, left, moved_at};

use crate::list::{Identified, is_same};
use at_base::event::Moment;
use at_base::id::Id;
use std::marker::Model;

/// A place of a list.
#[derive(Drop)]
pub(crate) enum Place<T> {
    /// An item stands there.
    Live(T),
    /// The item of this id stood there.
    Gone(Id),
}

impl<T> Place<T> {
    /// Whether an item stands there.
    pub(crate) fn is_live(&self) -> bool
        ensures { result ≡ is_live self.now }
    {
        match self {
            Place::Live(_) => true,
            Place::Gone(_) => false,
        }
    }

    /// The item that stands there.
    pub(crate) fn item(&self) -> Option<&T>
        ensures { option_copied result ≡ held self.now }
    {
        match self {
            Place::Live(item) => Some(item),
            Place::Gone(_) => None,
        }
    }
}

impl<T: Identified> Place<T> {
    /// The id of the item that stands or stood there.
    pub(crate) fn id(&self) -> Id
        ensures { result ≡ id_at T.id_of self.now }
    {
        match self {
            Place::Live(item) => item.id(),
            Place::Gone(id) => *id,
        }
    }

    /// Whether the item of this id stands there.
    pub(crate) fn holds(&self, id: Id) -> bool
        ensures { result ≡ holds T.id_of id self.now }
    {
        match self {
            Place::Live(item) => is_same(item.id(), id),
            Place::Gone(_) => false,
        }
    }

    /// Whether an item stands there that is due.
    pub(crate) fn is_due(&self, moment: &Moment) -> bool
        ensures { result ≡ due_at (T.is_due_at moment.entry.now) self.now }
    {
        match self {
            Place::Live(item) => item.is_due(moment),
            Place::Gone(_) => false,
        }
    }

    /// Moves the item that stands there.
    pub(crate) fn make(&mut self, by: T::Move)
        ensures { self.new ≡ moved_at T.moved by self.old }
    {
        match self {
            Place::Live(item) => item.make(by),
            Place::Gone(_) => {}
        }
    }
}

/// The items that stand at places, in their order.
#[derive(Drop)]
pub struct Items<'a, T> {
    places: &'a [Place<T>],
}

impl<'a, T> Model for Items<'a, T> {
    ghost use Rattle.std.specs.Prelude.{List};
    ghost use Rattle.by_id.specs.Places.{left};

    ghost Value = { List T };

    ghost view = { λ s. left s.places.now };
}

impl<'a, T> Items<'a, T> {
    /// The items that stand at these places.
    pub(crate) fn new(places: &'a [Place<T>]) -> Items<'a, T>
        ensures { result ≡ left places.now }
    {
        Items { places }
    }
}

impl<'a, T> Iterator for Items<'a, T> {
    ghost use Rattle.std.specs.Iterator.{YieldsFirstRef, item_count};

    type Item = &'a T;

    ghost next_gives = { YieldsFirstRef (λ s. s) };

    ghost remaining = { item_count (λ s. s) };

    fn next(&mut self) -> Option<&'a T> {
        while let Some((first, others)) = self.places.split_first() {
            self.places = others;
            if let Place::Live(item) = first {
                return Some(item);
            }
        }
        None
    }
}
