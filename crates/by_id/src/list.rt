//! A list of live items, with room for as many as a node takes.

ghost use Rattle.std.specs.Prelude.{Bool, ◌≡◌, ◌≤◌, ◌*◌, ◌++◌, ◌∷◌, IfOk, [], option_copied, length, map, Some, None, true, false};
ghost use Rattle.std.specs.Fn.{CalledAt};
ghost use Rattle.std.specs.List.{AllWithin};
ghost use Rattle.std.specs.List.Retain.{IsFiltered};
ghost use Rattle.std.specs.Vec.{vec_capacity};
ghost use Rattle.at_base.specs.Numbers.{Numbers};
ghost use Rattle.at_base.specs.declared.event.Moment.{Moment};
ghost use Rattle.at_base.specs.declared.limits.TheConstants.{MOST_ITEMS};
ghost use Rattle.at_model.specs.Book.{is_id, find_by, put_by};
ghost use Rattle.at_model.specs.Recovery.{is_before};
ghost use Rattle.by_id.specs.Lists.{IsRising, add_to, altered, is_addition, is_behind, move_by, next_due};
ghost use Rattle.by_id.specs.Places.{IsFiled, IsPart, WasFiled, id_at, left, place_by, told_at};
ghost use Rattle.by_id.specs.declared.place.Place.TheVariants as place;

use crate::ids::Ids;
use crate::place::{Items, Place};
use at_base::event::Moment;
use at_base::id::Id;
use at_base::limits::MOST_ITEMS;
use std::alloc::{AllocError, Global};
use std::marker::Model;

/// An item that a node holds under an id of its own.
pub trait Identified {
    /// A small change of an item, that takes no memory where it is made.
    type Move: Drop;

    ghost id_of: { Self → Numbers };

    ghost is_due_at: { Moment → Self → Bool };

    ghost moved: { Self.Move → Self → Self };

    /// The item's id.
    fn id(&self) -> Id
        ensures { result ≡ id_of self.now };

    /// Whether the item has something to do by itself at this moment.
    fn is_due(&self, moment: &Moment) -> bool
        ensures { result ≡ is_due_at moment.entry.now self.now };

    /// Moves the item. It takes no memory, and cannot fail.
    fn make(&mut self, by: Self::Move)
        ensures { self.new ≡ moved by self.old };
}

/// What becomes of a list.
#[derive(Debug, PartialEq, Eq, Drop)]
pub enum Alteration<T, M> {
    /// It stays as it is.
    Keep,
    /// The item of this id is given anew, or dropped.
    Put { id: Id, item: Option<T> },
    /// The item of this id is moved where it stands.
    Move { id: Id, by: M },
    /// One more stands at its end.
    Add(T),
}

impl<T, M> Alteration<T, M> {
    /// Whether one more stands at the list's end.
    pub fn is_addition(&self) -> bool
        ensures { result ≡ is_addition self.now }
    {
        match self {
            Alteration::Keep | Alteration::Put { .. } | Alteration::Move { .. } => false,
            Alteration::Add(_) => true,
        }
    }
}

/// Live items in the order of making.
///
/// An item that goes leaves its id at its place, so that no other moves. Where more have gone than live, the places of
/// those are left out: so dropping an item is O(1), over many of them. Adding one is O(1) and takes no memory, since the
/// list is made with the room that `MOST_ITEMS` items need.
///
/// Where ids rise, which they do in every node, those of all places are filed, and an item is found by its id at once;
/// else by a walk.
pub struct ById<T: Identified> {
    places: Vec<Place<T>>,
    ids: Ids,
    live: usize,
    /// Whether ids rise, and are filed.
    filed: bool,
}

impl<T: Identified + Drop> Drop for ById<T> {
    fn drop(self) {
        let ById {
            places: _places,
            ids: _ids,
            live: _live,
            filed: _filed,
        } = self;
    }
}

impl<T: Identified> Model for ById<T> {
    ghost use Rattle.std.specs.Prelude.{List, ◌≤◌, ◌*◌};
    ghost use Rattle.std.specs.Vec.{vec_capacity};
    ghost use Rattle.at_base.specs.declared.limits.TheConstants.{MOST_ITEMS};
    ghost use Rattle.by_id.specs.Places.{IsKept, left};

    ghost Value = { List T };

    ghost view = { λ k. left k.places.items };

    ghost invariant = { λ k. IsKept T.id_of k.filed k.live k.ids k.places.items × (2 * MOST_ITEMS ≤ vec_capacity k.places) };
}

impl<T: Identified + Drop> ById<T> {
    /// No items, and room for `MOST_ITEMS`.
    pub fn new(alloc: Global) -> Result<ById<T>, AllocError>
        ensures { IfOk result (λ list. list ≡ []) }
    {
        Ok(ById {
            places: Vec::with_capacity(alloc, 2 * MOST_ITEMS)?,
            ids: Ids::new(alloc)?,
            live: 0,
            filed: true,
        })
    }

    /// The items of a recovered node, with room for `MOST_ITEMS`.
    pub fn from_vec(items: Vec<T>) -> Result<ById<T>, AllocError>
        ensures { IfOk result (λ list. list ≡ items.items) }
    {
        let live = items.len();
        let mut ids = Ids::new(*items.allocator())?;
        let places = places_of(items)?;
        let filed = is_rising(places.as_slice()) && ids.file_all(places.as_slice());
        Ok(ById {
            places,
            ids,
            live,
            filed,
        })
    }

    /// The items, in the order of making.
    pub fn iter(&self) -> Items<'_, T>
        ensures { result ≡ self.now }
    {
        Items::new(self.places.as_slice())
    }

    /// How many items live.
    pub fn len(&self) -> usize
        ensures { result ≡ length self.now }
    {
        self.live
    }

    /// The item of this id. It is found at once where ids rise, which they do in every node; else by a walk.
    pub fn find(&self, id: Id) -> Option<&T>
        ensures { option_copied result ≡ find_by T.id_of id self.now }
    {
        let places = self.places.as_slice();
        places
            .get(place_in(places, &self.ids, self.filed, id))?
            .item()
    }

    /// Gives the item of this id anew; nothing where there is none.
    #[tactic(auto, using(crate::proofs::Places::replace_at, crate::proofs::Places::replace_none))]
    fn replace(&mut self, id: Id, item: T)
        ensures { self.new ≡ put_by T.id_of id (Some item) self.old }
    {
        let place = place_in(self.places.as_slice(), &self.ids, self.filed, id);
        if place < self.places.len() {
            self.filed = self.filed && is_same(item.id(), id);
            self.places[place] = Place::Live(item);
        }
    }

    /// Drops the item of this id; nothing where there is none.
    #[tactic(auto, using(crate::proofs::Places::drop_at, crate::proofs::Places::drop_none, crate::proofs::Places::dropped_length))]
    fn remove(&mut self, id: Id)
        ensures { self.new ≡ put_by T.id_of id None self.old }
    {
        let place = place_in(self.places.as_slice(), &self.ids, self.filed, id);
        if place < self.places.len() {
            self.places[place] = Place::Gone(id);
            self.live -= 1;
            let before = self.places.len();
            pack(&mut self.places, self.live);
            self.filed = refile(self.places.as_slice(), &mut self.ids, self.filed, before);
        }
    }

    /// Gives the item of this id anew, or drops it.
    pub fn put(&mut self, id: Id, item: Option<T>)
        ensures { self.new ≡ put_by T.id_of id item self.old }
    {
        match item {
            Some(item) => self.replace(id, item),
            None => self.remove(id),
        }
    }

    /// Moves the item of this id; nothing where there is none.
    #[tactic(auto, using(crate::proofs::Places::move_at, crate::proofs::Places::move_none))]
    fn make(&mut self, id: Id, by: T::Move)
        ensures { self.new ≡ move_by T.id_of T.moved id by self.old }
    {
        let place = place_in(self.places.as_slice(), &self.ids, self.filed, id);
        if place < self.places.len() {
            let moved = &mut self.places[place];
            moved.make(by);
            let same = is_same(moved.id(), id);
            self.filed = self.filed && same;
        }
    }

    /// Adds an item at the end, which takes no memory; nothing where `MOST_ITEMS` live.
    #[tactic(auto, using(crate::proofs::Places::left_pushed))]
    pub fn add(&mut self, item: T)
        ensures { self.new ≡ add_to item self.old }
    {
        if self.live < MOST_ITEMS {
            self.filed = file_next(self.places.as_slice(), &mut self.ids, self.filed, &item);
            let Ok(()) = self.places.push(Place::Live(item)) else {
                unreachable!()
            };
            self.live += 1;
        }
    }

    /// Keeps the items at which `keeps` answers `true`, in their order. It takes no memory.
    pub fn retain<F: FnMut(&T) -> bool>(&mut self, mut keeps: F)
        requires { F.IsAlwaysCallable keeps }
        ensures { IsFiltered (CalledAt F.FnMut) keeps self.old self.new }
    {
        let before = self.places.len();
        self.places.retain(
            |place: &Place<T>| -> bool
                requires { F.IsAlwaysCallable keeps }
                ensures told { told_at (CalledAt F.FnMut) keeps.entry place.now result keeps.exit }
                ensures callable { F.IsAlwaysCallable keeps.exit }
            {
                match place {
                    Place::Live(item) => keeps(item),
                    Place::Gone(_) => true,
                }
            },
        );
        self.live -= before - self.places.len();
        pack(&mut self.places, self.live);
        self.filed = refile(self.places.as_slice(), &mut self.ids, self.filed, before);
    }

    /// Takes an alteration over. It takes no memory, and cannot fail.
    pub fn alter(&mut self, alteration: Alteration<T, T::Move>)
        ensures { self.new ≡ altered T.id_of T.moved alteration self.old }
    {
        match alteration {
            Alteration::Keep => {}
            Alteration::Put { id, item } => self.put(id, item),
            Alteration::Move { id, by } => self.make(id, by),
            Alteration::Add(item) => self.add(item),
        }
    }

    /// The id of the first item behind this one, or of the first at all, that is due.
    ///
    /// Where ids rise, which they do in every node, the walk begins at the place of the id: so to go through all that
    /// are due takes one walk.
    pub fn next_due(&self, after: Option<Id>, moment: &Moment) -> Option<Id>
        ensures { result ≡ next_due T.id_of (T.is_due_at moment.entry.now) after self.now }
    {
        let places = self.places.as_slice();
        let start = match after {
            Some(last) if self.filed => place_before(places, &self.ids, last),
            _ => 0,
        };
        first_due(&places[start..], &after, moment)
    }
}

/// A place for each of these items, and room for `2 * MOST_ITEMS`.
fn places_of<T: Drop>(items: Vec<T>) -> Result<Vec<Place<T>>, AllocError>
    ensures items { IfOk result (λ places. places.items ≡ map place.Live items.items) }
    ensures room { IfOk result (λ places. 2 * MOST_ITEMS ≤ vec_capacity places) }
{
    let mut places = Vec::with_capacity(*items.allocator(), 2 * MOST_ITEMS)?;
    for item in items {
        places.push(Place::Live(item))?;
    }
    Ok(places)
}

/// Leaves out the places of items that have gone, where those are more than live.
#[tactic(auto, using(crate::proofs::Places::left_few))]
fn pack<T: Drop>(places: &mut Vec<Place<T>>, live: usize)
    requires { live ≡ length (left places.old.items) }
    ensures left { left places.new.items ≡ left places.old.items }
    ensures few { length places.new.items ≤ 2 * live }
    ensures room { vec_capacity places.new ≡ vec_capacity places.old }
    ensures part { IsPart places.old.items places.new.items }
{
    if places.len() - live > live {
        places.retain(|place: &Place<T>| place.is_live());
    }
}

/// Whether ids rise in the order of these places.
fn is_rising<T: Identified>(places: &[Place<T>]) -> bool
    ensures { result ≡ true → IsRising (id_at T.id_of) places.now }
{
    places.is_sorted_by(
        |place: &Place<T>, next: &Place<T>| -> bool
            ensures { result ≡ is_before (id_at T.id_of place.now) (id_at T.id_of next.now) }
        { is_before(place.id(), next.id()) },
    )
}

/// Whether this item's id comes behind that of the last one of these places.
fn is_next<T: Identified>(places: &[Place<T>], item: &T) -> bool
    ensures { result ≡ true → IsRising (id_at T.id_of) places.now
        → IsRising (id_at T.id_of) (places.now ++ place.Live item.now ∷ []) }
{
    match places.last() {
        Some(last) => is_before(last.id(), item.id()),
        None => true,
    }
}

/// Whether ids are filed on, where this item is added behind these places: its id is filed behind theirs.
fn file_next<T: Identified>(places: &[Place<T>], ids: &mut Ids, filed: bool, item: &T) -> bool
    requires { filed ≡ true → IsFiled T.id_of ids.old places.now }
    ensures { result ≡ true → IsFiled T.id_of ids.new (places.now ++ place.Live item.now ∷ []) }
{
    filed && is_next(places, item) && ids.file(item.id())
}

/// Whether ids are filed on, of places of which there were so many before: they are filed anew where some were left out.
fn refile<T: Identified>(places: &[Place<T>], ids: &mut Ids, filed: bool, before: usize) -> bool
    requires { filed ≡ true → WasFiled T.id_of ids.old before places.now }
    ensures { result ≡ true → IsFiled T.id_of ids.new places.now }
{
    if places.len() < before {
        filed && ids.file_all(places)
    } else {
        filed
    }
}

/// The place of the item of this id, before which none stands that is behind it; the first where there is none.
fn place_before<T: Identified>(places: &[Place<T>], ids: &Ids, id: Id) -> usize
    requires { IsFiled T.id_of ids.now places.now }
    ensures bound { result ≤ length places.now }
    ensures before { AllWithin (λ p. is_before (id_at T.id_of p) id ≡ true) places.now 0 result }
{
    let Some(place) = ids.place_of(id) else {
        return 0;
    };
    place
}

/// The place of the item of this id, or how many places there are where there is none.
fn place_in<T: Identified>(places: &[Place<T>], ids: &Ids, filed: bool, id: Id) -> usize
    requires { filed ≡ true → IsFiled T.id_of ids.now places.now }
    ensures { result ≡ place_by T.id_of id places.now }
{
    if filed {
        filed_at(places, ids, id)
    } else {
        walk_to(places, id)
    }
}

/// The same, where ids are filed.
fn filed_at<T: Identified>(places: &[Place<T>], ids: &Ids, id: Id) -> usize
    requires { IsFiled T.id_of ids.now places.now }
    ensures { result ≡ place_by T.id_of id places.now }
{
    let Some(place) = ids.place_of(id) else {
        return places.len();
    };
    if places[place].holds(id) {
        place
    } else {
        places.len()
    }
}

/// The same, by a walk.
fn walk_to<T: Identified>(places: &[Place<T>], id: Id) -> usize
    ensures { result ≡ place_by T.id_of id places.now }
{
    let mut count = 0;
    for place in places {
        if place.holds(id) {
            return count;
        }
        count += 1;
    }
    count
}

/// The id of the first item at these places behind this one, or of the first at all, that is due.
fn first_due<T: Identified>(places: &[Place<T>], after: &Option<Id>, moment: &Moment) -> Option<Id>
    ensures { result
        ≡ next_due T.id_of (T.is_due_at moment.entry.now) after.now (left places.now) }
{
    for place in places {
        let id = place.id();
        if is_behind(after, id) && place.is_due(moment) {
            return Some(id);
        }
    }
    None
}

/// Whether two ids are the same.
pub fn is_same(a: Id, b: Id) -> bool
    ensures { result ≡ is_id a b }
{
    a.incarnation() == b.incarnation() && a.counter() == b.counter()
}

/// Whether an id was drawn before another.
pub fn is_before(a: Id, b: Id) -> bool
    ensures { result ≡ is_before a b }
{
    let same = a.incarnation() == b.incarnation();
    a.incarnation() < b.incarnation() || (same && a.counter() < b.counter())
}

/// Whether an id was drawn after this one.
fn is_behind(after: &Option<Id>, id: Id) -> bool
    ensures { result ≡ is_behind after.now id }
{
    match after {
        Some(last) => is_before(*last, id),
        None => true,
    }
}
