//! Which messages were delivered.

ghost use Rattle.std.specs.Prelude.{ℕ, ◌≡◌, ◌≤◌, true, false, [], OnOk, length, slice_index_or};
ghost use Rattle.replay_cmd.specs.Deliveries.{all_yes, lowest, yes_at};

use std::alloc::{AllocError, Global};
use std::marker::Model;

/// For each message from the first on, whether it was delivered. Those behind the list weren't.
#[derive(Debug, Drop)]
pub struct Delivered {
    items: Vec<bool>,
    /// So many were delivered from the first on, so that nobody looks at them again.
    below: usize,
}

impl Model for Delivered {
    ghost use Rattle.std.specs.Prelude.{List, Bool, true, ◌≡◌};
    ghost use Rattle.replay_cmd.specs.Deliveries.{all_yes};

    ghost Value = { List Bool };

    ghost view = { λ d. d.items.items };

    ghost invariant = { λ d. all_yes d.below d.items.items ≡ true };
}

/// The first place from this one on, all before which are yes, that isn't yes.
#[tactic(auto, using(crate::proofs::Marks::one_more, crate::proofs::Marks::none_behind, crate::proofs::Marks::all_whole))]
fn first_no(items: &[bool], from: usize) -> usize
    requires { all_yes from items.now ≡ true }
    ensures all { all_yes result items.now ≡ true }
    ensures no { slice_index_or items.now result false ≡ false }
{
    for place in from..items.len() {
        if !items[place] {
            return place;
        }
    }
    items.len()
}

/// Adds no until there are so many.
#[tactic(auto, using(crate::proofs::Marks::all_append, crate::proofs::Marks::append_no))]
fn reach(items: &mut Vec<bool>, count: usize) -> Result<(), AllocError>
    requires { length items.old.items ≤ count }
    ensures kept { (n : ℕ) → all_yes n items.old.items ≡ true → all_yes n items.new.items ≡ true }
    ensures more { OnOk result ((length items.new.items ≡ count) × (yes_at count items.new.items ≡ yes_at count items.old.items)) }
{
    for _place in items.len()..count {
        items.push(false)?;
    }
    Ok(())
}

#[tactic(auto, using(crate::proofs::Marks::all_append, crate::proofs::Marks::append_yes, crate::proofs::Marks::all_set, crate::proofs::Marks::set_yes))]
fn mark(items: &mut Vec<bool>, place: usize) -> Result<(), AllocError>
    ensures kept { (n : ℕ) → all_yes n items.old.items ≡ true → all_yes n items.new.items ≡ true }
    ensures marked { OnOk result (items.new.items ≡ yes_at place items.old.items) }
{
    if place < items.len() {
        items[place] = true;
        return Ok(());
    }
    reach(items, place)?;
    items.push(true)?;
    Ok(())
}

impl Delivered {
    /// None yet.
    pub fn new(alloc: Global) -> Delivered
        ensures { result ≡ [] }
    {
        Delivered {
            items: Vec::new(alloc),
            below: 0,
        }
    }

    /// Of so many messages, the number of the lowest that wasn't delivered.
    #[tactic(auto, using(crate::proofs::Marks::lowest_some, crate::proofs::Marks::lowest_none))]
    pub fn lowest(&mut self, count: usize) -> Option<usize>
        ensures lowest { result ≡ lowest count 1 self.old }
        ensures kept { self.new ≡ self.old }
    {
        let place = first_no(self.items.as_slice(), self.below);
        self.below = place;
        if place < count {
            return Some(place + 1);
        }
        None
    }

    /// The message of this place, counted from 0, was delivered.
    pub fn mark(&mut self, place: usize) -> Result<(), AllocError>
        ensures { OnOk result (self.new ≡ yes_at place self.old) }
    {
        mark(&mut self.items, place)
    }
}
