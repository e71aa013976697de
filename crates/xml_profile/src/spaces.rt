//! Namespaces in the order of their first use.

ghost use Rattle.std.specs.Prelude.{◌≡◌, ◌<◌, ◌^◌, [], map, OnOk};
ghost use Rattle.std.specs.List.{position_or_len};
ghost use Rattle.std.specs.Str.{bytes_eq};
ghost use Rattle.xml_profile.specs.CanonicalText.{with_space};
ghost use Rattle.xml_profile.specs.Places.{Finds};

use std::alloc::{AllocError, Global};
use std::collections::BTreeMap;
use std::marker::Model;

/// Namespaces in the order in which they were added, each once.
#[derive(Drop)]
pub struct Spaces<'a> {
    items: Vec<&'a str>,
    /// The place of each. Its order, unlike a hash, is nothing that who picks the namespaces can spoil.
    places: BTreeMap<&'a str, usize>,
    ghost found: { Finds places items.items },
}

impl<'a> Model for Spaces<'a> {
    ghost use Rattle.std.specs.Prelude.{ℕ, List, map};

    ghost Value = { List (List ℕ) };

    ghost view = { λ s. map (λ space. space.now) s.items.items };
}

impl<'a> Spaces<'a> {
    /// None. It takes no memory.
    pub fn new(alloc: Global) -> Spaces<'a>
        ensures { result ≡ [] }
    {
        Spaces {
            items: Vec::new(alloc),
            places: BTreeMap::new(alloc),
        }
    }

    /// Adds one at the end, unless it is there.
    pub fn add(&mut self, space: &'a str) -> Result<(), AllocError>
        ensures { OnOk result (self.new ≡ with_space self.old space.now) }
    {
        if self.places.contains_key(space) {
            return Ok(());
        }
        let place = self.items.len();
        self.items.reserve(1)?;
        self.places.insert(space, place)?;
        self.items.push_reserved(space);
        Ok(())
    }

    /// Its place from 0 on, or how many there are where it isn't there.
    pub fn place(&self, space: &str) -> usize
        ensures place { result ≡ position_or_len (bytes_eq space.now) self.now }
        ensures small { result < 2 ^ 63 }
    {
        let all = self.items.len();
        match self.places.get(space) {
            Some(place) => *place,
            None => all,
        }
    }

    /// All of them, in order.
    pub fn as_slice(&self) -> &[&'a str]
        ensures { map (λ space. space.now) result.now ≡ self.now }
    {
        self.items.as_slice()
    }
}
