//! The fates of a site's calls, and the stop, as an event uses them up.

ghost use Rattle.std.specs.Prelude.{◌≡◌, [], None, IfOk, drop, length};
ghost use Rattle.at_model.specs.World.{fate};
ghost use Rattle.world_laws.specs.Walks.{is_over, used};

use crate::event::Fates;
use std::alloc::{AllocError, Global};
use std::marker::Model;

/// The fates that are left, and how many stand before the stop.
#[derive(Debug)]
pub struct Luck {
    fates: Fates,
    /// So many are used up.
    used: usize,
    until: Option<u64>,
}

impl Drop for Luck {
    fn drop(self) {
        let Luck {
            fates: _fates,
            used: _used,
            until: _until,
        } = self;
    }
}

impl Model for Luck {
    ghost use Rattle.std.specs.Prelude.{drop};
    ghost use Rattle.world_laws.specs.Walks.{Luck as Known};

    ghost Value = { Known };

    ghost view = { λ l. record { fates = drop l.used l.fates; until = l.until } };
}

impl Luck {
    /// All of an event's fates.
    pub fn new(fates: &Fates, until: Option<u64>) -> Result<Luck, AllocError>
        ensures { IfOk result (λ luck. luck ≡ record { fates = fates.now; until = until }) }
    {
        Ok(Luck {
            fates: fates.clone()?,
            used: 0,
            until,
        })
    }

    /// No fate, and no stop.
    pub fn none(alloc: Global) -> Luck
        ensures { result ≡ record { fates = []; until = None } }
    {
        Luck {
            fates: Fates::from_vec(Vec::new(alloc)),
            used: 0,
            until: None,
        }
    }

    /// How many fates are left.
    #[tactic(auto, using(crate::proofs::Fates::length_left))]
    pub fn left(&self) -> usize
        ensures { result ≡ length self.now.fates }
    {
        self.fates.len().saturating_sub(self.used)
    }

    /// Whether the stop has come.
    pub fn is_over(&self) -> bool
        ensures { result ≡ is_over self.now }
    {
        match self.until {
            Some(left) => left == 0,
            None => false,
        }
    }

    /// Uses the next fate up.
    #[tactic(auto, using(crate::proofs::Fates::one_used, crate::proofs::Fates::none_left))]
    pub fn next(&mut self) -> bool
        ensures fate { result ≡ fate self.old.fates }
        ensures left { self.new ≡ used self.old }
    {
        let fate = self.fates.at(self.used);
        if self.used < self.fates.len() {
            self.used += 1;
        }
        self.until = match self.until {
            Some(left) => Some(left.saturating_sub(1)),
            None => None,
        };
        fate
    }
}
