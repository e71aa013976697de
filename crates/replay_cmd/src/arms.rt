//! Which call is armed at each node.

ghost use Rattle.std.specs.Prelude.{◌≡◌, ◌-◌, IfOk, slice_set};
ghost use Rattle.armed_calls.specs.Faults.{still_armed};
ghost use Rattle.replay_cmd.specs.ReportOf.{armed_at, nobody_armed};

use armed_calls::fault::Armed;
use std::alloc::{AllocError, Global};
use std::marker::Model;

/// Which call is armed at each node, from node 1 on.
#[derive(Debug, Drop)]
pub struct Arms {
    items: Vec<Option<Armed>>,
}

impl Model for Arms {
    ghost use Rattle.std.specs.Prelude.{List, Option};
    ghost use Rattle.armed_calls.specs.declared.fault.Armed.{Armed as Known};

    ghost Value = { List (Option Known) };

    ghost view = { λ a. a.items.items };
}

impl Arms {
    /// None at any of eight nodes.
    pub fn new(alloc: Global) -> Result<Arms, AllocError>
        ensures { IfOk result (λ arms. arms ≡ nobody_armed) }
    {
        Ok(Arms {
            items: Vec::from_array(alloc, [None, None, None, None, None, None, None, None])?,
        })
    }

    /// The call that is armed at a node.
    pub fn at(&self, node: u8) -> Option<Armed>
        ensures { result ≡ armed_at node self.now }
    {
        match self.items.get(node.saturating_sub(1) as usize) {
            Some(armed) => *armed,
            None => None,
        }
    }

    /// Arms a call of a node in place of the one that is armed.
    #[tactic(auto, using(crate::proofs::PaddedLists::set_past))]
    pub fn set(&mut self, node: u8, armed: Option<Armed>)
        ensures { self.new ≡ slice_set self.old (node - 1) armed }
    {
        let place = node.saturating_sub(1) as usize;
        if place < self.items.len() {
            self.items[place] = armed;
        }
    }
}

/// So many calls stand up to and with the armed one; 0: it came.
pub fn still_armed(armed: Armed, left: u32) -> Option<Armed>
    ensures { result ≡ still_armed armed left }
{
    if left == 0 {
        return None;
    }
    Some(Armed {
        call: left,
        fault: armed.fault,
    })
}
