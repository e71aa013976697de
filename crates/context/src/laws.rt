//! Laws of bodies that are read.

ghost use Rattle.context.specs.Order.{SayTheSame};

use xml_profile::tree::Tree;

/// What a body says hangs on its own children alone, and not on their order (WS-Coordination 1.2, sections 2 and 3).
#[tactic(auto, using(crate::proofs::Order::say_the_same))]
pub fn any_order(first: &Tree, second: &Tree)
    ensures { SayTheSame first.now second.now }
{}
