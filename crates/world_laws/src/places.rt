//! The nodes that addresses name.

ghost use Rattle.std.specs.Prelude.{◌≡◌, ◌≤◌, length, is_some, option_map};
ghost use Rattle.at_model.specs.World.{place_of, receiver_of};
ghost use Rattle.endpoints.specs.Addresses.{target_at};

use crate::node::Node;
use at_base::epr::Epr;
use endpoints::target::target_at;

/// Whether an address names a target on a node.
fn has(node: &Node, address: &str) -> bool
    ensures { result ≡ is_some (target_at node.now.base address.now) }
{
    target_at(node.base().as_str(), address).is_some()
}

/// The number of the first node that an address names.
#[tactic(auto, using(crate::proofs::NamedNodes::named_here, crate::proofs::NamedNodes::named_later))]
fn place_of(nodes: &[Node], address: &str) -> Option<u8>
    requires { length nodes.now ≤ 8 }
    ensures { result ≡ option_map (λ p. p.0) (place_of 1 nodes.now address.now) }
{
    let mut number = 0;
    for node in nodes {
        number += 1;
        if has(node, address) {
            return Some(number);
        }
    }
    None
}

/// The number of the node to which an endpoint belongs.
pub fn receiver_of(nodes: &[Node], to: &Option<Epr>) -> Option<u8>
    requires { length nodes.now ≤ 8 }
    ensures { result ≡ receiver_of nodes.now to.now }
{
    match to {
        None => None,
        Some(to) => place_of(nodes, to.address.as_str()),
    }
}
