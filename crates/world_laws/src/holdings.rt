//! How much the nodes of a world hold that may wait for an answer.

ghost use Rattle.std.specs.Prelude.{◌≡◌, sum_by};
ghost use Rattle.world_laws.specs.Holdings.{node_held};

use crate::node::Node;

/// What the book of a node holds; nothing while it is down.
fn node_held(node: &Node) -> u64
    ensures { result ≡ node_held node.now }
{
    match node.book() {
        Some(book) => book.held(),
        None => 0,
    }
}

/// What the books of these nodes hold.
pub fn all_held(nodes: &[Node]) -> u128
    ensures { result ≡ sum_by node_held nodes.now }
{
    let mut held = 0u128;
    for node in nodes {
        held += u128::from(node_held(node));
    }
    held
}
