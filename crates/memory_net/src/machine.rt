//! The calls of a node on its machine.

ghost use Rattle.std.specs.Prelude.{IfOk};
ghost use Rattle.memory_net.specs.Calls.{Begins, Connects, IsServing, Requests, Turns};

use at_base::event::Local;
use at_base::text::Text;
use node_at::fault::StartFault;
use node_at::local::Locally;
use node_at::node::Node;
use node_at::role::Role;
use node_at::start::start;
use node_at::turn::Turned;
use site_memory::machine::MemSite;
use std::alloc::{AllocError, Global};

/// The most bytes of a journal's file.
const LIMIT: u32 = u32::MAX;

/// A connection that brings these bytes, and no other.
pub fn connect(site: &mut MemSite, bytes: &[u8]) -> Result<(), AllocError>
    ensures { IfOk result (λ _. Connects bytes.now site.old site.new) }
{
    site.hang_up();
    site.connect(bytes)
}

/// The turn of such a connection.
pub fn turn(
    alloc: Global,
    node: &mut Node,
    site: &mut MemSite,
    bytes: &[u8],
) -> Result<Turned, AllocError>
    requires { IsServing node.old }
    ensures { IfOk result (λ turned. Turns bytes.now turned node.old node.new site.old site.new) }
{
    connect(site, bytes)?;
    Ok(node.turn(alloc, site))
}

/// A request of its own program.
pub fn ask(alloc: Global, node: &mut Node, site: &mut MemSite, request: &Local) -> Locally
    requires { IsServing node.old }
    ensures { Requests request.now result node.old node.new site.old site.new }
{
    node.local(alloc, site, request)
}

/// A node that starts.
pub fn begin(alloc: Global, site: &mut MemSite, base: &Text) -> Result<Node, StartFault>
    ensures begins { Begins base.now result site.old site.new }
    ensures serving { IfOk result IsServing }
{
    start(alloc, site, base, Role::All, LIMIT)
}
