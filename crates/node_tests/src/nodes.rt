//! Nodes to test.

ghost use Rattle.std.specs.Prelude.{IfOk, IfSome};
ghost use Rattle.node_at.specs.State.{IsNode, seen};

use at_base::text::Text;
use node_at::fault::StartFault;
use node_at::node::Node;
use node_at::role::Role;
use node_at::start::start;
use node_at::turn::Turned;
use site_memory::machine::MemSite;
use site_model::site::Site;
use std::alloc::Global;

/// A node of all roles at n1.example.
pub fn started(alloc: Global, site: &mut MemSite, limit: u32) -> Result<Node, StartFault>
    ensures { IfOk result (λ n. IsNode (seen n)) }
{
    match Text::copied(alloc, "http://n1.example") {
        Ok(base) => start(alloc, site, &base, Role::All, limit),
        Err(_) => Err(StartFault::NoMemory),
    }
}

/// A node of a role at this base.
pub fn up(alloc: Global, site: &mut MemSite, base: &str, role: Role) -> Option<Node>
    ensures { IfSome result (λ n. IsNode (seen n)) }
{
    let base = Text::copied(alloc, base).ok()?;
    match start(alloc, site, &base, role, 1_000_000) {
        Ok(node) => Some(node),
        Err(_) => None,
    }
}

/// A machine whose file 0 is this.
pub fn holding(alloc: Global, file: &[u8]) -> Option<MemSite> {
    let mut site = MemSite::new(alloc);
    if site.write_at(0, 0, file).is_err() || site.sync(0).is_err() {
        return None;
    }
    Some(site)
}

/// The status of a turn, or 1 Ticked, 2 Closed, 3 NoRoom, 4 Halted, 5 LinkDown.
pub fn number(turned: Turned) -> u16 {
    match turned {
        Turned::Served { status } => status,
        Turned::Ticked => 1,
        Turned::Closed => 2,
        Turned::NoRoom => 3,
        Turned::Halted => 4,
        Turned::LinkDown => 5,
    }
}
