//! A node of a net, on its machine.

ghost use Rattle.std.specs.Prelude.{◌≡◌, None, option_map};
ghost use Rattle.memory_net.specs.Hosts.{IsFresh};

use node_at::node::Node;
use site_memory::machine::MemSite;
use std::alloc::Global;

/// A node, where it is up, and its machine.
pub struct Host {
    pub(crate) node: Option<Node>,
    pub(crate) site: MemSite,
}

impl Drop for Host {
    fn drop(self) {
        let Host {
            node: _node,
            site: _site,
        } = self;
    }
}

/// A node that is down, on an empty machine.
pub fn fresh(alloc: Global) -> Host
    ensures { IsFresh result }
{
    Host {
        node: None,
        site: MemSite::new(alloc),
    }
}

impl Host {
    /// Its node, where it is up, and its machine.
    pub fn into_parts(self) -> (Option<Node>, MemSite)
        ensures { (result.0 ≡ self.node) × (result.1 ≡ self.site) }
    {
        let Host { node, site } = self;
        (node, site)
    }

    /// A node, or none, on this machine.
    pub fn of(node: Option<Node>, site: MemSite) -> Host
        ensures { (result.node ≡ node) × (result.site ≡ site) }
    {
        Host { node, site }
    }

    /// Its node, where it is up.
    pub fn node(&self) -> Option<&Node>
        ensures { option_map (λ n. n.now) result ≡ self.now.node }
    {
        self.node.as_ref()
    }

    /// Its machine.
    pub fn site(&self) -> &MemSite
        ensures { result.now ≡ self.now.site }
    {
        &self.site
    }
}
