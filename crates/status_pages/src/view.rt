//! The pages of a node.

ghost use Rattle.std.specs.Prelude.{◌≡◌, IfOk};
ghost use Rattle.node_at.specs.State.{seen};
ghost use Rattle.serde_json.specs.Written.{compact_text};
ghost use Rattle.status_pages.specs.Json.{node_data};
ghost use Rattle.status_pages.specs.Overview.{overview};
ghost use Rattle.status_pages.specs.Views.{page_of};

use crate::json::status;
use crate::overview::push_overview;
use node_at::node::Node;
use node_at::role::Role;
use shown_pages::page::{Counts, Page};
use shown_pages::pages::Pages;
use std::alloc::{AllocError, Global};

/// A node of this role, as its pages show it.
#[derive(Clone, Copy)]
pub struct View<'a> {
    pub role: Role,
    pub node: &'a Node,
}

/// The page for a person.
fn overview(alloc: Global, role: Role, node: &Node, counts: &Counts) -> Result<Vec<u8>, AllocError>
    ensures { IfOk result (λ text. text.items ≡ overview role (seen node.now) counts.now) }
{
    let mut text = Vec::new(alloc);
    push_overview(alloc, &mut text, role, node, counts)?;
    Ok(text)
}

/// The page for a program. No number of it is a fraction, so its text is the compact one.
#[tactic(auto, using(crate::proofs::Floats::none_is_a_fraction))]
fn status_text(
    alloc: Global,
    role: Role,
    node: &Node,
    counts: &Counts,
) -> Result<Vec<u8>, AllocError>
    ensures { IfOk result (λ text. text.items ≡ compact_text (node_data role (seen node.now) counts.now)) }
{
    let status = status(alloc, role, node, counts)?;
    let text = status.to_string(alloc)?;
    Vec::from_slice(alloc, text.as_bytes())
}

impl<'a> Pages for View<'a> {
    ghost says = { λ v page counts. page_of v.role (seen v.node.now) counts page };

    fn text(&self, alloc: Global, page: Page, counts: &Counts) -> Result<Vec<u8>, AllocError> {
        match page {
            Page::Overview => overview(alloc, self.role, self.node, counts),
            Page::Status => status_text(alloc, self.role, self.node, counts),
            Page::Health => Vec::from_slice(alloc, b"serving\n"),
        }
    }
}
