//! Trees: elements with expanded names, attributes and children.

ghost use Rattle.std.specs.Prelude.{◌≡◌, []};
ghost use Rattle.xml_profile.specs.Children.{forest_of};

use crate::name::{Attributes, QName};
use at_base::text::Text;
use std::alloc::Global;
use std::marker::Model;

/// An element (XML 1.0, section 3).
#[derive(Debug, Drop)]
#[cycle(tree)]
pub struct Tree {
    pub name: QName,
    pub attributes: Attributes,
    pub children: Children,
}

/// A child of an element. Comments are none.
#[derive(Debug, Drop)]
#[cycle(tree)]
pub enum Child {
    Element(Tree),
    Text(Text),
}

/// The children of an element, in order. No text is empty, and no two texts are adjacent.
#[derive(Debug)]
#[cycle(tree)]
pub struct Children {
    items: Vec<Child>,
}

impl Drop for Children {
    #[cycle(tree)]
    fn drop(self) {
        let Children { items: _items } = self;
    }
}

impl Model for Children {
    ghost use Rattle.xml_profile.specs.Forest.{Forest, forest_code};

    ghost Value = { Forest };

    ghost coded = { forest_code };

    ghost use Rattle.xml_profile.specs.Children.{forest_of, nodes};

    ghost view = { λ c. forest_of c.items.items };

    ghost size = { nodes };

    ghost use Rattle.std.proofs.Common.{arith};
    ghost use Rattle.xml_profile.specs.Depth.{most_le-nodes};

    ghost size_decreases = { λ c h. omega (arith, most_le-nodes c.items.items) };
}

impl Children {
    /// No children. It takes no memory.
    pub fn new(alloc: Global) -> Children
        ensures { result ≡ forest_of [] }
    {
        Children {
            items: Vec::new(alloc),
        }
    }

    /// The children of a `Vec`, without a copy.
    pub fn from_vec(items: Vec<Child>) -> Children
        ensures { result ≡ forest_of items.items }
    {
        Children { items }
    }

    /// The `Vec` of the children, without a copy.
    pub fn into_vec(self) -> Vec<Child>
        ensures { forest_of result.items ≡ self }
    {
        let Children { items } = self;
        items
    }

    /// The children as a slice.
    pub fn as_slice(&self) -> &[Child]
        ensures { forest_of result.now ≡ self.now }
    {
        self.items.as_slice()
    }
}
