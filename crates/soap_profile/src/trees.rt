//! Lists of elements.

ghost use Rattle.std.specs.Prelude.{◌≡◌, ◌++◌, ◌∷◌, [], OnOk, OnErr};

use std::alloc::{AllocError, Global};
use std::marker::Model;
use xml_profile::tree::Tree;

/// Elements in order.
#[derive(Debug)]
pub struct Trees {
    items: Vec<Tree>,
}

impl Drop for Trees {
    fn drop(self) {
        let Trees { items: _items } = self;
    }
}

impl Model for Trees {
    ghost use Rattle.std.specs.Prelude.{List};
    ghost use Rattle.xml_profile.specs.declared.tree.Tree.{Tree};
    ghost use Rattle.xml_profile.specs.contracts.tree.Tree.{the_row};
    ghost use base.Stored.{coded_list};

    ghost Value = { List Tree };

    ghost coded = { coded_list the_row.coded };

    ghost view = { λ t. t.items.items };
}

impl Trees {
    /// No elements. It takes no memory.
    pub fn new(alloc: Global) -> Trees
        ensures { result ≡ [] }
    {
        Trees {
            items: Vec::new(alloc),
        }
    }

    /// The elements of a `Vec`, without a copy.
    pub fn from_vec(items: Vec<Tree>) -> Trees
        ensures { result ≡ items.items }
    {
        Trees { items }
    }

    /// The `Vec` of the elements, without a copy.
    pub fn into_vec(self) -> Vec<Tree>
        ensures { result.items ≡ self }
    {
        let Trees { items } = self;
        items
    }

    /// The elements as a slice.
    pub fn as_slice(&self) -> &[Tree]
        ensures { result.now ≡ self.now }
    {
        self.items.as_slice()
    }

    /// Adds one at the end. After an error the list is as before.
    pub fn push(&mut self, tree: Tree) -> Result<(), AllocError>
        ensures ok { OnOk result (self.new ≡ self.old ++ tree ∷ []) }
        ensures err { OnErr result (self.new ≡ self.old) }
    {
        self.items.push(tree)?;
        Ok(())
    }
}
