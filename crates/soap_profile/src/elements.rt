//! Elements that are lent, looked up by name.

ghost use Rattle.std.specs.Prelude.{◌≡◌, ◌++◌, ◌∷◌, [], map, IfOk, OnOk};
ghost use Rattle.std.specs.List.{find};
ghost use Rattle.std.specs.Option.{option_copied, option_map};
ghost use Rattle.xml_profile.specs.Children.{forest_of};
ghost use Rattle.soap_profile.specs.Children.{at_most_one, child_of, has_name, listed, named};
ghost use Rattle.soap_profile.specs.Values.{elements, is_named};

use crate::value::{is_named, is_unqualified};
use std::alloc::{AllocError, Global};
use std::marker::Model;
use xml_profile::name::QName;
use xml_profile::tree::{Child, Children, Tree};

/// Elements of a tree, in order.
#[derive(Drop)]
pub struct Elements<'a> {
    items: Vec<&'a Tree>,
}

impl<'a> Model for Elements<'a> {
    ghost use Rattle.std.specs.Prelude.{List, map};
    ghost use Rattle.xml_profile.specs.declared.tree.Tree.{Tree};
    ghost use Rattle.xml_profile.specs.contracts.tree.Tree.{the_row};
    ghost use base.Stored.{coded_list};

    ghost Value = { List Tree };

    ghost coded = { coded_list the_row.coded };

    ghost view = { λ e. map (λ t. t.now) e.items.items };
}

impl<'a> Elements<'a> {
    /// No elements. It takes no memory.
    pub fn new(alloc: Global) -> Elements<'a>
        ensures { result ≡ [] }
    {
        Elements {
            items: Vec::new(alloc),
        }
    }

    /// Those directly in an element; text beside them is skipped.
    pub fn within(alloc: Global, children: &'a Children) -> Result<Elements<'a>, AllocError>
        ensures { IfOk result (λ found. found ≡ elements children.now) }
    {
        let mut items = Vec::new(alloc);
        for child in children.as_slice() {
            match child {
                Child::Element(tree) => items.push(tree)?,
                Child::Text(_) => {}
            }
        }
        Ok(Elements { items })
    }

    /// The elements as a slice.
    pub fn as_slice(&self) -> &[&'a Tree]
        ensures { map (λ t. t.now) result.now ≡ self.now }
    {
        self.items.as_slice()
    }

    /// Adds one at the end.
    pub fn push(&mut self, element: &'a Tree) -> Result<(), AllocError>
        ensures { OnOk result (self.new ≡ self.old ++ element.entry.now ∷ []) }
    {
        self.items.push(element)?;
        Ok(())
    }

    /// The one of this name: nothing where there are more, an inner nothing where there is none.
    pub fn one(&self, space: &str, local: &str) -> Option<Option<&'a Tree>>
        ensures { option_map option_copied result ≡ at_most_one (named self.now space.now local.now) }
    {
        let mut found: Option<&'a Tree> = None;
        for element in self.items.as_slice() {
            let element: &'a Tree = *element;
            if is_named(&element.name, space, local) {
                if found.is_some() {
                    return None;
                }
                found = Some(element);
            }
        }
        Some(found)
    }

    /// The first of this name.
    pub fn first(&self, space: &str, local: &str) -> Option<&'a Tree>
        ensures { option_copied result ≡ find (λ t. is_named t.name space.now local.now) self.now }
    {
        for element in self.items.as_slice() {
            let element: &'a Tree = *element;
            if is_named(&element.name, space, local) {
                return Some(element);
            }
        }
        None
    }
}

/// The child of an element with this name, in this namespace or in none: nothing where it stands more than once, an inner
/// nothing where it isn't there.
pub fn child<'a>(tree: &'a Tree, space: Option<&str>, local: &str) -> Option<Option<&'a Tree>>
    ensures { option_map option_copied result ≡ child_of tree.now (option_map (λ s. s.now) space.entry) local.now }
{
    let mut found = None;
    for child in tree.children.as_slice() {
        match child {
            Child::Element(element) if has_name(&element.name, space, local) => {
                if found.is_some() {
                    return None;
                }
                found = Some(element);
            }
            _ => {}
        }
    }
    Some(found)
}

fn has_name(name: &QName, space: Option<&str>, local: &str) -> bool
    ensures { result ≡ has_name (option_map (λ s. s.now) space.entry) local.now name.now }
{
    match space {
        Some(space) => is_named(name, space, local),
        None => is_unqualified(name, local),
    }
}

/// The first element of these children, and what stands behind it.
pub fn first_element(children: &[Child]) -> Option<(&Tree, &[Child])>
    ensures { elements (forest_of children.now) ≡ listed (option_map (λ found. (found.0.now, found.1.now)) result) }
{
    let mut rest = children;
    while let Some((child, others)) = rest.split_first() {
        if let Child::Element(tree) = child {
            return Some((tree, others));
        }
        rest = others;
    }
    None
}
