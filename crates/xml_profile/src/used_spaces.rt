//! The namespaces that a tree uses.

ghost use Rattle.std.specs.Prelude.{◌≡◌, Some, OnOk, IfOk};
ghost use Rattle.std.specs.List.{fold};
ghost use Rattle.xml_profile.specs.CanonicalText.{declare, enumerate, spaces_at, spaces_in, declared_by, numbered_by};

use crate::name::{Attributes, QName};
use crate::names::{XML, fixed_prefix};
use crate::spaces::Spaces;
use crate::tree::{Child, Children, Tree};
use std::alloc::{AllocError, Global};

/// The namespaces of a tree's names, each list in the order of first use.
#[derive(Drop)]
pub struct Used<'a> {
    /// Those that the root declares.
    pub declared: Spaces<'a>,
    /// Those that have a number for a prefix.
    pub numbered: Spaces<'a>,
}

/// The namespaces that the names of a tree use.
pub fn used_by<'a>(alloc: Global, tree: &'a Tree) -> Result<Used<'a>, AllocError>
    ensures declared { IfOk result (λ used. used.declared ≡ declared_by tree.now) }
    ensures numbered { IfOk result (λ used. used.numbered ≡ numbered_by tree.now) }
{
    let mut used = Used {
        declared: Spaces::new(alloc),
        numbered: Spaces::new(alloc),
    };
    note_names(&mut used, &tree.name, &tree.attributes)?;
    note_children(&mut used, &tree.children)?;
    Ok(used)
}

#[tactic(auto, using(crate::proofs::FoldLaws::fold_more))]
fn note_children<'a>(used: &mut Used<'a>, children: &'a Children) -> Result<(), AllocError>
    ensures declared { OnOk result (used.new.declared ≡ fold declare used.old.declared (spaces_in children.now)) }
    ensures numbered { OnOk result (used.new.numbered ≡ fold enumerate used.old.numbered (spaces_in children.now)) }
{
    for child in children.as_slice() {
        if let Child::Element(tree) = child {
            note_names(used, &tree.name, &tree.attributes)?;
            note_children(used, &tree.children)?;
        }
    }
    Ok(())
}

fn note_names<'a>(
    used: &mut Used<'a>,
    name: &'a QName,
    attributes: &'a Attributes,
) -> Result<(), AllocError>
    ensures declared { OnOk result (used.new.declared ≡ fold declare used.old.declared (spaces_at name.now attributes.now)) }
    ensures numbered { OnOk result (used.new.numbered ≡ fold enumerate used.old.numbered (spaces_at name.now attributes.now)) }
{
    note_name(used, name)?;
    for attribute in attributes.as_slice() {
        note_name(used, &attribute.name)?;
    }
    Ok(())
}

fn note_name<'a>(used: &mut Used<'a>, name: &'a QName) -> Result<(), AllocError>
    ensures declared { OnOk result (used.new.declared ≡ declare used.old.declared name.now.space) }
    ensures numbered { OnOk result (used.new.numbered ≡ enumerate used.old.numbered name.now.space) }
{
    match &name.space {
        None => Ok(()),
        Some(space) => note_space(used, space.as_str()),
    }
}

fn note_space<'a>(used: &mut Used<'a>, space: &'a str) -> Result<(), AllocError>
    ensures declared { OnOk result (used.new.declared ≡ declare used.old.declared (Some space.now)) }
    ensures numbered { OnOk result (used.new.numbered ≡ enumerate used.old.numbered (Some space.now)) }
{
    declare_space(&mut used.declared, space)?;
    enumerate_space(&mut used.numbered, space)
}

fn declare_space<'a>(declared: &mut Spaces<'a>, space: &'a str) -> Result<(), AllocError>
    ensures { OnOk result (declared.new ≡ declare declared.old (Some space.now)) }
{
    if space == XML {
        return Ok(());
    }
    declared.add(space)
}

fn enumerate_space<'a>(numbered: &mut Spaces<'a>, space: &'a str) -> Result<(), AllocError>
    ensures { OnOk result (numbered.new ≡ enumerate numbered.old (Some space.now)) }
{
    if fixed_prefix(space).is_some() {
        return Ok(());
    }
    numbered.add(space)
}
