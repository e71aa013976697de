//! Elements built of names, texts and elements.

ghost use Rattle.std.specs.Prelude.{◌≡◌, IfOk};
ghost use Rattle.soap_profile.specs.BuiltElements.{children_of, element, qualified, text_children, unqualified};

use at_base::text::Text;
use std::alloc::{AllocError, Global};
use xml_profile::name::{Attributes, QName};
use xml_profile::tree::{Child, Children, Tree};

/// The name of this local name in this namespace.
pub fn qualified(alloc: Global, space: &str, local: &str) -> Result<QName, AllocError>
    ensures { IfOk result (λ name. name ≡ qualified space.now local.now) }
{
    let local = Text::copied(alloc, local)?;
    let space = Text::copied(alloc, space)?;
    Ok(QName {
        space: Some(space),
        local,
    })
}

/// The name of this local name in no namespace.
pub fn unqualified(alloc: Global, local: &str) -> Result<QName, AllocError>
    ensures { IfOk result (λ name. name ≡ unqualified local.now) }
{
    Ok(QName {
        space: None,
        local: Text::copied(alloc, local)?,
    })
}

/// An element without attributes.
pub fn element(alloc: Global, name: QName, children: Children) -> Tree
    ensures { result ≡ element name children }
{
    Tree {
        name,
        attributes: Attributes::from_vec(Vec::new(alloc)),
        children,
    }
}

#[tactic(auto, using(crate::proofs::Lists::forest_of_elements))]
/// Elements as the children of one.
pub fn children_of(alloc: Global, elements: Vec<Tree>) -> Result<Children, AllocError>
    ensures { IfOk result (λ children. children ≡ children_of elements.items) }
{
    let mut children = Vec::with_capacity(alloc, elements.len())?;
    for tree in elements {
        children.push(Child::Element(tree))?;
    }
    Ok(Children::from_vec(children))
}

/// A text as the only child of an element, or no child where it is empty.
pub fn text_children(alloc: Global, text: &str) -> Result<Children, AllocError>
    ensures { IfOk result (λ children. children ≡ text_children text.now) }
{
    if text.is_empty() {
        return Ok(Children::new(alloc));
    }
    let text = Text::copied(alloc, text)?;
    Ok(Children::from_vec(vec![in alloc; Child::Text(text)]?))
}
