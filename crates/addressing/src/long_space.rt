//! Trees whose canonical text is too long for an endpoint, found without writing it.

ghost use Rattle.std.specs.Prelude.{◌≡◌, ◌<◌, IsTrue, length};
ghost use Rattle.std.specs.List.{list_any};
ghost use Rattle.at_base.specs.declared.limits.TheConstants.{MOST_ENDPOINT};
ghost use Rattle.xml_profile.specs.CanonicalText.{canonical_text, spaces_at, spaces_in, spaces_of};
ghost use Rattle.addressing.specs.Lengths.{is_long};

use at_base::limits::MOST_ENDPOINT;
use xml_profile::laws::declarations;
use xml_profile::name::{Attributes, QName};
use xml_profile::tree::{Child, Children, Tree};

/// Whether the canonical text has more than 2,048 bytes since the namespace of a name does, which the root declares.
///
/// So a text is never written where each of many names has one of many bytes.
pub fn has_long_space(tree: &Tree) -> bool
    ensures value { result ≡ list_any is_long (spaces_of tree.now) }
    ensures long { IsTrue result → MOST_ENDPOINT < length (canonical_text tree.now) }
{
    declarations(tree);
    is_long_within(tree)
}

#[tactic(auto, using(crate::proofs::Lengths::any_of_both))]
fn is_long_within(tree: &Tree) -> bool
    ensures { result ≡ list_any is_long (spaces_of tree.now) }
{
    is_long_at(&tree.name, &tree.attributes) || is_long_in(&tree.children)
}

#[tactic(auto, using(crate::proofs::Lengths::any_of_names, crate::proofs::Lengths::any_inside, crate::proofs::Lengths::none_of_both))]
fn is_long_in(children: &Children) -> bool
    ensures { result ≡ list_any is_long (spaces_in children.now) }
{
    for child in children.as_slice() {
        if let Child::Element(tree) = child {
            if is_long_at(&tree.name, &tree.attributes) {
                return true;
            }
            if is_long_in(&tree.children) {
                return true;
            }
        }
    }
    false
}

fn is_long_at(name: &QName, attributes: &Attributes) -> bool
    ensures { result ≡ list_any is_long (spaces_at name.now attributes.now) }
{
    if is_long(name) {
        return true;
    }
    for attribute in attributes.as_slice() {
        if is_long(&attribute.name) {
            return true;
        }
    }
    false
}

fn is_long(name: &QName) -> bool
    ensures { result ≡ is_long name.now.space }
{
    match &name.space {
        Some(space) => space.as_str().len() > MOST_ENDPOINT,
        None => false,
    }
}
