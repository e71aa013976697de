//! Which trees the profile can spell.

ghost use Rattle.std.specs.Prelude.{◌≡◌, ◌∷◌, [], ◌&&◌, not};
ghost use Rattle.std.specs.List.{list_all, list_any};
ghost use Rattle.xml_profile.specs.Children.{forest_of};
ghost use Rattle.xml_profile.specs.SpellableTrees.{is_empty, is_text, is_part_char, begins_part, has_part_chars, is_part, is_space, is_space_or_none, is_name, is_declaration, is_attribute, same_space, same_name, are_apart, is_tag, begins_with_text, texts_apart, is_content, can_be_spelled};

use crate::name::{Attribute, Attributes, QName};
use crate::names::XMLNS;
use crate::tree::{Child, Children, Tree};
use at_base::text::Text;
use at_base::well_formed::is_xml_char;

/// Whether the tree has a spelling: its names are names, its texts and values are of a document's characters, no text is
/// empty or beside another, and no two attributes of an element have the same name.
///
/// Each tree that is read has one. The canonical text of a tree that has none is no document.
pub fn can_be_spelled(tree: &Tree) -> bool
    ensures { result ≡ can_be_spelled tree.now }
{
    is_tag(&tree.name, &tree.attributes)
        && texts_apart(&tree.children)
        && is_content(&tree.children)
}

fn is_content(children: &Children) -> bool
    ensures { result ≡ is_content children.now }
{
    for child in children.as_slice() {
        match child {
            Child::Text(text) => {
                if !is_text_child(text) {
                    return false;
                }
            }
            Child::Element(tree) => {
                if !is_tag(&tree.name, &tree.attributes)
                    || !texts_apart(&tree.children)
                    || !is_content(&tree.children)
                {
                    return false;
                }
            }
        }
    }
    true
}

fn is_text_child(text: &Text) -> bool
    ensures { result ≡ not (is_empty text.now) && is_text text.now }
{
    !text.as_str().is_empty() && is_text(text.as_str())
}

#[tactic(auto, using(crate::proofs::AdjacentTexts::goes_on, crate::proofs::AdjacentTexts::stops))]
fn texts_apart(children: &Children) -> bool
    ensures { result ≡ texts_apart children.now }
{
    let mut after_text = false;
    for child in children.as_slice() {
        let is_text = is_text_at(child);
        if after_text && is_text {
            return false;
        }
        after_text = is_text;
    }
    true
}

fn is_text_at(child: &Child) -> bool
    ensures { result ≡ begins_with_text (forest_of (child.now ∷ [])) }
{
    matches!(child, Child::Text(_))
}

fn is_tag(name: &QName, attributes: &Attributes) -> bool
    ensures { result ≡ is_tag name.now attributes.now }
{
    is_name(name) && are_attributes(attributes.as_slice()) && are_apart(attributes.as_slice())
}

fn are_attributes(attributes: &[Attribute]) -> bool
    ensures { result ≡ list_all is_attribute attributes.now }
{
    attributes.iter().all(|attribute| is_attribute(attribute))
}

fn are_apart(attributes: &[Attribute]) -> bool
    ensures { result ≡ are_apart attributes.now }
{
    let mut rest = attributes;
    while let Some((first, others)) = rest.split_first() {
        if is_among(&first.name, others) {
            return false;
        }
        rest = others;
    }
    true
}

fn is_among(name: &QName, attributes: &[Attribute]) -> bool
    ensures { result ≡ list_any (λ a. same_name name.now a.name) attributes.now }
{
    attributes
        .iter()
        .any(|attribute| same_name(name, &attribute.name))
}

fn same_name(a: &QName, b: &QName) -> bool
    ensures { result ≡ same_name a.now b.now }
{
    same_space(&a.space, &b.space) && a.local.as_str() == b.local.as_str()
}

fn same_space(a: &Option<Text>, b: &Option<Text>) -> bool
    ensures { result ≡ same_space a.now b.now }
{
    match (a, b) {
        (None, None) => true,
        (Some(a), Some(b)) => a.as_str() == b.as_str(),
        _ => false,
    }
}

fn is_attribute(attribute: &Attribute) -> bool
    ensures { result ≡ is_attribute attribute.now }
{
    is_name(&attribute.name)
        && !is_declaration(&attribute.name)
        && is_text(attribute.value.as_str())
}

fn is_declaration(name: &QName) -> bool
    ensures { result ≡ is_declaration name.now }
{
    name.space.is_none() && name.local.as_str() == "xmlns"
}

fn is_name(name: &QName) -> bool
    ensures { result ≡ is_name name.now }
{
    is_space_or_none(&name.space) && is_part(name.local.as_str())
}

fn is_space_or_none(space: &Option<Text>) -> bool
    ensures { result ≡ is_space_or_none space.now }
{
    match space {
        None => true,
        Some(space) => is_space(space),
    }
}

fn is_space(space: &Text) -> bool
    ensures { result ≡ is_space space.now }
{
    !space.as_str().is_empty() && space.as_str() != XMLNS && is_text(space.as_str())
}

fn is_text(text: &str) -> bool
    ensures { result ≡ is_text text.now }
{
    text.chars().all(|c| is_xml_char(c))
}

fn is_part(part: &str) -> bool
    ensures { result ≡ is_part part.now }
{
    begins_part(part.as_bytes()) && has_part_chars(part)
}

fn has_part_chars(part: &str) -> bool
    ensures { result ≡ has_part_chars part.now }
{
    part.chars().all(|c| is_part_char(c))
}

fn begins_part(part: &[u8]) -> bool
    ensures { result ≡ begins_part part.now }
{
    match part {
        [] => false,
        [first, ..] => !matches!(*first, b'0'..=b'9' | b'-' | b'.'),
    }
}

fn is_part_char(c: char) -> bool
    ensures { result ≡ is_part_char c }
{
    matches!(c, 'a'..='z' | 'A'..='Z' | '0'..='9' | '_' | '-' | '.')
        || (c >= '\u{80}' && is_xml_char(c))
}
