//! What an element says: its text value, its attributes and the elements in it.

ghost use Rattle.std.specs.Prelude.{◌≡◌, IfOk, string_bytes};
ghost use Rattle.std.specs.Option.{option_map};
ghost use Rattle.soap_profile.specs.Values.{attribute, direct_text, elements, is_named, is_unqualified, is_white, text_value, trim, trim_end, trim_start, unqualified_attribute};

use at_base::text::Text;
use std::alloc::{AllocError, Global};
use xml_profile::name::{Attribute, QName};
use xml_profile::tree::{Child, Children, Tree};

/// Whether a byte is white space of XML (XML 1.0, section 2.3).
fn is_white(byte: u8) -> bool
    ensures { result ≡ is_white byte }
{
    byte == b' ' || byte == b'\t' || byte == b'\n' || byte == b'\r'
}

#[tactic(auto, using(crate::proofs::TrimLaws::white_start, crate::proofs::TrimLaws::word_start))]
fn trim_start(text: &str) -> &str
    ensures { result.now ≡ trim_start text.now }
{
    let mut rest = text;
    while let Some(first) = rest.as_bytes().first() {
        if !is_white(*first) {
            return rest;
        }
        rest = &rest[1..];
    }
    rest
}

fn trim_end(text: &str) -> &str
    ensures { result.now ≡ trim_end text.now }
{
    let mut rest = text;
    while let Some(last) = rest.as_bytes().last() {
        if !is_white(*last) {
            return rest;
        }
        rest = &rest[..rest.len() - 1];
    }
    rest
}

/// The text without white space at its ends (XML 1.0, section 2.3).
pub fn trim(text: &str) -> &str
    ensures { result.now ≡ trim text.now }
{
    trim_end(trim_start(text))
}

/// The text value of an element: the texts directly in it, joined, without white space at the ends.
pub fn text_value(alloc: Global, tree: &Tree) -> Result<Text, AllocError>
    ensures { IfOk result (λ text. text ≡ text_value tree.now) }
{
    let joined = direct_text(alloc, &tree.children)?;
    Text::copied(alloc, trim(joined.as_str()))
}

fn direct_text(alloc: Global, children: &Children) -> Result<String, AllocError>
    ensures { IfOk result (λ text. string_bytes text ≡ direct_text children.now) }
{
    let mut joined = String::new(alloc);
    for child in children.as_slice() {
        match child {
            Child::Text(text) => joined.push_str(text.as_str())?,
            Child::Element(_) => {}
        }
    }
    Ok(joined)
}

#[tactic(auto, using(crate::proofs::Lists::elements_and_element, crate::proofs::Lists::elements_and_text))]
/// The elements directly in an element, in order, without a copy.
pub fn into_elements(alloc: Global, children: Children) -> Result<Vec<Tree>, AllocError>
    ensures { IfOk result (λ found. found.items ≡ elements children) }
{
    let mut found = Vec::new(alloc);
    for child in children.into_vec() {
        match child {
            Child::Element(tree) => found.push(tree)?,
            Child::Text(_) => {}
        }
    }
    Ok(found)
}

/// Whether a name is this local name in this namespace.
pub fn is_named(name: &QName, space: &str, local: &str) -> bool
    ensures { result ≡ is_named name.now space.now local.now }
{
    match &name.space {
        Some(own) => own.as_str() == space && name.local.as_str() == local,
        None => false,
    }
}

/// Whether a name is this local name in no namespace.
pub fn is_unqualified(name: &QName, local: &str) -> bool
    ensures { result ≡ is_unqualified name.now local.now }
{
    name.space.is_none() && name.local.as_str() == local
}

/// The text value of the attribute with this name, where there is one.
pub fn attribute<'a>(attributes: &'a [Attribute], space: &str, local: &str) -> Option<&'a str>
    ensures { option_map (λ value. value.now) result ≡ attribute attributes.now space.now local.now }
{
    for item in attributes {
        if is_named(&item.name, space, local) {
            return Some(trim(item.value.as_str()));
        }
    }
    None
}

/// The text value of the attribute with this local name in no namespace, where there is one.
pub fn unqualified_attribute<'a>(attributes: &'a [Attribute], local: &str) -> Option<&'a str>
    ensures { option_map (λ value. value.now) result ≡ unqualified_attribute attributes.now local.now }
{
    for item in attributes {
        if is_unqualified(&item.name, local) {
            return Some(trim(item.value.as_str()));
        }
    }
    None
}
