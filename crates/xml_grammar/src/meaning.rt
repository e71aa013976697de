//! What a tag means under the bindings in force (Namespaces in XML 1.0).

ghost use Rattle.std.specs.Prelude.{◌≡◌, [], map, option_map, IfOk, OnOk};
ghost use Rattle.xml_grammar.specs.Namespaces.{defaulted, lookup, sort, element_name, attribute_name, attributes_of, are_apart, means};
ghost use Rattle.xml_grammar.specs.Code.Keys.{name_of};
ghost use Rattle.xml_grammar.specs.Code.Views.{parts_of, pair_of, tag_of};
ghost use Rattle.xml_grammar.specs.Code.Open.{bindings_of, spelled_of, sorted_of, meaning_of};
ghost use Rattle.xml_grammar.specs.Code.Joining.{joined, sort_one, declared_prefix, prefixed_name};

use crate::declaration::is_word;
use crate::lexer::{Parts, split_name};
use crate::markup::{Pair, Tag, utf8};
use crate::scope::{Binding, Scope, may_declare};
use at_base::text::Text;
use std::alloc::{AllocError, Global};
use std::collections::BTreeSet;
use xml_profile::name::{Attribute, Attributes, QName};

/// An attribute with its name taken apart.
#[derive(Drop)]
pub struct Spelled<'a> {
    pub name: Parts<'a>,
    pub value: Text,
}

/// The declarations of a tag, and its attributes, each in order.
#[derive(Drop)]
pub struct Sorted<'a> {
    pub declarations: Vec<Binding<'a>>,
    pub attributes: Vec<Spelled<'a>>,
}

/// The expanded names of a tag.
#[derive(Drop)]
pub struct Meaning {
    pub name: QName,
    pub attributes: Attributes,
}

/// The prefix that an attribute of this name declares (section 3). None where it is no declaration.
fn declared_prefix<'a>(name: Parts<'a>) -> Option<&'a [char]>
    ensures { option_map (λ p. p.now) result ≡ declared_prefix (parts_of name.entry) }
{
    if name.prefix.is_empty() && is_word(name.local, b"xmlns") {
        return Some(&[]);
    }
    if is_word(name.prefix, b"xmlns") {
        return Some(name.local);
    }
    None
}

impl<'a> Sorted<'a> {
    fn add(&mut self, alloc: Global, name: Parts<'a>, value: Text) -> Result<(), AllocError>
        ensures { OnOk result (sorted_of self.new ≡ joined (sorted_of self.old) (sort_one (parts_of name.entry) value)) }
    {
        match declared_prefix(name) {
            Some(prefix) => self.declarations.push(Binding {
                prefix,
                space: value.into_shared(alloc)?,
            })?,
            None => self.attributes.push(Spelled { name, value })?,
        }
        Ok(())
    }
}

/// The declarations among the pairs of a tag, and the other attributes.
fn sort<'a>(alloc: Global, pairs: Vec<Pair<'a>>) -> Result<Option<Sorted<'a>>, AllocError>
    ensures { IfOk result (λ o. option_map sorted_of o ≡ sort (map pair_of pairs.entry.items)) }
{
    let mut sorted = Sorted {
        declarations: Vec::new(alloc),
        attributes: Vec::new(alloc),
    };
    for pair in pairs {
        let Some(name) = split_name(pair.name) else {
            return Ok(None);
        };
        sorted.add(alloc, name, pair.value)?;
    }
    Ok(Some(sorted))
}

/// A name in the namespace that its prefix is bound to. None where it is unbound.
fn prefixed_name(
    alloc: Global,
    scope: &Scope<'_>,
    name: Parts<'_>,
) -> Result<Option<QName>, AllocError>
    ensures { IfOk result (λ o. o ≡ prefixed_name (bindings_of scope.now) (parts_of name.entry)) }
{
    let Some(space) = scope.space_of(name.prefix) else {
        return Ok(None);
    };
    let local = utf8(alloc, name.local)?;
    let space = Some(space.clone()?);
    Ok(Some(QName { space, local }))
}

fn default_space(scope: &Scope<'_>) -> Result<Option<Text>, AllocError>
    ensures { IfOk result (λ o. o ≡ defaulted (lookup [] (bindings_of scope.now))) }
{
    match scope.default_space() {
        Some(space) => Ok(Some(space.clone()?)),
        None => Ok(None),
    }
}

/// The expanded name of an element (sections 6.1 and 6.2).
fn element_name(
    alloc: Global,
    scope: &Scope<'_>,
    name: Parts<'_>,
) -> Result<Option<QName>, AllocError>
    ensures { IfOk result (λ o. o ≡ element_name (bindings_of scope.now) (parts_of name.entry)) }
{
    if !name.prefix.is_empty() {
        return prefixed_name(alloc, scope, name);
    }
    let local = utf8(alloc, name.local)?;
    let space = default_space(scope)?;
    Ok(Some(QName { space, local }))
}

/// The expanded name of an attribute (section 6.2).
fn attribute_name(
    alloc: Global,
    scope: &Scope<'_>,
    name: Parts<'_>,
) -> Result<Option<QName>, AllocError>
    ensures { IfOk result (λ o. o ≡ attribute_name (bindings_of scope.now) (parts_of name.entry)) }
{
    if !name.prefix.is_empty() {
        return prefixed_name(alloc, scope, name);
    }
    let local = utf8(alloc, name.local)?;
    Ok(Some(QName { space: None, local }))
}

fn attributes_of(
    alloc: Global,
    scope: &Scope<'_>,
    attributes: Vec<Spelled<'_>>,
) -> Result<Option<Vec<Attribute>>, AllocError>
    ensures { IfOk result (λ o. option_map (λ v. v.items) o ≡ attributes_of (bindings_of scope.now) (map spelled_of attributes.entry.items)) }
{
    let mut found = Vec::new(alloc);
    for attribute in attributes {
        let Some(name) = attribute_name(alloc, scope, attribute.name)? else {
            return Ok(None);
        };
        found.push(Attribute {
            name,
            value: attribute.value,
        })?;
    }
    Ok(Some(found))
}

/// A local name with its namespace, as names are kept apart.
fn key(name: &QName) -> (&str, Option<&str>)
    ensures { name_of result ≡ name.now }
{
    (name.local.as_str(), name.space.as_ref().map(Text::as_str))
}

/// Whether no two attributes have equal expanded names (section 6.3).
fn are_apart(alloc: Global, attributes: &[Attribute]) -> Result<bool, AllocError>
    ensures { IfOk result (λ b. b ≡ are_apart attributes.now) }
{
    let mut behind = BTreeSet::new(alloc);
    let mut left = attributes.len();
    while left > 0 {
        left -= 1;
        if !behind.insert(key(&attributes[left].name))? {
            return Ok(false);
        }
    }
    Ok(true)
}

/// The names of a tag, whose declarations come into force. None where it means nothing.
#[tactic(auto, unfolding(crate::specs::Namespaces::means))]
pub fn read_meaning<'a>(
    alloc: Global,
    scope: &mut Scope<'a>,
    tag: Tag<'a>,
) -> Result<Option<Meaning>, AllocError>
    ensures { IfOk result (λ o. option_map (meaning_of (bindings_of scope.new)) o ≡ means (bindings_of scope.old) (tag_of tag.entry)) }
{
    let Some(sorted) = sort(alloc, tag.pairs)? else {
        return Ok(None);
    };
    if !may_declare(alloc, sorted.declarations.as_slice())? {
        return Ok(None);
    }
    let Some(parts) = split_name(tag.name) else {
        return Ok(None);
    };
    scope.enter(sorted.declarations)?;
    let Some(name) = element_name(alloc, scope, parts)? else {
        return Ok(None);
    };
    let Some(attributes) = attributes_of(alloc, scope, sorted.attributes)? else {
        return Ok(None);
    };
    if !are_apart(alloc, attributes.as_slice())? {
        return Ok(None);
    }
    Ok(Some(Meaning {
        name,
        attributes: Attributes::from_vec(attributes),
    }))
}
