//! The writer of the canonical text (XML 1.0; Namespaces in XML 1.0).
#![tactic(auto, using(crate::proofs::Utf8::none, crate::proofs::Utf8::through))]

ghost use Rattle.std.specs.Prelude.{◌≡◌, ◌++◌, ◌∷◌, [], if◌then◌else◌, OnOk, OnErr, codes, decimal, map};
ghost use Rattle.std.specs.List.{flat_map};
ghost use Rattle.std.specs.Str.{IsUtf8};
ghost use Rattle.xml_profile.specs.Children.{forest_of};
ghost use Rattle.xml_profile.specs.Extensions.{AddsText, Extends};
ghost use Rattle.xml_profile.specs.CanonicalText.{prefix_of, prefixed, name_text, text_byte, value_byte, text_text, value_text, equals_text, declaration_text, attribute_text, is_end, start_text, end_text, content_text, canonical_text};

use crate::name::{Attribute, Attributes, QName};
use crate::names::fixed_prefix;
use crate::spaces::Spaces;
use crate::tree::{Child, Children, Tree};
use crate::used_spaces::used_by;
use itoa::Buffer;
use std::alloc::{AllocError, Global};

/// Adds the canonical text of a tree at the end, in time linear in that text. After an error `out` is as before.
///
/// The text spells the tree where the tree can be spelled at all. It has no XML declaration.
#[tactic(auto, using(crate::proofs::Utf8::added_if, crate::proofs::Utf8::cut))]
pub fn write_tree(alloc: Global, tree: &Tree, out: &mut Vec<u8>) -> Result<(), AllocError>
    ensures ok { OnOk result (out.new.items ≡ out.old.items ++ canonical_text tree.now) }
    ensures utf8 { OnOk result (IsUtf8 (canonical_text tree.now)) }
    ensures err { OnErr result (out.new.items ≡ out.old.items) }
{
    let before = out.len();
    let written = push_tree(alloc, tree, out);
    if written.is_err() {
        out.truncate(before);
    }
    written
}

fn push_tree(alloc: Global, tree: &Tree, out: &mut Vec<u8>) -> Result<(), AllocError>
    ensures done { OnOk result (out.new.items ≡ out.old.items ++ canonical_text tree.now) }
    ensures kept { AddsText out.old.items out.new.items }
{
    let used = used_by(alloc, tree)?;
    push_start(&used.numbered, used.declared.as_slice(), tree, out)?;
    push_content(&used.numbered, &tree.children, out)?;
    push_end(&used.numbered, tree, out)
}

#[cycle(content)]
fn push_content(
    numbered: &Spaces<'_>,
    children: &Children,
    out: &mut Vec<u8>,
) -> Result<(), AllocError>
    ensures done { OnOk result (out.new.items ≡ out.old.items ++ content_text numbered.now children.now) }
    ensures kept { AddsText out.old.items out.new.items }
{
    for child in children.as_slice() {
        push_child(numbered, child, out)?;
    }
    Ok(())
}

#[cycle(content)]
fn push_child(numbered: &Spaces<'_>, child: &Child, out: &mut Vec<u8>) -> Result<(), AllocError>
    ensures done { OnOk result (out.new.items ≡ out.old.items ++ content_text numbered.now (forest_of (child.now ∷ []))) }
    ensures kept { AddsText out.old.items out.new.items }
{
    match child {
        Child::Text(text) => push_text(text.as_str(), out),
        Child::Element(tree) => {
            push_start(numbered, &[], tree, out)?;
            push_content(numbered, &tree.children, out)?;
            push_end(numbered, tree, out)
        }
    }
}

fn push_start(
    numbered: &Spaces<'_>,
    declared: &[&str],
    tree: &Tree,
    out: &mut Vec<u8>,
) -> Result<(), AllocError>
    ensures done { OnOk result (out.new.items ≡ out.old.items ++ start_text numbered.now (map (λ s. s.now) declared.now) tree.now.name tree.now.attributes tree.now.children) }
    ensures kept { AddsText out.old.items out.new.items }
{
    push_open(numbered, &tree.name, out)?;
    push_declarations(numbered, declared, out)?;
    push_attributes(numbered, &tree.attributes, out)?;
    push_start_close(&tree.children, out)
}

/// The open of a start tag, with its name.
fn push_open(numbered: &Spaces<'_>, name: &QName, out: &mut Vec<u8>) -> Result<(), AllocError>
    ensures done { OnOk result (out.new.items ≡ out.old.items ++ (codes "<" ++ name_text numbered.now name.now)) }
    ensures kept { AddsText out.old.items out.new.items }
{
    push_str("<", out)?;
    push_name(numbered, name, out)
}

/// The close of a start tag, or of the tag of an element without children.
fn push_start_close(children: &Children, out: &mut Vec<u8>) -> Result<(), AllocError>
    ensures done { OnOk result (out.new.items ≡ out.old.items ++ (if is_end children.now then codes "/>" else codes ">")) }
    ensures kept { AddsText out.old.items out.new.items }
{
    if is_empty(children) {
        return push_str("/>", out);
    }
    push_str(">", out)
}

fn push_end(numbered: &Spaces<'_>, tree: &Tree, out: &mut Vec<u8>) -> Result<(), AllocError>
    ensures done { OnOk result (out.new.items ≡ out.old.items ++ end_text numbered.now tree.now.name tree.now.children) }
    ensures kept { AddsText out.old.items out.new.items }
{
    if is_empty(&tree.children) {
        return Ok(());
    }
    push_str("</", out)?;
    push_name(numbered, &tree.name, out)?;
    push_str(">", out)
}

fn is_empty(children: &Children) -> bool
    ensures { result ≡ is_end children.now }
{
    children.as_slice().is_empty()
}

fn push_declarations(
    numbered: &Spaces<'_>,
    declared: &[&str],
    out: &mut Vec<u8>,
) -> Result<(), AllocError>
    ensures done { OnOk result (out.new.items ≡ out.old.items ++ flat_map (declaration_text numbered.now) (map (λ s. s.now) declared.now)) }
    ensures kept { AddsText out.old.items out.new.items }
{
    for space in declared {
        push_declaration(numbered, space, out)?;
    }
    Ok(())
}

fn push_declaration(numbered: &Spaces<'_>, space: &str, out: &mut Vec<u8>) -> Result<(), AllocError>
    ensures done { OnOk result (out.new.items ≡ out.old.items ++ declaration_text numbered.now space.now) }
    ensures kept { AddsText out.old.items out.new.items }
{
    push_str(" xmlns:", out)?;
    push_prefix(numbered, space, out)?;
    push_equals(space, out)
}

fn push_attributes(
    numbered: &Spaces<'_>,
    attributes: &Attributes,
    out: &mut Vec<u8>,
) -> Result<(), AllocError>
    ensures done { OnOk result (out.new.items ≡ out.old.items ++ flat_map (attribute_text numbered.now) attributes.now) }
    ensures kept { AddsText out.old.items out.new.items }
{
    for attribute in attributes.as_slice() {
        push_attribute(numbered, attribute, out)?;
    }
    Ok(())
}

fn push_attribute(
    numbered: &Spaces<'_>,
    attribute: &Attribute,
    out: &mut Vec<u8>,
) -> Result<(), AllocError>
    ensures done { OnOk result (out.new.items ≡ out.old.items ++ attribute_text numbered.now attribute.now) }
    ensures kept { AddsText out.old.items out.new.items }
{
    push_str(" ", out)?;
    push_name(numbered, &attribute.name, out)?;
    push_equals(attribute.value.as_str(), out)
}

fn push_name(numbered: &Spaces<'_>, name: &QName, out: &mut Vec<u8>) -> Result<(), AllocError>
    ensures done { OnOk result (out.new.items ≡ out.old.items ++ name_text numbered.now name.now) }
    ensures kept { AddsText out.old.items out.new.items }
{
    let local = name.local.as_str();
    match &name.space {
        Some(space) => push_prefixed(numbered, space.as_str(), local, out),
        None => push_str(local, out),
    }
}

fn push_prefixed(
    numbered: &Spaces<'_>,
    space: &str,
    local: &str,
    out: &mut Vec<u8>,
) -> Result<(), AllocError>
    ensures done { OnOk result (out.new.items ≡ out.old.items ++ (prefix_of numbered.now space.now ++ (codes ":" ++ local.now))) }
    ensures kept { AddsText out.old.items out.new.items }
{
    push_prefix(numbered, space, out)?;
    push_str(":", out)?;
    push_str(local, out)
}

fn push_prefix(numbered: &Spaces<'_>, space: &str, out: &mut Vec<u8>) -> Result<(), AllocError>
    ensures done { OnOk result (out.new.items ≡ out.old.items ++ prefix_of numbered.now space.now) }
    ensures kept { AddsText out.old.items out.new.items }
{
    if let Some(prefix) = fixed_prefix(space) {
        return push_str(prefix, out);
    }
    push_numbered(numbered.place(space) + 1, out)
}

/// A prefix that isn't fixed.
fn push_numbered(number: usize, out: &mut Vec<u8>) -> Result<(), AllocError>
    ensures done { OnOk result (out.new.items ≡ out.old.items ++ (codes "n" ++ decimal number)) }
    ensures kept { AddsText out.old.items out.new.items }
{
    push_str("n", out)?;
    push_str(Buffer::new().format(number), out)
}

/// A value in its quotes, and the sign before it.
fn push_equals(value: &str, out: &mut Vec<u8>) -> Result<(), AllocError>
    ensures done { OnOk result (out.new.items ≡ out.old.items ++ equals_text value.now) }
    ensures kept { AddsText out.old.items out.new.items }
{
    push_str("=\"", out)?;
    push_value(value, out)?;
    push_str("\"", out)
}

#[tactic(auto, using(crate::proofs::Utf8::value_by))]
fn push_value(value: &str, out: &mut Vec<u8>) -> Result<(), AllocError>
    ensures done { OnOk result (out.new.items ≡ out.old.items ++ value_text value.now) }
    ensures kept { AddsText out.old.items out.new.items }
{
    push_whole_value(value.as_bytes(), out)
}

/// After an error `out` is as before.
fn push_whole_value(bytes: &[u8], out: &mut Vec<u8>) -> Result<(), AllocError>
    ensures ok { OnOk result (out.new.items ≡ out.old.items ++ value_text bytes.now) }
    ensures err { OnErr result (out.new.items ≡ out.old.items) }
{
    let before = out.len();
    let written = push_value_bytes(bytes, out);
    if written.is_err() {
        out.truncate(before);
    }
    written
}

#[tactic(auto, using(crate::proofs::Extensions::same, crate::proofs::Extensions::by, crate::proofs::Extensions::through))]
fn push_value_bytes(bytes: &[u8], out: &mut Vec<u8>) -> Result<(), AllocError>
    ensures done { OnOk result (out.new.items ≡ out.old.items ++ value_text bytes.now) }
    ensures kept { Extends out.old.items out.new.items }
{
    for byte in bytes {
        push_value_byte(*byte, out)?;
    }
    Ok(())
}

#[tactic(auto, using(crate::proofs::Utf8::text_by))]
fn push_text(text: &str, out: &mut Vec<u8>) -> Result<(), AllocError>
    ensures done { OnOk result (out.new.items ≡ out.old.items ++ text_text text.now) }
    ensures kept { AddsText out.old.items out.new.items }
{
    push_whole_text(text.as_bytes(), out)
}

/// After an error `out` is as before.
fn push_whole_text(bytes: &[u8], out: &mut Vec<u8>) -> Result<(), AllocError>
    ensures ok { OnOk result (out.new.items ≡ out.old.items ++ text_text bytes.now) }
    ensures err { OnErr result (out.new.items ≡ out.old.items) }
{
    let before = out.len();
    let written = push_text_bytes(bytes, out);
    if written.is_err() {
        out.truncate(before);
    }
    written
}

#[tactic(auto, using(crate::proofs::Extensions::same, crate::proofs::Extensions::by, crate::proofs::Extensions::through))]
fn push_text_bytes(bytes: &[u8], out: &mut Vec<u8>) -> Result<(), AllocError>
    ensures done { OnOk result (out.new.items ≡ out.old.items ++ text_text bytes.now) }
    ensures kept { Extends out.old.items out.new.items }
{
    for byte in bytes {
        push_text_byte(*byte, out)?;
    }
    Ok(())
}

#[tactic(auto, using(crate::proofs::Extensions::same, crate::proofs::Extensions::by, crate::proofs::Extensions::through))]
fn push_value_byte(byte: u8, out: &mut Vec<u8>) -> Result<(), AllocError>
    ensures done { OnOk result (out.new.items ≡ out.old.items ++ value_byte byte) }
    ensures kept { Extends out.old.items out.new.items }
{
    match byte {
        b'"' => push_bytes(b"&quot;", out),
        b'\t' => push_bytes(b"&#9;", out),
        b'\n' => push_bytes(b"&#10;", out),
        _ => push_text_byte(byte, out),
    }
}

#[tactic(auto, using(crate::proofs::Extensions::same, crate::proofs::Extensions::by, crate::proofs::Extensions::through))]
fn push_text_byte(byte: u8, out: &mut Vec<u8>) -> Result<(), AllocError>
    ensures done { OnOk result (out.new.items ≡ out.old.items ++ text_byte byte) }
    ensures kept { Extends out.old.items out.new.items }
{
    match byte {
        b'&' => push_bytes(b"&amp;", out),
        b'<' => push_bytes(b"&lt;", out),
        b'>' => push_bytes(b"&gt;", out),
        b'\r' => push_bytes(b"&#13;", out),
        _ => push_bytes(&[byte], out),
    }
}

#[tactic(auto, using(crate::proofs::Utf8::one_by))]
fn push_str(text: &str, out: &mut Vec<u8>) -> Result<(), AllocError>
    ensures done { OnOk result (out.new.items ≡ out.old.items ++ text.now) }
    ensures kept { AddsText out.old.items out.new.items }
{
    push_whole(text.as_bytes(), out)
}

/// After an error `out` is as before.
fn push_whole(bytes: &[u8], out: &mut Vec<u8>) -> Result<(), AllocError>
    ensures ok { OnOk result (out.new.items ≡ out.old.items ++ bytes.now) }
    ensures err { OnErr result (out.new.items ≡ out.old.items) }
{
    out.extend_from_slice(bytes)
}

#[tactic(auto, using(crate::proofs::Extensions::same, crate::proofs::Extensions::by, crate::proofs::Extensions::through))]
fn push_bytes(bytes: &[u8], out: &mut Vec<u8>) -> Result<(), AllocError>
    ensures done { OnOk result (out.new.items ≡ out.old.items ++ bytes.now) }
    ensures kept { Extends out.old.items out.new.items }
{
    out.extend_from_slice(bytes)
}
