//! The reader of a document: exactly the grammar, within limits.

ghost use Rattle.std.specs.Prelude.{◌≡◌, nat_le, chars, IfOk, IfErr};
ghost use Rattle.std.specs.List.{list_all};
ghost use Rattle.at_base.specs.Chars.{is_xml_char};
ghost use Rattle.xml_profile.specs.declared.tree.Tree.{Tree};
ghost use Rattle.xml_grammar.specs.Limits.{elements, widest};
ghost use Rattle.xml_grammar.specs.Refusals.{Answers, Reads, Refuses, IsShort};
ghost use Rattle.xml_grammar.specs.Code.Found.{Finds, Judged, spent};
ghost use Rattle.std.specs.Str.{IsUtf8};

use crate::declaration::read_body;
use crate::lines::read_line_ends;
use crate::machine::{Found, LEVELS, Machine};
use crate::markup::read_token;
use at_base::well_formed::is_xml_char;
use std::alloc::{AllocError, Global};
use std::str;
use thiserror::Error;
use xml_profile::tree::{Child, Children, Tree};

/// The most bytes of a document.
pub const BYTES: usize = 65_536;

/// The most elements of a document.
pub const ELEMENTS: usize = 4_096;

/// The most attributes of one element, declarations of namespaces not counted.
pub const ATTRIBUTES: usize = 32;

/// Why bytes are read as no tree: the first that holds.
#[derive(Debug, PartialEq, Eq, Drop, Error)]
pub enum TreeRefusal {
    #[error("over 65,536 bytes")]
    TooLong,
    /// The place, from 0, of the first byte that is no UTF-8.
    #[error("no UTF-8")]
    NotUtf8 { place: u64 },
    #[error("not spelled")]
    NotSpelled,
    #[error("over 32 levels")]
    TooDeep,
    #[error("over 4,096 elements, or over 32 attributes on one")]
    TooMany,
    #[error("want of memory")]
    NoMemory,
}

impl From<AllocError> for TreeRefusal {
    ghost use Rattle.xml_grammar.specs.declared.reader.TreeRefusal.TheVariants.{NoMemory};

    ghost from_gives = { λ e r. r ≡ NoMemory };

    fn from(_: AllocError) -> TreeRefusal {
        TreeRefusal::NoMemory
    }
}

/// What is left of so many elements behind those of some children. None where there are more.
fn spend(budget: usize, children: &Children) -> Option<usize>
    ensures { result ≡ spent budget (elements children.now) }
{
    let mut left = budget;
    for child in children.as_slice() {
        match child {
            Child::Element(tree) => left = spend(left.checked_sub(1)?, &tree.children)?,
            Child::Text(_) => {}
        }
    }
    Some(left)
}

/// Whether no element among the children has too many attributes.
fn are_narrow(children: &Children) -> bool
    ensures { result ≡ nat_le (widest children.now) 32 }
{
    for child in children.as_slice() {
        match child {
            Child::Element(tree) => {
                if tree.attributes.as_slice().len() > ATTRIBUTES || !are_narrow(&tree.children) {
                    return false;
                }
            }
            Child::Text(_) => {}
        }
    }
    true
}

/// The characters of a text.
fn characters(alloc: Global, text: &str) -> Result<Vec<char>, AllocError>
    ensures { IfOk result (λ v. v.items ≡ chars text.now) }
{
    let mut out = Vec::new(alloc);
    for c in text.chars() {
        out.push(c)?;
    }
    Ok(out)
}

/// Whether all are characters of XML (XML 1.0, section 2.2).
fn are_xml_chars(cs: &[char]) -> bool
    ensures { result ≡ list_all is_xml_char cs.now }
{
    cs.iter().all(|c| is_xml_char(*c))
}

/// The document that the characters, their line ends read, spell behind mark and declaration.
fn read_document(alloc: Global, cs: &[char]) -> Result<Option<Found>, AllocError>
    ensures { IfOk result (Finds cs.now) }
{
    let mut machine = Machine::new(alloc)?;
    let mut rest = cs;
    while !rest.is_empty() {
        let Some((token, more)) = read_token(alloc, rest)? else {
            return Ok(None);
        };
        if !machine.step(token)? {
            return Ok(None);
        }
        rest = more;
    }
    Ok(machine.finish())
}

/// The document within the limits, which are judged of what is spelled.
fn within(found: Found) -> Result<Tree, TreeRefusal>
    ensures { Judged found result }
{
    if found.levels > LEVELS {
        return Err(TreeRefusal::TooDeep);
    }
    let is_narrow = found.tree.attributes.as_slice().len() <= ATTRIBUTES
        && are_narrow(&found.tree.children);
    if !is_narrow || spend(ELEMENTS - 1, &found.tree.children).is_none() {
        return Err(TreeRefusal::TooMany);
    }
    Ok(found.tree)
}

fn read_text(alloc: Global, text: &str) -> Result<Tree, TreeRefusal>
    requires short { IsShort text.now }
    requires utf8 { IsUtf8 text.now }
    ensures ok { IfOk result (Reads text.now) }
    ensures err { IfErr result (Refuses text.now) }
{
    let cs = characters(alloc, text)?;
    if !are_xml_chars(cs.as_slice()) {
        return Err(TreeRefusal::NotSpelled);
    }
    let lines = read_line_ends(alloc, cs.as_slice())?;
    match read_document(alloc, read_body(lines.as_slice()))? {
        Some(found) => within(found),
        None => Err(TreeRefusal::NotSpelled),
    }
}

/// The tree that the bytes spell, or the first refusal that holds, in the order of [`TreeRefusal`].
///
/// Depth and counts are judged of a text that is spelled.
pub fn read_tree(alloc: Global, bytes: &[u8]) -> Result<Tree, TreeRefusal>
    ensures ok { IfOk result (Reads bytes.now) }
    ensures every { (t : Tree) → Reads bytes.now t → Answers result t }
    ensures err { IfErr result (Refuses bytes.now) }
{
    if bytes.len() > BYTES {
        return Err(TreeRefusal::TooLong);
    }
    match str::from_utf8(bytes) {
        Ok(text) => read_text(alloc, text),
        Err(fault) => Err(TreeRefusal::NotUtf8 {
            place: fault.valid_up_to() as u64,
        }),
    }
}
