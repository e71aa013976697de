//! Canonical texts written out by hand, and what no spelling has.

use at_base::text::Text;
use std::alloc::{AllocError, Global};
use std::test::Fail;
use xml_profile::name::{Attribute, Attributes, QName};
use xml_profile::names::{ADDRESSING, SOAP, XML, XMLNS};
use xml_profile::spellable_trees::can_be_spelled;
use xml_profile::tree::{Child, Children, Tree};
use xml_profile::writer::write_tree;

fn qname(alloc: Global, space: &str, local: &str) -> Result<QName, AllocError> {
    let local = Text::copied(alloc, local)?;
    if space.is_empty() {
        return Ok(QName { space: None, local });
    }
    let space = Text::copied(alloc, space)?;
    Ok(QName {
        space: Some(space),
        local,
    })
}

/// An element of a name, with attributes of a namespace, a local name and a value each; the empty namespace is none.
fn element(
    alloc: Global,
    name: (&str, &str),
    attributes: &[(&str, &str, &str)],
    children: Children,
) -> Result<Tree, AllocError> {
    let mut list = Vec::new(alloc);
    for (space, local, value) in attributes {
        let value = Text::copied(alloc, value)?;
        let name = qname(alloc, space, local)?;
        list.push(Attribute { name, value })?;
    }
    let name = qname(alloc, name.0, name.1)?;
    let attributes = Attributes::from_vec(list);
    Ok(Tree {
        name,
        attributes,
        children,
    })
}

fn text(alloc: Global, text: &str) -> Result<Children, AllocError> {
    let mut list = Vec::new(alloc);
    list.push(Child::Text(Text::copied(alloc, text)?))?;
    Ok(Children::from_vec(list))
}

fn only(alloc: Global, tree: Tree) -> Result<Children, AllocError> {
    let mut list = Vec::new(alloc);
    list.push(Child::Element(tree))?;
    Ok(Children::from_vec(list))
}

fn with_markup(alloc: Global) -> Result<Tree, AllocError> {
    element(alloc, ("", "a"), &[], text(alloc, "&<>\"'\t\n\r")?)
}

fn with_attributes(alloc: Global) -> Result<Tree, AllocError> {
    let attributes = [("", "b", "&<>\"'\t\n\r"), ("", "c", "")];
    element(alloc, ("", "a"), &attributes, Children::new(alloc))
}

fn with_spaces(alloc: Global) -> Result<Tree, AllocError> {
    let inner = element(alloc, ("urn:b", "c"), &[], Children::new(alloc))?;
    let attributes = [
        ("urn:a&b", "x", "1"),
        (XML, "lang", "en"),
        (SOAP, "y", "2"),
        ("urn:b", "z", "3"),
    ];
    element(alloc, ("urn:b", "a"), &attributes, only(alloc, inner)?)
}

fn with_parameters(alloc: Global) -> Result<Tree, AllocError> {
    let part = element(alloc, ("", "part"), &[], text(alloc, "7")?)?;
    let key = element(alloc, ("urn:key", "key"), &[], only(alloc, part)?)?;
    let name = (ADDRESSING, "ReferenceParameters");
    element(alloc, name, &[], only(alloc, key)?)
}

/// What is written of a tree that can be spelled behind bytes that are there, and nothing of another.
fn written(alloc: Global, tree: Tree) -> Result<Vec<u8>, AllocError> {
    let mut out = Vec::from_slice(alloc, b"before ")?;
    if can_be_spelled(&tree) {
        write_tree(alloc, &tree, &mut out)?;
    }
    Ok(out)
}

#[test]
fn writes_an_empty_element(rt: HostRuntime) -> Result<(), Fail> {
    let tree = element(rt.alloc(), ("", "a"), &[], Children::new(rt.alloc()))?;
    let out = written(rt.alloc(), tree)?;
    assert!(rt; out.as_slice() == b"before <a/>".as_slice());
    Ok(())
}

#[test]
fn writes_texts(rt: HostRuntime) -> Result<(), Fail> {
    let out = written(rt.alloc(), with_markup(rt.alloc())?)?;
    let wanted = "before <a>&amp;&lt;&gt;\"'\t\n&#13;</a>";
    assert!(rt; out.as_slice() == wanted.as_bytes());
    Ok(())
}

#[test]
fn writes_attributes(rt: HostRuntime) -> Result<(), Fail> {
    let out = written(rt.alloc(), with_attributes(rt.alloc())?)?;
    let wanted = "before <a b=\"&amp;&lt;&gt;&quot;'&#9;&#10;&#13;\" c=\"\"/>";
    assert!(rt; out.as_slice() == wanted.as_bytes());
    Ok(())
}

#[test]
fn writes_namespaces(rt: HostRuntime) -> Result<(), Fail> {
    let out = written(rt.alloc(), with_spaces(rt.alloc())?)?;
    let wanted =
        "before <n1:a xmlns:n1=\"urn:b\" xmlns:n2=\"urn:a&amp;b\" xmlns:s=\"http://schemas.xmlsoap.org/soap/envelope/\" n2:x=\"1\" xml:lang=\"en\" s:y=\"2\" n1:z=\"3\"><n1:c/></n1:a>";
    assert!(rt; out.as_slice() == wanted.as_bytes());
    Ok(())
}

#[test]
fn writes_reference_parameters(rt: HostRuntime) -> Result<(), Fail> {
    let out = written(rt.alloc(), with_parameters(rt.alloc())?)?;
    let wanted =
        "before <wsa:ReferenceParameters xmlns:wsa=\"http://www.w3.org/2005/08/addressing\" xmlns:n1=\"urn:key\"><n1:key><part>7</part></n1:key></wsa:ReferenceParameters>";
    assert!(rt; out.as_slice() == wanted.as_bytes());
    Ok(())
}

/// Names that no spelling has: a namespace, or none, and a local name.
const UNSPELLED: &[(&str, &str)] = &[
    ("", ""),
    ("", "1a"),
    ("", "-a"),
    ("", "a:b"),
    ("", "a\u{ffff}"),
    (XMLNS, "a"),
];

/// Whether an element of a name can be spelled.
fn may_be_outer(alloc: Global, name: (&str, &str)) -> Result<bool, AllocError> {
    let tree = element(alloc, name, &[], Children::new(alloc))?;
    Ok(can_be_spelled(&tree))
}

/// Whether an element can be spelled that has one of a name in it.
fn may_be_inner(alloc: Global, name: (&str, &str)) -> Result<bool, AllocError> {
    let inner = element(alloc, name, &[], Children::new(alloc))?;
    let tree = element(alloc, ("", "a"), &[], only(alloc, inner)?)?;
    Ok(can_be_spelled(&tree))
}

#[test]
fn knows_unspelled_names(rt: HostRuntime) -> Result<(), Fail> {
    for name in UNSPELLED {
        let outer = may_be_outer(rt.alloc(), *name)?;
        let inner = may_be_inner(rt.alloc(), *name)?;
        assert!(rt; !outer && !inner);
    }
    Ok(())
}

/// Attributes that no element has.
const ATTRIBUTES: &[[(&str, &str, &str); 2]] = &[
    [("", "xmlns", "u"), ("", "a", "")],
    [("", "a", "1"), ("", "a", "2")],
    [("", "b", "\u{1}"), ("", "a", "")],
];

/// Whether an element can be spelled with these attributes.
fn may_have(alloc: Global, attributes: &[(&str, &str, &str)]) -> Result<bool, AllocError> {
    let tree = element(alloc, ("", "a"), attributes, Children::new(alloc))?;
    Ok(can_be_spelled(&tree))
}

#[test]
fn knows_unspelled_attributes(rt: HostRuntime) -> Result<(), Fail> {
    for attributes in ATTRIBUTES {
        let spelled = may_have(rt.alloc(), attributes.as_slice())?;
        assert!(rt; !spelled);
    }
    Ok(())
}

/// Whether an element can be spelled that has these texts, an element between them where the first is empty.
fn may_have_texts(alloc: Global, first: &str, last: &str) -> Result<bool, AllocError> {
    let mut list = Vec::new(alloc);
    list.push(Child::Text(Text::copied(alloc, first)?))?;
    if first.is_empty() {
        let mark = element(alloc, ("", "b"), &[], Children::new(alloc))?;
        list.push(Child::Element(mark))?;
    }
    list.push(Child::Text(Text::copied(alloc, last)?))?;
    let tree = element(alloc, ("", "a"), &[], Children::from_vec(list))?;
    Ok(can_be_spelled(&tree))
}

#[test]
fn knows_unspelled_texts(rt: HostRuntime) -> Result<(), Fail> {
    let empty = may_have_texts(rt.alloc(), "", "<")?;
    let adjacent = may_have_texts(rt.alloc(), "a", "b")?;
    assert!(rt; !empty && !adjacent);
    Ok(())
}
