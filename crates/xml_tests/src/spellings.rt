//! Spellings with the canonical texts of their trees, what is refused, and each limit at its number and past it.

use std::alloc::{AllocError, Global};
use std::test::Fail;
use xml_grammar::reader::{BYTES, ELEMENTS, TreeRefusal, read_tree};
use xml_profile::writer::write_tree;

/// A spelling of each construct, and the canonical text of its tree.
const READ: &[(&str, &str)] = &[
    ("<a></a>", "<a/>"),
    (
        " \n<a\tb = \"x\ty\" >1\r\n2</a >\r",
        "<a b=\"x y\">1\n2</a>",
    ),
    (
        "<p:a xmlns:p=\"urn:x\" xmlns:q=\"urn:x\"><q:b p:c=\"1\"/></p:a>",
        "<n1:a xmlns:n1=\"urn:x\"><n1:b n1:c=\"1\"/></n1:a>",
    ),
    (
        "<a xmlns=\"urn:x\" b=\"1\"><c xmlns=\"\"/></a>",
        "<n1:a xmlns:n1=\"urn:x\" b=\"1\"><c/></n1:a>",
    ),
    ("<a xmlns=\"\"/>", "<a/>"),
    ("<a xml:lang=\"en\"/>", "<a xml:lang=\"en\"/>"),
    (
        "<a xmlns:xml=\"http://www.w3.org/XML/1998/namespace\"/>",
        "<a/>",
    ),
    ("\u{feff}<?xml version=\"1.0\"?><a/>", "<a/>"),
    (
        "<?xml version='1.1' encoding='utf-8' standalone = \"no\" ?>\n<a/>",
        "<a/>",
    ),
    ("<!-- a - b --><a/><!---->", "<a/>"),
    ("<a>1<!--x-->2</a>", "<a>12</a>"),
    (
        "<a><![CDATA[<&]]]]><![CDATA[>]]></a>",
        "<a>&lt;&amp;]]&gt;</a>",
    ),
    ("<a><![CDATA[]]></a>", "<a/>"),
    (
        "<a>&amp;&lt;&gt;&apos;&quot;</a>",
        "<a>&amp;&lt;&gt;'\"</a>",
    ),
    ("<a>&#65;&#x42;&#x0000043;&#00068;</a>", "<a>ABCD</a>"),
    ("<a>&#13;&#10;&#9;</a>", "<a>&#13;\n\t</a>"),
    ("<a b='&#13;&#10;&#9;'/>", "<a b=\"&#13;&#10;&#9;\"/>"),
    ("<a b='\"' c=\"'\"/>", "<a b=\"&quot;\" c=\"'\"/>"),
    ("<a b=']]>' c='>'/>", "<a b=\"]]&gt;\" c=\"&gt;\"/>"),
    ("<a>]]<!---->&gt;</a>", "<a>]]&gt;</a>"),
    ("<a b='1\r\n2\r3\n4'/>", "<a b=\"1 2 3 4\"/>"),
    ("<a>\r\r\n\n</a>", "<a>\n\n\n</a>"),
    ("<\u{e9}.-1/>", "<\u{e9}.-1/>"),
    (
        "<a xmlns:p='u'><b xmlns:p='v' p:c=''/><b p:c=''/></a>",
        "<a xmlns:n1=\"v\" xmlns:n2=\"u\"><b n1:c=\"\"/><b n2:c=\"\"/></a>",
    ),
    (
        "<p:a xmlns:p='u' xmlns='u' p:b='1' b='2'/>",
        "<n1:a xmlns:n1=\"u\" n1:b=\"1\" b=\"2\"/>",
    ),
    (
        "\u{feff}<?xml version = '1.1' encoding=\"utf-8\" standalone='no' ?>\n<!-- a - b --><a/> <!----> ",
        "<a/>",
    ),
    (
        "<a b=']]>>'>]]&gt;]] > </a>",
        "<a b=\"]]&gt;&gt;\">]]&gt;]] &gt; </a>",
    ),
    (
        "<a>&#00000065;&#x000041;&#x10FFFF;&#9;<![CDATA[&<]]]]></a>",
        "<a>AA\u{10ffff}\t&amp;&lt;]]</a>",
    ),
    (
        "<a xmlns=''><xml:b xml:lang='' xmlns:xml='http://www.w3.org/XML/1998/namespace'/></a>",
        "<a><xml:b xml:lang=\"\"/></a>",
    ),
    (
        "<\u{e4}.-1 _='' xmlns:p='u' p:_=''/>",
        "<\u{e4}.-1 xmlns:n1=\"u\" _=\"\" n1:_=\"\"/>",
    ),
    (
        "<a xmlns:p='urn&#58;x' p:b='&#x10FFFF;'/>",
        "<a xmlns:n1=\"urn:x\" n1:b=\"\u{10ffff}\"/>",
    ),
    (
        "<e:Envelope xmlns:e='http://schemas.xmlsoap.org/soap/envelope/'><e:Header xmlns:w='http://www.w3.org/2005/08/addressing'><w:Action><![CDATA[http://docs.oasis-open.org/ws-tx/wsat/2006/06/Prepare]]></w:Action></e:Header><!-- x --><e:Body><Prepare xmlns='http://docs.oasis-open.org/ws-tx/wsat/2006/06'/></e:Body></e:Envelope>",
        "<s:Envelope xmlns:s=\"http://schemas.xmlsoap.org/soap/envelope/\" xmlns:wsa=\"http://www.w3.org/2005/08/addressing\" xmlns:wsat=\"http://docs.oasis-open.org/ws-tx/wsat/2006/06\"><s:Header><wsa:Action>http://docs.oasis-open.org/ws-tx/wsat/2006/06/Prepare</wsa:Action></s:Header><s:Body><wsat:Prepare/></s:Body></s:Envelope>",
    ),
];

/// What spells no tree, a text for each rule.
const REFUSED: &[&str] = &[
    "<s:Envelope/>",
    "",
    "<a>",
    "<a></b>",
    "<a/><a/>",
    "a<a/>",
    "<a/>&#32;",
    "<![CDATA[]]><a/>",
    "<a/>\u{0}",
    "< a/>",
    "<a/ >",
    "</a>",
    "<1a/>",
    "<-a/>",
    "<a:b:c xmlns:a='u'/>",
    "<:a/>",
    "<a:/>",
    "<a b=\"1\"c=\"2\"/>",
    "<a b=1/>",
    "<a b/>",
    "<a b='1\"/>",
    "<a b=\"1\" b=\"2\"/>",
    "<a xmlns:p=\"u\" xmlns:q=\"u\" p:b=\"1\" q:b=\"2\"/>",
    "<a xmlns:p='u' xmlns:q='&#117;' p:b='' q:b=''/>",
    "<p:a/>",
    "<a p:b=''/>",
    "<a><b xmlns:p='u'/><p:c/></a>",
    "<a xmlns:p=\"\"/>",
    "<a xmlns:xmlns=\"u\"/>",
    "<xmlns:a/>",
    "<a xmlns:xml='u'/>",
    "<a xmlns:p='http://www.w3.org/XML/1998/namespace'/>",
    "<a xmlns='http://www.w3.org/XML/1998/namespace'/>",
    "<a xmlns:p='http://www.w3.org/2000/xmlns/'/>",
    "<a xmlns='http://www.w3.org/2000/xmlns/'/>",
    "<a xmlns:p='u' xmlns:p='u'/>",
    "<a xmlns='u' xmlns='v'/>",
    "<p:a xmlns:p='u' xmlns:q='u'></q:a>",
    "<a>]]></a>",
    "<a b=\"<\"/>",
    "<a>&</a>",
    "<a>&b;</a>",
    "<a>&#;</a>",
    "<a>&#x;</a>",
    "<a>&#x1G;</a>",
    "<a>&#0;</a>",
    "<a>&#x110000;</a>",
    "<a>&#99999999999999999999;</a>",
    "<a>&#xD800;</a>",
    "<a>&#xFFFF;</a>",
    "<a>\u{1}</a>",
    "<a><!-- -- --></a>",
    "<a><!-- --->",
    "<a><?b?></a>",
    "<!DOCTYPE a><a/>",
    " <?xml version='1.0'?><a/>",
    "<?xml version='2.0'?><a/>",
    "<?xml encoding='UTF-8' version='1.0'?><a/>",
    "<?xml version='1.0' encoding='latin1'?><a/>",
    "<a/>x",
    "<?xml version='1.'?><a/>",
    "<?xml encoding='UTF-8'?><a/>",
    "<?xml version='1.0' encoding='ISO-8859-1'?><a/>",
    "<?xml version='1.0' standalone='yes' encoding='UTF-8'?><a/>",
    "<?xml version='1.0' standalone='maybe'?><a/>",
    "<?xml version='1.0'encoding='UTF-8'?><a/>",
    "<?b c?><a/>",
    "<!DOCTYPE a [<!ENTITY b 'c'>]><a>&b;</a>",
    "<.a/>",
    "<a b:-c='' xmlns:b='u'/>",
    "<a b='\u{7}'/>",
    "<a>\u{fffe}</a>",
    "<a>&nbsp;</a>",
    "<a>&amp</a>",
    "<a b='&'/>",
    "<a>&#18446744073709551681;</a>",
    "<a>&#X41;</a>",
    "<a><![CDATA[]]</a>",
    "<a><!-- a ---></a>",
    "<a><!-- a -></a>",
    "<a></ a>",
    "<p:a xmlns:p='u' xmlns='u'></a>",
];

/// The canonical text of the tree that a text spells.
fn canonical(alloc: Global, spelling: &str) -> Result<Vec<u8>, Fail> {
    let tree = read_tree(alloc, spelling.as_bytes())?;
    let mut out = Vec::new(alloc);
    write_tree(alloc, &tree, &mut out)?;
    Ok(out)
}

#[test]
fn reads_spellings(rt: HostRuntime) -> Result<(), Fail> {
    for (spelling, wanted) in READ {
        let found = canonical(rt.alloc(), spelling)?;
        assert!(rt; found.as_slice() == wanted.as_bytes(), "at {spelling}");
    }
    Ok(())
}

fn is_refused(alloc: Global, bytes: &[u8], refusal: TreeRefusal) -> bool {
    read_tree(alloc, bytes).err() == Some(refusal)
}

#[test]
fn refuses_other_texts(rt: HostRuntime) -> Result<(), Fail> {
    for spelling in REFUSED {
        let right = is_refused(rt.alloc(), spelling.as_bytes(), TreeRefusal::NotSpelled);
        assert!(rt; right, "at {spelling}");
    }
    Ok(())
}

/// Bytes that are no UTF-8, and the place of the first of them.
const TORN: &[(&[u8], u64)] = &[(b"\xff", 0), (b"<a/>\x80", 4), (b"\xef\xbb\xbf<a>\xc3(", 6)];

#[test]
fn refuses_torn_texts(rt: HostRuntime) -> Result<(), Fail> {
    for (bytes, place) in TORN {
        let right = is_refused(rt.alloc(), bytes, TreeRefusal::NotUtf8 { place: *place });
        assert!(rt; right, "at {place}");
    }
    Ok(())
}

/// A piece so many times between a beginning and an end.
fn repeated(
    alloc: Global,
    first: &str,
    piece: &str,
    count: usize,
    last: &str,
) -> Result<String, AllocError> {
    let mut out = String::from_str(alloc, first)?;
    for _ in 0..count {
        out.push_str(piece)?;
    }
    out.push_str(last)?;
    Ok(out)
}

/// So many elements one in another.
fn nested(alloc: Global, levels: usize, last: &str) -> Result<String, AllocError> {
    let open = repeated(alloc, "", "<a>", levels, "")?;
    repeated(alloc, open.as_str(), "</a>", levels, last)
}

/// An element with so many attributes.
fn wide(alloc: Global, count: usize) -> Result<String, Fail> {
    let mut out = String::from_str(alloc, "<b><a")?;
    for i in 0..count {
        let attribute = format!(in alloc; " a{i}=''")?;
        out.push_str(attribute.as_str())?;
    }
    out.push_str("/></b>")?;
    Ok(out)
}

/// An element that declares so many prefixes, around an element for each.
fn declaring(alloc: Global, count: usize) -> Result<String, Fail> {
    let mut out = String::from_str(alloc, "<a")?;
    for i in 0..count {
        let declaration = format!(in alloc; " xmlns:p{i}='u'")?;
        out.push_str(declaration.as_str())?;
    }
    out.push_str(">")?;
    for i in 0..count {
        let element = format!(in alloc; "<p{i}:b/>")?;
        out.push_str(element.as_str())?;
    }
    out.push_str("</a>")?;
    Ok(out)
}

fn is_read(alloc: Global, text: String) -> bool {
    read_tree(alloc, text.as_str().as_bytes()).is_ok()
}

fn is_text_refused(alloc: Global, text: String, refusal: TreeRefusal) -> bool {
    is_refused(alloc, text.as_str().as_bytes(), refusal)
}

#[test]
fn reads_up_to_the_limits(rt: HostRuntime) -> Result<(), Fail> {
    let alloc = rt.alloc();
    let deep = is_read(alloc, nested(alloc, 32, "")?);
    let many = is_read(alloc, repeated(alloc, "<a>", "<b/>", ELEMENTS - 1, "</a>")?);
    let broad = is_read(alloc, wide(alloc, 32)?);
    let declared = is_read(alloc, declaring(alloc, 2_000)?);
    let long = is_read(alloc, repeated(alloc, "<a>", "b", BYTES - 7, "</a>")?);
    assert!(rt; deep && many && broad && declared && long);
    Ok(())
}

#[test]
fn refuses_what_is_too_deep(rt: HostRuntime) -> Result<(), Fail> {
    let alloc = rt.alloc();
    let first = is_text_refused(alloc, nested(alloc, 33, "")?, TreeRefusal::TooDeep);
    let last = is_text_refused(alloc, nested(alloc, 9_000, "")?, TreeRefusal::TooDeep);
    let spelled = is_text_refused(alloc, nested(alloc, 33, "b")?, TreeRefusal::NotSpelled);
    assert!(rt; first && last && spelled);
    Ok(())
}

#[test]
fn refuses_what_is_too_many(rt: HostRuntime) -> Result<(), Fail> {
    let alloc = rt.alloc();
    let elements = repeated(alloc, "<a>", "<b/>", ELEMENTS, "</a>")?;
    let elements = is_text_refused(alloc, elements, TreeRefusal::TooMany);
    let first = is_text_refused(alloc, wide(alloc, 33)?, TreeRefusal::TooMany);
    let last = is_text_refused(alloc, wide(alloc, 6_000)?, TreeRefusal::TooMany);
    assert!(rt; elements && first && last);
    Ok(())
}

#[test]
fn refuses_what_is_too_long(rt: HostRuntime) -> Result<(), Fail> {
    let alloc = rt.alloc();
    let bytes = repeated(alloc, "<a>", "b", BYTES - 6, "</a>")?;
    let bytes = is_text_refused(alloc, bytes, TreeRefusal::TooLong);
    let pairs = repeated(alloc, "\u{80}", "\u{80}", BYTES / 2, "")?;
    let pairs = is_text_refused(alloc, pairs, TreeRefusal::TooLong);
    assert!(rt; bytes && pairs);
    Ok(())
}
