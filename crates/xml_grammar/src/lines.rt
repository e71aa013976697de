//! Line ends (XML 1.0, section 2.11): CR LF, and a CR alone, are read as LF.

ghost use Rattle.std.specs.Prelude.{◌≡◌, IfOk};
ghost use Rattle.xml_grammar.specs.Spells.{begins_feed, line_ends};

use std::alloc::{AllocError, Global};

fn begins_feed(cs: &[char]) -> bool
    ensures { result ≡ begins_feed cs.now }
{
    match cs.first() {
        Some(c) => *c == '\n',
        None => false,
    }
}

/// The characters with their line ends read.
pub fn read_line_ends(alloc: Global, cs: &[char]) -> Result<Vec<char>, AllocError>
    ensures { IfOk result (λ v. v.items ≡ line_ends cs.now) }
{
    let mut out = Vec::new(alloc);
    let mut rest = cs;
    for _ in 0..cs.len() {
        let Some((c, more)) = rest.split_first() else {
            return Ok(out);
        };
        if *c != '\r' {
            out.push(*c)?;
        } else if !begins_feed(more) {
            out.push('\n')?;
        }
        rest = more;
    }
    Ok(out)
}
