//! A journal's line for an audit.

ghost use Rattle.std.specs.Prelude.{◌≡◌, IfOk, string_bytes};
ghost use Rattle.journal_page.specs.HexLines.{hex_line, hex_word};

use std::alloc::{AllocError, Global};

/// A file in hexadecimal, `-` where it is empty.
fn hex_word(alloc: Global, file: &[u8]) -> Result<String, AllocError>
    ensures { IfOk result (λ word. string_bytes word ≡ hex_word file.now) }
{
    if file.is_empty() {
        return String::from_str(alloc, "-");
    }
    hex::encode(alloc, file)
}

/// `journal BASE HEX0 HEX1`: the base of a node, and the two files of its journal, as a line ended by LF.
#[tactic(auto, unfolding(crate::specs::HexLines::hex_line))]
pub fn hex_line(
    alloc: Global,
    base: &str,
    first: &[u8],
    second: &[u8],
) -> Result<String, AllocError>
    ensures { IfOk result (λ line. string_bytes line ≡ hex_line base.now (record { first = first.now; second = second.now })) }
{
    let one = hex_word(alloc, first)?;
    let two = hex_word(alloc, second)?;
    format!(in alloc; "journal {base} {one} {two}\n")
}
