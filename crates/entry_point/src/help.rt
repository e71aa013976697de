//! The command `help`.

ghost use Rattle.std.specs.Prelude.{◌≡◌, IfOk, map, string_bytes};
ghost use Rattle.entry_point.specs.Asking.{asks_help, heard};

use std::alloc::{AllocError, Global};

/// Whether the words are `help` or `help COMMAND`.
fn asks_help(words: &[String]) -> bool
    ensures { result ≡ asks_help (map string_bytes words.now) }
{
    match words {
        [first] | [first, _] => first.as_str() == "help",
        _ => false,
    }
}

/// The words as they are read: `help` asks as `--help` does, and `help COMMAND` as `COMMAND --help`.
#[tactic(auto, using(crate::proofs::Asking::asked_for, crate::proofs::Asking::others))]
pub fn heard(alloc: Global, mut words: Vec<String>) -> Result<Vec<String>, AllocError>
    ensures { IfOk result (λ read. map string_bytes read.items ≡ heard (map string_bytes words.items)) }
{
    if !asks_help(words.as_slice()) {
        return Ok(words);
    }
    let _help = words.remove(0);
    let asking = String::from_str(alloc, "--help")?;
    words.push(asking)?;
    Ok(words)
}
