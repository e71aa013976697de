//! The words of the command line.

ghost use Rattle.std.specs.Prelude.{◌≡◌, IfOk, drop};
ghost use Rattle.std.specs.Vec.Iter.{into_iter_items};

use std::alloc::{AllocError, Global};
use std::env::Args;

/// The words behind the program's name: all of them, in order.
pub fn behind_name(alloc: Global, mut words: Args) -> Result<Vec<String>, AllocError>
    ensures { IfOk result (λ behind. behind.items ≡ drop 1 (into_iter_items words)) }
{
    let _name = words.next();
    let mut behind = Vec::new(alloc);
    for word in words {
        behind.push(word)?;
    }
    Ok(behind)
}
