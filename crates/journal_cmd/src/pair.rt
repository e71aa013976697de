//! The two files of a journal.

ghost use Rattle.std.specs.Prelude.{◌≡◌, ◌++◌, Some, IfOk, codes, string_bytes};
ghost use Rattle.journal_cmd.specs.Folders.{Held};
ghost use Rattle.journal_cmd.specs.Pairs.{IsSecond, PairCause, PairOf, SecondCause};

use crate::files::Files;
use crate::read_file::{Unread, read_file};
use std::alloc::{AllocError, Global};

/// The bytes of a journal's two files.
pub struct Pair {
    pub first: Vec<u8>,
    pub second: Vec<u8>,
}

impl Drop for Pair {
    fn drop(self) {
        let Pair {
            first: _first,
            second: _second,
        } = self;
    }
}

/// Why they weren't read.
#[derive(Clone, Copy, Debug, PartialEq, Eq)]
pub enum PairFault {
    NoMemory,
    /// The first isn't there, or opening or reading one of them failed.
    Unread,
}

/// The name of the second file.
fn second_name(alloc: Global, name: &str) -> Result<String, AllocError>
    ensures { IfOk result (λ second. string_bytes second ≡ name.now ++ codes ".1") }
{
    format!(in alloc; "{name}.1")
}

/// The bytes of the second file, none where there is no such file.
fn read_second<F: Files>(alloc: Global, files: &mut F, name: &str) -> Result<Vec<u8>, PairFault>
    ensures is { (held : Held) → F.told files.old ≡ Some held → IfOk result (λ v. IsSecond v.items (held name.now)) }
    ensures kept { F.told files.new ≡ F.told files.old }
    ensures cause { SecondCause result (F.faults files.old) (F.faults files.new) }
{
    match read_file(alloc, files, name) {
        Ok(bytes) => Ok(bytes),
        Err(Unread::Missing) => Ok(Vec::new(alloc)),
        Err(Unread::NoMemory) => Err(PairFault::NoMemory),
        Err(Unread::Failed) => Err(PairFault::Unread),
    }
}

/// The two files of a journal: that of its name, and that with `.1` behind it.
pub fn read_pair<F: Files>(alloc: Global, files: &mut F, name: &str) -> Result<Pair, PairFault>
    ensures is { (held : Held) → F.told files.old ≡ Some held → IfOk result (λ p. PairOf held name.now (record { first = p.first.items; second = p.second.items })) }
    ensures kept { F.told files.new ≡ F.told files.old }
    ensures cause { PairCause result (F.told files.old) name.now (F.faults files.old) (F.faults files.new) }
{
    let Ok(other) = second_name(alloc, name) else {
        return Err(PairFault::NoMemory);
    };
    let first = match read_file(alloc, files, name) {
        Ok(first) => first,
        Err(Unread::NoMemory) => return Err(PairFault::NoMemory),
        Err(Unread::Missing | Unread::Failed) => return Err(PairFault::Unread),
    };
    match read_second(alloc, files, other.as_str()) {
        Ok(second) => Ok(Pair { first, second }),
        Err(fault) => Err(fault),
    }
}
