//! A file that is read whole.

ghost use Rattle.std.specs.Prelude.{Some, None, Ok, Err, true, ◌≡◌, ◌<◌, IfOk, length};
ghost use Rattle.journal_cmd.specs.Folders.{Held, IsBeginning, IsPiece, ReadCause};
ghost use Rattle.journal_cmd.specs.declared.read_file.Unread.TheVariants.{Missing};

use crate::files::{FileFault, Files};
use std::alloc::Global;

/// Why a file wasn't read whole.
#[derive(Clone, Copy, Debug, PartialEq, Eq)]
pub enum Unread {
    NoMemory,
    /// There is no file of this name.
    Missing,
    /// Opening or reading it failed.
    Failed,
}

/// Reads a piece behind those that were read. False at the file's end.
#[tactic(auto, using(crate::proofs::FilePieces::one_more, crate::proofs::FilePieces::ended, crate::proofs::FilePieces::missing))]
fn read_piece<F: Files>(files: &mut F, name: &str, bytes: &mut Vec<u8>) -> Result<bool, Unread>
    ensures is { (held : Held) → F.told files.old ≡ Some held → IsBeginning bytes.old.items (held name.now) → IsPiece result bytes.new.items (held name.now) }
    ensures kept { F.told files.new ≡ F.told files.old }
    ensures cause { ReadCause result (F.faults files.old) (F.faults files.new) }
    ensures longer { result ≡ Ok true → length bytes.old.items < length bytes.new.items }
{
    let mut buf = [0u8; 4096];
    match files.read(name, bytes.len() as u64, &mut buf) {
        Ok(n) => {
            if n == 0 {
                return Ok(false);
            }
            if bytes.extend_from_slice(&buf[..n]).is_err() {
                return Err(Unread::NoMemory);
            }
            Ok(true)
        }
        Err(FileFault::Missing) => Err(Unread::Missing),
        Err(FileFault::Failed) => Err(Unread::Failed),
    }
}

/// All bytes of a file.
#[tactic(auto, using(crate::proofs::FilePieces::none_read))]
pub(crate) fn read_file<F: Files>(
    alloc: Global,
    files: &mut F,
    name: &str,
) -> Result<Vec<u8>, Unread>
    ensures is { (held : Held) → F.told files.old ≡ Some held → IfOk result (λ v. held name.now ≡ Some v.items) }
    ensures missing { (held : Held) → F.told files.old ≡ Some held → result ≡ Err Missing → held name.now ≡ None }
    ensures kept { F.told files.new ≡ F.told files.old }
    ensures cause { ReadCause result (F.faults files.old) (F.faults files.new) }
{
    let mut bytes = Vec::new(alloc);
    loop {
        match read_piece(files, name, &mut bytes) {
            Ok(true) => {}
            Ok(false) => return Ok(bytes),
            Err(fault) => return Err(fault),
        }
    }
}
