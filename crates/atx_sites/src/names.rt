//! The names of a journal's files.

ghost use Rattle.std.specs.Prelude.{◌≡◌, ◌++◌, IfSome, codes};
ghost use Rattle.atx_sites.specs.FileCalls.{IsFolderOf};

use std::str;

/// The most bytes of a name, with the byte that ends it.
const NAME_BYTES: usize = 4096;

/// The name of the second file: that of the first with `.1` behind it. None where it is longer than the system takes.
pub(crate) fn second_name<'a>(buf: &'a mut [u8; 4096], journal: &str) -> Option<&'a str>
    ensures { IfSome result (λ s. s.now ≡ journal.now ++ codes ".1") }
{
    let n = journal.len();
    if n > NAME_BYTES - 3 {
        return None;
    }
    buf[..n].copy_from_slice(journal.as_bytes());
    buf[n..n + 2].copy_from_slice(b".1");
    str::from_utf8(&buf[..n + 2]).ok()
}

/// The folder in which a file of that name stands.
pub(crate) fn folder_of(name: &str) -> &str
    ensures { IsFolderOf name.now result.now }
{
    match name.rsplit_once('/') {
        Some((folder, _)) => { if folder.is_empty() { "/" } else { folder } }
        None => ".",
    }
}
