//! Files in memory, for tests.

ghost use Rattle.std.specs.Prelude.{◌≡◌, ◌≢◌, ◌≤◌, ◌<◌, ◌++◌, ◌∷◌, [], Some, Err, IfOk, OnOk, drop, length, option_map, string_bytes, take};
ghost use Rattle.journal_cmd.specs.Folders.{Answers, FileCause, Held};
ghost use Rattle.journal_cmd.specs.HeldFiles.{IsAdded, held_in};
ghost use Rattle.journal_cmd.specs.declared.files.FileFault.TheVariants.{Failed};

use crate::files::{FileFault, Files};
use std::alloc::{AllocError, Global};

/// A file by its name.
#[derive(Drop)]
pub struct NamedFile {
    pub(crate) name: String,
    pub(crate) bytes: Vec<u8>,
}

/// Files in memory, of which a read fails where that is asked for.
#[derive(Drop)]
pub struct MemoryFiles {
    pub(crate) files: Vec<NamedFile>,
    pub(crate) fail: u32,
    pub(crate) faults: u64,
}

/// The bytes of the file of a name.
fn file_of<'a>(files: &'a [NamedFile], name: &str) -> Option<&'a [u8]>
    ensures { option_map (λ bytes. bytes.now) result ≡ held_in files.entry.now name.now }
{
    for file in files {
        if file.name.as_str() == name {
            return Some(file.bytes.as_slice());
        }
    }
    None
}

/// A beginning of what is there from a place on.
fn give(file: &[u8], at: u64, buf: &mut [u8]) -> usize
    ensures bound { result ≤ length buf.new }
    ensures same_length { length buf.new ≡ length buf.old }
    ensures is { take result buf.new ≡ take result (drop at file.now) }
    ensures end { result ≡ 0 → 0 < length buf.old → length file.now ≤ at }
{
    if at >= file.len() as u64 {
        return 0;
    }
    let at = at as usize;
    let n = buf.len().min(file.len() - at);
    buf[..n].copy_from_slice(&file[at..at + n]);
    n
}

/// Whether the count comes to its end.
fn falls(count: &mut u32) -> bool {
    let falls = *count == 1;
    *count = count.saturating_sub(1);
    falls
}

fn read_of(file: Option<&[u8]>, at: u64, buf: &mut [u8]) -> Result<usize, FileFault>
    ensures bound { IfOk result (λ n. n ≤ length buf.new) }
    ensures same_length { length buf.new ≡ length buf.old }
    ensures is { Answers result at buf.new (option_map (λ bytes. bytes.now) file.entry) }
    ensures there { result ≢ Err Failed }
{
    match file {
        Some(bytes) => Ok(give(bytes, at, buf)),
        None => Err(FileFault::Missing),
    }
}

fn named(alloc: Global, name: &str, bytes: &[u8]) -> Result<NamedFile, AllocError>
    ensures { IfOk result (λ f. (string_bytes f.name ≡ name.now) × (f.bytes.items ≡ bytes.now)) }
{
    let name = String::from_str(alloc, name)?;
    let bytes = Vec::from_slice(alloc, bytes)?;
    Ok(NamedFile { name, bytes })
}

fn push(files: &mut Vec<NamedFile>, file: NamedFile) -> Result<(), AllocError>
    ensures { OnOk result (files.new.items ≡ files.old.items ++ file ∷ []) }
{
    files.push(file)?;
    Ok(())
}

impl MemoryFiles {
    /// None.
    pub fn new(alloc: Global) -> MemoryFiles
        ensures { result.files.items ≡ [] }
    {
        MemoryFiles {
            files: Vec::new(alloc),
            fail: 0,
            faults: 0,
        }
    }

    /// Adds a file behind the others.
    pub fn put(&mut self, alloc: Global, name: &str, bytes: &[u8]) -> Result<(), AllocError>
        ensures done { OnOk result (IsAdded name.now bytes.now self.old.files.items self.new.files.items) }
        ensures others { (self.new.fail ≡ self.old.fail) × (self.new.faults ≡ self.old.faults) }
    {
        let file = named(alloc, name, bytes)?;
        push(&mut self.files, file)
    }

    /// The k-th read from now fails, from 1.
    pub fn fail(&mut self, k: u32)
        ensures { self.new ≡ record self.old { fail = k } }
    {
        self.fail = k;
    }
}

impl Files for MemoryFiles {
    ghost told = { λ f. Some (held_in f.files.items) };

    ghost faults = { λ f. f.faults };

    fn read(&mut self, name: &str, at: u64, buf: &mut [u8]) -> Result<usize, FileFault>
        ensures bound { IfOk result (λ n. n ≤ length buf.new) }
        ensures same_length { length buf.new ≡ length buf.old }
        ensures is { (held : Held) → Some (held_in self.old.files.items) ≡ Some held → Answers result at buf.new (held name.now) }
        ensures kept { self.new.files ≡ self.old.files }
        ensures cause { FileCause result self.old.faults self.new.faults }
    {
        if falls(&mut self.fail) {
            self.faults = self.faults.saturating_add(1);
            return Err(FileFault::Failed);
        }
        read_of(file_of(self.files.as_slice(), name), at, buf)
    }
}
