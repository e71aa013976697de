//! A journal on the disk.

use journal_cmd::journal::journal;
use real_files::real_files::RealFiles;
use site_model::memory::MemSink;
use std::path::PathBuf;
use std::test::Fail;
use std::{env, fs, io, process};

/// A Start of incarnation 3, in version 1.
const BYTES: &[u8] = b"\x01\x00\x00\x00\x05\x01\x00\x00\x00\x03\x00";

/// The name of a new file in the folder for temporary ones.
fn name_of(rt: &HostRuntime) -> io::Result<PathBuf> {
    let id = process::id(rt.process());
    let name = format!(in rt.alloc(); "atx-journal-{id}")?;
    Ok(env::temp_dir(rt)?.join(rt.alloc(), name.as_str())?)
}

fn prints(rt: &HostRuntime, name: &str, status: u8, text: &str) -> bool {
    let mut files = RealFiles::new(rt);
    let mut sink = MemSink::new(rt.alloc());
    let ended = journal(rt.alloc(), name, &mut files, &mut sink);
    ended == status && sink.as_slice() == text.as_bytes()
}

/// Whether it is printed where it is there, and the bytes are the same behind that.
fn is_printed(rt: &HostRuntime, name: &str) -> io::Result<bool> {
    let missing = prints(rt, name, 6, "");
    fs::write(rt, name, BYTES)?;
    let there = prints(
        rt,
        name,
        0,
        "version 1\ngeneration 0\nincarnation 3\nstart 3\nnothing open\n",
    );
    let left = fs::read(rt, name)?;
    fs::remove_file(rt, name)?;
    Ok(missing && there && left.as_slice() == BYTES)
}

#[test]
fn a_journal_on_the_disk_is_printed(rt: HostRuntime) -> Result<(), Fail> {
    let name = name_of(&rt)?;
    let right = is_printed(&rt, name.as_str())?;
    assert!(rt; right, "disk");
    let endless = prints(&rt, "/dev/zero", 6, "");
    assert!(rt; endless, "no regular file");
    Ok(())
}
