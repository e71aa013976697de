//! Two files on the disk.

use atx_sites::file_site::FileSite;
use real_system::real_system::RealSystem;
use site_model::site::{AttachFailed, Site};
use site_model::source::Failed;
use std::path::PathBuf;
use std::test::Fail;
use std::{env, fs, io, process};

/// The name of a new file in the folder for temporary ones.
fn name_of(rt: &HostRuntime, test: &str) -> io::Result<PathBuf> {
    let id = process::id(rt.process());
    let name = format!(in rt.alloc(); "atx-{test}-{id}")?;
    Ok(env::temp_dir(rt)?.join(rt.alloc(), name.as_str())?)
}

fn remove(rt: &HostRuntime, name: &PathBuf) -> io::Result<()> {
    let second = format!(in rt.alloc(); "{}.1", name.as_str())?;
    fs::remove_file(rt, name.as_str())?;
    fs::remove_file(rt, second.as_str())
}

/// Writes behind a gap, and raises a gate, in one file; a byte in the other.
fn write<S: Site>(site: &mut S) -> Result<(), Failed> {
    site.write_at(0, 2, b"abc")?;
    site.sync(0)?;
    site.raise_gate(0, 0)?;
    site.write_at(1, 1, b"z")?;
    site.sync(1)
}

/// Whether a file has these bytes from a place on, and ends behind them.
fn holds<S: Site>(site: &mut S, file: u8, at: u64, bytes: &[u8]) -> Result<bool, Failed> {
    let mut buf = [0u8; 16];
    let n = site.read(file, at, &mut buf)?;
    let size = site.size(file)?;
    Ok(&buf[..n.min(16)] == bytes && size == at.wrapping_add(bytes.len() as u64))
}

/// What was written stands there, also for a machine that comes later.
fn keeps(rt: &HostRuntime, name: &str) -> Result<bool, Failed> {
    let mut site = FileSite::new(RealSystem::new(rt));
    if site.attach(name, "").is_err() {
        return Err(Failed);
    }
    write(&mut site)?;
    drop(site);
    let mut later = FileSite::new(RealSystem::new(rt));
    if later.attach(name, "").is_err() {
        return Err(Failed);
    }
    let first = holds(&mut later, 0, 0, b"\x01\x00abc")?;
    let second = holds(&mut later, 1, 0, b"\x00z")?;
    let behind = holds(&mut later, 0, 5, b"")?;
    Ok(first && second && behind)
}

#[test]
fn what_is_written_is_read_later(rt: HostRuntime) -> Result<(), Fail> {
    let name = name_of(&rt, "keeps")?;
    let kept = keeps(&rt, name.as_str());
    remove(&rt, &name)?;
    assert!(rt; kept == Ok(true), "kept");
    Ok(())
}

/// While one machine has the files, another doesn't get them; nor does it read or write any.
fn shuts_out(rt: &HostRuntime, name: &str) -> bool {
    let mut site = FileSite::new(RealSystem::new(rt));
    let mut other = FileSite::new(RealSystem::new(rt));
    let shut = other.size(0).is_err() && other.sync(1).is_err();
    let first = site.attach(name, "");
    let second = other.attach(name, "");
    let none = other.write_at(0, 0, b"a").is_err() && other.raise_gate(1, 0).is_err();
    shut && none && first == Ok(()) && second == Err(AttachFailed::Disk)
}

#[test]
fn one_machine_has_the_files(rt: HostRuntime) -> Result<(), Fail> {
    let name = name_of(&rt, "alone")?;
    let alone = shuts_out(&rt, name.as_str());
    remove(&rt, &name)?;
    assert!(rt; alone, "alone");
    Ok(())
}
