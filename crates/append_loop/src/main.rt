//! Appends bodies to a journal on the disk, so that a run's time is that of the disk.
//!
//! `append_loop FILE COUNT BYTES` appends COUNT bodies of BYTES bytes each to the journal in FILE and FILE.1, and prints how many
//! were done. A journal with no bodies is given the mark of version 2 first.
#![tactic(auto)]

ghost use Rattle.std.specs.Prelude.{◌≡◌, ◌≤◌, IfOk, IfSome, replicate};
ghost use Rattle.journal_at.specs.Format.{IsBody};

use atx_sites::file_site::FileSite;
use journal_at::journal::{Append, Journal};
use journal_at::load::{LoadFault, load};
use real_system::real_system::RealSystem;
use site_model::site::Site;
use std::alloc::{AllocError, Global};
use std::process::ExitCode;
use std::{env, io};

/// The words are none that are understood.
const NO_JOB: u8 = 2;
/// The files weren't opened or read.
const NO_JOURNAL: u8 = 3;
/// A body wasn't appended.
const NOT_ALL: u8 = 4;
/// The report wasn't printed.
const NOT_PRINTED: u8 = 5;
/// Want of memory.
const NO_MEMORY: u8 = 9;

/// The most bytes of a body.
const BODY_BYTES: u32 = 1_060_000;

/// The file of a journal, how many bodies are appended to it, and how long each is.
#[derive(Clone, Copy, Debug)]
struct Job<'a> {
    file: &'a str,
    count: u32,
    bytes: u32,
}

/// The job that the words name. None where they name none.
fn job_of(words: &[String]) -> Option<Job<'_>>
    ensures { IfSome result (λ job. (1 ≤ job.bytes) × (job.bytes ≤ 1060000)) }
{
    let [file, count, bytes] = words else {
        return None;
    };
    let count = count.as_str().parse().ok()?;
    let bytes = bytes.as_str().parse().ok()?;
    if bytes < 1 || bytes > BODY_BYTES {
        return None;
    }
    Some(Job {
        file: file.as_str(),
        count,
        bytes,
    })
}

/// A body of that many bytes, which is no mark.
fn body_of(alloc: Global, bytes: u32) -> Result<Vec<u8>, AllocError>
    ensures { IfOk result (λ v. v.items ≡ replicate bytes 1) }
{
    let mut body = Vec::new(alloc);
    body.resize(bytes as usize, 1)?;
    Ok(body)
}

/// Appends the mark of version 2 to a journal with no bodies. Whether there is one now.
fn has_mark<S: Site>(site: &mut S, journal: &mut Journal) -> bool {
    journal.end() != 0 || journal.append(site, b"\x0b\x00\x00\x00\x00") == Append::Done
}

/// Appends a body that often, and says how many of these appends were done. It ends at the first that wasn't.
fn append_again<S: Site>(site: &mut S, journal: &mut Journal, body: &[u8], count: u32) -> u32
    requires { IsBody body.now }
    ensures { result ≤ count }
{
    for done in 0..count {
        if journal.append(site, body) != Append::Done {
            return done;
        }
    }
    count
}

/// Does the job, and says how many appends were done; otherwise the status that tells why none was.
fn work<S: Site>(alloc: Global, site: &mut S, job: &Job<'_>) -> Result<u32, u8>
    requires { (1 ≤ job.now.bytes) × (job.now.bytes ≤ 1060000) }
    ensures { IfOk result (λ n. n ≤ job.now.count) }
{
    let Ok(body) = body_of(alloc, job.bytes) else {
        return Err(NO_MEMORY);
    };
    if site.attach(job.file, "").is_err() {
        return Err(NO_JOURNAL);
    }
    let mut journal = match load(alloc, site, u32::MAX) {
        Ok((journal, _)) => journal,
        Err(LoadFault::NoMemory) => return Err(NO_MEMORY),
        Err(_) => return Err(NO_JOURNAL),
    };
    if !has_mark(site, &mut journal) {
        return Err(NOT_ALL);
    }
    let done = append_again(site, &mut journal, body.as_slice(), job.count);
    Ok(done)
}

/// Prints how many appends were done, and gives the status.
fn report(rt: &impl Print, done: u32, count: u32) -> u8 {
    if println!(rt; "{done}").is_err() {
        return NOT_PRINTED;
    }
    if done < count { NOT_ALL } else { 0 }
}

fn words_of(rt: &HostRuntime) -> io::Result<Vec<String>> {
    let mut words = Vec::new(rt.alloc());
    for word in env::args(rt)?.skip(1) {
        words.push(word)?;
    }
    Ok(words)
}

fn main(rt: HostRuntime) -> ExitCode {
    let Ok(words) = words_of(&rt) else {
        return ExitCode::from(NO_JOB);
    };
    let Some(job) = job_of(words.as_slice()) else {
        if println!(rt; "append_loop FILE COUNT BYTES").is_err() {
            return ExitCode::from(NOT_PRINTED);
        }
        return ExitCode::from(NO_JOB);
    };
    let mut site = FileSite::new(RealSystem::new(&rt));
    match work(rt.alloc(), &mut site, &job) {
        Ok(done) => ExitCode::from(report(&rt, done, job.count)),
        Err(status) => ExitCode::from(status),
    }
}
