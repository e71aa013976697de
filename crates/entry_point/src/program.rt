//! The program, but for its handles.

ghost use Rattle.std.specs.Prelude.{◌≡◌, IfErr, IfOk, drop, map, string_bytes};
ghost use Rattle.std.specs.IoError.{error_kind};
ghost use Rattle.std.specs.Process.{exit_status};
ghost use Rattle.std.specs.Vec.Iter.{into_iter_items};
ghost use Rattle.entry_point.specs.Asking.{heard};
ghost use Rattle.entry_point.specs.Calls.{CalledOrNot, status_without};

use crate::help::heard;
use crate::words::behind_name;
use std::alloc::Global;
use std::env::Args;
use std::io;
use std::io::ErrorKind;
use std::process::ExitCode;

/// A word isn't UTF-8.
const NO_JOB: u8 = 2;

/// Want of memory.
const NO_MEMORY: u8 = 9;

/// Calls the job on all words but the first, as they are heard, and gives its status.
fn status_of<
    S,
    K,
    E,
    L,
    H,
    F: FnOnce(Global, &[String], &mut S, &mut K, &mut E, &mut L, &mut H) -> u8,
>(
    alloc: Global,
    words: Args,
    source: &mut S,
    sink: &mut K,
    errors: &mut E,
    files: &mut L,
    site: &mut H,
    job: F,
) -> u8
    requires { F.IsAlwaysCallable job }
    ensures { CalledOrNot F.FnOnce (map string_bytes) job alloc (heard (map string_bytes (drop 1 (into_iter_items words)))) result source.old source.new sink.old sink.new errors.old errors.new files.old files.new site.old site.new }
{
    let Ok(behind) = behind_name(alloc, words) else {
        return NO_MEMORY;
    };
    let Ok(heard) = heard(alloc, behind) else {
        return NO_MEMORY;
    };
    job(alloc, heard.as_slice(), source, sink, errors, files, site)
}

/// The status where the words can't be had.
fn status_without(fault: &io::Error) -> u8
    ensures { result ≡ status_without (error_kind fault.now) }
{
    match fault.kind() {
        ErrorKind::OutOfMemory => NO_MEMORY,
        _ => NO_JOB,
    }
}

/// Calls the job, once, on all words of the process but the first, the program's name, and gives its status as what the
/// process ends with. `help` alone, or before one word, is read as `--help` behind that. The words are those of
/// `env::args`. Where there is no memory for them the status is 9, and where it gives none for another reason (one isn't
/// UTF-8) 2; the job isn't called then.
pub fn with_words<
    S,
    K,
    E,
    L,
    H,
    F: FnOnce(Global, &[String], &mut S, &mut K, &mut E, &mut L, &mut H) -> u8,
>(
    alloc: Global,
    words: io::Result<Args>,
    source: &mut S,
    sink: &mut K,
    errors: &mut E,
    files: &mut L,
    site: &mut H,
    job: F,
) -> ExitCode
    requires { F.IsAlwaysCallable job }
    ensures called { IfOk words (λ given. CalledOrNot F.FnOnce (map string_bytes) job alloc (heard (map string_bytes (drop 1 (into_iter_items given)))) (exit_status result) source.old source.new sink.old sink.new errors.old errors.new files.old files.new site.old site.new) }
    ensures wordless { IfErr words (λ fault. (exit_status result ≡ status_without (error_kind fault)) × (source.new ≡ source.old) × (sink.new ≡ sink.old) × (errors.new ≡ errors.old) × (files.new ≡ files.old) × (site.new ≡ site.old)) }
{
    match words {
        Ok(words) => ExitCode::from(status_of(
            alloc, words, source, sink, errors, files, site, job,
        )),
        Err(fault) => ExitCode::from(status_without(&fault)),
    }
}
