//! An open file.

ghost use Rattle.std.specs.Prelude.{◌≡◌, [], ◌∷◌, true, false, None, IfErr, IfOk, IsErr, OnOk, OnErr};
ghost use Rattle.std.specs.Io.{ReadsAtMost};
ghost use Rattle.std.specs.IoError.{error_kind, raw_os_error};
ghost use Rattle.std.specs.declared.io.ErrorKind.TheVariants as kinds;
ghost use Rattle.atx_sites.specs.Files.{is_lost, number_of};
ghost use Rattle.atx_sites.specs.FileCalls.{IfOpened, IfTaken, IfAlone, IfSynced, Sized, Reads, Writes, Syncs, Raises};
ghost use Rattle.atx_sites.specs.Failures.{Ends};
ghost use Rattle.atx_sites.specs.LinkCalls.{Later};
ghost use Rattle.atx_sites.specs.declared.troubles.Step.TheVariants as steps;

use crate::troubles::{Step, Trouble};
use std::io::{self, ErrorKind};
use std::os::fd::AsRawFd;
use system_calls::system::System;

/// A file that this process alone has open. Once a sync of it failed it `is_lost`: the system may have forgotten what it
/// couldn't write, and a later sync would say nothing of that.
#[derive(Drop)]
pub struct Held<F> {
    pub(crate) file: F,
    pub(crate) is_lost: bool,
}

/// The error of a call on a file that isn't open.
fn unopened() -> io::Error
    ensures number { raw_os_error result ≡ None }
    ensures kind { error_kind result ≡ kinds.NotFound }
{
    io::Error::new(ErrorKind::NotFound, "it isn't open")
}

/// Opens a file for reading and writing, and makes it where it isn't there. What is meant for a standard stream that was
/// closed doesn't land in it.
#[tactic(auto, using(crate::proofs::Comings::as_late, crate::proofs::Comings::later_by, crate::proofs::Tellings::ended_open, crate::proofs::Tellings::ended_low))]
fn open<S: System>(system: &mut S, name: &str) -> io::Result<S::File>
    ensures calls { IfOpened S.File.raw_fd name.now result (S.calls system.old) (S.calls system.new) }
    ensures later { Later (S.calls system.old) (S.calls system.new) }
    ensures fault { IfErr result (λ e. Ends None (steps.Open 0) e (S.calls system.new)) }
{
    let file = system.open(name)?;
    if file.as_raw_fd() <= 2 {
        system.duplicate(&file)
    } else {
        Ok(file)
    }
}

/// Takes a regular file that no other process holds: locks it, makes it last, and has it read from the disk from now on, as
/// an earlier process may have had a sync that failed.
#[tactic(auto, using(crate::proofs::Comings::as_late, crate::proofs::Comings::later_by, crate::proofs::Tellings::ended_kind, crate::proofs::Tellings::not_regular, crate::proofs::Tellings::ended_lock, crate::proofs::Tellings::ended_settle, crate::proofs::Tellings::ended_forget))]
fn take<S: System>(system: &mut S, file: &S::File, which: u8) -> Result<(), Trouble>
    ensures calls { IfTaken (S.File.raw_fd file.now) result (S.calls system.old) (S.calls system.new) }
    ensures later { Later (S.calls system.old) (S.calls system.new) }
    ensures fault { IfErr result (λ t. Ends None t.step t.fault (S.calls system.new)) }
{
    let kind = Step::Kind(which);
    match system.examine(file) {
        Ok(stat) if stat.is_file => {}
        Ok(_) => return Err(Trouble::own(kind, ErrorKind::Unsupported, "it is no regular file")),
        Err(fault) => return Err(Trouble::new(kind, fault)),
    }
    if let Err(fault) = system.lock(file) {
        return Err(Trouble::new(Step::Lock(which), fault));
    }
    if let Err(fault) = system.sync(file) {
        return Err(Trouble::new(Step::Settle(which), fault));
    }
    match system.forget(file) {
        Ok(()) => Ok(()),
        Err(fault) => Err(Trouble::new(Step::Settle(which), fault)),
    }
}

/// Opens a regular file that no other process holds.
#[tactic(auto, using(crate::proofs::Comings::later_still))]
pub(crate) fn open_alone<S: System>(
    system: &mut S,
    name: &str,
    which: u8,
) -> Result<Held<S::File>, Trouble>
    ensures sure { IfOk result (λ h. h.is_lost ≡ false) }
    ensures calls { IfAlone S.File.raw_fd name.now result (S.calls system.old) (S.calls system.new) }
    ensures later { Later (S.calls system.old) (S.calls system.new) }
    ensures fault { IfErr result (λ t. Ends None t.step t.fault (S.calls system.new)) }
{
    let file = match open(system, name) {
        Ok(file) => file,
        Err(fault) => return Err(Trouble::new(Step::Open(which), fault)),
    };
    match take(system, &file, which) {
        Ok(()) => Ok(Held {
            file,
            is_lost: false,
        }),
        Err(trouble) => Err(trouble),
    }
}

/// Makes last which files a folder has.
#[tactic(auto, using(crate::proofs::Comings::as_late, crate::proofs::Comings::later_by, crate::proofs::Tellings::ended_name, crate::proofs::Tellings::ended_folder))]
pub(crate) fn sync_folder<S: System>(system: &mut S, name: &str) -> Result<(), Trouble>
    ensures calls { IfSynced name.now result (S.calls system.old) (S.calls system.new) }
    ensures later { Later (S.calls system.old) (S.calls system.new) }
    ensures fault { IfErr result (λ t. Ends None t.step t.fault (S.calls system.new)) }
{
    let folder = match system.open_folder(name) {
        Ok(folder) => folder,
        Err(fault) => return Err(Trouble::new(Step::Folder, fault)),
    };
    match system.sync(&folder) {
        Ok(()) => Ok(()),
        Err(fault) => Err(Trouble::new(Step::Folder, fault)),
    }
}

/// The bytes of a file.
#[tactic(auto, using(crate::proofs::Tellings::ended_size, crate::proofs::Tellings::shut_size))]
pub(crate) fn size<S: System>(system: &mut S, held: &Option<Held<S::File>>) -> io::Result<u64>
    ensures shut { held.now ≡ None → IsErr result }
    ensures calls { Sized (number_of S.File.raw_fd held.now) result (S.calls system.old) (S.calls system.new) }
    ensures fault { IfErr result (λ e. Ends (number_of S.File.raw_fd held.now) (steps.Size 0) e (S.calls system.new)) }
{
    let Some(held) = held else {
        return Err(unopened());
    };
    match system.examine(&held.file) {
        Ok(stat) => Ok(stat.bytes),
        Err(fault) => Err(fault),
    }
}

/// Reads from a place on, and says how many bytes. What a signal interrupted is tried again.
#[tactic(auto, using(crate::proofs::FilePieces::untried, crate::proofs::FilePieces::tried, crate::proofs::Tellings::ended_read, crate::proofs::Tellings::read_cut_off))]
fn read_file<S: System>(
    system: &mut S,
    file: &S::File,
    at: u64,
    buf: &mut [u8],
) -> io::Result<usize>
    ensures bound { ReadsAtMost result buf.new }
    ensures calls { Reads (S.File.raw_fd file.now) at buf.new result (S.calls system.old) (S.calls system.new) }
    ensures fault { IfErr result (λ e. Ends (S.File.raw_fd file.now) (steps.Read 0) e (S.calls system.new)) }
{
    'tries: for _ in 0..u16::MAX {
        match system.read_at(file, buf, at) {
            Ok(n) => return Ok(n),
            Err(fault) if fault.kind() == ErrorKind::Interrupted => {}
            Err(fault) => return Err(fault),
        }
    }
    Err(io::Error::new(ErrorKind::Interrupted, "it was interrupted again and again"))
}

/// Reads from a place on, and says how many bytes. Zero into a nonempty buffer is the end of the file.
#[tactic(auto, using(crate::proofs::FilePieces::untried, crate::proofs::Tellings::shut_read))]
pub(crate) fn read<S: System>(
    system: &mut S,
    held: &Option<Held<S::File>>,
    at: u64,
    buf: &mut [u8],
) -> io::Result<usize>
    ensures bound { ReadsAtMost result buf.new }
    ensures shut { held.now ≡ None → IsErr result }
    ensures calls { Reads (number_of S.File.raw_fd held.now) at buf.new result (S.calls system.old) (S.calls system.new) }
    ensures fault { IfErr result (λ e. Ends (number_of S.File.raw_fd held.now) (steps.Read 0) e (S.calls system.new)) }
{
    match held {
        Some(held) => read_file(system, &held.file, at, buf),
        None => Err(unopened()),
    }
}

/// Writes all bytes from a place on.
#[tactic(auto, using(crate::proofs::FilePieces::unwritten, crate::proofs::FilePieces::some_unwritten, crate::proofs::FilePieces::some_written, crate::proofs::FilePieces::wrote_more, crate::proofs::FilePieces::wrote_none, crate::proofs::Tellings::ended_write, crate::proofs::Tellings::too_long, crate::proofs::Tellings::cut_off, crate::proofs::Tellings::took_none))]
fn write_all<S: System>(system: &mut S, file: &S::File, at: u64, bytes: &[u8]) -> io::Result<()>
    ensures calls { Writes (S.File.raw_fd file.now) at bytes.now result (S.calls system.old) (S.calls system.new) }
    ensures fault { IfErr result (λ e. Ends (S.File.raw_fd file.now) (steps.Write 0) e (S.calls system.new)) }
{
    let mut done = 0;
    'pieces: for _ in 0..u32::MAX {
        if done >= bytes.len() {
            return Ok(());
        }
        let Some(place) = at.checked_add(done as u64) else {
            return Err(io::Error::new(ErrorKind::InvalidInput, "no file has so many bytes"));
        };
        match system.write_at(file, &bytes[done..], place) {
            Ok(0) => return Err(io::Error::new(
                ErrorKind::WriteZero,
                "the system took none of the bytes",
            )),
            Ok(n) => done += n,
            Err(fault) if fault.kind() == ErrorKind::Interrupted => {}
            Err(fault) => return Err(fault),
        }
    }
    Err(io::Error::new(ErrorKind::Interrupted, "it was interrupted again and again"))
}

/// Writes all bytes from a place on.
#[tactic(auto, using(crate::proofs::FilePieces::some_unwritten, crate::proofs::Tellings::shut_write))]
pub(crate) fn write<S: System>(
    system: &mut S,
    held: &Option<Held<S::File>>,
    at: u64,
    bytes: &[u8],
) -> io::Result<()>
    ensures shut { held.now ≡ None → IsErr result }
    ensures calls { Writes (number_of S.File.raw_fd held.now) at bytes.now result (S.calls system.old) (S.calls system.new) }
    ensures fault { IfErr result (λ e. Ends (number_of S.File.raw_fd held.now) (steps.Write 0) e (S.calls system.new)) }
{
    match held {
        Some(held) => write_all(system, &held.file, at, bytes),
        None => Err(unopened()),
    }
}

/// Makes last what was written, data and metadata.
#[tactic(auto, using(crate::proofs::Tellings::ended_sync, crate::proofs::Tellings::shut_sync, crate::proofs::Tellings::lost_before))]
pub(crate) fn sync<S: System>(system: &mut S, held: &mut Option<Held<S::File>>) -> io::Result<()>
    ensures lost { is_lost held.old ≡ true → IsErr result × (S.calls system.new ≡ S.calls system.old) }
    ensures done { OnOk result (is_lost held.new ≡ false) }
    ensures failed { OnErr result (is_lost held.new ≡ true) }
    ensures same { number_of S.File.raw_fd held.new ≡ number_of S.File.raw_fd held.old }
    ensures calls { Syncs (number_of S.File.raw_fd held.old) result (S.calls system.old) (S.calls system.new) }
    ensures fault { IfErr result (λ e. Ends (number_of S.File.raw_fd held.old) (steps.Sync 0) e (S.calls system.new)) }
{
    let Some(held) = held else {
        return Err(unopened());
    };
    if held.is_lost {
        return Err(io::Error::new(ErrorKind::Other, "a sync of it failed before"));
    }
    let answer = system.sync(&held.file);
    held.is_lost = answer.is_err();
    answer
}

/// Writes the byte 1 at a place, and makes that last. Where the write failed there is no sync.
#[tactic(auto, using(crate::proofs::Tellings::of_write, crate::proofs::Tellings::of_sync))]
pub(crate) fn raise_gate<S: System>(
    system: &mut S,
    held: &mut Option<Held<S::File>>,
    at: u64,
) -> io::Result<()>
    ensures lost { is_lost held.old ≡ true → IsErr result × (is_lost held.new ≡ true) }
    ensures done { OnOk result (is_lost held.new ≡ false) }
    ensures same { number_of S.File.raw_fd held.new ≡ number_of S.File.raw_fd held.old }
    ensures calls { Raises (number_of S.File.raw_fd held.old) at result (S.calls system.old) (S.calls system.new) }
    ensures fault { IfErr result (λ e. Ends (number_of S.File.raw_fd held.old) (steps.Gate 0) e (S.calls system.new)) }
{
    match write(system, held, at, &[1]) {
        Ok(()) => sync(system, held),
        Err(fault) => Err(fault),
    }
}
