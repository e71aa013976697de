//! The two files of a journal.

ghost use Rattle.std.specs.Prelude.{◌≡◌, ◌≤◌, true, false, length, None, IfErr, IfOk, IsErr, OnOk, OnErr};
ghost use Rattle.site_model.specs.Counts.{HasCause};
ghost use Rattle.atx_sites.specs.Disks.{Tallied, IfHeld, file_at, other_at};
ghost use Rattle.atx_sites.specs.FileCalls.{IfBoth, Raises, Reads, Sized, Syncs, Writes};
ghost use Rattle.atx_sites.specs.Files.{is_lost, number_of};
ghost use Rattle.atx_sites.specs.Failures.{Ends, Tells, TellsOne};
ghost use Rattle.atx_sites.specs.LinkCalls.{Later};
ghost use Rattle.atx_sites.specs.declared.troubles.Step.TheVariants as steps;

use crate::faults::{noted, refused};
use crate::names::{folder_of, second_name};
use crate::open_file::{self, Held, open_alone, sync_folder};
use crate::troubles::{Step, Trouble};
use site_model::source::Failed;
use std::io::{self, ErrorKind};
use system_calls::system::System;

/// The two files of a journal, and the numbers of calls on them that failed: `gate` of those that raise a gate, `disk` of
/// all others. A number at 2^64 - 1 stays there.
#[derive(Drop)]
pub struct Disk<F> {
    pub(crate) first: Option<Held<F>>,
    pub(crate) second: Option<Held<F>>,
    pub(crate) disk: u64,
    pub(crate) gate: u64,
}

impl<F> Disk<F> {
    /// No file is open, and nothing failed.
    pub fn new() -> Disk<F>
        ensures counts { (result.disk ≡ 0) × (result.gate ≡ 0) }
        ensures shut { (is_lost result.first ≡ true) × (is_lost result.second ≡ true) }
        ensures none { (result.first ≡ None) × (result.second ≡ None) }
    {
        Disk {
            first: None,
            second: None,
            disk: 0,
            gate: 0,
        }
    }
}

/// Both files of a journal. Their folder is made last too, as they may be new in it.
#[tactic(auto, using(crate::proofs::Comings::as_late, crate::proofs::Comings::later_still, crate::proofs::Tellings::long_name))]
fn open_both<S: System>(
    system: &mut S,
    journal: &str,
) -> Result<(Held<S::File>, Held<S::File>), Trouble>
    ensures sure { IfOk result (λ p. (p.0.is_lost ≡ false) × (p.1.is_lost ≡ false)) }
    ensures calls { IfBoth S.File.raw_fd journal.now result (S.calls system.old) (S.calls system.new) }
    ensures later { Later (S.calls system.old) (S.calls system.new) }
    ensures fault { IfErr result (λ t. Ends None t.step t.fault (S.calls system.new)) }
{
    let mut buf = [0u8; 4096];
    let Some(name) = second_name(&mut buf, journal) else {
        let words = "its name is too long";
        return Err(Trouble::own(Step::Open(1), ErrorKind::InvalidFilename, words));
    };
    let first = match open_alone(system, journal, 0) {
        Ok(first) => first,
        Err(trouble) => return Err(trouble),
    };
    let second = match open_alone(system, name, 1) {
        Ok(second) => second,
        Err(trouble) => return Err(trouble),
    };
    match sync_folder(system, folder_of(journal)) {
        Ok(()) => Ok((first, second)),
        Err(trouble) => Err(trouble),
    }
}

/// Opens the journal's files, for this process alone, and makes them where they aren't there. Those that were open are
/// closed first.
pub fn open<S: System>(
    system: &mut S,
    disk: &mut Disk<S::File>,
    trouble: &mut Option<Trouble>,
    journal: &str,
) -> Result<(), Failed>
    ensures sure { OnOk result ((is_lost disk.new.first ≡ false) × (is_lost disk.new.second ≡ false)) }
    ensures shut { OnErr result ((disk.new.first ≡ None) × (disk.new.second ≡ None)) }
    ensures cause { HasCause disk.old.disk disk.new.disk result }
    ensures counted { Tallied disk.old.disk disk.new.disk result }
    ensures gate { disk.new.gate ≡ disk.old.gate }
    ensures calls { IfHeld S.File.raw_fd journal.now result disk.new (S.calls system.old) (S.calls system.new) }
    ensures later { Later (S.calls system.old) (S.calls system.new) }
    ensures told { TellsOne None result trouble.old trouble.new (S.calls system.new) }
{
    disk.first = None;
    disk.second = None;
    match open_both(system, journal) {
        Ok((first, second)) => {
            disk.first = Some(first);
            disk.second = Some(second);
            Ok(())
        }
        Err(met) => {
            *trouble = Some(met);
            refused(&mut disk.disk)
        }
    }
}

/// The bytes of a file.
#[tactic(auto, using(crate::proofs::Tellings::tells))]
pub fn size<S: System>(
    system: &mut S,
    disk: &mut Disk<S::File>,
    trouble: &mut Option<Trouble>,
    file: u8,
) -> Result<u64, Failed>
    ensures cause { HasCause disk.old.disk disk.new.disk result }
    ensures counted { Tallied disk.old.disk disk.new.disk result }
    ensures shut { file_at file disk.old ≡ None → IsErr result }
    ensures same { disk.new ≡ record disk.old { disk = disk.new.disk } }
    ensures calls { Sized (number_of S.File.raw_fd (file_at file disk.old)) result (S.calls system.old) (S.calls system.new) }
    ensures told { Tells (number_of S.File.raw_fd (file_at file disk.old)) (steps.Size file) result trouble.old trouble.new (S.calls system.new) }
{
    let answer = match file {
        0 => open_file::size(system, &disk.first),
        _ => open_file::size(system, &disk.second),
    };
    noted(&mut disk.disk, trouble, Step::Size(file), answer)
}

/// Reads a file from a place on, and says how many bytes. Zero into a nonempty buffer is the end of the file.
#[tactic(auto, using(crate::proofs::Tellings::tells))]
pub fn read<S: System>(
    system: &mut S,
    disk: &mut Disk<S::File>,
    trouble: &mut Option<Trouble>,
    file: u8,
    at: u64,
    buf: &mut [u8],
) -> Result<usize, Failed>
    ensures bound { IfOk result (λ n. n ≤ length buf.new) }
    ensures cause { HasCause disk.old.disk disk.new.disk result }
    ensures counted { Tallied disk.old.disk disk.new.disk result }
    ensures shut { file_at file disk.old ≡ None → IsErr result }
    ensures same { disk.new ≡ record disk.old { disk = disk.new.disk } }
    ensures calls { Reads (number_of S.File.raw_fd (file_at file disk.old)) at buf.new result (S.calls system.old) (S.calls system.new) }
    ensures told { Tells (number_of S.File.raw_fd (file_at file disk.old)) (steps.Read file) result trouble.old trouble.new (S.calls system.new) }
{
    let answer = match file {
        0 => open_file::read(system, &disk.first, at, buf),
        _ => open_file::read(system, &disk.second, at, buf),
    };
    noted(&mut disk.disk, trouble, Step::Read(file), answer)
}

/// Writes all bytes into a file from a place on.
#[tactic(auto, using(crate::proofs::Tellings::tells))]
pub fn write_at<S: System>(
    system: &mut S,
    disk: &mut Disk<S::File>,
    trouble: &mut Option<Trouble>,
    file: u8,
    at: u64,
    bytes: &[u8],
) -> Result<(), Failed>
    ensures cause { HasCause disk.old.disk disk.new.disk result }
    ensures counted { Tallied disk.old.disk disk.new.disk result }
    ensures shut { file_at file disk.old ≡ None → IsErr result }
    ensures same { disk.new ≡ record disk.old { disk = disk.new.disk } }
    ensures calls { Writes (number_of S.File.raw_fd (file_at file disk.old)) at bytes.now result (S.calls system.old) (S.calls system.new) }
    ensures told { Tells (number_of S.File.raw_fd (file_at file disk.old)) (steps.Write file) result trouble.old trouble.new (S.calls system.new) }
{
    let answer = match file {
        0 => open_file::write(system, &disk.first, at, bytes),
        _ => open_file::write(system, &disk.second, at, bytes),
    };
    noted(&mut disk.disk, trouble, Step::Write(file), answer)
}

/// Makes last what was written into a file, data and metadata. Once it failed, it fails until the files are opened again.
#[tactic(auto, using(crate::proofs::Tellings::tells))]
pub fn sync<S: System>(
    system: &mut S,
    disk: &mut Disk<S::File>,
    trouble: &mut Option<Trouble>,
    file: u8,
) -> Result<(), Failed>
    ensures lost { is_lost (file_at file disk.old) ≡ true → IsErr result × (S.calls system.new ≡ S.calls system.old) }
    ensures done { OnOk result (is_lost (file_at file disk.new) ≡ false) }
    ensures failed { OnErr result (is_lost (file_at file disk.new) ≡ true) }
    ensures number { number_of S.File.raw_fd (file_at file disk.new) ≡ number_of S.File.raw_fd (file_at file disk.old) }
    ensures other { other_at file disk.new ≡ other_at file disk.old }
    ensures cause { HasCause disk.old.disk disk.new.disk result }
    ensures counted { Tallied disk.old.disk disk.new.disk result }
    ensures gate { disk.new.gate ≡ disk.old.gate }
    ensures calls { Syncs (number_of S.File.raw_fd (file_at file disk.old)) result (S.calls system.old) (S.calls system.new) }
    ensures told { Tells (number_of S.File.raw_fd (file_at file disk.old)) (steps.Sync file) result trouble.old trouble.new (S.calls system.new) }
{
    let answer = match file {
        0 => open_file::sync(system, &mut disk.first),
        _ => open_file::sync(system, &mut disk.second),
    };
    noted(&mut disk.disk, trouble, Step::Sync(file), answer)
}

/// Writes the byte 1 into a file at a place, and makes that last. Where a sync of the file failed, it fails.
#[tactic(auto, using(crate::proofs::Tellings::tells))]
pub fn raise_gate<S: System>(
    system: &mut S,
    disk: &mut Disk<S::File>,
    trouble: &mut Option<Trouble>,
    file: u8,
    at: u64,
) -> Result<(), Failed>
    ensures lost { is_lost (file_at file disk.old) ≡ true → IsErr result × (is_lost (file_at file disk.new) ≡ true) }
    ensures done { OnOk result (is_lost (file_at file disk.new) ≡ false) }
    ensures number { number_of S.File.raw_fd (file_at file disk.new) ≡ number_of S.File.raw_fd (file_at file disk.old) }
    ensures other { other_at file disk.new ≡ other_at file disk.old }
    ensures cause { HasCause disk.old.gate disk.new.gate result }
    ensures counted { Tallied disk.old.gate disk.new.gate result }
    ensures disk { disk.new.disk ≡ disk.old.disk }
    ensures calls { Raises (number_of S.File.raw_fd (file_at file disk.old)) at result (S.calls system.old) (S.calls system.new) }
    ensures told { Tells (number_of S.File.raw_fd (file_at file disk.old)) (steps.Gate file) result trouble.old trouble.new (S.calls system.new) }
{
    let answer = match file {
        0 => open_file::raise_gate(system, &mut disk.first, at),
        _ => open_file::raise_gate(system, &mut disk.second, at),
    };
    noted(&mut disk.gate, trouble, Step::Gate(file), answer)
}
