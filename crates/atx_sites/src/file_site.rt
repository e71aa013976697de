//! A machine with files and no network.

ghost use Rattle.std.specs.Prelude.{◌≡◌, ◌≤◌, ◌<◌, [], true, false, length, take, drop, None, IfOk, IsErr, OnOk, OnErr};
ghost use Rattle.site_model.specs.Calls.{Attaches, Gave, Looked, Raised, Received, Synced, Takes, Wrote};
ghost use Rattle.site_model.specs.Told.{Files as Files_told, Is, file_of};
ghost use Rattle.site_model.specs.Told.Call.{Post, Send};
ghost use Rattle.atx_sites.specs.Disks.{IfHeld, Tallied, file_at, other_at, told_of};
ghost use Rattle.atx_sites.specs.FileCalls.{Raises, Reads, Sized, Syncs, Writes};
ghost use Rattle.atx_sites.specs.Files.{is_lost, number_of};
ghost use Rattle.atx_sites.specs.Failures.{Tells, TellsOne};
ghost use Rattle.atx_sites.specs.declared.troubles.Step.TheVariants as steps;

use crate::disk::{self, Disk};
use crate::faults::refused;
use crate::troubles::Trouble;
use site_model::attachments::{Attachments, Given};
use site_model::site::{AttachFailed, Site, Taken};
use site_model::source::Failed;
use system_calls::system::System;

/// A machine with the files of a journal and a clock, and with no network: each call of it fails.
#[derive(Drop)]
pub struct FileSite<S: System + Drop> {
    system: S,
    disk: Disk<S::File>,
    accept: u64,
    receive: u64,
    link: u64,
    attached: Attachments,
    trouble: Option<Trouble>,
}

impl<S: System + Drop> FileSite<S> {
    /// No file is open, and nothing failed.
    pub fn new(system: S) -> FileSite<S>
        ensures disk { (result.disk.disk ≡ 0) × (result.disk.gate ≡ 0) }
        ensures network { (result.accept ≡ 0) × (result.receive ≡ 0) × (result.link ≡ 0) }
        ensures names { result.attached.names ≡ [] }
        ensures trouble { result.trouble ≡ None }
    {
        FileSite {
            system,
            disk: Disk::new(),
            accept: 0,
            receive: 0,
            link: 0,
            attached: Attachments::new(),
            trouble: None,
        }
    }

    /// The last failure of a call on the files. None where there was none.
    pub fn trouble(&self) -> Option<Trouble>
        ensures { result ≡ self.now.trouble }
    {
        self.trouble
    }
}

impl<S: System + Drop> Site for FileSite<S> {
    ghost told = { λ s. told_of s.disk s.accept s.receive s.link s.attached.names };

    ghost counts_now = { λ s l c is now. now };

    ghost only_now = { λ s l m c is le past. absurd past };

    /// Opens the files. There is no listener.
    fn attach(&mut self, journal: &str, listen: &str) -> Result<(), AttachFailed>
        ensures system { IfHeld S.File.raw_fd journal.now result self.new.disk (S.calls self.old.system) (S.calls self.new.system) }
        ensures sure { OnOk result ((is_lost self.new.disk.first ≡ false) × (is_lost self.new.disk.second ≡ false)) }
        ensures shut { OnErr result ((is_lost self.new.disk.first ≡ true) × (is_lost self.new.disk.second ≡ true)) }
        ensures call { Attaches journal.now listen.now result (told_of self.old.disk self.old.accept self.old.receive self.old.link self.old.attached.names) (told_of self.new.disk self.new.accept self.new.receive self.new.link self.new.attached.names) }
        ensures tallied { Tallied self.old.disk.disk self.new.disk.disk result }
        ensures told { TellsOne None result self.old.trouble self.new.trouble (S.calls self.new.system) }
    {
        match disk::open(&mut self.system, &mut self.disk, &mut self.trouble, journal) {
            Ok(()) => {
                self.attached = self.attached.and(&Given { journal, listen });
                Ok(())
            }
            Err(_) => Err(AttachFailed::Disk),
        }
    }

    fn size(&mut self, file: u8) -> Result<u64, Failed>
        ensures system { Sized (number_of S.File.raw_fd (file_at file self.old.disk)) result (S.calls self.old.system) (S.calls self.new.system) }
        ensures shut { file_at file self.old.disk ≡ None → IsErr result }
        ensures is { IfOk result (λ n. (f : Files_told) → Is (told_of self.old.disk self.old.accept self.old.receive self.old.link self.old.attached.names).files f → n ≡ length (file_of file f)) }
        ensures call { Looked result (told_of self.old.disk self.old.accept self.old.receive self.old.link self.old.attached.names) (told_of self.new.disk self.new.accept self.new.receive self.new.link self.new.attached.names) }
        ensures tallied { Tallied self.old.disk.disk self.new.disk.disk result }
        ensures told { Tells (number_of S.File.raw_fd (file_at file self.old.disk)) (steps.Size file) result self.old.trouble self.new.trouble (S.calls self.new.system) }
    {
        disk::size(&mut self.system, &mut self.disk, &mut self.trouble, file)
    }

    fn read(&mut self, file: u8, at: u64, buf: &mut [u8]) -> Result<usize, Failed>
        ensures system { Reads (number_of S.File.raw_fd (file_at file self.old.disk)) at buf.new result (S.calls self.old.system) (S.calls self.new.system) }
        ensures shut { file_at file self.old.disk ≡ None → IsErr result }
        ensures bound { IfOk result (λ n. n ≤ length buf.new) }
        ensures same_length { length buf.new ≡ length buf.old }
        ensures is { IfOk result (λ n. (f : Files_told) → Is (told_of self.old.disk self.old.accept self.old.receive self.old.link self.old.attached.names).files f → take n buf.new ≡ take n (drop at (file_of file f))) }
        ensures end { IfOk result (λ n. (f : Files_told) → Is (told_of self.old.disk self.old.accept self.old.receive self.old.link self.old.attached.names).files f → n ≡ 0 → 0 < length buf.old → length (file_of file f) ≤ at) }
        ensures call { Looked result (told_of self.old.disk self.old.accept self.old.receive self.old.link self.old.attached.names) (told_of self.new.disk self.new.accept self.new.receive self.new.link self.new.attached.names) }
        ensures tallied { Tallied self.old.disk.disk self.new.disk.disk result }
        ensures told { Tells (number_of S.File.raw_fd (file_at file self.old.disk)) (steps.Read file) result self.old.trouble self.new.trouble (S.calls self.new.system) }
    {
        disk::read(
            &mut self.system,
            &mut self.disk,
            &mut self.trouble,
            file,
            at,
            buf,
        )
    }

    #[tactic(auto, using(crate::proofs::SilentMachines::wrote))]
    fn write_at(&mut self, file: u8, at: u64, bytes: &[u8]) -> Result<(), Failed>
        ensures system { Writes (number_of S.File.raw_fd (file_at file self.old.disk)) at bytes.now result (S.calls self.old.system) (S.calls self.new.system) }
        ensures shut { file_at file self.old.disk ≡ None → IsErr result }
        ensures call { Wrote file at bytes.now result (told_of self.old.disk self.old.accept self.old.receive self.old.link self.old.attached.names) (told_of self.new.disk self.new.accept self.new.receive self.new.link self.new.attached.names) }
        ensures tallied { Tallied self.old.disk.disk self.new.disk.disk result }
        ensures told { Tells (number_of S.File.raw_fd (file_at file self.old.disk)) (steps.Write file) result self.old.trouble self.new.trouble (S.calls self.new.system) }
    {
        disk::write_at(
            &mut self.system,
            &mut self.disk,
            &mut self.trouble,
            file,
            at,
            bytes,
        )
    }

    #[tactic(auto, using(crate::proofs::SilentMachines::synced))]
    fn sync(&mut self, file: u8) -> Result<(), Failed>
        ensures system { Syncs (number_of S.File.raw_fd (file_at file self.old.disk)) result (S.calls self.old.system) (S.calls self.new.system) }
        ensures lost { is_lost (file_at file self.old.disk) ≡ true → IsErr result }
        ensures failed { OnErr result (is_lost (file_at file self.new.disk) ≡ true) }
        ensures other { other_at file self.new.disk ≡ other_at file self.old.disk }
        ensures call { Synced file result (told_of self.old.disk self.old.accept self.old.receive self.old.link self.old.attached.names) (told_of self.new.disk self.new.accept self.new.receive self.new.link self.new.attached.names) }
        ensures tallied { Tallied self.old.disk.disk self.new.disk.disk result }
        ensures told { Tells (number_of S.File.raw_fd (file_at file self.old.disk)) (steps.Sync file) result self.old.trouble self.new.trouble (S.calls self.new.system) }
    {
        disk::sync(&mut self.system, &mut self.disk, &mut self.trouble, file)
    }

    #[tactic(auto, using(crate::proofs::SilentMachines::raised))]
    fn raise_gate(&mut self, file: u8, at: u64) -> Result<(), Failed>
        ensures system { Raises (number_of S.File.raw_fd (file_at file self.old.disk)) at result (S.calls self.old.system) (S.calls self.new.system) }
        ensures lost { is_lost (file_at file self.old.disk) ≡ true → IsErr result }
        ensures other { other_at file self.new.disk ≡ other_at file self.old.disk }
        ensures call { Raised file at result (told_of self.old.disk self.old.accept self.old.receive self.old.link self.old.attached.names) (told_of self.new.disk self.new.accept self.new.receive self.new.link self.new.attached.names) }
        ensures tallied { Tallied self.old.disk.gate self.new.disk.gate result }
        ensures told { Tells (number_of S.File.raw_fd (file_at file self.old.disk)) (steps.Gate file) result self.old.trouble self.new.trouble (S.calls self.new.system) }
    {
        disk::raise_gate(
            &mut self.system,
            &mut self.disk,
            &mut self.trouble,
            file,
            at,
        )
    }

    fn take(&mut self) -> Result<Taken, Failed>
        ensures fails { IsErr result }
        ensures call { Takes result (told_of self.old.disk self.old.accept self.old.receive self.old.link self.old.attached.names) (told_of self.new.disk self.new.accept self.new.receive self.new.link self.new.attached.names) }
    {
        refused(&mut self.accept)
    }

    fn receive(&mut self, _buf: &mut [u8]) -> Result<usize, Failed>
        ensures fails { IsErr result }
        ensures same_length { length _buf.new ≡ length _buf.old }
        ensures call { Received result _buf.new (told_of self.old.disk self.old.accept self.old.receive self.old.link self.old.attached.names) (told_of self.new.disk self.new.accept self.new.receive self.new.link self.new.attached.names) }
    {
        refused(&mut self.receive)
    }

    #[tactic(auto, using(crate::proofs::SilentMachines::gave))]
    fn send(&mut self, _bytes: &[u8]) -> Result<(), Failed>
        ensures fails { IsErr result }
        ensures call { Gave (Send _bytes.now) result (told_of self.old.disk self.old.accept self.old.receive self.old.link self.old.attached.names) (told_of self.new.disk self.new.accept self.new.receive self.new.link self.new.attached.names) }
    {
        refused(&mut self.link)
    }

    fn close(&mut self) {}

    #[tactic(auto, using(crate::proofs::SilentMachines::gave))]
    fn post(&mut self, _host: &str, _port: u16, _bytes: &[u8]) -> Result<(), Failed>
        ensures fails { IsErr result }
        ensures call { Gave (Post _host.now _port _bytes.now) result (told_of self.old.disk self.old.accept self.old.receive self.old.link self.old.attached.names) (told_of self.new.disk self.new.accept self.new.receive self.new.link self.new.attached.names) }
    {
        refused(&mut self.link)
    }

    fn now(&mut self) -> u64 {
        match self.system.monotonic() {
            Ok(time) => u64::try_from(time.as_millis()).unwrap_or(u64::MAX),
            Err(_) => 0,
        }
    }
}
