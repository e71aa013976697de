//! A machine that never fails and does nothing.

ghost use Rattle.std.specs.Prelude.{◌≡◌, ◌≤◌, ◌<◌, ◌+◌, [], length, take, drop, IfOk, Ok};
ghost use Rattle.site_model.specs.declared.site.Taken.TheVariants.{Closed};
ghost use Rattle.site_model.specs.Calls.{Attaches, Looked, Takes};
ghost use Rattle.site_model.specs.Counts.{capped};
ghost use Rattle.site_model.specs.SureSites.{told_of};
ghost use Rattle.site_model.specs.Told.{Files, Is, file_of};

use crate::attachments::{Attachments, Given};
use crate::site::{AttachFailed, Site, Taken};
use crate::source::Failed;

/// A machine with empty files, to which no connection comes. It tells nothing and keeps only the number of its closings, and, for
/// contracts, the names by which it was attached.
#[derive(Drop)]
pub struct SureSite {
    closings: u64,
    attached: Attachments,
}

impl SureSite {
    /// A machine that closed nothing yet.
    pub fn new() -> SureSite
        ensures closings { result.closings ≡ 0 }
        ensures names { result.attached.names ≡ [] }
    {
        SureSite {
            closings: 0,
            attached: Attachments::new(),
        }
    }
}

impl Site for SureSite {
    ghost told = { told_of };

    ghost counts_now = { λ s l c is now. now };

    ghost only_now = { λ s l m c is le past. absurd past };

    fn attach(&mut self, journal: &str, listen: &str) -> Result<(), AttachFailed>
        ensures ok { (result ≡ Ok tt) × (self.new ≡ record self.old { attached = self.new.attached }) }
        ensures call { Attaches journal.now listen.now result (told_of self.old) (told_of self.new) }
    {
        self.attached = self.attached.and(&Given { journal, listen });
        Ok(())
    }

    fn size(&mut self, _file: u8) -> Result<u64, Failed>
        ensures empty { (result ≡ Ok 0) × (self.new ≡ self.old) }
        ensures is { IfOk result (λ n. (f : Files) → Is (told_of self.old).files f → n ≡ length (file_of _file f)) }
        ensures call { Looked result (told_of self.old) (told_of self.new) }
    {
        Ok(0)
    }

    fn read(&mut self, _file: u8, _at: u64, _buf: &mut [u8]) -> Result<usize, Failed>
        ensures empty { (result ≡ Ok 0) × (self.new ≡ self.old) × (_buf.new ≡ _buf.old) }
        ensures bound { IfOk result (λ n. n ≤ length _buf.new) }
        ensures same_length { length _buf.new ≡ length _buf.old }
        ensures is { IfOk result (λ n. (f : Files) → Is (told_of self.old).files f → take n _buf.new ≡ take n (drop _at (file_of _file f))) }
        ensures end { IfOk result (λ n. (f : Files) → Is (told_of self.old).files f → n ≡ 0 → 0 < length _buf.old → length (file_of _file f) ≤ _at) }
        ensures call { Looked result (told_of self.old) (told_of self.new) }
    {
        Ok(0)
    }

    fn write_at(&mut self, _file: u8, _at: u64, _bytes: &[u8]) -> Result<(), Failed> {
        Ok(())
    }

    fn sync(&mut self, _file: u8) -> Result<(), Failed> {
        Ok(())
    }

    fn raise_gate(&mut self, _file: u8, _at: u64) -> Result<(), Failed> {
        Ok(())
    }

    fn take(&mut self) -> Result<Taken, Failed>
        ensures closed { (result ≡ Ok Closed) × (self.new.closings ≡ capped (self.old.closings + 1)) }
        ensures call { Takes result (told_of self.old) (told_of self.new) }
    {
        self.closings = self.closings.saturating_add(1);
        Ok(Taken::Closed)
    }

    fn receive(&mut self, _buf: &mut [u8]) -> Result<usize, Failed> {
        Ok(0)
    }

    fn send(&mut self, _bytes: &[u8]) -> Result<(), Failed> {
        Ok(())
    }

    fn close(&mut self) {}

    fn post(&mut self, _host: &str, _port: u16, _bytes: &[u8]) -> Result<(), Failed> {
        Ok(())
    }

    fn now(&mut self) -> u64 {
        0
    }
}
