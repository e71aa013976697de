//! What can be set at a machine in memory, and its calls.

ghost use Rattle.std.specs.Prelude.{◌≡◌, ◌≤◌, ◌<◌, ◌+◌, ◌-◌, ◌++◌, ◌∷◌, [], true, nat_eq, map, length, take, drop, IfOk, IsErr, OnOk, OnErr, IfSome, IsSome, Some, None, ◌↔◌};
ghost use Rattle.site_model.specs.Told.{Files, Is, file_of};
ghost use Rattle.site_model.specs.Told.Call.{Send, Post, Write, Sync};
ghost use Rattle.site_model.specs.Counts.{capped};
ghost use Rattle.site_model.specs.Calls.{Looked, Wrote, Synced, Raised, Gave, Attaches, Takes, Received, Closes, Reads};
ghost use Rattle.site_memory.specs.declared.arm.Arm.TheVariants.{Fail, Stop, Stopped};
ghost use Rattle.site_memory.specs.Armings.{arming_of};
ghost use Rattle.site_memory.specs.Arms.{armed};
ghost use Rattle.site_memory.specs.Devices.{GoesBack, Leaves, Runs};
ghost use Rattle.site_memory.specs.Sites.{contents, told_of, link_of, now_counts, now_only, Goes, GoesTwice, IsNew, RunsTwice, Same, Attached, kept_where, post_of};
ghost use Rattle.site_memory.specs.Tells.{reads};
ghost use Rattle.site_memory.specs.Devices.{opening_in, calls_in};

use crate::arm::{Arm, Choice};
use crate::bytes::{Bytes, Posted};
use crate::device::Device;
use crate::entry::{Entry, Noted};
use crate::line::Line;
use crate::links::{Links, Names};
use crate::machine::MemSite;
use crate::tally::{Tally, answer, falls, one_more};
use site_model::attachments::{Attachments, Given};
use site_model::site::{AttachFailed, Site, Taken};
use site_model::source::Failed;
use std::alloc::{AllocError, Global};

/// An answer, which is kept where it is sent.
fn send_kept(alloc: Global, device: &mut Device, answers: &mut Vec<Bytes>, bytes: &[u8]) -> Noted
    ensures runs { Runs (Send bytes.now) result device.old device.new }
    ensures kept { map contents answers.new.items ≡ kept_where result bytes.now (map contents answers.old.items) }
{
    let Ok(copy) = Bytes::from_slice(alloc, bytes) else {
        return device.want();
    };
    if answers.reserve(1).is_err() {
        return device.want();
    }
    let noted = device.send(bytes);
    if noted == Noted::Done && answers.push(copy).is_err() {}
    noted
}

/// A post, which is kept where it is sent.
fn post_kept(
    alloc: Global,
    device: &mut Device,
    posts: &mut Vec<Posted>,
    host: &str,
    port: u16,
    bytes: &[u8],
) -> Noted
    ensures runs { Runs (Post host.now port bytes.now) result device.old device.new }
    ensures kept { map post_of posts.new.items ≡ kept_where result (Post host.now port bytes.now) (map post_of posts.old.items) }
{
    let Ok(name) = Bytes::from_slice(alloc, host.as_bytes()) else {
        return device.want();
    };
    let Ok(copy) = Bytes::from_slice(alloc, bytes) else {
        return device.want();
    };
    if posts.reserve(1).is_err() {
        return device.want();
    }
    let noted = device.post(host.as_bytes(), port, bytes);
    if noted == Noted::Done
        && posts
            .push(Posted {
                host: name,
                port,
                bytes: copy,
            })
            .is_err()
    {}
    noted
}

/// The two calls of raising a gate.
fn raise(device: &mut Device, file: u8, at: u64) -> Noted
    ensures { RunsTwice file at result device.old device.new }
{
    match device.write(file, at, &[1]) {
        Noted::Done => device.sync(file),
        Noted::Failed => Noted::Failed,
        Noted::Not => Noted::Not,
    }
}

impl MemSite {
    /// An empty machine without faults. It keeps the allocator and takes no memory.
    pub fn new(alloc: Global) -> MemSite
        ensures { IsNew result }
    {
        MemSite {
            alloc,
            device: Device::new(alloc),
            line: Line::new(alloc),
            answers: Vec::new(alloc),
            posts: Vec::new(alloc),
            links: Links {
                may_fail: false,
                fail: 0,
                names: None,
                accept: 0,
                receive: 0,
            },
            clock: 0,
            tally: Tally {
                disk: 0,
                gate: 0,
                link: 0,
                taken: 0,
                closings: 0,
            },
            fail_read: 0,
            attached: Attachments::new(),
        }
    }

    /// The k-th write, sync, answer or post from now fails, from 1; raising a gate counts as two.
    pub fn fail(&mut self, k: u32)
        ensures arm { self.new.device.arm ≡ armed (Fail k) self.old.device.arm }
        ensures arming { self.new.device.arming ≡ arming_of (length (calls_in self.old.device)) self.new.device.arm }
        ensures told { Same self.old self.new }
    {
        self.device.set(Arm::Fail(k));
    }

    /// The k-th of these, but for `Keep`, and all later of these fail, until a crash.
    pub fn stop(&mut self, k: u32, choice: Choice)
        ensures arm { self.new.device.arm ≡ armed (Stop k choice) self.old.device.arm }
        ensures told { Same self.old self.new }
    {
        self.device.set(Arm::Stop(k, choice));
    }

    /// Whether it has stopped.
    pub fn stopped(&self) -> bool
        ensures { result ≡ true ↔ self.now.device.arm ≡ Stopped }
    {
        self.device.arm == Arm::Stopped
    }

    /// Whether a call wanted memory.
    pub fn wanted(&self) -> bool
        ensures { result ≡ self.now.device.wanted }
    {
        self.device.wanted
    }

    /// The k-th size or read from now fails, from 1.
    pub fn fail_read(&mut self, k: u32)
        ensures { self.new ≡ record self.old { fail_read = k } }
    {
        self.fail_read = k;
    }

    /// The k-th attach, take or receive from now fails, from 1; attach on the listener.
    pub fn fail_link(&mut self, k: u32)
        ensures fail { (self.new.links.fail ≡ k) × (self.new.links.may_fail ≡ true) }
        ensures links { (self.new.links.names ≡ self.old.links.names) × (self.new.links.accept ≡ self.old.links.accept) × (self.new.links.receive ≡ self.old.links.receive) }
        ensures others { self.new ≡ record self.old { links = self.new.links } }
    {
        self.links.may_fail = true;
        self.links.fail = k;
    }

    /// The clock, in milliseconds.
    pub fn set_now(&mut self, now: u64)
        ensures { self.new ≡ record self.old { clock = now } }
    {
        self.clock = now;
    }

    /// A crash. It leaves of each file what was chosen of its pending bytes, and the machine goes on from there, unarmed.
    pub fn crash(&mut self, choice: Choice)
        ensures left { Leaves choice self.old.device self.new.device }
        ensures others { self.new ≡ record self.old { device = self.new.device } }
    {
        self.device.crash(choice);
    }

    /// It is again as it was behind its first so many calls since it was opened, as far as its files and its calls say, and unarmed: so a
    /// crash can come at a moment that has passed. What it sent since is still in `answers` and `posts`. Where there is no memory, its files
    /// are lost.
    pub fn go_back(&mut self, calls: usize) -> Result<(), AllocError>
        ensures back { OnOk result (GoesBack calls self.old.device self.new.device) }
        ensures others { self.new ≡ record self.old { device = self.new.device } }
    {
        self.device.go_back(calls)
    }

    /// A connection that brings these bytes, behind those that wait.
    pub fn connect(&mut self, bytes: &[u8]) -> Result<(), AllocError>
        ensures done { OnOk result (link_of self.new.line ≡ record (link_of self.old.line) { waiting = (link_of self.old.line).waiting ++ bytes.now ∷ [] }) }
        ensures failed { OnErr result (link_of self.new.line ≡ link_of self.old.line) }
        ensures others { self.new ≡ record self.old { line = self.new.line } }
    {
        self.line.connect(self.alloc, bytes)
    }

    /// The connection that is open and those that wait are gone.
    pub fn hang_up(&mut self)
        ensures none { link_of self.new.line ≡ record { open_bytes = []; waiting = [] } }
        ensures others { self.new ≡ record self.old { line = self.new.line } }
    {
        self.line.hang_up();
    }

    /// From now on each receive gives at most so many bytes, or as many as there is room for where that is 0.
    pub fn give_at_most(&mut self, most: usize)
        ensures same { link_of self.new.line ≡ link_of self.old.line }
        ensures others { self.new ≡ record self.old { line = self.new.line } }
    {
        self.line.give_at_most(most);
    }

    /// From now on it is attached by these names alone.
    pub fn named(&mut self, journal: &[u8], listen: &[u8]) -> Result<(), AllocError>
        ensures done { OnOk result (IfSome self.new.links.names (λ n. (contents n.journal ≡ journal.now) × (contents n.listen ≡ listen.now))) }
        ensures some { OnOk result (IsSome self.new.links.names) }
        ensures may_fail { OnOk result (self.new.links.may_fail ≡ true) }
        ensures failed { OnErr result (self.new ≡ self.old) }
        ensures links { (self.new.links.fail ≡ self.old.links.fail) × (self.new.links.accept ≡ self.old.links.accept) × (self.new.links.receive ≡ self.old.links.receive) }
        ensures others { self.new ≡ record self.old { links = self.new.links } }
    {
        let journal = Bytes::from_slice(self.alloc, journal)?;
        let listen = Bytes::from_slice(self.alloc, listen)?;
        self.links.may_fail = true;
        self.links.names = Some(Names { journal, listen });
        Ok(())
    }

    /// What reads give of a file, 0 or 1.
    pub fn file(&self, file: u8) -> &[u8]
        ensures { result.now ≡ file_of file (reads (opening_in self.now.device) (calls_in self.now.device)) }
    {
        self.device.file(file)
    }

    /// The calls that it made or failed to make since it was opened, in order.
    pub fn log(&self) -> &[Entry]
        ensures { result.now ≡ self.now.device.log.items }
    {
        self.device.log.as_slice()
    }

    /// How many these are.
    pub fn calls(&self) -> usize
        ensures { result ≡ length (calls_in self.now.device) }
    {
        self.device.log.len()
    }

    /// How many answers and posts failed.
    pub fn failed_sends(&self) -> u64
        ensures { result ≡ self.now.tally.link }
    {
        self.tally.link
    }

    /// How many calls of its disk failed, but for those of gates.
    pub fn failed_disk_calls(&self) -> u64
        ensures { result ≡ self.now.tally.disk }
    {
        self.tally.disk
    }

    /// How many gates weren't raised.
    pub fn failed_gates(&self) -> u64
        ensures { result ≡ self.now.tally.gate }
    {
        self.tally.gate
    }

    /// All answers so far, in order.
    pub fn answers(&self) -> &[Bytes]
        ensures { result.now ≡ self.now.answers.items }
    {
        self.answers.as_slice()
    }

    /// All posts so far, in order.
    pub fn posts(&self) -> &[Posted]
        ensures { result.now ≡ self.now.posts.items }
    {
        self.posts.as_slice()
    }
}

impl Site for MemSite {
    ghost told = { told_of };

    ghost counts_now = { now_counts };

    ghost only_now = { now_only };

    fn attach(&mut self, journal: &str, listen: &str) -> Result<(), AttachFailed>
        ensures call { Attaches journal.now listen.now result (told_of self.old) (told_of self.new) }
        ensures is { Attached self.old.links.names (nat_eq self.old.links.fail 1) journal.now listen.now result }
        ensures next { self.new.links.fail ≡ self.old.links.fail - 1 }
        ensures links { (self.new.links.may_fail ≡ self.old.links.may_fail) × (self.new.links.names ≡ self.old.links.names) }
        ensures others { self.new ≡ record self.old { links = self.new.links; tally = self.new.tally; attached = self.new.attached } }
    {
        let falls = falls(&mut self.links.fail);
        let answer = attached(&self.links.names, falls, journal, listen);
        match answer {
            Ok(()) => self.attached = self.attached.and(&Given { journal, listen }),
            Err(AttachFailed::Disk) => self.tally.disk = one_more(self.tally.disk),
            Err(AttachFailed::Link) => self.links.accept = one_more(self.links.accept),
        }
        answer
    }

    fn size(&mut self, file: u8) -> Result<u64, Failed>
        ensures is { IfOk result (λ n. (f : Files) → Is (told_of self.old).files f → n ≡ length (file_of file f)) }
        ensures call { Looked result (told_of self.old) (told_of self.new) }
        ensures fails { IsErr result ↔ (self.old.fail_read ≡ 1) }
        ensures next { self.new.fail_read ≡ self.old.fail_read - 1 }
        ensures others { self.new ≡ record self.old { fail_read = self.new.fail_read; tally = record self.old.tally { disk = self.new.tally.disk } } }
        ensures counted { OnErr result (self.new.tally.disk ≡ capped (self.old.tally.disk + 1)) }
    {
        if falls(&mut self.fail_read) {
            self.tally.disk = one_more(self.tally.disk);
            return Err(Failed);
        }
        Ok(self.device.file(file).len() as u64)
    }

    fn read(&mut self, file: u8, at: u64, buf: &mut [u8]) -> Result<usize, Failed>
        ensures bound { IfOk result (λ n. n ≤ length buf.new) }
        ensures same_length { length buf.new ≡ length buf.old }
        ensures is { IfOk result (λ n. (f : Files) → Is (told_of self.old).files f → take n buf.new ≡ take n (drop at (file_of file f))) }
        ensures end { IfOk result (λ n. (f : Files) → Is (told_of self.old).files f → n ≡ 0 → 0 < length buf.old → length (file_of file f) ≤ at) }
        ensures call { Looked result (told_of self.old) (told_of self.new) }
        ensures fails { IsErr result ↔ (self.old.fail_read ≡ 1) }
        ensures next { self.new.fail_read ≡ self.old.fail_read - 1 }
        ensures others { self.new ≡ record self.old { fail_read = self.new.fail_read; tally = record self.old.tally { disk = self.new.tally.disk } } }
        ensures counted { OnErr result (self.new.tally.disk ≡ capped (self.old.tally.disk + 1)) }
    {
        if falls(&mut self.fail_read) {
            self.tally.disk = one_more(self.tally.disk);
            return Err(Failed);
        }
        Ok(read_of(self.device.file(file), at, buf))
    }

    fn write_at(&mut self, file: u8, at: u64, bytes: &[u8]) -> Result<(), Failed>
        ensures call { Wrote file at bytes.now result (told_of self.old) (told_of self.new) }
        ensures goes { Goes (Write file at bytes.now) result self.old self.new }
        ensures others { self.new ≡ record self.old { device = self.new.device; tally = record self.old.tally { disk = self.new.tally.disk } } }
        ensures uncounted { OnOk result (self.new.tally.disk ≡ self.old.tally.disk) }
        ensures counted { OnErr result (self.new.tally.disk ≡ capped (self.old.tally.disk + 1)) }
    {
        let noted = self.device.write(file, at, bytes);
        answer(&mut self.tally.disk, noted)
    }

    fn sync(&mut self, file: u8) -> Result<(), Failed>
        ensures call { Synced file result (told_of self.old) (told_of self.new) }
        ensures goes { Goes (Sync file) result self.old self.new }
        ensures others { self.new ≡ record self.old { device = self.new.device; tally = record self.old.tally { disk = self.new.tally.disk } } }
        ensures uncounted { OnOk result (self.new.tally.disk ≡ self.old.tally.disk) }
        ensures counted { OnErr result (self.new.tally.disk ≡ capped (self.old.tally.disk + 1)) }
    {
        let noted = self.device.sync(file);
        answer(&mut self.tally.disk, noted)
    }

    fn raise_gate(&mut self, file: u8, at: u64) -> Result<(), Failed>
        ensures call { Raised file at result (told_of self.old) (told_of self.new) }
        ensures goes { GoesTwice file at result self.old self.new }
        ensures others { self.new ≡ record self.old { device = self.new.device; tally = record self.old.tally { gate = self.new.tally.gate } } }
        ensures uncounted { OnOk result (self.new.tally.gate ≡ self.old.tally.gate) }
        ensures counted { OnErr result (self.new.tally.gate ≡ capped (self.old.tally.gate + 1)) }
    {
        let noted = raise(&mut self.device, file, at);
        answer(&mut self.tally.gate, noted)
    }

    fn take(&mut self) -> Result<Taken, Failed>
        ensures call { Takes result (told_of self.old) (told_of self.new) }
        ensures fails { IsErr result ↔ (self.old.links.fail ≡ 1) }
        ensures next { self.new.links.fail ≡ self.old.links.fail - 1 }
        ensures links { (self.new.links.may_fail ≡ self.old.links.may_fail) × (self.new.links.names ≡ self.old.links.names) }
        ensures others { self.new ≡ record self.old { links = self.new.links; line = self.new.line; tally = self.new.tally } }
        ensures counted { OnErr result (self.new.links.accept ≡ capped (self.old.links.accept + 1)) }
    {
        if falls(&mut self.links.fail) {
            self.line.shut();
            self.links.accept = one_more(self.links.accept);
            return Err(Failed);
        }
        let taken = self.line.next();
        match taken {
            Taken::Opened => self.tally.taken = one_more(self.tally.taken),
            Taken::Closed => self.tally.closings = one_more(self.tally.closings),
        }
        Ok(taken)
    }

    fn receive(&mut self, buf: &mut [u8]) -> Result<usize, Failed>
        ensures same_length { length buf.new ≡ length buf.old }
        ensures call { Received result buf.new (told_of self.old) (told_of self.new) }
        ensures fails { IsErr result ↔ (self.old.links.fail ≡ 1) }
        ensures next { self.new.links.fail ≡ self.old.links.fail - 1 }
        ensures links { (self.new.links.may_fail ≡ self.old.links.may_fail) × (self.new.links.names ≡ self.old.links.names) × (self.new.links.accept ≡ self.old.links.accept) }
        ensures others { self.new ≡ record self.old { links = self.new.links; line = self.new.line } }
        ensures counted { OnErr result (self.new.links.receive ≡ capped (self.old.links.receive + 1)) }
    {
        if falls(&mut self.links.fail) {
            self.links.receive = one_more(self.links.receive);
            return Err(Failed);
        }
        Ok(self.line.give(buf))
    }

    fn send(&mut self, bytes: &[u8]) -> Result<(), Failed>
        ensures call { Gave (Send bytes.now) result (told_of self.old) (told_of self.new) }
        ensures goes { Goes (Send bytes.now) result self.old self.new }
        ensures others { self.new ≡ record self.old { device = self.new.device; tally = record self.old.tally { link = self.new.tally.link }; answers = self.new.answers } }
        ensures uncounted { OnOk result (self.new.tally.link ≡ self.old.tally.link) }
        ensures counted { OnErr result (self.new.tally.link ≡ capped (self.old.tally.link + 1)) }
        ensures sent { OnOk result (map contents self.new.answers.items ≡ map contents self.old.answers.items ++ bytes.now ∷ []) }
        ensures unsent { OnErr result (map contents self.new.answers.items ≡ map contents self.old.answers.items) }
    {
        let noted = send_kept(self.alloc, &mut self.device, &mut self.answers, bytes);
        answer(&mut self.tally.link, noted)
    }

    fn close(&mut self)
        ensures call { Closes (told_of self.old) (told_of self.new) }
        ensures others { self.new ≡ record self.old { line = self.new.line } }
    {
        self.line.shut();
    }

    fn post(&mut self, host: &str, port: u16, bytes: &[u8]) -> Result<(), Failed>
        ensures call { Gave (Post host.now port bytes.now) result (told_of self.old) (told_of self.new) }
        ensures goes { Goes (Post host.now port bytes.now) result self.old self.new }
        ensures others { self.new ≡ record self.old { device = self.new.device; tally = record self.old.tally { link = self.new.tally.link }; posts = self.new.posts } }
        ensures uncounted { OnOk result (self.new.tally.link ≡ self.old.tally.link) }
        ensures counted { OnErr result (self.new.tally.link ≡ capped (self.old.tally.link + 1)) }
        ensures sent { OnOk result (map post_of self.new.posts.items ≡ map post_of self.old.posts.items ++ Post host.now port bytes.now ∷ []) }
        ensures unsent { OnErr result (map post_of self.new.posts.items ≡ map post_of self.old.posts.items) }
    {
        let noted = post_kept(
            self.alloc,
            &mut self.device,
            &mut self.posts,
            host,
            port,
            bytes,
        );
        answer(&mut self.tally.link, noted)
    }

    fn now(&mut self) -> u64
        ensures call { Reads result (told_of self.old) (told_of self.new) }
        ensures others { (result ≡ self.old.clock) × (self.new ≡ self.old) }
    {
        self.clock
    }
}

/// Whether these are the names that it was given, and no fault falls here.
fn attached(
    names: &Option<Names>,
    falls: bool,
    journal: &str,
    listen: &str,
) -> Result<(), AttachFailed>
    ensures { Attached names.now falls journal.now listen.now result }
{
    if let Some(names) = names {
        if journal.as_bytes() != names.journal.as_slice() {
            return Err(AttachFailed::Disk);
        }
        if listen.as_bytes() != names.listen.as_slice() {
            return Err(AttachFailed::Link);
        }
    }
    if falls {
        Err(AttachFailed::Link)
    } else {
        Ok(())
    }
}

/// A beginning of what is there from a place on.
fn read_of(file: &[u8], at: u64, buf: &mut [u8]) -> usize
    ensures bound { result ≤ length buf.new }
    ensures same_length { length buf.new ≡ length buf.old }
    ensures is { take result buf.new ≡ take result (drop at file.now) }
    ensures end { result ≡ 0 → 0 < length buf.old → length file.now ≤ at }
{
    if at >= file.len() as u64 {
        return 0;
    }
    let at = at as usize;
    let n = buf.len().min(file.len() - at);
    buf[..n].copy_from_slice(&file[at..at + n]);
    n
}
