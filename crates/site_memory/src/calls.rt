//! The calls on the disk of a machine in memory.

ghost use Rattle.std.specs.Prelude.{◌≡◌, ◌+◌, [], None, true, false, cond, length, IfOk, OnOk};
ghost use Rattle.site_model.specs.Told.{file_of};
ghost use Rattle.site_memory.specs.Tells.{reads};
ghost use Rattle.site_memory.specs.declared.entry.Noted.TheVariants.{Not};
ghost use Rattle.site_model.specs.Told.Call.{Write, Sync, Send, Post};
ghost use Rattle.site_memory.specs.declared.arm.Arm.TheVariants.{Idle};
ghost use Rattle.site_memory.specs.declared.range.Which.TheVariants.{First, Second};
ghost use Rattle.site_memory.specs.Armings.{arming_of};
ghost use Rattle.site_memory.specs.Arms.{armed};
ghost use Rattle.site_memory.specs.Disk.{after_call, after_write, after_sync, chosen, run, same};
ghost use Rattle.site_memory.specs.Entries.{call_of, mades};
ghost use Rattle.site_memory.specs.Devices.{opening_in, calls_in, GoesBack, Runs, Leaves, Wants};
ghost use Rattle.site_memory.specs.HeldFiles.{disk_of, opening_of, HasRoomIn};

use crate::arm::{Arm, Choice, arming_of};
use crate::device::Device;
use crate::entry::{Deed, Entry, Noted, note};
use crate::held_file::Held;
use crate::range::Which;
use std::alloc::{AllocError, Global};
use std::mem::replace;

/// Makes room for a write in one of the files, and says its place.
fn room_in(
    first: &mut Held,
    second: &mut Held,
    which: Which,
    at: u64,
    size: usize,
) -> Result<usize, AllocError>
    ensures same { (disk_of first.new ≡ disk_of first.old) × (disk_of second.new ≡ disk_of second.old) }
    ensures opening { opening_of first.new second.new ≡ opening_of first.old second.old }
    ensures ok { IfOk result (λ place. (place ≡ at) × HasRoomIn which first.new second.new (at + size)) }
{
    let Ok(place) = usize::try_from(at) else {
        return Err(AllocError);
    };
    let Some(end) = place.checked_add(size) else {
        return Err(AllocError);
    };
    match which {
        Which::First => first.room(end)?,
        Which::Second => second.room(end)?,
    }
    Ok(place)
}

/// A write in one of the files. There is room.
fn write_in(first: &mut Held, second: &mut Held, which: Which, at: usize, bytes: &[u8], done: bool)
    requires { HasRoomIn which first.old second.old (at + length bytes.now) }
    ensures first { disk_of first.new ≡ cond (same First which) (after_write at bytes.now done (disk_of first.old)) (disk_of first.old) }
    ensures second { disk_of second.new ≡ cond (same Second which) (after_write at bytes.now done (disk_of second.old)) (disk_of second.old) }
    ensures opening { opening_of first.new second.new ≡ opening_of first.old second.old }
{
    match which {
        Which::First => first.write(at, bytes, done),
        Which::Second => second.write(at, bytes, done),
    }
}

/// A sync of one of the files.
fn sync_in(first: &mut Held, second: &mut Held, which: Which)
    ensures first { disk_of first.new ≡ cond (same First which) (after_sync true (disk_of first.old)) (disk_of first.old) }
    ensures second { disk_of second.new ≡ cond (same Second which) (after_sync true (disk_of second.old)) (disk_of second.old) }
    ensures opening { opening_of first.new second.new ≡ opening_of first.old second.old }
{
    match which {
        Which::First => first.sync(),
        Which::Second => second.sync(),
    }
}

/// What a call did to the files.
fn run_in(first: &mut Held, second: &mut Held, entry: &Entry) -> Result<(), AllocError>
    ensures first { OnOk result (disk_of first.new ≡ after_call First (disk_of first.old) (call_of entry.now.deed) entry.now.done) }
    ensures second { OnOk result (disk_of second.new ≡ after_call Second (disk_of second.old) (call_of entry.now.deed) entry.now.done) }
    ensures opening { opening_of first.new second.new ≡ opening_of first.old second.old }
{
    match &entry.deed {
        Deed::Write { file, at, bytes } => {
            let which = Which::of(*file);
            let place = room_in(first, second, which, *at, bytes.len())?;
            write_in(first, second, which, place, bytes.as_slice(), entry.done);
        }
        Deed::Sync { file } => {
            if entry.done {
                sync_in(first, second, Which::of(*file));
            }
        }
        Deed::Send { .. } | Deed::Post { .. } => {}
    }
    Ok(())
}

/// What these calls did to them.
fn run_all(first: &mut Held, second: &mut Held, log: &[Entry]) -> Result<(), AllocError>
    ensures first { OnOk result (disk_of first.new ≡ run First (disk_of first.old) (mades log.now)) }
    ensures second { OnOk result (disk_of second.new ≡ run Second (disk_of second.old) (mades log.now)) }
    ensures opening { opening_of first.new second.new ≡ opening_of first.old second.old }
{
    for entry in log {
        run_in(first, second, entry)?;
    }
    Ok(())
}

/// A device that went back to how it was behind these calls since it was opened.
fn gone_back(device: Device, calls: usize) -> Result<Device, AllocError>
    ensures { IfOk result (GoesBack calls device) }
{
    let Device {
        alloc,
        mut log,
        mut first,
        mut second,
        arm: _arm,
        arming: _arming,
        wanted,
    } = device;
    log.truncate(calls);
    first.rewind();
    second.rewind();
    run_all(&mut first, &mut second, log.as_slice())?;
    Ok(Device {
        alloc,
        log,
        first,
        second,
        arm: Arm::Idle,
        arming: None,
        wanted,
    })
}

impl Device {
    /// It is again as it was behind its first so many calls, and unarmed. Where there is no memory, nothing is left of it but empty files.
    pub fn go_back(&mut self, calls: usize) -> Result<(), AllocError>
        ensures { OnOk result (GoesBack calls self.old self.new) }
    {
        let alloc = self.alloc;
        let device = replace(self, Device::new(alloc));
        *self = gone_back(device, calls)?;
        Ok(())
    }

    /// Empty files, and no calls.
    pub fn new(alloc: Global) -> Device
        ensures calls { calls_in result ≡ [] }
        ensures opening { opening_in result ≡ record { first = []; second = [] } }
        ensures idle { (result.arm ≡ Idle) × (result.arming ≡ None) × (result.wanted ≡ false) }
    {
        Device {
            alloc,
            log: Vec::new(alloc),
            first: Held::new(alloc),
            second: Held::new(alloc),
            arm: Arm::Idle,
            arming: None,
            wanted: false,
        }
    }

    /// Arms it, unless it has stopped.
    #[tactic(auto, using(crate::proofs::ArmedCalls::set_so))]
    pub fn set(&mut self, arm: Arm)
        ensures arm { self.new.arm ≡ armed arm self.old.arm }
        ensures arming { self.new.arming ≡ arming_of (length (calls_in self.old)) self.new.arm }
        ensures others { (opening_in self.new ≡ opening_in self.old) × (calls_in self.new ≡ calls_in self.old) × (self.new.wanted ≡ self.old.wanted) }
    {
        self.arm.set(arm);
        self.arming = arming_of(self.log.len(), self.arm);
    }

    /// A call for which there is no memory.
    pub fn want(&mut self) -> Noted
        ensures not { result ≡ Not }
        ensures wants { Wants self.old self.new }
    {
        self.wanted = true;
        Noted::Not
    }

    /// What reads give of a file.
    pub fn file(&self, file: u8) -> &[u8]
        ensures { result.now ≡ file_of file (reads (opening_in self.now) (calls_in self.now)) }
    {
        match file {
            0 => self.first.seen.as_slice(),
            _ => self.second.seen.as_slice(),
        }
    }

    /// Writes, as it is armed.
    #[tactic(auto, using(crate::proofs::ArmedCalls::noted_so))]
    pub fn write(&mut self, file: u8, at: u64, bytes: &[u8]) -> Noted
        ensures { Runs (Write file at bytes.now) result self.old self.new }
    {
        let Ok(deed) = Deed::write(self.alloc, file, at, bytes) else {
            self.wanted = true;
            return Noted::Not;
        };
        let which = Which::of(file);
        let Ok(place) = room_in(&mut self.first, &mut self.second, which, at, bytes.len()) else {
            self.wanted = true;
            return Noted::Not;
        };
        let noted = note(&mut self.log, &mut self.arm, &mut self.wanted, deed);
        match noted {
            Noted::Done => write_in(&mut self.first, &mut self.second, which, place, bytes, true),
            Noted::Failed => write_in(
                &mut self.first,
                &mut self.second,
                which,
                place,
                bytes,
                false,
            ),
            Noted::Not => {}
        }
        noted
    }

    /// Syncs, as it is armed.
    #[tactic(auto, using(crate::proofs::ArmedCalls::noted_so))]
    pub fn sync(&mut self, file: u8) -> Noted
        ensures { Runs (Sync file) result self.old self.new }
    {
        let noted = note(
            &mut self.log,
            &mut self.arm,
            &mut self.wanted,
            Deed::Sync { file },
        );
        match noted {
            Noted::Done => sync_in(&mut self.first, &mut self.second, Which::of(file)),
            Noted::Failed => {}
            Noted::Not => {}
        }
        noted
    }

    /// An answer, as it is armed.
    #[tactic(auto, using(crate::proofs::ArmedCalls::noted_so))]
    pub fn send(&mut self, bytes: &[u8]) -> Noted
        ensures { Runs (Send bytes.now) result self.old self.new }
    {
        let Ok(deed) = Deed::send(self.alloc, bytes) else {
            self.wanted = true;
            return Noted::Not;
        };
        note(&mut self.log, &mut self.arm, &mut self.wanted, deed)
    }

    /// A post, as it is armed.
    #[tactic(auto, using(crate::proofs::ArmedCalls::noted_so))]
    pub fn post(&mut self, host: &[u8], port: u16, bytes: &[u8]) -> Noted
        ensures { Runs (Post host.now port bytes.now) result self.old self.new }
    {
        let Ok(deed) = Deed::post(self.alloc, host, port, bytes) else {
            self.wanted = true;
            return Noted::Not;
        };
        note(&mut self.log, &mut self.arm, &mut self.wanted, deed)
    }

    /// A crash, which leaves what was chosen. The machine is opened anew on that.
    pub fn crash(&mut self, choice: Choice)
        ensures { Leaves choice self.old self.new }
    {
        self.first.crash(choice);
        self.second.crash(choice);
        self.log.clear();
        self.arming = None;
        self.arm = Arm::Idle;
    }
}
