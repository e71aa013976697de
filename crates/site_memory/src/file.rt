//! What calls and crashes do to one file.

ghost use Rattle.std.specs.Prelude.{◌≡◌, ◌≤◌, ◌+◌, [], true, length, take, OnOk, vec_capacity, vec_len};
ghost use Rattle.site_memory.specs.Disk.{after_write, after_sync, chosen, end_of, filled, opened};
ghost use Rattle.site_memory.specs.HeldFiles.{disk_of};

use crate::arm::Choice;
use crate::buffer::{copy, fill, put, room};
use crate::held_file::Held;
use crate::range::Range;
use std::alloc::{AllocError, Global};

impl Held {
    /// An empty file.
    pub fn new(alloc: Global) -> Held
        ensures is { disk_of result ≡ opened [] }
        ensures opening { result.opening.items ≡ [] }
    {
        Held {
            opening: Vec::new(alloc),
            stable: Vec::new(alloc),
            seen: Vec::new(alloc),
            pending: Vec::new(alloc),
            reach: 0,
            fresh: 0,
        }
    }

    /// Makes room for a write.
    pub fn room(&mut self, reach: usize) -> Result<(), AllocError>
        ensures same { disk_of self.new ≡ disk_of self.old }
        ensures opening { self.new.opening.items ≡ self.old.opening.items }
        ensures ok { OnOk result ((reach ≤ self.new.reach) × (vec_len self.new.pending + 1 ≤ vec_capacity self.new.pending)) }
    {
        self.pending.reserve(1)?;
        if reach > self.reach {
            room(&mut self.opening, reach)?;
            room(&mut self.stable, reach)?;
            room(&mut self.seen, reach)?;
            self.reach = reach;
        }
        Ok(())
    }

    /// A write, which is done or not. There is room.
    #[tactic(auto, using(crate::proofs::WrittenBytes::end_push, crate::proofs::WrittenBytes::length_written, crate::proofs::WrittenBytes::take_written))]
    pub fn write(&mut self, at: usize, bytes: &[u8], done: bool)
        requires reach { at + length bytes.now ≤ self.old.reach }
        requires place { vec_len self.old.pending + 1 ≤ vec_capacity self.old.pending }
        ensures is { disk_of self.new ≡ after_write at bytes.now done (disk_of self.old) }
        ensures opening { self.new.opening.items ≡ self.old.opening.items }
    {
        if self
            .pending
            .push(Range {
                at,
                len: bytes.len(),
            })
            .is_err()
        {
            return;
        }
        if done {
            put(&mut self.seen, at, bytes);
            self.fresh = self.fresh.min(at);
        }
    }

    /// A sync that is done.
    pub fn sync(&mut self)
        ensures is { disk_of self.new ≡ after_sync true (disk_of self.old) }
        ensures opening { self.new.opening.items ≡ self.old.opening.items }
    {
        self.stable.truncate(self.fresh);
        if self
            .stable
            .extend_from_slice(&self.seen[self.fresh..])
            .is_err()
        {}
        self.fresh = self.seen.len();
        self.pending.clear();
    }

    /// It is again as it was when the machine was opened.
    pub fn rewind(&mut self)
        ensures is { disk_of self.new ≡ opened self.old.opening.items }
        ensures opening { self.new.opening.items ≡ self.old.opening.items }
    {
        copy(&self.opening, &mut self.stable);
        copy(&self.opening, &mut self.seen);
        self.fresh = self.seen.len();
        self.pending.clear();
    }

    /// A crash, which leaves what was chosen.
    #[tactic(auto, using(crate::proofs::WrittenBytes::length_filled))]
    pub fn crash(&mut self, choice: Choice)
        ensures is { disk_of self.new ≡ opened (chosen choice (disk_of self.old)) }
        ensures opening { self.new.opening.items ≡ chosen choice (disk_of self.old) }
    {
        leave(choice, &self.seen, &self.pending, &mut self.stable);
        copy(&self.stable, &mut self.seen);
        copy(&self.stable, &mut self.opening);
        self.fresh = self.seen.len();
        self.pending.clear();
    }
}

/// One byte over all these ranges. There is room.
fn fill_all(buf: &mut Vec<u8>, ranges: &[Range], byte: u8)
    requires { end_of ranges.now ≤ vec_capacity buf.old }
    ensures items { buf.new.items ≡ filled byte buf.old.items ranges.now }
    ensures capacity { vec_capacity buf.old ≤ vec_capacity buf.new }
{
    for range in ranges {
        fill(buf, range.at, range.len, byte);
    }
}

/// What is there for certain becomes what is chosen. There is room.
fn leave(choice: Choice, seen: &[u8], pending: &[Range], stable: &mut Vec<u8>)
    requires seen { length seen.now ≤ vec_capacity stable.old }
    requires pending { end_of pending.now ≤ vec_capacity stable.old }
    ensures items { stable.new.items ≡ chosen choice (record { stable = stable.old.items; seen = seen.now; pending = pending.now }) }
    ensures capacity { vec_capacity stable.old ≤ vec_capacity stable.new }
{
    match choice {
        Choice::Keep => copy(seen, stable),
        Choice::Drop => {}
        Choice::Fill(byte) => fill_all(stable, pending, byte),
    }
}
