//! A source and a sink in memory, for tests.

ghost use Rattle.std.specs.Prelude.{◌≡◌, ◌≢◌, ◌↔◌, ◌≤◌, ◌<◌, ◌+◌, ◌-◌, IfOk, IsErr, OnErr, Ok, vec_len, Some, drop, length, []};
ghost use Rattle.std.specs.Io.{ReadsAtMost, WritesAtMost};
ghost use Rattle.std.specs.Io.KnownBytes.{ReadConsumes, WriteAppends};
ghost use Rattle.site_model.specs.Counts.{HasCause, RisesBy, Rose, capped};

use crate::sink::Sink;
use crate::source::{Failed, Source};
use std::alloc::{AllocError, Global};

/// A source that gives the bytes that it was made with.
#[derive(Drop)]
pub struct MemSource {
    bytes: Vec<u8>,
    at: usize,
    given: u64,
    faults: u64,
    fail_in: u32,
    ghost within: { at ≤ vec_len bytes },
}

impl MemSource {
    /// A source of these bytes.
    pub fn new(alloc: Global, bytes: &[u8]) -> Result<MemSource, AllocError>
        ensures bytes { IfOk result (λ s. s.bytes.items ≡ bytes.now) }
        ensures place { IfOk result (λ s. (s.at ≡ 0) × (s.fail_in ≡ 0)) }
    {
        let mut copy = Vec::new(alloc);
        copy.extend_from_slice(bytes)?;
        Ok(MemSource {
            bytes: copy,
            at: 0,
            given: 0,
            faults: 0,
            fail_in: 0,
        })
    }

    /// The k-th call from now fails, from 1; none where k is 0.
    pub fn fail(&mut self, k: u32)
        ensures armed { self.new.fail_in ≡ k }
        ensures bytes { (self.new.bytes ≡ self.old.bytes) × (self.new.at ≡ self.old.at) }
        ensures counts { (self.new.given ≡ self.old.given) × (self.new.faults ≡ self.old.faults) }
    {
        self.fail_in = k;
    }
}

impl Source for MemSource {
    ghost left = { λ s. Some (drop s.at s.bytes.items) };

    ghost given = { λ s. s.given };

    ghost faults = { λ s. s.faults };

    fn read(&mut self, buf: &mut [u8]) -> Result<usize, Failed>
        ensures bound { ReadsAtMost result buf.new }
        ensures bytes { ReadConsumes (Some (drop self.old.at self.old.bytes.items)) (Some (drop self.new.at self.new.bytes.items)) result buf.new }
        ensures count { IfOk result (λ n. RisesBy n self.old.given self.new.given) }
        ensures none_given { OnErr result (self.new.given ≡ self.old.given) }
        ensures cause { HasCause self.old.faults self.new.faults result }
        ensures armed { IsErr result ↔ (self.old.fail_in ≡ 1) }
        ensures next { self.new.fail_in ≡ self.old.fail_in - 1 }
        ensures counted { OnErr result (self.new.faults ≡ capped (self.old.faults + 1)) }
    {
        if self.fail_in == 1 {
            self.fail_in = 0;
            self.faults = self.faults.saturating_add(1);
            return Err(Failed);
        }
        self.fail_in = self.fail_in.saturating_sub(1);
        let n = buf.len().min(self.bytes.len() - self.at);
        buf[..n].copy_from_slice(&self.bytes[self.at..self.at + n]);
        self.at += n;
        self.given = self.given.saturating_add(n as u64);
        Ok(n)
    }
}

/// A sink that keeps what is written.
#[derive(Drop)]
pub struct MemSink {
    bytes: Vec<u8>,
    faults: u64,
    fail_in: u32,
    idle_in: u32,
}

impl MemSink {
    /// An empty sink. It takes no memory.
    pub fn new(alloc: Global) -> MemSink
        ensures bytes { result.bytes.items ≡ [] }
        ensures unarmed { (result.fail_in ≡ 0) × (result.idle_in ≡ 0) }
    {
        MemSink {
            bytes: Vec::new(alloc),
            faults: 0,
            fail_in: 0,
            idle_in: 0,
        }
    }

    /// The k-th write from now fails, from 1; none where k is 0.
    pub fn fail(&mut self, k: u32)
        ensures { self.new ≡ record self.old { fail_in = k } }
    {
        self.fail_in = k;
    }

    /// The k-th write from now takes nothing, from 1; none where k is 0.
    pub fn idle(&mut self, k: u32)
        ensures { self.new ≡ record self.old { idle_in = k } }
    {
        self.idle_in = k;
    }

    /// What was written.
    pub fn as_slice(&self) -> &[u8]
        ensures { result.now ≡ self.now.bytes.items }
    {
        self.bytes.as_slice()
    }
}

impl Sink for MemSink {
    ghost contents = { λ s. Some s.bytes.items };

    ghost faults = { λ s. s.faults };

    fn write(&mut self, piece: &[u8]) -> Result<usize, Failed>
        ensures bound { WritesAtMost result piece.now }
        ensures bytes { WriteAppends (Some self.old.bytes.items) (Some self.new.bytes.items) result piece.now }
        ensures cause { HasCause self.old.faults self.new.faults result }
        ensures zero { result ≡ Ok 0 → 0 < length piece.now → Rose self.old.faults self.new.faults }
        ensures fails { self.old.fail_in ≡ 1 → IsErr result }
        ensures idles { self.old.fail_in ≢ 1 → self.old.idle_in ≡ 1 → result ≡ Ok 0 }
        ensures takes { self.old.fail_in ≢ 1 → self.old.idle_in ≢ 1 → IfOk result (λ n. n ≡ length piece.now) }
        ensures next { (self.new.fail_in ≡ self.old.fail_in - 1) × (self.new.idle_in ≡ self.old.idle_in - 1) }
    {
        let fails = self.fail_in == 1;
        let idles = self.idle_in == 1;
        self.fail_in = self.fail_in.saturating_sub(1);
        self.idle_in = self.idle_in.saturating_sub(1);
        if fails {
            self.faults = self.faults.saturating_add(1);
            return Err(Failed);
        }
        if idles {
            self.faults = self.faults.saturating_add(1);
            return Ok(0);
        }
        if self.bytes.extend_from_slice(piece).is_err() {
            self.faults = self.faults.saturating_add(1);
            return Err(Failed);
        }
        Ok(piece.len())
    }
}
