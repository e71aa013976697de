//! A source over any reader.

use site_model::source::{Failed, Source};
use std::io::Read;

/// A source over any reader.
#[derive(Drop)]
pub struct Reading<R: Read> {
    inner: R,
    given: u64,
    faults: u64,
}

impl<R: Read> Reading<R> {
    pub fn new(inner: R) -> Reading<R> {
        Reading {
            inner,
            given: 0,
            faults: 0,
        }
    }
}

impl<R: Read> Source for Reading<R> {
    ghost left = { λ s. R.remaining s.inner };

    ghost given = { λ s. s.given };

    ghost faults = { λ s. s.faults };

    fn read(&mut self, buf: &mut [u8]) -> Result<usize, Failed> {
        match self.inner.read(buf) {
            Ok(n) => {
                self.given = self.given.saturating_add(n as u64);
                Ok(n)
            }
            Err(_) => {
                self.faults = self.faults.saturating_add(1);
                Err(Failed)
            }
        }
    }
}
