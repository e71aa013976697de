//! Lines with the time before them.

use jiff::Timestamp;
use site_model::sink::{Sink, write_all};
use std::alloc::{AllocError, Global};
use std::time::Clock;

/// Where lines go, and the clock that they are dated by. A line for which there is no memory, or that isn't taken, is left
/// out.
#[derive(Drop)]
pub struct Log<K: Sink + Drop, C: Clock + Drop> {
    alloc: Global,
    sink: K,
    clock: C,
}

impl<K: Sink + Drop, C: Clock + Drop> Log<K, C> {
    pub fn new(alloc: Global, sink: K, clock: C) -> Log<K, C> {
        Log { alloc, sink, clock }
    }

    pub(crate) fn alloc(&self) -> Global {
        self.alloc
    }

    /// A line begun with the time (RFC 3339, in UTC), or with `-` where the clock doesn't say it.
    pub(crate) fn begun(&self) -> Result<String, AllocError> {
        let Ok(now) = Timestamp::now(&self.clock) else {
            return String::from_str(self.alloc, "- ");
        };
        let text = format!(in self.alloc; "{now} ")?;
        Ok(text)
    }

    /// Writes a line and ends it.
    pub(crate) fn write(&mut self, line: Result<String, AllocError>) {
        let Ok(mut line) = line else {
            return;
        };
        if line.push('\n').is_ok() {
            let _ = write_all(&mut self.sink, line.as_bytes());
        }
    }
}
