//! When all connections were looked at.

use std::time::Duration;

/// The milliseconds for which those that were looked at aren't looked at again while turns come.
const BETWEEN_MILLIS: u64 = 5;

/// When all connections were looked at last, and whether one was served since then.
#[derive(Clone, Copy)]
pub(crate) struct Looked {
    at: Option<Duration>,
    serves: bool,
}

impl Looked {
    /// None was looked at yet.
    pub(crate) fn new() -> Looked {
        Looked {
            at: None,
            serves: false,
        }
    }

    /// One is served.
    pub(crate) fn serve(&mut self) {
        self.serves = true;
    }

    /// Since when connections are new, and alone are looked at: where one was served since all were looked at, and that is less than
    /// 5 milliseconds ago.
    pub(crate) fn new_since(&self, now: Duration) -> Option<Duration> {
        match self.at {
            Some(at) if self.serves && now < ends(at) => Some(at),
            _ => None,
        }
    }

    /// When all are looked at again, where new ones alone are now.
    pub(crate) fn again(&self, now: Duration) -> Option<Duration> {
        match self.new_since(now) {
            Some(at) => Some(ends(at)),
            None => None,
        }
    }

    /// At that time all were looked at, unless only those were that are new since another.
    pub(crate) fn note(&mut self, since: Option<Duration>, at: Duration) {
        if since.is_none() {
            self.at = Some(at);
            self.serves = false;
        }
    }
}

fn ends(at: Duration) -> Duration {
    at.saturating_add(Duration::from_millis(BETWEEN_MILLIS))
}
