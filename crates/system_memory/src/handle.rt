//! Numbers of files, listeners and connections.

ghost use Rattle.std.specs.Prelude.{Some};

use std::os::fd::AsRawFd;

/// A number that the system in memory gave out.
#[derive(Drop)]
pub struct Handle {
    pub(crate) number: i32,
}

impl AsRawFd for Handle {
    ghost raw_fd = { λ h. Some h.number };

    fn as_raw_fd(&self) -> i32 {
        self.number
    }
}
