//! A call with its arguments and its answer.

use crate::handle::Handle;
use libc::types::pollfd;
use std::io;
use std::net::{HostAddrs, SocketAddr};
use std::time::Duration;
use system_calls::system::Stat;

/// What is told of a call.
#[derive(Clone, Copy)]
pub enum Made<'a> {
    Open {
        name: &'a str,
        got: &'a io::Result<Handle>,
    },
    OpenFolder {
        name: &'a str,
        got: &'a io::Result<Handle>,
    },
    Duplicate {
        file: &'a Handle,
        got: &'a io::Result<Handle>,
    },
    Examine {
        file: &'a Handle,
        got: &'a io::Result<Stat>,
    },
    Lock {
        file: &'a Handle,
        got: &'a io::Result<()>,
    },
    ReadAt {
        file: &'a Handle,
        at: u64,
        buf: &'a [u8],
        got: &'a io::Result<usize>,
    },
    WriteAt {
        file: &'a Handle,
        at: u64,
        bytes: &'a [u8],
        got: &'a io::Result<usize>,
    },
    Sync {
        file: &'a Handle,
        got: &'a io::Result<()>,
    },
    Forget {
        file: &'a Handle,
        got: &'a io::Result<()>,
    },
    Listen {
        address: &'a str,
        got: &'a io::Result<Handle>,
    },
    Accept {
        listener: &'a Handle,
        got: &'a io::Result<(Handle, SocketAddr)>,
    },
    Resolve {
        host: &'a str,
        port: u16,
        got: &'a io::Result<HostAddrs>,
    },
    Connect {
        address: &'a SocketAddr,
        got: &'a io::Result<Handle>,
    },
    /// What poll is asked, before it finds anything.
    Asks {
        asks: &'a [pollfd],
    },
    Poll {
        millis: i32,
        found: &'a [pollfd],
        count: i32,
    },
    Read {
        stream: &'a Handle,
        buf: &'a [u8],
        got: &'a io::Result<usize>,
    },
    Write {
        stream: &'a Handle,
        bytes: &'a [u8],
        got: &'a io::Result<usize>,
    },
    ShutDown {
        stream: &'a Handle,
        got: &'a io::Result<()>,
    },
    Monotonic {
        got: &'a io::Result<Duration>,
    },
}
