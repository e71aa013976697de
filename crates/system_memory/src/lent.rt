//! A system in memory that is lent to a machine, and looked at once the machine is done.

ghost use Rattle.std.specs.Prelude.{Some};

use crate::handle::Handle;
use crate::memory::MemorySystem;
use libc::types::pollfd;
use std::io;
use std::net::{HostAddrs, SocketAddr};
use std::time::Duration;
use system_calls::system::{Stat, System};

impl System for &mut MemorySystem {
    type File = Handle;

    type Listener = Handle;

    type Stream = Handle;

    ghost calls = { λ s. Some s.now.ledger.calls };

    fn open(&mut self, name: &str) -> io::Result<Handle> {
        System::open(&mut **self, name)
    }

    fn open_folder(&mut self, name: &str) -> io::Result<Handle> {
        System::open_folder(&mut **self, name)
    }

    fn duplicate(&mut self, file: &Handle) -> io::Result<Handle> {
        System::duplicate(&mut **self, file)
    }

    fn examine(&mut self, file: &Handle) -> io::Result<Stat> {
        System::examine(&mut **self, file)
    }

    fn lock(&mut self, file: &Handle) -> io::Result<()> {
        System::lock(&mut **self, file)
    }

    fn read_at(&mut self, file: &Handle, buf: &mut [u8], at: u64) -> io::Result<usize> {
        System::read_at(&mut **self, file, buf, at)
    }

    fn write_at(&mut self, file: &Handle, bytes: &[u8], at: u64) -> io::Result<usize> {
        System::write_at(&mut **self, file, bytes, at)
    }

    fn sync(&mut self, file: &Handle) -> io::Result<()> {
        System::sync(&mut **self, file)
    }

    fn forget(&mut self, file: &Handle) -> io::Result<()> {
        System::forget(&mut **self, file)
    }

    fn listen(&mut self, address: &str) -> io::Result<Handle> {
        System::listen(&mut **self, address)
    }

    fn accept(&mut self, listener: &Handle) -> io::Result<(Handle, SocketAddr)> {
        System::accept(&mut **self, listener)
    }

    fn resolve(&mut self, host: &str, port: u16) -> io::Result<HostAddrs> {
        System::resolve(&mut **self, host, port)
    }

    fn connect(&mut self, address: &SocketAddr) -> io::Result<Handle> {
        System::connect(&mut **self, address)
    }

    fn poll(&mut self, asks: &mut [pollfd], millis: i32) -> i32 {
        System::poll(&mut **self, asks, millis)
    }

    fn read(&mut self, stream: &Handle, buf: &mut [u8]) -> io::Result<usize> {
        System::read(&mut **self, stream, buf)
    }

    fn write(&mut self, stream: &Handle, bytes: &[u8]) -> io::Result<usize> {
        System::write(&mut **self, stream, bytes)
    }

    fn shut_down(&mut self, stream: &Handle) -> io::Result<()> {
        System::shut_down(&mut **self, stream)
    }

    fn monotonic(&mut self) -> io::Result<Duration> {
        System::monotonic(&mut **self)
    }
}
