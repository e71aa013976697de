//! The system that a program runs on. What is said of a machine over any system stands, over this one, on its calls doing
//! what their names say.

ghost use Rattle.std.specs.Prelude.{None};

use libc::net::poll;
use libc::types::pollfd;
use mio::net::{TcpListener, TcpStream};
use std::fs::{File, OpenOptions};
use std::io::{self, Read, Write};
use std::net::{self, HostAddrs, Net, Shutdown, SocketAddr, ToSocketAddrs};
use std::os::fd::AsRawFd;
use std::os::unix::fs::FileExt;
use std::rt::{Clock, Files};
use std::time::Duration;
use system_calls::system::{Stat, System};

/// The system that a program runs on. It keeps nothing, and tells no calls.
#[derive(Drop)]
pub struct RealSystem<
    R: Files<File = File>
        + Net<Listener = net::TcpListener, Stream = net::TcpStream>
        + Clock
        + Drop,
> {
    rt: R,
}

impl<
    R: Files<File = File>
        + Net<Listener = net::TcpListener, Stream = net::TcpStream>
        + Clock
        + Drop,
> RealSystem<R> {
    pub fn new(rt: R) -> RealSystem<R> {
        RealSystem { rt }
    }
}

impl<
    R: Files<File = File>
        + Net<Listener = net::TcpListener, Stream = net::TcpStream>
        + Clock
        + Drop,
> System for RealSystem<R> {
    type File = File;

    type Listener = TcpListener;

    type Stream = TcpStream;

    ghost calls = { λ s. None };

    fn open(&mut self, name: &str) -> io::Result<File> {
        OpenOptions::new()
            .read(true)
            .write(true)
            .create(true)
            .open(&self.rt, name)
    }

    fn open_folder(&mut self, name: &str) -> io::Result<File> {
        File::open(&self.rt, name)
    }

    fn duplicate(&mut self, file: &File) -> io::Result<File> {
        file.try_clone()
    }

    fn examine(&mut self, file: &File) -> io::Result<Stat> {
        let found = file.metadata()?;
        Ok(Stat {
            is_file: found.is_file(),
            bytes: found.len(),
        })
    }

    fn lock(&mut self, file: &File) -> io::Result<()> {
        Ok(file.try_lock()?)
    }

    fn read_at(&mut self, file: &File, buf: &mut [u8], at: u64) -> io::Result<usize> {
        file.read_at(buf, at)
    }

    fn write_at(&mut self, file: &File, bytes: &[u8], at: u64) -> io::Result<usize> {
        file.write_at(bytes, at)
    }

    fn sync(&mut self, file: &File) -> io::Result<()> {
        file.sync_all()
    }

    fn forget(&mut self, file: &File) -> io::Result<()> {
        match libc::posix_fadvise(file.as_raw_fd(), 0, 0, libc::POSIX_FADV_DONTNEED) {
            0 => Ok(()),
            fault => Err(io::Error::from_raw_os_error(fault)),
        }
    }

    fn listen(&mut self, address: &str) -> io::Result<TcpListener> {
        let listener = net::TcpListener::bind(&self.rt, address)?;
        listener.set_nonblocking(true)?;
        Ok(TcpListener::from_std(listener))
    }

    fn accept(&mut self, listener: &TcpListener) -> io::Result<(TcpStream, SocketAddr)> {
        listener.accept()
    }

    fn resolve(&mut self, host: &str, port: u16) -> io::Result<HostAddrs> {
        (host, port).to_socket_addrs(&self.rt)
    }

    fn connect(&mut self, address: &SocketAddr) -> io::Result<TcpStream> {
        TcpStream::connect(&self.rt, *address)
    }

    fn poll(&mut self, asks: &mut [pollfd], millis: i32) -> i32 {
        poll(asks, millis)
    }

    fn read(&mut self, mut stream: &TcpStream, buf: &mut [u8]) -> io::Result<usize> {
        stream.read(buf)
    }

    fn write(&mut self, mut stream: &TcpStream, bytes: &[u8]) -> io::Result<usize> {
        stream.write(bytes)
    }

    fn shut_down(&mut self, stream: &TcpStream) -> io::Result<()> {
        stream.shutdown(Shutdown::Write)
    }

    fn monotonic(&mut self) -> io::Result<Duration> {
        self.rt.monotonic()
    }
}
