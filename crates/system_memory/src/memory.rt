//! A system in memory.

ghost use Rattle.std.specs.Prelude.{Some};

use crate::handle::Handle;
use crate::ledger::Ledger;
use crate::made::Made;
use crate::script::Name;
use crate::world::World;
use libc::types::pollfd;
use std::io;
use std::net::{HostAddrs, SocketAddr};
use std::time::Duration;
use system_calls::system::{Stat, System};

/// A system over a world in memory. It tells all its calls.
#[derive(Drop)]
pub struct MemorySystem {
    world: World,
    pub(crate) ledger: Ledger,
}

impl MemorySystem {
    /// No call was made.
    pub fn new(world: World) -> MemorySystem {
        MemorySystem {
            world,
            ledger: Ledger::new(),
        }
    }

    /// What the calls were made in.
    pub fn world(&self) -> &World {
        &self.world
    }
}

impl System for MemorySystem {
    type File = Handle;

    type Listener = Handle;

    type Stream = Handle;

    ghost calls = { λ s. Some s.ledger.calls };

    fn open(&mut self, name: &str) -> io::Result<Handle> {
        let got = self.world.open(name);
        self.world.end(&got);
        self.ledger = self.ledger.and(&Made::Open { name, got: &got });
        got
    }

    fn open_folder(&mut self, name: &str) -> io::Result<Handle> {
        let got = self.world.open_folder(name);
        self.world.end(&got);
        self.ledger = self.ledger.and(&Made::OpenFolder { name, got: &got });
        got
    }

    fn duplicate(&mut self, file: &Handle) -> io::Result<Handle> {
        let got = self.world.duplicate(file.number);
        self.world.end(&got);
        self.ledger = self.ledger.and(&Made::Duplicate { file, got: &got });
        got
    }

    fn examine(&mut self, file: &Handle) -> io::Result<Stat> {
        let got = self.world.examine(file.number);
        self.world.end(&got);
        self.ledger = self.ledger.and(&Made::Examine { file, got: &got });
        got
    }

    fn lock(&mut self, file: &Handle) -> io::Result<()> {
        let got = self.world.pass(Name::Lock, file.number);
        self.world.end(&got);
        self.ledger = self.ledger.and(&Made::Lock { file, got: &got });
        got
    }

    fn read_at(&mut self, file: &Handle, buf: &mut [u8], at: u64) -> io::Result<usize> {
        let got = self.world.read_at(file.number, buf, at);
        self.world.end(&got);
        self.ledger = self.ledger.and(&Made::ReadAt {
            file,
            at,
            buf,
            got: &got,
        });
        got
    }

    fn write_at(&mut self, file: &Handle, bytes: &[u8], at: u64) -> io::Result<usize> {
        let got = self.world.write_at(file.number, bytes, at);
        self.world.end(&got);
        self.ledger = self.ledger.and(&Made::WriteAt {
            file,
            at,
            bytes,
            got: &got,
        });
        got
    }

    fn sync(&mut self, file: &Handle) -> io::Result<()> {
        let got = self.world.pass(Name::Sync, file.number);
        self.world.end(&got);
        self.ledger = self.ledger.and(&Made::Sync { file, got: &got });
        got
    }

    fn forget(&mut self, file: &Handle) -> io::Result<()> {
        let got = self.world.pass(Name::Forget, file.number);
        self.world.end(&got);
        self.ledger = self.ledger.and(&Made::Forget { file, got: &got });
        got
    }

    fn listen(&mut self, address: &str) -> io::Result<Handle> {
        let got = self.world.listen(address);
        self.world.end(&got);
        self.ledger = self.ledger.and(&Made::Listen { address, got: &got });
        got
    }

    fn accept(&mut self, listener: &Handle) -> io::Result<(Handle, SocketAddr)> {
        let got = self.world.accept(listener.number);
        self.world.end(&got);
        self.ledger = self.ledger.and(&Made::Accept {
            listener,
            got: &got,
        });
        got
    }

    fn resolve(&mut self, host: &str, port: u16) -> io::Result<HostAddrs> {
        let got = self.world.resolve(host, port);
        self.world.end(&got);
        self.ledger = self.ledger.and(&Made::Resolve {
            host,
            port,
            got: &got,
        });
        got
    }

    fn connect(&mut self, address: &SocketAddr) -> io::Result<Handle> {
        let got = self.world.connect(address);
        self.world.end(&got);
        self.ledger = self.ledger.and(&Made::Connect { address, got: &got });
        got
    }

    fn poll(&mut self, asks: &mut [pollfd], millis: i32) -> i32 {
        self.ledger = self.ledger.and(&Made::Asks { asks });
        let count = self.world.poll(asks, millis);
        self.ledger = self.ledger.and(&Made::Poll {
            millis,
            found: asks,
            count,
        });
        count
    }

    fn read(&mut self, stream: &Handle, buf: &mut [u8]) -> io::Result<usize> {
        let got = self.world.read(stream.number, buf);
        self.world.end(&got);
        self.ledger = self.ledger.and(&Made::Read {
            stream,
            buf,
            got: &got,
        });
        got
    }

    fn write(&mut self, stream: &Handle, bytes: &[u8]) -> io::Result<usize> {
        let got = self.world.write(stream.number, bytes);
        self.world.end(&got);
        self.ledger = self.ledger.and(&Made::Write {
            stream,
            bytes,
            got: &got,
        });
        got
    }

    fn shut_down(&mut self, stream: &Handle) -> io::Result<()> {
        let got = self.world.shut_down(stream.number);
        self.world.end(&got);
        self.ledger = self.ledger.and(&Made::ShutDown { stream, got: &got });
        got
    }

    fn monotonic(&mut self) -> io::Result<Duration> {
        let got = self.world.monotonic();
        self.world.end(&got);
        self.ledger = self.ledger.and(&Made::Monotonic { got: &got });
        got
    }
}
