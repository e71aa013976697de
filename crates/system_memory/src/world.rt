//! Files, a listener, peers and a clock in memory.

ghost use Rattle.std.specs.Io.{ReadsAtMost, WritesAtMost};

use crate::handle::Handle;
use crate::peer::{Begin, Peer, earlier};
use crate::script::{Act, NAMES, Name, Note, Rule};
use libc::net::{POLLERR, POLLHUP, POLLIN, POLLNVAL, POLLOUT};
use libc::types::pollfd;
use std::alloc::{AllocError, Global};
use std::io;
use std::net::{HostAddrs, IpAddr, Ipv4Addr, SocketAddr};
use std::time::Duration;
use system_calls::system::Stat;

/// The most bytes of a file.
const MOST_BYTES: usize = 1 << 20;
/// How many calls a script may have.
const MOST_CALLS: usize = 20_000;
/// The errors of calls that have none by a rule.
const ENOENT: i32 = 2;

const EBADF: i32 = 9;

const EAGAIN: i32 = 11;

const EINVAL: i32 = 22;

const ENOSPC: i32 = 28;

/// A file with its name.
#[derive(Drop)]
pub struct Stored {
    name: Vec<u8>,
    bytes: Vec<u8>,
    is_file: bool,
}

/// A number of an open file.
#[derive(Clone, Copy)]
struct Opened {
    number: i32,
    file: usize,
}

/// A name that is looked up, with its address.
#[derive(Drop)]
struct Host {
    name: Vec<u8>,
    address: SocketAddr,
}

/// Files, a listener, peers and a clock. The clock moves where poll waits, to where something comes next or its time is over.
///
/// Where poll would wait for ever, or behind 20,000 calls, the world is over: everything that is asked of is found to have
/// failed, and no connection is accepted any more.
#[derive(Drop)]
pub struct World {
    alloc: Global,
    rules: Vec<Rule>,
    counts: [usize; NAMES],
    calls: usize,
    notes: Vec<Note>,
    files: Vec<Stored>,
    opened: Vec<Opened>,
    listener: Option<i32>,
    peers: Vec<Peer>,
    hosts: Vec<Host>,
    clock: Duration,
    next: i32,
    over: bool,
}

fn errno(code: i32) -> io::Error {
    io::Error::from_raw_os_error(code)
}

fn kept(alloc: Global, bytes: &[u8]) -> Result<Vec<u8>, AllocError> {
    let mut kept = Vec::new(alloc);
    kept.extend_from_slice(bytes)?;
    Ok(kept)
}

impl World {
    /// Nothing in it, and no rules. The numbers begin behind those of the standard streams.
    pub fn new(alloc: Global) -> World {
        World {
            alloc,
            rules: Vec::new(alloc),
            counts: [0; NAMES],
            calls: 0,
            notes: Vec::new(alloc),
            files: Vec::new(alloc),
            opened: Vec::new(alloc),
            listener: None,
            peers: Vec::new(alloc),
            hosts: Vec::new(alloc),
            clock: Duration::from_secs(1000),
            next: 3,
            over: false,
        }
    }

    /// One rule more. Where several are about a call, the first is kept to.
    pub fn rule(&mut self, rule: Rule) -> Result<(), AllocError> {
        self.rules.push(rule)?;
        Ok(())
    }

    /// One peer more.
    pub fn peer(&mut self, peer: Peer) -> Result<(), AllocError> {
        self.peers.push(peer)?;
        Ok(())
    }

    /// One address more of a host.
    pub fn host(&mut self, name: &str, address: SocketAddr) -> Result<(), AllocError> {
        let name = kept(self.alloc, name.as_bytes())?;
        self.hosts.push(Host { name, address })?;
        Ok(())
    }

    /// A file that is there already.
    pub fn file(&mut self, name: &str, bytes: &[u8], is_file: bool) -> Result<(), AllocError> {
        let name = kept(self.alloc, name.as_bytes())?;
        let bytes = kept(self.alloc, bytes)?;
        self.files.push(Stored {
            name,
            bytes,
            is_file,
        })?;
        Ok(())
    }

    /// The next number is that of a standard stream.
    pub fn lower(&mut self) {
        self.next = 1;
    }

    /// The calls so far, in order.
    pub fn notes(&self) -> &[Note] {
        self.notes.as_slice()
    }

    /// How many calls of this name there were.
    pub fn count(&self, name: Name) -> usize {
        self.counts[name as usize]
    }

    /// The bytes of a file. None where there is no file of that name.
    pub fn bytes_of(&self, name: &str) -> Option<&[u8]> {
        for file in self.files.iter() {
            if file.name.as_slice() == name.as_bytes() {
                return Some(file.bytes.as_slice());
            }
        }
        None
    }

    /// The peers, in the order in which they were given.
    pub fn peers(&self) -> &[Peer] {
        self.peers.as_slice()
    }

    /// Whether nothing more happens in it.
    pub fn is_over(&self) -> bool {
        self.over
    }

    /// What the rules say of the latest call, which has this name.
    fn act(&self, name: Name) -> Act {
        let n = self.count(name);
        for rule in self.rules.iter() {
            if rule.is_for(name, n, self.calls) {
                return rule.act;
            }
        }
        Act::AtMost(usize::MAX)
    }

    /// A call begins: how many bytes it moves at most, or how it fails.
    fn begin(
        &mut self,
        name: Name,
        number: Option<i32>,
        at: u64,
        bytes: usize,
    ) -> io::Result<usize> {
        self.counts[name as usize] = self.count(name).saturating_add(1);
        self.calls = self.calls.saturating_add(1);
        if self.notes.len() >= MOST_CALLS {
            self.over = true;
        } else {
            self.notes.push(Note {
                name,
                number,
                at,
                bytes,
                done: false,
                time: self.clock,
            })?;
        }
        match self.act(name) {
            Act::Fail(code) => Err(errno(code)),
            Act::AtMost(most) => Ok(most),
            Act::Lasts(millis) => {
                self.clock = self.clock.saturating_add(Duration::from_millis(millis));
                Ok(usize::MAX)
            }
        }
    }

    /// A call ends.
    pub(crate) fn end<T: Drop>(&mut self, got: &io::Result<T>) {
        let done = got.is_ok();
        if let Some(note) = self.notes.last_mut() {
            note.done = done;
        }
    }

    fn number(&mut self) -> i32 {
        let number = self.next;
        self.next = if number < 100_000 { number + 2 } else { 3 };
        number
    }

    /// A number more of a file.
    fn handle(&mut self, file: usize) -> io::Result<Handle> {
        let number = self.number();
        self.opened.push(Opened { number, file })?;
        Ok(Handle { number })
    }

    /// The place of the file of that name.
    fn place_of(&self, name: &str) -> Option<usize> {
        for (place, file) in self.files.iter().enumerate() {
            if file.name.as_slice() == name.as_bytes() {
                return Some(place);
            }
        }
        None
    }

    /// The place of the file that has this number.
    fn file_of(&self, number: i32) -> io::Result<usize> {
        for opened in self.opened.iter() {
            if opened.number == number {
                return Ok(opened.file);
            }
        }
        Err(errno(EBADF))
    }

    pub(crate) fn open(&mut self, name: &str) -> io::Result<Handle> {
        self.begin(Name::Open, None, 0, 0)?;
        let place = match self.place_of(name) {
            Some(place) => place,
            None => {
                let place = self.files.len();
                self.file(name, &[], true)?;
                place
            }
        };
        self.handle(place)
    }

    pub(crate) fn open_folder(&mut self, _name: &str) -> io::Result<Handle> {
        self.begin(Name::OpenFolder, None, 0, 0)?;
        self.handle(usize::MAX)
    }

    pub(crate) fn duplicate(&mut self, file: i32) -> io::Result<Handle> {
        self.begin(Name::Duplicate, Some(file), 0, 0)?;
        let place = self.file_of(file)?;
        if self.next <= 2 {
            self.next = 3;
        }
        self.handle(place)
    }

    pub(crate) fn examine(&mut self, file: i32) -> io::Result<Stat> {
        self.begin(Name::Examine, Some(file), 0, 0)?;
        let place = self.file_of(file)?;
        match self.files.get(place) {
            Some(found) => Ok(Stat {
                is_file: found.is_file,
                bytes: found.bytes.len() as u64,
            }),
            None => Err(errno(EBADF)),
        }
    }

    /// A call on an open file that does nothing here.
    pub(crate) fn pass(&mut self, name: Name, file: i32) -> io::Result<()> {
        self.begin(name, Some(file), 0, 0)?;
        self.file_of(file)?;
        Ok(())
    }

    pub(crate) fn read_at(&mut self, file: i32, buf: &mut [u8], at: u64) -> io::Result<usize>
        ensures bound { ReadsAtMost result buf.new }
    {
        let most = self.begin(Name::ReadAt, Some(file), at, buf.len())?;
        let place = self.file_of(file)?;
        let Some(found) = self.files.get(place) else {
            return Err(errno(EINVAL));
        };
        let from = usize::try_from(at).unwrap_or(usize::MAX);
        let left = found.bytes.as_slice().get(from..).unwrap_or(&[]);
        let n = buf.len().min(left.len()).min(most);
        buf[..n].copy_from_slice(&left[..n]);
        Ok(n)
    }

    pub(crate) fn write_at(&mut self, file: i32, bytes: &[u8], at: u64) -> io::Result<usize>
        ensures bound { WritesAtMost result bytes.now }
    {
        let most = self.begin(Name::WriteAt, Some(file), at, bytes.len())?;
        let place = self.file_of(file)?;
        let n = bytes.len().min(most);
        if at > MOST_BYTES as u64 || n > MOST_BYTES {
            return Err(errno(ENOSPC));
        }
        let from = at as usize;
        let Some(found) = self.files.get_mut(place) else {
            return Err(errno(EBADF));
        };
        if found.bytes.len() < from + n {
            found.bytes.resize(from + n, 0)?;
        }
        match found.bytes.as_mut_slice().get_mut(from..from + n) {
            Some(part) => part.copy_from_slice(&bytes[..n]),
            None => return Err(errno(ENOSPC)),
        }
        Ok(n)
    }

    pub(crate) fn listen(&mut self, _address: &str) -> io::Result<Handle> {
        self.begin(Name::Listen, None, 0, 0)?;
        let number = self.number();
        self.listener = Some(number);
        Ok(Handle { number })
    }

    /// The next peer that waits to be accepted, by its place.
    fn waiting(&self) -> Option<usize> {
        for (place, peer) in self.peers.iter().enumerate() {
            if peer.comes && !peer.is_met() && peer.is_there(self.clock) {
                return Some(place);
            }
        }
        None
    }

    pub(crate) fn accept(&mut self, listener: i32) -> io::Result<(Handle, SocketAddr)> {
        self.begin(Name::Accept, Some(listener), 0, 0)?;
        if self.over || self.listener != Some(listener) {
            return Err(errno(EINVAL));
        }
        let Some(place) = self.waiting() else {
            return Err(errno(EAGAIN));
        };
        let number = self.number();
        let Some(peer) = self.peers.get_mut(place) else {
            return Err(errno(EAGAIN));
        };
        peer.number = Some(number);
        Ok((Handle { number }, peer.address))
    }

    /// A literal address is its own; a name has those that it was given, at this port.
    pub(crate) fn resolve(&mut self, host: &str, port: u16) -> io::Result<HostAddrs> {
        self.begin(Name::Resolve, None, port as u64, 0)?;
        let mut found = [SocketAddr::from((Ipv4Addr::UNSPECIFIED, port)); 32];
        let mut n = 0usize;
        if let Ok(ip) = host.parse::<IpAddr>() {
            found[0] = SocketAddr::new(ip, port);
            return Ok(found.into_iter().take(1));
        }
        for known in self.hosts.iter() {
            if n < 32 && known.name.as_slice() == host.as_bytes() {
                found[n] = SocketAddr::new(known.address.ip(), port);
                n += 1;
            }
        }
        if n == 0 {
            return Err(errno(ENOENT));
        }
        Ok(found.into_iter().take(n))
    }

    /// The next peer that is found at this address, by its place.
    fn found_at(&self, address: &SocketAddr) -> Option<usize> {
        for (place, peer) in self.peers.iter().enumerate() {
            if !peer.comes && !peer.is_met() && peer.address == *address {
                return Some(place);
            }
        }
        None
    }

    /// Where no peer is found there, the connection is refused at once.
    pub(crate) fn connect(&mut self, address: &SocketAddr) -> io::Result<Handle> {
        self.begin(Name::Connect, None, address.port() as u64, 0)?;
        if self.found_at(address).is_none() {
            let refused = Peer::found(self.alloc, *address, Begin::Refused(self.clock));
            self.peers.push(refused)?;
        }
        let Some(place) = self.found_at(address) else {
            return Err(errno(EINVAL));
        };
        let number = self.number();
        let Some(peer) = self.peers.get_mut(place) else {
            return Err(errno(EINVAL));
        };
        peer.number = Some(number);
        Ok(Handle { number })
    }

    /// The peer at the other end of a connection, by its place.
    fn peer_of(&self, number: i32) -> io::Result<usize> {
        for (place, peer) in self.peers.iter().enumerate() {
            if peer.number == Some(number) {
                return Ok(place);
            }
        }
        Err(errno(EBADF))
    }

    pub(crate) fn read(&mut self, stream: i32, buf: &mut [u8]) -> io::Result<usize>
        ensures bound { ReadsAtMost result buf.new }
    {
        let most = self.begin(Name::Read, Some(stream), 0, buf.len())?;
        let place = self.peer_of(stream)?;
        let now = self.clock;
        match self.peers.get_mut(place) {
            Some(peer) => peer.read(now, buf, most),
            None => Err(errno(EBADF)),
        }
    }

    pub(crate) fn write(&mut self, stream: i32, bytes: &[u8]) -> io::Result<usize>
        ensures bound { WritesAtMost result bytes.now }
    {
        let most = self.begin(Name::Write, Some(stream), 0, bytes.len())?;
        let place = self.peer_of(stream)?;
        let now = self.clock;
        match self.peers.get_mut(place) {
            Some(peer) => peer.write(now, bytes, most),
            None => Err(errno(EBADF)),
        }
    }

    pub(crate) fn shut_down(&mut self, stream: i32) -> io::Result<()> {
        self.begin(Name::ShutDown, Some(stream), 0, 0)?;
        let place = self.peer_of(stream)?;
        let now = self.clock;
        match self.peers.get_mut(place) {
            Some(peer) => peer.shut_down(now),
            None => Err(errno(EBADF)),
        }
    }

    pub(crate) fn monotonic(&mut self) -> io::Result<Duration> {
        self.begin(Name::Monotonic, None, 0, 0)?;
        Ok(self.clock)
    }

    /// What is found of a number.
    fn found(&self, ask: &pollfd) -> i16 {
        if ask.fd < 0 {
            return 0;
        }
        if self.over {
            return POLLERR;
        }
        if self.listener == Some(ask.fd) {
            return if self.waiting().is_some() {
                ask.events & POLLIN
            } else {
                0
            };
        }
        let Ok(place) = self.peer_of(ask.fd) else {
            return POLLNVAL;
        };
        match self.peers.get(place) {
            Some(peer) => state(peer, self.clock) & (ask.events | POLLERR | POLLHUP),
            None => POLLNVAL,
        }
    }

    /// What is found of all of them, and of how many something is.
    fn look(&self, asks: &mut [pollfd]) -> i32 {
        let mut n = 0i32;
        for ask in asks.iter_mut() {
            let found = self.found(ask);
            ask.revents = found;
            if found != 0 {
                n = n.saturating_add(1);
            }
        }
        n
    }

    /// When something happens next.
    fn next_time(&self) -> Option<Duration> {
        let mut next = None;
        for peer in self.peers.iter() {
            next = earlier(next, peer.next_time(self.clock));
        }
        next
    }

    /// The time goes on, at most up to an end.
    fn wait(&mut self, ends: Option<Duration>) {
        match earlier(self.next_time(), ends) {
            Some(time) => self.clock = time,
            None => self.over = true,
        }
    }

    pub(crate) fn poll(&mut self, asks: &mut [pollfd], millis: i32) -> i32 {
        let time = u64::try_from(millis).unwrap_or(u64::MAX);
        if self.begin(Name::Poll, None, time, asks.len()).is_err() {
            return -1;
        }
        self.end(&Ok(()));
        let ends = if millis < 0 {
            None
        } else {
            Some(self.clock.saturating_add(Duration::from_millis(time)))
        };
        for _ in 0..u16::MAX {
            let n = self.look(asks);
            if self.over {
                self.clock = ends.unwrap_or(self.clock);
            }
            if n > 0 || ends == Some(self.clock) {
                return n;
            }
            self.wait(ends);
        }
        -1
    }
}

/// What may be found of a connection.
fn state(peer: &Peer, now: Duration) -> i16 {
    let mut found = 0i16;
    if peer.can_read(now) {
        found |= POLLIN;
    }
    if peer.can_write(now) {
        found |= POLLOUT;
    }
    if peer.has_failed(now) {
        found |= POLLERR | POLLHUP;
    }
    found
}
