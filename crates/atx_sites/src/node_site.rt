//! The machine of a node that serves: its files, its listener and connection, its posts and its clock.

ghost use Rattle.std.specs.Prelude.{◌≡◌, ◌≤◌, ◌<◌, ◌+◌, [], true, false, length, take, drop, None, IfOk, IsErr, OnOk, OnErr, Ok};
ghost use Rattle.shown_pages.specs.Quiet.{Quiet};
ghost use Rattle.site_model.specs.Calls.{Attaches, Closes, Gave, Looked, Raised, Reads as ReadsTime, Received, Synced, Takes, Wrote};
ghost use Rattle.site_model.specs.Counts.{capped};
ghost use Rattle.site_model.specs.Told.{Files as Files_told, Is, file_of};
ghost use Rattle.site_model.specs.Told.Call.{Post, Send};
ghost use Rattle.site_model.specs.declared.site.Taken.TheVariants.{Opened};
ghost use Rattle.atx_sites.specs.Arrivals.{Gives, IsPeer, KeepsOn};
ghost use Rattle.atx_sites.specs.Machines.{Holds};
ghost use Rattle.atx_sites.specs.Resends.{PostsOrHolds, TellsTime};
ghost use Rattle.atx_sites.specs.Turns.{EndsTurn};
ghost use Rattle.atx_sites.specs.Waits.{Changes, IfAllOnTime, IfInTime};
ghost use Rattle.atx_sites.specs.Disks.{Tallied, file_at, other_at};
ghost use Rattle.atx_sites.specs.FileCalls.{Raises, Reads, Sized, Syncs, Writes};
ghost use Rattle.atx_sites.specs.Files.{is_lost, number_of};
ghost use Rattle.atx_sites.specs.LinkCalls.{number_at};
ghost use Rattle.atx_sites.specs.Networks.{Attempted, IfAttached, told_with};
ghost use Rattle.atx_sites.specs.Failures.{Tells, TellsOne};
ghost use Rattle.atx_sites.specs.declared.troubles.Step.TheVariants as steps;

use crate::connection::{self, Connection};
use crate::departures::{self, Departures};
use crate::disk::{self, Disk};
use crate::faults::{counted, noted};
use crate::resends::{is_held, millis};
use crate::showing;
use crate::troubles::{Line, Step, Trouble};
use resend_delays::delays::Delays;
use shown_pages::page::Counts;
use shown_pages::pages::Pages;
use shown_pages::showing::Showing;
use site_model::attachments::{Attachments, Given};
use site_model::site::{AttachFailed, Site, Taken};
use site_model::source::Failed;
use std::alloc::{AllocError, Global};
use std::net::SocketAddr;
use std::time::Duration;
use system_calls::system::System;

/// The machine of a node that serves.
///
/// Connections are read aside, up to 1,024 at once, and each is taken when its whole request is there, when it ended or failed,
/// or when 10 seconds are over since it was accepted: a peer that is slow or silent waits alone. What an answer's peer and the
/// peers of posts don't take at once goes on leaving while other connections are served; they have 5 seconds for that. The same
/// bytes go to the same host again only 5 seconds later, and then after twice as long each time, a minute at most, unless the
/// request that is served names their address: a post between is left out, and not counted as lost. No
/// call waits for one peer, but the name of a host is looked up without a limit, at most once in 60 seconds: give nodes by IP
/// addresses, or by names that this machine knows.
#[derive(Drop)]
pub struct NodeSite<S: System + Drop> {
    alloc: Global,
    system: S,
    disk: Disk<S::File>,
    connection: Connection<S::Listener, S::Stream>,
    departures: Departures<S::Stream>,
    delays: Delays,
    every: Option<Duration>,
    accept: u64,
    receive: u64,
    link: u64,
    taken: u64,
    attached: Attachments,
    trouble: Option<Trouble>,
    journal: String,
    listen: String,
}

/// A text of its own; none where there is no memory for it.
fn kept(alloc: Global, text: &str) -> String {
    match String::from_str(alloc, text) {
        Ok(kept) => kept,
        Err(AllocError) => String::new(alloc),
    }
}

impl<S: System + Drop> NodeSite<S> {
    /// No file is open, nothing listens, and nothing failed.
    pub fn new(alloc: Global, system: S) -> NodeSite<S>
        ensures disk { (result.disk.disk ≡ 0) × (result.disk.gate ≡ 0) }
        ensures network { (result.accept ≡ 0) × (result.receive ≡ 0) × (result.link ≡ 0) × (result.taken ≡ 0) }
        ensures shut { (result.connection.listener ≡ None) × (result.connection.served ≡ None) }
        ensures names { result.attached.names ≡ [] }
        ensures trouble { result.trouble ≡ None }
        ensures aside { (result.connection.waiting.arriving.items ≡ []) × (result.departures.leaving.items ≡ []) }
        ensures holds { Holds S.Stream.raw_fd S.Listener.raw_fd (S.calls result.system) result.connection result.departures }
    {
        NodeSite {
            alloc,
            system,
            disk: Disk::new(),
            connection: Connection::new(alloc),
            departures: Departures::new(alloc),
            delays: Delays::new(alloc),
            every: None,
            accept: 0,
            receive: 0,
            link: 0,
            taken: 0,
            attached: Attachments::new(),
            trouble: None,
            journal: String::new(alloc),
            listen: String::new(alloc),
        }
    }

    /// How many answers and posts were lost: there was no room for them, the peer accepted no connection, or not all of their
    /// bytes were taken in time.
    pub fn lost(&self) -> u64
        ensures { result ≡ self.now.departures.lost }
    {
        self.departures.lost
    }

    /// The last failure of a call that opens the files or listens, takes a connection, or reads, writes or syncs a file. None
    /// where there was none.
    pub fn trouble(&self) -> Option<Trouble>
        ensures { result ≡ self.now.trouble }
    {
        self.trouble
    }

    /// The address from which the connection comes that is served, if one is.
    pub fn peer(&self) -> Option<SocketAddr>
        ensures { IsPeer result self.now.connection.served }
    {
        connection::peer(&self.connection)
    }

    /// Takes the memory beforehand that serving wants: room for all connections that may wait and leave, and for a post where there is
    /// no memory later. It is to be called before the machine is attached; without it that is taken where it begins to listen.
    pub fn begin(&mut self) -> Result<(), AllocError>
        ensures same { (self.new.disk ≡ self.old.disk) × (self.new.attached ≡ self.old.attached) × (self.new.trouble ≡ self.old.trouble) }
        ensures counts { (self.new.accept ≡ self.old.accept) × (self.new.receive ≡ self.old.receive) × (self.new.link ≡ self.old.link) × (self.new.taken ≡ self.old.taken) }
        ensures open { (self.new.connection.listener ≡ self.old.connection.listener) × (self.new.connection.served ≡ self.old.connection.served) }
        ensures aside { self.new.connection.waiting.arriving.items ≡ [] }
        ensures leaving { self.new.departures.leaving.items ≡ self.old.departures.leaving.items }
        ensures holds { Holds S.Stream.raw_fd S.Listener.raw_fd (S.calls self.old.system) self.old.connection self.old.departures → Holds S.Stream.raw_fd S.Listener.raw_fd (S.calls self.new.system) self.new.connection self.new.departures }
    {
        connection::begin(&mut self.connection, &mut self.departures)
    }

    /// A trouble of this machine as one line of text, without its end.
    pub fn line(&self, trouble: Trouble) -> Line<'_> {
        Line::new(trouble, self.journal.as_str(), self.listen.as_str())
    }

    /// From now on a turn in which nothing comes begins by itself, where no connection's turn came for so many milliseconds.
    pub fn keep_time(&mut self, millis: u64)
        ensures { self.new ≡ record self.old { every = self.new.every } }
    {
        self.every = Some(Duration::from_millis(millis));
    }

    /// From now on it shows pages to who asks for them by GET at `/`, `/status` and `/healthz`, whose requests have no turn then.
    pub fn show_pages(&mut self) {
        self.connection.waiting.shows = true;
    }

    /// From now on a tick is taken from any machine; without this, from the node's own alone (by its loopback), and others are answered 403.
    pub fn hear_ticks(&mut self) {
        self.connection.waiting.hears_ticks = true;
    }

    /// Lets go out what still leaves, each until its own time is over.
    pub fn leave(&mut self)
        ensures shut { self.new.connection.served ≡ None }
        ensures aside { self.new.connection.waiting ≡ self.old.connection.waiting }
        ensures holds { Holds S.Stream.raw_fd S.Listener.raw_fd (S.calls self.old.system) self.old.connection self.old.departures → Holds S.Stream.raw_fd S.Listener.raw_fd (S.calls self.new.system) self.new.connection self.new.departures }
    {
        connection::close(&mut self.system, &mut self.connection, &mut self.departures);
        connection::leave(
            &mut self.system,
            &mut self.connection.asks,
            &mut self.departures,
        );
    }
}

impl<S: System + Drop> Site for NodeSite<S> {
    ghost told = { λ s. told_with s.disk s.accept s.receive s.link s.taken s.attached.names };

    ghost counts_now = { λ s l c is now. now };

    ghost only_now = { λ s l m c is le past. absurd past };

    /// Opens the files, and then the listener.
    fn attach(&mut self, journal: &str, listen: &str) -> Result<(), AttachFailed>
        ensures system { IfAttached S.File.raw_fd journal.now listen.now result self.new.disk (number_at S.Listener.raw_fd self.new.connection.listener) (S.calls self.old.system) (S.calls self.new.system) }
        ensures sure { OnOk result ((is_lost self.new.disk.first ≡ false) × (is_lost self.new.disk.second ≡ false)) }
        ensures tallied { Attempted self.old.disk.disk self.old.accept self.new.disk.disk self.new.accept result }
        ensures call { Attaches journal.now listen.now result (told_with self.old.disk self.old.accept self.old.receive self.old.link self.old.taken self.old.attached.names) (told_with self.new.disk self.new.accept self.new.receive self.new.link self.new.taken self.new.attached.names) }
        ensures told { TellsOne None result self.old.trouble self.new.trouble (S.calls self.new.system) }
        ensures holds { Holds S.Stream.raw_fd S.Listener.raw_fd (S.calls self.old.system) self.old.connection self.old.departures → Holds S.Stream.raw_fd S.Listener.raw_fd (S.calls self.new.system) self.new.connection self.new.departures }
        ensures leaving { self.new.departures.leaving.items ≡ self.old.departures.leaving.items }
    {
        self.journal = kept(self.alloc, journal);
        self.listen = kept(self.alloc, listen);
        if disk::open(&mut self.system, &mut self.disk, &mut self.trouble, journal).is_err() {
            return Err(AttachFailed::Disk);
        }
        let listening = connection::listen(
            &mut self.system,
            &mut self.connection,
            &mut self.departures,
            listen,
        );
        match noted(&mut self.accept, &mut self.trouble, Step::Listen, listening) {
            Ok(()) => {
                self.attached = self.attached.and(&Given { journal, listen });
                Ok(())
            }
            Err(_) => Err(AttachFailed::Link),
        }
    }

    fn size(&mut self, file: u8) -> Result<u64, Failed>
        ensures system { Sized (number_of S.File.raw_fd (file_at file self.old.disk)) result (S.calls self.old.system) (S.calls self.new.system) }
        ensures shut { file_at file self.old.disk ≡ None → IsErr result }
        ensures tallied { Tallied self.old.disk.disk self.new.disk.disk result }
        ensures is { IfOk result (λ n. (f : Files_told) → Is (told_with self.old.disk self.old.accept self.old.receive self.old.link self.old.taken self.old.attached.names).files f → n ≡ length (file_of file f)) }
        ensures call { Looked result (told_with self.old.disk self.old.accept self.old.receive self.old.link self.old.taken self.old.attached.names) (told_with self.new.disk self.new.accept self.new.receive self.new.link self.new.taken self.new.attached.names) }
        ensures told { Tells (number_of S.File.raw_fd (file_at file self.old.disk)) (steps.Size file) result self.old.trouble self.new.trouble (S.calls self.new.system) }
        ensures aside { self.new.connection ≡ self.old.connection }
        ensures leaving { self.new.departures.leaving.items ≡ self.old.departures.leaving.items }
        ensures holds { Holds S.Stream.raw_fd S.Listener.raw_fd (S.calls self.old.system) self.old.connection self.old.departures → Holds S.Stream.raw_fd S.Listener.raw_fd (S.calls self.new.system) self.new.connection self.new.departures }
    {
        disk::size(&mut self.system, &mut self.disk, &mut self.trouble, file)
    }

    fn read(&mut self, file: u8, at: u64, buf: &mut [u8]) -> Result<usize, Failed>
        ensures system { Reads (number_of S.File.raw_fd (file_at file self.old.disk)) at buf.new result (S.calls self.old.system) (S.calls self.new.system) }
        ensures shut { file_at file self.old.disk ≡ None → IsErr result }
        ensures tallied { Tallied self.old.disk.disk self.new.disk.disk result }
        ensures bound { IfOk result (λ n. n ≤ length buf.new) }
        ensures same_length { length buf.new ≡ length buf.old }
        ensures is { IfOk result (λ n. (f : Files_told) → Is (told_with self.old.disk self.old.accept self.old.receive self.old.link self.old.taken self.old.attached.names).files f → take n buf.new ≡ take n (drop at (file_of file f))) }
        ensures end { IfOk result (λ n. (f : Files_told) → Is (told_with self.old.disk self.old.accept self.old.receive self.old.link self.old.taken self.old.attached.names).files f → n ≡ 0 → 0 < length buf.old → length (file_of file f) ≤ at) }
        ensures call { Looked result (told_with self.old.disk self.old.accept self.old.receive self.old.link self.old.taken self.old.attached.names) (told_with self.new.disk self.new.accept self.new.receive self.new.link self.new.taken self.new.attached.names) }
        ensures told { Tells (number_of S.File.raw_fd (file_at file self.old.disk)) (steps.Read file) result self.old.trouble self.new.trouble (S.calls self.new.system) }
        ensures aside { self.new.connection ≡ self.old.connection }
        ensures leaving { self.new.departures.leaving.items ≡ self.old.departures.leaving.items }
        ensures holds { Holds S.Stream.raw_fd S.Listener.raw_fd (S.calls self.old.system) self.old.connection self.old.departures → Holds S.Stream.raw_fd S.Listener.raw_fd (S.calls self.new.system) self.new.connection self.new.departures }
    {
        disk::read(
            &mut self.system,
            &mut self.disk,
            &mut self.trouble,
            file,
            at,
            buf,
        )
    }

    #[tactic(auto, using(crate::proofs::SilentMachines::wrote))]
    fn write_at(&mut self, file: u8, at: u64, bytes: &[u8]) -> Result<(), Failed>
        ensures system { Writes (number_of S.File.raw_fd (file_at file self.old.disk)) at bytes.now result (S.calls self.old.system) (S.calls self.new.system) }
        ensures shut { file_at file self.old.disk ≡ None → IsErr result }
        ensures tallied { Tallied self.old.disk.disk self.new.disk.disk result }
        ensures call { Wrote file at bytes.now result (told_with self.old.disk self.old.accept self.old.receive self.old.link self.old.taken self.old.attached.names) (told_with self.new.disk self.new.accept self.new.receive self.new.link self.new.taken self.new.attached.names) }
        ensures told { Tells (number_of S.File.raw_fd (file_at file self.old.disk)) (steps.Write file) result self.old.trouble self.new.trouble (S.calls self.new.system) }
        ensures aside { self.new.connection ≡ self.old.connection }
        ensures leaving { self.new.departures.leaving.items ≡ self.old.departures.leaving.items }
        ensures holds { Holds S.Stream.raw_fd S.Listener.raw_fd (S.calls self.old.system) self.old.connection self.old.departures → Holds S.Stream.raw_fd S.Listener.raw_fd (S.calls self.new.system) self.new.connection self.new.departures }
    {
        disk::write_at(
            &mut self.system,
            &mut self.disk,
            &mut self.trouble,
            file,
            at,
            bytes,
        )
    }

    #[tactic(auto, using(crate::proofs::SilentMachines::synced))]
    fn sync(&mut self, file: u8) -> Result<(), Failed>
        ensures system { Syncs (number_of S.File.raw_fd (file_at file self.old.disk)) result (S.calls self.old.system) (S.calls self.new.system) }
        ensures lost { is_lost (file_at file self.old.disk) ≡ true → IsErr result }
        ensures failed { OnErr result (is_lost (file_at file self.new.disk) ≡ true) }
        ensures other { other_at file self.new.disk ≡ other_at file self.old.disk }
        ensures tallied { Tallied self.old.disk.disk self.new.disk.disk result }
        ensures call { Synced file result (told_with self.old.disk self.old.accept self.old.receive self.old.link self.old.taken self.old.attached.names) (told_with self.new.disk self.new.accept self.new.receive self.new.link self.new.taken self.new.attached.names) }
        ensures told { Tells (number_of S.File.raw_fd (file_at file self.old.disk)) (steps.Sync file) result self.old.trouble self.new.trouble (S.calls self.new.system) }
        ensures aside { self.new.connection ≡ self.old.connection }
        ensures leaving { self.new.departures.leaving.items ≡ self.old.departures.leaving.items }
        ensures holds { Holds S.Stream.raw_fd S.Listener.raw_fd (S.calls self.old.system) self.old.connection self.old.departures → Holds S.Stream.raw_fd S.Listener.raw_fd (S.calls self.new.system) self.new.connection self.new.departures }
    {
        disk::sync(&mut self.system, &mut self.disk, &mut self.trouble, file)
    }

    #[tactic(auto, using(crate::proofs::SilentMachines::raised))]
    fn raise_gate(&mut self, file: u8, at: u64) -> Result<(), Failed>
        ensures system { Raises (number_of S.File.raw_fd (file_at file self.old.disk)) at result (S.calls self.old.system) (S.calls self.new.system) }
        ensures lost { is_lost (file_at file self.old.disk) ≡ true → IsErr result }
        ensures other { other_at file self.new.disk ≡ other_at file self.old.disk }
        ensures tallied { Tallied self.old.disk.gate self.new.disk.gate result }
        ensures call { Raised file at result (told_with self.old.disk self.old.accept self.old.receive self.old.link self.old.taken self.old.attached.names) (told_with self.new.disk self.new.accept self.new.receive self.new.link self.new.taken self.new.attached.names) }
        ensures told { Tells (number_of S.File.raw_fd (file_at file self.old.disk)) (steps.Gate file) result self.old.trouble self.new.trouble (S.calls self.new.system) }
        ensures aside { self.new.connection ≡ self.old.connection }
        ensures leaving { self.new.departures.leaving.items ≡ self.old.departures.leaving.items }
        ensures holds { Holds S.Stream.raw_fd S.Listener.raw_fd (S.calls self.old.system) self.old.connection self.old.departures → Holds S.Stream.raw_fd S.Listener.raw_fd (S.calls self.new.system) self.new.connection self.new.departures }
    {
        disk::raise_gate(
            &mut self.system,
            &mut self.disk,
            &mut self.trouble,
            file,
            at,
        )
    }

    #[tactic(auto, using(crate::proofs::Tellings::tells))]
    fn take(&mut self) -> Result<Taken, Failed>
        ensures shut { self.old.connection.listener ≡ None → IsErr result }
        ensures opened { IfOk result (λ taken. taken ≡ Opened) }
        ensures once { OnOk result (self.new.taken ≡ capped (self.old.taken + 1)) }
        ensures tallied { Tallied self.old.accept self.new.accept result }
        ensures call { Takes result (told_with self.old.disk self.old.accept self.old.receive self.old.link self.old.taken self.old.attached.names) (told_with self.new.disk self.new.accept self.new.receive self.new.link self.new.taken self.new.attached.names) }
        ensures told { Tells (number_at S.Listener.raw_fd self.old.connection.listener) steps.Accept result self.old.trouble self.new.trouble (S.calls self.new.system) }
        ensures holds { Holds S.Stream.raw_fd S.Listener.raw_fd (S.calls self.old.system) self.old.connection self.old.departures → Holds S.Stream.raw_fd S.Listener.raw_fd (S.calls self.new.system) self.new.connection self.new.departures }
        ensures changes { Changes self.old.connection.waiting.arriving.items (S.calls self.old.system) self.new.connection.waiting.arriving.items (S.calls self.new.system) }
        ensures in_time { IfInTime result self.new.connection.served self.new.connection.waiting.arriving.items (S.calls self.old.system) (S.calls self.new.system) }
        ensures pace { IfAllOnTime result self.new.connection.served self.new.departures.leaving.items (S.calls self.old.system) (S.calls self.new.system) }
    {
        let opened = connection::take(
            &mut self.system,
            &mut self.connection,
            &mut self.departures,
            self.every,
        );
        match noted(&mut self.accept, &mut self.trouble, Step::Accept, opened) {
            Ok(()) => {
                self.taken = self.taken.saturating_add(1);
                Ok(Taken::Opened)
            }
            Err(fault) => Err(fault),
        }
    }

    fn receive(&mut self, buf: &mut [u8]) -> Result<usize, Failed>
        ensures shut { self.old.connection.served ≡ None → IsErr result }
        ensures tallied { Tallied self.old.receive self.new.receive result }
        ensures same_length { length buf.new ≡ length buf.old }
        ensures gives { Gives buf.new result self.old.connection.served self.new.connection.served }
        ensures call { Received result buf.new (told_with self.old.disk self.old.accept self.old.receive self.old.link self.old.taken self.old.attached.names) (told_with self.new.disk self.new.accept self.new.receive self.new.link self.new.taken self.new.attached.names) }
        ensures aside { self.new.connection.waiting ≡ self.old.connection.waiting }
        ensures leaving { self.new.departures.leaving.items ≡ self.old.departures.leaving.items }
        ensures holds { Holds S.Stream.raw_fd S.Listener.raw_fd (S.calls self.old.system) self.old.connection self.old.departures → Holds S.Stream.raw_fd S.Listener.raw_fd (S.calls self.new.system) self.new.connection self.new.departures }
    {
        counted(
            &mut self.receive,
            connection::receive(&mut self.system, &mut self.connection, buf),
        )
    }

    #[tactic(auto, using(crate::proofs::SilentMachines::gave))]
    fn send(&mut self, bytes: &[u8]) -> Result<(), Failed>
        ensures shut { self.old.connection.served ≡ None → IsErr result }
        ensures tallied { Tallied self.old.link self.new.link result }
        ensures kept { KeepsOn S.Stream.raw_fd bytes.now result self.old.connection.served self.new.connection.served (S.calls self.old.system) (S.calls self.new.system) }
        ensures call { Gave (Send bytes.now) result (told_with self.old.disk self.old.accept self.old.receive self.old.link self.old.taken self.old.attached.names) (told_with self.new.disk self.new.accept self.new.receive self.new.link self.new.taken self.new.attached.names) }
        ensures aside { self.new.connection.waiting ≡ self.old.connection.waiting }
        ensures leaving { self.new.departures.leaving.items ≡ self.old.departures.leaving.items }
        ensures holds { Holds S.Stream.raw_fd S.Listener.raw_fd (S.calls self.old.system) self.old.connection self.old.departures → Holds S.Stream.raw_fd S.Listener.raw_fd (S.calls self.new.system) self.new.connection self.new.departures }
    {
        counted(
            &mut self.link,
            connection::send(&mut self.system, &mut self.connection, bytes),
        )
    }

    fn close(&mut self)
        ensures shut { self.new.connection.served ≡ None }
        ensures same { (self.new.connection.listener ≡ self.old.connection.listener) × (self.new.disk ≡ self.old.disk) }
        ensures answers { EndsTurn S.Stream.raw_fd self.old.connection.served self.old.departures.leaving.items self.old.departures.lost (S.calls self.old.system) self.new.departures.leaving.items self.new.departures.lost (S.calls self.new.system) }
        ensures call { Closes (told_with self.old.disk self.old.accept self.old.receive self.old.link self.old.taken self.old.attached.names) (told_with self.new.disk self.new.accept self.new.receive self.new.link self.new.taken self.new.attached.names) }
        ensures aside { self.new.connection.waiting ≡ self.old.connection.waiting }
        ensures holds { Holds S.Stream.raw_fd S.Listener.raw_fd (S.calls self.old.system) self.old.connection self.old.departures → Holds S.Stream.raw_fd S.Listener.raw_fd (S.calls self.new.system) self.new.connection self.new.departures }
    {
        connection::close(&mut self.system, &mut self.connection, &mut self.departures);
    }

    #[tactic(auto, using(crate::proofs::SilentMachines::gave, crate::proofs::HeldPosts::held, crate::proofs::HeldPosts::posted_later))]
    fn post(&mut self, host: &str, port: u16, bytes: &[u8]) -> Result<(), Failed>
        ensures posts { PostsOrHolds S.Stream.raw_fd self.old.departures.names.names.items host.now port bytes.now self.old.delays self.old.departures.leaving.items (S.calls self.old.system) result self.new.departures.leaving.items (S.calls self.new.system) }
        ensures lost { Tallied self.old.departures.lost self.new.departures.lost result }
        ensures tallied { Tallied self.old.link self.new.link result }
        ensures call { Gave (Post host.now port bytes.now) result (told_with self.old.disk self.old.accept self.old.receive self.old.link self.old.taken self.old.attached.names) (told_with self.new.disk self.new.accept self.new.receive self.new.link self.new.taken self.new.attached.names) }
        ensures aside { self.new.connection ≡ self.old.connection }
        ensures holds { Holds S.Stream.raw_fd S.Listener.raw_fd (S.calls self.old.system) self.old.connection self.old.departures → Holds S.Stream.raw_fd S.Listener.raw_fd (S.calls self.new.system) self.new.connection self.new.departures }
    {
        let request = connection::request(&self.connection);
        if is_held(
            &mut self.system,
            &mut self.delays,
            request,
            host,
            port,
            bytes,
        ) {
            return Ok(());
        }
        let answer = departures::post(&mut self.system, &mut self.departures, host, port, bytes);
        counted(&mut self.link, answer)
    }

    fn now(&mut self) -> u64
        ensures clock { TellsTime result (S.calls self.old.system) (S.calls self.new.system) }
        ensures call { ReadsTime result (told_with self.old.disk self.old.accept self.old.receive self.old.link self.old.taken self.old.attached.names) (told_with self.new.disk self.new.accept self.new.receive self.new.link self.new.taken self.new.attached.names) }
        ensures aside { (self.new.connection ≡ self.old.connection) × (self.new.departures ≡ self.old.departures) }
        ensures holds { Holds S.Stream.raw_fd S.Listener.raw_fd (S.calls self.old.system) self.old.connection self.old.departures → Holds S.Stream.raw_fd S.Listener.raw_fd (S.calls self.new.system) self.new.connection self.new.departures }
    {
        match self.system.monotonic() {
            Ok(time) => millis(time),
            Err(_) => 0,
        }
    }
}

impl<S: System + Drop> Showing for NodeSite<S> {
    #[tactic(auto, using(crate::proofs::SilentMachines::quiet))]
    fn show<P: Pages>(&mut self, pages: &P)
        ensures call { Quiet (told_with self.old.disk self.old.accept self.old.receive self.old.link self.old.taken self.old.attached.names) (told_with self.new.disk self.new.accept self.new.receive self.new.link self.new.taken self.new.attached.names) }
        ensures served { self.new.connection.served ≡ self.old.connection.served }
        ensures holds { Holds S.Stream.raw_fd S.Listener.raw_fd (S.calls self.old.system) self.old.connection self.old.departures → Holds S.Stream.raw_fd S.Listener.raw_fd (S.calls self.new.system) self.new.connection self.new.departures }
        ensures changes { Changes self.old.connection.waiting.arriving.items (S.calls self.old.system) self.new.connection.waiting.arriving.items (S.calls self.new.system) }
    {
        if !self.connection.waiting.shows {
            return;
        }
        let counts = Counts {
            clock: 0,
            up: 0,
            taken: self.taken,
            unread: self.receive,
            foreign: 0,
            lost: self.departures.lost,
        };
        showing::show(
            &mut self.system,
            &mut self.connection,
            &mut self.departures,
            self.every,
            &counts,
            pages,
        );
    }
}
