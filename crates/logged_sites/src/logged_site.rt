//! The machine of a node that serves, with a line for each request, answer and post.

ghost use Rattle.std.specs.Prelude.{◌≡◌};

use crate::departing::Departing;
use crate::log::Log;
use crate::notes::Notes;
use shown_pages::pages::Pages;
use shown_pages::showing::Showing;
use site_model::sink::Sink;
use site_model::site::{AttachFailed, Site, Taken};
use site_model::source::Failed;
use std::alloc::Global;
use std::time::Clock;

/// The machine of a node that serves. Each of its calls is that call of the machine inside. Where it has a log, a line is
/// written there of each request with the status of its answer and the address from which it came, of each post, of each call of the disk that failed, of a
/// journal that goes on in its other file, and of how many answers and posts were lost so far.
#[derive(Drop)]
pub struct LoggedSite<H: Site + Departing + Drop, K: Sink + Drop, C: Clock + Drop> {
    site: H,
    notes: Notes<K, C>,
}

impl<H: Site + Departing + Drop, K: Sink + Drop, C: Clock + Drop> LoggedSite<H, K, C> {
    pub fn new(alloc: Global, site: H, log: Option<Log<K, C>>) -> LoggedSite<H, K, C>
        ensures { result.site ≡ site }
    {
        LoggedSite {
            site,
            notes: Notes::new(alloc, log),
        }
    }

    /// The machine inside.
    pub fn site(&self) -> &H
        ensures { result.now ≡ self.now.site }
    {
        &self.site
    }

    /// Lets go out what still leaves, each until its own time is over.
    pub fn leave(&mut self) {
        self.site.leave();
        self.notes.losses(self.site.lost());
    }
}

impl<H: Site + Departing + Drop, K: Sink + Drop, C: Clock + Drop> Site for LoggedSite<H, K, C> {
    ghost told = { λ s. H.told s.site };

    ghost counts_now = { λ s. H.counts_now s.site };

    ghost only_now = { λ s. H.only_now s.site };

    fn attach(&mut self, journal: &str, listen: &str) -> Result<(), AttachFailed> {
        self.site.attach(journal, listen)
    }

    fn size(&mut self, file: u8) -> Result<u64, Failed> {
        let size = self.site.size(file);
        self.notes.disk(size.is_err(), "can't examine file", file);
        size
    }

    fn read(&mut self, file: u8, at: u64, buf: &mut [u8]) -> Result<usize, Failed> {
        let read = self.site.read(file, at, buf);
        self.notes.disk(read.is_err(), "can't read file", file);
        read
    }

    fn write_at(&mut self, file: u8, at: u64, bytes: &[u8]) -> Result<(), Failed> {
        let written = self.site.write_at(file, at, bytes);
        self.notes.disk(written.is_err(), "can't write file", file);
        written
    }

    fn sync(&mut self, file: u8) -> Result<(), Failed> {
        let synced = self.site.sync(file);
        self.notes.disk(synced.is_err(), "can't sync file", file);
        synced
    }

    fn raise_gate(&mut self, file: u8, at: u64) -> Result<(), Failed> {
        let raised = self.site.raise_gate(file, at);
        self.notes
            .disk(raised.is_err(), "can't end a record of file", file);
        if raised.is_ok() {
            self.notes.goes_on(file);
        }
        raised
    }

    fn take(&mut self) -> Result<Taken, Failed> {
        self.notes.losses(self.site.lost());
        self.notes.wait();
        self.site.take()
    }

    fn receive(&mut self, buf: &mut [u8]) -> Result<usize, Failed> {
        let received = self.site.receive(buf);
        let count = received.unwrap_or(0).min(buf.len());
        self.notes.hear(&buf[..count]);
        received
    }

    fn send(&mut self, bytes: &[u8]) -> Result<(), Failed> {
        let sent = self.site.send(bytes);
        self.notes.answer(bytes, self.site.peer());
        sent
    }

    fn close(&mut self) {
        self.site.close();
    }

    fn post(&mut self, host: &str, port: u16, bytes: &[u8]) -> Result<(), Failed> {
        let posted = self.site.post(host, port, bytes);
        self.notes.post(host, port, bytes, posted.is_ok());
        posted
    }

    fn now(&mut self) -> u64 {
        self.site.now()
    }
}

impl<H: Showing + Departing + Drop, K: Sink + Drop, C: Clock + Drop> Showing
    for LoggedSite<H, K, C> {
    fn show<P: Pages>(&mut self, pages: &P) {
        self.notes.losses(self.site.lost());
        self.site.show(pages);
    }
}
