//! Bodies that are appended.

ghost use Rattle.std.specs.Prelude.{ℕ, List, ◌≡◌, ◌<◌, ◌+◌, ◌↔◌, true, false, length};
ghost use Rattle.journal_at.specs.declared.journal.Append.TheVariants.{Full, Unsure};
ghost use Rattle.journal_at.specs.Format.{IsBody};
ghost use Rattle.journal_at.specs.StandingBodies.{Appended, Calls, Counted, HasReason, IsSame, Keeps, Laid, MayFollow};

use crate::frame::frame;
use crate::journal::{Append, Journal};
use site_model::site::Site;
use site_model::source::Failed;

/// Writes and syncs.
pub(crate) fn stage<S: Site>(site: &mut S, file: u8, at: u64, bytes: &[u8]) -> Result<(), Failed>
    ensures { Laid file at bytes.now result (S.told site.old) (S.told site.new) }
{
    match site.write_at(file, at, bytes) {
        Ok(()) => site.sync(file),
        Err(_) => Err(Failed),
    }
}

impl Journal {
    /// Appends a body behind the live file's last. It takes no memory.
    ///
    /// Nothing is done once an append was unsure. A mark of version 2 with generation 0 may be the first body of an empty file;
    /// no other mark may be given. The first body of a file has at most the five bytes of a mark.
    pub fn append<S: Site>(&mut self, site: &mut S, body: &[u8]) -> Append
        requires { IsBody body.now }
        ensures appended { (bodies : List (List ℕ)) → self.old.unsure ≡ false → Keeps self.old bodies (S.told site.old) → MayFollow bodies body.now → Appended result bodies body.now self.new (S.told site.old) (S.told site.new) }
        ensures calls { self.old.unsure ≡ false → Calls result self.old.live self.old.end body.now (S.told site.old) (S.told site.new) }
        ensures nothing { self.old.unsure ≡ true → (result ≡ Unsure) × (site.new ≡ site.old) }
        ensures reason { HasReason result self.old (S.told site.old) (S.told site.new) }
        ensures full { (result ≡ Full) ↔ ((self.old.unsure ≡ false) × (self.old.limit < self.old.end + 6 + length body.now)) }
        ensures unsure { (self.new.unsure ≡ true) ↔ (result ≡ Unsure) }
        ensures same { IsSame self.old self.new }
        ensures counted { Counted (S.told site.old) (S.told site.new) }
    {
        if self.unsure {
            return Append::Unsure;
        }
        if self.end + 6 + body.len() as u64 > self.limit as u64 {
            return Append::Full;
        }
        frame(&mut self.room, body);
        let Ok(()) = stage(site, self.live, self.end + 1, &self.room) else {
            return Append::Refused;
        };
        let Ok(()) = site.raise_gate(self.live, self.end) else {
            self.unsure = true;
            return Append::Unsure;
        };
        self.end += 5 + body.len() as u64;
        Append::Done
    }
}
