//! A journal that is written anew, without its dead records.

ghost use Rattle.std.specs.Prelude.{List, ◌≡◌, true, false};
ghost use Rattle.at_base.specs.declared.record.Record.{Record};
ghost use Rattle.decision_log.specs.KeptState.{known};
ghost use Rattle.decision_log.specs.KeptRecords.{kept_of};
ghost use Rattle.journal_at.specs.declared.version.Version.TheVariants.{Two};
ghost use Rattle.journal_at.specs.StandingBodies.{Counted};
ghost use Rattle.node_at.specs.ShrunkJournals.{IsDue, Shrinks, Stays, halted_by, shrunk_by};
ghost use Rattle.node_at.specs.Starts.{IsOpen};
ghost use Rattle.node_at.specs.State.{IsNode, seen};
ghost use Rattle.node_at.specs.declared.shrink.Shrunk.TheVariants.{NoMemory};

use crate::node::Node;
use crate::size::compacted_size;
use decision_log::shrink::{shrink, shrinks_the_same};
use journal_at::journal::Compact;
use record_bytes::write::are_bodies;
use site_model::site::Site;
use std::alloc::Global;

/// A journal of fewer bytes is left as it is.
pub const SHRUNK_FROM: u64 = 65_536;

/// What became of the journal at the end of a turn.
#[derive(Clone, Copy, Debug, PartialEq, Eq)]
pub enum Shrunk {
    /// It wasn't due to be written anew, or the node has halted.
    NotDue,
    /// It was written anew, without its dead records.
    Done,
    /// A call of the disk failed, and it is as before.
    Kept,
    /// There was no memory, and it is as before.
    NoMemory,
}

impl Node {
    /// Whether the node goes on and the live file, up to and with its last gate, is long, and at least twice as long as it
    /// needs to be.
    fn is_due(&self) -> bool
        ensures yes { result ≡ true → IsDue (seen self.now) }
        ensures no { result ≡ false → IsDue (seen self.now) → ⊥ }
    {
        if self.halted {
            return false;
        }
        let size = self.journal.end() + 1;
        if size < SHRUNK_FROM {
            return false;
        }
        if self.journal.generation() == u32::MAX {
            return false;
        }
        compacted_size(&self.kept).saturating_mul(2) <= size
    }

    /// What a compaction means for the node.
    fn compacted(&mut self, ended: Compact) -> Shrunk
        ensures result { result ≡ shrunk_by ended }
        ensures seen { seen self.new ≡ record (seen self.old) { halted = halted_by ended self.old.halted } }
        ensures role { self.new.role ≡ self.old.role }
    {
        match ended {
            Compact::Done => Shrunk::Done,
            Compact::Kept => Shrunk::Kept,
            Compact::Full => Shrunk::NotDue,
            Compact::Unsure => {
                self.halted = true;
                Shrunk::NotDue
            }
        }
    }

    fn shrink<S: Site>(&mut self, alloc: Global, site: &mut S) -> Shrunk
        requires node { IsNode (seen self.old) }
        ensures shrinks { Shrinks result (seen self.old) (seen self.new) (S.told site.old) (S.told site.new) }
        ensures stays { (rs : List Record) → IsOpen Two rs self.old.journal (S.told site.old) → known self.old.kept ≡ kept_of Two rs
            → Stays rs (seen self.new) (S.told site.old) (S.told site.new) }
        ensures nothing { (IsDue (seen self.old) → ⊥) → site.new ≡ site.old }
        ensures memory { result ≡ NoMemory → site.new ≡ site.old }
        ensures node { IsNode (seen self.new) }
        ensures role { self.new.role ≡ self.old.role }
        ensures counted { Counted (S.told site.old) (S.told site.new) }
    {
        are_bodies();
        shrinks_the_same();
        if !self.is_due() {
            return Shrunk::NotDue;
        }
        match shrink(alloc, &mut self.journal, site, &self.kept) {
            Ok(ended) => self.compacted(ended),
            Err(_) => Shrunk::NoMemory,
        }
    }

    /// Writes the journal anew, without its dead records, where it is long and at least twice as long as it needs to be. A
    /// turn does so at its end.
    ///
    /// Memory is taken before the first call of the disk. Where a call that opens the new file's gate fails, the node has
    /// halted.
    pub(crate) fn shrink_if_due<S: Site>(&mut self, alloc: Global, site: &mut S) -> Shrunk
        requires node { IsNode (seen self.old) }
        ensures shrinks { Shrinks result (seen self.old) (seen self.new) (S.told site.old) (S.told site.new) }
        ensures stays { (rs : List Record) → IsOpen Two rs self.old.journal (S.told site.old) → known self.old.kept ≡ kept_of Two rs
            → Stays rs (seen self.new) (S.told site.old) (S.told site.new) }
        ensures nothing { (IsDue (seen self.old) → ⊥) → site.new ≡ site.old }
        ensures memory { result ≡ NoMemory → site.new ≡ site.old }
        ensures told { self.new.shrunk ≡ result }
        ensures node { IsNode (seen self.new) }
        ensures role { self.new.role ≡ self.old.role }
        ensures counted { Counted (S.told site.old) (S.told site.new) }
    {
        let shrunk = self.shrink(alloc, site);
        self.shrunk = shrunk;
        shrunk
    }

    /// What became of the journal at the end of the last turn.
    pub fn shrunk(&self) -> Shrunk
        ensures { result ≡ self.now.shrunk }
    {
        self.shrunk
    }
}
