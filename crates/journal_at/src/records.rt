//! The records of a journal.

ghost use Rattle.std.specs.Prelude.{◌≡◌, drop};
ghost use Rattle.journal_at.specs.Frames.{bodies_of};
ghost use Rattle.journal_at.specs.Scans.{records_in};

use crate::read::Placed;
use crate::version::Version;

/// The records of a journal that was read, in order, and the version of the file that they come from.
#[derive(Drop)]
pub struct Records {
    pub(crate) version: Version,
    pub(crate) start: usize,
    pub(crate) items: Vec<Placed>,
}

impl Records {
    /// The version.
    pub fn version(&self) -> Version
        ensures { result ≡ self.now.version }
    {
        self.version
    }

    /// The records, each with the place of its gate.
    pub fn items(&self) -> &[Placed]
        ensures bodies { bodies_of result.now ≡ records_in self.now }
        ensures is { result.now ≡ drop self.now.start self.now.items.items }
    {
        let all = self.items.as_slice();
        let start = self.start.min(all.len());
        let (_, records) = all.split_at(start);
        records
    }
}
