//! A book that is recovered.

ghost use Rattle.std.specs.Prelude.{List, ◌≡◌, ◌<◌, ◌++◌, ◌∷◌, [], IfOk};
ghost use Rattle.at_base.specs.declared.record.Record.{Record};
ghost use Rattle.at_base.specs.declared.record.Record.TheVariants as records;
ghost use Rattle.at_model.specs.Recovery.{recover};
ghost use Rattle.decision_log.specs.KeptState.{known};
ghost use Rattle.decision_log.specs.KeptRecords.{kept_of};
ghost use Rattle.journal_at.specs.declared.version.Version.TheVariants.{Two};

use at_base::text::Text;
use decision_log::fold::grows_by_one;
use decision_log::kept::Kept;
use interposition::book::Book;
use std::alloc::{AllocError, Global};

/// The book of a node that starts in this incarnation, which is greater than any before it: the model's recovery of all records
/// that the Kept was made of, and of the Start behind them.
///
/// The base has at most 1,024 bytes, each in 33 to 126.
pub fn recover(alloc: Global, base: &Text, kept: &Kept, start: u32) -> Result<Book, AllocError>
    requires later { (known kept.now).start < start }
    ensures { (rs : List Record) → known kept.now ≡ kept_of Two rs → IfOk result (λ book. book ≡ recover base.now (rs ++ records.Start start ∷ [])) }
{
    grows_by_one();
    Book::recover(alloc, base, kept.live(), kept.done(), start)
}
