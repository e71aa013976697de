//! Records that are read.

ghost use Rattle.std.specs.Prelude.{◌↔◌, IsTrue};
ghost use Rattle.record_bytes.specs.RecordReaders.{IsAnswer, Spells};
ghost use Rattle.record_bytes.specs.Versions.{AreApart, IsOfVersion};

use crate::cursor::{Cursor, ReadFault};
use at_base::record::Record;
use at_base::well_formed::is_well_formed;
use journal_at::version::Version;
use std::alloc::Global;

/// The most seats of a record in version 1.
pub const MOST_OLD_SEATS: usize = 64;

/// No body is that of two records.

pub fn are_apart()
    ensures { AreApart }
{}

/// Whether the version has the record.
pub fn is_of_version(version: Version, entry: &Record) -> bool
    ensures { IsTrue result ↔ IsOfVersion version entry.now }
{
    match version {
        Version::Two => true,
        Version::One => match entry {
            Record::Voted { seats, .. } => seats.as_slice().len() <= MOST_OLD_SEATS,
            Record::Decided { seats, .. } => {
                let count = seats.as_slice().len();
                1 <= count && count <= MOST_OLD_SEATS
            }
            Record::Done { .. } => false,
            Record::Start { .. }
            | Record::LeafPrepared { .. }
            | Record::LeafCommitted { .. }
            | Record::LeafAborted { .. }
            | Record::SubCommitted { .. }
            | Record::Ended { .. } => true,
        },
    }
}

/// The record that all bytes spell, whatever its bounds.
#[tactic(auto, using(crate::proofs::Uniqueness::all_spelled, crate::proofs::Uniqueness::none_spelled, crate::proofs::Uniqueness::more_behind, crate::proofs::Uniqueness::empty))]
fn spelled(alloc: Global, body: &[u8]) -> Result<Record, ReadFault>
    ensures { Spells result body.now }
{
    let Some((tag, rest)) = body.split_first() else {
        return Err(ReadFault::Misspelled);
    };
    let mut cursor = Cursor { rest };
    match cursor.fields(alloc, *tag) {
        Ok(entry) => {
            if !cursor.rest.is_empty() {
                return Err(ReadFault::Misspelled);
            }
            Ok(entry)
        }
        Err(fault) => Err(fault),
    }
}

/// The record that a body of a file of this version is.
#[tactic(auto, using(crate::proofs::Uniqueness::is_record, crate::proofs::Uniqueness::unformed, crate::proofs::Uniqueness::unallowed, crate::proofs::Uniqueness::unspelled))]
pub fn read_record(alloc: Global, version: Version, body: &[u8]) -> Result<Record, ReadFault>
    ensures { IsAnswer version result body.now }
{
    match spelled(alloc, body) {
        Ok(entry) => {
            if !is_well_formed(&entry) {
                return Err(ReadFault::Misspelled);
            }
            if !is_of_version(version, &entry) {
                return Err(ReadFault::Misspelled);
            }
            Ok(entry)
        }
        Err(fault) => Err(fault),
    }
}
