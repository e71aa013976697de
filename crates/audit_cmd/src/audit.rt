//! The command `audit`.

ghost use Rattle.std.specs.Prelude.{ℕ, ◌≡◌, ◌≢◌, ◌+◌, ◌<◌, ◌≤◌, IsTrue, IfSome, nat_eq, length, take, ◌∷◌, []};
ghost use Rattle.std.specs.Io.KnownBytes.{Appends};
ghost use Rattle.std.specs.List.{list_any};
ghost use Rattle.site_model.specs.Counts.{capped, RisesBy, Rose};
ghost use Rattle.audit_cmd.specs.Audits.{IsAudited, IsAuditedInPart};

use crate::audited::Audited;
use crate::report::report;
use site_model::sink::{Sink, write_all};
use site_model::source::{ReadFault, Source, read_all};
use std::alloc::Global;

/// The source failed.
pub const SOURCE_FAILED: u8 = 4;

/// The sink failed.
pub const SINK_FAILED: u8 = 5;

/// Want of memory.
pub const NO_MEMORY: u8 = 9;

/// The source has more than 1,048,576 bytes.
pub const TOO_LONG: u8 = 10;

/// Writes what was made in memory, and gives its status.
#[tactic(auto, using(crate::proofs::Printed::with_five, crate::proofs::Printed::not_five))]
fn print<K: Sink>(sink: &mut K, audited: &Audited) -> u8
    requires { IsTrue (list_any (nat_eq audited.now.status) (0 ∷ 3 ∷ 7 ∷ 13 ∷ 14 ∷ [])) }
    ensures statuses { IsTrue (list_any (nat_eq result) (0 ∷ 3 ∷ 5 ∷ 7 ∷ 13 ∷ 14 ∷ [])) }
    ensures cause { result ≡ 5 → Rose (K.faults sink.old) (K.faults sink.new) }
    ensures all { result ≢ 5 → (result ≡ audited.now.status) × Appends (K.contents sink.old) (K.contents sink.new) audited.now.text }
    ensures part { (n : ℕ) × ((n ≤ length audited.now.text) × Appends (K.contents sink.old) (K.contents sink.new) (take n audited.now.text)) }
{
    match write_all(sink, audited.as_slice()) {
        Ok(()) => audited.status(),
        Err(_) => SINK_FAILED,
    }
}

/// Reads the source, prints what an audit makes of it, and gives the status that the process ends with.
///
/// The source holds a line `journal BASE HEX0 HEX1` for each node, 1 to 8: its base, and the two files of its journal in hexadecimal,
/// `-` for an empty one. 0: no two outcomes differ that are recorded under one transaction. 13: some differ. 14: the superiors of a
/// transaction come back to it. 3: a line is bad. 7: files are no journal. All that is printed is made in memory before the first write.
#[tactic(auto, using(crate::proofs::Printed::status_of, crate::proofs::Printed::with_reads, crate::proofs::Printed::all_given, crate::proofs::Printed::all_printed, crate::proofs::Printed::part_printed))]
pub fn audit<S: Source, K: Sink>(alloc: Global, source: &mut S, sink: &mut K) -> u8
    ensures statuses { IsTrue (list_any (nat_eq result) (0 ∷ 3 ∷ 4 ∷ 5 ∷ 7 ∷ 9 ∷ 10 ∷ 13 ∷ 14 ∷ [])) }
    ensures source_failed { result ≡ 4 → Rose (S.faults source.old) (S.faults source.new) }
    ensures sink_failed { result ≡ 5 → Rose (K.faults sink.old) (K.faults sink.new) }
    ensures too_long { result ≡ 10 → capped (S.given source.old + 1048577) ≤ S.given source.new }
    ensures not_longer { S.given source.old + 1048576 < S.given source.new → result ≡ 10 }
    ensures longer { result ≡ 10 → IfSome (S.left source.old) (λ input. 1048576 < length input) }
    ensures whole { IsTrue (list_any (nat_eq result) (0 ∷ 3 ∷ 5 ∷ 7 ∷ 13 ∷ 14 ∷ [])) → IfSome (S.left source.old) (λ input. RisesBy (length input) (S.given source.old) (S.given source.new)) }
    ensures quiet { IsTrue (list_any (nat_eq result) (4 ∷ 9 ∷ 10 ∷ [])) → Appends (K.contents sink.old) (K.contents sink.new) [] }
    ensures ended { IsTrue (list_any (nat_eq result) (0 ∷ 3 ∷ 7 ∷ 13 ∷ 14 ∷ [])) → IfSome (S.left source.old) (λ input. IsAudited input (K.contents sink.old) (K.contents sink.new) result) }
    ensures cut { result ≡ 5 → IfSome (S.left source.old) (λ input. IsAuditedInPart input (K.contents sink.old) (K.contents sink.new)) }
{
    let bytes = match read_all(alloc, source) {
        Ok(bytes) => bytes,
        Err(ReadFault::NoMemory) => return NO_MEMORY,
        Err(ReadFault::Failed) => return SOURCE_FAILED,
        Err(ReadFault::TooLong) => return TOO_LONG,
    };
    match report(alloc, bytes.as_slice()) {
        Ok(audited) => print(sink, &audited),
        Err(_) => NO_MEMORY,
    }
}
