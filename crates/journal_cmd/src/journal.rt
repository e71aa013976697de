//! The command.

ghost use Rattle.std.specs.Prelude.{ℕ, ◌≡◌, ◌≢◌, ◌≤◌, ◌⊎◌, ◌∷◌, [], Some, IsTrue, length, nat_eq, take};
ghost use Rattle.std.specs.Io.KnownBytes.{Appends};
ghost use Rattle.std.specs.List.{list_any};
ghost use Rattle.journal_page.specs.HexLines.{hex_line};
ghost use Rattle.site_model.specs.Counts.{Rose};
ghost use Rattle.journal_cmd.specs.Folders.{Held};
ghost use Rattle.journal_cmd.specs.Pairs.{IsMissing};
ghost use Rattle.journal_cmd.specs.Shown.{IsLineInPart, IsLineOf, IsLineOfInPart, IsPrinted, IsPrintedInPart, IsShown, IsShownInPart, status_if};

use crate::files::Files;
use crate::pair::{Pair, PairFault, read_pair};
use journal_page::hex_line::hex_line;
use journal_page::page::Page;
use journal_page::report::page;
use site_model::sink::{Sink, write_all};
use std::alloc::Global;

/// The journal was printed.
pub const DONE: u8 = 0;

/// The sink failed.
pub const SINK_FAILED: u8 = 5;

/// The first file isn't there, or opening or reading one of them failed.
pub const UNREAD: u8 = 6;

/// The files are no journal; so was printed.
pub const BAD: u8 = 7;

/// Want of memory.
pub const NO_MEMORY: u8 = 9;

fn status_of(is_bad: bool) -> u8
    ensures { result ≡ status_if is_bad }
{
    if is_bad { BAD } else { DONE }
}

/// Writes what was made in memory, and gives the status.
fn print<K: Sink>(sink: &mut K, text: &[u8], is_bad: bool) -> u8
    ensures statuses { IsTrue (list_any (nat_eq result) (0 ∷ 5 ∷ 7 ∷ [])) }
    ensures cause { result ≡ 5 → Rose (K.faults sink.old) (K.faults sink.new) }
    ensures all { result ≢ 5 → Appends (K.contents sink.old) (K.contents sink.new) text.now }
    ensures ended { result ≢ 5 → result ≡ status_if is_bad }
    ensures part { (n : ℕ) × ((n ≤ length text.now) × Appends (K.contents sink.old) (K.contents sink.new) (take n text.now)) }
{
    match write_all(sink, text) {
        Ok(()) => status_of(is_bad),
        Err(_) => SINK_FAILED,
    }
}

/// Prints what a journal's files stand for.
#[tactic(auto, using(crate::proofs::Shows::is_printed, crate::proofs::Shows::is_printed_in_part))]
fn print_page<K: Sink>(alloc: Global, sink: &mut K, pair: &Pair) -> u8
    ensures statuses { IsTrue (list_any (nat_eq result) (0 ∷ 5 ∷ 7 ∷ 9 ∷ [])) }
    ensures cause { result ≡ 5 → Rose (K.faults sink.old) (K.faults sink.new) }
    ensures quiet { result ≡ 9 → sink.new ≡ sink.old }
    ensures printed { result ≢ 5 → result ≢ 9 → IsPrinted (record { first = pair.now.first.items; second = pair.now.second.items }) (K.contents sink.old) (K.contents sink.new) result }
    ensures part { result ≡ 5 → IsPrintedInPart (record { first = pair.now.first.items; second = pair.now.second.items }) (K.contents sink.old) (K.contents sink.new) }
{
    match page(alloc, pair.first.as_slice(), pair.second.as_slice()) {
        Ok(page) => print(sink, page.as_slice(), page.is_bad()),
        Err(_) => NO_MEMORY,
    }
}

/// Prints the line of a journal's files for an audit.
#[tactic(auto, using(crate::proofs::Shows::is_line_in_part))]
fn print_line<K: Sink>(alloc: Global, sink: &mut K, base: &str, pair: &Pair) -> u8
    ensures statuses { IsTrue (list_any (nat_eq result) (0 ∷ 5 ∷ 9 ∷ [])) }
    ensures cause { result ≡ 5 → Rose (K.faults sink.old) (K.faults sink.new) }
    ensures quiet { result ≡ 9 → sink.new ≡ sink.old }
    ensures printed { result ≡ 0 → Appends (K.contents sink.old) (K.contents sink.new) (hex_line base.now (record { first = pair.now.first.items; second = pair.now.second.items })) }
    ensures part { result ≡ 5 → IsLineInPart base.now (record { first = pair.now.first.items; second = pair.now.second.items }) (K.contents sink.old) (K.contents sink.new) }
{
    match hex_line(alloc, base, pair.first.as_slice(), pair.second.as_slice()) {
        Ok(line) => print(sink, line.as_bytes(), false),
        Err(_) => NO_MEMORY,
    }
}

/// `journal FILE`: prints what the journal of this name stands for, and gives the status that the process ends with.
///
/// A second file that isn't there counts as empty, as at a start. A first file that isn't there is status 6, though a start
/// would make it. Nothing is written but to the sink.
#[tactic(auto, using(crate::proofs::Shows::is_shown, crate::proofs::Shows::is_shown_in_part))]
pub fn journal<F: Files, K: Sink>(alloc: Global, name: &str, files: &mut F, sink: &mut K) -> u8
    ensures statuses { IsTrue (list_any (nat_eq result) (0 ∷ 5 ∷ 6 ∷ 7 ∷ 9 ∷ [])) }
    ensures unread { result ≡ 6 → IsMissing (F.told files.old) name.now ⊎ Rose (F.faults files.old) (F.faults files.new) }
    ensures sink_failed { result ≡ 5 → Rose (K.faults sink.old) (K.faults sink.new) }
    ensures quiet { IsTrue (list_any (nat_eq result) (6 ∷ 9 ∷ [])) → sink.new ≡ sink.old }
    ensures printed { (held : Held) → F.told files.old ≡ Some held → IsTrue (list_any (nat_eq result) (0 ∷ 7 ∷ [])) → IsShown held name.now (K.contents sink.old) (K.contents sink.new) result }
    ensures part { (held : Held) → F.told files.old ≡ Some held → result ≡ 5 → IsShownInPart held name.now (K.contents sink.old) (K.contents sink.new) }
    ensures kept { F.told files.new ≡ F.told files.old }
{
    match read_pair(alloc, files, name) {
        Ok(pair) => print_page(alloc, sink, &pair),
        Err(PairFault::NoMemory) => NO_MEMORY,
        Err(PairFault::Unread) => UNREAD,
    }
}

/// `journal --hex BASE FILE`: prints the line of the journal of this name for an audit, and gives the status.
///
/// Whether the files are a journal isn't looked at.
#[tactic(auto, using(crate::proofs::Shows::is_line, crate::proofs::Shows::is_line_of_in_part))]
pub fn journal_line<F: Files, K: Sink>(
    alloc: Global,
    base: &str,
    name: &str,
    files: &mut F,
    sink: &mut K,
) -> u8
    ensures statuses { IsTrue (list_any (nat_eq result) (0 ∷ 5 ∷ 6 ∷ 9 ∷ [])) }
    ensures unread { result ≡ 6 → IsMissing (F.told files.old) name.now ⊎ Rose (F.faults files.old) (F.faults files.new) }
    ensures sink_failed { result ≡ 5 → Rose (K.faults sink.old) (K.faults sink.new) }
    ensures quiet { IsTrue (list_any (nat_eq result) (6 ∷ 9 ∷ [])) → sink.new ≡ sink.old }
    ensures printed { (held : Held) → F.told files.old ≡ Some held → result ≡ 0 → IsLineOf base.now held name.now (K.contents sink.old) (K.contents sink.new) }
    ensures part { (held : Held) → F.told files.old ≡ Some held → result ≡ 5 → IsLineOfInPart base.now held name.now (K.contents sink.old) (K.contents sink.new) }
    ensures kept { F.told files.new ≡ F.told files.old }
{
    match read_pair(alloc, files, name) {
        Ok(pair) => print_line(alloc, sink, base, &pair),
        Err(PairFault::NoMemory) => NO_MEMORY,
        Err(PairFault::Unread) => UNREAD,
    }
}
