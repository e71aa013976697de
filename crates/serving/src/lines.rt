//! The lines that are printed.

ghost use Rattle.std.specs.Prelude.{ℕ, List, ◌≡◌, ◌++◌, ◌≤◌, ◌<◌, Err, IfOk, OnErr, OnOk, length, string_bytes};
ghost use Rattle.site_model.specs.Counts.{Rose};
ghost use Rattle.serving.specs.Lines.{effect_line, effect_lines, fault_text, item_line, leaf_words, no_journal_line, refused_line, up_line};
ghost use Rattle.serving.specs.Printing.{Printing};
ghost use Rattle.serving.specs.Requests.{printed};
ghost use Rattle.serving.specs.declared.lines.Unprinted.TheVariants.{SinkFailed};

use crate::answer::Answer;
use at_base::id::Id;
use at_base::notice::Kind;
use at_base::outs::{Effect, Ending};
use effect_words::{ending_word, refusal_word, told_word};
use node_at::fault::StartFault;
use node_at::local::Locally;
use site_model::sink::{Sink, write_all};
use std::alloc::{AllocError, Global};

/// Why something wasn't printed to its end.
#[derive(Clone, Copy, Debug, PartialEq, Eq)]
pub enum Unprinted {
    /// Want of memory.
    NoMemory,
    /// The sink failed.
    SinkFailed,
}

/// The node is up, in this incarnation.
#[tactic(auto, unfolding(crate::specs::Lines::up_line))]
pub fn up_line(alloc: Global, incarnation: u32) -> Result<String, AllocError>
    ensures { IfOk result (λ text. string_bytes text ≡ up_line incarnation) }
{
    format!(in alloc; "up {incarnation}\n")
}

/// Room for one line of what happened. The longest, of a leaf whose id has twice ten digits, has 40 bytes.
pub fn line_room(alloc: Global) -> Result<String, AllocError> {
    String::with_capacity(alloc, 64)
}

/// Makes it an item's line.
#[tactic(auto, unfolding(crate::specs::Lines::item_line))]
fn make_item(line: &mut String, item: &str, id: Id, words: &str) -> Result<(), AllocError>
    ensures { OnOk result (string_bytes line.new ≡ item_line item.now id words.now) }
{
    line.clear();
    write!(line, "{item} {id} {words}\n")
}

/// A leaf's kind before how it ended.
#[tactic(auto, unfolding(crate::specs::Lines::leaf_words))]
fn leaf_words(kind: Kind, what: Ending) -> &'static str
    ensures { result.now ≡ leaf_words kind what }
{
    match kind {
        Kind::Volatile => match what {
            Ending::Committed => "v committed",
            Ending::Aborted => "v aborted",
            Ending::Lost => "v lost",
        },
        Kind::Durable => match what {
            Ending::Committed => "d committed",
            Ending::Aborted => "d aborted",
            Ending::Lost => "d lost",
        },
    }
}

/// Makes it the line of what happened for good on the node.
fn make_effect(line: &mut String, effect: &Effect) -> Result<(), AllocError>
    ensures { OnOk result (string_bytes line.new ≡ effect_line effect.now) }
{
    match effect {
        Effect::Root { id, what } => make_item(line, "root", *id, ending_word(*what)),
        Effect::Sub { id, what } => make_item(line, "sub", *id, ending_word(*what)),
        Effect::Leaf { id, kind, what } => make_item(line, "leaf", *id, leaf_words(*kind, *what)),
        Effect::Told { id, what } => make_item(line, "told", *id, told_word(*what)),
    }
}

#[tactic(auto, unfolding(crate::specs::Lines::refused_line))]
fn make_refused(line: &mut String, word: &str) -> Result<(), AllocError>
    ensures { OnOk result (string_bytes line.new ≡ refused_line word.now) }
{
    line.clear();
    write!(line, "refused {word}\n")
}

/// Prints a line.
#[tactic(auto, using(crate::proofs::Sessions::partly, crate::proofs::Sessions::wholly))]
fn print_line<K: Sink>(line: &str, sink: &mut K) -> Result<(), Unprinted>
    ensures prints { Printing result line.now (K.contents sink.old) (K.contents sink.new) }
    ensures cause { result ≡ Err SinkFailed → Rose (K.faults sink.old) (K.faults sink.new) }
    ensures later { K.faults sink.old ≤ K.faults sink.new }
{
    match write_all(sink, line.as_bytes()) {
        Ok(()) => Ok(()),
        Err(_) => Err(Unprinted::SinkFailed),
    }
}

/// Prints what happened for good on the node.
#[tactic(auto, using(crate::proofs::Texts::effect_some, crate::proofs::Printings::wanting))]
fn print_effect<K: Sink>(line: &mut String, effect: &Effect, sink: &mut K) -> Result<(), Unprinted>
    ensures prints { Printing result (effect_line effect.now) (K.contents sink.old) (K.contents sink.new) }
    ensures cause { result ≡ Err SinkFailed → Rose (K.faults sink.old) (K.faults sink.new) }
    ensures later { K.faults sink.old ≤ K.faults sink.new }
{
    if make_effect(line, effect).is_err() {
        return Err(Unprinted::NoMemory);
    }
    print_line(line.as_str(), sink)
}

/// Prints line after line what happened for good on the node.
#[tactic(auto, using(crate::proofs::Printings::behind, crate::proofs::Printings::in_front))]
fn print_effects<K: Sink>(
    line: &mut String,
    effects: &[Effect],
    sink: &mut K,
) -> Result<(), Unprinted>
    ensures prints { Printing result (effect_lines effects.now) (K.contents sink.old) (K.contents sink.new) }
    ensures cause { result ≡ Err SinkFailed → Rose (K.faults sink.old) (K.faults sink.new) }
    ensures later { K.faults sink.old ≤ K.faults sink.new }
{
    for effect in effects {
        print_effect(line, effect, sink)?;
    }
    Ok(())
}

/// Prints why a request was refused.
#[tactic(auto, using(crate::proofs::Texts::refused_some, crate::proofs::Printings::wanting))]
fn print_refused<K: Sink>(line: &mut String, word: &str, sink: &mut K) -> Result<(), Unprinted>
    ensures prints { Printing result (refused_line word.now) (K.contents sink.old) (K.contents sink.new) }
    ensures cause { result ≡ Err SinkFailed → Rose (K.faults sink.old) (K.faults sink.new) }
    ensures later { K.faults sink.old ≤ K.faults sink.new }
{
    if make_refused(line, word).is_err() {
        return Err(Unprinted::NoMemory);
    }
    print_line(line.as_str(), sink)
}

/// Prints an answer and the effects that it came with, in lines that are made one after another where `line` is.
pub fn print<K: Sink>(
    line: &mut String,
    answer: &Answer,
    effects: &[Effect],
    sink: &mut K,
) -> Result<(), Unprinted>
    ensures prints { Printing result (printed answer.now effects.now) (K.contents sink.old) (K.contents sink.new) }
    ensures cause { result ≡ Err SinkFailed → Rose (K.faults sink.old) (K.faults sink.new) }
    ensures later { K.faults sink.old ≤ K.faults sink.new }
{
    match answer {
        Answer::Local(Locally::Refused { why }) => print_refused(line, refusal_word(*why), sink),
        Answer::Stale => print_refused(line, "state", sink),
        Answer::Local(_) | Answer::Turn(_) => print_effects(line, effects, sink),
    }
}

/// The files are no journal.
#[tactic(auto, unfolding(crate::specs::Lines::no_journal_line))]
fn no_journal_line(alloc: Global) -> Result<String, AllocError>
    ensures { IfOk result (λ text. string_bytes text ≡ no_journal_line) }
{
    format!(in alloc; "no journal\n")
}

/// What is printed where the node wasn't started. Memory is wanted only for something.
#[tactic(auto, using(crate::proofs::Texts::bad_some, crate::proofs::Texts::no_journal_some), unfolding(crate::specs::Lines::bad_line))]
pub fn fault_text(alloc: Global, fault: &StartFault) -> Result<String, AllocError>
    ensures is { IfOk result (λ text. string_bytes text ≡ fault_text fault.now) }
    ensures some { OnErr result (0 < length (fault_text fault.now)) }
{
    match fault {
        StartFault::Bad { file: 0, place } => format!(in alloc; "bad journal at {}\n", *place),
        StartFault::Bad { place, .. } => format!(in alloc; "bad journal file 1 at {}\n", *place),
        StartFault::NoJournal => no_journal_line(alloc),
        StartFault::NoMemory | StartFault::Disk | StartFault::Spent | StartFault::Full => Ok(
            String::new(alloc),
        ),
    }
}
