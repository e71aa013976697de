//! What `make` prints.

ghost use Rattle.std.specs.Prelude.{◌≡◌, ◌≤◌, IsTrue, nat_eq, ◌∷◌, []};
ghost use Rattle.std.specs.Io.KnownBytes.{Appends};
ghost use Rattle.std.specs.List.{list_any};
ghost use Rattle.site_model.specs.Counts.{Rose};
ghost use Rattle.command_line.specs.Summaries.{IsSummed, IsSummedInPart};

use crate::run::{DONE, NO_MEMORY, SINK_FAILED};
use net_plays::laws::made_are_played;
use replay_cmd::summary::summary;
use site_model::sink::{Sink, write_all};
use std::alloc::Global;

/// Prints how so many lines that are made of a seed come out, and gives the status.
#[tactic(auto, using(crate::proofs::Summaries::is_summed, crate::proofs::Summaries::is_summed_in_part))]
pub(crate) fn make<K: Sink>(alloc: Global, seed: u64, steps: u16, sink: &mut K) -> u8
    requires { steps ≤ 9999 }
    ensures statuses { IsTrue (list_any (nat_eq result) (0 ∷ 5 ∷ 9 ∷ [])) }
    ensures cause { result ≡ 5 → Rose (K.faults sink.old) (K.faults sink.new) }
    ensures summed { result ≡ 0 → IsSummed seed steps (K.contents sink.old) (K.contents sink.new) }
    ensures part { result ≡ 5 → IsSummedInPart seed steps (K.contents sink.old) (K.contents sink.new) }
    ensures quiet { result ≡ 9 → Appends (K.contents sink.old) (K.contents sink.new) [] }
{
    made_are_played();
    let line = match summary(alloc, seed, steps) {
        Ok(line) => line,
        Err(_) => return NO_MEMORY,
    };
    match write_all(sink, line.as_slice()) {
        Ok(()) => DONE,
        Err(_) => SINK_FAILED,
    }
}
