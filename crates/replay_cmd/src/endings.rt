//! How a world ended, on a line.

ghost use Rattle.std.specs.Prelude.{◌≡◌, ◌++◌, OnOk};
ghost use Rattle.at_base.specs.declared.outs.Ending.TheVariants.{Committed, Aborted, Lost};
ghost use Rattle.world_laws.specs.Runs.{world_of};
ghost use Rattle.replay_cmd.specs.ReportOf.{ended, ended_so, ends_so, is_ending, summed};

use crate::lines::Lines;
use at_base::notice::Kind;
use at_base::outs::{Effect, Ending};
use std::alloc::{AllocError, Global};
use world_laws::posts::NodeEffect;
use world_laws::world::World;

fn is_ending(a: Ending, b: Ending) -> bool
    ensures { result ≡ is_ending a b }
{
    match (a, b) {
        (Ending::Committed, Ending::Committed) => true,
        (Ending::Aborted, Ending::Aborted) => true,
        (Ending::Lost, Ending::Lost) => true,
        _ => false,
    }
}

/// Whether a subordinate or a durable leaf ended so.
fn ends_so(how: Ending, effect: &Effect) -> bool
    ensures { result ≡ ends_so how effect.now }
{
    match effect {
        Effect::Sub { what, .. } => is_ending(how, *what),
        Effect::Leaf {
            kind: Kind::Durable,
            what,
            ..
        } => is_ending(how, *what),
        Effect::Leaf { .. } | Effect::Root { .. } | Effect::Told { .. } => false,
    }
}

/// How many subordinates and durable leaves ended so.
fn ended_so(how: Ending, effects: &[NodeEffect]) -> usize
    ensures { result ≡ ended_so how effects.now }
{
    let mut count = 0;
    for effect in effects {
        if ends_so(how, &effect.what) {
            count += 1;
        }
    }
    count
}

/// How many subordinates and durable leaves ended in each way.
struct Ends {
    committed: usize,
    aborted: usize,
    lost: usize,
}

fn ends_in(world: &World) -> Ends
    ensures committed { result.committed ≡ ended_so Committed (world_of world.now).happened }
    ensures aborted { result.aborted ≡ ended_so Aborted (world_of world.now).happened }
    ensures lost { result.lost ≡ ended_so Lost (world_of world.now).happened }
{
    let committed = ended_so(Ending::Committed, world.effects());
    let aborted = ended_so(Ending::Aborted, world.effects());
    let lost = ended_so(Ending::Lost, world.effects());
    Ends {
        committed,
        aborted,
        lost,
    }
}

/// Adds the last line of a report.
pub fn push_ended(alloc: Global, lines: &mut Lines, world: &World) -> Result<(), AllocError>
    ensures { OnOk result (lines.new ≡ lines.old ++ ended (world_of world.now)) }
{
    let Ends {
        committed,
        aborted,
        lost,
    } = ends_in(world);
    lines.push_end(alloc, world.all_posted().len(), committed, aborted, lost)
}

/// Adds the line of a world of so many lines that were made of a seed.
pub fn push_summed(
    alloc: Global,
    lines: &mut Lines,
    steps: u16,
    world: &World,
) -> Result<(), AllocError>
    ensures { OnOk result (lines.new ≡ lines.old ++ summed steps (world_of world.now)) }
{
    let Ends {
        committed,
        aborted,
        lost,
    } = ends_in(world);
    let messages = world.all_posted().len();
    lines.push_summary(alloc, steps, messages, committed, aborted, lost)
}
