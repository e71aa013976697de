//! What is left behind an event that was read.

ghost use Rattle.std.specs.Prelude.{◌≡◌, IfOk, length, take};
ghost use Rattle.site_memory.specs.Devices.{calls_in};
ghost use Rattle.site_memory.specs.Entries.{mades};
ghost use Rattle.mirrored_nets.specs.Took.{FellBack, LeftSo, kept_of};
ghost use Rattle.call_readings.specs.Reads.{came_to};
ghost use Rattle.asked_nets.specs.Behind.{goes_anew};
ghost use Rattle.asked_nets.specs.Unmet.{IsntApart};

use crate::fault::Undone;
use call_readings::became::Became;
use memory_net::host::Host;
use mirrored_nets::came::Came;
use node_at::node::Node;
use site_memory::arm::Choice;
use site_memory::entry::Entry;
use site_memory::machine::MemSite;

/// What became of the node, but for where.
pub(crate) fn came_to(became: Became) -> Came
    ensures { result ≡ came_to became }
{
    match became {
        Became::Stays => Came::Stays,
        Became::Falls { kept, choice } | Became::FallsAnew { kept, choice } => Came::Falls {
            kept,
            choice,
        },
        Became::Halts | Became::HaltsAnew => Came::Halts,
    }
}

/// Whether it went down behind its steps, as its journal was written anew.
pub(crate) fn goes_anew(became: Became) -> bool
    ensures { result ≡ goes_anew became }
{
    match became {
        Became::Stays | Became::Falls { .. } | Became::Halts => false,
        Became::FallsAnew { .. } | Became::HaltsAnew => true,
    }
}

/// A machine that went back to behind so many calls of an event, before which it had made `before`, or all that it made; and crashed there.
pub(crate) fn fallen_back(
    site: MemSite,
    before: usize,
    kept: usize,
    choice: Choice,
) -> Result<MemSite, Undone>
    ensures fell { IfOk result (λ new. (old : MemSite) → before ≡ length (calls_in old.device) → FellBack old site kept choice new) }
    ensures memory { IsntApart result }
{
    let calls = before.saturating_add(kept).min(site.calls());
    let mut site = site;
    let Ok(()) = site.go_back(calls) else {
        return Err(Undone::NoMemory);
    };
    site.crash(choice);
    Ok(site)
}

/// The first so many.
fn first(calls: &[Entry], kept: usize) -> &[Entry]
    ensures { result.now ≡ take kept calls.now }
{
    match calls.get(..kept) {
        Some(some) => some,
        None => calls,
    }
}

/// The calls that count.
pub(crate) fn kept_of(came: Came, calls: &[Entry]) -> &[Entry]
    ensures { mades result.now ≡ take (kept_of came (mades calls.now)) (mades calls.now) }
{
    match came {
        Came::Stays | Came::Halts => calls,
        Came::Falls { kept, .. } => first(calls, kept),
    }
}

/// The host behind an event.
pub(crate) fn left(came: Came, node: Node, site: MemSite, before: usize) -> Result<Host, Undone>
    ensures left { IfOk result (λ host. (old : MemSite) → before ≡ length (calls_in old.device) → LeftSo came node old site host) }
    ensures memory { IsntApart result }
{
    match came {
        Came::Stays => Ok(Host::of(Some(node), site)),
        Came::Falls { kept, choice } => {
            let site = fallen_back(site, before, kept, choice)?;
            Ok(Host::of(None, site))
        }
        Came::Halts => {
            let mut site = site;
            site.crash(Choice::Keep);
            Ok(Host::of(None, site))
        }
    }
}
