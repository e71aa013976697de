//! The calls that a machine made since an event began.

ghost use Rattle.std.specs.Prelude.{◌≡◌, ◌+◌, ◌≤◌, ◌<◌, ◌^◌, IfOk, length, take};
ghost use Rattle.site_memory.specs.Entries.{mades};
ghost use Rattle.mirrored_nets.specs.Fates.{failures, refusals};
ghost use Rattle.mirrored_nets.specs.Took.{Adds, IsTriedLine};
ghost use Rattle.node_at.specs.declared.shrink.Shrunk.TheVariants.{NoMemory};
ghost use Rattle.node_at.specs.declared.turn.Turned.TheVariants as turneds;
ghost use Rattle.asked_nets.specs.Counted.{IsCounted};
ghost use Rattle.asked_nets.specs.Unmet.{IsntApart};

use crate::fault::Undone;
use mirrored_nets::calls::{failures, refusals, since, tried};
use node_at::node::Node;
use node_at::shrink::Shrunk;
use node_at::turn::Turned;
use site_memory::entry::Entry;
use site_memory::machine::MemSite;

/// How many calls a machine has made, how many answers and posts failed, how many calls of its disk, and how many gates.
#[derive(Clone, Copy, Debug, PartialEq, Eq)]
pub(crate) struct Counts {
    pub(crate) calls: usize,
    sends: u64,
    disk: u64,
    gates: u64,
}

/// Its counts now.
pub(crate) fn counts_of(site: &MemSite) -> Counts
    ensures { IsCounted result site.now }
{
    Counts {
        calls: site.calls(),
        sends: site.failed_sends(),
        disk: site.failed_disk_calls(),
        gates: site.failed_gates(),
    }
}

/// Whether no answer and no post failed beside those among these calls.
fn counted(failed: u64, now: u64, calls: &[Entry]) -> Result<(), Undone>
    ensures counted { IfOk result (λ _. (now ≡ failed + failures (mades calls.now)) × (now < 2 ^ 63)) }
    ensures memory { IsntApart result }
{
    if now >= (1 << 63) || now < failed || now - failed != failures(calls) {
        return Err(Undone::NoMemory);
    }
    Ok(())
}

/// Whether no record was refused, or no gate left shut, beside those of whose calls one is among these.
fn refused(failed: u64, now: u64, calls: &[Entry]) -> Result<(), Undone>
    ensures memory { IsntApart result }
    ensures refused { IfOk result (λ _. (now ≤ failed + refusals (mades calls.now)) × (now < 2 ^ 63)) }
{
    if now >= (1 << 63) || now.saturating_sub(failed) > refusals(calls) {
        return Err(Undone::NoMemory);
    }
    Ok(())
}

/// The calls since, beside which no answer and no post failed, no record was refused and no gate left shut; nor was one refused for want of
/// memory while the call of another's gate failed.
pub(crate) fn made_since<'a>(before: &Counts, site: &'a MemSite) -> Result<&'a [Entry], Undone>
    ensures adds { IfOk result (λ calls. (old : MemSite) → IsCounted before.now old → Adds (mades calls.now) old site.now) }
    ensures memory { IsntApart result }
{
    let calls = since(site, before.calls);
    let disk = site.failed_disk_calls();
    let gates = site.failed_gates();
    counted(before.sends, site.failed_sends(), calls)?;
    refused(before.disk, disk, calls)?;
    refused(before.gates, gates, calls)?;
    refused(
        before.disk.saturating_add(before.gates),
        disk + gates,
        calls,
    )?;
    Ok(calls)
}

/// Whether the calls that come before the first step tried the interim line. Only for want of memory there is none of it.
fn spoke(lines: usize, calls: &[Entry]) -> Result<(), Undone>
    ensures spoke { IfOk result (λ _. IsTriedLine lines (take lines (mades calls.now)) × (lines ≤ 1)) }
    ensures memory { IsntApart result }
{
    if tried(calls, lines) {
        Ok(())
    } else {
        Err(Undone::NoMemory)
    }
}

/// Whether there was memory for a turn, also at its end, where the journal is written anew.
fn remembered(turned: Turned, node: &Node) -> Result<(), Undone>
    ensures room { IfOk result (λ _. turned ≡ turneds.NoRoom → ⊥) }
    ensures shrank { IfOk result (λ _. node.now.shrunk ≡ NoMemory → ⊥) }
    ensures memory { IsntApart result }
{
    if let Shrunk::NoMemory = node.shrunk() {
        return Err(Undone::NoMemory);
    }
    match turned {
        Turned::NoRoom => Err(Undone::NoMemory),
        _ => Ok(()),
    }
}

/// The calls of a turn, for which there was memory, as many of them before its first step as that says.
pub(crate) fn told<'a>(
    lines: usize,
    before: &Counts,
    turned: Turned,
    node: &Node,
    site: &'a MemSite,
) -> Result<&'a [Entry], Undone>
    ensures adds { IfOk result (λ calls. (old : MemSite) → IsCounted before.now old → Adds (mades calls.now) old site.now) }
    ensures spoke { IfOk result (λ calls. IsTriedLine lines (take lines (mades calls.now)) × (lines ≤ 1)) }
    ensures room { IfOk result (λ _. turned ≡ turneds.NoRoom → ⊥) }
    ensures shrank { IfOk result (λ _. node.now.shrunk ≡ NoMemory → ⊥) }
    ensures memory { IsntApart result }
{
    remembered(turned, node)?;
    let calls = made_since(before, site)?;
    spoke(lines, calls)?;
    Ok(calls)
}
