//! Starts, at one of whose calls a fault may come.

ghost use Rattle.std.specs.Prelude.{ℕ, List, ◌≡◌, IfOk, None, true};
ghost use Rattle.at_base.specs.declared.record.Record.{Record};
ghost use Rattle.at_model.specs.Recovery.{last_incarnation};
ghost use Rattle.decision_log.specs.Folds.{AreRecords};
ghost use Rattle.journal_at.specs.Scans.{records_in};
ghost use Rattle.site_memory.specs.Entries.{call_of, mades};
ghost use Rattle.site_memory.specs.Sites.{told_of};
ghost use Rattle.torn_appends.specs.TornAppends.{gate_stands, stands_behind};
ghost use Rattle.mirrored_nets.specs.DueStarts.{CanBegin, IsWant};
ghost use Rattle.mirrored_nets.specs.Kept.{is_write, kept_at, writes_at};
ghost use Rattle.mirrored_nets.specs.LeftStarts.{IsMarked, IsStanding, may_fail};
ghost use Rattle.mirrored_nets.specs.ToldMachines.{IsToldOf};
ghost use Rattle.mirrored_nets.specs.TookStart.{HasLast};
ghost use Rattle.asked_nets.specs.DidStart.{DidStart, ReadStart};
ghost use Rattle.asked_nets.specs.ReadSteps.{IsTold};
ghost use Rattle.asked_nets.specs.Stops.{stop_in};
ghost use Rattle.asked_nets.specs.Unmet.{IsntApart};
ghost use Rattle.asked_nets.specs.declared.fault.Undone.TheVariants.{Apart};

use crate::fault::Undone;
use crate::laws::tried_are_read;
use crate::left::fallen_back;
use crate::made::{counts_of, made_since};
use at_base::text::Text;
use decision_log::fold::{FoldFault, fold};
use journal_at::load::{LoadFault, load};
use journal_at::records::Records;
use memory_net::host::Host;
use memory_net::machine::begin;
use mirrored_nets::armed::Armed;
use mirrored_nets::laws::starts_fail_for_want;
use node_at::fault::StartFault;
use site_memory::arm::Choice;
use site_memory::entry::{Deed, Entry};
use site_memory::machine::MemSite;
use site_model::site::Site;
use std::alloc::Global;

/// Another machine, of which reads give the same.
fn copied(alloc: Global, site: &MemSite) -> Result<MemSite, Undone>
    ensures files { IfOk result (λ copy. (told_of copy).files ≡ (told_of site.now).files) }
    ensures memory { IsntApart result }
{
    let mut copy = MemSite::new(alloc);
    let Ok(()) = copy.write_at(0, 0, site.file(0)) else {
        return Err(Undone::NoMemory);
    };
    let Ok(()) = copy.write_at(1, 0, site.file(1)) else {
        return Err(Undone::NoMemory);
    };
    Ok(copy)
}

/// The last incarnation of the records that were read.
fn last_of(alloc: Global, found: &Records) -> Result<u32, Undone>
    ensures last { IfOk result (λ last. (rs : List Record) × AreRecords found.now.version rs (records_in found.now) × (last ≡ last_incarnation rs)) }
    ensures records { (rs : List Record) → AreRecords found.now.version rs (records_in found.now) → IsntApart result }
{
    match fold(alloc, found) {
        Ok(kept) => Ok(kept.start()),
        Err(FoldFault::NoMemory) => Err(Undone::NoMemory),
        Err(FoldFault::Bad { .. }) => Err(Undone::Apart),
    }
}

/// The last incarnation of the records that the files of a machine stand for, as they read. Nothing is done to the machine: a copy is read, of
/// which no call fails but for want of memory.
fn last_in(alloc: Global, site: &MemSite) -> Result<u32, Undone>
    ensures last { IfOk result (λ last. HasLast last site.now) }
    ensures stands { IsStanding site.now → IsntApart result }
{
    let mut copy = copied(alloc, site)?;
    match load(alloc, &mut copy, u32::MAX) {
        Ok((_journal, found)) => last_of(alloc, &found),
        Err(LoadFault::NoMemory | LoadFault::Disk) => Err(Undone::NoMemory),
        Err(LoadFault::Bad { .. }) => Err(Undone::Apart),
        Err(LoadFault::NoJournal) => Err(Undone::Apart),
    }
}

/// What the machine of a node that starts is told of an armed call: that, where its files have a Start; the first start of a node meets no fault.
pub(crate) fn told_by(alloc: Global, site: &MemSite, armed: Armed) -> Result<Armed, Undone>
    ensures told { IfOk result (λ told. IsTold armed site.now told) }
    ensures stands { IsStanding site.now → IsntApart result }
{
    if let Armed::No = armed {
        return Ok(Armed::No);
    }
    let last = last_in(alloc, site)?;
    if last == 0 { Ok(Armed::No) } else { Ok(armed) }
}

fn is_write(entry: &Entry) -> bool
    ensures { result ≡ is_write (call_of entry.now.deed) }
{
    match &entry.deed {
        Deed::Write { .. } => true,
        _ => false,
    }
}

/// Whether the call at that place is a write.
fn writes_at(calls: &[Entry], place: usize) -> bool
    ensures { result ≡ writes_at place (mades calls.now) }
{
    match calls.get(place) {
        Some(entry) => is_write(entry),
        None => false,
    }
}

/// How many calls are kept where the machine stops at the k-th of them: at a `Keep` that call was done, and at a `Fill` a write may have left
/// anything.
fn kept_at(calls: &[Entry], k: usize, choice: Choice) -> usize
    ensures { result ≡ kept_at (mades calls.now) k choice }
{
    let last = k.saturating_sub(1);
    match choice {
        Choice::Keep => k,
        Choice::Drop => last,
        Choice::Fill(_) => if writes_at(calls, last) { k } else { last },
    }
}

/// Whether a stop leaves a gate raised whose write isn't synced.
fn gate_stands(choice: Choice) -> bool
    ensures { result ≡ gate_stands choice }
{
    match choice {
        Choice::Keep => true,
        Choice::Drop => false,
        Choice::Fill(byte) => byte == 1,
    }
}

/// Whether a record stands behind a crash that comes behind so many calls of its append.
fn stands_behind(calls: usize, choice: Choice) -> bool
    ensures { result ≡ stands_behind calls choice }
{
    calls >= 4 || (calls >= 3 && gate_stands(choice))
}

/// How many of these calls are kept where the machine was to stop at one of them, and what a crash there leaves.
fn stop_in(armed: Armed, calls: &[Entry]) -> Option<(usize, Choice)>
    ensures { result ≡ stop_in armed (mades calls.now) }
{
    match armed {
        Armed::No | Armed::Fail(_) => None,
        Armed::Stop(k, choice) => {
            let k = k as usize;
            if k == 0 || calls.len() < k {
                return None;
            }
            Some((kept_at(calls, k, choice), choice))
        }
    }
}

/// Whether a start may fail so: only by the disk, where a call is to fail.
fn may_fail(fault: &StartFault, armed: Armed) -> bool
    ensures { result ≡ may_fail fault.now armed }
{
    match fault {
        StartFault::Disk => match armed {
            Armed::Fail(_) => true,
            Armed::No | Armed::Stop(..) => false,
        },
        StartFault::NoMemory
        | StartFault::Bad { .. }
        | StartFault::NoJournal
        | StartFault::Spent
        | StartFault::Full => false,
    }
}

/// What a start that failed came to: want of memory, or of a call that the machine didn't try; files that are no journal, a bad one, a full one
/// and one whose incarnations are spent are none.
fn wanting(fault: &StartFault) -> Undone
    ensures { IsWant fault.now → result ≡ Apart → ⊥ }
{
    match fault {
        StartFault::NoMemory | StartFault::Disk => Undone::NoMemory,
        StartFault::Bad { .. } | StartFault::NoJournal | StartFault::Spent | StartFault::Full => {
            Undone::Apart
        }
    }
}

/// A host behind a start: whether its Start landed, whether a fault came, and how many calls its machine made.
#[derive(Drop)]
pub(crate) struct Begun {
    pub(crate) host: Host,
    pub(crate) landed: bool,
    pub(crate) stop: bool,
    pub(crate) calls: usize,
}

/// A node that is down on such a machine.
fn down(site: MemSite, landed: bool, calls: usize) -> Begun
    ensures node { result.host.node ≡ None }
    ensures site { result.host.site ≡ site }
    ensures landed { result.landed ≡ landed }
    ensures stop { result.stop ≡ true }
    ensures calls { result.calls ≡ calls }
{
    Begun {
        host: Host::of(None, site),
        landed,
        stop: true,
        calls,
    }
}

/// The start of a node on a machine on which that call is armed. Where the node is to stop at one, all are done, and the machine goes back to behind
/// those that are kept.
pub(crate) fn start(
    alloc: Global,
    site: MemSite,
    base: &Text,
    armed: Armed,
) -> Result<Begun, Undone>
    ensures did { IfOk result (λ b. DidStart base.now site b.host b.calls) }
    ensures read { (last : ℕ) → IsMarked last site → IsToldOf armed site → IfOk result (λ b. ReadStart armed base.now site b.host b.landed b.stop b.calls) }
    ensures whole { armed ≡ Armed.No → IfOk result (λ b. ReadStart armed base.now site b.host b.landed b.stop b.calls) }
    ensures begins { CanBegin site → IsntApart result }
{
    tried_are_read();
    starts_fail_for_want();
    let mut machine = site;
    let counts = counts_of(&machine);
    let begun = begin(alloc, &mut machine, base);
    let calls = made_since(&counts, &machine)?;
    let many = calls.len();
    let stop = stop_in(armed, calls);
    match begun {
        Ok(node) => match stop {
            None => Ok(Begun {
                host: Host::of(Some(node), machine),
                landed: true,
                stop: false,
                calls: many,
            }),
            Some((kept, choice)) => {
                let left = fallen_back(machine, counts.calls, kept, choice)?;
                Ok(down(left, stands_behind(kept.saturating_sub(2), choice), many))
            }
        },
        Err(fault) => {
            if !may_fail(&fault, armed) {
                return Err(wanting(&fault));
            }
            let left = fallen_back(machine, counts.calls, many, Choice::Keep)?;
            Ok(down(left, many == 6, many))
        }
    }
}
