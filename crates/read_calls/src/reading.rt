//! What the calls of one event come to.

ghost use Rattle.std.specs.Prelude.{ℕ, List, ◌+◌, ◌≡◌, ◌≤◌, ◌-◌, ◌<◌, ◌⊎◌, Bool, Option, Some, false, length, nat_eq};
ghost use Rattle.site_memory.specs.Entries.{call_of, mades};
ghost use Rattle.site_memory.specs.ToldCalls.{AreArmed};
ghost use Rattle.torn_appends.specs.TornAppends.{gate_stands, stands_behind};
ghost use Rattle.mirrored_nets.specs.Kept.{is_write, kept_at, writes_at};
ghost use Rattle.mirrored_nets.specs.Took.{IsKept, StopsBefore, StopsInStep};
ghost use Rattle.mirrored_nets.specs.AnewCalls.{before_anew};
ghost use Rattle.call_readings.specs.Reads.{IsUncut, Reads, ReadsAs, failing_call, fate_number, is_halted, read_fates};
ghost use Rattle.call_readings.specs.declared.became.Became.{Became as Known};
ghost use Rattle.call_readings.specs.declared.became.Became.TheVariants as becomes;
ghost use Rattle.mirrored_nets.specs.declared.armed.Armed.{Armed as Arms};
ghost use Rattle.node_events.specs.NodeEvents.{struck};
ghost use Rattle.read_calls.specs.IsRead.{IsRead, fates_of};

use call_readings::became::Became;
use mirrored_nets::armed::Armed;
use mirrored_nets::calls::{anew, behind, disk_calls};
use site_memory::arm::Choice;
use site_memory::entry::{Deed, Entry};

/// The fates that an event names; each behind them is yes.
#[derive(Clone, Copy, Debug, PartialEq, Eq)]
pub enum Named {
    /// None.
    None,
    /// So many that are yes, and then this one.
    Struck { before: usize, last: bool },
}

/// What the calls of an event come to.
#[derive(Clone, Copy, Debug, PartialEq, Eq)]
pub struct Reading {
    /// What became of the node.
    pub became: Became,
    /// The fates of its event.
    pub fates: Named,
    /// The fate at which its event stops, from 1; 0 is before its first step.
    pub until: Option<u64>,
}

fn is_write(entry: &Entry) -> bool
    ensures { result ≡ is_write (call_of entry.now.deed) }
{
    match &entry.deed {
        Deed::Write { .. } => true,
        _ => false,
    }
}

/// Whether the call at that place is a write.
fn writes_at(calls: &[Entry], place: usize) -> bool
    ensures { result ≡ writes_at place (mades calls.now) }
{
    match calls.get(place) {
        Some(entry) => is_write(entry),
        None => false,
    }
}

/// How many calls are kept where the machine stops at the k-th of them: at a `Keep` that call was done, and at a `Fill` a write may have left
/// anything.
fn kept_at(calls: &[Entry], k: usize, choice: Choice) -> usize
    ensures { result ≡ kept_at (mades calls.now) k choice }
{
    let last = k.saturating_sub(1);
    match choice {
        Choice::Keep => k,
        Choice::Drop => last,
        Choice::Fill(_) => if writes_at(calls, last) { k } else { last },
    }
}

/// Whether a stop leaves a gate raised whose write isn't synced.
fn gate_stands(choice: Choice) -> bool
    ensures { result ≡ gate_stands choice }
{
    match choice {
        Choice::Keep => true,
        Choice::Drop => false,
        Choice::Fill(byte) => byte == 1,
    }
}

/// Whether a record stands behind a crash that comes behind so many calls of its append.
fn stands_behind(calls: usize, choice: Choice) -> bool
    ensures { result ≡ stands_behind calls choice }
{
    calls >= 4 || (calls >= 3 && gate_stands(choice))
}

/// How many calls come before those by which the journal is written anew.
fn before_anew(lines: usize, calls: &[Entry]) -> usize
    ensures { result ≡ before_anew lines (mades calls.now) }
{
    calls.len().saturating_sub(anew(behind(calls, lines)).len())
}

/// The number of the fate of the k-th call, from 1; 0 for one that comes before the first step.
fn fate_number(lines: usize, calls: &[Entry], k: usize) -> usize
    ensures { result ≡ fate_number lines (mades calls.now) k }
{
    if k <= lines {
        return 0;
    }
    if disk_calls(behind(calls, lines)) == 0 {
        return k - lines;
    }
    (k - lines).saturating_sub(4) + 1
}

/// The fate of the k-th call, all of which were done, where the machine stops at it: a record stands or not, and an answer or a post left or
/// not.
fn last_fate(lines: usize, calls: &[Entry], k: usize, choice: Choice) -> bool
    requires { lines < k }
    ensures { (before : ℕ) (last : Bool) → fate_number lines (mades calls.now) k ≡ before + 1 → IsKept lines (mades calls.now) choice before last (kept_at (mades calls.now) k choice) → result ≡ last }
{
    let kept = kept_at(calls, k, choice);
    if disk_calls(behind(calls, lines)) > 0 && k - lines <= 4 {
        return stands_behind(kept.saturating_sub(lines), choice);
    }
    kept == k
}

/// The fates of an event that stops at the k-th call, which is one of its steps or comes before them.
fn stop_fates(lines: usize, calls: &[Entry], k: usize, choice: Choice) -> Named
    ensures { (fates : List Bool) → StopsInStep lines (mades calls.now) choice fates (Some (fate_number lines (mades calls.now) k)) (kept_at (mades calls.now) k choice)
        ⊎ StopsBefore lines fates (Some (fate_number lines (mades calls.now) k)) (kept_at (mades calls.now) k choice) → fates_of result ≡ fates }
{
    let number = fate_number(lines, calls, k);
    if number == 0 || k <= lines {
        return Named::None;
    }
    Named::Struck {
        before: number - 1,
        last: last_fate(lines, calls, k, choice),
    }
}

/// An event that stops at the k-th call.
fn stopped(lines: usize, calls: &[Entry], k: usize, choice: Choice) -> Reading
    requires least { 1 ≤ k }
    requires within { k ≤ length calls.now }
    ensures { (became : Known) (fates : List Bool) (until : Option ℕ) → ReadsAs (Armed.Stop k choice) lines (mades calls.now) became fates until → is_halted became ≡ false → IsRead result became fates until }
{
    let kept = kept_at(calls, k, choice);
    if before_anew(lines, calls) < k {
        return Reading {
            became: Became::FallsAnew { kept, choice },
            fates: Named::None,
            until: None,
        };
    }
    Reading {
        became: Became::Falls { kept, choice },
        fates: stop_fates(lines, calls, k, choice),
        until: Some(fate_number(lines, calls, k) as u64),
    }
}

/// The fates of an event of which the k-th call is to fail: of its calls of the disk that come first, which are a record's, one fate is named.
fn failed_fates(lines: usize, calls: &[Entry], k: usize) -> Named
    ensures { AreArmed 0 k (mades calls.now) → fates_of result ≡ read_fates lines (mades calls.now) }
{
    if k <= lines || before_anew(lines, calls) < k {
        return Named::None;
    }
    let disk = disk_calls(behind(calls, lines));
    let before = if disk == 0 {
        k - lines - 1
    } else {
        (k - lines).saturating_sub(disk)
    };
    Named::Struck {
        before,
        last: false,
    }
}

/// An event whose node halted as a record was appended: at the last of its four calls it stands.
fn at_gate(lines: usize, calls: &[Entry]) -> Reading
    ensures became { result.became ≡ becomes.Halts }
    ensures fates { fates_of result.fates ≡ struck 0 (nat_eq (length (mades calls.now) - lines) 4) }
    ensures until { result.until ≡ Some 1 }
{
    let last = calls.len().saturating_sub(lines) == 4;
    Reading {
        became: Became::Halts,
        fates: Named::Struck { before: 0, last },
        until: Some(1),
    }
}

/// An event at none of whose calls the machine stops; the k-th is to fail, or none where that is 0.
fn unstopped(lines: usize, calls: &[Entry], k: usize, halted: bool) -> Reading
    ensures { (armed : Arms) (became : Known) (fates : List Bool) (until : Option ℕ) → failing_call armed ≡ k → IsUncut armed (mades calls.now) → Reads armed lines (mades calls.now) became fates until → is_halted became ≡ halted
        → IsRead result became fates until }
{
    if halted && anew(behind(calls, lines)).is_empty() {
        return at_gate(lines, calls);
    }
    let became = if halted {
        Became::HaltsAnew
    } else {
        Became::Stays
    };
    Reading {
        became,
        fates: failed_fates(lines, calls, k),
        until: None,
    }
}

/// What the calls of an event come to, of which this one was armed, and the first so many have no fate; whether its node halted. Calls that can
/// be made are read in one way, which is this.
pub fn read(lines: usize, calls: &[Entry], armed: Armed, halted: bool) -> Reading
    ensures { (became : Known) (fates : List Bool) (until : Option ℕ) → Reads armed lines (mades calls.now) became fates until → is_halted became ≡ halted → IsRead result became fates until }
{
    match armed {
        Armed::No => unstopped(lines, calls, 0, halted),
        Armed::Fail(k) => unstopped(lines, calls, k as usize, halted),
        Armed::Stop(k, choice) => {
            let k = k as usize;
            if k == 0 || calls.len() < k {
                return unstopped(lines, calls, 0, false);
            }
            stopped(lines, calls, k, choice)
        }
    }
}
