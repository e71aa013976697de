//! The calls that a node made in one event, by parts.

ghost use Rattle.std.specs.Prelude.{◌≡◌, ◌≤◌, [], drop, length, take, true};
ghost use Rattle.site_memory.specs.Entries.{call_of, mades};
ghost use Rattle.site_model.specs.Told.Call.{Send};
ghost use Rattle.http_post.specs.Conversations.{interim};
ghost use Rattle.mirrored_nets.specs.Fates.{anew_of, behind_disk, behind_sent, disk_part, failures, is_disk, refusals, sent_part};
ghost use Rattle.mirrored_nets.specs.Took.{IsTriedLine};

use site_memory::entry::{Deed, Entry};
use site_memory::machine::MemSite;

/// The calls of a machine since it had made so many.
pub fn since(site: &MemSite, before: usize) -> &[Entry]
    ensures { result.now ≡ drop before site.now.device.log.items }
{
    behind(site.log(), before)
}

/// All but the first so many.
pub fn behind(calls: &[Entry], lines: usize) -> &[Entry]
    ensures { result.now ≡ drop lines calls.now }
{
    match calls.get(lines..) {
        Some(rest) => rest,
        None => &[],
    }
}

/// Whether a call is one of the disk.
fn is_disk(entry: &Entry) -> bool
    ensures { result ≡ is_disk (call_of entry.now.deed) }
{
    match &entry.deed {
        Deed::Write { .. } | Deed::Sync { .. } => true,
        Deed::Send { .. } | Deed::Post { .. } => false,
    }
}

/// How many calls of the disk come first.
pub fn disk_calls(calls: &[Entry]) -> usize
    ensures disk { disk_part (mades calls.now) ≡ take result (mades calls.now) }
    ensures behind { behind_disk (mades calls.now) ≡ drop result (mades calls.now) }
    ensures within { result ≤ length calls.now }
{
    for (place, entry) in calls.iter().enumerate() {
        if !is_disk(entry) {
            return place;
        }
    }
    calls.len()
}

/// How many answers and posts come first.
pub fn send_calls(calls: &[Entry]) -> usize
    ensures sent { sent_part (mades calls.now) ≡ take result (mades calls.now) }
    ensures behind { behind_sent (mades calls.now) ≡ drop result (mades calls.now) }
    ensures within { result ≤ length calls.now }
{
    for (place, entry) in calls.iter().enumerate() {
        if is_disk(entry) {
            return place;
        }
    }
    calls.len()
}

/// The calls by which the journal was written anew.
pub fn anew(calls: &[Entry]) -> &[Entry]
    ensures { mades result.now ≡ anew_of (mades calls.now) }
{
    let step = behind(calls, disk_calls(calls));
    behind(step, send_calls(step))
}

/// How many answers and posts failed.
pub fn failures(calls: &[Entry]) -> u64
    ensures { result ≡ failures (mades calls.now) }
{
    let mut count: u64 = 0;
    for entry in calls {
        if !is_disk(entry) && !entry.done {
            count += 1;
        }
    }
    count
}

/// How many calls of the disk failed.
pub fn refusals(calls: &[Entry]) -> u64
    ensures { result ≡ refusals (mades calls.now) }
{
    let mut count: u64 = 0;
    for entry in calls {
        if is_disk(entry) && !entry.done {
            count += 1;
        }
    }
    count
}

/// Whether these bytes are the interim line.
#[tactic(auto, using(crate::proofs::InterimBytes::is_interim))]
fn is_line(bytes: &[u8]) -> bool
    ensures is { result ≡ true → bytes.now ≡ interim }
    ensures exact { bytes.now ≡ interim → result ≡ true }
{
    bytes == b"HTTP/1.1 100 Continue\r\n\r\n".as_slice()
}

/// Whether a call tried it.
fn tries_line(entry: &Entry) -> bool
    ensures is { result ≡ true → call_of entry.now.deed ≡ Send interim }
    ensures exact { call_of entry.now.deed ≡ Send interim → result ≡ true }
{
    match &entry.deed {
        Deed::Send { bytes } => is_line(bytes.as_slice()),
        _ => false,
    }
}

/// Whether the first so many calls, one at most, tried the interim line.
pub fn tried(calls: &[Entry], lines: usize) -> bool
    ensures is { result ≡ true → IsTriedLine lines (take lines (mades calls.now)) }
    ensures few { result ≡ true → lines ≤ 1 }
    ensures exact { IsTriedLine lines (take lines (mades calls.now)) → result ≡ true }
{
    if lines == 0 {
        return true;
    }
    lines == 1 && !calls.is_empty() && tries_line(&calls[0])
}
