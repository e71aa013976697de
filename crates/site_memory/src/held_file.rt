//! One file.

ghost use Rattle.std.specs.Prelude.{◌≡◌, ◌≤◌, length, take, vec_capacity};
ghost use Rattle.site_memory.specs.Disk.{end_of};

use crate::range::Range;

/// A file as it was when the machine was opened, as it is for certain, and as it reads, with the ranges that are pending.
///
/// `reach` is the end of all that was written. Each buffer has room for it, so that a crash takes no memory. Up to `fresh`
/// what reads give is there for certain, so that a sync copies no more than what was written.
#[derive(Drop)]
pub struct Held {
    pub(crate) opening: Vec<u8>,
    pub(crate) stable: Vec<u8>,
    pub(crate) seen: Vec<u8>,
    pub(crate) pending: Vec<Range>,
    pub(crate) reach: usize,
    pub(crate) fresh: usize,
    ghost rooms: { (reach ≤ vec_capacity opening) × (reach ≤ vec_capacity stable) × (reach ≤ vec_capacity seen) },
    ghost within: { (length opening.items ≤ reach) × (length stable.items ≤ reach) × (length seen.items ≤ reach) },
    ghost ends: { end_of pending.items ≤ reach },
    ghost same: { (fresh ≤ length stable.items) × (fresh ≤ length seen.items) × (take fresh seen.items ≡ take fresh stable.items) },
}
