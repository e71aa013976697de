//! A whole machine in memory.

use crate::bytes::{Bytes, Posted};
use crate::device::Device;
use crate::line::Line;
use crate::links::Links;
use crate::tally::Tally;
use site_model::attachments::Attachments;
use std::alloc::Global;

/// A node's machine in memory, without faults until it is armed.
///
/// A write, sync, answer or post that gets no memory fails, raises its count and changes nothing else; `wanted` is true from
/// then on. A failed write isn't seen by reads, but its range is pending.
pub struct MemSite {
    pub(crate) alloc: Global,
    pub(crate) device: Device,
    pub(crate) line: Line,
    pub(crate) answers: Vec<Bytes>,
    pub(crate) posts: Vec<Posted>,
    pub(crate) links: Links,
    pub(crate) clock: u64,
    pub(crate) tally: Tally,
    pub(crate) fail_read: u32,
    pub(crate) attached: Attachments,
}

impl Drop for MemSite {
    fn drop(self) {
        let MemSite {
            alloc: _alloc,
            device: _device,
            line: _line,
            answers: _answers,
            posts: _posts,
            links: _links,
            clock: _clock,
            tally: _tally,
            fail_read: _fail_read,
            attached: _attached,
        } = self;
    }
}
