//! The disk and the calls of a machine in memory.

ghost use Rattle.std.specs.Prelude.{◌≡◌, true};
ghost use Rattle.site_memory.specs.declared.range.Which.TheVariants.{First, Second};
ghost use Rattle.site_memory.specs.Armings.{is_armed};
ghost use Rattle.site_memory.specs.Disk.{disk};
ghost use Rattle.site_memory.specs.Entries.{mades};
ghost use Rattle.site_memory.specs.HeldFiles.{disk_of, opening_of};

use crate::arm::{Arm, Arming};
use crate::entry::Entry;
use crate::held_file::Held;
use std::alloc::Global;

/// Two files, and the calls since the machine was opened, of which the files are what came.
#[derive(Drop)]
pub struct Device {
    pub(crate) alloc: Global,
    pub(crate) log: Vec<Entry>,
    pub(crate) first: Held,
    pub(crate) second: Held,
    pub(crate) arm: Arm,
    pub(crate) arming: Option<Arming>,
    pub(crate) wanted: bool,
    ghost first_is: { disk_of first ≡ disk First (opening_of first second) (mades log.items) },
    ghost second_is: { disk_of second ≡ disk Second (opening_of first second) (mades log.items) },
    ghost as_armed: { is_armed arming arm (mades log.items) ≡ true },
}
