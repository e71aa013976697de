//! What the links of a machine in memory were told to fail.

ghost use Rattle.std.specs.Prelude.{◌≡◌, true};
ghost use Rattle.site_memory.specs.SoundLinks.{are_sound};

use crate::bytes::Bytes;

/// The names that a machine was given.
#[derive(Drop)]
pub struct Names {
    pub(crate) journal: Bytes,
    pub(crate) listen: Bytes,
}

/// Which attach, take or receive from now fails, the names by which alone a machine is attached, and how often attaching on the listener or
/// taking failed, and receiving. All of that is none unless it was told that they may fail.
#[derive(Drop)]
pub struct Links {
    pub(crate) may_fail: bool,
    pub(crate) fail: u32,
    pub(crate) names: Option<Names>,
    pub(crate) accept: u64,
    pub(crate) receive: u64,
    ghost sound: { are_sound may_fail fail names accept receive ≡ true },
}
