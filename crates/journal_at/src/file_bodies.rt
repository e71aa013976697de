//! The bodies of a file.

ghost use Rattle.std.specs.Prelude.{◌<◌, ◌^◌};

use crate::read::Placed;

/// The bodies of a file, and the place of the gate behind them.
#[derive(Drop)]
pub struct Bodies {
    pub(crate) items: Vec<Placed>,
    pub(crate) end: u64,
    ghost small: { end < 2 ^ 63 },
}
