//! Why a play doesn't go on.

use std::alloc::AllocError;

/// Why a play doesn't go on.
#[derive(Clone, Copy, Debug, PartialEq, Eq)]
pub enum PlayError {
    /// There was no memory.
    NoMemory,
    /// Its world would have more than 4,294,967,295 events.
    TooManyEvents,
    /// The journal of a node has no room for another record.
    Full,
}

impl From<AllocError> for PlayError {
    ghost use Rattle.std.specs.Prelude.{◌≡◌};
    ghost use Rattle.net_plays.specs.declared.play_error.PlayError.TheVariants.{NoMemory};

    ghost from_gives = { λ _ e. e ≡ NoMemory };

    fn from(_error: AllocError) -> PlayError {
        PlayError::NoMemory
    }
}
