//! Why a run of a world doesn't go on.

use std::alloc::AllocError;

/// Why a run of a world doesn't go on.
#[derive(Clone, Copy, Debug, PartialEq, Eq)]
pub enum RunError {
    /// There was no memory.
    NoMemory,
    /// The world would have more than 4,294,967,295 events.
    TooManyEvents,
}

impl From<AllocError> for RunError {
    ghost use Rattle.std.specs.Prelude.{◌≡◌};
    ghost use Rattle.settlement.specs.declared.run_error.RunError.TheVariants.{NoMemory};

    ghost from_gives = { λ _ e. e ≡ NoMemory };

    fn from(_error: AllocError) -> RunError {
        RunError::NoMemory
    }
}
