//! Laws of seals.

ghost use Rattle.address_seals.specs.Seals.{SealsAlone, SealsOpen};

/// A path that was sealed is opened, under the same secret.
pub fn seals_open()
    ensures { SealsOpen }
{}

/// Nothing is opened but what is sealed under that secret.
pub fn seals_alone()
    ensures { SealsAlone }
{}
