//! Laws of the sizes of envelopes.

ghost use Rattle.small_envelopes.specs.ShortEnvelopes.{BriefAreShort};
ghost use Rattle.small_envelopes.specs.SmallEnvelopes.{BareAreInLimits};

/// The envelope of a message whose endpoints have no reference parameters is within the limits of what is read, but for its length.
pub fn bare_are_in_limits()
    ensures { BareAreInLimits }
{}

/// A message of brief texts has a short text.
pub fn brief_are_short()
    ensures { BriefAreShort }
{}
