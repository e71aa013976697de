//! The limits of a node as numbers: what definitions and code cite by name.
#![tactic(auto)]

ghost use Rattle.stated_limits.specs.Limits.{LimitsAreStated};

/// How much of each thing a node holds at most, and how long, in milliseconds, it waits: the numbers that its documents state.
pub fn limits_are_stated()
    ensures { LimitsAreStated }
{}
