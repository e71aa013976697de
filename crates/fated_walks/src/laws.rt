//! Laws of walks.

ghost use Rattle.fated_walks.specs.CallsComing.{CallsComing};
ghost use Rattle.fated_walks.specs.WalksByFates.{WalksByFates};

/// A turn or a request of a node, of whose calls some failed, or at one of which it stopped, comes to the steps that it did.
pub fn walks_by_fates()
    ensures { WalksByFates }
{}

/// What is left of the fates of a turn or a request, of which one is to fail or to be the last, says whether its call comes.
pub fn calls_come()
    ensures { CallsComing }
{}
