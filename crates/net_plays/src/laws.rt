//! What is known of plays of the schedules that are made.

ghost use Rattle.net_plays.specs.MadePlays.{MadeArePlayed};

/// A play of the schedule of a seed ends in the world that is computed of the seed.
pub fn made_are_played()
    ensures { MadeArePlayed }
{}
