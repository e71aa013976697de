//! Events that are asked for behind one another, with no call armed: those by which nodes come up, and those that bring a world to rest.

ghost use Rattle.std.specs.List.{AllByRecursion};
ghost use Rattle.std.specs.Prelude.{◌≡◌, ◌≤◌, IfErr, IfOk, map};
ghost use Rattle.net_plays.specs.Asks.{CanAskAll, IsBare};
ghost use Rattle.net_plays.specs.Plays.{AllHappen, IsBegun, Rests, ups_from};
ghost use Rattle.net_plays.specs.Stops.{StopsAmong, StopsBegin, StopsRest};
ghost use Rattle.net_plays.specs.Stops.Why.{HasMany, IsFull};
ghost use Rattle.net_plays.specs.declared.play_error.PlayError.TheVariants.{Full, TooManyEvents};
ghost use Rattle.world_laws.specs.Events.{event_of};

use crate::play::Play;
use crate::play_error::PlayError;
use replay_cmd::asked_events::coming_up;
use std::alloc::Global;
use world_laws::event::WorldEvent;

impl Play {
    /// So many nodes come up.
    fn all_up(self, alloc: Global, count: u8) -> Result<Play, PlayError>
        requires { count ≤ self.count }
        ensures done { IfOk result (AllHappen (ups_from count 1) self) }
        ensures full { IfErr result (λ e. e ≡ Full → StopsAmong IsFull (ups_from count 1) self) }
        ensures many { IfErr result (λ e. e ≡ TooManyEvents → StopsAmong HasMany (ups_from count 1) self) }
    {
        let mut play = self;
        for place in 0..count {
            play = play.happen(alloc, None, &coming_up(place + 1), &[], 0)?;
        }
        Ok(play)
    }

    /// So many nodes, each of which comes up.
    #[tactic(auto, using(crate::proofs::StoppedPlays::stops_begin, crate::proofs::AskedLines::opening_count))]
    pub(crate) fn begin(alloc: Global, count: u8) -> Result<Play, PlayError>
        requires { (1 ≤ count) × (count ≤ 8) }
        ensures done { IfOk result (IsBegun count) }
        ensures full { IfErr result (λ e. e ≡ Full → StopsBegin IsFull count) }
        ensures many { IfErr result (λ e. e ≡ TooManyEvents → StopsBegin HasMany count) }
    {
        let play = Play::opening(alloc, count)?;
        play.all_up(alloc, count)
    }

    fn all_happen(self, alloc: Global, events: &[WorldEvent]) -> Result<Play, PlayError>
        requires bare { AllByRecursion IsBare (map event_of events.now) }
        requires can { CanAskAll self.count self.world (map event_of events.now) }
        ensures done { IfOk result (AllHappen (map event_of events.now) self) }
        ensures full { IfErr result (λ e. e ≡ Full → StopsAmong IsFull (map event_of events.now) self) }
        ensures many { IfErr result (λ e. e ≡ TooManyEvents → StopsAmong HasMany (map event_of events.now) self) }
    {
        let mut play = self;
        for event in events {
            play = play.happen(alloc, None, event, &[], 0)?;
        }
        Ok(play)
    }

    /// Its world is brought to rest, where that is asked.
    #[tactic(auto, using(crate::proofs::StoppedPlays::rest_full, crate::proofs::StoppedPlays::rest_many, crate::proofs::StoppedPlays::rest_past, crate::proofs::AskedLines::rest_bare, crate::proofs::AskedLines::rest_can))]
    pub(crate) fn settle(self, alloc: Global, settle: bool) -> Result<Play, PlayError>
        ensures done { IfOk result (Rests settle self) }
        ensures full { IfErr result (λ e. e ≡ Full → StopsRest IsFull settle self) }
        ensures many { IfErr result (λ e. e ≡ TooManyEvents → StopsRest HasMany settle self) }
    {
        if !settle {
            return Ok(self);
        }
        self.is_played();
        let events = self.rest(alloc)?;
        self.all_happen(alloc, events.as_slice())
    }
}
