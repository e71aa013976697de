//! Messages that go to their nodes.

ghost use Rattle.std.specs.Prelude.{◌≡◌, [], Err, IfErr, IfOk};
ghost use Rattle.net_plays.specs.Asks.{CanAsk};
ghost use Rattle.net_plays.specs.PlayedLines.{Comes, Delivers, Flushes};
ghost use Rattle.net_plays.specs.Plays.{HasBegun};
ghost use Rattle.net_plays.specs.Stops.{StopsComing, StopsDelivery, StopsFlush};
ghost use Rattle.net_plays.specs.Stops.Why.{HasMany, IsFull};
ghost use Rattle.net_plays.specs.declared.play_error.PlayError.TheVariants.{Full, TooManyEvents};
ghost use Rattle.world_laws.specs.Events.{event_of};

use crate::play::Play;
use crate::play_error::PlayError;
use replay_cmd::asked_events::turn;
use std::alloc::Global;
use world_laws::event::{Input, WorldEvent};

impl Play {
    /// What a line asks for happens, with the call armed that is armed at its node.
    #[tactic(auto, using(crate::proofs::AskedLines::begun_behind))]
    pub(crate) fn come(self, alloc: Global, asked: &WorldEvent) -> Result<Play, PlayError>
        requires can { CanAsk self.count self.world (event_of asked.now) [] }
        requires begun { HasBegun self }
        ensures done { IfOk result (Comes (event_of asked.now) self) }
        ensures full { IfErr result (λ e. e ≡ Full → StopsComing IsFull (event_of asked.now) self) }
        ensures many { IfErr result (λ e. e ≡ TooManyEvents → StopsComing HasMany (event_of asked.now) self) }
        ensures room { StopsComing IsFull (event_of asked.now) self → result ≡ Err Full }
    {
        let armed = self.armed_at(asked.node());
        self.happen(alloc, armed, asked, &[], 0)
    }

    /// A message goes to its node, whether it did before or not.
    #[tactic(auto, using(crate::proofs::StoppedPlays::stops_delivery, crate::proofs::StoppedPlays::delivery_full, crate::proofs::StoppedPlays::delivery_room, crate::proofs::StoppedPlays::delivery_nobody, crate::proofs::StoppedPlays::delivery_unknown, crate::proofs::AskedLines::delivery_asked, crate::proofs::AskedLines::marked_begun))]
    pub(crate) fn deliver(self, alloc: Global, number: u64) -> Result<Play, PlayError>
        requires { HasBegun self }
        ensures done { IfOk result (Delivers number self) }
        ensures full { IfErr result (λ e. e ≡ Full → StopsDelivery IsFull number self) }
        ensures many { IfErr result (λ e. e ≡ TooManyEvents → StopsDelivery HasMany number self) }
        ensures room { StopsDelivery IsFull number self → result ≡ Err Full }
    {
        self.is_played();
        match self.receiver(number) {
            Some(Some(node)) => {
                if !self.has_room(node) {
                    return Err(PlayError::Full);
                }
                let marked = self.mark(number)?;
                marked.come(alloc, &turn(alloc, node, Input::Deliver(number)))
            }
            Some(None) => {
                let marked = self.mark(number)?;
                Ok(marked.no_message(alloc, number)?)
            }
            None => Ok(self.no_message(alloc, number)?),
        }
    }

    /// Up to so many times, the lowest message that was never delivered goes to its node.
    pub(crate) fn flush(self, alloc: Global, most: u16) -> Result<Play, PlayError>
        requires { HasBegun self }
        ensures done { IfOk result (Flushes most self) }
        ensures full { IfErr result (λ e. e ≡ Full → StopsFlush IsFull most self) }
        ensures many { IfErr result (λ e. e ≡ TooManyEvents → StopsFlush HasMany most self) }
    {
        let mut play = self;
        for _time in 0..most {
            let Some(number) = play.lowest() else {
                return Ok(play);
            };
            play = play.deliver(alloc, number)?;
        }
        Ok(play)
    }
}
