//! Endpoints, seats and records that are read.

ghost use Rattle.std.specs.Prelude.{◌≡◌, ◌++◌, ◌∷◌, [], OnOk};
ghost use Rattle.record_bytes.specs.RecordReaders.{Reads, decision_in, each_in, endpoint_in, fields_in, leaf_in, named, named_in, seat_in, seats_in, start_in, vote_in};

use crate::cursor::{Cursor, ReadFault};
use at_base::epr::Epr;
use at_base::id::Id;
use at_base::record::{Record, Seated, Seats};
use std::alloc::{AllocError, Global};

/// One more at the end.
fn push(seats: &mut Vec<Seated>, seated: Seated) -> Result<(), AllocError>
    ensures { OnOk result (seats.new.items ≡ seats.old.items ++ seated ∷ []) }
{
    seats.push(seated)?;
    Ok(())
}

/// The record of a tag that stands before an id alone.
fn named(tag: u8, id: Id) -> Option<Record>
    ensures { result ≡ named tag id }
{
    match tag {
        3 => Some(Record::LeafCommitted { id }),
        4 => Some(Record::LeafAborted { id }),
        7 => Some(Record::SubCommitted { id }),
        8 => Some(Record::Ended { id }),
        10 => Some(Record::Done { id }),
        _ => None,
    }
}

impl<'a> Cursor<'a> {
    #[tactic(auto, using(crate::proofs::NumbersAndTexts::lacks), unfolding(crate::specs::RecordReaders::endpoint_in))]
    fn endpoint(&mut self, alloc: Global) -> Result<Epr, ReadFault>
        ensures { Reads result self.new (endpoint_in self.old) }
    {
        let address = self.text(alloc)?;
        let params = self.text(alloc)?;
        Ok(Epr { address, params })
    }

    #[tactic(auto, using(crate::proofs::NumbersAndTexts::lacks), unfolding(crate::specs::RecordReaders::seat_in))]
    fn seat(&mut self, alloc: Global) -> Result<Seated, ReadFault>
        ensures { Reads result self.new (seat_in self.old) }
    {
        let number = self.short()?;
        let endpoint = self.endpoint(alloc)?;
        Ok(Seated { number, endpoint })
    }

    /// So many seats.
    #[tactic(auto, using(crate::proofs::ReadSeats::read_none, crate::proofs::ReadSeats::read_more, crate::proofs::ReadSeats::read_no_more, crate::proofs::ReadSeats::read_all))]
    fn each(&mut self, alloc: Global, count: u16) -> Result<Seats, ReadFault>
        ensures { Reads result self.new (each_in count self.old) }
    {
        let mut seats = Vec::new(alloc);
        for _ in 0..count {
            match self.seat(alloc) {
                Ok(seated) => push(&mut seats, seated)?,
                Err(fault) => return Err(fault),
            }
        }
        Ok(Seats::from_vec(seats))
    }

    #[tactic(auto, using(crate::proofs::NumbersAndTexts::lacks), unfolding(crate::specs::RecordReaders::seats_in))]
    fn seats(&mut self, alloc: Global) -> Result<Seats, ReadFault>
        ensures { Reads result self.new (seats_in self.old) }
    {
        let count = self.short()?;
        self.each(alloc, count)
    }

    #[tactic(auto, using(crate::proofs::NumbersAndTexts::lacks, crate::proofs::RecordRoundtrip::record_back), unfolding(crate::specs::RecordReaders::start_in))]
    fn start(&mut self) -> Result<Record, ReadFault>
        ensures { Reads result self.new (start_in self.old) }
    {
        let incarnation = self.word()?;
        Ok(Record::Start { incarnation })
    }

    #[tactic(auto, using(crate::proofs::NumbersAndTexts::lacks), unfolding(crate::specs::RecordReaders::leaf_in))]
    fn leaf(&mut self, alloc: Global) -> Result<Record, ReadFault>
        ensures { Reads result self.new (leaf_in self.old) }
    {
        let id = self.id()?;
        let coordinator = self.endpoint(alloc)?;
        let key = self.text(alloc)?;
        let value = self.text(alloc)?;
        Ok(Record::LeafPrepared {
            id,
            coordinator,
            key,
            value,
        })
    }

    #[tactic(auto, using(crate::proofs::NumbersAndTexts::lacks), unfolding(crate::specs::RecordReaders::vote_in))]
    fn vote(&mut self, alloc: Global) -> Result<Record, ReadFault>
        ensures { Reads result self.new (vote_in self.old) }
    {
        let id = self.id()?;
        let superior = self.endpoint(alloc)?;
        let seats = self.seats(alloc)?;
        Ok(Record::Voted {
            id,
            superior,
            seats,
        })
    }

    #[tactic(auto, using(crate::proofs::NumbersAndTexts::lacks), unfolding(crate::specs::RecordReaders::decision_in))]
    fn decision(&mut self, alloc: Global) -> Result<Record, ReadFault>
        ensures { Reads result self.new (decision_in self.old) }
    {
        let id = self.id()?;
        let seats = self.seats(alloc)?;
        Ok(Record::Decided { id, seats })
    }

    #[tactic(auto, using(crate::proofs::NumbersAndTexts::lacks), unfolding(crate::specs::RecordReaders::named_in))]
    fn named(&mut self, tag: u8) -> Result<Record, ReadFault>
        ensures { Reads result self.new (named_in tag self.old) }
    {
        let id = self.id()?;
        match named(tag, id) {
            Some(entry) => Ok(entry),
            None => Err(ReadFault::Misspelled),
        }
    }

    /// What stands behind a tag.
    #[tactic(auto, unfolding(crate::specs::RecordReaders::fields_in))]
    pub(crate) fn fields(&mut self, alloc: Global, tag: u8) -> Result<Record, ReadFault>
        ensures { Reads result self.new (fields_in tag self.old) }
    {
        match tag {
            1 => self.start(),
            2 => self.leaf(alloc),
            5 => self.vote(alloc),
            6 => self.decision(alloc),
            _ => self.named(tag),
        }
    }
}
