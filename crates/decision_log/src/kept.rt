//! What a node keeps of its journal.

ghost use Rattle.std.specs.Prelude.{◌≡◌};
ghost use Rattle.decision_log.specs.KeptRecords.{tokens_of};

use crate::token::Durable;
use at_base::record::Record;
use outcomes_at::outcomes::Outcomes;

/// The live records of a journal by rising id, a token for each of them, the last incarnation, and the outcomes.
///
/// It is made of a journal that was read, and follows each record that is appended from then on.
#[derive(Drop)]
pub struct Kept {
    pub(crate) live: Vec<Record>,
    pub(crate) tokens: Vec<Durable>,
    pub(crate) start: u32,
    pub(crate) done: Outcomes,
    ghost same: { tokens.items ≡ tokens_of live.items },
}
