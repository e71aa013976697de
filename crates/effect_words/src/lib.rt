//! The words by which effects and refusals are printed.
#![tactic(auto)]

ghost use Rattle.std.specs.Prelude.{◌≡◌};
ghost use Rattle.completion_at.specs.Names.{refusal_of};
ghost use Rattle.effect_words.specs.Words.{ending_word, refusal_word, told_word};

use at_base::outs::{Ending, Told};
use completion_at::requests::Refusal;

/// How a transaction or leaf ended.
pub fn ending_word(ending: Ending) -> &'static str
    ensures { result.now ≡ ending_word ending }
{
    match ending {
        Ending::Committed => "committed",
        Ending::Aborted => "aborted",
        Ending::Lost => "lost",
    }
}

/// What an initiator was told of its activity.
pub fn told_word(told: Told) -> &'static str
    ensures { result.now ≡ told_word told }
{
    match told {
        Told::Committed => "committed",
        Told::Aborted => "aborted",
        Told::Unknown => "unknown",
        Told::Refused => "refused",
    }
}

/// Why a local request is refused.
pub fn refusal_word(refusal: Refusal) -> &'static str
    ensures { result.now ≡ refusal_word (refusal_of refusal) }
{
    match refusal {
        Refusal::Full => "full",
        Refusal::Stale => "state",
        Refusal::Spent => "spent",
    }
}
