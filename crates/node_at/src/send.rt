//! Answers and posts, each by what lets it leave.

ghost use Rattle.std.specs.Prelude.{◌≡◌, ◌∷◌, [], true, false, IfSome, is_some, option_copied};
ghost use Rattle.decision_log.specs.KeptState.{IsFound, known};
ghost use Rattle.decision_log.specs.OutConditions.{IsTold};
ghost use Rattle.site_model.specs.Calls.{Gave};
ghost use Rattle.node_at.specs.Sends.{AllMayLeave, MayLeave, Sends, given};
ghost use Rattle.node_at.specs.StandingTokens.{IsStanding, Rules};
ghost use Rattle.at_model.specs.Outcomes.{is_kept};
ghost use Rattle.node_at.specs.Texts.{call_of};

use crate::text::{Encoded, Sending};
use at_base::id::Id;
use at_base::message::Message;
use at_base::notice::Notice;
use at_base::outs::Out;
use at_base::target::Target;
use by_id::list::is_same;
use decision_log::kept::Kept;
use decision_log::ready::{Leave, Ready, leave_of};
use decision_log::token::{Durable, What};
use site_model::site::Site;
use site_model::source::Failed;

/// Whether a token is that of this id and kind.
#[tactic(auto, using(crate::proofs::StandingTokens::is_that, crate::proofs::StandingTokens::other_id, crate::proofs::StandingTokens::other_kind))]
fn is_of(token: &Durable, id: Id, what: What) -> bool
    ensures yes { result ≡ true → token.now ≡ record { id = id; what = what } }
    ensures no { result ≡ false → token.now ≡ record { id = id; what = what } → ⊥ }
{
    if !is_same(token.id(), id) {
        return false;
    }
    token.what() == what
}

/// The token of this id and kind: that of the record just appended, or of a live one.
fn find<'a>(fresh: Option<&'a Durable>, kept: &'a Kept, id: Id, what: What) -> Option<&'a Durable>
    ensures { IsFound (option_copied result) (record { id = id; what = what }) (given (option_copied fresh.entry) (known kept.now)) }
{
    if let Some(token) = fresh {
        if is_of(token, id, what) {
            return Some(token);
        }
    }
    kept.token(id, what)
}

/// The token of this id and of one of these kinds.
#[tactic(auto, using(crate::proofs::StandingTokens::first_stands, crate::proofs::StandingTokens::other_stands, crate::proofs::StandingTokens::none_stands))]
fn standing<'a>(
    fresh: Option<&'a Durable>,
    kept: &'a Kept,
    id: Id,
    one: What,
    other: What,
) -> Option<&'a Durable>
    ensures { IsStanding (option_copied result) id one other (given (option_copied fresh.entry) (known kept.now)) }
{
    match find(fresh, kept, id, one) {
        Some(token) => Some(token),
        None => find(fresh, kept, id, other),
    }
}

fn has(ids: &[Id], id: Id) -> bool
    ensures { result ≡ is_kept id ids.now }
{
    for other in ids {
        if is_same(*other, id) {
            return true;
        }
    }
    false
}

/// Whether an out tells a root's initiator an outcome that is kept.
fn tells(out: &Out, ids: &[Id]) -> bool
    ensures { Rules result (IsTold out.now ids.now) }
{
    match out {
        Out::Post(post) => match (&post.own, &post.message) {
            (Some(Target::Completion(id)), Message::Notice(Notice::Committed)) => has(ids, *id),
            _ => false,
        },
        Out::Answer { .. } => false,
    }
}

fn told(out: Out, kept: &Kept) -> Option<Ready>
    ensures out { IfSome result (λ r. r ≡ out) }
    ensures rule { Rules (is_some result) (IsTold out (known kept.now).done) }
{
    if tells(&out, kept.done()) {
        Some(Ready::told(out, kept))
    } else {
        None
    }
}

/// The out, where it may leave.
fn ready(out: Out, fresh: Option<&Durable>, kept: &Kept) -> Option<Ready>
    ensures out { IfSome result (λ r. r ≡ out) }
    ensures rule { Rules (is_some result) (MayLeave (given (option_copied fresh.entry) (known kept.now)) (known kept.now).done out) }
{
    match leave_of(&out) {
        Leave::Free => Some(Ready::free(out)),
        Leave::Echo => Some(Ready::echo(out)),
        Leave::Never => None,
        Leave::Record { id, one, other } => match standing(fresh, kept, id, one, other) {
            Some(token) => Some(Ready::guarded(out, token)),
            None => told(out, kept),
        },
    }
}

/// Answers or posts, once. A call that fails is a lost message.
fn give<S: Site>(site: &mut S, _ready: Ready, sending: &Sending) -> Result<(), Failed>
    ensures { Gave (call_of sending.now) result (S.told site.old) (S.told site.new) }
{
    match sending {
        Sending::Answer { bytes } => site.send(bytes.as_slice()),
        Sending::Post { host, port, bytes } => site.post(host.as_str(), *port, bytes.as_slice()),
    }
}

/// Sends an out, which may leave.
#[tactic(auto, using(crate::proofs::Sends::sends_given))]
fn send<S: Site>(site: &mut S, encoded: Encoded, fresh: Option<&Durable>, kept: &Kept)
    requires { MayLeave (given (option_copied fresh) (known kept.now)) (known kept.now).done encoded.out }
    ensures { Sends (given (option_copied fresh.entry) (known kept.now)) (known kept.now).done (encoded ∷ []) (S.told site.old) (S.told site.new) }
{
    let Encoded { out, sending } = encoded;
    match ready(out, fresh, kept) {
        Some(ready) => {
            let _ = give(site, ready, &sending);
        }
        None => {}
    }
}

/// Sends outs in order, each once. Each of them may leave.
#[tactic(auto, using(crate::proofs::Sends::sends_none, crate::proofs::Sends::sends_then, crate::proofs::StepMoments::step_moments))]
pub fn send_all<S: Site>(site: &mut S, all: Vec<Encoded>, fresh: Option<&Durable>, kept: &Kept)
    requires { AllMayLeave (given (option_copied fresh) (known kept.now)) (known kept.now).done all.items }
    ensures { Sends (given (option_copied fresh.entry) (known kept.now)) (known kept.now).done all.items (S.told site.old) (S.told site.new) }
{
    for encoded in all {
        send(site, encoded, fresh, kept);
    }
}
