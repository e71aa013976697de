//! What the bytes of a connection ask is determined by them: each has one meaning, in whatever pieces it comes. What
//! is written of a post asks for its path and its body.

ghost use Rattle.http_post.specs.Laws.{AskOneThing, PostsAreReadBack, WaitOrNot};

/// A request or one refusal.
#[tactic(auto, using(crate::proofs::Uniqueness::ask_one_thing))]
pub fn bytes_ask_one_thing()
    ensures { AskOneThing }
{}

/// Whether the client waits for the interim line.
#[tactic(auto, using(crate::proofs::Uniqueness::wait_or_not))]
pub fn bytes_wait_or_not()
    ensures { WaitOrNot }
{}

/// What is written of a post, if it can be read at all, is read as its path without the query, and its body.
#[tactic(auto, using(crate::proofs::PostRoundtrip::posts_are_read_back))]
pub fn posts_are_read_back()
    ensures { PostsAreReadBack }
{}
