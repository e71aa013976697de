//! Laws of what bytes ask of a node.

ghost use Rattle.carried_meanings.specs.CarriedMeanings.{MeanOneThing, PostsDontWait, PostsSay, TicksAsk};

use arrivals::laws::{heads_are_bases, what_is_posted_reaches_the_book};
use deliverables::laws::{posts_can_be_read, what_is_taken_is_decoded};
use envelope_cmd::laws::bytes_say_one_thing;
use http_post::laws::{bytes_ask_one_thing, posts_are_read_back};
use xml_grammar::laws::one_text_spells_one_tree;

/// Bytes mean one thing to a node.
#[tactic(auto, using(crate::proofs::OneMeaning::bytes_mean_one_thing))]
pub fn bytes_mean_one_thing()
    ensures { MeanOneThing }
{
    bytes_ask_one_thing();
    bytes_say_one_thing();
}

/// The bytes by which a message was posted to a node ask it for that message, as the world of the model decodes it there; and where the
/// world decodes nothing there, or the message's envelope is past the limits of what is read, they are refused with 500.
pub fn posts_say()
    ensures { PostsSay }
{
    posts_are_read_back();
    bytes_ask_one_thing();
    bytes_say_one_thing();
    one_text_spells_one_tree();
    heads_are_bases();
    posts_can_be_read();
    what_is_taken_is_decoded();
    what_is_posted_reaches_the_book();
}

/// Nobody waits for the interim line behind them.
pub fn posts_dont_wait()
    ensures { PostsDontWait }
{
    posts_are_read_back();
    posts_can_be_read();
}

/// The bytes that ask for what is due do so.
#[tactic(auto, using(crate::proofs::Ticks::ticks_ask))]
pub fn ticks_ask()
    ensures { TicksAsk }
{}
