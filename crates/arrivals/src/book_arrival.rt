//! What of an arrival reaches a node's book.

ghost use Rattle.std.specs.Prelude.{◌≡◌, IfOk};
ghost use Rattle.arrivals.specs.BookArrivals.{can_be_sent_to, has_postable, is_postable, reaches, sender_of};

use addressing::endpoint::{fault_to, reply_to};
use addressing::post_to;
use at_base::epr::{Epr, Reply};
use at_base::event::Arrived;
use at_base::message::Message;
use std::alloc::{AllocError, Global};
use wire_msgs::decode::Arrival;

/// The message as it reaches a node's book: with its From where that can be posted to, with where its reply and a fault
/// that it draws go (WS-Addressing 1.0 Core, section 3.4), and whether the participant that a Register names can be
/// posted to.
pub fn arrived(alloc: Global, arrival: Arrival) -> Result<Arrived, AllocError>
    ensures { IfOk result (λ a. a ≡ reaches arrival) }
{
    let is_sent = can_be_sent_to(alloc, &arrival.from)?;
    let postable = has_postable(alloc, &arrival.message)?;
    let reply = reply_to(&arrival.reply)?;
    let fault = fault_to(&arrival.fault, &arrival.reply)?;
    Ok(with_answers(arrival, is_sent, postable, reply, fault))
}

fn with_answers(
    arrival: Arrival,
    is_sent: bool,
    postable: bool,
    reply: Reply,
    fault: Reply,
) -> Arrived
    ensures { result ≡ record { target = arrival.target; id = arrival.id; relates = arrival.relates; from = sender_of is_sent arrival.from; reply = reply; fault = fault; postable = postable; message = arrival.message } }
{
    Arrived {
        target: arrival.target,
        id: arrival.id,
        relates: arrival.relates,
        from: sender_of(is_sent, arrival.from),
        reply,
        fault,
        postable,
        message: arrival.message,
    }
}

fn sender_of(is_sent: bool, from: Option<Epr>) -> Option<Epr>
    ensures { result ≡ sender_of is_sent from }
{
    if is_sent { from } else { None }
}

/// Whether an answer can be posted to this From.
fn can_be_sent_to(alloc: Global, from: &Option<Epr>) -> Result<bool, AllocError>
    ensures { IfOk result (λ is. is ≡ can_be_sent_to from.now) }
{
    match from {
        Some(epr) => is_postable(alloc, epr),
        None => Ok(false),
    }
}

fn is_postable(alloc: Global, epr: &Epr) -> Result<bool, AllocError>
    ensures { IfOk result (λ is. is ≡ is_postable epr.now) }
{
    post_to::is_postable(alloc, epr.address.as_str())
}

fn has_postable(alloc: Global, message: &Message) -> Result<bool, AllocError>
    ensures { IfOk result (λ is. is ≡ has_postable message.now) }
{
    match message {
        Message::Register(body) => is_postable(alloc, &body.participant),
        _ => Ok(true),
    }
}
