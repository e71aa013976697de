//! What a connection asks of a node.

ghost use Rattle.std.specs.Prelude.{◌≡◌, IfOk, List};
ghost use Rattle.http_post.specs.Conversations.{Hears as Heard};
ghost use Rattle.site_model.specs.Counts.{Rose};
ghost use Rattle.site_model.specs.Told.{Made};
ghost use Rattle.wire_posts.specs.Faults.{refusal_status, refusal_text};
ghost use Rattle.node_at.specs.ConnectionRequests.{at_target, meaning_at, meaning_of};
ghost use Rattle.node_at.specs.Doings.{NoLess};
ghost use Rattle.node_at.specs.Meanings.{Hears, IsFit, Says, is_answered, open_input};
ghost use Rattle.node_at.specs.Meanings.Meaning.{Refused, Lost};
ghost use Rattle.node_at.specs.Turns.{IsLine, is_heard};

use crate::role::Role;
use arrivals::book_arrival::arrived;
use arrivals::laws::what_is_whole_is_sound;
use at_base::event::Event;
use http_post::refusal::HttpRefusal;
use http_post::request::take_request;
use site_model::site::Site;
use std::alloc::{AllocError, Global};
use wire_msgs::decode::{Arrival, decode};
use wire_msgs::refusal::Refusal;
use wire_posts::encode::{Answer, encode_refusal};

/// What a connection asks.
#[derive(Drop)]
pub enum Asked {
    /// It is refused with this status, and with this envelope where there is one.
    Refused { status: u16, text: Option<Vec<u8>> },
    /// A message for the book, or a tick.
    Steps(Event),
    /// The connection failed.
    Lost,
    /// Something came, and there was no memory to read it.
    Unread,
}

/// What a connection that brings no request asks.
fn without_request(refusal: HttpRefusal) -> Asked
    ensures { meaning_of result ≡ meaning_at refusal }
{
    let status = match refusal {
        HttpRefusal::BadRequest => 400,
        HttpRefusal::MethodNotAllowed => 405,
        HttpRefusal::LengthRequired => 411,
        HttpRefusal::ContentTooLarge => 413,
        HttpRefusal::UnsupportedMediaType => 415,
        HttpRefusal::Link => return Asked::Lost,
        HttpRefusal::NoMemory => return Asked::Unread,
    };
    Asked::Refused { status, text: None }
}

/// What a refused envelope is answered with.
fn refused(alloc: Global, refusal: &Refusal) -> Result<Asked, AllocError>
    ensures { IfOk result (λ asked. meaning_of asked ≡ Refused (refusal_status refusal.now) (refusal_text refusal.now)) }
{
    let answer = encode_refusal(alloc, refusal)?;
    let Answer { status, body } = answer;
    Ok(Asked::Refused { status, text: body })
}

/// A message, where the role serves its target.
fn served(alloc: Global, role: Role, arrival: Arrival) -> Result<Asked, AllocError>
    ensures { IfOk result (λ asked. meaning_of asked ≡ at_target role arrival) }
{
    if !role.serves(arrival.target) {
        return Ok(Asked::Refused {
            status: 404,
            text: None,
        });
    }
    let arrived = arrived(alloc, arrival)?;
    Ok(Asked::Steps(Event::Arrived(arrived)))
}

/// Whether a refusal is one of the bytes.
fn is_answered(refusal: &Refusal) -> bool
    ensures { result ≡ is_answered refusal.now }
{
    match refusal {
        Refusal::NoMemory => false,
        _ => true,
    }
}

/// What a request asks by its path and its body.
#[tactic(auto, using(crate::proofs::HeardRequests::ticks_so, crate::proofs::HeardRequests::says_so, crate::proofs::HeardRequests::says_nothing_so, crate::proofs::HeardRequests::fit_message, crate::proofs::HeardRequests::fit_refusal))]
fn said(alloc: Global, role: Role, path: &str, body: &[u8]) -> Result<Asked, AllocError>
    ensures says { IfOk result (λ asked. Says role path.now body.now (meaning_of asked)) }
    ensures fit { IfOk result (λ asked. IsFit (meaning_of asked)) }
{
    what_is_whole_is_sound();
    if path == "/tick" {
        return Ok(Asked::Steps(Event::Tick));
    }
    match decode(alloc, body, path) {
        Ok(arrival) => {
            let asked = served(alloc, role, arrival)?;
            Ok(asked)
        }
        Err(refusal) => {
            if !is_answered(&refusal) {
                return Err(AllocError);
            }
            let asked = refused(alloc, &refusal)?;
            Ok(asked)
        }
    }
}

/// Reads a request of the connection that is open, and what it asks of a node of this role.
#[tactic(auto, using(crate::proofs::HeardRequests::fault_heard, crate::proofs::HeardRequests::request_heard, crate::proofs::HeardRequests::unread_so, crate::proofs::HeardRequests::line_request, crate::proofs::HeardRequests::line_fault, crate::proofs::HeardRequests::fit_fault, crate::proofs::HeardRequests::lost_by, crate::proofs::HeardRequests::received_by, crate::proofs::Turns::no_less_heard, crate::proofs::HeardRequests::not_lost))]
pub fn read<S: Site>(alloc: Global, site: &mut S, role: Role) -> Asked
    ensures hears { Hears role (open_input (S.told site.old).link) (meaning_of result) }
    ensures fit { IsFit (meaning_of result) }
    ensures lost { meaning_of result ≡ Lost → Rose (S.told site.old).counts.receive (S.told site.new).counts.receive }
    ensures received { (meaning_of result ≡ Lost → ⊥) → (S.told site.new).counts.receive ≡ (S.told site.old).counts.receive }
    ensures counts { NoLess (S.told site.old).counts (S.told site.new).counts }
    ensures line { (made : List Made) × (Heard made (S.told site.old) (S.told site.new) × IsLine (open_input (S.told site.old).link) (is_heard (meaning_of result)) (S.told site.old) (S.told site.new) made) }
{
    match take_request(alloc, site) {
        Ok(request) => match said(alloc, role, request.path.as_str(), request.body.as_slice()) {
            Ok(asked) => asked,
            Err(AllocError) => Asked::Unread,
        },
        Err(refusal) => without_request(refusal),
    }
}
