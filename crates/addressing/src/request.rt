//! Messages that ask for an answer (WS-Addressing 1.0 Core, sections 3.2 to 3.4).

ghost use Rattle.std.specs.Prelude.{◌≡◌, IfOk};
ghost use Rattle.addressing.specs.Headers.{Answers};
ghost use Rattle.addressing.specs.Requests.{answerable_of, is_answerable, is_request, request_of, valid};

use crate::endpoint::{is_anonymous, is_nobody};
use crate::headers::{AddressingRefusal, Header, Headers};
use crate::post_to::is_postable;
use at_base::epr::Epr;
use soap_profile::fault::is_fault;
use std::alloc::{AllocError, Global};
use xml_profile::name::QName;

/// The action of CreateCoordinationContext (WS-Coordination 1.2, section 3.1).
pub const CREATE_ACTION: &str =
    "http://docs.oasis-open.org/ws-tx/wscoor/2006/06/CreateCoordinationContext";
/// The action of Register (WS-Coordination 1.2, section 3.2).
pub const REGISTER_ACTION: &str = "http://docs.oasis-open.org/ws-tx/wscoor/2006/06/Register";
/// The action of this project's Work.
pub const WORK_ACTION: &str = "http://example.org/atx/work/1/Work";

/// Whether the headers of a message with this body have what its action asks for, or the first refusal that holds: a
/// CreateCoordinationContext, a Register and a Work have a MessageID, and endpoints that can be answered; a Work has a
/// context.
pub fn check_request(
    alloc: Global,
    headers: &Headers<'_>,
    body: &QName,
) -> Result<(), AddressingRefusal>
    ensures { Answers (request_of headers.now body.now) result }
{
    if is_request(headers, body) {
        check_answerable(alloc, headers)
    } else {
        Ok(())
    }
}

fn is_request(headers: &Headers<'_>, body: &QName) -> bool
    ensures { result ≡ is_request headers.now body.now }
{
    let action = headers.action.as_str();
    !is_fault(body)
        && (action == CREATE_ACTION || action == REGISTER_ACTION || action == WORK_ACTION)
}

fn check_answerable(alloc: Global, headers: &Headers<'_>) -> Result<(), AddressingRefusal>
    ensures { Answers (answerable_of headers.now) result }
{
    if headers.id.is_none() {
        return Err(AddressingRefusal::MissingHeader {
            name: Header::MessageId,
        });
    }
    check_endpoint(alloc, &headers.reply, Header::ReplyTo)?;
    check_endpoint(alloc, &headers.fault, Header::FaultTo)?;
    if headers.action.as_str() == WORK_ACTION && headers.context.is_none() {
        return Err(AddressingRefusal::MissingHeader {
            name: Header::CoordinationContext,
        });
    }
    Ok(())
}

fn check_endpoint(
    alloc: Global,
    endpoint: &Option<Epr>,
    name: Header,
) -> Result<(), AddressingRefusal>
    ensures { Answers (valid name (is_answerable endpoint.now)) result }
{
    if is_answerable(alloc, endpoint)? {
        Ok(())
    } else {
        Err(AddressingRefusal::InvalidHeader { name })
    }
}

fn is_answerable(alloc: Global, endpoint: &Option<Epr>) -> Result<bool, AllocError>
    ensures { IfOk result (λ is. is ≡ is_answerable endpoint.now) }
{
    let Some(epr) = endpoint else {
        return Ok(true);
    };
    if is_anonymous(epr) || is_nobody(epr) {
        return Ok(true);
    }
    is_postable(alloc, epr.address.as_str())
}
