//! From the bytes of a request to the message that arrived.

ghost use Rattle.std.specs.Prelude.{◌≡◌, IfErr, IfOk, Some, true};
ghost use Rattle.std.specs.Option.{option_copied};
ghost use Rattle.endpoints.specs.Forms.{takes};
ghost use Rattle.xml_grammar.specs.Refusals.{Reads};
ghost use Rattle.xml_profile.specs.declared.tree.Tree.{Tree};
ghost use Rattle.wire_msgs.specs.Arrivals.{Arrives, IsRefused, arrival_in, arrival_of, arrival_under, arrived, fault_at, message_of, said_at, said_in, targeted};
ghost use Rattle.wire_msgs.specs.Refusals.{Answers};
ghost use Rattle.wire_msgs.specs.Targets.{target_at};
ghost use Rattle.wire_msgs.specs.WholeMessages.{IsWhole};

use crate::body::read_body;
use crate::form::{local_of, of_action, space_of};
use crate::refusal::{ParameterName, Refusal};
use crate::target::target_at;
use addressing::destination::Destination;
use addressing::headers::{Headers, read_headers};
use addressing::request::check_request;
use at_base::epr::Epr;
use at_base::message::Message;
use at_base::target::Target;
use at_base::text::Text;
use endpoints::form::{Form, takes_fault, takes_form};
use soap_profile::envelope::{Envelope, open_envelope};
use soap_profile::fault::{is_fault, read_fault};
use soap_profile::value::is_named;
use std::alloc::Global;
use xml_grammar::reader::read_tree;
use xml_profile::tree::Tree;

/// A message that arrived, and its message addressing headers (WS-Addressing 1.0 Core, section 3.1).
#[derive(Debug, PartialEq, Eq, Drop)]
pub struct Arrival {
    pub message: Message,
    pub target: Target,
    /// Absent where it is anonymous.
    pub to: Option<Text>,
    pub id: Option<Text>,
    pub relates: Option<Text>,
    /// Absent where it is anonymous or none.
    pub from: Option<Epr>,
    pub reply: Option<Epr>,
    pub fault: Option<Epr>,
}

/// The message that the bytes of a request at this path mean, or the first refusal that holds, in the order of
/// [`Refusal`].
#[tactic(auto, using(crate::proofs::TreeAnswers::tree_refused, crate::proofs::TreeAnswers::no_tree, crate::proofs::TreeAnswers::arrives, crate::proofs::TreeAnswers::is_refused, crate::proofs::MessageTargets::is_taken, crate::proofs::WholeMessages::is_whole))]
pub fn decode(alloc: Global, bytes: &[u8], path: &str) -> Result<Arrival, Refusal>
    ensures ok { IfOk result (Arrives bytes.now path.now) }
    ensures taken { IfOk result (λ arrival. takes arrival.target arrival.message ≡ true) }
    ensures whole { IfOk result IsWhole }
    ensures err { IfErr result (IsRefused bytes.now path.now) }
    ensures every { (t : Tree) → Reads bytes.now t → Answers (arrival_of t path.now) result }
{
    let tree = read_tree(alloc, bytes)?;
    read_arrival(alloc, &tree, path)
}

#[tactic(auto, using(crate::proofs::RefusalChains::soap_refused))]
fn read_arrival(alloc: Global, tree: &Tree, path: &str) -> Result<Arrival, Refusal>
    ensures { Answers (arrival_of tree.now path.now) result }
{
    let envelope = open_envelope(alloc, tree)?;
    read_envelope(alloc, &envelope, path)
}

#[tactic(auto, using(crate::proofs::RefusalChains::addressing_refused))]
fn read_envelope(alloc: Global, envelope: &Envelope<'_>, path: &str) -> Result<Arrival, Refusal>
    ensures { Answers (arrival_in envelope.now path.now) result }
{
    let headers = read_headers(alloc, &envelope.headers)?;
    read_under(alloc, headers, envelope.body, path)
}

#[tactic(auto, using(crate::proofs::RefusalChains::refused_first))]
fn read_under(
    alloc: Global,
    headers: Headers<'_>,
    body: &Tree,
    path: &str,
) -> Result<Arrival, Refusal>
    ensures { Answers (arrival_under headers.entry body.now path.now) result }
{
    let (target, message) = read_said(alloc, &headers, body, path)?;
    Ok(arrived(headers, target, message))
}

#[tactic(auto, using(crate::proofs::RefusalChains::addressing_refused, crate::proofs::RefusalChains::refused_first))]
fn read_said(
    alloc: Global,
    headers: &Headers<'_>,
    body: &Tree,
    path: &str,
) -> Result<(Target, Message), Refusal>
    ensures { Answers (said_in headers.now body.now path.now) result }
{
    check_request(alloc, headers, &body.name)?;
    let target = read_target(&headers.to, path)?;
    let message = read_message(alloc, headers, &target, body)?;
    Ok((target, message))
}

fn arrived(headers: Headers<'_>, target: Target, message: Message) -> Arrival
    ensures { result ≡ arrived headers.entry target message }
{
    Arrival {
        message,
        target,
        to: address_of(headers.to),
        id: headers.id,
        relates: headers.relates,
        from: headers.from,
        reply: headers.reply,
        fault: headers.fault,
    }
}

fn address_of(to: Option<Destination>) -> Option<Text>
    ensures { result ≡ to }
{
    Some(to?.into_address())
}

fn read_target(to: &Option<Destination>, path: &str) -> Result<Target, Refusal>
    ensures { Answers (targeted (target_at to.now path.now)) result }
{
    match target_at(to, path) {
        Some(target) => Ok(target),
        None => Err(Refusal::NoTarget),
    }
}

fn read_message(
    alloc: Global,
    headers: &Headers<'_>,
    target: &Target,
    body: &Tree,
) -> Result<Message, Refusal>
    ensures { Answers (message_of headers.now target.now body.now) result }
{
    if is_fault(&body.name) {
        return read_fault_at(alloc, target, body);
    }
    match of_action(headers.action.as_str()) {
        Some(form) => read_form_at(alloc, form, headers.context, target, body),
        None => Err(Refusal::Action),
    }
}

#[tactic(auto, using(crate::proofs::RefusalChains::fault_refused))]
fn read_fault_at(alloc: Global, target: &Target, body: &Tree) -> Result<Message, Refusal>
    ensures { Answers (fault_at target.now body.now) result }
{
    if !takes_fault(*target) {
        return Err(Refusal::Action);
    }
    let name = read_fault(alloc, body)?;
    Ok(Message::Fault { name })
}

fn read_form_at(
    alloc: Global,
    form: Form,
    context: Option<&Tree>,
    target: &Target,
    body: &Tree,
) -> Result<Message, Refusal>
    ensures { Answers (said_at (Some form) (option_copied context.entry) target.now body.now) result }
{
    if !takes_form(*target, form) {
        return Err(Refusal::Action);
    }
    if !is_named(&body.name, space_of(form), local_of(form)) {
        return Err(Refusal::Parameters {
            name: ParameterName::Body,
        });
    }
    read_body(alloc, form, context, body)
}
