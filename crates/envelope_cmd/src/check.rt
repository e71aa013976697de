//! `check`: what an envelope says.

ghost use Rattle.std.specs.Prelude.{◌≡◌, ◌++◌, IfOk, OnOk, Some, codes};
ghost use Rattle.std.specs.Option.{option_map};
ghost use Rattle.envelope_cmd.specs.Checks.{IsCheckOf, check_lines, context_lines, create_lines, expires_line, header_lines, identifier_line, message_lines, register_lines, registration_line, type_line, work_lines};
ghost use Rattle.envelope_cmd.specs.Lines.{line, where_some};
ghost use Rattle.envelope_cmd.specs.Names.{printed_target};
ghost use Rattle.at_base.specs.Names.{kind_name, vote_name};
ghost use Rattle.envelope_cmd.specs.Output.{Output, accepted, refused};
ghost use Rattle.envelope_cmd.specs.Refusals.{refusal_line};

use crate::laws::one_report_is_printed;
use crate::lines::{push, push_address, push_address_if, push_line, push_text, push_text_if};
use crate::names::{message_name, push_target};
use crate::output::Printed;
use crate::refusals::refusal_line;
use at_base::message::{Context, Create, Message, Register, Work};
use at_base::notice::{Kind, Vote};
use at_base::target::Target;
use at_base::text::Text;
use itoa::Buffer;
use std::alloc::{AllocError, Global};
use wire_msgs::decode::{Arrival, decode};
use wire_msgs::refusal::Refusal;

/// What the bytes of a request at this path mean, line by line; or the line of the first refusal.
pub fn check(alloc: Global, bytes: &[u8], path: &str) -> Result<Printed, AllocError>
    ensures is { IfOk result (IsCheckOf bytes.now path.now) }
    ensures only { IfOk result (λ printed. (output : Output) → IsCheckOf bytes.now path.now output → output ≡ printed) }
{
    one_report_is_printed();
    report(alloc, bytes, path)
}

fn report(alloc: Global, bytes: &[u8], path: &str) -> Result<Printed, AllocError>
    ensures { IfOk result (IsCheckOf bytes.now path.now) }
{
    match decode(alloc, bytes, path) {
        Ok(arrival) => checked(alloc, &arrival),
        Err(refusal) => refused(alloc, &refusal),
    }
}

/// The line of a refusal. Want of memory prints nothing.
pub fn refused(alloc: Global, refusal: &Refusal) -> Result<Printed, AllocError>
    ensures { IfOk result (λ printed. option_map refused (refusal_line refusal.now) ≡ Some printed) }
{
    match refusal_line(refusal) {
        Some(line) => Printed::refused(alloc, line),
        None => Err(AllocError),
    }
}

fn checked(alloc: Global, arrival: &Arrival) -> Result<Printed, AllocError>
    ensures { IfOk result (λ printed. printed ≡ accepted (check_lines arrival.now)) }
{
    let mut text = Vec::new(alloc);
    push_arrival(alloc, arrival, &mut text)?;
    Ok(Printed::accepted(text))
}

fn push_arrival(alloc: Global, arrival: &Arrival, out: &mut Vec<u8>) -> Result<(), AllocError>
    ensures { OnOk result (out.new.items ≡ out.old.items ++ check_lines arrival.now) }
{
    push_line("message", message_name(&arrival.message), out)?;
    push_target_line(alloc, &arrival.target, out)?;
    push_headers(arrival, out)?;
    push_message(&arrival.message, out)
}

#[tactic(auto, unfolding(crate::specs::Lines::line))]
fn push_target_line(alloc: Global, target: &Target, out: &mut Vec<u8>) -> Result<(), AllocError>
    ensures { OnOk result (out.new.items ≡ out.old.items ++ line (codes "target") (printed_target target.now)) }
{
    push("target ", out)?;
    push_target(alloc, target, out)?;
    push("\n", out)
}

fn push_headers(arrival: &Arrival, out: &mut Vec<u8>) -> Result<(), AllocError>
    ensures { OnOk result (out.new.items ≡ out.old.items ++ header_lines arrival.now) }
{
    push_text_if("id", &arrival.id, out)?;
    push_text_if("relates", &arrival.relates, out)?;
    push_address_if("from", &arrival.from, out)?;
    push_address_if("reply", &arrival.reply, out)?;
    push_address_if("fault", &arrival.fault, out)
}

fn push_message(message: &Message, out: &mut Vec<u8>) -> Result<(), AllocError>
    ensures { OnOk result (out.new.items ≡ out.old.items ++ message_lines message.now) }
{
    match message {
        Message::Create(create) => push_create(create, out),
        Message::CreateResponse(context) => push_context(context, out),
        Message::Register(register) => push_register(register, out),
        Message::RegisterResponse(coordinator) => push_address("service", coordinator, out),
        Message::Work(work) => push_work(work, out),
        Message::Fault { name } => push_text("name", name, out),
        Message::Notice(_) | Message::WorkDone | Message::WorkRefused => Ok(()),
    }
}

fn push_expires(expires: Option<u32>, out: &mut Vec<u8>) -> Result<(), AllocError>
    ensures { OnOk result (out.new.items ≡ out.old.items ++ where_some expires_line expires) }
{
    match expires {
        Some(expires) => push_line("expires", Buffer::new().format(expires), out),
        None => Ok(()),
    }
}

fn push_context(context: &Context, out: &mut Vec<u8>) -> Result<(), AllocError>
    ensures { OnOk result (out.new.items ≡ out.old.items ++ context_lines context.now) }
{
    push_expires(context.expires, out)?;
    push_identifier(context, out)?;
    push_type(&context.coordination, out)?;
    push_registration(context, out)
}

#[tactic(auto, unfolding(crate::specs::Checks::identifier_line))]
fn push_identifier(context: &Context, out: &mut Vec<u8>) -> Result<(), AllocError>
    ensures { OnOk result (out.new.items ≡ out.old.items ++ identifier_line context.now) }
{
    push_text("identifier", &context.identifier, out)
}

#[tactic(auto, unfolding(crate::specs::Checks::type_line))]
fn push_type(coordination: &Text, out: &mut Vec<u8>) -> Result<(), AllocError>
    ensures { OnOk result (out.new.items ≡ out.old.items ++ type_line coordination.now) }
{
    push_text("type", coordination, out)
}

#[tactic(auto, unfolding(crate::specs::Checks::registration_line))]
fn push_registration(context: &Context, out: &mut Vec<u8>) -> Result<(), AllocError>
    ensures { OnOk result (out.new.items ≡ out.old.items ++ registration_line context.now) }
{
    push_address("registration", &context.registration, out)
}

fn push_create(create: &Create, out: &mut Vec<u8>) -> Result<(), AllocError>
    ensures { OnOk result (out.new.items ≡ out.old.items ++ create_lines create.now) }
{
    push_expires(create.expires, out)?;
    push_identifier_if(&create.current, out)?;
    push_type(&create.coordination, out)?;
    push_registration_if(&create.current, out)
}

fn push_identifier_if(context: &Option<Context>, out: &mut Vec<u8>) -> Result<(), AllocError>
    ensures { OnOk result (out.new.items ≡ out.old.items ++ where_some identifier_line context.now) }
{
    match context {
        Some(context) => push_identifier(context, out),
        None => Ok(()),
    }
}

fn push_registration_if(context: &Option<Context>, out: &mut Vec<u8>) -> Result<(), AllocError>
    ensures { OnOk result (out.new.items ≡ out.old.items ++ where_some registration_line context.now) }
{
    match context {
        Some(context) => push_registration(context, out),
        None => Ok(()),
    }
}

fn push_register(register: &Register, out: &mut Vec<u8>) -> Result<(), AllocError>
    ensures { OnOk result (out.new.items ≡ out.old.items ++ register_lines register.now) }
{
    push_text("protocol", &register.protocol, out)?;
    push_address("service", &register.participant, out)
}

fn push_work(work: &Work, out: &mut Vec<u8>) -> Result<(), AllocError>
    ensures { OnOk result (out.new.items ≡ out.old.items ++ work_lines work.now) }
{
    push_context(&work.context, out)?;
    push_text("key", &work.key, out)?;
    push_text("value", &work.value, out)?;
    push_kind(work.kind, out)?;
    push_vote(work.vote, out)
}

fn push_kind(kind: Kind, out: &mut Vec<u8>) -> Result<(), AllocError>
    ensures { OnOk result (out.new.items ≡ out.old.items ++ line (codes "kind") (kind_name kind)) }
{
    push_line("kind", kind.name(), out)
}

fn push_vote(vote: Vote, out: &mut Vec<u8>) -> Result<(), AllocError>
    ensures { OnOk result (out.new.items ≡ out.old.items ++ line (codes "vote") (vote_name vote)) }
{
    push_line("vote", vote.name(), out)
}
