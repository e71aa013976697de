//! How messages, targets, kinds and votes are printed.

ghost use Rattle.std.specs.Prelude.{◌≡◌, ◌++◌, OnOk, codes};
ghost use Rattle.at_base.specs.IdText.{id_text};
ghost use Rattle.at_base.specs.declared.target.Target.TheVariants.{Coordinator};
ghost use Rattle.envelope_cmd.specs.Names.{message_name, printed_target};
ghost use Rattle.at_base.specs.Names.{kind_name};

use crate::lines::push;
use at_base::id::Id;
use at_base::message::Message;
use at_base::notice::Kind;
use at_base::target::{Seat, Target};
use endpoints::form::Form;
use itoa::Buffer;
use std::alloc::{AllocError, Global};
use wire_msgs::form::local_of;

/// The local name of the element in a message's body, or `Fault`.
pub fn message_name(message: &Message) -> &'static str
    ensures { result.now ≡ message_name message.now }
{
    match Form::of(message) {
        Some(form) => local_of(form),
        None => "Fault",
    }
}

/// Adds the printed target to the end.
pub fn push_target(alloc: Global, target: &Target, out: &mut Vec<u8>) -> Result<(), AllocError>
    ensures { OnOk result (out.new.items ≡ out.old.items ++ printed_target target.now) }
{
    match target {
        Target::Activation => push("activation", out),
        Target::Registration(id) => push_item(alloc, "registration ", id, out),
        Target::Completion(id) => push_item(alloc, "completion ", id, out),
        Target::Coordinator { id, seat } => push_seat(alloc, id, seat, out),
        Target::Participant { id, kind } => {
            push("participant ", out)?;
            push_party(alloc, *kind, id, out)
        }
        Target::Initiator(id) => push_item(alloc, "initiator ", id, out),
        Target::Work => push("work", out),
    }
}

fn push_item(alloc: Global, name: &str, id: &Id, out: &mut Vec<u8>) -> Result<(), AllocError>
    ensures { OnOk result (out.new.items ≡ out.old.items ++ (name.now ++ id_text id.now)) }
{
    push(name, out)?;
    id.put(alloc, out)
}

fn push_party(alloc: Global, kind: Kind, id: &Id, out: &mut Vec<u8>) -> Result<(), AllocError>
    ensures { OnOk result (out.new.items ≡ out.old.items ++ (kind_name kind ++ (codes " " ++ id_text id.now))) }
{
    push(kind.name(), out)?;
    push(" ", out)?;
    id.put(alloc, out)
}

fn push_seat(alloc: Global, id: &Id, seat: &Seat, out: &mut Vec<u8>) -> Result<(), AllocError>
    ensures { OnOk result (out.new.items ≡ out.old.items ++ printed_target (Coordinator id.now seat.now)) }
{
    push("coordinator ", out)?;
    push_party(alloc, seat.kind, id, out)?;
    push(" ", out)?;
    push(Buffer::new().format(seat.number), out)
}
