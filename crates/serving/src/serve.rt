//! Serving.

ghost use Rattle.std.specs.Prelude.{◌≡◌, IfOk, option_map};
ghost use Rattle.node_at.specs.State.{IsNode, seen};
ghost use Rattle.site_model.specs.Counts.{Rose};
ghost use Rattle.serving.specs.Lines.{fault_text};
ghost use Rattle.serving.specs.Runs.{Comes, Prints, Serves, all_lines, start_ended};
ghost use Rattle.serving.specs.Sessions.{Tells};
ghost use Rattle.serving.specs.Services.{base_at, serviced};
ghost use Rattle.serving.specs.declared.service_end.Ended.TheVariants.{SinkFailed};

use crate::lines::{fault_text, line_room, up_line};
use crate::service::Service;
use crate::service_end::{Ended, attach_ended, start_ended};
use crate::session::Session;
use at_base::text::Text;
use node_at::fault::StartFault;
use node_at::node::Node;
use node_at::start::start;
use shown_pages::showing::Showing;
use site_model::sink::{Sink, write_all};
use std::alloc::{AllocError, Global};

/// The base of a node: this one, or else that of its address.
fn base_of(alloc: Global, listen: &str, given: Option<&str>) -> Result<Text, AllocError>
    ensures { IfOk result (λ base. base ≡ base_at listen.now (option_map (λ b. b.now) given.entry)) }
{
    if let Some(given) = given {
        let base = Text::copied(alloc, given)?;
        return Ok(base);
    }
    let mut base = Text::copied(alloc, "http://")?;
    base.push_str(listen)?;
    Ok(base)
}

/// Prints why the node wasn't started, where there is something to print.
#[tactic(auto, using(crate::proofs::StartLines::told, crate::proofs::StartLines::untold, crate::proofs::StartLines::told_partly))]
fn tell_fault<K: Sink>(alloc: Global, fault: &StartFault, sink: &mut K) -> Ended
    ensures told { Tells (fault_text fault.now) (start_ended fault.now) result (K.contents sink.old) (K.contents sink.new) }
    ensures cause { result ≡ SinkFailed → Rose (K.faults sink.old) (K.faults sink.new) }
{
    let text = match fault_text(alloc, fault) {
        Ok(text) => text,
        Err(_) => return Ended::NoMemory,
    };
    if write_all(sink, text.as_bytes()).is_err() {
        return Ended::SinkFailed;
    }
    start_ended(fault)
}

/// Prints that the node is up, and attends to its lines and turns.
#[tactic(auto, using(crate::proofs::Sessions::rose_later, crate::proofs::StartLines::comes, crate::proofs::StartLines::comes_untold, crate::proofs::StartLines::comes_partly))]
fn attend<K: Sink, H: Showing>(
    node: Node,
    alloc: Global,
    service: &Service<'_>,
    sink: &mut K,
    site: &mut H,
) -> Ended
    requires { IsNode (seen node) }
    ensures comes { Prints (Comes H.told node.role (all_lines (serviced service.now)) (seen node) site.old site.new) result (K.contents sink.old) (K.contents sink.new) }
    ensures cause { result ≡ SinkFailed → Rose (K.faults sink.old) (K.faults sink.new) }
{
    let line = match up_line(alloc, node.incarnation()) {
        Ok(line) => line,
        Err(_) => return Ended::NoMemory,
    };
    let room = match line_room(alloc) {
        Ok(room) => room,
        Err(_) => return Ended::NoMemory,
    };
    if write_all(sink, line.as_bytes()).is_err() {
        return Ended::SinkFailed;
    }
    let mut session = Session {
        node,
        role: service.role,
        made: Vec::new(alloc),
        unmet: Vec::new(alloc),
        met: true,
        waited: 0,
        line: room,
    };
    session.attend(alloc, service.lines, service.turns, sink, site)
}

/// Serves: opens the journal's files and the listener, starts the node, prints `up` and its incarnation, and then does line after
/// line and turn after turn, and prints what each brings about.
#[tactic(auto, using(crate::proofs::StartLines::unopened, crate::proofs::StartLines::opened, crate::proofs::StartLines::unstarted, crate::proofs::StartLines::came_up))]
pub fn serve<K: Sink, H: Showing>(
    alloc: Global,
    service: &Service<'_>,
    sink: &mut K,
    site: &mut H,
) -> Ended
    ensures serves { Serves H.told (serviced service.now) result (K.contents sink.old) (K.contents sink.new) site.old site.new }
    ensures cause { result ≡ SinkFailed → Rose (K.faults sink.old) (K.faults sink.new) }
{
    match site.attach(service.journal, service.listen) {
        Ok(()) => {}
        Err(why) => return attach_ended(why),
    }
    let base = match base_of(alloc, service.listen, service.base) {
        Ok(base) => base,
        Err(_) => return Ended::NoMemory,
    };
    match start(alloc, site, &base, service.role, service.limit) {
        Ok(node) => attend(node, alloc, service, sink, site),
        Err(fault) => tell_fault(alloc, &fault, sink),
    }
}
