//! What bytes that come to a node draw (RFC 9110, section 15.5; SOAP 1.1, section 6).
#![tactic(auto)]

ghost use Rattle.std.specs.Prelude.{IfOk, IfSome};
ghost use Rattle.site_memory.specs.Sites.{told_of};
ghost use Rattle.raw_requests.specs.Draws.{Draws};
ghost use Rattle.raw_requests.specs.Connections.{HasSaid, Listens};

use node_at::connection_request::{Asked, read};
use node_at::role::Role;
use site_memory::machine::MemSite;
use site_model::site::{Site, Taken};
use std::alloc::{AllocError, Global};

/// What bytes that come to a node as a connection draw.
#[derive(Clone, Copy, Debug, PartialEq, Eq)]
pub enum Drawn {
    /// They are a message that the node takes, or ask for what is due.
    Forged,
    /// They are refused with this HTTP status. Whether the client waits for the interim line, which comes first.
    Refused { status: u16, waits: bool },
}

/// A machine whose one connection brings these bytes.
#[tactic(auto, using(crate::proofs::OpenedMachines::listens_so))]
fn listening(alloc: Global, bytes: &[u8]) -> Result<MemSite, AllocError>
    ensures { IfOk result (λ site. Listens bytes.now (told_of site)) }
{
    let mut site = MemSite::new(alloc);
    site.connect(bytes)?;
    match site.take() {
        Ok(Taken::Opened) => Ok(site),
        _ => Err(AllocError),
    }
}

/// Whether the interim line was said on a connection; none where sending it failed.
fn said(site: &MemSite) -> Option<bool>
    ensures { IfSome result (λ waits. HasSaid waits (told_of site.now).calls (told_of site.now).counts.link) }
{
    if site.failed_sends() > 0 {
        return None;
    }
    Some(site.calls() > 0)
}

/// What bytes draw from a node that is a coordinator, a participant and an initiator in one.
#[tactic(auto, using(crate::proofs::DrawLaws::refused_so, crate::proofs::DrawLaws::forged_so))]
pub fn draw(alloc: Global, bytes: &[u8]) -> Result<Drawn, AllocError>
    ensures { IfOk result (Draws bytes.now) }
{
    let mut site = listening(alloc, bytes)?;
    match read(alloc, &mut site, Role::All) {
        Asked::Refused {
            status,
            text: _text,
        } => match said(&site) {
            Some(waits) => Ok(Drawn::Refused { status, waits }),
            None => Err(AllocError),
        },
        Asked::Steps(_event) => Ok(Drawn::Forged),
        Asked::Lost | Asked::Unread => Err(AllocError),
    }
}
