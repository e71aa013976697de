//! Pages, which are shown beside the turns to who asks for them.

ghost use Rattle.std.specs.Prelude.{◌≡◌, All, List};
ghost use Rattle.atx_sites.specs.Arrivals.{Bounded, HaveCome};
ghost use Rattle.atx_sites.specs.Departures.{IsTimed, Within};
ghost use Rattle.atx_sites.specs.LinkCalls.{Later, ReadsClock};
ghost use Rattle.atx_sites.specs.Waits.{Changes};
ghost use Rattle.atx_sites.specs.declared.arriving.Arriving.{Arriving as Arrives};
ghost use Rattle.system_calls.specs.Calls.{Calls, Number};

use crate::arriving::Arriving;
use crate::departures::{self, Departures};
use crate::waiting::Waiting;
use shown_pages::page::{Counts, Page};
use shown_pages::pages::Pages;
use std::alloc::{AllocError, Global};
use std::time::Duration;
use system_calls::system::System;

/// Which page a request asks for, by its first line (RFC 9112, section 3).
pub(crate) fn page_of(request: &[u8]) -> Option<Page> {
    let target = request.strip_prefix(b"GET ")?;
    if target.starts_with(b"/ HTTP/1.") {
        return Some(Page::Overview);
    }
    if target.starts_with(b"/status HTTP/1.") {
        return Some(Page::Status);
    }
    if target.starts_with(b"/healthz HTTP/1.") {
        return Some(Page::Health);
    }
    None
}

fn media_type(page: Page) -> &'static str {
    match page {
        Page::Overview => "text/html; charset=utf-8",
        Page::Status => "application/json",
        Page::Health => "text/plain",
    }
}

/// The answer that has a page. Nobody keeps it (RFC 9111, section 5.2.2.5).
fn answer(alloc: Global, page: Page, text: &[u8]) -> Result<Vec<u8>, AllocError> {
    let kind = media_type(page);
    let length = text.len();
    let head = format!(in alloc;
        "HTTP/1.1 200 OK\r\nContent-Type: {kind}\r\nContent-Length: {length}\r\nCache-Control: no-store\r\nConnection: close\r\n\r\n"
    )?;
    let mut bytes = Vec::from_slice(alloc, head.as_bytes())?;
    bytes.extend_from_slice(text)?;
    Ok(bytes)
}

/// The bytes that answer a request for a page.
fn shown<P: Pages>(
    alloc: Global,
    pages: &P,
    page: Page,
    counts: &Counts,
) -> Result<Vec<u8>, AllocError> {
    let text = pages.text(alloc, page, counts)?;
    answer(alloc, page, text.as_slice())
}

/// Shows its page to one that asks for it, and closes its connection behind that: at once, where there is no memory.
#[tactic(auto, using(crate::proofs::Comings::as_late))]
fn show<S: System, P: Pages>(
    system: &mut S,
    departures: &mut Departures<S::Stream>,
    alloc: Global,
    arriving: Arriving<S::Stream>,
    pages: &P,
    counts: &Counts,
)
    ensures later { Later (S.calls system.old) (S.calls system.new) }
    ensures within { Within departures.old.leaving.items → Within departures.new.leaving.items }
    ensures timed { All (IsTimed (S.calls system.old)) departures.old.leaving.items → All (IsTimed (S.calls system.new)) departures.new.leaving.items }
    ensures names { departures.new.names ≡ departures.old.names }
{
    let Some(page) = page_of(arriving.bytes.as_slice()) else {
        return;
    };
    let Arriving { stream, .. } = arriving;
    if let Ok(bytes) = shown(alloc, pages, page, counts) {
        departures::answer(system, departures, stream, bytes, 0);
    }
}

/// Shows its page to the first that asks for one. Whether there was one.
#[tactic(auto, using(crate::proofs::Comings::as_late, crate::proofs::Comings::have_still))]
pub(crate) fn show_next<S: System, P: Pages>(
    system: &mut S,
    waiting: &mut Waiting<S::Stream>,
    departures: &mut Departures<S::Stream>,
    now: Duration,
    pages: &P,
    counts: &Counts,
) -> bool
    ensures came { (listener : Number) → HaveCome S.Stream.raw_fd listener (S.calls system.old) waiting.old.arriving.items → HaveCome S.Stream.raw_fd listener (S.calls system.new) waiting.new.arriving.items }
    ensures later { Later (S.calls system.old) (S.calls system.new) }
    ensures bounded { Bounded waiting.old.arriving.items → Bounded waiting.new.arriving.items }
    ensures within { Within departures.old.leaving.items → Within departures.new.leaving.items }
    ensures changes { (first : List (Arrives S.Stream)) (start : Calls) → ReadsClock now start (S.calls system.old) → Changes first start waiting.old.arriving.items (S.calls system.old) → Changes first start waiting.new.arriving.items (S.calls system.new) }
    ensures timed { All (IsTimed (S.calls system.old)) departures.old.leaving.items → All (IsTimed (S.calls system.new)) departures.new.leaving.items }
    ensures names { departures.new.names ≡ departures.old.names }
{
    let alloc = waiting.alloc();
    let Some(asking) = waiting.ready(now, true) else {
        return false;
    };
    show(system, departures, alloc, asking, pages, counts);
    true
}
