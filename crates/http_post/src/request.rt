//! A whole request, taken of a node's machine.

ghost use Rattle.std.specs.Prelude.{ℕ, List, ◌≡◌, ◌≢◌, ◌≤◌, ◌⊎◌, Err, IfErr, IfOk, Ok, OnOk, Some, drop};
ghost use Rattle.site_model.specs.Told.{Link, Made};
ghost use Rattle.http_post.specs.Causes.{HasLinkCause};
ghost use Rattle.http_post.specs.Connections.{HasCome, Leaves, left};
ghost use Rattle.http_post.specs.Conversations.{HasCauses, Hears, InOrder, IsHeard, IsRefused, IsSaid, Says, Speaks, TookHead, interim};
ghost use Rattle.http_post.specs.FieldMaps.{Draws, SaysOf};
ghost use Rattle.http_post.specs.PartialHeads.{IsRead};
ghost use Rattle.http_post.specs.RawBytes.{IsFault};
ghost use Rattle.http_post.specs.Requests.{Asks};
ghost use Rattle.http_post.specs.declared.refusal.HttpRefusal.TheVariants as refusals;

use crate::body::read_body;
use crate::head::{Head, HeadFault, read_head};
use crate::head_request::{Asking, judge};
use crate::refusal::HttpRefusal;
use at_base::text::Text;
use site_model::site::Site;
use std::alloc::{AllocError, Global};

/// A request: a post of this content to this path.
pub struct Request {
    pub path: Text,
    pub body: Vec<u8>,
}

impl Drop for Request {
    fn drop(self) {
        let Request {
            path: _path,
            body: _body,
        } = self;
    }
}

/// A head that was heard, and the bytes that came with it.
#[derive(Drop)]
struct Heard {
    asking: Asking,
    rest: Vec<u8>,
}

/// The interim line, and the empty line that ends it (RFC 9110, section 15.2.1).
fn interim() -> &'static [u8]
    ensures { result.now ≡ interim }
{
    b"HTTP/1.1 100 Continue\r\n\r\n"
}

/// What a head asks, with what came behind it.
#[tactic(auto, using(crate::proofs::Conversations::never_link))]
fn judged(alloc: Global, head: &Head) -> Result<Heard, HttpRefusal>
    requires { IsRead head.now.bytes.items head.now.places head.now.spans }
    ensures ok { IfOk result (λ h. SaysOf head.now.bytes.items head.now.places head.now.spans h.asking.path h.asking.framing h.asking.waits) }
    ensures rest { IfOk result (λ h. h.rest.items ≡ drop head.now.spans.len head.now.bytes.items) }
    ensures err { IfErr result (λ e. Draws head.now.bytes.items head.now.places head.now.spans e) }
    ensures link { IfErr result (λ e. e ≢ refusals.Link) }
{
    let asking = match judge(alloc, head) {
        Ok(asking) => asking,
        Err(refusal) => return Err(refusal),
    };
    match Vec::from_slice(alloc, head.rest()) {
        Ok(rest) => Ok(Heard { asking, rest }),
        Err(AllocError) => Err(HttpRefusal::NoMemory),
    }
}

/// Hears a head out, and judges it.
#[tactic(auto, using(crate::proofs::Conversations::heard, crate::proofs::Conversations::drawn, crate::proofs::Conversations::nothing_heard, crate::proofs::Comings::head_came))]
fn hear<S: Site>(alloc: Global, site: &mut S) -> Result<Heard, HttpRefusal>
    ensures ok { IfOk result (λ h. (input : List ℕ) → left (S.told site.old) ≡ Some input → IsHeard input (left (S.told site.new)) h.asking.path h.asking.framing h.asking.waits h.rest.items) }
    ensures err { IfErr result (λ e. IsFault e (λ r. (input : List ℕ) → left (S.told site.old) ≡ Some input → IsRefused input r)) }
    ensures cause { HasLinkCause (S.told site.old).counts.receive (S.told site.new).counts.receive result }
    ensures leaves { Leaves S.told site.old site.new }
    ensures early { OnOk result (TookHead (left (S.told site.old)) (left (S.told site.new))) }
    ensures some { OnOk result (HasCome (left (S.told site.old))) }
    ensures came { IfErr result (λ e. e ≡ refusals.NoMemory → HasCome (left (S.told site.old))) }
{
    let head = match read_head(alloc, site) {
        Ok(head) => head,
        Err(HeadFault::NoHead) => return Err(HttpRefusal::BadRequest),
        Err(HeadFault::Failed) => return Err(HttpRefusal::Link),
        Err(HeadFault::NoMemory) => return Err(HttpRefusal::NoMemory),
    };
    match judged(alloc, &head) {
        Ok(heard) => Ok(heard),
        Err(refusal) => Err(refusal),
    }
}

/// Says the interim line, if the client waits for it. Where that fails, the body may come all the same.
#[tactic(auto, using(crate::proofs::Conversations::silence, crate::proofs::Conversations::spoken))]
fn go_on<S: Site>(site: &mut S, waits: bool)
    ensures hears { (made : List Made) × (Hears made (S.told site.old) (S.told site.new) × IsSaid waits (S.told site.old).counts.link (S.told site.new).counts.link made) }
    ensures same { left (S.told site.new) ≡ left (S.told site.old) }
    ensures receive { (S.told site.new).counts.receive ≡ (S.told site.old).counts.receive }
    ensures link { (S.told site.old).counts.link ≤ (S.told site.new).counts.link }
{
    if !waits {
        return;
    }
    let _ = site.send(interim());
}

/// Reads the body that was asked for, behind the interim line.
fn hear_body<S: Site>(alloc: Global, site: &mut S, heard: Heard) -> Result<Request, HttpRefusal>
    ensures ok { IfOk result (λ r. (input : List ℕ) → IsHeard input (left (S.told site.old)) heard.asking.path heard.asking.framing heard.asking.waits heard.rest.items → Asks input (Ok (record { path = r.path; body = r.body.items }))) }
    ensures err { IfErr result (λ e. IsFault e (λ r. (input : List ℕ) → IsHeard input (left (S.told site.old)) heard.asking.path heard.asking.framing heard.asking.waits heard.rest.items → Asks input (Err r))) }
    ensures cause { HasCauses (S.told site.old).counts (S.told site.new).counts result }
    ensures hears { (made : List Made) × (Hears made (S.told site.old) (S.told site.new) × IsSaid heard.asking.waits (S.told site.old).counts.link (S.told site.new).counts.link made) }
    ensures order { Speaks S.told site.old site.new }
{
    let Heard { asking, mut rest } = heard;
    go_on(site, asking.waits);
    match read_body(alloc, site, &mut rest, asking.framing) {
        Ok(body) => Ok(Request {
            path: asking.into_path(),
            body,
        }),
        Err(refusal) => Err(refusal),
    }
}

/// Takes a request of the connection that is open: what its bytes ask, or the first refusal that holds, in whatever pieces
/// they come. The interim line is sent where the client waits for it, before more of the body is read. Memory is wanted only where
/// something came.
pub fn take_request<S: Site>(alloc: Global, site: &mut S) -> Result<Request, HttpRefusal>
    ensures ok { IfOk result (λ r. (link : Link) → (S.told site.old).link ≡ Some link → Asks link.open_bytes (Ok (record { path = r.path; body = r.body.items }))) }
    ensures err { IfErr result (λ e. IsFault e (λ r. (link : Link) → (S.told site.old).link ≡ Some link → Asks link.open_bytes (Err r))) }
    ensures cause { HasCauses (S.told site.old).counts (S.told site.new).counts result }
    ensures hears { (made : List Made) × (Hears made (S.told site.old) (S.told site.new) × Says result (S.told site.old) (S.told site.new) made) }
    ensures order { ((S.told site.new).calls ≡ (S.told site.old).calls) ⊎ InOrder S.told site.old site.new }
    ensures some { OnOk result (HasCome (left (S.told site.old))) }
    ensures came { IfErr result (λ e. e ≡ refusals.NoMemory → HasCome (left (S.told site.old))) }
{
    let heard = match hear(alloc, site) {
        Ok(heard) => heard,
        Err(refused) => return Err(refused),
    };
    match hear_body(alloc, site, heard) {
        Ok(request) => Ok(request),
        Err(refusal) => Err(refusal),
    }
}
