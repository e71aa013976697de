//! From a message to the bytes of its envelope.

ghost use Rattle.std.specs.Prelude.{◌≡◌, IfOk, List, ℕ};
ghost use Rattle.std.specs.Option.{option_map};
ghost use Rattle.wire_posts.specs.Envelopes.{Encodes, IsEnvelopeOf, IsTextOf};
ghost use Rattle.wire_posts.specs.Returns.{IsReadBack, Returns};
ghost use Rattle.wire_posts.specs.Faults.{refusal_status, refusal_text, refusal_tree};
ghost use Rattle.xml_profile.specs.CanonicalText.{canonical_text};

use crate::body::body_of;
use crate::fault::WrittenFault;
use crate::headers::headers_of;
use addressing::writer::{OutgoingHeaders, header_blocks};
use at_base::outs::Post;
use at_base::text::Text;
use soap_profile::envelope::envelope_tree;
use std::alloc::{AllocError, Global};
use wire_msgs::refusal::Refusal;
use xml_profile::tree::Tree;
use xml_profile::writer::write_tree;

/// What goes out: a message, or the answer to a request that is refused.
#[derive(Debug, PartialEq, Eq, Drop)]
pub enum Outgoing {
    Post(Post),
    Refusal(Refusal),
}

/// What a refused request is answered with.
#[derive(Debug, PartialEq, Eq, Drop)]
pub struct Answer {
    /// The HTTP status: 413, 404, 503 or 500.
    pub status: u16,
    /// The envelope of a fault. None where the answer has no body.
    pub body: Option<Vec<u8>>,
}

/// What goes out, as HTTP carries it.
#[derive(Debug, PartialEq, Eq, Drop)]
pub enum Encoded {
    /// The body of a request.
    Request(Vec<u8>),
    /// The answer to a request that is refused.
    Answer(Answer),
}

/// What goes out, in bytes: the canonical text of its envelope, in UTF-8 without an XML declaration. The answer to a
/// refused request has a status, and may have no body. Where a message can be read at all, it is read as what it was.
pub fn encode(alloc: Global, outgoing: &Outgoing) -> Result<Encoded, AllocError>
    ensures encoded { IfOk result (Encodes outgoing.now) }
    ensures returns { IfOk result (IsReadBack outgoing.now) }
{
    match outgoing {
        Outgoing::Post(post) => {
            let bytes = encode_post(alloc, post)?;
            Ok(Encoded::Request(bytes))
        }
        Outgoing::Refusal(refusal) => {
            let answer = encode_refusal(alloc, refusal)?;
            Ok(Encoded::Answer(answer))
        }
    }
}

/// The canonical text of the envelope of a message. Where the message can be read at all, it is read as what it was.
#[tactic(auto, using(crate::proofs::Arrivals::text_returns))]
pub fn encode_post(alloc: Global, post: &Post) -> Result<Vec<u8>, AllocError>
    ensures text { IfOk result (λ bytes. IsTextOf post.now bytes.items) }
    ensures only { IfOk result (λ bytes. (text : List ℕ) → IsTextOf post.now text → text ≡ bytes.items) }
    ensures returns { IfOk result (λ bytes. Returns post.now bytes.items) }
{
    let tree = envelope_of(alloc, post)?;
    let bytes = canonical_text(alloc, &tree)?;
    Ok(bytes)
}

/// The answer to a refused request. One that is too long, at no target, or that finds no memory has no body.
pub fn encode_refusal(alloc: Global, refusal: &Refusal) -> Result<Answer, AllocError>
    ensures status { IfOk result (λ answer. answer.status ≡ refusal_status refusal.now) }
    ensures body { IfOk result (λ answer. option_map (λ bytes. bytes.items) answer.body ≡ refusal_text refusal.now) }
{
    let body = refusal_body(alloc, refusal)?;
    Ok(Answer {
        status: refusal_status(refusal),
        body,
    })
}

/// The HTTP status of the answer (RFC 9110, sections 15.5.5, 15.5.14, 15.6.1 and 15.6.4).
fn refusal_status(refusal: &Refusal) -> u16
    ensures { result ≡ refusal_status refusal.now }
{
    match refusal {
        Refusal::TooLong => 413,
        Refusal::NoTarget => 404,
        Refusal::NoMemory => 503,
        _ => 500,
    }
}

/// The canonical text of the envelope of the fault that the refusal is.
fn refusal_body(alloc: Global, refusal: &Refusal) -> Result<Option<Vec<u8>>, AllocError>
    ensures { IfOk result (λ body. option_map (λ bytes. bytes.items) body ≡ refusal_text refusal.now) }
{
    match WrittenFault::of_refusal(refusal) {
        Some(fault) => {
            let tree = refusal_tree(alloc, fault)?;
            let bytes = canonical_text(alloc, &tree)?;
            Ok(Some(bytes))
        }
        None => Ok(None),
    }
}

fn canonical_text(alloc: Global, tree: &Tree) -> Result<Vec<u8>, AllocError>
    ensures { IfOk result (λ bytes. bytes.items ≡ canonical_text tree.now) }
{
    let mut bytes = Vec::new(alloc);
    write_tree(alloc, tree, &mut bytes)?;
    Ok(bytes)
}

fn envelope_of(alloc: Global, post: &Post) -> Result<Tree, AllocError>
    ensures { IfOk result (IsEnvelopeOf post.now) }
{
    let body = body_of(alloc, &post.message)?;
    let headers = headers_of(alloc, post)?;
    let blocks = header_blocks(alloc, headers)?;
    envelope_tree(alloc, blocks, body)
}

fn refusal_tree(alloc: Global, fault: WrittenFault) -> Result<Tree, AllocError>
    ensures { IfOk result (λ t. t ≡ refusal_tree fault) }
{
    let body = fault.body(alloc)?;
    let headers = OutgoingHeaders {
        to: None,
        action: Text::copied(alloc, fault.action())?,
        id: None,
        relates: None,
        from: None,
        reply: None,
        context: None,
    };
    let blocks = header_blocks(alloc, headers)?;
    envelope_tree(alloc, blocks, body)
}
