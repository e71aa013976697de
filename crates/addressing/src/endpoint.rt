//! Endpoints (WS-Addressing 1.0 Core, section 2).

ghost use Rattle.std.specs.Prelude.{◌≡◌, ◌<◌, IfOk, IsTrue, IsUtf8, Some, length};
ghost use Rattle.std.specs.Option.{option_copied, option_map};
ghost use Rattle.at_base.specs.declared.limits.TheConstants.{MOST_ENDPOINT};
ghost use Rattle.soap_profile.specs.Values.{text_value};
ghost use Rattle.addressing.specs.Endpoints.{bounded, epr_of, fault_of, is_anonymous, is_nobody, joined, params_of, reply_at, reply_of};

use crate::long_space::has_long_space;
use at_base::epr::{Epr, Reply};
use at_base::limits::MOST_ENDPOINT;
use at_base::text::Text;
use soap_profile::elements::child;
use soap_profile::value::text_value;
use std::alloc::{AllocError, Global};
use std::str;
use xml_profile::names::ADDRESSING;
use xml_profile::tree::Tree;
use xml_profile::writer::write_tree;

/// The address of the connection that a request came on (WS-Addressing 1.0 Core, section 2.1).
pub const ANONYMOUS: &str = "http://www.w3.org/2005/08/addressing/anonymous";
/// The address of nowhere (WS-Addressing 1.0 Core, section 2.1).
pub const NONE: &str = "http://www.w3.org/2005/08/addressing/none";

/// The endpoint that an element spells, or none where it is unreadable: without exactly one address that isn't empty,
/// with reference parameters or metadata twice, or with more than 2,048 bytes in address and canonical parameters.
pub fn read_epr(alloc: Global, tree: &Tree) -> Result<Option<Epr>, AllocError>
    ensures { IfOk result (λ epr. epr ≡ epr_of tree.now) }
{
    let address = child(tree, Some(ADDRESSING), "Address");
    let params = child(tree, Some(ADDRESSING), "ReferenceParameters");
    let metadata = child(tree, Some(ADDRESSING), "Metadata");
    joined(alloc, address, params, metadata)
}

/// A part is nothing where it stands more than once, an inner nothing where it isn't there.
fn joined(
    alloc: Global,
    address: Option<Option<&Tree>>,
    params: Option<Option<&Tree>>,
    metadata: Option<Option<&Tree>>,
) -> Result<Option<Epr>, AllocError>
    ensures { IfOk result (λ epr. epr ≡ joined (option_map option_copied address.entry) (option_map option_copied params.entry) (option_map option_copied metadata.entry)) }
{
    let Some(Some(address)) = address else {
        return Ok(None);
    };
    let Some(params) = params else {
        return Ok(None);
    };
    match metadata {
        Some(_) => spelled(alloc, address, params),
        None => Ok(None),
    }
}

#[tactic(auto, using(crate::proofs::Lengths::no_endpoint))]
fn spelled(alloc: Global, address: &Tree, params: Option<&Tree>) -> Result<Option<Epr>, AllocError>
    ensures { IfOk result (λ epr. epr ≡ bounded (text_value address.now) (params_of (option_copied params.entry))) }
{
    if are_too_long(params) {
        return Ok(None);
    }
    let address = text_value(alloc, address)?;
    let params = canonical_params(alloc, params)?;
    bounded(alloc, address, params.as_slice())
}

/// Whether the parameters have no room in an endpoint, as a namespace in them shows.
fn are_too_long(params: Option<&Tree>) -> bool
    ensures { IsTrue result → MOST_ENDPOINT < length (params_of (option_copied params.entry)) }
{
    match params {
        Some(tree) => has_long_space(tree),
        None => false,
    }
}

#[tactic(auto, using(crate::proofs::Utf8::nothing, crate::proofs::Utf8::alone))]
fn canonical_params(alloc: Global, params: Option<&Tree>) -> Result<Vec<u8>, AllocError>
    ensures is { IfOk result (λ bytes. bytes.items ≡ params_of (option_copied params.entry)) }
    ensures utf8 { IfOk result (λ bytes. IsUtf8 bytes.items) }
{
    let mut bytes = Vec::new(alloc);
    if let Some(tree) = params {
        write_tree(alloc, tree, &mut bytes)?;
    }
    Ok(bytes)
}

fn bounded(alloc: Global, address: Text, params: &[u8]) -> Result<Option<Epr>, AllocError>
    requires { IsUtf8 params.now }
    ensures { IfOk result (λ epr. epr ≡ bounded address params.now) }
{
    let length = address.as_str().len();
    if length == 0 || length > MOST_ENDPOINT || params.len() > MOST_ENDPOINT - length {
        return Ok(None);
    }
    let params = Text::copied(alloc, unsafe { str::from_utf8_unchecked(params) })?;
    Ok(Some(Epr { address, params }))
}

/// Whether an endpoint is the connection that the request came on.
pub fn is_anonymous(epr: &Epr) -> bool
    ensures { result ≡ is_anonymous epr.now }
{
    epr.address.as_str() == ANONYMOUS
}

/// Whether an endpoint is nowhere.
pub fn is_nobody(epr: &Epr) -> bool
    ensures { result ≡ is_nobody epr.now }
{
    epr.address.as_str() == NONE
}

fn reply_at(epr: &Epr) -> Result<Reply, AllocError>
    ensures { IfOk result (λ reply. reply ≡ reply_at epr.now) }
{
    if is_anonymous(epr) {
        Ok(Reply::Anonymous)
    } else if is_nobody(epr) {
        Ok(Reply::Nobody)
    } else {
        Ok(Reply::At(epr.clone()?))
    }
}

/// Where the reply to a message with this ReplyTo goes (WS-Addressing 1.0 Core, section 3.4).
pub fn reply_to(reply: &Option<Epr>) -> Result<Reply, AllocError>
    ensures { IfOk result (λ to. to ≡ reply_of reply.now) }
{
    match reply {
        Some(epr) => reply_at(epr),
        None => Ok(Reply::Anonymous),
    }
}

/// Where a fault that a message with this FaultTo and this ReplyTo draws goes (WS-Addressing 1.0 Core, section 3.4).
pub fn fault_to(fault: &Option<Epr>, reply: &Option<Epr>) -> Result<Reply, AllocError>
    ensures { IfOk result (λ to. to ≡ fault_of fault.now reply.now) }
{
    match fault {
        Some(epr) => reply_at(epr),
        None => reply_to(reply),
    }
}
