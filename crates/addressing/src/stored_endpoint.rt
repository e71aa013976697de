//! Endpoints that are kept with their reference parameters as a text (WS-Addressing 1.0 Core, section 2).

ghost use Rattle.std.specs.Prelude.{◌≡◌, IfOk, Some};
ghost use Rattle.addressing.specs.Endpoints.{epr_of};
ghost use Rattle.addressing.specs.StoredEndpoints.{IsElementOf, IsEndpointOf, IsKept};

use crate::writer::{Endpoint, endpoint_tree};
use at_base::epr::Epr;
use std::alloc::{AllocError, Global};
use xml_grammar::reader::{TreeRefusal, read_tree};
use xml_profile::name::QName;
use xml_profile::tree::Tree;

/// An endpoint to be written. Parameters that are read as no `wsa:ReferenceParameters` are left out.
pub fn endpoint_of(alloc: Global, epr: &Epr) -> Result<Endpoint, AllocError>
    ensures { IfOk result (IsEndpointOf epr.now) }
{
    let address = epr.address.clone()?;
    if epr.params.as_str().is_empty() {
        return Ok(Endpoint::new(address, None));
    }
    match read_tree(alloc, epr.params.as_str().as_bytes()) {
        Ok(params) => Ok(Endpoint::new(address, Some(params))),
        Err(TreeRefusal::NoMemory) => Err(AllocError),
        Err(_) => Ok(Endpoint::new(address, None)),
    }
}

/// The element of an endpoint. One that was read, and kept as it was read, is read again as it was.
pub fn write_epr(alloc: Global, epr: &Epr, name: QName) -> Result<Tree, AllocError>
    ensures tree { IfOk result (IsElementOf epr.now name) }
    ensures reads { IfOk result (λ t. IsKept epr.now → epr_of t ≡ Some epr.now) }
{
    let endpoint = endpoint_of(alloc, epr)?;
    endpoint_tree(alloc, endpoint, name)
}
