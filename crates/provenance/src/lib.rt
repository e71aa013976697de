//! Laws alone: where the endpoints and texts come from that a book holds, records and posts.
#![tactic(auto)]

ghost use Rattle.provenance.specs.Endpoints.{EndpointsAreKnown};

/// Every endpoint that a step posts to, names, keeps or records is the node's own, or is one that its book knew or that came with the
/// message or the request.
#[tactic(auto, using(crate::proofs::Steps::endpoints_are_known))]
pub fn endpoints_are_known()
    ensures { EndpointsAreKnown }
{}
