//! The URIs of WS-AtomicTransaction 1.2 (section 3).

ghost use Rattle.std.specs.Prelude.{◌≡◌};
ghost use Rattle.endpoints.specs.Addresses.{atomic, completion_protocol, protocol_of};

use at_base::notice::Kind;

/// The coordination type of atomic transactions (section 3.1).
pub fn atomic() -> &'static str
    ensures { result.now ≡ atomic }
{
    "http://docs.oasis-open.org/ws-tx/wsat/2006/06"
}

/// The Completion protocol (section 3.2).
pub fn completion_protocol() -> &'static str
    ensures { result.now ≡ completion_protocol }
{
    "http://docs.oasis-open.org/ws-tx/wsat/2006/06/Completion"
}

/// The two-phase commit protocol of a kind of participant (section 3.3).
pub fn protocol_of(kind: Kind) -> &'static str
    ensures { result.now ≡ protocol_of kind }
{
    match kind {
        Kind::Volatile => "http://docs.oasis-open.org/ws-tx/wsat/2006/06/Volatile2PC",
        Kind::Durable => "http://docs.oasis-open.org/ws-tx/wsat/2006/06/Durable2PC",
    }
}
