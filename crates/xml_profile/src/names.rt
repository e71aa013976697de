//! The namespaces that the profile knows.

ghost use Rattle.std.specs.Prelude.{◌≡◌};
ghost use Rattle.std.specs.Option.{option_map};
ghost use Rattle.xml_profile.specs.Prefixes.{fixed_prefix};

/// Of SOAP envelopes (SOAP 1.1, section 4).
pub const SOAP: &str = "http://schemas.xmlsoap.org/soap/envelope/";
/// Of message addressing headers (WS-Addressing 1.0 Core, section 1.2).
pub const ADDRESSING: &str = "http://www.w3.org/2005/08/addressing";
/// Of coordination contexts (WS-Coordination 1.2, section 1.3).
pub const COORDINATION: &str = "http://docs.oasis-open.org/ws-tx/wscoor/2006/06";
/// Of the agreement protocols, and the coordination type (WS-AtomicTransaction 1.2, sections 1.3 and 3).
pub const TRANSACTION: &str = "http://docs.oasis-open.org/ws-tx/wsat/2006/06";
/// Of the work that this project's participants do.
pub const WORK: &str = "http://example.org/atx/work/1";
/// Of names with the prefix `xml`, which is bound everywhere (Namespaces in XML 1.0, section 3).
pub const XML: &str = "http://www.w3.org/XML/1998/namespace";
/// Of the prefix `xmlns`, which no declaration binds (Namespaces in XML 1.0, section 3).
pub const XMLNS: &str = "http://www.w3.org/2000/xmlns/";

/// The prefix that a known namespace has in canonical texts.
pub fn fixed_prefix(space: &str) -> Option<&'static str>
    ensures { option_map (λ p. p.now) result ≡ fixed_prefix space.now }
{
    if space == SOAP {
        Some("s")
    } else if space == ADDRESSING {
        Some("wsa")
    } else if space == COORDINATION {
        Some("wscoor")
    } else if space == TRANSACTION {
        Some("wsat")
    } else if space == WORK {
        Some("work")
    } else if space == XML {
        Some("xml")
    } else {
        None
    }
}
