//! Why a connection's bytes are no request that is taken.

/// The first fault of a request, each but the last two answered with its status (RFC 9110, section 15.5).
#[derive(Clone, Copy, Debug, PartialEq, Eq)]
pub enum HttpRefusal {
    /// 400: no head, no or several Hosts, a body that isn't framed by one rule, or is cut short or out of form.
    BadRequest,
    /// 405: another method than POST.
    MethodNotAllowed,
    /// 411: neither Content-Length nor Transfer-Encoding.
    LengthRequired,
    /// 413: over 65,536 bytes of content, or over 131,072 raw bytes of chunks.
    ContentTooLarge,
    /// 415: a Content-Encoding other than identity.
    UnsupportedMediaType,
    /// The connection failed: nothing is answered.
    Link,
    /// Want of memory.
    NoMemory,
}
