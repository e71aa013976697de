//! Ticks, which move what is due, and so are for those alone who run a node.

/// What stands between the first two spaces of a request, as far as it is there: its target (RFC 9112, section 3.2).
fn target_of(request: &[u8]) -> &[u8] {
    let Some(start) = request.iter().position(|byte| *byte == b' ') else {
        return b"";
    };
    let behind = &request[start + 1..];
    match behind.iter().position(|byte| *byte == b' ') {
        Some(end) => &behind[..end],
        None => behind,
    }
}

/// A target without its query and its fragment.
fn without_query(target: &[u8]) -> &[u8] {
    match target
        .iter()
        .position(|byte| *byte == b'?' || *byte == b'#')
    {
        Some(end) => &target[..end],
        None => target,
    }
}

/// Whether a request may be one for a tick: its path ends with that word. No other address of a node does, however a target names it
/// (RFC 9112, section 3.2.2; RFC 3986, section 5.2.4).
pub(crate) fn asks_tick(request: &[u8]) -> bool {
    without_query(target_of(request)).ends_with(b"tick")
}
