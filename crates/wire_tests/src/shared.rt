//! What the tests of several files share.

use at_base::epr::Epr;
use at_base::text::Text;
use std::alloc::{AllocError, Global};

/// The part of a text at this place, empty where there is none.
pub fn part(text: &str, separator: char, place: usize) -> &str {
    text.split(separator).nth(place).unwrap_or("")
}

/// The endpoint of an address, without reference parameters.
pub fn epr(alloc: Global, address: &str) -> Result<Epr, AllocError> {
    let address = Text::copied(alloc, address)?;
    let params = Text::from_string(String::new(alloc));
    Ok(Epr { address, params })
}

/// The same, none where the address is empty.
pub fn optional(alloc: Global, address: &str) -> Result<Option<Epr>, AllocError> {
    if address.is_empty() {
        return Ok(None);
    }
    Ok(Some(epr(alloc, address)?))
}
