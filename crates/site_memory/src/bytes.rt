//! Bytes of one message.

ghost use Rattle.std.specs.Prelude.{◌≡◌, IfOk};
ghost use Rattle.site_memory.specs.Sites.{contents};

use std::alloc::{AllocError, Global};

/// Bytes that one call sent, or that one connection brings.
#[derive(Debug, Drop)]
pub struct Bytes {
    pub(crate) bytes: Vec<u8>,
}

impl Bytes {
    /// A copy.
    pub fn from_slice(alloc: Global, bytes: &[u8]) -> Result<Bytes, AllocError>
        ensures { IfOk result (λ b. contents b ≡ bytes.now) }
    {
        let mut copy = Vec::new(alloc);
        copy.extend_from_slice(bytes)?;
        Ok(Bytes { bytes: copy })
    }

    /// The bytes.
    pub fn as_slice(&self) -> &[u8]
        ensures { result.now ≡ contents self.now }
    {
        self.bytes.as_slice()
    }
}

/// A post: to whom, and what.
#[derive(Debug, Drop)]
pub struct Posted {
    pub host: Bytes,
    pub port: u16,
    pub bytes: Bytes,
}
