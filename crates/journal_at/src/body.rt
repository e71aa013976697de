//! A body.

ghost use Rattle.std.specs.Prelude.{◌≡◌};

/// The bytes of a body that a compaction writes.
#[derive(Drop)]
pub struct Body {
    pub(crate) bytes: Vec<u8>,
}

impl Body {
    /// These bytes, without a copy.
    pub fn from_vec(bytes: Vec<u8>) -> Body
        ensures { result.bytes.items ≡ bytes.items }
    {
        Body { bytes }
    }

    /// The bytes.
    pub fn as_slice(&self) -> &[u8]
        ensures { result.now ≡ self.now.bytes.items }
    {
        self.bytes.as_slice()
    }
}
