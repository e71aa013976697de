//! Ranges of bytes, and the two files.

ghost use Rattle.std.specs.Prelude.{◌≡◌};
ghost use Rattle.site_memory.specs.Disk.{which_of};

/// Bytes that a crash may leave as anything.
#[derive(Clone, Copy, Debug, PartialEq, Eq)]
pub struct Range {
    pub at: usize,
    pub len: usize,
}

/// One of the two files.
#[derive(Clone, Copy, Debug, PartialEq, Eq)]
pub enum Which {
    First,
    Second,
}

impl Which {
    /// File 0 is the first, any other number the second.
    pub fn of(file: u8) -> Which
        ensures { result ≡ which_of file }
    {
        match file {
            0 => Which::First,
            _ => Which::Second,
        }
    }
}
