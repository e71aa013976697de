//! How much of each thing there may be, and how long each thing is waited for.

/// The most live transactions of a node that makes another one, and the most live leaves.
pub const MOST_ITEMS: usize = 1024;

/// The most activities of a node that makes another one.
pub const MOST_ACTIVITIES: usize = 256;

/// The most seats of a transaction, and of a record.
pub const MOST_SEATS: usize = 512;

/// The most decided transactions whose outcome a node keeps for initiators that ask again.
pub const MOST_OUTCOMES: usize = 1024;

/// The most bytes of an endpoint: of its address and its reference parameters together.
pub const MOST_ENDPOINT: usize = 2048;

/// The most bytes of a context's Identifier.
pub const MOST_IDENTIFIER: usize = 2048;

/// The most bytes of a key, and of a value.
pub const MOST_FIELD: usize = 256;

/// The most bytes of the base URL of a node.
pub const MOST_BASE: usize = 1024;

/// How long an item waits for an answer before it sends again, in milliseconds.
pub const RESEND_AFTER: u32 = 5000;

/// How long a transaction is Aborting, in milliseconds.
pub const ABORTING_FOR: u64 = 60000;
