//! What an address on a node names.

use crate::id::Id;
use crate::notice::Kind;

/// A participant's seat at a transaction, numbered from 1 in the order of registration.
#[derive(Clone, Copy, Debug, PartialEq, Eq)]
pub struct Seat {
    /// 1 to 65,535.
    pub number: u16,
    pub kind: Kind,
}

/// What a message is for: the service or the item that its address names.
#[derive(Clone, Copy, Debug, PartialEq, Eq)]
pub enum Target {
    /// The activation service, `/activation` (WS-Coordination 1.2, section 3.1).
    Activation,
    /// The registration service of a transaction, `/registration/ID` (WS-Coordination 1.2, section 3.2).
    Registration(Id),
    /// The completion seat of a transaction, `/completion/ID` (WS-AtomicTransaction 1.2, section 3.2).
    Completion(Id),
    /// A coordinator's seat for one participant, `/c/d/ID/SEAT` or `/c/v/ID/SEAT`.
    Coordinator { id: Id, seat: Seat },
    /// A leaf, or a subordinate's link to its superior, `/p/d/ID` or `/p/v/ID`.
    Participant { id: Id, kind: Kind },
    /// An initiator's activity, `/i/ID`.
    Initiator(Id),
    /// Where an initiator asks for work, `/work`.
    Work,
}
