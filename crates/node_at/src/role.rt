//! What a node serves.

ghost use Rattle.std.specs.Prelude.{◌≡◌};
ghost use Rattle.node_at.specs.Roles.{serves};

use at_base::target::Target;

/// What a node serves. Each also takes the request for what is due.
#[derive(Clone, Copy, Debug, PartialEq, Eq)]
pub enum Role {
    /// All of these.
    All,
    /// Activation, registration, completion, seats, and the links of subordinates.
    Coordinator,
    /// Work, and participants that do work of their own.
    Participant,
    /// Activities.
    Initiator,
}

impl Role {
    /// Whether a node of this role serves the target.
    pub fn serves(self, target: Target) -> bool
        ensures { result ≡ serves self target }
    {
        match self {
            Role::All => true,
            Role::Coordinator => match target {
                Target::Work | Target::Initiator(_) => false,
                _ => true,
            },
            Role::Participant => match target {
                Target::Work | Target::Participant { .. } => true,
                _ => false,
            },
            Role::Initiator => match target {
                Target::Initiator(_) => true,
                _ => false,
            },
        }
    }
}
