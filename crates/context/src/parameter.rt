//! The names of the children of the bodies of coordination, and the fault where one can't be read.

ghost use Rattle.std.specs.Prelude.{◌≡◌};
ghost use Rattle.context.specs.Parameters.{local_name};

use std::alloc::AllocError;
use thiserror::Error;

/// A child of a body (WS-Coordination 1.2, sections 2 and 3).
#[derive(Debug, Clone, Copy, PartialEq, Eq)]
pub enum Parameter {
    Identifier,
    Expires,
    CoordinationType,
    RegistrationService,
    CurrentContext,
    CoordinationContext,
    ProtocolIdentifier,
    ParticipantProtocolService,
    CoordinatorProtocolService,
}

impl Parameter {
    /// The local name of its element. All are in the namespace of WS-Coordination.
    pub fn local_name(self) -> &'static str
        ensures { result.now ≡ local_name self }
    {
        match self {
            Parameter::Identifier => "Identifier",
            Parameter::Expires => "Expires",
            Parameter::CoordinationType => "CoordinationType",
            Parameter::RegistrationService => "RegistrationService",
            Parameter::CurrentContext => "CurrentContext",
            Parameter::CoordinationContext => "CoordinationContext",
            Parameter::ProtocolIdentifier => "ProtocolIdentifier",
            Parameter::ParticipantProtocolService => "ParticipantProtocolService",
            Parameter::CoordinatorProtocolService => "CoordinatorProtocolService",
        }
    }
}

/// Why a body is refused (WS-Coordination 1.2, section 4.3).
#[derive(Debug, PartialEq, Eq, Drop, Error)]
pub enum ContextFault {
    /// A child that is missing, repeated or unreadable.
    #[error("invalid parameters")]
    Parameters { name: Parameter },
    #[error("out of memory")]
    NoMemory,
}

impl From<AllocError> for ContextFault {
    ghost use Rattle.std.specs.Prelude.{◌≡◌};
    ghost use Rattle.context.specs.declared.parameter.ContextFault.TheVariants.{NoMemory};

    ghost from_gives = { λ _ e. e ≡ NoMemory };

    fn from(_error: AllocError) -> ContextFault {
        ContextFault::NoMemory
    }
}
