//! Why a request is refused.

use crate::part::Part;
use addressing::headers::{AddressingRefusal, Header};
use at_base::text::Text;
use context::parameter::{ContextFault, Parameter};
use soap_profile::envelope::SoapRefusal;
use soap_profile::fault::{FaultPart, FaultRefusal};
use std::alloc::AllocError;
use thiserror::Error;
use xml_grammar::reader::TreeRefusal;

/// What a body is refused for.
#[derive(Debug, Clone, Copy, PartialEq, Eq)]
pub enum ParameterName {
    /// The body's element isn't the action's.
    Body,
    /// A child of a body of WS-Coordination.
    Coordination(Parameter),
    /// A child of a Work.
    Part(Part),
    /// A child of a fault.
    Fault(FaultPart),
}

/// Why a request is refused: the first that holds, in this order; a header may be missing before another is invalid.
#[derive(Debug, PartialEq, Eq, Drop, Error)]
pub enum Refusal {
    #[error("over 65,536 bytes")]
    TooLong,
    /// The place, from 0, of the first byte that is no UTF-8.
    #[error("no UTF-8")]
    NotUtf8 { place: u64 },
    #[error("not spelled")]
    NotSpelled,
    #[error("over 32 levels")]
    TooDeep,
    #[error("over 4,096 elements, or over 32 attributes on one")]
    TooMany,
    /// SOAP 1.1, section 4.1.2.
    #[error("wrong envelope version")]
    VersionMismatch,
    #[error("not an envelope")]
    NotEnvelope,
    /// The local name of a header block (SOAP 1.1, section 4.2.3).
    #[error("header not understood")]
    MustUnderstand { name: Text },
    /// WS-Addressing 1.0 SOAP Binding, section 6.4.2.
    #[error("header required")]
    MissingHeader { name: Header },
    /// WS-Addressing 1.0 SOAP Binding, section 6.4.1.
    #[error("invalid header")]
    InvalidHeader { name: Header },
    /// The path names no service and no item.
    #[error("no such target")]
    NoTarget,
    /// The target takes no message of this action (WS-Addressing 1.0 SOAP Binding, section 6.4.4).
    #[error("action not supported")]
    Action,
    /// A child of the body that is missing, repeated or unreadable (WS-Coordination 1.2, section 4.3).
    #[error("invalid parameters")]
    Parameters { name: ParameterName },
    #[error("out of memory")]
    NoMemory,
}

impl From<AllocError> for Refusal {
    ghost use Rattle.std.specs.Prelude.{◌≡◌};
    ghost use Rattle.wire_msgs.specs.declared.refusal.Refusal.TheVariants.{NoMemory};

    ghost from_gives = { λ _ r. r ≡ NoMemory };

    fn from(_error: AllocError) -> Refusal {
        Refusal::NoMemory
    }
}

impl From<TreeRefusal> for Refusal {
    ghost use Rattle.std.specs.Prelude.{◌≡◌};
    ghost use Rattle.wire_msgs.specs.Refusals.{of_tree};

    ghost from_gives = { λ refusal r. r ≡ of_tree refusal };

    fn from(refusal: TreeRefusal) -> Refusal {
        match refusal {
            TreeRefusal::TooLong => Refusal::TooLong,
            TreeRefusal::NotUtf8 { place } => Refusal::NotUtf8 { place },
            TreeRefusal::NotSpelled => Refusal::NotSpelled,
            TreeRefusal::TooDeep => Refusal::TooDeep,
            TreeRefusal::TooMany => Refusal::TooMany,
            TreeRefusal::NoMemory => Refusal::NoMemory,
        }
    }
}

impl From<SoapRefusal> for Refusal {
    ghost use Rattle.std.specs.Prelude.{◌≡◌};
    ghost use Rattle.wire_msgs.specs.Refusals.{of_soap};

    ghost from_gives = { λ refusal r. r ≡ of_soap refusal };

    fn from(refusal: SoapRefusal) -> Refusal {
        match refusal {
            SoapRefusal::VersionMismatch => Refusal::VersionMismatch,
            SoapRefusal::NotEnvelope => Refusal::NotEnvelope,
            SoapRefusal::MustUnderstand { name } => Refusal::MustUnderstand { name },
            SoapRefusal::NoMemory => Refusal::NoMemory,
        }
    }
}

impl From<FaultRefusal> for Refusal {
    ghost use Rattle.std.specs.Prelude.{◌≡◌};
    ghost use Rattle.wire_msgs.specs.Refusals.{of_fault};

    ghost from_gives = { λ refusal r. r ≡ of_fault refusal };

    fn from(refusal: FaultRefusal) -> Refusal {
        match refusal {
            FaultRefusal::Unreadable { part } => Refusal::Parameters {
                name: ParameterName::Fault(part),
            },
            FaultRefusal::NoMemory => Refusal::NoMemory,
        }
    }
}

impl From<AddressingRefusal> for Refusal {
    ghost use Rattle.std.specs.Prelude.{◌≡◌};
    ghost use Rattle.wire_msgs.specs.Refusals.{of_addressing};

    ghost from_gives = { λ refusal r. r ≡ of_addressing refusal };

    fn from(refusal: AddressingRefusal) -> Refusal {
        match refusal {
            AddressingRefusal::MissingHeader { name } => Refusal::MissingHeader { name },
            AddressingRefusal::InvalidHeader { name } => Refusal::InvalidHeader { name },
            AddressingRefusal::NoMemory => Refusal::NoMemory,
        }
    }
}

impl From<ContextFault> for Refusal {
    ghost use Rattle.std.specs.Prelude.{◌≡◌};
    ghost use Rattle.wire_msgs.specs.Refusals.{of_coordination};

    ghost from_gives = { λ fault r. r ≡ of_coordination fault };

    fn from(fault: ContextFault) -> Refusal {
        match fault {
            ContextFault::Parameters { name } => Refusal::Parameters {
                name: ParameterName::Coordination(name),
            },
            ContextFault::NoMemory => Refusal::NoMemory,
        }
    }
}
