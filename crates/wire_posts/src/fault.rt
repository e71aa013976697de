//! The faults that are written (SOAP 1.1, section 4.4; WS-Addressing 1.0 SOAP Binding, section 6.4; WS-Coordination 1.2,
//! section 4; WS-AtomicTransaction 1.2, section 5).

ghost use Rattle.std.specs.Prelude.{◌≡◌, IfOk};
ghost use Rattle.wire_posts.specs.Faults.{detail_of, fault_action, fault_body, name_of, protocol_space, protocol_text, refusal_fault, space_of, text_of, written_named};

use at_base::fault::Fault;
use soap_profile::build::qualified;
use soap_profile::fault::fault_tree;
use std::alloc::{AllocError, Global};
use wire_msgs::refusal::Refusal;
use xml_profile::name::QName;
use xml_profile::names::{ADDRESSING, COORDINATION, SOAP, TRANSACTION};
use xml_profile::tree::Tree;

/// A fault that is written.
#[derive(Clone, Copy, Debug, PartialEq, Eq)]
pub enum WrittenFault {
    /// The bytes are no document of the XML profile.
    NotProfileDocument,
    VersionMismatch,
    NotEnvelope,
    MustUnderstand,
    HeaderRequired,
    InvalidHeader,
    ActionNotSupported,
    /// One of WS-Coordination or of WS-AtomicTransaction.
    Protocol(Fault),
    /// One of any other name. A node of this project sends none.
    Other,
}

impl WrittenFault {
    /// The fault of this local name: one of the protocols', or [`WrittenFault::Other`].
    pub fn named(name: &str) -> WrittenFault
        ensures { result ≡ written_named name.now }
    {
        match Fault::named(name) {
            Some(fault) => WrittenFault::Protocol(fault),
            None => WrittenFault::Other,
        }
    }

    /// The fault that a refusal is answered with. None where the answer has no body.
    pub fn of_refusal(refusal: &Refusal) -> Option<WrittenFault>
        ensures { result ≡ refusal_fault refusal.now }
    {
        match refusal {
            Refusal::TooLong | Refusal::NoTarget | Refusal::NoMemory => None,
            Refusal::NotUtf8 { .. } | Refusal::NotSpelled | Refusal::TooDeep | Refusal::TooMany =>
                Some(WrittenFault::NotProfileDocument),
            Refusal::VersionMismatch => Some(WrittenFault::VersionMismatch),
            Refusal::NotEnvelope => Some(WrittenFault::NotEnvelope),
            Refusal::MustUnderstand { .. } => Some(WrittenFault::MustUnderstand),
            Refusal::MissingHeader { .. } => Some(WrittenFault::HeaderRequired),
            Refusal::InvalidHeader { .. } => Some(WrittenFault::InvalidHeader),
            Refusal::Action => Some(WrittenFault::ActionNotSupported),
            Refusal::Parameters { .. } => Some(WrittenFault::Protocol(Fault::InvalidParameters)),
        }
    }

    /// The text that a reader is told.
    pub fn text(self) -> &'static str
        ensures { result.now ≡ text_of self }
    {
        match self {
            WrittenFault::NotProfileDocument => "not a profile document",
            WrittenFault::VersionMismatch => "wrong envelope version",
            WrittenFault::NotEnvelope => "not an envelope",
            WrittenFault::MustUnderstand => "header not understood",
            WrittenFault::HeaderRequired => "header required",
            WrittenFault::InvalidHeader => "invalid header",
            WrittenFault::ActionNotSupported => "action not supported",
            WrittenFault::Protocol(fault) => protocol_text(fault),
            WrittenFault::Other => "other fault",
        }
    }

    /// The action of a message that is this fault (WS-Addressing 1.0 SOAP Binding, section 6; WS-Coordination 1.2,
    /// section 4; WS-AtomicTransaction 1.2, section 5).
    pub fn action(self) -> &'static str
        ensures { result.now ≡ fault_action self }
    {
        match self {
            WrittenFault::NotProfileDocument
            | WrittenFault::VersionMismatch
            | WrittenFault::NotEnvelope
            | WrittenFault::MustUnderstand
            | WrittenFault::Other => "http://www.w3.org/2005/08/addressing/soap/fault",
            WrittenFault::HeaderRequired
            | WrittenFault::InvalidHeader
            | WrittenFault::ActionNotSupported => "http://www.w3.org/2005/08/addressing/fault",
            WrittenFault::Protocol(Fault::UnknownTransaction) => {
                "http://docs.oasis-open.org/ws-tx/wsat/2006/06/fault"
            }
            WrittenFault::Protocol(_) => "http://docs.oasis-open.org/ws-tx/wscoor/2006/06/fault",
        }
    }

    /// The namespace of its code.
    fn space(self) -> &'static str
        ensures { result.now ≡ space_of self }
    {
        match self {
            WrittenFault::NotProfileDocument
            | WrittenFault::VersionMismatch
            | WrittenFault::NotEnvelope
            | WrittenFault::MustUnderstand
            | WrittenFault::Other => SOAP,
            WrittenFault::HeaderRequired
            | WrittenFault::InvalidHeader
            | WrittenFault::ActionNotSupported => ADDRESSING,
            WrittenFault::Protocol(fault) => protocol_space(fault),
        }
    }

    /// The local name of its code.
    fn local(self) -> &'static str
        ensures { result.now ≡ name_of self }
    {
        match self {
            WrittenFault::NotProfileDocument | WrittenFault::NotEnvelope => "Client",
            WrittenFault::VersionMismatch => "VersionMismatch",
            WrittenFault::MustUnderstand => "MustUnderstand",
            WrittenFault::HeaderRequired => "MessageAddressingHeaderRequired",
            WrittenFault::InvalidHeader => "InvalidAddressingHeader",
            WrittenFault::ActionNotSupported => "ActionNotSupported",
            WrittenFault::Protocol(fault) => fault.name(),
            WrittenFault::Other => "Server",
        }
    }

    /// The name of the element in its detail, which a fault of a protocol has.
    fn detail(self, alloc: Global) -> Result<Option<QName>, AllocError>
        ensures { IfOk result (λ detail. detail ≡ detail_of self) }
    {
        match self {
            WrittenFault::Protocol(fault) => Ok(Some(qualified(
                alloc,
                protocol_space(fault),
                fault.name(),
            )?)),
            _ => Ok(None),
        }
    }

    /// The element in the body of a message that is this fault.
    pub fn body(self, alloc: Global) -> Result<Tree, AllocError>
        ensures { IfOk result (λ t. t ≡ fault_body self) }
    {
        let detail = self.detail(alloc)?;
        fault_tree(
            alloc,
            self.space(),
            self.local(),
            self.text(),
            detail.as_ref(),
        )
    }
}

/// The namespace of a protocol's fault.
fn protocol_space(fault: Fault) -> &'static str
    ensures { result.now ≡ protocol_space fault }
{
    match fault {
        Fault::InvalidState
        | Fault::InvalidProtocol
        | Fault::InvalidParameters
        | Fault::CannotCreateContext
        | Fault::CannotRegisterParticipant => COORDINATION,
        Fault::UnknownTransaction => TRANSACTION,
    }
}

/// The text that a reader is told of a protocol's fault.
fn protocol_text(fault: Fault) -> &'static str
    ensures { result.now ≡ protocol_text fault }
{
    match fault {
        Fault::InvalidState => "invalid state",
        Fault::InvalidProtocol => "invalid protocol",
        Fault::InvalidParameters => "invalid parameters",
        Fault::CannotCreateContext => "cannot create context",
        Fault::CannotRegisterParticipant => "cannot register participant",
        Fault::UnknownTransaction => "unknown transaction",
    }
}
