//! The faults of the protocols (WS-Coordination 1.2, section 4; WS-AtomicTransaction 1.2, section 5).

ghost use Rattle.std.specs.Prelude.{◌≡◌};
ghost use Rattle.at_base.specs.Names.{fault_name, fault_named};

/// A fault that a node answers with. One that it receives may have any other name.
#[derive(Clone, Copy, Debug, PartialEq, Eq)]
pub enum Fault {
    /// The message isn't one that the state takes (WS-Coordination 1.2, section 4.1).
    InvalidState,
    /// The protocol isn't one that the coordinator has (WS-Coordination 1.2, section 4.2).
    InvalidProtocol,
    /// A parameter can't be read (WS-Coordination 1.2, section 4.3).
    InvalidParameters,
    /// No context is made (WS-Coordination 1.2, section 4.4).
    CannotCreateContext,
    /// The participant isn't accepted (WS-Coordination 1.2, section 4.5).
    CannotRegisterParticipant,
    /// Nothing is known of the transaction (WS-AtomicTransaction 1.2, section 5.2).
    UnknownTransaction,
}

impl Fault {
    /// The local name of its code.
    pub fn name(self) -> &'static str
        ensures { result.now ≡ fault_name self }
    {
        match self {
            Fault::InvalidState => "InvalidState",
            Fault::InvalidProtocol => "InvalidProtocol",
            Fault::InvalidParameters => "InvalidParameters",
            Fault::CannotCreateContext => "CannotCreateContext",
            Fault::CannotRegisterParticipant => "CannotRegisterParticipant",
            Fault::UnknownTransaction => "UnknownTransaction",
        }
    }

    /// The fault of this name. None where no protocol has it.
    pub fn named(name: &str) -> Option<Fault>
        ensures { result ≡ fault_named name.now }
    {
        match name {
            "InvalidState" => Some(Fault::InvalidState),
            "InvalidProtocol" => Some(Fault::InvalidProtocol),
            "InvalidParameters" => Some(Fault::InvalidParameters),
            "CannotCreateContext" => Some(Fault::CannotCreateContext),
            "CannotRegisterParticipant" => Some(Fault::CannotRegisterParticipant),
            "UnknownTransaction" => Some(Fault::UnknownTransaction),
            _ => None,
        }
    }
}
