//! The messages by the element in their body, and which of them a target takes (WS-Coordination 1.2, section 3;
//! WS-AtomicTransaction 1.2, section 3).

ghost use Rattle.std.specs.Prelude.{◌≡◌};
ghost use Rattle.endpoints.specs.Forms.{form_of, takes_any, takes_fault, takes_form};

use at_base::message::Message;
use at_base::notice::Notice;
use at_base::target::Target;

/// What a message is, but for faults, which their body alone tells.
#[derive(Clone, Copy, Debug, PartialEq, Eq)]
pub enum Form {
    Create,
    CreateResponse,
    Register,
    RegisterResponse,
    Notice(Notice),
    Work,
    WorkDone,
    WorkRefused,
}

impl Form {
    /// What a message is. None of a fault.
    pub fn of(message: &Message) -> Option<Form>
        ensures { result ≡ form_of message.now }
    {
        let form = match message {
            Message::Create(_) => Form::Create,
            Message::CreateResponse(_) => Form::CreateResponse,
            Message::Register(_) => Form::Register,
            Message::RegisterResponse(_) => Form::RegisterResponse,
            Message::Notice(notice) => Form::Notice(*notice),
            Message::Work(_) => Form::Work,
            Message::WorkDone => Form::WorkDone,
            Message::WorkRefused => Form::WorkRefused,
            Message::Fault { .. } => return None,
        };
        Some(form)
    }
}

/// Whether a target takes messages of this form.
pub fn takes_form(target: Target, form: Form) -> bool
    ensures { result ≡ takes_form target form }
{
    match target {
        Target::Activation => matches!(form, Form::Create),
        Target::Registration(_) => matches!(form, Form::Register),
        Target::Completion(_) => matches!(form, Form::Notice(Notice::Commit | Notice::Rollback)),
        Target::Coordinator { .. } => matches!(
            form,
            Form::Notice(Notice::Prepared | Notice::ReadOnly | Notice::Aborted | Notice::Committed)
        ),
        Target::Participant { .. } => matches!(
            form,
            Form::Notice(Notice::Prepare | Notice::Commit | Notice::Rollback)
                | Form::RegisterResponse
        ),
        Target::Initiator(_) => matches!(
            form,
            Form::CreateResponse
                | Form::RegisterResponse
                | Form::Notice(Notice::Committed | Notice::Aborted)
                | Form::WorkDone
                | Form::WorkRefused
        ),
        Target::Work => matches!(form, Form::Work),
    }
}

/// Whether a target takes faults: those that ask for something do.
pub fn takes_fault(target: Target) -> bool
    ensures { result ≡ takes_fault target }
{
    match target {
        Target::Completion(_)
        | Target::Coordinator { .. }
        | Target::Participant { .. }
        | Target::Initiator(_) => true,
        Target::Activation | Target::Registration(_) | Target::Work => false,
    }
}

/// Whether a target takes what is of this form, or faults where there is none.
pub fn takes_any(target: Target, form: Option<Form>) -> bool
    ensures { result ≡ takes_any target form }
{
    match form {
        Some(form) => takes_form(target, form),
        None => takes_fault(target),
    }
}
