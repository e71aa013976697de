//! The names and the action of each message (WS-Coordination 1.2, section 3; WS-AtomicTransaction 1.2, section 3).

ghost use Rattle.std.specs.Prelude.{◌≡◌, IfSome, Some};
ghost use Rattle.wire_msgs.specs.Forms.{ActionsDiffer, action_of, every_notice, first_at, form_at, local_of, space_of};
ghost use Rattle.endpoints.specs.declared.form.Form.{Form};
ghost use Rattle.endpoints.specs.declared.form.Form.TheVariants as forms;

use addressing::request::{CREATE_ACTION, REGISTER_ACTION, WORK_ACTION};
use at_base::notice::Notice;
use endpoints::form::Form;
use xml_profile::names::{COORDINATION, TRANSACTION, WORK};

/// The message that an action names. None exactly where none has it.
#[tactic(auto, using(crate::proofs::Forms::is_named, crate::proofs::Forms::is_found))]
pub fn of_action(action: &str) -> Option<Form>
    ensures value { result ≡ form_at action.now }
    ensures named { IfSome result (λ form. action.now ≡ action_of form) }
    ensures every { (form : Form) → action.now ≡ action_of form → result ≡ Some form }
{
    form_at(action)
}

/// The namespace of the element in the body.
pub fn space_of(form: Form) -> &'static str
    ensures { result.now ≡ space_of form }
{
    match form {
        Form::Create | Form::CreateResponse | Form::Register | Form::RegisterResponse => {
            COORDINATION
        }
        Form::Notice(_) => TRANSACTION,
        Form::Work | Form::WorkDone | Form::WorkRefused => WORK,
    }
}

/// The local name of the element in the body.
pub fn local_of(form: Form) -> &'static str
    ensures { result.now ≡ local_of form }
{
    match form {
        Form::Create => "CreateCoordinationContext",
        Form::CreateResponse => "CreateCoordinationContextResponse",
        Form::Register => "Register",
        Form::RegisterResponse => "RegisterResponse",
        Form::Notice(notice) => notice.name(),
        Form::Work => "Work",
        Form::WorkDone => "WorkDone",
        Form::WorkRefused => "WorkRefused",
    }
}

/// The action: the namespace, `/`, and the local name (WS-Coordination 1.2 and WS-AtomicTransaction 1.2, section 1.3).
pub fn action_of(form: Form) -> &'static str
    ensures { result.now ≡ action_of form }
{
    match form {
        Form::Create => CREATE_ACTION,
        Form::CreateResponse => {
            "http://docs.oasis-open.org/ws-tx/wscoor/2006/06/CreateCoordinationContextResponse"
        }
        Form::Register => REGISTER_ACTION,
        Form::RegisterResponse => {
            "http://docs.oasis-open.org/ws-tx/wscoor/2006/06/RegisterResponse"
        }
        Form::Notice(notice) => notice_action(notice),
        Form::Work => WORK_ACTION,
        Form::WorkDone => "http://example.org/atx/work/1/WorkDone",
        Form::WorkRefused => "http://example.org/atx/work/1/WorkRefused",
    }
}

fn notice_action(notice: Notice) -> &'static str
    ensures { result.now ≡ action_of (forms.Notice notice) }
{
    match notice {
        Notice::Prepare => "http://docs.oasis-open.org/ws-tx/wsat/2006/06/Prepare",
        Notice::Commit => "http://docs.oasis-open.org/ws-tx/wsat/2006/06/Commit",
        Notice::Rollback => "http://docs.oasis-open.org/ws-tx/wsat/2006/06/Rollback",
        Notice::Prepared => "http://docs.oasis-open.org/ws-tx/wsat/2006/06/Prepared",
        Notice::ReadOnly => "http://docs.oasis-open.org/ws-tx/wsat/2006/06/ReadOnly",
        Notice::Aborted => "http://docs.oasis-open.org/ws-tx/wsat/2006/06/Aborted",
        Notice::Committed => "http://docs.oasis-open.org/ws-tx/wsat/2006/06/Committed",
    }
}

fn form_at(action: &str) -> Option<Form>
    ensures { result ≡ form_at action.now }
{
    match action {
        "http://docs.oasis-open.org/ws-tx/wscoor/2006/06/CreateCoordinationContext" => {
            Some(Form::Create)
        }
        "http://docs.oasis-open.org/ws-tx/wscoor/2006/06/CreateCoordinationContextResponse" => {
            Some(Form::CreateResponse)
        }
        "http://docs.oasis-open.org/ws-tx/wscoor/2006/06/Register" => Some(Form::Register),
        "http://docs.oasis-open.org/ws-tx/wscoor/2006/06/RegisterResponse" => {
            Some(Form::RegisterResponse)
        }
        "http://example.org/atx/work/1/Work" => Some(Form::Work),
        "http://example.org/atx/work/1/WorkDone" => Some(Form::WorkDone),
        "http://example.org/atx/work/1/WorkRefused" => Some(Form::WorkRefused),
        _ => notice_at(action),
    }
}

fn notice_at(action: &str) -> Option<Form>
    ensures { result ≡ first_at action.now every_notice }
{
    let notice = match action {
        "http://docs.oasis-open.org/ws-tx/wsat/2006/06/Prepare" => Notice::Prepare,
        "http://docs.oasis-open.org/ws-tx/wsat/2006/06/Commit" => Notice::Commit,
        "http://docs.oasis-open.org/ws-tx/wsat/2006/06/Rollback" => Notice::Rollback,
        "http://docs.oasis-open.org/ws-tx/wsat/2006/06/Prepared" => Notice::Prepared,
        "http://docs.oasis-open.org/ws-tx/wsat/2006/06/ReadOnly" => Notice::ReadOnly,
        "http://docs.oasis-open.org/ws-tx/wsat/2006/06/Aborted" => Notice::Aborted,
        "http://docs.oasis-open.org/ws-tx/wsat/2006/06/Committed" => Notice::Committed,
        _ => return None,
    };
    Some(Form::Notice(notice))
}

/// Each message has an action of its own.
#[tactic(auto, using(crate::proofs::Forms::actions_differ))]
pub fn actions_differ()
    ensures { ActionsDiffer }
{}
