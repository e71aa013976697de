//! The call of a node that a schedule arms, as that of its machine.

ghost use Rattle.std.specs.Prelude.{◌≡◌};
ghost use Rattle.asked_nets.specs.ArmedCalls.{call_of, choice_of};

use armed_calls::fault::{Armed, Fault};
use mirrored_nets::armed::Armed as Call;
use schedules::line::Leaves;
use site_memory::arm::Choice;

/// What a stop leaves of a machine's files.
fn choice_of(leaves: Leaves) -> Choice
    ensures { result ≡ choice_of leaves }
{
    match leaves {
        Leaves::Keep => Choice::Keep,
        Leaves::Drop => Choice::Drop,
        Leaves::Fill { byte } => Choice::Fill(byte),
    }
}

/// The call that is armed at a machine.
pub(crate) fn call_of(armed: Option<Armed>) -> Call
    ensures { result ≡ call_of armed }
{
    match armed {
        None => Call::No,
        Some(
            Armed {
                call,
                fault: Fault::Fail,
            },
        ) => Call::Fail(call),
        Some(
            Armed {
                call,
                fault: Fault::Stop { leaves },
            },
        ) => Call::Stop(call, choice_of(leaves)),
    }
}
