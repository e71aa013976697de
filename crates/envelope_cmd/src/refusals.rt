//! The line of each refusal.

ghost use Rattle.std.specs.Prelude.{◌≡◌};
ghost use Rattle.std.specs.Option.{option_map};
ghost use Rattle.envelope_cmd.specs.Refusals.{refusal_line};

use wire_msgs::refusal::Refusal;

/// The line of a refusal: its number and its name. None for want of memory, which isn't printed.
pub fn refusal_line(refusal: &Refusal) -> Option<&'static str>
    ensures { option_map (λ line. line.now) result ≡ refusal_line refusal.now }
{
    match refusal {
        Refusal::TooLong => Some("refused 1 TooLong\n"),
        Refusal::NotUtf8 { .. } => Some("refused 2 NotUtf8\n"),
        Refusal::NotSpelled => Some("refused 3 NotSpelled\n"),
        Refusal::TooDeep => Some("refused 4 TooDeep\n"),
        Refusal::TooMany => Some("refused 5 TooMany\n"),
        Refusal::VersionMismatch => Some("refused 6 VersionMismatch\n"),
        Refusal::NotEnvelope => Some("refused 7 NotEnvelope\n"),
        Refusal::MustUnderstand { .. } => Some("refused 8 MustUnderstand\n"),
        Refusal::MissingHeader { .. } => Some("refused 9 MissingHeader\n"),
        Refusal::InvalidHeader { .. } => Some("refused 10 InvalidHeader\n"),
        Refusal::NoTarget => Some("refused 11 NoTarget\n"),
        Refusal::Action => Some("refused 12 Action\n"),
        Refusal::Parameters { .. } => Some("refused 13 Parameters\n"),
        Refusal::NoMemory => None,
    }
}
