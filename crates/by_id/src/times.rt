//! When an item is due: its deadline, and how long it waits for an answer (WS-Coordination 1.2, section 2.1; this
//! project's profile).

ghost use Rattle.std.specs.Prelude.{◌≡◌};
ghost use Rattle.at_model.specs.Create.{deadline_of};
ghost use Rattle.at_model.specs.Due.{has_come, is_quiet};

use at_base::limits::RESEND_AFTER;

/// When something expires that came now, in milliseconds; never, where it has no Expires.
pub fn deadline_of(now: u64, expires: Option<u32>) -> Option<u128>
    ensures { result ≡ deadline_of now expires }
{
    match expires {
        Some(ms) => Some(u128::from(now) + u128::from(ms)),
        None => None,
    }
}

/// Whether a deadline has come.
pub fn has_come(now: u64, deadline: Option<u128>) -> bool
    ensures { result ≡ has_come now deadline }
{
    match deadline {
        Some(time) => time <= u128::from(now),
        None => false,
    }
}

/// Whether the last sending is old, or unknown.
pub fn is_quiet(now: u64, sent: Option<u64>) -> bool
    ensures { result ≡ is_quiet now sent }
{
    match sent {
        Some(sent) => {
            let wait = u64::from(RESEND_AFTER);
            wait <= now && sent <= now - wait
        }
        None => true,
    }
}
