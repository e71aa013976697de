//! What a line of an initiator asks.

ghost use Rattle.std.specs.Prelude.{◌≡◌, IfOk};
ghost use Rattle.serving.specs.Notes.{is_unmet};
ghost use Rattle.serving.specs.Requests.{activity_at, commit_of, line_request};

use at_base::event::Local;
use at_base::id::Id;
use schedules::initiator_line::InitiatorLine;
use std::alloc::{AllocError, Global};

/// What a line of an initiator asks.
#[derive(Debug)]
pub enum Request {
    /// A request of the node's own program.
    Local(Local),
    /// One on an activity whose own line was refused, or the commit of one of which a work was.
    Stale,
    /// One turn.
    Wait,
}

impl Drop for Request {
    fn drop(self) {
        match self {
            Request::Local(_local) => {}
            Request::Stale => {}
            Request::Wait => {}
        }
    }
}

/// The id of the activity that the line of this number made, unless it was refused. Lines that make one are numbered from 1.
fn activity_at(number: u32, made: &[Option<Id>]) -> Option<Id>
    ensures { result ≡ activity_at number made.now }
{
    if number == 0 {
        return None;
    }
    match made.get(number as usize - 1) {
        Some(id) => *id,
        None => None,
    }
}

/// Whether a work of this activity was refused.
fn is_unmet(activity: u32, unmet: &[u32]) -> bool
    ensures { result ≡ is_unmet activity unmet.now }
{
    for refused in unmet {
        if activity == *refused {
            return true;
        }
    }
    false
}

/// What the commit of an activity asks.
fn commit_of(anyway: bool, made: &[Option<Id>], unmet: &[u32], activity: u32) -> Request
    ensures { result ≡ commit_of anyway made.now unmet.now activity }
{
    if !anyway && is_unmet(activity, unmet) {
        return Request::Stale;
    }
    match activity_at(activity, made) {
        Some(activity) => Request::Local(Local::Commit { activity }),
        None => Request::Stale,
    }
}

/// What a line asks, where these activities were made before it, and works of these were refused.
pub(crate) fn line_request(
    alloc: Global,
    made: &[Option<Id>],
    unmet: &[u32],
    line: &InitiatorLine,
) -> Result<Request, AllocError>
    ensures { IfOk result (λ request. request ≡ line_request made.now unmet.now line.now) }
{
    match line {
        InitiatorLine::Begin { coordinator, ms } => {
            let coordinator = coordinator.clone()?;
            let ms = *ms;
            Ok(Request::Local(Local::Begin { coordinator, ms }))
        }
        InitiatorLine::Interpose {
            activity,
            coordinator,
        } => match activity_at(*activity, made) {
            Some(activity) => {
                let coordinator = coordinator.clone()?;
                Ok(Request::Local(Local::Interpose {
                    activity,
                    coordinator,
                }))
            }
            None => Ok(Request::Stale),
        },
        InitiatorLine::Work {
            activity,
            service,
            kind,
            vote,
            key,
            value,
        } => match activity_at(*activity, made) {
            Some(activity) => {
                let service = service.clone()?;
                let key = key.clone()?;
                let value = value.clone()?;
                Ok(Request::Local(Local::Work {
                    activity,
                    service,
                    kind: *kind,
                    vote: *vote,
                    key,
                    value,
                }))
            }
            None => Ok(Request::Stale),
        },
        InitiatorLine::Commit { activity, anyway } => Ok(commit_of(
            *anyway, made, unmet, *activity,
        )),
        InitiatorLine::Rollback { activity } => match activity_at(*activity, made) {
            Some(activity) => Ok(Request::Local(Local::Rollback { activity })),
            None => Ok(Request::Stale),
        },
        InitiatorLine::Wait => Ok(Request::Wait),
    }
}
