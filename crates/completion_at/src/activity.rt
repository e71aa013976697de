//! An activity.

ghost use Rattle.std.specs.Prelude.{◌≡◌};

use at_base::epr::Epr;
use at_base::id::Id;
use at_base::message::{Context, cloned_option};
use at_base::notice::Notice;
use std::alloc::AllocError;
use std::marker::Model;

/// How far an activity has come.
#[derive(Clone, Copy, Debug, PartialEq, Eq)]
pub enum Progress {
    /// It waits for its context (WS-Coordination 1.2, section 3.1).
    Creating,
    /// It waits for its registration for Completion (WS-Coordination 1.2, section 3.2).
    Registering,
    /// It takes requests.
    Active,
    /// It asked for Commit or Rollback, and waits for the outcome (WS-AtomicTransaction 1.2, section 3.2).
    Completing(Notice),
}

/// What an initiator runs: a transaction that it began, or a context that it interposed in one.
#[derive(Debug)]
pub struct Activity {
    pub id: Id,
    /// The activity that was begun; its own id where it was begun itself.
    pub root: Id,
    pub progress: Progress,
    /// Its context, once that was created.
    pub context: Option<Context>,
    /// The endpoint of the completion seat, once it is registered.
    pub coordinator: Option<Epr>,
    /// How many Works it sent.
    pub works: u32,
    /// When it expires, in milliseconds.
    pub deadline: Option<u128>,
    /// When it last sent a message that is repeated, in milliseconds.
    pub sent: Option<u64>,
}

impl Drop for Activity {
    fn drop(self) {
        let Activity {
            id: _id,
            root: _root,
            progress: _progress,
            context: _context,
            coordinator: _coordinator,
            works: _works,
            deadline: _deadline,
            sent: _sent,
        } = self;
    }
}

impl Model for Activity {
    ghost use Rattle.at_model.specs.Book.{Activity as Known};
    ghost use Rattle.completion_at.specs.Names.{progress_of};

    ghost Value = { Known };

    ghost view = { λ a. record {
      id = a.id;
      root = a.root;
      progress = progress_of a.progress;
      context = a.context;
      coordinator = a.coordinator;
      works = a.works;
      deadline = a.deadline;
      sent = a.sent;
    } };
}

impl Clone for Activity {
    ghost is_clone = { λ activity copy. copy ≡ activity };

    fn clone(&self) -> Result<Activity, AllocError> {
        let context = cloned_option(&self.context)?;
        let coordinator = cloned_option(&self.coordinator)?;
        Ok(Activity {
            id: self.id,
            root: self.root,
            progress: self.progress,
            context,
            coordinator,
            works: self.works,
            deadline: self.deadline,
            sent: self.sent,
        })
    }
}
