//! The words for what a node is and holds.

ghost use Rattle.std.specs.Prelude.{◌≡◌};
ghost use Rattle.completion_at.specs.Names.{progress_of};
ghost use Rattle.status_pages.specs.Words.{phase_word, progress_word, role_word};
ghost use Rattle.transaction_at.specs.PhaseNames.{phase_of};

use completion_at::activity::Progress;
use node_at::role::Role;
use transaction_at::transaction::Phase;

#[tactic(auto, unfolding(crate::specs::Words::role_word))]
pub(crate) fn role_word(role: Role) -> &'static str
    ensures { result.now ≡ role_word role }
{
    match role {
        Role::All => "node",
        Role::Coordinator => "coordinator",
        Role::Participant => "participant",
        Role::Initiator => "initiator",
    }
}

#[tactic(auto, unfolding(crate::specs::Words::phase_word))]
pub(crate) fn phase_word(phase: Phase) -> &'static str
    ensures { result.now ≡ phase_word (phase_of phase) }
{
    match phase {
        Phase::Registering => "registering",
        Phase::Active => "active",
        Phase::Volatile => "preparing volatile participants",
        Phase::Durable => "preparing durable participants",
        Phase::Voted => "voted",
        Phase::Committing => "committing",
        Phase::Aborting => "aborting",
    }
}

#[tactic(auto, unfolding(crate::specs::Words::progress_word))]
pub(crate) fn progress_word(progress: Progress) -> &'static str
    ensures { result.now ≡ progress_word (progress_of progress) }
{
    match progress {
        Progress::Creating => "creating",
        Progress::Registering => "registering",
        Progress::Active => "active",
        Progress::Completing(asked) => asked.name(),
    }
}
