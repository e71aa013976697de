//! What an audit says of the journals of every run.

ghost use Rattle.audit_laws.specs.JournalsOfRuns.{JournalsAgree};
ghost use Rattle.audit_laws.specs.Tops.{TopsAreTops};

/// In every run of nodes with addresses of their own, whatever is delivered, lost, repeated, reordered, stopped or crashed, and through
/// any depth of subordinates, an audit of the journals of the nodes, of all or of some, finds that they agree.
#[tactic(auto, using(crate::proofs::JournalsAgree::journals_agree))]
pub fn journals_agree()
    ensures { JournalsAgree }
{}

/// What an audit's steps up come to, as many as there are subordinates: an item is named for its superiors exactly where it is above
/// itself; and where none is, each item has exactly one top, by its superiors.
#[tactic(auto, using(crate::proofs::Tops::tops_are_tops))]
pub fn tops_are_tops()
    ensures { TopsAreTops }
{}
