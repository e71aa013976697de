//! Laws of nodes that serve.

ghost use Rattle.node_worlds.specs.Agreement.{AgreesWherever, NetsAgree};
ghost use Rattle.node_worlds.specs.GrowingNets.{NetsGrow};
ghost use Rattle.node_worlds.specs.KeptRecords.{NetsKeep};
ghost use Rattle.node_worlds.specs.Leads.{StepsLead, TurnsLead};
ghost use Rattle.node_worlds.specs.Nets.{NetsAreWorlds};
ghost use Rattle.node_worlds.specs.Restarts.{RestartsOnRecords};

use decision_log::fold::grows_by_one;
use decision_log::shrink::shrinks_the_same;
use interposition::book::walks_the_due;
use model_laws::rules::recovers_the_compacted;
use record_bytes::read::are_apart;
use site_model::site::Site;

/// A step that a node does is a step of the world that the node stands in: of the same event, with the same record, book and
/// effects, and what was sent is posted there.
pub fn steps_lead()
    ensures { StepsLead }
{}

/// So are the steps of a turn, as many as were done: that of what the connection asks, and one for each item that is due.
pub fn turns_lead()
    ensures { TurnsLead }
{
    walks_the_due();
}

/// Whatever nodes do that serve and post to one another, over any machine: the world that they show is one that the model reaches, in
/// which each has the book and the records that it has here, and in which the same was posted and accepted and the same happened.
pub fn nets_are_worlds<S: Site>()
    ensures { NetsAreWorlds S.told }
{
    walks_the_due();
    recovers_the_compacted();
    shrinks_the_same();
}

/// What was posted and accepted among such nodes, and what happened, only grows: each net that they came through shows an earlier moment
/// of the world that they show.
pub fn nets_grow<S: Site>()
    ensures { NetsGrow S.told }
{}

/// What each node of such a net keeps is what the records of its journal make of it.
pub fn nets_keep<S: Site>()
    ensures { NetsKeep S.told }
{
    grows_by_one();
    shrinks_the_same();
}

/// A start on files that stand for a node's records goes on with what stands for them, and such are the files, and whatever a crash
/// leaves of them, of a machine whose journal holds these records.
pub fn restarts_on_records<S: Site>()
    ensures { RestartsOnRecords S.told }
{
    are_apart();
}

/// Agreement in every world of nodes with addresses of their own that is reached step by step.
#[tactic(auto, using(crate::proofs::Agreement::agrees_wherever))]
pub fn agrees_wherever()
    ensures { AgreesWherever }
{}

/// Agreement among nodes with addresses of their own that serve, in the world that they show: of no transaction, by what their own steps
/// accepted, do two participants end differently (WS-AtomicTransaction 1.2, section 1).
pub fn nets_agree<S: Site>()
    ensures { NetsAgree S.told }
{
    nets_are_worlds::<S>();
}
