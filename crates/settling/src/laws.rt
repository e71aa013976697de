//! What leads to settling.

ghost use Rattle.settling.specs.Resends.{TicksAsk};
ghost use Rattle.settling.specs.Drains.{Drains};
ghost use Rattle.settling.specs.Order.{SubordinatesRegisterFirst};
ghost use Rattle.settling.specs.Payments.{Pays};
ghost use Rattle.settling.specs.Replies.{RegistersAreAnswered};
ghost use Rattle.settling.specs.Rises.{NodesRise};
ghost use Rattle.settling.specs.Times.{TimesPass};

/// Whatever a book posts it pays for with its load: each message that comes, and isn't one that makes something, leaves the
/// load and the weight of what is posted lower than the load and its own weight were, and what is due leaves them no higher. So it
/// is with each book of each run.
#[tactic(auto, using(crate::proofs::BookPayments::pays))]
pub fn pays()
    ensures { Pays }
{}

/// The events that bring a world to rest are few, and every round of them ends with no message left to deliver.
#[tactic(auto, using(crate::proofs::Drains::drains))]
pub fn drains()
    ensures { Drains }
{}

/// In every run each subordinate that has participants has registered itself before the first of them, so registrations have an
/// order.
#[tactic(auto, using(crate::proofs::RegistrationOrder::subordinates_register_first))]
pub fn subordinates_register_first()
    ensures { SubordinatesRegisterFirst }
{}

/// Where no node has spent its incarnations, every node is up as the rounds of settling begin, and stays up.
#[tactic(auto, using(crate::proofs::Rises::nodes_rise))]
pub fn nodes_rise()
    ensures { NodesRise }
{}

/// In every run no item has sent later than its book has seen, and no book has seen a time that its node's clock hasn't shown.
#[tactic(auto, using(crate::proofs::Times::times_pass))]
pub fn times_pass()
    ensures { TimesPass }
{}

/// In every run, once a node has ticked, long enough that all is quiet, each of its transactions and leaves has sent again what it
/// waits for.
#[tactic(auto, using(crate::proofs::TickedNodes::ticks_ask))]
pub fn ticks_ask()
    ensures { TicksAsk }
{}

/// A Register is answered with a RegisterResponse or a fault that relates to it, in each state of the transaction, also where it
/// is unknown.
#[tactic(auto, using(crate::proofs::RegisterAnswers::registers_are_answered))]
pub fn registers_are_answered()
    ensures { RegistersAreAnswered }
{}
