//! Laws of steps and of recovery, over every book, event and journal, and laws over every run of a world.

ghost use Rattle.model_laws.specs.Laws.{StepsAnswerFirst, StepsKeepPlace, RecoversTheLive, IncarnationsRise, MakesUnderTheNextId};
ghost use Rattle.model_laws.specs.PhaseAnswers.{DecidesBehindEveryAnswer};
ghost use Rattle.model_laws.specs.Compactions.{RecoversTheCompacted};
ghost use Rattle.model_laws.specs.KeptOutcomes.{KeepsOutcomes};
ghost use Rattle.model_laws.specs.DrawnIds.{IdsStayDrawn, NoIdMadeTwice};
ghost use Rattle.model_laws.specs.Registrations.{EnlistsTheKnown, EnlistsUnderOne, HoldsTheEnlisted};
ghost use Rattle.model_laws.specs.Growth.{TakesNothingBack};
ghost use Rattle.model_laws.specs.Links.{LinksFollowPhases};
ghost use Rattle.model_laws.specs.Order.{IdsRise};
ghost use Rattle.model_laws.specs.MadeIds.{HoldsNoIdTwice, MakesNoIdTwice};
ghost use Rattle.model_laws.specs.BookBounds.{RecordsAreWellFormed};
ghost use Rattle.model_laws.specs.ReachedWorlds.{ExamplesAreApart, RunsAreReached};
ghost use Rattle.model_laws.specs.Rules.{DecidesBehindAnswers, EndsAreUndone, VotesAreRecorded};
ghost use Rattle.model_laws.specs.Shapes.{StepsTouchOne};

/// A step moves one item at most, or makes one; it has one record at most.
#[tactic(auto, using(crate::proofs::StepShapes::steps_touch_one))]
pub fn steps_touch_one()
    ensures { StepsTouchOne }
{}

/// A step sends at most one answer, and then posts.
#[tactic(auto, using(crate::proofs::StepShapes::steps_answer_first))]
pub fn steps_answer_first()
    ensures { StepsAnswerFirst }
{}

/// A step leaves base and incarnation as they are, and draws one id at most.
#[tactic(auto, using(crate::proofs::StepShapes::steps_keep_place))]
pub fn steps_keep_place()
    ensures { StepsKeepPlace }
{}

/// Recovery depends on live records alone: dead ones may be left out.
#[tactic(auto, using(crate::proofs::RecoveryLaws::recovers_the_live))]
pub fn recovers_the_live()
    ensures { RecoversTheLive }
{}

/// A Start of the last incarnation and the live records by rising id stand for the same book as all records.
#[tactic(auto, using(crate::proofs::Compactions::recovers_the_compacted))]
pub fn recovers_the_compacted()
    ensures { RecoversTheCompacted }
{}

/// A node's next incarnation is greater than each in its records.
#[tactic(auto, using(crate::proofs::RecoveryLaws::incarnations_rise))]
pub fn incarnations_rise()
    ensures { IncarnationsRise }
{}

/// A vote or a decision is recorded only behind every answer: the volatile ones, and then the durable ones.
pub fn decides_behind_answers()
    ensures { DecidesBehindAnswers }
{}

/// What ends something is undone where its record is absent, and leaves the book as it was.
pub fn ends_are_undone()
    ensures { EndsAreUndone }
{}

/// A durable vote Prepared, and a decision over one, are recorded; a volatile leaf records nothing.
pub fn votes_are_recorded()
    ensures { VotesAreRecorded }
{}

/// The next id is none that was drawn before, and what is made under it has it.
pub fn makes_under_the_next_id()
    ensures { MakesUnderTheNextId }
{}

/// Each id that a book holds stays drawn, over steps and over starts.
#[tactic(auto, using(crate::proofs::DrawnIds::ids_stay_drawn))]
pub fn ids_stay_drawn()
    ensures { IdsStayDrawn }
{}

/// A node makes no id twice, however often it stops and starts.
#[tactic(auto, using(crate::proofs::MadeIds::no_id_made_twice))]
pub fn no_id_made_twice()
    ensures { NoIdMadeTwice }
{}

/// Over whole steps, a Decided or a Voted is made only behind every answer, volatile and durable.
#[tactic(auto, using(crate::proofs::PhaseAnswers::decides_behind_every_answer))]
pub fn decides_behind_every_answer()
    ensures { DecidesBehindEveryAnswer }
{}

/// A record that a step of a sound book makes is well-formed, and the book stays sound.
#[tactic(auto, using(crate::proofs::BookBounds::records_are_well_formed))]
pub fn records_are_well_formed()
    ensures { RecordsAreWellFormed }
{}

/// The links of a subordinate follow its phase: once the durable one is asked, the volatile one is None.
#[tactic(auto, using(crate::proofs::LinkPhases::links_follow_phases))]
pub fn links_follow_phases()
    ensures { LinksFollowPhases }
{}

/// The lists of a book are in the order of making, over steps and over starts.
#[tactic(auto, using(crate::proofs::Order::ids_rise))]
pub fn ids_rise()
    ensures { IdsRise }
{}

/// In every run of a world each node lives a life, in which no id is made twice.
#[tactic(auto, using(crate::proofs::NodeLives::makes_no_id_twice))]
pub fn makes_no_id_twice()
    ensures { MakesNoIdTwice }
{}

/// In every run of a world the ids of one book differ, over all three of its lists.
#[tactic(auto, using(crate::proofs::Sorts::holds_no_id_twice))]
pub fn holds_no_id_twice()
    ensures { HoldsNoIdTwice }
{}

/// In every run of a world an item's registrations are accepted by one transaction.
#[tactic(auto, using(crate::proofs::Registrations::enlists_under_one))]
pub fn enlists_under_one()
    ensures { EnlistsUnderOne }
{}

/// In every run of a world each registration that is accepted is of an item of a node.
#[tactic(auto, using(crate::proofs::Registrations::enlists_the_known))]
pub fn enlists_the_known()
    ensures { EnlistsTheKnown }
{}

/// In every run of a world each seat and each completion seat of a book is a registration that was accepted.
#[tactic(auto, using(crate::proofs::SeatRegistrations::holds_the_enlisted))]
pub fn holds_the_enlisted()
    ensures { HoldsTheEnlisted }
{}

/// Every run leads to a world that is reached step by step, with each node's newest book.
pub fn runs_are_reached()
    ensures { RunsAreReached }
{}

/// In every run of a world nothing is taken back: what was posted, accepted and recorded, and what happened, stays.
#[tactic(auto, using(crate::proofs::Growth::takes_nothing_back))]
pub fn takes_nothing_back()
    ensures { TakesNothingBack }
{}

/// In every run a node's book keeps exactly the outcomes that its journal's records add.
#[tactic(auto, using(crate::proofs::KeptOutcomes::keeps_outcomes))]
pub fn keeps_outcomes()
    ensures { KeepsOutcomes }
{}

/// The bases of examples are apart: no address of one node is one of another.
#[tactic(auto, using(crate::proofs::Addresses::examples_apart))]
pub fn examples_are_apart()
    ensures { ExamplesAreApart }
{}
