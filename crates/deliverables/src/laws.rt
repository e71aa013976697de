//! Laws of what can be delivered.

ghost use Rattle.deliverables.specs.Bases.{ExamplesAreNodeBases};
ghost use Rattle.deliverables.specs.Deliverables.{LongPostsAskNothing, NodesOwnIsDeliverable, PostsCanBeRead, WhatIsTakenIsDecoded, deliverable};
ghost use Rattle.provenance.specs.Provenance.{RecoveryPassesOn, StepsPassOn};

use arrivals::laws::what_is_posted_reaches_the_book;
use xml_grammar::laws::one_text_spells_one_tree;

/// What is a node's own, its endpoints, contexts, identifiers and ids of messages, can be written, read as it was, and posted to.
pub fn nodes_own_is_deliverable()
    ensures { NodesOwnIsDeliverable }
{}

/// The bytes of a post to a node's own endpoint can be read there as a request.
pub fn posts_can_be_read()
    ensures { PostsCanBeRead }
{}

/// Of a post whose envelope is longer than the body of a request may be nothing is taken.
pub fn long_posts_ask_nothing()
    ensures { LongPostsAskNothing }
{}

/// The bases of the nodes of worked examples are bases of nodes that can be reached.
#[tactic(auto, using(crate::proofs::ExampleBases::examples_are_node_bases))]
pub fn examples_are_node_bases()
    ensures { ExamplesAreNodeBases }
{}

/// Whatever a node takes of the envelope of a post that can be delivered, it is what the world of the model decodes there; and it
/// takes nothing of one that its target doesn't take.
#[tactic(auto, using(crate::proofs::TakenMessages::taken))]
pub fn what_is_taken_is_decoded()
    ensures { WhatIsTakenIsDecoded }
{
    one_text_spells_one_tree();
    what_is_posted_reaches_the_book();
}

/// Behind a step of a book and an event that can be delivered, its book, what it records and what it posts can be.
#[tactic(auto, using(crate::proofs::Passing::steps))]
pub fn steps_pass_on()
    ensures { StepsPassOn deliverable }
{}

/// And so can a book that is recovered from such records.
#[tactic(auto, using(crate::proofs::Passing::recovery))]
pub fn recovery_passes_on()
    ensures { RecoveryPassesOn deliverable }
{}
