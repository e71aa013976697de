//! Laws of what arrives.

ghost use Rattle.std.specs.Prelude.{◌≡◌, ◌<◌, ◌^◌, ℕ, [], List, Some, codes};
ghost use Rattle.url.specs.Parts.{IsValidHead, Parts, serialize};
ghost use Rattle.xml_grammar.specs.Refusals.{IsShort};
ghost use Rattle.at_base.specs.declared.event.Arrived.{Arrived};
ghost use Rattle.at_base.specs.declared.event.Event.TheVariants.{Arrived as AsEvent};
ghost use Rattle.at_base.specs.declared.outs.Post.{Post};
ghost use Rattle.at_base.specs.declared.target.Target.{Target};
ghost use Rattle.at_model.specs.World.{HaveOwnAddresses, Hosts, decoded, example_base};
ghost use Rattle.model_laws.specs.BookBounds.{IsSoundEvent, IsSoundMessage};
ghost use Rattle.wire_msgs.specs.declared.decode.Arrival.{Arrival};
ghost use Rattle.wire_msgs.specs.Arrivals.{Arrives};
ghost use Rattle.wire_msgs.specs.WholeMessages.{IsWhole};
ghost use Rattle.wire_posts.specs.Envelopes.{IsTextOf};
ghost use Rattle.wire_posts.specs.Returns.{CanReturn, IsInLimits, returned};
ghost use Rattle.arrivals.specs.BookArrivals.{reaches};
ghost use Rattle.arrivals.specs.Worlds.{CanArrive, HasProtocolFault, HaveOwnBases, IsBase, IsProper, Reaches, with_path};

/// A whole arrival keeps the bounds of what a node's book steps on, so that its records are well-formed.
#[tactic(auto, using(crate::proofs::Soundness::message_sound))]
pub fn what_is_whole_is_sound()
    ensures message { (arrival : Arrival) → IsWhole arrival → IsSoundMessage arrival.message }
    ensures event { (arrival : Arrival) → IsWhole arrival → IsSoundEvent (AsEvent (reaches arrival)) }
{}

/// A post that has arrived could be posted, if a fault in it is one of the protocols'.
pub fn what_arrives_can_return()
    ensures { (text : List ℕ) → (path : List ℕ) → (post : Post) → (target : Target) → HasProtocolFault post.message → Arrives text path (returned post target) → CanReturn post path target }
{}

/// What an http URL has before its path, the base of a node: the address of each of its items is a URL with the item's path. Such
/// are the bases of examples.
#[tactic(auto, using(crate::proofs::Bases::head_is_base, crate::proofs::Bases::example_is_base))]
pub fn heads_are_bases()
    ensures every { (url : Parts) → IsValidHead url → url.scheme ≡ codes "http" → IsBase (serialize (with_path url [])) }
    ensures examples { (n : ℕ) → n < 2 ^ 64 → IsBase (example_base n) }
{}

/// Where no two nodes have the same base, no address of an item of one node is that of an item of another.
#[tactic(auto, using(crate::proofs::Bases::apart))]
pub fn bases_are_apart()
    ensures { (hosts : Hosts) → HaveOwnBases hosts → HaveOwnAddresses hosts }
{}

/// A post whose endpoints can be posted to reaches the book as the world of the model says: where it can be read at the
/// target that the world has for it, and at any path where the node has a base.
#[tactic(auto, using(crate::proofs::WorldArrivals::post_reaches, crate::proofs::WorldArrivals::node_reaches))]
pub fn what_is_posted_reaches_the_book()
    ensures at { (base : List ℕ) → (post : Post) → (arrived : Arrived) → (text : List ℕ) → (path : List ℕ) → decoded base post ≡ Some arrived → IsTextOf post text → CanReturn post path arrived.target → IsInLimits post → IsShort text → IsProper post → Reaches text path arrived }
    ensures addressed { (base : List ℕ) → (post : Post) → (arrived : Arrived) → (text : List ℕ) → (path : List ℕ) → IsBase base → decoded base post ≡ Some arrived → IsTextOf post text → CanArrive post → IsInLimits post → IsShort text → IsProper post → Reaches text path arrived }
{}
