//! Laws of canonical texts and the grammar (XML 1.0; Namespaces in XML 1.0).
//!
//! The bounds of 2^63 are those of a number's text in decimal: no tree or text in memory reaches them.

ghost use Rattle.std.specs.Prelude.{◌≡◌, ◌<◌, ◌^◌, ℕ, List, true, length};
ghost use Rattle.xml_grammar.specs.Limits.{IsWithin};
ghost use Rattle.xml_grammar.specs.Refusals.{IsShort, Reads};
ghost use Rattle.xml_grammar.specs.Spells.{Spells};
ghost use Rattle.xml_profile.specs.CanonicalText.{canonical_text, numbered_by};
ghost use Rattle.xml_profile.specs.SpellableTrees.{can_be_spelled};
ghost use Rattle.xml_profile.specs.declared.tree.Tree.{Tree};

/// The canonical text of each tree that can be spelled spells that tree and no other.
#[tactic(auto, using(crate::proofs::Wholes::canonical_spells, crate::proofs::EqualTexts::text_spells, crate::proofs::EqualTexts::spells_only))]
pub fn canonical_text_spells_its_tree()
    ensures numbered { (t : Tree) → length (numbered_by t) < 2 ^ 63 → can_be_spelled t ≡ true → Spells (canonical_text t) t }
    ensures in_memory { (t : Tree) → length (canonical_text t) < 2 ^ 63 → can_be_spelled t ≡ true → Spells (canonical_text t) t }
    ensures only { (t : Tree) → (u : Tree) → length (numbered_by t) < 2 ^ 63 → can_be_spelled t ≡ true → Spells (canonical_text t) u → t ≡ u }
{}

/// Trees that can be spelled and have one canonical text are one tree.
#[tactic(auto, using(crate::proofs::EqualTexts::equal_texts, crate::proofs::EqualTexts::read_equal))]
pub fn one_canonical_text_is_of_one_tree()
    ensures spelled { (t : Tree) → (u : Tree) → length (canonical_text t) < 2 ^ 63 → can_be_spelled t ≡ true → can_be_spelled u ≡ true → canonical_text t ≡ canonical_text u → t ≡ u }
    ensures read { (a : List ℕ) → (b : List ℕ) → (t : Tree) → (u : Tree) → length a < 2 ^ 63 → length b < 2 ^ 63 → Spells a t → Spells b u → canonical_text t ≡ canonical_text u → t ≡ u }
{}

/// Each tree that a text spells can be spelled: its canonical text spells it too.
#[tactic(auto, using(crate::proofs::Trees::spelled_well, crate::proofs::EqualTexts::read_spells))]
pub fn what_is_spelled_can_be_spelled()
    ensures spellable { (bytes : List ℕ) → (t : Tree) → Spells bytes t → can_be_spelled t ≡ true }
    ensures again { (bytes : List ℕ) → (t : Tree) → length bytes < 2 ^ 63 → Spells bytes t → Spells (canonical_text t) t }
{}

/// What is written within the limits is read as it was, and what was read is written and read again as it is.
#[tactic(auto, using(crate::proofs::RoundtripLimits::written_reads, crate::proofs::RoundtripLimits::read_again))]
pub fn what_is_written_is_read()
    ensures written { (t : Tree) → can_be_spelled t ≡ true → IsWithin t → IsShort (canonical_text t) → Reads (canonical_text t) t }
    ensures again { (bytes : List ℕ) → (t : Tree) → Reads bytes t → IsShort (canonical_text t) → Reads (canonical_text t) t }
{}
