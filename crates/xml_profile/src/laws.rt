//! Laws of canonical texts.

ghost use Rattle.std.specs.Prelude.{◌≡◌, ◌<◌, ◌^◌, true, length};
ghost use Rattle.std.specs.List.{list_all};
ghost use Rattle.xml_profile.specs.CanonicalText.{spaces_of, declared_by, numbered_by};
ghost use Rattle.xml_profile.specs.Declarations.{is_declared, has_prefix, is_once, PrefixesDiffer};

use crate::tree::Tree;

/// The root of a canonical text declares each namespace that a name uses but that of xml, none of them twice, and two
/// namespaces never share a prefix (Namespaces in XML 1.0, sections 3 and 5).
#[tactic(auto, using(crate::proofs::Declarations::all_once, crate::proofs::DistinctPrefixes::prefixes_differ))]
pub fn declarations(tree: &Tree)
    ensures declared { list_all (is_declared (declared_by tree.now)) (spaces_of tree.now) ≡ true }
    ensures once { is_once (declared_by tree.now) ≡ true }
    ensures prefixed { list_all (has_prefix (numbered_by tree.now)) (spaces_of tree.now) ≡ true }
    ensures differ { length (numbered_by tree.now) < 2 ^ 63 → PrefixesDiffer (numbered_by tree.now) }
{}
