//! Laws of what bytes say, and of what is printed.

ghost use Rattle.std.specs.Prelude.{◌≡◌, ℕ, List};
ghost use Rattle.at_tables.specs.declared.cells.State.{State};
ghost use Rattle.envelope_cmd.specs.Cells.{IsCellOf};
ghost use Rattle.envelope_cmd.specs.Checks.{IsCheckOf};
ghost use Rattle.envelope_cmd.specs.Output.{Output};
ghost use Rattle.envelope_cmd.specs.RequestMeanings.{SayOneThing};

use wire_posts::laws::what_is_posted_arrives;
use xml_grammar::laws::one_text_spells_one_tree;

/// At one path bytes are one message, or draw one refusal.
#[tactic(auto, using(crate::proofs::Uniqueness::one_said))]
pub fn bytes_say_one_thing()
    ensures { SayOneThing }
{
    one_text_spells_one_tree();
}

/// Of one envelope one report is printed.
#[tactic(auto, using(crate::proofs::Uniqueness::checks_one))]
pub fn one_report_is_printed()
    ensures checks { (bytes : List ℕ) → (path : List ℕ) → (p : Output) → (q : Output) → IsCheckOf bytes path p → IsCheckOf bytes path q → p ≡ q }
    ensures cells { (bytes : List ℕ) → (state : State) → (p : Output) → (q : Output) → IsCellOf bytes state p → IsCellOf bytes state q → p ≡ q }
{
    one_text_spells_one_tree();
    what_is_posted_arrives();
}
