//! Laws of the grammar.

ghost use Rattle.std.specs.Prelude.{◌≡◌, ℕ, List};
ghost use Rattle.xml_grammar.specs.Examples.{AreNotSpelled, AreSpelled, AtLimits, fronts, lines, markup, no_characters, no_fronts, no_markup, no_prefixes, prefixes, values};
ghost use Rattle.xml_grammar.specs.Spells.{Spells};
ghost use Rattle.xml_profile.specs.declared.tree.Tree.{Tree};

/// One text spells at most one tree.
pub fn one_text_spells_one_tree()
    ensures { (bytes : List ℕ) → (t : Tree) → (u : Tree) → Spells bytes t → Spells bytes u → t ≡ u }
{}

/// Texts and the trees that they spell, texts that spell none, and texts at each limit and past it.
pub fn worked_examples()
    ensures markup { AreSpelled markup × AreNotSpelled no_markup }
    ensures fronts { AreSpelled fronts × AreNotSpelled no_fronts }
    ensures lines { AreSpelled lines × AreSpelled values }
    ensures prefixes { AreSpelled prefixes × AreNotSpelled no_prefixes }
    ensures characters { AreNotSpelled no_characters }
    ensures limits { AtLimits }
{}
