//! Which texts are read as the lines of an initiator.

ghost use Rattle.std.specs.Prelude.{ℕ, List, ◌≡◌, ◌++◌, ◌∷◌, ◌⊎◌, ◌<◌, ◌^◌, [], Ok, length};
ghost use Rattle.schedules.specs.InitiatorLines.{initiator_lines_of};
ghost use Rattle.schedules.specs.InitiatorLineTexts.{AreAsked, written};
ghost use Rattle.schedules.specs.declared.initiator_line.InitiatorLine.{InitiatorLine};

/// A text that is read is what is written of its lines, but for the last line feed, which it may lack.
pub fn what_is_read_is_written()
    ensures { (text : List ℕ) (lines : List InitiatorLine) → initiator_lines_of text ≡ Ok lines → (text ≡ written lines) ⊎ (text ++ 10 ∷ [] ≡ written lines) }
{}

/// What is written of an initiator's lines, with or without the last line feed, is read as these lines.
pub fn what_is_written_is_read()
    ensures { (text : List ℕ) (lines : List InitiatorLine) → AreAsked 0 lines → length lines < 2 ^ 64 → (text ≡ written lines) ⊎ (text ++ 10 ∷ [] ≡ written lines) → initiator_lines_of text ≡ Ok lines }
{}
