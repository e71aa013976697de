//! Which texts are read as a schedule.

ghost use Rattle.std.specs.Prelude.{ℕ, List, ◌≡◌, ◌++◌, ◌∷◌, ◌⊎◌, [], Ok};
ghost use Rattle.schedules.specs.Schedules.{schedule_of};
ghost use Rattle.schedules.specs.LineTexts.{IsSchedule, written};
ghost use Rattle.schedules.specs.declared.line.Line.{Line};

/// A text that is read is what is written of its lines, but for the last line feed, which it may lack.
pub fn what_is_read_is_written()
    ensures { (text : List ℕ) (lines : List Line) → schedule_of text ≡ Ok lines → (text ≡ written lines) ⊎ (text ++ 10 ∷ [] ≡ written lines) }
{}

/// What is written of a schedule, with or without the last line feed, is read as that schedule.
pub fn what_is_written_is_read()
    ensures { (text : List ℕ) (lines : List Line) → IsSchedule lines → (text ≡ written lines) ⊎ (text ++ 10 ∷ [] ≡ written lines) → schedule_of text ≡ Ok lines }
{}
