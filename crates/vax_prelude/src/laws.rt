// The law of told lines.

ghost use Rattle.std.specs.Prelude.{◌≡◌, ℕ, List};
ghost use Rattle.vax_lines.specs.Lines.{lines};
ghost use Rattle.vax_prelude.specs.Laws.{AreEnded, line_at, line_of};
ghost use Rattle.vax_prelude.specs.Preludes.{Prelude, joined, told_at};

/// A line of the text that is assembled for a source is the line with the number that is told, in the file that is told.
pub fn lines_are_those_of_their_files()
    ensures { (preludes : List Prelude) → (text : List ℕ) → (line : ℕ) → AreEnded preludes →
        line_of line (lines (joined preludes text))
        ≡ line_at preludes text (told_at preludes line) }
{}
