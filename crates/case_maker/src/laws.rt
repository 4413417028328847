//! Laws for callers' proofs. They have no code.
ghost use Rattle.case_maker.specs.MadeCase.{made_case};
ghost use Rattle.case_maker.specs.Lines.{lined};
ghost use Rattle.case_maker.specs.Made.{AreMadeLines, SpellsMade};
ghost use Rattle.std.specs.Prelude.{◌≡◌, ◌≤◌, ℕ, List, length};

/// The text of a made case is that of its lines: the three tables, with a row for each place, each flight and each
/// flight's seats, one filing, and one request.
pub fn made_cases_have_lines()
    ensures { (seed size : ℕ) → size ≤ 100
        → (ls : List (List ℕ)) × AreMadeLines size ls × (made_case seed size ≡ lined ls) }
{}

/// The text of a made case spells a case of a search, as far as the form of lines and rows goes: with those places,
/// flights and seats, that filing, and that request.
pub fn made_cases_have_sections()
    ensures { (seed size : ℕ) → size ≤ 100 → SpellsMade size (made_case seed size) }
{}

/// A made case of at most a hundred hubs has at most a million bytes.
pub fn made_cases_are_short()
    ensures { (seed size : ℕ) → size ≤ 100 → length (made_case seed size) ≤ 1000000 }
{}
