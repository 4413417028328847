//! What a list of events leaves, whatever the interleaving.
ghost use Rattle.std.specs.Prelude.{ℕ, List};
ghost use Rattle.fare_law.specs.Book.{Book};
ghost use Rattle.run_core.specs.Counting.{AreRecorded, IsKeptOnce, NeverFall};
ghost use Rattle.run_core.specs.Worlds.{ComesOf, WorldView, opened};
ghost use Rattle.run_core.specs.declared.events.Event.{Event};

/// The answers of a world are those of the list of its events, counted over that list alone.
pub fn answers_are_counted()
    ensures { (opening : Book) (count : ℕ) (past : List Event) (w : WorldView) → ComesOf (opened opening count) past w → AreRecorded opening past w.answers }
{}

/// What is kept is what the Keep events ask for, each once.
pub fn kept_once()
    ensures { (opening : Book) (count : ℕ) (past : List Event) (w : WorldView) → ComesOf (opened opening count) past w → IsKeptOnce past w.kept }
{}

/// The versions of one desk's answers never fall.
pub fn versions_never_fall()
    ensures { (opening : Book) (count : ℕ) (past : List Event) (w : WorldView) → ComesOf (opened opening count) past w → NeverFall w.answers }
{}
