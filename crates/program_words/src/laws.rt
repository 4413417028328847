//! Words written out, as theorems over the definition of a command line.
ghost use Rattle.std.specs.Prelude.{◌≡◌, [], ◌∷◌, codes, Some, None, true};
ghost use Rattle.program_words.specs.Lines.{line_of};
ghost use Rattle.program_words.specs.declared.commands.Command.TheVariants.{Search, Check, Make, Serve, Calendar, Verdict};

/// Words that are command lines.
pub fn worked_lines()
    ensures equals { line_of (codes "search" ∷ codes "--best=3" ∷ []) ≡ Some (Search (Some 3) 100000 None) }
    ensures apart { line_of (codes "--best" ∷ codes "3" ∷ codes "search" ∷ []) ≡ Some (Search (Some 3) 100000 None) }
    ensures dashes { line_of (codes "--" ∷ codes "search" ∷ []) ≡ Some (Search None 100000 None) }
    ensures all { line_of (codes "search" ∷ codes "--best=1000" ∷ codes "--budget=1000000" ∷ codes "--at=0" ∷ []) ≡ Some (Search (Some 1000) 1000000 (Some 0)) }
    ensures padded { line_of (codes "check" ∷ codes "--at" ∷ codes "0000000007" ∷ []) ≡ Some (Check None (Some 7)) }
    ensures make { line_of (codes "make" ∷ codes "--seed" ∷ codes "4294967295" ∷ codes "--size" ∷ codes "15" ∷ codes "--summary" ∷ []) ≡ Some (Make 4294967295 15 true) }
    ensures serve { line_of (codes "serve" ∷ codes "--budget" ∷ codes "5" ∷ []) ≡ Some (Serve None 5) }
    ensures calendar { line_of (codes "calendar" ∷ codes "--outs=31" ∷ codes "--backs=1" ∷ []) ≡ Some (Calendar 31 1 100000 None) }
    ensures verdict { line_of (codes "verdict" ∷ codes "--at=2" ∷ []) ≡ Some (Verdict (Some 2)) }
{}

/// Words that are none.
pub fn worked_refusals()
    ensures nothing { line_of [] ≡ None }
    ensures low { line_of (codes "search" ∷ codes "--best" ∷ codes "0" ∷ []) ≡ None }
    ensures high { line_of (codes "search" ∷ codes "--best" ∷ codes "1001" ∷ []) ≡ None }
    ensures long { line_of (codes "check" ∷ codes "--at" ∷ codes "00000000007" ∷ []) ≡ None }
    ensures sign { line_of (codes "check" ∷ codes "--at=+7" ∷ []) ≡ None }
    ensures empty { line_of (codes "check" ∷ codes "--at=" ∷ []) ≡ None }
    ensures great { line_of (codes "make" ∷ codes "--seed" ∷ codes "4294967296" ∷ codes "--size" ∷ codes "15" ∷ []) ≡ None }
    ensures second { line_of (codes "search" ∷ codes "search" ∷ []) ≡ None }
    ensures repeated { line_of (codes "search" ∷ codes "--best" ∷ codes "3" ∷ codes "--best" ∷ codes "3" ∷ []) ≡ None }
    ensures lacking { line_of (codes "make" ∷ codes "--seed" ∷ codes "1" ∷ []) ≡ None }
    ensures other { line_of (codes "check" ∷ codes "--budget" ∷ codes "5" ∷ []) ≡ None }
    ensures summary { line_of (codes "search" ∷ codes "--summary" ∷ []) ≡ None }
    ensures unknown { line_of (codes "find" ∷ []) ≡ None }
    ensures help { line_of (codes "--help" ∷ []) ≡ None }
    ensures dangling { line_of (codes "search" ∷ codes "--best" ∷ codes "--" ∷ []) ≡ None }
{}
