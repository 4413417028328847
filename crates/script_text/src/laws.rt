//! Lines have one reading.
ghost use Rattle.script_text.specs.Laws.{OneScript, ScriptOrFault, OneFault};

/// Lines spell at most one script, none where a line is at fault, and one line is the first at
/// fault: where memory suffices, a script has one answer.
pub fn one_reading()
    ensures script { OneScript }
    ensures either { ScriptOrFault }
    ensures fault { OneFault }
{}
