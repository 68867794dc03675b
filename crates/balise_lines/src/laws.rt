//! What the lines of an input are, as laws of the definitions.

ghost use Rattle.balise_lines.specs.Laws.{LinesMakeInput, OneCut};

/// Each input is cut into lines in one way: the lines, with their ends, are the input again, no line has a
/// line feed in it, and only the last may lack its end.
pub fn one_cut()
    ensures whole { LinesMakeInput }
    ensures one { OneCut }
{}
