//! Laws of what a run prints, each the contract of a function that does nothing.

ghost use Rattle.balise_cli.specs.Laws.{OneOutput, OneStanding, OneWithout, PrintsStandingEdits, PromisedWithout, ShortageShows};

/// Where memory runs out at no command, an input has one output, and the run one ending.
pub fn one_output()
    ensures { OneOutput }
{}

/// A run that comes to its end prints one line for a refused plan or journal; or a reply to each command, and then the
/// session's plan or facts. After each command the session is as `headline` of balise_history states, padding included,
/// and the text of its journal is read back.
pub fn prints_standing_edits()
    ensures { PrintsStandingEdits }
{}

/// The promise above leaves nothing open: where memory runs out at no command, it allows no other text and no other
/// status for an input.
pub fn one_standing()
    ensures { OneStanding }
{}

/// Memory that runs out at a command is seen: an output that nowhere has the line `refused 30 OutOfMemory` is one where
/// memory runs out at no command. So all that is promised above holds of it, and an input has at most one such output.
pub fn shortage_shows()
    ensures output { ShortageShows }
    ensures promised { PromisedWithout }
    ensures one { OneWithout }
{}
