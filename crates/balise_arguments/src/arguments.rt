//! Reads the arguments of `baliseplan`: its four flags.

ghost use Rattle.std.specs.Prelude.{◌≡◌, ◌↔◌, IfErr, IfOk, IsTrue, OnOk, codes, map};
ghost use Rattle.clap.specs.Words.{app_of};
ghost use Rattle.balise_arguments.specs.Arguments.{program, AreAccepted, IsUsed};
ghost use Rattle.balise_arguments.specs.Faults.{IsFaultOf};

use crate::command_line::{flag, is_used, plain_command};
use crate::fault::ArgsFault;
use crate::options::Flags;
use clap::Command;
use std::alloc::{AllocError, Global};

const ABOUT: &str =
    "baliseplan 0.1.0: edits a plan of ETCS balise groups. Reads the plan and then one command a line from standard input, and prints a reply to each command and then the plan.";

// Without this, clap prints the name of the file that was run.
const USAGE: &str = "baliseplan [OPTIONS]";

// The commands, the exit statuses, and where all formats are described.
const AFTER_OPTIONS: &str =
    "Commands, one a line after the line 'edits':{n}  set, seth, insert, delete, move, add, drop, renumber, turn, undo, redo, strike{n}{n}Status:{n}  0   all commands accepted{n}  1   a command refused{n}  2   the plan refused{n}  3   a line too long, too little memory, or a read or write that failed{n}  64  an unknown argument, or one given twice{n}{n}The words of each command, the formats and the refusals: man baliseplan, or docs/FORMATS.md";

// The help's text for each argument.
const QUIET: &str = "Print no reply to a command that is accepted";

const STOP: &str = "Do no command after the first that is refused";

const JOURNAL: &str =
    "Print the journal after the plan: the edits that stand and those undone, for a later run";

const JSON: &str = "Print each group as one line of JSON after the plan";

/// What the words ask for. The first is the program's name; each argument may be given once, in any order. Refused as
/// `Help` where clap is asked for it first, as `Other` where a word isn't the program's, and as `Memory` at any time.
pub fn flags<'a>(alloc: Global, words: &'a [&'a str]) -> Result<Flags, ArgsFault>
    ensures quiet { IfOk result (λ f. IsTrue f.quiet ↔ IsUsed (codes "quiet") (map (λ w. w.now) words.now)) }
    ensures stop { IfOk result (λ f. IsTrue f.stop ↔ IsUsed (codes "stop") (map (λ w. w.now) words.now)) }
    ensures journal { IfOk result (λ f. IsTrue f.journal ↔ IsUsed (codes "journal") (map (λ w. w.now) words.now)) }
    ensures json { IfOk result (λ f. IsTrue f.json ↔ IsUsed (codes "json") (map (λ w. w.now) words.now)) }
    ensures ok { OnOk result (AreAccepted (map (λ w. w.now) words.now)) }
    ensures fault { IfErr result (IsFaultOf program (map (λ w. w.now) words.now)) }
{
    let Ok(command) = command(alloc) else {
        return Err(ArgsFault::Memory);
    };
    match command.try_get_matches_from(words) {
        Ok(matches) => Ok(Flags {
            quiet: is_used(&matches, "quiet"),
            stop: is_used(&matches, "stop"),
            journal: is_used(&matches, "journal"),
            json: is_used(&matches, "json"),
        }),
        Err(error) => Err(ArgsFault::of(error)),
    }
}

// The command line, for clap.
#[tactic(auto, unfolding(crate::specs::Arguments::program))]
fn command<'a>(alloc: Global) -> Result<Command<'a>, AllocError>
    ensures { IfOk result (λ c. app_of c ≡ program) }
{
    let command = plain_command(alloc, "baliseplan", ABOUT, USAGE, AFTER_OPTIONS);
    let quiet = flag(alloc, "quiet", QUIET);
    let command = command.arg(quiet)?;
    let stop = flag(alloc, "stop", STOP);
    let command = command.arg(stop)?;
    let journal = flag(alloc, "journal", JOURNAL);
    let command = command.arg(journal)?;
    let json = flag(alloc, "json", JSON);
    command.arg(json)
}
