//! Reads the argument of `balisefields`: `--spell`.

ghost use Rattle.std.specs.Prelude.{◌≡◌, IfOk, codes, map};
ghost use Rattle.clap.specs.Words.{app_of};
ghost use Rattle.balise_fields_cli.specs.Arguments.{program, Asks};
ghost use Rattle.balise_fields_cli.specs.Ways.{way_of};

use balise_arguments::{ArgsFault, flag, is_used, plain_command};
use balise_fields_run::Way;
use clap::Command;
use std::alloc::{AllocError, Global};

const ABOUT: &str =
    "balisefields 0.1.0: fields of ETCS balise telegrams and packets. Reads digits, a telegram or a packet a line, from standard input, and prints their fields; or the other way.";

// Without this, clap prints the name of the file that was run.
const USAGE: &str = "balisefields [OPTIONS]";

// The help's text for the argument.
const SPELL: &str = "Read fields, and print the digits of each telegram and packet";

// The exit statuses, and where all formats are described.
const AFTER_OPTIONS: &str =
    "Status:{n}  0   nothing refused{n}  1   some item refused{n}  3   a line too long, too little memory, or a read or write that failed{n}  64  an unknown argument{n}{n}The formats: man balisefields, or docs/FIELDS.md";

/// What the words ask for. The first is the program's name; `--spell` may be given once. Refused as `Help` where clap
/// is asked for it first, as `Other` where a word isn't the program's, and as `Memory` at any time.
pub(crate) fn check_words<'a>(alloc: Global, words: &'a [&'a str]) -> Result<Way, ArgsFault>
    ensures { Asks (map (λ w. w.now) words.now) result }
{
    let Ok(command) = command(alloc) else {
        return Err(ArgsFault::Memory);
    };
    match command.try_get_matches_from(words) {
        Ok(matches) => Ok(way_of(is_used(&matches, "spell"))),
        Err(error) => Err(ArgsFault::of(error)),
    }
}

// The way, by whether `--spell` is given.
fn way_of(spell: bool) -> Way
    ensures { result ≡ way_of spell }
{
    if spell { Way::Spell } else { Way::Explain }
}

// The command line, for clap.
#[tactic(auto, unfolding(crate::specs::Arguments::program))]
fn command<'a>(alloc: Global) -> Result<Command<'a>, AllocError>
    ensures { IfOk result (λ c. app_of c ≡ program) }
{
    let command = plain_command(alloc, "balisefields", ABOUT, USAGE, AFTER_OPTIONS);
    let spell = flag(alloc, "spell", SPELL);
    command.arg(spell)
}
