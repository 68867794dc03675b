//! Reads the arguments of `balisefacts`: `--edit` and `--tags`.

ghost use Rattle.std.specs.Prelude.{◌≡◌, IfOk, None, Some, codes, false, map, option_map};
ghost use Rattle.clap.specs.Words.{app_of, rule_of};
ghost use Rattle.balise_facts_cli.specs.Arguments.{edit_rule, program, Asks, Chooses, IsFound};

use balise_arguments::{ArgsFault, flag, is_used, plain_command};
use balise_facts::Facts;
use clap::error::ErrorKind;
use clap::{Arg, ArgAction, Command};
use std::alloc::{AllocError, Global};

const ABOUT: &str =
    "balisefacts 0.1.0: facts of a session over a plan of ETCS balise groups. Reads from standard input what baliseplan reads, and prints what each edit that stands changes and needs, and which later edits depend on it.";

// Without this, clap prints the name of the file that was run, and doesn't say that only one of the two may be given.
const USAGE: &str = "balisefacts [--edit <N> | --tags]";

// The help's text for the arguments.
const EDIT: &str = "Print the facts of one edit";

const TAGS: &str = "Print the tags of groups, telegrams and packets instead";

// The exit statuses, and where all formats are described.
const AFTER_OPTIONS: &str =
    "Status:{n}  0   all commands accepted{n}  1   a command refused{n}  2   the plan refused{n}  3   a line too long, too little memory, or a read or write that failed{n}  64  an unknown argument, one given twice, or both{n}{n}The formats: man balisefacts, or docs/FORMATS.md";

// What is wrong with words that clap accepts.
const BOTH: &str = "the argument '--edit <N>' cannot be used with '--tags'";

const NO_SERIAL: &str = "invalid value for '--edit <N>': a serial is a number from 0 to 4294967295";

/// What the words ask for. The first is the program's name; `--edit` or `--tags` may be given, and only once. Refused
/// as `Help` where clap is asked for it first, as `Other` where a word isn't the program's, and as `Memory` at any
/// time.
pub(crate) fn check_words<'a>(alloc: Global, words: &'a [&'a str]) -> Result<Facts, ArgsFault>
    ensures { Asks (map (λ w. w.now) words.now) result }
{
    let Ok(mut command) = command(alloc) else {
        return Err(ArgsFault::Memory);
    };
    match command.try_get_matches_from_mut(words) {
        Ok(matches) => {
            let tags = is_used(&matches, "tags");
            choose(&mut command, matches.get_str("edit"), tags)
        }
        Err(error) => Err(ArgsFault::of(error)),
    }
}

// The facts that are asked for, by what follows `--edit`, if it is given, and by whether `--tags` is.
fn choose(command: &mut Command<'_>, edit: Option<&str>, tags: bool) -> Result<Facts, ArgsFault>
    ensures { Chooses (option_map (λ s. s.now) edit.entry) tags result }
{
    let Some(serial) = edit else {
        return Ok(if tags { Facts::Tags } else { Facts::Edits });
    };
    if tags {
        return Err(mistake(command, ErrorKind::ArgumentConflict, BOTH));
    }
    match serial.parse() {
        Ok(serial) => Ok(Facts::Edit(serial)),
        Err(_) => Err(mistake(command, ErrorKind::ValueValidation, NO_SERIAL)),
    }
}

// A mistake that clap doesn't look for, in the form of those that it finds.
fn mistake(command: &mut Command<'_>, kind: ErrorKind, message: &str) -> ArgsFault
    ensures { IsFound kind result }
{
    match command.error(kind, message) {
        Ok(error) => ArgsFault::Other(error),
        Err(_) => ArgsFault::Memory,
    }
}

// The command line, for clap.
#[tactic(auto, unfolding(crate::specs::Arguments::program))]
fn command<'a>(alloc: Global) -> Result<Command<'a>, AllocError>
    ensures { IfOk result (λ c. app_of c ≡ program) }
{
    let command = plain_command(alloc, "balisefacts", ABOUT, USAGE, AFTER_OPTIONS);
    let edit = edit(alloc);
    let command = command.arg(edit)?;
    let tags = flag(alloc, "tags", TAGS);
    command.arg(tags)
}

// The argument `--edit N`.
fn edit<'a>(alloc: Global) -> Arg<'a>
    ensures rule { rule_of result ≡ edit_rule }
    ensures local { result.global ≡ false }
{
    Arg::new(alloc, "edit")
        .long("edit")
        .action(ArgAction::Set)
        .value_name("N")
        .help(EDIT)
}
