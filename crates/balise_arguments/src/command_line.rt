//! What any program's command line is made of.

ghost use Rattle.std.specs.Prelude.{◌≡◌, ◌↔◌, IsTrue, Some, codes, false};
ghost use Rattle.clap.specs.Words.{app_of, first_value, found_of, new_app, rule_of};
ghost use Rattle.balise_arguments.specs.CommandLines.{flag_rule};

use clap::{Arg, ArgAction, ArgMatches, Command};
use std::alloc::Global;

/// A program's command line before its arguments are added. Help shows the three texts: what the program does, how it
/// is called, and what stands after the list of arguments.
pub fn plain_command<'a>(
    alloc: Global,
    name: &'a str,
    about: &'a str,
    usage: &'a str,
    after_options: &'a str,
) -> Command<'a>
    ensures { app_of result ≡ new_app name.entry.now }
{
    Command::new(alloc, name)
        .about(about)
        .override_usage(usage)
        .after_help(after_options)
}

/// An argument `--NAME` that takes no value, with its text in the help.
pub fn flag<'a>(alloc: Global, name: &'a str, help: &'a str) -> Arg<'a>
    ensures rule { rule_of result ≡ flag_rule name.entry.now }
    ensures local { result.global ≡ false }
{
    Arg::new(alloc, name)
        .long(name)
        .action(ArgAction::SetTrue)
        .help(help)
}

/// Whether clap found such an argument among the words.
pub fn is_used(matches: &ArgMatches<'_>, name: &str) -> bool
    ensures { IsTrue result ↔ (first_value (found_of matches.now) name.now ≡ Some (codes "true")) }
{
    matches.get_str(name) == Some("true")
}
