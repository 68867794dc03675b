//! What `flags` answers.

use balise_arguments::{ArgsFault, Flags, flags};
use std::alloc::Global;
use std::process::Abort;

const QUIET: u8 = 1;

const STOP: u8 = 2;

const JOURNAL: u8 = 4;

const JSON: u8 = 8;

/// Arguments, and the flags that they are read as, in each of the sixteen sets.
const READ: &[(&str, u8)] = &[
    ("baliseplan", 0),
    ("baliseplan --quiet", QUIET),
    ("baliseplan --stop", STOP),
    ("baliseplan --quiet --stop", QUIET | STOP),
    ("baliseplan --journal", JOURNAL),
    ("baliseplan --quiet --journal", QUIET | JOURNAL),
    ("baliseplan --stop --journal", STOP | JOURNAL),
    (
        "baliseplan --quiet --stop --journal",
        QUIET | STOP | JOURNAL,
    ),
    ("baliseplan --json", JSON),
    ("baliseplan --json --quiet", QUIET | JSON),
    ("baliseplan --stop --json", STOP | JSON),
    ("baliseplan --quiet --stop --json", QUIET | STOP | JSON),
    ("baliseplan --journal --json", JOURNAL | JSON),
    (
        "baliseplan --quiet --journal --json",
        QUIET | JOURNAL | JSON,
    ),
    ("baliseplan --stop --journal --json", STOP | JOURNAL | JSON),
    (
        "baliseplan --json --quiet --stop --journal",
        QUIET | STOP | JOURNAL | JSON,
    ),
    ("baliseplan --json --", JSON),
];

fn check_read(rt: &impl Abort, answer: &Result<Flags, ArgsFault>, set: u8) {
    match answer {
        Ok(read) => {
            assert!(rt; read.quiet == (set & QUIET != 0) && read.stop == (set & STOP != 0));
            assert!(rt; read.journal == (set & JOURNAL != 0) && read.json == (set & JSON != 0));
        }
        Err(_) => assert!(rt; false),
    }
}

fn words_of<'a>(rt: &impl Abort, alloc: Global, line: &'a str) -> Vec<&'a str> {
    let mut words = Vec::new(alloc);
    for word in line.split_whitespace() {
        words.push(word).expect(rt, "memory");
    }
    words
}

#[test]
fn each_set_of_flags(rt: HostRuntime) {
    for (line, set) in READ.iter() {
        let words = words_of(&rt, rt.alloc(), *line);
        check_read(&rt, &flags(rt.alloc(), words.as_slice()), *set);
    }
}

fn is_help(answer: &Result<Flags, ArgsFault>) -> bool {
    matches!(answer, Err(ArgsFault::Help(_)))
}

fn is_other(answer: &Result<Flags, ArgsFault>) -> bool {
    matches!(answer, Err(ArgsFault::Other(_)))
}

#[test]
fn help(rt: HostRuntime) {
    let alloc = rt.alloc();
    assert!(rt; is_help(&flags(alloc, &["baliseplan", "--help"])));
    assert!(rt; is_help(&flags(alloc, &["baliseplan", "-h"])));
    assert!(rt; is_help(&flags(alloc, &["baliseplan", "--quiet", "--help"])));
    assert!(rt; is_help(&flags(alloc, &["baliseplan", "--quiet", "-h", "--loud"])));
}

/// Arguments that aren't known, or given twice.
const OTHERS: &[&str] = &[
    "baliseplan --loud",
    "baliseplan -q",
    "baliseplan --quiet=true",
    "baliseplan --qui",
    "baliseplan plan",
    "baliseplan -",
    "baliseplan --quiet --quiet",
    "baliseplan -- --quiet",
    "baliseplan --loud --help",
    "baliseplan --version",
    "baliseplan -V",
    "baliseplan --quiet --version",
    "baliseplan -V --help",
];

fn check_other(rt: &impl Abort, alloc: Global, words: &[&str]) {
    assert!(rt; is_other(&flags(alloc, words)));
}

#[test]
fn others(rt: HostRuntime) {
    for line in OTHERS.iter() {
        let words = words_of(&rt, rt.alloc(), *line);
        check_other(&rt, rt.alloc(), words.as_slice());
    }
    check_other(&rt, rt.alloc(), &["baliseplan", ""]);
}

// What the user is shown, as clap lays it out.
#[test]
fn texts(rt: HostRuntime) {
    let alloc = rt.alloc();
    check_text(&rt, alloc, "--help", HELP);
    check_text(&rt, alloc, "--loud", LOUD);
    check_text(&rt, alloc, "--version", VERSION)
}

/// That the fault of this argument is shown so.
fn check_text(rt: &impl Abort, alloc: Global, word: &str, wanted: &str) {
    match flags(alloc, &["another_name", word]) {
        Ok(_) => assert!(rt; false),
        Err(fault) => check_fault(rt, alloc, &fault, wanted),
    }
}

fn check_fault(rt: &impl Abort, alloc: Global, fault: &ArgsFault, wanted: &str) {
    let text = format!(in alloc; "{fault}").expect(rt, "memory");
    check_shown(rt, text.as_str(), wanted);
}

fn check_shown(rt: &impl Abort, text: &str, wanted: &str) {
    assert!(rt; text == wanted);
}

const HELP: &str = "\
baliseplan 0.1.0: edits a plan of ETCS balise groups. Reads the plan and then one command a line from standard input, and prints a reply to each command and then the plan.

Usage: baliseplan [OPTIONS]

Options:
      --quiet    Print no reply to a command that is accepted
      --stop     Do no command after the first that is refused
      --journal  Print the journal after the plan: the edits that stand and those undone, for a later run
      --json     Print each group as one line of JSON after the plan
  -h, --help     Print help

Commands, one a line after the line 'edits':
  set, seth, insert, delete, move, add, drop, renumber, turn, undo, redo, strike

Status:
  0   all commands accepted
  1   a command refused
  2   the plan refused
  3   a line too long, too little memory, or a read or write that failed
  64  an unknown argument, or one given twice

The words of each command, the formats and the refusals: man baliseplan, or docs/FORMATS.md
";

const LOUD: &str = "\
error: unexpected argument '--loud' found

Usage: baliseplan [OPTIONS]

For more information, try '--help'.
";

const VERSION: &str = "\
error: unexpected argument '--version' found

Usage: baliseplan [OPTIONS]

For more information, try '--help'.
";
