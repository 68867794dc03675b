//! Words with an input, and what the program writes and ends with.

use balise_facts_cli::Refusal;

/// Words with an input, and what is written on each stream, how the program ends, and whether the input was read.
pub(crate) struct Row {
    pub(crate) words: &'static [&'static str],
    pub(crate) input: &'static str,
    pub(crate) output: &'static str,
    pub(crate) errors: &'static str,
    pub(crate) code: u8,
    pub(crate) fault: Option<Refusal>,
    pub(crate) reads: bool,
}

/// A group of one telegram with one packet, two edits of a variable of it, and an undo and a redo of the second.
const EDITED: &str =
    "plan 1\ngroup\na1007f80a03250900f82ffffffffffffffffffffffffffffffffc0\nedits\nset 5.100 0 0 NID_TSR 0 9\nset 5.100 0 0 NID_TSR 0 8\nundo\nredo\n";

const HELP: &str = "\
balisefacts 0.1.0: facts of a session over a plan of ETCS balise groups. Reads from standard input what baliseplan reads, and prints what each edit that stands changes and needs, and which later edits depend on it.

Usage: balisefacts [--edit <N> | --tags]

Options:
      --edit <N>  Print the facts of one edit
      --tags      Print the tags of groups, telegrams and packets instead
  -h, --help      Print help

Status:
  0   all commands accepted
  1   a command refused
  2   the plan refused
  3   a line too long, too little memory, or a read or write that failed
  64  an unknown argument, one given twice, or both

The formats: man balisefacts, or docs/FORMATS.md
";

pub(crate) const ROWS: &[Row] = &[
    Row {
        words: &["balisefacts"],
        input: EDITED,
        output: "facts 1\nedit 1\nchanges b0/0/b0.NID_TSR.0\ndependent 2\nedit 2\nchanges b0/0/b0.NID_TSR.0\n",
        errors: "",
        code: 0,
        fault: None,
        reads: true,
    },
    Row {
        words: &["balisefacts", "--edit", "2"],
        input: EDITED,
        output: "facts 1\nedit 2\nchanges b0/0/b0.NID_TSR.0\n",
        errors: "",
        code: 0,
        fault: None,
        reads: true,
    },
    Row {
        words: &["balisefacts", "--edit=+1"],
        input: EDITED,
        output: "facts 1\nedit 1\nchanges b0/0/b0.NID_TSR.0\ndependent 2\n",
        errors: "",
        code: 0,
        fault: None,
        reads: true,
    },
    Row {
        words: &["balisefacts", "--edit", "4294967295"],
        input: EDITED,
        output: "facts 1\n",
        errors: "",
        code: 0,
        fault: None,
        reads: true,
    },
    Row {
        words: &["balisefacts", "--tags"],
        input: EDITED,
        output: "facts 1\ngroup 5.100 b0\ntelegram 5.100 0 0\npacket 5.100 0 0 b0\n",
        errors: "",
        code: 0,
        fault: None,
        reads: true,
    },
    Row {
        words: &["balisefacts"],
        input: "plan 1\nedits\nundo\nredo\n",
        output: "refused 23 NothingToUndo\nrefused 24 NothingToRedo\nfacts 1\n",
        errors: "",
        code: 1,
        fault: None,
        reads: true,
    },
    Row {
        words: &["balisefacts", "--tags"],
        input: "plan 2\n",
        output: "bad 1 1 BadLine\n",
        errors: "",
        code: 2,
        fault: None,
        reads: true,
    },
    Row {
        words: &["balisefacts", "-h", "--loud"],
        input: EDITED,
        output: HELP,
        errors: "",
        code: 0,
        fault: None,
        reads: false,
    },
    Row {
        words: &["another_name", "--loud"],
        input: EDITED,
        output: "",
        errors: "error: unexpected argument '--loud' found\n\nUsage: balisefacts [--edit <N> | --tags]\n\nFor more information, try '--help'.\n",
        code: 64,
        fault: None,
        reads: false,
    },
    Row {
        words: &["balisefacts", "--tags", "--edit", "1"],
        input: EDITED,
        output: "",
        errors: "error: the argument '--edit <N>' cannot be used with '--tags'\n\nUsage: balisefacts [--edit <N> | --tags]\n\nFor more information, try '--help'.\n",
        code: 64,
        fault: None,
        reads: false,
    },
    Row {
        words: &["balisefacts", "--edit", "4294967296"],
        input: EDITED,
        output: "",
        errors: "error: invalid value for '--edit <N>': a serial is a number from 0 to 4294967295\n\nUsage: balisefacts [--edit <N> | --tags]\n\nFor more information, try '--help'.\n",
        code: 64,
        fault: None,
        reads: false,
    },
];

/// Words that aren't the program's.
pub(crate) const OTHERS: &[&[&str]] = &[
    &["balisefacts", "--edit"],
    &["balisefacts", "--edit", ""],
    &["balisefacts", "--edit", "one"],
    &["balisefacts", "--edit", "-1"],
    &["balisefacts", "--edit", "1", "2"],
    &["balisefacts", "--edit", "1", "--edit", "1"],
    &["balisefacts", "--tags", "--tags"],
    &["balisefacts", "--tags=true"],
    &["balisefacts", "--tag"],
    &["balisefacts", "--quiet"],
    &["balisefacts", "--version"],
    &["balisefacts", "1"],
    &["balisefacts", "--", "--tags"],
];
