//! Values at the edges: of directions and duplicates, serials, countries, and of what a line may be.

use crate::tests::rows::Row;
use crate::tests::runs::{JOURNAL, PLAIN};
use balise_cli::Status;

pub(crate) const ROWS: &[Row] = &[
    // Each Q_DIR and M_DUP, both lengths, both versions, turned and turned back.
    Row {
        flags: PLAIN,
        input: "plan 1\ngroup\na1060000a0324b000b96601abfffffffffffffffffffffffffffc0\n90168080a0324b100b96401abffffffffffffffffffffffffffffffffffffffffffffffffffffffffffffffffffffffffffffffffffffffffffffffffffffffffffffffffffffffffffffffffffffffffffffffffffffffffffffffffffffffffffffffffffffffc\na1270100a0324b200b96201abfffffffffffffffffffffffffffc0\n90378180a0324b300b96001abfffffffffffffffffffffffffffc0\nedits\nturn 5.100\nundo\nredo\n",
        output: "ok 1\nreview 5.100 0 0 opaque 44\nreview 5.100 0 1 opaque 44\nreview 5.100 1 0 opaque 44\nreview 5.100 1 1 opaque 44\nreview 5.100 2 0 opaque 44\nreview 5.100 2 1 opaque 44\nreview 5.100 3 0 opaque 44\nreview 5.100 3 1 opaque 44\nundone 1\nredone 1\nplan 1\ngroup\n90078180a0324b300b96201abfffffffffffffffffffffffffffc0\na1168100a0324b200b96001abfffffffffffffffffffffffffffc0\n90270080a0324b000b96401abffffffffffffffffffffffffffffffffffffffffffffffffffffffffffffffffffffffffffffffffffffffffffffffffffffffffffffffffffffffffffffffffffffffffffffffffffffffffffffffffffffffffffffffffffffffc\na1360000a0324b100b96601abfffffffffffffffffffffffffffc0\n",
        status: Status::Accepted,
    },
    // Three packets put in after one another, and the first two struck.
    Row {
        flags: JOURNAL,
        input: "plan 1\ngroup\na1000000a0327fffffffffffffffffffffffffffffffffffffffc0\nedits\ninsert 5.100 0 0 42403e0a\ninsert 5.100 0 1 42403e0c\ninsert 5.100 0 2 42403e0e\nstrike 1\nstrike 2\n",
        output: "ok 1\nok 2\nok 3\nstruck 1\nstruck 2\nplan 1\ngroup\na1000000a03250900f83ffffffffffffffffffffffffffffffffc0\njournal 2 4\n1 insert b0/0 ^ 42403e0a\n2 insert b0/0 n1 42403e0c\n3 insert b0/0 n2 42403e0e\nundone 1\nundone 2\n",
        status: Status::Accepted,
    },
    // Their journal, and both done again.
    Row {
        flags: JOURNAL,
        input: "plan 1\ngroup\na1000000a0327fffffffffffffffffffffffffffffffffffffffc0\njournal 2 4\n1 insert b0/0 ^ 42403e0a\n2 insert b0/0 n1 42403e0c\n3 insert b0/0 n2 42403e0e\nundone 1\nundone 2\nedits\nredo\nredo\n",
        output: "redone 2\nredone 1\nplan 1\ngroup\na1000000a03250900f82a1201f0642403e0fffffffffffffffffc0\njournal 2 4\n1 insert b0/0 ^ 42403e0a\n2 insert b0/0 n1 42403e0c\n3 insert b0/0 n2 42403e0e\n",
        status: Status::Accepted,
    },
    // The largest next serial that a journal has.
    Row {
        flags: JOURNAL,
        input: "plan 1\ngroup\na1000000a0327fffffffffffffffffffffffffffffffffffffffc0\njournal 2 4000000000\nedits\nseth 5.100 0 M_MCOUNT 7\n",
        output: "ok 4000000000\nplan 1\ngroup\na1000380a0327fffffffffffffffffffffffffffffffffffffffc0\njournal 2 4000000001\n4000000000 seth b0/0 M_MCOUNT 7 0\n",
        status: Status::Accepted,
    },
    // Groups with serials above it.
    Row {
        flags: JOURNAL,
        input: "plan 1\ngroup\na1000000a0327fffffffffffffffffffffffffffffffffffffffc0\njournal 2 4000000000\nedits\ninsert 5.100 0 0 42403e0a\nadd 1 a1000000a032ffffffffffffffffffffffffffffffffffffffffc0\nadd 1 a1000000a0337fffffffffffffffffffffffffffffffffffffffc0\nrenumber 5.102 103\n",
        output: "ok 4000000000\nok 4000000001\nok 4000000002\nok 4000000003\nplan 1\ngroup\na1000000a03250900f82ffffffffffffffffffffffffffffffffc0\ngroup\na1000000a033ffffffffffffffffffffffffffffffffffffffffc0\ngroup\na1000000a032ffffffffffffffffffffffffffffffffffffffffc0\njournal 2 4000000004\n4000000000 insert b0/0 ^ 42403e0a\n4000000001 add b0 a1000000a032ffffffffffffffffffffffffffffffffffffffffc0\n4000000002 add b0 a1000000a0337fffffffffffffffffffffffffffffffffffffffc0\n4000000003 renumber n4000000002 103 102\n",
        status: Status::Accepted,
    },
    // The journal after it isn't read.
    Row {
        flags: PLAIN,
        input: "plan 1\ngroup\na1000000a0327fffffffffffffffffffffffffffffffffffffffc0\njournal 2 4000000001\n4000000000 seth b0/0 M_MCOUNT 7 0\nedits\n",
        output: "bad 4 27 JournalMismatch\n",
        status: Status::BadInput,
    },
    // A byte-order mark.
    Row {
        flags: PLAIN,
        input: "\u{feff}plan 1\nedits\n",
        output: "bad 1 1 BadLine\n",
        status: Status::BadInput,
    },
    // Lines that end as on Windows.
    Row {
        flags: PLAIN,
        input: "plan 1\r\ngroup\r\na1000000a0327fffffffffffffffffffffffffffffffffffffffc0\r\nedits\r\nundo\r\n",
        output: "bad 1 1 BadLine\n",
        status: Status::BadInput,
    },
    // A carriage return after a telegram alone.
    Row {
        flags: PLAIN,
        input: "plan 1\ngroup\na1000000a0327fffffffffffffffffffffffffffffffffffffffc0\r\nedits\n",
        output: "bad 3 2 BadHex\n",
        status: Status::BadInput,
    },
    // Digits in capitals.
    Row {
        flags: PLAIN,
        input: "plan 1\ngroup\nA1000000A0327FFFFFFFFFFFFFFFFFFFFFFFFFFFFFFFFFFFFFFFC0\nedits\n",
        output: "plan 1\ngroup\na1000000a0327fffffffffffffffffffffffffffffffffffffffc0\n",
        status: Status::Accepted,
    },
    // The first and the last country, named by links and renumbered.
    Row {
        flags: JOURNAL,
        input: "plan 1\ngroup\na10000000000c1503b20193ff80054c0806400074cffffffffffc0\ngroup\na100007fe001415027a01920000034c07fffffffffffffffffffc0\nedits\nrenumber 0.1 16382\nrenumber 1023.2 0\n",
        output: "ok 1\nok 2\nplan 1\ngroup\na10000001fff41503b20193ff80014c0806400074cffffffffffc0\ngroup\na100007fe000415027a0192007ffd4c07fffffffffffffffffffc0\njournal 2 3\n1 renumber b0 16382 1\n2 renumber b1 0 2\n",
        status: Status::Accepted,
    },
    // A number given away and taken again.
    Row {
        flags: PLAIN,
        input: "plan 1\ngroup\na1000000a002ffffffffffffffffffffffffffffffffffffffffc0\ngroup\na1000000a003c15022a0190002d301ffffffffffffffffffffffc0\nedits\nrenumber 5.5 6\nrenumber 5.6 5\n",
        output: "ok 1\nok 2\nplan 1\ngroup\na1000000a002ffffffffffffffffffffffffffffffffffffffffc0\ngroup\na1000000a003c15022a0190002d301ffffffffffffffffffffffc0\n",
        status: Status::Accepted,
    },
    // Spare bits after a telegram of 830 bits.
    Row {
        flags: PLAIN,
        input: "plan 1\ngroup\na1000000a0327ffffffffffffffffffffffffffffffffffffffffffffffffffffffffffffffffffffffffffffffffffffffffffffffffffffffffffffffffffffffffffffffffffffffffffffffffffffffffffffffffffffffffffffffffffffffffffffffffff1\nedits\n",
        output: "bad 3 4 SpareBits\n",
        status: Status::BadInput,
    },
];
