//! Journals, printed and read, and the view.

use crate::tests::rows::Row;
use crate::tests::runs::{JOURNAL, PLAIN};
use balise_cli::{Flags, Status};

pub(crate) const ROWS: &[Row] = &[
    Row {
        flags: Flags {
            json: true,
            ..JOURNAL
        },
        input: "plan 1\ngroup\na1007f80a03250900f82ffffffffffffffffffffffffffffffffc0\nedits\nset 5.100 0 0 NID_TSR 0 9\n",
        output: "ok 1\nplan 1\ngroup\na1007f80a03250900f84ffffffffffffffffffffffffffffffffc0\njournal 2 2\n1 set b0/0/b0 NID_TSR 0 9 5\n{\"country\":5,\"number\":100,\"telegrams\":[{\"bits\":210,\"m_dup\":0,\"m_mcount\":255,\"m_version\":33,\"packets\":[{\"fields\":[[\"NID_PACKET\",66],[\"Q_DIR\",1],[\"L_PACKET\",31],[\"NID_TSR\",9]],\"known\":true}],\"q_link\":1,\"used\":89}]}\n",
        status: Status::Accepted,
    },
    Row {
        flags: PLAIN,
        input: "plan 1\ngroup\na1007f80a03250900f82ffffffffffffffffffffffffffffffffc0\njournal 1 2\n1 set b0/0/b0 NID_TSR 0 9 5\nedits\nundo\n",
        output: "undone 1\nplan 1\ngroup\na1007f80a03250900f82ffffffffffffffffffffffffffffffffc0\n",
        status: Status::Accepted,
    },
    Row {
        flags: PLAIN,
        input: "plan 1\ngroup\na1007f80a03250900f82ffffffffffffffffffffffffffffffffc0\njournal 1 2\n1 set b0/0/b0 NID_TSR 0 9 4\nedits\nundo\n",
        output: "bad 5 27 JournalMismatch\n",
        status: Status::BadInput,
    },
    Row {
        flags: PLAIN,
        input: "plan 1\ngroup\na1007f80a03250900f82ffffffffffffffffffffffffffffffffc0\njournal 2 2\n1 set b0/0/b0 NID_TSR 0 9 5\nedits\nundo\n",
        output: "undone 1\nplan 1\ngroup\na1007f80a03250900f82ffffffffffffffffffffffffffffffffc0\n",
        status: Status::Accepted,
    },
    Row {
        flags: JOURNAL,
        input: "plan 1\ngroup\na1007f80a03250900f82ffffffffffffffffffffffffffffffffc0\nedits\nset 5.100 0 0 NID_TSR 0 9\nundo\n",
        output: "ok 1\nundone 1\nplan 1\ngroup\na1007f80a03250900f82ffffffffffffffffffffffffffffffffc0\njournal 2 2\n1 set b0/0/b0 NID_TSR 0 9 5\nundone 1\n",
        status: Status::Accepted,
    },
    Row {
        flags: JOURNAL,
        input: "plan 1\ngroup\na1007f80a03250900f82ffffffffffffffffffffffffffffffffc0\njournal 2 2\n1 set b0/0/b0 NID_TSR 0 9 5\nundone 1\nedits\nredo\n",
        output: "redone 1\nplan 1\ngroup\na1007f80a03250900f84ffffffffffffffffffffffffffffffffc0\njournal 2 2\n1 set b0/0/b0 NID_TSR 0 9 5\n",
        status: Status::Accepted,
    },
    Row {
        flags: JOURNAL,
        input: "plan 1\ngroup\na1007f80a0327fffffffffffffffffffffffffffffffffffffffc0\nedits\ninsert 5.100 0 0 42403e0a\ninsert 5.100 0 1 42403e0c\nstrike 1\n",
        output: "ok 1\nok 2\nstruck 1\nplan 1\ngroup\na1007f80a03250900f837fffffffffffffffffffffffffffffffc0\njournal 2 3\n1 insert b0/0 ^ 42403e0a\n2 insert b0/0 n1 42403e0c\nundone 1\n",
        status: Status::Accepted,
    },
    Row {
        flags: JOURNAL,
        input: "plan 1\ngroup\na1007f80a0327fffffffffffffffffffffffffffffffffffffffc0\njournal 2 3\n1 insert b0/0 ^ 42403e0a\n2 insert b0/0 n1 42403e0c\nundone 1\nedits\nredo\n",
        output: "redone 1\nplan 1\ngroup\na1007f80a03250900f82a1201f06ffffffffffffffffffffffffc0\njournal 2 3\n1 insert b0/0 ^ 42403e0a\n2 insert b0/0 n1 42403e0c\n",
        status: Status::Accepted,
    },
    Row {
        flags: JOURNAL,
        input: "plan 1\ngroup\na1007f80a03250900f82ffffffffffffffffffffffffffffffffc0\njournal 2 2\n1 set b0/0/b0 NID_TSR 0 9 5\nundone 7\nedits\n",
        output: "bad 6 27 JournalMismatch\n",
        status: Status::BadInput,
    },
];
