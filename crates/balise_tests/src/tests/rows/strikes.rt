//! Strikes, and what is done again.

use crate::tests::rows::Row;
use crate::tests::runs::{PLAIN, QUIET};
use balise_cli::Status;

pub(crate) const ROWS: &[Row] = &[
    Row {
        flags: PLAIN,
        input: "plan 1\ngroup\na1007f80a03250900f80a1201f0242403e0684807c13ffffffffc0\nedits\nmove 5.100 0 2 0\ndelete 5.100 0 2\nstrike 1\n",
        output: "ok 1\nok 2\nrefused 26 DependsOn 2\nplan 1\ngroup\na1007f80a03250900f81a1201f0142403e09ffffffffffffffffc0\n",
        status: Status::SomeRefused,
    },
    Row {
        flags: PLAIN,
        input: "plan 1\ngroup\na1007f80a03250900f80a1201f0242403e0684807c13ffffffffc0\nedits\nmove 5.100 0 2 0\ndelete 5.100 0 1\nstrike 1\n",
        output: "ok 1\nok 2\nstruck 1\nplan 1\ngroup\na1007f80a03250900f8121201f0342403e09ffffffffffffffffc0\n",
        status: Status::Accepted,
    },
    Row {
        flags: PLAIN,
        input: "plan 1\ngroup\na1007f80a03250900f80a1201f0242403e0684807c13ffffffffc0\nedits\nmove 5.100 0 2 0\ndelete 5.100 0 1\nstrike 1\nredo\n",
        output: "ok 1\nok 2\nstruck 1\nredone 1\nplan 1\ngroup\na1007f80a03250900f81a1201f0242403e09ffffffffffffffffc0\n",
        status: Status::Accepted,
    },
    Row {
        flags: PLAIN,
        input: "plan 1\ngroup\na1007f80a03250900f80a1201f0242403e0684807c13ffffffffc0\nedits\nmove 5.100 0 2 0\ndelete 5.100 0 1\nstrike 1\nredo\nstrike 1\n",
        output: "ok 1\nok 2\nstruck 1\nredone 1\nstruck 1\nplan 1\ngroup\na1007f80a03250900f8121201f0342403e09ffffffffffffffffc0\n",
        status: Status::Accepted,
    },
    Row {
        flags: PLAIN,
        input: "plan 1\ngroup\na1007f80a03250900f80a1201f0242403e0684807c13ffffffffc0\nedits\nmove 5.100 0 2 0\ninsert 5.100 0 3 2c402e\nstrike 1\n",
        output: "ok 1\nok 2\nstruck 1\nplan 1\ngroup\na1007f80a03250900f80a1201f022c402e84807c0d0900f827ffc0\n",
        status: Status::Accepted,
    },
    Row {
        flags: PLAIN,
        input: "plan 1\ngroup\na1007f80a032505023a0a0320096047fffffffffffffffffffffc0\nedits\ndelete 5.100 0 0\ninsert 5.100 0 0 42403e0a\nstrike 1\n",
        output: "ok 1\nok 2\nrefused 26 DependsOn 2\nplan 1\ngroup\na1007f80a03250900f82ffffffffffffffffffffffffffffffffc0\n",
        status: Status::SomeRefused,
    },
    Row {
        flags: PLAIN,
        input: "plan 1\ngroup\na1007f80a0327fffffffffffffffffffffffffffffffffffffffc0\ngroup\na1007f80a032c15022a07d00326301ffffffffffffffffffffffc0\nedits\nset 5.101 0 0 D_LINK 0 600\nrenumber 5.101 300\ninsert 5.300 0 0 42403e0a\nstrike 1\n",
        output: "ok 1\nok 2\nok 3\nstruck 1\nplan 1\ngroup\na1007f80a0327fffffffffffffffffffffffffffffffffffffffc0\ngroup\na1007f80a09650900f8282a04540fa0064c603ffffffffffffffc0\n",
        status: Status::Accepted,
    },
    Row {
        flags: PLAIN,
        input: "plan 1\ngroup\na1007f80a0327fffffffffffffffffffffffffffffffffffffffc0\nedits\ninsert 5.100 0 0 42403e0a\ninsert 5.100 0 1 42403e0c\nstrike 1\n",
        output: "ok 1\nok 2\nstruck 1\nplan 1\ngroup\na1007f80a03250900f837fffffffffffffffffffffffffffffffc0\n",
        status: Status::Accepted,
    },
    Row {
        flags: PLAIN,
        input: "plan 1\ngroup\na1007f80a0327fffffffffffffffffffffffffffffffffffffffc0\nedits\ninsert 5.100 0 0 42403e0a\ninsert 5.100 0 1 42403e0c\nstrike 1\nredo\n",
        output: "ok 1\nok 2\nstruck 1\nredone 1\nplan 1\ngroup\na1007f80a03250900f82a1201f06ffffffffffffffffffffffffc0\n",
        status: Status::Accepted,
    },
    Row {
        flags: QUIET,
        input: "plan 1\ngroup\na1007f80a0327fffffffffffffffffffffffffffffffffffffffc0\nedits\ninsert 5.100 0 0 42403e0a\ninsert 5.100 0 1 42403e0c\nstrike 1\n",
        output: "plan 1\ngroup\na1007f80a03250900f837fffffffffffffffffffffffffffffffc0\n",
        status: Status::Accepted,
    },
    Row {
        flags: PLAIN,
        input: "plan 1\ngroup\na1007f80a0327fffffffffffffffffffffffffffffffffffffffc0\nedits\nadd 1 a1007f80a032c15022a07d00326301ffffffffffffffffffffffc0\nadd 2 a1007f80a03341503b204b20300c88c0819000c98cffffffffffc0\nstrike 1\n",
        output: "ok 1\nok 2\nstruck 1\nplan 1\ngroup\na1007f80a0327fffffffffffffffffffffffffffffffffffffffc0\ngroup\na1007f80a03341503b204b20300c88c0819000c98cffffffffffc0\n",
        status: Status::Accepted,
    },
    Row {
        flags: PLAIN,
        input: "plan 1\ngroup\na1007f80a0327fffffffffffffffffffffffffffffffffffffffc0\nedits\nadd 1 a1007f80a032c15022a07d00326301ffffffffffffffffffffffc0\nadd 2 a1007f80a03341503b204b20300c88c0819000c98cffffffffffc0\nstrike 1\nredo\n",
        output: "ok 1\nok 2\nstruck 1\nredone 1\nplan 1\ngroup\na1007f80a0327fffffffffffffffffffffffffffffffffffffffc0\ngroup\na1007f80a032c15022a07d00326301ffffffffffffffffffffffc0\ngroup\na1007f80a03341503b204b20300c88c0819000c98cffffffffffc0\n",
        status: Status::Accepted,
    },
    Row {
        flags: PLAIN,
        input: "plan 1\ngroup\na1007f80a03250900f82ffffffffffffffffffffffffffffffffc0\nedits\ninsert 5.100 0 1 42403e0c\ninsert 5.100 0 2 42403e0e\ninsert 5.100 0 0 42403e12\nmove 5.100 0 3 1\nstrike 3\n",
        output: "ok 1\nok 2\nok 3\nok 4\nstruck 3\nplan 1\ngroup\na1007f80a03250900f83a1201f0542403e0dffffffffffffffffc0\n",
        status: Status::Accepted,
    },
    Row {
        flags: PLAIN,
        input: "plan 1\ngroup\na1007f80a03250900f82ffffffffffffffffffffffffffffffffc0\nedits\ninsert 5.100 0 1 42403e0c\ninsert 5.100 0 2 42403e0e\ninsert 5.100 0 0 42403e12\nmove 5.100 0 3 1\nstrike 3\nredo\n",
        output: "ok 1\nok 2\nok 3\nok 4\nstruck 3\nredone 3\nplan 1\ngroup\na1007f80a03250900f84a1201f0742403e0a84807c1bffffffffc0\n",
        status: Status::Accepted,
    },
];
