//! Plans: read and printed, or refused on a line.

use crate::tests::rows::Row;
use crate::tests::runs::PLAIN;
use balise_cli::Status;

pub(crate) const ROWS: &[Row] = &[
    Row {
        flags: PLAIN,
        input: "plan 1\ngroup\na1007f80a0327fffffffffffffffffffffffffffffffffffffffc0\nedits\n",
        output: "plan 1\ngroup\na1007f80a0327fffffffffffffffffffffffffffffffffffffffc0\n",
        status: Status::Accepted,
    },
    Row {
        flags: PLAIN,
        input: "plan 1\ngroup\na1007f80a0327ffffffffffffffffffffffffffffffffffffffffffffffffffffffffffffffffffffffffffffffffffffffffffffffffffffffffffffffffffffffffffffffffffffffffffffffffffffffffffffffffffffffffffffffffffffffffffffffffffc\nedits\n",
        output: "plan 1\ngroup\na1007f80a0327ffffffffffffffffffffffffffffffffffffffffffffffffffffffffffffffffffffffffffffffffffffffffffffffffffffffffffffffffffffffffffffffffffffffffffffffffffffffffffffffffffffffffffffffffffffffffffffffffffc\n",
        status: Status::Accepted,
    },
    Row {
        flags: PLAIN,
        input: "plan 1\nedits\n",
        output: "plan 1\n",
        status: Status::Accepted,
    },
    Row {
        flags: PLAIN,
        input: "plan 1\ngroup\na1007f80a0327fffffffffffffffffffffffffffffffffffffffc1\nedits\n",
        output: "bad 3 4 SpareBits\n",
        status: Status::BadInput,
    },
    Row {
        flags: PLAIN,
        input: "plan 1\ngroup\na1007f80a0327fffffffffffffffffffffffffffffffffffffff\nedits\n",
        output: "bad 3 3 BadLength\n",
        status: Status::BadInput,
    },
    Row {
        flags: PLAIN,
        input: "",
        output: "bad 1 1 BadLine\n",
        status: Status::BadInput,
    },
    Row {
        flags: PLAIN,
        input: "plan 1\ngroup\na1807f80a0327fffffffffffffffffffffffffffffffffffffffc0\nedits\n",
        output: "bad 3 5 NotABalise\n",
        status: Status::BadInput,
    },
    Row {
        flags: PLAIN,
        input: "plan 1\ngroup\na1007f80a0324b2050000000000000000000000000000000000000\nedits\n",
        output: "bad 3 6 NoEnd\n",
        status: Status::BadInput,
    },
    Row {
        flags: PLAIN,
        input: "plan 1\ngroup\na1007f80a0324b200b3fffffffffffffffffffffffffffffffffc0\nedits\n",
        output: "bad 3 7 PacketCut\n",
        status: Status::BadInput,
    },
    Row {
        flags: PLAIN,
        input: "plan 1\ngroup\na1007f80a032403fffffffffffffffffffffffffffffffffffffc0\nedits\n",
        output: "bad 3 9 PacketZero\n",
        status: Status::BadInput,
    },
    Row {
        flags: PLAIN,
        input: "plan 1\ngroup\na1007f80a0327fffffffffffffffffffffffffffffffffffffffc0\ngroup\na1007f80a0327fffffffffffffffffffffffffffffffffffffffc0\nedits\n",
        output: "bad 4 13 GroupTwice\n",
        status: Status::BadInput,
    },
    Row {
        flags: PLAIN,
        input: "plan 1\ngroup\nedits\n",
        output: "bad 2 10 GroupSize\n",
        status: Status::BadInput,
    },
    Row {
        flags: PLAIN,
        input: "plan 1\ngroup\na1157f80a0324b0010697fffffffffffffffffffffffffffffffc0\na104ff80a032505023a0a0320096047fffffffffffffffffffffc0\na1247f80a0327fffffffffffffffffffffffffffffffffffffffc0\nedits\n",
        output: "bad 2 11 HeaderDisagrees\n",
        status: Status::BadInput,
    },
    Row {
        flags: PLAIN,
        input: "plan 1\ngroup\na1157f80a0324b0010697fffffffffffffffffffffffffffffffc0\na104ff80a032505023a0a0320096047fffffffffffffffffffffc0\na1247f80a0327fffffffffffffffffffffffffffffffffffffffc0\ngroup\na1007f80a032c15022a07d00326301ffffffffffffffffffffffc0\nedits\n",
        output: "bad 2 11 HeaderDisagrees\n",
        status: Status::BadInput,
    },
    Row {
        flags: PLAIN,
        input: "plan 1\ngroup\na1007f80a0327fffffffffffffffffffffffffffffffffffffffc0\nedits\nadd 1 a1007f80a0327fffffffffffffffffffffffffffffffffffffffc0\nadd 3 a1007f80a032c15022a07d00326301ffffffffffffffffffffffc0\ndrop 5.999\n",
        output: "refused 13 GroupTwice\nrefused 14 NoSuchGroup\nrefused 14 NoSuchGroup\nplan 1\ngroup\na1007f80a0327fffffffffffffffffffffffffffffffffffffffc0\n",
        status: Status::SomeRefused,
    },
    Row {
        flags: PLAIN,
        input: "plan 1\ngroup\na1007f80a032455027200020a10258ffffffffffffffffffffffc0\nedits\nset 5.100 0 0 G_A 1 7\nset 5.100 0 0 N_ITER 0 2\nset 5.100 0 0 D_GRADIENT 2 1\n",
        output: "ok 1\nrefused 18 Steering\nrefused 17 NoSuchVariable\nplan 1\ngroup\na1007f80a032455027200020a1025807ffffffffffffffffffffc0\n",
        status: Status::SomeRefused,
    },
    Row {
        flags: PLAIN,
        input: "plan 1\ngroup\na1007f80a0324a502ca0190848032080029fffffffffffffffffc0\nedits\nset 5.100 0 0 NID_NTC 0 22\nset 5.100 0 0 M_LEVELTR 0 2\nset 5.100 0 0 NID_NTC 1 3\n",
        output: "ok 1\nrefused 18 Steering\nrefused 17 NoSuchVariable\nplan 1\ngroup\na1007f80a0324a502ca01908b0032080029fffffffffffffffffc0\n",
        status: Status::SomeRefused,
    },
    Row {
        flags: PLAIN,
        input: "plan 1\ngroup\na1007f80a03246d03ea0000a04196489041f4188603fffffffffc0\nedits\nset 5.100 0 0 Q_DIFF 0 1\nset 5.100 0 0 V_DIFF 3 1\n",
        output: "refused 18 Steering\nrefused 17 NoSuchVariable\nplan 1\ngroup\na1007f80a03246d03ea0000a04196489041f4188603fffffffffc0\n",
        status: Status::SomeRefused,
    },
    Row {
        flags: PLAIN,
        input: "plan 1\ngroup\na1007f80a03250901002bfffffffffffffffffffffffffffffffc0\nedits\n",
        output: "bad 3 8 LayoutMismatch\n",
        status: Status::BadInput,
    },
    Row {
        flags: PLAIN,
        input: "plan 1\ngroup\na1007f80a0324b1fffffffffffffffffffffffffffffffffffffc0\nedits\n",
        output: "bad 3 7 PacketCut\n",
        status: Status::BadInput,
    },
    Row {
        flags: PLAIN,
        input: "plan 1\ngroup\na1007f80a033e2101380647fffffffffffffffffffffffffffffc0\nedits\n",
        output: "bad 3 8 LayoutMismatch\n",
        status: Status::BadInput,
    },
];
