//! Edits: their replies, and the plan that is printed.

use crate::tests::rows::Row;
use crate::tests::runs::PLAIN;
use balise_cli::{Flags, Status};

pub(crate) const ROWS: &[Row] = &[
    Row {
        flags: PLAIN,
        input: "plan 1\ngroup\na1007f80a03250900f82ffffffffffffffffffffffffffffffffc0\nedits\nset 5.100 0 0 NID_TSR 0 9\nseth 5.100 0 M_MCOUNT 254\nundo\n",
        output: "ok 1\nok 2\nundone 2\nplan 1\ngroup\na1007f80a03250900f84ffffffffffffffffffffffffffffffffc0\n",
        status: Status::Accepted,
    },
    Row {
        flags: PLAIN,
        input: "plan 1\ngroup\na1007f80a03250900f82ffffffffffffffffffffffffffffffffc0\nedits\nset 5.100 0 0 NID_TSR 0 9\nseth 5.100 0 M_MCOUNT 254\nundo\nundo\n",
        output: "ok 1\nok 2\nundone 2\nundone 1\nplan 1\ngroup\na1007f80a03250900f82ffffffffffffffffffffffffffffffffc0\n",
        status: Status::Accepted,
    },
    Row {
        flags: PLAIN,
        input: "plan 1\ngroup\na1007f80a03250900f82ffffffffffffffffffffffffffffffffc0\nedits\nset 5.100 0 0 NID_TSR 0 9\nseth 5.100 0 M_MCOUNT 254\n",
        output: "ok 1\nok 2\nplan 1\ngroup\na1007f00a03250900f84ffffffffffffffffffffffffffffffffc0\n",
        status: Status::Accepted,
    },
    Row {
        flags: PLAIN,
        input: "plan 1\ngroup\na1007f80a0327fffffffffffffffffffffffffffffffffffffffc0\nedits\ninsert 5.100 0 0 42403e0a\n",
        output: "ok 1\nplan 1\ngroup\na1007f80a03250900f82ffffffffffffffffffffffffffffffffc0\n",
        status: Status::Accepted,
    },
    Row {
        flags: PLAIN,
        input: "plan 1\ngroup\na1007f80a0327fffffffffffffffffffffffffffffffffffffffc0\nedits\ninsert 5.100 0 0 42403e0a\nundo\n",
        output: "ok 1\nundone 1\nplan 1\ngroup\na1007f80a0327fffffffffffffffffffffffffffffffffffffffc0\n",
        status: Status::Accepted,
    },
    Row {
        flags: PLAIN,
        input: "plan 1\ngroup\na1007f80a0327fc05a5a5a5a5a5a5a5a5a5a5a5a5a5a5a5a5a5a40\nedits\ninsert 5.100 0 0 42403e0a\n",
        output: "ok 1\nplan 1\ngroup\na1007f80a03250900f82ffda5a5a5a5a5a5a5a5a5a5a5a5a5a5a40\n",
        status: Status::Accepted,
    },
    Row {
        flags: PLAIN,
        input: "plan 1\ngroup\na1007f80a0327fc05a5a5a5a5a5a5a5a5a5a5a5a5a5a5a5a5a5a40\nedits\ninsert 5.100 0 0 42403e0a\ndelete 5.100 0 0\n",
        output: "ok 1\nok 2\nplan 1\ngroup\na1007f80a0327fc05a5a5a5a5a5a5a5a5a5a5a5a5a5a5a5a5a5a40\n",
        status: Status::Accepted,
    },
    Row {
        flags: PLAIN,
        input: "plan 1\ngroup\na1007f80a0327fc05a5a5a5a5a5a5a5a5a5a5a5a5a5a5a5a5a5a40\nedits\ninsert 5.100 0 0 42403e0a\ndelete 5.100 0 0\nundo\nundo\n",
        output: "ok 1\nok 2\nundone 2\nundone 1\nplan 1\ngroup\na1007f80a0327fc05a5a5a5a5a5a5a5a5a5a5a5a5a5a5a5a5a5a40\n",
        status: Status::Accepted,
    },
    Row {
        flags: PLAIN,
        input: "plan 1\ngroup\na1007f80a03250900f82ffda5a5a5a5a5a5a5a5a5a5a5a5a5a5a40\nedits\ndelete 5.100 0 0\n",
        output: "ok 1\nplan 1\ngroup\na1007f80a0327fffffffffda5a5a5a5a5a5a5a5a5a5a5a5a5a5a40\n",
        status: Status::Accepted,
    },
    Row {
        flags: PLAIN,
        input: "plan 1\ngroup\na1007f80a0327fffffffffffffffffffffffffffffffffffffffc0\nedits\ninsert 5.100 0 0 2c813000000000000000000000000000000000\ninsert 5.100 0 1 42403e0a\nmove 5.100 0 0 0\ndelete 5.100 1 0\n",
        output: "ok 1\nrefused 20 NoRoom\nrefused 22 SamePlace\nrefused 15 NoSuchTelegram\nplan 1\ngroup\na1007f80a0324b204c000000000000000000000000000000003fc0\n",
        status: Status::SomeRefused,
    },
    Row {
        flags: PLAIN,
        input: "plan 1\ngroup\na1007f80a03341503b204b20300c88c0819000c98cffffffffffc0\nedits\nset 5.102 0 0 NID_BG 1 150\nset 5.102 0 0 NID_BG 2 5\nset 5.102 0 0 NID_C 0 7\nset 5.102 0 0 NID_BG 0 16384\n",
        output: "ok 1\nrefused 17 NoSuchVariable\nrefused 18 Steering\nrefused 19 ValueTooWide\nplan 1\ngroup\na1007f80a03341503b204b20300c88c08190012d8cffffffffffc0\n",
        status: Status::SomeRefused,
    },
    Row {
        flags: PLAIN,
        input: "plan 1\ngroup\na1007f80a0327fffffffffffffffffffffffffffffffffffffffc0\nedits\ninsert 5.100 0 0 1b40fa80002810659224107d062180f0\nset 5.100 0 0 V_DIFF 2 31\nset 5.100 0 0 Q_DIFF 0 1\ninsert 5.100 0 0 1b40fa80002816659224107d062180f0\n",
        output: "ok 1\nok 2\nrefused 18 Steering\nrefused 8 LayoutMismatch\nplan 1\ngroup\na1007f80a03246d03ea0000a04196489041f4188603fffffffffc0\n",
        status: Status::SomeRefused,
    },
    Row {
        flags: PLAIN,
        input: "plan 1\ngroup\n90007f80a0327fffffffffffffffffffffffffffffffffffffffc0\nedits\ninsert 5.100 0 0 1b40fa80002810659224107d062180f0\nset 5.100 0 0 V_DIFF 0 1\nset 5.100 0 0 Q_DIR 0 2\n",
        output: "ok 1\nrefused 17 NoSuchVariable\nok 2\nplan 1\ngroup\n90007f80a03246e03ea0000a04196489041f4188603dffffffffc0\n",
        status: Status::SomeRefused,
    },
    Row {
        flags: PLAIN,
        input: "plan 1\ngroup\na1007f80a0327fffffffffffffffffffffffffffffffffffffffc0\ngroup\na1007f80a032c15022a07d00326301ffffffffffffffffffffffc0\ngroup\na1007f80a03341503b204b20300c88c0819000c98cffffffffffc0\nedits\nrenumber 5.100 200\n",
        output: "ok 1\nplan 1\ngroup\na1007f80a0647fffffffffffffffffffffffffffffffffffffffc0\ngroup\na1007f80a032c15022a07d00646301ffffffffffffffffffffffc0\ngroup\na1007f80a03341503b204b20300c88c0819000c98cffffffffffc0\n",
        status: Status::Accepted,
    },
    Row {
        flags: PLAIN,
        input: "plan 1\ngroup\na1007f80a0327fffffffffffffffffffffffffffffffffffffffc0\ngroup\na1007f80a032c15022a07d00326301ffffffffffffffffffffffc0\ngroup\na1007f80a03341503b204b20300c88c0819000c98cffffffffffc0\nedits\nrenumber 5.100 200\nundo\n",
        output: "ok 1\nundone 1\nplan 1\ngroup\na1007f80a0327fffffffffffffffffffffffffffffffffffffffc0\ngroup\na1007f80a032c15022a07d00326301ffffffffffffffffffffffc0\ngroup\na1007f80a03341503b204b20300c88c0819000c98cffffffffffc0\n",
        status: Status::Accepted,
    },
    Row {
        flags: PLAIN,
        input: "plan 1\ngroup\na1007f80a032c15022a07d00326301ffffffffffffffffffffffc0\nedits\nrenumber 5.101 100\nrenumber 5.101 101\nrenumber 5.101 16383\nrenumber 5.101 16384\nrenumber 5.999 7\n",
        output: "refused 21 NumberTaken\nrefused 21 NumberTaken\nrefused 12 NumberReserved\nrefused 19 ValueTooWide\nrefused 14 NoSuchGroup\nplan 1\ngroup\na1007f80a032c15022a07d00326301ffffffffffffffffffffffc0\n",
        status: Status::SomeRefused,
    },
    Row {
        flags: PLAIN,
        input: "plan 1\ngroup\na104ff80a032505023a0a0320096047fffffffffffffffffffffc0\na1157f80a0324b0010697fffffffffffffffffffffffffffffffc0\na1247f80a0327fffffffffffffffffffffffffffffffffffffffc0\ngroup\na1007f80a032c15022a07d00326301ffffffffffffffffffffffc0\nedits\nturn 5.100\n",
        output: "ok 1\nreview 5.100 1 0 opaque 44\nreview 5.100 2 0 D_TSR 0 200\nreview 5.101 0 0 D_LINK 0 500\nplan 1\ngroup\na1047f80a0327fffffffffffffffffffffffffffffffffffffffc0\na114ff80a0324b1010697fffffffffffffffffffffffffffffffc0\na1257f80a032504023a0a0320096047fffffffffffffffffffffc0\ngroup\na1007f80a032c15022a07d00322301ffffffffffffffffffffffc0\n",
        status: Status::Accepted,
    },
    Row {
        flags: PLAIN,
        input: "plan 1\ngroup\na104ff80a032505023a0a0320096047fffffffffffffffffffffc0\na1157f80a0324b0010697fffffffffffffffffffffffffffffffc0\na1247f80a0327fffffffffffffffffffffffffffffffffffffffc0\ngroup\na1007f80a032c15022a07d00326301ffffffffffffffffffffffc0\nedits\nturn 5.100\ninsert 5.100 0 0 42403e0a\n",
        output: "ok 1\nreview 5.100 1 0 opaque 44\nreview 5.100 2 0 D_TSR 0 200\nreview 5.101 0 0 D_LINK 0 500\nok 2\nplan 1\ngroup\na1047f80a03250900f82ffffffffffffffffffffffffffffffffc0\na114ff80a0324b1010697fffffffffffffffffffffffffffffffc0\na1257f80a032504023a0a0320096047fffffffffffffffffffffc0\ngroup\na1007f80a032c15022a07d00322301ffffffffffffffffffffffc0\n",
        status: Status::Accepted,
    },
    Row {
        flags: PLAIN,
        input: "plan 1\ngroup\na104ff80a032505023a0a0320096047fffffffffffffffffffffc0\na1157f80a0324b0010697fffffffffffffffffffffffffffffffc0\na1247f80a0327fffffffffffffffffffffffffffffffffffffffc0\ngroup\na1007f80a032c15022a07d00326301ffffffffffffffffffffffc0\nedits\nturn 5.100\ninsert 5.100 0 0 42403e0a\nstrike 1\n",
        output: "ok 1\nreview 5.100 1 0 opaque 44\nreview 5.100 2 0 D_TSR 0 200\nreview 5.101 0 0 D_LINK 0 500\nok 2\nrefused 26 DependsOn 2\nplan 1\ngroup\na1047f80a03250900f82ffffffffffffffffffffffffffffffffc0\na114ff80a0324b1010697fffffffffffffffffffffffffffffffc0\na1257f80a032504023a0a0320096047fffffffffffffffffffffc0\ngroup\na1007f80a032c15022a07d00322301ffffffffffffffffffffffc0\n",
        status: Status::SomeRefused,
    },
    Row {
        flags: PLAIN,
        input: "plan 1\ngroup\na104ff80a032505023a0a0320096047fffffffffffffffffffffc0\na1157f80a0324b0010697fffffffffffffffffffffffffffffffc0\na1247f80a0327fffffffffffffffffffffffffffffffffffffffc0\ngroup\na1007f80a032c15022a07d00326301ffffffffffffffffffffffc0\nedits\nturn 5.100\ninsert 5.100 0 0 42403e0a\nundo\nundo\n",
        output: "ok 1\nreview 5.100 1 0 opaque 44\nreview 5.100 2 0 D_TSR 0 200\nreview 5.101 0 0 D_LINK 0 500\nok 2\nundone 2\nundone 1\nplan 1\ngroup\na104ff80a032505023a0a0320096047fffffffffffffffffffffc0\na1157f80a0324b0010697fffffffffffffffffffffffffffffffc0\na1247f80a0327fffffffffffffffffffffffffffffffffffffffc0\ngroup\na1007f80a032c15022a07d00326301ffffffffffffffffffffffc0\n",
        status: Status::Accepted,
    },
    Row {
        flags: PLAIN,
        input: "plan 1\ngroup\na1007f80a0327fffffffffffffffffffffffffffffffffffffffc0\nedits\ninsert 5.100 0 0 00\ninsert 5.100 0 0 ff\ninsert 5.100 0 0 42403e\ninsert 5.100 0 0 42403e0a00\ninsert 5.100 0 0 42403e0b\ninsert 5.100 0 0 4240400a\ninsert 5.100 0 0 4z\ninsert 5.100 0 2 42403e0a\n",
        output: "refused 9 PacketZero\nrefused 8 LayoutMismatch\nrefused 7 PacketCut\nrefused 3 BadLength\nrefused 4 SpareBits\nrefused 8 LayoutMismatch\nrefused 2 BadHex\nrefused 16 NoSuchPacket\nplan 1\ngroup\na1007f80a0327fffffffffffffffffffffffffffffffffffffffc0\n",
        status: Status::SomeRefused,
    },
    Row {
        flags: PLAIN,
        input: "plan 1\ngroup\na1007f80a0327fffffffffffffffffffffffffffffffffffffffc0\ngroup\na1007f80a033e210130064ffffffffffffffffffffffffffffffc0\nedits\nrenumber 5.100 200\nturn 5.200\nturn 5.103\nrenumber 5.103 200\nstrike 1\n",
        output: "ok 1\nok 2\nok 3\nrefused 21 NumberTaken\nrefused 26 DependsOn 2\nplan 1\ngroup\na1007f80a0647fffffffffffffffffffffffffffffffffffffffc0\ngroup\na1007f80a033e2001300c8ffffffffffffffffffffffffffffffc0\n",
        status: Status::SomeRefused,
    },
    Row {
        flags: PLAIN,
        input: "plan 1\ngroup\na1007f80a0327fffffffffffffffffffffffffffffffffffffffc0\ngroup\na1007f80a033e210130064ffffffffffffffffffffffffffffffc0\nedits\nrenumber 5.100 200\n",
        output: "ok 1\nplan 1\ngroup\na1007f80a0647fffffffffffffffffffffffffffffffffffffffc0\ngroup\na1007f80a033e2101300c8ffffffffffffffffffffffffffffffc0\n",
        status: Status::Accepted,
    },
    Row {
        flags: PLAIN,
        input: "plan 1\ngroup\na1007f80a033e210130064ffffffffffffffffffffffffffffffc0\nedits\nrenumber 5.103 100\n",
        output: "refused 21 NumberTaken\nplan 1\ngroup\na1007f80a033e210130064ffffffffffffffffffffffffffffffc0\n",
        status: Status::SomeRefused,
    },
    Row {
        flags: PLAIN,
        input: "plan 1\ngroup\na1007f80a0327fffffffffffffffffffffffffffffffffffffffc0\ngroup\na1007f80a032c15022a07d00326301ffffffffffffffffffffffc0\nedits\nset 5.101 0 0 D_LINK 0 600\nseth 5.100 0 M_MCOUNT 7\nturn 5.100\nundo\nundo\nundo\nredo\nredo\nredo\nstrike 2\nredo\n",
        output: "ok 1\nok 2\nok 3\nundone 3\nundone 2\nundone 1\nredone 1\nredone 2\nredone 3\nstruck 2\nredone 2\nplan 1\ngroup\na1000380a0327fffffffffffffffffffffffffffffffffffffffc0\ngroup\na1007f80a032c15022a09600322301ffffffffffffffffffffffc0\n",
        status: Status::Accepted,
    },
    Row {
        flags: PLAIN,
        input: "plan 1\ngroup\na1007f80a03250900f82ffffffffffffffffffffffffffffffffc0\nedits\nset 5.100 0 0 NID_TSR 0 9\nundo\nseth 5.100 0 Q_LINK 1\nredo\n",
        output: "ok 1\nundone 1\nok 2\nrefused 24 NothingToRedo\nplan 1\ngroup\na1007f80a03250900f82ffffffffffffffffffffffffffffffffc0\n",
        status: Status::SomeRefused,
    },
    Row {
        flags: PLAIN,
        input: "plan 1\ngroup\na1007f80a0327fffffffffffffffffffffffffffffffffffffffc0\ngroup\na1007f80a032c15022a07d00326301ffffffffffffffffffffffc0\nedits\ndrop 5.100\ndrop 5.101\nadd 0 a1007f80a03250900f82ffffffffffffffffffffffffffffffffc0\nundo\nundo\nundo\nundo\nredo\nredo\nredo\n",
        output: "ok 1\nok 2\nok 3\nundone 3\nundone 2\nundone 1\nrefused 23 NothingToUndo\nredone 1\nredone 2\nredone 3\nplan 1\ngroup\na1007f80a03250900f82ffffffffffffffffffffffffffffffffc0\n",
        status: Status::SomeRefused,
    },
    Row {
        flags: PLAIN,
        input: "plan 1\ngroup\na1007f80a0327fffffffffffffffffffffffffffffffffffffffc0\ngroup\na1007f80a032c15022a07d00326301ffffffffffffffffffffffc0\nedits\ndrop 5.100\ndrop 5.101\nadd 0 a1007f80a03250900f82ffffffffffffffffffffffffffffffffc0\nundo\nundo\nundo\nundo\n",
        output: "ok 1\nok 2\nok 3\nundone 3\nundone 2\nundone 1\nrefused 23 NothingToUndo\nplan 1\ngroup\na1007f80a0327fffffffffffffffffffffffffffffffffffffffc0\ngroup\na1007f80a032c15022a07d00326301ffffffffffffffffffffffc0\n",
        status: Status::SomeRefused,
    },
    Row {
        flags: PLAIN,
        input: "plan 1\ngroup\na1007f80a0327fffffffffffffffffffffffffffffffffffffffc0\nedits\nundo\nredo\nstrike 9\nfrobnicate\n",
        output: "refused 23 NothingToUndo\nrefused 24 NothingToRedo\nrefused 25 NoSuchEdit\nrefused 1 BadLine\nplan 1\ngroup\na1007f80a0327fffffffffffffffffffffffffffffffffffffffc0\n",
        status: Status::SomeRefused,
    },
    Row {
        flags: Flags {
            stop: true,
            ..PLAIN
        },
        input: "plan 1\ngroup\na1007f80a0327fffffffffffffffffffffffffffffffffffffffc0\nedits\nundo\nredo\nstrike 9\nfrobnicate\n",
        output: "refused 23 NothingToUndo\nplan 1\ngroup\na1007f80a0327fffffffffffffffffffffffffffffffffffffffc0\n",
        status: Status::SomeRefused,
    },
    Row {
        flags: PLAIN,
        input: "plan 1\ngroup\na1007f80a03250900f82ffffffffffffffffffffffffffffffffc0\nedits\nset 5.100 0 0 NID_TSR 0 9\n",
        output: "ok 1\nplan 1\ngroup\na1007f80a03250900f84ffffffffffffffffffffffffffffffffc0\n",
        status: Status::Accepted,
    },
    Row {
        flags: PLAIN,
        input: "plan 1\ngroup\na1007f80a03250900f82ffffffffffffffffffffffffffffffffc0\nedits\nset 5.100 0 0 NID_TSR 0 9\nundo\n",
        output: "ok 1\nundone 1\nplan 1\ngroup\na1007f80a03250900f82ffffffffffffffffffffffffffffffffc0\n",
        status: Status::Accepted,
    },
    Row {
        flags: PLAIN,
        input: "plan 1\ngroup\na1007f80a0327fffffffffffffffffffffffffffffffffffffffc0\nedits\nundo\nset 5.999 0 0 NID_TSR 0 9\nset 5.100 1 0 NID_TSR 0 9\nset 5.100 0 0 NID_TSR 0 9\nseth 5.100 0 N_PIG 0\nseth 5.100 0 M_DUP 4\nfrobnicate\nundo now\nseth 5.100 0 Q_LINK 0",
        output: "refused 23 NothingToUndo\nrefused 14 NoSuchGroup\nrefused 15 NoSuchTelegram\nrefused 16 NoSuchPacket\nrefused 18 Steering\nrefused 19 ValueTooWide\nrefused 1 BadLine\nrefused 1 BadLine\nok 1\nplan 1\ngroup\na1007f80a0323fffffffffffffffffffffffffffffffffffffffc0\n",
        status: Status::SomeRefused,
    },
];
