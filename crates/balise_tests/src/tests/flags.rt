//! One input with a refused command, under each set of flags.

use crate::tests::runs::{check_at_once, push};
use balise_cli::{Flags, Status};
use std::alloc::Global;
use std::process::Abort;

/// A group of two is turned, a strike is refused, and the turn is undone.
const INPUT: &str =
    "plan 1\ngroup\na102ff80a0324b100bffffffffffffffffffffffffffffffffffc0\na1137f80a0327fffffffffffffffffffffffffffffffffffffffc0\nedits\nturn 5.100\nstrike 9\nundo\n";

/// What may be printed, in this order.
struct Printed {
    replies: &'static str,
    plan: &'static str,
    journal: &'static str,
    view: &'static str,
}

/// After all three commands.
const WHOLE: Printed = Printed {
    replies: "ok 1\nreview 5.100 1 0 opaque 44\nrefused 25 NoSuchEdit\nundone 1\n",
    plan: "plan 1\ngroup\na102ff80a0324b100bffffffffffffffffffffffffffffffffffc0\na1137f80a0327fffffffffffffffffffffffffffffffffffffffc0\n",
    journal: "journal 2 2\n1 turn b0\nundone 1\n",
    view: "{\"country\":5,\"number\":100,\"telegrams\":[{\"bits\":210,\"m_dup\":1,\"m_mcount\":255,\"m_version\":33,\"packets\":[{\"fields\":[[\"NID_PACKET\",44],[\"Q_DIR\",1],[\"L_PACKET\",23]],\"known\":false}],\"q_link\":1,\"used\":81},{\"bits\":210,\"m_dup\":2,\"m_mcount\":255,\"m_version\":33,\"packets\":[],\"q_link\":1,\"used\":58}]}\n",
};

/// After the refused one.
const STOPPED: Printed = Printed {
    replies: "ok 1\nreview 5.100 1 0 opaque 44\nrefused 25 NoSuchEdit\n",
    plan: "plan 1\ngroup\na102ff80a0327fffffffffffffffffffffffffffffffffffffffc0\na1137f80a0324b000bffffffffffffffffffffffffffffffffffc0\n",
    journal: "journal 2 2\n1 turn b0\n",
    view: "{\"country\":5,\"number\":100,\"telegrams\":[{\"bits\":210,\"m_dup\":1,\"m_mcount\":255,\"m_version\":33,\"packets\":[],\"q_link\":1,\"used\":58},{\"bits\":210,\"m_dup\":2,\"m_mcount\":255,\"m_version\":33,\"packets\":[{\"fields\":[[\"NID_PACKET\",44],[\"Q_DIR\",0],[\"L_PACKET\",23]],\"known\":false}],\"q_link\":1,\"used\":81}]}\n",
};

/// What stays of the replies where the run is quiet.
const QUIET: &str = "review 5.100 1 0 opaque 44\nrefused 25 NoSuchEdit\n";

fn flags_of(set: u32) -> Flags {
    Flags {
        quiet: set & 1 == 1,
        stop: set & 2 == 2,
        journal: set & 4 == 4,
        json: set & 8 == 8,
    }
}

fn push_output(rt: &impl Abort, text: &mut String, flags: Flags) {
    let printed = if flags.stop { &STOPPED } else { &WHOLE };
    let replies = if flags.quiet { QUIET } else { printed.replies };
    push(rt, text, replies);
    push(rt, text, printed.plan);
    if flags.journal {
        push(rt, text, printed.journal);
    }
    if flags.json {
        push(rt, text, printed.view);
    }
}

fn check(rt: &impl Abort, alloc: Global, flags: Flags) {
    let mut output = String::new(alloc);
    push_output(rt, &mut output, flags);
    let texts = (INPUT, output.as_str());
    check_at_once(rt, alloc, flags, texts, Status::SomeRefused);
}

#[test]
fn each_set_of_flags(rt: HostRuntime) {
    for set in 0..16 {
        check(&rt, rt.alloc(), flags_of(set));
    }
}
