//! Insertions of packets that no telegram has room for.

use crate::tests::runs::{PLAIN, check_at_once, push};
use balise_cli::Status;
use std::alloc::Global;
use std::process::Abort;

/// A plan with an empty telegram of 830 bits.
const PLAN: &str =
    "plan 1\ngroup\na1007f80a0327ffffffffffffffffffffffffffffffffffffffffffffffffffffffffffffffffffffffffffffffffffffffffffffffffffffffffffffffffffffffffffffffffffffffffffffffffffffffffffffffffffffffffffffffffffffffffffffffffffc\n";

/// A packet 5 of 32 links, each with a country: 1,598 bits.
const LINKS: &str =
    "054c7c81f480c032417e07d60300cb0503ed0180668281f780c033c140fc40601a20a07e60300d30503f501806a8281fb80c035c140fe40601b20a07f60300db0503fd01806e8281ff80c037c1410040601c20a08060300e305040501807282820380c039c1410240601d20a08160300eb05040d01807682820780c03bc1410440601e20a08260300f305041501807a82820b80c03dc1410640601f20a08360300fb05041d01807e82820f80c03fc1410840602020a084603010305042501808282821380c041c14";

/// Digits with how often they are repeated, one part after another.
type Parts = &'static [(&'static str, u32)];

/// A packet 27 of 8,180 bits begins with a section of two differences. Then come sections of 20 and of 16.
const SPEEDS: Parts = &[
    ("1b7fe800000010000001f", 1),
    (
        "000001400000000000000000000000000000000000000000000000000000000000000000",
        15,
    ),
    (
        "00000100000000000000000000000000000000000000000000000000000",
        16,
    ),
    ("0", 1),
];

/// A packet 44 of 8,191 bits.
const LONGEST: Parts = &[("2c7ffe", 1), ("00", 1_021)];

fn push_parts(rt: &impl Abort, digits: &mut String, parts: Parts) {
    for (part, times) in parts.iter() {
        for _ in 0..*times {
            push(rt, digits, *part);
        }
    }
}

/// Adds the input and the output of a run that puts these digits in.
fn push_run(rt: &impl Abort, input: &mut String, output: &mut String, digits: &str) {
    push(rt, input, PLAN);
    push(rt, input, "edits\ninsert 5.100 0 0 ");
    push(rt, input, digits);
    push(rt, output, "refused 20 NoRoom\n");
    push(rt, output, PLAN);
}

/// That the packet in these digits is read, and that there is no room for it.
fn check(rt: &impl Abort, alloc: Global, digits: &str) {
    let mut input = String::new(alloc);
    let mut output = String::new(alloc);
    push_run(rt, &mut input, &mut output, digits);
    let texts = (input.as_str(), output.as_str());
    check_at_once(rt, alloc, PLAIN, texts, Status::SomeRefused);
}

#[test]
fn no_room(rt: HostRuntime) {
    let mut speeds = String::new(rt.alloc());
    push_parts(&rt, &mut speeds, SPEEDS);
    let mut longest = String::new(rt.alloc());
    push_parts(&rt, &mut longest, LONGEST);
    check(&rt, rt.alloc(), LINKS);
    check(&rt, rt.alloc(), speeds.as_str());
    check(&rt, rt.alloc(), longest.as_str());
}
