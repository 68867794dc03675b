//! The facts that are printed of a session, after docs/FORMATS.md.

use crate::tests::sessions::{ask, session_of};
use balise_facts::{Counted, Facts, Session, put_facts};
use std::alloc::Global;
use std::process::Abort;

/// A writer that keeps what is written.
type Text = Counted<Vec<u8>>;

fn check(rt: &impl Abort, alloc: Global, session: &Session, facts: Facts, text: &str) {
    let mut writer: Text = Counted::new(Vec::new(alloc));
    put_facts(&mut writer, facts, session).expect(rt, "memory");
    assert!(rt; writer.inner().as_slice() == text.as_bytes());
}

/// Each kind of edit, in each kind of place.
const COMMANDS: &[&str] = &[
    "set 5.100 0 0 D_TSR 0 300",
    "seth 5.100 1 M_DUP 1",
    "seth 5.100 2 M_MCOUNT 7",
    "insert 5.100 2 0 42403e0a",
    "insert 5.100 2 1 42403e0c",
    "move 5.100 2 0 1",
    "set 5.100 2 0 Q_DIR 0 0",
    "delete 5.100 2 1",
    "set 5.101 0 0 NID_BG 0 102",
    "set 5.101 0 0 Q_LINKORIENTATION 0 1",
    "add 2 a1007f80a03341503b204b20300c88c0819000c98cffffffffffc0",
    "add 0 a1007f80a033c15049a04b0096630406400966300fa012cc67ffc0",
    "drop 5.101",
    "renumber 5.100 200",
    "turn 5.200",
    "drop 5.102",
];

fn edited(rt: &impl Abort, alloc: Global) -> Session {
    let mut session = session_of(rt, alloc);
    for line in COMMANDS.iter() {
        ask(rt, alloc, &mut session, *line);
    }
    session
}

const EDITS: &str = "\
facts 1
edit 1
changes b0/0/b0.D_TSR.0
edit 2
changes b0/1/head.M_DUP
needs b0.turn
dependent 15
edit 3
changes b0/2/head.M_MCOUNT
edit 4
changes b0/2/n4
changes b0/2/^.after
needs b0.turn
dependent 6
dependent 8
dependent 15
edit 5
changes b0/2/n5
changes b0/2/n4.after
needs b0.turn
dependent 6
dependent 7
dependent 8
dependent 15
edit 6
changes b0/2/n4.front
changes b0/2/n4.after
changes b0/2/n5.front
changes b0/2/n5.after
dependent 8
edit 7
changes b0/2/n5.Q_DIR.0
needs b0.turn
dependent 15
edit 8
changes b0/2/n4
changes b0/2/$.front
needs b0.turn
dependent 15
edit 9
changes b1/0/b0.NID_BG.0
needs #5.100
needs #5.102
dependent 10
dependent 11
dependent 13
dependent 14
dependent 16
edit 10
changes b1/0/b0.Q_LINKORIENTATION.0
needs b1/0/b0.NID_BG.0
needs #5.102
dependent 11
dependent 13
dependent 16
edit 11
changes n11
changes b1.after
changes #5.102
needs #6.100
needs #6.100
dependent 13
dependent 16
edit 12
changes n12
changes ^.after
changes #5.103
needs #5.300
needs #5.300
needs #5.300
edit 13
changes b1
changes n11.front
changes #5.101
needs #5.102
dependent 16
edit 14
changes b0.name
changes #5.100
changes #5.200
dependent 15
edit 15
changes b0.turn
changes #5.200
edit 16
changes n11
changes $.front
changes #5.102
needs #6.100
needs #6.100
";

#[test]
fn each_standing_edit(rt: HostRuntime) {
    let session = edited(&rt, rt.alloc());
    check(&rt, rt.alloc(), &session, Facts::Edits, EDITS);
}

const TAGS: &str = "\
facts 1
group 5.103 n12
telegram 5.103 0 0
packet 5.103 0 0 b0
group 5.200 b0
telegram 5.200 0 2
packet 5.200 0 0 n5
telegram 5.200 1 1
packet 5.200 1 0 b0
telegram 5.200 2 0
packet 5.200 2 0 b0
";

#[test]
fn each_tag(rt: HostRuntime) {
    let session = edited(&rt, rt.alloc());
    check(&rt, rt.alloc(), &session, Facts::Tags, TAGS);
}

/// The fifth edit alone has the lines that it has among all.
fn check_single(rt: &impl Abort, alloc: Global, session: &Session) {
    let fifth = EDITS.split("edit ").nth(5).expect(rt, "five edits");
    let text = format!(in alloc; "facts 1\nedit {fifth}").expect(rt, "memory");
    check(rt, alloc, session, Facts::Edit(5), text.as_str());
    check(rt, alloc, session, Facts::Edit(0), "facts 1\n");
    check(rt, alloc, session, Facts::Edit(17), "facts 1\n");
}

#[test]
fn one_edit_or_none(rt: HostRuntime) {
    let session = edited(&rt, rt.alloc());
    check_single(&rt, rt.alloc(), &session);
}

const LEFT: &str = "\
facts 1
edit 2
changes b0/1/head.M_DUP
needs b0.turn
";

fn check_left(rt: &impl Abort, alloc: Global, session: &mut Session) {
    check(rt, alloc, session, Facts::Edits, "facts 1\n");
    ask(rt, alloc, session, "seth 5.100 1 M_MCOUNT 1");
    ask(rt, alloc, session, "seth 5.100 1 M_DUP 1");
    ask(rt, alloc, session, "turn 5.100");
    ask(rt, alloc, session, "undo");
    ask(rt, alloc, session, "strike 1");
    check(rt, alloc, session, Facts::Edits, LEFT);
    check(rt, alloc, session, Facts::Edit(1), "facts 1\n");
    check(rt, alloc, session, Facts::Edit(3), "facts 1\n");
}

#[test]
fn what_was_taken_back_is_left_out(rt: HostRuntime) {
    let mut session = session_of(&rt, rt.alloc());
    check_left(&rt, rt.alloc(), &mut session);
}
