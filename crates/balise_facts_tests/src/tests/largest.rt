//! As many standing edits as there may be.

use crate::tests::sessions::session_of;
use balise_facts::{Counted, Facts, Session, put_facts};
use balise_history::{Command, Id, Var};
use std::process::Abort;

/// M_MCOUNT of 5.101 set.
fn counted() -> Command {
    Command::SetHead {
        id: Id {
            country: 5,
            number: 101,
        },
        pig: 0,
        var: Var::MMcount,
        value: 7,
    }
}

fn edit_a_million_times(rt: &impl Abort, session: &mut Session) {
    for _ in 0..1_000_000 {
        assert!(rt; session.edit(counted()).is_ok());
    }
}

fn check_ends(rt: &impl Abort, text: &[u8]) {
    let first = b"facts 1\nedit 1\nchanges b1/0/head.M_MCOUNT\ndependent 2\ndependent 3\n";
    let last = b"dependent 999999\ndependent 1000000\n";
    assert!(rt; text.len() == 16_888_926);
    assert!(rt; text.starts_with(first));
    assert!(rt; text.ends_with(last));
}

/// All that come after the first edit depend on it.
#[test]
fn a_million_edits(rt: HostRuntime) {
    let mut session = session_of(&rt, rt.alloc());
    edit_a_million_times(&rt, &mut session);
    let mut writer = Counted::new(Vec::new(rt.alloc()));
    put_facts(&mut writer, Facts::Edit(1), &session).expect(&rt, "memory");
    check_ends(&rt, writer.inner());
}
