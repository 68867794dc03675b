//! Sessions over plans of known digits, whose facts are printed.

ghost use Rattle.std.specs.Prelude.{◌≡◌, ℕ};
ghost use Rattle.balise_rules.specs.Accepting.{Unused};

use balise_facts::Session;
use balise_history::{Bits, Plan};
use balise_text::{Request, read_request};
use std::alloc::Global;
use std::process::Abort;

/// 5.100 of three telegrams, with a packet 65, with a packet 44 and with none.
const THREE: &[&str] = &[
    "a104ff80a032505023a0a0320096047fffffffffffffffffffffc0",
    "a1157f80a0324b0010697fffffffffffffffffffffffffffffffc0",
    "a1247f80a0327fffffffffffffffffffffffffffffffffffffffc0",
];

/// 5.101, whose packet 5 names 5.100.
const LINKING: &[&str] = &["a1007f80a032c15022a07d00326301ffffffffffffffffffffffc0"];

/// The bits of a group's telegrams.
fn group_of(rt: &impl Abort, alloc: Global, texts: &[&str]) -> Vec<Bits> {
    let mut telegrams = Vec::new(alloc);
    for text in texts.iter() {
        let bits = Bits::from_hex(alloc, *text, 210).expect(rt, "digits");
        telegrams.push(bits).expect(rt, "memory");
    }
    telegrams
}

/// The bits of both groups.
fn groups_of(rt: &impl Abort, alloc: Global) -> Vec<Vec<Bits>> {
    let mut groups = Vec::new(alloc);
    groups.push(group_of(rt, alloc, THREE)).expect(rt, "memory");
    groups
        .push(group_of(rt, alloc, LINKING))
        .expect(rt, "memory");
    groups
}

/// The plan of both.
fn plan_of(rt: &impl Abort, alloc: Global) -> Plan
    ensures untagged { (n : ℕ) → Unused n result.groups }
    ensures changes { result.changes ≡ 0 }
{
    Plan::read(alloc, groups_of(rt, alloc)).expect(rt, "a plan")
}

/// A session over both.
pub(crate) fn session_of(rt: &impl Abort, alloc: Global) -> Session {
    Session::new(alloc, plan_of(rt, alloc))
}

/// Does a command, which is accepted.
pub(crate) fn ask(rt: &impl Abort, alloc: Global, session: &mut Session, line: &str) {
    let request = read_request(alloc, line.as_bytes()).expect(rt, "a command");
    let done = match request {
        Request::Edit(command) => session.edit(command).is_ok(),
        Request::Undo => session.undo().is_ok(),
        Request::Redo => session.redo().is_ok(),
        Request::Strike(serial) => session.strike(serial).is_ok(),
    };
    assert!(rt; done);
}
