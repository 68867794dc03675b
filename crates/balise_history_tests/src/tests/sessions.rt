//! Sessions over plans of known digits, whose steps and answers are followed.

ghost use Rattle.std.specs.Prelude.{◌≡◌, ℕ};
ghost use Rattle.balise_rules.specs.Accepting.{Unused};

use crate::tests::links::check_links;
use balise_history::{Bits, Command, Id, Plan, Refusal, Session, Var};
use std::alloc::Global;
use std::process::Abort;

/// 5.100, without packets.
pub(crate) const EMPTY: &str = "a1007f80a0327fffffffffffffffffffffffffffffffffffffffc0";

/// 5.100, with a packet 66 of NID_TSR 5.
pub(crate) const REVOCATION: &str = "a1007f80a03250900f82ffffffffffffffffffffffffffffffffc0";

/// 5.101, whose packet 5 names 5.100.
pub(crate) const LINKING: &str = "a1007f80a032c15022a07d00326301ffffffffffffffffffffffc0";

/// 5.102, whose packet 5 names 6.100 twice.
pub(crate) const ABROAD: &str = "a1007f80a03341503b204b20300c88c0819000c98cffffffffffc0";

/// Packets 66 with NID_TSR 5, 6, 7 and 9.
pub(crate) const TSR_5: &str = "42403e0a";

pub(crate) const TSR_6: &str = "42403e0c";

pub(crate) const TSR_7: &str = "42403e0e";

pub(crate) const TSR_9: &str = "42403e12";

/// What is asked of a session, in the first telegram of a group.
#[derive(Clone, Copy)]
pub(crate) enum Step {
    Set(u32, Var, u32, u32),
    SetHead(u32, Var, u32),
    Insert(u32, u32, &'static str),
    Delete(u32, u32),
    Move(u32, u32, u32),
    Add(u32, &'static str),
    Drop(u32),
    Renumber(u32, u32),
    Turn(u32),
    Undo,
    Redo,
    Strike(u32),
}

/// The group of country 5 with this number.
pub(crate) fn id(number: u32) -> Id {
    Id { country: 5, number }
}

/// The bits of a group's telegrams, of 210 bits each, whose digits stand apart by a space.
pub(crate) fn telegrams(rt: &impl Abort, alloc: Global, text: &str) -> Vec<Bits> {
    let mut telegrams = Vec::new(alloc);
    for word in text.split_whitespace() {
        push_bits(rt, &mut telegrams, bits_of(rt, alloc, word));
    }
    telegrams
}

/// The bits of a telegram of 210 bits.
pub(crate) fn bits_of(rt: &impl Abort, alloc: Global, digits: &str) -> Bits {
    Bits::from_hex(alloc, digits, 210).expect(rt, "digits")
}

pub(crate) fn push_bits(rt: &impl Abort, telegrams: &mut Vec<Bits>, bits: Bits) {
    telegrams.push(bits).expect(rt, "memory");
}

fn push_groups(rt: &impl Abort, alloc: Global, groups: &mut Vec<Vec<Bits>>, texts: &[&str]) {
    for text in texts.iter() {
        groups
            .push(telegrams(rt, alloc, *text))
            .expect(rt, "memory");
    }
}

/// The bits of these groups.
pub(crate) fn groups_of(rt: &impl Abort, alloc: Global, texts: &[&str]) -> Vec<Vec<Bits>> {
    let mut groups = Vec::new(alloc);
    push_groups(rt, alloc, &mut groups, texts);
    groups
}

/// The plan of groups.
pub(crate) fn plan_of(rt: &impl Abort, alloc: Global, texts: &[&str]) -> Plan
    ensures untagged { (n : ℕ) → Unused n result.groups }
    ensures changes { result.changes ≡ 0 }
{
    Plan::read(alloc, groups_of(rt, alloc, texts)).expect(rt, "a plan")
}

/// A session over groups.
pub(crate) fn session_of(rt: &impl Abort, alloc: Global, texts: &[&str]) -> Session {
    Session::new(alloc, plan_of(rt, alloc, texts))
}

/// What the plan of a session shows.
pub(crate) fn shown(rt: &impl Abort, session: &Session) -> Vec<Vec<Bits>> {
    session.plan().shown().expect(rt, "memory")
}

/// Whether the plan of a session shows these groups.
pub(crate) fn shows(rt: &impl Abort, alloc: Global, session: &Session, texts: &[&str]) -> bool {
    shown(rt, session) == groups_of(rt, alloc, texts)
}

/// The command that a step is, if it is an edit.
fn command_of(rt: &impl Abort, alloc: Global, step: Step) -> Option<Command> {
    let pig = 0;
    match step {
        Step::Set(number, var, k, value) => Some(Command::SetVar {
            id: id(number),
            pig,
            pkt: 0,
            var,
            k,
            value,
        }),
        Step::SetHead(number, var, value) => Some(Command::SetHead {
            id: id(number),
            pig,
            var,
            value,
        }),
        Step::Insert(number, at, text) => Some(Command::InsertPacket {
            id: id(number),
            pig,
            at,
            digits: Bits::digits(alloc, text).expect(rt, "digits"),
        }),
        Step::Delete(number, pkt) => Some(Command::DeletePacket {
            id: id(number),
            pig,
            pkt,
        }),
        Step::Move(number, pkt, at) => Some(Command::MovePacket {
            id: id(number),
            pig,
            pkt,
            at,
        }),
        Step::Add(at, text) => Some(Command::AddGroup {
            at,
            telegrams: telegrams(rt, alloc, text),
        }),
        Step::Drop(number) => Some(Command::DropGroup { id: id(number) }),
        Step::Renumber(from, number) => Some(Command::Renumber {
            id: id(from),
            number,
        }),
        Step::Turn(number) => Some(Command::TurnGroup { id: id(number) }),
        _ => None,
    }
}

/// Does a step and answers the serial that the session answers.
pub(crate) fn answer_to(
    rt: &impl Abort,
    alloc: Global,
    session: &mut Session,
    step: Step,
) -> Result<u32, Refusal> {
    match step {
        Step::Undo => session.undo(),
        Step::Redo => session.redo(),
        Step::Strike(serial) => match session.strike(serial) {
            Ok(struck) => Ok(struck.serial),
            Err(fault) => Err(fault),
        },
        _ => match command_of(rt, alloc, step) {
            Some(command) => session.edit(command),
            None => Err(Refusal::BadLine),
        },
    }
}

/// Does a step and looks at its answer and at the count of changes, which rises by one where the step is accepted.
pub(crate) fn ask(
    rt: &impl Abort,
    alloc: Global,
    session: &mut Session,
    asked: Step,
    answer: Result<u32, Refusal>,
) {
    let changes = session.plan().changes();
    assert!(rt; changes < 10_000_000);
    assert!(rt; answer_to(rt, alloc, session, asked) == answer);
    let more = if answer.is_ok() { changes + 1 } else { changes };
    assert!(rt; session.plan().changes() == more);
}

/// Steps with their answers, and the groups that the plan shows then.
pub(crate) type Stage = (
    &'static [(Step, Result<u32, Refusal>)],
    &'static [&'static str],
);

/// Does steps of stages, and looks at the plan after each stage.
fn follow(rt: &impl Abort, alloc: Global, session: &mut Session, stages: &[Stage]) {
    for (steps, shown) in stages.iter() {
        for (asked, answer) in steps.iter() {
            ask(rt, alloc, session, *asked, *answer);
            check_links(rt, session.plan());
        }
        assert!(rt; shows(rt, alloc, session, *shown));
    }
}

/// Does steps of stages in a session over groups, and looks at the plan after each stage.
pub(crate) fn follow_over(rt: &impl Abort, alloc: Global, texts: &[&str], stages: &[Stage]) {
    let mut session = session_of(rt, alloc, texts);
    follow(rt, alloc, &mut session, stages);
}
