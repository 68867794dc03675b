//! Changes of a plan, each with what it answers and leaves.

ghost use Rattle.std.specs.Prelude.{◌≡◌, IsTrue, Some, None};
ghost use Rattle.balise_rules.specs.Packet.{IsSpelt};
ghost use Rattle.balise_rules.specs.Plan.{telegram_at};
ghost use Rattle.balise_rules.specs.Tagged.{find};
ghost use Rattle.balise_rules.specs.Tags.{same_tag};
ghost use Rattle.balise_rules.specs.Telegram.{Telegram, version_of};

use crate::tests::plans::{check_texts, plan_of, telegrams};
use crate::tests::steps::Answer::{Done, Next, Old, Refused};
use crate::tests::walking::agrees;
use balise_plan::{Bits, Group, GroupTag, Packet, PacketTag, Plan, Refusal, Spot, Telegram, Var};
use std::alloc::Global;
use std::process::Abort;

/// A change of a plan. A packet or a group that is put in is written in digits.
#[derive(Clone, Copy)]
pub(crate) enum Step {
    Field(GroupTag, u32, PacketTag, Var, u32, u32),
    Head(GroupTag, u32, Var, u32),
    Put(GroupTag, u32, Spot<PacketTag>, PacketTag, &'static str),
    Take(GroupTag, u32, PacketTag),
    Shift(GroupTag, u32, PacketTag, Spot<PacketTag>),
    PutGroup(Spot<GroupTag>, GroupTag, &'static str),
    TakeGroup(GroupTag),
    Rename(GroupTag, u32),
    Turn(GroupTag),
}

/// What a change answers.
#[derive(Clone, Copy, PartialEq)]
pub(crate) enum Answer {
    Done,
    Old(u32),
    Next(Option<PacketTag>),
    Refused(Refusal),
}

/// A change, its answer, and the groups that the plan shows then.
pub(crate) type Row = (Step, Answer, &'static [&'static str]);

/// A refusal, and changes that are refused so.
pub(crate) type RefusedRow = (Refusal, &'static [Step]);

/// Identities that the tests speak of: country and number.
pub(crate) const KNOWN: &[(u32, u32)] = &[
    (5, 100),
    (5, 101),
    (5, 102),
    (5, 103),
    (5, 150),
    (5, 200),
    (5, 300),
    (6, 100),
    (6, 150),
    (5, 16383),
];

/// The plan of these groups, which it shows.
pub(crate) fn shown_plan_of(rt: &impl Abort, alloc: Global, texts: &[&str]) -> Plan {
    let plan = plan_of(rt, alloc, texts);
    check_texts(rt, alloc, &plan, texts);
    plan
}

/// Makes changes of a plan of these groups, one after the other, and looks at each.
pub(crate) fn follow_over(rt: &impl Abort, alloc: Global, texts: &[&str], rows: &[Row]) {
    let mut plan = shown_plan_of(rt, alloc, texts);
    follow_each(rt, alloc, &mut plan, rows);
}

pub(crate) fn follow_each(rt: &impl Abort, alloc: Global, plan: &mut Plan, rows: &[Row]) {
    for (step, answer, texts) in rows.iter() {
        follow_one(rt, alloc, plan, *step, *answer, *texts);
    }
}

/// Makes a change. After it the plan shows these groups, and its names agree.
pub(crate) fn follow_one(
    rt: &impl Abort,
    alloc: Global,
    plan: &mut Plan,
    step: Step,
    answer: Answer,
    texts: &[&str],
) {
    follow(rt, alloc, plan, step, answer);
    check_texts(rt, alloc, plan, texts);
    assert!(rt; agrees(rt, alloc, plan, KNOWN));
}

/// Makes changes of a plan of these groups that are refused, and looks at each. The plan stays.
pub(crate) fn refuse_over(rt: &impl Abort, alloc: Global, texts: &[&str], rows: &[RefusedRow]) {
    let mut plan = shown_plan_of(rt, alloc, texts);
    for (refusal, steps) in rows.iter() {
        refuse(rt, alloc, &mut plan, texts, *refusal, *steps);
    }
}

fn refuse(
    rt: &impl Abort,
    alloc: Global,
    plan: &mut Plan,
    texts: &[&str],
    refusal: Refusal,
    steps: &[Step],
) {
    for step in steps.iter() {
        follow_one(rt, alloc, plan, *step, Refused(refusal), texts);
    }
}

/// Makes a change, and looks at its answer and at the count of changes.
pub(crate) fn follow(rt: &impl Abort, alloc: Global, plan: &mut Plan, step: Step, answer: Answer) {
    let before = plan.changes();
    assert!(rt; before < 1000);
    assert!(rt; make(rt, alloc, plan, step) == answer);
    let changes = if is_refused(answer) {
        before
    } else {
        before + 1
    };
    assert!(rt; plan.changes() == changes);
}

fn is_refused(answer: Answer) -> bool {
    matches!(answer, Refused(_))
}

/// Makes a change.
pub(crate) fn make(rt: &impl Abort, alloc: Global, plan: &mut Plan, step: Step) -> Answer {
    assert!(rt; plan.changes() < 1000);
    match step {
        Step::Field(g, t, p, var, k, value) => old(plan.set_field(g, t, p, var, k, value)),
        Step::Head(g, t, var, value) => old(plan.set_head(g, t, var, value)),
        Step::Put(g, t, spot, p, text) => put(rt, alloc, plan, (g, t, spot, p), text),
        Step::Take(g, t, p) => taken(plan.take_packet(g, t, p)),
        Step::Shift(g, t, p, spot) => next(plan.shift_packet(g, t, p, spot)),
        Step::PutGroup(spot, g, text) => put_group(rt, alloc, plan, spot, g, text),
        Step::TakeGroup(g) => group_taken(plan.take_group(g)),
        Step::Rename(g, number) => old(plan.rename(g, number)),
        Step::Turn(g) => done(plan.turn(g)),
    }
}

fn old(answer: Result<u32, Refusal>) -> Answer {
    match answer {
        Ok(old) => Old(old),
        Err(fault) => Refused(fault),
    }
}

fn next(answer: Result<Option<PacketTag>, Refusal>) -> Answer {
    match answer {
        Ok(next) => Next(next),
        Err(fault) => Refused(fault),
    }
}

fn taken(answer: Result<(Packet, Option<PacketTag>), Refusal>) -> Answer {
    match answer {
        Ok((_, next)) => Next(next),
        Err(fault) => Refused(fault),
    }
}

fn group_taken(answer: Result<(Group, Option<GroupTag>), Refusal>) -> Answer {
    match answer {
        Ok((_, next)) => Next(next),
        Err(fault) => Refused(fault),
    }
}

fn done(answer: Result<(), Refusal>) -> Answer {
    match answer {
        Ok(()) => Done,
        Err(fault) => Refused(fault),
    }
}

/// Where a packet is put in: its group, its telegram and its place there, and its tag.
pub(crate) type Place = (GroupTag, u32, Spot<PacketTag>, PacketTag);

/// Puts a packet in under a tag that is new. One that is refused comes back as it was.
fn put(rt: &impl Abort, alloc: Global, plan: &mut Plan, place: Place, text: &str) -> Answer {
    let bits = Bits::digits(alloc, text).expect(rt, "digits");
    put_bits(rt, alloc, plan, place, &bits)
}

fn put_bits(rt: &impl Abort, alloc: Global, plan: &mut Plan, place: Place, bits: &Bits) -> Answer {
    let (packet, end) = Packet::read(bits, 0, 33).expect(rt, "a packet");
    match put_packet(rt, plan, place, packet) {
        Ok(()) => Done,
        Err((fault, packet)) => {
            check_back(rt, alloc, &packet, bits, end);
            Refused(fault)
        }
    }
}

pub(crate) fn put_packet(
    rt: &impl Abort,
    plan: &mut Plan,
    place: Place,
    packet: Packet,
) -> Result<(), (Refusal, Packet)> {
    let (g, t, spot, p) = place;
    assert!(rt; plan.changes() < 1000);
    assert!(rt; may_put(plan, g, t, p, &packet));
    plan.put_packet(g, t, spot, p, packet)
}

/// That a packet that came back has the bits that it was read from.
fn check_back(rt: &impl Abort, alloc: Global, packet: &Packet, bits: &Bits, end: usize) {
    assert!(rt; is_back(rt, alloc, packet, bits, end));
}

fn is_back(rt: &impl Abort, alloc: Global, packet: &Packet, bits: &Bits, end: usize) -> bool {
    let mut back = Bits::new(alloc);
    packet.write(&mut back).is_ok() & starts(rt, &back, bits, end)
}

/// Whether these are the first bits of others, up to a place.
fn starts(rt: &impl Abort, start: &Bits, bits: &Bits, end: usize) -> bool {
    (end <= bits.len()) && (*start == bits.slice(0, end).expect(rt, "memory"))
}

/// Puts a group in under a tag that is new. One that is refused comes back as it was.
fn put_group(
    rt: &impl Abort,
    alloc: Global,
    plan: &mut Plan,
    spot: Spot<GroupTag>,
    g: GroupTag,
    text: &str,
) -> Answer {
    let group = Group::read(alloc, telegrams(rt, alloc, text)).expect(rt, "a group");
    match put_new(rt, plan, spot, g, group) {
        Ok(()) => Done,
        Err((fault, back)) => {
            check_group(rt, &back, &telegrams(rt, alloc, text));
            Refused(fault)
        }
    }
}

/// Puts a group in under a tag that is new.
pub(crate) fn put_new(
    rt: &impl Abort,
    plan: &mut Plan,
    spot: Spot<GroupTag>,
    tag: GroupTag,
    group: Group,
) -> Result<(), (Refusal, Group)> {
    assert!(rt; plan.changes() < 10000);
    assert!(rt; plan.group(tag).is_none());
    plan.put_group(spot, tag, group)
}

/// Puts a group in under a tag that is new, which is accepted.
pub(crate) fn put_there(
    rt: &impl Abort,
    plan: &mut Plan,
    spot: Spot<GroupTag>,
    tag: GroupTag,
    group: Group,
) {
    assert!(rt; put_new(rt, plan, spot, tag, group).is_ok());
}

fn take_group(rt: &impl Abort, plan: &mut Plan, tag: GroupTag) -> (Group, Option<GroupTag>) {
    assert!(rt; plan.changes() < 10000);
    plan.take_group(tag).expect(rt, "a group")
}

/// Takes a group out and puts it back where it stood.
pub(crate) fn put_back(rt: &impl Abort, plan: &mut Plan, tag: GroupTag) {
    let (group, next) = take_group(rt, plan, tag);
    put_there(rt, plan, Spot::Before(next), tag, group);
}

fn check_group(rt: &impl Abort, group: &Group, wanted: &Vec<Bits>) {
    assert!(rt; group_shows(rt, group, wanted));
}

/// Whether a group, as it was read, shows these telegrams.
pub(crate) fn group_shows(rt: &impl Abort, group: &Group, wanted: &Vec<Bits>) -> bool {
    let mut same = group.count() == wanted.len();
    for (i, bits) in wanted.iter().enumerate() {
        match group.at(i) {
            Some((tag, telegram)) => same &= (tag as usize == i) & shows_bits(rt, telegram, bits),
            None => same = false,
        }
    }
    same
}

fn shows_bits(rt: &impl Abort, telegram: &Telegram, bits: &Bits) -> bool {
    telegram.shown().expect(rt, "memory") == *bits
}

/// Whether a packet may be put into a telegram, where that stands: under a tag that is new there, and well-formed in
/// the telegram's version.
fn may_put(plan: &Plan, g: GroupTag, t: u32, p: PacketTag, packet: &Packet) -> bool
    ensures new { IsTrue result → (y : Telegram) → telegram_at g t plan.now.groups ≡ Some y → find same_tag p y.packets ≡ None }
    ensures spelt { IsTrue result → (y : Telegram) → telegram_at g t plan.now.groups ≡ Some y → IsSpelt (version_of y) packet.now }
{
    match plan.telegram(g, t) {
        Some(telegram) => may_take(telegram, p, packet),
        None => true,
    }
}

/// Whether the tag is new in the telegram and the packet is well-formed in its version.
fn may_take(telegram: &Telegram, p: PacketTag, packet: &Packet) -> bool
    ensures new { IsTrue result → find same_tag p telegram.now.packets ≡ None }
    ensures spelt { IsTrue result → IsSpelt (version_of telegram.now) packet.now }
{
    packet.is_spelt(telegram.version()) && is_new(telegram, p)
}

fn is_new(telegram: &Telegram, p: PacketTag) -> bool
    ensures { IsTrue result → find same_tag p telegram.now.packets ≡ None }
{
    telegram.packet(p).is_none()
}
