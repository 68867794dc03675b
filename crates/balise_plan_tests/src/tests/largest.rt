//! The fullest telegrams and groups. No contract says that memory is there, so each call that takes it is made on them.

use crate::tests::digits::{FIRST, LONG};
use crate::tests::plans;
use crate::tests::plans::{
    bits_of, check_texts, id, one_of_eight, plan_of, push_alone, push_bits, push_group,
};
use crate::tests::steps::{Answer, Step, follow, put_back};
use crate::tests::walking::names;
use balise_plan::{Bits, GroupTag, PacketTag, Plan, Refusal, Spot};
use std::alloc::Global;
use std::process::Abort;

/// The digits of eight telegrams, which differ in N_PIG alone, and of one.
type Nine = (&'static str, &'static str);

/// 5.101, of whose packet 5 each of 19 elements names 5.100; one bit is left.
const ELEMENTS: &str =
    "a1007f80a032c15181a0190032532401940325300330064a6006700c94c00d001929801a40325300350064a6006b00c94c00d801929801b40325300370064a6006f00c94c00e001929801c40325300390064a6007300c94c00e801929801d403253003b0064a67fc";

const BARE: Nine = (LONG, ELEMENTS);

/// 5.100 with 20 packets 136 that name it; 12 bits are left.
const NAMING: Nine = (
    "a1007f80a032621013006488404c019221013006488404c019221013006488404c019221013006488404c019221013006488404c019221013006488404c019221013006488404c019221013006488404c019221013006488404c019221013006488404c0193ffffc",
    ELEMENTS,
);

/// Puts a group of eight such telegrams and one of one telegram of 830 bits after the others.
fn push_nine(rt: &impl Abort, alloc: Global, groups: &mut Vec<Vec<Bits>>, texts: Nine) {
    let (text, other) = texts;
    let mut telegrams = Vec::new(alloc);
    push_eight(rt, alloc, &mut telegrams, text);
    push_group(rt, groups, telegrams);
    push_alone(rt, alloc, groups, bits_of(rt, alloc, other));
}

fn push_eight(rt: &impl Abort, alloc: Global, telegrams: &mut Vec<Bits>, text: &str) {
    for pig in 0..8 {
        push_bits(rt, telegrams, one_of_eight(rt, alloc, text, pig));
    }
}

/// The groups of eight such telegrams and of one.
fn nine(rt: &impl Abort, alloc: Global, texts: Nine) -> Vec<Vec<Bits>> {
    let mut groups = Vec::new(alloc);
    push_nine(rt, alloc, &mut groups, texts);
    groups
}

/// That the plan shows these groups, and that its names agree.
fn check(rt: &impl Abort, alloc: Global, plan: &Plan, texts: Nine) {
    plans::check(rt, alloc, plan, &nine(rt, alloc, texts));
}

/// Puts 20 packets that name 5.100 into each of eight telegrams.
fn put_160(rt: &impl Abort, alloc: Global, plan: &mut Plan) {
    for n in 0..160 {
        let (last, new) = (Spot::Before(None), PacketTag::Fresh(n));
        let step = Step::Put(FIRST, n % 8, last, new, "88404c0190");
        follow(rt, alloc, plan, step, Answer::Done);
    }
}

/// Takes them out again, the first ones first.
fn take_160(rt: &impl Abort, alloc: Global, plan: &mut Plan) {
    for n in 0..160 {
        let next = if n < 152 {
            Some(PacketTag::Fresh(n + 8))
        } else {
            None
        };
        let step = Step::Take(FIRST, n % 8, PacketTag::Fresh(n));
        follow(rt, alloc, plan, step, Answer::Next(next));
    }
}

/// The first group with number 200, and the second, whose elements name it; and the first turned.
const RENUMBERED: Nine = (
    "a1007f80a06462101300c888404c03222101300c888404c03222101300c888404c03222101300c888404c03222101300c888404c03222101300c888404c03222101300c888404c03222101300c888404c03222101300c888404c03222101300c888404c0323ffffc",
    "a1007f80a032c15181a01900645324019406453003300c8a6006701914c00d003229801a406453003500c8a6006b01914c00d803229801b406453003700c8a6006f01914c00e003229801c406453003900c8a6007301914c00e803229801d406453003b00c8a67fc",
);

const TURNED: Nine = (
    "a1007f80a06462001300c888004c03222001300c888004c03222001300c888004c03222001300c888004c03222001300c888004c03222001300c888004c03222001300c888004c03222001300c888004c03222001300c888004c03222001300c888004c0323ffffc",
    "a1007f80a032c15181a01900641324019406413003300c826006701904c00d003209801a406413003500c826006b01904c00d803209801b406413003700c826006f01904c00e003209801c406413003900c826007301904c00e803209801d406413003b00c8267fc",
);

/// Renumbers and turns the group that 179 links name, and back.
fn renumber_and_turn(rt: &impl Abort, alloc: Global, plan: &mut Plan) {
    follow(rt, alloc, plan, Step::Rename(FIRST, 200), Answer::Old(100));
    check(rt, alloc, plan, RENUMBERED);
    follow(rt, alloc, plan, Step::Turn(FIRST), Answer::Done);
    check(rt, alloc, plan, TURNED);
    follow(rt, alloc, plan, Step::Turn(FIRST), Answer::Done);
    follow(rt, alloc, plan, Step::Rename(FIRST, 100), Answer::Old(200));
}

/// Makes changes of a plan in which 19 links name the first group, and unmakes them.
fn change_179_links(rt: &impl Abort, alloc: Global, plan: &mut Plan) {
    put_160(rt, alloc, plan);
    check(rt, alloc, plan, NAMING);
    assert!(rt; names(rt, alloc, plan, id(5, 100), 179));
    renumber_and_turn(rt, alloc, plan);
    put_back(rt, plan, FIRST);
    check(rt, alloc, plan, NAMING);
    take_160(rt, alloc, plan);
    check(rt, alloc, plan, BARE);
}

fn nine_plan(rt: &impl Abort, alloc: Global) -> Plan {
    Plan::read(alloc, nine(rt, alloc, BARE)).expect(rt, "a plan")
}

fn read_nine(rt: &impl Abort, alloc: Global) {
    let mut plan = nine_plan(rt, alloc);
    change_179_links(rt, alloc, &mut plan);
}

#[test]
fn renumbers_179_links_at_once(rt: HostRuntime) {
    read_nine(&rt, rt.alloc());
}

/// 5.100 with 33 packets 44 of 23 bits. There is no room for more; 13 bits are left.
const FULL: &str =
    "a1007f80a0324b100b9620172c402e58805cb100b9620172c402e58805cb100b9620172c402e58805cb100b9620172c402e58805cb100b9620172c402e58805cb100b9620172c402e58805cb100b9620172c402e58805cb100b9620172c402e58805cb100bfffffc";

/// Puts 33 packets in, each before the others.
fn put_33(rt: &impl Abort, alloc: Global, plan: &mut Plan) {
    for n in 0..33 {
        let step = Step::Put(FIRST, 0, Spot::After(None), PacketTag::Fresh(n), "2c402e");
        follow(rt, alloc, plan, step, Answer::Done);
    }
}

const FURTHER: Step = Step::Put(FIRST, 0, Spot::Before(None), PacketTag::Fresh(33), "2c402e");

const FIRST_PACKET: PacketTag = PacketTag::Fresh(32);

const SECOND_PACKET: PacketTag = PacketTag::Fresh(31);

const LAST_PACKET: PacketTag = PacketTag::Fresh(0);

/// Where the last and the first packet are moved to, and what each stood before.
const MOVES: &[(PacketTag, Spot<PacketTag>, Option<PacketTag>)] = &[
    (LAST_PACKET, Spot::After(None), None),
    (LAST_PACKET, Spot::Before(None), Some(FIRST_PACKET)),
    (
        FIRST_PACKET,
        Spot::After(Some(LAST_PACKET)),
        Some(SECOND_PACKET),
    ),
    (FIRST_PACKET, Spot::Before(Some(SECOND_PACKET)), None),
];

fn shift_ends(rt: &impl Abort, alloc: Global, plan: &mut Plan) {
    for (tag, spot, next) in MOVES.iter() {
        let step = Step::Shift(FIRST, 0, *tag, *spot);
        follow(rt, alloc, plan, step, Answer::Next(*next));
    }
}

/// Takes 33 packets out, the last one first.
fn take_33(rt: &impl Abort, alloc: Global, plan: &mut Plan) {
    for n in 0..33 {
        let step = Step::Take(FIRST, 0, PacketTag::Fresh(n));
        follow(rt, alloc, plan, step, Answer::Next(None));
    }
}

/// Puts 33 packets in and no further one, moves them and takes them out.
fn change_33_packets(rt: &impl Abort, alloc: Global, plan: &mut Plan) {
    put_33(rt, alloc, plan);
    check_texts(rt, alloc, plan, &[FULL]);
    follow(rt, alloc, plan, FURTHER, Answer::Refused(Refusal::NoRoom));
    shift_ends(rt, alloc, plan);
    check_texts(rt, alloc, plan, &[FULL]);
    take_33(rt, alloc, plan);
    check_texts(rt, alloc, plan, &[LONG]);
}

fn read_long(rt: &impl Abort, alloc: Global) {
    let mut plan = plan_of(rt, alloc, &[LONG]);
    change_33_packets(rt, alloc, &mut plan);
}

#[test]
fn puts_33_packets_into_a_telegram(rt: HostRuntime) {
    read_long(&rt, rt.alloc());
}
