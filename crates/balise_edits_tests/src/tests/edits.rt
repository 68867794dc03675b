//! Edits, written shortly, and the digits of groups and packets that they are tried on.

use crate::tests::doing::telegrams;
use balise_edits::{Bits, Edit, Id, Packet, Tag, Var};
use std::alloc::Global;
use std::process::Abort;

/// 5.100, without packets.
pub(crate) const EMPTY: &str = "a1007f80a0327fffffffffffffffffffffffffffffffffffffffc0";

/// 5.100, with a packet 66.
pub(crate) const REVOCATION: &str = "a1007f80a03250900f82ffffffffffffffffffffffffffffffffc0";

/// 5.100, with four packets 66 of NID_TSR 1 to 4.
pub(crate) const FOUR: &str = "a1007f80a03250900f80a1201f0242403e0684807c13ffffffffc0";

/// 5.100, with packets 66 of NID_TSR 1 and 2.
pub(crate) const TWO: &str = "a1007f80a03250900f80a1201f02ffffffffffffffffffffffffc0";

/// 5.101, whose packet 5 names 5.100.
pub(crate) const LINKING: &str = "a1007f80a032c15022a07d00326301ffffffffffffffffffffffc0";

/// 5.102, whose packet 5 names 6.100 twice: a further element keeps the country.
pub(crate) const ABROAD: &str = "a1007f80a03341503b204b20300c88c0819000c98cffffffffffc0";

/// 5.200, without packets.
pub(crate) const ELSEWHERE: &str = "a1007f80a0647fffffffffffffffffffffffffffffffffffffffc0";

/// Packets 66 of NID_TSR 5 and 6.
pub(crate) const TSR_5: &str = "42403e0a";

pub(crate) const TSR_6: &str = "42403e0c";

/// A packet 5 that names 5.100.
pub(crate) const LINK: &str = "05408a81f400c98c00";

pub(crate) const FIRST: Tag = Tag::Base(0);

pub(crate) const SECOND: Tag = Tag::Base(1);

pub(crate) const THIRD: Tag = Tag::Base(2);

pub(crate) fn id(number: u32) -> Id {
    Id { country: 5, number }
}

/// An edit of the first telegram of a group, or of a group.
#[derive(Clone, Copy)]
pub(crate) enum Step {
    Set(Tag, Tag, Var, u32, u32),
    SetHead(Tag, Var, u32),
    Insert(Tag, Option<Tag>, &'static str),
    /// A packet that is read in version 1.0, put in first.
    InsertOld(Tag, &'static str),
    /// Of the first group.
    Delete(Tag),
    /// Of the first group.
    Move(Tag, Option<Tag>),
    Add(Option<Tag>, &'static str),
    Drop(Tag),
    Renumber(Tag, u32),
    Turn(Tag),
}

/// The packet of these digits in a version.
fn packet_of(rt: &impl Abort, alloc: Global, digits: &str, version: u32) -> Packet {
    packet_in(
        rt,
        &Bits::digits(alloc, digits).expect(rt, "digits"),
        version,
    )
}

fn packet_in(rt: &impl Abort, bits: &Bits, version: u32) -> Packet {
    let (packet, _) = Packet::read(bits, 0, version).expect(rt, "a packet");
    packet
}

/// The packet of these digits in a version, on the heap.
fn boxed(rt: &impl Abort, alloc: Global, digits: &str, version: u32) -> Box<Packet> {
    Box::new(alloc, packet_of(rt, alloc, digits, version)).expect(rt, "memory")
}

/// Whether a packet has these digits, with zeros to a whole byte.
pub(crate) fn has_digits(rt: &impl Abort, alloc: Global, packet: &Packet, digits: &str) -> bool {
    let mut bits = Bits::new(alloc);
    packet.write(&mut bits).expect(rt, "memory");
    bits.to_hex().expect(rt, "digits").as_str() == digits
}

/// Whether an edit is the one that a step is.
pub(crate) fn is_step(rt: &impl Abort, alloc: Global, edit: &Edit, step: Step) -> bool {
    match (edit, step) {
        (
            Edit::InsertPacket {
                g,
                t,
                after,
                packet,
            },
            Step::Insert(h, a, digits),
        ) => { *g == h && *t == 0 && *after == a && has_digits(rt, alloc, packet, digits) }
        (
            Edit::AddGroup {
                after,
                telegrams: bits,
            },
            Step::Add(a, text),
        ) => { *after == a && *bits == telegrams(rt, alloc, text) }
        _ => is_bare_step(edit, step),
    }
}

// Whether an edit that puts nothing in is the one that a step is.
fn is_bare_step(edit: &Edit, step: Step) -> bool {
    match (edit, step) {
        (
            Edit::SetVar {
                g,
                t,
                p,
                var,
                k,
                value,
            },
            Step::Set(h, q, w, l, n),
        ) => { *g == h && *t == 0 && *p == q && *var == w && *k == l && *value == n }
        (Edit::SetHead { g, t, var, value }, Step::SetHead(h, w, n)) => {
            *g == h && *t == 0 && *var == w && *value == n
        }
        (Edit::DeletePacket { g, t, p }, Step::Delete(q)) => *g == FIRST && *t == 0 && *p == q,
        (Edit::MovePacket { g, t, p, after }, Step::Move(q, a)) => {
            *g == FIRST && *t == 0 && *p == q && *after == a
        }
        (Edit::DropGroup { g }, Step::Drop(h)) => *g == h,
        (Edit::Renumber { g, number }, Step::Renumber(h, n)) => *g == h && *number == n,
        (Edit::TurnGroup { g }, Step::Turn(h)) => *g == h,
        _ => false,
    }
}

/// The edit that a step is.
pub(crate) fn edit_of(rt: &impl Abort, alloc: Global, step: Step) -> Edit {
    let t = 0;
    match step {
        Step::Set(g, p, var, k, value) => Edit::SetVar {
            g,
            t,
            p,
            var,
            k,
            value,
        },
        Step::SetHead(g, var, value) => Edit::SetHead { g, t, var, value },
        Step::Insert(g, after, digits) => Edit::InsertPacket {
            g,
            t,
            after,
            packet: boxed(rt, alloc, digits, 33),
        },
        Step::InsertOld(g, digits) => Edit::InsertPacket {
            g,
            t,
            after: None,
            packet: boxed(rt, alloc, digits, 16),
        },
        Step::Delete(p) => Edit::DeletePacket { g: FIRST, t, p },
        Step::Move(p, after) => Edit::MovePacket {
            g: FIRST,
            t,
            p,
            after,
        },
        Step::Add(after, text) => Edit::AddGroup {
            after,
            telegrams: telegrams(rt, alloc, text),
        },
        Step::Drop(g) => Edit::DropGroup { g },
        Step::Renumber(g, number) => Edit::Renumber { g, number },
        Step::Turn(g) => Edit::TurnGroup { g },
    }
}
