//! Whether two plans are the same: their groups, telegrams and packets in order, with their tags and bits. Takes no memory.

use balise_plan::{Group, GroupTag, PacketTag, Plan, Telegram};

fn packet_at(telegram: &Telegram, i: usize) -> Option<PacketTag> {
    match telegram.at(i) {
        Some((tag, _)) => Some(tag),
        None => None,
    }
}

/// Whether the packets of two telegrams have the same tags in the same order.
fn same_packets(telegram: &Telegram, other: &Telegram) -> bool {
    let mut same = telegram.count() == other.count();
    for i in 0..telegram.count() {
        same &= packet_at(telegram, i) == packet_at(other, i);
    }
    same
}

fn same_telegram(telegram: &Telegram, other: &Telegram) -> bool {
    (*telegram.bits() == *other.bits()) & same_packets(telegram, other)
}

fn is_telegram(group: &Group, i: usize, tag: u32, telegram: &Telegram) -> bool {
    match group.at(i) {
        Some((t, twin)) => (t == tag) & same_telegram(telegram, twin),
        None => false,
    }
}

/// Whether two groups have the same telegrams under the same tags.
pub(crate) fn same_group(group: &Group, other: &Group) -> bool {
    let mut same = group.count() == other.count();
    for i in 0..group.count() {
        match group.at(i) {
            Some((t, telegram)) => same &= is_telegram(other, i, t, telegram),
            None => same = false,
        }
    }
    same
}

fn is_group(plan: &Plan, i: usize, tag: GroupTag, group: &Group) -> bool {
    match plan.at(i) {
        Some((g, twin)) => (g == tag) & same_group(group, twin),
        None => false,
    }
}

fn same_group_at(plan: &Plan, other: &Plan, i: usize) -> bool {
    match plan.at(i) {
        Some((g, group)) => is_group(other, i, g, group),
        None => false,
    }
}

/// Whether two plans have the same groups under the same tags.
pub(crate) fn same_groups(plan: &Plan, other: &Plan) -> bool {
    let mut same = plan.count() == other.count();
    for i in 0..plan.count() {
        same &= same_group_at(plan, other, i);
    }
    same
}
