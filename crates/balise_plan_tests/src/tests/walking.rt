//! Names found by going over a whole plan, and those that the plan answers.

use crate::tests::plans::id;
use balise_plan::{Group, GroupTag, Id, LinkPlace, Links, PacketTag, Plan, Telegram};
use std::alloc::Global;
use std::process::Abort;

/// Whether the plan answers for an identity what a walk over it finds: for each that it has or names, and for these,
/// each written as its country and its number.
pub(crate) fn agrees(rt: &impl Abort, alloc: Global, plan: &Plan, others: &[(u32, u32)]) -> bool {
    let found = links(rt, alloc, plan);
    answers_each(rt, alloc, plan, found.as_slice(), others)
}

fn answers_each(
    rt: &impl Abort,
    alloc: Global,
    plan: &Plan,
    found: &[(Id, LinkPlace)],
    others: &[(u32, u32)],
) -> bool {
    let mut same = true;
    let mut last = None;
    for (named, _) in found.iter() {
        if last != Some(*named) {
            same &= answers(rt, alloc, plan, found, *named);
        }
        last = Some(*named);
    }
    for i in 0..plan.count() {
        if let Some((_, group)) = plan.at(i) {
            same &= answers(rt, alloc, plan, found, group.identity());
        }
    }
    for (country, number) in others.iter() {
        same &= answers(rt, alloc, plan, found, id(*country, *number));
    }
    same
}

/// Whether the plan answers for an identity the places that were found, in order.
fn answers(rt: &impl Abort, alloc: Global, plan: &Plan, found: &[(Id, LinkPlace)], id: Id) -> bool {
    match plan.links_to(id) {
        None => count_of(found, id) == 0,
        Some(links) => is_listed(listed(rt, alloc, links).as_slice(), found, id),
    }
}

/// Whether `count` links name an identity.
pub(crate) fn names(rt: &impl Abort, alloc: Global, plan: &Plan, id: Id, count: usize) -> bool {
    match plan.links_to(id) {
        Some(links) => listed(rt, alloc, links).len() == count,
        None => false,
    }
}

/// How many of the links that were found name an identity.
fn count_of(found: &[(Id, LinkPlace)], id: Id) -> usize {
    let mut count: usize = 0;
    for (named, _) in found.iter() {
        if *named == id {
            count = count.saturating_add(1);
        }
    }
    count
}

pub(crate) fn listed(rt: &impl Abort, alloc: Global, links: &Links) -> Vec<LinkPlace> {
    let mut list = Vec::new(alloc);
    for place in links.iter() {
        list.push(place).expect(rt, "memory");
    }
    list
}

/// Whether a list has the places that were found for an identity, some and each once, in order.
fn is_listed(list: &[LinkPlace], found: &[(Id, LinkPlace)], id: Id) -> bool {
    let mut same = (list.len() > 0) & (list.len() == count_of(found, id));
    for i in 1..list.len() {
        same &= list[i - 1] < list[i];
    }
    for (named, place) in found.iter() {
        if *named == id {
            same &= list.iter().any(|other| *other == *place);
        }
    }
    same
}

/// Each link of a plan with its place.
fn links(rt: &impl Abort, alloc: Global, plan: &Plan) -> Vec<(Id, LinkPlace)> {
    let mut found = Vec::new(alloc);
    add_plan(rt, &mut found, plan);
    found
}

fn add_plan(rt: &impl Abort, found: &mut Vec<(Id, LinkPlace)>, plan: &Plan) {
    for i in 0..plan.count() {
        if let Some((g, group)) = plan.at(i) {
            add_group(rt, found, g, group);
        }
    }
}

fn add_group(rt: &impl Abort, found: &mut Vec<(Id, LinkPlace)>, g: GroupTag, group: &Group) {
    for pig in 0..group.count() {
        if let Some((t, telegram)) = group.at(pig) {
            add_telegram(rt, found, (g, t), telegram);
        }
    }
}

fn add_telegram(
    rt: &impl Abort,
    found: &mut Vec<(Id, LinkPlace)>,
    at: (GroupTag, u32),
    telegram: &Telegram,
) {
    let country = telegram.identity().country;
    for (tag, packet) in telegram.packets() {
        let links = packet.links(country).expect(rt, "memory");
        add_packet(rt, found, at, tag, links.as_slice());
    }
}

fn add_packet(
    rt: &impl Abort,
    found: &mut Vec<(Id, LinkPlace)>,
    at: (GroupTag, u32),
    packet: PacketTag,
    links: &[Id],
) {
    let (group, telegram) = at;
    let mut element: u32 = 0;
    for id in links.iter() {
        let place = LinkPlace {
            group,
            telegram,
            packet,
            element,
        };
        if id.number != 16383 {
            found.push((*id, place)).expect(rt, "memory");
        }
        element = element.saturating_add(1);
    }
}
