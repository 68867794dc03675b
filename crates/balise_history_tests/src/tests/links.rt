//! The places that a session's plan answers for an identity, against those that a walk over it finds.

use balise_history::{Group, GroupTag, Id, LinkPlace, Links, PacketTag, Plan, Telegram};
use std::process::Abort;

/// The numbers of all groups of the rows, and of all that their links name; in countries 5 and 6.
const NUMBERS: &[u32] = &[100, 101, 102, 150, 200, 300];

/// Where the walk stands: the identity that it looks for, and the places that the plan answers for it.
#[derive(Clone, Copy)]
struct Walk<'a> {
    id: Id,
    answered: Option<&'a Links>,
}

/// That the plan answers for each identity just the places that name it.
pub(crate) fn check_links(rt: &impl Abort, plan: &Plan) {
    for number in NUMBERS.iter() {
        check_identity(rt, plan, 5, *number);
        check_identity(rt, plan, 6, *number);
    }
}

fn check_identity(rt: &impl Abort, plan: &Plan, country: u32, number: u32) {
    let id = Id { country, number };
    let walk = Walk {
        id,
        answered: plan.links_to(id),
    };
    let found = found_in_plan(rt, plan, walk);
    let count = match walk.answered {
        Some(links) => links.len(),
        None => 0,
    };
    assert!(rt; count == found);
}

fn found_in_plan(rt: &impl Abort, plan: &Plan, walk: Walk<'_>) -> usize {
    let mut found: usize = 0;
    for i in 0..plan.count() {
        if let Some((g, group)) = plan.at(i) {
            found = found.saturating_add(found_in_group(rt, g, group, walk));
        }
    }
    found
}

fn found_in_group(rt: &impl Abort, g: GroupTag, group: &Group, walk: Walk<'_>) -> usize {
    let mut found: usize = 0;
    for pig in 0..group.count() {
        if let Some((t, telegram)) = group.at(pig) {
            found = found.saturating_add(found_in_telegram(rt, (g, t), telegram, walk));
        }
    }
    found
}

fn found_in_telegram(
    rt: &impl Abort,
    at: (GroupTag, u32),
    telegram: &Telegram,
    walk: Walk<'_>,
) -> usize {
    let country = telegram.identity().country;
    let mut found: usize = 0;
    for (tag, packet) in telegram.packets() {
        let links = packet.links(country).expect(rt, "memory");
        found = found.saturating_add(found_in_packet(rt, at, tag, links.as_slice(), walk));
    }
    found
}

fn found_in_packet(
    rt: &impl Abort,
    at: (GroupTag, u32),
    packet: PacketTag,
    links: &[Id],
    walk: Walk<'_>,
) -> usize {
    let (group, telegram) = at;
    let mut element: u32 = 0;
    let mut found: usize = 0;
    for id in links.iter() {
        if *id == walk.id {
            let place = LinkPlace {
                group,
                telegram,
                packet,
                element,
            };
            assert!(rt; is_answered(walk, &place));
            found = found.saturating_add(1);
        }
        element = element.saturating_add(1);
    }
    found
}

fn is_answered(walk: Walk<'_>, place: &LinkPlace) -> bool {
    match walk.answered {
        Some(links) => links.contains(place),
        None => false,
    }
}
