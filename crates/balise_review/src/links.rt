//! The links to a group.

ghost use Rattle.std.specs.Prelude.{◌≡◌, ◌++◌, ◌<◌, ◌^◌, All, cond, flat_map, IfOk, IsOkUnless, length, OnOk, reverse, slice_get, Some, true};
ghost use Rattle.std.specs.List.Sorted.{IsStrictlySortedBy};
ghost use Rattle.std.specs.Ordering.{nat_cmp};
ghost use Rattle.balise_rules.specs.Forms.{Numbered};
ghost use Rattle.balise_rules.specs.Names.{is_real};
ghost use Rattle.balise_rules.specs.Plan.{country_of, identity_of, IsSound, IsSoundGroup};
ghost use Rattle.balise_rules.specs.Review.{distance_of, lines_at};
ghost use Rattle.balise_review.specs.Reviews.{group_links, links_of, named_from, named_in, packet_links, telegram_links, HasLinking, HasPlaces};

use balise_plan::{Group, Links, PacketRef, Plan, Telegram};
use balise_rules::{Id, Refusal, ReviewLine, Reviewed, Tag, Var};
use std::collections::BTreeSet;

/// Lists the links to an identity, of the plan as it will be once a group is turned. Only the groups that have such a
/// link are gone over, in the order of the plan.
pub(crate) fn add_links(
    found: &mut Vec<ReviewLine>,
    plan: &Plan,
    g: Tag,
    id: Id,
) -> Result<(), Refusal>
    requires sound { IsSound plan.now.groups }
    requires real { is_real id ≡ true }
    ensures ok { OnOk result (found.new.items ≡ found.old.items ++ flat_map (group_links g id) plan.now.groups) }
    ensures fault { IsOkUnless result Refusal.OutOfMemory }
{
    let places = places_of(plan, id)?;
    add_groups(found, plan, g, id, &places)?;
    Ok(())
}

// The places of the groups that have a link to an identity.
fn places_of(plan: &Plan, id: Id) -> Result<BTreeSet<usize>, Refusal>
    ensures all { IfOk result (λ places. HasLinking id plan.now.groups places) }
    ensures fault { IsOkUnless result Refusal.OutOfMemory }
{
    let mut places = BTreeSet::new(plan.allocator());
    let Some(links) = plan.links_to(id) else {
        return Ok(places);
    };
    add_places(&mut places, plan, links)?;
    Ok(places)
}

// Adds the places of the groups of these links.
fn add_places(places: &mut BTreeSet<usize>, plan: &Plan, links: &Links) -> Result<(), Refusal>
    ensures all { OnOk result (HasPlaces links.now.keys plan.now.groups places.new) }
    ensures fault { IsOkUnless result Refusal.OutOfMemory }
{
    for link in links.iter() {
        let Some(place) = plan.place_of(link.group) else {
            continue;
        };
        if places.insert(place).is_err() {
            return Err(Refusal::OutOfMemory);
        }
    }
    Ok(())
}

// Lists those of the groups at these places, one group after another.
fn add_groups(
    found: &mut Vec<ReviewLine>,
    plan: &Plan,
    g: Tag,
    id: Id,
    places: &BTreeSet<usize>,
) -> Result<(), Refusal>
    requires { IsSound plan.now.groups }
    ensures ok { OnOk result (found.new.items ≡ found.old.items ++ flat_map (links_of g id plan.now.groups) places.now.keys) }
    ensures order { IsStrictlySortedBy nat_cmp places.now.keys }
    ensures fault { IsOkUnless result Refusal.OutOfMemory }
{
    for place in places.iter() {
        let Some((tag, group)) = plan.at(*place) else {
            continue;
        };
        add_group(found, id, group, g == tag)?;
    }
    Ok(())
}

// Those of a group, its telegrams from the last to the first where it is the one to be turned.
fn add_group(
    found: &mut Vec<ReviewLine>,
    id: Id,
    group: &Group,
    turned: bool,
) -> Result<(), Refusal>
    requires { IsSoundGroup group.now }
    ensures ok { OnOk result (found.new.items ≡ found.old.items ++ telegram_links id (identity_of group.now) 0 (cond turned (reverse group.now) group.now)) }
    ensures fault { IsOkUnless result Refusal.OutOfMemory }
{
    let count = group.count();
    let own = group.identity();
    for pig in 0..count {
        let at = if turned { count - 1 - pig } else { pig };
        let Some((_, telegram)) = group.at(at) else {
            return Ok(());
        };
        let Ok(place) = u32::try_from(pig) else {
            return Err(Refusal::OutOfMemory);
        };
        add_telegram(found, id, own, place, telegram)?;
    }
    Ok(())
}

// Those of a telegram of a group of its own identity.
fn add_telegram(
    found: &mut Vec<ReviewLine>,
    id: Id,
    own: Id,
    pig: u32,
    telegram: &Telegram,
) -> Result<(), Refusal>
    requires numbered { All (λ p. Numbered p.1.fields) telegram.now.packets }
    ensures ok { OnOk result (found.new.items ≡ found.old.items ++ packet_links id own (country_of telegram.now) pig 0 telegram.now.packets) }
    ensures fault { IsOkUnless result Refusal.OutOfMemory }
{
    let country = telegram.identity().country;
    // The number of packets is a `usize`, so counting them doesn't overflow.
    let _count = telegram.count();
    let mut pkt: usize = 0;
    for (_, packet) in telegram.packets() {
        let Ok(place) = u32::try_from(pkt) else {
            return Err(Refusal::OutOfMemory);
        };
        add_packet(found, id, own, pig, place, country, &packet)?;
        pkt += 1;
    }
    Ok(())
}

// Those of a packet of a telegram of this country.
fn add_packet(
    found: &mut Vec<ReviewLine>,
    id: Id,
    own: Id,
    pig: u32,
    pkt: u32,
    country: u32,
    packet: &PacketRef<'_>,
) -> Result<(), Refusal>
    ensures ok { OnOk result (found.new.items ≡ found.old.items ++ lines_at own pig pkt (named_in id country packet.now)) }
    ensures fault { IsOkUnless result Refusal.OutOfMemory }
{
    match packet.few_elements(country) {
        Some(few) => add_named(found, id, own, pig, pkt, packet, few.as_slice()),
        None => add_many(found, id, own, pig, pkt, country, packet),
    }
}

// Those of a packet of any number of elements. Out of line, since `Elements` takes much of the stack.
#[inline(never)]
fn add_many(
    found: &mut Vec<ReviewLine>,
    id: Id,
    own: Id,
    pig: u32,
    pkt: u32,
    country: u32,
    packet: &PacketRef<'_>,
) -> Result<(), Refusal>
    ensures ok { OnOk result (found.new.items ≡ found.old.items ++ lines_at own pig pkt (named_in id country packet.now)) }
    ensures fault { IsOkUnless result Refusal.OutOfMemory }
{
    let elements = packet.elements(country);
    add_named(found, id, own, pig, pkt, packet, elements.as_slice())
}

// Those of the elements of a packet, which name these identities.
fn add_named(
    found: &mut Vec<ReviewLine>,
    id: Id,
    own: Id,
    pig: u32,
    pkt: u32,
    packet: &PacketRef<'_>,
    links: &[Id],
) -> Result<(), Refusal>
    ensures ok { OnOk result (found.new.items ≡ found.old.items ++ lines_at own pig pkt (named_from id packet.now.fields 0 links.now)) }
    ensures fault { IsOkUnless result Refusal.OutOfMemory }
{
    for k in 0..links.len() {
        if links[k] != id {
            continue;
        }
        let Ok(next) = u32::try_from(k + 1) else {
            return Err(Refusal::OutOfMemory);
        };
        add_distance(found, own, pig, pkt, packet, next - 1)?;
        add_distance(found, own, pig, pkt, packet, next)?;
    }
    Ok(())
}

// D_LINK of element `k` of a packet, where it has one.
fn add_distance(
    found: &mut Vec<ReviewLine>,
    own: Id,
    pig: u32,
    pkt: u32,
    packet: &PacketRef<'_>,
    k: u32,
) -> Result<(), Refusal>
    ensures ok { OnOk result (found.new.items ≡ found.old.items ++ lines_at own pig pkt (distance_of packet.now.fields k)) }
    ensures fault { IsOkUnless result Refusal.OutOfMemory }
{
    let Some(value) = packet.field(Var::DLink, k) else {
        return Ok(());
    };
    let what = Reviewed::Field(Var::DLink, k, value);
    found.push(ReviewLine {
        id: own,
        pig,
        pkt,
        what,
    })?;
    Ok(())
}
