//! Going over links.

ghost use Rattle.std.specs.Prelude.{◌≡◌, ◌≢◌, ◌<◌, ◌^◌};
ghost use Rattle.balise_index.specs.NameIndex.{indexed, names_of};
ghost use Rattle.balise_rules.specs.Plan.{reserved};
ghost use Rattle.balise_rules.specs.Tagged.{Distinct};
ghost use Rattle.balise_rules.specs.Tags.{same_tag};
ghost use Rattle.balise_index.specs.Places.{Once};
ghost use Rattle.balise_plan.specs.Walks.{change_all, change_at, places_of, renumbered_heads, turned_in, FitsName};

use crate::group::Group;
use crate::links::change::Change;
use balise_index::{LinkPlace, Links, NameIndex, OrderedMap};
use balise_rules::{Id, Tag};

/// Changes the elements at these places. Takes no memory.
pub(crate) fn change_each(groups: &mut OrderedMap<Group>, links: &Links, change: Change)
    requires fits { FitsName change }
    requires tags { Distinct same_tag groups.old.entries }
    ensures once { Once links.now.keys }
    ensures tags { Distinct same_tag groups.new.entries }
    ensures changed { groups.new.entries ≡ change_all change links.now.keys groups.old.entries }
{
    for place in links.iter() {
        change_one(groups, &place, change);
    }
}

fn change_one(groups: &mut OrderedMap<Group>, place: &LinkPlace, change: Change)
    requires fits { FitsName change }
    requires tags { Distinct same_tag groups.old.entries }
    ensures tags { Distinct same_tag groups.new.entries }
    ensures changed { groups.new.entries ≡ change_at change place.now groups.old.entries }
{
    let Some(group) = groups.get_mut(place.group) else {
        return;
    };
    group.change_link(place.telegram, place.packet, place.element, change);
}

/// Changes the elements that name an identity, as the index has them. Takes no memory.
pub(crate) fn change_links(
    groups: &mut OrderedMap<Group>,
    index: &NameIndex,
    id: Id,
    change: Change,
)
    requires fits { FitsName change }
    requires tags { Distinct same_tag groups.old.entries }
    ensures once { Once (places_of (indexed (names_of index.now) id)) }
    ensures tags { Distinct same_tag groups.new.entries }
    ensures changed { groups.new.entries ≡ change_all change (places_of (indexed (names_of index.now) id)) groups.old.entries }
{
    let Some(links) = index.names(id) else {
        return;
    };
    change_each(groups, links, change);
}

/// Gives one group another number in each header. Takes no memory.
pub(crate) fn number_group(groups: &mut OrderedMap<Group>, g: Tag, number: u32)
    requires fits { number < 2 ^ 14 }
    requires other { number ≢ reserved }
    requires tags { Distinct same_tag groups.old.entries }
    ensures { groups.new.entries ≡ renumbered_heads g number groups.old.entries }
{
    let Some(group) = groups.get_mut(g) else {
        return;
    };
    group.put_number(number);
}

/// Turns one group, its links apart. Takes no memory.
pub(crate) fn turn_group(groups: &mut OrderedMap<Group>, g: Tag)
    requires tags { Distinct same_tag groups.old.entries }
    ensures { groups.new.entries ≡ turned_in g groups.old.entries }
{
    let Some(group) = groups.get_mut(g) else {
        return;
    };
    group.turn();
}
