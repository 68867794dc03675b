//! The place of a tag in a list of tags.

ghost use Rattle.std.specs.Prelude.{◌≡◌, position, slice_get, Some};
ghost use Rattle.balise_rules.specs.Tags.{same_tag};
ghost use Rattle.balise_index.specs.InOrder.{is_at, Once};

use crate::tag_list::TagList;
use balise_rules::Tag;

/// Whether a tag stands at a place.
pub(crate) fn stands_at(order: &TagList, tag: Tag, i: usize) -> bool
    ensures { result ≡ is_at tag (slice_get order.now.items i) }
{
    match order.get(i) {
        Some(there) => tag == there,
        None => false,
    }
}

/// The place of a tag in a list that has each tag once. Looks where it is expected first, and then further and further
/// away.
pub(crate) fn place_near(order: &TagList, tag: Tag, near: usize) -> Option<usize>
    requires { Once order.now.items }
    ensures { result ≡ position (same_tag tag) order.now.items }
{
    let len = order.len();
    let near = if near < len { near } else { len };
    for far in 0..len + 1 {
        if stands_at(order, tag, near + far) {
            return Some(near + far);
        }
        if far <= near && stands_at(order, tag, near - far) {
            return Some(near - far);
        }
    }
    None
}

/// The first tag that doesn't rise, once a tag is put in at a place. `odd` is the first one before that.
pub(crate) fn odd_with(order: &TagList, odd: Option<Tag>, tag: Tag, i: usize) -> Option<Tag> {
    if odd.is_some() || rises_at(order, tag, i) {
        return odd;
    }
    Some(tag)
}

// Whether a tag that goes to a place is higher than the one before it and lower than the next one.
fn rises_at(order: &TagList, tag: Tag, i: usize) -> bool {
    if i > 0 {
        if let Some(before) = order.get(i - 1) {
            if tag < before {
                return false;
            }
        }
    }
    match order.get(i) {
        Some(next) => tag < next,
        None => true,
    }
}

/// The place of a tag, or where it would stand, in a list in which tags rise but for an odd one: a guess.
pub(crate) fn place_in_rising(order: &TagList, odd: Option<Tag>, tag: Tag) -> usize {
    let mut begin = 0;
    let mut end = order.len();
    for _ in 0..usize::BITS {
        if begin >= end {
            return begin;
        }
        let middle = begin + (end - begin) / 2;
        if comes_before(order, odd, middle, tag) {
            begin = middle + 1;
        } else {
            end = middle;
        }
    }
    begin
}

// Whether the tag at a place is lower than another one. In place of the odd one the next one says so.
fn comes_before(order: &TagList, odd: Option<Tag>, i: usize, tag: Tag) -> bool {
    let there = order.get(i);
    let there = if there == odd {
        order.get(i.saturating_add(1))
    } else {
        there
    };
    match there {
        Some(there) => there < tag,
        None => false,
    }
}
