//! The places of a set, one after another.

ghost use Rattle.std.specs.Prelude.{◌≡◌};
ghost use Rattle.std.specs.Iterator.{YieldsFirst, item_count};
ghost use Rattle.balise_index.specs.LinkSet.{places_held};

use crate::link_place::LinkPlace;
use crate::links::Held;
use crate::links::narrow::NarrowPlace;
use crate::links::small::SmallPlace;
use crate::links::three::ThreePlaces;
use std::collections::btree_set;
use std::iter::FusedIterator;
use std::marker::Model;

/// The places of a set that are left, in order.
#[derive(Drop)]
pub struct Places<'a> {
    left: Left<'a>,
}

/// What is left of a set as it holds its places.
#[derive(Drop)]
pub(crate) enum Left<'a> {
    Nothing,
    One(NarrowPlace),
    Two(SmallPlace, SmallPlace),
    Three(ThreePlaces),
    Few(&'a [NarrowPlace]),
    Many(btree_set::Iter<'a, LinkPlace>),
}

impl<'a> Model for Places<'a> {
    ghost use Rattle.std.specs.Prelude.{List};
    ghost use Rattle.balise_index.specs.declared.link_place.LinkPlace.{LinkPlace};
    ghost use Rattle.balise_index.specs.LinkSet.{places_left};

    ghost Value = { List LinkPlace };

    ghost view = { λ p. places_left p.left };
}

impl<'a> Places<'a> {
    /// All places that a set holds.
    pub(crate) fn new(held: &'a Held) -> Places<'a>
        ensures { result ≡ (places_held held.now).keys }
    {
        match held {
            Held::Empty => Places {
                left: Left::Nothing,
            },
            Held::One(place) => Places {
                left: Left::One(*place),
            },
            Held::Two(first, second) => Places {
                left: Left::Two(*first, *second),
            },
            Held::Three(three) => Places {
                left: Left::Three(*three),
            },
            Held::Few(list) => Places {
                left: Left::Few(list.as_slice()),
            },
            Held::Many(tree) => Places {
                left: Left::Many(tree.iter()),
            },
        }
    }
}

impl<'a> Iterator for Places<'a> {
    type Item = LinkPlace;

    ghost next_gives = { YieldsFirst (λ rest. rest) };

    ghost remaining = { item_count (λ rest. rest) };

    fn next(&mut self) -> Option<LinkPlace> {
        match &mut self.left {
            Left::Nothing => None,
            Left::One(place) => {
                let place = place.wide();
                self.left = Left::Nothing;
                Some(place)
            }
            Left::Two(first, second) => {
                let place = first.wide();
                self.left = Left::One(second.narrow());
                Some(place)
            }
            Left::Three(three) => {
                let place = three.first().wide();
                self.left = Left::Two(three.second(), three.third());
                Some(place)
            }
            Left::Few(places) => {
                let Some((place, rest)) = places.split_first() else {
                    return None;
                };
                *places = rest;
                Some(place.wide())
            }
            Left::Many(tree) => match tree.next() {
                Some(place) => Some(*place),
                None => None,
            },
        }
    }
}

impl<'a> FusedIterator for Places<'a> {}
