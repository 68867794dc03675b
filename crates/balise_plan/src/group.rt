//! A group: its telegrams under their tags.

mod changes;
mod copying;
mod putting;
mod reading;
mod turning;

ghost use Rattle.std.specs.Prelude.{◌≡◌, ◌≤◌, ◌^◌, eqb, length, option_map, slice_get};
ghost use Rattle.balise_rules.specs.Plan.{identity_of, IsSoundGroup};
ghost use Rattle.balise_rules.specs.Tagged.{find as under};

use crate::one_or_more::OneOrMore;
use balise_rules::Id;
use balise_telegram::Telegram;
use std::marker::Model;

/// Telegrams under their tags. Most groups have one.
pub(crate) type Telegrams = OneOrMore<Telegram>;

/// A group. It is sound.
#[derive(Drop)]
pub struct Group {
    telegrams: Telegrams,
}

const _: () = prove!(size_of::<Telegram>() == 40);

const _: () = prove!(size_of::<Group>() == 48);

impl Model for Group {
    ghost use Rattle.balise_rules.specs.Plan as rules;

    ghost Value = { rules.Group };

    ghost view = { λ g. g.telegrams };

    ghost invariant = { λ g. rules.IsSoundGroup g.telegrams };
}

impl Group {
    /// Its identity: that of its first telegram.
    pub fn identity(&self) -> Id
        ensures { result ≡ identity_of self.now }
    {
        identity(&self.telegrams)
    }

    /// Its identity, for callers that have to know that it is sound: a group's value alone doesn't say so.
    pub(crate) fn sound_identity(&self) -> Id
        ensures is { result ≡ identity_of self.now }
        ensures sound { IsSoundGroup self.now }
    {
        identity(&self.telegrams)
    }

    /// How many telegrams it has.
    pub fn count(&self) -> usize
        ensures { result ≡ length self.now }
    {
        self.telegrams.len()
    }

    /// The telegram with this tag.
    pub fn telegram(&self, t: u32) -> Option<&Telegram>
        ensures { option_map (λ b. b.now) result ≡ under eqb t self.now }
    {
        match self.telegrams.place_of(t) {
            Some(i) => Some(&self.telegrams[i]),
            None => None,
        }
    }

    /// The telegram at a place, with its tag.
    pub fn at(&self, pig: usize) -> Option<(u32, &Telegram)>
        ensures { option_map (λ p. (p.0, p.1.now)) result ≡ slice_get self.now pig }
    {
        self.telegrams.get(pig)
    }
}

// The identity of the first telegram.
fn identity(telegrams: &Telegrams) -> Id
    requires { length telegrams.now ≤ 2 ^ 32 }
    ensures { result ≡ identity_of telegrams.now }
{
    match telegrams.get(0) {
        Some((_, telegram)) => telegram.identity(),
        None => Id {
            country: 0,
            number: 0,
        },
    }
}
