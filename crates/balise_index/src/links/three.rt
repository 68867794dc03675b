//! Three link places in twenty bytes.

ghost use Rattle.std.specs.Prelude.{◌≡◌, ◌≤◌, ◌⊎◌, IfNone, IfSome};
ghost use Rattle.balise_index.specs.SmallPlace.{narrow_place};
ghost use Rattle.balise_index.specs.ThreePlaces.{first_of, second_of, third_of};

use crate::links::small::SmallPlace;

/// Three places whose packets have numbers below 64, so that the rest of each fits 16 bits. Most packets are so: they are
/// numbered in each telegram, and one that was put in has the serial of its edit.
#[derive(Clone, Copy)]
pub(crate) struct ThreePlaces {
    first: u32,
    second: u32,
    third: u32,
    first_rest: u16,
    second_rest: u16,
    third_rest: u16,
}

impl ThreePlaces {
    /// Three places together, if the packet of each has a number below 64.
    pub(super) fn of(
        first: SmallPlace,
        second: SmallPlace,
        third: SmallPlace,
    ) -> Option<ThreePlaces>
        ensures first { IfSome result (λ t. first_of t ≡ first) }
        ensures second { IfSome result (λ t. second_of t ≡ second) }
        ensures third { IfSome result (λ t. third_of t ≡ third) }
        ensures none { IfNone result ((64 ≤ (narrow_place first).packet) ⊎ (64 ≤ (narrow_place second).packet) ⊎ (64 ≤ (narrow_place third).packet)) }
    {
        let Ok(first_rest) = u16::try_from(first.rest) else {
            return None;
        };
        let Ok(second_rest) = u16::try_from(second.rest) else {
            return None;
        };
        let Ok(third_rest) = u16::try_from(third.rest) else {
            return None;
        };
        Some(ThreePlaces {
            first: first.group,
            second: second.group,
            third: third.group,
            first_rest,
            second_rest,
            third_rest,
        })
    }

    /// The first.
    pub(super) fn first(self) -> SmallPlace
        ensures { result ≡ first_of self }
    {
        SmallPlace {
            group: self.first,
            rest: self.first_rest as u32,
        }
    }

    /// The second.
    pub(super) fn second(self) -> SmallPlace
        ensures { result ≡ second_of self }
    {
        SmallPlace {
            group: self.second,
            rest: self.second_rest as u32,
        }
    }

    /// The third.
    pub(super) fn third(self) -> SmallPlace
        ensures { result ≡ third_of self }
    {
        SmallPlace {
            group: self.third,
            rest: self.third_rest as u32,
        }
    }
}
