//! What a group names, as it was seen while it was read.

ghost use Rattle.std.specs.Prelude.{◌≡◌, ◌++◌, ◌∷◌, []};
ghost use Rattle.balise_rules.specs.Plan.{country_of, Group};
ghost use Rattle.balise_rules.specs.Telegram.{Telegram};
ghost use Rattle.balise_plan.specs.GroupNames.{AreLinks};
ghost use Rattle.balise_telegram.specs.Linking.{AreNamed};

use balise_telegram::{FewIdentities, TelegramNames};

/// The identities that a group names.
#[derive(Drop)]
pub(crate) enum GroupNames {
    /// None: no packet has elements.
    Nothing,
    /// Those of at most four elements, one each, in order. They are of one packet: the tag of its telegram, and its place
    /// there, from 0. No other has elements.
    One(u32, u32, FewIdentities),
    /// Those of more elements or of more packets, which weren't kept.
    Many,
}

impl GroupNames {
    // Adds what a telegram after the others names, under its tag.
    #[inline(always)]
    pub(crate) fn add(&mut self, tag: u32, names: TelegramNames)
        ensures { (ys : Group) (y : Telegram) → AreLinks self.old ys → AreNamed names (country_of y) y.packets → AreLinks self.new (ys ++ (tag, y) ∷ []) }
    {
        let more = match names {
            TelegramNames::Nothing => return,
            TelegramNames::One(packet, few) => match self {
                GroupNames::Nothing => GroupNames::One(tag, packet, few),
                _ => GroupNames::Many,
            },
            TelegramNames::Many => GroupNames::Many,
        };
        *self = more;
    }
}
