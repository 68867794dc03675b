//! What the packets of a telegram name, as it was seen while they were checked.

ghost use Rattle.std.specs.Prelude.{◌≡◌, ◌++◌, ◌∷◌, [], ℕ, List, length};
ghost use Rattle.balise_layout.specs.Naming.{IsNamed};
ghost use Rattle.balise_rules.specs.Packet as rules;
ghost use Rattle.balise_rules.specs.declared.tag.Tag.{Tag};
ghost use Rattle.balise_rules.specs.declared.tag.Tag.TheVariants.{Base};
ghost use Rattle.balise_telegram.specs.Linking.{AreNamed};

use balise_layout::{FewIdentities, Named};

/// The identities that the packets of a telegram name.
#[derive(Drop)]
pub enum TelegramNames {
    /// None: no packet has elements.
    Nothing,
    /// Those of at most four elements, one each, in order. They are of the packet at this place, from 0; no other has
    /// elements.
    One(u32, FewIdentities),
    /// Those of more elements or of more packets, which weren't kept.
    Many,
}

impl TelegramNames {
    // Adds what a packet after the others names, which stands at this place.
    #[inline(always)]
    pub(crate) fn add(&mut self, index: u32, named: Named)
        ensures { (c : ℕ) (ps : List (Tag × rules.Packet)) (p : rules.Packet) → index ≡ length ps → AreNamed self.old c ps → IsNamed named c p → AreNamed self.new c (ps ++ (Base index, p) ∷ []) }
    {
        let more = match named {
            Named::Nothing => return,
            Named::Few(few) => match self {
                TelegramNames::Nothing => TelegramNames::One(index, few),
                _ => TelegramNames::Many,
            },
            Named::Many => TelegramNames::Many,
        };
        *self = more;
    }
}
