//! The tag of a group or a packet.

/// What a group or a packet is called for as long as it stands, wherever it is moved.
#[derive(Clone, Copy, Debug, PartialEq, Eq, PartialOrd, Ord, Hash)]
pub enum Tag {
    /// The place, from 0, in the plan, the group or the telegram that was read.
    Base(u32),
    /// The serial of the edit that put it in.
    Fresh(u32),
}

/// `Base(0)`: what a list of tags has where it holds none.
impl Default for Tag {
    ghost use Rattle.std.specs.Prelude.{◌≡◌};
    ghost use Rattle.balise_rules.specs.declared.tag.Tag.TheVariants.{Base};

    ghost is_default = { λ tag. tag ≡ Base 0 };

    fn default() -> Tag {
        Tag::Base(0)
    }
}
