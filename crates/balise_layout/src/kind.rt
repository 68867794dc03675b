//! The kinds of packets: the known ones, and those that are kept bit for bit.

ghost use Rattle.std.specs.Prelude.{◌≡◌, ◌⊎◌, ℕ, Some, false, is_some, true};
ghost use Rattle.balise_rules.specs.Packets.{is_known};
ghost use Rattle.balise_layout.specs.Reading.{Ends};
ghost use Rattle.balise_layout.specs.Held.{headed};
ghost use Rattle.balise_layout.specs.Layouts.{form_of, layout_in, next_of, Nameless};
ghost use Rattle.balise_layout.specs.Kinds.{number_of};

use crate::fault::LayoutFault;
use crate::layout::Layout;
use crate::tables::{
    GradientProfile, InfillLocation, LevelTransition, Linking, Opaque, Revocation, SpeedProfile,
    SpeedRestriction,
};
use crate::walk::Walk;

/// A kind of packets.
#[derive(Clone, Copy, Debug, PartialEq, Eq)]
pub enum PacketKind {
    /// Packet 5.
    Linking,
    /// Packet 21.
    GradientProfile,
    /// Packet 27 where the version knows it.
    SpeedProfile,
    /// Packet 41 where the version knows it.
    LevelTransition,
    /// Packet 65.
    SpeedRestriction,
    /// Packet 66.
    Revocation,
    /// Packet 136.
    InfillLocation,
    /// Any other packet, kept bit for bit.
    Opaque,
}

impl PacketKind {
    /// The kind of the packets of a number in telegrams of this M_VERSION: 27 and 41 are known where its first
    /// part is 2, the others in each version.
    #[tactic(auto, unfolding(balise_rules::specs::Packets::is_known, crate::specs::Layouts::layout_in))]
    pub fn of(version: u32, number: u32) -> PacketKind
        ensures { number_of result ≡ layout_in version number }
    {
        match number {
            5 => PacketKind::Linking,
            21 => PacketKind::GradientProfile,
            27 if version / 16 == 2 => PacketKind::SpeedProfile,
            41 if version / 16 == 2 => PacketKind::LevelTransition,
            65 => PacketKind::SpeedRestriction,
            66 => PacketKind::Revocation,
            136 => PacketKind::InfillLocation,
            _ => PacketKind::Opaque,
        }
    }

    /// Whether its packets are known.
    pub fn is_known(self) -> bool
        ensures { result ≡ is_some (number_of self) }
    {
        !matches!(self, PacketKind::Opaque)
    }

    /// Whether its packets have elements, which name identities: those of packets 5 and 136 do.
    #[tactic(auto, using(crate::proofs::Nameless::nameless_21, crate::proofs::Nameless::nameless_27, crate::proofs::Nameless::nameless_41, crate::proofs::Nameless::nameless_65, crate::proofs::Nameless::nameless_66, crate::proofs::Nameless::nameless_kept))]
    pub(crate) fn has_elements(self) -> bool
        ensures none { result ≡ false → Nameless (form_of (number_of self)) }
        ensures some { result ≡ true → (number_of self ≡ Some 5) ⊎ (number_of self ≡ Some 136) }
    {
        matches!(self, PacketKind::Linking | PacketKind::InfillLocation)
    }

    /// Goes over what follows the first three fields of a packet of this kind.
    #[inline(always)]
    pub(crate) fn walk_rest<W: Walk>(self, walker: &mut W) -> Result<(), LayoutFault>
        ensures { Ends W.allocates W.run (form_of (number_of self)) walker.old result walker.new }
    {
        match self {
            PacketKind::Linking => Linking::walk_rest(walker),
            PacketKind::GradientProfile => GradientProfile::walk_rest(walker),
            PacketKind::SpeedProfile => SpeedProfile::walk_rest(walker),
            PacketKind::LevelTransition => LevelTransition::walk_rest(walker),
            PacketKind::SpeedRestriction => SpeedRestriction::walk_rest(walker),
            PacketKind::Revocation => Revocation::walk_rest(walker),
            PacketKind::InfillLocation => InfillLocation::walk_rest(walker),
            PacketKind::Opaque => Opaque::walk_rest(walker),
        }
    }

    /// Goes over a whole packet of this kind.
    pub fn walk<W: Walk>(self, walker: &mut W) -> Result<(), LayoutFault>
        ensures { Ends W.allocates W.run (headed (next_of (number_of self))) walker.old result walker.new }
    {
        match self {
            PacketKind::Linking => Linking::walk_whole(walker),
            PacketKind::GradientProfile => GradientProfile::walk_whole(walker),
            PacketKind::SpeedProfile => SpeedProfile::walk_whole(walker),
            PacketKind::LevelTransition => LevelTransition::walk_whole(walker),
            PacketKind::SpeedRestriction => SpeedRestriction::walk_whole(walker),
            PacketKind::Revocation => Revocation::walk_whole(walker),
            PacketKind::InfillLocation => InfillLocation::walk_whole(walker),
            PacketKind::Opaque => Opaque::walk_whole(walker),
        }
    }
}

/// Whether packets of this number may have elements, which name identities: those of packets 5 and 136 do
/// (SUBSET-026, 7.4.2).
#[tactic(auto, using(crate::proofs::Nameless::nameless_numbered))]
pub fn may_have_elements(number: u32) -> bool
    ensures none { result ≡ false → (version : ℕ) → Nameless (form_of (layout_in version number)) }
    ensures some { result ≡ true → (number ≡ 5) ⊎ (number ≡ 136) }
{
    matches!(number, 5 | 136)
}

/// Whether a packet is known in a version.
#[tactic(auto, unfolding(crate::specs::Layouts::layout_in))]
pub fn is_known(version: u32, number: u32) -> bool
    ensures { result ≡ is_known version number }
{
    PacketKind::of(version, number).is_known()
}
