//! The laws of packets. Each function does nothing: its contract is the law, proved for every packet.

ghost use Rattle.balise_layout.specs.Layouts.{SpeltWhere};
ghost use Rattle.balise_layout.specs.Laws.{HasOneSpelling, IsAsLongAsSaid, IsSteadyLayout, ReadsWhatIsSpelt, SettingKeeps, SpellsOnce, WrittenIsRead};

use crate::layout::Layout;

/// In a packet of this layout only a variable that isn't set in place says what follows it.
pub fn is_steady<L: Layout>()
    ensures { IsSteadyLayout L.NUMBER }
{}

/// A packet of this layout is well-formed in the versions that know its number. One kept bit for bit is so in the others.
pub fn spelt_where_known<L: Layout>()
    ensures { SpeltWhere L.NUMBER }
{}

/// What is written of a packet of this layout is read as the same packet, whatever follows.
pub fn written_is_read<L: Layout>()
    ensures { WrittenIsRead L.NUMBER L.form }
{}

/// What is written of a packet of this layout is as long as its L_PACKET says.
pub fn as_long_as_said<L: Layout>()
    ensures { IsAsLongAsSaid L.NUMBER L.form }
{}

/// A packet of this layout has one encoding, and its bits are of no other packet.
pub fn one_spelling<L: Layout>()
    ensures { HasOneSpelling L.NUMBER L.form }
{}

/// A packet is read exactly where the bits begin with one that is well-formed in the version.
pub fn reads_what_is_spelt()
    ensures { ReadsWhatIsSpelt }
{}

/// Bits are one packet at most.
pub fn spells_once()
    ensures { SpellsOnce }
{}

/// Setting a field leaves a packet well-formed, and as long.
pub fn setting_keeps()
    ensures { SettingKeeps }
{}
