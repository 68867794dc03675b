//! The layout of a packet: which number has it, and what follows the first three fields.

ghost use Rattle.std.specs.Prelude.{◌≡◌, ℕ, Option};
ghost use Rattle.balise_rules.specs.Forms.{Form};
ghost use Rattle.balise_layout.specs.Reading.{Ends};
ghost use Rattle.balise_layout.specs.Held.{headed};
ghost use Rattle.balise_layout.specs.Layouts.{form_of, next_of, takes};
ghost use Rattle.balise_layout.specs.Laws.{HasOneSpelling, IsAsLongAsSaid, WrittenIsRead};
ghost use Rattle.balise_layout.specs.LayoutLaws.{long_as_said, reads_written, spelt_once};

use crate::fault::LayoutFault;
use crate::walk::Walk;
use balise_rules::Var;

/// The layout of the packets of one number, or of those that are kept bit for bit.
pub trait Layout {
    /// NID_PACKET of its packets; none for the packets that are kept bit for bit.
    const NUMBER: Option<u32>;

    ghost NUMBER: { Option ℕ };

    /// What follows the first three fields.
    ghost form: { Form };

    /// Goes over what follows the first three fields.
    fn walk<W: Walk>(walker: &mut W) -> Result<(), LayoutFault>
        ensures { Ends W.allocates W.run form walker.old result walker.new };

    // It is the form that the rules have for the number.
    ghost ruled: { form_of NUMBER ≡ form };

    // What is written of its packets is read as the same packet, whatever follows.
    ghost written_is_read: { WrittenIsRead NUMBER form } = { reads_written NUMBER form ruled };

    // What is written of its packets is as long as L_PACKET says.
    ghost as_long_as_said: { IsAsLongAsSaid NUMBER form } = { long_as_said NUMBER form };

    // A packet has one encoding, and its bits are of no other packet.
    ghost one_spelling: { HasOneSpelling NUMBER form } = { spelt_once NUMBER form };

    /// Whether a packet of this number may have the layout.
    #[tactic(auto, unfolding(crate::specs::Layouts::takes))]
    final fn takes(number: u32) -> bool
        ensures { result ≡ takes NUMBER number }
    {
        match Self::NUMBER {
            Some(own) => number == own,
            None => number != 0 && number != 255,
        }
    }

    /// Goes over what follows the first three fields, as `walk` does.
    final fn walk_rest<W: Walk>(walker: &mut W) -> Result<(), LayoutFault>
        ensures { Ends W.allocates W.run (form_of NUMBER) walker.old result walker.new }
    {
        Self::walk(walker)
    }

    /// Goes over a whole packet.
    #[tactic(auto, using(crate::proofs::Layouts::next_own, crate::proofs::Layouts::next_other))]
    final fn walk_whole<W: Walk>(walker: &mut W) -> Result<(), LayoutFault>
        ensures { Ends W.allocates W.run (headed (next_of NUMBER)) walker.old result walker.new }
    {
        let number = walker.take(Var::NidPacket)?;
        walker.take(Var::QDir)?;
        walker.take(Var::LPacket)?;
        if !Self::takes(number) {
            return Err(walker.spare());
        }
        Self::walk(walker)
    }
}
