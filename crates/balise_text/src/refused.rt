//! The lines of refused commands.

ghost use Rattle.std.specs.Prelude.{◌≡◌, ◌∷◌, [], codes, decimal};
ghost use Rattle.balise_rules.specs.Refusals.{name_of, number_of};
ghost use Rattle.balise_text.specs.Texts.{whole_line};

use balise_rules::Refusal;

/// The line of a refusal's number and name, with its end.
pub(crate) fn refused_text(refusal: Refusal) -> &'static str
    ensures { result.now ≡ whole_line (codes "refused" ∷ decimal (number_of refusal) ∷ name_of refusal ∷ []) }
{
    match refusal {
        Refusal::BadLine => "refused 1 BadLine\n",
        Refusal::BadHex => "refused 2 BadHex\n",
        Refusal::BadLength => "refused 3 BadLength\n",
        Refusal::SpareBits => "refused 4 SpareBits\n",
        Refusal::NotABalise => "refused 5 NotABalise\n",
        Refusal::NoEnd => "refused 6 NoEnd\n",
        Refusal::PacketCut => "refused 7 PacketCut\n",
        Refusal::LayoutMismatch => "refused 8 LayoutMismatch\n",
        Refusal::PacketZero => "refused 9 PacketZero\n",
        Refusal::GroupSize => "refused 10 GroupSize\n",
        Refusal::HeaderDisagrees => "refused 11 HeaderDisagrees\n",
        Refusal::NumberReserved => "refused 12 NumberReserved\n",
        Refusal::GroupTwice => "refused 13 GroupTwice\n",
        Refusal::NoSuchGroup => "refused 14 NoSuchGroup\n",
        Refusal::NoSuchTelegram => "refused 15 NoSuchTelegram\n",
        Refusal::NoSuchPacket => "refused 16 NoSuchPacket\n",
        Refusal::NoSuchVariable => "refused 17 NoSuchVariable\n",
        Refusal::Steering => "refused 18 Steering\n",
        Refusal::ValueTooWide => "refused 19 ValueTooWide\n",
        Refusal::NoRoom => "refused 20 NoRoom\n",
        Refusal::NumberTaken => "refused 21 NumberTaken\n",
        Refusal::SamePlace => "refused 22 SamePlace\n",
        Refusal::NothingToUndo => "refused 23 NothingToUndo\n",
        Refusal::NothingToRedo => "refused 24 NothingToRedo\n",
        Refusal::NoSuchEdit => "refused 25 NoSuchEdit\n",
        Refusal::DependsOn(_) => "refused 26 DependsOn\n",
        Refusal::JournalMismatch => "refused 27 JournalMismatch\n",
        Refusal::Worn => "refused 28 Worn\n",
        Refusal::InputTooLong => "refused 29 InputTooLong\n",
        Refusal::OutOfMemory => "refused 30 OutOfMemory\n",
        Refusal::ReadFault => "refused 31 ReadFault\n",
        Refusal::WriteFault => "refused 32 WriteFault\n",
    }
}
