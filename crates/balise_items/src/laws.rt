//! The laws of both ways. Each function does nothing: its contract is the law.

ghost use Rattle.balise_items.specs.Laws.{PacketIsPrinted, PacketIsSpelt, SpeltIsPacket, SpeltIsTelegram, TelegramIsPrinted, TelegramIsSpelt};

/// The explained fields of a telegram or a packet are encoded as the same bits, padding included.
pub fn explained_is_spelt()
    ensures telegram { TelegramIsSpelt }
    ensures packet { PacketIsSpelt }
{}

/// What is printed for a telegram or a packet says what its lines do.
pub fn printed_is_read()
    ensures telegram { TelegramIsPrinted }
    ensures packet { PacketIsPrinted }
{}

/// The bits that fields are encoded as are read as a telegram or a packet with the same fields.
pub fn spelt_is_explained()
    ensures telegram { SpeltIsTelegram }
    ensures packet { SpeltIsPacket }
{}
