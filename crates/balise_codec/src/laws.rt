//! The laws of fields and bits. Each function does nothing: its contract is the law.

ghost use Rattle.balise_codec.specs.Given.{AllGiven};
ghost use Rattle.balise_codec.specs.Laws.{FittingIsSpelt};
ghost use Rattle.balise_codec.specs.TelegramLaws.{OneTelegram, ReadIsOf, RefusedIsNone, SpeltIsExplained};

/// Values that fit are those of a packet, where their bits aren't too many and none stand after the fields of a known one.
pub fn fitting_is_spelt()
    ensures { FittingIsSpelt }
{}

/// The explained fields of a telegram encode its bits, padding included. They encode no other bits.
pub fn explained_is_spelt()
    ensures own { ReadIsOf }
    ensures one { OneTelegram }
{}

/// The bits that fields are encoded as are explained as the same fields.
pub fn spelt_is_explained()
    ensures { SpeltIsExplained }
{}

/// Fields that are refused are no telegram's.
pub fn refused_is_none()
    ensures { RefusedIsNone }
{}

/// All values of a packet are given by it, L_PACKET among them.
pub fn all_values_are_given()
    ensures { AllGiven }
{}
