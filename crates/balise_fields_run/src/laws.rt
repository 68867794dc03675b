//! The laws of both runs. Each function does nothing: its contract is the law.

ghost use Rattle.balise_fields_run.specs.SpelledBack.{PacketIsExplainedBack, PacketIsSpelledBack, TelegramIsExplainedBack, TelegramIsSpelledBack};

/// What a run from digits to fields prints for a telegram or a packet, a run from fields to digits turns into its digits.
pub fn explained_is_spelled_back()
    ensures telegram { TelegramIsSpelledBack }
    ensures packet { PacketIsSpelledBack }
{}

/// The digits that a run from fields to digits prints for a telegram or a packet are explained as the same fields.
pub fn spelled_is_explained_back()
    ensures telegram { TelegramIsExplainedBack }
    ensures packet { PacketIsExplainedBack }
{}
