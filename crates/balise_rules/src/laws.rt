//! First laws of the rules, each the contract of a function that does nothing.

ghost use Rattle.balise_rules.specs.Laws.{OneSpelling, PacketsRead, ShownAsRead, TagsKept, TelegramsRead};

/// Bits encode at most one packet.
pub fn one_spelling()
    ensures { OneSpelling }
{}

/// A packet is read exactly where the bits at the front encode it.
pub fn packets_read()
    ensures { PacketsRead }
{}

/// A telegram is read exactly where the bits are one, and then shows what was read, padding included.
pub fn telegrams_read()
    ensures exactly { TelegramsRead }
    ensures shown { ShownAsRead }
{}

/// A list with distinct tags keeps them under each change.
pub fn tags_kept()
    ensures { TagsKept }
{}
