//! Worked rows of the rules, which the checker computes, each a clause of a function that does nothing.

ghost use Rattle.balise_rules.specs.AddressRows.{GroupsRefused, LastAccepted, LengthFirst, NothingNamed, Resolved, VersionsTold};
ghost use Rattle.balise_rules.specs.GroupRows.{DroppedAndAdded, EditedAfterUndo, FourPackets, LinkStruck, NothingDone, PlansRefused, Refilled, RenumberRefused, Renumbered, TurnReviewed, Turned};
ghost use Rattle.balise_rules.specs.InfillRows.{InfillCut, InfillRenumbered, InfillReviewed, InfillSet, InfillTaken};
ghost use Rattle.balise_rules.specs.JournalRows.{EntryFollows, NextRefused, NotesRefused, SerialsRefused, SetSaid, StackRefused, StruckSaid};
ghost use Rattle.balise_rules.specs.StrikeRows.{MovedBehind, TwoAdded, TwoInserted};
ghost use Rattle.balise_rules.specs.Rows.{DigitsRefused, Filled, InsertedAndUndone, LinkSet, OthersSet, PaddingKept, ProfileSet, SetAndUndone, SpareRefused, Unchanged};

/// Rows of packets and of one telegram.
pub fn telegram_rows()
    ensures unchanged { Unchanged }
    ensures set_and_undone { SetAndUndone }
    ensures inserted_and_undone { InsertedAndUndone }
    ensures spare_refused { SpareRefused }
    ensures padding_kept { PaddingKept }
    ensures filled { Filled }
    ensures digits_refused { DigitsRefused }
    ensures link_set { LinkSet }
    ensures profile_set { ProfileSet }
    ensures others_set { OthersSet }
{}

/// Rows of groups and of sessions.
pub fn plan_rows()
    ensures renumbered { Renumbered }
    ensures renumber_refused { RenumberRefused }
    ensures turned { Turned }
    ensures turn_reviewed { TurnReviewed }
    ensures four_packets { FourPackets }
    ensures refilled { Refilled }
    ensures link_struck { LinkStruck }
    ensures nothing_done { NothingDone }
    ensures dropped_and_added { DroppedAndAdded }
    ensures plans_refused { PlansRefused }
    ensures edited_after_undo { EditedAfterUndo }
{}

/// Rows of packet 136.
pub fn infill_rows()
    ensures renumbered { InfillRenumbered }
    ensures taken { InfillTaken }
    ensures set { InfillSet }
    ensures cut { InfillCut }
    ensures reviewed { InfillReviewed }
{}

/// Rows of strikes under later neighbours.
pub fn strike_rows()
    ensures two_inserted { TwoInserted }
    ensures two_added { TwoAdded }
    ensures moved_behind { MovedBehind }
{}

/// Rows of journals.
pub fn journal_rows()
    ensures set_said { SetSaid }
    ensures struck_said { StruckSaid }
    ensures entry_follows { EntryFollows }
    ensures next_refused { NextRefused }
    ensures serials_refused { SerialsRefused }
    ensures notes_refused { NotesRefused }
    ensures stack_refused { StackRefused }
{}

/// Rows of addresses, of the order of refusals and of the last command.
pub fn address_rows()
    ensures resolved { Resolved }
    ensures groups_refused { GroupsRefused }
    ensures versions_told { VersionsTold }
    ensures length_first { LengthFirst }
    ensures nothing_named { NothingNamed }
    ensures last_accepted { LastAccepted }
{}
