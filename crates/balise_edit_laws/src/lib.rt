//! Laws of the balise plan: an edit taken back leaves the plan as it was, an accepted edit keeps a plan sound, and an
//! edit is refused exactly where it isn't accepted. Each is the contract of a function that does nothing: it follows
//! from the definitions alone.
#![tactic(auto)]

ghost use Rattle.balise_edit_laws.specs.Along.{KeptAlong, TakenBackAlong};
ghost use Rattle.balise_edit_laws.specs.Commands.{CommandsReady};
ghost use Rattle.balise_edit_laws.specs.Content.{ContentAside};
ghost use Rattle.balise_edit_laws.specs.Done.{DoneAlong, DoneExactly};
ghost use Rattle.balise_edit_laws.specs.GoesBack.{GoesBack};
ghost use Rattle.balise_edit_laws.specs.Kept.{Kept, SpeltKept};
ghost use Rattle.balise_edit_laws.specs.Lines.{LinesReady};
ghost use Rattle.balise_edit_laws.specs.ReadSound.{ReadSound};
ghost use Rattle.balise_edit_laws.specs.Refused.{GroupTold, NameTold, Refused};
ghost use Rattle.balise_edit_laws.specs.TakenBack.{TakenBack};
ghost use Rattle.balise_edit_laws.specs.Witness.{Witnessed};

/// Each of the nine edits, taken back, leaves the plan as it was, and done again makes what it made.
pub fn taken_back()
    ensures { TakenBack }
{}

/// All conditions of taking an edit back hold of the plan that the edit made, so it is never refused.
pub fn goes_back()
    ensures { GoesBack }
{}

/// An accepted edit leaves a sound plan sound, and a serial that tags nothing still tags nothing.
pub fn kept()
    ensures { Kept }
{}

/// A packet to be inserted stays well-formed for its telegram whatever other edit is done, and was so before it.
pub fn spelt_kept()
    ensures { SpeltKept }
{}

/// A plan that is read is sound, and no serial tags anything in it.
pub fn read_sound()
    ensures { ReadSound }
{}

/// An edit is refused by a number exactly where it isn't accepted.
pub fn refused()
    ensures { Refused }
{}

/// The test for a name finds none exactly where no element has the identity, whatever its number.
pub fn name_told()
    ensures { NameTold }
{}

/// The search for a group finds none exactly where no group has the identity.
pub fn group_told()
    ensures { GroupTold }
{}

/// A command that isn't refused asks for an edit that is ready: it is accepted, and a packet to be inserted is
/// well-formed.
pub fn commands_ready()
    ensures { CommandsReady }
{}

/// What an edit makes is answered exactly where it is accepted.
pub fn done_exactly()
    ensures { DoneExactly }
{}

/// Ready edits done one after another give what they make, and none is refused.
pub fn done_along()
    ensures { DoneAlong }
{}

/// A journal's line that fits a plan gives an edit that is ready on it, and notes what the line says.
pub fn lines_ready()
    ensures { LinesReady }
{}

/// The places of an entry don't look at the content that was taken out, so an entry that was taken back tests as it did.
pub fn content_aside()
    ensures { ContentAside }
{}

/// Edits accepted one after another on a sound plan are ready, and make a sound plan.
pub fn kept_along()
    ensures { KeptAlong }
{}

/// Edits taken back, the last one first, give the plan that they began with.
pub fn taken_back_along()
    ensures { TakenBackAlong }
{}

/// A plan and edits that fulfil the premises of these laws, and an edit that is refused.
pub fn witnessed()
    ensures { Witnessed }
{}
