//! The laws of undo, redo and strike, over the definitions of `balise_rules` alone. Each law is the contract of a
//! function with no parameters and an empty body.
#![tactic(auto)]

ghost use Rattle.balise_strike_laws.specs.Headline.{Headline, SessionsPromised};
ghost use Rattle.balise_strike_laws.specs.Laws.{Commuting, CommutingBehind, IsSymmetric};
ghost use Rattle.balise_strike_laws.specs.Striking.{StrikingUnder};
ghost use Rattle.balise_strike_laws.specs.InSession.{StrikingHere, UndoingHere};
ghost use Rattle.balise_strike_laws.specs.Redoing.{RedoingHere};
ghost use Rattle.balise_strike_laws.specs.Sessions.{OpeningsBegin, OpeningsKept, PlansMade, SessionsBegin, SessionsKept};
ghost use Rattle.balise_strike_laws.specs.Witness.{HasExample};

/// Edits that are apart commute: in the other order both are accepted, note the same and make the same plan.
pub fn commute()
    ensures { Commuting }
{}

/// Whether two entries are apart is the same from both sides.
pub fn apart_from_both_sides()
    ensures { IsSymmetric }
{}

/// An edit that stands after what another put in commutes with it, once it is anchored on the other's own anchor.
pub fn commute_behind()
    ensures { CommutingBehind }
{}

/// If all later edits are independent of an edit, its strike is one change. The other edits stand and note what they
/// noted; those that stand after the edit get its anchor. Taking it back gives what the others make, and doing it again
/// gives what all make.
pub fn strike_under()
    ensures { StrikingUnder }
{}

/// The law of a strike in the words of a session: the edit of a serial, the entries after it, the edits of other
/// serials with their anchors, and its own place among them.
pub fn strike_in_session()
    ensures { StrikingHere }
{}

/// An undo in the words of a session: the strike of its last edit.
pub fn undo_in_session()
    ensures { UndoingHere }
{}

/// A redo in the words of a session: the top of its stack put back by one change.
pub fn redo_in_session()
    ensures { RedoingHere }
{}

/// A plan and three edits that fulfil the premises of these laws: edits that are apart, a pair that isn't, and one that
/// stands after another.
pub fn witnessed()
    ensures { HasExample }
{}

/// A session begins as one, and every command leaves one, out of memory included.
pub fn sessions_kept()
    ensures begin { SessionsBegin }
    ensures kept { SessionsKept }
{}

/// A journal is opened as a session, and every line of it leaves one.
pub fn openings_kept()
    ensures begin { OpeningsBegin }
    ensures kept { OpeningsKept }
{}

/// The plan of a session is what its standing edits alone, in order, make of the plan first read, and sound.
pub fn plans_made()
    ensures { PlansMade }
{}

/// What a session promises in each of its states: its plan is made by the standing edits alone; undo, strike and redo are taken back by one another; a strike is refused as dependent exactly where a later edit isn't independent; a refused command changes nothing; and what it says as a journal is read back.
pub fn sessions_promised()
    ensures { SessionsPromised }
{}

/// All of that, for every sound plan that no serial tags and every list of commands.
pub fn headline()
    ensures { Headline }
{}
