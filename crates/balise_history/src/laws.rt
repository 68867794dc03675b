//! What a session promises, in its own words.

ghost use Rattle.balise_history.specs.Unmade.{EditsUndone, PromisedOnTheWay};
ghost use Rattle.balise_strike_laws.specs.Headline.{Headline, Promised};

use crate::session::Session;

/// After any commands, a session's plan is what the standing edits alone make of the plan first read. Undo, redo and
/// strike are taken back exactly by their counterparts. A strike is refused as dependent exactly where a later edit
/// isn't independent. A refused command changes nothing. The journal is read back as the session.
pub fn headline()
    ensures { Headline }
{
    balise_strike_laws::headline();
}

/// All of that holds of each state that commands lead through, and not of the last one alone.
pub fn promised_on_the_way()
    ensures { PromisedOnTheWay }
{}

/// After n accepted edits of a plan, n accepted undos give that plan with nothing standing. Each of these undos is
/// refused only as `Worn` or `OutOfMemory`.
pub fn edits_undone()
    ensures { EditsUndone }
{}

/// What `headline` says holds of a session as it is.
pub fn promised(session: &Session)
    ensures { Promised session.now.state.base session.now.state }
{
    session.edited.promise();
}
