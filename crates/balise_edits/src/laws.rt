//! The laws of undo, redo and strike, over the rules alone. Each function does nothing: its contract is the law.

ghost use Rattle.balise_strike_laws.specs.Laws.{Commuting, CommutingBehind};

/// Edits that are apart commute: in the other order both are accepted, note the same and make the same plan.
pub fn commute()
    ensures { Commuting }
{
    balise_strike_laws::commute();
}

/// An edit that stands after what another put in commutes with it, once it is anchored on the other's own anchor.
pub fn commute_behind()
    ensures { CommutingBehind }
{
    balise_strike_laws::commute_behind();
}
