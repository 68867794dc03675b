//! Which facts a call asks for, by numbers.

ghost use Rattle.std.specs.Prelude.{◌≡◌};
ghost use Rattle.balise_c.specs.FactNumbers.{facts_of};

use balise_cli::Facts;

/// The lowest number that no facts have.
pub(crate) const FIRST_OTHER: u32 = 3;

/// The facts of a number, and of a serial where they are those of one edit.
pub(crate) fn facts_of(what: u32, serial: u32) -> Facts
    ensures { result ≡ facts_of what serial }
{
    match what {
        0 => Facts::Edits,
        1 => Facts::Edit(serial),
        _ => Facts::Tags,
    }
}
