//! The header of a telegram, from its values.

ghost use Rattle.std.specs.Prelude.{◌≡◌, ◌≤◌, length, IfSome};
ghost use Rattle.balise_rules.specs.Telegram.{header};
ghost use Rattle.balise_codec.specs.Misfits.{misfit_along};

use balise_codec::{Misfit, Var, misfit_of};

/// The variables of a header.
const HEADER: [Var; 10] = [
    Var::QUpdown,
    Var::MVersion,
    Var::QMedia,
    Var::NPig,
    Var::NTotal,
    Var::MDup,
    Var::MMcount,
    Var::NidC,
    Var::NidBg,
    Var::QLink,
];

/// The first value that isn't due in a header, by its place from 0, and why.
pub(crate) fn header_misfit(values: &[(Var, u32)]) -> Option<(usize, Misfit)>
    ensures first { result ≡ misfit_along header 0 values.now }
    ensures within { IfSome result (λ m. m.0 ≤ length values.now) }
{
    for place in 0..HEADER.len() {
        if let Some(misfit) = misfit_of(HEADER[place], &values[place..]) {
            return Some((place, misfit));
        }
    }
    if values.len() > HEADER.len() {
        return Some((HEADER.len(), Misfit::TooMany));
    }
    None
}
