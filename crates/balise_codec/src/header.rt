//! The fields of a header.

ghost use Rattle.std.specs.Prelude.{◌≡◌};
ghost use Rattle.balise_rules.specs.Telegram.{is_balise};
ghost use Rattle.balise_layout.specs.Collected.{all_keyed};
ghost use Rattle.balise_telegram.specs.HeaderFields.{fields_in};

use balise_rules::Var;
use balise_telegram::Header;

// Its ten fields, in bit order.
pub(crate) fn header_fields(header: &Header) -> [(Var, u32, u32); 10]
    ensures { all_keyed result ≡ fields_in header.now }
{
    [
        (Var::QUpdown, 0, header.q_updown),
        (Var::MVersion, 0, header.m_version),
        (Var::QMedia, 0, header.q_media),
        (Var::NPig, 0, header.n_pig),
        (Var::NTotal, 0, header.n_total),
        (Var::MDup, 0, header.m_dup),
        (Var::MMcount, 0, header.m_mcount),
        (Var::NidC, 0, header.nid_c),
        (Var::NidBg, 0, header.nid_bg),
        (Var::QLink, 0, header.q_link),
    ]
}

// Whether it is from track to train, and a balise's.
pub(crate) fn is_balise(header: &Header) -> bool
    ensures { result ≡ is_balise (fields_in header.now) }
{
    (header.q_updown == 1) & (header.q_media == 0)
}
