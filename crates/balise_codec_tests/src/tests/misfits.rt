//! Values that aren't due, with their places.

use crate::tests::packets::{LINKS_VALUES, REVOCATION_VALUES};
use balise_bits::Bits;
use balise_codec::{Misfit, SpellFault, Var, find_misfit, misfit_of, spell_packet};
use std::process::Abort;

// Values of a packet of version 2.1, the place of the first misfit, and why it is one.
const ROWS: [(&[(Var, u32)], usize, Misfit); 11] = [
    (&[], 0, Misfit::Missing(Var::NidPacket)),
    (&[(Var::QDir, 1)], 0, Misfit::NotDue(Var::NidPacket)),
    (&[(Var::NidPacket, 256)], 0, Misfit::TooWide),
    (&[(Var::NidPacket, 0), (Var::QDir, 1)], 0, Misfit::NoFields),
    (&[(Var::NidPacket, 255)], 0, Misfit::NoFields),
    (&[(Var::NidPacket, 66), (Var::QDir, 4)], 1, Misfit::TooWide),
    (
        &[(Var::NidPacket, 66), (Var::QDir, 1)],
        2,
        Misfit::Missing(Var::NidTsr),
    ),
    (
        &[
            (Var::NidPacket, 66),
            (Var::QDir, 1),
            (Var::NidTsr, 5),
            (Var::NidTsr, 6),
        ],
        3,
        Misfit::TooMany,
    ),
    // A country without Q_NEWCOUNTRY 1.
    (
        &[
            (Var::NidPacket, 136),
            (Var::QDir, 1),
            (Var::QNewcountry, 0),
            (Var::NidC, 6),
        ],
        3,
        Misfit::NotDue(Var::NidBg),
    ),
    // Q_DIFF 3.
    (
        &[
            (Var::NidPacket, 27),
            (Var::QDir, 1),
            (Var::QScale, 0),
            (Var::DStatic, 1),
            (Var::VStatic, 1),
            (Var::QFront, 1),
            (Var::NIter, 1),
            (Var::QDiff, 3),
        ],
        7,
        Misfit::Spare,
    ),
    // An unknown packet has no further fields.
    (
        &[(Var::NidPacket, 44), (Var::QDir, 1), (Var::QScale, 0)],
        2,
        Misfit::TooMany,
    ),
];

fn check_row(rt: &impl Abort, none: &Bits, values: &[(Var, u32)], at: usize, misfit: Misfit) {
    assert!(rt; find_misfit(33, values) == Some((at, misfit)));
    let fault = spell_packet(none.allocator(), 33, values, none).err();
    assert!(rt; fault == Some(SpellFault::Misfit(at, misfit)));
}

#[test]
fn the_first_misfit_is_found(rt: HostRuntime) {
    let none = Bits::new(rt.alloc());
    for (values, at, misfit) in &ROWS {
        check_row(&rt, &none, values, *at, *misfit);
    }
}

#[test]
fn what_is_due_fits(rt: HostRuntime) {
    assert!(rt; find_misfit(33, &REVOCATION_VALUES).is_none());
    assert!(rt; find_misfit(33, &LINKS_VALUES).is_none());
}

#[test]
fn a_value_is_one_of_its_variable_or_not(rt: HostRuntime) {
    assert!(rt; misfit_of(Var::QDir, &[]) == Some(Misfit::Missing(Var::QDir)));
    let other = misfit_of(Var::QDir, &[(Var::NidC, 1), (Var::QDir, 1)]);
    assert!(rt; other == Some(Misfit::NotDue(Var::QDir)));
    assert!(rt; misfit_of(Var::QDir, &[(Var::QDir, 4)]) == Some(Misfit::TooWide));
    assert!(rt; misfit_of(Var::QDir, &[(Var::QDir, 3), (Var::NidC, 1)]).is_none());
}
