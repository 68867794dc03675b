//! The identity of a balise group.

/// The identity of a balise group: country or region (NID_C, 10 bits) and number (NID_BG, 14 bits), as SUBSET-026, 3.4 and 8.4.2 have them.
#[derive(Clone, Copy, Debug, PartialEq, Eq, PartialOrd, Ord, Hash)]
pub struct Id {
    /// NID_C.
    pub country: u32,
    /// NID_BG; [`NO_GROUP`] is no group's number, and names none.
    pub number: u32,
}

/// NID_BG of an element that names no group (SUBSET-026, 7.5), and the largest number of 14 bits.
pub const NO_GROUP: u32 = 16383;
