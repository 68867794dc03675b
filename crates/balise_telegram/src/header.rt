//! The header of a telegram.

ghost use Rattle.std.specs.Prelude.{◌≡◌, ◌≤◌, length};
ghost use Rattle.balise_rules.specs.Packet.{value};
ghost use Rattle.balise_rules.specs.Telegram.{is_balise, read_header};
ghost use Rattle.balise_rules.specs.Variables.{is_free_in_header};
ghost use Rattle.balise_rules.specs.declared.variable.Var.TheVariants.{MVersion, NidBg, NidC, NPig, NTotal};
ghost use Rattle.balise_telegram.specs.HeaderFields.{fields_in, head_place};

use balise_layout::Bits;
use balise_rules::{Id, Var};

/// The ten numbers of a header, 50 bits (SUBSET-026, 8.4.2).
#[derive(Clone, Copy, Debug, PartialEq, Eq)]
pub struct Header {
    /// Q_UPDOWN, of 1 bit: 1 from track to train.
    pub q_updown: u32,
    /// M_VERSION, of 7 bits: the first three are the X of version X.Y, the last four its Y.
    pub m_version: u32,
    /// Q_MEDIA, of 1 bit: 0 a balise.
    pub q_media: u32,
    /// N_PIG, of 3 bits: the balise's place in its group, from 0.
    pub n_pig: u32,
    /// N_TOTAL, of 3 bits: the number of balises in the group, less one.
    pub n_total: u32,
    /// M_DUP, of 2 bits: whether a neighbour's telegram is a duplicate.
    pub m_dup: u32,
    /// M_MCOUNT, of 8 bits: the message counter.
    pub m_mcount: u32,
    /// NID_C, of 10 bits: country or region.
    pub nid_c: u32,
    /// NID_BG, of 14 bits: the group's number.
    pub nid_bg: u32,
    /// Q_LINK, of 1 bit: whether the group is linked.
    pub q_link: u32,
}

impl Header {
    /// The header in the first 50 of a telegram's bits, whatever its values are.
    pub fn read(bits: &Bits) -> Header
        requires { 50 ≤ length bits.now }
        ensures { fields_in result ≡ read_header bits.now }
    {
        Header {
            q_updown: bits.number(0, 1),
            m_version: bits.number(1, 7),
            q_media: bits.number(8, 1),
            n_pig: bits.number(9, 3),
            n_total: bits.number(12, 3),
            m_dup: bits.number(15, 2),
            m_mcount: bits.number(17, 8),
            nid_c: bits.number(25, 10),
            nid_bg: bits.number(35, 14),
            q_link: bits.number(49, 1),
        }
    }

    /// Whether the header in the first 50 of a telegram's bits is from track to train (Q_UPDOWN is 1), and a balise's
    /// (Q_MEDIA is 0).
    pub(crate) fn is_balise_in(bits: &Bits) -> bool
        requires { 50 ≤ length bits.now }
        ensures { result ≡ is_balise (read_header bits.now) }
    {
        let first = bits.number(0, 9);
        (first / 256 == 1) & (first % 2 == 0)
    }

    /// M_VERSION of the header in the first 50 of a telegram's bits.
    pub(crate) fn version_in(bits: &Bits) -> u32
        requires { 50 ≤ length bits.now }
        ensures { result ≡ value MVersion 0 (read_header bits.now) }
    {
        bits.number(1, 7)
    }

    /// NID_C and NID_BG of the header in the first 50 of a telegram's bits.
    #[inline(always)]
    pub(crate) fn identity_in(bits: &Bits) -> Id
        requires { 50 ≤ length bits.now }
        ensures country { result.country ≡ value NidC 0 (read_header bits.now) }
        ensures number { result.number ≡ value NidBg 0 (read_header bits.now) }
    {
        let both = bits.number(25, 24);
        Id {
            country: both / 16384,
            number: both % 16384,
        }
    }

    /// N_PIG and N_TOTAL of the header in the first 50 of a telegram's bits.
    pub(crate) fn place_in(bits: &Bits) -> (u32, u32)
        requires { 50 ≤ length bits.now }
        ensures pig { result.0 ≡ value NPig 0 (read_header bits.now) }
        ensures total { result.1 ≡ value NTotal 0 (read_header bits.now) }
    {
        let both = bits.number(9, 6);
        (both / 8, both % 8)
    }
}

/// How many bits of a header stand before a variable, where a header has it.
#[tactic(auto, unfolding(balise_rules::specs::Variables::width_of))]
pub(crate) fn head_place(var: Var) -> Option<usize>
    ensures { result ≡ head_place var }
{
    match var {
        Var::QUpdown => Some(0),
        Var::MVersion => Some(1),
        Var::QMedia => Some(8),
        Var::NPig => Some(9),
        Var::NTotal => Some(12),
        Var::MDup => Some(15),
        Var::MMcount => Some(17),
        Var::NidC => Some(25),
        Var::NidBg => Some(35),
        Var::QLink => Some(49),
        _ => None,
    }
}

/// Whether a header's variable is set in place.
#[tactic(auto, unfolding(balise_rules::specs::Variables::is_free_in_header))]
pub(crate) fn is_free(var: Var) -> bool
    ensures { result ≡ is_free_in_header var }
{
    matches!(var, Var::MDup | Var::MMcount | Var::QLink)
}
