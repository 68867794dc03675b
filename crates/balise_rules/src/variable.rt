//! The variables of packets and headers.

ghost use Rattle.std.specs.Prelude.{◌≡◌, ◌≤◌, Some};
ghost use Rattle.balise_rules.specs.declared.variable.Var.{Var};
ghost use Rattle.balise_rules.specs.Variables.{name_of, steers, var_named, width_of};

use std::fmt;

/// A variable of a packet (SUBSET-026, chapter 7) or of a header (8.4.2), by its name there, as which it is shown.
#[derive(Clone, Copy, PartialEq, Eq)]
pub enum Var {
    /// Number of the packet. 8 bits.
    NidPacket,
    /// Direction in which the packet holds: 0 reverse, 1 nominal, 2 both, 3 spare. 2 bits.
    QDir,
    /// Length of the packet in bits, all of its fields included. 13 bits.
    LPacket,
    /// Scale of the distances of the packet. 2 bits.
    QScale,
    /// How many times the part that follows stands. 5 bits.
    NIter,
    /// Country or region. 10 bits.
    NidC,
    /// Number of a balise group; 16383 names none. 14 bits.
    NidBg,
    /// Distance to the announced group, from the one announced before it. 15 bits.
    DLink,
    /// Whether the announced group is of another country, which then follows. 1 bit.
    QNewcountry,
    /// Direction in which the announced group is met: 1 nominal, 0 reverse. 1 bit.
    QLinkorientation,
    /// Reaction where the announced group is missed. 2 bits.
    QLinkreaction,
    /// Accuracy of the announced group's place. 6 bits.
    QLocacc,
    /// Distance to the next gradient. 15 bits.
    DGradient,
    /// Whether the line goes up. 1 bit.
    QGdir,
    /// Gradient. 8 bits.
    GA,
    /// Distance to the next speed of the profile. 15 bits.
    DStatic,
    /// Speed of the profile. 7 bits.
    VStatic,
    /// Whether the speed holds for the train's front alone. 1 bit.
    QFront,
    /// Kind of train category that follows; 3 is spare. 2 bits.
    QDiff,
    /// Category by cant deficiency. 4 bits.
    NcCddiff,
    /// Other train category. 4 bits.
    NcDiff,
    /// Speed of the category. 7 bits.
    VDiff,
    /// Distance to the level transition. 15 bits.
    DLeveltr,
    /// Level; 1 is followed by a national system. 3 bits.
    MLeveltr,
    /// National train control system. 8 bits.
    NidNtc,
    /// Length of the area of acknowledgement. 15 bits.
    LAckleveltr,
    /// Number of the temporary speed restriction. 8 bits.
    NidTsr,
    /// Distance to the restriction. 15 bits.
    DTsr,
    /// Length of the restriction. 15 bits.
    LTsr,
    /// Speed of the restriction. 7 bits.
    VTsr,
    /// Direction of the telegram: 1 from track to train. 1 bit.
    QUpdown,
    /// Version of the language: three bits and four bits. 7 bits.
    MVersion,
    /// Medium: 0 a balise. 1 bit.
    QMedia,
    /// Place of the balise in its group, from 0. 3 bits.
    NPig,
    /// Number of balises in the group, less one. 3 bits.
    NTotal,
    /// 0 no duplicate, 1 of the next balise, 2 of the previous one, 3 spare. 2 bits.
    MDup,
    /// Message counter. 8 bits.
    MMcount,
    /// Whether the group is linked. 1 bit.
    QLink,
}

/// The variables, each at the place of its name; NID_PACKET also where no name has its place.
static BY_PLACE: [Var; 68] = [
    Var::DGradient,
    Var::MDup,
    Var::NidPacket,
    Var::MVersion,
    Var::NIter,
    Var::NidPacket,
    Var::NidTsr,
    Var::NidPacket,
    Var::QMedia,
    Var::NidPacket,
    Var::NidPacket,
    Var::NidPacket,
    Var::LTsr,
    Var::DStatic,
    Var::NidPacket,
    Var::MLeveltr,
    Var::QLocacc,
    Var::NidPacket,
    Var::NidPacket,
    Var::MMcount,
    Var::QScale,
    Var::QDiff,
    Var::QNewcountry,
    Var::NidPacket,
    Var::LPacket,
    Var::NidC,
    Var::LAckleveltr,
    Var::NidPacket,
    Var::NidPacket,
    Var::NidNtc,
    Var::VTsr,
    Var::NidPacket,
    Var::NidPacket,
    Var::DLink,
    Var::NidPacket,
    Var::NidPacket,
    Var::QLink,
    Var::NPig,
    Var::NcDiff,
    Var::NidBg,
    Var::NidPacket,
    Var::NidPacket,
    Var::NcCddiff,
    Var::NidPacket,
    Var::NidPacket,
    Var::NidPacket,
    Var::NidPacket,
    Var::NidPacket,
    Var::NidPacket,
    Var::QUpdown,
    Var::GA,
    Var::NidPacket,
    Var::DTsr,
    Var::NidPacket,
    Var::NidPacket,
    Var::QDir,
    Var::NTotal,
    Var::QGdir,
    Var::NidPacket,
    Var::VStatic,
    Var::DLeveltr,
    Var::QLinkreaction,
    Var::NidPacket,
    Var::NidPacket,
    Var::VDiff,
    Var::QFront,
    Var::NidPacket,
    Var::QLinkorientation,
];

// The only variable that can have this name. By its length, first and last byte each name has its own place in a table.
// Factors and table were found by scripts/tables/variables.py.
fn candidate(name: &[u8]) -> Option<Var>
    ensures { (var : Var) → name_of var ≡ name.now → result ≡ Some var }
{
    let [first, .., last] = name else {
        return None;
    };
    let place = name.len() % 32 * 2 + usize::from(*first) * 63 + usize::from(*last) * 3;
    Some(BY_PLACE[place % 68])
}

impl Var {
    /// How many bits a value takes.
    #[tactic(auto, unfolding(crate::specs::Variables::width_of))]
    pub fn width(self) -> u32
        ensures width { result ≡ width_of self }
        ensures most { result ≤ 15 }
    {
        match self {
            Var::NidPacket => 8,
            Var::QDir => 2,
            Var::LPacket => 13,
            Var::QScale => 2,
            Var::NIter => 5,
            Var::NidC => 10,
            Var::NidBg => 14,
            Var::DLink => 15,
            Var::QNewcountry => 1,
            Var::QLinkorientation => 1,
            Var::QLinkreaction => 2,
            Var::QLocacc => 6,
            Var::DGradient => 15,
            Var::QGdir => 1,
            Var::GA => 8,
            Var::DStatic => 15,
            Var::VStatic => 7,
            Var::QFront => 1,
            Var::QDiff => 2,
            Var::NcCddiff => 4,
            Var::NcDiff => 4,
            Var::VDiff => 7,
            Var::DLeveltr => 15,
            Var::MLeveltr => 3,
            Var::NidNtc => 8,
            Var::LAckleveltr => 15,
            Var::NidTsr => 8,
            Var::DTsr => 15,
            Var::LTsr => 15,
            Var::VTsr => 7,
            Var::QUpdown => 1,
            Var::MVersion => 7,
            Var::QMedia => 1,
            Var::NPig => 3,
            Var::NTotal => 3,
            Var::MDup => 2,
            Var::MMcount => 8,
            Var::QLink => 1,
        }
    }

    /// The name in the standard.
    #[tactic(auto, unfolding(crate::specs::Variables::name_of))]
    pub fn name(self) -> &'static str
        ensures { result.now ≡ name_of self }
    {
        match self {
            Var::NidPacket => "NID_PACKET",
            Var::QDir => "Q_DIR",
            Var::LPacket => "L_PACKET",
            Var::QScale => "Q_SCALE",
            Var::NIter => "N_ITER",
            Var::NidC => "NID_C",
            Var::NidBg => "NID_BG",
            Var::DLink => "D_LINK",
            Var::QNewcountry => "Q_NEWCOUNTRY",
            Var::QLinkorientation => "Q_LINKORIENTATION",
            Var::QLinkreaction => "Q_LINKREACTION",
            Var::QLocacc => "Q_LOCACC",
            Var::DGradient => "D_GRADIENT",
            Var::QGdir => "Q_GDIR",
            Var::GA => "G_A",
            Var::DStatic => "D_STATIC",
            Var::VStatic => "V_STATIC",
            Var::QFront => "Q_FRONT",
            Var::QDiff => "Q_DIFF",
            Var::NcCddiff => "NC_CDDIFF",
            Var::NcDiff => "NC_DIFF",
            Var::VDiff => "V_DIFF",
            Var::DLeveltr => "D_LEVELTR",
            Var::MLeveltr => "M_LEVELTR",
            Var::NidNtc => "NID_NTC",
            Var::LAckleveltr => "L_ACKLEVELTR",
            Var::NidTsr => "NID_TSR",
            Var::DTsr => "D_TSR",
            Var::LTsr => "L_TSR",
            Var::VTsr => "V_TSR",
            Var::QUpdown => "Q_UPDOWN",
            Var::MVersion => "M_VERSION",
            Var::QMedia => "Q_MEDIA",
            Var::NPig => "N_PIG",
            Var::NTotal => "N_TOTAL",
            Var::MDup => "M_DUP",
            Var::MMcount => "M_MCOUNT",
            Var::QLink => "Q_LINK",
        }
    }

    /// The variable of this name, written as in the standard.
    pub fn from_name(name: &str) -> Option<Var>
        ensures { result ≡ var_named name.now }
    {
        Var::from_bytes(name.as_bytes())
    }

    /// The variable whose name these bytes are.
    pub fn from_bytes(name: &[u8]) -> Option<Var>
        ensures { result ≡ var_named name.now }
    {
        let var = candidate(name)?;
        if var.name().as_bytes() == name {
            return Some(var);
        }
        None
    }

    /// Whether no edit sets the variable of a packet in place, since its value says what follows, or since another edit sets it.
    #[tactic(auto, unfolding(crate::specs::Variables::steers))]
    pub fn steers(self) -> bool
        ensures { result ≡ steers self }
    {
        matches!(
            self,
            Var::NidPacket
                | Var::LPacket
                | Var::NIter
                | Var::QNewcountry
                | Var::NidC
                | Var::MLeveltr
                | Var::QDiff
        )
    }
}

impl fmt::Debug for Var {
    fn fmt<W: fmt::Write>(&self, f: &mut fmt::Formatter<W>) -> fmt::Result {
        f.write_str(self.name())
    }
}
