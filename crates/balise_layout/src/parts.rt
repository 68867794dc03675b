//! Parts of packets that may stand several times (SUBSET-026, chapter 7), one field after another as the standard
//! lists them.

ghost use Rattle.std.specs.Prelude.{◌≡◌};
ghost use Rattle.balise_rules.specs.Forms.{Form};
ghost use Rattle.balise_rules.specs.Packets.{counted};
ghost use Rattle.balise_layout.specs.Reading.{Reads};

use crate::fault::LayoutFault;
use crate::walk::Walk;
use balise_rules::Var;

/// A part of a packet that may stand several times.
pub(crate) trait Repeated {
    /// Its fields, before those that follow.
    ghost form: { Form → Form };

    /// Goes over one.
    fn walk<W: Walk>(walker: &mut W) -> Result<(), LayoutFault>
        ensures { Reads W.allocates W.run form walker.old result walker.new };
}

/// N_ITER, and N_ITER parts after it.
#[tactic(auto, unfolding(balise_rules::specs::Packets::counted), using(crate::proofs::Walks::repeat_next, crate::proofs::Walks::repeat_last))]
pub(crate) fn walk_counted<P: Repeated, W: Walk>(walker: &mut W) -> Result<(), LayoutFault>
    ensures { Reads W.allocates W.run (counted P.form) walker.old result walker.new }
{
    let more = walker.take(Var::NIter)?;
    for _ in 0..more {
        P::walk(walker)?;
    }
    Ok(())
}

/// An element of packet 5.
pub(crate) struct Link;

impl Repeated for Link {
    ghost use Rattle.balise_rules.specs.Packets.{link};

    ghost form = { link };

    #[tactic(auto, unfolding(balise_rules::specs::Packets::link))]
    fn walk<W: Walk>(walker: &mut W) -> Result<(), LayoutFault> {
        walker.take(Var::DLink)?;
        let new_country = walker.take(Var::QNewcountry)?;
        if new_country == 1 {
            walker.take(Var::NidC)?;
        }
        walker.take(Var::NidBg)?;
        walker.take(Var::QLinkorientation)?;
        walker.take(Var::QLinkreaction)?;
        walker.take(Var::QLocacc)?;
        Ok(())
    }
}

/// A gradient of packet 21.
pub(crate) struct Gradient;

impl Repeated for Gradient {
    ghost use Rattle.balise_rules.specs.Packets.{gradient};

    ghost form = { gradient };

    #[tactic(auto, unfolding(balise_rules::specs::Packets::gradient))]
    fn walk<W: Walk>(walker: &mut W) -> Result<(), LayoutFault> {
        walker.take(Var::DGradient)?;
        walker.take(Var::QGdir)?;
        walker.take(Var::GA)?;
        Ok(())
    }
}

/// A speed for one category of trains; Q_DIFF 3 is spare.
pub(crate) struct Difference;

impl Repeated for Difference {
    ghost use Rattle.balise_rules.specs.Packets.{difference};

    ghost form = { difference };

    #[tactic(auto, unfolding(balise_rules::specs::Packets::difference))]
    fn walk<W: Walk>(walker: &mut W) -> Result<(), LayoutFault> {
        match walker.take(Var::QDiff)? {
            0 => {
                walker.take(Var::NcCddiff)?;
            }
            3 => return Err(walker.spare()),
            _ => {
                walker.take(Var::NcDiff)?;
            }
        }
        walker.take(Var::VDiff)?;
        Ok(())
    }
}

/// A section of packet 27.
pub(crate) struct Section;

impl Repeated for Section {
    ghost use Rattle.balise_rules.specs.Packets.{section};

    ghost form = { section };

    #[tactic(auto, unfolding(balise_rules::specs::Packets::section))]
    fn walk<W: Walk>(walker: &mut W) -> Result<(), LayoutFault> {
        walker.take(Var::DStatic)?;
        walker.take(Var::VStatic)?;
        walker.take(Var::QFront)?;
        walk_counted::<Difference, W>(walker)?;
        Ok(())
    }
}

/// A level; M_LEVELTR 1, level NTC, is followed by the national system.
pub(crate) struct Level;

impl Repeated for Level {
    ghost use Rattle.balise_rules.specs.Packets.{level};

    ghost form = { level };

    #[tactic(auto, unfolding(balise_rules::specs::Packets::level))]
    fn walk<W: Walk>(walker: &mut W) -> Result<(), LayoutFault> {
        let level = walker.take(Var::MLeveltr)?;
        if level == 1 {
            walker.take(Var::NidNtc)?;
        }
        walker.take(Var::LAckleveltr)?;
        Ok(())
    }
}
