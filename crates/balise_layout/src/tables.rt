//! The layouts of packets (SUBSET-026, chapter 7), one field after another as the standard lists them.

use crate::fault::LayoutFault;
use crate::layout::Layout;
use crate::parts::{Difference, Gradient, Level, Link, Repeated, Section, walk_counted};
use crate::walk::Walk;
use balise_rules::Var;

/// Packet 5, linking: the balise groups that follow on the line.
pub struct Linking;

impl Layout for Linking {
    ghost use Rattle.std.specs.Prelude.{Some, refl};
    ghost use Rattle.balise_rules.specs.Forms.{shut};
    ghost use Rattle.balise_rules.specs.Packets.{known_body, linking};
    ghost use Rattle.balise_layout.specs.Layouts.{form_of};

    const NUMBER: Option<u32> = Some(5);

    ghost NUMBER = { Some 5 };

    ghost form = { linking shut };

    #[tactic(auto, unfolding(balise_rules::specs::Packets::linking))]
    fn walk<W: Walk>(walker: &mut W) -> Result<(), LayoutFault> {
        walker.take(Var::QScale)?;
        Link::walk(walker)?;
        walk_counted::<Link, W>(walker)?;
        walker.end()
    }

    ghost ruled = { unfold form_of known_body in refl };
}

/// Packet 21, gradient profile.
pub struct GradientProfile;

impl Layout for GradientProfile {
    ghost use Rattle.std.specs.Prelude.{Some, refl};
    ghost use Rattle.balise_rules.specs.Forms.{shut};
    ghost use Rattle.balise_rules.specs.Packets.{known_body, gradients};
    ghost use Rattle.balise_layout.specs.Layouts.{form_of};

    const NUMBER: Option<u32> = Some(21);

    ghost NUMBER = { Some 21 };

    ghost form = { gradients shut };

    #[tactic(auto, unfolding(balise_rules::specs::Packets::gradients))]
    fn walk<W: Walk>(walker: &mut W) -> Result<(), LayoutFault> {
        walker.take(Var::QScale)?;
        Gradient::walk(walker)?;
        walk_counted::<Gradient, W>(walker)?;
        walker.end()
    }

    ghost ruled = { unfold form_of known_body in refl };
}

/// Packet 27, international static speed profile.
pub struct SpeedProfile;

impl Layout for SpeedProfile {
    ghost use Rattle.std.specs.Prelude.{Some, refl};
    ghost use Rattle.balise_rules.specs.Forms.{shut};
    ghost use Rattle.balise_rules.specs.Packets.{known_body, speeds};
    ghost use Rattle.balise_layout.specs.Layouts.{form_of};

    const NUMBER: Option<u32> = Some(27);

    ghost NUMBER = { Some 27 };

    ghost form = { speeds shut };

    #[tactic(auto, unfolding(balise_rules::specs::Packets::speeds))]
    fn walk<W: Walk>(walker: &mut W) -> Result<(), LayoutFault> {
        walker.take(Var::QScale)?;
        Section::walk(walker)?;
        walk_counted::<Section, W>(walker)?;
        walker.end()
    }

    ghost ruled = { unfold form_of known_body in refl };
}

/// Packet 41, level transition order.
pub struct LevelTransition;

impl Layout for LevelTransition {
    ghost use Rattle.std.specs.Prelude.{Some, refl};
    ghost use Rattle.balise_rules.specs.Forms.{shut};
    ghost use Rattle.balise_rules.specs.Packets.{known_body, levels};
    ghost use Rattle.balise_layout.specs.Layouts.{form_of};

    const NUMBER: Option<u32> = Some(41);

    ghost NUMBER = { Some 41 };

    ghost form = { levels shut };

    #[tactic(auto, unfolding(balise_rules::specs::Packets::levels))]
    fn walk<W: Walk>(walker: &mut W) -> Result<(), LayoutFault> {
        walker.take(Var::QScale)?;
        walker.take(Var::DLeveltr)?;
        Level::walk(walker)?;
        walk_counted::<Level, W>(walker)?;
        walker.end()
    }

    ghost ruled = { unfold form_of known_body in refl };
}

/// Packet 65, temporary speed restriction.
pub struct SpeedRestriction;

impl Layout for SpeedRestriction {
    ghost use Rattle.std.specs.Prelude.{Some, refl};
    ghost use Rattle.balise_rules.specs.Forms.{shut};
    ghost use Rattle.balise_rules.specs.Packets.{known_body, restriction};
    ghost use Rattle.balise_layout.specs.Layouts.{form_of};

    const NUMBER: Option<u32> = Some(65);

    ghost NUMBER = { Some 65 };

    ghost form = { restriction shut };

    #[tactic(auto, unfolding(balise_rules::specs::Packets::restriction))]
    fn walk<W: Walk>(walker: &mut W) -> Result<(), LayoutFault> {
        walker.take(Var::QScale)?;
        walker.take(Var::NidTsr)?;
        walker.take(Var::DTsr)?;
        walker.take(Var::LTsr)?;
        walker.take(Var::QFront)?;
        walker.take(Var::VTsr)?;
        walker.end()
    }

    ghost ruled = { unfold form_of known_body in refl };
}

/// Packet 66, temporary speed restriction revocation.
pub struct Revocation;

impl Layout for Revocation {
    ghost use Rattle.std.specs.Prelude.{Some, refl};
    ghost use Rattle.balise_rules.specs.Forms.{shut};
    ghost use Rattle.balise_rules.specs.Packets.{known_body, revocation};
    ghost use Rattle.balise_layout.specs.Layouts.{form_of};

    const NUMBER: Option<u32> = Some(66);

    ghost NUMBER = { Some 66 };

    ghost form = { revocation shut };

    #[tactic(auto, unfolding(balise_rules::specs::Packets::revocation))]
    fn walk<W: Walk>(walker: &mut W) -> Result<(), LayoutFault> {
        walker.take(Var::NidTsr)?;
        walker.end()
    }

    ghost ruled = { unfold form_of known_body in refl };
}

/// Packet 136, infill location reference.
pub struct InfillLocation;

impl Layout for InfillLocation {
    ghost use Rattle.std.specs.Prelude.{Some, refl};
    ghost use Rattle.balise_rules.specs.Forms.{shut};
    ghost use Rattle.balise_rules.specs.Packets.{known_body, infill};
    ghost use Rattle.balise_layout.specs.Layouts.{form_of};

    const NUMBER: Option<u32> = Some(136);

    ghost NUMBER = { Some 136 };

    ghost form = { infill shut };

    #[tactic(auto, unfolding(balise_rules::specs::Packets::infill))]
    fn walk<W: Walk>(walker: &mut W) -> Result<(), LayoutFault> {
        if walker.take(Var::QNewcountry)? == 1 {
            walker.take(Var::NidC)?;
        }
        walker.take(Var::NidBg)?;
        walker.end()
    }

    ghost ruled = { unfold form_of known_body in refl };
}

/// A packet that isn't known, kept bit for bit after its first three fields.
pub struct Opaque;

impl Layout for Opaque {
    ghost use Rattle.std.specs.Prelude.{None, refl};
    ghost use Rattle.balise_rules.specs.Forms.{done};
    ghost use Rattle.balise_layout.specs.Layouts.{form_of};

    const NUMBER: Option<u32> = None;

    ghost NUMBER = { None };

    ghost form = { done };

    fn walk<W: Walk>(walker: &mut W) -> Result<(), LayoutFault> {
        walker.leave()
    }

    ghost ruled = { unfold form_of in refl };
}
