//! Fields with their places.

ghost use Rattle.std.specs.Prelude.{◌≡◌, ◌+◌, ◌<◌, ◌^◌, length, IfOk, IsOkUnless};
ghost use Rattle.balise_rules.specs.Forms.{spelling};
ghost use Rattle.balise_rules.specs.Variables.{width_of};
ghost use Rattle.balise_layout.specs.Collected.{all_keyed};
ghost use Rattle.balise_codec.specs.Places.{placed};

use balise_layout::LayoutFault;
use balise_rules::Var;
use std::alloc::Global;

/// A field with its place.
#[derive(Clone, Copy, Debug, PartialEq, Eq)]
pub struct Placed {
    /// The place of its first bit.
    pub at: usize,
    /// Its variable.
    pub var: Var,
    /// Which occurrence of the variable it is in its packet or header, from 0.
    pub occurrence: u32,
    /// Its value.
    pub value: u32,
}

impl Placed {
    /// How many bits it takes.
    pub fn width(self) -> u32
        ensures { result ≡ width_of self.var }
    {
        self.var.width()
    }
}

/// The fields, one after another from the place on, and the place after them.
pub fn place_all(
    alloc: Global,
    at: usize,
    fields: &[(Var, u32, u32)],
) -> Result<(Vec<Placed>, usize), LayoutFault>
    requires { at + length (spelling (all_keyed fields.now)) < 2 ^ 64 }
    ensures ok { IfOk result (λ r. (r.0.items ≡ placed at (all_keyed fields.now)) × (r.1 ≡ at + length (spelling (all_keyed fields.now)))) }
    ensures fault { IsOkUnless result LayoutFault.OutOfMemory }
{
    let mut placed = Vec::new(alloc);
    let mut next = at;
    for i in 0..fields.len() {
        let (var, occurrence, value) = fields[i];
        placed.push(Placed {
            at: next,
            var,
            occurrence,
            value,
        })?;
        next += var.width() as usize;
    }
    Ok((placed, next))
}
