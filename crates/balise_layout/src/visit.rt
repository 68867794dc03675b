//! What a visitor is given of each field of a packet.

ghost use Rattle.std.specs.Prelude.{◌≡◌, ℕ, Bool, true, false, MatchResult};
ghost use Rattle.balise_rules.specs.declared.variable.Var.{Var};
ghost use Rattle.balise_layout.specs.declared.fault.LayoutFault.TheVariants.{OutOfMemory};

use crate::fault::LayoutFault;
use balise_rules::Var;

/// Visits the fields of a packet, one by one in bit order. After an error it is given no more.
pub trait Visit: Sized {
    /// Whether it takes memory, and so may run out of it.
    ghost allocates: { Bool };

    /// What it keeps, given how many bits stand from the field on, the variable and the value.
    ghost step: { Self → ℕ → Var → ℕ → Self };

    /// Sees one field more, with `left` bits from it on.
    fn see(&mut self, left: usize, var: Var, value: u32) -> Result<(), LayoutFault>
        ensures { MatchResult result (λ _. self.new ≡ step self.old left var value) (λ e. (e ≡ OutOfMemory) × (allocates ≡ true)) };
}

/// Keeps nothing.
#[derive(Clone, Copy)]
pub struct Nothing;

impl Visit for Nothing {
    ghost allocates = { false };

    ghost step = { λ s left v n. s };

    fn see(&mut self, _left: usize, _var: Var, _value: u32) -> Result<(), LayoutFault> {
        Ok(())
    }
}
